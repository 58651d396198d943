//! What becomes of a running cluster's frames by chance: the gate of `--lose`, `--repeat` and `--seed`.
//!
//! It is our own. Proved: which frames are lost and which come twice. A cluster answers rightly whatever becomes of them.

ghost use Rattle.std.specs.Prelude.{◌≡◌, ◌%◌, ◌<◌};
ghost use Rattle.cpg_console.specs.Chances.{dice_at, fate_by};

use cpg_cred::NodeId;
use cpg_daemon::{Fate, Gate};
use rand_core::utils::NextWord;
use rand_pcg::Pcg32;

/// How many of a hundred frames are lost, how many of a hundred of the others come twice, and which these are: the words of
/// a generator that the seed and the two nodes choose decide, so that a frame of the same number between the same two
/// nodes meets the same fate in each run.
#[derive(Debug, Clone, Copy)]
pub struct Chances {
    /// Of a hundred frames, 0 to 100.
    pub lose: u8,
    /// Of a hundred frames that are not lost, 0 to 100.
    pub repeat: u8,
    /// The generator's state.
    pub seed: u64,
}

impl Chances {
    /// The generator at the words of that frame between the two nodes.
    fn dice(self, from: NodeId, to: NodeId, index: u64) -> Pcg32
        ensures { result ≡ dice_at self.seed from to index }
    {
        let way = u64::from(from.get()) * 16 + u64::from(to.get());
        let mut dice = Pcg32::new(self.seed, way);
        dice.advance(index.wrapping_mul(2));
        dice
    }

    /// What the generator says of a frame.
    fn thrown(self, mut dice: Pcg32) -> Fate
        ensures { result ≡ fate_by self dice }
    {
        if dice.next_word() % 100 < u32::from(self.lose) {
            Fate::Drop
        } else if dice.next_word() % 100 < u32::from(self.repeat) {
            Fate::Repeat
        } else {
            Fate::Pass
        }
    }

    /// What becomes of that frame from one node to another.
    pub fn fate(self, from: NodeId, to: NodeId, index: u64) -> Fate
        ensures { result ≡ fate_by self (dice_at self.seed from to index) }
    {
        // A generator is not asked in vain: it takes some 60 steps for each frame.
        if self.lose == 0 && self.repeat == 0 {
            return Fate::Pass;
        }
        self.thrown(self.dice(from, to, index))
    }
}

impl Gate for Chances {
    fn fate(&self, from: NodeId, to: NodeId, index: u64) -> Fate {
        Chances::fate(*self, from, to, index)
    }

    fn may_turn(&self, _node: NodeId, _turn: u64) -> bool {
        true
    }

    fn lets_all_begin(&self) -> bool {
        true
    }
}
