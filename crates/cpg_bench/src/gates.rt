//! The gate of both benches: it makes a node fall behind, or loses, repeats and holds back frames by chance.

use cpg_cred::{NodeId, Refusal};
use cpg_daemon::{Fate, Gate};
use std::alloc::Global;
use std::sync::Arc;
use std::sync::atomic::{AtomicBool, AtomicU64, Ordering};

/// The number with its bits mixed: the last steps of SplitMix64.
fn mix(number: u64) -> u64 {
    let first = (number ^ (number >> 30)).wrapping_mul(0xbf58_476d_1ce4_e5b9);
    let second = (first ^ (first >> 27)).wrapping_mul(0x94d0_49bb_1331_11eb);
    second ^ (second >> 31)
}

/// What the gate did by chance, and a switch by which the last node is made to fall behind.
#[derive(Drop, Default)]
pub struct Notes {
    pub frames: AtomicU64,
    pub lost: AtomicU64,
    pub repeated: AtomicU64,
    /// How often a turn was asked for in a stretch that holds back, and how often it was held back.
    pub asked: AtomicU64,
    pub held: AtomicU64,
    pub deaf: AtomicBool,
}

/// How many of 100 frames are lost and repeated, in some stretches of a link nearly all; and how many of 100 asks are
/// held back in some stretches of a node's turns.
#[derive(Debug, Clone, Copy)]
pub struct Chance {
    seed: u64,
    loss: u64,
    repeat: u64,
    hold: u64,
}

impl Chance {
    /// That of a seed.
    pub fn of(seed: u64) -> Chance {
        let seed = mix(seed);
        Chance {
            seed,
            loss: mix(seed ^ 1) % 35,
            repeat: mix(seed ^ 2) % 35,
            hold: mix(seed ^ 3) % 100,
        }
    }

    fn fate(self, way: u64, index: u64, notes: &Notes) -> Fate {
        count(&notes.frames);
        let lossy = mix(self.seed ^ mix(way ^ mix(index / 8))) % 16 == 0;
        let loss = if lossy { 95 } else { self.loss };
        let drawn = mix(self.seed ^ mix(index ^ mix(way))) % 100;
        if drawn < loss {
            count(&notes.lost);
            Fate::Drop
        } else if drawn < loss.saturating_add(self.repeat) {
            count(&notes.repeated);
            Fate::Repeat
        } else {
            Fate::Pass
        }
    }

    fn may_turn(self, node: NodeId, turn: u64, notes: &Notes) -> bool {
        let stretch = mix(self.seed ^ mix(turn / 64) ^ u64::from(node.get()));
        if stretch % 4 != 0 {
            return true;
        }
        let held = mix(self.seed ^ mix(count(&notes.asked))) % 100 < self.hold;
        if held {
            count(&notes.held);
        }
        !held
    }
}

fn count(number: &AtomicU64) -> u64 {
    number.fetch_add(1, Ordering::SeqCst)
}

/// The gate. By chance, each other one lets all turns begin: threads take several under one lock. With no chance, while its
/// switch is on, it loses each frame to the last node but those of the node before it, which alone sends it the token.
#[derive(Drop)]
pub struct Fates {
    /// How many nodes there are: the number of the last.
    nodes: u8,
    chance: Option<Chance>,
    notes: Arc<Notes, Global>,
}

/// A gate of so many nodes that did nothing yet, its switch off, and its notes.
pub fn gate_of(
    alloc: Global,
    nodes: u8,
    chance: Option<Chance>,
) -> Result<(Fates, Arc<Notes, Global>), Refusal> {
    let notes = Arc::new(alloc, Notes::default())?;
    let gate = Fates {
        nodes,
        chance,
        notes: Arc::try_clone(&notes)?,
    };
    Ok((gate, notes))
}

impl Gate for Fates {
    fn fate(&self, from: NodeId, to: NodeId, index: u64) -> Fate {
        if let Some(chance) = self.chance {
            let way = u64::from(from.get()) * 16 + u64::from(to.get());
            return chance.fate(way, index, &self.notes);
        }
        let meant = to.get() == self.nodes && from.get().saturating_add(1) != self.nodes;
        if meant && self.notes.deaf.load(Ordering::SeqCst) {
            Fate::Drop
        } else {
            Fate::Pass
        }
    }

    fn may_turn(&self, node: NodeId, turn: u64) -> bool {
        match self.chance {
            Some(chance) if !self.lets_all_begin() => chance.may_turn(node, turn, &self.notes),
            _ => true,
        }
    }

    fn lets_all_begin(&self) -> bool {
        match self.chance {
            Some(chance) => chance.seed % 2 == 0,
            None => true,
        }
    }
}
