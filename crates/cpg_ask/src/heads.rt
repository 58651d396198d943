//! The eight bytes that stand before what is asked or told.

ghost use Rattle.cpg_wire.specs.Reading.{Reads};
ghost use Rattle.cpg_ask.specs.Heads.{head_at};

use crate::input::Input;

/// How many bytes follow, what kind they are of, and the tag that an answer repeats.
#[derive(Debug, Clone, Copy, PartialEq, Eq)]
pub struct Head {
    pub count: u32,
    pub kind: u16,
    pub tag: u16,
}

impl Head {
    /// The head that comes next, none where fewer than eight bytes do.
    #[tactic(auto, unfolding(crate::specs::Heads::head_at))]
    pub fn read(input: &mut Input<'_>) -> Option<Head>
        ensures { Reads result input.new (head_at input.old) }
    {
        let count = input.u32()?;
        let kind = input.u16()?;
        let tag = input.u16()?;
        Some(Head { count, kind, tag })
    }
}
