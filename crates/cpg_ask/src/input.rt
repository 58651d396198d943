//! A cursor over the bytes of a stream.
//!
//! Each method gives the value of one part and moves past it. Proved: value and rest are those of the definition
//! that it names, and it gives none exactly where that does; then nothing is said of the rest.

ghost use Rattle.std.specs.Prelude.{◌≡◌, ◌==◌, length, option_map};
ghost use Rattle.cpg_wire.specs.Reading.{Reads, text_at};
ghost use Rattle.cpg_ask.specs.Numbers.{little_at};

use byteorder::{ByteOrder, LittleEndian};
use std::marker::Model;

/// The bytes that are still to be read. Contracts see it as their list.
#[derive(Drop)]
pub struct Input<'a> {
    rest: &'a [u8],
}

impl<'a> Model for Input<'a> {
    ghost use Rattle.std.specs.Prelude.{List, ℕ};

    ghost Value = { List ℕ };

    ghost view = { λ input. input.rest.now };
}

impl<'a> Input<'a> {
    /// A cursor at the front of those bytes.
    pub fn of(bytes: &'a [u8]) -> Input<'a>
        ensures { result ≡ bytes.now }
    {
        Input { rest: bytes }
    }

    /// The bytes that are still to be read.
    pub fn rest(&self) -> &'a [u8]
        ensures { result.now ≡ self.now }
    {
        self.rest
    }

    /// Whether none are left.
    pub fn is_at_end(&self) -> bool
        ensures { result ≡ (length self.now == 0) }
    {
        self.rest.is_empty()
    }

    /// The next two bytes as a number.
    #[tactic(auto, using(crate::proofs::Taken::little_taken), unfolding(cpg_wire::specs::Reading::text_at))]
    pub fn u16(&mut self) -> Option<u16>
        ensures { Reads result self.new (little_at 2 self.old) }
    {
        let bytes = self.text(2)?;
        Some(LittleEndian::read_u16(bytes))
    }

    /// The next four bytes as a number.
    #[tactic(auto, using(crate::proofs::Taken::little_taken), unfolding(cpg_wire::specs::Reading::text_at))]
    pub fn u32(&mut self) -> Option<u32>
        ensures { Reads result self.new (little_at 4 self.old) }
    {
        let bytes = self.text(4)?;
        Some(LittleEndian::read_u32(bytes))
    }

    /// The next eight bytes as a number.
    #[tactic(auto, using(crate::proofs::Taken::little_taken), unfolding(cpg_wire::specs::Reading::text_at))]
    pub fn u64(&mut self) -> Option<u64>
        ensures { Reads result self.new (little_at 8 self.old) }
    {
        let bytes = self.text(8)?;
        Some(LittleEndian::read_u64(bytes))
    }

    /// The next `count` bytes.
    #[tactic(auto, unfolding(cpg_wire::specs::Reading::text_at))]
    pub fn text(&mut self, count: usize) -> Option<&'a [u8]>
        ensures { Reads (option_map (λ text. text.now) result) self.new (text_at count self.old) }
    {
        let (text, rest) = self.rest.split_at_checked(count)?;
        self.rest = rest;
        Some(text)
    }
}
