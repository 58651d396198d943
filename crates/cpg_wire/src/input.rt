//! A cursor over the bytes of a frame.
//!
//! Each method gives the value of one part and moves past it. Proved: value and rest are those of the
//! definition that it names, and it gives none exactly where that does; then nothing is said of the rest.

ghost use Rattle.std.specs.Prelude.{◌≡◌, ◌≤◌, ◌==◌, length, IfSome, option_map};
ghost use Rattle.cpg_wire.specs.Reading.{Reads, number_at, u32_at, u8_at, byte_at, passed_at, text_at};

use byteorder::{BigEndian, ByteOrder};
use std::marker::Model;

/// The bytes that are still to be read. Contracts see it as their list.
#[derive(Drop)]
pub struct Input<'a> {
    rest: &'a [u8],
}

impl<'a> Model for Input<'a> {
    ghost use Rattle.std.specs.Prelude.{List, ℕ};

    ghost Value = { List ℕ };

    ghost view = { λ input. input.rest.now };
}

impl<'a> Input<'a> {
    pub fn of(bytes: &'a [u8]) -> Input<'a>
        ensures { result ≡ bytes.now }
    {
        Input { rest: bytes }
    }

    pub fn is_at_end(&self) -> bool
        ensures { result ≡ (length self.now == 0) }
    {
        self.rest.is_empty()
    }

    /// The next byte.
    pub fn byte(&mut self) -> Option<u8>
        ensures { Reads result self.new (byte_at self.old) }
    {
        match self.rest {
            [byte, rest @ ..] => {
                self.rest = rest;
                Some(*byte)
            }
            [] => None,
        }
    }

    /// Whether the next byte is the one that is wanted, which is then passed.
    pub fn passes(&mut self, wanted: u8) -> Option<bool>
        ensures { Reads result self.new (passed_at wanted self.old) }
    {
        match self.rest {
            [byte, rest @ ..] if *byte == wanted => {
                self.rest = rest;
                Some(true)
            }
            [_, ..] => Some(false),
            [] => None,
        }
    }

    /// The next byte, where it is from `low` to `high`.
    pub fn u8_within(&mut self, low: u8, high: u8) -> Option<u8>
        ensures reads { Reads result self.new (u8_at low high self.old) }
        ensures range { IfSome result (λ number. (low ≤ number) × (number ≤ high)) }
    {
        match self.rest {
            [byte, rest @ ..] if *byte >= low && *byte <= high => {
                self.rest = rest;
                Some(*byte)
            }
            _ => None,
        }
    }

    /// The next two bytes as a number, where it is from `low` to `high`.
    pub fn u16_within(&mut self, low: u16, high: u16) -> Option<u16>
        ensures { Reads result self.new (number_at 2 low high self.old) }
    {
        if self.rest.len() < 2 {
            return None;
        }
        let number = BigEndian::read_u16(self.rest);
        if number < low || number > high {
            return None;
        }
        self.rest = &self.rest[2..];
        Some(number)
    }

    /// The next four bytes as a number, where it is from `low` to `high`.
    pub fn u32_within(&mut self, low: u32, high: u32) -> Option<u32>
        ensures reads { Reads result self.new (number_at 4 low high self.old) }
        ensures range { IfSome result (λ number. (low ≤ number) × (number ≤ high)) }
    {
        if self.rest.len() < 4 {
            return None;
        }
        let number = BigEndian::read_u32(self.rest);
        if number < low || number > high {
            return None;
        }
        self.rest = &self.rest[4..];
        Some(number)
    }

    /// The next four bytes as a number.
    pub fn u32(&mut self) -> Option<u32>
        ensures { Reads result self.new (u32_at self.old) }
    {
        self.u32_within(0, u32::MAX)
    }

    /// The next eight bytes as a number, where it is from `low` to `high`.
    pub fn u64_within(&mut self, low: u64, high: u64) -> Option<u64>
        ensures { Reads result self.new (number_at 8 low high self.old) }
    {
        if self.rest.len() < 8 {
            return None;
        }
        let number = BigEndian::read_u64(self.rest);
        if number < low || number > high {
            return None;
        }
        self.rest = &self.rest[8..];
        Some(number)
    }

    /// The next `count` bytes.
    #[tactic(auto, unfolding(crate::specs::Reading::text_at))]
    pub fn text(&mut self, count: usize) -> Option<&'a [u8]>
        ensures { Reads (option_map (λ text. text.now) result) self.new (text_at count self.old) }
    {
        let (text, rest) = self.rest.split_at_checked(count)?;
        self.rest = rest;
        Some(text)
    }
}
