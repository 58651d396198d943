//! How a call says no.

ghost use Rattle.std.specs.Prelude.{◌≡◌, ◌↔◌, Err, IsTrue};
ghost use Rattle.cpg_cred.specs.Shown.{name, number};

use crate::bases::By;
use std::alloc::{AllocError, AllocFailed};
use std::error::Error;
use std::fmt;

/// Why a call was refused. Each refusal has a number and a name, which `Display` prints, as `2 Access`
/// or `41 BadCommand 7`. Lines are numbered from 1.
#[derive(Debug, Clone, Copy, PartialEq, Eq)]
pub enum Refusal {
    /// 1: memory was asked for and not given.
    Memory,
    /// 2: neither the user nor the group is 0 or listed.
    Access,
    /// 3: no open connection (or session) has that number.
    NoConnection,
    /// 4: a group's name that is not 1 to 128 bytes of 0x21 to 0x7E.
    BadName,
    /// 5: a message of more than 8,192 bytes.
    TooLong,
    /// 6: 256 calls wait at the node.
    QueueFull,
    /// 7: the node has given all its 65,535 connection numbers.
    ConnectionsFull,
    /// 8: a frame of another ring.
    Foreign,
    /// 9: a token whose hop is for another node.
    NotMine,
    /// 10: a token of a hop that was accepted already, or of an earlier one.
    Stale,
    /// 11: a frame that no true run of the ring can bring.
    Implausible,
    /// 12: the packet's place is held or delivered.
    Held,
    /// 13: the packet's place is past the window.
    FarAhead,
    /// 14: bytes that spell no frame.
    Malformed,
    /// 15: the ring's last hop was used.
    RingEnd,
    /// 16: no frame of that number was sent.
    NoFrame,
    /// 17: another record stands at that place of the board.
    Differs,
    /// 18: the board has no further place.
    BoardFull,
    /// 19: the node has only that many records, fewer than the session has seen.
    Behind(u32),
    /// 20: the cluster was stopped.
    Stopped,
    /// 21: the access rules denied it.
    Denied(By),
    /// 31: a line that is neither ignored nor of any shape that is read.
    BadLine(u32),
    /// 32: a section's close where none is open.
    Unopened(u32),
    /// 33: a section that no line closes.
    Unclosed,
    /// 34: a key that the section does not have.
    BadItem(u32),
    /// 35: a value that is empty, or a number past its range.
    BadValue(u32),
    /// 36: a user or group name that the names table lacks.
    UnknownName(u32),
    /// 37: a setting outside its range.
    Range,
    /// 41: a line that is no command.
    BadCommand(u32),
    /// 42: the input could not be read, or is too long.
    Read,
    /// 43: the output could not be written.
    Write,
}

impl Refusal {
    /// Its number.
    pub fn number(self) -> u32
        ensures { result ≡ number self }
    {
        match self {
            Refusal::Memory => 1,
            Refusal::Access => 2,
            Refusal::NoConnection => 3,
            Refusal::BadName => 4,
            Refusal::TooLong => 5,
            Refusal::QueueFull => 6,
            Refusal::ConnectionsFull => 7,
            Refusal::Foreign => 8,
            Refusal::NotMine => 9,
            Refusal::Stale => 10,
            Refusal::Implausible => 11,
            Refusal::Held => 12,
            Refusal::FarAhead => 13,
            Refusal::Malformed => 14,
            Refusal::RingEnd => 15,
            Refusal::NoFrame => 16,
            Refusal::Differs => 17,
            Refusal::BoardFull => 18,
            Refusal::Behind(_) => 19,
            Refusal::Stopped => 20,
            Refusal::Denied(_) => 21,
            Refusal::BadLine(_) => 31,
            Refusal::Unopened(_) => 32,
            Refusal::Unclosed => 33,
            Refusal::BadItem(_) => 34,
            Refusal::BadValue(_) => 35,
            Refusal::UnknownName(_) => 36,
            Refusal::Range => 37,
            Refusal::BadCommand(_) => 41,
            Refusal::Read => 42,
            Refusal::Write => 43,
        }
    }

    /// Its name.
    pub fn name(self) -> &'static str
        ensures { result.now ≡ name self }
    {
        match self {
            Refusal::Memory => "Memory",
            Refusal::Access => "Access",
            Refusal::NoConnection => "NoConnection",
            Refusal::BadName => "BadName",
            Refusal::TooLong => "TooLong",
            Refusal::QueueFull => "QueueFull",
            Refusal::ConnectionsFull => "ConnectionsFull",
            Refusal::Foreign => "Foreign",
            Refusal::NotMine => "NotMine",
            Refusal::Stale => "Stale",
            Refusal::Implausible => "Implausible",
            Refusal::Held => "Held",
            Refusal::FarAhead => "FarAhead",
            Refusal::Malformed => "Malformed",
            Refusal::RingEnd => "RingEnd",
            Refusal::NoFrame => "NoFrame",
            Refusal::Differs => "Differs",
            Refusal::BoardFull => "BoardFull",
            Refusal::Behind(_) => "Behind",
            Refusal::Stopped => "Stopped",
            Refusal::Denied(_) => "Denied",
            Refusal::BadLine(_) => "BadLine",
            Refusal::Unopened(_) => "Unopened",
            Refusal::Unclosed => "Unclosed",
            Refusal::BadItem(_) => "BadItem",
            Refusal::BadValue(_) => "BadValue",
            Refusal::UnknownName(_) => "UnknownName",
            Refusal::Range => "Range",
            Refusal::BadCommand(_) => "BadCommand",
            Refusal::Read => "Read",
            Refusal::Write => "Write",
        }
    }
}

impl fmt::Display for Refusal {
    ghost use Rattle.cpg_cred.specs.Shown.{refusal_text};
    ghost use Rattle.std.specs.Prelude.{Some};

    ghost output = { λ refusal. Some (refusal_text refusal) };

    fn fmt<W: fmt::Write>(&self, f: &mut fmt::Formatter<W>) -> fmt::Result {
        write!(f, "{} {}", self.number(), self.name())?;
        match self {
            Refusal::Denied(by) => write!(f, " {by}"),
            Refusal::Behind(number)
            | Refusal::BadLine(number)
            | Refusal::Unopened(number)
            | Refusal::BadItem(number)
            | Refusal::BadValue(number)
            | Refusal::UnknownName(number)
            | Refusal::BadCommand(number) => write!(f, " {number}"),
            _ => Ok(()),
        }
    }
}

impl Error for Refusal {}

impl From<AllocError> for Refusal {
    ghost use Rattle.cpg_cred.specs.declared.refusals.Refusal.TheVariants.{Memory};

    ghost from_gives = { λ _ refusal. refusal ≡ Memory };

    fn from(_error: AllocError) -> Refusal {
        Refusal::Memory
    }
}

impl<T: Drop> From<AllocFailed<T>> for Refusal {
    ghost use Rattle.cpg_cred.specs.declared.refusals.Refusal.TheVariants.{Memory};

    ghost from_gives = { λ _ refusal. refusal ≡ Memory };

    fn from(_error: AllocFailed<T>) -> Refusal {
        Refusal::Memory
    }
}

/// A refusal, with what was handed in.
#[derive(Debug, Drop)]
pub struct Refused<T> {
    pub refusal: Refusal,
    /// What was handed in, as it was.
    pub back: T,
}

impl<T: Drop> Refused<T> {
    /// The refusal alone.
    pub fn into_refusal(self) -> Refusal
        ensures { result ≡ self.refusal }
    {
        self.refusal
    }
}

/// Whether memory was refused.
pub fn is_memory<T>(answer: &Result<T, Refusal>) -> bool
    ensures { IsTrue result ↔ (answer.now ≡ Err Refusal.Memory) }
{
    matches!(answer, Err(Refusal::Memory))
}
