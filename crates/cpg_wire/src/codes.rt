//! The bytes that choose a form, and what each stands for.
//!
//! The numbers are this project's own, in `specs/Codes.antt`; each enum is read and written as they say.

ghost use Rattle.std.specs.Prelude.{◌≡◌};
ghost use Rattle.cpg_wire.specs.Codes.{version_code, version_of, kind_code, kind_of, op_code, op_code_of, subject_code, subject_of, effect_code, effect_of, right_code, right_of};

use cpg_entry::{Effect, Right};

/// The first byte of every frame.
pub const MARK: u8 = 0x43;

/// The limits of this crate, as numbers: the first byte of every frame is 0x43.
pub fn limits()
    ensures { MARK ≡ 0x43 }
{}

/// The two ways to spell a frame, which differ in how a rule is spelled: version 1 has room for one
/// condition, version 2 for one of each kind. Both are read, and the second alone is written.
#[derive(Debug, Clone, Copy, PartialEq, Eq)]
pub enum Version {
    One,
    Two,
}

/// What a frame carries.
#[derive(Debug, Clone, Copy, PartialEq, Eq)]
pub enum Kind {
    Data,
    Token,
}

/// What an entry does.
#[derive(Debug, Clone, Copy, PartialEq, Eq)]
pub enum OpCode {
    Join,
    Leave,
    Send,
    Insert,
    Remove,
    Gone,
}

/// What a condition of a rule speaks of: `Any`, which only version 1 spells, of nothing.
#[derive(Debug, Clone, Copy, PartialEq, Eq)]
pub enum Subject {
    Any,
    Uid,
    Gid,
    Node,
}

impl Version {
    #[tactic(auto, unfolding(crate::specs::Codes::version_of))]
    pub fn of(byte: u8) -> Option<Version>
        ensures { result ≡ version_of byte }
    {
        match byte {
            1 => Some(Version::One),
            2 => Some(Version::Two),
            _ => None,
        }
    }

    pub fn byte(self) -> u8
        ensures { result ≡ version_code self }
    {
        match self {
            Version::One => 1,
            Version::Two => 2,
        }
    }
}

impl Kind {
    #[tactic(auto, unfolding(crate::specs::Codes::kind_of))]
    pub fn of(byte: u8) -> Option<Kind>
        ensures { result ≡ kind_of byte }
    {
        match byte {
            1 => Some(Kind::Data),
            2 => Some(Kind::Token),
            _ => None,
        }
    }

    pub fn byte(self) -> u8
        ensures { result ≡ kind_code self }
    {
        match self {
            Kind::Data => 1,
            Kind::Token => 2,
        }
    }
}

impl OpCode {
    #[tactic(auto, unfolding(crate::specs::Codes::op_code_of))]
    pub fn of(byte: u8) -> Option<OpCode>
        ensures { result ≡ op_code_of byte }
    {
        match byte {
            1 => Some(OpCode::Join),
            2 => Some(OpCode::Leave),
            3 => Some(OpCode::Send),
            4 => Some(OpCode::Insert),
            5 => Some(OpCode::Remove),
            6 => Some(OpCode::Gone),
            _ => None,
        }
    }

    pub fn byte(self) -> u8
        ensures { result ≡ op_code self }
    {
        match self {
            OpCode::Join => 1,
            OpCode::Leave => 2,
            OpCode::Send => 3,
            OpCode::Insert => 4,
            OpCode::Remove => 5,
            OpCode::Gone => 6,
        }
    }
}

impl Subject {
    #[tactic(auto, unfolding(crate::specs::Codes::subject_of))]
    pub fn of(byte: u8) -> Option<Subject>
        ensures { result ≡ subject_of byte }
    {
        match byte {
            0 => Some(Subject::Any),
            1 => Some(Subject::Uid),
            2 => Some(Subject::Gid),
            3 => Some(Subject::Node),
            _ => None,
        }
    }

    pub fn byte(self) -> u8
        ensures { result ≡ subject_code self }
    {
        match self {
            Subject::Any => 0,
            Subject::Uid => 1,
            Subject::Gid => 2,
            Subject::Node => 3,
        }
    }
}

#[tactic(auto, unfolding(crate::specs::Codes::effect_of))]
pub fn read_effect(byte: u8) -> Option<Effect>
    ensures { result ≡ effect_of byte }
{
    match byte {
        1 => Some(Effect::Allow),
        2 => Some(Effect::Deny),
        _ => None,
    }
}

pub fn effect_byte(effect: Effect) -> u8
    ensures { result ≡ effect_code effect }
{
    match effect {
        Effect::Allow => 1,
        Effect::Deny => 2,
    }
}

#[tactic(auto, unfolding(crate::specs::Codes::right_of))]
pub fn read_right(byte: u8) -> Option<Right>
    ensures { result ≡ right_of byte }
{
    match byte {
        1 => Some(Right::Join),
        2 => Some(Right::Send),
        3 => Some(Right::List),
        4 => Some(Right::Edit),
        _ => None,
    }
}

pub fn right_byte(right: Right) -> u8
    ensures { result ≡ right_code right }
{
    match right {
        Right::Join => 1,
        Right::Send => 2,
        Right::List => 3,
        Right::Edit => 4,
    }
}
