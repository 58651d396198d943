//! What a word of a line may be, and which patterns the words behind a call or a command have.
//!
//! Proved: each list of patterns is the definition in `specs/Patterns.antt` of its name.

ghost use Rattle.std.specs.Prelude.{◌≡◌, option_map};
ghost use Rattle.cpg_hint.specs.Patterns.{op_pattern, call_pattern, step_pattern, run_pattern};

use cpg_text::is;

/// A kind of word.
#[derive(Debug, Clone, Copy, PartialEq, Eq)]
pub enum Expected {
    /// The first word of CALL, or `gone`; names and messages within their limits.
    Op,
    /// The first word of CALL; names and messages of any length.
    Call,
    /// The first word of a command of `step`.
    StepCommand,
    /// The first word of a command of `run`.
    RunCommand,
    /// NODE.CONN.
    Caller,
    /// NODE, which the ring has.
    Node,
    /// CONN.
    Conn,
    Pid,
    Uid,
    Gid,
    /// The id of a rule.
    Id,
    /// The number of a session.
    Session,
    /// The number that a name stands for.
    Number,
    /// The number of a frame.
    Frame,
    /// POS, where a rule is put.
    Position,
    Effect,
    Right,
    Who,
    /// GROUP, a name that is accepted.
    Name,
    /// TEXT of a message that is not too long.
    Message,
    /// TEXT of any message.
    Text,
    /// GROUP, which any word is.
    Group,
    /// The name of a user or a group, which any word is.
    Named,
    /// `user` or `group`.
    Table,
    /// Room for one entry more.
    Room,
    /// A line that begins a part.
    Head,
    /// The end of the line.
    Nothing,
}

/// What is wanted behind the first word of a CALL or `gone`, names and messages within their limits.
pub fn op_pattern(word: &[u8]) -> Option<&'static [Expected]>
    ensures { option_map (λ pattern. pattern.now) result ≡ op_pattern word.now }
{
    if is(word, b"join".as_slice()) {
        Some(&[Expected::Name])
    } else if is(word, b"leave".as_slice()) {
        Some(&[])
    } else if is(word, b"send".as_slice()) {
        Some(&[Expected::Message])
    } else if is(word, b"insert".as_slice()) {
        Some(&[
            Expected::Name,
            Expected::Position,
            Expected::Effect,
            Expected::Right,
            Expected::Who,
        ])
    } else if is(word, b"remove".as_slice()) {
        Some(&[Expected::Name, Expected::Id])
    } else if is(word, b"gone".as_slice()) {
        Some(&[])
    } else {
        None
    }
}

/// The same where names and messages may be of any length, and there is no `gone`.
pub fn call_pattern(word: &[u8]) -> Option<&'static [Expected]>
    ensures { option_map (λ pattern. pattern.now) result ≡ call_pattern word.now }
{
    if is(word, b"join".as_slice()) {
        Some(&[Expected::Group])
    } else if is(word, b"leave".as_slice()) {
        Some(&[])
    } else if is(word, b"send".as_slice()) {
        Some(&[Expected::Text])
    } else if is(word, b"insert".as_slice()) {
        Some(&[
            Expected::Group,
            Expected::Position,
            Expected::Effect,
            Expected::Right,
            Expected::Who,
        ])
    } else if is(word, b"remove".as_slice()) {
        Some(&[Expected::Group, Expected::Id])
    } else {
        None
    }
}

/// What is wanted behind the first word of a command of `step`.
pub fn step_pattern(word: &[u8]) -> Option<&'static [Expected]>
    ensures { option_map (λ pattern. pattern.now) result ≡ step_pattern word.now }
{
    if is(word, b"connect".as_slice()) {
        Some(&[Expected::Node, Expected::Pid, Expected::Uid, Expected::Gid])
    } else if is(word, b"call".as_slice()) {
        Some(&[Expected::Node, Expected::Conn, Expected::Call])
    } else if is(word, b"disconnect".as_slice()) {
        Some(&[Expected::Node, Expected::Conn])
    } else if is(word, b"frame".as_slice()) {
        Some(&[Expected::Node, Expected::Frame])
    } else if is(word, b"timer".as_slice()) {
        Some(&[Expected::Node])
    } else if is(word, b"deliver".as_slice()) {
        Some(&[Expected::Node])
    } else if is(word, b"take".as_slice()) {
        Some(&[Expected::Node, Expected::Conn])
    } else if is(word, b"list".as_slice()) {
        Some(&[Expected::Node, Expected::Conn, Expected::Group])
    } else if is(word, b"groups".as_slice()) {
        Some(&[Expected::Node, Expected::Conn])
    } else if is(word, b"show".as_slice()) {
        Some(&[Expected::Frame])
    } else if is(word, b"audit".as_slice()) {
        Some(&[Expected::Node])
    } else if is(word, b"rules".as_slice()) {
        Some(&[Expected::Node, Expected::Group])
    } else if is(word, b"safe".as_slice()) {
        Some(&[Expected::Node])
    } else {
        None
    }
}

/// What is wanted behind the first word of a command of `run`.
pub fn run_pattern(word: &[u8]) -> Option<&'static [Expected]>
    ensures { option_map (λ pattern. pattern.now) result ≡ run_pattern word.now }
{
    if is(word, b"connect".as_slice()) {
        Some(&[Expected::Node, Expected::Pid, Expected::Uid, Expected::Gid])
    } else if is(word, b"call".as_slice()) {
        Some(&[Expected::Session, Expected::Call])
    } else if is(word, b"wait".as_slice()) {
        Some(&[Expected::Session])
    } else if is(word, b"list".as_slice()) {
        Some(&[Expected::Session, Expected::Group])
    } else if is(word, b"groups".as_slice()) {
        Some(&[Expected::Session])
    } else if is(word, b"audit".as_slice()) {
        Some(&[Expected::Session])
    } else if is(word, b"close".as_slice()) {
        Some(&[Expected::Session])
    } else if is(word, b"safe".as_slice()) {
        Some(&[Expected::Node])
    } else {
        None
    }
}
