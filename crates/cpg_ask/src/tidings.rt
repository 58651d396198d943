//! What is told, from the front of a stream.

ghost use Rattle.std.specs.Prelude.{◌≡◌, option_map};
ghost use Rattle.cpg_ask.specs.Tidings.{told_seen};
ghost use Rattle.cpg_ask.specs.TellReading.{reading_seen, answer_in, answered_in, greeting_in, members_in, groups_in, denied_in, message_in, change_in, told_as, tiding_in, read_of};

use crate::codes::AskCode;
use crate::frames::gap;
use crate::heads::Head;
use crate::input::Input;
use crate::kinds::Kind;
use crate::statuses::Status;
use crate::words::{Words, read_numbered, read_status, status_of};

/// How many bytes a tell has at most, behind its head.
pub const MOST_TELL: u32 = 67_108_864;

/// What a client is told; texts are those of the stream.
#[derive(Clone, Copy)]
pub enum Told<'a> {
    /// The answer to an ask that is a status alone, with the ask's tag.
    Answer(AskCode, u16, Status),
    /// The answer to Hello: the tag, the status, the node, how many nodes there are, how many bytes a message has at
    /// most, and the ring.
    Greeting(u16, Status, u32, u32, u32, u64),
    /// The answer to Members: so many processes, each a node and a pid of four bytes.
    Members(u16, Status, u32, &'a [u8]),
    /// The answer to Groups: so many groups, each with the counts of its members and of its name's bytes, the name in
    /// 128 bytes, and its members.
    Groups(u16, Status, u32, &'a [u8]),
    /// A message was denied: the status, the verdict and the rule.
    Denied(Status, u32, u32),
    /// A message: its sender's node and pid, the group, and the message.
    Message(u32, u32, &'a [u8], &'a [u8]),
    /// A change: the group, how many members there are after it, how many left and how many joined, and all these,
    /// each a node, a pid and a reason of four bytes.
    Change(&'a [u8], u32, u32, u32, &'a [u8]),
}

/// What stands at the front of a stream: a whole tell and how many bytes it takes; fewer bytes than a tell has; or
/// what no daemon tells.
#[derive(Clone, Copy)]
pub enum Front<'a> {
    Whole(Told<'a>, usize),
    Part,
    Broken,
}

/// What stands at the front of the stream. Any bytes are one of the three; no memory is asked for.
#[tactic(auto, unfolding(crate::specs::TellReading::read_of))]
pub fn read(bytes: &[u8]) -> Front<'_>
    ensures { reading_seen result ≡ read_of bytes.now }
{
    let mut input = Input::of(bytes);
    let Some(head) = Head::read(&mut input) else {
        return Front::Part;
    };
    if head.count > MOST_TELL {
        return Front::Broken;
    }
    let Some(text) = input.text(head.count as usize) else {
        return Front::Part;
    };
    match Told::read(head.kind, head.tag, text) {
        None => Front::Broken,
        Some(told) => Front::Whole(told, 8 + head.count as usize),
    }
}

impl<'a> Told<'a> {
    #[tactic(auto, unfolding(crate::specs::TellReading::tiding_in))]
    fn read(number: u16, tag: u16, text: &'a [u8]) -> Option<Told<'a>>
        ensures { option_map told_seen result ≡ tiding_in number tag text.now }
    {
        let kind = Kind::of(number)?;
        Told::read_as(kind, tag, text)
    }

    #[tactic(auto, unfolding(crate::specs::TellReading::told_as))]
    fn read_as(kind: Kind, tag: u16, text: &'a [u8]) -> Option<Told<'a>>
        ensures { option_map told_seen result ≡ told_as kind tag text.now }
    {
        match kind {
            Kind::Answer(code) => Told::read_answered(code, tag, text),
            Kind::Message => Told::read_message(text),
            Kind::Change => Told::read_change(text),
            Kind::Denied => Told::read_denied(text),
        }
    }

    #[tactic(auto, unfolding(crate::specs::TellReading::answered_in))]
    fn read_answered(code: AskCode, tag: u16, text: &'a [u8]) -> Option<Told<'a>>
        ensures { option_map told_seen result ≡ answered_in code tag text.now }
    {
        match code {
            AskCode::Hello => Told::read_greeting(tag, text),
            AskCode::Members => Told::read_members(tag, text),
            AskCode::Groups => Told::read_groups(tag, text),
            AskCode::Send => None,
            AskCode::Join | AskCode::Leave | AskCode::Insert | AskCode::Remove => {
                Told::read_answer(code, tag, text)
            }
        }
    }

    #[tactic(auto, unfolding(crate::specs::TellReading::answer_in))]
    fn read_answer(code: AskCode, tag: u16, text: &'a [u8]) -> Option<Told<'a>>
        ensures { option_map told_seen result ≡ answer_in code tag text.now }
    {
        let mut input = Input::of(text);
        let status = read_status(&mut input)?;
        Some(Told::Answer(code, tag, status))
    }

    #[tactic(auto, unfolding(crate::specs::TellReading::greeting_in, crate::specs::TellReading::greeting_of))]
    fn read_greeting(tag: u16, text: &'a [u8]) -> Option<Told<'a>>
        ensures { option_map told_seen result ≡ greeting_in tag text.now }
    {
        let mut input = Input::of(text);
        let words = Words::read(&mut input)?;
        let status = status_of(words.first)?;
        let ring = input.u64()?;
        Some(Told::Greeting(tag, status, words.second, words.third, words.fourth, ring))
    }

    #[tactic(auto, unfolding(crate::specs::TellReading::members_in))]
    fn read_members(tag: u16, text: &'a [u8]) -> Option<Told<'a>>
        ensures { option_map told_seen result ≡ members_in tag text.now }
    {
        let mut input = Input::of(text);
        let (status, count) = read_numbered(&mut input)?;
        Some(Told::Members(tag, status, count, input.rest()))
    }

    #[tactic(auto, unfolding(crate::specs::TellReading::groups_in))]
    fn read_groups(tag: u16, text: &'a [u8]) -> Option<Told<'a>>
        ensures { option_map told_seen result ≡ groups_in tag text.now }
    {
        let mut input = Input::of(text);
        let (status, count) = read_numbered(&mut input)?;
        Some(Told::Groups(tag, status, count, input.rest()))
    }

    #[tactic(auto, unfolding(crate::specs::TellReading::denied_in))]
    fn read_denied(text: &'a [u8]) -> Option<Told<'a>>
        ensures { option_map told_seen result ≡ denied_in text.now }
    {
        let mut input = Input::of(text);
        let (status, verdict) = read_numbered(&mut input)?;
        let rule = input.u32()?;
        Some(Told::Denied(status, verdict, rule))
    }

    #[tactic(auto, unfolding(crate::specs::TellReading::message_in, crate::specs::TellReading::message_of))]
    fn read_message(text: &'a [u8]) -> Option<Told<'a>>
        ensures { option_map told_seen result ≡ message_in text.now }
    {
        let mut input = Input::of(text);
        let words = Words::read(&mut input)?;
        let message = input.text(words.third as usize)?;
        input.text(gap(words.third as usize))?;
        let group = input.text(words.fourth as usize)?;
        Some(Told::Message(words.first, words.second, group, message))
    }

    #[tactic(auto, unfolding(crate::specs::TellReading::change_in, crate::specs::TellReading::change_of))]
    fn read_change(text: &'a [u8]) -> Option<Told<'a>>
        ensures { option_map told_seen result ≡ change_in text.now }
    {
        let mut input = Input::of(text);
        let words = Words::read(&mut input)?;
        let count = words.second as usize + words.third as usize + words.fourth as usize;
        let processes = input.text(12 * count)?;
        let group = input.text(words.first as usize)?;
        Some(Told::Change(group, words.second, words.third, words.fourth, processes))
    }
}
