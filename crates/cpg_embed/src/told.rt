//! What an event tells, in numbers.

ghost use Rattle.std.specs.Prelude.{◌≡◌};
ghost use Rattle.cpg_embed.specs.Telling.{bare, told_of, verdict_number, basis_number, rule_number};

use cpg_cred::By;
use cpg_node::Event;
use cpg_record::{Reason, Verdict};

/// What an event tells, but for its bytes and lists, of which it tells how long they are. What an event has
/// no use for is 0.
#[repr(C)]
#[derive(Clone, Copy)]
pub struct Told {
    /// 1 a verdict, 2 a message, 3 a change of members, 4 a change of rules.
    pub kind: u32,
    pub place: u32,
    /// Of a message: its sender's node and process.
    pub node: u32,
    pub pid: u32,
    /// Of a verdict: 0 allowed, else why it is denied.
    pub verdict: u32,
    /// Of a verdict: what it rests on: 1 a rule, 2 a default, 3 the asker is root, 4 no right was needed.
    pub basis: u32,
    /// Of a verdict that rests on a rule: the rule's id.
    pub rule: u32,
    /// How many bytes the group's name has, and the message.
    pub group_len: usize,
    pub message_len: usize,
    /// Of a change: how many members there are after it, how many left and how many joined.
    pub members: usize,
    pub left: usize,
    pub joined: usize,
}

/// 0 allowed; else the reason of a denial.
pub(crate) fn verdict_number(verdict: Verdict) -> u32
    ensures { result ≡ verdict_number verdict }
{
    match verdict {
        Verdict::Allowed(_) => 0,
        Verdict::Denied(Reason::Rule(_)) => 1,
        Verdict::Denied(Reason::Default) => 2,
        Verdict::Denied(Reason::Closed) => 3,
        Verdict::Denied(Reason::Joined) => 4,
        Verdict::Denied(Reason::Twice) => 5,
        Verdict::Denied(Reason::Full) => 6,
        Verdict::Denied(Reason::Position) => 7,
        Verdict::Denied(Reason::TableFull) => 8,
        Verdict::Denied(Reason::Absent) => 9,
    }
}

/// What a verdict rests on: 1 a rule, 2 a default, 3 the asker is root, 4 no right was needed; 0 where an
/// entry is denied by what it asks itself.
pub(crate) fn basis_number(verdict: Verdict) -> u32
    ensures { result ≡ basis_number verdict }
{
    match verdict {
        Verdict::Allowed(By::Rule(_)) | Verdict::Denied(Reason::Rule(_)) => 1,
        Verdict::Allowed(By::Default) | Verdict::Denied(Reason::Default) => 2,
        Verdict::Allowed(By::Root) => 3,
        Verdict::Allowed(By::Free) => 4,
        Verdict::Denied(_) => 0,
    }
}

/// The id of the rule that a verdict rests on, else 0.
pub(crate) fn rule_number(verdict: Verdict) -> u32
    ensures { result ≡ rule_number verdict }
{
    match verdict {
        Verdict::Allowed(By::Rule(id)) | Verdict::Denied(Reason::Rule(id)) => id,
        _ => 0,
    }
}

impl Told {
    /// An event that tells nothing but its kind and place.
    pub(crate) fn bare(kind: u32, place: u32) -> Told
        ensures { result ≡ bare kind place }
    {
        Told {
            kind,
            place,
            node: 0,
            pid: 0,
            verdict: 0,
            basis: 0,
            rule: 0,
            group_len: 0,
            message_len: 0,
            members: 0,
            left: 0,
            joined: 0,
        }
    }

    /// What the event tells.
    pub(crate) fn of(event: &Event) -> Told
        ensures { result ≡ told_of event.now }
    {
        match event {
            Event::Verdict { place, verdict } => Told {
                verdict: verdict_number(*verdict),
                basis: basis_number(*verdict),
                rule: rule_number(*verdict),
                ..Told::bare(1, *place)
            },
            Event::Message {
                place,
                group,
                node,
                pid,
                message,
            } => Told {
                node: u32::from(node.get()),
                pid: *pid,
                group_len: group.as_slice().len(),
                message_len: message.as_slice().len(),
                ..Told::bare(2, *place)
            },
            Event::Change {
                place,
                group,
                members,
                left,
                joined,
            } => Told {
                group_len: group.as_slice().len(),
                members: members.len(),
                left: left.as_slice().len(),
                joined: joined.as_slice().len(),
                ..Told::bare(3, *place)
            },
            Event::RulesChanged { place, group } => Told {
                group_len: group.as_slice().len(),
                ..Told::bare(4, *place)
            },
        }
    }
}
