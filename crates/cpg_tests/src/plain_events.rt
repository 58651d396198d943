//! Plain programs of what places tell. `past` is the record at the place, `before` are the records before it.

use crate::plain::{is_in, member_in};
use cpg_entry::{Call, Message, NodeId, Op};
use cpg_group::{Cause, ConnId, Event, Member, Move, Record, Verdict};

/// The group in which the record acts, if it acts in one.
pub fn acts_in(past: &Record) -> Option<&[u8]> {
    match &past.group {
        Some(group) if past.verdict.is_allowed() => Some(group.as_slice()),
        _ => None,
    }
}

/// Whether the op is a join.
fn is_join(op: &Op) -> bool {
    matches!(op, Op::Act(Call::Join(_)))
}

/// Whether the record, which acts in the group, tells the connection so: one that was in the group before,
/// or the joiner.
fn is_heard(past: &Record, before: &[Record], group: &[u8], conn: &ConnId) -> bool {
    is_in(before, group, conn) || (is_join(&past.entry.op) && ConnId::of(&past.entry) == *conn)
}

/// Whether the record tells the connection more than the verdict.
pub fn hears(past: &Record, before: &[Record], conn: &ConnId) -> bool {
    match acts_in(past) {
        Some(group) => is_heard(past, before, group, conn),
        None => false,
    }
}

/// Whether the connection made the record's entry.
pub fn is_own(past: &Record, conn: &ConnId) -> bool {
    ConnId::of(&past.entry) == *conn
}

/// Whether the event is the verdict on the record at the place.
pub fn is_answer(event: &Event, place: u32, past: &Record) -> bool {
    match event {
        Event::Verdict { place: at, verdict } => *at == place && *verdict == past.verdict,
        _ => false,
    }
}

/// The member that the record takes out of the group.
fn leaver(past: &Record, before: &[Record], group: &[u8]) -> Option<Member> {
    member_in(before, group, &ConnId::of(&past.entry))
}

/// Whether the moves are that of the member alone, with the cause.
fn are_just(moves: &[Move], member: Option<Member>, cause: Cause) -> bool {
    match moves {
        [only] => Some(only.member) == member && only.cause == cause,
        _ => false,
    }
}

/// Whether the record's change of the group is so told: who left, or who joined.
fn are_moves(
    past: &Record,
    before: &[Record],
    group: &[u8],
    left: &[Move],
    joined: &[Move],
) -> bool {
    match &past.entry.op {
        Op::Act(Call::Join(_)) => {
            left.is_empty() && are_just(joined, Some(Member::of(&past.entry)), Cause::Join)
        }
        Op::Act(Call::Leave) => {
            joined.is_empty() && are_just(left, leaver(past, before, group), Cause::Leave)
        }
        Op::Gone => joined.is_empty() && are_just(left, leaver(past, before, group), Cause::Down),
        _ => false,
    }
}

/// Whether the record sends that message from that process.
fn sends(past: &Record, node: NodeId, pid: u32, message: &Message) -> bool {
    match &past.entry.op {
        Op::Act(Call::Send(sent)) => {
            past.entry.node == node && past.entry.pid == pid && sent.equals(message)
        }
        _ => false,
    }
}

/// Whether the record edits a table.
fn edits(past: &Record) -> bool {
    matches!(
        &past.entry.op,
        Op::Act(Call::Insert(_, _, _) | Call::Remove(_, _))
    )
}

/// Whether the event is what the record, which acts in the group, tells those who hear it.
pub fn is_news(event: &Event, place: u32, past: &Record, before: &[Record], group: &[u8]) -> bool {
    match event {
        Event::Verdict { .. } => false,
        Event::Message {
            place: at,
            group: name,
            node,
            pid,
            message,
        } => *at == place && name.is(group) && sends(past, *node, *pid, message),
        Event::Change {
            place: at,
            group: name,
            members,
            left,
            joined,
        } => *at == place
            && name.is(group)
            && members.equals(&past.members)
            && are_moves(past, before, group, left.as_slice(), joined.as_slice()),
        Event::RulesChanged {
            place: at,
            group: name,
        } => *at == place && name.is(group) && edits(past),
    }
}

/// Whether the event is what the record tells those who hear it.
pub fn is_news_of(event: &Event, place: u32, past: &Record, before: &[Record]) -> bool {
    match acts_in(past) {
        Some(group) => is_news(event, place, past, before, group),
        None => false,
    }
}

/// Whether the events are those that the record tells the connection.
pub fn are_told(
    events: &[Event],
    place: u32,
    past: &Record,
    before: &[Record],
    conn: &ConnId,
) -> bool {
    match (events, is_own(past, conn), hears(past, before, conn)) {
        ([], false, false) => true,
        ([one], true, false) => is_answer(one, place, past),
        ([one], false, true) => is_news_of(one, place, past, before),
        ([one, other], true, true) => {
            is_answer(one, place, past) && is_news_of(other, place, past, before)
        }
        _ => false,
    }
}
