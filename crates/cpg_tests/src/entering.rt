//! Calls in short words, and their way into a policy.

use cpg_entry::{Call, Cred, Entry, Message, Name, NodeId, Op, Refusal, SharedRule};
use cpg_group::{ConnId, Events, MOST_PLACES, Members, Policy, Record, Records, Verdict};
use cpg_rules::Rule;
use std::alloc::Global;

/// What a connection asks, with the group's name as text.
#[derive(Clone, Copy)]
pub enum Ask {
    Join(&'static str),
    Leave,
    /// To send `hi`.
    Send,
    /// To put the rule into the group's table at that index.
    Insert(&'static str, u8, Rule),
    /// To take the rule of that id out of the group's table.
    Remove(&'static str, u32),
    /// Nothing more: the connection has ended.
    Gone,
}

/// The name of those characters.
fn name(alloc: Global, text: &str) -> Result<Name, Refusal> {
    Name::from_slice(alloc, text.as_bytes())
}

/// The op that asks it.
fn op(alloc: Global, ask: &Ask) -> Result<Op, Refusal> {
    Ok(Op::Act(match ask {
        Ask::Join(group) => Call::Join(name(alloc, group)?),
        Ask::Leave => Call::Leave,
        Ask::Send => Call::Send(Message::from_slice(alloc, b"hi")?),
        Ask::Insert(group, index, rule) => {
            Call::Insert(name(alloc, group)?, *index, SharedRule::new(alloc, *rule)?)
        }
        Ask::Remove(group, id) => Call::Remove(name(alloc, group)?, *id),
        Ask::Gone => return Ok(Op::Gone),
    }))
}

/// The node of that number; `Range` where there is none.
pub fn node(number: u8) -> Result<NodeId, Refusal> {
    NodeId::new(number).ok_or(Refusal::Range)
}

/// A connection with its process and credentials.
#[derive(Clone, Copy)]
pub struct Source {
    pub node: u8,
    pub conn: u16,
    pub pid: u32,
    pub uid: u32,
    pub gid: u32,
}

/// The entry of a connection that asks it.
pub fn entry(alloc: Global, from: &Source, ask: &Ask) -> Result<Entry, Refusal> {
    let (uid, gid) = (from.uid, from.gid);
    Ok(Entry {
        node: node(from.node)?,
        conn: from.conn,
        pid: from.pid,
        cred: Cred { uid, gid },
        op: op(alloc, ask)?,
    })
}

/// Judges the entry and puts it last; a policy that is full refuses it.
pub fn enter(policy: &mut Policy, entry: &Entry) -> Result<Verdict, Refusal> {
    if policy.len() >= MOST_PLACES as usize {
        return Err(Refusal::BoardFull);
    }
    let next = policy.judge(entry)?;
    let verdict = next.verdict;
    match policy.apply(next) {
        Ok(()) => Ok(verdict),
        Err(refused) => Err(refused.refusal),
    }
}

/// A copy of the record, which has no members if it is the one.
fn emptied_if(alloc: Global, past: &Record, is_one: bool) -> Result<Record, Refusal> {
    let mut copy = past.copy(alloc)?;
    if is_one {
        copy.members = Members::new(alloc);
    }
    Ok(copy)
}

/// Copies of the records, of which the one at the index has no members.
pub fn emptied_at(alloc: Global, records: &[Record], index: usize) -> Result<Records, Refusal> {
    let mut copies = Records::new(alloc);
    for past in records {
        let is_one = copies.len() == index;
        copies.push(emptied_if(alloc, past, is_one)?)?;
    }
    Ok(copies)
}

/// Whether the records are equal.
fn is_same(one: &Record, other: &Record) -> bool {
    one.equals(other)
}

/// Whether the records are equal, pair by pair.
pub fn are_equal(a: &[Record], b: &[Record]) -> bool {
    for (one, other) in a.iter().zip(b) {
        if !is_same(one, other) {
            return false;
        }
    }
    true
}

/// What the place tells the connection; `Range` where the policy has no such place.
pub fn events_at(policy: &Policy, place: u32, conn: &ConnId) -> Result<Events, Refusal> {
    if place == 0 || place as usize > policy.len() {
        return Err(Refusal::Range);
    }
    policy.events_at(place, *conn)
}
