//! `cpg_cred`: nodes, credentials, who is let in, and refusals.

use cpg_cred::{AcceptList, By, Cred, NodeId, Refusal, Refused, Via};
use std::alloc::Global;

pub fn new_node(number: u8) -> Option<NodeId> {
    NodeId::new(number)
}

pub fn number_of(node: NodeId) -> u8 {
    node.get()
}

pub fn cred(uid: u32, gid: u32) -> Cred {
    Cred { uid, gid }
}

pub fn new_list(alloc: Global) -> AcceptList {
    AcceptList::new(alloc)
}

pub fn add(list: &mut AcceptList, cred: Cred) -> Result<(), Refusal> {
    list.add_uid(cred.uid)?;
    list.add_gid(cred.gid)
}

pub fn copy_list(list: &AcceptList, alloc: Global) -> Result<AcceptList, Refusal> {
    list.copy(alloc)
}

/// Whether a user is let in by its number or its group's.
pub fn accepts(list: &AcceptList, cred: Cred) -> Result<bool, Refusal> {
    let via: Via = list.accepts(cred)?;
    Ok(match via {
        Via::RootUser | Via::User => true,
        Via::RootGroup | Via::Group => false,
    })
}

pub fn refused<T>(refusal: Refusal, back: T) -> Refused<T> {
    Refused { refusal, back }
}

/// The number that a refusal carries, of all there are.
pub fn carried(refusal: Refusal) -> Option<u32> {
    match refusal {
        Refusal::Memory
        | Refusal::Access
        | Refusal::NoConnection
        | Refusal::BadName
        | Refusal::TooLong
        | Refusal::QueueFull
        | Refusal::ConnectionsFull
        | Refusal::Foreign
        | Refusal::NotMine
        | Refusal::Stale
        | Refusal::Implausible
        | Refusal::Held
        | Refusal::FarAhead
        | Refusal::Malformed
        | Refusal::RingEnd
        | Refusal::NoFrame
        | Refusal::Differs
        | Refusal::BoardFull
        | Refusal::Stopped
        | Refusal::Unclosed
        | Refusal::Range
        | Refusal::Read
        | Refusal::Write => None,
        Refusal::Behind(reached) => Some(reached),
        Refusal::Denied(by) => carried_by(by),
        Refusal::BadLine(line)
        | Refusal::Unopened(line)
        | Refusal::BadItem(line)
        | Refusal::BadValue(line)
        | Refusal::UnknownName(line)
        | Refusal::BadCommand(line) => Some(line),
    }
}

fn carried_by(by: By) -> Option<u32> {
    match by {
        By::Rule(id) => Some(id),
        By::Default | By::Root | By::Free => None,
    }
}
