//! Events of nodes, by the words of `step`.

use crate::words::{
    NO_COMMAND, conn, cred, first, index, is_word, node_of, number, one, three, two,
};
use cpg_cred::{NodeId, Refusal};
use cpg_entry::{Call, Name};
use cpg_print::read_call_in;
use cpg_world::WorldEvent;
use std::alloc::Global;

/// The call that the words say.
fn call_of(alloc: Global, text: &[u8]) -> Result<Call, Refusal> {
    match read_call_in(alloc, text)? {
        Some(call) => Ok(call),
        None => Err(NO_COMMAND),
    }
}

/// `PID UID GID`.
fn connect_of(node: NodeId, text: &[u8]) -> Result<WorldEvent, Refusal> {
    let (pid, uid, gid) = three(text)?;
    Ok(WorldEvent::Connect(node, number(pid)?, cred(uid, gid)?))
}

/// `CONN CALL`.
fn submit_of(alloc: Global, node: NodeId, text: &[u8]) -> Result<WorldEvent, Refusal> {
    let (word, rest) = first(text)?;
    let conn = conn(word)?;
    Ok(WorldEvent::Submit(node, conn, call_of(alloc, rest)?))
}

/// `CONN GROUP`.
fn list_of(alloc: Global, node: NodeId, text: &[u8]) -> Result<WorldEvent, Refusal> {
    let (word, group) = two(text)?;
    let conn = conn(word)?;
    Ok(WorldEvent::List(node, conn, Name::from_slice(alloc, group)?))
}

/// The event of that name that takes one number or none.
fn plain_event(word: &[u8], node: NodeId, text: &[u8]) -> Result<WorldEvent, Refusal> {
    if text.is_empty() && is_word(word, "timer") {
        return Ok(WorldEvent::Timer(node));
    }
    if text.is_empty() && is_word(word, "deliver") {
        return Ok(WorldEvent::Deliver(node));
    }
    let number = one(text)?;
    if is_word(word, "frame") {
        return Ok(WorldEvent::Frame(node, index(number)?));
    }
    if is_word(word, "take") {
        return Ok(WorldEvent::Take(node, conn(number)?));
    }
    if is_word(word, "groups") {
        return Ok(WorldEvent::Groups(node, conn(number)?));
    }
    if is_word(word, "disconnect") {
        return Ok(WorldEvent::Disconnect(node, conn(number)?));
    }
    Err(NO_COMMAND)
}

/// The event of the text, at one of so many nodes.
pub fn event_of(alloc: Global, nodes: u8, text: &[u8]) -> Result<WorldEvent, Refusal> {
    let (word, rest) = first(text)?;
    let (at, rest) = first(rest)?;
    let node = node_of(nodes, at)?;
    if is_word(word, "connect") {
        return connect_of(node, rest);
    }
    if is_word(word, "call") {
        return submit_of(alloc, node, rest);
    }
    if is_word(word, "list") {
        return list_of(alloc, node, rest);
    }
    plain_event(word, node, rest)
}
