//! A first program over the library: a node that is alone in its ring lets a process in, which joins a group and sends
//! to it, and prints what that process is told.
#![tactic(auto)]

use cpg_cred::{AcceptList, Cred, NodeId, Refusal};
use cpg_entry::{Call, Message, Name};
use cpg_node::{Node, Settings};
use cpg_print::put_event;
use std::alloc::Global;
use std::io::Write;
use std::process::ExitCode;

/// How many places the ring has, so that no more are delivered.
const PLACES: u32 = 100;

/// The only node of a ring, which lets in user 0 and group 0 alone.
fn new_node(alloc: Global) -> Result<Node, Refusal> {
    let settings = Settings {
        ring: 1,
        nodes: 1,
        places: PLACES,
        hops: 1000,
    };
    Node::new(alloc, settings, NodeId::default(), AcceptList::new(alloc)).map_err(
        |refused| refused.into_refusal(),
    )
}

/// Has a call of the connection wait at the node.
fn submit(node: &mut Node, conn: u16, call: Call) -> Result<(), Refusal> {
    node.submit(conn, call)
        .map_err(|refused| refused.into_refusal())
}

/// Lets the token come round: a node that is alone hears the token that it sent last. Then all that has a place is
/// delivered.
fn turn(node: &mut Node) -> Result<(), Refusal> {
    if let Some(token) = node.timer()? {
        node.frame(token.as_slice())?;
    }
    for _ in 0..PLACES {
        if node.deliver()?.is_none() {
            break;
        }
    }
    Ok(())
}

/// The lines of all events that the connection is told.
fn events_of(alloc: Global, node: &mut Node, conn: u16) -> Result<Vec<u8>, Refusal> {
    let mut text = Vec::new(alloc);
    for _ in 0..2 * PLACES {
        match node.take(conn)? {
            Some(event) => put_event(&mut text, &event)?,
            None => break,
        }
    }
    Ok(text)
}

/// A process of user 0 joins the group `db` and sends `hi` to it. Its connection is told.
fn ask(alloc: Global, node: &mut Node) -> Result<u16, Refusal> {
    let conn = node.connect(40, Cred { uid: 0, gid: 0 })?;
    submit(node, conn, Call::Join(Name::from_slice(alloc, b"db")?))?;
    submit(node, conn, Call::Send(Message::from_slice(alloc, b"hi")?))?;
    Ok(conn)
}

/// What that process is told.
fn talk(alloc: Global, node: &mut Node) -> Result<Vec<u8>, Refusal> {
    let conn = ask(alloc, node)?;
    turn(node)?;
    events_of(alloc, node, conn)
}

/// The same over a new node.
fn told(alloc: Global) -> Result<Vec<u8>, Refusal> {
    let mut node = new_node(alloc)?;
    let lines = talk(alloc, &mut node);
    drop(node);
    lines
}

fn main(rt: HostRuntime) -> ExitCode {
    let written = match told(rt.alloc()) {
        Ok(text) => rt.stdout().write_all(text.as_slice()).is_ok(),
        Err(_) => false,
    };
    ExitCode::from(if written { 0 } else { 1 })
}
