//! `cpg_node`: one node.

ghost use Rattle.std.specs.Prelude.{◌≡◌, Some};
ghost use Rattle.cpg_node.specs.Calls.{next_record};

use bytes::Bytes;
use cpg_cred::{AcceptList, Cred, NodeId, Refusal, Refused};
use cpg_group::{ConnId, Event, Names, Processes, Record};
use cpg_node::{Connection, Node};
use cpg_ring::Settings;
use cpg_rules::Table;
use cpg_wire::Call;
use std::alloc::Global;

pub fn new_node(
    alloc: Global,
    settings: Settings,
    id: NodeId,
    list: AcceptList,
) -> Result<Node, Refused<AcceptList>> {
    Node::new(alloc, settings, id, list)
}

pub fn connect(node: &mut Node, pid: u32, cred: Cred) -> Result<u16, Refusal> {
    node.connect(pid, cred)
}

pub fn submit(node: &mut Node, conn: u16, call: Call) -> Result<(), Refused<Call>> {
    node.submit(conn, call)
}

pub fn disconnect(node: &mut Node, conn: u16) -> Result<(), Refusal> {
    node.disconnect(conn)
}

pub fn frame(node: &mut Node, bytes: &[u8]) -> Result<Vec<Bytes>, Refusal> {
    node.frame(bytes)
}

pub fn timer(node: &mut Node) -> Result<Option<Bytes>, Refusal> {
    node.timer()
}

pub fn judge_next(node: &Node) -> Result<Option<Record>, Refusal> {
    node.judge_next()
}

pub fn commit(node: &mut Node, next: Record) -> Result<(), Refused<Record>>
    requires { next_record node.old ≡ Some next }
{
    node.commit(next)
}

pub fn deliver(node: &mut Node) -> Result<Option<u32>, Refusal> {
    node.deliver()
}

pub fn take(node: &mut Node, conn: u16) -> Result<Option<Event>, Refusal> {
    node.take(conn)
}

pub fn list(node: &Node, conn: u16, group: &[u8]) -> Result<Processes, Refusal> {
    node.list(conn, group)
}

pub fn groups(node: &Node, conn: u16) -> Result<Names, Refusal> {
    node.groups(conn)
}

/// The number of an open connection, its process, and how many events it took.
pub fn known(open: Connection) -> (ConnId, (u32, Cred), u32) {
    let Connection {
        id,
        pid,
        cred,
        taken,
    } = open;
    (id, (pid, cred), taken)
}

/// All that can be seen of a node.
pub fn shown<'a>(
    node: &'a Node,
    conn: u16,
    group: &[u8],
) -> (&'a [Record], Option<&'a Table>, Option<Connection>, u32) {
    (
        node.audit(),
        node.table(group),
        node.connection(conn),
        node.safe(),
    )
}
