//! One event at its node. Each kind stands apart (`inline(never)`), so that none pays for the room of another's values.

ghost use Rattle.std.specs.Prelude.{◌≡◌, ◌∷◌, [], suc, length, Result};
ghost use Rattle.cpg_world_laws.specs.declared.events.WorldEvent.TheVariants as events;
ghost use Rattle.cpg_world.specs.Kept.{frames_of, AreSpelled, IsMet};

use bytes::Bytes;
use cpg_cred::{Cred, NodeId, Refusal};
use cpg_entry::{Call, Name, reserve_ahead};
use cpg_node::Node;
use cpg_wire::reads_what_is_spelled;
use cpg_world_laws::{Reply, WorldEvent};

#[inline(never)]
fn meet_connect(
    node: &mut Node,
    id: NodeId,
    pid: u32,
    cred: Cred,
    sent: &Vec<Bytes>,
) -> Result<Reply, Refusal>
    ensures { IsMet (frames_of sent.now.items) (events.Connect id pid cred) node.old result node.new (frames_of sent.now.items) }
{
    let conn = node.connect(pid, cred)?;
    Ok(Reply::Connected(conn))
}

#[inline(never)]
fn meet_submit(
    node: &mut Node,
    id: NodeId,
    conn: u16,
    call: Call,
    sent: &Vec<Bytes>,
) -> Result<Reply, Refusal>
    ensures { IsMet (frames_of sent.now.items) (events.Submit id conn call) node.old result node.new (frames_of sent.now.items) }
{
    match node.submit(conn, call) {
        Ok(()) => Ok(Reply::Admitted),
        Err(refused) => Err(refused.into_refusal()),
    }
}

#[inline(never)]
fn meet_disconnect(
    node: &mut Node,
    id: NodeId,
    conn: u16,
    sent: &Vec<Bytes>,
) -> Result<Reply, Refusal>
    ensures { IsMet (frames_of sent.now.items) (events.Disconnect id conn) node.old result node.new (frames_of sent.now.items) }
{
    node.disconnect(conn)?;
    Ok(Reply::Closed)
}

#[inline(never)]
fn meet_deliver(node: &mut Node, id: NodeId, sent: &Vec<Bytes>) -> Result<Reply, Refusal>
    ensures { IsMet (frames_of sent.now.items) (events.Deliver id) node.old result node.new (frames_of sent.now.items) }
{
    let place = node.deliver()?;
    Ok(Reply::Delivered(place))
}

#[inline(never)]
fn meet_take(node: &mut Node, id: NodeId, conn: u16, sent: &Vec<Bytes>) -> Result<Reply, Refusal>
    ensures { IsMet (frames_of sent.now.items) (events.Take id conn) node.old result node.new (frames_of sent.now.items) }
{
    let event = node.take(conn)?;
    Ok(Reply::Took(event))
}

#[inline(never)]
fn meet_list(
    node: &Node,
    id: NodeId,
    conn: u16,
    group: &Name,
    sent: &Vec<Bytes>,
) -> Result<Reply, Refusal>
    ensures { IsMet (frames_of sent.now.items) (events.List id conn group.now) node.now result node.now (frames_of sent.now.items) }
{
    let list = node.list(conn, group.as_slice())?;
    Ok(Reply::Members(list))
}

#[inline(never)]
fn meet_groups(node: &Node, id: NodeId, conn: u16, sent: &Vec<Bytes>) -> Result<Reply, Refusal>
    ensures { IsMet (frames_of sent.now.items) (events.Groups id conn) node.now result node.now (frames_of sent.now.items) }
{
    let names = node.groups(conn)?;
    Ok(Reply::Groups(names))
}

#[inline(never)]
fn meet_frame(
    node: &mut Node,
    id: NodeId,
    k: usize,
    sent: &mut Vec<Bytes>,
) -> Result<Reply, Refusal>
    requires spelled { AreSpelled sent.old.items }
    ensures met { IsMet (frames_of sent.old.items) (events.Frame id k) node.old result node.new (frames_of sent.new.items) }
    ensures spelled { AreSpelled sent.new.items }
{
    reads_what_is_spelled();
    if k == 0 {
        return Err(Refusal::NoFrame);
    }
    if k > sent.len() {
        return Err(Refusal::NoFrame);
    }
    reserve_ahead(sent, 41)?;
    let mut list = match node.shared_frame(&sent[k - 1]) {
        Ok(list) => list,
        Err(refusal) => return Err(refusal),
    };
    let count = list.len();
    sent.append(&mut list)?;
    Ok(Reply::Sent(count))
}

#[inline(never)]
fn meet_timer(node: &mut Node, id: NodeId, sent: &mut Vec<Bytes>) -> Result<Reply, Refusal>
    requires spelled { AreSpelled sent.old.items }
    ensures met { IsMet (frames_of sent.old.items) (events.Timer id) node.old result node.new (frames_of sent.new.items) }
    ensures spelled { AreSpelled sent.new.items }
{
    reads_what_is_spelled();
    sent.reserve(1)?;
    match node.timer()? {
        None => Ok(Reply::Sent(0)),
        Some(bytes) => {
            sent.push_reserved(bytes);
            Ok(Reply::Sent(1))
        }
    }
}

/// The event at its node.
#[inline(always)]
pub(crate) fn meet(
    node: &mut Node,
    sent: &mut Vec<Bytes>,
    event: WorldEvent,
) -> Result<Reply, Refusal>
    requires spelled { AreSpelled sent.old.items }
    ensures met { IsMet (frames_of sent.old.items) event node.old result node.new (frames_of sent.new.items) }
    ensures spelled { AreSpelled sent.new.items }
{
    match event {
        WorldEvent::Connect(id, pid, cred) => meet_connect(node, id, pid, cred, sent),
        WorldEvent::Submit(id, conn, call) => meet_submit(node, id, conn, call, sent),
        WorldEvent::Disconnect(id, conn) => meet_disconnect(node, id, conn, sent),
        WorldEvent::Frame(id, k) => meet_frame(node, id, k, sent),
        WorldEvent::Timer(id) => meet_timer(node, id, sent),
        WorldEvent::Deliver(id) => meet_deliver(node, id, sent),
        WorldEvent::Take(id, conn) => meet_take(node, id, conn, sent),
        WorldEvent::List(id, conn, group) => meet_list(node, id, conn, &group, sent),
        WorldEvent::Groups(id, conn) => meet_groups(node, id, conn, sent),
    }
}
