//! `cpg_world`: all nodes of a ring, and all frames that were sent.

ghost use Rattle.std.specs.Prelude.{◌≤◌, All, length};
ghost use Rattle.cpg_world_laws.specs.Worlds.{node_in};

use bytes::Bytes;
use cpg_cred::{AcceptList, Cred, NodeId, Refusal};
use cpg_group::{Event, Names, Processes};
use cpg_node::Node;
use cpg_ring::Settings;
use cpg_wire::{Call, Name};
use cpg_world::{Replies, Reply, Run, World, WorldEvent};
use std::alloc::Global;

pub fn new_world(alloc: Global, settings: Settings, list: &AcceptList) -> Result<World, Refusal> {
    World::new(alloc, settings, list)
}

pub fn step(world: &mut World, event: WorldEvent) -> Result<Reply, Refusal>
    requires { node_in event ≤ length world.old.nodes }
{
    world.step(event)
}

pub fn run(world: &mut World, events: &[WorldEvent]) -> Run
    requires { All (λ e. node_in e ≤ length world.old.nodes) events.now }
{
    world.run(events)
}

/// What the events were answered, and how many were done.
pub fn done(run: &Run) -> (&[Result<Reply, Refusal>], usize) {
    let Run { replies, done } = run;
    (listed(replies), *done)
}

fn listed(replies: &Replies) -> &[Result<Reply, Refusal>] {
    replies.as_slice()
}

pub fn node(world: &World, id: NodeId) -> &Node
    requires { id ≤ length world.now.nodes }
{
    world.node(id)
}

/// How many nodes there are, how many frames were sent, and one of them.
pub fn shown(world: &World, k: usize) -> (u8, usize, Option<&Bytes>) {
    (world.nodes(), world.sent(), world.sent_frame(k))
}

/// Every event.
pub fn events(node: NodeId, conn: u16, cred: Cred, call: Call, group: Name) -> [WorldEvent; 9] {
    [
        WorldEvent::Connect(node, 40u32, cred),
        WorldEvent::Submit(node, conn, call),
        WorldEvent::Disconnect(node, conn),
        WorldEvent::Frame(node, 1usize),
        WorldEvent::Timer(node),
        WorldEvent::Deliver(node),
        WorldEvent::Take(node, conn),
        WorldEvent::List(node, conn, group),
        WorldEvent::Groups(node, conn),
    ]
}

/// Every reply.
pub fn replies(event: Option<Event>, members: Processes, groups: Names) -> [Reply; 8] {
    [
        Reply::Connected(1u16),
        Reply::Admitted,
        Reply::Closed,
        Reply::Sent(1usize),
        Reply::Delivered(Some(1u32)),
        Reply::Took(event),
        Reply::Members(members),
        Reply::Groups(groups),
    ]
}
