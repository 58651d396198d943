//! Of all nodes, the one that delivered most.

ghost use Rattle.std.specs.Prelude.{◌≡◌, ◌≤◌, ◌<◌, ◌+◌, Some, length, take, MatchOption};
ghost use Rattle.cpg_record.specs.Judging.{most_places};
ghost use Rattle.cpg_ring.specs.Worlds.{item};
ghost use Rattle.cpg_node.specs.Nodes.{records_of};
ghost use Rattle.cpg_why.specs.Explaining.{longer, longest, longest_audit};

use cpg_cred::{MOST_NODES, NodeId};
use cpg_node::Node;
use cpg_record::Record;
use cpg_world::World;

/// The longer of two lists of records, the first of two that are as long.
fn choose_longer<'a>(first: &'a [Record], second: &'a [Record]) -> &'a [Record]
    ensures { result.now ≡ longer first.now second.now }
{
    if second.len() <= first.len() {
        first
    } else {
        second
    }
}

/// The longer of what was found and what the node delivered.
fn choose_audit<'a>(most: &'a [Record], node: &'a Node) -> &'a [Record]
    requires { length most.now ≤ most_places }
    ensures longer { result.now ≡ longer most.now (records_of node.now) }
    ensures few { length result.now ≤ most_places }
{
    let _delivered = node.delivered();
    choose_longer(most, node.audit())
}

/// The node that so many stand before, if there is one.
fn find_node(world: &World, before: u8) -> Option<&Node>
    requires { before < MOST_NODES }
    ensures { MatchOption result (length world.now.nodes ≤ before) (λ node. item world.now.nodes (before + 1) ≡ Some node.now) }
{
    if before >= world.nodes() {
        return None;
    }
    let id = NodeId::new(before + 1)?;
    Some(world.node(id))
}

/// The longer of what was found among so many nodes and what the next one delivered, if there is one.
#[tactic(auto, using(crate::proofs::Chosen::longest_past))]
fn choose_next<'a>(world: &'a World, most: &'a [Record], before: u8) -> &'a [Record]
    requires before { before < MOST_NODES }
    requires longest { most.now ≡ longest (take before world.now.nodes) }
    requires few { length most.now ≤ most_places }
    ensures longest { result.now ≡ longest (take (before + 1) world.now.nodes) }
    ensures few { length result.now ≤ most_places }
{
    match find_node(world, before) {
        None => most,
        Some(node) => choose_audit(most, node),
    }
}

/// The records of the node that delivered most, of several the first. A world's nodes are 1 to 8, so all are looked at.
pub fn find_longest(world: &World) -> &[Record]
    ensures longest { result.now ≡ longest_audit world.now }
    ensures few { length result.now ≤ most_places }
{
    let mut most: &[Record] = &[];
    for before in 0..MOST_NODES {
        most = choose_next(world, most, before);
    }
    most
}
