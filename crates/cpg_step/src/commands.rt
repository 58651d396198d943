//! Commands of scripts.

use cpg_cred::NodeId;
use cpg_entry::Name;
use cpg_world::WorldEvent;

/// What a command that only looks is after.
#[derive(Debug, Drop)]
pub enum Look {
    /// The frame of that number, from 1.
    Show(u64),
    /// The records of a node.
    Audit(NodeId),
    /// A group's table of rules, as the node has it.
    Rules(NodeId, Name),
    /// The place up to which every node holds all places, as the node knows.
    Safe(NodeId),
}

/// One line of a script.
#[derive(Debug, Drop)]
pub enum Command {
    /// An event happens.
    Act(WorldEvent),
    /// Something is looked at, and nothing changes.
    Look(Look),
}
