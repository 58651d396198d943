//! Commands of scripts.

use cpg_cred::{Cred, NodeId};
use cpg_entry::{Call, Name};

/// What an open session is asked for.
#[derive(Debug, Drop)]
pub enum Ask {
    /// Its call is to wait at its node.
    Call(Call),
    /// Its next event, once it comes.
    Wait,
    /// The members of a group.
    List(Name),
    /// The names of the groups.
    Groups,
    /// All records that it or the board knows.
    Audit,
}

/// One line of a script.
#[derive(Debug, Drop)]
pub enum Command {
    /// A process of that pid and those credentials connects to the node.
    Connect(NodeId, u32, Cred),
    /// The session of that number is asked.
    Ask(u32, Ask),
    /// The session of that number ends.
    Close(u32),
    /// The place up to which every node holds all places, as the node knows.
    Safe(NodeId),
}

/// A command of a script, with the number of its line.
#[derive(Debug, Drop)]
pub struct Numbered {
    /// From 1; ignored lines count.
    pub number: u32,
    pub command: Command,
}
