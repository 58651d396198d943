//! One node: its part of the ring, its judged entries, and its connections.
//!
//! The ring is Totem's and the groups are CPG's (`cpg_ring`, `cpg_group`); connections and their numbers
//! are this project's own. Proved: each call of `Node` is the definition in `specs/Calls.antt`, whatever
//! bytes it hears.
#![tactic(auto)]

mod clients;
mod connections;
mod cursors;
mod inboxes;
mod judged;
mod names;
mod nodes;
mod remains;
mod ringing;

pub use connections::{Client, Connection};
pub use cpg_group::{Event, Names, Processes, Record};
pub use cpg_ring::Settings;
pub use names::call_refusal;
pub use nodes::Node;
pub use remains::Remains;
