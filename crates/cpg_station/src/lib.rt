//! Nodes that share a board of records: what lies under a node's lock.
//!
//! Judging is `cpg_node`'s and the board `cpg_board`'s; that each node settles its judgements on one board
//! before it takes them as delivered is this project's own. Proved: whatever is called on a `Station`, its
//! seat is of the board that its type names, and begins with the node's records, with at most one more; what
//! is delivered stands on the board.
#![tactic(auto)]

pub mod laws;
mod naming;
mod standing;
mod stations;

pub use naming::BoardName;
pub use stations::Station;
