//! The world: all nodes of a ring, and every frame that was ever sent.
//!
//! A world carries the theorem of `cpg_world_laws` to the program that runs: each world that can be made is
//! one that some list of events leads to, and `World::run` answers exactly the replies of the definitions.
#![tactic(auto)]

mod making;
mod meeting;
mod runs;
mod worlds;

pub use cpg_world_laws::{Reply, WorldEvent};
pub use runs::{Replies, Run};
pub use worlds::World;
