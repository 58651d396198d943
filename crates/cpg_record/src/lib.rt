//! Records of judged entries, events, and the definitions of judging with their laws.
//!
//! The three lists of a configuration change and membership by group are CPG's (cpg_initialize(3),
//! cpg_membership_get(3)); judging by tables is this project's own. Proved: that copies equal their
//! sources, and laws, each the contract of a function of `laws`: of members and tables (`specs/Laws.antt`),
//! of what connections are told (`specs/Receiving.antt`), of what decides a verdict (`specs/Reasons.antt`)
//! and of how many there are (`specs/Bounds.antt`).
#![tactic(auto)]

mod connections;
mod events;
pub mod laws;
pub mod limits;
mod memberships;
mod moves;
mod records;
mod verdicts;

pub use connections::ConnId;
pub use cpg_entry::MOST_PLACES;
pub use events::{Event, Events};
pub use limits::MOST_MEMBERS;
pub use memberships::{Member, Members};
pub use moves::{Cause, Move, Moves};
pub use records::{Record, Records};
pub use verdicts::{Reason, Verdict};
