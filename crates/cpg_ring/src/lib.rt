//! The ring: the token's visits, the window of places, and the order that all nodes agree on.
//!
//! The token and its visits are those of Totem's single ring; burst, window and limits are this project's
//! own. Proved: `every_schedule`, for every list of events, `no_dead_end`, that what is lost can be recovered,
//! `bounded_wait`, after how many hops it is where no more is lost, and that each call of `Ring` is the
//! definition.
#![tactic(auto)]

mod held;
mod ring;
mod settings;
mod theorem;
mod visit;
mod waiting;

pub use cpg_cred::MOST_NODES;
pub use cpg_entry::{
    Entry, Frame, MOST_HOPS, MOST_PLACES, MOST_REQUESTS, NodeId, Packet, Refusal, Token,
};
pub use ring::{Ring, are_settings};
pub use settings::{BURST, MOST_WAITING, Settings, WINDOW};
pub use theorem::{
    bounded_wait, every_packet, every_place, every_schedule, every_visit, limits, no_dead_end,
};
pub use visit::{Packets, Visit};
