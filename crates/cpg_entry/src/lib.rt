//! What members ask and what frames carry: names, messages, calls, entries, packets and tokens; and lists of delivered
//! entries, whose first ones nodes have in common.
//!
//! The ops are those of cpg_join(3), cpg_leave(3) and cpg_mcast_joined(3), and this project's own edits of
//! rule tables; the token is that of Totem's single ring. Proved: a copy equals its source, equality is
//! equality of contents, and `accepts_name` is the rule of names in `specs/Names.antt`. What a frame may
//! carry stands in `specs/Ranges.antt`, and what the types of its fields give in `specs/Widths.antt`.
//!
//! All nodes of a ring deliver the same entries. A `Ledger` is one node's list of them; a `Shelf` holds the first ones
//! of all that begin alike once, in blocks. That blocks are taken in place of equal entries is this project's own.
//! Proved: who reads a ledger sees the same entries, whether they are its own or those of a block, and whoever laid the
//! block down. No call waits for another thread.
#![tactic(auto)]

mod blocks;
mod bodies;
mod calls;
mod entries;
mod frames;
mod growing;
mod ledgers;
mod messages;
mod names;
mod places;
mod ranges;
mod shared;
mod shelves;
mod types;

pub use blocks::BLOCK;
pub use calls::{Call, Op};
pub use cpg_rules::{Asker, By, Cred, Effect, NodeId, Refusal, Right, Rule, Who};
pub use entries::Entry;
pub use frames::{Frame, Packet, Token};
pub use growing::reserve_ahead;
pub use ledgers::Ledger;
pub use messages::{MOST_MESSAGE_BYTES, Message};
pub use names::{MOST_NAME_BYTES, Name, accepts_name, names_pass};
pub use places::Places;
pub use ranges::{MOST_CONNECTIONS, MOST_HOPS, MOST_PLACES, MOST_REQUESTS, limits};
pub use shared::SharedRule;
pub use shelves::Shelf;
pub use types::{call_fits, entry_fits, packet_fits, token_fits};
