//! A node for programs in other languages: a node with what it still has to hand over.
//!
//! What a node's calls give is of no fixed size: frames, events, listings. An `Endpoint` keeps them, and
//! hands them over one at a time, into buffers of the caller's; what is told of them is plain numbers.
//! The shape is that of libraries that do no input or output of their own (nghttp2, quiche); the numbers
//! are this project's own. Proved: each call does at the node what the node's own call does, and answers
//! the number of its refusal; what it hands over is what the node gave, each frame once, in order.
#![tactic(auto)]

mod closing;
mod endpoints;
mod events;
mod frames;
mod laws;
mod listings;
mod opening;
mod processes;
mod records;
mod rules;
mod seats;
mod statuses;
mod told;

pub use endpoints::Endpoint;
pub use laws::{answers_end_with_their_token, seats_are_memberships};
pub use opening::{Fault, Setup, list_of_conf, open, open_conf};
pub use processes::Process;
pub use records::Audited;
pub use rules::RuleLine;
pub use statuses::{BUSY, CLOSED, NONE, OK, SPACE, limits};
pub use told::Told;
