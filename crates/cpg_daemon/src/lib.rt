//! Nodes in threads of their own, with links between them, and the sessions that ask them.
//!
//! That a node runs in a thread, and what a turn does, is this project's own. Proved: what a session is
//! answered, over the records that its seat knows, whatever the threads do; who is given a session; how many
//! stations and links a cluster leaves. That threads run at once, and that their turns move frames, is tested.
#![tactic(auto)]

mod beginning;
mod clusters;
mod flags;
mod gates;
mod lines;
mod making;
mod running;
mod sessions;
mod stopping;
mod turns;

use bytes::Bytes;
pub use clusters::{Cluster, Ends};
pub use cpg_history::{Front, HistoryName, Member, Parcel};
pub use cpg_link::{MOST_FRAMES, close, link};
pub use cpg_station::{BoardName, Station};
pub use gates::{Fate, Gate, PassAll};
pub use running::Running;
pub use sessions::Session;

/// The ends of a link that carries frames. A cluster's links carry parcels: frames with their numbers in its history.
pub type LinkTx = cpg_link::LinkTx<Bytes>;

pub type LinkRx = cpg_link::LinkRx<Bytes>;
