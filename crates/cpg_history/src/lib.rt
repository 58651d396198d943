//! One history of a running cluster: what ties each node under its lock to one run of the world.
#![tactic(auto)]

mod histories;
pub mod laws;
mod members;
mod parcels;
mod traces;

pub use histories::{Beginning, Front, Happens, History, HistoryName, Numbers, Pen};
pub use members::{Member, new_member, new_spares};
pub use parcels::{Parcel, Parcels};
pub use traces::{Recorded, Trace};
