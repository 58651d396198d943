//! Who asks, who is let in, how a call says no, and by which hash names are found.
//!
//! Credentials and their acceptance are this project's own rule (Corosync's conf files give the shape of
//! the lists alone); the numbers of refusals are its own too. Proved: `AcceptList::accepts` is the
//! definition in `specs/Admission.antt`, and each growth of a list adds one number at its end, once.
#![tactic(auto)]

mod admission;
mod bases;
mod credentials;
mod hashing;
mod nodes;
mod refusals;

pub use admission::{AcceptList, Via};
pub use bases::By;
pub use credentials::Cred;
pub use hashing::NameHasher;
pub use nodes::{MOST_NODES, NodeId, limits};
pub use refusals::{Refusal, Refused, is_memory};
