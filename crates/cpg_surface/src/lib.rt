//! The service's calls as a client makes them. Each public name is imported from the crate that offers it, and each call
//! is made once, with its arguments in their order and all types written out: a name that is gone, or a call of another
//! form, stops the check of this crate. Its contracts hold what the calls ask for, and promise nothing.
#![tactic(auto)]

pub mod boards;
pub mod conf;
pub mod credentials;
pub mod daemon;
pub mod frames;
pub mod groups;
pub mod links;
pub mod nodes;
pub mod rings;
pub mod rules;
pub mod scripts;
pub mod sessions;
pub mod stations;
pub mod worlds;
