//! Conf texts and names texts: which users and groups a node lets in.
//!
//! The shape of a conf text is that of Corosync's configuration files; what is read of it, and the names
//! text, are this project's own. Proved: `Names::read` gives the names of the text, and `read_conf` the list
//! with the numbers that the text lists (`specs/Listed.antt`), or exactly the text's first fault.
#![tactic(auto)]

mod conf;
mod items;
mod lines;
mod names;
mod namings;
mod nesting;
mod tables;

pub use conf::{Numbers, list_conf, read_conf};
pub use names::{ConfFault, Names};
