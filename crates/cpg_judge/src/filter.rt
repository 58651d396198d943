//! `cpgring judge` with a filter: those lines alone that are of a kind, a group, a connection or some places.
//!
//! The filters are this project's own. Proved: what is written are the lines of the definition
//! (`specs/Filtering.antt`), byte for byte, where the reader and the writer tell their bytes.

mod filtering;
mod filters;
mod inboxes;

pub use filters::{Filter, Only};
