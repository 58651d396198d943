//! What a running cluster recorded, as a script of `step` that plays it again.
//!
//! The form is this project's own. Proved: what is recorded is put in the order of its stamps, and is written as the
//! commands of these events, byte for byte; and what is written of an event is read as that event again.

mod laws;
mod lines;
mod ordering;
mod recordings;
mod scripts;
mod writing;

pub use laws::{events_read_back, scripts_play_again};
pub use recordings::{Recording, recorded_by};
pub use writing::write_trace;
