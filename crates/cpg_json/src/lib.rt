//! What the program prints, as one object of JSON a line: of scripts, conf files, sessions (`sessions`) and reasons (`why`).
//!
//! The forms are this project's own; docs/CLI.md has them. Proved: what is written are the definitions in
//! `specs/`, byte for byte, where the reader and the writer tell their bytes; but for reasons, which plain code words.
#![tactic(auto)]

mod admitting;
mod answers;
mod arrays;
mod calls;
mod events;
mod frames;
mod inboxes;
mod judging;
mod laws;
mod looking;
mod marks;
mod objects;
mod records;
pub mod sessions;
mod stepping;
mod stretches;
mod strings;
mod tails;
pub mod why;

pub use admitting::{AdmittedAsJson, print_json, print_json_echo};
pub use cpg_text::Fault;
pub use judging::{JudgedAsJson, JudgedObjects};
pub use laws::{strings_are_printable, strings_read_back, texts_are_printable};
pub use marks::{Marks, number_at};
pub use stepping::{SteppedAsJson, SteppedObjects};
