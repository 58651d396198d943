//! What `run` prints, as one object of JSON a line.
//!
//! The forms are this project's own; docs/CLI.md has them. Proved: what is put are the definitions in `specs/`, byte for
//! byte.

mod answers;
mod forms;

pub use forms::AnswersAsJson;
