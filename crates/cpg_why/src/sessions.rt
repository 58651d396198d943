//! Why a verdict is what it is, of the entries that stand on the board of a running cluster, and that after a script of
//! sessions: `cpgring run --why`.
//!
//! The forms are `cpg_why`'s, without numbers of lines. Proved: what is told is what is found of the entries of the
//! records that a seat has read, judged again; and the script's commands are done as `cpgring run` does them.

mod boards;
mod explaining;
mod forms;

pub use explaining::why_of_sessions;
