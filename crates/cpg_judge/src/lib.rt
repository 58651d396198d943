//! `cpgring judge`: entries that a script lists are judged one after the other, and all that is printed of them, or what
//! a filter keeps (`filter`).
//!
//! The forms are this project's own. Proved: what is read and what is written are the definitions in
//! `specs/`, byte for byte, where the reader and the writer tell their bytes.
#![tactic(auto)]

pub mod filter;
mod forms;
mod gathering;
mod inboxes;
mod judging;
mod output;
mod scripts;
mod texts;

pub use forms::{JudgedAsText, PutsJudged, TellsJudged};
pub use gathering::{write_all, write_much};
pub use judging::{judge_in_form, judge_script};
pub use scripts::judge_lines;
pub use texts::Placed;
