//! `cpgring step`: a script of commands over a world, one event or one look at a time.
//!
//! The forms are this project's own. Proved: the whole script is read and checked before it begins, each
//! command meets the world that those before it left, and what is printed of it is the definition in
//! `specs/`, byte for byte, where the reader and the writer tell their bytes. It is printed in the form that is asked for:
//! as text, with the numbers of the frames that were sent (`numbers`), or as crates above have it.
#![tactic(auto)]

mod acting;
mod commands;
mod forms;
mod gathering;
mod looking;
mod numbered;
pub mod numbers;
mod plain;
mod printing;
mod reading;
mod running;
mod scripts;
mod targets;

pub use acting::{answer_to, do_command};
pub use commands::{Command, Look};
pub use cpg_text::Fault;
pub use forms::{PutsSteps, SteppedAsText, TellsSteps};
pub use gathering::run_gathered;
pub use looking::{TellsLooks, put_look, put_look_in};
pub use printing::{put_answer, put_frame};
pub use reading::{command_in_line, read_node, read_node_alone};
pub use running::{run_in_form, run_script};
pub use scripts::read_commands;
pub use targets::{
    Target, command_name, command_target, event_name, event_target, look_name, look_target,
    put_target,
};
