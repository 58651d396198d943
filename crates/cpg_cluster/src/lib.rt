//! `cpgring run`: a script of sessions over the running nodes of a cluster; and `cpgring shell`, its commands line by line
//! as they are typed (`shell`).
//!
//! The forms are this project's own. Proved: the whole script is read and checked before it begins, sessions are
//! numbered by accepted connections, each is answered what `cpg_daemon` promises of it over the one history, and what is
//! printed of the answers is the definition in `specs/`, byte for byte, where the reader and the writer tell their bytes. That an
//! event comes while it is waited for, and that what was printed is handed on before a wait begins, is tested.
#![tactic(auto)]

mod acting;
mod asking;
mod commands;
mod echoing;
mod forms;
mod noting;
mod printing;
mod reading;
mod replies;
mod running;
mod scripts;
mod sessions;
pub mod shell;
pub mod trace;

pub use acting::{answer_with_memory, do_command};
pub use asking::{MOST_POLLS, limits};
pub use commands::{Ask, Command, Numbered};
pub use cpg_text::Fault;
pub use echoing::put_echoed;
pub use forms::{NotedForm, PLAIN, PutsAnswer, RunOptions, TextForm, WaitLimit};
pub use noting::Known;
pub use printing::put_answer;
pub use reading::command_in_line;
pub use replies::Reply;
pub use running::{cluster_script, hand_on, run_sessions};
pub use scripts::read_numbers;
pub use sessions::Sessions;
