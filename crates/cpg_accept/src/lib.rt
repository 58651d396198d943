//! Whom a node lets in: `cpgring accept` by a script of names and conf texts, and `cpgring admit` by conf files as they
//! stand on a machine (`admit`).
//!
//! The form of the script is this project's own. Proved: the bytes that are written, after success and
//! after each fault (`specs/Accepting.antt`).
#![tactic(auto)]

mod accepting;
pub mod admit;
mod admitting;
mod asks;
mod parts;

pub use accepting::{TellsAnswer, accept_in_form, accept_script};
pub use asks::answer_text;
