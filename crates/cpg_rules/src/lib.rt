//! Ordered tables of access rules: the first rule that speaks of a right and an asker decides.
//!
//! The rule is this project's own. Proved: `Table::decide` is the definition `decide` of
//! `specs/Decision.antt`, and a table's edits are those of a list.
#![tactic(auto)]

mod decisions;
mod rules;
mod tables;

pub use cpg_cred::{By, Cred, NodeId, Refusal};
pub use decisions::Decision;
pub use rules::{Asker, Effect, Right, Rule, Who};
pub use tables::{MOST_RULES, Table, limits};
