//! Why a verdict is what it is: the entries of a script are judged, and an answer is explained by the rule or the
//! state that decided it. So are answers of the entries that stand on a running cluster's board (`sessions`), and of those
//! in a world that commands made (`steps`).
//!
//! Proved: what is found, as values, is the definition in `specs/`, and what is named is what decided; and what each fault
//! leaves written. The texts are this project's own, and plain: tests hold them.
#![tactic(auto)]

mod asking;
mod audits;
mod deciding;
mod findings;
mod forms;
mod inboxes;
mod laws;
mod moves;
mod numbers;
mod processes;
mod scripts;
pub mod sessions;
mod standings;
pub mod steps;
mod telling;
mod text;
mod unmet;
mod walk;
mod way;
mod without;

pub use asking::{Asked, Missing, WhyFault};
pub use audits::{why_of_entries, why_of_records};
pub use cpg_cluster::read_numbers;
pub use cpg_text::Fault;
pub use deciding::explain;
pub use findings::{Decided, Finding, Findings, Passed, PassedRule, Ruled, Stand, Unruled};
pub use forms::{Cited, Tells};
pub use laws::{
    named_decides, passed_do_not_match, removal_tells_what_decides, tells_verdicts_without,
    told_by_standing,
};
pub use numbers::line_of;
pub use standings::{Standing, is_told};
pub use telling::{find, why_script};
pub use text::AsText;
pub use unmet::{Subject, Unmet};
