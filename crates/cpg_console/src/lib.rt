//! The program, from the streams that it is given to its exit status; and the four scripts as calls: entries that are
//! judged (`judge_script`), conf texts that are asked who is let in (`accept_script`), all nodes event by event
//! (`run_script`), and sessions on a running cluster (`cluster_script`).
//!
//! The forms are this project's own. Proved, where the streams tell their bytes: what is written to standard
//! output and to standard error, and the status (`specs/Runs.antt`).
#![tactic(auto)]

mod admitting;
mod auditing;
mod chances;
mod clustering;
mod drawing;
mod echoing;
mod failures;
mod founding;
mod hinting;
mod judging;
mod output_form;
mod pipes;
mod progress;
mod runs;
mod shelling;
mod stepping;
mod telling;
mod tracing;
mod words;

pub use admitting::{Admission, AdmitOptions, perform_admit, write_text};
pub use auditing::Inquiry;
pub use chances::Chances;
pub use cpg_accept::accept_script;
pub use cpg_accept::admit::NamedText;
pub use cpg_cluster::{Known, NotedForm, PLAIN, RunOptions, TextForm, WaitLimit, cluster_script};
pub use cpg_draw::Excerpt;
pub use cpg_json::Marks;
pub use cpg_judge::filter::{Filter, Only};
pub use cpg_judge::judge_script;
pub use cpg_print::{entries_read_back, rules_read_back, whos_read_back};
pub use cpg_step::run_script;
pub use cpg_text::{Fault, put_fault};
pub use cpg_why::Asked;
pub use failures::Failure;
pub use founding::{Foundation, Host, found, new_board};
pub use hinting::perform_with_hint;
pub use output_form::OutputForm;
pub use pipes::Piped;
pub use progress::Counted;
pub use runs::{Ended, Form, Picture, Run, Stepped, failure_after, hand_on, perform, tell};
pub use shelling::perform_shell;
pub use stepping::world_by;
pub use telling::{tell_failure, tell_fault};
pub use tracing::{KeepsEnds, Tracer, Untraced, stop_kept, trace_heading, trace_words};
pub use words::{hint_wrong, read_list};
