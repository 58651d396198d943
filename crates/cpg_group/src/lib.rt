//! Judging agreed entries: verdicts, members, rules, events and listings of one group service.
//!
//! Membership and configuration changes follow CPG (cpg_join(3), cpg_initialize(3)); access rules are this
//! project's own. Proved: each call of `Policy` is the definition of cpg_record over `judged` of the
//! entries that it has seen.
#![tactic(auto)]

mod entering;
mod heard;
mod judging;
mod listing;
mod logs;
mod nexts;
mod places;
mod policies;
mod standing;
mod telling;
mod told;
mod verifying;

pub use cpg_record::{
    Cause, ConnId, Event, Events, MOST_MEMBERS, MOST_PLACES, Member, Members, Move, Moves, Reason,
    Record, Records, Verdict,
};
pub use heard::Heard;
pub use listing::{Names, Processes};
pub use logs::ConnectionLog;
pub use nexts::Hint;
pub use policies::Policy;
pub use told::count_upto;
pub use verifying::verify;
