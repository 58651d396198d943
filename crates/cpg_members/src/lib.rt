//! The members of a group with the set of their processes, so that whether a process is a member is one search.
//!
//! That a process is a member of a group once is CPG's rule (cpg_join(3)); the set beside the members is this project's
//! own. Proved: the set is that of the members' processes, and an index is seen as the list of members alone.
#![tactic(auto)]

mod member_index;

pub use member_index::MemberIndex;
