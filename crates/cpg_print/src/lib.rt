//! Printed forms, as text both ways: entries, calls and rules are read from words and printed as such;
//! verdicts, records and events are printed.
//!
//! The forms are this project's own. Proved: what is read and what is printed are the definitions in `specs/`,
//! byte for byte; and what is printed of an entry, of a rule or of a who is read as that again.
#![tactic(auto)]

mod answers;
mod calls;
mod entries;
mod events;
mod laws;
mod naming;
mod plain_calls;
mod records;
mod rules;
mod verdicts;

pub use answers::{
    put_groups_line, put_members_line, put_refused_line, put_safe_line, put_took_line,
};
pub use calls::{put_call, read_call, read_call_in};
pub use entries::{entry_in_line, entry_with_names, put_conn, put_entry};
pub use events::{
    put_change_line, put_change_with, put_event, put_inbox, put_message_line, put_rules_line,
    put_verdict_line,
};
pub use laws::{calls_read_back, entries_read_back, rules_read_back, whos_read_back};
pub use naming::{GivesNames, NewNames};
pub use records::{put_audit, put_audit_with, put_count, put_members};
pub use rules::{node_number, put_rule};
pub use verdicts::put_verdict;
