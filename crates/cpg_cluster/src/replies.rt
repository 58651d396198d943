//! What commands are answered.

use cpg_board::Seat;
use cpg_node::{Event, Names, Processes};

/// What a command is answered where it is not refused.
#[derive(Drop)]
pub enum Reply {
    /// The session's number.
    Opened(usize),
    Admitted,
    /// The event that came.
    Took(Event),
    /// No event came while it waited; the session has seen so many records.
    Nothing(usize),
    Members(Processes),
    Groups(Names),
    /// A seat that has seen the records.
    Audit(Seat),
    Closed,
    /// The place.
    Safe(u32),
}
