//! A board of records that all threads share, each of whose places is set at most once, and seats: what
//! each of them has seen of it. It has the words of the history of the nodes that share it, too.
//!
//! That records are agreed on by such a board is this project's own; the cells are those of `once_cell`.
//! Proved of every schedule: two seats of one board never know different records at a place, so one of them
//! begins the other (`Board::meet`); a seat only grows, by what stands in the board's next cell. No call
//! waits for another thread.
#![tactic(auto)]

mod boards;
mod notes;
mod seats;
mod settling;
mod words;

pub use boards::Board;
pub use cpg_record::{MOST_PLACES, Record};
pub use seats::Seat;
pub use settling::Settled;
pub use words::{Line, OneHistory, Pens, View};
