//! What has been seen of a board.

ghost use Rattle.std.specs.Prelude.{◌≡◌, [], length};

use cpg_record::Record;
use once_cell::race::Note;
use std::alloc::Global;
use std::marker::Model;

/// The records of a board that were seen, from its first place on. Contracts see each with its cell.
#[derive(Drop)]
pub struct Seat {
    pub(crate) notes: Vec<Note<Record>>,
}

impl Model for Seat {
    ghost use Rattle.cpg_board.specs.Seats.{SeatValue};
    ghost use Rattle.cpg_board.specs.Noted.{known_of, AllKnow};

    ghost Value = { SeatValue };

    ghost view = { λ seat. known_of seat.notes.items };

    ghost invariant = { λ seat. AllKnow seat.notes.items };
}

impl Seat {
    /// A seat that has seen nothing.
    pub(crate) fn empty(alloc: Global) -> Seat
        ensures { result ≡ [] }
    {
        Seat {
            notes: Vec::new(alloc),
        }
    }

    /// How many records it knows.
    #[tactic(auto, using(crate::proofs::Known::known_length))]
    pub fn len(&self) -> usize
        ensures { result ≡ length self.now }
    {
        self.notes.len()
    }
}
