//! The board, with its calls.

ghost use Rattle.std.specs.Prelude.{◌≡◌, ◌≢◌, ◌/◌, ◌++◌, ◌∷◌, ◌<◌, ◌≤◌, [], length, take, Some, None, Ok, true, false, IsOk, slice_get, IfOk, IfErr, IfSome, OnOk, OnErr, IsOkUnless, MatchOption, MatchResult, vec_len, vec_capacity};
ghost use Rattle.cpg_record.specs.Places.{record_at, Begins};
ghost use Rattle.cpg_entry.specs.declared.blocks.TheConstants.{BLOCK};
ghost use Rattle.cpg_board.specs.Making.{HasBoard, IsUnmade};
ghost use Rattle.cpg_board.specs.Noted.{known_of, AllKnow};
ghost use Rattle.cpg_board.specs.Seats.{IsSeatOf, records_of, Meets, IsLonger};
ghost use Rattle.cpg_board.specs.Settling.{Refuses};
ghost use Rattle.cpg_board.specs.Words.{first_seat, is_counted, many_words};
ghost use Rattle.cpg_board.specs.declared.settling.Settled.TheVariants.{Differs};

use crate::notes::learn;
use crate::seats::Seat;
use crate::settling::Settled;
use crate::words::{Line, Pens, Words};
use cpg_cred::Refusal;
use cpg_entry::Shelf;
use cpg_record::{MOST_PLACES, Record};
use once_cell::race::{Note, OnceBox};
use std::alloc::Global;
use std::cmp::Ordering;
use std::marker::Model;

/// Places in a row, each of which holds at most one record, for good, and the words of the history of the nodes that share
/// it. Contracts see the names of its cells, and the table of these words.
#[derive(Drop)]
pub struct Board {
    alloc: Global,
    cells: Vec<OnceBox<Record>>,
    shelf: Shelf,
    words: Words,
}

impl Model for Board {
    ghost use Rattle.std.specs.Prelude.{◌≡◌, ◌/◌, map, length};
    ghost use Rattle.once_cell.specs.Once.{cell_name};
    ghost use Rattle.cpg_entry.specs.declared.blocks.TheConstants.{BLOCK};
    ghost use Rattle.cpg_board.specs.Words.{BoardValue};

    ghost Value = { BoardValue };

    ghost view = { λ board. record { cells = map cell_name board.cells.items; table = board.words } };

    ghost invariant = { λ board. board.shelf ≡ length (map cell_name board.cells.items) / BLOCK };
}

impl Board {
    /// A board of so many places, from 1 to 1,048,576, all empty. Refused with Range for another number.
    pub fn new(alloc: Global, places: u32) -> Result<Board, Refusal>
        ensures ok { IfOk result (λ board. HasBoard places × (length board.cells ≡ places) × (is_counted board.table ≡ false)) }
        ensures err { IfErr result (IsUnmade places) }
    {
        Board::of(alloc, places, false)
    }

    /// The same, for nodes of which all that happens is recorded. That is our own.
    pub fn recorded(alloc: Global, places: u32) -> Result<Board, Refusal>
        ensures ok { IfOk result (λ board. HasBoard places × (length board.cells ≡ places) × (is_counted board.table ≡ true)) }
        ensures err { IfErr result (IsUnmade places) }
    {
        Board::of(alloc, places, true)
    }

    fn of(alloc: Global, places: u32, counted: bool) -> Result<Board, Refusal>
        ensures ok { IfOk result (λ board. HasBoard places × (length board.cells ≡ places) × (is_counted board.table ≡ counted)) }
        ensures err { IfErr result (IsUnmade places) }
    {
        if places == 0 || places > MOST_PLACES {
            return Err(Refusal::Range);
        }
        let mut cells = Vec::new(alloc);
        for _ in 0..places {
            cells.push(OnceBox::new(alloc))?;
        }
        let shelf = Shelf::new(alloc, places)?;
        let words = Words::new(alloc, counted)?;
        Ok(Board {
            alloc,
            cells,
            shelf,
            words,
        })
    }

    /// The words of the history of the nodes that share the board.
    pub fn line(&self) -> &Line
        ensures table { result.now.shared.table_id ≡ self.now.table }
        ensures words { (self.now.table).words ≡ many_words (is_counted self.now.table) }
        ensures key { result.now.shared.key ≡ is_counted self.now.table }
    {
        self.words.line()
    }

    /// Whether what happens at these nodes is counted, and so recorded.
    pub fn is_counted(&self) -> bool
        ensures { result ≡ is_counted self.now.table }
    {
        self.words.is_counted()
    }

    /// The right to add all events of that history, if nobody took it before.
    pub fn pens(&self) -> Option<Pens>
        ensures { IfSome result (λ pens. (pens.table_id ≡ self.now.table) × (pens.me ≡ first_seat)) }
    {
        self.words.take()
    }

    /// Where the nodes that share the board lay down what each of them delivered: there is a place for each block of
    /// entries that it has places for.
    pub fn shelf(&self) -> &Shelf
        ensures { result.now ≡ length self.now.cells / BLOCK }
    {
        &self.shelf
    }

    /// A seat that has seen nothing.
    pub fn seat(&self) -> Seat
        ensures { (result ≡ []) × IsSeatOf self.now.cells result }
    {
        Seat::empty(self.alloc)
    }

    /// A note of the cell of that index, which knows nothing yet, if the board has one.
    #[tactic(auto, using(crate::proofs::Known::cell_at))]
    fn note_at(&self, index: usize) -> Option<Note<Record>>
        ensures { MatchOption result (length self.now.cells ≤ index) (λ note. (slice_get self.now.cells index ≡ Some note.cell) × (note.known ≡ None)) }
    {
        if index < self.cells.len() {
            Some(self.cells[index].note())
        } else {
            None
        }
    }

    /// What stands in the cell of that index: the record that stood there, or else a copy of the wanted one.
    /// The note knows it then. Memory is asked for only where the cell is empty, and before it is set.
    #[tactic(auto, using(crate::proofs::Known::cell_at))]
    fn stand<'a>(
        &'a self,
        index: usize,
        wanted: &Record,
        note: &mut Note<Record>,
    ) -> Result<&'a Record, Refusal>
        requires { slice_get self.now.cells index ≡ Some note.old.cell }
        ensures cell { note.new.cell ≡ note.old.cell }
        ensures ok { IfOk result (λ standing. note.new.known ≡ Some standing.now) }
    {
        let alloc = self.alloc;
        self.cells[index].get_or_try_init_as(|| boxed_copy(alloc, wanted), note)
    }

    /// The record stands at the place after the seat's last from then on, and is known to the seat, unless
    /// another stands there, which the seat then knows. Refused with BoardFull where the seat knows every
    /// place; with Memory where the seat has no room; with Differs; with Memory where the record can't be
    /// copied.
    #[tactic(auto, using(crate::proofs::Known::known_length, crate::proofs::Known::all_push, crate::proofs::Known::grown_seat, crate::proofs::Known::grown_begins, crate::proofs::Known::grown_records))]
    pub fn settle<'a>(&'a self, seat: &mut Seat, wanted: &Record) -> Result<(), Settled<'a>>
        requires { IsSeatOf self.now.cells seat.old }
        ensures seat { IsSeatOf self.now.cells seat.new × Begins seat.old seat.new }
        ensures ok { OnOk result (records_of seat.new ≡ records_of seat.old ++ wanted.now ∷ []) }
        ensures err { IfErr result (λ why. Refuses self.now.cells seat.old wanted.now why seat.new) }
    {
        let index = seat.len();
        let Some(mut note) = self.note_at(index) else {
            return Err(Settled::BoardFull);
        };
        if seat.notes.reserve(1).is_err() {
            return Err(Settled::Memory);
        }
        match self.stand(index, wanted, &mut note) {
            Err(_) => Err(Settled::Memory),
            Ok(standing) => {
                seat.notes.push_reserved(note);
                compare(standing, wanted)
            }
        }
    }

    /// Looks at the place after the seat's last; the seat knows from then on what stands there, if anything
    /// does.
    #[tactic(auto, using(crate::proofs::Known::known_length, crate::proofs::Known::cell_at, crate::proofs::Known::all_push, crate::proofs::Known::grown_seat, crate::proofs::Known::grown_begins, crate::proofs::Known::grown_records))]
    pub fn read_next<'a>(&'a self, seat: &mut Seat) -> Result<Option<&'a Record>, Refusal>
        requires { IsSeatOf self.now.cells seat.old }
        ensures seat { IsSeatOf self.now.cells seat.new × Begins seat.old seat.new }
        ensures ok { IfOk result (λ seen. MatchOption seen (seat.new ≡ seat.old) (λ standing. records_of seat.new ≡ records_of seat.old ++ standing.now ∷ [])) }
        ensures err { OnErr result (seat.new ≡ seat.old) }
        ensures memory { IsOkUnless result Refusal.Memory }
        ensures full { length seat.old ≡ length self.now.cells → result ≡ Ok None }
    {
        let next = seat.len();
        let Some(mut note) = self.note_at(next) else {
            return Ok(None);
        };
        match self.cells[next].get_as(&mut note) {
            None => Ok(None),
            Some(standing) => {
                seat.notes.push(note)?;
                Ok(Some(standing))
            }
        }
    }

    /// A note of a cell that the seat knows, by the cell's index.
    #[tactic(auto, using(crate::proofs::Known::known_length, crate::proofs::Known::known_at, crate::proofs::Known::seat_cell, crate::proofs::Known::cell_at))]
    fn recall(&self, seat: &Seat, index: usize) -> Note<Record>
        requires seat { IsSeatOf self.now.cells seat.now }
        requires index { index < length seat.now }
        ensures board { slice_get self.now.cells index ≡ Some result.cell }
        ensures seat { (x : _) × (result.known ≡ Some x) × (slice_get seat.now index ≡ Some (result.cell, x)) }
    {
        let mut note = self.cells[index].note();
        learn(&mut note, &seat.notes[index]);
        note
    }

    /// The record of that index among those that the seat knows.
    fn known_at<'a>(&'a self, seat: &Seat, index: usize) -> &'a Record
        requires seat { IsSeatOf self.now.cells seat.now }
        requires index { index < length seat.now }
        ensures { slice_get (records_of seat.now) index ≡ Some result.now }
    {
        let mut note = self.recall(seat, index);
        match self.cells[index].get_as(&mut note) {
            Some(standing) => standing,
            None => unreachable!(),
        }
    }

    /// The record at a place that the seat knows.
    #[tactic(auto, using(crate::proofs::Known::at_place))]
    pub fn known<'a>(&'a self, seat: &Seat, place: u32) -> &'a Record
        requires seat { IsSeatOf self.now.cells seat.now }
        requires place { (1 ≤ place) × (place ≤ length seat.now) }
        ensures { record_at (records_of seat.now) place ≡ Some result.now }
    {
        self.known_at(seat, place as usize - 1)
    }

    /// How the numbers of places that two seats know compare. The one that knows no more begins the other.
    #[tactic(auto, using(crate::proofs::Known::take_both))]
    pub fn meet(&self, one: &Seat, other: &Seat) -> Ordering
        requires { IsSeatOf self.now.cells one.now × IsSeatOf self.now.cells other.now }
        ensures { Meets one.now other.now result }
    {
        let shared = one.len().min(other.len());
        for index in 0..shared {
            let mut note = self.recall(one, index);
            note.compare(self.recall(other, index));
        }
        one.len().cmp(&other.len())
    }

    /// The seat knows what the other knows, if that is more; it grows to that.
    #[tactic(auto, using(crate::proofs::Known::known_length))]
    pub fn catch_up(&self, seat: &mut Seat, other: &Seat) -> Result<(), Refusal>
        requires { IsSeatOf self.now.cells seat.old × IsSeatOf self.now.cells other.now }
        ensures seat { IsSeatOf self.now.cells seat.new × Begins seat.old seat.new }
        ensures ok { OnOk result (IsLonger seat.old other.now seat.new × Begins other.now seat.new) }
        ensures err { OnErr result (seat.new ≡ seat.old) }
        ensures memory { IsOkUnless result Refusal.Memory }
        ensures none { length other.now ≤ length seat.old → IsOk result }
    {
        let (had, more) = (seat.len(), other.len());
        match self.meet(&*seat, other) {
            Ordering::Less => {
                seat.notes.reserve(more - had)?;
                self.extend(&mut seat.notes, other);
                Ok(())
            }
            Ordering::Equal | Ordering::Greater => Ok(()),
        }
    }

    /// Adds a note for each record that the other seat knows beyond these notes.
    #[tactic(auto, using(crate::proofs::Known::known_length, crate::proofs::Known::extended))]
    fn extend(&self, notes: &mut Vec<Note<Record>>, other: &Seat)
        requires seat { IsSeatOf self.now.cells other.now }
        requires room { length other.now ≤ vec_capacity notes.old }
        requires known { AllKnow notes.old.items × Begins (known_of notes.old.items) other.now × (vec_len notes.old ≤ length other.now) }
        ensures { AllKnow notes.new.items × (known_of notes.new.items ≡ other.now) }
    {
        for index in notes.len()..other.len() {
            notes.push_reserved(self.recall(other, index));
        }
    }
}

/// A copy of the record in a box.
fn boxed_copy(alloc: Global, wanted: &Record) -> Result<Box<Record>, Refusal>
    ensures ok { IfOk result (λ boxed. boxed.value ≡ wanted.now) }
    ensures memory { IsOkUnless result Refusal.Memory }
{
    Ok(Box::new(alloc, wanted.copy(alloc)?)?)
}

/// Whether the record that stands there is the wanted one.
fn compare<'a>(standing: &'a Record, wanted: &Record) -> Result<(), Settled<'a>>
    ensures { MatchResult result (λ _. standing.now ≡ wanted.now) (λ why. (why ≡ Differs standing.entry) × (standing.now ≢ wanted.now)) }
{
    if standing.equals(wanted) {
        Ok(())
    } else {
        Err(Settled::Differs(standing))
    }
}
