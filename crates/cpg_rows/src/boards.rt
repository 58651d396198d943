//! `%board PLACES`: a board, seats `A` to `H`, and the records that settle there. An entry is judged; `keep` numbers the
//! records judged behind those kept before, and the next entries are judged afresh.

ghost use Rattle.std.specs.Prelude.{◌≡◌};
ghost use Rattle.cpg_board.specs.Seats.{IsSeatOf};

use crate::player::{Plays, Row};
use crate::policies::{copy_first, judge_line};
use crate::states::{put_audits, put_last};
use crate::words::{NO_COMMAND, index, number, one, put_number_line, two};
use cpg_board::{Board, Record, Seat, Settled};
use cpg_cred::Refusal;
use cpg_group::Policy;
use cpg_print::put_audit;
use cpg_station::BoardName;
use cpg_text::put;
use std::alloc::Global;
use std::cmp::Ordering;
use std::marker::PhantomData;

/// How many seats there are.
const SEATS: usize = 8;

/// A seat of the board of that name.
#[derive(Drop)]
struct Place<B: BoardName> {
    seat: Seat,
    of: PhantomData<B>,
    ghost named: { IsSeatOf B.cells seat },
}

#[derive(Drop)]
pub struct Desk<B: BoardName> {
    board: Board,
    seats: Vec<Place<B>>,
    policy: Policy,
    records: Vec<Record>,
    ghost named: { board.cells ≡ B.cells },
}

/// The index of the seat of that letter.
fn seat_index(word: &[u8]) -> Result<usize, Refusal> {
    match word {
        [letter @ b'A'..=b'H'] => Ok((*letter - b'A') as usize),
        _ => Err(NO_COMMAND),
    }
}

/// Puts the record that the seat knows last.
fn put_standing(line: &mut Vec<u8>, length: usize, standing: &Record) -> Result<(), Refusal> {
    put_audit(line, u32::try_from(length).unwrap_or(0), standing)
}

/// Puts the record that the seat knows at that place.
fn put_known_at(board: &Board, line: &mut Vec<u8>, seat: &Seat, place: u32) -> Result<(), Refusal>
    requires { IsSeatOf board.now.cells seat.now }
{
    if place < 1 || place as usize > seat.len() {
        return Err(NO_COMMAND);
    }
    put_audit(line, place, board.known(seat, place))
}

impl<B: BoardName> Place<B> {
    fn new(board: &Board) -> Place<B>
        requires { board.now.cells ≡ B.cells }
    {
        Place {
            seat: board.seat(),
            of: PhantomData,
        }
    }

    fn settle(&mut self, board: &Board, line: &mut Vec<u8>, wanted: &Record) -> Result<(), Refusal>
        requires { board.now.cells ≡ B.cells }
    {
        match board.settle(&mut self.seat, wanted) {
            Ok(()) => put(line, "settled\n"),
            Err(Settled::Differs(standing)) => {
                put(line, "differs: ")?;
                put_standing(line, self.seat.len(), standing)
            }
            Err(Settled::BoardFull) => Err(Refusal::BoardFull),
            Err(Settled::Memory) => Err(Refusal::Memory),
        }
    }

    fn read(&mut self, board: &Board, line: &mut Vec<u8>) -> Result<(), Refusal>
        requires { board.now.cells ≡ B.cells }
    {
        match board.read_next(&mut self.seat)? {
            Some(standing) => put_standing(line, self.seat.len(), standing),
            None => put(line, "none\n"),
        }
    }

    /// Puts what the seat knows.
    fn put_known(&self, board: &Board, line: &mut Vec<u8>) -> Result<(), Refusal>
        requires { board.now.cells ≡ B.cells }
    {
        for index in 0..self.seat.len() {
            let place = u32::try_from(index).unwrap_or(0).saturating_add(1);
            put_known_at(board, line, &self.seat, place)?;
        }
        put_number_line(line, "knows", self.seat.len() as u64)
    }

    /// Puts what can still be read.
    fn put_rest(&mut self, board: &Board, line: &mut Vec<u8>) -> Result<(), Refusal>
        requires { board.now.cells ≡ B.cells }
    {
        for _ in 0..=u32::MAX {
            let before = self.seat.len();
            self.read(board, line)?;
            if self.seat.len() == before {
                break;
            }
        }
        Ok(())
    }
}

impl<B: BoardName> Desk<B> {
    pub fn new(alloc: Global, board: Board) -> Desk<B>
        requires { board.cells ≡ B.cells }
    {
        Desk {
            board,
            seats: Vec::new(alloc),
            policy: Policy::new(alloc),
            records: Vec::new(alloc),
        }
    }

    /// Takes in seats that know nothing.
    pub fn fill(&mut self) -> Result<(), Refusal> {
        for _ in 0..SEATS {
            self.seats.push(Place::<B>::new(&self.board))?;
        }
        Ok(())
    }

    /// `settle SEAT NUMBER`.
    fn settle(&mut self, line: &mut Vec<u8>, text: &[u8]) -> Result<(), Refusal> {
        let (seat, wanted) = two(text)?;
        let at = seat_index(seat)?;
        let wanted = index(wanted)?.wrapping_sub(1);
        let wanted = self.records.get(wanted).ok_or(NO_COMMAND)?;
        let place = self.seats.get_mut(at).ok_or(NO_COMMAND)?;
        place.settle(&self.board, line, wanted)
    }

    /// `read SEAT`.
    fn read(&mut self, line: &mut Vec<u8>, seat: &[u8]) -> Result<(), Refusal> {
        let place = self.seats.get_mut(seat_index(seat)?).ok_or(NO_COMMAND)?;
        place.read(&self.board, line)
    }

    fn place(&self, seat: &[u8]) -> Result<&Place<B>, Refusal> {
        self.seats.get(seat_index(seat)?).ok_or(NO_COMMAND)
    }

    /// Puts what the seat knows.
    fn put_seat(&self, line: &mut Vec<u8>, seat: &[u8]) -> Result<(), Refusal> {
        let place = self.place(seat)?;
        place.put_known(&self.board, line)
    }

    /// `known SEAT PLACE`.
    fn put_place(&self, line: &mut Vec<u8>, text: &[u8]) -> Result<(), Refusal> {
        let (seat, at) = two(text)?;
        let at = number(at)?;
        let place = self.place(seat)?;
        put_known_at(&self.board, line, &place.seat, at)
    }

    /// `meet SEAT SEAT`.
    fn meet(&self, line: &mut Vec<u8>, text: &[u8]) -> Result<(), Refusal> {
        let (one, other) = two(text)?;
        let one = self.place(one)?;
        let other = self.place(other)?;
        put(
            line,
            match self.board.meet(&one.seat, &other.seat) {
                Ordering::Less => "less\n",
                Ordering::Equal => "equal\n",
                Ordering::Greater => "greater\n",
            },
        )
    }

    /// `catch SEAT SEAT`: the one catches up with the other.
    fn catch_up(&mut self, line: &mut Vec<u8>, text: &[u8]) -> Result<(), Refusal> {
        let (seat, other) = two(text)?;
        self.catch_up_at(seat_index(seat)?, seat_index(other)?)?;
        self.put_seat(line, seat)
    }

    fn catch_up_at(&mut self, at: usize, from: usize) -> Result<(), Refusal> {
        if at >= self.seats.len() || from >= self.seats.len() || at == from {
            return Err(NO_COMMAND);
        }
        let mut late = std::mem::replace(&mut self.seats[at], Place::new(&self.board));
        let answer = self.board.catch_up(&mut late.seat, &self.seats[from].seat);
        self.seats[at] = late;
        answer
    }

    /// Takes the list among the records that may settle, for which there is room.
    fn take_in(
        &mut self,
        alloc: Global,
        line: &mut Vec<u8>,
        list: Vec<Record>,
    ) -> Result<(), Refusal> {
        for record in list {
            let _ = self.records.push(record);
        }
        self.policy = Policy::new(alloc);
        put_number_line(line, "records", self.records.len() as u64)
    }

    fn keep(&mut self, alloc: Global, line: &mut Vec<u8>) -> Result<(), Refusal> {
        let count = self.policy.len();
        self.records.reserve(count)?;
        let mut list = Vec::new(alloc);
        match copy_first(alloc, &mut list, self.policy.records(), count) {
            Ok(()) => self.take_in(alloc, line, list),
            Err(refusal) => Err(refusal),
        }
    }

    /// The commands of one seat or two.
    fn seat(&mut self, line: &mut Vec<u8>, row: &Row<'_>) -> Result<(), Refusal> {
        if row.is("settle") {
            return self.settle(line, row.rest);
        }
        if row.is("read") {
            return self.read(line, one(row.rest)?);
        }
        if row.is("seat") {
            return self.put_seat(line, one(row.rest)?);
        }
        if row.is("known") {
            return self.put_place(line, row.rest);
        }
        if row.is("meet") {
            return self.meet(line, row.rest);
        }
        if row.is("catch") {
            return self.catch_up(line, row.rest);
        }
        Err(NO_COMMAND)
    }
}

impl<B: BoardName> Plays for Desk<B> {
    fn make(&mut self, alloc: Global, line: &mut Vec<u8>, row: &Row<'_>) -> Result<(), Refusal> {
        if row.is("keep") {
            return self.keep(alloc, line);
        }
        match row.word {
            [b'0'..=b'9', ..] => {
                judge_line(alloc, &mut self.policy, row.text)?;
                put_last(line, self.policy.records())
            }
            _ => self.seat(line, row),
        }
    }

    fn put_state(&self, _alloc: Global, text: &mut Vec<u8>) -> Result<(), Refusal> {
        for place in self.seats.as_slice() {
            place.put_known(&self.board, text)?;
        }
        let mut all = Place::<B>::new(&self.board);
        let put = all.put_rest(&self.board, text);
        drop(all);
        put?;
        put_audits(text, self.records.as_slice())?;
        put_audits(text, self.policy.records())
    }
}
