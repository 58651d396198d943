//! `cpg_board`: records that all threads share, and seats that know some of them.

ghost use Rattle.std.specs.Prelude.{◌≤◌, length};
ghost use Rattle.cpg_board.specs.Seats.{IsSeatOf};

use cpg_board::{Board, Seat, Settled};
use cpg_cred::Refusal;
use cpg_group::Record;
use std::alloc::Global;
use std::cmp::Ordering;

pub fn new_board(alloc: Global, places: u32) -> Result<Board, Refusal> {
    Board::new(alloc, places)
}

pub fn new_seat(board: &Board) -> Seat {
    board.seat()
}

pub fn len(seat: &Seat) -> usize {
    seat.len()
}

pub fn settle<'a>(board: &'a Board, seat: &mut Seat, record: &Record) -> Result<(), Settled<'a>>
    requires { IsSeatOf board.now.cells seat.old }
{
    board.settle(seat, record)
}

/// The record that stands at the place, of all that a settling is refused by.
pub fn standing(refused: Settled<'_>) -> Option<&Record> {
    match refused {
        Settled::Memory | Settled::BoardFull => None,
        Settled::Differs(record) => Some(record),
    }
}

pub fn read_next<'a>(board: &'a Board, seat: &mut Seat) -> Result<Option<&'a Record>, Refusal>
    requires { IsSeatOf board.now.cells seat.old }
{
    board.read_next(seat)
}

pub fn known<'a>(board: &'a Board, seat: &Seat, place: u32) -> &'a Record
    requires seat { IsSeatOf board.now.cells seat.now }
    requires place { (1 ≤ place) × (place ≤ length seat.now) }
{
    board.known(seat, place)
}

pub fn meet(board: &Board, one: &Seat, other: &Seat) -> Ordering
    requires { IsSeatOf board.now.cells one.now × IsSeatOf board.now.cells other.now }
{
    board.meet(one, other)
}

pub fn catch_up(board: &Board, seat: &mut Seat, other: &Seat) -> Result<(), Refusal>
    requires { IsSeatOf board.now.cells seat.old × IsSeatOf board.now.cells other.now }
{
    board.catch_up(seat, other)
}
