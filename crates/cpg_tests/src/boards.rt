//! Records settle on a board by two threads.

ghost use Rattle.cpg_board.specs.Seats.{IsSeatOf};

use cpg_board::{Board, Record, Seat, Settled};
use cpg_cred::{Cred, NodeId, Refusal};
use cpg_entry::{Call, Entry, Name, Op};
use cpg_record::{Member, Members, Reason, Verdict};
use std::alloc::Global;
use std::cmp::Ordering;
use std::test::Fail;
use std::thread;

/// The record of a leave by the process, which is denied and is the one member of `db`.
fn record_of(alloc: Global, pid: u32) -> Result<Record, Refusal> {
    let node = NodeId::new(1).ok_or(Refusal::Range)?;
    let entry = Entry {
        node,
        conn: 1,
        pid,
        cred: Cred { uid: 7, gid: 100 },
        op: Op::Act(Call::Leave),
    };
    let group = Name::from_slice(alloc, b"db")?;
    let member = Member { node, conn: 1, pid };
    Ok(Record {
        entry,
        group: Some(group),
        verdict: Verdict::Denied(Reason::Closed),
        members: Members::from_slice(alloc, &[member])?,
    })
}

/// Whether the record is that of the process.
fn is_of(alloc: Global, past: &Record, pid: u32) -> bool {
    match record_of(alloc, pid) {
        Ok(wanted) => past.equals(&wanted),
        Err(_) => false,
    }
}

/// What settling answers.
#[derive(Clone, Copy, PartialEq, Eq)]
enum Answer {
    Settled,
    /// The other process's record stands there.
    Differs,
    /// No memory, no room, or a record of neither.
    Otherwise,
}

/// Settles the record of the process, where that of another may stand instead.
fn settle(alloc: Global, board: &Board, seat: &mut Seat, pid: u32, other: u32) -> Answer
    requires { IsSeatOf board.now.cells seat.old }
    ensures { IsSeatOf board.now.cells seat.new }
{
    let Ok(wanted) = record_of(alloc, pid) else {
        return Answer::Otherwise;
    };
    match board.settle(seat, &wanted) {
        Ok(()) => Answer::Settled,
        Err(Settled::Differs(standing)) if is_of(alloc, standing, other) => Answer::Differs,
        Err(_) => Answer::Otherwise,
    }
}

/// Whether the record of the process settles.
fn settles(alloc: Global, board: &Board, seat: &mut Seat, pid: u32) -> bool
    requires { IsSeatOf board.now.cells seat.old }
    ensures { IsSeatOf board.now.cells seat.new }
{
    settle(alloc, board, seat, pid, pid) == Answer::Settled
}

/// A new seat that settles three records, and whether all settled.
fn settle_three(alloc: Global, board: &Board) -> (Seat, bool)
    ensures { IsSeatOf board.now.cells result.0 }
{
    let mut seat = board.seat();
    let all = settles(alloc, board, &mut seat, 1)
        && settles(alloc, board, &mut seat, 2)
        && settles(alloc, board, &mut seat, 3);
    (seat, all)
}

#[test]
fn two_threads_settle_the_same(rt: HostRuntime) -> Result<(), Fail> {
    let alloc = rt.alloc();
    let board = Board::new(alloc, 3)?;
    let ((one, all), (other, too)) = thread::join(
        &rt,
        || -> (Seat, bool)
            ensures { IsSeatOf board.cells result.0 }
        { settle_three(alloc, &board) },
        || -> (Seat, bool)
            ensures { IsSeatOf board.cells result.0 }
        { settle_three(alloc, &board) },
    );
    assert!(rt; all && too && one.len() == 3 && other.len() == 3);
    assert!(rt; board.meet(&one, &other) == Ordering::Equal);
    Ok(())
}

/// A new seat that settles the record of the process, and the answer.
fn settle_first(alloc: Global, board: &Board, pid: u32, other: u32) -> (Seat, Answer)
    ensures { IsSeatOf board.now.cells result.0 }
{
    let mut seat = board.seat();
    let answer = settle(alloc, board, &mut seat, pid, other);
    (seat, answer)
}

/// Whether both seats know one record, and the same.
fn know_the_same(board: &Board, one: &Seat, other: &Seat) -> bool
    requires { IsSeatOf board.now.cells one.now × IsSeatOf board.now.cells other.now }
{
    one.len() == 1 && other.len() == 1 && board.known(one, 1).equals(board.known(other, 1))
}

#[test]
fn two_threads_settle_different_records(rt: HostRuntime) -> Result<(), Fail> {
    let alloc = rt.alloc();
    let board = Board::new(alloc, 3)?;
    let ((one, first), (other, second)) = thread::join(
        &rt,
        || -> (Seat, Answer)
            ensures { IsSeatOf board.cells result.0 }
        { settle_first(alloc, &board, 1, 2) },
        || -> (Seat, Answer)
            ensures { IsSeatOf board.cells result.0 }
        { settle_first(alloc, &board, 2, 1) },
    );
    let answers = (first, second);
    assert!(rt;
        answers == (Answer::Settled, Answer::Differs)
            || answers == (Answer::Differs, Answer::Settled)
    );
    assert!(rt; know_the_same(&board, &one, &other));
    Ok(())
}
