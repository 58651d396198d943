//! What stands on the board of a running cluster, told to a seat that has seen nothing: `cpgring run --why`.
//!
//! Proved: that what is found is told, and what each fault leaves, over the entries that the seat knows then.

ghost use Rattle.std.specs.Prelude.{◌≡◌, ◌≤◌, [], Ok, length, OnOk, IfOk, IfErr, IsOkUnless};
ghost use Rattle.cpg_record.specs.Judging.{entries_of, most_places};
ghost use Rattle.cpg_board.specs.Seats.{IsSeatOf, records_of};
ghost use Rattle.cpg_why.specs.Scripts.{IsWritten, LeavesEntries};

use crate::asking::{Asked, WhyFault};
use crate::audits::why_of_entries;
use crate::forms::Tells;
use cpg_board::{Board, Seat};
use cpg_cred::Refusal;
use cpg_entry::{Entry, MOST_PLACES};
use std::alloc::Global;
use std::io::Write;

/// Reads the record that stands at the seat's next place, and puts its entry last. Says whether one stands there.
#[tactic(auto, using(crate::proofs::Seated::entry_read))]
fn read_next(
    alloc: Global,
    board: &Board,
    seat: &mut Seat,
    entries: &mut Vec<Entry>,
) -> Result<bool, Refusal>
    requires seat { IsSeatOf board.now.cells seat.old }
    requires entries { entries.old.items ≡ entries_of (records_of seat.old) }
    ensures seat { IsSeatOf board.now.cells seat.new }
    ensures ok { OnOk result (entries.new.items ≡ entries_of (records_of seat.new)) }
    ensures memory { IsOkUnless result Refusal.Memory }
{
    match board.read_next(seat)? {
        None => Ok(false),
        Some(past) => {
            entries.push(past.entry.copy(alloc)?)?;
            Ok(true)
        }
    }
}

/// Reads the records that stand on the board, up to the first place that is empty, and gives their entries.
fn read_entries(alloc: Global, board: &Board, seat: &mut Seat) -> Result<Vec<Entry>, Refusal>
    requires seat { IsSeatOf board.now.cells seat.old }
    requires none { seat.old ≡ [] }
    ensures seat { IsSeatOf board.now.cells seat.new }
    ensures ok { IfOk result (λ entries. entries.items ≡ entries_of (records_of seat.new)) }
    ensures memory { IsOkUnless result Refusal.Memory }
{
    let mut entries = Vec::new(alloc);
    for _ in 0..u64::MAX {
        if !read_next(alloc, board, seat, &mut entries)? {
            break;
        }
    }
    Ok(entries)
}

/// Lets a seat that knows nothing read what stands on the board, judges those entries again, and writes what is asked
/// of them in a form. A board has at most 1,048,576 places, so all are told of.
///
/// The faults come in this order: that what is asked of is not there, with how many entries or events there are;
/// `Memory` may come at any time; both with nothing written. Last is `Write`, which leaves a front of what is told.
pub fn why_of_board<F: Tells, W: Write>(
    alloc: Global,
    writer: &mut W,
    board: &Board,
    seat: &mut Seat,
    asked: Asked,
) -> Result<(), WhyFault>
    requires seat { IsSeatOf board.now.cells seat.old }
    requires none { seat.old ≡ [] }
    ensures seat { IsSeatOf board.now.cells seat.new }
    ensures ok { OnOk result (IsWritten F.form (Ok (entries_of (records_of seat.new))) [] asked (W.contents writer.old) (W.contents writer.new)) }
    ensures err { IfErr result (λ fault. LeavesEntries F.form [] (entries_of (records_of seat.new)) asked fault (W.contents writer.old) (W.contents writer.new)) }
{
    let entries = read_entries(alloc, board, seat)?;
    if entries.len() > MOST_PLACES as usize {
        return Err(WhyFault::from(Refusal::Memory));
    }
    why_of_entries::<F, W>(alloc, writer, entries.as_slice(), asked)
}
