//! A judgement comes to stand on the board.

ghost use Rattle.std.specs.Prelude.{◌≡◌, ◌<◌, ◌≤◌, suc, length, Some, IfOk, IfErr, OnOk};
ghost use Rattle.cpg_cred.specs.declared.refusals.Refusal.TheVariants.{Differs};
ghost use Rattle.cpg_record.specs.Places.{record_at, Begins};
ghost use Rattle.cpg_board.specs.Seats.{IsSeatOf, records_of};
ghost use Rattle.cpg_station.specs.Delivering.{IsAnother, StandsNot};
ghost use Rattle.cpg_station.specs.Stations.{audit_of, Keeps};

use cpg_board::{Board, Seat, Settled};
use cpg_cred::Refusal;
use cpg_node::{Node, Record};

/// Whether what stands at a place that the seat knows is the record.
fn compare(board: &Board, seat: &Seat, place: u32, wanted: &Record) -> Result<(), Refusal>
    requires seat { IsSeatOf board.now.cells seat.now }
    requires place { (1 ≤ place) × (place ≤ length seat.now) }
    ensures ok { OnOk result (record_at (records_of seat.now) place ≡ Some wanted.now) }
    ensures err { IfErr result (λ why. (why ≡ Differs) × IsAnother (record_at (records_of seat.now) place) wanted.now) }
{
    if board.known(seat, place).equals(wanted) {
        Ok(())
    } else {
        Err(Refusal::Differs)
    }
}

#[tactic(auto, using(crate::proofs::Steps::settled, crate::proofs::Steps::settled_at, crate::proofs::Steps::settled_other))]
/// Has the node's judgement of its next place stand on the board there, and known to the seat, unless
/// another record stands there. Gives the place.
pub(crate) fn stand(
    board: &Board,
    seat: &mut Seat,
    node: &Node,
    wanted: &Record,
) -> Result<u32, Refusal>
    requires seat { IsSeatOf board.now.cells seat.old }
    requires kept { Keeps (audit_of node.now) seat.old }
    ensures seat { IsSeatOf board.now.cells seat.new × Begins seat.old seat.new }
    ensures kept { Keeps (audit_of node.now) seat.new }
    ensures number { IfOk result (λ place. place ≡ suc node.now.ring.state.delivered) }
    ensures ok { IfOk result (λ place. (place ≡ suc (length (audit_of node.now))) × (record_at (records_of seat.new) place ≡ Some wanted.now)) }
    ensures err { IfErr result (λ why. StandsNot board.now.cells seat.old (suc (length (audit_of node.now))) wanted.now why seat.new) }
{
    let place = node.delivered() + 1;
    if place as usize <= seat.len() {
        compare(board, &*seat, place, wanted)?;
        return Ok(place);
    }
    match board.settle(seat, wanted) {
        Ok(()) => Ok(place),
        Err(Settled::Memory) => Err(Refusal::Memory),
        Err(Settled::BoardFull) => Err(Refusal::BoardFull),
        Err(Settled::Differs(_)) => Err(Refusal::Differs),
    }
}
