//! A script of sessions is run over a running cluster, and what is asked of the entries that stand on its board then is
//! told: `cpgring run --why`.
//!
//! Proved: the commands are done as `cpgring run` does them; that what is found is told, and what each fault leaves.

ghost use Rattle.std.specs.Prelude.{ℕ, ◌≡◌, ◌≤◌, List, [], Option, None, Ok, length, OnOk, IfErr, IfSome};
ghost use Rattle.std.specs.Io.KnownBytes.{Keeps};
ghost use Rattle.cpg_record.specs.Judging.{entries_of};
ghost use Rattle.cpg_board.specs.Seats.{IsSeatOf, records_of};
ghost use Rattle.cpg_why.specs.Scripts.{IsWritten, EndsBy, EndsWhy};
ghost use Rattle.cpg_cluster.specs.Scripts.{commands_of_script};
ghost use Rattle.cpg_cluster.specs.Steps.{AreWithin};
ghost use Rattle.cpg_why.specs.Sessions.{RunsUnprinted, StopsUnprinted, LeavesSeated};

use crate::asking::{Asked, WhyFault};
use crate::forms::Tells;
use crate::sessions::boards::why_of_board;
use crate::sessions::forms::Unprinted;
use cpg_board::Seat;
use cpg_cluster::{Fault, RunOptions, Sessions, WaitLimit, run_sessions};
use cpg_daemon::{HistoryName, Running};
use cpg_text::MOST_BYTES;
use std::alloc::Global;
use std::io::{Read, Write};
use std::sync::Wait;
use std::time::Clock;

/// Runs the commands of a script over running nodes; nothing is printed of what they are answered.
#[tactic(auto, using(crate::proofs::Afterwards::all_run, crate::proofs::Afterwards::are_stopped, crate::proofs::Afterwards::ends_by))]
fn run_unprinted<B: HistoryName, G, H: Wait + Clock, R: Read>(
    rt: &H,
    alloc: Global,
    reader: &mut R,
    running: &Running<B, G>,
    wait_limit: WaitLimit,
    sessions: &mut Sessions<B>,
) -> Result<(), Fault>
    requires { AreWithin running.now.nodes sessions.old.slots }
    ensures ok { OnOk result (IfSome (R.remaining reader.old) (λ script.
        (length script ≤ MOST_BYTES) × RunsUnprinted B.start (commands_of_script running.now.nodes script) sessions.old sessions.new)) }
    ensures err { IfErr result (λ fault. IfSome (R.remaining reader.old) (λ script.
        StopsUnprinted B.start (commands_of_script running.now.nodes script) fault.refusal sessions.old sessions.new)) }
    ensures ends { IfErr result (λ fault. (old new : Option (List ℕ)) → Keeps old new → EndsBy fault.refusal old new) }
    ensures whole { IfErr result (λ fault. fault.part ≡ None) }
{
    let mut unprinted: Vec<u8> = Vec::new(alloc);
    let options = RunOptions {
        wait_limit,
        form: Unprinted,
    };
    run_sessions(
        rt,
        alloc,
        reader,
        &mut unprinted,
        running,
        &options,
        sessions,
    )
}

/// Runs the commands of a script of sessions over running nodes, from those sessions on, has a seat that knows nothing read
/// what stands on their board then, and writes in a form what is asked of its entries. What the commands are answered is not
/// written.
///
/// The faults come in this order: `Read`, then `BadCommand` with the first bad line, both with nothing done; then, after
/// all commands, that what is asked of is not there, with how many there are; `Memory` may come at any
/// time; all with nothing written. Last is `Write`, which leaves a front of what is told.
#[tactic(auto, using(crate::proofs::Afterwards::stopped, crate::proofs::Afterwards::left_after, crate::proofs::Left::told_ends))]
pub fn why_of_sessions<F, B, G, H, R, W>(
    rt: &H,
    alloc: Global,
    reader: &mut R,
    writer: &mut W,
    running: &Running<B, G>,
    wait_limit: WaitLimit,
    asked: Asked,
    sessions: &mut Sessions<B>,
    seat: &mut Seat,
) -> Result<(), WhyFault>
where
    F: Tells,
    B: HistoryName,
    H: Wait + Clock,
    R: Read,
    W: Write,
    requires sessions { AreWithin running.now.nodes sessions.old.slots }
    requires seat { IsSeatOf B.cells seat.old }
    requires none { seat.old ≡ [] }
    ensures ok { OnOk result (IfSome (R.remaining reader.old) (λ script.
        (length script ≤ MOST_BYTES) × RunsUnprinted B.start (commands_of_script running.now.nodes script) sessions.old sessions.new)) }
    ensures told { OnOk result (IsWritten F.form (Ok (entries_of (records_of seat.new))) [] asked (W.contents writer.old) (W.contents writer.new)) }
    ensures err { IfErr result (λ fault. IfSome (R.remaining reader.old) (λ script.
        LeavesSeated F.form B.start (commands_of_script running.now.nodes script) asked fault sessions.old sessions.new seat.new (W.contents writer.old) (W.contents writer.new))) }
    ensures seat { IsSeatOf B.cells seat.new }

    // Nothing is written before the text is whole, even where the reader tells no bytes.
    ensures ends { IfErr result (λ fault. EndsWhy asked fault (W.contents writer.old) (W.contents writer.new)) }
{
    match run_unprinted(rt, alloc, reader, running, wait_limit, sessions) {
        Ok(()) => why_of_board::<F, W>(alloc, writer, running.board(), seat, asked),
        Err(fault) => Err(WhyFault::Script(fault)),
    }
}
