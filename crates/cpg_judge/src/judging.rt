//! `cpgring judge`: a script of agreed entries is judged.
//!
//! The script is read and checked whole, each entry judged as it is read; then the lines of the records are written, and
//! at last the count and the inboxes, in the form that is asked for. Proved: the bytes, after success and after each
//! fault, in every form.

ghost use Rattle.std.specs.Prelude.{◌≡◌, ◌≤◌, ◌-◌, [], None, Some, length, OnOk, IfErr, IfSome};
ghost use Rattle.std.specs.List.{concat, flat_map};
ghost use Rattle.std.specs.Io.KnownBytes.{Appends};
ghost use Rattle.cpg_record.specs.Judging.{judged};
ghost use Rattle.cpg_record.specs.Places.{record_at};
ghost use Rattle.cpg_text.specs.Written.{LeavesLines, WritesLate};
ghost use Rattle.cpg_judge.specs.Gathering.{Gathers};
ghost use Rattle.cpg_judge.specs.Judging.{judged_text, told_at, told_upto, inbox_by, lines_told, EndsJudging, IsWritten, Leaves};
ghost use Rattle.cpg_judge.specs.Scripts.{entries_of_script};

use crate::forms::{JudgedAsText, PutsJudged, TellsJudged};
use crate::gathering::{write_all, write_much};
use crate::scripts::judge_lines;
use crate::texts::Placed;
use cpg_cred::Refusal;
use cpg_group::Policy;
use cpg_record::{ConnId, Record};
use cpg_text::{Fault, MOST_BYTES, read_whole};
use std::alloc::Global;
use std::io::{Read, Write};

/// Judges the entries of a script, and writes what is printed of them.
///
/// The faults come in this order: `Read`, then `BadCommand` with the first bad line, both with nothing
/// written; then `Memory`, which leaves whole lines, or `Write`, which leaves a front of the text. `Memory`
/// before all is read and checked leaves nothing written.
pub fn judge_script<R: Read, W: Write>(
    alloc: Global,
    reader: &mut R,
    writer: &mut W,
) -> Result<(), Fault>
    ensures ok { OnOk result (IfSome (R.remaining reader.old) (λ script.
        (length script ≤ MOST_BYTES) × IsWritten judged_text (entries_of_script script) (W.contents writer.old) (W.contents writer.new))) }
    ensures err { IfErr result (λ fault. IfSome (R.remaining reader.old) (λ script.
        Leaves judged_text (entries_of_script script) fault.refusal (W.contents writer.old) (W.contents writer.new))) }

    // Nothing is written before the script was read and checked, even where the reader tells no bytes.
    ensures late { IfErr result (λ fault. WritesLate fault.refusal (W.contents writer.old) (W.contents writer.new)) }
    ensures faults { IfErr result (λ fault. EndsJudging fault.refusal) }
    ensures whole { IfErr result (λ fault. fault.part ≡ None) }
{
    judge_in_form(alloc, &JudgedAsText, reader, writer)
}

/// The same in that form.
pub fn judge_in_form<F: TellsJudged, R: Read, W: Write>(
    alloc: Global,
    form: &F,
    reader: &mut R,
    writer: &mut W,
) -> Result<(), Fault>
    ensures ok { OnOk result (IfSome (R.remaining reader.old) (λ script.
        (length script ≤ MOST_BYTES) × IsWritten (F.form form.now script) (entries_of_script script) (W.contents writer.old) (W.contents writer.new))) }
    ensures err { IfErr result (λ fault. IfSome (R.remaining reader.old) (λ script.
        Leaves (F.form form.now script) (entries_of_script script) fault.refusal (W.contents writer.old) (W.contents writer.new))) }
    ensures late { IfErr result (λ fault. WritesLate fault.refusal (W.contents writer.old) (W.contents writer.new)) }
    ensures faults { IfErr result (λ fault. EndsJudging fault.refusal) }
    ensures whole { IfErr result (λ fault. fault.part ≡ None) }
{
    match judge_whole(alloc, form, reader, writer) {
        Ok(()) => Ok(()),
        Err(refusal) => Err(Fault::from(refusal)),
    }
}

fn judge_whole<F: TellsJudged, R: Read, W: Write>(
    alloc: Global,
    form: &F,
    reader: &mut R,
    writer: &mut W,
) -> Result<(), Refusal>
    ensures ok { OnOk result (IfSome (R.remaining reader.old) (λ script.
        (length script ≤ MOST_BYTES) × IsWritten (F.form form.now script) (entries_of_script script) (W.contents writer.old) (W.contents writer.new))) }
    ensures err { IfErr result (λ refusal. IfSome (R.remaining reader.old) (λ script.
        Leaves (F.form form.now script) (entries_of_script script) refusal (W.contents writer.old) (W.contents writer.new))) }
    ensures late { IfErr result (λ refusal. WritesLate refusal (W.contents writer.old) (W.contents writer.new)) }
    ensures faults { IfErr result EndsJudging }
{
    let script = read_whole(alloc, reader)?;
    let policy = judge_lines(alloc, script.as_slice())?;
    write_judgement(alloc, form, writer, policy, script)
}

/// Writes what is told of the judged entries of that script.
#[tactic(auto, using(crate::proofs::Lined::none_written))]
fn write_judgement<F: TellsJudged, W: Write>(
    alloc: Global,
    form: &F,
    writer: &mut W,
    policy: Policy,
    script: Vec<u8>,
) -> Result<(), Refusal>
    requires { length script.items ≤ MOST_BYTES }
    ensures ok { OnOk result (Appends (W.contents writer.old) (W.contents writer.new) (concat (lines_told (F.form form.now script.items) policy))) }
    ensures err { IfErr result (λ refusal. LeavesLines (lines_told (F.form form.now script.items) policy) refusal (W.contents writer.old) (W.contents writer.new)) }
{
    let mut puts = form.begin(alloc, &policy, script)?;
    let mut lines = Vec::new(alloc);
    write_lines(writer, &mut lines, &mut puts, &policy)
}

/// Writes the lines of the records, the count and the inboxes.
fn write_lines<P: PutsJudged, W: Write>(
    writer: &mut W,
    lines: &mut Vec<u8>,
    puts: &mut P,
    policy: &Policy,
) -> Result<(), Refusal>
    requires none { lines.old.items ≡ [] }
    requires stands { P.stands puts.old policy.now 0 }
    ensures ok { OnOk result (Appends (W.contents writer.old) (W.contents writer.new) (concat (lines_told (P.form puts.old) policy.now))) }
    ensures err { IfErr result (λ refusal. LeavesLines (lines_told (P.form puts.old) policy.now) refusal (W.contents writer.old) (W.contents writer.new)) }
{
    write_records(writer, lines, puts, policy)?;
    puts.put_count(lines, policy.len() as u32)?;
    write_inboxes(writer, lines, puts, policy, policy.connections())?;
    write_all(writer, lines)
}

/// Writes the lines of each record.
fn write_records<P: PutsJudged, W: Write>(
    writer: &mut W,
    lines: &mut Vec<u8>,
    puts: &mut P,
    policy: &Policy,
) -> Result<(), Refusal>
    requires { P.stands puts.old policy.now 0 }
    ensures lines { Gathers result (W.contents writer.old) lines.old.items (W.contents writer.new) lines.new.items (told_upto (P.form puts.old) (judged policy.now) (length (judged policy.now))) }
    ensures same { OnOk result (P.form puts.new ≡ P.form puts.old) }
    ensures taken { OnOk result (P.stands puts.new policy.now (length (judged policy.now))) }
{
    for index in 0..policy.len() {
        match write_record(writer, lines, puts, policy, index as u32 + 1) {
            Ok(()) => {}
            Err(refusal) => return Err(refusal),
        }
    }
    Ok(())
}

/// The record at the place.
pub(crate) fn record_of(policy: &Policy, place: u32) -> &Record
    requires { (1 ≤ place) × (place ≤ length policy.now) }
    ensures { record_at (judged policy.now) place ≡ Some result.now }
{
    &policy.records()[place as usize - 1]
}

/// Writes the lines of the record of the place, the one after those that were taken in.
fn write_record<P: PutsJudged, W: Write>(
    writer: &mut W,
    lines: &mut Vec<u8>,
    puts: &mut P,
    policy: &Policy,
    place: u32,
) -> Result<(), Refusal>
    requires place { (1 ≤ place) × (place ≤ length policy.now) }
    requires before { P.stands puts.old policy.now (place - 1) }
    ensures lines { Gathers result (W.contents writer.old) lines.old.items (W.contents writer.new) lines.new.items (told_at (P.form puts.old) (judged policy.now) place) }
    ensures same { OnOk result (P.form puts.new ≡ P.form puts.old) }
    ensures taken { OnOk result (P.stands puts.new policy.now place) }
{
    let placed = Placed {
        policy,
        place,
        past: record_of(policy, place),
    };
    puts.put_record(lines, &placed)?;
    write_much(writer, lines)
}

/// Writes the inboxes of the connections, one after the other.
fn write_inboxes<P: PutsJudged, W: Write>(
    writer: &mut W,
    lines: &mut Vec<u8>,
    puts: &mut P,
    policy: &Policy,
    conns: &[ConnId],
) -> Result<(), Refusal>
    requires { P.stands puts.old policy.now (length (judged policy.now)) }
    ensures { Gathers result (W.contents writer.old) lines.old.items (W.contents writer.new) lines.new.items (flat_map (inbox_by (P.form puts.old) (judged policy.now)) conns.now) }
{
    for conn in conns {
        match puts.write_inbox(writer, lines, policy, conn) {
            Ok(()) => {}
            Err(refusal) => return Err(refusal),
        }
    }
    Ok(())
}
