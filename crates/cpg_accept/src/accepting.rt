//! A script of names, conf texts and asks, from its reader to its writer.
//!
//! Proved: what is written is the text of the definition, and nothing is written after a fault, but a front
//! of the text where a write failed.

ghost use Rattle.std.specs.Prelude.{◌≡◌, ◌⊎◌, ◌≤◌, Ok, Err, length, OnOk, IfOk, IfErr, IfSome, IsOkUnless};
ghost use Rattle.std.specs.Io.KnownBytes.{Appends, Keeps};
ghost use Rattle.cpg_text.specs.Lines.{lines_of};
ghost use Rattle.cpg_text.specs.Written.{WritesLate};
ghost use Rattle.cpg_accept.specs.Accepting.{admitted_by, all_taken, answers_told, first_command, nobody, whole_fault, Ends, EndsRead, IsWritten, LacksMemory};
ghost use Rattle.cpg_accept.specs.Asks.{answer_line};
ghost use Rattle.cpg_accept.specs.Steps.{AnswersAre, LeavesText, no_command, parts_of_head, StopsIn};

use crate::admit::AsText;
use crate::admitting::Admitting;
use crate::asks::answer_text;
use crate::parts::{Cut, Parts};
use cpg_cred::{Refusal, Via};
use cpg_text::{Fault, Lines, MOST_BYTES, is_ignored, put_bytes, read_whole, trim, write_whole};
use std::alloc::Global;
use std::io::{Read, Write};

/// What tells the answer to an ask.
pub trait TellsAnswer {
    ghost use Rattle.std.specs.Prelude.{◌≡◌, ◌++◌, ℕ, List, Option, OnOk, IsOkUnless};
    ghost use Rattle.cpg_cred.specs.declared.admission.Via.{Via};

    // The line of an answer.
    ghost told: { Option Via → List ℕ };

    /// Puts the line of what lets credentials in, or of their refusal, at the text's end.
    fn put(text: &mut Vec<u8>, answer: Option<Via>) -> Result<(), Refusal>
        ensures ok { OnOk result (text.new.items ≡ text.old.items ++ told answer) }
        ensures memory { IsOkUnless result Refusal.Memory };
}

impl TellsAnswer for AsText {
    ghost use Rattle.cpg_accept.specs.Asks.{answer_line};

    ghost told = { answer_line };

    fn put(text: &mut Vec<u8>, answer: Option<Via>) -> Result<(), Refusal> {
        put_bytes(text, answer_text(answer))
    }
}

/// Reads a script of names parts, conf parts and asks, and writes the answer to each ask.
///
/// Nothing is written until all parts were read. `Read` comes before all other faults; then the parts are
/// taken in order, and the first fault counts: that of a names or conf text, with the number of its part, or
/// `BadCommand` with the script's line for a line that is no ask or stands before the first part. `Memory`
/// has the number of a names or conf part to which it was refused, where neither that part nor one before it
/// has a fault; it has none for the reading, for asks that are reached without a fault, and for the text. `Write` leaves
/// a front of the text; after the others nothing is written.
pub fn accept_script<R: Read, W: Write>(
    alloc: Global,
    reader: &mut R,
    writer: &mut W,
) -> Result<(), Fault>
    ensures ok { OnOk result (IfSome (R.remaining reader.old) (λ script.
        (length script ≤ MOST_BYTES) × IsWritten answer_line (admitted_by script) (W.contents writer.old) (W.contents writer.new))) }
    ensures err { IfErr result (λ fault. IfSome (R.remaining reader.old) (λ script.
        Ends answer_line script fault (W.contents writer.old) (W.contents writer.new))) }

    // Nothing is written before the script was read, even where the reader tells no bytes.
    ensures late { IfErr result (λ fault. WritesLate fault.refusal (W.contents writer.old) (W.contents writer.new)) }
    ensures memory { IfErr result (λ fault. fault.refusal ≡ Refusal.Memory → Keeps (W.contents writer.old) (W.contents writer.new)) }
{
    accept_in_form::<AsText, R, W>(alloc, reader, writer)
}

/// The same in that form.
pub fn accept_in_form<F: TellsAnswer, R: Read, W: Write>(
    alloc: Global,
    reader: &mut R,
    writer: &mut W,
) -> Result<(), Fault>
    ensures ok { OnOk result (IfSome (R.remaining reader.old) (λ script.
        (length script ≤ MOST_BYTES) × IsWritten F.told (admitted_by script) (W.contents writer.old) (W.contents writer.new))) }
    ensures err { IfErr result (λ fault. IfSome (R.remaining reader.old) (λ script.
        Ends F.told script fault (W.contents writer.old) (W.contents writer.new))) }
    ensures late { IfErr result (λ fault. WritesLate fault.refusal (W.contents writer.old) (W.contents writer.new)) }
    ensures memory { IfErr result (λ fault. fault.refusal ≡ Refusal.Memory → Keeps (W.contents writer.old) (W.contents writer.new)) }
{
    let script = read_whole(alloc, reader)?;
    answer_to::<F, W>(alloc, script.as_slice(), writer)
}

/// Writes the answer to each ask of a script that was read.
fn answer_to<F: TellsAnswer, W: Write>(
    alloc: Global,
    script: &[u8],
    writer: &mut W,
) -> Result<(), Fault>
    ensures ok { OnOk result (IsWritten F.told (admitted_by script.now) (W.contents writer.old) (W.contents writer.new)) }
    ensures err { IfErr result (λ fault. EndsRead F.told script.now fault (W.contents writer.old) (W.contents writer.new)) }
    ensures late { IfErr result (λ fault. WritesLate fault.refusal (W.contents writer.old) (W.contents writer.new)) }
    ensures memory { IfErr result (λ fault. fault.refusal ≡ Refusal.Memory → Keeps (W.contents writer.old) (W.contents writer.new)) }
{
    match answer_script(alloc, script) {
        Ok(answers) => write_answers::<F, W>(alloc, writer, answers.as_slice()),
        Err(fault) => Err(fault),
    }
}

/// The answers to the asks of a script that was read, or its first fault; `Memory` has the number of the names or
/// conf part to which it was refused.
fn answer_script(alloc: Global, script: &[u8]) -> Result<Vec<Option<Via>>, Fault>
    ensures ok { IfOk result (λ answers. AnswersAre (admitted_by script.now) answers.items) }
    ensures err { IfErr result (λ fault. LacksMemory script.now fault ⊎ (admitted_by script.now ≡ Err fault)) }
{
    let cut = Cut::of(0, script);
    refuse_commands(cut.before)?;
    answer_parts(alloc, Parts { head: cut.head })
}

/// The answers to the asks of parts.
fn answer_parts(alloc: Global, parts: Parts<'_>) -> Result<Vec<Option<Via>>, Fault>
    ensures ok { IfOk result (λ answers. AnswersAre (all_taken 1 (parts_of_head (parts.entry).head) nobody) answers.items) }
    ensures err { IfErr result (StopsIn 1 (parts_of_head (parts.entry).head) nobody) }
{
    let mut admitting = Admitting::new(alloc);
    let taken = take_all(alloc, &mut admitting, parts);
    let answers = admitting.into_answers();
    match taken {
        Ok(()) => Ok(answers),
        Err(fault) => Err(fault),
    }
}

/// Takes the parts in, one after the other.
fn take_all(alloc: Global, admitting: &mut Admitting, parts: Parts<'_>) -> Result<(), Fault>
    ensures ok { OnOk result (all_taken 1 (parts_of_head (parts.entry).head) admitting.old ≡ Ok admitting.new) }
    ensures err { IfErr result (StopsIn 1 (parts_of_head (parts.entry).head) admitting.old) }
{
    let mut number = 0u32;
    for part in parts {
        number = number.saturating_add(1);
        match admitting.take(alloc, number, &part) {
            Ok(()) => {}
            Err(fault) => return Err(fault),
        }
    }
    Ok(())
}

/// `BadCommand` with the first line that is not ignored, where there is one.
fn refuse_commands(text: &[u8]) -> Result<(), Refusal>
    ensures { result ≡ no_command (first_command 1 (lines_of text.now)) }
{
    let mut number = 0u32;
    for line in Lines::of(text) {
        number = number.saturating_add(1);
        if !is_ignored(trim(line)) {
            return Err(Refusal::BadCommand(number));
        }
    }
    Ok(())
}

/// Writes the text of the answers.
fn write_answers<F: TellsAnswer, W: Write>(
    alloc: Global,
    writer: &mut W,
    answers: &[Option<Via>],
) -> Result<(), Fault>
    ensures ok { OnOk result (Appends (W.contents writer.old) (W.contents writer.new) (answers_told F.told answers.now)) }
    ensures err { IfErr result (λ fault. (fault ≡ whole_fault fault.refusal) × LeavesText (answers_told F.told answers.now) fault.refusal (W.contents writer.old) (W.contents writer.new)) }
{
    match write_text::<F, W>(alloc, writer, answers) {
        Ok(()) => Ok(()),
        Err(refusal) => Err(Fault::from(refusal)),
    }
}

fn write_text<F: TellsAnswer, W: Write>(
    alloc: Global,
    writer: &mut W,
    answers: &[Option<Via>],
) -> Result<(), Refusal>
    ensures ok { OnOk result (Appends (W.contents writer.old) (W.contents writer.new) (answers_told F.told answers.now)) }
    ensures err { IfErr result (λ refusal. LeavesText (answers_told F.told answers.now) refusal (W.contents writer.old) (W.contents writer.new)) }
{
    let text = text_of::<F>(alloc, answers)?;
    write_whole(writer, text.as_slice())
}

/// The text of the answers.
fn text_of<F: TellsAnswer>(alloc: Global, answers: &[Option<Via>]) -> Result<Vec<u8>, Refusal>
    ensures ok { IfOk result (λ text. text.items ≡ answers_told F.told answers.now) }
    ensures memory { IsOkUnless result Refusal.Memory }
{
    let mut text = Vec::new(alloc);
    for answer in answers {
        F::put(&mut text, *answer)?;
    }
    Ok(text)
}
