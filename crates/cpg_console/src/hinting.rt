//! `-v`: behind a fault's line, what a person needs to mend the script, or a word of the command line.
//!
//! The form is this project's own. Proved, where the streams tell their bytes: all that `perform` promises, and the hint
//! that stands on standard error behind the fault's line.

ghost use Rattle.std.specs.Prelude.{◌≡◌, ◌⊎◌, ◌↔◌, ◌++◌, ℕ, List, [], false, true, None, Some, IfOk, IfSome, IsSomeAnd, IsTrue, IsOkUnless};
ghost use Rattle.std.specs.Io.Buffered.{writer_buffer};
ghost use Rattle.std.specs.Io.KnownBytes.{Appends, Keeps};
ghost use Rattle.cpg_text.specs.Streams.{AppendsFront};
ghost use Rattle.cpg_accept.specs.Accepting.{whole_fault};
ghost use Rattle.cpg_console.specs.Hinting.{failure_unread, hint_told, kind_of, words_of, EndsUnread};
ghost use Rattle.cpg_console.specs.Pipes.{has_left, written};
ghost use Rattle.cpg_console.specs.Runs.{FailsLate, HasWrongWord, IsOfWords, Runs};
ghost use Rattle.cpg_console.specs.Telling.{told_text};
ghost use Rattle.cpg_console.specs.Tracing.{IsLeft};

use crate::failures::Failure;
use crate::founding::Host;
use crate::pipes::Piped;
use crate::runs::{Ended, Run, hand_on, perform, tell};
use crate::telling::write_front;
use crate::tracing::KeepsEnds;
use crate::words::{has_wrong, hint_wrong};
use cpg_cred::Refusal;
use cpg_hint::{ScriptKind, hint_of};
use cpg_text::read_whole;
use std::alloc::Global;
use std::io::{BufWriter, Read, Write};

/// The kind of script that a run reads.
fn kind_of(run: &Run<'_>) -> ScriptKind
    ensures { result ≡ kind_of run.now }
{
    match run {
        Run::Judge(_) | Run::JudgeOnly(_) | Run::Why(_, _) => ScriptKind::Judge,
        Run::Accept(_) => ScriptKind::Accept,
        Run::Step(_, settings, _)
        | Run::StepWhy(_, _, settings, _)
        | Run::Draw(_, settings, _)
        | Run::Number(settings, _)
        | Run::Echo(settings, _) => ScriptKind::Step(settings.nodes),
        Run::Cluster(_, _, settings, _) | Run::ClusterWhy(_, settings, _) => {
            ScriptKind::Cluster(settings.nodes)
        }
    }
}

/// The words of the run's command line that let users and groups in.
fn words_of<'a>(run: &Run<'a>) -> &'a [&'a str]
    ensures { result.now ≡ words_of run.now }
{
    match run {
        Run::Judge(_) | Run::JudgeOnly(_) | Run::Why(_, _) | Run::Accept(_) => &[],
        Run::Step(_, _, words)
        | Run::StepWhy(_, _, _, words)
        | Run::Draw(_, _, words)
        | Run::Number(_, words)
        | Run::Echo(_, words)
        | Run::Cluster(_, _, _, words)
        | Run::ClusterWhy(_, _, words) => words,
    }
}

/// Whether a word of the run's command line lets nobody in.
#[tactic(auto, using(crate::proofs::Worded::wrong_by))]
fn has_wrong_word(run: &Run<'_>) -> bool
    ensures { (result ≡ true) ↔ HasWrongWord run.now }
{
    has_wrong(words_of(run))
}

/// Runs the subcommand over the streams as `perform` does, and tells a hint behind the line of a script's fault.
///
/// The script is read whole before anything else is done; where it can't be read, that is the fault, but for a wrong word.
pub fn perform_with_hint<H: Host + 'static, R: Read, W: Write + Drop, E: Write, K: KeepsEnds>(
    rt: H,
    alloc: Global,
    run: &Run<'_>,
    reader: &mut R,
    writer: &mut BufWriter<Piped<W>>,
    errors: &mut E,
    keeper: &mut K,
) -> Ended
    ensures output { IfSome (R.remaining reader.old) (λ script.
        Runs run.now script result.flushed result.failure (written W.contents writer.old) (written W.contents writer.new)
        ⊎ (IsSomeAnd result.failure EndsUnread × Keeps (written W.contents writer.old) (written W.contents writer.new))) }
    ensures late { IfSome result.failure (λ failure. FailsLate failure (written W.contents writer.old) (written W.contents writer.new)) }
    ensures word { (result.failure ≡ Some Failure.BadWord) ↔ HasWrongWord run.now }
    ensures flushed { IsTrue result.flushed → writer_buffer writer.new ≡ [] }
    ensures unflushed { result.flushed ≡ false → (result.failure ≡ Some (Failure.Fault (whole_fault Refusal.Write))) ⊎ IsSomeAnd result.failure IsOfWords }

    // The failure's line and the hint behind it, or a front of both.
    ensures told { IfSome (R.remaining reader.old) (λ script. IsTrue result.told → Appends (E.contents errors.old) (E.contents errors.new) (told_text (has_left writer.new) result.failure ++ hint_told run.now script result.failure)) }
    ensures untold { IfSome (R.remaining reader.old) (λ script. AppendsFront (E.contents errors.old) (E.contents errors.new) (told_text (has_left writer.new) result.failure ++ hint_told run.now script result.failure)) }
    ensures kept { result.failure ≡ None → IsLeft K.keeps run.now keeper.old keeper.new }
    ensures left { IfSome result.failure (λ _. (keeper.new ≡ keeper.old) ⊎ IsLeft K.keeps run.now keeper.old keeper.new) }
{
    match read_whole(alloc, reader) {
        Ok(script) => run_read(rt, alloc, run, script.as_slice(), writer, errors, keeper),
        Err(refusal) => end_unread(alloc, run, refusal, writer, errors),
    }
}

/// Runs the subcommand over the script that was read, and tells a hint behind the line of its fault.
#[tactic(auto, using(crate::proofs::Fronts::then_all, crate::proofs::Fronts::then_front, crate::proofs::Fronts::front_more))]
fn run_read<H: Host + 'static, W: Write + Drop, E: Write, K: KeepsEnds>(
    rt: H,
    alloc: Global,
    run: &Run<'_>,
    script: &[u8],
    writer: &mut BufWriter<Piped<W>>,
    errors: &mut E,
    keeper: &mut K,
) -> Ended
    ensures output { Runs run.now script.now result.flushed result.failure (written W.contents writer.old) (written W.contents writer.new) }
    ensures late { IfSome result.failure (λ failure. FailsLate failure (written W.contents writer.old) (written W.contents writer.new)) }
    ensures word { (result.failure ≡ Some Failure.BadWord) ↔ HasWrongWord run.now }
    ensures flushed { IsTrue result.flushed → writer_buffer writer.new ≡ [] }
    ensures unflushed { result.flushed ≡ false → (result.failure ≡ Some (Failure.Fault (whole_fault Refusal.Write))) ⊎ IsSomeAnd result.failure IsOfWords }
    ensures told { IsTrue result.told → Appends (E.contents errors.old) (E.contents errors.new) (told_text (has_left writer.new) result.failure ++ hint_told run.now script.now result.failure) }
    ensures untold { AppendsFront (E.contents errors.old) (E.contents errors.new) (told_text (has_left writer.new) result.failure ++ hint_told run.now script.now result.failure) }
    ensures kept { result.failure ≡ None → IsLeft K.keeps run.now keeper.old keeper.new }
    ensures left { IfSome result.failure (λ _. (keeper.new ≡ keeper.old) ⊎ IsLeft K.keeps run.now keeper.old keeper.new) }
{
    let mut reader = script;
    let ended = perform(rt, alloc, run, &mut reader, writer, errors, keeper);
    if !ended.told {
        return ended;
    }
    let told = tell_hint(alloc, errors, run, script, &ended.failure);
    Ended {
        failure: ended.failure,
        flushed: ended.flushed,
        told,
    }
}

/// Tells the hint of a failure, as far as memory and the stream allow, and says whether that was done.
#[tactic(auto, using(crate::proofs::Fronts::none_of))]
fn tell_hint<E: Write>(
    alloc: Global,
    errors: &mut E,
    run: &Run<'_>,
    script: &[u8],
    failure: &Option<Failure>,
) -> bool
    ensures told { IsTrue result → Appends (E.contents errors.old) (E.contents errors.new) (hint_told run.now script.now failure.now) }
    ensures front { AppendsFront (E.contents errors.old) (E.contents errors.new) (hint_told run.now script.now failure.now) }
{
    match hint_for(alloc, run, script, failure) {
        Ok(hint) => write_front(errors, hint.as_slice()),
        Err(_) => false,
    }
}

/// The hint of a failure.
fn hint_for(
    alloc: Global,
    run: &Run<'_>,
    script: &[u8],
    failure: &Option<Failure>,
) -> Result<Vec<u8>, Refusal>
    ensures ok { IfOk result (λ hint. hint.items ≡ hint_told run.now script.now failure.now) }
    ensures memory { IsOkUnless result Refusal.Memory }
{
    match failure {
        Some(Failure::Fault(fault)) => hint_of(alloc, kind_of(run), script, fault),
        Some(Failure::BadWord) => hint_wrong(alloc, words_of(run)),
        _ => Ok(Vec::new(alloc)),
    }
}

/// Tells the failure, if there is one that is to be told, and the hint behind it, and says whether that was done.
#[tactic(auto, using(crate::proofs::Fronts::then_all, crate::proofs::Fronts::then_front, crate::proofs::Fronts::front_more))]
fn tell_hinted<E: Write>(
    alloc: Global,
    errors: &mut E,
    left: bool,
    run: &Run<'_>,
    script: &[u8],
    failure: &Option<Failure>,
) -> bool
    ensures told { IsTrue result → Appends (E.contents errors.old) (E.contents errors.new) (told_text left failure.now ++ hint_told run.now script.now failure.now) }
    ensures untold { AppendsFront (E.contents errors.old) (E.contents errors.new) (told_text left failure.now ++ hint_told run.now script.now failure.now) }
{
    if !tell(errors, left, failure) {
        return false;
    }
    tell_hint(alloc, errors, run, script, failure)
}

/// The same of the failure of a run whose script could not be read, whatever it may be.
fn tell_unread<E: Write>(
    alloc: Global,
    errors: &mut E,
    left: bool,
    run: &Run<'_>,
    failure: &Option<Failure>,
) -> bool
    requires { IsSomeAnd failure.now EndsUnread }
    ensures told { (script : List ℕ) → IsTrue result → Appends (E.contents errors.old) (E.contents errors.new) (told_text left failure.now ++ hint_told run.now script failure.now) }
    ensures untold { (script : List ℕ) → AppendsFront (E.contents errors.old) (E.contents errors.new) (told_text left failure.now ++ hint_told run.now script failure.now) }
{
    tell_hinted(alloc, errors, left, run, &[], failure)
}

/// Ends a run whose script could not be read; a hint is told of a wrong word.
fn end_unread<W: Write + Drop, E: Write>(
    alloc: Global,
    run: &Run<'_>,
    refusal: Refusal,
    writer: &mut BufWriter<Piped<W>>,
    errors: &mut E,
) -> Ended
    requires { (refusal ≡ Refusal.Memory) ⊎ (refusal ≡ Refusal.Read) }
    ensures failure { IsSomeAnd result.failure EndsUnread }
    ensures kept { Keeps (written W.contents writer.old) (written W.contents writer.new) }
    ensures word { (result.failure ≡ Some Failure.BadWord) ↔ HasWrongWord run.now }
    ensures flushed { IsTrue result.flushed → writer_buffer writer.new ≡ [] }
    ensures unflushed { result.flushed ≡ false → (result.failure ≡ Some (Failure.Fault (whole_fault Refusal.Write))) ⊎ IsSomeAnd result.failure IsOfWords }
    ensures told { (script : List ℕ) → IsTrue result.told → Appends (E.contents errors.old) (E.contents errors.new) (told_text (has_left writer.new) result.failure ++ hint_told run.now script result.failure) }
    ensures untold { (script : List ℕ) → AppendsFront (E.contents errors.old) (E.contents errors.new) (told_text (has_left writer.new) result.failure ++ hint_told run.now script result.failure) }
{
    let flushed = hand_on(writer);
    let failure = Some(unread_by(has_wrong_word(run), refusal, flushed));
    let left = writer.get_ref().has_left();
    let told = tell_unread(alloc, errors, left, run, &failure);
    Ended {
        failure,
        flushed,
        told,
    }
}

/// Why a run ends whose script could not be read: by a wrong word, if there is one; else by the flush, if that failed.
fn unread_by(wrong: bool, refusal: Refusal, flushed: bool) -> Failure
    ensures { result ≡ failure_unread wrong refusal flushed }
{
    if wrong {
        Failure::BadWord
    } else if flushed {
        Failure::from(refusal)
    } else {
        Failure::from(Refusal::Write)
    }
}
