//! `cpgring shell`: a new cluster, and the lines that are typed over it.
//!
//! Proved: the words of the command line come first, then the settings, then the lines; what is printed and told, and the
//! status.

ghost use Rattle.std.specs.Prelude.{◌≡◌, ◌⊎◌, ◌++◌, None, Some, map, OnOk, OnErr, IfOk, IfSome, IsOkUnless};
ghost use Rattle.cpg_text.specs.Streams.{AppendsFront};
ghost use Rattle.cpg_console.specs.Pipes.{has_left, written};
ghost use Rattle.cpg_console.specs.Runs.{failure_of};
ghost use Rattle.cpg_console.specs.Shelling.{ShellEnds, ShellRuns, Shells, word_told};
ghost use Rattle.cpg_console.specs.OutputForms.{output_as};
ghost use Rattle.cpg_console.specs.Telling.{told_text};
ghost use Rattle.cpg_console.specs.Tracing.{WasKept, WasKeptOf};
ghost use Rattle.cpg_console.specs.Words.{list_of_words};
ghost use Rattle.cpg_world_laws.specs.Worlds.{new_world};

use crate::chances::Chances;
use crate::failures::Failure;
use crate::founding::{Foundation, Host, found};
use crate::output_form::OutputForm;
use crate::pipes::Piped;
use crate::runs::{Ended, failure_after, hand_on, tell};
use crate::telling::write_front;
use crate::tracing::{KeepsEnds, stop_kept};
use crate::words::hint_wrong;
use cpg_cluster::RunOptions;
use cpg_cluster::shell::shell_lines;
use cpg_cred::Refusal;
use cpg_daemon::{Cluster, HistoryName};
use cpg_ring::Settings;
use std::alloc::Global;
use std::io::{BufWriter, Read, Write};
use std::marker::Brand;

/// Answers the lines of the reader over a new cluster of those settings, whose nodes let in whom the words let in, stops
/// the cluster, and tells why that ended early, if it did.
///
/// A wrong word comes first, then settings out of their ranges, then the faults of the shell.
pub fn perform_shell<H: Host + 'static, R: Read, W: Write + Drop, E: Write, K: KeepsEnds>(
    rt: H,
    alloc: Global,
    options: &RunOptions<OutputForm>,
    chances: Chances,
    settings: Settings,
    words: &[&str],
    reader: &mut R,
    writer: &mut BufWriter<Piped<W>>,
    errors: &mut E,
    keeper: &mut K,
) -> Ended
    ensures runs { ShellRuns (output_as (options.now).form) settings (list_of_words (map (λ word. word.now) words.now)) (has_left writer.new) result.flushed result.failure
        (word_told (options.now).form words.now result.failure)
        (R.remaining reader.old) (written W.contents writer.old) (written W.contents writer.new) (E.contents errors.old) (E.contents errors.new) }
    ensures kept { result.failure ≡ None → WasKeptOf K.keeps settings (list_of_words (map (λ word. word.now) words.now)) keeper.old keeper.new }
    ensures left { IfSome result.failure (λ _. (keeper.new ≡ keeper.old) ⊎ WasKeptOf K.keeps settings (list_of_words (map (λ word. word.now) words.now)) keeper.old keeper.new) }
{
    let done = run_shell(
        rt, alloc, options, chances, settings, words, reader, writer, errors, keeper,
    );
    let flushed = hand_on(writer);
    let failure = failure_after(done, flushed);
    let left = writer.get_ref().has_left();
    let told = tell_hinted(alloc, errors, left, &options.form, words, &failure);
    Ended {
        failure,
        flushed,
        told,
    }
}

/// Tells the failure, if there is one that is to be told, and of the first wrong word behind it, and says whether that was
/// done.
#[tactic(auto, using(crate::proofs::Fronts::then_front, crate::proofs::Fronts::front_more))]
fn tell_hinted<E: Write>(
    alloc: Global,
    errors: &mut E,
    left: bool,
    form: &OutputForm,
    words: &[&str],
    failure: &Option<Failure>,
) -> bool
    ensures { AppendsFront (E.contents errors.old) (E.contents errors.new) (told_text left failure.now ++ word_told form.now words.now failure.now) }
{
    if !tell(errors, left, failure) {
        return false;
    }
    tell_word(alloc, errors, form, words, failure)
}

/// Tells of the first wrong word, where that is the failure and it is told what is known, as far as memory and the
/// stream allow, and says whether that was done.
#[tactic(auto, using(crate::proofs::Fronts::none_of))]
fn tell_word<E: Write>(
    alloc: Global,
    errors: &mut E,
    form: &OutputForm,
    words: &[&str],
    failure: &Option<Failure>,
) -> bool
    ensures { AppendsFront (E.contents errors.old) (E.contents errors.new) (word_told form.now words.now failure.now) }
{
    match word_hint(alloc, form, words, failure) {
        Ok(hint) => write_front(errors, hint.as_slice()),
        Err(_) => false,
    }
}

/// What is told of the first wrong word, where that is the failure and it is told what is known.
fn word_hint(
    alloc: Global,
    form: &OutputForm,
    words: &[&str],
    failure: &Option<Failure>,
) -> Result<Vec<u8>, Refusal>
    ensures ok { IfOk result (λ hint. hint.items ≡ word_told form.now words.now failure.now) }
    ensures memory { IsOkUnless result Refusal.Memory }
{
    match (form, failure) {
        (OutputForm::Noted(_), Some(Failure::BadWord)) => hint_wrong(alloc, words),
        _ => Ok(Vec::new(alloc)),
    }
}

/// Answers the lines over a new cluster, and stops it.
#[tactic(auto, using(crate::proofs::Shelled::none_shelled))]
fn run_shell<H: Host + 'static, R: Read, W: Write, E: Write, K: KeepsEnds>(
    rt: H,
    alloc: Global,
    options: &RunOptions<OutputForm>,
    chances: Chances,
    settings: Settings,
    words: &[&str],
    reader: &mut R,
    writer: &mut W,
    errors: &mut E,
    keeper: &mut K,
) -> Result<(), Failure>
    ensures shells { Shells (output_as (options.now).form) settings (list_of_words (map (λ word. word.now) words.now)) (failure_of result)
        (R.remaining reader.old) (W.contents writer.old) (W.contents writer.new) (E.contents errors.old) (E.contents errors.new) }
    ensures kept { OnOk result (WasKeptOf K.keeps settings (list_of_words (map (λ word. word.now) words.now)) keeper.old keeper.new) }
    ensures left { OnErr result ((keeper.new ≡ keeper.old) ⊎ WasKeptOf K.keeps settings (list_of_words (map (λ word. word.now) words.now)) keeper.old keeper.new) }
{
    match found(alloc, settings, words, keeper.is_asked()) {
        Err(failure) => Err(failure),
        Ok(foundation) => shell_on::<Brand, H, R, W, E, K>(
            rt, alloc, options, chances, settings, foundation, reader, writer, errors, keeper,
        ),
    }
}

/// Answers the lines over a new cluster on that foundation.
#[tactic(auto, using(crate::proofs::Shelled::none_of_memory, crate::proofs::Shelled::shelled))]
fn shell_on<B, H: Host + 'static, R: Read, W: Write, E: Write, K: KeepsEnds>(
    rt: H,
    alloc: Global,
    options: &RunOptions<OutputForm>,
    chances: Chances,
    settings: Settings,
    foundation: Foundation,
    reader: &mut R,
    writer: &mut W,
    errors: &mut E,
    keeper: &mut K,
) -> Result<(), Failure>
where
    B: HistoryName + Send + Sync + 'static,
    requires name { (foundation.board.cells ≡ B.cells) × (foundation.board.table ≡ B.table) × (new_world settings foundation.list ≡ B.start) }
    ensures shells { Shells (output_as (options.now).form) settings (Some foundation.list) (failure_of result)
        (R.remaining reader.old) (W.contents writer.old) (W.contents writer.new) (E.contents errors.old) (E.contents errors.new) }
    ensures kept { OnOk result (WasKept K.keeps B.start keeper.old keeper.new) }
    ensures left { OnErr result ((keeper.new ≡ keeper.old) ⊎ WasKept K.keeps B.start keeper.old keeper.new) }
{
    let Foundation { board, list } = foundation;
    match Cluster::<B, Chances>::start(rt, alloc, settings, board, &list, chances) {
        Err(_) => Err(Failure::from(Refusal::Memory)),
        Ok(cluster) => { shell_over(rt, alloc, options, cluster, reader, writer, errors, keeper) },
    }
}

/// Answers the lines over the cluster, and stops it.
fn shell_over<B, H: Host, R: Read, W: Write, E: Write, K: KeepsEnds>(
    rt: H,
    alloc: Global,
    options: &RunOptions<OutputForm>,
    cluster: Cluster<B, Chances>,
    reader: &mut R,
    writer: &mut W,
    errors: &mut E,
    keeper: &mut K,
) -> Result<(), Failure>
where
    B: HistoryName + Send + Sync + 'static,
    ensures shells { ShellEnds (output_as (options.now).form) B.start cluster.nodes (failure_of result)
        (R.remaining reader.old) (W.contents writer.old) (W.contents writer.new) (E.contents errors.old) (E.contents errors.new) }
    ensures kept { WasKept K.keeps B.start keeper.old keeper.new }
{
    let done = shell_lines(&rt, alloc, reader, writer, errors, &cluster, options);
    stop_kept(&rt, alloc, cluster, keeper);
    match done {
        Ok(()) => Ok(()),
        Err(fault) => Err(Failure::from(fault)),
    }
}
