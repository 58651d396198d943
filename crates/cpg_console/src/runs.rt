//! A run of the program: its subcommand, over three streams.
//!
//! Standard output is buffered, and what was gathered is handed on also after a fault. Proved: what is
//! written to standard output and to standard error, and the status, whatever the streams do.

ghost use Rattle.std.specs.Prelude.{◌≡◌, ◌⊎◌, ◌↔◌, [], false, Err, None, Some, OnOk, OnErr, IfErr, IfSome, IsSomeAnd, IsTrue};
ghost use Rattle.std.specs.Io.Buffered.{writer_buffer, writer_contents};
ghost use Rattle.std.specs.Io.KnownBytes.{Appends, Keeps};
ghost use Rattle.cpg_text.specs.Streams.{AppendsFront};
ghost use Rattle.cpg_accept.specs.Accepting.{whole_fault};
ghost use Rattle.cpg_console.specs.Runs.{failure_of, failure_told, status_after, FailsLate, HasWrongWord, IsOfWords, Prints, Runs};
ghost use Rattle.cpg_console.specs.Pipes.{has_left, written};
ghost use Rattle.cpg_console.specs.Telling.{told_text};
ghost use Rattle.cpg_console.specs.Tracing.{IsLeft};

use crate::auditing::{Inquiry, explain_over_cluster};
use crate::chances::Chances;
use crate::clustering::run_cluster;
use crate::drawing::draw_over_world;
use crate::echoing::echo_over_world;
use crate::failures::Failure;
use crate::founding::Host;
use crate::judging::{accept, explain, judge};
use crate::output_form::OutputForm;
use crate::pipes::Piped;
use crate::stepping::{explain_over_world, step_over_world};
use crate::telling::tell_failure;
use crate::tracing::KeepsEnds;
use cpg_cluster::RunOptions;
use cpg_cred::Refusal;
use cpg_draw::Excerpt;
use cpg_json::Marks;
use cpg_judge::filter::Filter;
use cpg_judge::judge_in_form;
use cpg_ring::Settings;
use cpg_text::Fault;
use cpg_why::Asked;
use std::alloc::Global;
use std::io::{BufWriter, Read, Write};

/// How lines are written.
#[derive(Debug, Clone, Copy)]
pub enum Form {
    /// As text.
    Text,
    /// As objects of JSON, one a line.
    Json,
}

/// How the answers of `step` are written.
#[derive(Debug, Clone, Copy)]
pub enum Stepped {
    /// As text.
    Text,
    /// As objects of JSON, one a line, with those marks.
    Json(Marks),
}

/// How a picture is written.
#[derive(Debug, Clone, Copy)]
pub enum Picture {
    /// As one SVG, of which those rows are shown.
    Svg(Excerpt),
    /// As lines for a terminal, of which those rows are shown.
    Lines(Excerpt),
    /// As the lines of `step`, with the numbers of the frames that each command sent.
    Numbered,
}

/// What the program is asked for.
#[derive(Debug, Clone, Copy)]
pub enum Run<'a> {
    /// `cpgring judge`: a script of agreed entries is judged.
    Judge(Form),
    /// `cpgring judge` with a filter: the lines that it keeps are printed.
    JudgeOnly(Filter<'a>),
    /// `cpgring why`: it is told why entries of such a script were answered as they were.
    Why(Form, Asked),
    /// `cpgring accept`: the asks of a script are answered by its names and conf texts.
    Accept(Form),
    /// `cpgring step`: a script of commands is run over a new world of those settings, whose nodes let in
    /// whom the words let in.
    Step(Stepped, Settings, &'a [&'a str]),
    /// `cpgring step --why`: it is told why entries that such a world delivered were answered as they were.
    StepWhy(Form, Asked, Settings, &'a [&'a str]),
    /// `cpgring draw`: the run of such a script over a new world is drawn.
    Draw(Picture, Settings, &'a [&'a str]),
    /// `cpgring step --numbers`: the same as `Step`, with the numbers of the frames that each command sent.
    Number(Settings, &'a [&'a str]),
    /// `cpgring step --echo`: the same as `Step`, each line behind the number of its script line and what its command is of.
    Echo(Settings, &'a [&'a str]),
    /// `cpgring run`: a script of sessions is run over a new cluster of those settings, whose nodes let in
    /// whom the words let in, and answers as the options say; of its frames becomes what the chances say.
    Cluster(RunOptions<OutputForm>, Chances, Settings, &'a [&'a str]),
    /// `cpgring run --why`: it is told why entries that stand on such a cluster's board after the script were answered
    /// as they were.
    ClusterWhy(Inquiry, Settings, &'a [&'a str]),
}

/// How a run ended.
#[derive(Debug, Drop)]
pub struct Ended {
    /// Why it ended early; none where it did all that it was asked for.
    pub failure: Option<Failure>,
    /// Whether all that was written of the script's text is handed on to standard output.
    pub flushed: bool,
    /// Whether what there is to tell stands on standard error.
    pub told: bool,
}

impl Ended {
    /// The exit status: 0; after a fault 1; and 2 where a word of the command line is wrong, or asks of what is not there.
    pub fn status(&self) -> u8
        ensures { result ≡ status_after (self.now).failure }
    {
        match &self.failure {
            None => 0,
            Some(Failure::Fault(_)) => 1,
            Some(Failure::BadWord | Failure::Missing(_)) => 2,
        }
    }
}

/// Runs the subcommand over the streams. What a stopped cluster leaves is the keeper's.
///
/// What was gathered is handed on also after a fault; where that fails, the fault is `Write`. Why a run ended
/// early is told on standard error, as far as the stream allows; where there is nothing to tell, or the reader of
/// standard output has left, nothing is.
pub fn perform<H: Host + 'static, R: Read, W: Write + Drop, E: Write, K: KeepsEnds>(
    rt: H,
    alloc: Global,
    run: &Run<'_>,
    reader: &mut R,
    writer: &mut BufWriter<Piped<W>>,
    errors: &mut E,
    keeper: &mut K,
) -> Ended
    ensures output { IfSome (R.remaining reader.old) (λ script.
        Runs run.now script result.flushed result.failure (written W.contents writer.old) (written W.contents writer.new)) }

    // Nothing is written before the words were found right and the script was read and checked, even where the
    // reader tells no bytes.
    ensures late { IfSome result.failure (λ failure. FailsLate failure (written W.contents writer.old) (written W.contents writer.new)) }

    // A wrong word is told exactly where there is one, whatever the streams do.
    ensures word { (result.failure ≡ Some Failure.BadWord) ↔ HasWrongWord run.now }

    // What was gathered is handed on; where it is not, that is a fault.
    ensures flushed { IsTrue result.flushed → writer_buffer writer.new ≡ [] }
    ensures unflushed { result.flushed ≡ false → (result.failure ≡ Some (Failure.Fault (whole_fault Refusal.Write))) ⊎ IsSomeAnd result.failure IsOfWords }

    // The failure's line, or a front of it where it could not be written whole; nothing where there is none, or
    // where it is one of writing to a pipe whose reader has left.
    ensures told { IsTrue result.told → Appends (E.contents errors.old) (E.contents errors.new) (told_text (has_left writer.new) result.failure) }
    ensures untold { AppendsFront (E.contents errors.old) (E.contents errors.new) (told_text (has_left writer.new) result.failure) }

    // A run of sessions leaves its cluster to the keeper; any other run leaves nothing.
    ensures kept { result.failure ≡ None → IsLeft K.keeps run.now keeper.old keeper.new }
    ensures left { IfSome result.failure (λ _. (keeper.new ≡ keeper.old) ⊎ IsLeft K.keeps run.now keeper.old keeper.new) }
{
    let (failure, flushed) = run_flushed(rt, alloc, run, reader, writer, keeper);
    let told = tell(errors, writer.get_ref().has_left(), &failure);
    Ended {
        failure,
        flushed,
        told,
    }
}

/// Tells the failure, if there is one that is to be told, and says whether that was done.
#[tactic(auto, using(crate::proofs::Fronts::none_of, crate::proofs::Fronts::all_of))]
pub fn tell<E: Write>(errors: &mut E, left: bool, failure: &Option<Failure>) -> bool
    ensures told { IsTrue result → Appends (E.contents errors.old) (E.contents errors.new) (told_text left failure.now) }
    ensures untold { AppendsFront (E.contents errors.old) (E.contents errors.new) (told_text left failure.now) }
{
    match failure {
        None => true,
        Some(failure) => (left && failure.is_write()) || tell_failure(errors, failure).is_ok(),
    }
}

/// Hands on what was gathered, and says whether all of it is.
pub fn hand_on<W: Write + Drop>(writer: &mut BufWriter<W>) -> bool
    ensures kept { Keeps (writer_contents W.contents writer.old) (writer_contents W.contents writer.new) }
    ensures flushed { IsTrue result → writer_buffer writer.new ≡ [] }
{
    match writer.flush() {
        Ok(()) => true,
        Err(_) => false,
    }
}

/// Runs the subcommand and flushes. The failure, and whether all that was written is handed on.
#[tactic(auto, using(crate::proofs::Flushed::word_told))]
fn run_flushed<H: Host + 'static, R: Read, W: Write + Drop, K: KeepsEnds>(
    rt: H,
    alloc: Global,
    run: &Run<'_>,
    reader: &mut R,
    writer: &mut BufWriter<W>,
    keeper: &mut K,
) -> (Option<Failure>, bool)
    ensures output { IfSome (R.remaining reader.old) (λ script.
        Runs run.now script result.1 result.0 (writer_contents W.contents writer.old) (writer_contents W.contents writer.new)) }
    ensures late { IfSome result.0 (λ failure. FailsLate failure (writer_contents W.contents writer.old) (writer_contents W.contents writer.new)) }
    ensures word { (result.0 ≡ Some Failure.BadWord) ↔ HasWrongWord run.now }
    ensures flushed { IsTrue result.1 → writer_buffer writer.new ≡ [] }
    ensures unflushed { result.1 ≡ false → (result.0 ≡ Some (Failure.Fault (whole_fault Refusal.Write))) ⊎ IsSomeAnd result.0 IsOfWords }
    ensures kept { result.0 ≡ None → IsLeft K.keeps run.now keeper.old keeper.new }
    ensures left { IfSome result.0 (λ _. (keeper.new ≡ keeper.old) ⊎ IsLeft K.keeps run.now keeper.old keeper.new) }
{
    let done = run_script(rt, alloc, run, reader, writer, keeper);
    let flushed = hand_on(writer);
    (failure_after(done, flushed), flushed)
}

/// The script's failure, but one of writing where the flush after it failed.
pub fn failure_after(done: Result<(), Failure>, flushed: bool) -> Option<Failure>
    ensures { result ≡ failure_told flushed (failure_of done) }
{
    match done {
        Err(Failure::BadWord) => Some(Failure::BadWord),
        Err(Failure::Missing(what)) => Some(Failure::Missing(what)),
        _ if !flushed => Some(Failure::from(Refusal::Write)),
        Err(failure) => Some(failure),
        Ok(()) => None,
    }
}

/// Runs the script by the subcommand's rule.
fn run_script<H: Host + 'static, R: Read, W: Write, K: KeepsEnds>(
    rt: H,
    alloc: Global,
    run: &Run<'_>,
    reader: &mut R,
    writer: &mut W,
    keeper: &mut K,
) -> Result<(), Failure>
    ensures ok { OnOk result (IfSome (R.remaining reader.old) (λ script.
        Prints run.now script None (W.contents writer.old) (W.contents writer.new))) }
    ensures err { IfErr result (λ failure. IfSome (R.remaining reader.old) (λ script.
        Prints run.now script (Some failure) (W.contents writer.old) (W.contents writer.new))) }
    ensures late { IfErr result (λ failure. FailsLate failure (W.contents writer.old) (W.contents writer.new)) }
    ensures word { (result ≡ Err Failure.BadWord) ↔ HasWrongWord run.now }
    ensures kept { OnOk result (IsLeft K.keeps run.now keeper.old keeper.new) }
    ensures left { OnErr result ((keeper.new ≡ keeper.old) ⊎ IsLeft K.keeps run.now keeper.old keeper.new) }
{
    match run {
        Run::Judge(form) => judge(alloc, *form, reader, writer)?,
        Run::JudgeOnly(filter) => judge_in_form(alloc, filter, reader, writer)?,
        Run::Why(form, asked) => explain(alloc, *form, *asked, reader, writer)?,
        Run::Accept(form) => accept(alloc, *form, reader, writer)?,
        Run::Step(form, settings, words) => {
            step_over_world(alloc, *form, *settings, words, reader, writer)?;
        }
        Run::StepWhy(form, asked, settings, words) => {
            explain_over_world(alloc, *form, *asked, *settings, words, reader, writer)?;
        }
        Run::Draw(picture, settings, words) => {
            draw_over_world(alloc, *picture, *settings, words, reader, writer)?;
        }
        Run::Number(settings, words) => {
            let picture = Picture::Numbered;
            draw_over_world(alloc, picture, *settings, words, reader, writer)?;
        }
        Run::Echo(settings, words) => {
            echo_over_world(alloc, *settings, words, reader, writer)?;
        }
        Run::Cluster(options, chances, settings, words) => {
            run_cluster(
                rt, alloc, options, *chances, *settings, words, reader, writer, keeper,
            )?;
        }
        Run::ClusterWhy(inquiry, settings, words) => {
            explain_over_cluster(rt, alloc, inquiry, *settings, words, reader, writer)?;
        }
    }
    Ok(())
}
