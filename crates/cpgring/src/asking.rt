//! What the command line asks for, and what is said of one that asks for nothing that can be run.
//!
//! Proved: which subcommand is which run, its settings and words, and the exit status of what is said.

ghost use Rattle.std.specs.Prelude.{◌≡◌, ◌<◌, ◌↔◌, ◌⊎◌, true, false, Some, None, codes, length, map, option_map, slice_get, IfOk, IfSome, IsSome};
ghost use Rattle.std.specs.Io.KnownBytes.{Keeps};
ghost use Rattle.clap.specs.Words.{found_of, first_value, subcommand_name_of};
ghost use Rattle.clap.specs.Values.{kind_of};
ghost use Rattle.cpg_console.specs.Pipes.{stream_of};
ghost use Rattle.cpg_console.specs.declared.runs.Run.TheVariants.{Why};
ghost use Rattle.cpgring.specs.Filtering.{is_filtered, rows_given, IsBadFilter};
ghost use Rattle.cpgring.specs.Sources.{but_input, path_of};
ghost use Rattle.cpgring.specs.Asking.{name_of, words_found, AreChancesGiven, AreMarksGiven, AreSettingsGiven, IsAskedFor, IsFormGiven, IsInquiryGiven, AreRunOptionsGiven, IsPictureGiven, IsShellGiven, IsShownGiven, IsOutputFormGiven, wait_limit_given, IsEntryAsked, words_before, IsStatusOf, IsUnused, IsUsed, SaysByKind, is_echoed, is_numbered};

use crate::commands::{build_command, command_for};
use crate::excerpts::excerpt_of;
use crate::faults::{fault_of, fault_of_shell};
use crate::filtering::{filter_of, is_filtered};
use crate::options::{
    ACCEPT, ALL, CONNECTION, ECHO, FILE, HOPS, JSON, LOSE, NODES, NUMBERS, PLACE, PLACES, REPEAT,
    RING, SEED, TEXT, TO, VERBOSE, WAIT, WHY,
};
use crate::questions::{read_conn, read_entry, read_question};
use crate::sources::{Source, source_of, split_words};
use crate::versions::write_commit;
use clap::error::ErrorKind;
use clap::{ArgMatches, Command, Error};
use cpg_console::{
    Asked as Question, Chances, Form, Inquiry, Known, Marks, NotedForm, OutputForm, Picture, Piped,
    Run, RunOptions, Stepped, TextForm, WaitLimit, tell_fault,
};
use cpg_cred::Refusal;
use cpg_ring::Settings;
use cpg_text::{Fault, read_u32, write_whole};
use std::alloc::{AllocError, Global};
use std::convert::AsStr;
use std::env::{self, Env};
use std::io::{ErrorKind as Failure, Write};

/// The words of the command line, which have to be UTF-8.
pub fn read_words<R: Env + Alloc<A = Global>>(rt: &R) -> Result<Vec<String>, Error> {
    match env::args(rt) {
        Ok(words) => Ok(words.collect(rt.alloc())?),
        Err(error) if error.kind() == Failure::OutOfMemory => Err(Error::from(AllocError)),
        Err(_) => Err(build_command(rt.alloc())?.error(
            ErrorKind::InvalidValue,
            "invalid UTF-8 was detected in one or more arguments",
        )?),
    }
}

/// The command line for these words, the first of which is the program's name.
fn command_of<'a, S: AsStr>(alloc: Global, words: &[S]) -> Result<Command<'a>, AllocError> {
    match words {
        [_, first, ..] => command_for(alloc, first.as_str()),
        _ => build_command(alloc),
    }
}

/// What the command finds in the words.
fn matches_of<'a, S: AsStr>(
    mut command: Command<'a>,
    words: &'a [S],
) -> Result<ArgMatches<'a>, Error> {
    command.try_get_matches_from_mut(words)
}

/// What clap found in the words. The first word is the program's name.
pub fn match_words<'a, S: AsStr>(alloc: Global, words: &'a [S]) -> Result<ArgMatches<'a>, Error> {
    matches_of(command_of(alloc, words)?, words)
}

/// What the command line asks for: a run, and where its script is read from.
#[derive(Clone, Copy)]
pub struct Asked<'a> {
    pub run: Run<'a>,
    pub source: Source<'a>,
}

/// What was asked for.
pub fn read_asked<'a>(alloc: Global, matches: &'a ArgMatches<'_>) -> Result<Asked<'a>, Error> {
    match asked_of(matches) {
        Some(asked) => Ok(asked),
        None => Err(fault_of(alloc, matches)?),
    }
}

/// What the subcommand asks for, where it is one.
fn asked_of<'a>(matches: &'a ArgMatches<'_>) -> Option<Asked<'a>>
    ensures named { IfSome result (λ asked. subcommand_name_of matches.now ≡ Some (name_of asked.run)) }
    ensures accept { subcommand_name_of matches.now ≡ Some (codes "accept") → IsSome result }
{
    let (name, given) = matches.subcommand()?;
    if name == "judge" {
        judge_of(given)
    } else if name == "accept" {
        Some(accept_of(given))
    } else if name == "why" {
        why_of(given)
    } else if name == "step" {
        step_of(given)
    } else if name == "draw" {
        draw_of(given)
    } else if name == "run" {
        cluster_of(given)
    } else {
        None
    }
}

/// Whether the option asks for a hint behind a fault's line.
pub fn is_verbose(given: &ArgMatches<'_>) -> bool
    ensures used { IsUsed (found_of given.now) (codes "verbose") → result ≡ true }
    ensures unused { IsUnused (found_of given.now) (codes "verbose") → result ≡ false }
{
    given.get_flag(VERBOSE)
}

/// The form that the option asks for.
pub fn form_of(given: &ArgMatches<'_>) -> Form
    ensures { IsFormGiven (found_of given.now) result }
{
    if given.get_flag(JSON) {
        Form::Json
    } else {
        Form::Text
    }
}

/// What stands in the objects of `step` that the options ask for.
fn marks_of(given: &ArgMatches<'_>) -> Marks
    ensures { AreMarksGiven (found_of given.now) result }
{
    if given.get_flag(NUMBERS) {
        Marks::Numbers
    } else if given.get_flag(ECHO) {
        Marks::Echo
    } else {
        Marks::Line
    }
}

/// The picture that the options ask for, where their words say one.
fn picture_of(given: &ArgMatches<'_>) -> Option<Picture>
    ensures given { IfSome result (IsPictureGiven (found_of given.now)) }
    ensures none { (result ≡ None) ↔ (rows_given (first_value (found_of given.now) (codes "rows")) ≡ None) }
{
    let excerpt = excerpt_of(given)?;
    Some(if given.get_flag(TEXT) {
        Picture::Lines(excerpt)
    } else {
        Picture::Svg(excerpt)
    })
}

/// The judgement of a script, in the form and through the filter that are asked for.
fn judge_of<'a>(given: &'a ArgMatches<'_>) -> Option<Asked<'a>>
    ensures asked { IfSome result (IsAskedFor (found_of given.now) (codes "judge")) }
    ensures plain { is_filtered (found_of given.now) ≡ false → IsSome result }
    ensures none { result ≡ None → IsBadFilter (found_of given.now) }
{
    let source = source_of(given.get_str(FILE));
    if !is_filtered(given) {
        return Some(Asked {
            run: Run::Judge(form_of(given)),
            source,
        });
    }
    match filter_of(given) {
        None => None,
        Some(filter) => Some(Asked {
            run: Run::JudgeOnly(filter),
            source,
        }),
    }
}

/// The answers to a script's asks, in the form that is asked for.
fn accept_of<'a>(given: &'a ArgMatches<'_>) -> Asked<'a>
    ensures { IsAskedFor (found_of given.now) (codes "accept") result }
{
    Asked {
        run: Run::Accept(form_of(given)),
        source: source_of(given.get_str(FILE)),
    }
}

/// Why entries of a script were answered as they were, where that is asked for as it should be.
fn why_of<'a>(given: &'a ArgMatches<'_>) -> Option<Asked<'a>>
    ensures { IfSome result (IsAskedFor (found_of given.now) (codes "why")) }
{
    let words = given.get_strs(PLACE).unwrap_or(&[]);
    let all = given.get_flag(ALL);
    let to = given.get_str(TO);
    let form = form_of(given);
    match given.get_str(CONNECTION) {
        Some(_) if all => None,
        Some(conn) => why_other(
            form,
            Question::Connection(read_conn(conn.as_bytes())?),
            words,
        ),
        None if all => why_other(form, Question::Denials, words),
        None => why_entry(form, to, words),
    }
}

/// What is asked of no place: the one word that there may be is the path.
fn why_other<'a>(form: Form, question: Question, words: &'a [&'a str]) -> Option<Asked<'a>>
    ensures run { IfSome result (λ asked. asked.run ≡ Why form question) }
    ensures source { IfSome result (λ asked. path_of asked.source ≡ but_input (slice_get (map (λ word. word.now) words.now) 0)) }
    ensures none { (result ≡ None) ↔ (1 < length words.now) }
{
    if words.len() > 1 {
        return None;
    }
    Some(Asked {
        run: Run::Why(form, question),
        source: source_of(words.first().copied()),
    })
}

/// Why one entry was answered as it was: the first word is its place or an event that it told, and the other, if there is
/// one, the path.
fn why_entry<'a>(form: Form, to: Option<&str>, words: &'a [&'a str]) -> Option<Asked<'a>>
    ensures run { IfSome result (λ asked. IsEntryAsked form (option_map (λ text. text.now) to.entry) (map (λ word. word.now) words.now) asked.run) }
    ensures source { IfSome result (λ asked. path_of asked.source ≡ but_input (slice_get (map (λ word. word.now) words.now) (words_before asked.run))) }
{
    if words.len() > 2 {
        return None;
    }
    let question = read_entry(to, words.first()?.as_bytes())?;
    Some(Asked {
        run: Run::Why(form, question),
        source: source_behind(words),
    })
}

/// The script's source behind the word that names an entry: the second word, if there is one.
fn source_behind<'a>(words: &'a [&'a str]) -> Source<'a>
    ensures { path_of result ≡ but_input (slice_get (map (λ word. word.now) words.now) 1) }
{
    source_of(words.get(1).copied())
}

/// The run of a script of commands with the settings and the words that are given.
fn step_of<'a>(given: &'a ArgMatches<'_>) -> Option<Asked<'a>>
    ensures asked { IfSome result (IsAskedFor (found_of given.now) (codes "step")) }
    ensures numbers { first_value (found_of given.now) (codes "why") ≡ None → IfSome result (λ asked. IsUnused (found_of given.now) (codes "json") → IsUsed (found_of given.now) (codes "numbers") → is_numbered asked.run ≡ true) }
    ensures none { IfSome result (λ asked. IsUnused (found_of given.now) (codes "numbers") → is_numbered asked.run ≡ false) }
    ensures echo { first_value (found_of given.now) (codes "why") ≡ None → IfSome result (λ asked. IsUnused (found_of given.now) (codes "json") → IsUnused (found_of given.now) (codes "numbers") → IsUsed (found_of given.now) (codes "echo") → is_echoed asked.run ≡ true) }
    ensures alone { IfSome result (λ asked. IsUnused (found_of given.now) (codes "echo") → is_echoed asked.run ≡ false) }
{
    let settings = settings_of(given)?;
    let (source, words) = split_words(words_of(given));
    let run = match given.get_str(WHY) {
        Some(word) => {
            let question = read_question(given.get_str(TO), word.as_bytes())?;
            Run::StepWhy(form_of(given), question, settings, words)
        }
        None if given.get_flag(JSON) => {
            Run::Step(Stepped::Json(marks_of(given)), settings, words)
        }
        None if given.get_flag(NUMBERS) => Run::Number(settings, words),
        None if given.get_flag(ECHO) => Run::Echo(settings, words),
        None => Run::Step(Stepped::Text, settings, words),
    };
    Some(Asked { run, source })
}

/// The picture of the run of a script of commands with the settings and the words that are given.
fn draw_of<'a>(given: &'a ArgMatches<'_>) -> Option<Asked<'a>>
    ensures { IfSome result (IsAskedFor (found_of given.now) (codes "draw")) }
{
    let settings = settings_of(given)?;
    let (source, words) = split_words(words_of(given));
    Some(Asked {
        run: Run::Draw(picture_of(given)?, settings, words),
        source,
    })
}

/// The run of a script of sessions over a cluster with the settings and the words that are given, or what is asked of
/// the entries that it leaves.
fn cluster_of<'a>(given: &'a ArgMatches<'_>) -> Option<Asked<'a>>
    ensures { IfSome result (IsAskedFor (found_of given.now) (codes "run")) }
{
    let settings = settings_of(given)?;
    let (source, words) = split_words(words_of(given));
    let run = match given.get_str(WHY) {
        Some(_) => Run::ClusterWhy(inquiry_of(given)?, settings, words),
        None => {
            let options = run_options_of(given, settings)?;
            Run::Cluster(options, chances_of(given)?, settings, words)
        }
    };
    Some(Asked { run, source })
}

/// What is asked once a script of sessions was run, where the options say it.
fn inquiry_of(given: &ArgMatches<'_>) -> Option<Inquiry>
    ensures { IfSome result (IsInquiryGiven (found_of given.now)) }
{
    Some(Inquiry {
        form: form_of(given),
        asked: read_question(given.get_str(TO), given.get_str(WHY)?.as_bytes())?,
        wait_limit: read_wait_limit(given.get_str(WAIT))?,
        chances: chances_of(given)?,
    })
}

/// What `shell` is asked for: how its lines are answered, over a cluster of which settings, what becomes of its frames, and
/// whom it lets in.
#[derive(Clone, Copy)]
pub struct AskedShell<'a> {
    pub options: RunOptions<OutputForm>,
    pub chances: Chances,
    pub settings: Settings,
    pub words: &'a [&'a str],
}

/// What `shell` is asked for, or what is said of options that ask for nothing.
pub fn read_shell<'a>(alloc: Global, given: &'a ArgMatches<'_>) -> Result<AskedShell<'a>, Error>
    ensures { IfOk result (IsShellGiven (found_of given.now)) }
{
    match shell_of(given) {
        Some(asked) => Ok(asked),
        None => Err(fault_of_shell(alloc, given)?),
    }
}

/// What the options and the words of `shell` say, where they say it.
fn shell_of<'a>(given: &'a ArgMatches<'_>) -> Option<AskedShell<'a>>
    ensures { IfSome result (IsShellGiven (found_of given.now)) }
{
    let settings = settings_of(given)?;
    Some(AskedShell {
        options: run_options_of(given, settings)?,
        chances: chances_of(given)?,
        settings,
        words: words_of(given),
    })
}

/// How the commands of a cluster of those settings are answered, where the options say it.
fn run_options_of(given: &ArgMatches<'_>, settings: Settings) -> Option<RunOptions<OutputForm>>
    ensures given { IfSome result (AreRunOptionsGiven (found_of given.now) settings) }
    ensures none { result ≡ None → wait_limit_given (first_value (found_of given.now) (codes "wait")) ≡ None }
{
    let wait_limit = read_wait_limit(given.get_str(WAIT))?;
    let form = output_form_of(
        given,
        Known {
            wait_limit,
            settings,
        },
    );
    Some(RunOptions { wait_limit, form })
}

/// How long a wait looks.
pub(crate) fn read_wait_limit(word: Option<&str>) -> Option<WaitLimit>
    ensures { result ≡ wait_limit_given (option_map (λ text. text.now) word.entry) }
{
    match word {
        None => Some(WaitLimit::Looks),
        Some(word) => {
            let most = read_u32(0, u32::MAX, word.as_bytes())?;
            Some(WaitLimit::Millis(u64::from(most)))
        }
    }
}

/// How the answers of a cluster are shown as text.
fn shown_of(given: &ArgMatches<'_>) -> TextForm
    ensures { IsShownGiven (found_of given.now) result }
{
    if given.get_flag(ECHO) {
        TextForm::Echoed
    } else {
        TextForm::Plain
    }
}

/// The form of the answers of a cluster that the options ask for, where that is known of a wait.
fn output_form_of(given: &ArgMatches<'_>, known: Known) -> OutputForm
    ensures { IsOutputFormGiven (found_of given.now) known result }
{
    let shown = shown_of(given);
    if given.get_flag(JSON) {
        OutputForm::Json
    } else if is_verbose(given) {
        OutputForm::Noted(NotedForm { shown, known })
    } else {
        OutputForm::Text(shown)
    }
}

/// The settings that the options give, where each is a number.
pub(crate) fn settings_of(given: &ArgMatches<'_>) -> Option<Settings>
    ensures { IfSome result (AreSettingsGiven (found_of given.now)) }
{
    Some(Settings {
        ring: given.get_one::<u32>(RING)?,
        nodes: given.get_one::<u8>(NODES)?,
        places: given.get_one::<u32>(PLACES)?,
        hops: given.get_one::<u64>(HOPS)?,
    })
}

/// What becomes of a cluster's frames, as the options say it.
pub(crate) fn chances_of(given: &ArgMatches<'_>) -> Option<Chances>
    ensures { IfSome result (AreChancesGiven (found_of given.now)) }
{
    Some(Chances {
        lose: given.get_one::<u8>(LOSE)?,
        repeat: given.get_one::<u8>(REPEAT)?,
        seed: given.get_one::<u64>(SEED)?,
    })
}

/// The words behind the options, in their order.
pub(crate) fn words_of<'a>(given: &'a ArgMatches<'_>) -> &'a [&'a str]
    ensures { map (λ word. word.now) result.now ≡ words_found (found_of given.now) }
{
    given.get_strs(ACCEPT).unwrap_or(&[])
}

/// Says why nothing is run, and returns the exit status: help and the version, which were asked for, on
/// standard output, and a fault on standard error. That they could not be written is told, unless their reader has left.
pub fn explain<W: Write, E: Write>(
    alloc: Global,
    error: &Error,
    commit: Option<&str>,
    writer: &mut Piped<W>,
    errors: &mut E,
) -> u8
    ensures status { IsStatusOf (kind_of error.now) result }
    ensures streams { SaysByKind (kind_of error.now) result (W.contents (stream_of writer.old)) (W.contents (stream_of writer.new)) (E.contents errors.old) (E.contents errors.new) }
{
    match error.kind() {
        ErrorKind::OutOfMemory => {
            tell(errors, Refusal::Memory);
            1
        }
        ErrorKind::DisplayHelp => show_asked(alloc, error, None, writer, errors),
        ErrorKind::DisplayVersion => show_asked(alloc, error, commit, writer, errors),
        _ => {
            let _ = show(alloc, error, errors);
            2
        }
    }
}

/// Writes what was asked for, and the line of the commit, if there is one, and returns the exit status.
fn show_asked<W: Write, E: Write>(
    alloc: Global,
    error: &Error,
    commit: Option<&str>,
    writer: &mut Piped<W>,
    errors: &mut E,
) -> u8
    ensures status { (result ≡ 0) ⊎ (result ≡ 1) }
    ensures streams { result ≡ 0 → Keeps (E.contents errors.old) (E.contents errors.new) }
{
    match show_with(alloc, error, commit, writer) {
        Ok(()) => 0,
        Err(refusal) => {
            if !writer.has_left() {
                tell(errors, refusal);
            }
            1
        }
    }
}

/// Writes what clap says, and the line of the commit, if there is one.
fn show_with<W: Write>(
    alloc: Global,
    error: &Error,
    commit: Option<&str>,
    writer: &mut Piped<W>,
) -> Result<(), Refusal> {
    show(alloc, error, writer)?;
    match commit {
        None => Ok(()),
        Some(word) => write_commit(alloc, word, writer),
    }
}

/// Writes what clap says.
fn show<W: Write>(alloc: Global, error: &Error, writer: &mut W) -> Result<(), Refusal> {
    let text = format!(in alloc; "{error}")?;
    write_whole(writer, text.as_bytes())
}

/// Tells the refusal on standard error, as far as that is possible.
fn tell<E: Write>(errors: &mut E, refusal: Refusal) {
    let _ = tell_fault(errors, &Fault::from(refusal));
}
