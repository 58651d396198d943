//! `--checked`: scripts that check themselves.
//!
//! What is played, and the exit status, is proved of `cpg_play`. That a file is opened and traces are written is tested.

use crate::asking::{chances_of, read_wait_limit, settings_of, words_of};
use crate::faults::{fault_of, fault_of_shell};
use crate::options::{CHECKED, WAIT};
use crate::sources::{Source, greet, greet_shell, open_file, split_words, tell_unopened};
use crate::tracing::{end_trace, end_untraced, open_trace, trace_of};
use clap::{ArgMatches, Error};
use cpg_console::{Host, KeepsEnds, Piped, Tracer, Untraced};
use cpg_play::{Live, Played, Stage, perform_play};
use cpg_ring::Settings;
use std::alloc::{AllocError, Global};
use std::io::{BufWriter, IsTerminal, Read};

/// A script that checks itself: over what, with which settings, words and words that were given, where it is read from, and
/// where its trace goes.
#[derive(Clone, Copy)]
struct AskedPlay<'a> {
    stage: Stage,
    settings: Settings,
    words: &'a [&'a str],
    given: &'a [&'a str],
    source: Source<'a>,
    trace: Option<&'a str>,
}

/// Whether the subcommand of that name is to play a script that checks itself.
pub fn is_checked(name: &str, given: &ArgMatches<'_>) -> bool {
    matches!(name, "step" | "run" | "shell") && given.get_flag(CHECKED)
}

/// What the subcommand of that name is to play.
fn read_play<'a>(
    alloc: Global,
    name: &str,
    matches: &'a ArgMatches<'_>,
    given: &'a ArgMatches<'_>,
) -> Result<AskedPlay<'a>, Error> {
    match play_of(name, given) {
        Some(asked) => Ok(asked),
        None if name == "shell" => Err(fault_of_shell(alloc, given)?),
        None => Err(fault_of(alloc, matches)?),
    }
}

/// What the subcommand of that name is to play, where its options say it.
fn play_of<'a>(name: &str, given: &'a ArgMatches<'_>) -> Option<AskedPlay<'a>> {
    let settings = settings_of(given)?;
    let stage = stage_of(name, given)?;
    let all = words_of(given);
    let (source, words) = if name == "shell" {
        (Source::Input, all)
    } else {
        split_words(all)
    };
    let trace = if name == "step" {
        None
    } else {
        trace_of(given)
    };
    Some(AskedPlay {
        stage,
        settings,
        words,
        given: all,
        source,
        trace,
    })
}

/// What the subcommand of that name plays over.
fn stage_of(name: &str, given: &ArgMatches<'_>) -> Option<Stage> {
    if name == "step" {
        return Some(Stage::World);
    }
    Some(Stage::Cluster(Live {
        wait_limit: read_wait_limit(given.get_str(WAIT))?,
        chances: chances_of(given)?,
        typed: name == "shell",
    }))
}

/// Whether lines are typed.
fn is_typed(stage: Stage) -> bool {
    matches!(stage, Stage::Cluster(Live { typed: true, .. }))
}

/// The exit status of a script that checks itself, which the subcommand of that name is to play.
pub fn play<H: Host + 'static>(
    rt: &HostRuntime,
    threads: H,
    name: &str,
    matches: &ArgMatches<'_>,
    given: &ArgMatches<'_>,
) -> Result<u8, Error> {
    let asked = read_play(rt.alloc(), name, matches, given)?;
    play_asked(rt, threads, &asked)
}

/// The same of what is asked for.
fn play_asked<H: Host + 'static>(
    rt: &HostRuntime,
    threads: H,
    asked: &AskedPlay<'_>,
) -> Result<u8, Error> {
    match asked.source {
        Source::Input => {
            let at_terminal = rt.stdin().is_terminal();
            if is_typed(asked.stage) {
                greet_shell(&mut rt.stderr(), at_terminal);
            } else {
                greet(&mut rt.stderr(), at_terminal);
            }
            play_traced(rt, threads, asked, &mut rt.stdin())
        }
        Source::File(path) => match open_file(rt, path) {
            Ok(mut file) => play_traced(rt, threads, asked, &mut file),
            Err(why) => {
                let told = &mut rt.stderr();
                Ok(tell_unopened(rt.alloc(), told, Some(asked.given), path, why, false))
            }
        },
    }
}

/// The same of the script that is read there, which is traced where that is asked for.
fn play_traced<H: Host + 'static, R: Read>(
    rt: &HostRuntime,
    threads: H,
    asked: &AskedPlay<'_>,
    reader: &mut R,
) -> Result<u8, Error> {
    let alloc = rt.alloc();
    let Some(path) = asked.trace else {
        return Ok(play_kept(rt, threads, asked, reader, &mut Untraced)?.status());
    };
    match open_trace(rt, alloc, path, &asked.settings, asked.words) {
        Ok((heading, writer)) => {
            let mut tracer = Tracer::new(heading.as_slice(), writer);
            let played = play_kept(rt, threads, asked, reader, &mut tracer)?;
            Ok(end_trace(alloc, &mut rt.stderr(), path, &tracer, played.status()))
        }
        Err(why) => end_untraced(rt, path, why),
    }
}

/// The script played over the process's streams. What a stopped cluster leaves is the keeper's.
fn play_kept<H: Host + 'static, R: Read, K: KeepsEnds>(
    rt: &HostRuntime,
    threads: H,
    asked: &AskedPlay<'_>,
    reader: &mut R,
    keeper: &mut K,
) -> Result<Played, Error> {
    let mut writer = BufWriter::new(rt.alloc(), Piped::new(rt.stdout())).map_err(|_| AllocError)?;
    Ok(perform_play(
        threads,
        rt.alloc(),
        &asked.stage,
        asked.settings,
        asked.words,
        reader,
        &mut writer,
        &mut rt.stderr(),
        keeper,
    ))
}
