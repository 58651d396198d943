//! The program `cpgring`: its command line, and its streams and exit status round `perform`.
//!
//! Nothing is decided here: what a run writes, and its status, is proved of `cpg_console`. Exit status: 0
//! done, 1 a fault (told on standard error), 2 a fault of the command line.
#![tactic(auto)]

mod admitting;
mod asking;
mod commands;
mod completions;
mod excerpts;
mod faults;
mod filtering;
mod folders;
mod help;
mod loading;
mod options;
mod playing;
mod questions;
mod sources;
mod tracing;
mod versions;

use admitting::{admit_options_of, asks_of, files_of};
use asking::{
    AskedShell, explain, is_verbose, match_words, read_asked, read_shell, read_words, words_of,
};
use clap::{ArgMatches, Error};
use completions::completion_of;
use cpg_console::{
    Counted, Ended, Host, KeepsEnds, Piped, Run, Tracer, Untraced, perform, perform_admit,
    perform_shell, perform_with_hint, write_text,
};
use faults::{fault_of_ask, fault_of_completions};
use folders::{NotLoaded, conf_paths};
use loading::Loaded;
use options::SHELL;
use playing::{is_checked, play};
use sources::{Source, greet, greet_shell, open_file, tell_unopened, tell_unread};
use std::alloc::{AllocError, Global};
use std::io::{BufWriter, IsTerminal, Read, Write};
use std::process::ExitCode;
use std::rt::Stderr;
use std::sync::Wait;
use std::thread::Threads;
use std::time::Clock;
use tracing::{end_trace, end_untraced, open_trace, trace_of, traced_world};
use versions::said_commit;

fn main(rt: HostRuntime) -> ExitCode {
    let status = match start(&rt, rt) {
        Ok(status) => status,
        Err(error) => explain(
            rt.alloc(),
            &error,
            said_commit(&rt).as_deref(),
            &mut Piped::new(rt.stdout()),
            &mut rt.stderr(),
        ),
    };
    ExitCode::from(status)
}

/// The exit status of what the command line asks for, over the process's streams and files, with the handle for
/// what starts threads.
fn start<H: Threads + Wait + Clock + Copy + Send + 'static>(
    rt: &HostRuntime,
    threads: H,
) -> Result<u8, Error> {
    let words = read_words(rt)?;
    let matches = match_words(rt.alloc(), words.as_slice())?;
    match matches.subcommand() {
        Some(("admit", given)) => admit(rt, given),
        Some(("completions", given)) => complete(rt, given),
        Some((name, given)) if is_checked(name, given) => {
            play(rt, threads, name, &matches, given)
        }
        Some(("shell", given)) => shell(rt, threads, given),
        Some(("run", given)) => { run(rt, threads, &matches, is_verbose(given), trace_of(given)) }
        Some((_, given)) => run(rt, threads, &matches, is_verbose(given), None),
        None => run(rt, threads, &matches, false, None),
    }
}

/// The exit status of the run that the command line asks for.
fn run<H: Host + 'static>(
    rt: &HostRuntime,
    threads: H,
    matches: &ArgMatches<'_>,
    verbose: bool,
    trace: Option<&str>,
) -> Result<u8, Error> {
    let alloc = rt.alloc();
    let asked = read_asked(alloc, matches)?;
    match asked.source {
        Source::Input => {
            greet(&mut rt.stderr(), rt.stdin().is_terminal());
            run_over(rt, threads, &asked.run, verbose, trace, &mut rt.stdin())
        }
        Source::File(path) => match open_file(rt, path) {
            Ok(mut file) => run_over(rt, threads, &asked.run, verbose, trace, &mut file),
            Err(why) => {
                let told = &mut rt.stderr();
                let words = words_with(matches, &asked.run);
                Ok(tell_unopened(alloc, told, words, path, why, verbose))
            }
        },
    }
}

/// The words behind the options, where some that let users and groups in go with the run.
fn words_with<'a>(matches: &'a ArgMatches<'_>, run: &Run<'_>) -> Option<&'a [&'a str]> {
    match run {
        Run::Judge(_) | Run::JudgeOnly(_) | Run::Why(..) | Run::Accept(_) => None,
        _ => {
            let (_, given) = matches.subcommand()?;
            Some(words_of(given))
        }
    }
}

/// The exit status of the run of a script, which is traced where that is asked for.
fn run_over<H: Host + 'static, R: Read>(
    rt: &HostRuntime,
    threads: H,
    run: &Run<'_>,
    verbose: bool,
    trace: Option<&str>,
    reader: &mut R,
) -> Result<u8, Error> {
    let alloc = rt.alloc();
    let (Some(path), Some((settings, words))) = (trace, traced_world(run)) else {
        return Ok(run_kept(rt, threads, run, verbose, reader, &mut Untraced)?.status());
    };
    match open_trace(rt, alloc, path, &settings, words) {
        Ok((heading, writer)) => {
            let mut tracer = Tracer::new(heading.as_slice(), writer);
            let ended = run_kept(rt, threads, run, verbose, reader, &mut tracer)?;
            Ok(end_trace(alloc, &mut rt.stderr(), path, &tracer, ended.status()))
        }
        Err(why) => end_untraced(rt, path, why),
    }
}

/// The run of a script over the process's streams. What a stopped cluster leaves is the keeper's.
fn run_kept<H: Host + 'static, R: Read, K: KeepsEnds>(
    rt: &HostRuntime,
    threads: H,
    run: &Run<'_>,
    verbose: bool,
    reader: &mut R,
    keeper: &mut K,
) -> Result<Ended, Error> {
    let stream = Counted::new(rt.stdout(), progress_of(rt, run), threads);
    let mut writer = BufWriter::new(rt.alloc(), Piped::new(stream)).map_err(|_| AllocError)?;
    Ok(run_to(
        threads,
        rt.alloc(),
        run,
        verbose,
        reader,
        &mut writer,
        &mut rt.stderr(),
        keeper,
    ))
}

/// The run of a script over these streams, with a hint behind a fault's line where that is asked for.
fn run_to<H: Host + 'static, R: Read, W: Write + Drop, E: Write, K: KeepsEnds>(
    threads: H,
    alloc: Global,
    run: &Run<'_>,
    verbose: bool,
    reader: &mut R,
    writer: &mut BufWriter<Piped<W>>,
    errors: &mut E,
    keeper: &mut K,
) -> Ended {
    if verbose {
        perform_with_hint(threads, alloc, run, reader, writer, errors, keeper)
    } else {
        perform(threads, alloc, run, reader, writer, errors, keeper)
    }
}

/// Where the progress of a judgement is told: on standard error, where that is a terminal and standard output is none.
fn progress_of(rt: &HostRuntime, run: &Run<'_>) -> Option<Stderr> {
    let shows = rt.stderr().is_terminal() && !rt.stdout().is_terminal();
    match run {
        Run::Judge(_) | Run::JudgeOnly(_) if shows => Some(rt.stderr()),
        _ => None,
    }
}

/// The exit status of `admit`: its files are read, and whom they let in is printed.
fn admit(rt: &HostRuntime, given: &ArgMatches<'_>) -> Result<u8, Error> {
    let files = files_of(given);
    match conf_paths(rt, files.confs) {
        Ok(paths) => match Loaded::read(rt, paths.as_slice(), &files) {
            Ok(loaded) => admit_loaded(rt, given, &loaded),
            Err(why) => end_unloaded(rt, why),
        },
        Err(why) => end_unloaded(rt, why),
    }
}

/// The exit status of `admit` whose files are not read, which is told.
fn end_unloaded(rt: &HostRuntime, why: NotLoaded) -> Result<u8, Error> {
    match why {
        NotLoaded::Memory => Err(Error::from(AllocError)),
        NotLoaded::Unread(path, why) => {
            Ok(tell_unread(rt.alloc(), &mut rt.stderr(), path.as_str(), why))
        }
    }
}

/// The exit status of `admit` over the files that were read.
fn admit_loaded(
    rt: &HostRuntime,
    given: &ArgMatches<'_>,
    loaded: &Loaded<'_>,
) -> Result<u8, Error> {
    let alloc = rt.alloc();
    let confs = loaded.confs(alloc)?;
    let words = asks_of(given);
    let ended = perform_admit(
        alloc,
        &admit_options_of(given),
        &loaded.admission(confs.as_slice()),
        words,
        &mut Piped::new(rt.stdout()),
        &mut rt.stderr(),
    );
    match ended {
        Ok(status) => Ok(status),
        Err(index) => Err(fault_of_ask(alloc, words.get(index).copied().unwrap_or(""))?),
    }
}

/// The exit status of `shell`: what is typed is answered.
fn shell<H: Host + 'static>(
    rt: &HostRuntime,
    threads: H,
    given: &ArgMatches<'_>,
) -> Result<u8, Error> {
    let alloc = rt.alloc();
    let asked = read_shell(alloc, given)?;
    let Some(path) = trace_of(given) else {
        return Ok(shell_kept(rt, threads, &asked, &mut Untraced)?.status());
    };
    match open_trace(rt, alloc, path, &asked.settings, asked.words) {
        Ok((heading, writer)) => {
            let mut tracer = Tracer::new(heading.as_slice(), writer);
            let ended = shell_kept(rt, threads, &asked, &mut tracer)?;
            Ok(end_trace(alloc, &mut rt.stderr(), path, &tracer, ended.status()))
        }
        Err(why) => end_untraced(rt, path, why),
    }
}

/// The shell over the process's streams. What the stopped cluster leaves is the keeper's.
fn shell_kept<H: Host + 'static, K: KeepsEnds>(
    rt: &HostRuntime,
    threads: H,
    asked: &AskedShell<'_>,
    keeper: &mut K,
) -> Result<Ended, Error> {
    let alloc = rt.alloc();
    greet_shell(&mut rt.stderr(), rt.stdin().is_terminal());
    let mut writer = BufWriter::new(alloc, Piped::new(rt.stdout())).map_err(|_| AllocError)?;
    Ok(perform_shell(
        threads,
        alloc,
        &asked.options,
        asked.chances,
        asked.settings,
        asked.words,
        &mut rt.stdin(),
        &mut writer,
        &mut rt.stderr(),
        keeper,
    ))
}

/// The exit status of `completions`: the text of the shell is printed.
fn complete(rt: &HostRuntime, given: &ArgMatches<'_>) -> Result<u8, Error> {
    match completion_of(given.get_str(SHELL).unwrap_or("")) {
        Some(text) => Ok(write_text(
            &mut Piped::new(rt.stdout()),
            &mut rt.stderr(),
            text.as_bytes(),
        )),
        None => {
            let word = given.get_str(SHELL).unwrap_or("");
            Err(fault_of_completions(rt.alloc(), word)?)
        }
    }
}
