//! What is said of a command line that asks for nothing that can be run: the word at fault, what is wanted there, and how
//! the subcommand is used.
//!
//! The form is that of clap's own faults. The texts are held by examples.

use crate::asking::read_wait_limit;
use crate::commands::{Subcommand, build_command, command_alone};
use crate::excerpts::rows_of;
use crate::filtering::{kind_of, places_of};
use crate::options::{CONNECTION, GROUP, ONLY, PLACE, PLACES, ROWS, TO, WAIT, WHY};
use crate::questions::{read_conn, read_entry, read_question};
use clap::error::ErrorKind;
use clap::{ArgMatches, Error};
use cpg_entry::accepts_name;
use std::alloc::{AllocError, Global};

/// A word that says nothing.
#[derive(Clone, Copy)]
struct Wrong<'a> {
    /// What takes it, as the usage names it.
    taken_by: &'static str,
    word: &'a str,
    wanted: &'static str,
}

const CONN_WANTED: &str = "a node from 1 to 8, a dot, and a connection from 1 to 65535";

const WHOM_WANTED: &str =
    "NODE.CONN, NODE from 1 to 8, CONN from 1 to 65535, or a process's number from 0 to 4294967295";

const QUESTION_WANTED: &str =
    "a place from 1, NODE.CONN:EVENT, NODE.CONN, or all; NODE from 1 to 8, CONN from 1 to 65535, EVENT from 1";

const MILLIS_WANTED: &str = "milliseconds from 0 to 4294967295";

/// What is said of a command line that asks for nothing.
pub fn fault_of(alloc: Global, matches: &ArgMatches<'_>) -> Result<Error, AllocError> {
    match matches.subcommand() {
        Some(("judge", given)) => say(alloc, Subcommand::Judge, wrong_of_judge(given)),
        Some(("why", given)) => fault_of_why(alloc, given),
        Some(("step", given)) => say(alloc, Subcommand::Step, wrong_question(given)),
        Some(("draw", given)) => say(alloc, Subcommand::Draw, wrong_rows(given)),
        Some(("run", given)) => say(alloc, Subcommand::Run, wrong_of_run(given)),
        _ => build_command(alloc)?.error(
            ErrorKind::MissingSubcommand,
            "a subcommand is required but one was not provided",
        ),
    }
}

/// What is said of a command line of `shell` that asks for nothing.
pub fn fault_of_shell(alloc: Global, given: &ArgMatches<'_>) -> Result<Error, AllocError> {
    say(alloc, Subcommand::Shell, wrong_wait(given))
}

/// What is said of a shell that there is no text for.
pub fn fault_of_completions(alloc: Global, shell: &str) -> Result<Error, AllocError> {
    let wrong = Wrong {
        taken_by: "<SHELL>",
        word: shell,
        wanted: "bash, zsh or fish",
    };
    say(alloc, Subcommand::Completions, Some(wrong))
}

/// What is said of a word of `admit` that asks of nobody.
pub fn fault_of_ask(alloc: Global, word: &str) -> Result<Error, AllocError> {
    let wrong = Wrong {
        taken_by: "[UID:GID]...",
        word,
        wanted: "UID and GID are each a number from 0 to 4294967295, or a name that the files have",
    };
    say(alloc, Subcommand::Admit, Some(wrong))
}

/// What is said of the wrong word.
fn say(
    alloc: Global,
    subcommand: Subcommand,
    wrong: Option<Wrong<'_>>,
) -> Result<Error, AllocError> {
    let mut command = command_alone(alloc, subcommand)?;
    match wrong {
        None => command.error(ErrorKind::InvalidValue, "a word says nothing"),
        Some(
            Wrong {
                taken_by,
                word,
                wanted,
            },
        ) => {
            let text = format!(in alloc; "invalid value '{word}' for '{taken_by}': {wanted}")?;
            command.error(ErrorKind::InvalidValue, text.as_str())
        }
    }
}

/// The first word of a filter that says nothing.
fn wrong_of_judge<'a>(given: &'a ArgMatches<'_>) -> Option<Wrong<'a>> {
    match given.get_str(ONLY) {
        Some(word) if kind_of(word.as_bytes()).is_none() => {
            return Some(Wrong {
                taken_by: "--only <KIND>",
                word,
                wanted: "denied, verdicts, messages, changes or rules",
            });
        }
        _ => {}
    }
    match given.get_str(GROUP) {
        Some(word) if !accepts_name(word.as_bytes()) => Some(Wrong {
            taken_by: "--group <GROUP>",
            word,
            wanted: "1 to 128 printing ASCII characters",
        }),
        _ => wrong_of_entries(given),
    }
}

/// The same of the options that say which entries.
fn wrong_of_entries<'a>(given: &'a ArgMatches<'_>) -> Option<Wrong<'a>> {
    match wrong_connection(given) {
        Some(wrong) => Some(wrong),
        None => match given.get_str(PLACES) {
            Some(word) if places_of(word.as_bytes()).is_none() => Some(Wrong {
                taken_by: "--places <A..B>",
                word,
                wanted: "A..B, A.., ..B or A, each a number from 1 to 4294967295",
            }),
            _ => None,
        },
    }
}

fn wrong_connection<'a>(given: &'a ArgMatches<'_>) -> Option<Wrong<'a>> {
    match given.get_str(CONNECTION) {
        Some(word) if read_conn(word.as_bytes()).is_none() => Some(Wrong {
            taken_by: "--connection <NODE.CONN>",
            word,
            wanted: CONN_WANTED,
        }),
        _ => None,
    }
}

fn wrong_question<'a>(given: &'a ArgMatches<'_>) -> Option<Wrong<'a>> {
    match given.get_str(WHY) {
        Some(word) if read_question(None, word.as_bytes()).is_none() => Some(Wrong {
            taken_by: "--why <PLACE>",
            word,
            wanted: QUESTION_WANTED,
        }),
        Some(word) => wrong_to(given, word),
        None => None,
    }
}

/// A connection or a process that is none, or that is named beside a question of no place.
fn wrong_to<'a>(given: &'a ArgMatches<'_>, question: &str) -> Option<Wrong<'a>> {
    let word = given.get_str(TO)?;
    let wanted = if read_entry(Some(word), b"1").is_none() {
        WHOM_WANTED
    } else if read_question(Some(word), question.as_bytes()).is_none() {
        "it goes with one PLACE, a number from 1"
    } else {
        return None;
    };
    Some(Wrong {
        taken_by: "--to <NODE.CONN|PID>",
        word,
        wanted,
    })
}

/// Rows of a picture that are none.
fn wrong_rows<'a>(given: &'a ArgMatches<'_>) -> Option<Wrong<'a>> {
    let word = given.get_str(ROWS)?;
    match rows_of(word.as_bytes()) {
        Some(_) => None,
        None => Some(Wrong {
            taken_by: "--rows <A..B>",
            word,
            wanted: "A..B, A.., ..B or A, each a number from 1 to 4294967295, A not behind B",
        }),
    }
}

fn wrong_wait<'a>(given: &'a ArgMatches<'_>) -> Option<Wrong<'a>> {
    let word = given.get_str(WAIT)?;
    match read_wait_limit(Some(word)) {
        Some(_) => None,
        None => Some(Wrong {
            taken_by: "--wait <MS>",
            word,
            wanted: MILLIS_WANTED,
        }),
    }
}

fn wrong_of_run<'a>(given: &'a ArgMatches<'_>) -> Option<Wrong<'a>> {
    match wrong_question(given) {
        Some(wrong) => Some(wrong),
        None => wrong_wait(given),
    }
}

/// What is said of a command line of `why` that asks for nothing: a connection or an entry that is none, no word where one
/// is needed, or one too many.
fn fault_of_why(alloc: Global, given: &ArgMatches<'_>) -> Result<Error, AllocError> {
    let words = given.get_strs(PLACE).unwrap_or(&[]);
    let needed = given.get_str(CONNECTION).is_none() && !given.get_flag(crate::options::ALL);
    match wrong_connection(given) {
        Some(wrong) => say(alloc, Subcommand::Why, Some(wrong)),
        None => match words {
            [] => none_asked(alloc),
            [first, ..] if needed && read_entry(None, first.as_bytes()).is_none() => {
                say(alloc, Subcommand::Why, Some(wrong_entry(first)))
            }
            [first, ..] if needed && wrong_to(given, first).is_some() => {
                say(alloc, Subcommand::Why, wrong_to(given, first))
            }
            [_, second, rest @ ..] => match rest.first() {
                Some(third) if needed => too_many(alloc, third),
                _ => too_many(alloc, second),
            },
            [first] => too_many(alloc, first),
        },
    }
}

fn wrong_entry(word: &str) -> Wrong<'_> {
    Wrong {
        taken_by: "<PLACE|EVENT>",
        word,
        wanted: "a place from 1, or NODE.CONN:EVENT, NODE from 1 to 8, CONN from 1 to 65535, EVENT from 1",
    }
}

/// What is said where `why` is asked of nothing.
fn none_asked(alloc: Global) -> Result<Error, AllocError> {
    command_alone(alloc, Subcommand::Why)?.error(
        ErrorKind::MissingRequiredArgument,
        "one of PLACE, NODE.CONN:EVENT, --all and --connection <NODE.CONN> is required",
    )
}

/// What is said of a word more than `why` takes.
fn too_many(alloc: Global, word: &str) -> Result<Error, AllocError> {
    let text = format!(in alloc; "unexpected argument '{word}' found")?;
    command_alone(alloc, Subcommand::Why)?.error(ErrorKind::UnknownArgument, text.as_str())
}
