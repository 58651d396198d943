//! The options and words of each subcommand, as tables.

use clap::{Arg, ArgAction, value_parser};
use cpg_cred::MOST_NODES;
use cpg_entry::{MOST_HOPS, MOST_PLACES};
use std::alloc::{AllocError, Global};

/// The options that set a ring up, and the words that let users and groups in.
pub const RING: &str = "ring";

pub const NODES: &str = "nodes";

pub const PLACES: &str = "places";

pub const HOPS: &str = "hops";

pub const ACCEPT: &str = "accept";

/// The file that the script is read from, where no words let users and groups in.
pub const FILE: &str = "file";

/// The option that asks for a picture as lines for a terminal.
pub const TEXT: &str = "text";

/// The option that asks for some rows of a picture.
pub const ROWS: &str = "rows";

/// The option that asks for the rows of a picture that have frames.
pub const FRAMES_ONLY: &str = "frames-only";

/// The option that asks for objects of JSON.
pub const JSON: &str = "json";

/// The option that asks for the numbers of frames.
pub const NUMBERS: &str = "numbers";

/// The words of `why`: the place that is asked of, and the file.
pub const PLACE: &str = "place";

/// The option that asks why each denied entry was denied.
pub const ALL: &str = "all";

/// The option that asks for the way of a connection.
pub const CONNECTION: &str = "connection";

/// The option that asks for the lines of one kind.
pub const ONLY: &str = "only";

/// The option that asks for the lines of one group; of `admit`, the accounts of groups.
pub const GROUP: &str = "group";

/// The option that asks for a hint behind a fault's line, or for what is known where nothing is told.
pub const VERBOSE: &str = "verbose";

/// The option that asks why, of what a script's commands made.
pub const WHY: &str = "why";

/// The option that asks why a connection was told of an entry, or was not.
pub const TO: &str = "to";

/// The option that asks for what happened, as a script that plays it again.
pub const TRACE: &str = "trace";

/// The option that says how long a wait looks.
pub const WAIT: &str = "wait";

/// The options that say what becomes of a cluster's frames.
pub const LOSE: &str = "lose";

pub const REPEAT: &str = "repeat";

pub const SEED: &str = "seed";

/// The option that asks for what an answer is to before each printed line.
pub const ECHO: &str = "echo";

/// The option that asks for a script that checks itself.
pub const CHECKED: &str = "checked";

/// The files of `admit`, and its words.
pub const CONF: &str = "conf";

pub const NAMES: &str = "names";

pub const PASSWD: &str = "passwd";

pub const ASKS: &str = "asks";

/// The word of `completions`.
pub const SHELL: &str = "shell";

/// The numbers that an option takes.
#[derive(Clone, Copy)]
enum Within {
    Rings,
    Nodes,
    Places,
    Hops,
    Percent,
    Seeds,
}

/// What an option, or a word of a subcommand, takes.
#[derive(Clone, Copy)]
enum Takes {
    /// An option that takes nothing.
    Nothing,
    /// An option that takes nothing, and has a letter.
    Letter(char),
    /// An option that takes a word of that name.
    Word(&'static str),
    /// An option that takes a word of that name, and goes with that other one.
    Beside(&'static str, &'static str),
    /// An option that takes a word of that name, and has to be there, once or more.
    Needed(&'static str),
    /// An option that takes a number: the usual one where it is left out.
    Number(Within, &'static str),
    /// A word of that name, if any.
    Last(&'static str),
    /// A word of that name, which has to be there.
    Only(&'static str),
    /// Words of that name.
    Rest(&'static str),
}

/// An option, or a word, of a subcommand: its name, what it takes, what is said of it, and the options that it does not go
/// with.
#[derive(Clone, Copy)]
pub struct Given(&'static str, Takes, &'static str, &'static [&'static str]);

impl Given {
    /// It as clap's.
    pub fn arg<'a>(&self, alloc: Global) -> Result<Arg<'a>, AllocError> {
        let Given(name, takes, help, apart) = *self;
        let mut arg = taking(Arg::new(alloc, name).help(help), name, takes);
        for other in apart {
            arg = arg.conflicts_with(other)?;
        }
        if let Takes::Beside(_, other) = takes {
            arg = arg.requires_arg(other)?;
        }
        Ok(arg)
    }
}

/// The argument of that name, which takes that.
fn taking<'a>(arg: Arg<'a>, name: &'static str, takes: Takes) -> Arg<'a> {
    match takes {
        Takes::Nothing => arg.long(name).action(ArgAction::SetTrue),
        Takes::Letter(letter) => arg.short(letter).long(name).action(ArgAction::SetTrue),
        Takes::Word(word) | Takes::Beside(word, _) => {
            arg.long(name).value_name(word).action(ArgAction::Set)
        }
        Takes::Needed(word) => arg
            .long(name)
            .value_name(word)
            .action(ArgAction::Append)
            .required(true),
        Takes::Number(numbers, usual) => limited(
            arg.long(name)
                .value_name("N")
                .action(ArgAction::Set)
                .default_value(usual),
            numbers,
        ),
        Takes::Last(word) => arg.value_name(word).action(ArgAction::Set),
        Takes::Only(word) => arg.value_name(word).action(ArgAction::Set).required(true),
        Takes::Rest(word) => arg.value_name(word).action(ArgAction::Append),
    }
}

/// The argument, which takes numbers of that range.
fn limited<'a>(arg: Arg<'a>, numbers: Within) -> Arg<'a> {
    match numbers {
        Within::Rings => arg.value_parser(value_parser!(u32)),
        Within::Nodes => { arg.value_parser(value_parser!(u8).range(1..=i64::from(MOST_NODES))) }
        Within::Places => { arg.value_parser(value_parser!(u32).range(1..=i64::from(MOST_PLACES))) }
        Within::Hops => arg.value_parser(value_parser!(u64).range(1..=MOST_HOPS as i64)),
        Within::Percent => arg.value_parser(value_parser!(u8).range(0..=100)),
        Within::Seeds => arg.value_parser(value_parser!(u64)),
    }
}

const AS_JSON: Given = Given(JSON, Takes::Nothing, "Print one object of JSON a line", &[]);

const WITH_HINTS: Given = Given(
    VERBOSE,
    Takes::Letter('v'),
    "Behind a fault's line, show the script's line, what does not fit and what is wanted there",
    &[],
);

const WITH_NOTES: Given = Given(
    VERBOSE,
    Takes::Letter('v'),
    "Behind a none, say what is known",
    &[],
);

const WITH_HINTS_AND_NOTES: Given = Given(
    VERBOSE,
    Takes::Letter('v'),
    "Behind a fault's line, show the script's line and what is wanted there; behind a none, say what is known",
    &[],
);

const SCRIPT: Given = Given(
    FILE,
    Takes::Last("FILE"),
    "The script; - or none: standard input",
    &[],
);

const SCRIPT_AND_ACCEPT: Given = Given(
    ACCEPT,
    Takes::Rest("FILE|ACCEPT"),
    "First or last the script's file, if any; - or none: standard input. Else whom the nodes let in beside uid 0 and gid 0: uid:N or gid:N, each N 0 to 4294967295",
    &[],
);

/// The options that set a ring up.
pub const RING_OPTIONS: [Given; 4] = [
    Given(
        RING,
        Takes::Number(Within::Rings, "1"),
        "The ring's number, which its frames carry, 0 to 4294967295",
        &[],
    ),
    Given(
        NODES,
        Takes::Number(Within::Nodes, "2"),
        "How many nodes there are, 1 to 8",
        &[],
    ),
    Given(
        PLACES,
        Takes::Number(Within::Places, "4096"),
        "How many places there are, 1 to 1048576",
        &[],
    ),
    Given(
        HOPS,
        Takes::Number(Within::Hops, "4611686018427387904"),
        "How many hops the token makes, 1 to 4611686018427387904 (2^62)",
        &[],
    ),
];

/// The options that say what becomes of a cluster's frames, and how its commands are answered.
pub const CLUSTER_OPTIONS: [Given; 7] = [
    Given(
        LOSE,
        Takes::Number(Within::Percent, "0"),
        "How many of 100 frames between nodes are lost, 0 to 100",
        &[],
    ),
    Given(
        REPEAT,
        Takes::Number(Within::Percent, "0"),
        "How many of 100 frames that are not lost come twice, 0 to 100",
        &[],
    ),
    Given(
        SEED,
        Takes::Number(Within::Seeds, "0"),
        "Which frames these are, 0 to 18446744073709551615: the same for the same seed",
        &[],
    ),
    Given(
        WAIT,
        Takes::Word("MS"),
        "How many milliseconds a wait looks at most, 0 to 4294967295; without it a million looks",
        &[],
    ),
    AS_JSON,
    Given(
        ECHO,
        Takes::Nothing,
        "Print before each line the number of its script line and its session",
        &[JSON],
    ),
    Given(
        TRACE,
        Takes::Word("FILE"),
        "Once the nodes have stopped, write all that happened to FILE, as a script for `cpgring step`, and its words to FILE.words",
        &[],
    ),
];

pub const JUDGE_OPTIONS: [Given; 7] = [
    AS_JSON,
    Given(
        ONLY,
        Takes::Word("KIND"),
        "Print lines of that kind alone: denied, verdicts, messages, changes, rules",
        &[JSON],
    ),
    Given(
        GROUP,
        Takes::Word("GROUP"),
        "Print lines of that group alone",
        &[JSON],
    ),
    Given(
        CONNECTION,
        Takes::Word("NODE.CONN"),
        "Print the entries and the inbox of that connection alone",
        &[JSON],
    ),
    Given(
        PLACES,
        Takes::Word("A..B"),
        "Print lines of places A to B alone; A.., ..B and A, too",
        &[JSON],
    ),
    WITH_HINTS,
    SCRIPT,
];

pub const WHY_OPTIONS: [Given; 6] = [
    Given(
        ALL,
        Takes::Nothing,
        "Explain every denied entry",
        &[CONNECTION],
    ),
    Given(
        CONNECTION,
        Takes::Word("NODE.CONN"),
        "Tell the way of that connection",
        &[],
    ),
    Given(
        TO,
        Takes::Word("NODE.CONN|PID"),
        "Explain of the entry at PLACE why that connection, or each of that process, was told of it, or was not",
        &[ALL, CONNECTION],
    ),
    AS_JSON,
    WITH_HINTS,
    Given(
        PLACE,
        Takes::Rest("PLACE|EVENT|FILE"),
        "The entry's place, from 1, or NODE.CONN:EVENT (none with an option), and the script; - or none: standard input",
        &[],
    ),
];

pub const ACCEPT_OPTIONS: [Given; 3] = [AS_JSON, WITH_HINTS, SCRIPT];

pub const ADMIT_OPTIONS: [Given; 8] = [
    Given(
        CONF,
        Takes::Needed("FILE"),
        "A conf file, as /etc/corosync/corosync.conf, or a directory of such; once or more",
        &[],
    ),
    Given(
        NAMES,
        Takes::Word("FILE"),
        "The numbers of names: lines `user NAME N` and `group NAME N`",
        &[],
    ),
    Given(
        PASSWD,
        Takes::Word("FILE"),
        "Accounts of users, as /etc/passwd has them",
        &[NAMES],
    ),
    Given(
        GROUP,
        Takes::Word("FILE"),
        "Accounts of groups, as /etc/group has them",
        &[NAMES],
    ),
    AS_JSON,
    Given(
        ECHO,
        Takes::Nothing,
        "Print before each answer the UID:GID that it is to, in numbers",
        &[],
    ),
    Given(
        VERBOSE,
        Takes::Letter('v'),
        "Behind a file's fault, show its line, what does not fit and what is wanted there",
        &[],
    ),
    Given(
        ASKS,
        Takes::Rest("UID:GID"),
        "Whether these are let in, each a number or a name; none: the list itself is printed",
        &[],
    ),
];

/// What is said of a script that checks itself.
const CHECKS: &str =
    "Take lines `=> TEXT` as well: each tells what is printed next, and what is not so is told, with exit status 1";

pub const STEP_OPTIONS: [Given; 8] = [
    AS_JSON,
    Given(
        ECHO,
        Takes::Nothing,
        "Print before each line the number of its script line and the node or connection that its command is of",
        &[NUMBERS, WHY],
    ),
    Given(
        NUMBERS,
        Takes::Nothing,
        "Print the numbers of the frames that each command sent",
        &[],
    ),
    Given(
        WHY,
        Takes::Word("PLACE"),
        "Explain in place of that the entry at the place; NODE.CONN:EVENT: the one that told it; all: each denial; NODE.CONN: a connection's way",
        &[NUMBERS],
    ),
    Given(
        TO,
        Takes::Beside("NODE.CONN|PID", WHY),
        "With --why=PLACE: explain why that connection, or each of that process, was told of the entry, or was not",
        &[NUMBERS],
    ),
    Given(
        CHECKED,
        Takes::Nothing,
        CHECKS,
        &[JSON, ECHO, NUMBERS, WHY, VERBOSE],
    ),
    WITH_HINTS,
    SCRIPT_AND_ACCEPT,
];

pub const DRAW_OPTIONS: [Given; 5] = [
    Given(
        TEXT,
        Takes::Nothing,
        "Draw lines for a terminal, in place of an SVG",
        &[],
    ),
    Given(
        ROWS,
        Takes::Word("A..B"),
        "Draw rows A to B alone, which are the commands of the script, counted from 1; A.., ..B and A, too",
        &[],
    ),
    Given(
        FRAMES_ONLY,
        Takes::Nothing,
        "Draw rows alone that send a frame or bring one",
        &[],
    ),
    WITH_HINTS,
    SCRIPT_AND_ACCEPT,
];

pub const RUN_OPTIONS: [Given; 5] = [
    Given(
        WHY,
        Takes::Word("PLACE"),
        "Explain in place of that, once all is done, the entry at the place; NODE.CONN:EVENT: the one that told it; all: each denial; NODE.CONN: a connection's way",
        &[ECHO, TRACE],
    ),
    Given(
        TO,
        Takes::Beside("NODE.CONN|PID", WHY),
        "With --why=PLACE: explain why that connection, or each of that process, was told of the entry, or was not",
        &[ECHO, TRACE],
    ),
    Given(CHECKED, Takes::Nothing, CHECKS, &[JSON, ECHO, WHY, VERBOSE]),
    WITH_HINTS_AND_NOTES,
    SCRIPT_AND_ACCEPT,
];

/// The first options of `shell`: its others are those of a ring and of a cluster.
pub const SHELL_OPTIONS: [Given; 2] = [
    WITH_NOTES,
    Given(CHECKED, Takes::Nothing, CHECKS, &[JSON, ECHO, VERBOSE]),
];

pub const SHELL_WORDS: [Given; 1] = [Given(
    ACCEPT,
    Takes::Rest("ACCEPT"),
    "Whom the nodes let in beside uid 0 and gid 0: uid:N or gid:N, each N 0 to 4294967295",
    &[],
)];

pub const COMPLETIONS_OPTIONS: [Given; 1] = [Given(
    SHELL,
    Takes::Only("SHELL"),
    "bash, zsh or fish",
    &[],
)];
