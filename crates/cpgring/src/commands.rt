//! The command line.

use crate::help::{
    ABOUT, ACCEPT_ABOUT, ACCEPT_HELP, ACCEPT_MORE, ADMIT_ABOUT, ADMIT_HELP, ADMIT_MORE, DRAW_ABOUT,
    DRAW_HELP, DRAW_MORE, JUDGE_ABOUT, JUDGE_HELP, JUDGE_MORE, MORE, RUN_ABOUT, RUN_HELP, RUN_MORE,
    SHELL_ABOUT, SHELL_HELP, SHELL_MORE, STEP_ABOUT, STEP_HELP, STEP_MORE, WHY_ABOUT, WHY_HELP,
    WHY_MORE,
};
use crate::options::{
    ACCEPT_OPTIONS, ADMIT_OPTIONS, CLUSTER_OPTIONS, COMPLETIONS_OPTIONS, DRAW_OPTIONS, Given,
    JUDGE_OPTIONS, RING_OPTIONS, RUN_OPTIONS, SHELL_OPTIONS, SHELL_WORDS, STEP_OPTIONS,
    WHY_OPTIONS,
};
use clap::Command;
use std::alloc::{AllocError, Global};

/// The version of the program, with the toolchain that proves it.
const VERSION: &str = "0.1.0 (rattle-kit-13f logic dac8208d650f15bf)";

/// The subcommands, in the order in which they are told of.
#[derive(Clone, Copy)]
pub enum Subcommand {
    Judge,
    Why,
    Accept,
    Admit,
    Step,
    Draw,
    Run,
    Shell,
    Completions,
}

const SUBCOMMANDS: [Subcommand; 9] = [
    Subcommand::Judge,
    Subcommand::Why,
    Subcommand::Accept,
    Subcommand::Admit,
    Subcommand::Step,
    Subcommand::Draw,
    Subcommand::Run,
    Subcommand::Shell,
    Subcommand::Completions,
];

/// The command of that name, with what is said of it: in short, at length, and behind its options.
fn named<'a>(
    alloc: Global,
    name: &'a str,
    about: &'a str,
    help: &'a str,
    more: &'a str,
) -> Command<'a> {
    Command::new(alloc, name)
        .about(about)
        .long_about(help)
        .after_long_help(more)
}

impl Subcommand {
    /// How it is called.
    fn call(self) -> &'static str {
        match self {
            Subcommand::Judge => "cpgring judge",
            Subcommand::Why => "cpgring why",
            Subcommand::Accept => "cpgring accept",
            Subcommand::Admit => "cpgring admit",
            Subcommand::Step => "cpgring step",
            Subcommand::Draw => "cpgring draw",
            Subcommand::Run => "cpgring run",
            Subcommand::Shell => "cpgring shell",
            Subcommand::Completions => "cpgring completions",
        }
    }

    /// It without its options.
    fn bare_command<'a>(self, alloc: Global) -> Command<'a> {
        match self {
            Subcommand::Judge => named(alloc, "judge", JUDGE_ABOUT, JUDGE_HELP, JUDGE_MORE),
            Subcommand::Why => named(alloc, "why", WHY_ABOUT, WHY_HELP, WHY_MORE),
            Subcommand::Accept => named(alloc, "accept", ACCEPT_ABOUT, ACCEPT_HELP, ACCEPT_MORE),
            Subcommand::Admit => named(alloc, "admit", ADMIT_ABOUT, ADMIT_HELP, ADMIT_MORE),
            Subcommand::Step => named(alloc, "step", STEP_ABOUT, STEP_HELP, STEP_MORE),
            Subcommand::Draw => named(alloc, "draw", DRAW_ABOUT, DRAW_HELP, DRAW_MORE),
            Subcommand::Run => named(alloc, "run", RUN_ABOUT, RUN_HELP, RUN_MORE),
            Subcommand::Shell => named(alloc, "shell", SHELL_ABOUT, SHELL_HELP, SHELL_MORE),
            Subcommand::Completions => Command::new(alloc, "completions").about(
                "Prints what a shell needs to complete command lines",
            ),
        }
    }

    /// The command with the subcommand's own options and words, in the order in which they are told of.
    fn with_own<'a>(self, alloc: Global, command: Command<'a>) -> Result<Command<'a>, AllocError> {
        match self {
            Subcommand::Judge => with_options(alloc, command, &JUDGE_OPTIONS),
            Subcommand::Why => with_options(alloc, command, &WHY_OPTIONS),
            Subcommand::Accept => with_options(alloc, command, &ACCEPT_OPTIONS),
            Subcommand::Admit => with_options(alloc, command, &ADMIT_OPTIONS),
            Subcommand::Completions => with_options(alloc, command, &COMPLETIONS_OPTIONS),
            _ => self.with_own_behind(alloc, command),
        }
    }

    /// The same of the subcommands over a ring, behind whose options these stand.
    fn with_own_behind<'a>(
        self,
        alloc: Global,
        command: Command<'a>,
    ) -> Result<Command<'a>, AllocError> {
        match self {
            Subcommand::Step => with_options(alloc, command, &STEP_OPTIONS),
            Subcommand::Draw => with_options(alloc, command, &DRAW_OPTIONS),
            Subcommand::Run => with_options(alloc, command, &RUN_OPTIONS),
            _ => with_options(alloc, command, &SHELL_WORDS),
        }
    }

    /// It with the options of the ring or the cluster that it is over.
    fn command_over<'a>(self, alloc: Global) -> Result<Command<'a>, AllocError> {
        let command = self.bare_command(alloc);
        match self {
            Subcommand::Step | Subcommand::Draw => with_ring(alloc, command),
            Subcommand::Run => with_cluster(alloc, with_ring(alloc, command)?),
            Subcommand::Shell => with_cluster(
                alloc,
                with_notes(alloc, with_ring(alloc, command)?)?,
            ),
            _ => Ok(command),
        }
    }

    /// It as clap's, with all its options and words.
    fn command<'a>(self, alloc: Global) -> Result<Command<'a>, AllocError> {
        self.with_own(alloc, self.command_over(alloc)?)
    }
}

/// The command with the options that set a ring up.
fn with_ring<'a>(alloc: Global, command: Command<'a>) -> Result<Command<'a>, AllocError> {
    with_options(alloc, command, &RING_OPTIONS)
}

/// The command with the options of a cluster.
fn with_cluster<'a>(alloc: Global, command: Command<'a>) -> Result<Command<'a>, AllocError> {
    with_options(alloc, command, &CLUSTER_OPTIONS)
}

/// The command with the first options of `shell`.
fn with_notes<'a>(alloc: Global, command: Command<'a>) -> Result<Command<'a>, AllocError> {
    with_options(alloc, command, &SHELL_OPTIONS)
}

/// The command with these options as well.
fn with_options<'a>(
    alloc: Global,
    mut command: Command<'a>,
    given: &[Given],
) -> Result<Command<'a>, AllocError> {
    for option in given {
        command = command.arg(option.arg(alloc)?)?;
    }
    Ok(command)
}

/// The command line without its subcommands.
fn bare_command<'a>(alloc: Global) -> Command<'a> {
    Command::new(alloc, "cpgring")
        .version(VERSION)
        .about(ABOUT)
        .after_help(MORE)
        .subcommand_required(true)
        .arg_required_else_help(true)
}

/// The command line with a subcommand more.
fn with_subcommand<'a>(
    alloc: Global,
    command: Command<'a>,
    one: Subcommand,
) -> Result<Command<'a>, AllocError> {
    command.subcommand(one.command(alloc)?)
}

/// The command line of the program.
pub fn build_command<'a>(alloc: Global) -> Result<Command<'a>, AllocError> {
    let mut command = bare_command(alloc);
    for one in SUBCOMMANDS {
        command = with_subcommand(alloc, command, one)?;
    }
    Ok(command)
}

/// The subcommand alone: its faults show how it is used.
pub fn command_alone<'a>(alloc: Global, one: Subcommand) -> Result<Command<'a>, AllocError> {
    one.command(alloc)?.bin_name(one.call())
}

/// The command line for words of which this is the first. Where it names a subcommand of scripts, no other is asked for
/// or told of, and so none is made: that takes a third of the instructions with which the program starts.
pub fn command_for<'a>(alloc: Global, first: &str) -> Result<Command<'a>, AllocError> {
    let named = match first {
        "judge" => Subcommand::Judge,
        "accept" => Subcommand::Accept,
        "step" => Subcommand::Step,
        "run" => Subcommand::Run,
        _ => return build_command(alloc),
    };
    with_subcommand(alloc, bare_command(alloc), named)
}
