//! Scripts of `run` and lines of `shell`.
//!
//! Proved: a deed that is a command of `run`, or a wait with a time of its own, is answered as `cpg_cluster` answers it, and
//! prints that answer.

ghost use Rattle.std.specs.Prelude.{◌≡◌, [], OnOk, IsOkUnless};
ghost use Rattle.cpg_cluster.specs.Answers.{no_sessions};
ghost use Rattle.cpg_cluster.specs.Commands.{IsWithin};
ghost use Rattle.cpg_cluster.specs.Steps.{AreWithin};
ghost use Rattle.cpg_play.specs.Deeds.{IsAnswered, IsDeedDone, IsDeedWithin};

use crate::deeds::{Deed, read_deed};
use crate::names::Names;
use crate::switches::Switches;
use crate::walks::Plays;
use cpg_cluster::shell::HELP;
use cpg_cluster::{
    Ask, Command, Numbered, PLAIN, PutsAnswer, Reply, Sessions, TextForm, WaitLimit,
    answer_with_memory, put_answer,
};
use cpg_cred::Refusal;
use cpg_daemon::{HistoryName, Running};
use cpg_text::{is, put};
use std::alloc::Global;
use std::marker::Model;
use std::sync::Wait;
use std::time::Clock;

/// What `help` lists behind the commands of `shell`.
const MORE_HELP: &str = "\
connect .. as NAME         the same, and NAME stands for the session's number from then on
wait S MS                  session S waits so many milliseconds for the next event
drain S                    session S takes all events that have come
hold NODE, let NODE        the node's turns wait, and go on
cut NODE NODE              all frames between the two nodes are lost
mend NODE NODE             and come again
=> TEXT                    the next line that the command before prints is TEXT; alone: there is none
";

/// The commands of sessions over running nodes. Contracts see how many nodes there are, and the sessions.
#[derive(Drop)]
pub struct OverCluster<'a, H, B: HistoryName, G> {
    rt: &'a H,
    running: &'a Running<B, G>,
    switches: &'a Switches,
    wait_limit: WaitLimit,
    sessions: Sessions<B>,
    names: Names,
    typed: bool,
}

impl<'a, H, B: HistoryName, G> Model for OverCluster<'a, H, B, G> {
    ghost use Rattle.cpg_cluster.specs.Steps.{AreWithin};
    ghost use Rattle.cpg_play.specs.Deeds.{PlayerValue};

    ghost Value = { PlayerValue };

    ghost view = { λ player. record { nodes = player.running.now.nodes; sessions = player.sessions } };

    ghost invariant = { λ player. AreWithin player.running.now.nodes player.sessions.slots };
}

impl<'a, H, B: HistoryName, G> OverCluster<'a, H, B, G> {
    /// Before the first command. Where lines are typed, `help` is one.
    pub fn new(
        rt: &'a H,
        alloc: Global,
        running: &'a Running<B, G>,
        switches: &'a Switches,
        wait_limit: WaitLimit,
        typed: bool,
    ) -> OverCluster<'a, H, B, G>
        ensures { result ≡ record { nodes = running.now.nodes; sessions = no_sessions } }
    {
        OverCluster {
            rt,
            running,
            switches,
            wait_limit,
            sessions: Sessions::none(alloc),
            names: Names::none(alloc),
            typed,
        }
    }
}

/// The number of a session that was just given; 0 where none was.
fn number_of(answer: &Result<Reply, Refusal>) -> u32 {
    match answer {
        Ok(Reply::Opened(number)) => u32::try_from(*number).unwrap_or(0),
        _ => 0,
    }
}

/// Does a command with that wait limit, puts what is printed of its answer, and returns the number of the session that it
/// gave, if it gave one.
#[tactic(auto, using(cpg_cluster::proofs::Doing::answer_done))]
fn command<B: HistoryName, G, H: Wait + Clock>(
    rt: &H,
    alloc: Global,
    text: &mut Vec<u8>,
    running: &Running<B, G>,
    sessions: &mut Sessions<B>,
    wait_limit: WaitLimit,
    command: Command,
) -> Result<u32, Refusal>
    requires command { IsWithin running.now.nodes command }
    requires within { AreWithin running.now.nodes sessions.old.slots }
    requires none { text.old.items ≡ [] }
    ensures ok { OnOk result (IsAnswered B.start sessions.old command text.new.items sessions.new) }
    ensures within { AreWithin running.now.nodes sessions.new.slots }
    ensures memory { IsOkUnless result Refusal.Memory }
{
    let line = Numbered { number: 0, command };
    let answer = answer_with_memory(rt, alloc, running, wait_limit, sessions, &line.command)?;
    TextForm::Plain.put(alloc, text, running.board(), &line, &answer)?;
    Ok(number_of(&answer))
}

/// Takes all events of a session that have come, and puts what is printed of each.
fn drain<B: HistoryName, G, H: Wait + Clock>(
    rt: &H,
    alloc: Global,
    text: &mut Vec<u8>,
    running: &Running<B, G>,
    sessions: &mut Sessions<B>,
    number: u32,
) -> Result<(), Refusal>
    requires within { AreWithin running.now.nodes sessions.old.slots }
    ensures within { AreWithin running.now.nodes sessions.new.slots }
    ensures memory { IsOkUnless result Refusal.Memory }
{
    let command = Command::Ask(number, Ask::Wait);
    for _ in 0..u64::MAX {
        let wait_limit = WaitLimit::Millis(0);
        let answer = answer_with_memory(rt, alloc, running, wait_limit, sessions, &command)?;
        if matches!(&answer, Ok(Reply::Nothing(_))) {
            break;
        }
        put_answer(alloc, text, running.board(), &answer)?;
        if answer.is_err() {
            break;
        }
    }
    Ok(())
}

impl<H: Wait + Clock, B: HistoryName, G> OverCluster<'_, H, B, G> {
    /// Does what a line says, and puts what that prints.
    fn do_deed(&mut self, alloc: Global, text: &mut Vec<u8>, deed: Deed) -> Result<(), Refusal>
        requires deed { IsDeedWithin self.old.nodes deed }
        requires none { text.old.items ≡ [] }
        ensures ok { OnOk result (IsDeedDone B.start self.old.sessions deed text.new.items self.new.sessions) }
        ensures nodes { self.new.nodes ≡ self.old.nodes }
        ensures memory { IsOkUnless result Refusal.Memory }
    {
        let (rt, running, sessions) = (self.rt, self.running, &mut self.sessions);
        match deed {
            Deed::Command(asked) => {
                command(rt, alloc, text, running, sessions, self.wait_limit, asked)?;
                Ok(())
            }
            Deed::Named(asked, name) => {
                let wait_limit = PLAIN.wait_limit;
                let number = command(rt, alloc, text, running, sessions, wait_limit, asked)?;
                self.names.give(name, number)
            }
            Deed::Wait(number, millis) => {
                let asked = Command::Ask(number, Ask::Wait);
                let wait_limit = WaitLimit::Millis(millis);
                command(rt, alloc, text, running, sessions, wait_limit, asked)?;
                Ok(())
            }
            Deed::Drain(number) => drain(rt, alloc, text, running, sessions, number),
            Deed::Turn(switch) => {
                self.switches.turn(switch);
                Ok(())
            }
        }
    }

    /// Notes the name that a line is to give a session, whose number is not known yet.
    fn note(&mut self, deed: Deed) -> Result<(), Refusal>
        ensures same { self.new ≡ self.old }
        ensures memory { IsOkUnless result Refusal.Memory }
    {
        match deed {
            Deed::Named(command, name) => {
                drop(command);
                self.names.give(name, 0)
            }
            _ => Ok(()),
        }
    }
}

/// Puts what `help` lists.
fn put_help(text: &mut Vec<u8>) -> Result<(), Refusal>
    ensures { IsOkUnless result Refusal.Memory }
{
    put(text, HELP)?;
    put(text, MORE_HELP)
}

impl<H: Wait + Clock, B: HistoryName, G> Plays for OverCluster<'_, H, B, G> {
    ghost use Rattle.std.specs.Prelude.{◌≡◌};

    ghost does = { λ old line said text new. new.nodes ≡ old.nodes };

    fn is_live(&self) -> bool {
        true
    }

    fn reads(&mut self, alloc: Global, line: &[u8]) -> Result<bool, Refusal> {
        match read_deed(alloc, self.running.nodes(), &self.names, line)? {
            None => Ok(false),
            Some(deed) => {
                self.note(deed)?;
                Ok(true)
            }
        }
    }

    fn plays(&mut self, alloc: Global, line: &[u8], text: &mut Vec<u8>) -> Result<bool, Refusal> {
        if self.typed && is(line, b"help".as_slice()) {
            put_help(text)?;
            return Ok(true);
        }
        match read_deed(alloc, self.running.nodes(), &self.names, line)? {
            None => Ok(false),
            Some(deed) => {
                self.do_deed(alloc, text, deed)?;
                Ok(true)
            }
        }
    }
}
