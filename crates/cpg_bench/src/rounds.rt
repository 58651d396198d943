//! A round of the soak: a cluster, the commands of its sessions, and what is left of it.

ghost use Rattle.std.specs.Prelude.{◌≡◌};
ghost use Rattle.cpg_world_laws.specs.Worlds.{new_world};
ghost use Rattle.cpg_history.specs.Members.{HaveSeen};
ghost use Rattle.cpg_cluster.specs.Steps.{AreWithin};

use crate::gates::{Chance, Fates, Notes, gate_of};
use cpg_board::Board;
use cpg_cluster::trace::{recorded_by, write_trace};
use cpg_cluster::{
    Numbered, RunOptions, Sessions, TextForm, WaitLimit, command_in_line, do_command, hand_on,
};
use cpg_cred::{AcceptList, Refusal};
use cpg_daemon::{Cluster, Front, HistoryName, Member, Running};
use cpg_node::Settings;
use cpg_print::{put_audit, put_count};
use cpg_record::Record;
use cpg_text::{push_number, put, write_whole};
use std::alloc::Global;
use std::io::{Lines, StdinLock, Write};
use std::sync::Wait;
use std::sync::atomic::{AtomicU64, Ordering};
use std::thread::Threads;
use std::time::Clock;

/// The places of the ring: more than a round's commands.
pub const PLACES: u32 = 16_384;

/// What a round is made of.
#[derive(Debug, Clone, Copy)]
pub struct Plan {
    pub nodes: u8,
    pub seed: u64,
    /// Whether all that happened is printed, too.
    pub traced: bool,
}

/// How a command is answered: a `wait` looks once.
const AT_ONCE: RunOptions<TextForm> = RunOptions {
    wait_limit: WaitLimit::Millis(0),
    form: TextForm::Plain,
};

/// What the line's command prints.
fn answer<B: HistoryName, R: Wait + Clock>(
    rt: &R,
    alloc: Global,
    running: &Running<B, Fates>,
    sessions: &mut Sessions<B>,
    line: &[u8],
) -> Result<Vec<u8>, Refusal>
    requires { AreWithin running.now.nodes sessions.old.slots }
    ensures { AreWithin running.now.nodes sessions.new.slots }
{
    let mut text = Vec::new(alloc);
    match command_in_line(alloc, running.nodes(), line)? {
        None => put(&mut text, "no command\n")?,
        Some(command) => {
            let numbered = Numbered { number: 1, command };
            do_command(rt, alloc, &mut text, running, sessions, &AT_ONCE, &numbered)?;
        }
    }
    Ok(text)
}

/// Writes the text and hands it on.
fn write_out<W: Write>(writer: &mut W, text: &[u8]) -> Result<(), Refusal> {
    write_whole(writer, text)?;
    hand_on(writer)
}

/// Answers the commands of the lines over running nodes, up to the line `stop`.
fn answer_all<B: HistoryName, R: Wait + Clock, W: Write>(
    rt: &R,
    alloc: Global,
    running: &Running<B, Fates>,
    lines: &mut Lines<StdinLock<'_>, Global>,
    writer: &mut W,
) -> Result<(), Refusal> {
    let mut sessions = Sessions::none(alloc);
    for _ in 0..u64::MAX {
        match lines.next() {
            Some(Ok(line)) if line.as_str() != "stop" => {
                let line = line.as_str().as_bytes();
                let text = answer(rt, alloc, running, &mut sessions, line)?;
                write_out(writer, text.as_slice())?;
            }
            _ => break,
        }
    }
    Ok(())
}

/// Puts the audit of a station.
fn put_station(text: &mut Vec<u8>, records: &[Record]) -> Result<(), Refusal> {
    let mut place = 0u32;
    for past in records {
        place = place.saturating_add(1);
        put_audit(text, place, past)?;
    }
    put_count(text, place)
}

/// Puts what the gate did.
fn put_notes(text: &mut Vec<u8>, notes: &Notes) -> Result<(), Refusal> {
    put(text, "gate")?;
    for number in [&notes.frames, &notes.lost, &notes.repeated, &notes.held] {
        put(text, " ")?;
        push_number(text, number.load(Ordering::SeqCst))?;
    }
    put(text, "\n")
}

/// What is left of a cluster that was stopped: the audits, what the gate did, and all that happened, as a script, where
/// the plan asks for it.
fn text_of<B: HistoryName>(
    alloc: Global,
    members: Vec<Member<B>>,
    front: Front<B>,
    notes: &Notes,
    plan: Plan,
) -> Result<Vec<u8>, Refusal>
    requires { HaveSeen members.items front.seen }
{
    let mut text = Vec::new(alloc);
    for member in members.iter() {
        put_station(&mut text, member.station().audit())?;
    }
    put_notes(&mut text, notes)?;
    if plan.traced {
        let recording = recorded_by(alloc, members, &front)?;
        write_trace(alloc, &mut text, &[], &recording)?;
    }
    put(&mut text, "done\n")?;
    Ok(text)
}

/// The round of that plan, on that board.
pub fn go<B, R, W>(
    rt: R,
    alloc: Global,
    settings: Settings,
    board: Board,
    list: &AcceptList,
    plan: Plan,
    lines: &mut Lines<StdinLock<'_>, Global>,
    writer: &mut W,
) -> Result<(), Refusal>
where
    B: HistoryName + Send + Sync + 'static,
    R: Threads + Wait + Clock + Copy + Send + 'static,
    W: Write,
    requires name { (board.cells ≡ B.cells) × (board.table ≡ B.table) × (new_world settings list.now ≡ B.start) }
{
    let (gate, notes) = gate_of(alloc, plan.nodes, Some(Chance::of(plan.seed)))?;
    let cluster = Cluster::<B, Fates>::start(rt, alloc, settings, board, list, gate)?;
    let gone = answer_all(&rt, alloc, &cluster, lines, writer);
    let (members, front) = cluster.stop_traced(&rt);
    let text = text_of(alloc, members, front, &notes, plan)?;
    write_out(writer, text.as_slice())?;
    gone
}
