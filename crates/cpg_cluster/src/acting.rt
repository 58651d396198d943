//! One command over running nodes.
//!
//! Proved: the answer is one that `specs/Answers.antt` allows, and what is put is what the form says of it.

ghost use Rattle.std.specs.Prelude.{◌≡◌, ◌≢◌, ◌↔◌, [], Ok, Err, IsTrue, ◌≤◌, length, IfOk, IfSome, OnOk, OnErr, IsOkUnless};
ghost use Rattle.cpg_cluster.specs.declared.commands.Command.TheVariants as commands;
ghost use Rattle.cpg_cluster.specs.Commands.{IsWithin};
ghost use Rattle.cpg_cluster.specs.Answers.{IsConnected, IsServed, IsEnded, AtNumber, IsMark, MayAnswer, seen_of};
ghost use Rattle.cpg_cluster.specs.Running.{IsDone, MayBeDone};
ghost use Rattle.cpg_cluster.specs.Steps.{AreWithin, SeatsOn};

use crate::asking::serve;
use crate::commands::{Ask, Command, Numbered};
use crate::forms::{PutsAnswer, RunOptions, WaitLimit};
use crate::replies::Reply;
use crate::sessions::{Sessions, learn};
use cpg_cred::{Cred, NodeId, Refusal, is_memory};
use cpg_daemon::{Front, HistoryName, Running, Session};
use std::alloc::Global;
use std::sync::Wait;
use std::time::Clock;

/// A session for the process at the node, put last among the sessions.
fn connect<B: HistoryName, G, H: Wait>(
    rt: &H,
    running: &Running<B, G>,
    slots: &mut Vec<Option<Session<B>>>,
    node: NodeId,
    pid: u32,
    cred: Cred,
) -> Result<Reply, Refusal>
    requires { (node ≤ running.now.nodes) × AreWithin running.now.nodes slots.old.items }
    ensures answer { IsConnected B.start node pid cred slots.old.items result slots.new.items }
    ensures within { AreWithin running.now.nodes slots.new.items }
    ensures seats { SeatsOn B.cells result }
{
    running.stands();
    slots.reserve(1)?;
    let session = running.connect(rt, node, pid, cred)?;
    slots.push_reserved(Some(session));
    Ok(Reply::Opened(slots.len()))
}

/// What the session is answered, if it is an open one.
fn serve_open<B: HistoryName, G, H: Wait + Clock>(
    rt: &H,
    alloc: Global,
    running: &Running<B, G>,
    wait_limit: WaitLimit,
    slot: &mut Option<Session<B>>,
    asked: &Ask,
) -> Result<Reply, Refusal>
    requires { IfSome slot.old (λ session. session.who.id.node ≤ running.now.nodes) }
    ensures answer { IsServed B.start asked.now slot.old result slot.new }
    ensures within { IfSome slot.new (λ session. session.who.id.node ≤ running.now.nodes) }
    ensures seats { SeatsOn B.cells result }
{
    match slot {
        None => Err(Refusal::NoConnection),
        Some(session) => serve(rt, alloc, running, wait_limit, session, asked),
    }
}

/// Ends the session, if it is an open one, and learns what its end gives; it stays where it is refused.
#[tactic(auto, using(crate::proofs::Fronts::ends_in))]
fn close_open<B: HistoryName, G, H: Wait>(
    rt: &H,
    running: &Running<B, G>,
    known: &mut Option<Front<B>>,
    slot: &mut Option<Session<B>>,
) -> Result<Reply, Refusal>
    requires { IfSome slot.old (λ session. session.who.id.node ≤ running.now.nodes) }
    ensures answer { IsEnded B.start (seen_of known.old) (seen_of known.new) slot.old result slot.new }
    ensures within { IfSome slot.new (λ session. session.who.id.node ≤ running.now.nodes) }
    ensures seats { SeatsOn B.cells result }
{
    match slot.take() {
        None => Err(Refusal::NoConnection),
        Some(session) => match running.end(rt, session) {
            Ok(end) => {
                learn(running, known, end);
                Ok(Reply::Closed)
            }
            Err(refused) => {
                *slot = Some(refused.back);
                Err(refused.refusal)
            }
        },
    }
}

/// Whether a session of that number was given.
fn is_given<T>(sessions: &[T], number: u32) -> bool
    ensures { IsTrue result ↔ ((1 ≤ number) × (number ≤ length sessions.now)) }
{
    1 <= number && number as usize <= sessions.len()
}

/// What the session of that number is answered.
fn ask<B: HistoryName, G, H: Wait + Clock>(
    rt: &H,
    alloc: Global,
    running: &Running<B, G>,
    wait_limit: WaitLimit,
    slots: &mut Vec<Option<Session<B>>>,
    number: u32,
    asked: &Ask,
) -> Result<Reply, Refusal>
    requires { AreWithin running.now.nodes slots.old.items }
    ensures answer { AtNumber (IsServed B.start asked.now) number slots.old.items result slots.new.items }
    ensures within { AreWithin running.now.nodes slots.new.items }
    ensures seats { SeatsOn B.cells result }
{
    if !is_given(slots.as_slice(), number) {
        return Err(Refusal::NoConnection);
    }
    serve_open(
        rt,
        alloc,
        running,
        wait_limit,
        &mut slots[number as usize - 1],
        asked,
    )
}

/// Ends the session of that number.
fn close<B: HistoryName, G, H: Wait>(
    rt: &H,
    running: &Running<B, G>,
    slots: &mut Vec<Option<Session<B>>>,
    known: &mut Option<Front<B>>,
    number: u32,
) -> Result<Reply, Refusal>
    requires { AreWithin running.now.nodes slots.old.items }
    ensures answer { AtNumber (IsEnded B.start (seen_of known.old) (seen_of known.new)) number slots.old.items result slots.new.items }
    ensures within { AreWithin running.now.nodes slots.new.items }
    ensures seats { SeatsOn B.cells result }
{
    if !is_given(slots.as_slice(), number) {
        return Err(Refusal::NoConnection);
    }
    close_open(rt, running, known, &mut slots[number as usize - 1])
}

/// The node's mark, and what it is that of is learnt.
#[tactic(auto, using(crate::proofs::Fronts::marks_in))]
fn mark<B: HistoryName, G, H: Wait>(
    rt: &H,
    running: &Running<B, G>,
    known: &mut Option<Front<B>>,
    node: NodeId,
) -> Reply
    requires { node ≤ running.now.nodes }
    ensures answer { IsMark B.start node (seen_of known.old) (Ok result) (seen_of known.new) }
    ensures seats { SeatsOn B.cells (Ok result) }
{
    let (place, front) = running.mark(rt, node);
    learn(running, known, front);
    Reply::Safe(place)
}

/// What the command is answered.
fn answer<B: HistoryName, G, H: Wait + Clock>(
    rt: &H,
    alloc: Global,
    running: &Running<B, G>,
    wait_limit: WaitLimit,
    sessions: &mut Sessions<B>,
    command: &Command,
) -> Result<Reply, Refusal>
    requires { IsWithin running.now.nodes command.now × AreWithin running.now.nodes sessions.old.slots }
    ensures answer { MayAnswer B.start sessions.old command.now result sessions.new }
    ensures within { AreWithin running.now.nodes sessions.new.slots }
    ensures seats { SeatsOn B.cells result }
{
    let Sessions { slots, front } = sessions;
    match command {
        Command::Connect(node, pid, cred) => connect(rt, running, slots, *node, *pid, *cred),
        Command::Ask(number, asked) => ask(rt, alloc, running, wait_limit, slots, *number, asked),
        Command::Close(number) => close(rt, running, slots, front, *number),
        Command::Safe(node) => Ok(mark(rt, running, front, *node)),
    }
}

/// What the command is answered where memory was not refused.
#[tactic(auto, using(crate::proofs::Doing::may_be_done))]
pub fn answer_with_memory<B: HistoryName, G, H: Wait + Clock>(
    rt: &H,
    alloc: Global,
    running: &Running<B, G>,
    wait_limit: WaitLimit,
    sessions: &mut Sessions<B>,
    command: &Command,
) -> Result<Result<Reply, Refusal>, Refusal>
    requires { IsWithin running.now.nodes command.now × AreWithin running.now.nodes sessions.old.slots }
    ensures ok { IfOk result (λ answer. MayAnswer B.start sessions.old command.now answer sessions.new × (answer ≢ Err Refusal.Memory) × SeatsOn B.cells answer) }
    ensures done { OnErr result (MayBeDone B.start sessions.old command.now sessions.new) }
    ensures within { AreWithin running.now.nodes sessions.new.slots }
    ensures memory { IsOkUnless result Refusal.Memory }
{
    let answer = answer(rt, alloc, running, wait_limit, sessions, command);
    if is_memory(&answer) {
        return Err(Refusal::Memory);
    }
    Ok(answer)
}

/// Does the command, and puts what is printed of its answer where there is none.
#[tactic(auto, using(crate::proofs::Doing::answer_done, crate::proofs::Doing::may_be_done))]
pub fn do_command<B: HistoryName, G, H: Wait + Clock, P: PutsAnswer>(
    rt: &H,
    alloc: Global,
    text: &mut Vec<u8>,
    running: &Running<B, G>,
    sessions: &mut Sessions<B>,
    options: &RunOptions<P>,
    line: &Numbered,
) -> Result<(), Refusal>
    requires command { IsWithin running.now.nodes line.now.command }
    requires within { AreWithin running.now.nodes sessions.old.slots }
    requires none { text.old.items ≡ [] }
    ensures ok { OnOk result (IsDone (P.printed options.now.form) B.start sessions.old line.now text.new.items sessions.new) }
    ensures done { OnErr result (MayBeDone B.start sessions.old line.now.command sessions.new) }
    ensures within { AreWithin running.now.nodes sessions.new.slots }
    ensures memory { IsOkUnless result Refusal.Memory }
{
    let wait_limit = options.wait_limit;
    let answer = answer_with_memory(rt, alloc, running, wait_limit, sessions, &line.command)?;
    options
        .form
        .put(alloc, text, running.board(), line, &answer)
}
