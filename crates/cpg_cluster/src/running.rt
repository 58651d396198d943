//! `cpgring run`: the commands of a script, one after the other.
//!
//! The script is read and checked whole before its first command; each command's lines are written after it, and are
//! handed on before a wait begins. Proved: the bytes, after success and after each fault.

ghost use Rattle.std.specs.Prelude.{◌≡◌, ◌≤◌, ◌∷◌, [], None, All, length, OnOk, IfOk, OnErr, IfErr, IfSome, IsOkUnless};
ghost use Rattle.std.specs.Io.KnownBytes.{Keeps};
ghost use Rattle.cpg_cluster.specs.Commands.{IsWithin, waits};
ghost use Rattle.cpg_cluster.specs.Lines.{shown_as};
ghost use Rattle.cpg_cluster.specs.Scripts.{commands_of_script};
ghost use Rattle.cpg_cluster.specs.Running.{AreDone, IsStopped, IsWait, LeavesOf, Runs, Stops, IsRun, Leaves, EndsRunning};
ghost use Rattle.cpg_cluster.specs.Steps.{AreWithin};

use crate::acting::do_command;
use crate::commands::{Ask, Command, Numbered};
use crate::forms::{PLAIN, PutsAnswer, RunOptions, TextForm};
use crate::scripts::read_commands;
use crate::sessions::Sessions;
use cpg_cred::Refusal;
use cpg_daemon::{HistoryName, Running};
use cpg_text::{Fault, MOST_BYTES, read_whole, write_whole};
use std::alloc::Global;
use std::io::{Read, Write};
use std::sync::Wait;
use std::time::Clock;

/// Runs the commands of a script over running nodes, from those sessions on, and writes what each prints after it.
///
/// The faults come in this order: `Read`, then `BadCommand` with the first bad line, both with nothing written
/// and nothing done; then, at a command, `Memory`, which leaves the lines of the commands before it, or
/// `Write`, which leaves a front of the text of the commands begun. `Memory` before all is read and checked
/// leaves nothing written and nothing done. Other refusals are printed, and the script goes on.
///
/// The writer is flushed before each wait; where that fails, it is `Write`, and the wait is not begun.
pub fn run_sessions<B, G, H, R, W, P>(
    rt: &H,
    alloc: Global,
    reader: &mut R,
    writer: &mut W,
    running: &Running<B, G>,
    options: &RunOptions<P>,
    sessions: &mut Sessions<B>,
) -> Result<(), Fault>
where
    B: HistoryName,
    H: Wait + Clock,
    R: Read,
    W: Write,
    P: PutsAnswer,
    requires { AreWithin running.now.nodes sessions.old.slots }
    ensures ok { OnOk result (IfSome (R.remaining reader.old) (λ script.
        (length script ≤ MOST_BYTES) × Runs (P.printed options.now.form) B.start (commands_of_script running.now.nodes script) sessions.old (W.contents writer.old) (W.contents writer.new) sessions.new)) }
    ensures err { IfErr result (λ fault. IfSome (R.remaining reader.old) (λ script.
        Stops (P.printed options.now.form) B.start (commands_of_script running.now.nodes script) fault.refusal sessions.old (W.contents writer.old) (W.contents writer.new) sessions.new)) }

    // Nothing is written before the script was read and checked, even where the reader tells no bytes.
    ensures ends { IfErr result (λ fault. EndsRunning fault.refusal (W.contents writer.old) (W.contents writer.new)) }
    ensures whole { IfErr result (λ fault. fault.part ≡ None) }
    ensures within { AreWithin running.now.nodes sessions.new.slots }
{
    let script = read_whole(alloc, reader)?;
    let commands = read_commands(alloc, running.nodes(), script.as_slice())?;
    let commands = commands.as_slice();
    run_commands(rt, alloc, writer, running, options, sessions, commands)?;
    Ok(())
}

/// The same from no session on, with waits of `MOST_POLLS` looks, and answers as plain text. It lets go of the sessions that
/// are left.
#[tactic(auto, using(crate::proofs::Doing::runs_from_none, crate::proofs::Doing::stops_from_none))]
pub fn cluster_script<B, G, H, R, W>(
    rt: &H,
    alloc: Global,
    reader: &mut R,
    writer: &mut W,
    running: &Running<B, G>,
) -> Result<(), Fault>
where
    B: HistoryName,
    H: Wait + Clock,
    R: Read,
    W: Write,
    ensures ok { OnOk result (IfSome (R.remaining reader.old) (λ script.
        (length script ≤ MOST_BYTES) × IsRun (shown_as TextForm.Plain) B.start (commands_of_script running.now.nodes script) (W.contents writer.old) (W.contents writer.new))) }
    ensures err { IfErr result (λ fault. IfSome (R.remaining reader.old) (λ script.
        Leaves (shown_as TextForm.Plain) B.start (commands_of_script running.now.nodes script) fault.refusal (W.contents writer.old) (W.contents writer.new))) }
    ensures ends { IfErr result (λ fault. EndsRunning fault.refusal (W.contents writer.old) (W.contents writer.new)) }
    ensures whole { IfErr result (λ fault. fault.part ≡ None) }
{
    let mut sessions = Sessions::none(alloc);
    run_sessions(rt, alloc, reader, writer, running, &PLAIN, &mut sessions)
}

/// Runs the commands one after the other, and writes the lines of each.
fn run_commands<B: HistoryName, G, H: Wait + Clock, W: Write, P: PutsAnswer>(
    rt: &H,
    alloc: Global,
    writer: &mut W,
    running: &Running<B, G>,
    options: &RunOptions<P>,
    sessions: &mut Sessions<B>,
    lines: &[Numbered],
) -> Result<(), Refusal>
    requires lines { All (λ line. IsWithin running.now.nodes line.command) lines.now }
    requires within { AreWithin running.now.nodes sessions.old.slots }
    ensures ok { OnOk result (Runs (P.printed options.now.form) B.start (Ok lines.now) sessions.old (W.contents writer.old) (W.contents writer.new) sessions.new) }
    ensures err { IfErr result (λ refusal. IsStopped refusal (P.printed options.now.form) B.start sessions.old lines.now (W.contents writer.old) (W.contents writer.new) sessions.new) }
    ensures within { AreWithin running.now.nodes sessions.new.slots }
{
    for line in lines {
        match run_command(rt, alloc, writer, running, sessions, options, line) {
            Ok(()) => {}
            Err(refusal) => return Err(refusal),
        }
    }
    Ok(())
}

/// Whether the command waits for an event.
fn waits(command: &Command) -> bool
    ensures { result ≡ waits command.now }
{
    matches!(command, Command::Ask(_, Ask::Wait))
}

/// Hands on what was written.
pub fn hand_on<W: Write>(writer: &mut W) -> Result<(), Refusal>
    ensures kept { Keeps (W.contents writer.old) (W.contents writer.new) }
    ensures errors { IsOkUnless result Refusal.Write }
{
    match writer.flush() {
        Ok(()) => Ok(()),
        Err(_) => Err(Refusal::Write),
    }
}

/// Hands on what was written where a command is to wait.
fn hand_on_before<W: Write>(writer: &mut W, line: &Numbered) -> Result<(), Refusal>
    ensures kept { Keeps (W.contents writer.old) (W.contents writer.new) }
    ensures waits { OnErr result (IsWait line.now) }
    ensures errors { IsOkUnless result Refusal.Write }
{
    if waits(&line.command) {
        hand_on(writer)
    } else {
        Ok(())
    }
}

/// Hands on what was written where the command is to wait, does it, and then writes its lines.
#[tactic(auto, using(crate::proofs::Doing::written_whole, crate::proofs::Doing::written_in_part, crate::proofs::Doing::not_written, crate::proofs::Doing::not_begun))]
fn run_command<B: HistoryName, G, H: Wait + Clock, W: Write, P: PutsAnswer>(
    rt: &H,
    alloc: Global,
    writer: &mut W,
    running: &Running<B, G>,
    sessions: &mut Sessions<B>,
    options: &RunOptions<P>,
    line: &Numbered,
) -> Result<(), Refusal>
    requires command { IsWithin running.now.nodes line.now.command }
    requires within { AreWithin running.now.nodes sessions.old.slots }
    ensures ok { OnOk result (AreDone (P.printed options.now.form) B.start sessions.old (line.now ∷ []) (W.contents writer.old) (W.contents writer.new) sessions.new) }
    ensures within { AreWithin running.now.nodes sessions.new.slots }
    ensures err { IfErr result (λ refusal. LeavesOf refusal (P.printed options.now.form) B.start sessions.old line.now (W.contents writer.old) (W.contents writer.new) sessions.new) }
{
    hand_on_before(writer, line)?;
    let mut text = Vec::new(alloc);
    do_command(rt, alloc, &mut text, running, sessions, options, line)?;
    write_whole(writer, text.as_slice())
}
