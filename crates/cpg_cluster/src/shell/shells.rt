//! `cpgring shell`: lines that are read, answered and written one after the other.
//!
//! Proved: what is written, after success and after each fault.

ghost use Rattle.std.specs.Prelude.{◌≡◌, [], None, OnOk, IfErr};
ghost use Rattle.cpg_cluster.specs.Shelled.{IsShelled, IsEnded};

use crate::forms::{PutsAnswer, RunOptions};
use crate::sessions::Sessions;
use crate::shell::answering::{answer_line, write_answered};
use crate::shell::lines::read_line;
use cpg_cred::Refusal;
use cpg_daemon::{HistoryName, Running};
use cpg_text::Fault;
use std::alloc::Global;
use std::io::{Read, Write};
use std::sync::Wait;
use std::time::Clock;

/// Answers the lines of the reader over running nodes until it ends, each at once.
///
/// A line is trimmed; an empty one and one that begins with `#` print nothing, `help` prints the commands, and a command
/// of a cluster's script is done and its answer written. A line that says nothing of these, or has more than
/// `MOST_LINE` bytes, is told on `errors` by its number, from 1, and the next is read. What is written is handed on
/// before the next line is read.
///
/// The faults are `Read`, where a read fails or the input has more than 4,294,967,294 lines; `Memory`, which leaves
/// the lines before the one that met it; and `Write`, where either writer fails, which leaves a front of what the line
/// prints and tells. Other refusals are printed, and the shell goes on.
pub fn shell_lines<B, G, H, R, W, E, P>(
    rt: &H,
    alloc: Global,
    reader: &mut R,
    writer: &mut W,
    errors: &mut E,
    running: &Running<B, G>,
    options: &RunOptions<P>,
) -> Result<(), Fault>
where
    B: HistoryName,
    H: Wait + Clock,
    R: Read,
    W: Write,
    E: Write,
    P: PutsAnswer,
    ensures ok { OnOk result (IsShelled (P.printed options.now.form) B.start running.now.nodes (R.remaining reader.old)
        (W.contents writer.old) (W.contents writer.new) (E.contents errors.old) (E.contents errors.new)) }
    ensures err { IfErr result (λ fault. IsEnded fault.refusal (P.printed options.now.form) B.start running.now.nodes (R.remaining reader.old)
        (W.contents writer.old) (W.contents writer.new) (E.contents errors.old) (E.contents errors.new)) }
    ensures whole { IfErr result (λ fault. fault.part ≡ None) }
{
    match answer_lines(rt, alloc, reader, writer, errors, running, options) {
        Ok(()) => Ok(()),
        Err(refusal) => Err(Fault::from(refusal)),
    }
}

#[tactic(auto, using(crate::proofs::Shelling::none_shelled))]
fn answer_lines<B, G, H, R, W, E, P>(
    rt: &H,
    alloc: Global,
    reader: &mut R,
    writer: &mut W,
    errors: &mut E,
    running: &Running<B, G>,
    options: &RunOptions<P>,
) -> Result<(), Refusal>
where
    B: HistoryName,
    H: Wait + Clock,
    R: Read,
    W: Write,
    E: Write,
    P: PutsAnswer,
    ensures ok { OnOk result (IsShelled (P.printed options.now.form) B.start running.now.nodes (R.remaining reader.old)
        (W.contents writer.old) (W.contents writer.new) (E.contents errors.old) (E.contents errors.new)) }
    ensures err { IfErr result (λ refusal. IsEnded refusal (P.printed options.now.form) B.start running.now.nodes (R.remaining reader.old)
        (W.contents writer.old) (W.contents writer.new) (E.contents errors.old) (E.contents errors.new)) }
{
    let mut sessions = Sessions::none(alloc);
    for number in 1..u32::MAX {
        let mut line = Vec::new(alloc);
        let more = read_line(reader, &mut line)?;
        let line = line.as_slice();
        let done = answer_line(rt, alloc, running, &mut sessions, options, number, line)?;
        write_answered(writer, errors, &done)?;
        if !more {
            return Ok(());
        }
    }
    Err(Refusal::Read)
}
