//! What a typed line is answered, and how the answer is written.
//!
//! Proved: it is what `MayCome` of `specs/Shelled.antt` says of the line.

ghost use Rattle.std.specs.Prelude.{◌≡◌, ◌++◌, [], OnOk, IfOk, OnErr, IsOkUnless};
ghost use Rattle.std.specs.Io.KnownBytes.{Appends};
ghost use Rattle.cpg_text.specs.Streams.{AppendsFront};
ghost use Rattle.cpg_cluster.specs.Steps.{AreWithin};
ghost use Rattle.cpg_cluster.specs.Typed.{typed_of, IsTypedWithin, bad_line, help_text};
ghost use Rattle.cpg_cluster.specs.Shelled.{MayCome};

use crate::acting::do_command;
use crate::commands::Numbered;
use crate::forms::{PutsAnswer, RunOptions};
use crate::running::hand_on;
use crate::sessions::Sessions;
use crate::shell::help::HELP;
use crate::shell::typed::{Typed, read_typed};
use cpg_cred::Refusal;
use cpg_daemon::{HistoryName, Running};
use cpg_text::{Fault, put, put_fault, write_whole};
use std::alloc::Global;
use std::io::Write;
use std::sync::Wait;
use std::time::Clock;

/// What a line is answered.
#[derive(Debug, Drop)]
pub struct Answered {
    /// What is printed.
    pub printed: Vec<u8>,
    /// What is told of a bad line.
    pub told: Vec<u8>,
}

/// Puts the list of the commands at the text's end.
#[tactic(auto, unfolding(crate::specs::Typed::help_text))]
fn put_help(text: &mut Vec<u8>) -> Result<(), Refusal>
    ensures ok { OnOk result (text.new.items ≡ text.old.items ++ help_text) }
    ensures memory { IsOkUnless result Refusal.Memory }
{
    put(text, HELP)
}

/// Puts what is told of a bad line of that number at the text's end. `Memory` is the only error.
pub fn put_bad(alloc: Global, text: &mut Vec<u8>, number: u32) -> Result<(), Refusal>
    ensures ok { OnOk result (text.new.items ≡ text.old.items ++ bad_line number) }
    ensures memory { IsOkUnless result Refusal.Memory }
{
    put(text, "cpgring: ")?;
    put_fault(alloc, text, &Fault::from(Refusal::BadCommand(number)))?;
    put(text, "\n")
}

/// Answers what a line of that number says.
fn answer_typed<B: HistoryName, G, H: Wait + Clock, P: PutsAnswer>(
    rt: &H,
    alloc: Global,
    running: &Running<B, G>,
    sessions: &mut Sessions<B>,
    options: &RunOptions<P>,
    number: u32,
    typed: Typed,
) -> Result<Answered, Refusal>
    requires typed { IsTypedWithin running.now.nodes typed }
    requires within { AreWithin running.now.nodes sessions.old.slots }
    ensures came { IfOk result (λ done. MayCome (P.printed options.now.form) B.start sessions.old number typed (record { printed = done.printed.items; told = done.told.items; left = sessions.new })) }
    ensures within { AreWithin running.now.nodes sessions.new.slots }
    ensures memory { IsOkUnless result Refusal.Memory }
{
    let mut printed = Vec::new(alloc);
    let mut told = Vec::new(alloc);
    match typed {
        Typed::Nothing => {}
        Typed::Help => put_help(&mut printed)?,
        Typed::Bad => put_bad(alloc, &mut told, number)?,
        Typed::Command(command) => {
            let line = Numbered { number, command };
            do_command(rt, alloc, &mut printed, running, sessions, options, &line)?;
        }
    }
    Ok(Answered { printed, told })
}

/// Answers a line of that number.
pub fn answer_line<B: HistoryName, G, H: Wait + Clock, P: PutsAnswer>(
    rt: &H,
    alloc: Global,
    running: &Running<B, G>,
    sessions: &mut Sessions<B>,
    options: &RunOptions<P>,
    number: u32,
    line: &[u8],
) -> Result<Answered, Refusal>
    requires { AreWithin running.now.nodes sessions.old.slots }
    ensures came { IfOk result (λ done. MayCome (P.printed options.now.form) B.start sessions.old number (typed_of running.now.nodes line.now) (record { printed = done.printed.items; told = done.told.items; left = sessions.new })) }
    ensures within { AreWithin running.now.nodes sessions.new.slots }
    ensures memory { IsOkUnless result Refusal.Memory }
{
    let typed = read_typed(alloc, running.nodes(), line)?;
    answer_typed(rt, alloc, running, sessions, options, number, typed)
}

/// Writes the text and hands it on.
fn write_out<W: Write>(writer: &mut W, text: &[u8]) -> Result<(), Refusal>
    ensures ok { OnOk result (Appends (W.contents writer.old) (W.contents writer.new) text.now) }
    ensures err { OnErr result (AppendsFront (W.contents writer.old) (W.contents writer.new) text.now) }
    ensures errors { IsOkUnless result Refusal.Write }
{
    write_whole(writer, text)?;
    hand_on(writer)
}

/// Writes what is printed and what is told of a line, each handed on.
pub fn write_answered<W: Write, E: Write>(
    writer: &mut W,
    errors: &mut E,
    done: &Answered,
) -> Result<(), Refusal>
    ensures ok { OnOk result (Appends (W.contents writer.old) (W.contents writer.new) done.now.printed.items × Appends (E.contents errors.old) (E.contents errors.new) done.now.told.items) }
    ensures err { OnErr result (AppendsFront (W.contents writer.old) (W.contents writer.new) done.now.printed.items × AppendsFront (E.contents errors.old) (E.contents errors.new) done.now.told.items) }
    ensures errors { IsOkUnless result Refusal.Write }
{
    write_out(writer, done.printed.as_slice())?;
    write_out(errors, done.told.as_slice())
}
