//! The commands of a script, one after the other, whose lines are written at last.
//!
//! Proved: the bytes, after success and after each fault, in every form.

ghost use Rattle.std.specs.Prelude.{◌≡◌, ◌≤◌, None, All, length, OnOk, IfOk, IfErr, IfSome, IsOkUnless};
ghost use Rattle.cpg_step.specs.Commands.{IsWithin};
ghost use Rattle.cpg_step.specs.Scripts.{commands_of_script};
ghost use Rattle.cpg_step.specs.Gathering.{EndsGathered, IsGathered, IsText, LeavesGathered};

use crate::commands::Command;
use crate::forms::{PutsSteps, TellsSteps};
use crate::running::run_commands;
use crate::scripts::read_commands;
use cpg_cred::Refusal;
use cpg_text::{Fault, MOST_BYTES, read_whole, write_whole};
use cpg_world::World;
use std::alloc::Global;
use std::io::{Read, Write};

/// Runs the commands of a script over the world, and writes what they print in that form, once all are done.
///
/// The faults come in this order: `Read`, then `BadCommand` with the first bad line, then `Memory`, all with
/// nothing written; and last `Write`, which leaves a front of the text.
pub fn run_gathered<F: TellsSteps, R: Read, W: Write>(
    alloc: Global,
    form: &F,
    reader: &mut R,
    writer: &mut W,
    world: World,
) -> Result<(), Fault>
    ensures ok { OnOk result (IfSome (R.remaining reader.old) (λ script.
        (length script ≤ MOST_BYTES) × IsGathered (F.form form.now script) (commands_of_script world.settings.nodes script) world (W.contents writer.old) (W.contents writer.new))) }
    ensures err { IfErr result (λ fault. IfSome (R.remaining reader.old) (λ script.
        LeavesGathered (F.form form.now script) (commands_of_script world.settings.nodes script) fault.refusal world (W.contents writer.old) (W.contents writer.new))) }

    // Nothing is written before the text is whole, even where the reader tells no bytes.
    ensures ends { IfErr result (λ fault. EndsGathered fault.refusal (W.contents writer.old) (W.contents writer.new)) }
    ensures whole { IfErr result (λ fault. fault.part ≡ None) }
{
    match gather_whole(alloc, form, reader, writer, world) {
        Ok(()) => Ok(()),
        Err(refusal) => Err(Fault::from(refusal)),
    }
}

fn gather_whole<F: TellsSteps, R: Read, W: Write>(
    alloc: Global,
    form: &F,
    reader: &mut R,
    writer: &mut W,
    world: World,
) -> Result<(), Refusal>
    ensures ok { OnOk result (IfSome (R.remaining reader.old) (λ script.
        (length script ≤ MOST_BYTES) × IsGathered (F.form form.now script) (commands_of_script world.settings.nodes script) world (W.contents writer.old) (W.contents writer.new))) }
    ensures err { IfErr result (λ refusal. IfSome (R.remaining reader.old) (λ script.
        LeavesGathered (F.form form.now script) (commands_of_script world.settings.nodes script) refusal world (W.contents writer.old) (W.contents writer.new))) }
    ensures ends { IfErr result (λ refusal. EndsGathered refusal (W.contents writer.old) (W.contents writer.new)) }
{
    let script = read_whole(alloc, reader)?;
    let commands = read_commands(alloc, world.nodes(), script.as_slice())?;
    let text = gather_read(alloc, form, world, commands, script)?;
    write_whole(writer, text.as_slice())
}

/// What the commands of that script print in that form.
fn gather_read<F: TellsSteps>(
    alloc: Global,
    form: &F,
    mut world: World,
    commands: Vec<Command>,
    script: Vec<u8>,
) -> Result<Vec<u8>, Refusal>
    requires few { length script.items ≤ MOST_BYTES }
    requires within { All (λ command. IsWithin (length world.nodes) command) commands.items }
    ensures ok { IfOk result (λ text. IsText (F.form form.now script.items) world commands.items text.items) }
    ensures memory { IsOkUnless result Refusal.Memory }
{
    let mut puts = form.begin(alloc, script)?;
    gather_commands(alloc, &mut puts, &mut world, commands)
}

/// What the commands print, one after the other.
#[tactic(auto, using(crate::proofs::Gathered::all_gathered))]
fn gather_commands<P: PutsSteps>(
    alloc: Global,
    puts: &mut P,
    world: &mut World,
    commands: Vec<Command>,
) -> Result<Vec<u8>, Refusal>
    requires { All (λ command. IsWithin (length world.old.nodes) command) commands.items }
    ensures ok { IfOk result (λ text. IsText (P.form puts.old) world.old commands.items text.items) }
    ensures memory { IsOkUnless result Refusal.Memory }
{
    let mut text = Vec::new(alloc);
    match run_commands(alloc, &mut text, puts, world, commands) {
        Ok(()) => Ok(text),
        Err(_) => Err(Refusal::Memory),
    }
}
