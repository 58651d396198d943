//! `cpgring step`: the commands of a script, one after the other.
//!
//! The script is read and checked whole before its first command; each command's lines are written after it, in the form
//! that is asked for. Proved: the bytes and the world, after success and after each fault, in every form.

ghost use Rattle.std.specs.Prelude.{◌≡◌, ◌≤◌, ◌∷◌, [], None, Ok, All, length, OnOk, IfOk, IfErr, IfSome, IsOkUnless};
ghost use Rattle.cpg_step.specs.Commands.{IsWithin};
ghost use Rattle.cpg_step.specs.Scripts.{commands_of_script};
ghost use Rattle.cpg_step.specs.Running.{AreDone, IsStopped, LeavesOf, IsRun, IsRunIn, Leaves, LeavesIn, EndsRunning};

use crate::acting::do_command;
use crate::commands::Command;
use crate::forms::{PutsSteps, SteppedAsText, TellsSteps};
use crate::scripts::read_commands;
use cpg_cred::Refusal;
use cpg_text::{Fault, MOST_BYTES, read_whole, write_whole};
use cpg_world::World;
use std::alloc::Global;
use std::io::{Read, Write};

/// Runs the commands of a script over the world, and writes what each prints after it.
///
/// The faults come in this order: `Read`, then `BadCommand` with the first bad line, both with nothing written
/// and nothing done; then, at a command, `Memory`, which leaves the lines of the commands before it, or
/// `Write`, which leaves a front of the text of the commands begun. `Memory` before all is read and checked
/// leaves nothing written and nothing done. Other refusals are printed, and the script goes on.
pub fn run_script<R: Read, W: Write>(
    alloc: Global,
    reader: &mut R,
    writer: &mut W,
    world: &mut World,
) -> Result<(), Fault>
    ensures ok { OnOk result (IfSome (R.remaining reader.old) (λ script.
        (length script ≤ MOST_BYTES) × IsRun (commands_of_script world.old.settings.nodes script) world.old (W.contents writer.old) (W.contents writer.new) world.new)) }
    ensures err { IfErr result (λ fault. IfSome (R.remaining reader.old) (λ script.
        Leaves (commands_of_script world.old.settings.nodes script) fault.refusal world.old (W.contents writer.old) (W.contents writer.new) world.new)) }

    // Nothing is written or done before the script was read and checked, even where the reader tells no bytes.
    ensures ends { IfErr result (λ fault. EndsRunning fault.refusal world.old (W.contents writer.old) (W.contents writer.new) world.new) }
    ensures whole { IfErr result (λ fault. fault.part ≡ None) }
{
    run_in_form(alloc, &SteppedAsText, reader, writer, world)
}

/// The same in that form.
pub fn run_in_form<F: TellsSteps, R: Read, W: Write>(
    alloc: Global,
    form: &F,
    reader: &mut R,
    writer: &mut W,
    world: &mut World,
) -> Result<(), Fault>
    ensures ok { OnOk result (IfSome (R.remaining reader.old) (λ script.
        (length script ≤ MOST_BYTES) × IsRunIn (F.form form.now script) (commands_of_script world.old.settings.nodes script) world.old (W.contents writer.old) (W.contents writer.new) world.new)) }
    ensures err { IfErr result (λ fault. IfSome (R.remaining reader.old) (λ script.
        LeavesIn (F.form form.now script) (commands_of_script world.old.settings.nodes script) fault.refusal world.old (W.contents writer.old) (W.contents writer.new) world.new)) }
    ensures ends { IfErr result (λ fault. EndsRunning fault.refusal world.old (W.contents writer.old) (W.contents writer.new) world.new) }
    ensures whole { IfErr result (λ fault. fault.part ≡ None) }
{
    match run_whole(alloc, form, reader, writer, world) {
        Ok(()) => Ok(()),
        Err(refusal) => Err(Fault::from(refusal)),
    }
}

fn run_whole<F: TellsSteps, R: Read, W: Write>(
    alloc: Global,
    form: &F,
    reader: &mut R,
    writer: &mut W,
    world: &mut World,
) -> Result<(), Refusal>
    ensures ok { OnOk result (IfSome (R.remaining reader.old) (λ script.
        (length script ≤ MOST_BYTES) × IsRunIn (F.form form.now script) (commands_of_script world.old.settings.nodes script) world.old (W.contents writer.old) (W.contents writer.new) world.new)) }
    ensures err { IfErr result (λ refusal. IfSome (R.remaining reader.old) (λ script.
        LeavesIn (F.form form.now script) (commands_of_script world.old.settings.nodes script) refusal world.old (W.contents writer.old) (W.contents writer.new) world.new)) }
    ensures ends { IfErr result (λ refusal. EndsRunning refusal world.old (W.contents writer.old) (W.contents writer.new) world.new) }
{
    let script = read_whole(alloc, reader)?;
    let commands = read_commands(alloc, world.nodes(), script.as_slice())?;
    run_read(alloc, form, writer, world, commands, script)
}

/// Runs the commands of that script.
#[tactic(auto, using(crate::proofs::Doing::stopped_leaves))]
fn run_read<F: TellsSteps, W: Write>(
    alloc: Global,
    form: &F,
    writer: &mut W,
    world: &mut World,
    commands: Vec<Command>,
    script: Vec<u8>,
) -> Result<(), Refusal>
    requires few { length script.items ≤ MOST_BYTES }
    requires within { All (λ command. IsWithin (length world.old.nodes) command) commands.items }
    ensures ok { OnOk result (AreDone (F.form form.now script.items) 0 world.old commands.items (W.contents writer.old) (W.contents writer.new) world.new) }
    ensures err { IfErr result (λ refusal. LeavesIn (F.form form.now script.items) (Ok commands.items) refusal world.old (W.contents writer.old) (W.contents writer.new) world.new) }
{
    let mut puts = form.begin(alloc, script)?;
    run_commands(alloc, writer, &mut puts, world, commands)
}

/// Runs the commands one after the other, and writes the lines of each.
pub(crate) fn run_commands<P: PutsSteps, W: Write>(
    alloc: Global,
    writer: &mut W,
    puts: &mut P,
    world: &mut World,
    commands: Vec<Command>,
) -> Result<(), Refusal>
    requires { All (λ command. IsWithin (length world.old.nodes) command) commands.items }
    ensures ok { OnOk result (AreDone (P.form puts.old) 0 world.old commands.items (W.contents writer.old) (W.contents writer.new) world.new) }
    ensures err { IfErr result (λ refusal. IsStopped refusal (P.form puts.old) world.old commands.items (W.contents writer.old) (W.contents writer.new) world.new) }
{
    let mut lines = Vec::new(alloc);
    let mut index = 0;
    for command in commands {
        match run_command(alloc, writer, &mut lines, puts, index, world, command) {
            Ok(()) => {}
            Err(refusal) => return Err(refusal),
        }
        index += 1;
    }
    Ok(())
}

/// Does one command, whose index is that, and then writes its lines.
#[tactic(auto, using(crate::proofs::Doing::written_whole, crate::proofs::Doing::written_in_part))]
fn run_command<P: PutsSteps, W: Write>(
    alloc: Global,
    writer: &mut W,
    lines: &mut Vec<u8>,
    puts: &mut P,
    index: usize,
    world: &mut World,
    command: Command,
) -> Result<(), Refusal>
    requires { IsWithin (length world.old.nodes) command }
    ensures ok { OnOk result (AreDone (P.form puts.old) index world.old (command ∷ []) (W.contents writer.old) (W.contents writer.new) world.new) }
    ensures same { OnOk result (P.form puts.new ≡ P.form puts.old) }
    ensures err { IfErr result (λ refusal. LeavesOf refusal (P.form puts.old) index world.old command (W.contents writer.old) (W.contents writer.new) world.new) }
{
    lines.clear();
    do_command(alloc, lines, puts, index, world, command)?;
    write_whole(writer, lines.as_slice())
}
