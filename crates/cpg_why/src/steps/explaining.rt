//! A script of commands is read and checked whole, its commands are done, and what is asked of what was delivered is
//! told.
//!
//! Proved: that what is found is told, and what each fault leaves; the world.

ghost use Rattle.std.specs.Prelude.{◌≡◌, ◌≤◌, [], Ok, All, length, OnOk, IfOk, IfErr, IfSome};
ghost use Rattle.cpg_step.specs.Commands.{IsWithin};
ghost use Rattle.cpg_step.specs.Scripts.{commands_of_script};
ghost use Rattle.cpg_why.specs.Scripts.{EndsWhy, IsWritten, LeavesEntries};
ghost use Rattle.cpg_why.specs.Explaining.{IsExplained, Leaves, delivered_by_most};

use crate::asking::{Asked, WhyFault};
use crate::audits::why_of_records;
use crate::forms::Tells;
use crate::steps::choosing::find_longest;
use crate::steps::running::run_all;
use cpg_step::{Command, read_commands};
use cpg_text::{MOST_BYTES, read_whole};
use cpg_world::World;
use std::alloc::Global;
use std::io::{Read, Write};

/// Does the commands of a script over the world, and writes in a form what is asked of the entries that were delivered
/// then by the node that delivered most. What the commands print is not written.
///
/// The faults come in this order: `Read`, then `BadCommand` with the first bad line, both with nothing done; then that
/// what is asked of is not there, with how many there are; `Memory` may come at any time; all with nothing written.
/// Last is `Write`, which leaves a front of what is told.
#[tactic(auto, using(crate::proofs::Left::none_left, crate::proofs::Left::read_ends, crate::proofs::Left::bad_ends))]
pub fn why_of_steps<F: Tells, R: Read, W: Write>(
    alloc: Global,
    reader: &mut R,
    writer: &mut W,
    world: &mut World,
    asked: Asked,
) -> Result<(), WhyFault>
    ensures ok { OnOk result (IfSome (R.remaining reader.old) (λ script.
        (length script ≤ MOST_BYTES) × IsExplained F.form (commands_of_script world.old.settings.nodes script) asked world.old (W.contents writer.old) (W.contents writer.new) world.new)) }
    ensures err { IfErr result (λ fault. IfSome (R.remaining reader.old) (λ script.
        Leaves F.form (commands_of_script world.old.settings.nodes script) asked fault world.old (W.contents writer.old) (W.contents writer.new) world.new)) }

    // Nothing is written before the text is whole, even where the reader tells no bytes.
    ensures ends { IfErr result (λ fault. EndsWhy asked fault (W.contents writer.old) (W.contents writer.new)) }
{
    let script = read_whole(alloc, reader)?;
    let commands = read_commands(alloc, world.nodes(), script.as_slice())?;
    explain::<F, W>(alloc, writer, world, commands.as_slice(), asked)
}

/// Does the commands, and writes what is asked of what was delivered then.
#[tactic(auto, using(crate::proofs::Done::all_done, crate::proofs::Left::told_left, crate::proofs::Left::told_ends))]
fn explain<F: Tells, W: Write>(
    alloc: Global,
    writer: &mut W,
    world: &mut World,
    commands: &[Command],
    asked: Asked,
) -> Result<(), WhyFault>
    requires { All (λ command. IsWithin (length world.old.nodes) command) commands.now }
    ensures ok { OnOk result (IsExplained F.form (Ok commands.now) asked world.old (W.contents writer.old) (W.contents writer.new) world.new) }
    ensures err { IfErr result (λ fault. Leaves F.form (Ok commands.now) asked fault world.old (W.contents writer.old) (W.contents writer.new) world.new) }
    ensures ends { IfErr result (λ fault. EndsWhy asked fault (W.contents writer.old) (W.contents writer.new)) }
{
    run_all(alloc, world, commands)?;
    tell_world::<F, W>(alloc, writer, world, asked)
}

/// Writes what is asked of what was delivered in the world.
fn tell_world<F: Tells, W: Write>(
    alloc: Global,
    writer: &mut W,
    world: &World,
    asked: Asked,
) -> Result<(), WhyFault>
    ensures ok { OnOk result (IsWritten F.form (Ok (delivered_by_most world.now)) [] asked (W.contents writer.old) (W.contents writer.new)) }
    ensures err { IfErr result (λ fault. LeavesEntries F.form [] (delivered_by_most world.now) asked fault (W.contents writer.old) (W.contents writer.new)) }
{
    why_of_records::<F, W>(alloc, writer, find_longest(world), asked)
}
