//! One command over a world.
//!
//! Proved: what is put is the text of the command's lines, and the world is the one after it; want of memory
//! leaves the world as it was, or the one after the command where its lines had no room.

ghost use Rattle.std.specs.Prelude.{◌≡◌, ◌≤◌, ◌⊎◌, ◌∷◌, [], length, OnOk, OnErr, IfOk, IsOkUnless};
ghost use Rattle.cpg_world_laws.specs.Worlds.{node_in, happens};
ghost use Rattle.cpg_world_laws.specs.Replies.{IsReply};
ghost use Rattle.cpg_step.specs.declared.commands.Command.TheVariants as commands;
ghost use Rattle.cpg_step.specs.Commands.{IsWithin};
ghost use Rattle.cpg_step.specs.Running.{after};
ghost use Rattle.cpg_step.specs.Steps.{IsDone, MayBeDone};

use crate::commands::Command;
use crate::forms::PutsSteps;
use cpg_cred::{Refusal, is_memory};
use cpg_world::{Reply, World, WorldEvent};
use std::alloc::Global;

/// Does the command, whose index among those of its script is that, and puts its lines where there are none.
#[tactic(auto, using(crate::proofs::Doing::look_done))]
#[inline(always)]
pub fn do_command<P: PutsSteps>(
    alloc: Global,
    lines: &mut Vec<u8>,
    puts: &mut P,
    index: usize,
    world: &mut World,
    command: Command,
) -> Result<(), Refusal>
    requires within { IsWithin (length world.old.nodes) command }
    requires none { lines.old.items ≡ [] }
    ensures ok { OnOk result (IsDone (P.form puts.old) index world.old command lines.new.items world.new) }
    ensures same { OnOk result (P.form puts.new ≡ P.form puts.old) }
    ensures err { OnErr result (MayBeDone world.old command world.new) }
    ensures memory { IsOkUnless result Refusal.Memory }
{
    match puts.meet(index, world, &command) {
        Ok(()) => do_met(alloc, lines, puts, index, world, command),
        Err(refusal) => Err(refusal),
    }
}

/// The same, where what puts its lines met it.
#[inline(always)]
fn do_met<P: PutsSteps>(
    alloc: Global,
    lines: &mut Vec<u8>,
    puts: &mut P,
    index: usize,
    world: &mut World,
    command: Command,
) -> Result<(), Refusal>
    requires within { IsWithin (length world.old.nodes) command }
    requires none { lines.old.items ≡ [] }
    requires met { P.met puts.old index world.old command }
    ensures ok { OnOk result (IsDone (P.form puts.old) index world.old command lines.new.items world.new) }
    ensures same { OnOk result (P.form puts.new ≡ P.form puts.old) }
    ensures err { OnErr result (MayBeDone world.old command world.new) }
    ensures memory { IsOkUnless result Refusal.Memory }
{
    match command {
        Command::Act(event) => act(alloc, lines, puts, index, world, event),
        Command::Look(look) => puts.put_look(alloc, lines, world, &look),
    }
}

/// Brings the event about, and puts the line of its answer, which is looked at where it is: it is large to move.
#[inline(always)]
fn act<P: PutsSteps>(
    alloc: Global,
    line: &mut Vec<u8>,
    puts: &mut P,
    index: usize,
    world: &mut World,
    event: WorldEvent,
) -> Result<(), Refusal>
    requires within { node_in event ≤ length world.old.nodes }
    requires none { line.old.items ≡ [] }
    requires met { P.met puts.old index world.old (commands.Act event) }
    ensures ok { OnOk result (IsDone (P.form puts.old) index world.old (commands.Act event) line.new.items world.new) }
    ensures same { OnOk result (P.form puts.new ≡ P.form puts.old) }
    ensures err { OnErr result (MayBeDone world.old (commands.Act event) world.new) }
    ensures memory { IsOkUnless result Refusal.Memory }
{
    let answer = world.step(event);
    if is_memory(&answer) {
        return Err(Refusal::Memory);
    }
    puts.put_answer(alloc, line, world, &answer)
}

/// Brings the event about, and gives its answer; or memory was refused, and nothing happened.
///
/// The event's node is one of the world's.
pub fn answer_to(
    alloc: Global,
    world: &mut World,
    event: &WorldEvent,
) -> Result<Result<Reply, Refusal>, Refusal>
    requires { node_in event.now ≤ length world.old.nodes }
    ensures ok { IfOk result (λ answer. IsReply world.old event.now answer × (world.new ≡ happens world.old event.now)) }
    ensures err { OnErr result (world.new ≡ world.old) }
    ensures memory { IsOkUnless result Refusal.Memory }
{
    let answer = world.step(event.copy(alloc)?);
    if is_memory(&answer) {
        return Err(Refusal::Memory);
    }
    Ok(answer)
}
