//! The commands of a script, done one after the other, with nothing put of their answers.

ghost use Rattle.std.specs.Prelude.{◌≡◌, ◌∷◌, [], All, length, OnOk, OnErr, IsOkUnless};
ghost use Rattle.cpg_step.specs.Commands.{IsWithin};
ghost use Rattle.cpg_step.specs.Running.{after};
ghost use Rattle.cpg_why.specs.Explaining.{AreDoneUpto};

use cpg_cred::Refusal;
use cpg_step::{Command, answer_to};
use cpg_world::World;
use std::alloc::Global;

/// Does one command; one that looks does nothing.
fn run_one(alloc: Global, world: &mut World, command: &Command) -> Result<(), Refusal>
    requires { IsWithin (length world.old.nodes) command.now }
    ensures ok { OnOk result (world.new ≡ after world.old (command.now ∷ [])) }
    ensures err { OnErr result (world.new ≡ world.old) }
    ensures memory { IsOkUnless result Refusal.Memory }
{
    match command {
        Command::Act(event) => {
            let _answer = answer_to(alloc, world, event)?;
            Ok(())
        }
        Command::Look(_) => Ok(()),
    }
}

/// Does the commands one after the other, as far as memory goes.
#[tactic(auto, using(crate::proofs::Done::none_done, crate::proofs::Done::all_done))]
pub(crate) fn run_all(alloc: Global, world: &mut World, commands: &[Command]) -> Result<(), Refusal>
    requires { All (λ command. IsWithin (length world.old.nodes) command) commands.now }
    ensures ok { OnOk result (world.new ≡ after world.old commands.now) }
    ensures err { OnErr result (AreDoneUpto world.old commands.now world.new) }
    ensures memory { IsOkUnless result Refusal.Memory }
{
    for command in commands {
        match run_one(alloc, world, command) {
            Ok(()) => {}
            Err(refusal) => return Err(refusal),
        }
    }
    Ok(())
}
