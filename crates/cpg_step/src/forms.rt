//! The forms in which it is told what commands are answered.

use crate::commands::{Command, Look};
use crate::looking::put_look;
use crate::printing::put_answer;
use cpg_cred::Refusal;
use cpg_world::{Reply, World};
use std::alloc::Global;

/// What puts the lines of commands, one after the other. It meets each before it is done, and keeps what it needs of it.
pub trait PutsSteps: Drop {
    ghost use Rattle.std.specs.Prelude.{◌≡◌, ◌++◌, ℕ, length, OnOk, IsOkUnless};
    ghost use Rattle.std.specs.List.{concat};
    ghost use Rattle.cpg_world_laws.specs.declared.events.WorldEvent.{WorldEvent};
    ghost use Rattle.cpg_world_laws.specs.Worlds.{WorldValue, happens};
    ghost use Rattle.cpg_step.specs.declared.commands.Command.{Command as CommandValue};
    ghost use Rattle.cpg_step.specs.declared.commands.Command.TheVariants as commands;
    ghost use Rattle.cpg_step.specs.Commands.{LooksWithin};
    ghost use Rattle.cpg_step.specs.Running.{Form, answer_by, look_by};

    // The form.
    ghost form: { Self → Form };

    // It met the command of that index in that world.
    ghost met: { Self → ℕ → WorldValue → CommandValue → Type 0 };

    /// Meets the command of that index, before it is done.
    fn meet(&mut self, index: usize, world: &World, command: &Command) -> Result<(), Refusal>
        ensures same { OnOk result (form self.new ≡ form self.old) }
        ensures met { OnOk result (met self.new index world.now command.now) }
        ensures memory { IsOkUnless result Refusal.Memory };

    /// Puts the line of what the event that it met was answered, after it happened, at the lines' end.
    fn put_answer(
        &mut self,
        alloc: Global,
        line: &mut Vec<u8>,
        world: &World,
        answer: &Result<Reply, Refusal>,
    ) -> Result<(), Refusal>
        ensures ok { OnOk result ((index : ℕ) (w : WorldValue) (e : WorldEvent) → met self.old index w (commands.Act e) → world.now ≡ happens w e → line.new.items ≡ line.old.items ++ answer_by (form self.old) index w e answer.now) }
        ensures same { OnOk result (form self.new ≡ form self.old) }
        ensures memory { IsOkUnless result Refusal.Memory };

    /// Puts the lines of the look that it met at the lines' end.
    fn put_look(
        &mut self,
        alloc: Global,
        lines: &mut Vec<u8>,
        world: &World,
        look: &Look,
    ) -> Result<(), Refusal>
        requires { LooksWithin (length world.now.nodes) look.now }
        ensures ok { OnOk result ((index : ℕ) → met self.old index world.now (commands.Look look.now) → lines.new.items ≡ lines.old.items ++ concat (look_by (form self.old) index world.now look.now)) }
        ensures same { OnOk result (form self.new ≡ form self.old) }
        ensures memory { IsOkUnless result Refusal.Memory };
}

/// A form in which it is told what the commands of a script are answered.
pub trait TellsSteps {
    ghost use Rattle.std.specs.Prelude.{◌≡◌, ◌≤◌, ℕ, List, length, IfOk, IsOkUnless};
    ghost use Rattle.cpg_text.specs.declared.streams.TheConstants.{MOST_BYTES};
    ghost use Rattle.cpg_step.specs.Running.{Form};

    /// What puts its lines.
    type Puts: PutsSteps;

    // The form of what is told of a script.
    ghost form: { Self → List ℕ → Form };

    /// What puts the lines of the commands of that script.
    fn begin(&self, alloc: Global, script: Vec<u8>) -> Result<Self::Puts, Refusal>
        requires { length script.items ≤ MOST_BYTES }
        ensures form { IfOk result (λ puts. Self.Puts.form puts ≡ form self.now script.items) }
        ensures memory { IsOkUnless result Refusal.Memory };
}

/// Lines of text.
#[derive(Debug, Clone, Copy)]
pub struct SteppedAsText;

impl TellsSteps for SteppedAsText {
    type Puts = SteppedAsText;

    ghost use Rattle.cpg_step.specs.Running.{stepped_text};

    ghost form = { λ told script. stepped_text };

    fn begin(&self, _alloc: Global, _script: Vec<u8>) -> Result<SteppedAsText, Refusal> {
        Ok(SteppedAsText)
    }
}

impl PutsSteps for SteppedAsText {
    ghost use Rattle.cpg_step.specs.Running.{stepped_text};

    ghost form = { λ puts. stepped_text };

    ghost met = { λ puts index w command. Unit {0} };

    #[inline(always)]
    fn meet(&mut self, _index: usize, _world: &World, _command: &Command) -> Result<(), Refusal> {
        Ok(())
    }

    #[inline(always)]
    fn put_answer(
        &mut self,
        alloc: Global,
        line: &mut Vec<u8>,
        _world: &World,
        answer: &Result<Reply, Refusal>,
    ) -> Result<(), Refusal> {
        put_answer(alloc, line, answer)
    }

    fn put_look(
        &mut self,
        alloc: Global,
        lines: &mut Vec<u8>,
        world: &World,
        look: &Look,
    ) -> Result<(), Refusal> {
        put_look(alloc, lines, world, look)
    }
}
