//! What the commands of a script over a world are answered, as JSON: an object a line, each with its marks.

use crate::answers::put_answer;
use crate::looking::LookedAsJson;
use crate::marks::{Marks, number_at, put_marks, put_sent};
use cpg_cred::Refusal;
use cpg_step::{Command, Look, PutsSteps, TellsSteps, put_look_in};
use cpg_why::read_numbers;
use cpg_world::{Reply, World};
use std::alloc::Global;

/// Objects of JSON, one a line, each with those marks.
#[derive(Debug, Clone, Copy)]
pub struct SteppedAsJson {
    pub marks: Marks,
}

/// What puts them: the numbers of the commands' lines, the head of the command that it met, and how many frames were
/// sent before it.
#[derive(Drop)]
pub struct SteppedObjects {
    marks: Marks,
    numbers: Vec<u32>,
    head: Vec<u8>,
    sent: usize,
}

impl TellsSteps for SteppedAsJson {
    type Puts = SteppedObjects;

    ghost use Rattle.cpg_why.specs.Scripts.{numbers_of};
    ghost use Rattle.cpg_json.specs.Stepping.{stepped_json};

    ghost form = { λ told script. stepped_json told.marks (numbers_of script) };

    fn begin(&self, alloc: Global, script: Vec<u8>) -> Result<SteppedObjects, Refusal> {
        let numbers = read_numbers(alloc, script.as_slice())?;
        Ok(SteppedObjects {
            marks: self.marks,
            numbers,
            head: Vec::new(alloc),
            sent: 0,
        })
    }
}

impl PutsSteps for SteppedObjects {
    ghost use Rattle.std.specs.Prelude.{◌≡◌, length, slice_index};
    ghost use Rattle.cpg_step.specs.Targets.{command_target, target_word};
    ghost use Rattle.cpg_json.specs.Marks.{mark_fields};
    ghost use Rattle.cpg_json.specs.Objects.{more};
    ghost use Rattle.cpg_json.specs.Stepping.{stepped_json};

    ghost form = { λ puts. stepped_json puts.marks puts.numbers.items };

    ghost met = { λ puts index w command. (puts.head.items ≡ more (mark_fields puts.marks (slice_index puts.numbers.items index) (target_word (command_target command)))) × (puts.sent ≡ length w.sent) };

    fn meet(&mut self, index: usize, world: &World, command: &Command) -> Result<(), Refusal> {
        self.head.clear();
        self.sent = world.sent();
        let number = number_at(self.numbers.as_slice(), index);
        put_marks(&mut self.head, self.marks, number, command)
    }

    fn put_answer(
        &mut self,
        _alloc: Global,
        line: &mut Vec<u8>,
        world: &World,
        answer: &Result<Reply, Refusal>,
    ) -> Result<(), Refusal> {
        put_sent(&mut self.head, self.marks, self.sent, world.sent())?;
        put_answer(line, self.head.as_slice(), answer)
    }

    fn put_look(
        &mut self,
        alloc: Global,
        lines: &mut Vec<u8>,
        world: &World,
        look: &Look,
    ) -> Result<(), Refusal> {
        put_sent(&mut self.head, self.marks, self.sent, self.sent)?;
        let head = self.head.as_slice();
        put_look_in(alloc, lines, &LookedAsJson { head }, world, look)
    }
}
