//! The form of `cpgring step --numbers`.
//!
//! Proved: what is put is that of the definition `stepped_numbered`.

ghost use Rattle.std.specs.Prelude.{◌≡◌, ◌++◌, OnOk, IsOkUnless};
ghost use Rattle.cpg_step.specs.NumberedSteps.{numbered_line};

use crate::commands::{Command, Look};
use crate::forms::{PutsSteps, TellsSteps};
use crate::looking::put_look;
use crate::numbers::frames::put_frames;
use crate::printing::put_answer;
use cpg_cred::Refusal;
use cpg_text::{put, put_bytes};
use cpg_world::{Reply, World};
use std::alloc::Global;

/// Lines of text, and behind each answer the numbers of the frames that were sent.
#[derive(Debug, Clone, Copy)]
pub struct SteppedWithNumbers;

/// What puts them: how many frames were sent before the command that it met.
#[derive(Debug, Clone, Copy)]
pub struct NumberedLines {
    sent: usize,
}

impl TellsSteps for SteppedWithNumbers {
    type Puts = NumberedLines;

    ghost use Rattle.cpg_step.specs.NumberedSteps.{stepped_numbered};

    ghost form = { λ told script. stepped_numbered };

    fn begin(&self, _alloc: Global, _script: Vec<u8>) -> Result<NumberedLines, Refusal> {
        Ok(NumberedLines { sent: 0 })
    }
}

impl PutsSteps for NumberedLines {
    ghost use Rattle.std.specs.Prelude.{◌≡◌, length};
    ghost use Rattle.cpg_step.specs.NumberedSteps.{stepped_numbered};

    ghost form = { λ puts. stepped_numbered };

    ghost met = { λ puts index w command. puts.sent ≡ length w.sent };

    fn meet(&mut self, _index: usize, world: &World, _command: &Command) -> Result<(), Refusal> {
        self.sent = world.sent();
        Ok(())
    }

    fn put_answer(
        &mut self,
        alloc: Global,
        line: &mut Vec<u8>,
        world: &World,
        answer: &Result<Reply, Refusal>,
    ) -> Result<(), Refusal> {
        put_numbered(alloc, line, answer, self.sent, world.sent())
    }

    fn put_look(
        &mut self,
        alloc: Global,
        lines: &mut Vec<u8>,
        world: &World,
        look: &Look,
    ) -> Result<(), Refusal> {
        put_look(alloc, lines, world, look)
    }
}

/// Puts the line of an answer and the numbers of the frames at the text's end: so many were sent before its event, and so
/// many after it.
#[tactic(auto, using(crate::proofs::NumberedLines::line_put))]
fn put_numbered(
    alloc: Global,
    text: &mut Vec<u8>,
    answer: &Result<Reply, Refusal>,
    before: usize,
    last: usize,
) -> Result<(), Refusal>
    ensures ok { OnOk result (text.new.items ≡ text.old.items ++ numbered_line before last answer.now) }
    ensures memory { IsOkUnless result Refusal.Memory }
{
    let mut line = Vec::new(alloc);
    put_answer(alloc, &mut line, answer)?;
    let _end = line.pop();
    put_bytes(text, line.as_slice())?;
    put_frames(text, before, last)?;
    put(text, "\n")
}
