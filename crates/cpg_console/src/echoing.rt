//! `cpgring step --echo`: a script is read and checked whole, run over a world, and what it prints written, each line behind
//! the number of its script line and what its command is of.
//!
//! Proved: the bytes, after success and after each fault.

ghost use Rattle.std.specs.Prelude.{◌≡◌, ◌≤◌, ◌++◌, ◌↔◌, Err, Some, None, length, map, OnOk, IfErr, IfSome, IsOkUnless};
ghost use Rattle.cpg_step.specs.Scripts.{commands_of_script};
ghost use Rattle.cpg_step.specs.Targets.{command_target};
ghost use Rattle.cpg_why.specs.Scripts.{numbers_of};
ghost use Rattle.cpg_console.specs.Echoing.{echo_of, IsWritten, Leaves, EndsEchoing};
ghost use Rattle.cpg_console.specs.Runs.{Echoes, FailsLate};
ghost use Rattle.cpg_console.specs.Words.{list_of_words};

use crate::failures::Failure;
use crate::stepping::world_by;
use cpg_cluster::put_echoed;
use cpg_cred::Refusal;
use cpg_json::number_at;
use cpg_ring::Settings;
use cpg_step::{
    Command, Look, PutsSteps, TellsSteps, command_target, put_answer, put_look, put_target,
    run_gathered,
};
use cpg_text::{Fault, MOST_BYTES, push_number, put};
use cpg_why::read_numbers;
use cpg_world::{Reply, World};
use std::alloc::Global;
use std::io::{Read, Write};

/// Runs the script over a new world of those settings, whose nodes let in whom the words let in, and writes what it prints,
/// each line behind its echo.
///
/// A wrong word comes first, then settings out of their ranges, then the faults of the script.
#[tactic(auto, using(crate::proofs::Started::none_late, crate::proofs::EchoedWorlds::none_echoed, crate::proofs::EchoedWorlds::all_echoed, crate::proofs::EchoedWorlds::part_echoed, crate::proofs::EchoedWorlds::echoed_late))]
pub fn echo_over_world<R: Read, W: Write>(
    alloc: Global,
    settings: Settings,
    words: &[&str],
    reader: &mut R,
    writer: &mut W,
) -> Result<(), Failure>
    ensures ok { OnOk result (IfSome (R.remaining reader.old) (λ script.
        Echoes settings (list_of_words (map (λ word. word.now) words.now)) script None (W.contents writer.old) (W.contents writer.new))) }
    ensures err { IfErr result (λ failure. IfSome (R.remaining reader.old) (λ script.
        Echoes settings (list_of_words (map (λ word. word.now) words.now)) script (Some failure) (W.contents writer.old) (W.contents writer.new))) }
    ensures late { IfErr result (λ failure. FailsLate failure (W.contents writer.old) (W.contents writer.new)) }
    ensures word { (result ≡ Err Failure.BadWord) ↔ (list_of_words (map (λ word. word.now) words.now) ≡ None) }
{
    match world_by(alloc, settings, words) {
        Err(failure) => Err(failure),
        Ok(world) => match step_echoed(alloc, reader, writer, world) {
            Err(fault) => Err(Failure::from(fault)),
            Ok(()) => Ok(()),
        },
    }
}

/// Runs the commands of a script over the world, and writes what each prints, once all are done: each line behind the
/// number of its script line and the connection or the node that its command is of, `7 1.2 `, `7 n1 ` or `7 - `.
///
/// The faults come in this order: `Read`, then `BadCommand` with the first bad line, then `Memory`, all with
/// nothing written; and last `Write`, which leaves a front of the text.
fn step_echoed<R: Read, W: Write>(
    alloc: Global,
    reader: &mut R,
    writer: &mut W,
    world: World,
) -> Result<(), Fault>
    ensures ok { OnOk result (IfSome (R.remaining reader.old) (λ script.
        (length script ≤ MOST_BYTES) × IsWritten (commands_of_script world.settings.nodes script) (numbers_of script) world (W.contents writer.old) (W.contents writer.new))) }
    ensures err { IfErr result (λ fault. IfSome (R.remaining reader.old) (λ script.
        Leaves (commands_of_script world.settings.nodes script) (numbers_of script) fault.refusal world (W.contents writer.old) (W.contents writer.new))) }

    // Nothing is written before the text is whole, even where the reader tells no bytes.
    ensures ends { IfErr result (λ fault. EndsEchoing fault.refusal (W.contents writer.old) (W.contents writer.new)) }
    ensures whole { IfErr result (λ fault. fault.part ≡ None) }
{
    run_gathered(alloc, &SteppedWithEcho, reader, writer, world)
}

/// Lines of text, each behind its echo.
#[derive(Debug, Clone, Copy)]
struct SteppedWithEcho;

/// What puts them: the numbers of the commands' lines, and the echo of the command that it met.
#[derive(Drop)]
struct EchoedLines {
    numbers: Vec<u32>,
    echo: Vec<u8>,
}

impl TellsSteps for SteppedWithEcho {
    type Puts = EchoedLines;

    ghost use Rattle.cpg_why.specs.Scripts.{numbers_of};
    ghost use Rattle.cpg_console.specs.Echoing.{stepped_echoed};

    ghost form = { λ told script. stepped_echoed (numbers_of script) };

    fn begin(&self, alloc: Global, script: Vec<u8>) -> Result<EchoedLines, Refusal> {
        let numbers = read_numbers(alloc, script.as_slice())?;
        Ok(EchoedLines {
            numbers,
            echo: Vec::new(alloc),
        })
    }
}

impl PutsSteps for EchoedLines {
    ghost use Rattle.std.specs.Prelude.{◌≡◌, slice_index};
    ghost use Rattle.cpg_step.specs.Targets.{command_target};
    ghost use Rattle.cpg_console.specs.Echoing.{echo_of, stepped_echoed};

    ghost form = { λ puts. stepped_echoed puts.numbers.items };

    ghost met = { λ puts index w command. puts.echo.items ≡ echo_of (slice_index puts.numbers.items index) (command_target command) };

    fn meet(&mut self, index: usize, _world: &World, command: &Command) -> Result<(), Refusal> {
        self.echo.clear();
        let number = number_at(self.numbers.as_slice(), index);
        put_echo(&mut self.echo, number, command)
    }

    fn put_answer(
        &mut self,
        alloc: Global,
        line: &mut Vec<u8>,
        _world: &World,
        answer: &Result<Reply, Refusal>,
    ) -> Result<(), Refusal> {
        let mut plain = Vec::new(alloc);
        put_answer(alloc, &mut plain, answer)?;
        put_echoed(line, self.echo.as_slice(), plain.as_slice())
    }

    fn put_look(
        &mut self,
        alloc: Global,
        lines: &mut Vec<u8>,
        world: &World,
        look: &Look,
    ) -> Result<(), Refusal> {
        let mut plain = Vec::new(alloc);
        put_look(alloc, &mut plain, world, look)?;
        put_echoed(lines, self.echo.as_slice(), plain.as_slice())
    }
}

/// Puts what stands before the lines of a command, whose own line has that number.
fn put_echo(words: &mut Vec<u8>, number: u32, command: &Command) -> Result<(), Refusal>
    ensures ok { OnOk result (words.new.items ≡ words.old.items ++ echo_of number (command_target command.now)) }
    ensures memory { IsOkUnless result Refusal.Memory }
{
    push_number(words, u64::from(number))?;
    put(words, " ")?;
    put_target(words, command_target(command))?;
    put(words, " ")
}
