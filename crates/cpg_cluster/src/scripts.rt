//! Scripts of commands, read and checked whole, each command with the number of its line.

ghost use Rattle.std.specs.Prelude.{◌≡◌, ◌≤◌, Ok, All, length, slice_index, IfOk, IfErr, IsOkUnless};
ghost use Rattle.cpg_text.specs.Reading.{FailsAs};
ghost use Rattle.cpg_cluster.specs.Commands.{IsWithin};
ghost use Rattle.cpg_cluster.specs.Scripts.{commands_of_script, numbers_of};

use crate::commands::Numbered;
use crate::reading::command_in_line;
use cpg_cred::Refusal;
use cpg_text::{Lines, MOST_BYTES, ReadsLine, is_ignored, read_script, trim};
use std::alloc::Global;

/// The numbers of the script's lines that are not ignored; lines are counted from 1.
#[tactic(auto, using(cpg_text::proofs::Lengths::lines_few, crate::proofs::Scripted::number_ignored, crate::proofs::Scripted::number_held))]
pub fn read_numbers(alloc: Global, script: &[u8]) -> Result<Vec<u32>, Refusal>
    requires { length script.now ≤ MOST_BYTES }
    ensures ok { IfOk result (λ numbers. numbers.items ≡ numbers_of script.now) }
    ensures memory { IsOkUnless result Refusal.Memory }
{
    let mut numbers = Vec::new(alloc);
    let mut number = 0u32;
    for line in Lines::of(script) {
        number += 1;
        if !is_ignored(trim(line)) {
            numbers.push(number)?;
        }
    }
    Ok(numbers)
}

/// The number that stands at the index, and 0 past the last.
fn number_at(numbers: &[u32], index: usize) -> u32
    ensures { result ≡ slice_index numbers.now index }
{
    match numbers.get(index) {
        None => 0,
        Some(number) => *number,
    }
}

/// Reads commands where there are so many nodes and the lines that hold one have those numbers.
#[derive(Debug, Clone, Copy)]
struct CommandReader<'a> {
    nodes: u8,
    numbers: &'a [u32],
}

impl ReadsLine for CommandReader<'_> {
    type Item = Numbered;

    ghost use Rattle.cpg_cluster.specs.Commands.{IsWithin};
    ghost use Rattle.cpg_cluster.specs.Steps.{numbered_by};

    ghost meaning = { λ reader before line. numbered_by reader.nodes reader.numbers.now before line };

    ghost holds = { λ reader line. IsWithin reader.nodes line.command };

    #[tactic(auto, using(cpg_print::proofs::Somes::mapped))]
    fn read(&self, alloc: Global, before: usize, line: &[u8]) -> Result<Option<Numbered>, Refusal> {
        match command_in_line(alloc, self.nodes, line)? {
            None => Ok(None),
            Some(command) => {
                let number = number_at(self.numbers, before);
                Ok(Some(Numbered { number, command }))
            }
        }
    }
}

/// The commands of a script by those numbers of its lines.
fn read_numbered(
    alloc: Global,
    nodes: u8,
    numbers: &[u32],
    script: &[u8],
) -> Result<Vec<Numbered>, Refusal>
    requires short { length script.now ≤ MOST_BYTES }
    requires numbers { numbers.now ≡ numbers_of script.now }
    ensures ok { IfOk result (λ lines. commands_of_script nodes script.now ≡ Ok lines.items) }
    ensures within { IfOk result (λ lines. All (λ line. IsWithin nodes line.command) lines.items) }
    ensures err { IfErr result (λ refusal. FailsAs (commands_of_script nodes script.now) refusal) }
{
    read_script(alloc, &CommandReader { nodes, numbers }, script)
}

/// The same by whatever numbers: a bad line is told alike.
fn read_by(
    alloc: Global,
    nodes: u8,
    numbers: &[u32],
    script: &[u8],
) -> Result<Vec<Numbered>, Refusal>
    requires { length script.now ≤ MOST_BYTES }
    ensures { IfErr result (λ refusal. FailsAs (commands_of_script nodes script.now) refusal) }
{
    read_script(alloc, &CommandReader { nodes, numbers }, script)
}

/// The commands of a script, where there are so many nodes, or `BadCommand` with its first bad line. Where there is no
/// memory for the numbers of its lines, a bad line is told all the same, as far as it is found without.
pub fn read_commands(alloc: Global, nodes: u8, script: &[u8]) -> Result<Vec<Numbered>, Refusal>
    requires { length script.now ≤ MOST_BYTES }
    ensures ok { IfOk result (λ lines. commands_of_script nodes script.now ≡ Ok lines.items) }
    ensures within { IfOk result (λ lines. All (λ line. IsWithin nodes line.command) lines.items) }
    ensures err { IfErr result (λ refusal. FailsAs (commands_of_script nodes script.now) refusal) }
{
    match read_numbers(alloc, script) {
        Ok(numbers) => read_numbered(alloc, nodes, numbers.as_slice(), script),
        Err(_) => {
            read_by(alloc, nodes, &[], script)?;
            Err(Refusal::Memory)
        }
    }
}
