//! Scripts of commands, read and checked whole.

ghost use Rattle.std.specs.Prelude.{◌≡◌, ◌≤◌, Ok, All, length, IfOk, IfErr};
ghost use Rattle.cpg_text.specs.Reading.{FailsAs};
ghost use Rattle.cpg_step.specs.Commands.{IsWithin};
ghost use Rattle.cpg_step.specs.Scripts.{commands_of_script};

use crate::commands::Command;
use crate::reading::command_in_line;
use cpg_cred::Refusal;
use cpg_text::{MOST_BYTES, ReadsLine, read_script};
use std::alloc::Global;

/// Reads commands in a ring of so many nodes.
#[derive(Debug, Clone, Copy)]
struct CommandReader {
    nodes: u8,
}

impl ReadsLine for CommandReader {
    type Item = Command;

    ghost use Rattle.cpg_text.specs.Lines.{words_of};
    ghost use Rattle.cpg_step.specs.Commands.{command_of, IsWithin};

    ghost meaning = { λ reader before line. command_of reader.nodes (words_of line) };

    ghost holds = { λ reader command. IsWithin reader.nodes command };

    fn read(&self, alloc: Global, _before: usize, line: &[u8]) -> Result<Option<Command>, Refusal> {
        command_in_line(alloc, self.nodes, line)
    }
}

/// The commands of a script, in a ring of so many nodes, or `BadCommand` with its first bad line.
pub fn read_commands(alloc: Global, nodes: u8, script: &[u8]) -> Result<Vec<Command>, Refusal>
    requires { length script.now ≤ MOST_BYTES }
    ensures ok { IfOk result (λ commands. commands_of_script nodes script.now ≡ Ok commands.items) }
    ensures within { IfOk result (λ commands. All (λ command. IsWithin nodes command) commands.items) }
    ensures err { IfErr result (λ refusal. FailsAs (commands_of_script nodes script.now) refusal) }
{
    read_script(alloc, &CommandReader { nodes }, script)
}
