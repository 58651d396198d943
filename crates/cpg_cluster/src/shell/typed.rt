//! What a typed line says.
//!
//! Proved: it is the definition in `specs/Typed.antt`.

ghost use Rattle.std.specs.Prelude.{◌≡◌, IfOk, IsOkUnless};
ghost use Rattle.cpg_text.specs.Lines.{words_of};
ghost use Rattle.cpg_cluster.specs.Commands.{command_of};
ghost use Rattle.cpg_cluster.specs.Typed.{command_or_bad, said_by, typed_of, IsTypedWithin};

use crate::commands::Command;
use crate::reading::command_in_line;
use crate::shell::lines::MOST_LINE;
use cpg_cred::Refusal;
use cpg_text::{is, is_ignored, trim};
use std::alloc::Global;

/// What a typed line says.
#[derive(Debug, Drop)]
pub enum Typed {
    /// Nothing: it is empty or begins with `#`.
    Nothing,
    /// `help`: the commands are to be listed.
    Help,
    /// A command of a cluster's script.
    Command(Command),
    /// No command, or more bytes than a line may have.
    Bad,
}

/// What a line says, where there are so many nodes.
pub fn read_typed(alloc: Global, nodes: u8, line: &[u8]) -> Result<Typed, Refusal>
    ensures ok { IfOk result (λ said. said ≡ typed_of nodes line.now) }
    ensures within { IfOk result (λ said. IsTypedWithin nodes said) }
    ensures memory { IsOkUnless result Refusal.Memory }
{
    if line.len() > MOST_LINE {
        return Ok(Typed::Bad);
    }
    read_trimmed(alloc, nodes, trim(line))
}

/// What a trimmed line says that is not too long.
fn read_trimmed(alloc: Global, nodes: u8, line: &[u8]) -> Result<Typed, Refusal>
    ensures ok { IfOk result (λ said. said ≡ said_by nodes line.now) }
    ensures within { IfOk result (λ said. IsTypedWithin nodes said) }
    ensures memory { IsOkUnless result Refusal.Memory }
{
    if is_ignored(line) {
        Ok(Typed::Nothing)
    } else if is(line, b"help".as_slice()) {
        Ok(Typed::Help)
    } else {
        read_command(alloc, nodes, line)
    }
}

/// The command of a line, if it says one.
fn read_command(alloc: Global, nodes: u8, line: &[u8]) -> Result<Typed, Refusal>
    ensures ok { IfOk result (λ said. said ≡ command_or_bad (command_of nodes (words_of line.now))) }
    ensures within { IfOk result (λ said. IsTypedWithin nodes said) }
    ensures memory { IsOkUnless result Refusal.Memory }
{
    match command_in_line(alloc, nodes, line)? {
        None => Ok(Typed::Bad),
        Some(command) => Ok(Typed::Command(command)),
    }
}
