//! Answers as they are printed with the number of their command's line and its session before each line.

ghost use Rattle.std.specs.Prelude.{◌≡◌, ◌++◌, codes, decimal, OnOk, IsOkUnless};
ghost use Rattle.cpg_cluster.specs.Lines.{opened_word, session_word, echo_of, echoed_line, echoed};

use crate::commands::{Command, Numbered};
use crate::replies::Reply;
use cpg_cred::Refusal;
use cpg_text::{Lines, push_number, put, put_byte, put_bytes};
use std::alloc::Global;

/// Puts the number of a session at the text's end.
fn put_number(text: &mut Vec<u8>, number: u64) -> Result<(), Refusal>
    ensures ok { OnOk result (text.new.items ≡ text.old.items ++ codes "s" ++ decimal number) }
    ensures memory { IsOkUnless result Refusal.Memory }
{
    put(text, "s")?;
    push_number(text, number)
}

/// Puts the session that was opened, if one was, at the text's end.
fn put_opened(text: &mut Vec<u8>, answer: &Result<Reply, Refusal>) -> Result<(), Refusal>
    ensures ok { OnOk result (text.new.items ≡ text.old.items ++ opened_word answer.now) }
    ensures memory { IsOkUnless result Refusal.Memory }
{
    match answer {
        Ok(Reply::Opened(number)) => put_number(text, *number as u64),
        _ => put(text, "-"),
    }
}

/// Puts the session of a command at the text's end.
fn put_session_word(
    text: &mut Vec<u8>,
    command: &Command,
    answer: &Result<Reply, Refusal>,
) -> Result<(), Refusal>
    ensures ok { OnOk result (text.new.items ≡ text.old.items ++ session_word command.now answer.now) }
    ensures memory { IsOkUnless result Refusal.Memory }
{
    match command {
        Command::Connect(_, _, _) => put_opened(text, answer),
        Command::Ask(number, _) | Command::Close(number) => put_number(text, u64::from(*number)),
        Command::Safe(_) => put(text, "-"),
    }
}

/// Puts the words that stand before each line that a command prints at the text's end.
fn put_echo(
    text: &mut Vec<u8>,
    line: &Numbered,
    answer: &Result<Reply, Refusal>,
) -> Result<(), Refusal>
    ensures ok { OnOk result (text.new.items ≡ text.old.items ++ echo_of line.now answer.now) }
    ensures memory { IsOkUnless result Refusal.Memory }
{
    push_number(text, u64::from(line.number))?;
    put(text, " ")?;
    put_session_word(text, &line.command, answer)?;
    put(text, " ")
}

/// Puts the line after the words at the text's end, and nothing where it is empty.
fn put_line(text: &mut Vec<u8>, words: &[u8], line: &[u8]) -> Result<(), Refusal>
    ensures ok { OnOk result (text.new.items ≡ text.old.items ++ echoed_line words.now line.now) }
    ensures memory { IsOkUnless result Refusal.Memory }
{
    match line {
        [] => Ok(()),
        [_, ..] => {
            put_bytes(text, words)?;
            put_bytes(text, line)?;
            put_byte(text, b'\n')
        }
    }
}

/// Puts each line of the answer after the words at the text's end. `Memory` is the only error.
#[tactic(auto, using(crate::proofs::Echoed::one_line_on, crate::proofs::Echoed::no_line_left))]
pub fn put_echoed(text: &mut Vec<u8>, words: &[u8], answer: &[u8]) -> Result<(), Refusal>
    ensures ok { OnOk result (text.new.items ≡ text.old.items ++ echoed words.now answer.now) }
    ensures memory { IsOkUnless result Refusal.Memory }
{
    for line in Lines::of(answer) {
        put_line(text, words, line)?;
    }
    Ok(())
}

/// Puts a text of the answer to a command, each line after its echo, at the text's end.
pub fn put_after_echo(
    alloc: Global,
    text: &mut Vec<u8>,
    line: &Numbered,
    answer: &Result<Reply, Refusal>,
    told: &[u8],
) -> Result<(), Refusal>
    ensures ok { OnOk result (text.new.items ≡ text.old.items ++ echoed (echo_of line.now answer.now) told.now) }
    ensures memory { IsOkUnless result Refusal.Memory }
{
    let mut words = Vec::new(alloc);
    put_echo(&mut words, line, answer)?;
    put_echoed(text, words.as_slice(), told)
}
