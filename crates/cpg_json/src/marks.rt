//! What stands at the head of an object: the number of its script line, and what is asked for beside it.
//!
//! Proved: what is put is the definition in `specs/Marks.antt`.

ghost use Rattle.std.specs.Prelude.{◌≡◌, ◌≤◌, ◌++◌, codes, map, decimal, slice_index, OnOk, IsOkUnless};
ghost use Rattle.cpg_step.specs.Targets.{command_target, target_word};
ghost use Rattle.cpg_json.specs.Marks.{echo_words, frames_between, line_fields, mark_fields, numbers_field, sent_fields};
ghost use Rattle.cpg_json.specs.Objects.{after_comma, field, joined, more, word};

use crate::objects::{put_name, put_number};
use cpg_cred::Refusal;
use cpg_step::{Command, command_target, put_target};
use cpg_text::{push_number, put};

/// What stands in the objects of `step` behind their kind.
#[derive(Debug, Clone, Copy)]
pub enum Marks {
    /// The number of the script's line.
    Line,
    /// That number, and what `step --echo` has before a line.
    Echo,
    /// That number, and the numbers of the frames that the command sent.
    Numbers,
}

/// Puts the number of a line, where there is one, at the head's end.
pub(crate) fn put_line_number(head: &mut Vec<u8>, number: Option<u32>) -> Result<(), Refusal>
    ensures ok { OnOk result (head.new.items ≡ head.old.items ++ more (line_fields number)) }
    ensures memory { IsOkUnless result Refusal.Memory }
{
    match number {
        None => Ok(()),
        Some(number) => put_number(head, "line", u64::from(number)),
    }
}

/// The number of that index, which is that of a command among those of its script.
pub fn number_at(numbers: &[u32], index: usize) -> u32
    ensures { result ≡ slice_index numbers.now index }
{
    match numbers.get(index) {
        None => 0,
        Some(number) => *number,
    }
}

/// Puts the marks of the answers to a command at the head's end, whose line has that number.
pub(crate) fn put_marks(
    head: &mut Vec<u8>,
    marks: Marks,
    number: u32,
    command: &Command,
) -> Result<(), Refusal>
    ensures ok { OnOk result (head.new.items ≡ head.old.items ++ more (mark_fields marks number (target_word (command_target command.now)))) }
    ensures memory { IsOkUnless result Refusal.Memory }
{
    put_number(head, "line", u64::from(number))?;
    match marks {
        Marks::Line | Marks::Numbers => Ok(()),
        Marks::Echo => put_echo(head, number, command),
    }
}

/// Puts the numbers of the frames that the command sent, where they are asked for: so many were sent before it, and so
/// many after it.
pub(crate) fn put_sent(
    head: &mut Vec<u8>,
    marks: Marks,
    before: usize,
    last: usize,
) -> Result<(), Refusal>
    ensures ok { OnOk result (head.new.items ≡ head.old.items ++ more (sent_fields marks before last)) }
    ensures memory { IsOkUnless result Refusal.Memory }
{
    match marks {
        Marks::Line | Marks::Echo => Ok(()),
        Marks::Numbers => put_numbers(head, before, last),
    }
}

/// Puts the number of a line and what its command is of at the head's end, as a field.
#[tactic(auto, unfolding(crate::specs::Objects::after_comma, crate::specs::Objects::field, crate::specs::Objects::word))]
fn put_echo(head: &mut Vec<u8>, number: u32, command: &Command) -> Result<(), Refusal>
    ensures ok { OnOk result (head.new.items ≡ head.old.items ++ after_comma (field (codes "echo") (word (echo_words number (target_word (command_target command.now)))))) }
    ensures memory { IsOkUnless result Refusal.Memory }
{
    put_name(head, "echo")?;
    put(head, "\"")?;
    push_number(head, u64::from(number))?;
    put(head, " ")?;
    put_target(head, command_target(command))?;
    put(head, "\"")
}

/// Puts the numbers of the frames that were sent after so many, up to so many, at the head's end, as a field.
#[tactic(auto, unfolding(crate::specs::Objects::after_comma, crate::specs::Objects::field))]
fn put_numbers(head: &mut Vec<u8>, before: usize, last: usize) -> Result<(), Refusal>
    ensures ok { OnOk result (head.new.items ≡ head.old.items ++ after_comma (numbers_field before last)) }
    ensures memory { IsOkUnless result Refusal.Memory }
{
    put_name(head, "numbers")?;
    put(head, "[")?;
    put_joined_numbers(head, before, last)?;
    put(head, "]")
}

#[tactic(auto, using(crate::proofs::Heads::none_joined, crate::proofs::Heads::first_put))]
fn put_joined_numbers(head: &mut Vec<u8>, before: usize, last: usize) -> Result<(), Refusal>
    ensures ok { OnOk result (head.new.items ≡ head.old.items ++ joined (map decimal (frames_between before last))) }
    ensures memory { IsOkUnless result Refusal.Memory }
{
    if last <= before {
        return Ok(());
    }
    push_number(head, before as u64 + 1)?;
    put_more_numbers(head, before + 1, last)
}

#[tactic(auto, using(crate::proofs::Heads::none_put))]
fn put_more_numbers(head: &mut Vec<u8>, before: usize, last: usize) -> Result<(), Refusal>
    requires { before ≤ last }
    ensures ok { OnOk result (head.new.items ≡ head.old.items ++ more (map decimal (frames_between before last))) }
    ensures memory { IsOkUnless result Refusal.Memory }
{
    for index in before..last {
        put(head, ",")?;
        push_number(head, index as u64 + 1)?;
    }
    Ok(())
}
