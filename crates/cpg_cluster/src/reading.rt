//! Commands from words.
//!
//! Proved: each function reads what the definition in `specs/Commands.antt` says, where there are so many nodes.

ghost use Rattle.std.specs.Prelude.{◌≡◌, ℕ, IfOk, IfSome, option_map};
ghost use Rattle.cpg_text.specs.Lines.{words_of};
ghost use Rattle.cpg_text.specs.Memory.{IsOkUnlessMemoryFor};
ghost use Rattle.cpg_print.specs.Calls.{call_of};
ghost use Rattle.cpg_print.specs.Words.{texts};
ghost use Rattle.cpg_step.specs.Commands.{node_alone};
ghost use Rattle.cpg_cluster.specs.declared.commands.Ask.TheVariants.{Call as Submit};
ghost use Rattle.cpg_cluster.specs.declared.commands.Command.TheVariants as commands;
ghost use Rattle.cpg_cluster.specs.Commands.{connect_of, alone, list_of, ask_of, command_to, session_of, command_of, IsWithin};

use crate::commands::{Ask, Command};
use cpg_cred::{Cred, Refusal};
use cpg_entry::Name;
use cpg_print::read_call;
use cpg_step::{read_node, read_node_alone};
use cpg_text::{is, read_u32, take_words};
use std::alloc::Global;

/// The words of the longest line, and one more.
const WORDS: usize = 9;

fn read_connect(nodes: u8, words: &[&[u8]]) -> Option<Command>
    ensures command { result ≡ connect_of nodes (texts words.now) }
    ensures within { IfSome result (λ command. IsWithin nodes command) }
{
    match words {
        [node, pid, uid, gid] => {
            let node = read_node(nodes, node)?;
            let pid = read_u32(0, u32::MAX, pid)?;
            let uid = read_u32(0, u32::MAX, uid)?;
            let gid = read_u32(0, u32::MAX, gid)?;
            Some(Command::Connect(node, pid, Cred { uid, gid }))
        }
        _ => None,
    }
}

#[tactic(auto, using(cpg_print::proofs::Somes::mapped))]
fn read_submit(alloc: Global, words: &[&[u8]]) -> Result<Option<Ask>, Refusal>
    ensures ask { IfOk result (λ found. found ≡ option_map (λ call. Submit call) (call_of (texts words.now))) }
    ensures memory { IsOkUnlessMemoryFor result (option_map (λ call. Submit call) (call_of (texts words.now))) }
{
    match read_call(alloc, words)? {
        None => Ok(None),
        Some(call) => Ok(Some(Ask::Call(call))),
    }
}

fn read_list(alloc: Global, words: &[&[u8]]) -> Result<Option<Ask>, Refusal>
    ensures ask { IfOk result (λ found. found ≡ list_of (texts words.now)) }
    ensures memory { IsOkUnlessMemoryFor result (list_of (texts words.now)) }
{
    match words {
        [group] => {
            let group = Name::from_slice(alloc, group)?;
            Ok(Some(Ask::List(group)))
        }
        _ => Ok(None),
    }
}

/// What is asked, where no words follow.
fn read_alone(asked: Ask, words: &[&[u8]]) -> Option<Ask>
    ensures { result ≡ alone asked (texts words.now) }
{
    if words.is_empty() { Some(asked) } else { None }
}

/// What a session is asked for, by the command's first word and those after the session's number.
fn read_ask(alloc: Global, word: &[u8], arguments: &[&[u8]]) -> Result<Option<Ask>, Refusal>
    ensures ask { IfOk result (λ found. found ≡ ask_of word.now (texts arguments.now)) }
    ensures memory { IsOkUnlessMemoryFor result (ask_of word.now (texts arguments.now)) }
{
    if is(word, b"call".as_slice()) {
        read_submit(alloc, arguments)
    } else if is(word, b"wait".as_slice()) {
        Ok(read_alone(Ask::Wait, arguments))
    } else if is(word, b"list".as_slice()) {
        read_list(alloc, arguments)
    } else if is(word, b"groups".as_slice()) {
        Ok(read_alone(Ask::Groups, arguments))
    } else if is(word, b"audit".as_slice()) {
        Ok(read_alone(Ask::Audit, arguments))
    } else {
        Ok(None)
    }
}

fn read_close(number: u32, words: &[&[u8]]) -> Option<Command>
    ensures command { result ≡ alone (commands.Close number) (texts words.now) }
    ensures within { IfSome result (λ command. (nodes : ℕ) → IsWithin nodes command) }
{
    if words.is_empty() {
        Some(Command::Close(number))
    } else {
        None
    }
}

/// The end of a session, or what it is asked for.
#[tactic(auto, using(cpg_print::proofs::Somes::mapped))]
fn read_command_to(
    alloc: Global,
    word: &[u8],
    number: u32,
    arguments: &[&[u8]],
) -> Result<Option<Command>, Refusal>
    ensures command { IfOk result (λ found. found ≡ command_to word.now number (texts arguments.now)) }
    ensures within { IfOk result (λ found. IfSome found (λ command. (nodes : ℕ) → IsWithin nodes command)) }
    ensures memory { IsOkUnlessMemoryFor result (command_to word.now number (texts arguments.now)) }
{
    if is(word, b"close".as_slice()) {
        return Ok(read_close(number, arguments));
    }
    match read_ask(alloc, word, arguments)? {
        None => Ok(None),
        Some(asked) => Ok(Some(Command::Ask(number, asked))),
    }
}

/// A command whose second word is the number of a session.
fn read_session(alloc: Global, word: &[u8], words: &[&[u8]]) -> Result<Option<Command>, Refusal>
    ensures command { IfOk result (λ found. found ≡ session_of word.now (texts words.now)) }
    ensures within { IfOk result (λ found. IfSome found (λ command. (nodes : ℕ) → IsWithin nodes command)) }
    ensures memory { IsOkUnlessMemoryFor result (session_of word.now (texts words.now)) }
{
    match words {
        [] => Ok(None),
        [number, arguments @ ..] => match read_u32(0, u32::MAX, number) {
            None => Ok(None),
            Some(number) => read_command_to(alloc, word, number, arguments),
        },
    }
}

fn read_safe(nodes: u8, words: &[&[u8]]) -> Option<Command>
    ensures command { result ≡ option_map (λ n. commands.Safe n) (node_alone nodes (texts words.now)) }
    ensures within { IfSome result (λ command. IsWithin nodes command) }
{
    let node = read_node_alone(nodes, words)?;
    Some(Command::Safe(node))
}

/// The command of a line's words.
fn read_command(alloc: Global, nodes: u8, words: &[&[u8]]) -> Result<Option<Command>, Refusal>
    ensures command { IfOk result (λ found. found ≡ command_of nodes (texts words.now)) }
    ensures within { IfOk result (λ found. IfSome found (λ command. IsWithin nodes command)) }
    ensures memory { IsOkUnlessMemoryFor result (command_of nodes (texts words.now)) }
{
    match words {
        [] => Ok(None),
        [word, arguments @ ..] => {
            if is(word, b"connect".as_slice()) {
                Ok(read_connect(nodes, arguments))
            } else if is(word, b"safe".as_slice()) {
                Ok(read_safe(nodes, arguments))
            } else {
                read_session(alloc, word, arguments)
            }
        }
    }
}

/// The command of a line, where there are so many nodes, if it is one. That it is none is told whatever memory
/// there is.
#[tactic(auto, using(crate::proofs::Lengths::command_of_first))]
pub fn command_in_line(alloc: Global, nodes: u8, line: &[u8]) -> Result<Option<Command>, Refusal>
    ensures command { IfOk result (λ found. found ≡ command_of nodes (words_of line.now)) }
    ensures within { IfOk result (λ found. IfSome found (λ command. IsWithin nodes command)) }
    ensures memory { IsOkUnlessMemoryFor result (command_of nodes (words_of line.now)) }
{
    let words = take_words::<WORDS>(line);
    read_command(alloc, nodes, words.as_slice())
}
