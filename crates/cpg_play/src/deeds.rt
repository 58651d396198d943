//! What a line says over a running cluster, beside the commands of `run`.
//!
//! Proved: a node that a line names is there. Which line says what is tested.

ghost use Rattle.std.specs.Prelude.{ℕ, IfOk, IfSome, IsOkUnless};
ghost use Rattle.cpg_play.specs.Deeds.{IsDeedWithin};

use crate::names::{Names, is_name};
use crate::switches::Switch;
use cpg_cluster::{Command, command_in_line};
use cpg_cred::Refusal;
use cpg_step::read_node;
use cpg_text::{Words, is, push_number, put_byte, put_bytes, read_u32, take_words};
use std::alloc::Global;

/// The words of the longest line that is not one of `run`, and one more.
const WORDS: usize = 8;

/// What a line says.
#[derive(Drop)]
pub enum Deed {
    /// A command of `run`.
    Command(Command),
    /// A connection whose session is to have that name.
    Named(Command, Vec<u8>),
    /// The session of that number takes its next event, for which it waits so many milliseconds.
    Wait(u32, u64),
    /// The session of that number takes all events that have come.
    Drain(u32),
    /// A switch is turned.
    Turn(Switch),
}

/// The number of a session by its number or its name.
fn read_session(names: &Names, word: &[u8]) -> Option<u32> {
    if is_name(word) {
        names.number(word)
    } else {
        read_u32(0, u32::MAX, word)
    }
}

/// What `hold NODE`, `let NODE`, `cut NODE NODE` or `mend NODE NODE` turns, by the line's words.
fn read_switch(nodes: u8, words: &[&[u8]]) -> Option<Switch> {
    match words {
        [word, node] if is(word, b"hold".as_slice()) => Some(Switch::Hold(read_node(nodes, node)?)),
        [word, node] if is(word, b"let".as_slice()) => Some(Switch::Let(read_node(nodes, node)?)),
        [word, one, other] if is(word, b"cut".as_slice()) => {
            Some(Switch::Cut(read_node(nodes, one)?, read_node(nodes, other)?))
        }
        [word, one, other] if is(word, b"mend".as_slice()) => {
            Some(Switch::Mend(read_node(nodes, one)?, read_node(nodes, other)?))
        }
        _ => None,
    }
}

/// The deed of `drain S` or `wait S MILLISECONDS`, by the line's words.
fn read_take(names: &Names, words: &[&[u8]]) -> Option<Deed>
    ensures { IfSome result (λ deed. (nodes : ℕ) → IsDeedWithin nodes deed) }
{
    match words {
        [word, session] if is(word, b"drain".as_slice()) => {
            Some(Deed::Drain(read_session(names, session)?))
        }
        [word, session, millis] if is(word, b"wait".as_slice()) => {
            let number = read_session(names, session)?;
            let millis = read_u32(0, u32::MAX, millis)?;
            Some(Deed::Wait(number, u64::from(millis)))
        }
        _ => None,
    }
}

/// The line with the words in it, one space between two.
fn joined(alloc: Global, words: &[&[u8]]) -> Result<Vec<u8>, Refusal>
    ensures memory { IsOkUnless result Refusal.Memory }
{
    let mut line = Vec::new(alloc);
    for word in words {
        put_bytes(&mut line, word)?;
        put_byte(&mut line, b' ')?;
    }
    Ok(line)
}

/// The deed of `connect NODE PID UID GID as NAME`, by the line's words.
fn read_named(alloc: Global, nodes: u8, words: &[&[u8]]) -> Result<Option<Deed>, Refusal>
    ensures within { IfOk result (λ found. IfSome found (λ deed. IsDeedWithin nodes deed)) }
    ensures memory { IsOkUnless result Refusal.Memory }
{
    let [rest @ .., word, name] = words else {
        return Ok(None);
    };
    if !(rest.len() == 5 && is(word, b"as".as_slice()) && is_name(name)) {
        return Ok(None);
    }
    let line = joined(alloc, rest)?;
    let mut owned = Vec::new(alloc);
    put_bytes(&mut owned, name)?;
    match command_in_line(alloc, nodes, line.as_slice())? {
        Some(command) => Ok(Some(Deed::Named(command, owned))),
        None => Ok(None),
    }
}

/// The line with the number of its session in place of its name, which is its second word; none where it has no such name.
fn with_number(alloc: Global, names: &Names, line: &[u8]) -> Result<Option<Vec<u8>>, Refusal>
    ensures { IsOkUnless result Refusal.Memory }
{
    let mut words = Words::of(line);
    let (Some(word), Some(name)) = (words.next(), words.next()) else {
        return Ok(None);
    };
    let Some(number) = names.number(name) else {
        return Ok(None);
    };
    let mut numbered = Vec::new(alloc);
    put_bytes(&mut numbered, word)?;
    put_byte(&mut numbered, b' ')?;
    push_number(&mut numbered, u64::from(number))?;
    put_byte(&mut numbered, b' ')?;
    put_bytes(&mut numbered, words.rest)?;
    Ok(Some(numbered))
}

/// What a line says where there are so many nodes, if it says something.
pub fn read_deed(
    alloc: Global,
    nodes: u8,
    names: &Names,
    line: &[u8],
) -> Result<Option<Deed>, Refusal>
    ensures within { IfOk result (λ found. IfSome found (λ deed. IsDeedWithin nodes deed)) }
    ensures memory { IsOkUnless result Refusal.Memory }
{
    let words = take_words::<WORDS>(line);
    let words = words.as_slice();
    if let Some(switch) = read_switch(nodes, words) {
        return Ok(Some(Deed::Turn(switch)));
    }
    if let Some(deed) = read_take(names, words) {
        return Ok(Some(deed));
    }
    if let Some(deed) = read_named(alloc, nodes, words)? {
        return Ok(Some(deed));
    }
    let command = match with_number(alloc, names, line)? {
        Some(numbered) => command_in_line(alloc, nodes, numbered.as_slice())?,
        None => command_in_line(alloc, nodes, line)?,
    };
    match command {
        Some(command) => Ok(Some(Deed::Command(command))),
        None => Ok(None),
    }
}
