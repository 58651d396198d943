//! Commands from words.
//!
//! Proved: each function reads what the definition in `specs/Commands.antt` says, in a ring of so many nodes. Those that
//! make much, or are seldom called, stand apart (`inline(never)`), so that other lines don't pay for the room of their values.

ghost use Rattle.std.specs.Prelude.{◌≡◌, ◌≤◌, ◌∷◌, Some, IfOk, IfSome, codes, option_map};
ghost use Rattle.cpg_text.specs.Lines.{only, words_of};
ghost use Rattle.cpg_text.specs.Memory.{IsOkUnlessMemoryFor};
ghost use Rattle.std.specs.Option.{option_and_then};
ghost use Rattle.cpg_print.specs.Calls.{call_of};
ghost use Rattle.cpg_world_laws.specs.Worlds.{node_in};
ghost use Rattle.cpg_world_laws.specs.declared.events.WorldEvent.TheVariants.{Submit, Disconnect, Take, Groups, Timer, Deliver};
ghost use Rattle.cpg_print.specs.Words.{texts};
ghost use Rattle.cpg_step.specs.declared.commands.Look.TheVariants.{Audit, Safe};
ghost use Rattle.cpg_step.specs.Steps.{two};
ghost use Rattle.cpg_step.specs.Commands.{node_of, conn_of, u64_of, node_alone, node_and_conn, connect_of, submit_of, frame_of, list_of, event_of, show_of, rules_of, look_of, act_or_look, command_of, LooksWithin, IsWithin};

use crate::commands::{Command, Look};
use crate::plain::read_plain;
use cpg_cred::{Cred, MOST_NODES, NodeId, Refusal};
use cpg_entry::{MOST_CONNECTIONS, Name};
use cpg_print::read_call_in;
use cpg_text::{Words, is, only_word, read_number, read_u32, take_word, take_words};
use cpg_world::WorldEvent;
use std::alloc::Global;

/// The node of a NODE, where the ring has it.
pub fn read_node(nodes: u8, word: &[u8]) -> Option<NodeId>
    ensures node { result ≡ node_of nodes word.now }
    ensures within { IfSome result (λ node. node ≤ nodes) }
{
    let number = read_u32(1, u32::from(MOST_NODES), word)?;
    let node = NodeId::new(number as u8)?;
    if node.get() <= nodes {
        Some(node)
    } else {
        None
    }
}

/// The connection of a CONN.
fn read_conn(word: &[u8]) -> Option<u16>
    ensures { result ≡ conn_of word.now }
{
    let number = read_u32(1, u32::from(MOST_CONNECTIONS), word)?;
    Some(number as u16)
}

/// The node of a NODE that is the only word.
pub fn read_node_alone(nodes: u8, words: &[&[u8]]) -> Option<NodeId>
    ensures node { result ≡ node_alone nodes (texts words.now) }
    ensures within { IfSome result (λ node. node ≤ nodes) }
{
    match words {
        [node] => read_node(nodes, node),
        _ => None,
    }
}

/// The node of a NODE, where no more words follow.
#[tactic(auto, using(crate::proofs::Lengths::alone_of_only))]
fn read_last_node(nodes: u8, rest: &[u8]) -> Option<NodeId>
    ensures node { result ≡ node_alone nodes (words_of rest.now) }
    ensures within { IfSome result (λ node. node ≤ nodes) }
{
    read_node(nodes, only_word(rest)?)
}

/// The two words that follow, where there are no more.
#[tactic(auto, using(crate::proofs::Lengths::two_of_only))]
fn last_two(rest: &[u8]) -> Option<(&[u8], &[u8])>
    ensures { option_map (λ words. (words.0.now, words.1.now)) result ≡ two (words_of rest.now) }
{
    let (first, rest) = take_word(rest)?;
    let second = only_word(rest)?;
    Some((first, second))
}

/// The node and the connection of NODE CONN, where no more words follow.
#[tactic(auto, using(crate::proofs::Lengths::at_of_two))]
fn read_node_and_conn(nodes: u8, rest: &[u8]) -> Option<(NodeId, u16)>
    ensures at { result ≡ node_and_conn nodes (words_of rest.now) }
    ensures within { IfSome result (λ at. at.0 ≤ nodes) }
{
    let (node, conn) = last_two(rest)?;
    let node = read_node(nodes, node)?;
    let conn = read_conn(conn)?;
    Some((node, conn))
}

#[inline(never)]
#[tactic(auto, using(crate::proofs::Lengths::connect_of_first))]
fn read_connect(nodes: u8, rest: &[u8]) -> Option<WorldEvent>
    ensures event { result ≡ connect_of nodes (words_of rest.now) }
    ensures within { IfSome result (λ event. node_in event ≤ nodes) }
{
    let words = take_words::<5>(rest);
    read_connect_by(nodes, words.as_slice())
}

fn read_connect_by(nodes: u8, words: &[&[u8]]) -> Option<WorldEvent>
    ensures event { result ≡ connect_of nodes (texts words.now) }
    ensures within { IfSome result (λ event. node_in event ≤ nodes) }
{
    match words {
        [node, pid, uid, gid] => {
            let node = read_node(nodes, node)?;
            let pid = read_u32(0, u32::MAX, pid)?;
            let uid = read_u32(0, u32::MAX, uid)?;
            let gid = read_u32(0, u32::MAX, gid)?;
            Some(WorldEvent::Connect(node, pid, Cred { uid, gid }))
        }
        _ => None,
    }
}

#[inline(never)]
fn read_submit(alloc: Global, nodes: u8, rest: &[u8]) -> Result<Option<WorldEvent>, Refusal>
    ensures event { IfOk result (λ found. found ≡ submit_of nodes (words_of rest.now)) }
    ensures within { IfOk result (λ found. IfSome found (λ event. node_in event ≤ nodes)) }
    ensures memory { IsOkUnlessMemoryFor result (submit_of nodes (words_of rest.now)) }
{
    let Some((node, rest)) = take_word(rest) else {
        return Ok(None);
    };
    let Some((conn, rest)) = take_word(rest) else {
        return Ok(None);
    };
    let (Some(node), Some(conn)) = (read_node(nodes, node), read_conn(conn)) else {
        return Ok(None);
    };
    read_submit_by(alloc, node, conn, rest)
}

/// The submit of that connection whose call the text says.
#[inline(always)]
#[tactic(auto, using(cpg_print::proofs::Somes::then_some))]
fn read_submit_by(
    alloc: Global,
    node: NodeId,
    conn: u16,
    text: &[u8],
) -> Result<Option<WorldEvent>, Refusal>
    ensures event { IfOk result (λ found. found ≡ option_and_then (λ c. Some (Submit node conn c)) (call_of (words_of text.now))) }
    ensures at { IfOk result (λ found. IfSome found (λ event. node_in event ≡ node)) }
    ensures memory { IsOkUnlessMemoryFor result (option_and_then (λ c. Some (Submit node conn c)) (call_of (words_of text.now))) }
{
    match read_call_in(alloc, text)? {
        None => Ok(None),
        Some(call) => Ok(Some(WorldEvent::Submit(node, conn, call))),
    }
}

#[tactic(auto, using(crate::proofs::Beginnings::frame_of_last))]
fn read_frame(nodes: u8, rest: &[u8]) -> Option<WorldEvent>
    ensures event { result ≡ frame_of nodes (words_of rest.now) }
    ensures within { IfSome result (λ event. node_in event ≤ nodes) }
{
    let (node, rest) = take_word(rest)?;
    let node = read_node(nodes, node)?;
    let number = read_last_number(rest)?;
    Some(WorldEvent::Frame(node, number as usize))
}

/// The number of a K, where no more words follow.
fn read_last_number(rest: &[u8]) -> Option<u64>
    ensures { result ≡ option_and_then (λ word. u64_of word) (only (words_of rest.now)) }
{
    read_number(0, u64::MAX, only_word(rest)?)
}

#[inline(never)]
#[tactic(auto, using(crate::proofs::Lengths::list_of_first))]
fn read_list(alloc: Global, nodes: u8, rest: &[u8]) -> Result<Option<WorldEvent>, Refusal>
    ensures event { IfOk result (λ found. found ≡ list_of nodes (words_of rest.now)) }
    ensures within { IfOk result (λ found. IfSome found (λ event. node_in event ≤ nodes)) }
    ensures memory { IsOkUnlessMemoryFor result (list_of nodes (words_of rest.now)) }
{
    let words = take_words::<4>(rest);
    read_list_by(alloc, nodes, words.as_slice())
}

fn read_list_by(alloc: Global, nodes: u8, words: &[&[u8]]) -> Result<Option<WorldEvent>, Refusal>
    ensures event { IfOk result (λ found. found ≡ list_of nodes (texts words.now)) }
    ensures within { IfOk result (λ found. IfSome found (λ event. node_in event ≤ nodes)) }
    ensures memory { IsOkUnlessMemoryFor result (list_of nodes (texts words.now)) }
{
    match words {
        [node, conn, group] => {
            let (Some(node), Some(conn)) = (read_node(nodes, node), read_conn(conn)) else {
                return Ok(None);
            };
            let group = Name::from_slice(alloc, group)?;
            Ok(Some(WorldEvent::List(node, conn, group)))
        }
        _ => Ok(None),
    }
}

fn read_disconnect(nodes: u8, rest: &[u8]) -> Option<WorldEvent>
    ensures event { result ≡ option_map (λ at. Disconnect at.0 at.1) (node_and_conn nodes (words_of rest.now)) }
    ensures within { IfSome result (λ event. node_in event ≤ nodes) }
{
    let (node, conn) = read_node_and_conn(nodes, rest)?;
    Some(WorldEvent::Disconnect(node, conn))
}

fn read_take(nodes: u8, rest: &[u8]) -> Option<WorldEvent>
    ensures event { result ≡ option_map (λ at. Take at.0 at.1) (node_and_conn nodes (words_of rest.now)) }
    ensures within { IfSome result (λ event. node_in event ≤ nodes) }
{
    let (node, conn) = read_node_and_conn(nodes, rest)?;
    Some(WorldEvent::Take(node, conn))
}

fn read_groups(nodes: u8, rest: &[u8]) -> Option<WorldEvent>
    ensures event { result ≡ option_map (λ at. Groups at.0 at.1) (node_and_conn nodes (words_of rest.now)) }
    ensures within { IfSome result (λ event. node_in event ≤ nodes) }
{
    let (node, conn) = read_node_and_conn(nodes, rest)?;
    Some(WorldEvent::Groups(node, conn))
}

fn read_timer(nodes: u8, rest: &[u8]) -> Option<WorldEvent>
    ensures event { result ≡ option_map (λ n. Timer n) (node_alone nodes (words_of rest.now)) }
    ensures within { IfSome result (λ event. node_in event ≤ nodes) }
{
    let node = read_last_node(nodes, rest)?;
    Some(WorldEvent::Timer(node))
}

fn read_deliver(nodes: u8, rest: &[u8]) -> Option<WorldEvent>
    ensures event { result ≡ option_map (λ n. Deliver n) (node_alone nodes (words_of rest.now)) }
    ensures within { IfSome result (λ event. node_in event ≤ nodes) }
{
    let node = read_last_node(nodes, rest)?;
    Some(WorldEvent::Deliver(node))
}

/// The event that the words after a command's first word say.
fn read_event(
    alloc: Global,
    nodes: u8,
    word: &[u8],
    rest: &[u8],
) -> Result<Option<WorldEvent>, Refusal>
    ensures event { IfOk result (λ found. found ≡ event_of nodes word.now (words_of rest.now)) }
    ensures within { IfOk result (λ found. IfSome found (λ event. node_in event ≤ nodes)) }
    ensures memory { IsOkUnlessMemoryFor result (event_of nodes word.now (words_of rest.now)) }
{
    if is(word, b"connect".as_slice()) {
        Ok(read_connect(nodes, rest))
    } else if is(word, b"call".as_slice()) {
        read_submit(alloc, nodes, rest)
    } else if is(word, b"disconnect".as_slice()) {
        Ok(read_disconnect(nodes, rest))
    } else if is(word, b"frame".as_slice()) {
        Ok(read_frame(nodes, rest))
    } else if is(word, b"timer".as_slice()) {
        Ok(read_timer(nodes, rest))
    } else if is(word, b"deliver".as_slice()) {
        Ok(read_deliver(nodes, rest))
    } else if is(word, b"take".as_slice()) {
        Ok(read_take(nodes, rest))
    } else if is(word, b"list".as_slice()) {
        read_list(alloc, nodes, rest)
    } else if is(word, b"groups".as_slice()) {
        Ok(read_groups(nodes, rest))
    } else {
        Ok(None)
    }
}

fn read_show(words: &[&[u8]]) -> Option<Look>
    ensures { result ≡ show_of (texts words.now) }
{
    match words {
        [number] => {
            let number = read_number(0, u64::MAX, number)?;
            Some(Look::Show(number))
        }
        _ => None,
    }
}

fn read_rules(alloc: Global, nodes: u8, words: &[&[u8]]) -> Result<Option<Look>, Refusal>
    ensures look { IfOk result (λ found. found ≡ rules_of nodes (texts words.now)) }
    ensures within { IfOk result (λ found. IfSome found (λ look. LooksWithin nodes look)) }
    ensures memory { IsOkUnlessMemoryFor result (rules_of nodes (texts words.now)) }
{
    match words {
        [node, group] => {
            let Some(node) = read_node(nodes, node) else {
                return Ok(None);
            };
            let group = Name::from_slice(alloc, group)?;
            Ok(Some(Look::Rules(node, group)))
        }
        _ => Ok(None),
    }
}

fn read_audit(nodes: u8, words: &[&[u8]]) -> Option<Look>
    ensures look { result ≡ option_map (λ n. Audit n) (node_alone nodes (texts words.now)) }
    ensures within { IfSome result (λ look. LooksWithin nodes look) }
{
    let node = read_node_alone(nodes, words)?;
    Some(Look::Audit(node))
}

fn read_safe(nodes: u8, words: &[&[u8]]) -> Option<Look>
    ensures look { result ≡ option_map (λ n. Safe n) (node_alone nodes (texts words.now)) }
    ensures within { IfSome result (λ look. LooksWithin nodes look) }
{
    let node = read_node_alone(nodes, words)?;
    Some(Look::Safe(node))
}

/// What the words after the first word of a command that only looks are after.
#[inline(never)]
#[tactic(auto, using(crate::proofs::Lengths::look_of_first))]
fn read_look(alloc: Global, nodes: u8, word: &[u8], rest: &[u8]) -> Result<Option<Look>, Refusal>
    ensures look { IfOk result (λ found. found ≡ look_of nodes word.now (words_of rest.now)) }
    ensures within { IfOk result (λ found. IfSome found (λ look. LooksWithin nodes look)) }
    ensures memory { IsOkUnlessMemoryFor result (look_of nodes word.now (words_of rest.now)) }
{
    let arguments = take_words::<3>(rest);
    read_look_by(alloc, nodes, word, arguments.as_slice())
}

fn read_look_by(
    alloc: Global,
    nodes: u8,
    word: &[u8],
    arguments: &[&[u8]],
) -> Result<Option<Look>, Refusal>
    ensures look { IfOk result (λ found. found ≡ look_of nodes word.now (texts arguments.now)) }
    ensures within { IfOk result (λ found. IfSome found (λ look. LooksWithin nodes look)) }
    ensures memory { IsOkUnlessMemoryFor result (look_of nodes word.now (texts arguments.now)) }
{
    if is(word, b"show".as_slice()) {
        Ok(read_show(arguments))
    } else if is(word, b"audit".as_slice()) {
        Ok(read_audit(nodes, arguments))
    } else if is(word, b"rules".as_slice()) {
        read_rules(alloc, nodes, arguments)
    } else if is(word, b"safe".as_slice()) {
        Ok(read_safe(nodes, arguments))
    } else {
        Ok(None)
    }
}

/// The command that acts, if there is one, and else the one that looks.
#[tactic(auto, using(crate::proofs::Lengths::act_there, crate::proofs::Lengths::look_there))]
fn read_named(
    alloc: Global,
    nodes: u8,
    word: &[u8],
    rest: &[u8],
) -> Result<Option<Command>, Refusal>
    ensures command { IfOk result (λ found. found ≡ act_or_look (event_of nodes word.now (words_of rest.now)) (look_of nodes word.now (words_of rest.now))) }
    ensures within { IfOk result (λ found. IfSome found (λ command. IsWithin nodes command)) }
    ensures memory { IsOkUnlessMemoryFor result (act_or_look (event_of nodes word.now (words_of rest.now)) (look_of nodes word.now (words_of rest.now))) }
{
    if let Some(event) = read_event(alloc, nodes, word, rest)? {
        return Ok(Some(Command::Act(event)));
    }
    match read_look(alloc, nodes, word, rest)? {
        None => Ok(None),
        Some(look) => Ok(Some(Command::Look(look))),
    }
}

/// The command of a call, by what follows its first word.
#[inline(never)]
#[tactic(auto, using(crate::proofs::Lengths::act_there, crate::proofs::Beginnings::call_acts))]
fn read_call(alloc: Global, nodes: u8, rest: &[u8]) -> Result<Option<Command>, Refusal>
    ensures command { IfOk result (λ found. found ≡ command_of nodes (codes "call" ∷ words_of rest.now)) }
    ensures within { IfOk result (λ found. IfSome found (λ command. IsWithin nodes command)) }
    ensures memory { IsOkUnlessMemoryFor result (command_of nodes (codes "call" ∷ words_of rest.now)) }
{
    match read_submit(alloc, nodes, rest)? {
        None => Ok(None),
        Some(event) => Ok(Some(Command::Act(event))),
    }
}

/// The command of a line, in a ring of so many nodes, if it is one. That it is none is told whatever memory there
/// is. A plain line is read with no search for words.
pub fn command_in_line(alloc: Global, nodes: u8, line: &[u8]) -> Result<Option<Command>, Refusal>
    ensures command { IfOk result (λ found. found ≡ command_of nodes (words_of line.now)) }
    ensures within { IfOk result (λ found. IfSome found (λ command. IsWithin nodes command)) }
    ensures memory { IsOkUnlessMemoryFor result (command_of nodes (words_of line.now)) }
{
    if let Some(plain) = read_plain(nodes, line) {
        return Ok(Some(plain.command()));
    }
    match line {
        [b'c', b'a', b'l', b'l', b' ', rest @ ..] => read_call(alloc, nodes, rest),
        _ => read_by_words(alloc, nodes, line),
    }
}

/// The same for any line. It stands apart, since most lines are plain.
#[inline(never)]
fn read_by_words(alloc: Global, nodes: u8, line: &[u8]) -> Result<Option<Command>, Refusal>
    ensures command { IfOk result (λ found. found ≡ command_of nodes (words_of line.now)) }
    ensures within { IfOk result (λ found. IfSome found (λ command. IsWithin nodes command)) }
    ensures memory { IsOkUnlessMemoryFor result (command_of nodes (words_of line.now)) }
{
    let mut words = Words::of(line);
    match words.next() {
        None => Ok(None),
        Some(word) => read_named(alloc, nodes, word, words.rest),
    }
}
