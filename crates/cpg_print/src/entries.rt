//! Entries as lines, both ways: `NODE.CONN PID UID GID CALL`, or `gone` for CALL.

ghost use Rattle.std.specs.Prelude.{◌≡◌, ◌++◌, codes, decimal, OnOk, IfOk, IsOkUnless, MatchOption, None, option_map};
ghost use Rattle.cpg_entry.specs.declared.calls.Op.TheVariants.{Act};
ghost use Rattle.cpg_record.specs.Connections.{conn_of};
ghost use Rattle.cpg_text.specs.Lines.{words_of};
ghost use Rattle.cpg_text.specs.Memory.{IsOkUnlessMemoryFor};
ghost use Rattle.cpg_print.specs.Entries.{conn_text, entry_text, conn_of_word, first_conn, conn_in_limits, entry_by, enterable_op, entry_of};
ghost use Rattle.cpg_print.specs.Steps.{call_by, within_limits};
ghost use Rattle.cpg_print.specs.Words.{texts};

use crate::calls::{WORDS, is_enterable, keeps_limits, put_op, read_op};
use crate::naming::{GivesNames, NewNames};
use crate::plain_calls::{Verb, is_call_within, make_call, plain_call};
use cpg_cred::{Cred, MOST_NODES, NodeId, Refusal};
use cpg_entry::{Entry, MOST_CONNECTIONS, Op};
use cpg_record::ConnId;
use cpg_text::{
    Words, cut, first_digits, push_number, put_byte, read_u32, take_number, take_words,
};
use std::alloc::Global;

/// Puts NODE.CONN at the line's end.
#[inline(always)]
pub fn put_conn(line: &mut Vec<u8>, conn: &ConnId) -> Result<(), Refusal>
    ensures ok { OnOk result (line.new.items ≡ line.old.items ++ conn_text conn.now) }
    ensures memory { IsOkUnless result Refusal.Memory }
{
    push_number(line, u64::from(conn.node.get()))?;
    put_byte(line, b'.')?;
    push_number(line, u64::from(conn.conn))
}

/// Puts NODE.CONN PID UID GID CALL at the line's end.
#[tactic(auto, unfolding(crate::specs::Entries::entry_text))]
pub fn put_entry(line: &mut Vec<u8>, entry: &Entry) -> Result<(), Refusal>
    ensures ok { OnOk result (line.new.items ≡ line.old.items ++ entry_text entry.now) }
    ensures memory { IsOkUnless result Refusal.Memory }
{
    put_caller(line, entry)?;
    put_cred(line, entry.cred)?;
    put_op(line, &entry.op)
}

/// Puts NODE.CONN PID at the line's end.
#[inline(always)]
fn put_caller(line: &mut Vec<u8>, entry: &Entry) -> Result<(), Refusal>
    ensures ok { OnOk result (line.new.items ≡ line.old.items ++ conn_text (conn_of entry.now) ++ codes " " ++ decimal entry.now.pid) }
    ensures memory { IsOkUnless result Refusal.Memory }
{
    put_conn(line, &ConnId::of(entry))?;
    put_byte(line, b' ')?;
    push_number(line, u64::from(entry.pid))
}

/// Puts a space, UID and GID at the line's end.
#[inline(always)]
fn put_cred(line: &mut Vec<u8>, cred: Cred) -> Result<(), Refusal>
    ensures ok { OnOk result (line.new.items ≡ line.old.items ++ codes " " ++ decimal cred.uid ++ codes " " ++ decimal cred.gid) }
    ensures memory { IsOkUnless result Refusal.Memory }
{
    put_byte(line, b' ')?;
    push_number(line, u64::from(cred.uid))?;
    put_byte(line, b' ')?;
    push_number(line, u64::from(cred.gid))
}

/// Who makes an entry.
#[derive(Debug, Clone, Copy)]
struct Caller {
    conn: ConnId,
    pid: u32,
    cred: Cred,
}

/// Who makes the entry of a line, by its first four words, and what follows them.
#[inline(always)]
#[tactic(auto, using(crate::proofs::Callers::no_conn, crate::proofs::Callers::no_pid, crate::proofs::Callers::no_uid, crate::proofs::Callers::no_gid))]
fn take_caller(line: &[u8]) -> Option<(Caller, &[u8])>
    ensures { MatchOption result (entry_of (words_of line.now) ≡ None) (λ parts. entry_of (words_of line.now) ≡ option_map (λ op. entry_by parts.0 op) (enterable_op (words_of parts.1.now))) }
{
    let Some((conn, rest)) = take_conn(line) else {
        return None;
    };
    let (pid, rest) = take_number(rest)?;
    let (uid, rest) = take_number(rest)?;
    let (gid, rest) = take_number(rest)?;
    let cred = Cred { uid, gid };
    Some((Caller { conn, pid, cred }, rest))
}

/// The connection of a line's first word, and what follows it. Where the line begins with a short number and a
/// dot, both numbers are read where they stand.
#[inline(always)]
fn take_conn(line: &[u8]) -> Option<(ConnId, &[u8])>
    ensures { option_map (λ found. (found.0, words_of found.1.now)) result ≡ first_conn (words_of line.now) }
{
    let (node, dot) = first_digits(line);
    if dot == 0 || line.len() - dot < 2 || line[dot] != b'.' || !line[dot + 1].is_ascii_digit() {
        return take_conn_slowly(line);
    }
    let (conn, rest) = take_number(&line[dot + 1..])?;
    let conn = conn_in_limits(node, conn)?;
    Some((conn, rest))
}

/// The same for any word: it is found first, and then read.
#[inline(never)]
fn take_conn_slowly(line: &[u8]) -> Option<(ConnId, &[u8])>
    ensures { option_map (λ found. (found.0, words_of found.1.now)) result ≡ first_conn (words_of line.now) }
{
    let mut words = Words::of(line);
    let conn = read_conn(words.next()?)?;
    Some((conn, words.rest))
}

/// The connection of such numbers, where both are within their limits.
#[inline(always)]
fn conn_in_limits(node: u32, conn: u32) -> Option<ConnId>
    ensures { result ≡ conn_in_limits node conn }
{
    if conn < 1 || conn > u32::from(MOST_CONNECTIONS) {
        return None;
    }
    if node < 1 || node > u32::from(MOST_NODES) {
        return None;
    }
    let node = NodeId::new(node as u8)?;
    Some(ConnId {
        node,
        conn: conn as u16,
    })
}

/// The entry of that caller whose op the text says.
#[inline(always)]
#[tactic(auto, using(crate::proofs::Somes::mapped))]
fn read_entry_by<N: GivesNames>(
    alloc: Global,
    names: &N,
    caller: Caller,
    text: &[u8],
) -> Result<Option<Entry>, Refusal>
    ensures ok { IfOk result (λ found. found ≡ option_map (λ op. entry_by caller op) (enterable_op (words_of text.now))) }
    ensures memory { IsOkUnlessMemoryFor result (option_map (λ op. entry_by caller op) (enterable_op (words_of text.now))) }
{
    match read_enterable_in(alloc, names, text)? {
        None => Ok(None),
        Some(op) => Ok(Some(entry_by(caller, op))),
    }
}

/// The op that a text says, within its limits. A plain join or send, as most ops are, is read where it stands.
#[inline(always)]
fn read_enterable_in<N: GivesNames>(
    alloc: Global,
    names: &N,
    text: &[u8],
) -> Result<Option<Op>, Refusal>
    ensures ok { IfOk result (λ found. found ≡ enterable_op (words_of text.now)) }
    ensures memory { IsOkUnlessMemoryFor result (enterable_op (words_of text.now)) }
{
    match plain_call(text) {
        Some((verb, argument)) => call_within(alloc, names, verb, argument),
        None => read_enterable_words(alloc, text),
    }
}

/// The call of that verb and argument, if it is within the limits of calls.
#[inline(always)]
fn call_within<N: GivesNames>(
    alloc: Global,
    names: &N,
    verb: Verb,
    argument: &[u8],
) -> Result<Option<Op>, Refusal>
    ensures ok { IfOk result (λ found. found ≡ within_limits (Act (call_by verb argument.now))) }
    ensures memory { IsOkUnlessMemoryFor result (within_limits (Act (call_by verb argument.now))) }
{
    if !is_call_within(verb, argument) {
        return Ok(None);
    }
    let call = make_call(alloc, names, verb, argument)?;
    Ok(Some(Op::Act(call)))
}

/// The op that the words of a text say, within its limits. One word or two are read where they stand. It stands apart, so
/// that a plain call pays nothing for it.
#[inline(never)]
#[tactic(auto, using(crate::proofs::Lengths::enterable_of_first))]
fn read_enterable_words(alloc: Global, text: &[u8]) -> Result<Option<Op>, Refusal>
    ensures ok { IfOk result (λ found. found ≡ enterable_op (words_of text.now)) }
    ensures memory { IsOkUnlessMemoryFor result (enterable_op (words_of text.now)) }
{
    let mut words = Words::of(text);
    match (words.next(), words.next(), words.next()) {
        (Some(word), None, _) => read_enterable(alloc, &[word]),
        (Some(word), Some(argument), None) => read_enterable(alloc, &[word, argument]),
        _ => {
            let words = take_words::<WORDS>(text);
            read_enterable(alloc, words.as_slice())
        }
    }
}

/// The op that the words say, within its limits. Where memory is refused, whether there is one is looked at alone.
#[inline(always)]
fn read_enterable(alloc: Global, words: &[&[u8]]) -> Result<Option<Op>, Refusal>
    ensures ok { IfOk result (λ found. found ≡ enterable_op (texts words.now)) }
    ensures memory { IsOkUnlessMemoryFor result (enterable_op (texts words.now)) }
{
    match read_op(alloc, words) {
        Ok(None) => Ok(None),
        Ok(Some(op)) => {
            if is_enterable(&op) {
                Ok(Some(op))
            } else {
                Ok(None)
            }
        }
        Err(refusal) => {
            if keeps_limits(words) {
                Err(refusal)
            } else {
                Ok(None)
            }
        }
    }
}

#[inline(always)]
fn entry_by(caller: Caller, op: Op) -> Entry
    ensures { result ≡ entry_by caller op }
{
    let Caller { conn, pid, cred } = caller;
    Entry {
        node: conn.node,
        conn: conn.conn,
        pid,
        cred,
        op,
    }
}

/// The connection of NODE.CONN.
fn read_conn(word: &[u8]) -> Option<ConnId>
    ensures { result ≡ conn_of_word word.now }
{
    let (node, conn) = cut(b'.', word)?;
    let node = read_u32(1, u32::from(MOST_NODES), node)?;
    let conn = read_u32(1, u32::from(MOST_CONNECTIONS), conn)?;
    let node = NodeId::new(node as u8)?;
    Some(ConnId {
        node,
        conn: conn as u16,
    })
}

/// The entry of a line, if it is one. That it is none is told whatever memory there is.
#[inline(always)]
pub fn entry_in_line(alloc: Global, line: &[u8]) -> Result<Option<Entry>, Refusal>
    ensures ok { IfOk result (λ found. found ≡ entry_of (words_of line.now)) }
    ensures memory { IsOkUnlessMemoryFor result (entry_of (words_of line.now)) }
{
    entry_with_names(alloc, &NewNames, line)
}

/// The same, where the name of a plain join is one that `names` gives.
#[inline(always)]
pub fn entry_with_names<N: GivesNames>(
    alloc: Global,
    names: &N,
    line: &[u8],
) -> Result<Option<Entry>, Refusal>
    ensures ok { IfOk result (λ found. found ≡ entry_of (words_of line.now)) }
    ensures memory { IsOkUnlessMemoryFor result (entry_of (words_of line.now)) }
{
    match take_caller(line) {
        None => Ok(None),
        Some((caller, text)) => read_entry_by(alloc, names, caller, text),
    }
}
