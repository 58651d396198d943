//! Calls and ops as words, both ways.

ghost use Rattle.std.specs.Prelude.{◌≡◌, ◌<◌, ◌++◌, codes, OnOk, IfOk, IfSome, IsOkUnless, option_map};
ghost use Rattle.cpg_text.specs.Lines.{words_of};
ghost use Rattle.cpg_text.specs.Memory.{IsOkUnlessMemoryFor};
ghost use Rattle.cpg_entry.specs.declared.calls.Call.TheVariants.{Send};
ghost use Rattle.cpg_print.specs.Calls.{call_text, op_text, join_of, leave_of, send_of, insert_at, insert_of, remove_of, call_of, is_gone, op_of, is_within_limits, is_enterable};
ghost use Rattle.cpg_print.specs.Steps.{keeps_limits, sends_few};
ghost use Rattle.cpg_print.specs.Words.{texts};
ghost use Rattle.cpg_text.specs.Percent.{message_of};

use crate::naming::NewNames;
use crate::plain_calls::{make_call, plain_call};
use crate::rules::{put_rule, read_rule};
use cpg_cred::Refusal;
use cpg_entry::{Call, MOST_MESSAGE_BYTES, Message, Name, Op, SharedRule, accepts_name};
use cpg_rules::Rule;
use cpg_text::{
    is, message_length, plain_message, push_message, push_number, put, put_bytes, read_message,
    read_u32, take_words,
};
use std::alloc::Global;

/// The words of the longest call or op, and one more.
pub(crate) const WORDS: usize = 7;

/// Puts a space and CALL, or `gone`, at the line's end.
#[inline(always)]
pub fn put_op(line: &mut Vec<u8>, op: &Op) -> Result<(), Refusal>
    ensures ok { OnOk result (line.new.items ≡ line.old.items ++ codes " " ++ op_text op.now) }
    ensures memory { IsOkUnless result Refusal.Memory }
{
    match op {
        Op::Act(call) => put_call(line, call),
        Op::Gone => put(line, " gone"),
    }
}

/// Puts a space and CALL at the line's end.
pub fn put_call(line: &mut Vec<u8>, call: &Call) -> Result<(), Refusal>
    ensures ok { OnOk result (line.new.items ≡ line.old.items ++ codes " " ++ call_text call.now) }
    ensures memory { IsOkUnless result Refusal.Memory }
{
    match call {
        Call::Join(group) => {
            put(line, " join ")?;
            put_bytes(line, group.as_slice())
        }
        Call::Leave => put(line, " leave"),
        Call::Send(message) => {
            put(line, " send ")?;
            push_message(line, message.as_slice())
        }
        Call::Insert(group, index, rule) => {
            put(line, " insert ")?;
            put_bytes(line, group.as_slice())?;
            put(line, " ")?;
            push_number(line, u64::from(*index))?;
            put(line, " ")?;
            put_rule(line, *rule.get())
        }
        Call::Remove(group, id) => {
            put(line, " remove ")?;
            put_bytes(line, group.as_slice())?;
            put(line, " ")?;
            push_number(line, u64::from(*id))
        }
    }
}

/// The op that the words of CALL or `gone` say; names and messages of any length. That they say none is told
/// whatever memory there is.
#[inline(always)]
#[tactic(auto, using(crate::proofs::Somes::mapped))]
pub fn read_op(alloc: Global, words: &[&[u8]]) -> Result<Option<Op>, Refusal>
    ensures ok { IfOk result (λ found. found ≡ op_of (texts words.now)) }
    ensures memory { IsOkUnlessMemoryFor result (op_of (texts words.now)) }
{
    if is_gone(words) {
        return Ok(Some(Op::Gone));
    }
    Ok(read_call(alloc, words)?.map(|call| Op::Act(call)))
}

fn is_gone(words: &[&[u8]]) -> bool
    ensures { result ≡ is_gone (texts words.now) }
{
    match words {
        [word] => is(word, b"gone".as_slice()),
        _ => false,
    }
}

/// The call that the words of CALL say; names and messages of any length. That they say none is told whatever
/// memory there is.
#[inline(always)]
pub fn read_call(alloc: Global, words: &[&[u8]]) -> Result<Option<Call>, Refusal>
    ensures ok { IfOk result (λ found. found ≡ call_of (texts words.now)) }
    ensures memory { IsOkUnlessMemoryFor result (call_of (texts words.now)) }
{
    match words {
        [] => Ok(None),
        [word, arguments @ ..] => {
            if is(word, b"join".as_slice()) {
                read_join(alloc, arguments)
            } else if is(word, b"leave".as_slice()) {
                Ok(read_leave(arguments))
            } else if is(word, b"send".as_slice()) {
                read_send(alloc, arguments)
            } else if is(word, b"insert".as_slice()) {
                read_insert(alloc, arguments)
            } else if is(word, b"remove".as_slice()) {
                read_remove(alloc, arguments)
            } else {
                Ok(None)
            }
        }
    }
}

/// The call that a text says; names and messages of any length. A plain one, as most are, is read where it stands. That
/// it says none is told whatever memory there is.
#[inline(always)]
#[tactic(auto, using(crate::proofs::Lengths::call_of_first))]
pub fn read_call_in(alloc: Global, text: &[u8]) -> Result<Option<Call>, Refusal>
    ensures ok { IfOk result (λ found. found ≡ call_of (words_of text.now)) }
    ensures memory { IsOkUnlessMemoryFor result (call_of (words_of text.now)) }
{
    if let Some((verb, argument)) = plain_call(text) {
        return Ok(Some(make_call(alloc, &NewNames, verb, argument)?));
    }
    let words = take_words::<WORDS>(text);
    read_call(alloc, words.as_slice())
}

fn read_join(alloc: Global, arguments: &[&[u8]]) -> Result<Option<Call>, Refusal>
    ensures ok { IfOk result (λ found. found ≡ join_of (texts arguments.now)) }
    ensures memory { IsOkUnlessMemoryFor result (join_of (texts arguments.now)) }
{
    match arguments {
        [group] => Ok(Some(Call::Join(Name::from_slice(alloc, group)?))),
        _ => Ok(None),
    }
}

fn read_leave(arguments: &[&[u8]]) -> Option<Call>
    ensures { result ≡ leave_of (texts arguments.now) }
{
    match arguments {
        [] => Some(Call::Leave),
        _ => None,
    }
}

#[inline(always)]
fn read_send(alloc: Global, arguments: &[&[u8]]) -> Result<Option<Call>, Refusal>
    ensures ok { IfOk result (λ found. found ≡ send_of (texts arguments.now)) }
    ensures memory { IsOkUnlessMemoryFor result (send_of (texts arguments.now)) }
{
    match arguments {
        [text] => read_sent(alloc, text),
        _ => Ok(None),
    }
}

/// The send of the message that the word spells.
#[inline(always)]
#[tactic(auto, using(crate::proofs::Somes::mapped))]
fn read_sent(alloc: Global, text: &[u8]) -> Result<Option<Call>, Refusal>
    ensures ok { IfOk result (λ found. found ≡ option_map (λ message. Send message) (message_of text.now)) }
    ensures memory { IsOkUnlessMemoryFor result (option_map (λ message. Send message) (message_of text.now)) }
{
    Ok(read_text(alloc, text)?.map(|message| Call::Send(message)))
}

/// The message that the word spells, copied at once where it does so by its own bytes.
#[inline(always)]
fn read_text(alloc: Global, text: &[u8]) -> Result<Option<Message>, Refusal>
    ensures ok { IfOk result (λ found. found ≡ message_of text.now) }
    ensures memory { IsOkUnlessMemoryFor result (message_of text.now) }
{
    match plain_message(text) {
        Some(bytes) => Ok(Some(Message::from_slice(alloc, bytes)?)),
        None => {
            let Some(bytes) = read_message(alloc, text)? else {
                return Ok(None);
            };
            Ok(Some(Message::from_vec(bytes)?))
        }
    }
}

#[tactic(auto, using(crate::proofs::Lengths::insert_of_short))]
fn read_insert(alloc: Global, arguments: &[&[u8]]) -> Result<Option<Call>, Refusal>
    ensures ok { IfOk result (λ found. found ≡ insert_of (texts arguments.now)) }
    ensures memory { IsOkUnlessMemoryFor result (insert_of (texts arguments.now)) }
{
    match arguments {
        [group, position, effect, right, who @ ..] => {
            let rule = read_rule(effect, right, who);
            insert_at(alloc, group, read_u32(0, 255, position), rule)
        }
        _ => Ok(None),
    }
}

fn insert_at(
    alloc: Global,
    group: &[u8],
    position: Option<u32>,
    rule: Option<Rule>,
) -> Result<Option<Call>, Refusal>
    requires { IfSome position (λ index. index < 256) }
    ensures ok { IfOk result (λ found. found ≡ insert_at group.now position rule) }
    ensures memory { IsOkUnlessMemoryFor result (insert_at group.now position rule) }
{
    match (position, rule) {
        (Some(index), Some(rule)) => {
            let group = Name::from_slice(alloc, group)?;
            let rule = SharedRule::new(alloc, rule)?;
            Ok(Some(Call::Insert(group, index as u8, rule)))
        }
        _ => Ok(None),
    }
}

fn read_remove(alloc: Global, arguments: &[&[u8]]) -> Result<Option<Call>, Refusal>
    ensures ok { IfOk result (λ found. found ≡ remove_of (texts arguments.now)) }
    ensures memory { IsOkUnlessMemoryFor result (remove_of (texts arguments.now)) }
{
    match arguments {
        [group, id] => match read_u32(0, u32::MAX, id) {
            None => Ok(None),
            Some(id) => Ok(Some(Call::Remove(Name::from_slice(alloc, group)?, id))),
        },
        _ => Ok(None),
    }
}

/// Whether what the words of an op say is within the limits of calls. Takes no memory.
#[tactic(auto, using(crate::proofs::Limits::limits_of_short))]
pub fn keeps_limits(words: &[&[u8]]) -> bool
    ensures { result ≡ keeps_limits (texts words.now) }
{
    match words {
        [word, argument, ..] => {
            if is(word, b"send".as_slice()) {
                sends_few(argument)
            } else {
                accepts_name(argument)
            }
        }
        _ => true,
    }
}

/// Whether the word spells a message that is not too long.
fn sends_few(text: &[u8]) -> bool
    ensures { result ≡ sends_few text.now }
{
    match message_length(text) {
        None => false,
        Some(length) => length <= MOST_MESSAGE_BYTES,
    }
}

/// Whether the names of a call are accepted and its message is not too long.
pub fn is_enterable(op: &Op) -> bool
    ensures { result ≡ is_enterable op.now }
{
    match op {
        Op::Act(call) => is_within_limits(call),
        Op::Gone => true,
    }
}

fn is_within_limits(call: &Call) -> bool
    ensures { result ≡ is_within_limits call.now }
{
    match call {
        Call::Leave => true,
        Call::Send(message) => message.as_slice().len() <= MOST_MESSAGE_BYTES,
        Call::Join(group) | Call::Insert(group, _, _) | Call::Remove(group, _) => accepts_name(
            group.as_slice(),
        ),
    }
}
