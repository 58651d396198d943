//! Messages spelled as words, with `%` before the two digits of a byte that can't stand for itself.
//!
//! Proved: both directions are the definitions `message_of` and `text_of`.

ghost use Rattle.std.specs.Prelude.{◌≡◌, ◌≢◌, ◌+◌, ◌<◌, ◌≤◌, [], vec_capacity, ◌∷◌, ◌++◌, length, IsTrue, OnOk, IfOk, IfSome, MatchOption, IsOkUnless, None, Some, true, option_map, vec_len};
ghost use Rattle.std.specs.Fmt.{digit_glyph};
ghost use Rattle.std.specs.List.{prefix_len};
ghost use Rattle.cpg_text.specs.Lines.{words_of};
ghost use Rattle.cpg_text.specs.Memory.{IsOkUnlessMemoryFor};
ghost use Rattle.cpg_text.specs.Steps.{after};
ghost use Rattle.cpg_text.specs.Percent.{decoded, before, message_of, is_plain, encoded, escape, text_of};

use crate::places::place_of;
use crate::runs::{is_plain, plain_run};
use cpg_cred::Refusal;
use std::alloc::Global;

/// The message that the word spells; none for the empty word, and where a `%` lacks two hexadecimal digits
/// (of either case) after it. That a word spells none is told whatever memory there is.
pub fn read_message(alloc: Global, word: &[u8]) -> Result<Option<Vec<u8>>, Refusal>
    ensures ok { IfOk result (λ found. option_map (λ message. message.items) found ≡ message_of word.now) }
    ensures memory { IsOkUnlessMemoryFor result (message_of word.now) }
{
    match word {
        [] => Ok(None),
        [b'-'] => Ok(Some(Vec::new(alloc))),
        _ => decode(alloc, word),
    }
}

/// The message that the word spells, where that is the word itself. Takes no memory.
#[inline(always)]
pub fn plain_message(word: &[u8]) -> Option<&[u8]>
    ensures { MatchOption result (message_of word.now ≢ Some word.now) (λ message. (message.now ≡ word.now) × (message_of word.now ≡ Some word.now)) }
{
    match word {
        [] | [b'-'] => None,
        _ => plain_text(word),
    }
}

/// The text, where it stands for its own bytes. A short one, as most are, does so where all its bytes are plain.
#[inline(always)]
#[tactic(auto, using(crate::proofs::Plain::run_whole, crate::proofs::Plain::plain_whole))]
fn plain_text(text: &[u8]) -> Option<&[u8]>
    ensures { MatchOption result (decoded text.now ≢ Some text.now) (λ bytes. (bytes.now ≡ text.now) × (decoded text.now ≡ Some text.now)) }
{
    if text.len() < 32 && plain_run(text) == text.len() {
        return Some(text);
    }
    match place_of(b'%', text) {
        None => Some(text),
        Some(_) => None,
    }
}

/// Whether the text is known to be one word that spells the message of its own bytes, all of which are plain. Takes no
/// memory.
#[inline(always)]
pub fn is_plain_word(text: &[u8]) -> bool
    ensures word { IsTrue result → words_of text.now ≡ text.now ∷ [] }
    ensures message { IsTrue result → message_of text.now ≡ Some text.now }
{
    match text {
        [] | [b'-'] => false,
        _ => is_plain_throughout(text),
    }
}

/// Whether all bytes of the text are plain.
#[inline(always)]
fn is_plain_throughout(text: &[u8]) -> bool
    ensures word { IsTrue result → text.now ≢ [] → words_of text.now ≡ text.now ∷ [] }
    ensures itself { IsTrue result → decoded text.now ≡ Some text.now }
{
    plain_run(text) == text.len()
}

/// How many bytes the message has that the word spells. Takes no memory.
pub fn message_length(word: &[u8]) -> Option<usize>
    ensures { result ≡ option_map (λ message. length message) (message_of word.now) }
{
    match word {
        [] => None,
        [b'-'] => Some(0),
        _ => decoded_length(word),
    }
}

/// How many bytes the text stands for.
#[tactic(auto, using(crate::proofs::Texts::counted_piece))]
fn decoded_length(text: &[u8]) -> Option<usize>
    ensures { result ≡ option_map (λ bytes. length bytes) (decoded text.now) }
{
    let mut count = 0;
    let mut rest = text;
    while !rest.is_empty() {
        let (_, run, more) = first_piece(rest)?;
        count += 1 + run.len();
        rest = more;
    }
    Some(count)
}

/// The bytes that the text stands for. Where there is no room for them, it is gone through once more, for
/// whether it stands for any.
fn decode(alloc: Global, text: &[u8]) -> Result<Option<Vec<u8>>, Refusal>
    ensures ok { IfOk result (λ found. option_map (λ bytes. bytes.items) found ≡ decoded text.now) }
    ensures memory { IsOkUnlessMemoryFor result (decoded text.now) }
{
    match Vec::with_capacity(alloc, text.len()) {
        Ok(room) => Ok(decode_into(room, text)),
        Err(_) => match decoded_length(text) {
            None => Ok(None),
            Some(_) => Err(Refusal::Memory),
        },
    }
}

/// The bytes that the text stands for, one after the other, in the room for as many as it has.
#[tactic(auto, using(crate::proofs::Texts::after_piece))]
fn decode_into(room: Vec<u8>, text: &[u8]) -> Option<Vec<u8>>
    requires empty { room.items ≡ [] }
    requires reserved { length text.now ≤ vec_capacity room }
    ensures { option_map (λ bytes. bytes.items) result ≡ decoded text.now }
{
    let mut bytes = room;
    let mut rest = text;
    while !rest.is_empty() {
        let (byte, run, more) = first_piece(rest)?;
        bytes.push_reserved(byte);
        extend_reserved(&mut bytes, run);
        rest = more;
    }
    Some(bytes)
}

/// Puts the bytes last, where there is room for them.
#[inline(always)]
fn extend_reserved(bytes: &mut Vec<u8>, run: &[u8])
    requires { vec_len bytes.old + length run.now ≤ vec_capacity bytes.old }
    ensures items { bytes.new.items ≡ bytes.old.items ++ run.now }
    ensures len { vec_len bytes.new ≡ vec_len bytes.old + length run.now }
    ensures capacity { vec_capacity bytes.old ≤ vec_capacity bytes.new }
{
    if !run.is_empty() {
        let done = bytes.extend_from_slice(run);
        prove!(done.is_ok());
    }
}

/// The byte that the front of a text stands for, the bytes behind it up to the next percent sign, and the text
/// from there.
#[inline(always)]
fn first_piece(text: &[u8]) -> Option<(u8, &[u8], &[u8])>
    requires { 0 < length text.now }
    ensures is { MatchOption result (decoded text.now ≡ None) (λ piece. decoded text.now ≡ before piece.0 (after piece.1.now (decoded piece.2.now))) }
    ensures shorter { IfSome result (λ piece. length piece.1.now + length piece.2.now < length text.now) }
{
    let (byte, rest) = first_byte(text)?;
    let (run, rest) = split_run(rest);
    Some((byte, run, rest))
}

/// The bytes before the first percent sign, and the text from there.
#[tactic(auto, using(crate::proofs::Plain::run_alone, crate::proofs::Plain::run_found, crate::proofs::Plain::after_none))]
#[inline(always)]
fn split_run(text: &[u8]) -> (&[u8], &[u8])
    ensures is { decoded text.now ≡ after result.0.now (decoded result.1.now) }
    ensures whole { length result.0.now + length result.1.now ≡ length text.now }
{
    if starts_escape(text) {
        return (&[], text);
    }
    match place_of(b'%', text) {
        None => (text, &[]),
        Some(place) => text.split_at(place),
    }
}

#[inline(always)]
fn starts_escape(text: &[u8]) -> bool {
    matches!(text, [b'%', ..])
}

/// The byte that the front of a text stands for, and what follows.
#[inline(always)]
fn first_byte(text: &[u8]) -> Option<(u8, &[u8])>
    requires { 0 < length text.now }
    ensures is { MatchOption result (decoded text.now ≡ None) (λ found. decoded text.now ≡ before found.0 (decoded found.1.now)) }
    ensures shorter { IfSome result (λ found. length found.1.now < length text.now) }
{
    match text {
        [b'%', high, low, rest @ ..] => {
            let high = char::from(*high).to_digit(16)?;
            let low = char::from(*low).to_digit(16)?;
            Some(((16 * high + low) as u8, rest))
        }
        [b'%', ..] => None,
        [byte, rest @ ..] => Some((*byte, rest)),
        [] => None,
    }
}

/// Puts the word that spells the message at the line's end.
#[inline(always)]
pub fn push_message(line: &mut Vec<u8>, message: &[u8]) -> Result<(), Refusal>
    ensures ok { OnOk result (line.new.items ≡ line.old.items ++ text_of message.now) }
    ensures memory { IsOkUnless result Refusal.Memory }
{
    match message {
        [] => {
            line.push(b'-')?;
            Ok(())
        }
        [b'-'] => {
            line.extend_from_slice(b"%2D")?;
            Ok(())
        }
        _ => push_encoded(line, message),
    }
}

/// Puts each byte as itself or escaped at the line's end: all at once where none is escaped.
#[tactic(auto, using(crate::proofs::Plain::all_spelled))]
#[inline(always)]
fn push_encoded(line: &mut Vec<u8>, message: &[u8]) -> Result<(), Refusal>
    ensures ok { OnOk result (line.new.items ≡ line.old.items ++ encoded message.now) }
    ensures memory { IsOkUnless result Refusal.Memory }
{
    let run = plain_run(message);
    if run == message.len() {
        line.extend_from_slice(message)?;
        return Ok(());
    }
    push_mixed(line, message, run)
}

/// Puts the plain bytes in front of the message, which are so many, and then each byte as itself or escaped,
/// at the line's end. It stands apart, since few messages need it.
#[inline(never)]
fn push_mixed(line: &mut Vec<u8>, message: &[u8], run: usize) -> Result<(), Refusal>
    requires counted { run ≡ prefix_len is_plain message.now }
    requires within { run ≤ length message.now }
    ensures ok { OnOk result (line.new.items ≡ line.old.items ++ encoded message.now) }
    ensures memory { IsOkUnless result Refusal.Memory }
{
    line.reserve(message.len())?;
    let mut rest = push_run(line, message, run)?;
    while !rest.is_empty() {
        rest = push_front(line, rest)?;
    }
    Ok(())
}

/// Puts the plain bytes in front of the message all at once, or else the escape of its first byte, at the
/// line's end, and tells what follows.
fn push_front<'a>(line: &mut Vec<u8>, message: &'a [u8]) -> Result<&'a [u8], Refusal>
    requires { 0 < length message.now }
    ensures ok { IfOk result (λ rest. line.new.items ++ encoded rest.now ≡ line.old.items ++ encoded message.now) }
    ensures shorter { IfOk result (λ rest. length rest.now < length message.now) }
    ensures memory { IsOkUnless result Refusal.Memory }
{
    match message {
        [] => Ok(message),
        [byte, rest @ ..] => {
            if is_plain(*byte) {
                return push_run(line, message, plain_run(message));
            }
            push_escape(line, *byte)?;
            Ok(rest)
        }
    }
}

/// Puts the plain bytes in front of the message, which are so many, at the line's end, and tells what follows.
#[tactic(auto, using(crate::proofs::Plain::run_put))]
#[inline(always)]
fn push_run<'a>(line: &mut Vec<u8>, message: &'a [u8], run: usize) -> Result<&'a [u8], Refusal>
    requires counted { run ≡ prefix_len is_plain message.now }
    requires within { run ≤ length message.now }
    ensures ok { IfOk result (λ rest. line.new.items ++ encoded rest.now ≡ line.old.items ++ encoded message.now) }
    ensures shorter { IfOk result (λ rest. length rest.now + run ≡ length message.now) }
    ensures memory { IsOkUnless result Refusal.Memory }
{
    let (plain, rest) = message.split_at(run);
    line.extend_from_slice(plain)?;
    Ok(rest)
}

/// Puts the escape of the byte at the line's end.
fn push_escape(line: &mut Vec<u8>, byte: u8) -> Result<(), Refusal>
    ensures ok { OnOk result (line.new.items ≡ line.old.items ++ escape byte) }
    ensures memory { IsOkUnless result Refusal.Memory }
{
    line.extend_from_slice(&[b'%', upper_digit(byte / 16), upper_digit(byte % 16)])?;
    Ok(())
}

/// The hexadecimal digit, a letter in upper case.
fn upper_digit(digit: u8) -> u8
    requires { digit < 16 }
    ensures { result ≡ digit_glyph true digit }
{
    if digit < 10 {
        b'0' + digit
    } else {
        b'A' + (digit - 10)
    }
}
