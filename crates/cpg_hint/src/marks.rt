//! A line as it is shown, and a mark under a place of it.
//!
//! The form is this project's own. Proved: what is put is the definition `marked`.

ghost use Rattle.std.specs.Prelude.{◌≡◌, ◌++◌, ◌<◌, take, true, OnOk, IfOk, IsOkUnless};
ghost use Rattle.std.specs.Fmt.{digit_glyph};
ghost use Rattle.cpg_hint.specs.Marks.{blanks, cut_short, escaped, escaped_byte, front_text, mark_under, marked, shown};

use cpg_cred::Refusal;
use cpg_text::{push_number, put, put_byte, put_bytes};
use std::alloc::Global;

/// How many characters of a line are shown.
pub const MOST_SHOWN: usize = 120;

/// Puts the line of that number at the text's end, and under it a mark at the place among its bytes, with a phrase.
pub fn put_marked(
    alloc: Global,
    text: &mut Vec<u8>,
    number: u64,
    line: &[u8],
    place: usize,
    phrase: &[u8],
) -> Result<(), Refusal>
    ensures ok { OnOk result (text.new.items ≡ text.old.items ++ marked number line.now place phrase.now) }
    ensures memory { IsOkUnless result Refusal.Memory }
{
    put_front(text, "line ", number)?;
    put_shown(alloc, text, line)?;
    let mut before = Vec::new(alloc);
    put_front(&mut before, "line ", number)?;
    put_shown(alloc, &mut before, front_of(place, line))?;
    put_mark(text, before.as_slice(), phrase)
}

/// Puts the line's end at the text's end, and under what stands before the place a mark with the phrase.
pub(crate) fn put_mark(text: &mut Vec<u8>, before: &[u8], phrase: &[u8]) -> Result<(), Refusal>
    ensures ok { OnOk result (text.new.items ≡ text.old.items ++ mark_under before.now phrase.now) }
    ensures memory { IsOkUnless result Refusal.Memory }
{
    put(text, "\n")?;
    put_blanks(text, before)?;
    put(text, "^ ")?;
    put_bytes(text, phrase)?;
    put(text, "\n")
}

/// Puts what stands before the line or the word of that number, which is named so, at the text's end.
pub(crate) fn put_front(text: &mut Vec<u8>, name: &str, number: u64) -> Result<(), Refusal>
    ensures ok { OnOk result (text.new.items ≡ text.old.items ++ front_text name.now number) }
    ensures memory { IsOkUnless result Refusal.Memory }
{
    put(text, name)?;
    push_number(text, number)?;
    put(text, ": ")
}

/// Puts the line, escaped and cut, at the text's end.
pub(crate) fn put_shown(alloc: Global, text: &mut Vec<u8>, line: &[u8]) -> Result<(), Refusal>
    ensures ok { OnOk result (text.new.items ≡ text.old.items ++ shown line.now) }
    ensures memory { IsOkUnless result Refusal.Memory }
{
    let mut front = Vec::new(alloc);
    put_escaped(&mut front, front_of(MOST_SHOWN + 1, line))?;
    put_cut(text, front.as_slice())
}

/// The first so many of the bytes.
fn front_of(most: usize, bytes: &[u8]) -> &[u8]
    ensures { result.now ≡ take most bytes.now }
{
    if bytes.len() <= most {
        bytes
    } else {
        &bytes[..most]
    }
}

/// Puts the first characters at the text's end, and dots where there are more.
fn put_cut(text: &mut Vec<u8>, front: &[u8]) -> Result<(), Refusal>
    ensures ok { OnOk result (text.new.items ≡ text.old.items ++ cut_short front.now) }
    ensures memory { IsOkUnless result Refusal.Memory }
{
    if front.len() <= MOST_SHOWN {
        put_bytes(text, front)
    } else {
        put_bytes(text, front_of(MOST_SHOWN, front))?;
        put(text, "...")
    }
}

/// Puts each byte, as itself or escaped, at the text's end.
fn put_escaped(text: &mut Vec<u8>, bytes: &[u8]) -> Result<(), Refusal>
    ensures ok { OnOk result (text.new.items ≡ text.old.items ++ escaped bytes.now) }
    ensures memory { IsOkUnless result Refusal.Memory }
{
    for byte in bytes {
        put_escaped_byte(text, *byte)?;
    }
    Ok(())
}

fn put_escaped_byte(text: &mut Vec<u8>, byte: u8) -> Result<(), Refusal>
    ensures ok { OnOk result (text.new.items ≡ text.old.items ++ escaped_byte byte) }
    ensures memory { IsOkUnless result Refusal.Memory }
{
    if byte >= 32 && byte <= 126 {
        put_byte(text, byte)
    } else {
        put_bytes(
            text,
            &[b'\\', b'x', upper_digit(byte / 16), upper_digit(byte % 16)],
        )
    }
}

/// The hexadecimal digit, a letter in upper case.
fn upper_digit(digit: u8) -> u8
    requires { digit < 16 }
    ensures { result ≡ digit_glyph true digit }
{
    if digit < 10 {
        b'0' + digit
    } else {
        b'A' + (digit - 10)
    }
}

/// Puts a space for each character at the text's end.
fn put_blanks(text: &mut Vec<u8>, before: &[u8]) -> Result<(), Refusal>
    ensures ok { OnOk result (text.new.items ≡ text.old.items ++ blanks before.now) }
    ensures memory { IsOkUnless result Refusal.Memory }
{
    for _character in before {
        put_byte(text, b' ')?;
    }
    Ok(())
}
