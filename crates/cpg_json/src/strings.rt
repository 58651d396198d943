//! Bytes and texts as strings.

ghost use Rattle.std.specs.Prelude.{◌≡◌, ◌<◌, ◌++◌, false, OnOk, IsOkUnless};
ghost use Rattle.std.specs.List.{flat_map, list_all};
ghost use Rattle.std.specs.Char.Escape.{encode_utf16};
ghost use Rattle.std.specs.Fmt.{digit_glyph};
ghost use Rattle.std.specs.Str.{chars};
ghost use Rattle.cpg_json.specs.Strings.{hex_byte, hex_string, is_plain, json_string, string_byte, string_char, text_string, unit_escape};

use cpg_cred::Refusal;
use cpg_text::{put, put_byte, put_bytes};

/// Puts the bytes as a string at the line's end.
pub(crate) fn put_string(line: &mut Vec<u8>, bytes: &[u8]) -> Result<(), Refusal>
    ensures ok { OnOk result (line.new.items ≡ line.old.items ++ json_string bytes.now) }
    ensures memory { IsOkUnless result Refusal.Memory }
{
    put(line, "\"")?;
    put_escaped(line, bytes)?;
    put(line, "\"")
}

/// Puts each byte as itself or escaped at the line's end, all at once where each stands for itself.
#[tactic(auto, using(crate::proofs::Escaping::plain_escaped))]
fn put_escaped(line: &mut Vec<u8>, bytes: &[u8]) -> Result<(), Refusal>
    ensures ok { OnOk result (line.new.items ≡ line.old.items ++ flat_map string_byte bytes.now) }
    ensures memory { IsOkUnless result Refusal.Memory }
{
    if has_plain_alone(bytes) {
        return put_bytes(line, bytes);
    }
    for byte in bytes {
        put_string_byte(line, *byte)?;
    }
    Ok(())
}

fn has_plain_alone(bytes: &[u8]) -> bool
    ensures { result ≡ list_all is_plain bytes.now }
{
    bytes.iter().all(|byte| is_plain(*byte))
}

fn put_string_byte(line: &mut Vec<u8>, byte: u8) -> Result<(), Refusal>
    ensures ok { OnOk result (line.new.items ≡ line.old.items ++ string_byte byte) }
    ensures memory { IsOkUnless result Refusal.Memory }
{
    if is_plain(byte) {
        put_byte(line, byte)
    } else {
        put(line, "\\u00")?;
        put_hex_byte(line, byte)
    }
}

fn is_plain(byte: u8) -> bool
    ensures { result ≡ is_plain byte }
{
    byte >= b' ' && byte <= b'~' && byte != b'"' && byte != b'\\'
}

/// Puts the characters of a text as a string at the line's end.
pub(crate) fn put_chars(line: &mut Vec<u8>, text: &str) -> Result<(), Refusal>
    ensures ok { OnOk result (line.new.items ≡ line.old.items ++ text_string text.now) }
    ensures memory { IsOkUnless result Refusal.Memory }
{
    put(line, "\"")?;
    put_escaped_chars(line, text)?;
    put(line, "\"")
}

/// Puts each character as itself or escaped at the line's end, all at once where each stands for itself.
#[tactic(auto, using(crate::proofs::Escaping::plain_text))]
fn put_escaped_chars(line: &mut Vec<u8>, text: &str) -> Result<(), Refusal>
    ensures ok { OnOk result (line.new.items ≡ line.old.items ++ flat_map string_char (chars text.now)) }
    ensures memory { IsOkUnless result Refusal.Memory }
{
    if has_plain_alone(text.as_bytes()) {
        return put_bytes(line, text.as_bytes());
    }
    put_each_char(line, text)
}

fn put_each_char(line: &mut Vec<u8>, text: &str) -> Result<(), Refusal>
    ensures ok { OnOk result (line.new.items ≡ line.old.items ++ flat_map string_char (chars text.now)) }
    ensures memory { IsOkUnless result Refusal.Memory }
{
    for c in text.chars() {
        put_char(line, c)?;
    }
    Ok(())
}

fn put_char(line: &mut Vec<u8>, c: char) -> Result<(), Refusal>
    ensures ok { OnOk result (line.new.items ≡ line.old.items ++ string_char c) }
    ensures memory { IsOkUnless result Refusal.Memory }
{
    let code = c as u32;
    if code < 128 && is_plain(code as u8) {
        put_byte(line, code as u8)
    } else {
        put_units(line, code)
    }
}

/// Puts the one or two units of UTF-16 of a character at the line's end, each escaped.
fn put_units(line: &mut Vec<u8>, code: u32) -> Result<(), Refusal>
    requires { code < 0x110000 }
    ensures ok { OnOk result (line.new.items ≡ line.old.items ++ flat_map unit_escape (encode_utf16 code)) }
    ensures memory { IsOkUnless result Refusal.Memory }
{
    if code < 0x10000 {
        return put_unit(line, code);
    }
    let above = code - 0x10000;
    put_unit(line, 0xD800 + above / 0x400)?;
    put_unit(line, 0xDC00 + above % 0x400)
}

fn put_unit(line: &mut Vec<u8>, unit: u32) -> Result<(), Refusal>
    requires { unit < 0x10000 }
    ensures ok { OnOk result (line.new.items ≡ line.old.items ++ unit_escape unit) }
    ensures memory { IsOkUnless result Refusal.Memory }
{
    put(line, "\\u")?;
    put_hex_byte(line, (unit / 256) as u8)?;
    put_hex_byte(line, (unit % 256) as u8)
}

/// Puts the bytes as a string of hexadecimal digits at the line's end.
pub(crate) fn put_hex(line: &mut Vec<u8>, bytes: &[u8]) -> Result<(), Refusal>
    ensures ok { OnOk result (line.new.items ≡ line.old.items ++ hex_string bytes.now) }
    ensures memory { IsOkUnless result Refusal.Memory }
{
    put(line, "\"")?;
    for byte in bytes {
        put_hex_byte(line, *byte)?;
    }
    put(line, "\"")
}

fn put_hex_byte(line: &mut Vec<u8>, byte: u8) -> Result<(), Refusal>
    ensures ok { OnOk result (line.new.items ≡ line.old.items ++ hex_byte byte) }
    ensures memory { IsOkUnless result Refusal.Memory }
{
    line.extend_from_slice(&[lower_digit(byte / 16), lower_digit(byte % 16)])?;
    Ok(())
}

/// The hexadecimal digit, a letter in lower case.
fn lower_digit(digit: u8) -> u8
    requires { digit < 16 }
    ensures { result ≡ digit_glyph false digit }
{
    if digit < 10 {
        b'0' + digit
    } else {
        b'a' + (digit - 10)
    }
}
