//! Small words: what is put at a line's end, and how a word is taken apart.

ghost use Rattle.std.specs.Prelude.{◌≡◌, ◌==◌, ◌++◌, ◌∷◌, [], OnOk, IsOkUnless, option_map};
ghost use Rattle.std.specs.Str.{bytes_eq};
ghost use Rattle.std.specs.List.{position};
ghost use Rattle.cpg_text.specs.Numbers.{number_in};
ghost use Rattle.cpg_text.specs.Words.{after_name, cut_at};

use crate::items::push_item;
use crate::numbers::read_number;
use cpg_cred::Refusal;

/// Puts the text at the line's end. Most texts are a few bytes that stand in the program, so that it is inlined
/// where it is called.
#[inline(always)]
pub fn put(line: &mut Vec<u8>, text: &str) -> Result<(), Refusal>
    ensures ok { OnOk result (line.new.items ≡ line.old.items ++ text.now) }
    ensures memory { IsOkUnless result Refusal.Memory }
{
    line.extend_from_slice(text.as_bytes())?;
    Ok(())
}

/// Puts the byte at the line's end: cheaper than a text of one.
#[inline(always)]
pub fn put_byte(line: &mut Vec<u8>, byte: u8) -> Result<(), Refusal>
    ensures ok { OnOk result (line.new.items ≡ line.old.items ++ byte ∷ []) }
    ensures memory { IsOkUnless result Refusal.Memory }
{
    push_item(line, byte)
}

/// Puts the bytes at the line's end.
#[inline(always)]
pub fn put_bytes(line: &mut Vec<u8>, bytes: &[u8]) -> Result<(), Refusal>
    ensures ok { OnOk result (line.new.items ≡ line.old.items ++ bytes.now) }
    ensures memory { IsOkUnless result Refusal.Memory }
{
    line.extend_from_slice(bytes)?;
    Ok(())
}

/// Whether the word is the name.
pub fn is(word: &[u8], name: &[u8]) -> bool
    ensures { result ≡ bytes_eq word.now name.now }
{
    word == name
}

/// The number that the word writes, where it writes one from `low` to `high`.
pub fn read_u32(low: u32, high: u32, word: &[u8]) -> Option<u32>
    ensures { result ≡ number_in low high word.now }
{
    let number = read_number(u64::from(low), u64::from(high), word)?;
    Some(number as u32)
}

/// What stands before and after the first such byte, where there is one.
pub fn cut(separator: u8, word: &[u8]) -> Option<(&[u8], &[u8])>
    ensures { option_map (λ parts. (parts.0.now, parts.1.now)) result ≡ cut_at separator word.now }
{
    let end = place_of(separator, word)?;
    Some((&word[..end], &word[end + 1..]))
}

fn place_of(separator: u8, word: &[u8]) -> Option<usize>
    ensures { result ≡ position (λ byte. byte == separator) word.now }
{
    word.iter().position(|byte| *byte == separator)
}

/// What follows the name at the word's front.
pub fn strip_name<'a>(name: &[u8], word: &'a [u8]) -> Option<&'a [u8]>
    ensures { option_map (λ rest. rest.now) result ≡ after_name name.now word.now }
{
    if word.len() < name.len() {
        return None;
    }
    if is(&word[..name.len()], name) {
        Some(&word[name.len()..])
    } else {
        None
    }
}
