//! Lines of files of rows.

use cpg_cred::Refusal;
use cpg_text::{cut, put_byte, put_bytes, read_number, strip_name, take_word, trim};

/// How often memory is asked for before it is taken that there is none.
pub const TRIES: u32 = 4;

/// How often `<N TEXT>` may stand for its text.
const MOST_TIMES: u64 = 100_000;

/// The command of a line, and the first line of its answer, if it stands there.
pub fn parts_of(line: &[u8]) -> (&[u8], Option<&[u8]>) {
    for index in 0..line.len() {
        if let Some(told) = strip_name(b" => ", &line[index..]) {
            return (trim(&line[..index]), Some(trim(told)));
        }
    }
    (line, None)
}

/// Puts the text of `N TEXT` so often.
fn put_times(text: &mut Vec<u8>, inside: &[u8]) -> Result<(), Refusal> {
    let Some((count, unit)) = take_word(inside) else {
        return Ok(());
    };
    for _ in 0..read_number(1, MOST_TIMES, count).unwrap_or(0) {
        put_bytes(text, unit)?;
    }
    Ok(())
}

/// Puts the line's front to its first `<N TEXT>`, and that text so often. Gives what follows, where there was one.
fn put_front<'a>(text: &mut Vec<u8>, line: &'a [u8]) -> Result<Option<&'a [u8]>, Refusal> {
    let Some((front, more)) = cut(b'<', line) else {
        return Ok(None);
    };
    let Some((inside, after)) = cut(b'>', more) else {
        return Ok(None);
    };
    put_bytes(text, front)?;
    put_times(text, inside)?;
    Ok(Some(after))
}

/// Puts the line at the text's end, with TEXT so often where it has `<N TEXT>`.
fn put_line(text: &mut Vec<u8>, line: &[u8]) -> Result<(), Refusal> {
    let mut rest = line;
    for _ in 0..line.len() {
        match put_front(text, rest)? {
            Some(after) => rest = after,
            None => break,
        }
    }
    put_plain(text, rest)
}

/// Puts the line at the text's end as it is.
fn put_plain(text: &mut Vec<u8>, line: &[u8]) -> Result<(), Refusal> {
    put_bytes(text, line)?;
    put_byte(text, b'\n')
}

/// What the call gives, which is made again after a refusal.
pub fn surely<T: Drop, F: FnMut() -> Result<T, Refusal>>(mut call: F) -> Result<T, Refusal>
    requires { F.IsAlwaysCallable call }
{
    for _ in 1..TRIES {
        if let Ok(given) = call() {
            return Ok(given);
        }
    }
    call()
}

/// Puts at the text's end what the call puts there, again after a refusal.
pub fn put_surely<F: FnMut(&mut Vec<u8>) -> Result<(), Refusal>>(
    text: &mut Vec<u8>,
    mut put: F,
) -> Result<(), Refusal>
    requires { F.IsAlwaysCallable put }
{
    let length = text.len();
    for _ in 1..TRIES {
        if put(text).is_ok() {
            return Ok(());
        }
        text.truncate(length);
    }
    put(text)
}

/// Puts the line as `put_line` does, again after Memory.
pub fn put_line_surely(text: &mut Vec<u8>, line: &[u8]) -> Result<(), Refusal> {
    put_surely(text, |text| put_line(text, line))
}

/// Puts the line as it is, again after Memory.
pub fn put_plain_surely(text: &mut Vec<u8>, line: &[u8]) -> Result<(), Refusal> {
    put_surely(text, |text| put_plain(text, line))
}

/// Gives the text room for so many bytes more, again after Memory.
pub fn reserve_surely(text: &mut Vec<u8>, room: usize) -> Result<(), Refusal> {
    put_surely(text, |text| Ok(text.reserve(room)?))
}
