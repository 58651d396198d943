//! What is told of a file's fault: the file, the line, the refusal, and what stands there.
//!
//! The form is that of compilers, so that editors find the line. Proved: the line, byte for byte.

ghost use Rattle.std.specs.Prelude.{◌≡◌, ◌++◌, ◌<◌, ◌≤◌, ◌-◌, ◌∷◌, [], None, Some, decimal, codes, map, take, IfOk, OnOk, IsOkUnless, option_map};
ghost use Rattle.std.specs.List.{slice_get};
ghost use Rattle.cpg_text.specs.Lines.{lines_of, trimmed};
ghost use Rattle.cpg_accept.specs.Telling.{cause_text, fault_text, line_in, place_text, printable, shown, shown_at, shown_text};

use cpg_cred::Refusal;
use cpg_text::{Lines, push_number, put, put_byte, put_bytes, trim};
use std::alloc::Global;

/// What is told of a refusal that a file at that path meets, which has that text: `cpgring: PATH:LINE: 36 UnknownName,
/// uid: ann` with the line as it stands, trimmed, its first 120 bytes, `?` for each byte that is no printable ASCII;
/// where the refusal names no line, `cpgring: PATH: 33 Unclosed`.
pub fn fault_line(
    alloc: Global,
    path: &str,
    text: &[u8],
    refusal: Refusal,
) -> Result<Vec<u8>, Refusal>
    ensures ok { IfOk result (λ line. line.items ≡ fault_text path.now text.now refusal) }
    ensures memory { IsOkUnless result Refusal.Memory }
{
    let mut line = Vec::new(alloc);
    put(&mut line, "cpgring: ")?;
    put(&mut line, path)?;
    put(&mut line, ":")?;
    put_place(&mut line, number_of(refusal))?;
    put(&mut line, " ")?;
    put_cause(alloc, &mut line, refusal)?;
    put_line(&mut line, text, number_of(refusal))?;
    put(&mut line, "\n")?;
    Ok(line)
}

/// The number of the line that the refusal names.
fn number_of(refusal: Refusal) -> Option<u32>
    ensures { result ≡ line_in refusal }
{
    match refusal {
        Refusal::BadLine(line)
        | Refusal::Unopened(line)
        | Refusal::BadItem(line)
        | Refusal::BadValue(line)
        | Refusal::UnknownName(line) => Some(line),
        _ => None,
    }
}

/// Puts the number of a line, if there is one, at the line's end.
fn put_place(line: &mut Vec<u8>, number: Option<u32>) -> Result<(), Refusal>
    ensures ok { OnOk result (line.new.items ≡ line.old.items ++ place_text number) }
    ensures memory { IsOkUnless result Refusal.Memory }
{
    match number {
        None => Ok(()),
        Some(number) => {
            push_number(line, u64::from(number))?;
            put(line, ":")
        }
    }
}

/// Puts the refusal without its line at the line's end.
fn put_cause(alloc: Global, line: &mut Vec<u8>, refusal: Refusal) -> Result<(), Refusal>
    ensures ok { OnOk result (line.new.items ≡ line.old.items ++ cause_text refusal) }
    ensures memory { IsOkUnless result Refusal.Memory }
{
    match refusal {
        Refusal::BadLine(_) => put(line, "31 BadLine"),
        Refusal::Unopened(_) => put(line, "32 Unopened"),
        Refusal::BadItem(_) => put(line, "34 BadItem"),
        Refusal::BadValue(_) => put(line, "35 BadValue"),
        Refusal::UnknownName(_) => put(line, "36 UnknownName"),
        _ => {
            let text = format!(in alloc; "{refusal}")?;
            put_bytes(line, text.as_bytes())
        }
    }
}

/// Puts what stands in the line of that number, if there is one, at the line's end.
fn put_line(line: &mut Vec<u8>, text: &[u8], number: Option<u32>) -> Result<(), Refusal>
    ensures ok { OnOk result (line.new.items ≡ line.old.items ++ shown_at text.now number) }
    ensures memory { IsOkUnless result Refusal.Memory }
{
    match number {
        None => Ok(()),
        Some(number) => put_shown(line, line_of(text, number)),
    }
}

/// The line of that number, from 1.
fn line_of(text: &[u8], number: u32) -> Option<&[u8]>
    ensures { option_map (λ line. line.now) result ≡ slice_get (lines_of text.now) (number - 1) }
{
    let mut before = number.saturating_sub(1);
    for line in Lines::of(text) {
        if before == 0 {
            return Some(line);
        }
        before -= 1;
    }
    None
}

fn put_shown(line: &mut Vec<u8>, stands: Option<&[u8]>) -> Result<(), Refusal>
    ensures ok { OnOk result (line.new.items ≡ line.old.items ++ shown_text (option_map (λ text. text.now) stands.entry)) }
    ensures memory { IsOkUnless result Refusal.Memory }
{
    match stands {
        None => Ok(()),
        Some(text) => {
            put(line, ", ")?;
            put_printable(line, cut_to(trim(text)))
        }
    }
}

/// The first bytes of a line, as many as are shown.
fn cut_to(line: &[u8]) -> &[u8]
    ensures { result.now ≡ take 120 line.now }
{
    if line.len() <= 120 {
        line
    } else {
        &line[..120]
    }
}

fn put_printable(line: &mut Vec<u8>, text: &[u8]) -> Result<(), Refusal>
    ensures ok { OnOk result (line.new.items ≡ line.old.items ++ map printable text.now) }
    ensures memory { IsOkUnless result Refusal.Memory }
{
    for byte in text {
        put_byte(line, printable(*byte))?;
    }
    Ok(())
}

fn printable(byte: u8) -> u8
    ensures { result ≡ printable byte }
{
    if byte >= 0x20 && byte < 0x7f {
        byte
    } else {
        b'?'
    }
}
