//! Lines are gathered, and written many at a time.
//!
//! Proved: what is written and gathered grows by the lines, or after a refusal whole lines or a front of the
//! text was written.

ghost use Rattle.std.specs.Prelude.{◌≡◌, ℕ, List, [], OnOk};
ghost use Rattle.std.specs.List.{concat};
ghost use Rattle.cpg_judge.specs.Gathering.{Gathers};

use cpg_cred::Refusal;
use cpg_text::write_whole;
use std::io::Write;

/// The bytes that are written together, at least, but at the end.
const MUCH: usize = 16_384;

/// Writes what is gathered. It stands apart, as most lines are gathered alone.
#[inline(never)]
pub fn write_all<W: Write>(writer: &mut W, lines: &mut Vec<u8>) -> Result<(), Refusal>
    ensures lines { Gathers result (W.contents writer.old) lines.old.items (W.contents writer.new) lines.new.items [] }
    ensures none { OnOk result (lines.new.items ≡ []) }
{
    match write_whole(writer, lines.as_slice()) {
        Ok(()) => {
            lines.clear();
            Ok(())
        }
        Err(_) => Err(Refusal::Write),
    }
}

/// Writes what is gathered, where it is much.
#[inline(always)]
pub fn write_much<W: Write>(writer: &mut W, lines: &mut Vec<u8>) -> Result<(), Refusal>
    ensures { Gathers result (W.contents writer.old) lines.old.items (W.contents writer.new) lines.new.items [] }
{
    if lines.len() < MUCH {
        return Ok(());
    }
    write_all(writer, lines)
}

/// Writes a text of lines behind those that are gathered.
fn write_behind<W: Write>(writer: &mut W, lines: &mut Vec<u8>, text: &[u8]) -> Result<(), Refusal>
    ensures { (more : List (List ℕ)) → text.now ≡ concat more → Gathers result (W.contents writer.old) lines.old.items (W.contents writer.new) lines.new.items more }
{
    write_all(writer, lines)?;
    match write_whole(writer, text) {
        Ok(()) => Ok(()),
        Err(_) => Err(Refusal::Write),
    }
}

/// Gathers a text of lines, or writes it where it is much.
#[inline(always)]
pub(crate) fn gather<W: Write>(
    writer: &mut W,
    lines: &mut Vec<u8>,
    text: &[u8],
) -> Result<(), Refusal>
    ensures { (more : List (List ℕ)) → text.now ≡ concat more → Gathers result (W.contents writer.old) lines.old.items (W.contents writer.new) lines.new.items more }
{
    if text.len() >= MUCH {
        return write_behind(writer, lines, text);
    }
    lines.extend_from_slice(text)?;
    Ok(())
}
