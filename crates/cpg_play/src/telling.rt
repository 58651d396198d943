//! What is told of a difference.

ghost use Rattle.std.specs.Prelude.{IsOkUnless};

use cpg_cred::Refusal;
use cpg_text::{push_number, put, put_bytes, write_whole};
use std::alloc::Global;
use std::io::Write;

/// Puts a line in quotes, or that there is none.
fn put_line(text: &mut Vec<u8>, line: Option<&[u8]>) -> Result<(), Refusal>
    ensures memory { IsOkUnless result Refusal.Memory }
{
    match line {
        None => put(text, "nothing"),
        Some(line) => {
            put(text, "\"")?;
            put_bytes(text, line)?;
            put(text, "\"")
        }
    }
}

/// What is told where the line of that number wants another line than is printed:
/// `cpgring: line 3: wanted "safe 1", printed "safe 0"`.
fn difference(
    alloc: Global,
    number: u32,
    wanted: Option<&[u8]>,
    printed: Option<&[u8]>,
) -> Result<Vec<u8>, Refusal>
    ensures memory { IsOkUnless result Refusal.Memory }
{
    let mut text = Vec::new(alloc);
    put(&mut text, "cpgring: line ")?;
    push_number(&mut text, u64::from(number))?;
    put(&mut text, ": wanted ")?;
    put_line(&mut text, wanted)?;
    put(&mut text, ", printed ")?;
    put_line(&mut text, printed)?;
    put(&mut text, "\n")?;
    Ok(text)
}

/// Tells that the line of that number wants another line than is printed.
pub fn tell_difference<E: Write>(
    alloc: Global,
    errors: &mut E,
    number: u32,
    wanted: Option<&[u8]>,
    printed: Option<&[u8]>,
) -> Result<(), Refusal> {
    let text = difference(alloc, number, wanted, printed)?;
    write_whole(errors, text.as_slice())
}
