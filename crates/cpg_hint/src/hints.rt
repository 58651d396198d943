//! What is told beside a script's fault.
//!
//! The form is this project's own. Proved: what is told is the definition `hint_text`, byte for byte.

ghost use Rattle.std.specs.Prelude.{◌≡◌, ◌++◌, OnOk, IfOk, IsOkUnless};
ghost use Rattle.cpg_text.specs.Lines.{lines_of};
ghost use Rattle.cpg_hint.specs.Hints.{command_hint, has_head, hint_text, or_room, mismatch_in};
ghost use Rattle.cpg_hint.specs.Told.{line_at};

use crate::kinds::ScriptKind;
use crate::parts::{is_head, part_at, put_part};
use crate::patterns::Expected;
use crate::told::{line_at, put_mismatch};
use crate::words::{Mismatch, first_mismatch};
use cpg_cred::Refusal;
use cpg_text::{Fault, Lines, trim};
use std::alloc::Global;

/// What a person needs to mend a script of that kind, beside the line of its fault: the line of the script, a mark
/// under the first word that does not fit, and what was wanted there. Nothing is told of faults that no line has.
pub fn hint_of(
    alloc: Global,
    kind: ScriptKind,
    script: &[u8],
    fault: &Fault,
) -> Result<Vec<u8>, Refusal>
    ensures ok { IfOk result (λ text. text.items ≡ hint_text kind script.now fault.now) }
    ensures memory { IsOkUnless result Refusal.Memory }
{
    let mut text = Vec::new(alloc);
    match (fault.part, fault.refusal) {
        (Some(part), refusal) => {
            if let Some(start) = part_at(part, script) {
                put_part(alloc, &mut text, &start, refusal)?;
            }
        }
        (None, Refusal::BadCommand(number)) => {
            put_command(alloc, &mut text, kind, script, number)?;
        }
        (None, _) => {}
    }
    Ok(text)
}

/// Puts what is told of a bad line of that number at the text's end.
fn put_command(
    alloc: Global,
    text: &mut Vec<u8>,
    kind: ScriptKind,
    script: &[u8],
    number: u32,
) -> Result<(), Refusal>
    ensures ok { OnOk result (text.new.items ≡ text.old.items ++ command_hint kind number (lines_of script.now) (line_at number (lines_of script.now))) }
    ensures memory { IsOkUnless result Refusal.Memory }
{
    match line_at(number, Lines::of(script)) {
        None => Ok(()),
        Some(line) => {
            let mismatch = mismatch_in(kind, has_head(number, script), line);
            put_mismatch(alloc, text, kind.nodes(), u64::from(number), line, mismatch)
        }
    }
}

/// What is wrong with a bad line, in a part of the script or before the first.
fn mismatch_in(kind: ScriptKind, in_part: bool, line: &[u8]) -> Mismatch
    ensures { result ≡ mismatch_in kind in_part line.now }
{
    match (kind, in_part) {
        (ScriptKind::Accept, false) => Mismatch {
            index: 0,
            expected: Expected::Head,
        },
        _ => or_room(first_mismatch(kind.nodes(), kind.pattern(), trim(line))),
    }
}

fn or_room(mismatch: Option<Mismatch>) -> Mismatch
    ensures { result ≡ or_room mismatch }
{
    mismatch.unwrap_or(Mismatch {
        index: 0,
        expected: Expected::Room,
    })
}

/// Whether one of the first so many lines begins a part.
fn has_head(number: u32, script: &[u8]) -> bool
    ensures { result ≡ has_head number (lines_of script.now) }
{
    let mut left = number;
    for line in Lines::of(script) {
        if left == 0 {
            return false;
        }
        if is_head(line) {
            return true;
        }
        left -= 1;
    }
    false
}
