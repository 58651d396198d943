//! Scripts whose lines say items, read and checked whole.
//!
//! Proved: the items are those of all the lines that are not ignored, or the refusal names the first bad line.

ghost use Rattle.std.specs.Prelude.{◌≡◌, ◌≤◌, ◌∷◌, ◌++◌, ◌+◌, [], ℕ, List, Ok, Err, None, false, All, length, MatchOption, IfOk, IfErr, IfSome, OnOk, IsOkUnless};
ghost use Rattle.cpg_text.specs.Lines.{is_ignored, trimmed};
ghost use Rattle.cpg_text.specs.Reading.{read_all, FailsAs};
ghost use Rattle.cpg_text.specs.Items.{items_with};

use crate::lines::{Lines, is_ignored, trim};
use crate::streams::MOST_BYTES;
use cpg_cred::Refusal;
use std::alloc::Global;

/// What a kind of script makes of its lines.
pub trait ReadsLine {
    ghost use Rattle.std.specs.Prelude.{◌≡◌, ℕ, List, Option, IfOk, IfSome};
    ghost use Rattle.cpg_text.specs.Memory.{IsOkUnlessMemoryFor};

    /// What a line says.
    type Item: Drop;

    // What a trimmed line says after so many items, if it says one.
    ghost meaning: { Self → ℕ → List ℕ → Option Self.Item };

    // What holds of each item.
    ghost holds: { Self → Self.Item → Type 0 };

    /// The item of a trimmed line that follows so many items, if it says one. That it says none is told whatever
    /// memory there is.
    fn read(&self, alloc: Global, before: usize, line: &[u8]) -> Result<Option<Self::Item>, Refusal>
        ensures item { IfOk result (λ found. found ≡ meaning self.now before line.now) }
        ensures held { IfOk result (λ found. IfSome found (λ item. holds self.now item)) }
        ensures memory { IsOkUnlessMemoryFor result (meaning self.now before line.now) };
}

/// The items of a script, or `BadCommand` with its first bad line.
#[tactic(auto, using(crate::proofs::Lengths::lines_few, crate::proofs::Reading::items_with_none))]
pub fn read_script<R: ReadsLine>(
    alloc: Global,
    reader: &R,
    script: &[u8],
) -> Result<Vec<R::Item>, Refusal>
    requires { length script.now ≤ MOST_BYTES }
    ensures ok { IfOk result (λ items. read_all (R.meaning reader.now) script.now ≡ Ok items.items) }
    ensures held { IfOk result (λ items. All (λ item. R.holds reader.now item) items.items) }
    ensures err { IfErr result (λ refusal. FailsAs (read_all (R.meaning reader.now) script.now) refusal) }
{
    let mut items = Vec::new(alloc);
    let mut number = 0u32;
    for line in Lines::of(script) {
        number += 1;
        take_line(alloc, reader, &mut items, number, line)?;
    }
    Ok(items)
}

/// Takes in a line of that number, of which the lines before were taken in. A line that says nothing is
/// `BadCommand`, whatever memory there is.
fn take_line<R: ReadsLine>(
    alloc: Global,
    reader: &R,
    items: &mut Vec<R::Item>,
    number: u32,
    line: &[u8],
) -> Result<(), Refusal>
    requires { All (λ item. R.holds reader.now item) items.old.items }
    ensures ok { OnOk result ((lines : List (List ℕ)) → items_with (R.meaning reader.now) items.old.items number (line.now ∷ lines) ≡ items_with (R.meaning reader.now) items.new.items (number + 1) lines) }
    ensures held { OnOk result (All (λ item. R.holds reader.now item) items.new.items) }
    ensures err { IfErr result (λ refusal. (lines : List (List ℕ)) → FailsAs (items_with (R.meaning reader.now) items.old.items number (line.now ∷ lines)) refusal) }
    ensures bad { is_ignored (trimmed line.now) ≡ false → R.meaning reader.now (length items.old.items) (trimmed line.now) ≡ None → result ≡ Err (Refusal.BadCommand number) }
{
    let line = trim(line);
    if is_ignored(line) {
        return Ok(());
    }
    let found = reader.read(alloc, items.len(), line)?;
    put_last(items, number, found)
}

/// Puts what a line of that number says last. A line that says nothing is `BadCommand`, whatever memory there is.
fn put_last<T: Drop>(items: &mut Vec<T>, number: u32, found: Option<T>) -> Result<(), Refusal>
    ensures ok { OnOk result (IfSome found (λ item. items.new.items ≡ items.old.items ++ item ∷ [])) }
    ensures err { MatchOption found (result ≡ Err (Refusal.BadCommand number)) (λ item. IsOkUnless result Refusal.Memory) }
{
    match found {
        None => Err(Refusal::BadCommand(number)),
        Some(item) => {
            items.push(item)?;
            Ok(())
        }
    }
}
