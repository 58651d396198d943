//! Scripts of entries, read, checked and judged whole.

ghost use Rattle.std.specs.Prelude.{◌≡◌, ◌≤◌, ◌<◌, ◌+◌, ◌++◌, ◌∷◌, [], ℕ, List, Ok, Err, None, false, length, MatchOption, IfOk, IfErr, IfSome, OnOk, IsOkUnless};
ghost use Rattle.cpg_record.specs.Judging.{most_places};
ghost use Rattle.cpg_text.specs.Lines.{is_ignored, trimmed};
ghost use Rattle.cpg_text.specs.Memory.{IsOkUnlessMemoryFor};
ghost use Rattle.cpg_text.specs.Reading.{FailsAs};
ghost use Rattle.cpg_text.specs.Items.{items_with};
ghost use Rattle.cpg_judge.specs.Scripts.{entry_in, entries_of_script};

use cpg_cred::Refusal;
use cpg_entry::{Entry, MOST_PLACES, Name};
use cpg_group::Policy;
use cpg_print::{GivesNames, entry_with_names};
use cpg_text::{Lines, MOST_BYTES, is_ignored, trim};
use std::alloc::Global;

/// The names of the groups that entries of a policy are of.
#[derive(Debug, Clone, Copy)]
struct NamesOf<'a> {
    policy: &'a Policy,
}

impl NamesOf<'_> {
    /// The name of those bytes that an entry of the group has. Takes no memory.
    fn kept(&self, bytes: &[u8]) -> Option<&Name>
        ensures { IfSome result (λ name. name.now ≡ bytes.now) }
    {
        let place = *self.policy.places_in(bytes).first()? as usize;
        let past = self.policy.records().get(place.checked_sub(1)?)?;
        past.group.as_ref().filter(|name| name.is(bytes))
    }
}

impl GivesNames for NamesOf<'_> {
    fn name(&self, alloc: Global, bytes: &[u8]) -> Result<Name, Refusal> {
        match self.kept(bytes) {
            Some(name) => name.copy(alloc),
            None => Name::from_slice(alloc, bytes),
        }
    }
}

/// The entry of a trimmed line that follows the entries of the policy, if there is room for one. That it is none is told
/// whatever memory there is.
fn read_entry(alloc: Global, policy: &Policy, line: &[u8]) -> Result<Option<Entry>, Refusal>
    ensures entry { IfOk result (λ found. found ≡ entry_in (length policy.now) line.now) }
    ensures few { IfOk result (λ found. IfSome found (λ entry. length policy.now < most_places)) }
    ensures memory { IsOkUnlessMemoryFor result (entry_in (length policy.now) line.now) }
{
    if policy.len() >= MOST_PLACES as usize {
        return Ok(None);
    }
    entry_with_names(alloc, &NamesOf { policy }, line)
}

/// Judges the entry, and puts it last.
fn enter(policy: &mut Policy, entry: Entry) -> Result<(), Refusal>
    requires { length policy.old < most_places }
    ensures ok { OnOk result (policy.new ≡ policy.old ++ entry ∷ []) }
    ensures memory { IsOkUnless result Refusal.Memory }
{
    match policy.enter(entry) {
        Ok(()) => Ok(()),
        Err(refused) => Err(refused.refusal),
    }
}

/// Judges the entry of a line of that number, of which the lines before were judged. A line that is no entry is
/// `BadCommand`, whatever memory there is.
fn judge_line(alloc: Global, policy: &mut Policy, number: u32, line: &[u8]) -> Result<(), Refusal>
    ensures ok { OnOk result ((lines : List (List ℕ)) → items_with entry_in policy.old number (line.now ∷ lines) ≡ items_with entry_in policy.new (number + 1) lines) }
    ensures err { IfErr result (λ refusal. (lines : List (List ℕ)) → FailsAs (items_with entry_in policy.old number (line.now ∷ lines)) refusal) }
    ensures bad { is_ignored (trimmed line.now) ≡ false → entry_in (length policy.old) (trimmed line.now) ≡ None → result ≡ Err (Refusal.BadCommand number) }
{
    let line = trim(line);
    if is_ignored(line) {
        return Ok(());
    }
    let found = read_entry(alloc, policy, line)?;
    enter_found(policy, number, found)
}

/// Judges what a line of that number says, and puts it last. A line that says nothing is `BadCommand`, whatever
/// memory there is.
fn enter_found(policy: &mut Policy, number: u32, found: Option<Entry>) -> Result<(), Refusal>
    requires { IfSome found (λ entry. length policy.old < most_places) }
    ensures ok { OnOk result (IfSome found (λ entry. policy.new ≡ policy.old ++ entry ∷ [])) }
    ensures err { MatchOption found (result ≡ Err (Refusal.BadCommand number)) (λ entry. IsOkUnless result Refusal.Memory) }
{
    match found {
        None => Err(Refusal::BadCommand(number)),
        Some(entry) => enter(policy, entry),
    }
}

/// The entries of a script, each judged as it is read, or `BadCommand` with its first bad line.
#[tactic(auto, using(cpg_text::proofs::Lengths::lines_few, cpg_text::proofs::Reading::items_with_none))]
pub fn judge_lines(alloc: Global, script: &[u8]) -> Result<Policy, Refusal>
    requires { length script.now ≤ MOST_BYTES }
    ensures ok { IfOk result (λ policy. entries_of_script script.now ≡ Ok policy) }
    ensures err { IfErr result (λ refusal. FailsAs (entries_of_script script.now) refusal) }
{
    let mut policy = Policy::new(alloc);
    let mut number = 0u32;
    for line in Lines::of(script) {
        number += 1;
        judge_line(alloc, &mut policy, number, line)?;
    }
    Ok(policy)
}
