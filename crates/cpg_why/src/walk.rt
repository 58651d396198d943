//! The entries of a script are judged one after the other, and what decided their answers is found on the way.

ghost use Rattle.std.specs.Prelude.{◌≡◌, ◌<◌, ◌≤◌, ◌+◌, ◌++◌, ◌∷◌, [], Some, length, take, OnOk, IfOk, IsOkUnless};
ghost use Rattle.cpg_record.specs.Judging.{judged, most_places, record_of};
ghost use Rattle.cpg_why.specs.Findings.{denial_by, denials, why_at, why_by};
ghost use Rattle.cpg_why.specs.Moves.{AreLastMoves};

use crate::deciding::{explain, find_subject};
use crate::findings::{Finding, Findings};
use crate::moves::Moves;
use cpg_cred::Refusal;
use cpg_entry::Entry;
use cpg_group::Policy;
use cpg_record::Record;
use std::alloc::Global;

/// The entries judged so far, and at which place each connection last moved.
#[derive(Drop)]
pub(crate) struct Walk {
    pub(crate) policy: Policy,
    pub(crate) moves: Moves,
}

impl Walk {
    /// Nothing is judged.
    fn new(alloc: Global) -> Walk
        ensures policy { result.policy ≡ [] }
        ensures moves { AreLastMoves result.moves.kept.entries [] }
    {
        Walk {
            policy: Policy::new(alloc),
            moves: Moves::new(alloc),
        }
    }

    /// What was found over the records of the judged entries.
    pub(crate) fn found(self, list: Vec<Finding>) -> Findings
        ensures records { result.records.items ≡ judged self.policy }
        ensures list { result.list ≡ list }
    {
        let Walk { policy, .. } = self;
        Findings {
            records: policy.into_records(),
            list,
        }
    }
}

/// Takes in the record of the next entry.
fn take_in(walk: &mut Walk, next: Record) -> Result<(), Refusal>
    requires room { length walk.old.policy < most_places }
    requires judged { next ≡ record_of (judged walk.old.policy) next.entry }
    requires moves { AreLastMoves walk.old.moves.kept.entries (judged walk.old.policy) }
    ensures ok { OnOk result (walk.new.policy ≡ walk.old.policy ++ next.entry ∷ []) }
    ensures moves { OnOk result (AreLastMoves walk.new.moves.kept.entries (judged walk.new.policy)) }
    ensures memory { IsOkUnless result Refusal.Memory }
{
    let place = walk.policy.len() as u32 + 1;
    walk.moves.take_in(place, &next)?;
    match walk.policy.apply(next) {
        Ok(()) => Ok(()),
        Err(refused) => Err(refused.refusal),
    }
}

/// Judges one entry more.
fn pass(walk: &mut Walk, entry: &Entry) -> Result<(), Refusal>
    requires room { length walk.old.policy < most_places }
    requires moves { AreLastMoves walk.old.moves.kept.entries (judged walk.old.policy) }
    ensures ok { OnOk result (walk.new.policy ≡ walk.old.policy ++ entry.now ∷ []) }
    ensures moves { OnOk result (AreLastMoves walk.new.moves.kept.entries (judged walk.new.policy)) }
    ensures memory { IsOkUnless result Refusal.Memory }
{
    let next = walk.policy.judge(entry)?;
    take_in(walk, next)
}

/// Judges the entries of a list.
pub(crate) fn pass_all(alloc: Global, entries: &[Entry]) -> Result<Walk, Refusal>
    requires { length entries.now ≤ most_places }
    ensures ok { IfOk result (λ walk. walk.policy ≡ entries.now) }
    ensures moves { IfOk result (λ walk. AreLastMoves walk.moves.kept.entries (judged entries.now)) }
    ensures memory { IsOkUnless result Refusal.Memory }
{
    let mut walk = Walk::new(alloc);
    for entry in entries {
        pass(&mut walk, entry)?;
    }
    Ok(walk)
}

/// Puts why the entry of a record, which is the next one, is answered as it is.
fn find_next(list: &mut Vec<Finding>, walk: &Walk, next: &Record) -> Result<(), Refusal>
    requires room { length walk.now.policy < most_places }
    requires judged { next.now ≡ record_of (judged walk.now.policy) next.now.entry }
    requires moves { AreLastMoves walk.now.moves.kept.entries (judged walk.now.policy) }
    ensures ok { OnOk result (list.new.items ≡ list.old.items ++ why_by (judged walk.now.policy) (length walk.now.policy + 1) (Some next.now)) }
    ensures memory { IsOkUnless result Refusal.Memory }
{
    let place = walk.policy.len() as u32 + 1;
    let last = walk.moves.last(&find_subject(next));
    let decided = explain(*list.allocator(), &walk.policy, next, last)?;
    list.push(Finding::Why { place, decided })?;
    Ok(())
}

/// Judges one entry more, and gives why it is answered as it is.
fn pass_explained(alloc: Global, walk: &mut Walk, entry: &Entry) -> Result<Vec<Finding>, Refusal>
    requires room { length walk.old.policy < most_places }
    requires moves { AreLastMoves walk.old.moves.kept.entries (judged walk.old.policy) }
    ensures ok { OnOk result (walk.new.policy ≡ walk.old.policy ++ entry.now ∷ []) }
    ensures list { IfOk result (λ list. list.items ≡ why_by (judged walk.old.policy) (length walk.old.policy + 1) (Some (record_of (judged walk.old.policy) entry.now))) }
    ensures memory { IsOkUnless result Refusal.Memory }
{
    let next = walk.policy.judge(entry)?;
    let mut list = Vec::new(alloc);
    find_next(&mut list, walk, &next)?;
    take_in(walk, next)?;
    Ok(list)
}

/// Judges the entry of that index, where those before it are judged, and gives why it is answered as it is.
fn pass_at(
    alloc: Global,
    walk: &mut Walk,
    entries: &[Entry],
    index: usize,
) -> Result<Vec<Finding>, Refusal>
    requires few { length entries.now ≤ most_places }
    requires within { index < length entries.now }
    requires passed { walk.old.policy ≡ take index entries.now }
    requires moves { AreLastMoves walk.old.moves.kept.entries (judged walk.old.policy) }
    ensures ok { OnOk result (walk.new.policy ≡ take (index + 1) entries.now) }
    ensures list { IfOk result (λ list. list.items ≡ why_at (judged entries.now) (index + 1)) }
    ensures memory { IsOkUnless result Refusal.Memory }
{
    pass_explained(alloc, walk, &entries[index])
}

/// Why the entry of that index was answered as it was, over the records up to it.
pub(crate) fn find_why(alloc: Global, entries: &[Entry], index: usize) -> Result<Findings, Refusal>
    requires few { length entries.now ≤ most_places }
    requires within { index < length entries.now }
    ensures records { IfOk result (λ found. found.records.items ≡ judged (take (index + 1) entries.now)) }
    ensures list { IfOk result (λ found. found.list.items ≡ why_at (judged entries.now) (index + 1)) }
    ensures memory { IsOkUnless result Refusal.Memory }
{
    let mut walk = pass_all(alloc, &entries[..index])?;
    let list = pass_at(alloc, &mut walk, entries, index)?;
    Ok(walk.found(list))
}

/// Judges one entry more, and puts why it is denied, where it is.
fn pass_denied(list: &mut Vec<Finding>, walk: &mut Walk, entry: &Entry) -> Result<(), Refusal>
    requires room { length walk.old.policy < most_places }
    requires moves { AreLastMoves walk.old.moves.kept.entries (judged walk.old.policy) }
    ensures ok { OnOk result (walk.new.policy ≡ walk.old.policy ++ entry.now ∷ []) }
    ensures moves { OnOk result (AreLastMoves walk.new.moves.kept.entries (judged walk.new.policy)) }
    ensures list { OnOk result (list.new.items ≡ list.old.items ++ denial_by (judged walk.old.policy) (length walk.old.policy + 1) (record_of (judged walk.old.policy) entry.now)) }
    ensures memory { IsOkUnless result Refusal.Memory }
{
    let next = walk.policy.judge(entry)?;
    find_denied(list, walk, &next)?;
    take_in(walk, next)
}

/// Puts why the entry of a record, which is the next one, is denied, where it is.
fn find_denied(list: &mut Vec<Finding>, walk: &Walk, next: &Record) -> Result<(), Refusal>
    requires room { length walk.now.policy < most_places }
    requires judged { next.now ≡ record_of (judged walk.now.policy) next.now.entry }
    requires moves { AreLastMoves walk.now.moves.kept.entries (judged walk.now.policy) }
    ensures ok { OnOk result (list.new.items ≡ list.old.items ++ denial_by (judged walk.now.policy) (length walk.now.policy + 1) next.now) }
    ensures memory { IsOkUnless result Refusal.Memory }
{
    if next.verdict.is_allowed() {
        return Ok(());
    }
    find_next(list, walk, next)
}

/// Why each denied entry was denied.
pub(crate) fn find_denials(alloc: Global, entries: &[Entry]) -> Result<Findings, Refusal>
    requires { length entries.now ≤ most_places }
    ensures records { IfOk result (λ found. found.records.items ≡ judged entries.now) }
    ensures list { IfOk result (λ found. found.list.items ≡ denials (judged entries.now)) }
    ensures memory { IsOkUnless result Refusal.Memory }
{
    let mut walk = Walk::new(alloc);
    let mut list = Vec::new(alloc);
    for entry in entries {
        pass_denied(&mut list, &mut walk, entry)?;
    }
    Ok(walk.found(list))
}
