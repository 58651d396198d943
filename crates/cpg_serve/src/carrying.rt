//! What the next ring takes over of a node's records: who is a member of which group, and which groups have a table.

ghost use Rattle.std.specs.Prelude.{◌≡◌, ◌&&◌, ◌∷◌, ◌++◌, [], List, IfOk, OnOk, IsOkUnless};
ghost use Rattle.cpg_record.specs.declared.records.Record.{Record as RecordValue};
ghost use Rattle.cpg_record.specs.Membership.{is_allowed, is_end, memberships};
ghost use Rattle.cpg_serve.specs.Carrying.{joined_by, lasting, tabled, with_names, tables_in, AreEnded};

use cpg_cred::Refusal;
use cpg_entry::{Call, Entry, Name, Op};
use cpg_record::{ConnId, Member, Record};
use indexmap::IndexSet;
use std::alloc::Global;
use std::marker::Model;

/// A member with its group.
#[derive(Drop)]
pub(crate) struct Membership {
    pub(crate) group: Name,
    pub(crate) member: Member,
}

impl Model for Membership {
    ghost use Rattle.cpg_record.specs.Membership.{Membership};

    ghost Value = { Membership };

    ghost view = { λ all. record { group = all.group; member = all.member } };
}

/// Whether the record takes its connection out of its group.
fn ends_one(past: &Record) -> bool
    ensures { result ≡ (is_allowed past.now.verdict && is_end past.now.entry.op) }
{
    past.verdict.is_allowed()
        && match &past.entry.op {
            Op::Act(Call::Leave) | Op::Gone => true,
            _ => false,
        }
}

/// A join's membership goes last, where its connection is not among those that later records end.
fn put_join(
    alloc: Global,
    all: &mut Vec<Membership>,
    ended: &IndexSet<ConnId>,
    group: &Name,
    entry: &Entry,
) -> Result<(), Refusal>
    ensures ok { OnOk result ((later : List RecordValue) → AreEnded ended.now.keys later → all.new.items ≡ all.old.items ++ joined_by group.now entry.now later) }
    ensures memory { IsOkUnless result Refusal.Memory }
{
    if !ended.contains(&ConnId::of(entry)) {
        let group = group.copy(alloc)?;
        all.push(Membership {
            group,
            member: Member::of(entry),
        })?;
    }
    Ok(())
}

/// The membership that a record takes goes last, where no later record ends it.
fn put_taken(
    alloc: Global,
    all: &mut Vec<Membership>,
    ended: &IndexSet<ConnId>,
    past: &Record,
) -> Result<(), Refusal>
    ensures ok { OnOk result ((later : List RecordValue) → AreEnded ended.now.keys later → all.new.items ≡ all.old.items ++ lasting past.now later) }
    ensures memory { IsOkUnless result Refusal.Memory }
{
    if !past.verdict.is_allowed() {
        return Ok(());
    }
    match &past.entry.op {
        Op::Act(Call::Join(group)) => put_join(alloc, all, ended, group, &past.entry),
        _ => Ok(()),
    }
}

/// Puts the record's connection among those, where the record takes it out of its group.
fn put_ended(ended: &mut IndexSet<ConnId>, past: &Record) -> Result<(), Refusal>
    ensures ok { OnOk result ((later : List RecordValue) → AreEnded ended.old.keys later → AreEnded ended.new.keys (past.now ∷ later)) }
    ensures memory { IsOkUnless result Refusal.Memory }
{
    if ends_one(past) {
        ended.insert(ConnId::of(&past.entry))?;
    }
    Ok(())
}

/// The memberships that records leave, in the order of the joins. It goes over the records once, from the last.
pub(crate) fn gather(alloc: Global, records: &[Record]) -> Result<Vec<Membership>, Refusal>
    ensures ok { IfOk result (λ all. all.items ≡ memberships records.now) }
    ensures memory { IsOkUnless result Refusal.Memory }
{
    let mut all = Vec::new(alloc);
    let mut ended = IndexSet::new(alloc);
    for index in (0..records.len()).rev() {
        let past = &records[index];
        put_taken(alloc, &mut all, &ended, past)?;
        put_ended(&mut ended, past)?;
    }
    all.reverse();
    Ok(all)
}

/// Puts the group last, unless it is among those.
fn put_name(alloc: Global, names: &mut IndexSet<Name>, group: &Name) -> Result<(), Refusal>
    ensures ok { OnOk result (names.new.keys ≡ with_names names.old.keys (group.now ∷ [])) }
    ensures memory { IsOkUnless result Refusal.Memory }
{
    let group = group.copy(alloc)?;
    names.insert(group)?;
    Ok(())
}

/// Notes to whose table a record adds.
fn note_table(alloc: Global, names: &mut IndexSet<Name>, past: &Record) -> Result<(), Refusal>
    ensures ok { OnOk result (names.new.keys ≡ with_names names.old.keys (tabled past.now)) }
    ensures memory { IsOkUnless result Refusal.Memory }
{
    if !past.verdict.is_allowed() {
        return Ok(());
    }
    match &past.entry.op {
        Op::Act(Call::Insert(group, _, _)) => put_name(alloc, names, group),
        _ => Ok(()),
    }
}

/// The groups to whose tables records add, each once.
pub(crate) fn gather_tables(alloc: Global, records: &[Record]) -> Result<IndexSet<Name>, Refusal>
    ensures ok { IfOk result (λ names. names.keys ≡ tables_in records.now) }
    ensures memory { IsOkUnless result Refusal.Memory }
{
    let mut names = IndexSet::new(alloc);
    for past in records {
        note_table(alloc, &mut names, past)?;
    }
    Ok(names)
}
