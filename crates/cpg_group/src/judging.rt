//! The judgement of one entry over the records before it, by the groups and the log that they come to.

ghost use Rattle.std.specs.Prelude.{◌≡◌, ◌≢◌, ◌++◌, ◌∷◌, [], None, OnOk, OnErr, IfOk, IsOkUnless};
ghost use Rattle.std.specs.Option.{option_copied};
ghost use Rattle.cpg_entry.specs.declared.calls.Op.TheVariants.{Gone};
ghost use Rattle.cpg_record.specs.Connections.{conn_of};
ghost use Rattle.cpg_record.specs.Judging.{entry_group, record_of};
ghost use Rattle.cpg_record.specs.Membership.{group_of, members_in};
ghost use Rattle.cpg_record.specs.Verdicts.{edit_decision, join_verdict, leave_verdict, send_verdict, insert_verdict, remove_verdict, verdict};
ghost use Rattle.cpg_group.specs.Standing.{standing, standing_for, AreStanding};
ghost use Rattle.cpg_group.specs.ConnectionLogs.{IsConnectionLog};

use crate::logs::{Stop, group_now};
use crate::standing::{Group, Groups};
use cpg_cred::{By, Refusal};
use cpg_entry::{Call, Entry, Name, Op};
use cpg_record::{MOST_MEMBERS, Members, Reason, Record, Verdict};
use cpg_rules::{Decision, MOST_RULES, Right, Table};
use std::alloc::Global;

/// A join: the right, then Joined, Twice and Full.
fn judge_join(
    records: &[Record],
    group: &Group,
    joined: Option<&Name>,
    entry: &Entry,
    name: &[u8],
) -> Verdict
    requires group { group.now ≡ standing records.now name.now }
    requires joined { option_copied joined ≡ group_of records.now (conn_of entry.now) }
    ensures { result ≡ join_verdict records.now entry.now name.now }
{
    match group.table().decide(Right::Join, entry.asker()) {
        Decision::Denied(by) => Verdict::Denied(Reason::of(by)),
        Decision::Allowed(by) => {
            if joined.is_some() {
                Verdict::Denied(Reason::Joined)
            } else if group.has_process(entry) {
                Verdict::Denied(Reason::Twice)
            } else if group.members().len() >= MOST_MEMBERS {
                Verdict::Denied(Reason::Full)
            } else {
                Verdict::Allowed(by)
            }
        }
    }
}

/// A leave: Closed where the connection is in no group.
fn judge_leave(group: Option<&Name>) -> Verdict
    ensures { result ≡ leave_verdict (option_copied group.entry) }
{
    match group {
        None => Verdict::Denied(Reason::Closed),
        Some(_) => Verdict::Allowed(By::Free),
    }
}

/// A send: Closed where the connection is in no group, then the right in its group.
fn judge_send(records: &[Record], group: &Group, joined: Option<&Name>, entry: &Entry) -> Verdict
    requires { group.now ≡ standing_for records.now (option_copied joined) }
    ensures { result ≡ send_verdict records.now entry.now (option_copied joined.entry) }
{
    if joined.is_none() {
        return Verdict::Denied(Reason::Closed);
    }
    match group.table().decide(Right::Send, entry.asker()) {
        Decision::Denied(by) => Verdict::Denied(Reason::of(by)),
        Decision::Allowed(by) => Verdict::Allowed(by),
    }
}

/// Whether the entry may edit the table: user 0 may, the others by the right.
fn decide_edit(rules: &Table, entry: &Entry) -> Decision
    ensures { result ≡ edit_decision rules.now entry.now }
{
    if entry.cred.uid == 0 {
        Decision::Allowed(By::Root)
    } else {
        rules.decide(Right::Edit, entry.asker())
    }
}

/// An insert: the right, then Position and TableFull.
fn judge_insert(rules: &Table, entry: &Entry, index: u8) -> Verdict
    ensures { result ≡ insert_verdict rules.now entry.now index }
{
    match decide_edit(rules, entry) {
        Decision::Denied(by) => Verdict::Denied(Reason::of(by)),
        Decision::Allowed(by) => {
            if rules.len() < usize::from(index) {
                Verdict::Denied(Reason::Position)
            } else if rules.len() >= MOST_RULES {
                Verdict::Denied(Reason::TableFull)
            } else {
                Verdict::Allowed(by)
            }
        }
    }
}

/// A remove: the right, then Absent.
fn judge_remove(rules: &Table, entry: &Entry, id: u32) -> Verdict
    ensures { result ≡ remove_verdict rules.now entry.now id }
{
    match decide_edit(rules, entry) {
        Decision::Denied(by) => Verdict::Denied(Reason::of(by)),
        Decision::Allowed(by) => {
            if rules.has(id) {
                Verdict::Allowed(by)
            } else {
                Verdict::Denied(Reason::Absent)
            }
        }
    }
}

/// The verdict on an entry of that group whose connection is in the group `joined`.
#[inline(always)]
fn judge_entry(records: &[Record], group: &Group, joined: Option<&Name>, entry: &Entry) -> Verdict
    requires group { group.now ≡ standing_for records.now (entry_group records.now entry.now entry.now.op) }
    requires joined { option_copied joined ≡ group_of records.now (conn_of entry.now) }
    ensures { result ≡ verdict records.now entry.now }
{
    match &entry.op {
        Op::Act(Call::Join(name)) => judge_join(records, group, joined, entry, name.as_slice()),
        Op::Act(Call::Leave) => judge_leave(joined),
        Op::Act(Call::Send(_)) => judge_send(records, group, joined, entry),
        Op::Act(Call::Insert(_, index, _)) => judge_insert(group.table(), entry, *index),
        Op::Act(Call::Remove(_, id)) => judge_remove(group.table(), entry, *id),
        Op::Gone => Verdict::Allowed(By::Free),
    }
}

/// The group that the entry names, else the one that its connection is in.
pub(crate) fn find_entry_group<'a>(
    records: &[Record],
    joined: Option<&'a Name>,
    entry: &'a Entry,
) -> Option<&'a Name>
    requires { option_copied joined ≡ group_of records.now (conn_of entry.now) }
    ensures { option_copied result ≡ entry_group records.now entry.now entry.now.op }
{
    match &entry.op {
        Op::Act(Call::Join(group)) => Some(group),
        Op::Act(Call::Insert(group, _, _)) => Some(group),
        Op::Act(Call::Remove(group, _)) => Some(group),
        _ => joined,
    }
}

/// The members of the record's group with that record, from the group as it stood.
#[inline(always)]
#[tactic(auto, using(crate::proofs::Passed::members_push))]
fn collect_members_with(
    alloc: Global,
    records: &[Record],
    group: &Group,
    next: &Record,
) -> Result<Members, Refusal>
    requires { group.now ≡ standing_for records.now next.now.group }
    ensures ok { IfOk result (λ list. list ≡ members_in (records.now ++ next.now ∷ []) next.now.group) }
    ensures memory { IsOkUnless result Refusal.Memory }
    ensures some { OnErr result (next.now.group ≢ None) }
{
    match &next.group {
        None => Ok(Members::new(alloc)),
        Some(name) => {
            let mut list = group.members().copy(alloc)?;
            list.take_in(next, name.as_slice())?;
            Ok(list)
        }
    }
}

/// The same group's name, if there is a group.
fn copy_name(alloc: Global, group: Option<&Name>) -> Result<Option<Name>, Refusal>
    ensures ok { IfOk result (λ copy. copy ≡ option_copied group.entry) }
    ensures memory { IsOkUnless result Refusal.Memory }
    ensures some { OnErr result (option_copied group.entry ≢ None) }
{
    match group {
        None => Ok(None),
        Some(group) => Ok(Some(group.copy(alloc)?)),
    }
}

/// A record of the entry that is not judged yet.
pub(crate) fn draft_of(alloc: Global, entry: Entry) -> Record
    ensures entry { result.entry ≡ entry }
    ensures members { result.members ≡ [] }
{
    Record {
        entry,
        group: None,
        verdict: Verdict::Denied(Reason::Closed),
        members: Members::new(alloc),
    }
}

/// Judges the entry of a draft in place, as one of that group, whose connection is in the group `joined`.
#[inline(always)]
pub(crate) fn judge_draft_in(
    alloc: Global,
    records: &[Record],
    standing: &Group,
    joined: Option<&Name>,
    next: &mut Record,
) -> Result<(), Refusal>
    requires draft { next.old.members ≡ [] }
    requires group { standing.now ≡ standing_for records.now (entry_group records.now next.old.entry next.old.entry.op) }
    requires joined { option_copied joined ≡ group_of records.now (conn_of next.old.entry) }
    ensures ok { OnOk result (next.new ≡ record_of records.now next.old.entry) }
    ensures err { OnErr result (next.new.entry ≡ next.old.entry) }
    ensures memory { IsOkUnless result Refusal.Memory }
    ensures some { OnErr result (entry_group records.now next.old.entry next.old.entry.op ≢ None) }
{
    next.verdict = judge_entry(records, standing, joined, &next.entry);
    let group = copy_name(alloc, find_entry_group(records, joined, &next.entry))?;
    next.group = group;
    let members = collect_members_with(alloc, records, standing, next)?;
    next.members = members;
    Ok(())
}

/// Judges the entry of a draft in place, over the records before it.
pub(crate) fn judge_draft(
    alloc: Global,
    records: &[Record],
    groups: &Groups,
    log: &[Stop],
    next: &mut Record,
) -> Result<(), Refusal>
    requires draft { next.old.members ≡ [] }
    requires groups { AreStanding groups.now records.now }
    requires log { IsConnectionLog records.now (conn_of next.old.entry) log.now }
    ensures ok { OnOk result (next.new ≡ record_of records.now next.old.entry) }
    ensures err { OnErr result (next.new.entry ≡ next.old.entry) }
    ensures memory { IsOkUnless result Refusal.Memory }
    ensures some { OnErr result (entry_group records.now next.old.entry next.old.entry.op ≢ None) }
{
    let joined = group_now(records, log);
    let standing = groups.of_name(find_entry_group(records, joined, &next.entry));
    judge_draft_in(alloc, records, standing, joined, next)
}

/// The record of a copy of the entry over the records before it.
pub(crate) fn judge(
    alloc: Global,
    records: &[Record],
    groups: &Groups,
    log: &[Stop],
    entry: &Entry,
) -> Result<Record, Refusal>
    requires groups { AreStanding groups.now records.now }
    requires log { IsConnectionLog records.now (conn_of entry.now) log.now }
    ensures ok { IfOk result (λ next. next ≡ record_of records.now entry.now) }
    ensures memory { IsOkUnless result Refusal.Memory }
    ensures gone { OnErr result (entry.now.op ≡ Gone → group_of records.now (conn_of entry.now) ≢ None) }
{
    let mut next = draft_of(alloc, entry.copy(alloc)?);
    judge_draft(alloc, records, groups, log, &mut next)?;
    Ok(next)
}
