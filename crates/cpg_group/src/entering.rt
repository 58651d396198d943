//! An entry judged and put among the records in one go: the log of its connection and its group are each
//! looked up once, where they are kept, and first where those of the entry before are.

ghost use Rattle.std.specs.Prelude.{◌≡◌, ◌+◌, ◌++◌, ◌∷◌, [], ℕ, List, length, true, None, if◌then◌else◌, IfSome, OnOk, OnErr, IsOkUnless};
ghost use Rattle.std.specs.Map.{lookup};
ghost use Rattle.std.specs.Option.{option_copied};
ghost use Rattle.cpg_record.specs.Connections.{conn_of, is_conn};
ghost use Rattle.cpg_record.specs.Judging.{entry_group, record_of};
ghost use Rattle.cpg_record.specs.Membership.{group_of, is_allowed};
ghost use Rattle.cpg_record.specs.Verdicts.{verdict};
ghost use Rattle.cpg_group.specs.Entering.{CanEnter};
ghost use Rattle.cpg_group.specs.Standing.{changed, group_past, kept_group, standing_for, CanChange};
ghost use Rattle.cpg_group.specs.ConnectionLogs.{AreConnectionLogs, IsConnectionLog};

use crate::judging;
use crate::logs::{ConnectionLogs, Stop, Stops, group_now, make_room, stop_of};
use crate::places::find_record;
use crate::standing::{Group, Groups};
use cpg_cred::Refusal;
use cpg_entry::{Call, Entry, Name, Op};
use cpg_record::{ConnId, Record};
use std::alloc::Global;

/// The name of the group of the record at the latest of the places.
fn latest_name<'a>(records: &'a [Record], places: &[u32]) -> Option<&'a Name> {
    let past = find_record(records, *places.last()?)?;
    past.group.as_ref()
}

/// The name as the latest record of the group has it, so that the name of a group with many joins is kept once.
#[inline(never)]
fn kept_name(alloc: Global, records: &[Record], places: &[u32], name: &Name) -> Option<Name>
    ensures { IfSome result (λ kept. kept ≡ name.now) }
{
    let kept = latest_name(records, places)?;
    if kept.equals(name) {
        kept.copy(alloc).ok()
    } else {
        None
    }
}

/// A join has its name in common with the latest record of the group from then on, where that has one.
#[inline(always)]
fn share_joined(alloc: Global, records: &[Record], places: &[u32], entry: &mut Entry)
    ensures { entry.new ≡ entry.old }
{
    let Op::Act(Call::Join(name)) = &entry.op else {
        return;
    };
    if let Some(kept) = kept_name(alloc, records, places, name) {
        entry.op = Op::Act(Call::Join(kept));
    }
}

/// Judges the entry of a draft in place, as one of that group, and brings the group past it. A refusal changes
/// no group and no entry.
#[inline(always)]
fn enter_group(
    alloc: Global,
    group: &mut Group,
    records: &[Record],
    joined: Option<&Name>,
    place: u32,
    next: &mut Record,
) -> Result<(), Refusal>
    requires draft { next.old.members ≡ [] }
    requires can { is_allowed (verdict records.now next.old.entry) ≡ true → CanChange group.old place (record_of records.now next.old.entry) }
    requires group { group.old ≡ standing_for records.now (entry_group records.now next.old.entry next.old.entry.op) }
    requires joined { option_copied joined ≡ group_of records.now (conn_of next.old.entry) }
    ensures ok { OnOk result (next.new ≡ record_of records.now next.old.entry) }
    ensures past { OnOk result (group.new ≡ (if is_allowed (verdict records.now next.old.entry) then changed place (record_of records.now next.old.entry) group.old else group.old)) }
    ensures same { OnErr result (group.new ≡ group.old) }
    ensures err { OnErr result (next.new.entry ≡ next.old.entry) }
    ensures memory { IsOkUnless result Refusal.Memory }
{
    share_joined(alloc, records, group.places(), &mut next.entry);
    judging::judge_draft_in(alloc, records, group, joined, next)?;
    if !next.verdict.is_allowed() {
        return Ok(());
    }
    group.take_in(place, next)
}

/// Judges the entry of a draft in place, and brings the groups past it by look-ups of their own, as where its
/// group is not kept yet. A refusal changes no group and no entry.
fn enter_apart(
    alloc: Global,
    groups: &mut Groups,
    records: &[Record],
    log: &[Stop],
    place: u32,
    next: &mut Record,
) -> Result<(), Refusal>
    requires entry { CanEnter groups.old records.now place next.old }
    requires log { IsConnectionLog records.now (conn_of next.old.entry) log.now }
    ensures ok { OnOk result (next.new ≡ record_of records.now next.old.entry) }
    ensures past { OnOk result ((g : List ℕ) → kept_group groups.new g ≡ group_past g (kept_group groups.old g) (place, record_of records.now next.old.entry)) }
    ensures same { OnErr result ((g : List ℕ) → kept_group groups.new g ≡ kept_group groups.old g) }
    ensures err { OnErr result (next.new.entry ≡ next.old.entry) }
    ensures memory { IsOkUnless result Refusal.Memory }
{
    judging::judge_draft(alloc, records, groups, log, next)?;
    groups.take_in(place, next)
}

/// Judges the entry of a draft in place, and brings the groups past it. A refusal changes no group and no
/// entry.
#[inline(always)]
fn enter_groups(
    alloc: Global,
    groups: &mut Groups,
    records: &[Record],
    log: &[Stop],
    place: u32,
    next: &mut Record,
) -> Result<(), Refusal>
    requires entry { CanEnter groups.old records.now place next.old }
    requires log { IsConnectionLog records.now (conn_of next.old.entry) log.now }
    ensures ok { OnOk result (next.new ≡ record_of records.now next.old.entry) }
    ensures past { OnOk result ((g : List ℕ) → kept_group groups.new g ≡ group_past g (kept_group groups.old g) (place, record_of records.now next.old.entry)) }
    ensures same { OnErr result ((g : List ℕ) → kept_group groups.new g ≡ kept_group groups.old g) }
    ensures err { OnErr result (next.new.entry ≡ next.old.entry) }
    ensures memory { IsOkUnless result Refusal.Memory }
{
    let joined = group_now(records, log);
    match judging::find_entry_group(records, joined, &next.entry) {
        None => judging::judge_draft_in(alloc, records, &groups.none, joined, next),
        Some(name) => match groups.index_of(name.as_slice()) {
            Some(index) => {
                groups.last = index;
                let (_, group) = groups.kept.pair_mut(index);
                enter_group(alloc, group, records, joined, place, next)
            }
            None => enter_apart(alloc, groups, records, log, place, next),
        },
    }
}

/// Judges the entry of a draft in place, puts its stop at the end of its connection's log, and brings the
/// groups past it. The log grows first, and then the groups, so that a refusal changes neither.
#[inline(always)]
fn enter_log(
    log: &mut Stops,
    groups: &mut Groups,
    records: &[Record],
    place: u32,
    next: &mut Record,
) -> Result<(), Refusal>
    requires entry { CanEnter groups.old records.now place next.old }
    requires place { place ≡ length records.now + 1 }
    requires log { IsConnectionLog records.now (conn_of next.old.entry) log.old.items }
    ensures ok { OnOk result (next.new ≡ record_of records.now next.old.entry) }
    ensures past { OnOk result ((g : List ℕ) → kept_group groups.new g ≡ group_past g (kept_group groups.old g) (place, record_of records.now next.old.entry)) }
    ensures same { OnErr result ((g : List ℕ) → kept_group groups.new g ≡ kept_group groups.old g) }
    ensures longer { OnOk result (IsConnectionLog (records.now ++ record_of records.now next.old.entry ∷ []) (conn_of next.old.entry) log.new.items) }
    ensures kept { OnErr result (log.new.items ≡ log.old.items) }
    ensures err { OnErr result (next.new.entry ≡ next.old.entry) }
    ensures memory { IsOkUnless result Refusal.Memory }
{
    make_room(log)?;
    let alloc = *log.allocator();
    let stops = log.as_slice();
    enter_groups(alloc, groups, records, stops, place, next)?;
    let stop = stop_of(records, stops, place, next);
    log.push_reserved(stop);
    Ok(())
}

/// Judges the first entry of its connection in place, keeps a log of it, and brings the groups past it. The
/// map of logs makes room first, so that a refusal changes no log, no group and no entry. It stands apart,
/// so that what the entries after it cost stays small.
#[inline(never)]
fn enter_first(
    logs: &mut ConnectionLogs,
    groups: &mut Groups,
    records: &[Record],
    place: u32,
    next: &mut Record,
) -> Result<(), Refusal>
    requires absent { lookup (is_conn (conn_of next.old.entry)) logs.old.kept.entries ≡ None }
    requires entry { CanEnter groups.old records.now place next.old }
    requires place { place ≡ length records.now + 1 }
    requires logs { AreConnectionLogs logs.old.kept.entries records.now }
    ensures ok { OnOk result (next.new ≡ record_of records.now next.old.entry) }
    ensures past { OnOk result ((g : List ℕ) → kept_group groups.new g ≡ group_past g (kept_group groups.old g) (place, record_of records.now next.old.entry)) }
    ensures same { OnErr result ((g : List ℕ) → kept_group groups.new g ≡ kept_group groups.old g) }
    ensures longer { OnOk result (AreConnectionLogs logs.new.kept.entries (records.now ++ record_of records.now next.old.entry ∷ [])) }
    ensures kept { OnErr result (AreConnectionLogs logs.new.kept.entries records.now) }
    ensures err { OnErr result (next.new.entry ≡ next.old.entry) }
    ensures memory { IsOkUnless result Refusal.Memory }
{
    logs.kept.reserve(1)?;
    let mut log = Stops::new(*logs.kept.allocator());
    enter_log(&mut log, groups, records, place, next)?;
    logs.last = logs.kept.len();
    logs.kept.insert(ConnId::of(&next.entry), log)?;
    Ok(())
}

/// Judges the entry of a draft in place, as the one at the next place, and brings its log and the groups
/// past it. A refusal changes no log, no group and no entry.
#[inline(always)]
pub(crate) fn enter(
    logs: &mut ConnectionLogs,
    groups: &mut Groups,
    records: &[Record],
    place: u32,
    next: &mut Record,
) -> Result<(), Refusal>
    requires entry { CanEnter groups.old records.now place next.old }
    requires place { place ≡ length records.now + 1 }
    requires logs { AreConnectionLogs logs.old.kept.entries records.now }
    ensures ok { OnOk result (next.new ≡ record_of records.now next.old.entry) }
    ensures past { OnOk result ((g : List ℕ) → kept_group groups.new g ≡ group_past g (kept_group groups.old g) (place, record_of records.now next.old.entry)) }
    ensures same { OnErr result ((g : List ℕ) → kept_group groups.new g ≡ kept_group groups.old g) }
    ensures longer { OnOk result (AreConnectionLogs logs.new.kept.entries (records.now ++ record_of records.now next.old.entry ∷ [])) }
    ensures kept { OnErr result (AreConnectionLogs logs.new.kept.entries records.now) }
    ensures err { OnErr result (next.new.entry ≡ next.old.entry) }
    ensures memory { IsOkUnless result Refusal.Memory }
{
    match logs.index_of(&ConnId::of(&next.entry)) {
        Some(index) => {
            logs.last = index;
            let (_, log) = logs.kept.pair_mut(index);
            enter_log(log, groups, records, place, next)
        }
        None => enter_first(logs, groups, records, place, next),
    }
}
