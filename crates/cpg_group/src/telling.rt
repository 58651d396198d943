//! What places tell connections.

ghost use Rattle.std.specs.Prelude.{◌≡◌, ◌≢◌, ◌≤◌, [], None, is_some, length, IfOk, OnErr, IsOkUnless};
ghost use Rattle.std.specs.Option.{option_copied};
ghost use Rattle.cpg_record.specs.Connections.{conn_of};
ghost use Rattle.cpg_record.specs.Events.{events, hears_change, moves_of, news};
ghost use Rattle.cpg_record.specs.Judging.{AreJudged};
ghost use Rattle.cpg_record.specs.Membership.{group_of, is_named, members};
ghost use Rattle.cpg_record.specs.Places.{records_before};
ghost use Rattle.cpg_record.specs.Steps.{group_after};
ghost use Rattle.cpg_group.specs.Standing.{AreStanding};
ghost use Rattle.cpg_group.specs.Telling.{hears};
ghost use Rattle.cpg_group.specs.ConnectionLogs.{IsConnectionLog};

use crate::logs::{Stop, find_group};
use crate::places::find_members;
use crate::standing::Groups;
use crate::told::event_of;
use cpg_cred::Refusal;
use cpg_entry::{Call, Name, Op};
use cpg_record::{Cause, ConnId, Event, Events, Moves, Record};
use std::alloc::Global;

/// Whether the group is there and has that name.
fn has_name(group: Option<&Name>, name: &[u8]) -> bool
    ensures { result ≡ is_named (option_copied group.entry) name.now }
{
    match group {
        None => false,
        Some(group) => group.is(name),
    }
}

/// The group of a connection after one record more.
fn pass_group<'a>(past: &'a Record, conn: &ConnId, before: Option<&'a Name>) -> Option<&'a Name>
    ensures { option_copied result ≡ group_after past.now conn.now (option_copied before.entry) }
{
    if !past.verdict.is_allowed() || !conn.is(&ConnId::of(&past.entry)) {
        return before;
    }
    match &past.entry.op {
        Op::Act(Call::Join(name)) => match before {
            Some(group) => Some(group),
            None => Some(name),
        },
        Op::Act(Call::Leave) | Op::Gone => None,
        _ => before,
    }
}

/// Whether a connection of the group `earlier` is in the group before the record or with it.
#[tactic(auto, using(crate::proofs::Passed::group_of_push))]
fn is_told_changes(
    records: &[Record],
    place: u32,
    past: &Record,
    conn: &ConnId,
    earlier: Option<&Name>,
    group: &[u8],
) -> bool
    requires { option_copied earlier ≡ group_of (records_before records.now place) conn.now }
    ensures { result ≡ hears_change (records_before records.now place) past.now conn.now group.now }
{
    has_name(earlier, group) || has_name(pass_group(past, conn, earlier), group)
}

/// Whether an allowed op of the group tells a connection of the group `earlier` anything.
fn is_told(
    records: &[Record],
    place: u32,
    past: &Record,
    conn: &ConnId,
    earlier: Option<&Name>,
    group: &[u8],
) -> bool
    requires { option_copied earlier ≡ group_of (records_before records.now place) conn.now }
    ensures { result ≡ hears (records_before records.now place) past.now conn.now group.now past.now.entry.op }
{
    match &past.entry.op {
        Op::Act(Call::Join(_)) | Op::Act(Call::Leave) | Op::Gone => {
            is_told_changes(records, place, past, conn, earlier, group)
        }
        Op::Act(Call::Send(_)) => has_name(earlier, group),
        Op::Act(Call::Insert(_, _, _)) | Op::Act(Call::Remove(_, _)) => has_name(earlier, group),
    }
}

/// Who left the group by an allowed end of a membership at the place: the member that its connection was.
pub(crate) fn collect_left(
    alloc: Global,
    records: &[Record],
    groups: &Groups,
    place: u32,
    past: &Record,
    group: &Name,
    cause: Cause,
) -> Result<Moves, Refusal>
    requires place { 1 ≤ place }
    requires judged { AreJudged records.now }
    requires groups { AreStanding groups.now records.now }
    ensures ok { IfOk result (λ left. left ≡ moves_of (conn_of past.now.entry) cause (members (records_before records.now place) group.now)) }
    ensures memory { IsOkUnless result Refusal.Memory }
{
    let name = group.as_slice();
    let places = groups.of(name).places();
    match find_members(records, places, name, place as usize - 1) {
        None => Ok(Moves::new(alloc)),
        Some(members) => Moves::of_conn(alloc, &ConnId::of(&past.entry), cause, members),
    }
}

/// Whether a record tells a connection of the group `earlier` anything beside the verdict.
#[tactic(auto, using(crate::proofs::Hearing::has_news))]
pub(crate) fn has_news(
    records: &[Record],
    place: u32,
    past: &Record,
    conn: &ConnId,
    earlier: Option<&Name>,
) -> bool
    requires { option_copied earlier ≡ group_of (records_before records.now place) conn.now }
    ensures { result ≡ is_some (news place (records_before records.now place) past.now conn.now past.now.group) }
{
    match &past.group {
        None => false,
        Some(group) => {
            past.verdict.is_allowed()
                && is_told(records, place, past, conn, earlier, group.as_slice())
        }
    }
}

/// What a record tells a connection beside the verdict, if it is told anything. Memory is asked for only where it is.
#[inline(always)]
#[tactic(auto, using(crate::proofs::Hearing::is_told_nothing, crate::proofs::Hearing::is_told_group))]
pub(crate) fn tell_news(
    alloc: Global,
    records: &[Record],
    groups: &Groups,
    place: u32,
    past: &Record,
    conn: &ConnId,
    told: bool,
) -> Result<Option<Event>, Refusal>
    requires place { 1 ≤ place }
    requires judged { AreJudged records.now }
    requires groups { AreStanding groups.now records.now }
    requires told { told ≡ is_some (news place (records_before records.now place) past.now conn.now past.now.group) }
    ensures ok { IfOk result (λ event. event ≡ news place (records_before records.now place) past.now conn.now past.now.group) }
    ensures memory { IsOkUnless result Refusal.Memory }
    ensures told { OnErr result (news place (records_before records.now place) past.now conn.now past.now.group ≢ None) }
{
    match &past.group {
        Some(group) if told => {
            let event = event_of(alloc, records, groups, place, past, group)?;
            Ok(Some(event))
        }
        _ => Ok(None),
    }
}

/// How many events the place has for the connection of the log.
#[tactic(auto, using(crate::proofs::Passed::record_at_index, crate::proofs::Hearing::events_counted))]
pub(crate) fn count_events(records: &[Record], log: &[Stop], place: u32, conn: &ConnId) -> usize
    requires place { (1 ≤ place) × (place ≤ length records.now) }
    requires log { IsConnectionLog records.now conn.now log.now }
    ensures { result ≡ length (events records.now place conn.now) }
{
    let index = place as usize - 1;
    let past = &records[index];
    let earlier = find_group(records, log, index);
    let own = conn.is(&ConnId::of(&past.entry));
    let told = has_news(records, place, past, conn, earlier);
    usize::from(own) + usize::from(told)
}

/// The events of a place for the connection of the log.
#[tactic(auto, using(crate::proofs::Passed::record_at_index, crate::proofs::Hearing::tells_answer, crate::proofs::Hearing::tells_news, crate::proofs::Hearing::is_news))]
pub(crate) fn collect_events(
    alloc: Global,
    records: &[Record],
    groups: &Groups,
    log: &[Stop],
    place: u32,
    conn: &ConnId,
) -> Result<Events, Refusal>
    requires place { (1 ≤ place) × (place ≤ length records.now) }
    requires judged { AreJudged records.now }
    requires groups { AreStanding groups.now records.now }
    requires log { IsConnectionLog records.now conn.now log.now }
    ensures ok { IfOk result (λ list. list ≡ events records.now place conn.now) }
    ensures memory { IsOkUnless result Refusal.Memory }
    ensures told { OnErr result (events records.now place conn.now ≢ []) }
{
    let index = place as usize - 1;
    let past = &records[index];
    let mut list = Events::new(alloc);
    if conn.is(&ConnId::of(&past.entry)) {
        list.push(Event::Verdict {
            place,
            verdict: past.verdict,
        })?;
    }
    let earlier = find_group(records, log, index);
    let told = has_news(records, place, past, conn, earlier);
    if let Some(event) = tell_news(alloc, records, groups, place, past, conn, told)? {
        list.push(event)?;
    }
    Ok(list)
}
