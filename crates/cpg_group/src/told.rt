//! What places tell their groups, whoever is in them, and how many entries a group has up to a place.

ghost use Rattle.std.specs.Prelude.{◌≡◌, ◌≤◌, ◌∷◌, [], ℕ, List, Bool, length, take, IfOk, IsOkUnless};
ghost use Rattle.cpg_record.specs.declared.records.Record.{Record};
ghost use Rattle.cpg_record.specs.Connections.{conn_of, member_of};
ghost use Rattle.cpg_record.specs.Events.{moves_of};
ghost use Rattle.cpg_record.specs.Judging.{AreJudged};
ghost use Rattle.cpg_record.specs.Membership.{members};
ghost use Rattle.cpg_record.specs.Places.{places_of, records_before};
ghost use Rattle.cpg_group.specs.Standing.{AreStanding};
ghost use Rattle.cpg_group.specs.Telling.{told, told_by, told_in};

use crate::places;
use crate::standing::Groups;
use crate::telling::collect_left;
use cpg_cred::Refusal;
use cpg_entry::{Call, Name, Op};
use cpg_record::{Cause, Event, Member, Moves, Record};
use std::alloc::Global;

/// How many of the ascending places stand up to the last one. Takes no memory, and searches by halving.
pub fn count_upto(places: &[u32], last: u32) -> usize
    ensures { (test : Record → Bool) (records : List Record) → places.now ≡ places_of test records → result ≡ length (places_of test (take last records)) }
{
    places::cut_upto(places, last as usize)
}

/// A change of the group by the record.
fn change_of(
    alloc: Global,
    place: u32,
    past: &Record,
    group: &Name,
    left: Moves,
    joined: Moves,
) -> Result<Event, Refusal>
    ensures ok { IfOk result (λ event. event ≡ Event.Change place group.now past.now.members left joined) }
    ensures memory { IsOkUnless result Refusal.Memory }
{
    let group = group.copy(alloc)?;
    let members = past.members.copy(alloc)?;
    Ok(Event::Change {
        place,
        group,
        members,
        left,
        joined,
    })
}

/// The change of the group by a join. It stands apart, as that by an end of a membership does, since most ops send.
#[inline(never)]
fn joined_event(alloc: Global, place: u32, past: &Record, group: &Name) -> Result<Event, Refusal>
    ensures ok { IfOk result (λ event. event ≡ Event.Change place group.now past.now.members [] (record { member = member_of past.now.entry; cause = Cause.Join } ∷ [])) }
    ensures memory { IsOkUnless result Refusal.Memory }
{
    let joined = Moves::join_of(alloc, Member::of(&past.entry))?;
    change_of(alloc, place, past, group, Moves::new(alloc), joined)
}

/// The change of the group by an end of a membership, by a leave or with its connection.
#[inline(never)]
fn left_event(
    alloc: Global,
    records: &[Record],
    groups: &Groups,
    place: u32,
    past: &Record,
    group: &Name,
    cause: Cause,
) -> Result<Event, Refusal>
    requires place { 1 ≤ place }
    requires judged { AreJudged records.now }
    requires groups { AreStanding groups.now records.now }
    ensures ok { IfOk result (λ event. event ≡ Event.Change place group.now past.now.members (moves_of (conn_of past.now.entry) cause (members (records_before records.now place) group.now)) []) }
    ensures memory { IsOkUnless result Refusal.Memory }
{
    let left = collect_left(alloc, records, groups, place, past, group, cause)?;
    change_of(alloc, place, past, group, left, Moves::new(alloc))
}

/// What an allowed op tells each of those of the group who are told of it.
#[inline(always)]
pub(crate) fn event_of(
    alloc: Global,
    records: &[Record],
    groups: &Groups,
    place: u32,
    past: &Record,
    group: &Name,
) -> Result<Event, Refusal>
    requires place { 1 ≤ place }
    requires judged { AreJudged records.now }
    requires groups { AreStanding groups.now records.now }
    ensures ok { IfOk result (λ event. event ≡ told_by place (records_before records.now place) past.now group.now past.now.entry.op) }
    ensures memory { IsOkUnless result Refusal.Memory }
{
    match &past.entry.op {
        Op::Act(Call::Join(_)) => joined_event(alloc, place, past, group),
        Op::Act(Call::Leave) => {
            left_event(alloc, records, groups, place, past, group, Cause::Leave)
        }
        Op::Gone => left_event(alloc, records, groups, place, past, group, Cause::Down),
        Op::Act(Call::Send(message)) => Ok(Event::Message {
            place,
            group: group.copy(alloc)?,
            node: past.entry.node,
            pid: past.entry.pid,
            message: message.copy(alloc)?,
        }),
        Op::Act(Call::Insert(_, _, _)) | Op::Act(Call::Remove(_, _)) => Ok(Event::RulesChanged {
            place,
            group: group.copy(alloc)?,
        }),
    }
}

/// What a record tells its group, if it has one.
fn event_in(
    alloc: Global,
    records: &[Record],
    groups: &Groups,
    place: u32,
    past: &Record,
) -> Result<Option<Event>, Refusal>
    requires place { 1 ≤ place }
    requires judged { AreJudged records.now }
    requires groups { AreStanding groups.now records.now }
    ensures ok { IfOk result (λ event. event ≡ told_in place (records_before records.now place) past.now past.now.group) }
    ensures memory { IsOkUnless result Refusal.Memory }
{
    match &past.group {
        None => Ok(None),
        Some(group) => {
            if past.verdict.is_allowed() {
                Ok(Some(event_of(alloc, records, groups, place, past, group)?))
            } else {
                Ok(None)
            }
        }
    }
}

/// What a place tells its group.
#[tactic(auto, using(crate::proofs::Passed::record_at_index))]
pub(crate) fn collect_told(
    alloc: Global,
    records: &[Record],
    groups: &Groups,
    place: u32,
) -> Result<Option<Event>, Refusal>
    requires place { (1 ≤ place) × (place ≤ length records.now) }
    requires judged { AreJudged records.now }
    requires groups { AreStanding groups.now records.now }
    ensures ok { IfOk result (λ event. event ≡ told records.now place) }
    ensures memory { IsOkUnless result Refusal.Memory }
{
    let past = &records[place as usize - 1];
    event_in(alloc, records, groups, place, past)
}
