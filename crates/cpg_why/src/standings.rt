//! How a connection stands to an entry: why it is told of it, or is not.
//!
//! Proved: who stands so is told something exactly where that is said (`laws`); what is found is the definition of
//! `specs/Standings.antt`.

ghost use Rattle.std.specs.Prelude.{◌≡◌, ◌≤◌, ◌++◌, length, map, IfOk, OnOk, IsOkUnless};
ghost use Rattle.std.specs.Option.{option_copied};
ghost use Rattle.cpg_record.specs.Events.{events};
ghost use Rattle.cpg_record.specs.Judging.{judged};
ghost use Rattle.cpg_record.specs.Membership.{group_of};
ghost use Rattle.cpg_record.specs.Places.{record_at, records_before};
ghost use Rattle.cpg_why.specs.declared.findings.Finding.TheVariants.{Heard};
ghost use Rattle.cpg_why.specs.Moves.{last_move, moved, moves};
ghost use Rattle.cpg_why.specs.Standings.{is_join, is_told, last_tried, stand_at, stand_by, stand_of, standing, standing_in, tried, tries};

use crate::findings::{Finding, Stand};
use crate::numbers::find_record;
use cpg_cred::Refusal;
use cpg_entry::{Call, Name, Op};
use cpg_group::Policy;
use cpg_record::{ConnId, Event, Record};
use std::alloc::Global;

/// A place of judged entries, and the connection that is asked of there.
#[derive(Clone, Copy)]
pub(crate) struct Spot<'a> {
    pub(crate) policy: &'a Policy,
    pub(crate) conn: &'a ConnId,
    pub(crate) place: u32,
}

/// How a connection stands to an entry.
#[derive(Debug, Clone, Copy, PartialEq, Eq)]
pub enum Standing {
    /// It made the entry, and is told its verdict.
    Maker,
    /// The entry is another's and denied: its maker alone is told.
    Denied,
    /// The entry is another's and of no group: the end of a connection that was in none.
    Groupless,
    /// It is in the entry's group, and is told.
    Member,
    /// It is in another group.
    Elsewhere,
    /// It is in no group.
    Outside,
}

impl Standing {
    /// Its name.
    pub fn name(self) -> &'static str {
        match self {
            Standing::Maker => "maker",
            Standing::Denied => "denied",
            Standing::Groupless => "groupless",
            Standing::Member => "member",
            Standing::Elsewhere => "elsewhere",
            Standing::Outside => "outside",
        }
    }
}

/// Whether who stands so is told something.
pub fn is_told(standing: Standing) -> bool
    ensures { result ≡ is_told standing }
{
    match standing {
        Standing::Maker | Standing::Member => true,
        Standing::Denied | Standing::Groupless | Standing::Elsewhere | Standing::Outside => false,
    }
}

/// How a connection of the one group stands to an allowed entry of the other.
fn standing_in(group: Option<&Name>, mine: Option<&Name>) -> Standing
    ensures { result ≡ standing_in (option_copied group.entry) (option_copied mine.entry) }
{
    match (group, mine) {
        (None, _) => Standing::Groupless,
        (Some(_), None) => Standing::Outside,
        (Some(group), Some(mine)) => {
            if group.equals(mine) {
                Standing::Member
            } else {
                Standing::Elsewhere
            }
        }
    }
}

/// The group that the connection was in before that place.
fn group_before(policy: &Policy, conn: ConnId, place: u32) -> Option<&Name>
    requires { 1 ≤ place }
    ensures { option_copied result ≡ group_of (records_before (judged policy.now) place) conn }
{
    policy.log(conn).group_after(place - 1)
}

/// How the connection stands to the entry of a record that comes at that place.
fn find_standing(policy: &Policy, conn: ConnId, place: u32, past: &Record) -> Standing
    requires { 1 ≤ place }
    ensures { result ≡ standing (records_before (judged policy.now) place) past.now conn }
{
    if conn.is(&ConnId::of(&past.entry)) {
        Standing::Maker
    } else if past.verdict.is_allowed() {
        standing_in(past.group.as_ref(), group_before(policy, conn, place))
    } else {
        Standing::Denied
    }
}

fn is_join(op: &Op) -> bool
    ensures { result ≡ is_join op.now }
{
    matches!(op, Op::Act(Call::Join(_)))
}

/// Whether the record is an allowed join, leave or end of the connection.
fn moves(conn: &ConnId, past: &Record) -> bool
    ensures { result ≡ moves conn.now past.now }
{
    past.verdict.is_allowed() && past.entry.op.is_move() && ConnId::of(&past.entry).is(conn)
}

/// Whether the record is a denied join of the connection.
fn tries(conn: &ConnId, past: &Record) -> bool
    ensures { result ≡ tries conn.now past.now }
{
    !past.verdict.is_allowed() && is_join(&past.entry.op) && conn.is(&ConnId::of(&past.entry))
}

/// The place of the connection's last move, and that of its last denied join since, after one record more.
fn follow(
    conn: &ConnId,
    place: u32,
    past: &Record,
    seen: (Option<u32>, Option<u32>),
) -> (Option<u32>, Option<u32>)
    ensures last { result.0 ≡ moved conn.now seen.0 (place, past.now) }
    ensures tried { result.1 ≡ tried conn.now seen.1 (place, past.now) }
{
    let (last, tried) = seen;
    if moves(conn, past) {
        (Some(place), None)
    } else if tries(conn, past) {
        (last, Some(place))
    } else {
        (last, tried)
    }
}

/// The place of the connection's last join, leave or end among these records, and that of its last denied join since.
fn find_last(records: &[Record], conn: &ConnId) -> (Option<u32>, Option<u32>)
    requires { length records.now ≤ 4294967295 }
    ensures last { result.0 ≡ last_move records.now conn.now }
    ensures tried { result.1 ≡ last_tried records.now conn.now }
{
    let mut seen = (None, None);
    for index in 0..records.len() {
        seen = follow(conn, index as u32 + 1, &records[index], seen);
    }
    seen
}

/// The same group, if there is one.
fn copy_group(alloc: Global, group: Option<&Name>) -> Result<Option<Name>, Refusal>
    ensures ok { IfOk result (λ copy. copy ≡ option_copied group.entry) }
    ensures memory { IsOkUnless result Refusal.Memory }
{
    match group {
        None => Ok(None),
        Some(group) => Ok(Some(group.copy(alloc)?)),
    }
}

/// How the connection stands to the entry of the record of that place, and where it is before it.
fn find_stand(alloc: Global, spot: &Spot<'_>, past: &Record) -> Result<Stand, Refusal>
    requires { (1 ≤ spot.now.place) × (spot.now.place ≤ length spot.now.policy.now) }
    ensures ok { IfOk result (λ stand. stand ≡ stand_of (records_before (judged spot.now.policy.now) spot.now.place) spot.now.conn.now spot.now.place past.now) }
    ensures memory { IsOkUnless result Refusal.Memory }
{
    let Spot {
        policy,
        conn,
        place,
    } = *spot;
    let (since, tried) = find_last(&policy.records()[..place as usize - 1], conn);
    Ok(Stand {
        place,
        conn: *conn,
        standing: find_standing(policy, *conn, place, past),
        group: copy_group(alloc, group_before(policy, *conn, place))?,
        since,
        tried,
    })
}

/// Puts how the connection stands to the entry of that place last.
fn stand_to(list: &mut Vec<Finding>, spot: &Spot<'_>) -> Result<(), Refusal>
    requires { (1 ≤ spot.now.place) × (spot.now.place ≤ length spot.now.policy.now) }
    ensures ok { OnOk result (list.new.items ≡ list.old.items ++ stand_by (records_before (judged spot.now.policy.now) spot.now.place) spot.now.conn.now spot.now.place (record_at (judged spot.now.policy.now) spot.now.place)) }
    ensures memory { IsOkUnless result Refusal.Memory }
{
    match find_record(spot.policy.records(), spot.place) {
        None => Ok(()),
        Some(past) => {
            let stand = find_stand(*list.allocator(), spot, past)?;
            list.push(Finding::Stands(stand))?;
            Ok(())
        }
    }
}

/// Puts the events last, which the connection is told.
fn hear_all(list: &mut Vec<Finding>, conn: &ConnId, events: &[Event]) -> Result<(), Refusal>
    ensures ok { OnOk result (list.new.items ≡ list.old.items ++ map (Heard conn.now) events.now) }
    ensures memory { IsOkUnless result Refusal.Memory }
{
    for event in events {
        let event = event.copy(*list.allocator())?;
        list.push(Finding::Heard { conn: *conn, event })?;
    }
    Ok(())
}

/// Puts how the connection stands to the entry of that place last, and what it is told there.
pub(crate) fn stand_at(list: &mut Vec<Finding>, spot: &Spot<'_>) -> Result<(), Refusal>
    requires { (1 ≤ spot.now.place) × (spot.now.place ≤ length spot.now.policy.now) }
    ensures ok { OnOk result (list.new.items ≡ list.old.items ++ stand_at (judged spot.now.policy.now) spot.now.conn.now spot.now.place) }
    ensures memory { IsOkUnless result Refusal.Memory }
{
    stand_to(list, spot)?;
    let told = spot.policy.events_at(spot.place, *spot.conn)?;
    hear_all(list, spot.conn, told.as_slice())
}
