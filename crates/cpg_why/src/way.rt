//! The way of a connection through judged entries.
//!
//! Proved: it is the definition of `specs/Ways.antt`.

ghost use Rattle.std.specs.Prelude.{◌≡◌, ◌≤◌, ◌++◌, length, OnOk, IsOkUnless};
ghost use Rattle.std.specs.List.{flat_map};
ghost use Rattle.cpg_record.specs.Judging.{judged};
ghost use Rattle.cpg_record.specs.Places.{record_at};
ghost use Rattle.cpg_why.specs.Ways.{change_in, made_by, way_at, way_of};

use crate::findings::Finding;
use crate::numbers::find_record;
use crate::standings::Spot;
use cpg_cred::Refusal;
use cpg_group::Policy;
use cpg_record::{ConnId, Event, Record};

/// Puts the entry of a place last, where the connection made it.
fn find_made(
    list: &mut Vec<Finding>,
    records: &[Record],
    conn: &ConnId,
    place: u32,
) -> Result<(), Refusal>
    ensures ok { OnOk result (list.new.items ≡ list.old.items ++ made_by conn.now place (record_at records.now place)) }
    ensures memory { IsOkUnless result Refusal.Memory }
{
    let Some(past) = find_record(records, place) else {
        return Ok(());
    };
    if ConnId::of(&past.entry).is(conn) {
        list.push(Finding::Made { place })?;
    }
    Ok(())
}

/// Puts an event last, where it is a change of a group's members.
fn find_change(list: &mut Vec<Finding>, conn: &ConnId, event: &Event) -> Result<(), Refusal>
    ensures ok { OnOk result (list.new.items ≡ list.old.items ++ change_in conn.now event.now) }
    ensures memory { IsOkUnless result Refusal.Memory }
{
    match event {
        Event::Change { .. } => {
            let event = event.copy(*list.allocator())?;
            list.push(Finding::Heard { conn: *conn, event })?;
            Ok(())
        }
        _ => Ok(()),
    }
}

/// Puts the events last that are changes.
fn find_changes(list: &mut Vec<Finding>, conn: &ConnId, events: &[Event]) -> Result<(), Refusal>
    ensures ok { OnOk result (list.new.items ≡ list.old.items ++ flat_map (change_in conn.now) events.now) }
    ensures memory { IsOkUnless result Refusal.Memory }
{
    for event in events {
        find_change(list, conn, event)?;
    }
    Ok(())
}

/// Puts what a place has of the connection last.
fn find_at(list: &mut Vec<Finding>, spot: &Spot<'_>) -> Result<(), Refusal>
    requires { (1 ≤ spot.now.place) × (spot.now.place ≤ length spot.now.policy.now) }
    ensures ok { OnOk result (list.new.items ≡ list.old.items ++ way_at (judged spot.now.policy.now) spot.now.conn.now spot.now.place) }
    ensures memory { IsOkUnless result Refusal.Memory }
{
    find_made(list, spot.policy.records(), spot.conn, spot.place)?;
    let told = spot.policy.events_at(spot.place, *spot.conn)?;
    find_changes(list, spot.conn, told.as_slice())
}

/// Puts the way of a connection through the judged entries last.
pub(crate) fn find_way(
    list: &mut Vec<Finding>,
    policy: &Policy,
    conn: &ConnId,
) -> Result<(), Refusal>
    ensures ok { OnOk result (list.new.items ≡ list.old.items ++ way_of (judged policy.now) conn.now) }
    ensures memory { IsOkUnless result Refusal.Memory }
{
    for index in 0..policy.len() {
        let place = index as u32 + 1;
        find_at(
            list,
            &Spot {
                policy,
                conn,
                place,
            },
        )?;
    }
    Ok(())
}
