//! Listings, tables and records, handed over one at a time.

ghost use Rattle.std.specs.Prelude.{◌≡◌, length};
ghost use Rattle.std.specs.List.{slice_get};
ghost use Rattle.cpg_record.specs.Places.{record_at};
ghost use Rattle.cpg_record.specs.RuleTables.{rules_of};
ghost use Rattle.cpg_ring.specs.States.{safe_mark};
ghost use Rattle.cpg_node.specs.Nodes.{records_of, open_client};
ghost use Rattle.cpg_embed.specs.Events.{IsProcess};
ghost use Rattle.cpg_embed.specs.Listings.{IsListed, AreNamed, IsNamed, IsReached, IsRuleLine, process_at, name_at};
ghost use Rattle.cpg_embed.specs.Records.{IsAudited, group_at, message_at, notified_at};
ghost use Rattle.cpg_embed.specs.Seats.{AreSeated, IsSeat, seats_of, seat_in};
ghost use Rattle.cpg_embed.specs.Statuses.{AreHanded, AreLent};
ghost use Rattle.cpg_embed.specs.declared.statuses.TheConstants.{OK as DONE};
ghost use Rattle.cpg_c.specs.Handles.{AtHandle, SeenAt};

use crate::handles::Handle;
use crate::lending::lend;
use cpg_embed::{Audited, CLOSED, NONE, OK, Process, RuleLine};
use std::alloc::Global;

/// Lists the members of a group, and tells how many there are.
#[unsafe(no_mangle)]
pub extern "C" fn cpgring_list(
    alloc: Global,
    handle: &mut Handle,
    conn: u16,
    group: &[u8],
    count: &mut usize,
) -> u32
    ensures { AtHandle handle.old.slot.held result handle.new.slot.held (λ e new. IsListed e group.now (open_client e.node conn) result count.new new) }
{
    let Some(mut boxed) = handle.take(alloc) else {
        return CLOSED;
    };
    let status = boxed.list(conn, group, count);
    *handle = Handle::of(boxed);
    status
}

/// Tells one of the processes that were listed last, by its index from 0.
#[unsafe(no_mangle)]
pub extern "C" fn cpgring_listed(
    alloc: Global,
    handle: &mut Handle,
    index: usize,
    process: &mut Process,
) -> u32
    ensures { SeenAt handle.old.slot.held result handle.new.slot.held (λ e. IsProcess (process_at e.processes index) result process.new) }
{
    let Some(boxed) = handle.take(alloc) else {
        return CLOSED;
    };
    let status = boxed.listed(index, process);
    *handle = Handle::of(boxed);
    status
}

/// Lists the groups with members that the connection may list, and tells how many there are.
#[unsafe(no_mangle)]
pub extern "C" fn cpgring_groups(
    alloc: Global,
    handle: &mut Handle,
    conn: u16,
    count: &mut usize,
) -> u32
    ensures { AtHandle handle.old.slot.held result handle.new.slot.held (λ e new. AreNamed e (open_client e.node conn) result count.new new) }
{
    let Some(mut boxed) = handle.take(alloc) else {
        return CLOSED;
    };
    let status = boxed.groups(conn, count);
    *handle = Handle::of(boxed);
    status
}

/// Hands over one of the names that were listed last, by its index from 0, with its length.
#[unsafe(no_mangle)]
pub extern "C" fn cpgring_named(
    alloc: Global,
    handle: &mut Handle,
    index: usize,
    buffer: &mut [u8],
    len: &mut usize,
) -> u32
    ensures { SeenAt handle.old.slot.held result handle.new.slot.held (λ e. IsNamed (name_at e.names index) buffer.old result buffer.new len.new) }
{
    let Some(boxed) = handle.take(alloc) else {
        return CLOSED;
    };
    let status = boxed.named(index, buffer, len);
    *handle = Handle::of(boxed);
    status
}

/// Finds the places of the joins of all who are members, and tells how many there are.
#[unsafe(no_mangle)]
pub extern "C" fn cpgring_seats(alloc: Global, handle: &mut Handle, count: &mut usize) -> u32
    ensures { AtHandle handle.old.slot.held result handle.new.slot.held (λ e new. AreSeated e (seats_of e) result count.new new) }
{
    let Some(mut boxed) = handle.take(alloc) else {
        return CLOSED;
    };
    let status = boxed.seats(count);
    *handle = Handle::of(boxed);
    status
}

/// Tells one of the places that were found last, by its index from 0.
#[unsafe(no_mangle)]
pub extern "C" fn cpgring_seat(
    alloc: Global,
    handle: &mut Handle,
    index: usize,
    place: &mut u32,
) -> u32
    ensures { SeenAt handle.old.slot.held result handle.new.slot.held (λ e. IsSeat (seat_in e.seats index) result place.new) }
{
    let Some(boxed) = handle.take(alloc) else {
        return CLOSED;
    };
    let status = boxed.seat(index, place);
    *handle = Handle::of(boxed);
    status
}

/// Tells a rule of a group's table, by its index from 0.
#[unsafe(no_mangle)]
pub extern "C" fn cpgring_table(
    alloc: Global,
    handle: &mut Handle,
    group: &[u8],
    index: usize,
    line: &mut RuleLine,
) -> u32
    ensures { SeenAt handle.old.slot.held result handle.new.slot.held (λ e. IsRuleLine (slice_get (rules_of (records_of e.node) group.now) index) result line.new) }
{
    let Some(boxed) = handle.take(alloc) else {
        return CLOSED;
    };
    let status = boxed.rule(group, index, line);
    *handle = Handle::of(boxed);
    status
}

/// Tells the record of a place that was delivered.
#[unsafe(no_mangle)]
pub extern "C" fn cpgring_audit(
    alloc: Global,
    handle: &mut Handle,
    place: u32,
    audited: &mut Audited,
) -> u32
    ensures { SeenAt handle.old.slot.held result handle.new.slot.held (λ e. IsAudited (record_at (records_of e.node) place) result audited.new) }
{
    let Some(boxed) = handle.take(alloc) else {
        return CLOSED;
    };
    let status = boxed.audit(place, audited);
    *handle = Handle::of(boxed);
    status
}

/// Tells one of those to whom a place that was delivered tells something, by an index from 0.
#[unsafe(no_mangle)]
pub extern "C" fn cpgring_notified(
    alloc: Global,
    handle: &mut Handle,
    place: u32,
    index: usize,
    process: &mut Process,
) -> u32
    ensures { SeenAt handle.old.slot.held result handle.new.slot.held (λ e. IsProcess (notified_at (record_at (records_of e.node) place) index) result process.new) }
{
    let Some(boxed) = handle.take(alloc) else {
        return CLOSED;
    };
    let status = boxed.notified(place, index, process);
    *handle = Handle::of(boxed);
    status
}

/// Hands over the group's name of a record.
#[unsafe(no_mangle)]
pub extern "C" fn cpgring_audit_group(
    alloc: Global,
    handle: &mut Handle,
    place: u32,
    buffer: &mut [u8],
) -> u32
    ensures { SeenAt handle.old.slot.held result handle.new.slot.held (λ e. AreHanded (group_at (record_at (records_of e.node) place)) buffer.old result buffer.new) }
{
    let Some(boxed) = handle.take(alloc) else {
        return CLOSED;
    };
    let status = boxed.audit_group(place, buffer);
    *handle = Handle::of(boxed);
    status
}

/// Hands over the message of a record.
#[unsafe(no_mangle)]
pub extern "C" fn cpgring_audit_message(
    alloc: Global,
    handle: &mut Handle,
    place: u32,
    buffer: &mut [u8],
) -> u32
    ensures { SeenAt handle.old.slot.held result handle.new.slot.held (λ e. AreHanded (message_at (record_at (records_of e.node) place)) buffer.old result buffer.new) }
{
    let Some(boxed) = handle.take(alloc) else {
        return CLOSED;
    };
    let status = boxed.audit_message(place, buffer);
    *handle = Handle::of(boxed);
    status
}

/// Lends the message of a record, by where it stands and how many bytes it has.
#[unsafe(no_mangle)]
pub extern "C" fn cpgring_audit_lent(
    alloc: Global,
    handle: &mut Handle,
    place: u32,
    at: &mut *const u8,
    len: &mut usize,
) -> u32
    ensures { SeenAt handle.old.slot.held result handle.new.slot.held (λ e. AreLent (message_at (record_at (records_of e.node) place)) result len.new) }
{
    let Some(boxed) = handle.take(alloc) else {
        return CLOSED;
    };
    let status = match boxed.audit_lent(place) {
        Some(message) => lend(message, at, len),
        None => NONE,
    };
    *handle = Handle::of(boxed);
    status
}

/// Tells how many places were delivered.
#[unsafe(no_mangle)]
pub extern "C" fn cpgring_delivered(alloc: Global, handle: &mut Handle, place: &mut u32) -> u32
    ensures { SeenAt handle.old.slot.held result handle.new.slot.held (λ e. (result ≡ DONE) × (place.new ≡ e.node.ring.state.delivered)) }
{
    let Some(boxed) = handle.take(alloc) else {
        return CLOSED;
    };
    *place = boxed.delivered();
    *handle = Handle::of(boxed);
    OK
}

/// Tells the place up to which every node holds all places.
#[unsafe(no_mangle)]
pub extern "C" fn cpgring_safe(alloc: Global, handle: &mut Handle, place: &mut u32) -> u32
    ensures { SeenAt handle.old.slot.held result handle.new.slot.held (λ e. (result ≡ DONE) × (place.new ≡ safe_mark e.node.ring.state.arus)) }
{
    let Some(boxed) = handle.take(alloc) else {
        return CLOSED;
    };
    *place = boxed.safe();
    *handle = Handle::of(boxed);
    OK
}

/// Tells how many entries wait for a place, ends of connections too.
#[unsafe(no_mangle)]
pub extern "C" fn cpgring_waiting(alloc: Global, handle: &mut Handle, count: &mut usize) -> u32
    ensures { SeenAt handle.old.slot.held result handle.new.slot.held (λ e. (result ≡ DONE) × (count.new ≡ length e.node.ring.state.waiting)) }
{
    let Some(boxed) = handle.take(alloc) else {
        return CLOSED;
    };
    *count = boxed.waiting();
    *handle = Handle::of(boxed);
    OK
}

/// Tells how many places were given out and how many hops made, as far as the node's last token says.
#[unsafe(no_mangle)]
pub extern "C" fn cpgring_reached(
    alloc: Global,
    handle: &mut Handle,
    places: &mut u32,
    hops: &mut u64,
) -> u32
    ensures { SeenAt handle.old.slot.held result handle.new.slot.held (λ e. IsReached e.node.ring.state.last_token result places.new hops.new) }
{
    let Some(boxed) = handle.take(alloc) else {
        return CLOSED;
    };
    let status = boxed.reached(places, hops);
    *handle = Handle::of(boxed);
    status
}
