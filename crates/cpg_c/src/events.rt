//! Events, told one at a time.

ghost use Rattle.std.specs.Prelude.{◌≡◌, option_map};
ghost use Rattle.std.specs.List.{slice_get};
ghost use Rattle.cpg_node.specs.Nodes.{open_client};
ghost use Rattle.cpg_embed.specs.Events.{IsTaken, IsProcess};
ghost use Rattle.cpg_embed.specs.Processes.{process_of, moved_of};
ghost use Rattle.cpg_embed.specs.Statuses.{AreHanded, AreLent};
ghost use Rattle.cpg_embed.specs.Telling.{group_in, message_in, members_in, left_in, joined_in};
ghost use Rattle.cpg_c.specs.Handles.{AtHandle, SeenAt};

use crate::handles::Handle;
use crate::lending::lend;
use cpg_embed::{CLOSED, NONE, Process, Told};
use std::alloc::Global;

/// Takes the connection's next event, and tells of it.
#[unsafe(no_mangle)]
pub extern "C" fn cpgring_take(
    alloc: Global,
    handle: &mut Handle,
    conn: u16,
    told: &mut Told,
) -> u32
    ensures { AtHandle handle.old.slot.held result handle.new.slot.held (λ e new. IsTaken e conn (open_client e.node conn) result told.new new) }
{
    let Some(mut boxed) = handle.take(alloc) else {
        return CLOSED;
    };
    let status = boxed.take(conn, told);
    *handle = Handle::of(boxed);
    status
}

/// Hands over the name of the group that the last event names.
#[unsafe(no_mangle)]
pub extern "C" fn cpgring_group(alloc: Global, handle: &mut Handle, buffer: &mut [u8]) -> u32
    ensures { SeenAt handle.old.slot.held result handle.new.slot.held (λ e. AreHanded (group_in e.event) buffer.old result buffer.new) }
{
    let Some(boxed) = handle.take(alloc) else {
        return CLOSED;
    };
    let status = boxed.group(buffer);
    *handle = Handle::of(boxed);
    status
}

/// Hands over the last event's message.
#[unsafe(no_mangle)]
pub extern "C" fn cpgring_message(alloc: Global, handle: &mut Handle, buffer: &mut [u8]) -> u32
    ensures { SeenAt handle.old.slot.held result handle.new.slot.held (λ e. AreHanded (message_in e.event) buffer.old result buffer.new) }
{
    let Some(boxed) = handle.take(alloc) else {
        return CLOSED;
    };
    let status = boxed.message(buffer);
    *handle = Handle::of(boxed);
    status
}

/// Lends the last event's message, by where it stands and how many bytes it has.
#[unsafe(no_mangle)]
pub extern "C" fn cpgring_lent(
    alloc: Global,
    handle: &mut Handle,
    at: &mut *const u8,
    len: &mut usize,
) -> u32
    ensures { SeenAt handle.old.slot.held result handle.new.slot.held (λ e. AreLent (message_in e.event) result len.new) }
{
    let Some(boxed) = handle.take(alloc) else {
        return CLOSED;
    };
    let status = match boxed.lent() {
        Some(message) => lend(message, at, len),
        None => NONE,
    };
    *handle = Handle::of(boxed);
    status
}

/// Tells a member after the last event's change, by its index from 0.
#[unsafe(no_mangle)]
pub extern "C" fn cpgring_member(
    alloc: Global,
    handle: &mut Handle,
    index: usize,
    process: &mut Process,
) -> u32
    ensures { SeenAt handle.old.slot.held result handle.new.slot.held (λ e. IsProcess (option_map process_of (slice_get (members_in e.event) index)) result process.new) }
{
    let Some(boxed) = handle.take(alloc) else {
        return CLOSED;
    };
    let status = boxed.member(index, process);
    *handle = Handle::of(boxed);
    status
}

/// Tells one of those who left by the last event's change, by its index from 0.
#[unsafe(no_mangle)]
pub extern "C" fn cpgring_left(
    alloc: Global,
    handle: &mut Handle,
    index: usize,
    process: &mut Process,
) -> u32
    ensures { SeenAt handle.old.slot.held result handle.new.slot.held (λ e. IsProcess (option_map moved_of (slice_get (left_in e.event) index)) result process.new) }
{
    let Some(boxed) = handle.take(alloc) else {
        return CLOSED;
    };
    let status = boxed.left(index, process);
    *handle = Handle::of(boxed);
    status
}

/// Tells one of those who joined by the last event's change, by its index from 0.
#[unsafe(no_mangle)]
pub extern "C" fn cpgring_joined(
    alloc: Global,
    handle: &mut Handle,
    index: usize,
    process: &mut Process,
) -> u32
    ensures { SeenAt handle.old.slot.held result handle.new.slot.held (λ e. IsProcess (option_map moved_of (slice_get (joined_in e.event) index)) result process.new) }
{
    let Some(boxed) = handle.take(alloc) else {
        return CLOSED;
    };
    let status = boxed.joined(index, process);
    *handle = Handle::of(boxed);
    status
}
