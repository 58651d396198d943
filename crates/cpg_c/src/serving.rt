//! The calls of a node with its clients: from a client's bytes to a client's bytes.

ghost use Rattle.std.specs.Prelude.{◌≡◌, ◌<◌, ◌≤◌, length};
ghost use Rattle.cpg_conf.specs.Names.{known_of};
ghost use Rattle.cpg_embed.specs.Opening.{settings_of};
ghost use Rattle.cpg_embed.specs.declared.statuses.TheConstants.{OK as DONE};
ghost use Rattle.cpg_c.specs.Handles.{AtHandle, IsEmptied, SeenAt};
ghost use Rattle.cpg_c.specs.Serving.{HasArrived, HasHeard, HasLost, HasRenewed, HasSettled, HasWritten, IsOutput, IsServedByConf, IsServedOpened, IsServedOpenedAt, AreGiven, HasBegunNext, HasRenewedByConf, status_of, stop_number};

use crate::lending::lend;
use crate::served_handles::ServedHandle;
use cpg_cred::{AcceptList, Cred, NodeId, Refusal};
use cpg_embed::{BUSY, CLOSED, Fault, OK, SPACE, Setup, list_of_conf};
use cpg_node::Settings;
use cpg_serve::{Served, Stop};
use std::alloc::Global;

/// A node without clients, with that list.
fn new_served(alloc: Global, setup: &Setup, list: AcceptList) -> Result<Served, u32>
    ensures { IsServedOpened setup.now list result }
{
    let Some(id) = NodeId::new(setup.node) else {
        return Err(Refusal::Range.number());
    };
    match Served::new(alloc, setup.settings(), id, list) {
        Ok(served) => Ok(served),
        Err(refused) => Err(refused.refusal.number()),
    }
}

/// A node without clients, which lets in whom the conf text lists.
fn served_by_conf(
    alloc: Global,
    setup: &Setup,
    names: &[u8],
    conf: &[u8],
    fault: &mut Fault,
) -> Result<Served, u32>
    ensures { IsServedByConf setup.now (known_of names.now) conf.now result fault.new }
{
    let list = list_of_conf(alloc, names, conf, fault)?;
    new_served(alloc, setup, list)
}

/// Opens a node of that setup, with no clients yet, which lets in whom the conf text lists, its names by the names text.
#[unsafe(no_mangle)]
pub extern "C" fn cpgring_served_open(
    alloc: Global,
    handle: &mut ServedHandle,
    setup: &Setup,
    names: &[u8],
    conf: &[u8],
    fault: &mut Fault,
) -> u32
    ensures { IsServedOpenedAt setup.now (known_of names.now) conf.now handle.old.slot.held result handle.new.slot.held fault.new }
{
    match handle.take(alloc) {
        Some(boxed) => {
            *handle = ServedHandle::of(boxed);
            BUSY
        }
        None => match served_by_conf(alloc, setup, names, conf, fault) {
            Ok(served) => match Box::new(alloc, served) {
                Ok(boxed) => {
                    *handle = ServedHandle::of(boxed);
                    OK
                }
                Err(_) => Refusal::Memory.number(),
            },
            Err(status) => status,
        },
    }
}

/// Closes a node with its clients.
#[unsafe(no_mangle)]
pub extern "C" fn cpgring_served_close(alloc: Global, handle: &mut ServedHandle) -> u32
    ensures { IsEmptied handle.old.slot.held result handle.new.slot.held }
{
    match handle.take(alloc) {
        Some(boxed) => {
            drop(boxed);
            OK
        }
        None => CLOSED,
    }
}

/// The status of what was done, or not.
fn status_of(done: Result<(), Refusal>) -> u32
    ensures { result ≡ status_of done }
{
    match done {
        Ok(()) => OK,
        Err(refusal) => refusal.number(),
    }
}

/// Takes a client in, and tells its connection's number.
fn arrive(served: &mut Served, pid: u32, cred: Cred, conn: &mut u16) -> u32
    ensures { HasArrived served.old pid cred result conn.new served.new }
{
    match served.arrive(pid, cred) {
        Ok(number) => {
            *conn = number;
            OK
        }
        Err(refusal) => refusal.number(),
    }
}

/// Takes a client in, and tells its connection's number.
#[unsafe(no_mangle)]
pub extern "C" fn cpgring_served_arrive(
    alloc: Global,
    handle: &mut ServedHandle,
    pid: u32,
    uid: u32,
    gid: u32,
    conn: &mut u16,
) -> u32
    ensures { AtHandle handle.old.slot.held result handle.new.slot.held (λ x new. HasArrived x pid (record { uid = uid; gid = gid }) result conn.new new) }
{
    let Some(mut boxed) = handle.take(alloc) else {
        return CLOSED;
    };
    let status = arrive(&mut boxed, pid, Cred { uid, gid }, conn);
    *handle = ServedHandle::of(boxed);
    status
}

fn stop_number(stop: Stop) -> u32
    ensures { result ≡ stop_number stop }
{
    match stop {
        Stop::Part => 0,
        Stop::Broken => 1,
        Stop::Full => 2,
        Stop::Memory => 3,
    }
}

/// Hears a client's bytes, and tells how many were heard, and why no more.
#[unsafe(no_mangle)]
pub extern "C" fn cpgring_served_hear(
    alloc: Global,
    handle: &mut ServedHandle,
    conn: u16,
    bytes: &[u8],
    count: &mut usize,
    why: &mut u32,
) -> u32
    ensures { AtHandle handle.old.slot.held result handle.new.slot.held (λ x new. HasHeard x conn bytes.now result count.new why.new new) }
{
    let Some(mut boxed) = handle.take(alloc) else {
        return CLOSED;
    };
    let status = match boxed.hear(conn, bytes) {
        Ok(heard) => {
            *count = heard.count;
            *why = stop_number(heard.stop);
            OK
        }
        Err(refusal) => refusal.number(),
    };
    *handle = ServedHandle::of(boxed);
    status
}

/// Ends a client's connection, behind its calls; what was told it, and not written, is dropped.
#[unsafe(no_mangle)]
pub extern "C" fn cpgring_served_lost(alloc: Global, handle: &mut ServedHandle, conn: u16) -> u32
    ensures { AtHandle handle.old.slot.held result handle.new.slot.held (λ x new. HasLost x conn result new) }
{
    let Some(mut boxed) = handle.take(alloc) else {
        return CLOSED;
    };
    let status = status_of(boxed.lost(conn));
    *handle = ServedHandle::of(boxed);
    status
}

/// The ring turns by itself until nothing moves, and each client is told all.
#[unsafe(no_mangle)]
pub extern "C" fn cpgring_served_settle(alloc: Global, handle: &mut ServedHandle) -> u32
    ensures { AtHandle handle.old.slot.held result handle.new.slot.held (λ x new. HasSettled x result new) }
{
    let Some(mut boxed) = handle.take(alloc) else {
        return CLOSED;
    };
    let status = status_of(boxed.settle());
    *handle = ServedHandle::of(boxed);
    status
}

/// Lends the bytes that a client is to be written, none where there is no such client.
#[unsafe(no_mangle)]
pub extern "C" fn cpgring_served_output(
    alloc: Global,
    handle: &mut ServedHandle,
    conn: u16,
    at: &mut *const u8,
    len: &mut usize,
) -> u32
    ensures { SeenAt handle.old.slot.held result handle.new.slot.held (λ x. IsOutput x conn result len.new) }
{
    let Some(boxed) = handle.take(alloc) else {
        return CLOSED;
    };
    let status = lend(boxed.output(conn), at, len);
    *handle = ServedHandle::of(boxed);
    status
}

/// So many bytes of a client's output were written to it.
#[unsafe(no_mangle)]
pub extern "C" fn cpgring_served_wrote(
    alloc: Global,
    handle: &mut ServedHandle,
    conn: u16,
    count: usize,
) -> u32
    ensures { AtHandle handle.old.slot.held result handle.new.slot.held (λ x new. HasWritten x conn count result new) }
{
    let Some(mut boxed) = handle.take(alloc) else {
        return CLOSED;
    };
    let status = if boxed.output(conn).len() < count {
        Refusal::Range.number()
    } else {
        boxed.wrote(conn, count);
        OK
    };
    *handle = ServedHandle::of(boxed);
    status
}

/// Tells how many connections were given out in this ring, and how many of its places were delivered.
#[unsafe(no_mangle)]
pub extern "C" fn cpgring_served_reached(
    alloc: Global,
    handle: &mut ServedHandle,
    connections: &mut usize,
    places: &mut u32,
) -> u32
    ensures { SeenAt handle.old.slot.held result handle.new.slot.held (λ x. (result ≡ DONE) × (connections.new ≡ length x.desks) × (places.new ≡ x.node.ring.state.delivered)) }
{
    let Some(boxed) = handle.take(alloc) else {
        return CLOSED;
    };
    *connections = boxed.connections();
    *places = boxed.delivered();
    *handle = ServedHandle::of(boxed);
    OK
}

/// Puts the numbers at the buffer's front, where they fit.
fn give(numbers: &[u16], buffer: &mut [u16])
    requires { length numbers.now ≤ length buffer.old }
    ensures { AreGiven numbers.now buffer.old buffer.new }
{
    buffer[..numbers.len()].copy_from_slice(numbers);
}

/// Begins the next ring by that list.
fn begin_next(served: &mut Served, settings: Settings, list: &AcceptList, buffer: &mut [u16]) -> u32
    requires { length served.old.desks ≤ length buffer.old }
    ensures { HasBegunNext settings list.now served.old result buffer.old buffer.new served.new }
{
    match served.renew(settings, list) {
        Ok(numbers) => {
            give(numbers.as_slice(), buffer);
            OK
        }
        Err(refusal) => refusal.number(),
    }
}

/// Begins the next ring by the list of the conf text.
fn renew_by_conf(
    alloc: Global,
    served: &mut Served,
    setup: &Setup,
    names: &[u8],
    conf: &[u8],
    fault: &mut Fault,
    buffer: &mut [u16],
) -> u32
    requires { length served.old.desks ≤ length buffer.old }
    ensures { HasRenewedByConf (settings_of setup.now) (known_of names.now) conf.now served.old result fault.new buffer.old buffer.new served.new }
{
    match list_of_conf(alloc, names, conf, fault) {
        Ok(list) => begin_next(served, setup.settings(), &list, buffer),
        Err(status) => status,
    }
}

/// Begins the next ring by the list of the conf text, where the buffer has room for the new numbers.
fn renew(
    alloc: Global,
    served: &mut Served,
    setup: &Setup,
    names: &[u8],
    conf: &[u8],
    fault: &mut Fault,
    buffer: &mut [u16],
) -> u32
    ensures { HasRenewed (settings_of setup.now) (known_of names.now) conf.now served.old result fault.new buffer.old buffer.new served.new }
{
    if buffer.len() < served.connections() {
        return SPACE;
    }
    renew_by_conf(alloc, served, setup, names, conf, fault, buffer)
}

/// Begins the next ring of a ring of one node, and hands over the new number of each connection.
#[unsafe(no_mangle)]
pub extern "C" fn cpgring_served_renew(
    alloc: Global,
    handle: &mut ServedHandle,
    setup: &Setup,
    names: &[u8],
    conf: &[u8],
    fault: &mut Fault,
    buffer: &mut [u16],
) -> u32
    ensures { AtHandle handle.old.slot.held result handle.new.slot.held (λ x new. HasRenewed (settings_of setup.now) (known_of names.now) conf.now x result fault.new buffer.old buffer.new new) }
{
    let Some(mut boxed) = handle.take(alloc) else {
        return CLOSED;
    };
    let status = renew(alloc, &mut boxed, setup, names, conf, fault, buffer);
    *handle = ServedHandle::of(boxed);
    status
}
