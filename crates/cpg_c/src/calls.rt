//! The calls of connections.

ghost use Rattle.std.specs.Prelude.{◌≡◌};
ghost use Rattle.cpg_entry.specs.declared.calls.Call.TheVariants as calls;
ghost use Rattle.cpg_embed.specs.Calls.{IsConnected, IsSubmitted, IsCopied, IsInserted, IsDisconnected};
ghost use Rattle.cpg_embed.specs.Rules.{rule_of};
ghost use Rattle.cpg_c.specs.Handles.{AtHandle};

use crate::handles::Handle;
use cpg_cred::Cred;
use cpg_embed::{CLOSED, RuleLine};
use std::alloc::Global;

/// Takes a connection in, and tells its number.
#[unsafe(no_mangle)]
pub extern "C" fn cpgring_connect(
    alloc: Global,
    handle: &mut Handle,
    pid: u32,
    uid: u32,
    gid: u32,
    conn: &mut u16,
) -> u32
    ensures { AtHandle handle.old.slot.held result handle.new.slot.held (λ e new. IsConnected e pid (record { uid = uid; gid = gid }) result conn.new new) }
{
    let Some(mut boxed) = handle.take(alloc) else {
        return CLOSED;
    };
    let status = boxed.connect(pid, Cred { uid, gid }, conn);
    *handle = Handle::of(boxed);
    status
}

/// Asks to become a member of the group.
#[unsafe(no_mangle)]
pub extern "C" fn cpgring_join(alloc: Global, handle: &mut Handle, conn: u16, group: &[u8]) -> u32
    ensures { AtHandle handle.old.slot.held result handle.new.slot.held (λ e new. IsCopied e conn (calls.Join group.now) result new) }
{
    handle.call(alloc, |endpoint| endpoint.join(conn, group))
}

/// Asks to leave the connection's group.
#[unsafe(no_mangle)]
pub extern "C" fn cpgring_leave(alloc: Global, handle: &mut Handle, conn: u16) -> u32
    ensures { AtHandle handle.old.slot.held result handle.new.slot.held (λ e new. IsSubmitted e conn calls.Leave result new) }
{
    handle.call(alloc, |endpoint| endpoint.leave(conn))
}

/// Asks to send a message to the connection's group.
#[unsafe(no_mangle)]
pub extern "C" fn cpgring_send(alloc: Global, handle: &mut Handle, conn: u16, message: &[u8]) -> u32
    ensures { AtHandle handle.old.slot.held result handle.new.slot.held (λ e new. IsCopied e conn (calls.Send message.now) result new) }
{
    handle.call(alloc, |endpoint| endpoint.send(conn, message))
}

/// Asks to put a rule into a group's table, at that index.
#[unsafe(no_mangle)]
pub extern "C" fn cpgring_insert(
    alloc: Global,
    handle: &mut Handle,
    conn: u16,
    group: &[u8],
    index: u8,
    line: &RuleLine,
) -> u32
    ensures { AtHandle handle.old.slot.held result handle.new.slot.held (λ e new. IsInserted e conn group.now index (rule_of line.now) result new) }
{
    handle.call(alloc, |endpoint| endpoint.insert(conn, group, index, line))
}

/// Asks to take the rule of that id out of a group's table.
#[unsafe(no_mangle)]
pub extern "C" fn cpgring_remove(
    alloc: Global,
    handle: &mut Handle,
    conn: u16,
    group: &[u8],
    id: u32,
) -> u32
    ensures { AtHandle handle.old.slot.held result handle.new.slot.held (λ e new. IsCopied e conn (calls.Remove group.now id) result new) }
{
    handle.call(alloc, |endpoint| endpoint.remove(conn, group, id))
}

/// Ends a connection.
#[unsafe(no_mangle)]
pub extern "C" fn cpgring_disconnect(alloc: Global, handle: &mut Handle, conn: u16) -> u32
    ensures { AtHandle handle.old.slot.held result handle.new.slot.held (λ e new. IsDisconnected e conn result new) }
{
    handle.call(alloc, |endpoint| endpoint.disconnect(conn))
}
