//! Opening.

ghost use Rattle.std.specs.Prelude.{◌≡◌, None};
ghost use Rattle.cpg_conf.specs.Names.{known_of};
ghost use Rattle.cpg_embed.specs.Opening.{listing_of};
ghost use Rattle.cpg_c.specs.Handles.{IsKept, IsOpenedAt, IsConfOpenedAt};

use crate::handles::Handle;
use cpg_cred::Refusal;
use cpg_embed::{BUSY, Endpoint, Fault, OK, Setup, open, open_conf};
use std::alloc::Global;

/// Keeps an endpoint that was opened in the handle, which is not open, and tells the status.
fn keep(alloc: Global, handle: &mut Handle, opened: Result<Endpoint, u32>) -> u32
    requires { handle.old.slot.held ≡ None }
    ensures { IsKept opened result handle.new.slot.held }
{
    match opened {
        Ok(endpoint) => match Box::new(alloc, endpoint) {
            Ok(boxed) => {
                *handle = Handle::of(boxed);
                OK
            }
            Err(_) => Refusal::Memory.number(),
        },
        Err(status) => status,
    }
}

/// Opens a node of that setup, which lets in those users and groups.
#[unsafe(no_mangle)]
pub extern "C" fn cpgring_open(
    alloc: Global,
    handle: &mut Handle,
    setup: &Setup,
    users: &[u32],
    groups: &[u32],
) -> u32
    ensures { IsOpenedAt setup.now (listing_of users.now groups.now) handle.old.slot.held result handle.new.slot.held }
{
    if handle.is_open() {
        return BUSY;
    }
    keep(alloc, handle, open(alloc, setup, users, groups))
}

/// Opens a node of that setup, which lets in whom the conf text lists, its names by the names text.
#[unsafe(no_mangle)]
pub extern "C" fn cpgring_open_conf(
    alloc: Global,
    handle: &mut Handle,
    setup: &Setup,
    names: &[u8],
    conf: &[u8],
    fault: &mut Fault,
) -> u32
    ensures { IsConfOpenedAt setup.now (known_of names.now) conf.now handle.old.slot.held result handle.new.slot.held fault.new }
{
    if handle.is_open() {
        return BUSY;
    }
    keep(alloc, handle, open_conf(alloc, setup, names, conf, fault))
}
