//! What C keeps of an endpoint.

ghost use Rattle.std.specs.Prelude.{◌≡◌, ◌↔◌, IsSome, IsTrue, Some, None, MatchOption};
ghost use Rattle.std.specs.Fn.{FnOnceReturnsAtMut};
ghost use Rattle.cpg_c.specs.Handles.{AtHandle};

use crate::slots::Slot;
use cpg_embed::{CLOSED, Endpoint};
use std::alloc::Global;

/// What C keeps of an endpoint: whether it is open, and where it is.
#[repr(C)]
#[derive(Drop)]
pub struct Handle {
    live: bool,
    pub slot: Slot,
    ghost agrees: { IsTrue live ↔ IsSome slot.held },
}

impl Handle {
    /// A handle that is not open.
    pub(crate) fn closed(alloc: Global) -> Handle
        ensures { result.slot.held ≡ None }
    {
        Handle {
            live: false,
            slot: Slot::empty(alloc),
        }
    }

    /// The open handle of an endpoint.
    pub(crate) fn of(boxed: Box<Endpoint>) -> Handle
        ensures { result.slot.held ≡ Some boxed.value }
    {
        Handle {
            live: true,
            slot: Slot::of(boxed),
        }
    }

    /// Whether it is open.
    pub(crate) fn is_open(&self) -> bool
        ensures { IsTrue result ↔ IsSome (self.now).slot.held }
    {
        self.live
    }

    /// Takes the endpoint out, if the handle is open, which then is closed.
    pub(crate) fn take(&mut self, alloc: Global) -> Option<Box<Endpoint>>
        ensures found { MatchOption result (self.old.slot.held ≡ None) (λ boxed. self.old.slot.held ≡ Some boxed.value) }
        ensures closed { self.new.slot.held ≡ None }
    {
        let found = std::mem::replace(self, Handle::closed(alloc));
        if found.live {
            Some(found.slot.into_box())
        } else {
            None
        }
    }

    /// Makes a call of the endpoint, if the handle is open.
    pub(crate) fn call<F: FnOnce(&mut Endpoint) -> u32>(&mut self, alloc: Global, call: F) -> u32
        requires { F.IsAlwaysCallable call }
        ensures { AtHandle self.old.slot.held result self.new.slot.held (λ e new. FnOnceReturnsAtMut F.FnOnce call e result new) }
    {
        let Some(mut boxed) = self.take(alloc) else {
            return CLOSED;
        };
        let status = call_of(&mut boxed, call);
        *self = Handle::of(boxed);
        status
    }
}

/// Makes a call of the endpoint.
fn call_of<F: FnOnce(&mut Endpoint) -> u32>(endpoint: &mut Endpoint, call: F) -> u32
    requires { F.IsAlwaysCallable call }
    ensures { FnOnceReturnsAtMut F.FnOnce call endpoint.old result endpoint.new }
{
    call(endpoint)
}
