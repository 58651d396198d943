//! What C keeps of a node with its clients.

ghost use Rattle.std.specs.Prelude.{◌≡◌, ◌↔◌, IsSome, IsTrue, Some, None, MatchOption};

use crate::served_slots::ServedSlot;
use cpg_serve::Served;
use std::alloc::Global;

/// What C keeps of a node with its clients: whether it is open, and where it is.
#[repr(C)]
#[derive(Drop)]
pub struct ServedHandle {
    live: bool,
    pub slot: ServedSlot,
    ghost agrees: { IsTrue live ↔ IsSome slot.held },
}

impl ServedHandle {
    /// A handle that is not open.
    pub(crate) fn closed(alloc: Global) -> ServedHandle
        ensures { result.slot.held ≡ None }
    {
        ServedHandle {
            live: false,
            slot: ServedSlot::empty(alloc),
        }
    }

    /// The open handle of a node.
    pub(crate) fn of(boxed: Box<Served>) -> ServedHandle
        ensures { result.slot.held ≡ Some boxed.value }
    {
        ServedHandle {
            live: true,
            slot: ServedSlot::of(boxed),
        }
    }

    /// Takes the node out, if the handle is open, which then is closed.
    pub(crate) fn take(&mut self, alloc: Global) -> Option<Box<Served>>
        ensures found { MatchOption result (self.old.slot.held ≡ None) (λ boxed. self.old.slot.held ≡ Some boxed.value) }
        ensures closed { self.new.slot.held ≡ None }
    {
        let found = std::mem::replace(self, ServedHandle::closed(alloc));
        if found.live {
            Some(found.slot.into_box())
        } else {
            None
        }
    }
}
