//! The room for a node with its clients in memory of C's own, as that for an endpoint.

ghost use Rattle.std.specs.Prelude.{◌≡◌, Option, Some, None, IsSome};
ghost use Rattle.cpg_serve.specs.Serving.{ServedValue};
ghost use Rattle.cpg_c.specs.Owning.{served_owns, served_code};

use crate::parts::Parts;
use cpg_serve::Served;
use std::alloc::Global;
use std::marker::Model;
use std::ptr::null_mut;

/// Room for a node with its clients. Contracts see it, if there is one.
#[repr(C)]
#[derive(Drop)]
pub struct ServedSlot {
    at: *mut u8,
    alloc: Global,
    pub ghost held: { Option ServedValue } by { served_code },
}

impl Model for ServedSlot {
    ghost also_owns = { λ s. served_owns s.alloc s.at s.held };
}

impl ServedSlot {
    /// Room with nothing in it.
    pub(crate) fn empty(alloc: Global) -> ServedSlot
        ensures { result.held ≡ None }
    {
        ServedSlot {
            at: null_mut(),
            alloc,
        }
    }

    /// Room for what the parts own.
    fn of_parts(parts: Parts<Served, Global>) -> ServedSlot
        ensures { result.held ≡ Some parts.value }
    {
        let Parts { pointer, alloc } = parts;
        ServedSlot {
            at: pointer as *mut u8,
            alloc,
        }
    }

    /// The parts of the box that is held.
    fn into_parts(self) -> Parts<Served, Global>
        requires { IsSome self.held }
        ensures { self.held ≡ Some result.value }
    {
        let ServedSlot { at, alloc } = self;
        Parts {
            pointer: at as *mut Served,
            alloc,
        }
    }

    /// Room that holds the node.
    pub(crate) fn of(boxed: Box<Served>) -> ServedSlot
        ensures { result.held ≡ Some boxed.value }
    {
        ServedSlot::of_parts(Parts::of(boxed))
    }

    /// The node that is held.
    pub(crate) fn into_box(self) -> Box<Served>
        requires { IsSome self.held }
        ensures { self.held ≡ Some result.value }
    {
        self.into_parts().into_box()
    }
}
