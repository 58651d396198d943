//! The room for an endpoint in memory of C's own: a pointer that C never follows, or null.

ghost use Rattle.std.specs.Prelude.{◌≡◌, Option, Some, None, IsSome};
ghost use Rattle.cpg_embed.specs.Endpoints.{EndpointValue};
ghost use Rattle.cpg_c.specs.Owning.{slot_owns, held_code};

use crate::parts::Parts;
use cpg_embed::Endpoint;
use std::alloc::Global;
use std::marker::Model;
use std::ptr::null_mut;

/// Room for an endpoint. Contracts see the endpoint in it, if there is one.
#[repr(C)]
#[derive(Drop)]
pub struct Slot {
    at: *mut u8,
    alloc: Global,
    pub ghost held: { Option EndpointValue } by { held_code },
}

impl Model for Slot {
    ghost also_owns = { λ s. slot_owns s.alloc s.at s.held };
}

impl Slot {
    /// Room with nothing in it.
    pub(crate) fn empty(alloc: Global) -> Slot
        ensures { result.held ≡ None }
    {
        Slot {
            at: null_mut(),
            alloc,
        }
    }

    /// Room for what the parts own.
    fn of_parts(parts: Parts<Endpoint, Global>) -> Slot
        ensures { result.held ≡ Some parts.value }
    {
        let Parts { pointer, alloc } = parts;
        Slot {
            at: pointer as *mut u8,
            alloc,
        }
    }

    /// The parts of the box that is held.
    fn into_parts(self) -> Parts<Endpoint, Global>
        requires { IsSome self.held }
        ensures { self.held ≡ Some result.value }
    {
        let Slot { at, alloc } = self;
        Parts {
            pointer: at as *mut Endpoint,
            alloc,
        }
    }

    /// Room that holds the endpoint.
    pub(crate) fn of(boxed: Box<Endpoint>) -> Slot
        ensures { result.held ≡ Some boxed.value }
    {
        Slot::of_parts(Parts::of(boxed))
    }

    /// The endpoint that is held.
    pub(crate) fn into_box(self) -> Box<Endpoint>
        requires { IsSome self.held }
        ensures { self.held ≡ Some result.value }
    {
        self.into_parts().into_box()
    }
}
