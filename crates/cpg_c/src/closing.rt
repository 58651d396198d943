//! Closing, at once or piece by piece.

ghost use Rattle.std.specs.Prelude.{◌≡◌};
ghost use Rattle.cpg_embed.specs.Closing.{places_left, after_shedding};
ghost use Rattle.cpg_embed.specs.declared.statuses.TheConstants.{OK};
ghost use Rattle.cpg_c.specs.Handles.{AtHandle, IsEmptied, IsClosedInto};

use crate::handles::Handle;
use cpg_embed::{CLOSED, OK};
use std::alloc::Global;

/// Closes a handle.
#[unsafe(no_mangle)]
pub extern "C" fn cpgring_close(alloc: Global, handle: &mut Handle) -> u32
    ensures { IsEmptied handle.old.slot.held result handle.new.slot.held }
{
    let Some(boxed) = handle.take(alloc) else {
        return CLOSED;
    };
    drop(boxed);
    OK
}

/// Closes a handle, and leaves its memory to be freed piece by piece to another one, which is open.
#[unsafe(no_mangle)]
pub extern "C" fn cpgring_close_into(alloc: Global, handle: &mut Handle, keeper: &mut Handle) -> u32
    ensures { IsClosedInto handle.old.slot.held keeper.old.slot.held result handle.new.slot.held keeper.new.slot.held }
{
    let Some(ended) = handle.take(alloc) else {
        return CLOSED;
    };
    let Some(mut boxed) = keeper.take(alloc) else {
        *handle = Handle::of(ended);
        return CLOSED;
    };
    boxed.keep_remains(Box::into_inner(ended));
    *keeper = Handle::of(boxed);
    OK
}

/// Frees some of what is left of a handle that was closed into this one.
#[unsafe(no_mangle)]
pub extern "C" fn cpgring_shed(
    alloc: Global,
    handle: &mut Handle,
    most: usize,
    left: &mut usize,
) -> u32
    ensures { AtHandle handle.old.slot.held result handle.new.slot.held (λ e new. (result ≡ OK) × (new ≡ after_shedding e most) × (left.new ≡ places_left new.remains)) }
{
    let Some(mut boxed) = handle.take(alloc) else {
        return CLOSED;
    };
    *left = boxed.shed(most);
    *handle = Handle::of(boxed);
    OK
}
