//! Frames that are heard, handed over, and delivered.

ghost use Rattle.std.specs.Prelude.{◌≡◌};
ghost use Rattle.std.specs.List.{slice_get};
ghost use Rattle.cpg_node.specs.Calls.{place_to_deliver};
ghost use Rattle.cpg_embed.specs.Frames.{IsFrameStatus, IsTimerStatus, IsTurnStatus, IsNextFrame, IsDelivered};
ghost use Rattle.cpg_c.specs.Handles.{AtHandle};

use crate::handles::Handle;
use cpg_embed::CLOSED;
use std::alloc::Global;

/// Hears a frame. What the node answers is to be handed over.
#[unsafe(no_mangle)]
pub extern "C" fn cpgring_frame(alloc: Global, handle: &mut Handle, bytes: &[u8]) -> u32
    ensures { AtHandle handle.old.slot.held result handle.new.slot.held (λ e new. IsFrameStatus e bytes.now result new) }
{
    handle.call(alloc, |endpoint| endpoint.frame(bytes))
}

/// The last token that the node sent is to be handed over again.
#[unsafe(no_mangle)]
pub extern "C" fn cpgring_timer(alloc: Global, handle: &mut Handle) -> u32
    ensures { AtHandle handle.old.slot.held result handle.new.slot.held (λ e new. IsTimerStatus e result new) }
{
    handle.call(alloc, |endpoint| endpoint.timer())
}

/// The node hears the last token that it sent, and what it answers is handed over to nobody.
#[unsafe(no_mangle)]
pub extern "C" fn cpgring_turn(alloc: Global, handle: &mut Handle) -> u32
    ensures { AtHandle handle.old.slot.held result handle.new.slot.held (λ e new. IsTurnStatus e result new) }
{
    handle.call(alloc, |endpoint| endpoint.turn())
}

/// Hands the next frame over, with its length and to whom it goes.
#[unsafe(no_mangle)]
pub extern "C" fn cpgring_next(
    alloc: Global,
    handle: &mut Handle,
    buffer: &mut [u8],
    len: &mut usize,
    route: &mut u32,
) -> u32
    ensures { AtHandle handle.old.slot.held result handle.new.slot.held (λ e new. IsNextFrame e (slice_get e.made e.given) buffer.old result buffer.new len.new route.new new) }
{
    let Some(mut boxed) = handle.take(alloc) else {
        return CLOSED;
    };
    let status = boxed.next(buffer, len, route);
    *handle = Handle::of(boxed);
    status
}

/// Judges the next place and takes it as delivered, if it is there.
#[unsafe(no_mangle)]
pub extern "C" fn cpgring_deliver(alloc: Global, handle: &mut Handle, place: &mut u32) -> u32
    ensures { AtHandle handle.old.slot.held result handle.new.slot.held (λ e new. IsDelivered e (place_to_deliver e.node) result place.new new) }
{
    let Some(mut boxed) = handle.take(alloc) else {
        return CLOSED;
    };
    let status = boxed.deliver(place);
    *handle = Handle::of(boxed);
    status
}
