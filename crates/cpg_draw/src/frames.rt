//! The frames that a world has sent, as arrows.
//!
//! Proved: which arrows there are after an event is the definition of `specs/Rows.antt`.

ghost use Rattle.std.specs.Prelude.{◌≡◌, ◌<◌, ◌≤◌, ◌+◌, ◌++◌, ◌∷◌, [], drop, length, slice_get, Some, IsSome, OnOk, IfOk, IsOkUnless};
ghost use Rattle.cpg_wire.specs.Reading.{frame_of};
ghost use Rattle.cpg_ring.specs.Worlds.{item};
ghost use Rattle.cpg_draw.specs.Arrows.{arrows_of, arrow_list, made_at, seq_brought};

use crate::arrows::{Arrow, make_arrow, seq_in};
use crate::excerpts::Spot;
use cpg_cred::Refusal;
use cpg_entry::Frame;
use cpg_wire::decode;
use cpg_world::World;
use std::alloc::Global;

/// The frame that the bytes spell.
fn read_spelled(alloc: Global, bytes: &[u8]) -> Result<Frame, Refusal>
    requires { IsSome (frame_of bytes.now) }
    ensures ok { IfOk result (λ frame. frame_of bytes.now ≡ Some frame) }
    ensures memory { IsOkUnless result Refusal.Memory }
{
    decode(alloc, bytes)
}

/// The frame of that number, from 1, if so many were sent. `Memory` is the only error.
pub fn frame_at(alloc: Global, world: &World, number: usize) -> Result<Option<Frame>, Refusal>
    ensures ok { IfOk result (λ found. found ≡ item world.now.sent number) }
    ensures memory { IsOkUnless result Refusal.Memory }
{
    match world.sent_frame(number) {
        None => Ok(None),
        Some(bytes) => Ok(Some(read_spelled(alloc, bytes)?)),
    }
}

/// The seq of the frame of that number, where it is a token.
pub(crate) fn seq_at(alloc: Global, world: &World, number: usize) -> Result<u32, Refusal>
    ensures ok { IfOk result (λ seq. seq ≡ seq_brought (item world.now.sent number)) }
    ensures memory { IsOkUnless result Refusal.Memory }
{
    match frame_at(alloc, world, number)? {
        None => Ok(0),
        Some(frame) => Ok(seq_in(&frame)),
    }
}

/// The arrow of the frame of that number, if so many were sent, by a row and a node where a token of a seq was
/// brought.
fn arrow_for(
    alloc: Global,
    world: &World,
    from: (Spot, u8, u32),
    number: usize,
) -> Result<Option<Arrow>, Refusal>
    ensures ok { IfOk result (λ found. found ≡ made_at number from.0 from.1 from.2 (item world.now.sent number)) }
    ensures memory { IsOkUnless result Refusal.Memory }
{
    let (sent, node, seq) = from;
    match frame_at(alloc, world, number)? {
        None => Ok(None),
        Some(frame) => Ok(Some(make_arrow(number as u64, sent, node, seq, &frame))),
    }
}

/// Puts the arrow after the others, if there is one.
fn push_found(arrows: &mut Vec<Arrow>, found: Option<Arrow>) -> Result<(), Refusal>
    ensures ok { OnOk result (arrows.new.items ≡ arrows.old.items ++ arrow_list found) }
    ensures memory { IsOkUnless result Refusal.Memory }
{
    if let Some(arrow) = found {
        arrows.push(arrow)?;
    }
    Ok(())
}

/// Puts the arrow of the frame of that number after the others.
fn push_arrow(
    alloc: Global,
    arrows: &mut Vec<Arrow>,
    world: &World,
    from: (Spot, u8, u32),
    number: usize,
) -> Result<(), Refusal>
    ensures ok { OnOk result (arrows.new.items ≡ arrows.old.items ++ arrow_list (made_at number from.0 from.1 from.2 (item world.now.sent number))) }
    ensures memory { IsOkUnless result Refusal.Memory }
{
    let found = arrow_for(alloc, world, from, number)?;
    push_found(arrows, found)
}

/// Puts the arrows of the frames after so many after the others, sent by a row and a node where a token of a
/// seq was brought. `Memory` is the only error.
#[tactic(auto, using(crate::proofs::Sent::sent_all))]
pub fn push_arrows(
    alloc: Global,
    arrows: &mut Vec<Arrow>,
    world: &World,
    from: (Spot, u8, u32),
    before: usize,
) -> Result<(), Refusal>
    ensures ok { OnOk result (arrows.new.items ≡ arrows.old.items ++ arrows_of (before + 1) from.0 from.1 from.2 (drop before world.now.sent)) }
    ensures memory { IsOkUnless result Refusal.Memory }
{
    for index in before..world.sent() {
        push_arrow(alloc, arrows, world, from, index + 1)?;
    }
    Ok(())
}
