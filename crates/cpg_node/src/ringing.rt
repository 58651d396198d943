//! What the node's part of the ring does: entries wait, frames are heard, and what goes out is spelled.

ghost use Rattle.std.specs.Prelude.{◌≡◌, ◌≤◌, length, ◌++◌, ◌∷◌, [], All, map, Option, None, Some, IfOk, OnErr, OnOk, IsOkUnless, option_map};
ghost use Rattle.cpg_entry.specs.declared.frames.Frame.TheVariants as frames;
ghost use Rattle.cpg_entry.specs.Ranges.{IsPacket, IsToken};
ghost use Rattle.cpg_wire.specs.declared.codes.Version.TheVariants.{Two};
ghost use Rattle.cpg_wire.specs.Spelling.{SpellsIn};
ghost use Rattle.cpg_ring.specs.Moves.{after_entry, after_data};
ghost use Rattle.cpg_ring.specs.Answers.{IsAnswer};
ghost use Rattle.cpg_ring.specs.Rings.{refusal_of, data_refusal_of, full_refusal, with_state, visit_of, visited};
ghost use Rattle.cpg_node.specs.Answers.{spelled, CanBeSpelled};
ghost use Rattle.cpg_node.specs.Kept.{IsSound, IsKeptBy};

use bytes::{Bytes, BytesMut};
use cpg_cred::Refusal;
use cpg_entry::{Packet, Token};
use cpg_ring::{Ring, Visit};
use cpg_wire::{data_room, encode_data, encode_data_in, encode_token_in, token_room};
use std::alloc::Global;

/// Up to this many bytes a frame shares the piece of memory of its visit. A longer one has its own, as the shared piece is
/// filled with zeros first.
const SHARED_ROOM: usize = 1024;

/// How many bytes the frames of a visit that share a piece take at most.
fn room_for(visit: &Visit) -> usize
    requires packets { All IsPacket visit.now.packets }
    requires token { IsToken visit.now.token }
{
    let mut room = token_room(&visit.token);
    for packet in visit.packets.as_slice() {
        let more = data_room(packet);
        if more <= SHARED_ROOM {
            room = room.saturating_add(more);
        }
    }
    room
}

/// The spelling of the packet: of a short one in the room, which it shares, else in memory of its own.
fn spell_packet(alloc: Global, room: &mut BytesMut, packet: &Packet) -> Result<Bytes, Refusal>
    requires empty { room.old.items ≡ [] }
    requires packet { IsPacket packet.now }
    ensures ok { IfOk result (λ bytes. SpellsIn Two bytes (frames.Packet packet.now)) }
    ensures empty { OnOk result (room.new.items ≡ []) }
    ensures memory { IsOkUnless result Refusal.Memory }
{
    if data_room(packet) <= SHARED_ROOM {
        encode_data_in(room, packet)
    } else {
        encode_data(alloc, packet)
    }
}

/// The spellings of the packets, in a list with room for the token's.
fn spell_packets(
    alloc: Global,
    room: &mut BytesMut,
    packets: &[Packet],
) -> Result<Vec<Bytes>, Refusal>
    requires empty { room.old.items ≡ [] }
    requires packets { All IsPacket packets.now }
    ensures ok { IfOk result (λ list. list.items ≡ spelled (map frames.Packet packets.now)) }
    ensures empty { OnOk result (room.new.items ≡ []) }
    ensures range { OnOk result (All CanBeSpelled (map frames.Packet packets.now)) }
    ensures memory { IsOkUnless result Refusal.Memory }
{
    let mut list = Vec::with_capacity(alloc, packets.len().saturating_add(1))?;
    for packet in packets {
        list.push(spell_packet(alloc, room, packet)?)?;
    }
    Ok(list)
}

/// The spellings of a visit's packets, then of its token: short ones in one piece of memory.
fn spell_visit(alloc: Global, visit: &Visit) -> Result<Vec<Bytes>, Refusal>
    requires packets { All IsPacket visit.now.packets }
    requires token { IsToken visit.now.token }
    ensures ok { IfOk result (λ list. list.items ≡ spelled (map frames.Packet visit.now.packets ++ frames.Token visit.now.token ∷ [])) }
    ensures range { OnOk result (All CanBeSpelled (map frames.Packet visit.now.packets ++ frames.Token visit.now.token ∷ [])) }
    ensures memory { IsOkUnless result Refusal.Memory }
{
    let mut room = BytesMut::with_capacity(alloc, room_for(visit))?;
    let mut list = spell_packets(alloc, &mut room, visit.packets.as_slice())?;
    list.push(encode_token_in(&mut room, &visit.token)?)?;
    Ok(list)
}

/// Holds the packet, or gives the first refusal that fits.
pub(crate) fn hear_packet(ring: &mut Ring, packet: Packet) -> Result<(), Refusal>
    requires sound { IsSound ring.old }
    requires packet { IsPacket packet }
    ensures answer { IsAnswer (data_refusal_of ring.old packet) (λ _. ring.new ≡ with_state ring.old (after_data ring.old.state packet)) result }
    ensures err { OnErr result (ring.new ≡ ring.old) }
    ensures kept { IsKeptBy ring.old ring.new }
{
    ring.on_data(packet)
        .map_err(|refused| refused.into_refusal())
}

/// Accepts the token and gives what is to be sent, or the first refusal that fits; after a refusal the ring
/// is as it was.
pub(crate) fn hear_token(
    alloc: Global,
    ring: &mut Ring,
    token: &Token,
) -> Result<Vec<Bytes>, Refusal>
    requires sound { IsSound ring.old }
    requires token { IsToken token.now }
    ensures answer { IsAnswer (refusal_of ring.old token.now) (λ list. list.items ≡ spelled (map frames.Packet (visit_of ring.old token.now).packets ++ frames.Token (visit_of ring.old token.now).token ∷ [])) result }
    ensures ok { OnOk result (ring.new ≡ visited ring.old token.now) }
    ensures err { OnErr result (ring.new ≡ ring.old) }
    ensures few { IfOk result (λ list. length list.items ≤ 41) }
    ensures kept { IsKeptBy ring.old ring.new }
    ensures range { OnOk result (All CanBeSpelled (map frames.Packet (visit_of ring.old token.now).packets ++ frames.Token (visit_of ring.old token.now).token ∷ [])) }
{
    let visit = ring.visit(token)?;
    let list = spell_visit(alloc, &visit)?;
    ring.accept(token, visit.token)?;
    Ok(list)
}

/// Accepts the token, or gives the first refusal that fits; after a refusal the ring is as it was. Nothing is spelled of
/// what is to be sent.
pub(crate) fn pass_token(ring: &mut Ring, token: &Token) -> Result<(), Refusal>
    requires sound { IsSound ring.old }
    requires token { IsToken token.now }
    ensures answer { IsAnswer (refusal_of ring.old token.now) (λ _. ring.new ≡ visited ring.old token.now) result }
    ensures err { OnErr result (ring.new ≡ ring.old) }
    ensures kept { IsKeptBy ring.old ring.new }
{
    let Visit { token: next, .. } = ring.visit(token)?;
    ring.accept(token, next)?;
    Ok(())
}
