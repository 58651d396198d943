//! `cpg_ring`: a node's ring.

ghost use Rattle.std.specs.Prelude.{IsSome};
ghost use Rattle.cpg_entry.specs.Ranges.{IsPacket, IsToken};
ghost use Rattle.cpg_ring.specs.Moves.{next_entry};

use cpg_cred::{NodeId, Refusal, Refused};
use cpg_ring::{Packets, Ring, Settings, Visit};
use cpg_wire::{Entry, Packet, Token};
use std::alloc::Global;

pub fn settings(ring: u32, nodes: u8, places: u32, hops: u64) -> Settings {
    Settings {
        ring,
        nodes,
        places,
        hops,
    }
}

pub fn new_ring(alloc: Global, settings: Settings, node: NodeId) -> Result<Ring, Refusal> {
    Ring::new(alloc, settings, node)
}

pub fn on_token(ring: &mut Ring, token: &Token) -> Result<Visit, Refusal>
    requires { IsToken token.now }
{
    ring.on_token(token)
}

pub fn visit(ring: &Ring, token: &Token) -> Result<Visit, Refusal>
    requires { IsToken token.now }
{
    ring.visit(token)
}

/// What a visit sends.
pub fn sent(visit: &Visit) -> (&[Packet], &Token) {
    let Visit { packets, token } = visit;
    (listed(packets), token)
}

fn listed(packets: &Packets) -> &[Packet] {
    packets.as_slice()
}

pub fn on_data(ring: &mut Ring, packet: Packet) -> Result<(), Refused<Packet>>
    requires { IsPacket packet }
{
    ring.on_data(packet)
}

pub fn enqueue(ring: &mut Ring, entry: Entry) -> Result<(), Refused<Entry>> {
    ring.enqueue(entry)
}

pub fn enqueue_end(ring: &mut Ring, entry: Entry) -> Result<(), Refused<Entry>> {
    ring.enqueue_end(entry)
}

pub fn advance(ring: &mut Ring)
    requires { IsSome (next_entry ring.old.state) }
{
    ring.advance();
}

/// The entry at the next place, and the last token sent.
pub fn held(ring: &Ring) -> (Option<&Entry>, Option<&Token>) {
    (ring.next_place(), ring.resend())
}

/// How many places are delivered, how many entries wait, and the safe mark.
pub fn counted(ring: &Ring) -> (u32, usize, u32) {
    (ring.delivered(), ring.waiting(), ring.safe())
}
