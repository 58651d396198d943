//! Packets as they stand in a frame, after its head.
//!
//! Proved: what is read is the definition `packet_at`, and a copy is the packet that the view shows.

ghost use Rattle.std.specs.Prelude.{◌≡◌, IfOk, IsOkUnless, option_map};
ghost use Rattle.cpg_wire.specs.Reading.{Reads, sender_at, cred_at, packet_at};
ghost use Rattle.cpg_wire.specs.Views.{op_seen, packet_seen, EndsWith};

use crate::codes::Version;
use crate::fields::read_node;
use crate::input::Input;
use crate::ops::OpView;
use bytes::Bytes;
use cpg_entry::{Cred, Entry, MOST_CONNECTIONS, MOST_PLACES, NodeId, Op, Packet, Refusal};
use std::alloc::Global;

/// A packet whose name or message stands in the frame.
#[derive(Clone, Copy)]
pub struct PacketView<'a> {
    pub ring: u32,
    pub place: u32,
    pub node: NodeId,
    pub conn: u16,
    pub pid: u32,
    pub cred: Cred,
    pub op: OpView<'a>,
}

impl<'a> PacketView<'a> {
    #[tactic(auto, unfolding(crate::specs::Reading::packet_at))]
    pub fn read(input: &mut Input<'a>, version: Version, ring: u32) -> Option<PacketView<'a>>
        ensures { Reads (option_map packet_seen result) input.new (packet_at version ring input.old) }
    {
        let place = input.u32_within(1, MOST_PLACES)?;
        let (node, conn, pid) = read_sender(input)?;
        let cred = read_cred(input)?;
        let Some(op) = OpView::read(input, version) else {
            return None;
        };
        Some(PacketView {
            ring,
            place,
            node,
            conn,
            pid,
            cred,
            op,
        })
    }

    /// The packet, with a name or message of its own.
    pub fn copy(&self, alloc: Global) -> Result<Packet, Refusal>
        ensures ok { IfOk result (λ packet. packet ≡ packet_seen self.now) }
        ensures memory { IsOkUnless result Refusal.Memory }
    {
        let op = self.op.copy(alloc)?;
        Ok(self.with_op(op))
    }

    /// The packet; a long message is shared with the frame, which it ends.
    pub fn share(&self, alloc: Global, frame: &Bytes) -> Result<Packet, Refusal>
        requires { EndsWith (op_seen (self.now).op) frame.now }
        ensures ok { IfOk result (λ packet. packet ≡ packet_seen self.now) }
        ensures memory { IsOkUnless result Refusal.Memory }
    {
        let op = self.op.share(alloc, frame)?;
        Ok(self.with_op(op))
    }

    /// The packet with that op.
    fn with_op(&self, op: Op) -> Packet
        requires { op ≡ op_seen (self.now).op }
        ensures { result ≡ packet_seen self.now }
    {
        Packet {
            ring: self.ring,
            place: self.place,
            entry: Entry {
                node: self.node,
                conn: self.conn,
                pid: self.pid,
                cred: self.cred,
                op,
            },
        }
    }
}

#[tactic(auto, unfolding(crate::specs::Reading::sender_at))]
fn read_sender(input: &mut Input<'_>) -> Option<(NodeId, u16, u32)>
    ensures { Reads result input.new (sender_at input.old) }
{
    let node = read_node(input)?;
    let conn = input.u16_within(1, MOST_CONNECTIONS)?;
    let pid = input.u32()?;
    Some((node, conn, pid))
}

#[tactic(auto, unfolding(crate::specs::Reading::cred_at))]
fn read_cred(input: &mut Input<'_>) -> Option<Cred>
    ensures { Reads result input.new (cred_at input.old) }
{
    let uid = input.u32()?;
    let gid = input.u32()?;
    Some(Cred { uid, gid })
}
