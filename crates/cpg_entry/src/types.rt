//! What the types of fields say of their numbers. Each function has nothing to do: its contract tells a
//! proof what it does not see of a value behind a reference.

ghost use Rattle.std.specs.Prelude.{◌≡◌, ◌≤◌, IfSome};
ghost use Rattle.cpg_cred.specs.declared.nodes.TheConstants.{MOST_NODES};
ghost use Rattle.cpg_entry.specs.Ranges.{Within};
ghost use Rattle.cpg_entry.specs.Widths.{IsU32, IsNode, WhoFits, CallFits, OpFits, EntryFits, PacketFits, TokenFits};

use crate::calls::{Call, Op};
use crate::entries::Entry;
use crate::frames::{Packet, Token};
use cpg_rules::{NodeId, Who};

fn u32_fits(_number: u32)
    ensures { IsU32 _number }
{}

fn u8_fits(_number: u8)
    ensures { Within 0 255 _number }
{}

fn node_fits(node: NodeId)
    ensures { IsNode node }
{
    let _number = node.get();
}

fn number_fits(number: Option<u32>)
    ensures { IfSome number IsU32 }
{
    if let Some(number) = number {
        u32_fits(number);
    }
}

fn owner_fits(node: Option<NodeId>)
    ensures { IfSome node IsNode }
{
    if let Some(node) = node {
        node_fits(node);
    }
}

fn who_fits(who: Who)
    ensures { WhoFits who }
{
    number_fits(who.uid);
    number_fits(who.gid);
    owner_fits(who.node);
}

/// The numbers of a call fit their types.
pub fn call_fits(call: &Call)
    ensures { CallFits call.now }
{
    match call {
        Call::Insert(_, position, rule) => {
            u8_fits(*position);
            who_fits(rule.get().who);
        }
        Call::Remove(_, id) => u32_fits(*id),
        Call::Join(_) => {}
        Call::Leave => {}
        Call::Send(_) => {}
    }
}

fn op_fits(op: &Op)
    ensures { OpFits op.now }
{
    match op {
        Op::Act(call) => call_fits(call),
        Op::Gone => {}
    }
}

/// The numbers of an entry fit their types.
pub fn entry_fits(entry: &Entry)
    ensures { EntryFits entry.now }
{
    node_fits(entry.node);
    let _conn = entry.conn;
    u32_fits(entry.pid);
    u32_fits(entry.cred.uid);
    u32_fits(entry.cred.gid);
    op_fits(&entry.op);
}

/// The numbers of a packet fit their types.
pub fn packet_fits(packet: &Packet)
    ensures { PacketFits packet.now }
{
    u32_fits(packet.ring);
    entry_fits(&packet.entry);
}

/// The numbers of a token fit their types.
pub fn token_fits(token: &Token)
    ensures { TokenFits token.now }
{
    u32_fits(token.ring);
    owner_fits(token.aru_id);
}
