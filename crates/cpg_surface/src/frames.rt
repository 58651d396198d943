//! `cpg_wire`: calls, entries, and frames with their bytes.

ghost use Rattle.cpg_entry.specs.Ranges.{IsPacket, IsToken};

use bytes::Bytes;
use cpg_wire::{
    Call, Cred, Entry, Frame, Message, Name, NodeId, Op, Packet, Places, Refusal, Rule, Token,
    accepts_name, decode, encode_data, encode_token,
};
use std::alloc::Global;

pub fn new_name(alloc: Global, bytes: &[u8]) -> Result<Name, Refusal> {
    Name::from_slice(alloc, bytes)
}

pub fn copy_name(name: &Name, alloc: Global) -> Result<Name, Refusal> {
    name.copy(alloc)
}

pub fn name_bytes(name: &Name) -> &[u8] {
    name.as_slice()
}

pub fn is_name(bytes: &[u8]) -> bool {
    accepts_name(bytes)
}

pub fn new_message(alloc: Global, bytes: &[u8]) -> Result<Message, Refusal> {
    Message::from_slice(alloc, bytes)
}

pub fn copy_message(message: &Message, alloc: Global) -> Result<Message, Refusal> {
    message.copy(alloc)
}

pub fn message_bytes(message: &Message) -> &[u8] {
    message.as_slice()
}

pub fn copy_call(call: &Call, alloc: Global) -> Result<Call, Refusal> {
    call.copy(alloc)
}

/// What an op carries, of all there are: the group that it names, a message, a rule with its position, a rule's id.
pub fn carried(
    op: &Op,
) -> (
    Option<&Name>,
    Option<&Message>,
    Option<(u8, &Rule)>,
    Option<u32>,
) {
    match op {
        Op::Act(Call::Join(group)) => (Some(group), None, None, None),
        Op::Act(Call::Send(message)) => (None, Some(message), None, None),
        Op::Act(Call::Insert(group, position, rule)) => {
            (Some(group), None, Some((*position, rule.get())), None)
        }
        Op::Act(Call::Remove(group, id)) => (Some(group), None, None, Some(*id)),
        Op::Act(Call::Leave) | Op::Gone => (None, None, None, None),
    }
}

pub fn entry(node: NodeId, conn: u16, pid: u32, cred: Cred, op: Op) -> Entry {
    Entry {
        node,
        conn,
        pid,
        cred,
        op,
    }
}

pub fn copy_entry(entry: &Entry, alloc: Global) -> Result<Entry, Refusal> {
    entry.copy(alloc)
}

pub fn packet(ring: u32, place: u32, entry: Entry) -> Packet {
    Packet { ring, place, entry }
}

pub fn copy_packet(packet: &Packet, alloc: Global) -> Result<Packet, Refusal> {
    packet.copy(alloc)
}

pub fn new_places(alloc: Global, places: &[u32]) -> Result<Places, Refusal> {
    Places::from_slice(alloc, places)
}

pub fn copy_places(places: &Places, alloc: Global) -> Result<Places, Refusal> {
    places.copy(alloc)
}

pub fn listed(places: &Places) -> &[u32] {
    places.as_slice()
}

pub fn token(
    ring: u32,
    hop: u64,
    seq: u32,
    aru: u32,
    aru_id: Option<NodeId>,
    rtr: Places,
) -> Token {
    Token {
        ring,
        hop,
        seq,
        aru,
        aru_id,
        rtr,
    }
}

pub fn copy_token(token: &Token, alloc: Global) -> Result<Token, Refusal> {
    token.copy(alloc)
}

pub fn ring_of(frame: &Frame) -> u32 {
    match frame {
        Frame::Packet(packet) => packet.ring,
        Frame::Token(token) => token.ring,
    }
}

pub fn spell_packet(alloc: Global, packet: &Packet) -> Result<Bytes, Refusal>
    requires { IsPacket packet.now }
{
    encode_data(alloc, packet)
}

pub fn spell_token(alloc: Global, token: &Token) -> Result<Bytes, Refusal>
    requires { IsToken token.now }
{
    encode_token(alloc, token)
}

pub fn read(alloc: Global, bytes: &[u8]) -> Result<Frame, Refusal> {
    decode(alloc, bytes)
}
