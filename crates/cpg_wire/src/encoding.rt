//! Frames as bytes, in version 2.
//!
//! Each function puts one part at the end of the output. Proved: what is put is the definition of
//! `specs/Spelling.antt` that the function names.

ghost use Rattle.std.specs.Prelude.{◌≡◌, ◌≤◌, ◌++◌, ◌∷◌, [], length, OnOk, IfOk, IsOkUnless};
ghost use Rattle.cpg_entry.specs.declared.frames.Frame.TheVariants as frames;
ghost use Rattle.cpg_wire.specs.declared.codes.Version.TheVariants.{Two};
ghost use Rattle.byteorder.specs.Endian.{big_bytes};
ghost use Rattle.cpg_wire.specs.Codes.{version_code, kind_code};
ghost use Rattle.cpg_entry.specs.Ranges.{IsCall, IsOp, IsPacket, IsToken};
ghost use Rattle.cpg_wire.specs.Versions.{given, conditions};
ghost use Rattle.cpg_wire.specs.Spelling.{name_bytes, message_bytes, condition_bytes, who_bytes, rule_bytes, call_bytes, op_bytes, sender_bytes, cred_bytes, packet_bytes, owner_code, extent_bytes, places_bytes, wants_bytes, token_bytes, spelling, SpellsIn};

use crate::codes::{Kind, MARK, OpCode, Subject, Version, effect_byte, right_byte};
use bytes::{BufMut, Bytes, BytesMut};
use cpg_entry::{
    Call, Cred, Entry, MOST_MESSAGE_BYTES, MOST_NAME_BYTES, MOST_REQUESTS, NodeId, Op, Packet,
    Refusal, Rule, Token, Who, packet_fits, token_fits,
};
use std::alloc::{AllocError, Global};

/// How many bytes a data frame takes beside its name or message, at most.
const DATA_ROOM: usize = 47;

/// How many bytes a token's frame takes beside its places.
const TOKEN_ROOM: usize = 25;

/// How many bytes a packet's frame takes at most.
pub fn data_room(packet: &Packet) -> usize
    requires { IsPacket packet.now }
{
    DATA_ROOM + text_len(&packet.entry.op)
}

/// How many bytes a token's frame takes at most.
pub fn token_room(token: &Token) -> usize
    requires { IsToken token.now }
{
    TOKEN_ROOM + 4 * token.rtr.as_slice().len()
}

/// The spelling of version 2 of a packet that keeps the rules of a frame.
pub fn encode_data(alloc: Global, packet: &Packet) -> Result<Bytes, Refusal>
    requires { IsPacket packet.now }
    ensures ok { IfOk result (λ bytes. SpellsIn Two bytes (frames.Packet packet.now)) }
    ensures memory { IsOkUnless result Refusal.Memory }
{
    packet_fits(packet);
    let mut out = Vec::with_capacity(alloc, data_room(packet))?;
    put_head(&mut out, Kind::Data, packet.ring)?;
    put_packet(&mut out, packet)?;
    Ok(Bytes::from_vec(out)?)
}

/// The same, in the room of a buffer, which frames that are spelled there have in common.
pub fn encode_data_in(room: &mut BytesMut, packet: &Packet) -> Result<Bytes, Refusal>
    requires empty { room.old.items ≡ [] }
    requires packet { IsPacket packet.now }
    ensures ok { IfOk result (λ bytes. SpellsIn Two bytes (frames.Packet packet.now)) }
    ensures empty { OnOk result (room.new.items ≡ []) }
    ensures memory { IsOkUnless result Refusal.Memory }
{
    packet_fits(packet);
    put_head(room, Kind::Data, packet.ring)?;
    put_packet(room, packet)?;
    Ok(room.freeze_to(room.len())?)
}

/// The spelling of version 2 of a token that keeps the rules of a frame.
pub fn encode_token(alloc: Global, token: &Token) -> Result<Bytes, Refusal>
    requires { IsToken token.now }
    ensures ok { IfOk result (λ bytes. SpellsIn Two bytes (frames.Token token.now)) }
    ensures memory { IsOkUnless result Refusal.Memory }
{
    token_fits(token);
    let mut out = Vec::with_capacity(alloc, token_room(token))?;
    put_head(&mut out, Kind::Token, token.ring)?;
    put_token(&mut out, token)?;
    Ok(Bytes::from_vec(out)?)
}

/// The same, in the room of a buffer, which frames that are spelled there have in common.
pub fn encode_token_in(room: &mut BytesMut, token: &Token) -> Result<Bytes, Refusal>
    requires empty { room.old.items ≡ [] }
    requires token { IsToken token.now }
    ensures ok { IfOk result (λ bytes. SpellsIn Two bytes (frames.Token token.now)) }
    ensures empty { OnOk result (room.new.items ≡ []) }
    ensures memory { IsOkUnless result Refusal.Memory }
{
    token_fits(token);
    put_head(room, Kind::Token, token.ring)?;
    put_token(room, token)?;
    Ok(room.freeze_to(room.len())?)
}

/// How many bytes the name or the message of an op has.
fn text_len(op: &Op) -> usize
    requires { IsOp op.now }
    ensures { result ≤ MOST_MESSAGE_BYTES }
{
    match op {
        Op::Act(Call::Join(name) | Call::Insert(name, _, _) | Call::Remove(name, _)) => {
            name.as_slice().len()
        }
        Op::Act(Call::Send(message)) => message.as_slice().len(),
        Op::Act(Call::Leave) | Op::Gone => 0,
    }
}

/// Two bytes, the highest first.
fn put_u16<B: BufMut>(out: &mut B, number: u16) -> Result<(), AllocError>
    ensures { OnOk result (B.written out.new ≡ B.written out.old ++ big_bytes 2 number) }
{
    out.put_u16(number)
}

/// Four bytes, the highest first.
fn put_u32<B: BufMut>(out: &mut B, number: u32) -> Result<(), AllocError>
    ensures { OnOk result (B.written out.new ≡ B.written out.old ++ big_bytes 4 number) }
{
    out.put_u32(number)
}

/// Eight bytes, the highest first.
fn put_u64<B: BufMut>(out: &mut B, number: u64) -> Result<(), AllocError>
    ensures { OnOk result (B.written out.new ≡ B.written out.old ++ big_bytes 8 number) }
{
    out.put_u64(number)
}

fn put_head<B: BufMut>(out: &mut B, kind: Kind, ring: u32) -> Result<(), AllocError>
    ensures { OnOk result (B.written out.new ≡ B.written out.old ++ (MARK ∷ version_code Two ∷ kind_code kind ∷ big_bytes 4 ring)) }
{
    out.put_u8(MARK)?;
    out.put_u8(Version::Two.byte())?;
    out.put_u8(kind.byte())?;
    put_u32(out, ring)
}

fn put_packet<B: BufMut>(out: &mut B, packet: &Packet) -> Result<(), AllocError>
    requires { IsOp packet.now.entry.op }
    ensures { OnOk result (B.written out.new ≡ B.written out.old ++ packet_bytes Two packet.now) }
{
    put_u32(out, packet.place)?;
    put_sender(out, &packet.entry)?;
    put_cred(out, &packet.entry.cred)?;
    put_op(out, &packet.entry.op)
}

fn put_sender<B: BufMut>(out: &mut B, entry: &Entry) -> Result<(), AllocError>
    ensures { OnOk result (B.written out.new ≡ B.written out.old ++ sender_bytes entry.now) }
{
    out.put_u8(entry.node.get())?;
    put_u16(out, entry.conn)?;
    put_u32(out, entry.pid)
}

fn put_cred<B: BufMut>(out: &mut B, cred: &Cred) -> Result<(), AllocError>
    ensures { OnOk result (B.written out.new ≡ B.written out.old ++ cred_bytes cred.now) }
{
    put_u32(out, cred.uid)?;
    put_u32(out, cred.gid)
}

fn put_op<B: BufMut>(out: &mut B, op: &Op) -> Result<(), AllocError>
    requires { IsOp op.now }
    ensures { OnOk result (B.written out.new ≡ B.written out.old ++ op_bytes Two op.now) }
{
    match op {
        Op::Act(call) => put_call(out, call),
        Op::Gone => out.put_u8(OpCode::Gone.byte()),
    }
}

fn put_call<B: BufMut>(out: &mut B, call: &Call) -> Result<(), AllocError>
    requires { IsCall call.now }
    ensures { OnOk result (B.written out.new ≡ B.written out.old ++ call_bytes Two call.now) }
{
    match call {
        Call::Join(name) => {
            out.put_u8(OpCode::Join.byte())?;
            put_name(out, name.as_slice())
        }
        Call::Leave => out.put_u8(OpCode::Leave.byte()),
        Call::Send(message) => {
            out.put_u8(OpCode::Send.byte())?;
            put_message(out, message.as_slice())
        }
        Call::Insert(name, position, rule) => {
            out.put_u8(OpCode::Insert.byte())?;
            put_name(out, name.as_slice())?;
            out.put_u8(*position)?;
            put_rule(out, rule.get())
        }
        Call::Remove(name, id) => {
            out.put_u8(OpCode::Remove.byte())?;
            put_name(out, name.as_slice())?;
            put_u32(out, *id)
        }
    }
}

fn put_name<B: BufMut>(out: &mut B, name: &[u8]) -> Result<(), AllocError>
    requires { length name.now ≤ MOST_NAME_BYTES }
    ensures { OnOk result (B.written out.new ≡ B.written out.old ++ name_bytes name.now) }
{
    out.put_u8(name.len() as u8)?;
    out.put_slice(name)
}

fn put_message<B: BufMut>(out: &mut B, message: &[u8]) -> Result<(), AllocError>
    requires { length message.now ≤ MOST_MESSAGE_BYTES }
    ensures { OnOk result (B.written out.new ≡ B.written out.old ++ message_bytes message.now) }
{
    put_u16(out, message.len() as u16)?;
    out.put_slice(message)
}

fn put_rule<B: BufMut>(out: &mut B, rule: &Rule) -> Result<(), AllocError>
    ensures { OnOk result (B.written out.new ≡ B.written out.old ++ rule_bytes Two rule.now) }
{
    out.put_u8(effect_byte(rule.effect))?;
    out.put_u8(right_byte(rule.right))?;
    put_who(out, &rule.who)
}

fn put_who<B: BufMut>(out: &mut B, who: &Who) -> Result<(), AllocError>
    ensures { OnOk result (B.written out.new ≡ B.written out.old ++ who_bytes Two who.now) }
{
    let node = number_of(who.node);
    out.put_u8(given(who.uid) + given(who.gid) + given(node))?;
    put_condition(out, Subject::Uid, who.uid)?;
    put_condition(out, Subject::Gid, who.gid)?;
    put_condition(out, Subject::Node, node)
}

/// 1 where the condition is there, else 0.
fn given(condition: Option<u32>) -> u8
    ensures { result ≡ given condition }
{
    match condition {
        None => 0,
        Some(_) => 1,
    }
}

fn number_of(node: Option<NodeId>) -> Option<u32>
    ensures { result ≡ node }
{
    node.map(|node| u32::from(node.get()))
}

fn put_condition<B: BufMut>(
    out: &mut B,
    subject: Subject,
    value: Option<u32>,
) -> Result<(), AllocError>
    ensures { OnOk result (B.written out.new ≡ B.written out.old ++ condition_bytes subject value) }
{
    match value {
        None => Ok(()),
        Some(value) => {
            out.put_u8(subject.byte())?;
            put_u32(out, value)
        }
    }
}

fn put_token<B: BufMut>(out: &mut B, token: &Token) -> Result<(), AllocError>
    requires { length token.now.rtr ≤ MOST_REQUESTS }
    ensures { OnOk result (B.written out.new ≡ B.written out.old ++ token_bytes token.now) }
{
    put_u64(out, token.hop)?;
    put_extent(out, token)?;
    put_wants(out, token)
}

fn put_extent<B: BufMut>(out: &mut B, token: &Token) -> Result<(), AllocError>
    ensures { OnOk result (B.written out.new ≡ B.written out.old ++ extent_bytes token.now) }
{
    put_u32(out, token.seq)?;
    put_u32(out, token.aru)
}

fn put_wants<B: BufMut>(out: &mut B, token: &Token) -> Result<(), AllocError>
    requires { length token.now.rtr ≤ MOST_REQUESTS }
    ensures { OnOk result (B.written out.new ≡ B.written out.old ++ wants_bytes token.now) }
{
    out.put_u8(owner_byte(token.aru_id))?;
    put_places(out, token.rtr.as_slice())
}

fn owner_byte(node: Option<NodeId>) -> u8
    ensures { result ≡ owner_code node }
{
    match node {
        None => 0,
        Some(node) => node.get(),
    }
}

fn put_places<B: BufMut>(out: &mut B, places: &[u32]) -> Result<(), AllocError>
    requires { length places.now ≤ MOST_REQUESTS }
    ensures { OnOk result (B.written out.new ≡ B.written out.old ++ places_bytes places.now) }
{
    out.put_u8(places.len() as u8)?;
    for place in places {
        put_u32(out, *place)?;
    }
    Ok(())
}
