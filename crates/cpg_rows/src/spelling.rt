//! Frames of rows, spelled here and not by `cpg_wire`, so that a row may say one that is not within its ranges.
//!
//! `data PLACE ENTRY`, `token hop H seq S aru A id I rtr R` with I `none` or a node and R `-` or places with commas,
//! each of ring 1 or behind `ring N`; or the bytes by `hex DIGITS`.

use crate::words::{NO_COMMAND, byte, entry, first, is_word, number, put_read_hex};
use cpg_cred::Refusal;
use cpg_entry::{Call, Entry, Name, Op};
use cpg_print::node_number;
use cpg_rules::Rule;
use cpg_text::{cut, put_byte, put_bytes, read_number};
use std::alloc::Global;

/// How many places a row may ask for on a token.
const MOST_ASKED: u8 = 255;

/// Puts the bytes of the frame.
pub fn put_spelled(alloc: Global, bytes: &mut Vec<u8>, text: &[u8]) -> Result<(), Refusal> {
    let (word, rest) = first(text)?;
    if is_word(word, "hex") {
        return put_read_hex(bytes, rest);
    }
    if is_word(word, "ring") {
        let (ring, rest) = first(rest)?;
        return put_of_ring(alloc, bytes, number(ring)?, rest);
    }
    put_of_ring(alloc, bytes, 1, text)
}

/// Puts the bytes of a frame of that ring.
fn put_of_ring(alloc: Global, bytes: &mut Vec<u8>, ring: u32, text: &[u8]) -> Result<(), Refusal> {
    let (word, rest) = first(text)?;
    let is_token = is_word(word, "token");
    if !is_token && !is_word(word, "data") {
        return Err(NO_COMMAND);
    }
    put_bytes(bytes, &[0x43, 2, if is_token { 2 } else { 1 }])?;
    put_u32(bytes, ring)?;
    if is_token {
        put_token(bytes, rest)
    } else {
        put_data(alloc, bytes, rest)
    }
}

fn put_u32(bytes: &mut Vec<u8>, number: u32) -> Result<(), Refusal> {
    put_bytes(bytes, number.to_be_bytes().as_slice())
}

/// The word behind that name, and what follows it.
fn named<'a>(name: &str, text: &'a [u8]) -> Result<(&'a [u8], &'a [u8]), Refusal> {
    let (word, rest) = first(text)?;
    if is_word(word, name) {
        first(rest)
    } else {
        Err(NO_COMMAND)
    }
}

fn put_token(bytes: &mut Vec<u8>, text: &[u8]) -> Result<(), Refusal> {
    let (hop, rest) = named("hop", text)?;
    let (seq, rest) = named("seq", rest)?;
    let (aru, rest) = named("aru", rest)?;
    let (id, rest) = named("id", rest)?;
    let (rtr, _) = named("rtr", rest)?;
    put_hop(bytes, hop)?;
    put_u32(bytes, number(seq)?)?;
    put_u32(bytes, number(aru)?)?;
    put_id(bytes, id)?;
    put_asked(bytes, rtr)
}

fn put_hop(bytes: &mut Vec<u8>, word: &[u8]) -> Result<(), Refusal> {
    let hop = read_number(0, u64::MAX, word).ok_or(NO_COMMAND)?;
    put_bytes(bytes, hop.to_be_bytes().as_slice())
}

fn put_id(bytes: &mut Vec<u8>, word: &[u8]) -> Result<(), Refusal> {
    put_byte(
        bytes,
        if is_word(word, "none") {
            0
        } else {
            byte(word)?
        },
    )
}

/// Puts the count of the places, and then each.
fn put_asked(bytes: &mut Vec<u8>, word: &[u8]) -> Result<(), Refusal> {
    let at = bytes.len();
    put_byte(bytes, 0)?;
    if is_word(word, "-") {
        return Ok(());
    }
    let mut left = word;
    for count in 1..MOST_ASKED {
        let (place, rest) = cut(b',', left).unwrap_or((left, &[]));
        put_u32(bytes, number(place)?)?;
        set_at(bytes, at, count);
        if rest.is_empty() {
            return Ok(());
        }
        left = rest;
    }
    Err(NO_COMMAND)
}

fn set_at(bytes: &mut Vec<u8>, at: usize, value: u8) {
    if let Some(byte) = bytes.get_mut(at) {
        *byte = value;
    }
}

fn put_data(alloc: Global, bytes: &mut Vec<u8>, text: &[u8]) -> Result<(), Refusal> {
    let (place, rest) = first(text)?;
    put_u32(bytes, number(place)?)?;
    let entry = entry(alloc, rest)?;
    let put = put_entry(bytes, &entry);
    drop(entry);
    put
}

fn put_entry(bytes: &mut Vec<u8>, entry: &Entry) -> Result<(), Refusal> {
    put_byte(bytes, entry.node.get())?;
    put_bytes(bytes, entry.conn.to_be_bytes().as_slice())?;
    put_u32(bytes, entry.pid)?;
    put_u32(bytes, entry.cred.uid)?;
    put_u32(bytes, entry.cred.gid)?;
    match &entry.op {
        Op::Act(call) => put_call(bytes, call),
        Op::Gone => put_byte(bytes, 6),
    }
}

fn put_call(bytes: &mut Vec<u8>, call: &Call) -> Result<(), Refusal> {
    match call {
        Call::Join(name) => put_name(bytes, 1, name),
        Call::Leave => put_byte(bytes, 2),
        Call::Send(message) => put_text(bytes, message.as_slice()),
        Call::Insert(name, position, rule) => {
            put_name(bytes, 4, name)?;
            put_byte(bytes, *position)?;
            put_rule(bytes, rule.get())
        }
        Call::Remove(name, id) => {
            put_name(bytes, 5, name)?;
            put_u32(bytes, *id)
        }
    }
}

fn put_text(bytes: &mut Vec<u8>, text: &[u8]) -> Result<(), Refusal> {
    let length = u16::try_from(text.len()).map_err(|_| NO_COMMAND)?;
    put_byte(bytes, 3)?;
    put_bytes(bytes, length.to_be_bytes().as_slice())?;
    put_bytes(bytes, text)
}

/// Puts the op, and the name with its length.
fn put_name(bytes: &mut Vec<u8>, op: u8, name: &Name) -> Result<(), Refusal> {
    let length = u8::try_from(name.as_slice().len()).map_err(|_| NO_COMMAND)?;
    put_byte(bytes, op)?;
    put_byte(bytes, length)?;
    put_bytes(bytes, name.as_slice())
}

fn put_rule(bytes: &mut Vec<u8>, rule: &Rule) -> Result<(), Refusal> {
    put_byte(bytes, (rule.effect as u8).saturating_add(1))?;
    put_byte(bytes, (rule.right as u8).saturating_add(1))?;
    let at = bytes.len();
    put_byte(bytes, 0)?;
    put_condition(bytes, at, 1, rule.who.uid)?;
    put_condition(bytes, at, 2, rule.who.gid)?;
    put_condition(bytes, at, 3, node_number(rule.who.node))
}

/// Puts a condition where there is one, and counts it in the byte of that place.
fn put_condition(
    bytes: &mut Vec<u8>,
    at: usize,
    kind: u8,
    value: Option<u32>,
) -> Result<(), Refusal> {
    let Some(value) = value else {
        return Ok(());
    };
    put_byte(bytes, kind)?;
    put_u32(bytes, value)?;
    let count = bytes.get(at).copied().unwrap_or(0);
    set_at(bytes, at, count.saturating_add(1));
    Ok(())
}
