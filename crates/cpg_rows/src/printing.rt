//! Packets, tokens and replies as `step` prints them.

use cpg_cred::Refusal;
use cpg_entry::{Packet, Token};
use cpg_print::{node_number, put_entry};
use cpg_step::put_answer;
use cpg_text::{push_number, put, put_bytes};
use cpg_world::Reply;
use std::alloc::Global;
use std::fmt::Debug;

/// Puts the line of the value as its type writes it.
pub fn put_debug<T: Debug>(alloc: Global, line: &mut Vec<u8>, value: &T) -> Result<(), Refusal> {
    let all = format!(in alloc; "{value:?}\n")?;
    let put = put_bytes(line, all.as_bytes());
    drop(all);
    put
}

pub fn put_packet(line: &mut Vec<u8>, packet: &Packet) -> Result<(), Refusal> {
    put(line, "data ")?;
    push_number(line, u64::from(packet.place))?;
    put(line, " ")?;
    put_entry(line, &packet.entry)?;
    put(line, "\n")
}

/// Puts the places with commas, or a dash.
fn put_asked(line: &mut Vec<u8>, places: &[u32]) -> Result<(), Refusal> {
    if places.is_empty() {
        return put(line, "-");
    }
    let mut comma = "";
    for place in places {
        put(line, comma)?;
        push_number(line, u64::from(*place))?;
        comma = ",";
    }
    Ok(())
}

/// Puts the text and a number.
fn put_field(line: &mut Vec<u8>, name: &str, number: u64) -> Result<(), Refusal> {
    put(line, name)?;
    push_number(line, number)
}

fn put_number_or_none(line: &mut Vec<u8>, number: Option<u32>) -> Result<(), Refusal> {
    match number {
        Some(number) => push_number(line, u64::from(number)),
        None => put(line, "none"),
    }
}

pub fn put_token(line: &mut Vec<u8>, token: &Token) -> Result<(), Refusal> {
    put_field(line, "token hop ", token.hop)?;
    put_field(line, " seq ", u64::from(token.seq))?;
    put_field(line, " aru ", u64::from(token.aru))?;
    put(line, " id ")?;
    put_number_or_none(line, node_number(token.aru_id))?;
    put(line, " rtr ")?;
    put_asked(line, token.rtr.as_slice())?;
    put(line, "\n")
}

/// Puts the line of the reply, which is let go.
pub fn put_reply(alloc: Global, line: &mut Vec<u8>, reply: Reply) -> Result<(), Refusal> {
    let answer = Ok(reply);
    let put = put_answer(alloc, line, &answer);
    drop(answer);
    put
}
