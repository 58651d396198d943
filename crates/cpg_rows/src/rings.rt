//! `%ring NODE RING NODES PLACES HOPS`: a node's ring alone.

ghost use Rattle.std.specs.Prelude.{IfOk};
ghost use Rattle.cpg_entry.specs.Ranges.{IsFrame};

use crate::player::{Plays, Row, given_back};
use crate::printing::{put_debug, put_packet, put_token};
use crate::spelling::put_spelled;
use crate::words::{
    NO_COMMAND, are_same_packets, entry, first, is_word, node, put_number_line, settings,
};
use cpg_cred::Refusal;
use cpg_entry::{Entry, Frame, Packet};
use cpg_print::put_entry;
use cpg_ring::{Ring, Visit};
use cpg_text::put;
use cpg_wire::decode;
use std::alloc::Global;

#[derive(Drop)]
pub struct Ringing {
    ring: Ring,
}

/// Puts the entry among those that wait.
fn enqueue(alloc: Global, ring: &mut Ring, handed: &Entry, is_end: bool) -> Result<(), Refusal> {
    let entry = handed.copy(alloc)?;
    let answer = if is_end {
        ring.enqueue_end(entry)
    } else {
        ring.enqueue(entry)
    };
    given_back(answer, |back| back.equals(handed))
}

fn enqueue_line(alloc: Global, ring: &mut Ring, row: &Row<'_>) -> Result<(), Refusal> {
    let handed = entry(alloc, row.rest)?;
    let enqueued = enqueue(alloc, ring, &handed, row.is("end"));
    drop(handed);
    enqueued
}

/// The frame that the text says, where it is one.
fn read_frame(alloc: Global, text: &[u8]) -> Result<Frame, Refusal>
    ensures { IfOk result (λ frame. IsFrame frame) }
{
    let mut bytes = Vec::new(alloc);
    let put = put_spelled(alloc, &mut bytes, text);
    match put {
        Ok(()) => decode(alloc, bytes.as_slice()),
        Err(refusal) => Err(refusal),
    }
}

fn put_packets(line: &mut Vec<u8>, packets: &[Packet]) -> Result<(), Refusal> {
    for packet in packets {
        put_packet(line, packet)?;
    }
    Ok(())
}

/// Puts the frames that a visit sends.
fn put_visit(line: &mut Vec<u8>, visit: Visit) -> Result<(), Refusal> {
    let put = put_packets(line, visit.packets.as_slice());
    match put {
        Ok(()) => put_token(line, &visit.token),
        Err(refusal) => Err(refusal),
    }
}

/// The last token that it sent comes back to it.
fn hear_last(alloc: Global, line: &mut Vec<u8>, ring: &mut Ring) -> Result<(), Refusal> {
    let Some(last) = ring.resend() else {
        return Err(NO_COMMAND);
    };
    let token = last.copy(alloc)?;
    let visit = ring.on_token(&token);
    drop(token);
    put_visit(line, visit?)
}

fn hear_packet(
    alloc: Global,
    line: &mut Vec<u8>,
    ring: &mut Ring,
    text: &[u8],
) -> Result<(), Refusal> {
    match read_frame(alloc, text)? {
        Frame::Token(token) => put_visit(line, ring.on_token(&token)?),
        Frame::Packet(packet) => {
            let handed = packet.copy(alloc)?;
            let answer = given_back(ring.on_data(packet), |back| are_same_packets(back, &handed));
            drop(handed);
            answer?;
            put(line, "held\n")
        }
    }
}

fn put_visited(alloc: Global, line: &mut Vec<u8>, ring: &Ring, text: &[u8]) -> Result<(), Refusal> {
    match read_frame(alloc, text)? {
        Frame::Token(token) => put_visit(line, ring.visit(&token)?),
        Frame::Packet(_) => Err(NO_COMMAND),
    }
}

fn put_next(line: &mut Vec<u8>, ring: &Ring) -> Result<(), Refusal> {
    match ring.next_place() {
        Some(entry) => {
            put_entry(line, entry)?;
            put(line, "\n")
        }
        None => put(line, "none\n"),
    }
}

fn advance(line: &mut Vec<u8>, ring: &mut Ring) -> Result<(), Refusal> {
    if ring.next_place().is_none() {
        return Err(NO_COMMAND);
    }
    ring.advance();
    put_number_line(line, "delivered", u64::from(ring.delivered()))
}

/// Puts the last token that it sent.
fn put_resent(line: &mut Vec<u8>, ring: &Ring) -> Result<(), Refusal> {
    match ring.resend() {
        Some(token) => put_token(line, token),
        None => put(line, "none\n"),
    }
}

impl Ringing {
    pub fn new(alloc: Global, text: &[u8]) -> Result<Ringing, Refusal> {
        let (at, rest) = first(text)?;
        let (settings, _) = settings(rest)?;
        Ok(Ringing {
            ring: Ring::new(alloc, settings, node(at)?)?,
        })
    }

    /// The commands that look.
    fn show(&self, alloc: Global, line: &mut Vec<u8>, row: &Row<'_>) -> Result<(), Refusal> {
        let ring = &self.ring;
        if row.is("visit") {
            return put_visited(alloc, line, ring, row.rest);
        }
        if row.is("next") {
            return put_next(line, ring);
        }
        if row.is("delivered") {
            return put_number_line(line, "delivered", u64::from(ring.delivered()));
        }
        if row.is("waiting") {
            return put_number_line(line, "waiting", ring.waiting() as u64);
        }
        if row.is("safe") {
            return put_number_line(line, "safe", u64::from(ring.safe()));
        }
        if row.is("resend") {
            return put_resent(line, ring);
        }
        Err(NO_COMMAND)
    }
}

impl Plays for Ringing {
    fn make(&mut self, alloc: Global, line: &mut Vec<u8>, row: &Row<'_>) -> Result<(), Refusal> {
        if row.is("enqueue") || row.is("end") {
            enqueue_line(alloc, &mut self.ring, row)?;
            return put(line, "waits\n");
        }
        if row.is("advance") {
            return advance(line, &mut self.ring);
        }
        if row.is("hear") && is_word(row.rest, "last") {
            return hear_last(alloc, line, &mut self.ring);
        }
        if row.is("hear") {
            return hear_packet(alloc, line, &mut self.ring, row.rest);
        }
        self.show(alloc, line, row)
    }

    /// The text of the ring shows what waits, what is held and delivered, and its last token.
    fn put_state(&self, alloc: Global, text: &mut Vec<u8>) -> Result<(), Refusal> {
        put_debug(alloc, text, &self.ring)
    }
}
