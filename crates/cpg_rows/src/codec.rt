//! `%codec`: frames as bytes. Its rows also stand where no object could be made.

use crate::player::{Plays, Row};
use crate::spelling::put_spelled;
use crate::words::{NO_COMMAND, are_same_packets, put_hex, put_number_line};
use bytes::Bytes;
use cpg_cred::Refusal;
use cpg_entry::Frame;
use cpg_step::put_frame;
use cpg_text::{push_number, put};
use cpg_wire::{decode, encode_data, encode_token};
use std::alloc::Global;

#[derive(Drop)]
pub struct Codec;

/// Puts the frame's line, with its ring.
fn put_ring_frame(line: &mut Vec<u8>, frame: &Frame) -> Result<(), Refusal> {
    let ring = match frame {
        Frame::Packet(packet) => packet.ring,
        Frame::Token(token) => token.ring,
    };
    put(line, "ring ")?;
    push_number(line, u64::from(ring))?;
    put(line, " ")?;
    put_frame(line, frame)
}

/// Puts the line of the frame that the bytes spell.
pub fn put_decoded(alloc: Global, line: &mut Vec<u8>, bytes: &[u8]) -> Result<(), Refusal> {
    let frame = decode(alloc, bytes)?;
    let put = put_ring_frame(line, &frame);
    drop(frame);
    put
}

/// A copy of the frame.
fn copy_of(alloc: Global, frame: &Frame) -> Result<Frame, Refusal> {
    match frame {
        Frame::Packet(packet) => Ok(Frame::Packet(packet.copy(alloc)?)),
        Frame::Token(token) => Ok(Frame::Token(token.copy(alloc)?)),
    }
}

/// Puts the line of the copy.
fn put_copy(alloc: Global, line: &mut Vec<u8>, frame: &Frame) -> Result<(), Refusal> {
    let copy = copy_of(alloc, frame)?;
    let put = put_ring_frame(line, &copy);
    drop(copy);
    put
}

/// Puts the line of a copy of the frame that the bytes spell.
fn put_copied(alloc: Global, line: &mut Vec<u8>, bytes: &[u8]) -> Result<(), Refusal> {
    let frame = decode(alloc, bytes)?;
    let put = put_copy(alloc, line, &frame);
    drop(frame);
    put
}

/// The frame that the bytes spell, encoded again.
fn encoded(alloc: Global, bytes: &[u8]) -> Result<Bytes, Refusal> {
    match decode(alloc, bytes)? {
        Frame::Packet(packet) => encode_data(alloc, &packet),
        Frame::Token(token) => encode_token(alloc, &token),
    }
}

fn put_encoded(alloc: Global, line: &mut Vec<u8>, bytes: &[u8]) -> Result<(), Refusal> {
    let again = encoded(alloc, bytes)?;
    let put = put_hex(line, again.as_slice());
    drop(again);
    put
}

/// Whether the frames are the same.
fn are_same(one: &Frame, other: &Frame) -> bool {
    match (one, other) {
        (Frame::Packet(a), Frame::Packet(b)) => are_same_packets(a, b),
        (Frame::Token(a), Frame::Token(b)) => *a == *b,
        _ => false,
    }
}

/// Whether the bytes spell that frame.
fn spell(alloc: Global, bytes: &[u8], frame: &Frame) -> Result<bool, Refusal> {
    let other = decode(alloc, bytes)?;
    let alike = are_same(&other, frame);
    drop(other);
    Ok(alike)
}

/// Whether both spell the same frame.
fn spell_alike(alloc: Global, one: &[u8], other: &[u8]) -> Result<bool, Refusal> {
    let frame = decode(alloc, one)?;
    let alike = spell(alloc, other, &frame);
    drop(frame);
    alike
}

/// Whether the encoding is these very bytes, or spells the same frame where they are of version 1.
fn is_encoding(alloc: Global, bytes: &[u8], again: &[u8]) -> Result<bool, Refusal> {
    match bytes {
        [_, 1, ..] => spell_alike(alloc, bytes, again),
        _ => Ok(again == bytes),
    }
}

/// Whether the bytes spell a frame that is encoded as it should be. None where they spell none.
fn is_sound(alloc: Global, bytes: &[u8]) -> Result<Option<bool>, Refusal> {
    match encoded(alloc, bytes) {
        Ok(again) => {
            let sound = is_encoding(alloc, bytes, again.as_slice());
            drop(again);
            Ok(Some(sound?))
        }
        Err(Refusal::Malformed) => Ok(None),
        Err(refusal) => Err(refusal),
    }
}

fn byte_at(bytes: &[u8], place: usize) -> u8 {
    bytes.get(place).copied().unwrap_or(0)
}

fn set_at(bytes: &mut [u8], place: usize, value: u8) {
    if let Some(byte) = bytes.get_mut(place) {
        *byte = value;
    }
}

/// How many of what was tried spell nothing, a frame, and a frame that another encoding is given.
#[derive(Clone, Copy, Default)]
struct Tally {
    malformed: u64,
    sound: u64,
    unsound: u64,
}

impl Tally {
    fn count(&mut self, found: Option<bool>) {
        match found {
            None => self.malformed = self.malformed.saturating_add(1),
            Some(true) => self.sound = self.sound.saturating_add(1),
            Some(false) => self.unsound = self.unsound.saturating_add(1),
        }
    }

    fn put(&self, line: &mut Vec<u8>) -> Result<(), Refusal> {
        put_number_line(line, "malformed", self.malformed)?;
        put_number_line(line, "frames", self.sound)?;
        if self.unsound > 0 {
            put_number_line(line, "encoded otherwise", self.unsound)?;
        }
        Ok(())
    }

    /// Tries each proper front of the bytes.
    fn try_fronts(&mut self, alloc: Global, bytes: &[u8]) -> Result<(), Refusal> {
        for length in 0..bytes.len() {
            self.count(is_sound(alloc, &bytes[..length])?);
        }
        Ok(())
    }

    /// Tries the bytes with the one of that place replaced by each other value.
    fn try_byte(&mut self, alloc: Global, bytes: &mut [u8], place: usize) -> Result<(), Refusal> {
        let was = byte_at(bytes, place);
        for value in 0..=255u8 {
            if value != was {
                set_at(bytes, place, value);
                self.count(is_sound(alloc, bytes)?);
            }
        }
        set_at(bytes, place, was);
        Ok(())
    }

    /// Tries the bytes with that one and the next replaced by each pair of values.
    fn try_pair(&mut self, alloc: Global, bytes: &mut [u8], place: usize) -> Result<(), Refusal> {
        let next = place.saturating_add(1);
        let were = [byte_at(bytes, place), byte_at(bytes, next)];
        for pair in 0..=u16::MAX {
            let [one, other] = pair.to_be_bytes();
            set_at(bytes, place, one);
            set_at(bytes, next, other);
            self.count(is_sound(alloc, bytes)?);
        }
        set_at(bytes, place, were[0]);
        set_at(bytes, next, were[1]);
        Ok(())
    }

    /// Tries the bytes as the command says.
    fn try_all(&mut self, alloc: Global, bytes: &mut [u8], row: &Row<'_>) -> Result<(), Refusal> {
        if row.is("fronts") {
            return self.try_fronts(alloc, bytes);
        }
        let is_pairs = row.is("pairs");
        let last = bytes.len().saturating_sub(if is_pairs { 1 } else { 0 });
        for place in 0..last {
            if is_pairs {
                self.try_pair(alloc, bytes, place)?;
            } else {
                self.try_byte(alloc, bytes, place)?;
            }
        }
        Ok(())
    }
}

/// Makes the command of a frame's bytes.
fn make_of(
    alloc: Global,
    line: &mut Vec<u8>,
    row: &Row<'_>,
    bytes: &mut Vec<u8>,
) -> Result<(), Refusal> {
    put_spelled(alloc, bytes, row.rest)?;
    if row.is("spell") {
        return put_hex(line, bytes.as_slice());
    }
    if row.is("encode") {
        return put_encoded(alloc, line, bytes.as_slice());
    }
    if row.is("decode") {
        return put_decoded(alloc, line, bytes.as_slice());
    }
    if row.is("copy") {
        return put_copied(alloc, line, bytes.as_slice());
    }
    if row.is("fronts") || row.is("others") || row.is("pairs") {
        let mut tally = Tally::default();
        tally.try_all(alloc, bytes.as_mut_slice(), row)?;
        return tally.put(line);
    }
    Err(NO_COMMAND)
}

impl Plays for Codec {
    fn make(&mut self, alloc: Global, line: &mut Vec<u8>, row: &Row<'_>) -> Result<(), Refusal> {
        let mut bytes = Vec::new(alloc);
        let made = make_of(alloc, line, row, &mut bytes);
        drop(bytes);
        made
    }

    fn put_state(&self, _alloc: Global, _text: &mut Vec<u8>) -> Result<(), Refusal> {
        Ok(())
    }
}
