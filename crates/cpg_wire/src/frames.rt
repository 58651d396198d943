//! Frames: from bytes to what they spell.
//!
//! The bytes are read to their end before any memory is asked for. Proved: what is read is the definition
//! `frame_of`, which answers exactly what the grammar `Spells` says.

ghost use Rattle.std.specs.Prelude.{◌≡◌, ◌↔◌, ◌⊎◌, IfOk, IfErr, IfSome, IsOkUnless, option_map};
ghost use Rattle.cpg_entry.specs.declared.frames.Frame.{Frame};
ghost use Rattle.cpg_wire.specs.Answering.{AnswersRead};
ghost use Rattle.cpg_entry.specs.Ranges.{IsFrame};
ghost use Rattle.cpg_entry.specs.Widths.{FrameFits};
ghost use Rattle.cpg_wire.specs.Reading.{Reads, head_at, carried_at, frame_at, frame_of};
ghost use Rattle.cpg_wire.specs.Spelling.{Spells};
ghost use Rattle.cpg_wire.specs.Views.{frame_seen, BringsLast};

use crate::codes::{Kind, MARK, Version};
use crate::input::Input;
use crate::packets::PacketView;
use crate::tokens::TokenView;
use bytes::Bytes;
use cpg_entry::{Frame, Refusal};
use std::alloc::Global;

/// A frame that takes no memory: its texts are those of the bytes.
#[derive(Drop)]
pub enum FrameView<'a> {
    Packet(PacketView<'a>),
    Token(TokenView),
}

impl<'a> FrameView<'a> {
    /// The frame that all of the bytes spell, in either version; none where they spell none. It keeps the
    /// rules, and asks for no memory: who refuses a frame for its numbers need not copy it.
    pub fn read(bytes: &'a [u8]) -> Option<FrameView<'a>>
        ensures exact { frame_of bytes.now ≡ option_map frame_seen result }
        ensures range { IfSome result (λ view. IsFrame (frame_seen view) × FrameFits (frame_seen view)) }
        // A message is the last of them.
        ensures last { IfSome result (λ view. BringsLast (frame_seen view) bytes.now) }
    {
        FrameView::read_whole(bytes)
    }

    #[tactic(auto, unfolding(crate::specs::Reading::frame_of, crate::specs::Reading::frame_at))]
    fn read_whole(bytes: &'a [u8]) -> Option<FrameView<'a>>
        ensures { frame_of bytes.now ≡ option_map frame_seen result }
    {
        let mut input = Input::of(bytes);
        let (version, kind, ring) = read_head(&mut input)?;
        let frame = FrameView::read_carried(&mut input, version, kind, ring)?;
        if input.is_at_end() { Some(frame) } else { None }
    }

    #[tactic(auto, unfolding(crate::specs::Reading::carried_at))]
    fn read_carried(
        input: &mut Input<'a>,
        version: Version,
        kind: Kind,
        ring: u32,
    ) -> Option<FrameView<'a>>
        ensures { Reads (option_map frame_seen result) input.new (carried_at version kind ring input.old) }
    {
        match kind {
            Kind::Data => {
                let Some(packet) = PacketView::read(input, version, ring) else {
                    return None;
                };
                Some(FrameView::Packet(packet))
            }
            Kind::Token => {
                let Some(token) = TokenView::read(input, ring) else {
                    return None;
                };
                Some(FrameView::Token(token))
            }
        }
    }

    /// The frame, with lists of its own.
    pub fn copy(&self, alloc: Global) -> Result<Frame, Refusal>
        ensures ok { IfOk result (λ frame. frame ≡ frame_seen self.now) }
        ensures memory { IsOkUnless result Refusal.Memory }
    {
        match self {
            FrameView::Packet(packet) => Ok(Frame::Packet(packet.copy(alloc)?)),
            FrameView::Token(token) => Ok(Frame::Token(token.copy(alloc)?)),
        }
    }

    /// The frame, of bytes that end as it does; a long message is shared with them.
    pub fn share(&self, alloc: Global, bytes: &Bytes) -> Result<Frame, Refusal>
        requires { BringsLast (frame_seen self.now) bytes.now }
        ensures ok { IfOk result (λ frame. frame ≡ frame_seen self.now) }
        ensures memory { IsOkUnless result Refusal.Memory }
    {
        match self {
            FrameView::Packet(packet) => Ok(Frame::Packet(packet.share(alloc, bytes)?)),
            FrameView::Token(token) => Ok(Frame::Token(token.copy(alloc)?)),
        }
    }
}

#[tactic(auto, unfolding(crate::specs::Reading::head_at))]
fn read_head(input: &mut Input<'_>) -> Option<(Version, Kind, u32)>
    ensures { Reads result input.new (head_at input.old) }
{
    input.u8_within(MARK, MARK)?;
    let version = Version::of(input.byte()?)?;
    let kind = Kind::of(input.byte()?)?;
    let ring = input.u32()?;
    Some((version, kind, ring))
}

/// The frame that the bytes spell, in either version; `Malformed` where they spell none. Bytes that
/// spell none are never answered with `Memory`.
pub fn decode(alloc: Global, bytes: &[u8]) -> Result<Frame, Refusal>
    // What is given is spelled so, and no bytes spell two frames.
    ensures ok { IfOk result (λ frame. Spells bytes.now frame) }
    ensures malformed { (result ≡ Err Refusal.Malformed) ↔ ((frame : Frame) → Spells bytes.now frame → ⊥) }
    ensures err { IfErr result (λ refusal. (refusal ≡ Refusal.Malformed) ⊎ (refusal ≡ Refusal.Memory)) }
    // Whichever version it came in, it keeps the rules, and so may be encoded.
    ensures range { IfOk result (λ frame. IsFrame frame × FrameFits frame) }
    // The same by the function that reads.
    ensures exact { AnswersRead result (frame_of bytes.now) }
{
    answer(alloc, bytes)
}

fn answer(alloc: Global, bytes: &[u8]) -> Result<Frame, Refusal>
    ensures { AnswersRead result (frame_of bytes.now) }
{
    match FrameView::read(bytes) {
        None => Err(Refusal::Malformed),
        Some(view) => view.copy(alloc),
    }
}
