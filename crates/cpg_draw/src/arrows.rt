//! Frames as arrows.

ghost use Rattle.std.specs.Prelude.{◌≡◌};
ghost use Rattle.cpg_ring.specs.Worlds.{item};
ghost use Rattle.cpg_draw.specs.Arrows.{arrow_of, kind_of, mark_of, seq_of, with_brought};

use crate::excerpts::Spot;
use crate::sets::with;
use cpg_entry::Frame;

/// What an arrow stands for.
#[derive(Debug, Clone, Copy, PartialEq, Eq)]
pub enum ArrowKind {
    /// An entry at its place, sent for the first time.
    Data,
    /// An entry at its place, served again to a node that asked for it.
    Again,
    /// The token.
    Token,
}

/// A frame that was sent.
#[derive(Debug, Clone, Copy, PartialEq, Eq)]
pub struct Arrow {
    /// The frame's number, from 1.
    pub number: u64,
    /// The row that sent it, and where that is drawn.
    pub sent: Spot,
    /// The node that sent it, from 1; 0 where it comes from outside the ring.
    pub node: u8,
    /// What it is.
    pub kind: ArrowKind,
    /// Its place, or its hop.
    pub mark: u64,
    /// The nodes that a row brought it to, a bit for each.
    pub came: u8,
}

/// The arrow of the frame of that number, that a node sent in a row that brought a token of that seq.
pub(crate) fn make_arrow(number: u64, sent: Spot, node: u8, seq: u32, frame: &Frame) -> Arrow
    ensures { result ≡ arrow_of number sent node seq frame.now }
{
    Arrow {
        number,
        sent,
        node,
        kind: kind_in(seq, frame),
        mark: mark_in(frame),
        came: 0,
    }
}

fn kind_in(seq: u32, frame: &Frame) -> ArrowKind
    ensures { result ≡ kind_of seq frame.now }
{
    match frame {
        Frame::Token(_) => ArrowKind::Token,
        Frame::Packet(packet) if packet.place <= seq => ArrowKind::Again,
        Frame::Packet(_) => ArrowKind::Data,
    }
}

fn mark_in(frame: &Frame) -> u64
    ensures { result ≡ mark_of frame.now }
{
    match frame {
        Frame::Token(token) => token.hop,
        Frame::Packet(packet) => u64::from(packet.place),
    }
}

/// The seq of the frame, where it is the token.
pub(crate) fn seq_in(frame: &Frame) -> u32
    ensures { result ≡ seq_of frame.now }
{
    match frame {
        Frame::Token(token) => token.seq,
        Frame::Packet(_) => 0,
    }
}

/// The arrow of that number, from 1, if there is one.
pub fn find_arrow(arrows: &[Arrow], number: usize) -> Option<Arrow>
    ensures { result ≡ item arrows.now number }
{
    if number == 0 {
        return None;
    }
    arrows.get(number - 1).copied()
}

/// Notes that the frame of that number was brought to a node, if there is one.
pub(crate) fn note_brought(arrows: &mut Vec<Arrow>, number: usize, node: u8)
    ensures { arrows.new.items ≡ with_brought arrows.old.items number node }
{
    if number == 0 || number > arrows.len() {
        return;
    }
    let mut arrow = arrows[number - 1];
    arrow.came = with(arrow.came, node);
    arrows[number - 1] = arrow;
}
