//! Frames that are heard, handed over, and delivered.

ghost use Rattle.std.specs.Prelude.{◌≡◌};
ghost use Rattle.std.specs.List.{slice_get};
ghost use Rattle.cpg_node.specs.Calls.{place_to_deliver};
ghost use Rattle.cpg_embed.specs.Frames.{IsFrameStatus, IsTimerStatus, IsTurnStatus, IsNextFrame, IsDelivered};

use crate::endpoints::Endpoint;
use crate::statuses::{BUSY, NONE, OK, hand};
use cpg_cred::Refusal;

/// A frame that goes to all other nodes.
const TO_ALL: u32 = 1;

/// A frame that goes to the next node.
const TO_NEXT: u32 = 2;

impl Endpoint {
    /// Hears a frame. What the node answers is to be handed over.
    #[tactic(auto, using(crate::proofs::Hearing::refused_frame))]
    pub fn frame(&mut self, bytes: &[u8]) -> u32
        ensures { IsFrameStatus self.old bytes.now result self.new }
    {
        if self.given < self.made.len() {
            return BUSY;
        }
        match self.node.frame(bytes) {
            Ok(made) => {
                self.made = made;
                self.given = 0;
                OK
            }
            Err(refusal) => refusal.number(),
        }
    }

    /// The last token that the node sent is to be handed over again.
    pub fn timer(&mut self) -> u32
        ensures { IsTimerStatus self.old result self.new }
    {
        if self.given < self.made.len() {
            return BUSY;
        }
        match self.node.timer() {
            Ok(None) => NONE,
            Ok(Some(bytes)) => {
                let mut made = Vec::new(self.alloc);
                match made.push(bytes) {
                    Ok(()) => {
                        self.made = made;
                        self.given = 0;
                        OK
                    }
                    Err(_) => Refusal::Memory.number(),
                }
            }
            Err(refusal) => refusal.number(),
        }
    }

    /// The node hears the last token that it sent, and what it answers is spelled for nobody: so the token goes round in a
    /// ring of one node. In any other ring that token is for another node, and is refused.
    #[tactic(auto, using(crate::proofs::Turning::turned, crate::proofs::Turning::not_turned, crate::proofs::Turning::refused, crate::proofs::Turning::not_busy))]
    pub fn turn(&mut self) -> u32
        ensures { IsTurnStatus self.old result self.new }
    {
        if self.given < self.made.len() {
            return BUSY;
        }
        match self.node.turn() {
            Ok(true) => {
                self.made = Vec::new(self.alloc);
                self.given = 0;
                OK
            }
            Ok(false) => NONE,
            Err(refusal) => refusal.number(),
        }
    }

    /// Hands the next frame over, with its length and to whom it goes.
    pub fn next(&mut self, buffer: &mut [u8], len: &mut usize, route: &mut u32) -> u32
        ensures { IsNextFrame self.old (slice_get self.old.made self.old.given) buffer.old result buffer.new len.new route.new self.new }
    {
        let Some(frame) = self.made.get(self.given) else {
            return NONE;
        };
        *len = frame.as_slice().len();
        *route = if self.given + 1 == self.made.len() {
            TO_NEXT
        } else {
            TO_ALL
        };
        let status = hand(frame.as_slice(), buffer);
        if status == OK {
            self.given += 1;
        }
        status
    }

    /// Judges the next place and takes it as delivered, if it is there.
    pub fn deliver(&mut self, place: &mut u32) -> u32
        ensures { IsDelivered self.old (place_to_deliver self.old.node) result place.new self.new }
    {
        match self.node.deliver() {
            Ok(Some(next)) => {
                *place = next;
                OK
            }
            Ok(None) => NONE,
            Err(refusal) => refusal.number(),
        }
    }
}
