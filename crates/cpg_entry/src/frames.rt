//! What travels between nodes: packets and the token.

ghost use Rattle.std.specs.Prelude.{◌≡◌, IfOk, IsOkUnless};

use crate::entries::Entry;
use crate::places::Places;
use cpg_rules::{NodeId, Refusal};
use std::alloc::Global;

/// An entry at its place.
#[derive(Debug, PartialEq, Eq, Drop)]
pub struct Packet {
    /// The ring's number.
    pub ring: u32,
    /// The place that the entry takes in the order of all entries, from 1.
    pub place: u32,
    pub entry: Entry,
}

impl Packet {
    /// The same packet.
    pub fn copy(&self, alloc: Global) -> Result<Packet, Refusal>
        ensures ok { IfOk result (λ packet. packet ≡ self.now) }
        ensures memory { IsOkUnless result Refusal.Memory }
    {
        let entry = self.entry.copy(alloc)?;
        Ok(Packet {
            ring: self.ring,
            place: self.place,
            entry,
        })
    }
}

/// The token that goes round the ring (Totem's regular token, without flow control).
#[derive(Debug, PartialEq, Eq, Drop)]
pub struct Token {
    /// The ring's number.
    pub ring: u32,
    /// How often the token was passed on (`token_seq`).
    pub hop: u64,
    /// The last place that was given to an entry.
    pub seq: u32,
    /// Every node that was visited since holds all places up to this one.
    pub aru: u32,
    /// The node that lowered `aru`, if one did.
    pub aru_id: Option<NodeId>,
    /// The places that are asked for again.
    pub rtr: Places,
}

impl Token {
    /// The same token.
    pub fn copy(&self, alloc: Global) -> Result<Token, Refusal>
        ensures ok { IfOk result (λ token. token ≡ self.now) }
        ensures memory { IsOkUnless result Refusal.Memory }
    {
        let rtr = self.rtr.copy(alloc)?;
        Ok(Token {
            ring: self.ring,
            hop: self.hop,
            seq: self.seq,
            aru: self.aru,
            aru_id: self.aru_id,
            rtr,
        })
    }
}

/// What one datagram carries.
#[derive(Debug, PartialEq, Eq, Drop)]
pub enum Frame {
    Packet(Packet),
    Token(Token),
}
