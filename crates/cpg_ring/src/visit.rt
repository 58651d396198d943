//! What a visit of the token sends.

ghost use Rattle.std.specs.Prelude.{◌≡◌};

use cpg_entry::{Packet, Token};
use std::marker::Model;

/// The packets that a visit sends, in order. Contracts see them as their list.
#[derive(Debug, Drop)]
pub struct Packets {
    packets: Vec<Packet>,
}

impl Model for Packets {
    ghost use Rattle.std.specs.Prelude.{List};
    ghost use Rattle.cpg_entry.specs.declared.frames.Packet.{Packet};

    ghost Value = { List Packet };

    ghost view = { λ packets. packets.packets.items };
}

impl Packets {
    /// The list of those packets, which takes no memory.
    pub fn from_vec(packets: Vec<Packet>) -> Packets
        ensures { result ≡ packets.items }
    {
        Packets { packets }
    }

    /// The packets, which takes no memory.
    pub fn into_vec(self) -> Vec<Packet>
        ensures { result.items ≡ self }
    {
        self.packets
    }

    /// The packets.
    pub fn as_slice(&self) -> &[Packet]
        ensures { result.now ≡ self.now }
    {
        self.packets.as_slice()
    }
}

/// What a visit of the token sends: first the packets, those that were asked for before the new ones,
/// then the token.
#[derive(Debug, Drop)]
pub struct Visit {
    pub packets: Packets,
    pub token: Token,
}
