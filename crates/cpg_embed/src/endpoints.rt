//! A node with what it still has to hand over, and the calls of its connections.

ghost use Rattle.std.specs.Prelude.{◌≡◌, IfOk, IsOkUnless};
ghost use Rattle.cpg_entry.specs.declared.calls.Call.TheVariants as calls;
ghost use Rattle.cpg_embed.specs.Calls.{IsConnected, IsSubmitted, IsCopied, IsInserted, IsDisconnected};
ghost use Rattle.cpg_embed.specs.Endpoints.{new_endpoint};
ghost use Rattle.cpg_embed.specs.Rules.{rule_of};

use crate::rules::RuleLine;
use crate::seats::Seats;
use crate::statuses::OK;
use bytes::Bytes;
use cpg_cred::{Cred, Refusal};
use cpg_entry::{Call, Message, Name, Rule, SharedRule};
use cpg_node::{Event, Names, Node, Processes, Remains};
use std::alloc::Global;
use std::marker::Model;

/// A node with what it still has to hand over: the frames of its last answer, the event that was taken
/// last, and what was listed last; and what is left of an endpoint that was closed into it.
#[derive(Drop)]
pub struct Endpoint {
    pub(crate) alloc: Global,
    pub(crate) node: Node,
    pub(crate) made: Vec<Bytes>,
    pub(crate) given: usize,
    pub(crate) event: Option<Event>,
    pub(crate) processes: Option<Processes>,
    pub(crate) names: Option<Names>,
    pub(crate) seats: Option<Seats>,
    pub(crate) remains: Option<Remains>,
}

impl Model for Endpoint {
    ghost use Rattle.cpg_embed.specs.Endpoints.{EndpointValue};
    ghost use Rattle.cpg_ring.specs.Kept.{held_code};
    ghost use Rattle.std.specs.Coded.{codes};

    ghost Value = { EndpointValue };

    ghost coded = { Prim.hlevel (codes, held_code) };

    ghost view = { λ e. record { node = e.node; made = e.made.items; given = e.given; event = e.event; processes = e.processes; names = e.names; seats = e.seats; remains = e.remains } };
}

/// The call to put the rule into the group's table, at that index.
fn insert_of(alloc: Global, group: &[u8], index: u8, rule: Rule) -> Result<Call, Refusal>
    ensures ok { IfOk result (λ call. call ≡ calls.Insert group.now index rule) }
    ensures memory { IsOkUnless result Refusal.Memory }
{
    let group = Name::from_slice(alloc, group)?;
    Ok(Call::Insert(group, index, SharedRule::new(alloc, rule)?))
}

impl Endpoint {
    /// The endpoint of that node, which has nothing to hand over.
    pub fn new(alloc: Global, node: Node) -> Endpoint
        ensures { result ≡ new_endpoint node }
    {
        Endpoint {
            alloc,
            node,
            made: Vec::new(alloc),
            given: 0,
            event: None,
            processes: None,
            names: None,
            seats: None,
            remains: None,
        }
    }

    /// Takes a connection in, and tells its number.
    pub fn connect(&mut self, pid: u32, cred: Cred, conn: &mut u16) -> u32
        ensures { IsConnected self.old pid cred result conn.new self.new }
    {
        match self.node.connect(pid, cred) {
            Ok(number) => {
                *conn = number;
                OK
            }
            Err(refusal) => refusal.number(),
        }
    }

    /// Puts a call of the connection last among what waits.
    fn submit(&mut self, conn: u16, call: Call) -> u32
        ensures { IsSubmitted self.old conn call result self.new }
    {
        match self.node.submit(conn, call) {
            Ok(()) => OK,
            Err(refused) => refused.refusal.number(),
        }
    }

    /// Asks to become a member of the group.
    pub fn join(&mut self, conn: u16, group: &[u8]) -> u32
        ensures { IsCopied self.old conn (calls.Join group.now) result self.new }
    {
        match Name::from_slice(self.alloc, group) {
            Ok(name) => self.submit(conn, Call::Join(name)),
            Err(refusal) => refusal.number(),
        }
    }

    /// Asks to leave the connection's group.
    pub fn leave(&mut self, conn: u16) -> u32
        ensures { IsSubmitted self.old conn calls.Leave result self.new }
    {
        self.submit(conn, Call::Leave)
    }

    /// Asks to send a message to the connection's group.
    pub fn send(&mut self, conn: u16, message: &[u8]) -> u32
        ensures { IsCopied self.old conn (calls.Send message.now) result self.new }
    {
        match Message::from_slice(self.alloc, message) {
            Ok(message) => self.submit(conn, Call::Send(message)),
            Err(refusal) => refusal.number(),
        }
    }

    /// Asks to put a rule into a group's table, at that index.
    pub fn insert(&mut self, conn: u16, group: &[u8], index: u8, line: &RuleLine) -> u32
        ensures { IsInserted self.old conn group.now index (rule_of line.now) result self.new }
    {
        let Some(rule) = line.rule() else {
            return Refusal::Range.number();
        };
        match insert_of(self.alloc, group, index, rule) {
            Ok(call) => self.submit(conn, call),
            Err(refusal) => refusal.number(),
        }
    }

    /// Asks to take the rule of that id out of a group's table.
    pub fn remove(&mut self, conn: u16, group: &[u8], id: u32) -> u32
        ensures { IsCopied self.old conn (calls.Remove group.now id) result self.new }
    {
        match Name::from_slice(self.alloc, group) {
            Ok(name) => self.submit(conn, Call::Remove(name, id)),
            Err(refusal) => refusal.number(),
        }
    }

    /// Ends a connection.
    pub fn disconnect(&mut self, conn: u16) -> u32
        ensures { IsDisconnected self.old conn result self.new }
    {
        match self.node.disconnect(conn) {
            Ok(()) => OK,
            Err(refusal) => refusal.number(),
        }
    }
}
