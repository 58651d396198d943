//! One node, with its calls.

ghost use Rattle.std.specs.Prelude.{◌≡◌, ◌≤◌, ◌↔◌, ◌++◌, ◌∷◌, [], suc, length, None, Some, Option, IsSome, All, Ok, OnOk, OnErr, IfOk, IfErr, IfSome, MatchOption, IsOkUnless, option_map};
ghost use Rattle.std.specs.Option.{option_copied};
ghost use Rattle.cpg_entry.specs.declared.frames.Frame.TheVariants as frames;
ghost use Rattle.cpg_record.specs.Judging.{judged, most_places};
ghost use Rattle.cpg_record.specs.RuleTables.{rules_of};
ghost use Rattle.cpg_ring.specs.Answers.{IsAnswer, answer_of};
ghost use Rattle.cpg_wire.specs.declared.codes.Version.TheVariants.{Two};
ghost use Rattle.cpg_ring.specs.States.{safe_mark};
ghost use Rattle.cpg_wire.specs.Reading.{frame_of};
ghost use Rattle.cpg_wire.specs.Spelling.{spelling};
ghost use Rattle.cpg_wire.specs.Views.{frame_seen};
ghost use Rattle.cpg_entry.specs.Ranges.{IsFrame};
ghost use Rattle.cpg_node.specs.Nodes.{records_of, open_client, new_value, conn_id};
ghost use Rattle.cpg_node.specs.Calls.{connect_refusal, connected, submit_refusal, submitted, closed_refusal, disconnected, frame_refusal, answers_to, place_to_deliver, next_record, node_after_delivery, next_event, took};
ghost use Rattle.cpg_node.specs.Answers.{CanBeSpelled, IsNodeMade, IsFrameAnswer, IsListAnswer, IsGroupsAnswer, IsTakeAnswer, IsTurnAnswer, connection_of};

use crate::clients::{open_client, put_client};
use crate::connections::{Client, Connection};
use crate::judged::Judged;
use crate::names::call_refusal;
use crate::remains::Remains;
use crate::ringing::{hear_packet, hear_token, pass_token};
use bytes::Bytes;
use cpg_cred::{AcceptList, Cred, NodeId, Refusal, Refused};
use cpg_entry::{Call, Entry, Frame, MOST_CONNECTIONS, Op, Shelf, Token, token_fits};
use cpg_group::{ConnId, Event, Names, Processes, Record};
use cpg_ring::{Ring, Settings};
use cpg_rules::{Asker, Table};
use cpg_wire::{FrameView, encode_token};
use std::alloc::Global;
use std::marker::Model;

/// One node. Contracts see it as its part of the ring, its accept list, and its connections.
#[derive(Debug, Drop)]
pub struct Node {
    alloc: Global,
    id: NodeId,
    list: AcceptList,
    clients: Vec<Client>,
    ring: Ring,
    judged: Judged,
}

impl Model for Node {
    ghost use Rattle.cpg_node.specs.Nodes.{NodeValue};
    ghost use Rattle.cpg_ring.specs.Kept.{held_code};
    ghost use Rattle.std.specs.Coded.{codes};
    ghost use Rattle.cpg_node.specs.Kept.{IsNodeKept};

    ghost Value = { NodeValue };

    ghost coded = { Prim.hlevel (codes, held_code) };

    ghost view = { λ a. record { ring = a.ring; list = a.list; clients = a.clients.items } };

    ghost invariant = { λ a. IsNodeKept a.id a.ring a.clients.items a.judged };
}

impl Node {
    /// A new node of that number, with that list. Refused with Range where a setting is out of its range
    /// or the ring has no such node; the list comes back.
    pub fn new(
        alloc: Global,
        settings: Settings,
        id: NodeId,
        list: AcceptList,
    ) -> Result<Node, Refused<AcceptList>>
        ensures { IsNodeMade settings id list result }
    {
        match Ring::new(alloc, settings, id) {
            Err(refusal) => Err(Refused {
                refusal,
                back: list,
            }),
            Ok(ring) => Ok(Node {
                alloc,
                id,
                list,
                clients: Vec::new(alloc),
                ring,
                judged: Judged::new(alloc),
            }),
        }
    }

    /// Takes a connection in, and gives it the next number. Refused with Access where nothing lets the
    /// credentials in, then with ConnectionsFull.
    pub fn connect(&mut self, pid: u32, cred: Cred) -> Result<u16, Refusal>
        ensures answer { IsAnswer (connect_refusal self.old cred) (λ conn. (conn ≡ suc (length self.old.clients)) × (self.new ≡ connected self.old pid cred)) result }
        ensures err { OnErr result (self.new ≡ self.old) }
        ensures kept { records_of self.new ≡ records_of self.old }
    {
        if self.list.accepts(cred).is_err() {
            return Err(Refusal::Access);
        }
        let count = self.clients.len();
        if count >= usize::from(MOST_CONNECTIONS) {
            return Err(Refusal::ConnectionsFull);
        }
        let conn = count as u16 + 1;
        self.clients.reserve(1)?;
        let new = self.conn_id(conn);
        self.judged.add(new)?;
        self.clients.push_reserved(Client {
            pid,
            cred,
            ended: false,
            taken: 0,
        });
        Ok(conn)
    }

    /// The open connection of that number.
    fn client(&self, conn: u16) -> Option<Client>
        ensures { result ≡ open_client self.now conn }
    {
        open_client(self.clients.as_slice(), conn)
    }

    /// Puts a call of the connection last among what waits. Refused with NoConnection; BadName or TooLong;
    /// QueueFull.
    #[inline(always)]
    pub fn submit(&mut self, conn: u16, call: Call) -> Result<(), Refused<Call>>
        ensures answer { IsAnswer (submit_refusal self.old conn call) (λ _. self.new ≡ submitted self.old conn call) (answer_of result) }
        ensures err { OnErr result (self.new ≡ self.old) }
        ensures back { IfErr result (λ refused. refused.back ≡ call) }
        ensures kept { records_of self.new ≡ records_of self.old }
    {
        let Some(client) = self.client(conn) else {
            return Err(Refused {
                refusal: Refusal::NoConnection,
                back: call,
            });
        };
        if let Some(refusal) = call_refusal(&call) {
            return Err(Refused {
                refusal,
                back: call,
            });
        }
        let entry = client.entry(self.id, conn, Op::Act(call));
        match self.ring.enqueue(entry) {
            Ok(()) => Ok(()),
            Err(refused) => Err(Refused {
                refusal: refused.refusal,
                back: call_in(refused.back),
            }),
        }
    }

    /// Ends a connection: its end waits behind its calls.
    pub fn disconnect(&mut self, conn: u16) -> Result<(), Refusal>
        ensures answer { IsAnswer (closed_refusal (open_client self.old conn)) (λ _. self.new ≡ disconnected self.old conn) result }
        ensures err { OnErr result (self.new ≡ self.old) }
        ensures kept { records_of self.new ≡ records_of self.old }
    {
        let Some(client) = self.client(conn) else {
            return Err(Refusal::NoConnection);
        };
        let entry = client.entry(self.id, conn, Op::Gone);
        match self.ring.enqueue_end(entry) {
            Ok(()) => {
                put_client(
                    &mut self.clients,
                    conn,
                    Client {
                        ended: true,
                        ..client
                    },
                );
                Ok(())
            }
            Err(refused) => Err(refused.into_refusal()),
        }
    }

    /// Why the frame is refused, if it is.
    fn frame_refusal(&self, view: &FrameView<'_>) -> Option<Refusal>
        ensures { result ≡ frame_refusal self.now (frame_seen view.now) }
    {
        match view {
            FrameView::Packet(packet) => self.ring.data_refusal(packet.ring, packet.place),
            FrameView::Token(token) => self.ring.token_refusal(token.ring, token.hop, token.seq),
        }
    }

    /// Hears a frame that was read.
    #[inline(always)]
    fn hear(&mut self, frame: Frame) -> Result<Vec<Bytes>, Refusal>
        requires { IsFrame frame }
        ensures answer { IsFrameAnswer (λ list. list.items) self.old (Some frame) result self.new }
        ensures few { IfOk result (λ list. length list.items ≤ 41) }
        ensures range { OnOk result (All CanBeSpelled (answers_to self.old frame)) }
        ensures kept { records_of self.new ≡ records_of self.old }
    {
        match frame {
            Frame::Packet(packet) => {
                hear_packet(&mut self.ring, packet)?;
                Ok(Vec::new(self.alloc))
            }
            Frame::Token(token) => {
                let list = hear_token(self.alloc, &mut self.ring, &token)?;
                Ok(list)
            }
        }
    }

    /// Hears a frame, and gives what is to be sent: the packets of the token's visit, then the token. What is
    /// refused for its numbers is not copied before, so it asks for no memory.
    pub fn frame(&mut self, bytes: &[u8]) -> Result<Vec<Bytes>, Refusal>
        ensures answer { IsFrameAnswer (λ list. list.items) self.old (frame_of bytes.now) result self.new }
        ensures few { IfOk result (λ list. length list.items ≤ 41) }
        ensures range { OnOk result (IfSome (frame_of bytes.now) (λ f. All CanBeSpelled (answers_to self.old f))) }
        ensures kept { records_of self.new ≡ records_of self.old }
    {
        let Some(view) = FrameView::read(bytes) else {
            return Err(Refusal::Malformed);
        };
        if let Some(refusal) = self.frame_refusal(&view) {
            return Err(refusal);
        }
        let frame = view.copy(self.alloc)?;
        self.hear(frame)
    }

    /// Hears a frame as `frame` does; a long message that it brings is shared with its bytes, not copied.
    #[inline(always)]
    pub fn shared_frame(&mut self, bytes: &Bytes) -> Result<Vec<Bytes>, Refusal>
        ensures answer { IsFrameAnswer (λ list. list.items) self.old (frame_of bytes.now) result self.new }
        ensures few { IfOk result (λ list. length list.items ≤ 41) }
        ensures range { OnOk result (IfSome (frame_of bytes.now) (λ f. All CanBeSpelled (answers_to self.old f))) }
        ensures kept { records_of self.new ≡ records_of self.old }
    {
        let Some(view) = FrameView::read(bytes.as_slice()) else {
            return Err(Refusal::Malformed);
        };
        if let Some(refusal) = self.frame_refusal(&view) {
            return Err(refusal);
        }
        let frame = view.share(self.alloc, bytes)?;
        self.hear(frame)
    }

    /// The node's last token sent, to be sent again.
    pub fn timer(&mut self) -> Result<Option<Bytes>, Refusal>
        ensures ok { IfOk result (λ bytes. bytes ≡ option_map (λ t. spelling Two (frames.Token t)) self.old.ring.state.last_token) }
        ensures same { self.new ≡ self.old }
        ensures memory { IsOkUnless result Refusal.Memory }
        ensures none { self.old.ring.state.last_token ≡ None → result ≡ Ok None }
        ensures range { IfSome self.old.ring.state.last_token (λ t. CanBeSpelled (frames.Token t)) }
    {
        match self.ring.resend() {
            None => Ok(None),
            Some(token) => {
                token_fits(token);
                Ok(Some(encode_token(self.alloc, token)?))
            }
        }
    }

    /// The node hears the token that it sent last, which is for it in a ring of one node, and spells nothing of what it
    /// would send. Tells whether there is a token.
    pub fn turn(&mut self) -> Result<bool, Refusal>
        ensures answer { IsTurnAnswer self.old self.old.ring.state.last_token result self.new }
        ensures kept { records_of self.new ≡ records_of self.old }
    {
        let Some(token) = self.ring.resend() else {
            return Ok(false);
        };
        let token = token.copy(self.alloc)?;
        pass_token(&mut self.ring, &token)?;
        Ok(true)
    }

    /// The judgement of the next place, if it is held.
    pub fn judge_next(&self) -> Result<Option<Record>, Refusal>
        ensures ok { IfOk result (λ next. next ≡ next_record self.now) }
        ensures memory { IsOkUnless result Refusal.Memory }
        ensures none { next_record self.now ≡ None → result ≡ Ok None }
    {
        match self.ring.next_place() {
            None => Ok(None),
            Some(entry) => Ok(Some(self.judged.policy().judge(entry)?)),
        }
    }

    /// Takes the next place as delivered, where the record is its judgement.
    pub fn commit(&mut self, next: Record) -> Result<(), Refused<Record>>
        requires { next_record self.old ≡ Some next }
        ensures ok { OnOk result (self.new ≡ node_after_delivery self.old) }
        ensures unchanged { OnErr result (self.new ≡ self.old) }
        ensures err { IfErr result (λ refused. refused ≡ record { refusal = Refusal.Memory; back = next }) }
    {
        match self.judged.apply(next) {
            Ok(()) => {
                self.ring.advance();
                Ok(())
            }
            Err(refused) => Err(refused),
        }
    }

    /// Judges the next place and takes it as delivered, if it is held.
    #[inline(always)]
    pub fn deliver(&mut self) -> Result<Option<u32>, Refusal>
        ensures ok { IfOk result (λ place. (place ≡ place_to_deliver self.old) × (self.new ≡ node_after_delivery self.old)) }
        ensures err { OnErr result (self.new ≡ self.old) }
        ensures memory { IsOkUnless result Refusal.Memory }
        ensures none { place_to_deliver self.old ≡ None → result ≡ Ok None }
    {
        let Some(entry) = self.ring.next_place() else {
            return Ok(None);
        };
        let entry = entry.copy(self.alloc)?;
        match self.judged.enter(entry) {
            Ok(()) => {
                self.ring.advance();
                Ok(Some(self.ring.delivered()))
            }
            Err(refused) => Err(refused.refusal),
        }
    }

    /// Takes the first delivered entries that its ring has of its own from the shelf, where they lie for all nodes of
    /// the ring: who asks the node sees no difference.
    #[inline(always)]
    pub fn share(&mut self, shelf: &Shelf)
        ensures { self.new ≡ self.old }
    {
        self.ring.share(shelf);
    }

    /// The next item of the connection's inbox, if there is one.
    #[inline(always)]
    pub fn take(&mut self, conn: u16) -> Result<Option<Event>, Refusal>
        ensures answer { IsTakeAnswer self.old conn (open_client self.old conn) result }
        ensures ok { OnOk result (self.new ≡ took self.old conn) }
        ensures err { OnErr result (self.new ≡ self.old) }
        ensures kept { records_of self.new ≡ records_of self.old }
    {
        let Some(client) = self.client(conn) else {
            return Err(Refusal::NoConnection);
        };
        let id = self.conn_id(conn);
        let event = self.judged.event_of(self.alloc, id, client.taken as usize);
        if let Ok(Some(_)) = &event {
            let taken = client.taken + 1;
            put_client(&mut self.clients, conn, Client { taken, ..client });
        }
        event
    }

    fn conn_id(&self, conn: u16) -> ConnId
        ensures { result ≡ conn_id self.now conn }
    {
        ConnId {
            node: self.id,
            conn,
        }
    }

    /// The members of a group, where the connection may list it.
    pub fn list(&self, conn: u16, group: &[u8]) -> Result<Processes, Refusal>
        ensures { IsListAnswer self.now group.now (open_client self.now conn) result }
    {
        match self.client(conn) {
            None => Err(Refusal::NoConnection),
            Some(client) => self.judged.policy().members(group, client.asker(self.id)),
        }
    }

    /// The names of the groups with members that the connection may list.
    pub fn groups(&self, conn: u16) -> Result<Names, Refusal>
        ensures { IsGroupsAnswer self.now (open_client self.now conn) result }
    {
        match self.client(conn) {
            None => Err(Refusal::NoConnection),
            Some(client) => self.judged.policy().groups(client.asker(self.id)),
        }
    }

    /// The records of what was delivered, the first of which stands at place 1.
    pub fn audit(&self) -> &[Record]
        ensures { result.now ≡ records_of self.now }
    {
        self.judged.policy().records()
    }

    /// What is left of the node that is no more, to be freed piece by piece.
    #[tactic(auto, using(crate::proofs::Keeping::delivered_most))]
    pub fn into_remains(self) -> Remains
        ensures { result ≡ length (records_of self) }
    {
        let _ = self.delivered();
        Remains::of(self.ring.into_ledger(), self.judged.into_records())
    }

    /// How many places it delivered: it has a record of each.
    #[tactic(auto, using(crate::proofs::Keeping::delivered_most))]
    pub fn delivered(&self) -> u32
        ensures place { result ≡ self.now.ring.state.delivered }
        ensures count { length (records_of self.now) ≡ result }
        ensures most { result ≤ most_places }
    {
        self.ring.delivered()
    }

    /// A group's current table, where it is not empty.
    pub fn table(&self, group: &[u8]) -> Option<&Table>
        ensures { MatchOption result (rules_of (records_of self.now) group.now ≡ []) (λ table. table.now ≡ rules_of (records_of self.now) group.now) }
    {
        self.judged.policy().table(group)
    }

    /// The open connection of that number.
    pub fn connection(&self, conn: u16) -> Option<Connection>
        ensures { result ≡ connection_of self.now conn }
    {
        let client = self.client(conn)?;
        Some(Connection {
            id: self.conn_id(conn),
            pid: client.pid,
            cred: client.cred,
            taken: client.taken,
        })
    }

    /// The place up to which every node holds all places, in a ring that hears only what it sent.
    pub fn safe(&self) -> u32
        ensures { result ≡ safe_mark self.now.ring.state.arus }
    {
        self.ring.safe()
    }

    /// How many entries wait for a place, ends of connections too.
    pub fn waiting(&self) -> usize
        ensures { result ≡ length self.now.ring.state.waiting }
    {
        self.ring.waiting()
    }

    /// The last token that the node sent; at first the ring's first token at its last node, and none
    /// elsewhere.
    pub fn last_token(&self) -> Option<&Token>
        ensures { option_copied result ≡ self.now.ring.state.last_token }
    {
        self.ring.resend()
    }
}

/// The call of an entry that is one.
fn call_in(entry: Entry) -> Call
    requires { ¬ (entry.op ≡ Op.Gone) }
    ensures { entry.op ≡ Op.Act result }
{
    match entry.op {
        Op::Act(call) => call,
        Op::Gone => unreachable!(),
    }
}
