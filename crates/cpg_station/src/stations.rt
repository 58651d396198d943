//! What lies under a node's lock.

ghost use Rattle.std.specs.Prelude.{◌≡◌, ◌<◌, ◌≤◌, [], suc, length, false, true, All, None, Ok, Some, OnOk, OnErr, IfOk, IfErr, IfNone, IfSome, IsOkUnless, MatchOption, option_map};
ghost use Rattle.cpg_cred.specs.declared.refusals.Refusal.TheVariants as refusals;
ghost use Rattle.cpg_entry.specs.declared.frames.Frame.TheVariants as frames;
ghost use Rattle.cpg_record.specs.RuleTables.{rules_of};
ghost use Rattle.cpg_ring.specs.Answers.{IsAnswer, answer_of};
ghost use Rattle.cpg_ring.specs.States.{safe_mark};
ghost use Rattle.cpg_wire.specs.declared.codes.Version.TheVariants.{Two};
ghost use Rattle.cpg_wire.specs.Reading.{frame_of};
ghost use Rattle.cpg_wire.specs.Spelling.{spelling};
ghost use Rattle.cpg_node.specs.Answers.{CanBeSpelled, IsFrameAnswer, IsListAnswer, IsGroupsAnswer, IsTakeAnswer, connection_of};
ghost use Rattle.cpg_node.specs.Calls.{connect_refusal, connected, submit_refusal, submitted, closed_refusal, disconnected, answers_to, next_record, place_to_deliver, took};
ghost use Rattle.cpg_node.specs.Nodes.{open_client};
ghost use Rattle.cpg_record.specs.Places.{Begins};
ghost use Rattle.cpg_board.specs.Seats.{IsSeatOf, records_of};
ghost use Rattle.cpg_station.specs.Delivering.{Delivers, DeliverRefuses};
ghost use Rattle.cpg_station.specs.Serving.{BringsUp, StaysDown};
ghost use Rattle.cpg_station.specs.Stations.{KeepsRest, audit_of};

mod serving;

use crate::naming::BoardName;
use crate::standing::stand;
use bytes::Bytes;
use cpg_board::{Board, Seat};
use cpg_cred::{Cred, Refusal, Refused};
use cpg_entry::Call;
use cpg_node::{Connection, Event, Names, Node, Processes, Record};
use cpg_rules::Table;
use std::marker::{Model, PhantomData};

/// A node with its seat of the board. Contracts see it as these two, and whether it is halted.
#[derive(Drop)]
pub struct Station<B: BoardName> {
    pub node: Node,
    pub seat: Seat,
    pub halted: bool,
    of: PhantomData<B>,
}

impl<B: BoardName> Model for Station<B> {
    ghost use Rattle.cpg_ring.specs.Kept.{held_code};
    ghost use Rattle.std.specs.Coded.{codes};
    ghost use Rattle.cpg_board.specs.Seats.{IsSeatOf};
    ghost use Rattle.cpg_station.specs.Stations.{StationValue, Keeps, audit_of};

    ghost Value = { StationValue };

    ghost coded = { Prim.hlevel (codes, held_code) };

    ghost view = { λ station. record { node = station.node; seat = station.seat; halted = station.halted } };

    ghost invariant = { λ station. IsSeatOf B.cells station.seat × Keeps (audit_of station.node) station.seat };
}

impl<B: BoardName> Station<B> {
    /// The station of a node that has delivered nothing, with a seat that has seen nothing.
    pub fn new(node: Node, seat: Seat) -> Station<B>
        requires { (audit_of node ≡ []) × (seat ≡ []) }
        ensures { result ≡ record { node = node; seat = seat; halted = false } }
    {
        Station {
            node,
            seat,
            halted: false,
            of: PhantomData,
        }
    }

    /// Whether it is halted.
    pub fn is_halted(&self) -> bool
        ensures { result ≡ self.now.halted }
    {
        self.halted
    }

    /// Halts it.
    pub fn halt(&mut self)
        ensures { self.new ≡ record { node = self.old.node; seat = self.old.seat; halted = true } }
    {
        self.halted = true;
    }

    /// Takes a connection in, and gives it the next number. Refused with Access where nothing lets the
    /// credentials in, then with ConnectionsFull.
    #[tactic(auto, using(crate::proofs::Steps::kept_on))]
    pub fn connect(&mut self, pid: u32, cred: Cred) -> Result<u16, Refusal>
        ensures answer { IsAnswer (connect_refusal self.old.node cred) (λ conn. (conn ≡ suc (length self.old.node.clients)) × (self.new.node ≡ connected self.old.node pid cred)) result }
        ensures err { OnErr result (self.new ≡ self.old) }
        ensures rest { KeepsRest self.old self.new }
    {
        self.node.connect(pid, cred)
    }

    /// Puts a call of the connection last among what waits. Refused with NoConnection; BadName or TooLong;
    /// QueueFull.
    #[tactic(auto, using(crate::proofs::Steps::kept_on))]
    pub fn submit(&mut self, conn: u16, call: Call) -> Result<(), Refused<Call>>
        ensures answer { IsAnswer (submit_refusal self.old.node conn call) (λ _. self.new.node ≡ submitted self.old.node conn call) (answer_of result) }
        ensures err { OnErr result (self.new ≡ self.old) }
        ensures back { IfErr result (λ refused. refused.back ≡ call) }
        ensures rest { KeepsRest self.old self.new }
    {
        self.node.submit(conn, call)
    }

    /// Ends a connection: its end waits behind its calls.
    #[tactic(auto, using(crate::proofs::Steps::kept_on))]
    pub fn disconnect(&mut self, conn: u16) -> Result<(), Refusal>
        ensures answer { IsAnswer (closed_refusal (open_client self.old.node conn)) (λ _. self.new.node ≡ disconnected self.old.node conn) result }
        ensures err { OnErr result (self.new ≡ self.old) }
        ensures rest { KeepsRest self.old self.new }
    {
        self.node.disconnect(conn)
    }

    /// Hears a frame, and gives what is to be sent: the packets of the token's visit, then the token.
    #[tactic(auto, using(crate::proofs::Steps::kept_on))]
    pub fn frame(&mut self, bytes: &[u8]) -> Result<Vec<Bytes>, Refusal>
        ensures answer { IsFrameAnswer (λ list. list.items) self.old.node (frame_of bytes.now) result self.new.node }
        ensures few { IfOk result (λ list. length list.items ≤ 41) }
        ensures range { OnOk result (IfSome (frame_of bytes.now) (λ f. All CanBeSpelled (answers_to self.old.node f))) }
        ensures rest { KeepsRest self.old self.new }
    {
        self.node.frame(bytes)
    }

    /// Hears a frame as `frame` does; a long message that it brings is shared with its bytes, not copied.
    #[tactic(auto, using(crate::proofs::Steps::kept_on))]
    pub fn shared_frame(&mut self, bytes: &Bytes) -> Result<Vec<Bytes>, Refusal>
        ensures answer { IsFrameAnswer (λ list. list.items) self.old.node (frame_of bytes.now) result self.new.node }
        ensures few { IfOk result (λ list. length list.items ≤ 41) }
        ensures range { OnOk result (IfSome (frame_of bytes.now) (λ f. All CanBeSpelled (answers_to self.old.node f))) }
        ensures rest { KeepsRest self.old self.new }
    {
        self.node.shared_frame(bytes)
    }

    /// The node's last token sent, to be sent again.
    #[tactic(auto, using(crate::proofs::Steps::kept_same))]
    pub fn timer(&mut self) -> Result<Option<Bytes>, Refusal>
        ensures ok { IfOk result (λ bytes. bytes ≡ option_map (λ t. spelling Two (frames.Token t)) self.old.node.ring.state.last_token) }
        ensures same { self.new ≡ self.old }
        ensures memory { IsOkUnless result refusals.Memory }
        ensures none { self.old.node.ring.state.last_token ≡ None → result ≡ Ok None }
        ensures range { IfSome self.old.node.ring.state.last_token (λ t. CanBeSpelled (frames.Token t)) }
    {
        self.node.timer()
    }

    /// Judges the next place, if it is held, has the judgement stand on the board, and takes the place as
    /// delivered; gives the place. Refused with Memory at the judging; BoardFull; Memory; Differs, which
    /// halts the station; Memory at the end, where the judgement stands and the next call takes it up.
    #[tactic(auto, using(crate::proofs::Steps::kept_delivered, crate::proofs::Steps::no_place))]
    pub fn deliver(&mut self, board: &Board) -> Result<Option<u32>, Refusal>
        requires { board.now.cells ≡ B.cells }
        ensures some { IfOk result (λ place. IfSome place (λ place. Delivers place self.old self.new)) }
        ensures place { IfOk result (λ place. place ≡ place_to_deliver self.old.node) }
        ensures none { IfOk result (λ place. IfNone place ((next_record self.old.node ≡ None) × (self.new ≡ self.old))) }
        ensures nothing { next_record self.old.node ≡ None → result ≡ Ok None }
        ensures err { IfErr result (λ why. DeliverRefuses B.cells self.old why self.new) }
        ensures seat { Begins self.old.seat self.new.seat }
    {
        let Some(judgement) = self.node.judge_next()? else {
            return Ok(None);
        };
        match stand(board, &mut self.seat, &self.node, &judgement) {
            Ok(place) => match self.node.commit(judgement) {
                Ok(()) => {
                    self.node.share(board.shelf());
                    Ok(Some(place))
                }
                Err(_) => Err(Refusal::Memory),
            },
            Err(Refusal::Differs) => {
                self.halted = true;
                Err(Refusal::Differs)
            }
            Err(refusal) => Err(refusal),
        }
    }

    /// The next item of the connection's inbox, if there is one.
    #[tactic(auto, using(crate::proofs::Steps::kept_on))]
    pub fn take(&mut self, conn: u16) -> Result<Option<Event>, Refusal>
        ensures answer { IsTakeAnswer self.old.node conn (open_client self.old.node conn) result }
        ensures ok { OnOk result (self.new.node ≡ took self.old.node conn) }
        ensures err { OnErr result (self.new ≡ self.old) }
        ensures rest { KeepsRest self.old self.new }
    {
        self.node.take(conn)
    }

    /// The members of a group, where the connection may list it.
    pub fn list(&self, conn: u16, group: &[u8]) -> Result<Processes, Refusal>
        ensures { IsListAnswer self.now.node group.now (open_client self.now.node conn) result }
    {
        self.node.list(conn, group)
    }

    /// The names of the groups with members that the connection may list.
    pub fn groups(&self, conn: u16) -> Result<Names, Refusal>
        ensures { IsGroupsAnswer self.now.node (open_client self.now.node conn) result }
    {
        self.node.groups(conn)
    }

    /// The records of what was delivered, the first of which stands at place 1.
    pub fn audit(&self) -> &[Record]
        ensures { result.now ≡ audit_of self.now.node }
    {
        self.node.audit()
    }

    /// How many places were delivered.
    pub fn delivered(&self) -> u32
        ensures { length (audit_of self.now.node) ≡ result }
    {
        self.node.delivered()
    }

    /// A group's current table, where it is not empty.
    pub fn table(&self, group: &[u8]) -> Option<&Table>
        ensures { MatchOption result (rules_of (audit_of self.now.node) group.now ≡ []) (λ table. table.now ≡ rules_of (audit_of self.now.node) group.now) }
    {
        self.node.table(group)
    }

    /// The open connection of that number.
    pub fn connection(&self, conn: u16) -> Option<Connection>
        ensures { result ≡ connection_of self.now.node conn }
    {
        self.node.connection(conn)
    }

    /// The place up to which every node holds all places, in a ring that hears only what it sent.
    pub fn safe(&self) -> u32
        ensures { result ≡ safe_mark self.now.node.ring.state.arus }
    {
        self.node.safe()
    }

    /// Brings a session's seat up to the station's, before the station's records answer the session. Refused
    /// with Stopped where the station is halted; with Behind where it has delivered fewer places than the
    /// seat knows; with Memory.
    pub fn bring_up(&self, board: &Board, seat: &mut Seat) -> Result<(), Refusal>
        requires board { board.now.cells ≡ B.cells }
        requires seat { IsSeatOf B.cells seat.old }
        ensures seat { IsSeatOf B.cells seat.new × Begins seat.old seat.new }
        ensures ok { OnOk result (BringsUp self.now seat.old seat.new) }
        ensures err { IfErr result (λ why. StaysDown self.now seat.old why) }
        ensures unchanged { OnErr result (seat.new ≡ seat.old) }
    {
        if self.halted {
            return Err(Refusal::Stopped);
        }
        let delivered = self.node.delivered();
        if (delivered as usize) < seat.len() {
            return Err(Refusal::Behind(delivered));
        }
        board.catch_up(seat, &self.seat)
    }
}
