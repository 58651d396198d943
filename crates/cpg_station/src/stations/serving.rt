//! What a station is to the sessions at its node: their calls, each as one section under the station's lock.

ghost use Rattle.std.specs.Prelude.{◌≡◌, ◌≢◌, ◌↔◌, suc, length, true, false, IsTrue, None, Ok, Err, IfOk, IfNone, OnOk, OnErr, IfErr};
ghost use Rattle.cpg_cred.specs.declared.refusals.Refusal.TheVariants.{Stopped};
ghost use Rattle.cpg_record.specs.Places.{Begins};
ghost use Rattle.cpg_board.specs.Seats.{IsSeatOf};
ghost use Rattle.cpg_node.specs.Answers.{IsTakeAnswer, IsListAnswer, IsGroupsAnswer};
ghost use Rattle.cpg_node.specs.Calls.{connect_refusal, submit_refusal, submitted, disconnected};
ghost use Rattle.cpg_node.specs.Nodes.{open_client};
ghost use Rattle.cpg_ring.specs.Answers.{IsAnswer, answer_of};
ghost use Rattle.cpg_station.specs.Admitting.{IsAdmitted, AdmitsNot, is_shut, with_newcomer};
ghost use Rattle.cpg_station.specs.Serving.{IsKnown, HearsSession, BringsUp, StaysDown, IsAtEnd, IsTakeFor, IsListFor, IsGroupsFor, KeepsWatch, StaysOrHalts, SubmitRefuses, WhereDenied, taken_from, moved_on, halted_of, with_node};

use super::Station;
use crate::naming::BoardName;
use cpg_board::{Board, Seat};
use cpg_cred::{AcceptList, Cred, NodeId, Refusal, Refused};
use cpg_entry::Call;
use cpg_node::{Connection, Event, Names, Processes};
use cpg_record::ConnId;

/// Whether the refusal is Access.
fn is_access(refusal: Refusal) -> bool
    ensures { result ≡ is_shut refusal }
{
    matches!(refusal, Refusal::Access)
}

impl<B: BoardName> Station<B> {
    /// Whether the connection is open, and is as the session knows it.
    fn knows(&self, who: &Connection) -> bool
        ensures { IsTrue result ↔ IsKnown self.now.node who.now }
    {
        match self.node.connection(who.id.conn) {
            Some(open) => open == *who,
            None => false,
        }
    }

    /// Has the new connection known to its session, where the station accepted it just as the list does, and
    /// knows it as it is. Any other station is halted, and answers Stopped.
    fn greet(&mut self, accepted: bool, who: Connection) -> Result<Connection, Refusal>
        ensures ok { IfOk result (λ greeted. (greeted ≡ who) × IsTrue accepted × IsKnown self.old.node who × (self.new ≡ self.old)) }
        ensures err { IfErr result (λ why. (why ≡ Stopped) × (self.new ≡ halted_of self.old) × (¬ (IsTrue accepted × IsKnown self.old.node who))) }
    {
        if accepted && self.knows(&who) {
            Ok(who)
        } else {
            self.halted = true;
            Err(Refusal::Stopped)
        }
    }

    /// What a process is told that the station did not take in: why, where the station turns away just whom
    /// the list does. Any other station is halted, and answers Stopped.
    fn turn_away(&mut self, accepted: bool, refusal: Refusal) -> Refusal
        ensures alike { accepted ≢ is_shut refusal → (result ≡ refusal) × (self.new ≡ self.old) }
        ensures unlike { accepted ≡ is_shut refusal → (result ≡ Stopped) × (self.new ≡ halted_of self.old) }
    {
        if accepted == is_access(refusal) {
            self.halted = true;
            Refusal::Stopped
        } else {
            refusal
        }
    }

    /// Refused with Stopped where the station is halted. A station that finds the connection other than the
    /// session knows it is halted.
    fn watch(&mut self, who: &Connection) -> Result<(), Refusal>
        ensures ok { OnOk result (HearsSession self.old who.now × (self.new ≡ self.old)) }
        ensures err { IfErr result (λ why. (why ≡ Stopped) × (¬ HearsSession self.old who.now) × (self.new ≡ halted_of self.old) × KeepsWatch self.old who.now self.new) }
    {
        if !self.knows(who) {
            self.halted = true;
        }
        if self.halted {
            Err(Refusal::Stopped)
        } else {
            Ok(())
        }
    }

    /// Takes a connection of that process in, where the station accepts it just as the list does: the next
    /// number's, and nothing else changes. A station that does otherwise, or whose node has another number, is
    /// halted. Refused with Stopped where the station is halted; with Access where nothing lets the credentials
    /// in; with ConnectionsFull; with Memory.
    #[tactic(auto, using(crate::proofs::Admitting::accepted, crate::proofs::Admitting::station_is, crate::proofs::Admitting::greeted_not))]
    pub fn admit(
        &mut self,
        list: &AcceptList,
        node: NodeId,
        pid: u32,
        cred: Cred,
    ) -> Result<Connection, Refusal>
        ensures ok { IfOk result (λ who. IsAdmitted list.now node pid cred who × IsKnown self.new.node who) }
        ensures number { IfOk result (λ who. who.id.conn ≡ suc (length self.old.node.clients)) }
        ensures room { OnOk result (connect_refusal self.old.node cred ≡ None) }
        ensures station { OnOk result ((self.old.halted ≡ false) × (self.new ≡ with_newcomer self.old pid cred)) }
        ensures err { IfErr result (λ why. AdmitsNot list.now node pid cred self.old why self.new) }
        ensures halted { self.old.halted ≡ true → (result ≡ Err Stopped) × (self.new ≡ self.old) }
    {
        if self.halted {
            return Err(Refusal::Stopped);
        }
        let accepted = list.accepts(cred).is_ok();
        match self.connect(pid, cred) {
            Ok(conn) => {
                let who = Connection {
                    id: ConnId { node, conn },
                    pid,
                    cred,
                    taken: 0,
                };
                self.greet(accepted, who)
            }
            Err(refusal) => Err(self.turn_away(accepted, refusal)),
        }
    }

    /// Brings a session's seat up to the station's, before the station's records answer the session. A
    /// station that finds the connection other than the session knows it is halted. Refused with Stopped
    /// where the station is halted; with Behind where it has delivered fewer places than the seat knows;
    /// with Memory.
    pub fn serve(&mut self, board: &Board, who: &Connection, seat: &mut Seat) -> Result<(), Refusal>
        requires board { board.now.cells ≡ B.cells }
        requires seat { IsSeatOf B.cells seat.old }
        ensures seat { IsSeatOf B.cells seat.new × Begins seat.old seat.new }
        ensures ok { OnOk result (IsKnown self.old.node who.now × BringsUp self.new seat.old seat.new) }
        ensures heard { OnOk result (HearsSession self.old who.now × (self.new ≡ self.old)) }
        ensures err { IfErr result (λ why. StaysDown self.new seat.old why × (seat.new ≡ seat.old)) }
        ensures station { KeepsWatch self.old who.now self.new × StaysOrHalts self.old self.new }
    {
        self.watch(who)?;
        self.bring_up(board, seat)
    }

    /// The next item of the session's inbox, if there is one, which the session then has taken. Refused as
    /// `serve` is, and then with Memory.
    #[tactic(auto, using(crate::proofs::Sessions::said_take, crate::proofs::Sessions::at_end, crate::proofs::Sessions::told_after, crate::proofs::Sessions::down_take))]
    pub fn take_for(
        &mut self,
        board: &Board,
        who: &mut Connection,
        seat: &mut Seat,
    ) -> Result<Option<Event>, Refusal>
        requires board { board.now.cells ≡ B.cells }
        requires seat { IsSeatOf B.cells seat.old }
        ensures seat { IsSeatOf B.cells seat.new × Begins seat.old seat.new }
        ensures answer { IsTakeFor who.old seat.old self.new seat.new result }
        ensures who { IfOk result (λ event. who.new ≡ moved_on who.old event) }
        ensures end { IfOk result (λ event. IfNone event (IsAtEnd self.new.node who.old seat.new)) }
        ensures ok { OnOk result (self.new ≡ taken_from self.old who.old) }
        ensures exact { OnOk result (HearsSession self.old who.old × IsTakeAnswer self.old.node who.old.id.conn (open_client self.old.node who.old.id.conn) result) }
        ensures err { OnErr result (KeepsWatch self.old who.old self.new × StaysOrHalts self.old self.new × (who.new ≡ who.old)) }
    {
        self.serve(board, &*who, seat)?;
        let event = self.node.take(who.id.conn)?;
        if let Some(open) = self.node.connection(who.id.conn) {
            *who = open;
        }
        Ok(event)
    }

    /// Puts a call of the session last among what waits at the node. A station that finds the connection
    /// other than the session knows it is halted. Refused with Stopped where the station is halted; BadName
    /// or TooLong; QueueFull; Memory.
    #[tactic(auto, using(crate::proofs::Sessions::submit_refuses))]
    pub fn submit_for(&mut self, who: &Connection, call: Call) -> Result<(), Refused<Call>>
        ensures heard { HearsSession self.old who.now → IsAnswer (submit_refusal self.old.node who.now.id.conn call) (λ _. self.new ≡ with_node self.old (submitted self.old.node who.now.id.conn call)) (answer_of result) }
        ensures ok { OnOk result (HearsSession self.old who.now) }
        ensures err { IfErr result (λ refused. (refused.back ≡ call) × SubmitRefuses call refused.refusal × KeepsWatch self.old who.now self.new) }
        ensures stays { OnErr result (StaysOrHalts self.old self.new) }
        ensures unheard { ¬ HearsSession self.old who.now → (answer_of result ≡ Err Stopped) × (self.new ≡ halted_of self.old) }
    {
        if let Err(refusal) = self.watch(who) {
            return Err(Refused {
                refusal,
                back: call,
            });
        }
        self.submit(who.id.conn, call)
    }

    /// Ends a session's connection: its end waits behind its calls. A station that finds the connection
    /// other than the session knows it is halted. Refused with Stopped where the station is halted; with
    /// Memory.
    #[tactic(auto, using(crate::proofs::Sessions::known_open))]
    pub fn close_for(&mut self, who: &Connection) -> Result<(), Refusal>
        ensures heard { HearsSession self.old who.now → IsAnswer None (λ _. self.new ≡ with_node self.old (disconnected self.old.node who.now.id.conn)) result }
        ensures ok { OnOk result (HearsSession self.old who.now) }
        ensures err { OnErr result (KeepsWatch self.old who.now self.new × StaysOrHalts self.old self.new) }
        ensures unheard { ¬ HearsSession self.old who.now → (result ≡ Err Stopped) × (self.new ≡ halted_of self.old) }
    {
        self.watch(who)?;
        self.disconnect(who.id.conn)
    }

    /// The members of a group, where the session may list it. Refused as `serve` is, and then with Denied or
    /// Memory.
    #[tactic(auto, using(crate::proofs::Sessions::said_list, crate::proofs::Sessions::down_list, crate::proofs::Sessions::down_denied, crate::proofs::Sessions::where_denied))]
    pub fn list_for(
        &mut self,
        board: &Board,
        who: &Connection,
        seat: &mut Seat,
        group: &[u8],
    ) -> Result<Processes, Refusal>
        requires board { board.now.cells ≡ B.cells }
        requires seat { IsSeatOf B.cells seat.old }
        ensures seat { IsSeatOf B.cells seat.new × Begins seat.old seat.new }
        ensures answer { IsListFor who.now group.now seat.old self.new seat.new result }
        ensures ok { OnOk result (HearsSession self.old who.now × (self.new ≡ self.old) × IsListAnswer self.old.node group.now (open_client self.old.node who.now.id.conn) result) }
        ensures denied { IfErr result (WhereDenied (HearsSession self.old who.now × (self.new ≡ self.old) × IsListAnswer self.old.node group.now (open_client self.old.node who.now.id.conn) result)) }
        ensures station { KeepsWatch self.old who.now self.new × StaysOrHalts self.old self.new }
    {
        self.serve(board, who, seat)?;
        self.node.list(who.id.conn, group)
    }

    /// The names of the groups with members that the session may list. Refused as `serve` is, and then with
    /// Memory.
    #[tactic(auto, using(crate::proofs::Sessions::said_groups, crate::proofs::Sessions::down_groups))]
    pub fn groups_for(
        &mut self,
        board: &Board,
        who: &Connection,
        seat: &mut Seat,
    ) -> Result<Names, Refusal>
        requires board { board.now.cells ≡ B.cells }
        requires seat { IsSeatOf B.cells seat.old }
        ensures seat { IsSeatOf B.cells seat.new × Begins seat.old seat.new }
        ensures answer { IsGroupsFor who.now seat.old self.new seat.new result }
        ensures ok { OnOk result (HearsSession self.old who.now × (self.new ≡ self.old) × IsGroupsAnswer self.old.node (open_client self.old.node who.now.id.conn) result) }
        ensures station { KeepsWatch self.old who.now self.new × StaysOrHalts self.old self.new }
    {
        self.serve(board, who, seat)?;
        self.node.groups(who.id.conn)
    }
}
