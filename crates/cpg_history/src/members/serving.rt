//! What a member is to the sessions at its node: their calls, each one event of the history, and so is a listing that is
//! denied.

ghost use Rattle.std.specs.Prelude.{◌≡◌, [], true, false, None, Ok, Err, IfOk, IfNone, OnOk, OnErr, IfErr};
ghost use Rattle.cpg_cred.specs.declared.refusals.Refusal.TheVariants.{Stopped};
ghost use Rattle.cpg_ring.specs.Answers.{IsAnswer, answer_of};
ghost use Rattle.cpg_node.specs.Calls.{submit_refusal, submitted, disconnected};
ghost use Rattle.cpg_world_laws.specs.declared.events.WorldEvent.TheVariants as events;
ghost use Rattle.cpg_world_laws.specs.declared.replies.Reply.TheVariants as reply;
ghost use Rattle.cpg_record.specs.Places.{Begins};
ghost use Rattle.cpg_board.specs.Seats.{IsSeatOf};
ghost use Rattle.cpg_station.specs.Admitting.{IsAdmitted, AdmitsNot, with_newcomer};
ghost use Rattle.cpg_station.specs.Serving.{IsKnown, HearsSession, IsAtEnd, IsTakeFor, IsListFor, IsGroupsFor, KeepsWatch, SubmitRefuses, taken_from, moved_on, halted_of, with_node};
ghost use Rattle.cpg_history.specs.Members.{Told, RefusalTold, is_answer};

use super::Member;
use crate::histories::{Front, Happens, History, HistoryName};
use cpg_board::{Board, Seat};
use cpg_cred::{AcceptList, Cred, NodeId, Refusal, Refused};
use cpg_entry::Call;
use cpg_node::{Connection, Event, Names, Processes};
use cpg_world_laws::WorldEvent;
use std::marker::Brand;

/// Whether the node answered: with the listing, or with the denial.
fn is_answer(listed: &Result<Processes, Refusal>) -> bool
    ensures { result ≡ is_answer listed.now }
{
    matches!(listed, Ok(_) | Err(Refusal::Denied(_)))
}

impl<B: HistoryName> Member<B> {
    /// Takes a connection of that process in, where it is the node that is asked for; and gives a front that has seen it.
    /// Refused as a station's `admit` is. Any other member is halted.
    pub fn admit(
        &mut self,
        history: &History<B>,
        list: &AcceptList,
        node: NodeId,
        pid: u32,
        cred: Cred,
    ) -> Result<(Connection, Front<B>), Refusal>
        requires { list.now ≡ B.start.list }
        ensures ok { IfOk result (λ r. IsAdmitted list.now node pid cred r.0 × IsKnown self.new.station.node r.0) }
        ensures station { OnOk result ((self.old.station.halted ≡ false) × (self.new.station ≡ with_newcomer self.old.station pid cred)) }
        ensures history { IfOk result (λ r. Told B.start [] (events.Connect node pid cred) (Ok (reply.Connected r.0.id.conn)) r.1.seen) }
        ensures err { IfErr result (λ why. AdmitsNot list.now node pid cred self.old.station why self.new.station) }
        ensures halted { self.old.station.halted ≡ true → (result ≡ Err Stopped) × (self.new.station ≡ self.old.station) }
    {
        self.admit_as::<Brand>(history, list, node, pid, cred)
    }

    fn admit_as<E: Happens>(
        &mut self,
        history: &History<B>,
        list: &AcceptList,
        node: NodeId,
        pid: u32,
        cred: Cred,
    ) -> Result<(Connection, Front<B>), Refusal>
        requires list { list.now ≡ B.start.list }
        requires event { E.event ≡ events.Connect node pid cred }
        ensures ok { IfOk result (λ r. IsAdmitted list.now node pid cred r.0 × IsKnown self.new.station.node r.0) }
        ensures station { OnOk result ((self.old.station.halted ≡ false) × (self.new.station ≡ with_newcomer self.old.station pid cred)) }
        ensures history { IfOk result (λ r. Told B.start [] (events.Connect node pid cred) (Ok (reply.Connected r.0.id.conn)) r.1.seen) }
        ensures err { IfErr result (λ why. AdmitsNot list.now node pid cred self.old.station why self.new.station) }
        ensures halted { self.old.station.halted ≡ true → (result ≡ Err Stopped) × (self.new.station ≡ self.old.station) }
    {
        if self.id.get() != node.get() {
            self.station.halt();
            return Err(Refusal::Stopped);
        }
        match self.station.admit(list, node, pid, cred) {
            Ok(who) => {
                let stamp = history.add::<E>(&mut self.pen);
                let front = history.front::<Brand>(&mut self.pen);
                let event = WorldEvent::Connect(node, pid, cred);
                self.trace.note(stamp, 0, stamp, Some(event));
                Ok((who, front))
            }
            Err(refusal) => Err(refusal),
        }
    }

    /// Puts a call of the session last among what waits at the node. Refused as a station's `submit_for` is; the call
    /// comes back.
    pub fn submit_for(
        &mut self,
        history: &History<B>,
        front: &mut Front<B>,
        who: &Connection,
        call: Call,
    ) -> Result<(), Refused<Call>>
        ensures heard { HearsSession self.old.station who.now → IsAnswer (submit_refusal self.old.station.node who.now.id.conn call) (λ _. self.new.station ≡ with_node self.old.station (submitted self.old.station.node who.now.id.conn call)) (answer_of result) }
        ensures history { OnOk result (Told B.start front.old.seen (events.Submit who.now.id.node who.now.id.conn call) (Ok reply.Admitted) front.new.seen) }
        ensures err { IfErr result (λ refused. (refused.back ≡ call) × SubmitRefuses call refused.refusal × KeepsWatch self.old.station who.now self.new.station) }
        ensures unheard { ¬ HearsSession self.old.station who.now → (answer_of result ≡ Err Stopped) × (self.new.station ≡ halted_of self.old.station) }
        ensures front { OnErr result (front.new ≡ front.old) }
    {
        self.submit_for_as::<Brand>(history, front, who, call)
    }

    fn submit_for_as<E: Happens>(
        &mut self,
        history: &History<B>,
        front: &mut Front<B>,
        who: &Connection,
        call: Call,
    ) -> Result<(), Refused<Call>>
        requires { E.event ≡ events.Submit who.now.id.node who.now.id.conn call }
        ensures heard { HearsSession self.old.station who.now → IsAnswer (submit_refusal self.old.station.node who.now.id.conn call) (λ _. self.new.station ≡ with_node self.old.station (submitted self.old.station.node who.now.id.conn call)) (answer_of result) }
        ensures history { OnOk result (Told B.start front.old.seen (events.Submit who.now.id.node who.now.id.conn call) (Ok reply.Admitted) front.new.seen) }
        ensures err { IfErr result (λ refused. (refused.back ≡ call) × SubmitRefuses call refused.refusal × KeepsWatch self.old.station who.now self.new.station) }
        ensures unheard { ¬ HearsSession self.old.station who.now → (answer_of result ≡ Err Stopped) × (self.new.station ≡ halted_of self.old.station) }
        ensures front { OnErr result (front.new ≡ front.old) }
    {
        let event = self.trace.submit(who.id.node, who.id.conn, &call);
        match self.station.submit_for(who, call) {
            Ok(()) => {
                let stamp = history.add_for::<E>(&mut self.pen, front);
                self.trace.note(stamp, 0, stamp, event);
                Ok(())
            }
            Err(refused) => {
                drop(event);
                Err(refused)
            }
        }
    }

    /// Ends a session's connection: its end waits behind its calls. Refused as a station's `close_for` is.
    pub fn close_for(
        &mut self,
        history: &History<B>,
        front: &mut Front<B>,
        who: &Connection,
    ) -> Result<(), Refusal>
        ensures heard { HearsSession self.old.station who.now → IsAnswer None (λ _. self.new.station ≡ with_node self.old.station (disconnected self.old.station.node who.now.id.conn)) result }
        ensures history { OnOk result (Told B.start front.old.seen (events.Disconnect who.now.id.node who.now.id.conn) (Ok reply.Closed) front.new.seen) }
        ensures err { OnErr result (KeepsWatch self.old.station who.now self.new.station × (front.new ≡ front.old)) }
        ensures unheard { ¬ HearsSession self.old.station who.now → (result ≡ Err Stopped) × (self.new.station ≡ halted_of self.old.station) }
    {
        self.close_for_as::<Brand>(history, front, who)
    }

    fn close_for_as<E: Happens>(
        &mut self,
        history: &History<B>,
        front: &mut Front<B>,
        who: &Connection,
    ) -> Result<(), Refusal>
        requires { E.event ≡ events.Disconnect who.now.id.node who.now.id.conn }
        ensures heard { HearsSession self.old.station who.now → IsAnswer None (λ _. self.new.station ≡ with_node self.old.station (disconnected self.old.station.node who.now.id.conn)) result }
        ensures history { OnOk result (Told B.start front.old.seen (events.Disconnect who.now.id.node who.now.id.conn) (Ok reply.Closed) front.new.seen) }
        ensures err { OnErr result (KeepsWatch self.old.station who.now self.new.station × (front.new ≡ front.old)) }
        ensures unheard { ¬ HearsSession self.old.station who.now → (result ≡ Err Stopped) × (self.new.station ≡ halted_of self.old.station) }
    {
        match self.station.close_for(who) {
            Ok(()) => {
                let stamp = history.add_for::<E>(&mut self.pen, front);
                let event = WorldEvent::Disconnect(who.id.node, who.id.conn);
                self.trace.note(stamp, 0, stamp, Some(event));
                Ok(())
            }
            Err(refusal) => Err(refusal),
        }
    }

    /// The next item of the session's inbox, if there is one, which the session then has taken. Refused as a station's
    /// `take_for` is.
    pub fn take_for(
        &mut self,
        history: &History<B>,
        front: &mut Front<B>,
        board: &Board,
        who: &mut Connection,
        seat: &mut Seat,
    ) -> Result<Option<Event>, Refusal>
        requires board { board.now.cells ≡ B.cells }
        requires seat { IsSeatOf B.cells seat.old }
        ensures seat { IsSeatOf B.cells seat.new × Begins seat.old seat.new }
        ensures answer { IsTakeFor who.old seat.old self.new.station seat.new result }
        ensures who { IfOk result (λ event. who.new ≡ moved_on who.old event) }
        ensures end { IfOk result (λ event. IfNone event (IsAtEnd self.new.station.node who.old seat.new)) }
        ensures ok { OnOk result (self.new.station ≡ taken_from self.old.station who.old) }
        ensures history { IfOk result (λ event. Told B.start front.old.seen (events.Take who.old.id.node who.old.id.conn) (Ok (reply.Took event)) front.new.seen) }
        ensures err { OnErr result (KeepsWatch self.old.station who.old self.new.station × (who.new ≡ who.old) × (front.new ≡ front.old)) }
    {
        self.take_for_as::<Brand>(history, front, board, who, seat)
    }

    fn take_for_as<E: Happens>(
        &mut self,
        history: &History<B>,
        front: &mut Front<B>,
        board: &Board,
        who: &mut Connection,
        seat: &mut Seat,
    ) -> Result<Option<Event>, Refusal>
        requires board { board.now.cells ≡ B.cells }
        requires seat { IsSeatOf B.cells seat.old }
        requires event { E.event ≡ events.Take who.old.id.node who.old.id.conn }
        ensures seat { IsSeatOf B.cells seat.new × Begins seat.old seat.new }
        ensures answer { IsTakeFor who.old seat.old self.new.station seat.new result }
        ensures who { IfOk result (λ event. who.new ≡ moved_on who.old event) }
        ensures end { IfOk result (λ event. IfNone event (IsAtEnd self.new.station.node who.old seat.new)) }
        ensures ok { OnOk result (self.new.station ≡ taken_from self.old.station who.old) }
        ensures history { IfOk result (λ event. Told B.start front.old.seen (events.Take who.old.id.node who.old.id.conn) (Ok (reply.Took event)) front.new.seen) }
        ensures err { OnErr result (KeepsWatch self.old.station who.old self.new.station × (who.new ≡ who.old) × (front.new ≡ front.old)) }
    {
        let (node, conn) = (who.id.node, who.id.conn);
        let taken = self.station.take_for(board, who, seat)?;
        let stamp = history.add_for::<E>(&mut self.pen, front);
        let event = WorldEvent::Take(node, conn);
        self.trace.note(stamp, 0, stamp, Some(event));
        Ok(taken)
    }

    /// The members of a group, where the session may list it. Refused as a station's `list_for` is.
    pub fn list_for(
        &mut self,
        history: &History<B>,
        front: &mut Front<B>,
        board: &Board,
        who: &Connection,
        seat: &mut Seat,
        group: &[u8],
    ) -> Result<Processes, Refusal>
        requires board { board.now.cells ≡ B.cells }
        requires seat { IsSeatOf B.cells seat.old }
        ensures seat { IsSeatOf B.cells seat.new × Begins seat.old seat.new }
        ensures answer { IsListFor who.now group.now seat.old self.new.station seat.new result }
        ensures history { IfOk result (λ list. Told B.start front.old.seen (events.List who.now.id.node who.now.id.conn group.now) (Ok (reply.Members list)) front.new.seen) }
        ensures station { KeepsWatch self.old.station who.now self.new.station }
        ensures err { IfErr result (λ why. RefusalTold B.start front.old.seen (events.List who.now.id.node who.now.id.conn group.now) why front.new.seen) }
    {
        self.list_for_as::<Brand>(history, front, board, who, seat, group)
    }

    fn list_for_as<E: Happens>(
        &mut self,
        history: &History<B>,
        front: &mut Front<B>,
        board: &Board,
        who: &Connection,
        seat: &mut Seat,
        group: &[u8],
    ) -> Result<Processes, Refusal>
        requires board { board.now.cells ≡ B.cells }
        requires seat { IsSeatOf B.cells seat.old }
        requires event { E.event ≡ events.List who.now.id.node who.now.id.conn group.now }
        ensures seat { IsSeatOf B.cells seat.new × Begins seat.old seat.new }
        ensures answer { IsListFor who.now group.now seat.old self.new.station seat.new result }
        ensures history { IfOk result (λ list. Told B.start front.old.seen (events.List who.now.id.node who.now.id.conn group.now) (Ok (reply.Members list)) front.new.seen) }
        ensures station { KeepsWatch self.old.station who.now self.new.station }
        ensures err { IfErr result (λ why. RefusalTold B.start front.old.seen (events.List who.now.id.node who.now.id.conn group.now) why front.new.seen) }
    {
        let event = self.trace.list(who.id.node, who.id.conn, group);
        let listed = self.station.list_for(board, who, seat, group);
        if !is_answer(&listed) {
            drop(event);
            return listed;
        }
        let stamp = history.add_for::<E>(&mut self.pen, front);
        self.trace.note(stamp, 0, stamp, event);
        listed
    }

    /// The names of the groups with members that the session may list. Refused as a station's `groups_for` is.
    pub fn groups_for(
        &mut self,
        history: &History<B>,
        front: &mut Front<B>,
        board: &Board,
        who: &Connection,
        seat: &mut Seat,
    ) -> Result<Names, Refusal>
        requires board { board.now.cells ≡ B.cells }
        requires seat { IsSeatOf B.cells seat.old }
        ensures seat { IsSeatOf B.cells seat.new × Begins seat.old seat.new }
        ensures answer { IsGroupsFor who.now seat.old self.new.station seat.new result }
        ensures history { IfOk result (λ names. Told B.start front.old.seen (events.Groups who.now.id.node who.now.id.conn) (Ok (reply.Groups names)) front.new.seen) }
        ensures station { KeepsWatch self.old.station who.now self.new.station }
        ensures front { OnErr result (front.new ≡ front.old) }
    {
        self.groups_for_as::<Brand>(history, front, board, who, seat)
    }

    fn groups_for_as<E: Happens>(
        &mut self,
        history: &History<B>,
        front: &mut Front<B>,
        board: &Board,
        who: &Connection,
        seat: &mut Seat,
    ) -> Result<Names, Refusal>
        requires board { board.now.cells ≡ B.cells }
        requires seat { IsSeatOf B.cells seat.old }
        requires event { E.event ≡ events.Groups who.now.id.node who.now.id.conn }
        ensures seat { IsSeatOf B.cells seat.new × Begins seat.old seat.new }
        ensures answer { IsGroupsFor who.now seat.old self.new.station seat.new result }
        ensures history { IfOk result (λ names. Told B.start front.old.seen (events.Groups who.now.id.node who.now.id.conn) (Ok (reply.Groups names)) front.new.seen) }
        ensures station { KeepsWatch self.old.station who.now self.new.station }
        ensures front { OnErr result (front.new ≡ front.old) }
    {
        let names = self.station.groups_for(board, who, seat)?;
        let stamp = history.add_for::<E>(&mut self.pen, front);
        let event = WorldEvent::Groups(who.id.node, who.id.conn);
        self.trace.note(stamp, 0, stamp, Some(event));
        Ok(names)
    }
}
