//! Sessions: a process at a node, with what it has seen.

ghost use Rattle.std.specs.Prelude.{◌≡◌, ◌≤◌, ◌<◌, [], length, None, Ok, Err, IsTrue, IfSome, IfOk, IfErr, OnOk, OnErr, IsOkUnless, IsOk};
ghost use Rattle.cpg_cred.specs.declared.refusals.Refusal.TheVariants.{Memory, Stopped};
ghost use Rattle.cpg_record.specs.Places.{Begins};
ghost use Rattle.cpg_board.specs.Seats.{IsSeatOf, IsLonger};
ghost use Rattle.cpg_node.specs.Calls.{call_refusal};
ghost use Rattle.cpg_station.specs.Serving.{SubmitRefuses, moved_on};
ghost use Rattle.cpg_station.specs.Stations.{audit_of};
ghost use Rattle.cpg_daemon.specs.Sessions.{IsNew, ConnectRefuses, IsTaken, IsListed, AreNamed, IsClosed, IsEndRefusal};
ghost use Rattle.cpg_daemon.specs.Submitting.{IsSubmitted, IsSubmittedMany};
ghost use Rattle.cpg_daemon.specs.Taking.{TakeTold, TakesOne, TakesNext, IsTakenMany};
ghost use Rattle.cpg_history.specs.Members.{Told, RefusalTold};
ghost use mathlib.Core.List.{IsPrefix};
ghost use Rattle.cpg_world_laws.specs.declared.events.WorldEvent.TheVariants as events;
ghost use Rattle.cpg_world_laws.specs.declared.replies.Reply.TheVariants as reply;

use crate::running::Running;
use cpg_board::Seat;
use cpg_cred::{Cred, NodeId, Refusal, Refused};
use cpg_entry::Call;
use cpg_history::{Front, HistoryName, Member};
use cpg_node::{Connection, Event, Names, Processes, call_refusal};
use std::collections::VecDeque;
use std::marker::{Brand, Model};
use std::sync::Wait;

/// A process at a node, with a seat of the board and a front of the history. Contracts see its connection, with how many
/// events it took, what its seat knows, and the beginning of the history that it has seen.
#[derive(Drop)]
pub struct Session<B: HistoryName> {
    who: Connection,
    seat: Seat,
    front: Front<B>,
    /// The number that the session noted when its node told it that there is no event, where it has seen nothing since: while
    /// the node's number is that, the node has delivered nothing, and still answers so.
    quiet: Option<u64>,
}

impl<B: HistoryName> Model for Session<B> {
    ghost use Rattle.std.specs.Prelude.{IfSome};
    ghost use Rattle.cpg_board.specs.Seats.{IsSeatOf};
    ghost use Rattle.cpg_daemon.specs.Sessions.{SessionValue};
    ghost use Rattle.cpg_daemon.specs.Taking.{HasNone};

    ghost Value = { SessionValue };

    ghost view = { λ session. record { who = session.who; seat = session.seat; seen = session.front.seen } };

    ghost invariant = { λ session. IsSeatOf B.cells session.seat × IfSome session.quiet (λ told. HasNone B.start (record { who = session.who; seat = session.seat; seen = session.front.seen })) };
}

impl<B: HistoryName> Session<B> {
    /// What it has seen.
    pub fn seat(&self) -> &Seat
        ensures { (result.now ≡ self.now.seat) × IsSeatOf B.cells result.now }
    {
        &self.seat
    }

    /// Its connection, with how many events it took.
    pub fn connection(&self) -> Connection
        ensures { result ≡ self.now.who }
    {
        self.who
    }

    /// Its front of the history.
    fn into_front(self) -> Front<B>
        ensures { result.seen ≡ self.seen }
    {
        let Session {
            who: _,
            seat,
            front,
            quiet: _,
        } = self;
        drop(seat);
        front
    }
}

impl<B: HistoryName, G> Running<B, G> {
    /// A session for the process at the node. Refused with Stopped; Access where nothing lets the
    /// credentials in; ConnectionsFull; Memory.
    #[tactic(auto, using(crate::proofs::Answering::connect_refuses))]
    pub fn connect<R: Wait>(
        &self,
        rt: &R,
        node: NodeId,
        pid: u32,
        cred: Cred,
    ) -> Result<Session<B>, Refusal>
        requires { node ≤ self.now.nodes }
        ensures ok { IfOk result (λ session. IsNew self.now.list node pid cred session) }
        ensures history { IfOk result (λ session. Told B.start [] (events.Connect node pid cred) (Ok (reply.Connected session.who.id.conn)) session.seen) }
        ensures err { IfErr result (ConnectRefuses self.now.list cred) }
    {
        let mut station = self.hold(rt, node);
        let answer = station.admit(&self.history, &self.list, node, pid, cred);
        self.note(node, &answer);
        let (who, front) = answer?;
        Ok(Session {
            who,
            seat: self.auditor(),
            front,
            quiet: None,
        })
    }

    /// Has the node's flags say what a refusal tells of its station, whose lock is held: that its queue is full, or that it is
    /// halted. A station that is not as a session knows it halts at that.
    fn note_refusal(&self, node: NodeId, refusal: Refusal)
        requires { node ≤ self.now.nodes }
    {
        match refusal {
            Refusal::QueueFull => self.flags(node).fill(),
            Refusal::Stopped => self.flags(node).halt(),
            _ => {}
        }
    }

    /// The same of an answer, where it is a refusal.
    fn note<T>(&self, node: NodeId, answer: &Result<T, Refusal>)
        requires { node ≤ self.now.nodes }
    {
        if let Err(refusal) = answer {
            self.note_refusal(node, *refusal);
        }
    }

    /// Whether the call would be refused with QueueFull, as far as can be seen without the node's lock: a call found the queue
    /// full, and no token has come by since to take calls along. A call that is refused for itself is told why under the lock,
    /// and so is any call once the nodes are halted.
    fn is_full(&self, node: NodeId, call: &Call) -> bool
        requires { node ≤ self.now.nodes }
        ensures { IsTrue result → call_refusal call.now ≡ None }
    {
        self.flags(node).is_full() && !self.are_halted() && call_refusal(call).is_none()
    }

    /// Puts a call of the session last among what waits at its station, whose lock is held. Refused as `submit` is.
    fn submit_to(
        &self,
        station: &mut Member<B>,
        session: &mut Session<B>,
        call: Call,
    ) -> Result<(), Refused<Call>>
        requires { session.old.who.id.node ≤ self.now.nodes }
        ensures { IsSubmitted B.start session.old call result session.new }
    {
        match station.submit_for(&self.history, &mut session.front, &session.who, call) {
            Ok(()) => {
                session.quiet = None;
                Ok(())
            }
            Err(refused) => {
                self.note_refusal(session.who.id.node, refused.refusal);
                Err(refused)
            }
        }
    }

    /// Puts a call of the session last among what waits at its node. Refused with Stopped; BadName or TooLong;
    /// QueueFull; Memory. The call comes back. Where a call found the queue full, and no token has come by the node since,
    /// the queue still is: QueueFull is answered without the node's lock then.
    pub fn submit<R: Wait>(
        &self,
        rt: &R,
        session: &mut Session<B>,
        call: Call,
    ) -> Result<(), Refused<Call>>
        requires { session.old.who.id.node ≤ self.now.nodes }
        ensures same { (session.new.who ≡ session.old.who) × (session.new.seat ≡ session.old.seat) }
        ensures history { OnOk result (Told B.start session.old.seen (events.Submit session.old.who.id.node session.old.who.id.conn call) (Ok reply.Admitted) session.new.seen) }
        ensures err { IfErr result (λ refused. (refused.back ≡ call) × SubmitRefuses call refused.refusal) }
        ensures unchanged { OnErr result (session.new ≡ session.old) }
    {
        let node = session.who.id.node;
        if self.is_full(node, &call) {
            return Err(Refused {
                refusal: Refusal::QueueFull,
                back: call,
            });
        }
        let mut station = self.hold(rt, node);
        let answer = self.submit_to(&mut station, session, call);
        drop(station);
        if answer.is_ok() {
            self.tell_call();
        }
        answer
    }

    /// Puts the calls of the list among what waits at the session's station, whose lock is held, from the first on, until one
    /// is refused. The admitted ones leave the list.
    #[tactic(auto, using(crate::proofs::Submitting::none_yet))]
    fn submit_each(
        &self,
        station: &mut Member<B>,
        session: &mut Session<B>,
        calls: &mut VecDeque<Call>,
    ) -> Result<(), Refusal>
        requires { session.old.who.id.node ≤ self.now.nodes }
        ensures calls { IsSubmittedMany B.start session.old calls.old.items result calls.new.items session.new }
        ensures same { (session.new.who ≡ session.old.who) × (session.new.seat ≡ session.old.seat) }
    {
        while let Some(call) = calls.pop_front() {
            if let Err(refused) = self.submit_to(station, session, call) {
                calls.push_front_reserved(refused.back);
                return Err(refused.refusal);
            }
        }
        Ok(())
    }

    /// Puts the calls of the list last among what waits at the session's node, from the first on: one after the other under
    /// one lock, as if by `submit`, until one is refused or none is left. The admitted ones leave the list, so that a refused
    /// one is its first then. Refused as `submit` is. It holds no lock where there is no call, and where `submit` would hold
    /// none for the first.
    #[tactic(auto, using(crate::proofs::Submitting::none_yet))]
    pub fn submit_many<R: Wait>(
        &self,
        rt: &R,
        session: &mut Session<B>,
        calls: &mut VecDeque<Call>,
    ) -> Result<(), Refusal>
        requires { session.old.who.id.node ≤ self.now.nodes }
        ensures calls { IsSubmittedMany B.start session.old calls.old.items result calls.new.items session.new }
        ensures same { (session.new.who ≡ session.old.who) × (session.new.seat ≡ session.old.seat) }
    {
        let node = session.who.id.node;
        let Some(first) = calls.front() else {
            return Ok(());
        };
        if self.is_full(node, first) {
            return Err(Refusal::QueueFull);
        }
        let before = calls.len();
        let mut station = self.hold(rt, node);
        let answer = self.submit_each(&mut station, session, calls);
        drop(station);
        if calls.len() < before {
            self.tell_call();
        }
        answer
    }

    /// Whether the session would be told that there is no event, as far as can be seen without the node's lock: it was told so,
    /// has seen nothing since, and its node has delivered nothing since. Once the nodes are halted, the node is asked.
    #[tactic(auto, using(crate::proofs::Repeating::repeats))]
    fn has_none(&self, session: &Session<B>) -> bool
        requires { session.now.who.id.node ≤ self.now.nodes }
        ensures { IsTrue result → TakesOne B.start session.now (Ok None) session.now }
    {
        match session.quiet {
            Some(told) => told == self.flags(session.who.id.node).told() && !self.are_halted(),
            None => false,
        }
    }

    /// Notes the node's number, where the node has delivered just what the seat knows: the seat may know one record more,
    /// which stands on the board already. Its lock is held.
    fn told_at(&self, station: &Member<B>, node: NodeId, seat: &Seat) -> Option<u64>
        requires { node ≤ self.now.nodes }
        ensures { IfSome result (λ told. length (audit_of station.now.station.node) ≡ length seat.now) }
    {
        if station.station().delivered() as usize == seat.len() {
            Some(self.flags(node).note())
        } else {
            None
        }
    }

    /// The next event of the session, if there is one. Refused with Stopped; with Behind where its node has
    /// delivered fewer places than the session has seen; with Memory. Where the session was told last that there is none, and
    /// its node has delivered nothing since, there still is none: that is answered without the node's lock then, and adds
    /// nothing to the history, whose world after all that the session has seen answers so.
    pub fn take<R: Wait>(&self, rt: &R, session: &mut Session<B>) -> Result<Option<Event>, Refusal>
        requires { session.old.who.id.node ≤ self.now.nodes }
        ensures answer { IsTaken session.old session.new.seat result }
        ensures history { IfOk result (TakeTold B.start session.old session.new.seen) }
        ensures who { IfOk result (λ event. session.new.who ≡ moved_on session.old.who event) }
        ensures err { OnErr result ((session.new.who ≡ session.old.who) × (session.new.seen ≡ session.old.seen)) }
        ensures seat { Begins session.old.seat session.new.seat }
    {
        if self.has_none(session) {
            return Ok(None);
        }
        let mut station = self.hold(rt, session.who.id.node);
        self.take_from(&mut station, session)
    }

    /// The next event of the session, if there is one, from its station, whose lock is held. Where there is none, the session
    /// notes the node's number.
    #[tactic(auto, using(crate::proofs::Repeating::told_takes))]
    fn take_from(
        &self,
        station: &mut Member<B>,
        session: &mut Session<B>,
    ) -> Result<Option<Event>, Refusal>
        requires { session.old.who.id.node ≤ self.now.nodes }
        ensures { TakesOne B.start session.old result session.new }
    {
        session.quiet = None;
        let answer = station.take_for(
            &self.history,
            &mut session.front,
            self.board(),
            &mut session.who,
            &mut session.seat,
        );
        self.note(session.who.id.node, &answer);
        let taken = answer?;
        match taken {
            Some(event) => Ok(Some(event)),
            None => {
                session.quiet = self.told_at(station, session.who.id.node, &session.seat);
                Ok(None)
            }
        }
    }

    /// Takes an event more, and puts it behind those of the list. Says whether there was one. Room for it is made
    /// first, so that none is taken that can't be given. Refused as `take` is; then the list is as it was.
    fn take_onto(
        &self,
        station: &mut Member<B>,
        session: &mut Session<B>,
        events: &mut Vec<Event>,
    ) -> Result<bool, Refusal>
        requires { session.old.who.id.node ≤ self.now.nodes }
        ensures ok { IfOk result (λ more. TakesNext B.start session.old events.old.items more events.new.items session.new) }
        ensures err { IfErr result (λ why. TakesOne B.start session.old (Err why) session.new × (events.new.items ≡ events.old.items)) }
    {
        events.reserve(1)?;
        match self.take_from(station, session)? {
            Some(event) => {
                events.push_reserved(event);
                Ok(true)
            }
            None => Ok(false),
        }
    }

    /// The session's next events, behind those of the list: one after the other under one lock, as if by `take`, until so
    /// many were taken or there is none. Gives how many. Refused as `take` is, and with Memory where the list has to grow;
    /// the events that were taken before stand in the list then, too. It holds no lock where `take` would hold none.
    #[tactic(auto, using(crate::proofs::Repeating::repeats_many))]
    pub fn take_many<R: Wait>(
        &self,
        rt: &R,
        session: &mut Session<B>,
        events: &mut Vec<Event>,
        most: usize,
    ) -> Result<usize, Refusal>
        requires { session.old.who.id.node ≤ self.now.nodes }
        ensures events { IsTakenMany B.start most session.old events.old.items result events.new.items session.new }
        ensures same { session.new.who.id ≡ session.old.who.id }
        ensures seat { Begins session.old.seat session.new.seat }
    {
        if self.has_none(session) {
            return Ok(0);
        }
        let mut station = self.hold(rt, session.who.id.node);
        for taken in 0..most {
            if !self.take_onto(&mut station, session, events)? {
                return Ok(taken);
            }
        }
        Ok(most)
    }

    /// The members of a group. Refused with Stopped; Behind; with Denied where the group's rules deny the
    /// session the listing; with Memory.
    #[tactic(auto, using(crate::proofs::Answering::listed))]
    pub fn list<R: Wait>(
        &self,
        rt: &R,
        session: &mut Session<B>,
        group: &[u8],
    ) -> Result<Processes, Refusal>
        requires { session.old.who.id.node ≤ self.now.nodes }
        ensures answer { IsListed session.old group.now session.new.seat result }
        ensures history { IfOk result (λ list. Told B.start session.old.seen (events.List session.old.who.id.node session.old.who.id.conn group.now) (Ok (reply.Members list)) session.new.seen) }
        ensures err { IfErr result (λ why. RefusalTold B.start session.old.seen (events.List session.old.who.id.node session.old.who.id.conn group.now) why session.new.seen) }
        ensures who { session.new.who ≡ session.old.who }
        ensures seat { Begins session.old.seat session.new.seat }
    {
        session.quiet = None;
        let mut station = self.hold(rt, session.who.id.node);
        let answer = station.list_for(
            &self.history,
            &mut session.front,
            self.board(),
            &session.who,
            &mut session.seat,
            group,
        );
        self.note(session.who.id.node, &answer);
        answer
    }

    /// The names of the groups with members that the session may list. Refused with Stopped; Behind; Memory.
    #[tactic(auto, using(crate::proofs::Answering::named))]
    pub fn groups<R: Wait>(&self, rt: &R, session: &mut Session<B>) -> Result<Names, Refusal>
        requires { session.old.who.id.node ≤ self.now.nodes }
        ensures answer { AreNamed session.old session.new.seat result }
        ensures history { IfOk result (λ names. Told B.start session.old.seen (events.Groups session.old.who.id.node session.old.who.id.conn) (Ok (reply.Groups names)) session.new.seen) }
        ensures err { OnErr result (session.new.seen ≡ session.old.seen) }
        ensures who { session.new.who ≡ session.old.who }
        ensures seat { Begins session.old.seat session.new.seat }
    {
        session.quiet = None;
        let mut station = self.hold(rt, session.who.id.node);
        let answer = station.groups_for(
            &self.history,
            &mut session.front,
            self.board(),
            &session.who,
            &mut session.seat,
        );
        self.note(session.who.id.node, &answer);
        answer
    }

    /// Ends the session's connection, and gives a front of the history that has seen its end: that waits behind its calls.
    /// Refused with Stopped; with Memory. The session comes back.
    pub fn end<R: Wait>(
        &self,
        rt: &R,
        mut session: Session<B>,
    ) -> Result<Front<B>, Refused<Session<B>>>
        requires { session.who.id.node ≤ self.now.nodes }
        ensures history { IfOk result (λ front. Told B.start session.seen (events.Disconnect session.who.id.node session.who.id.conn) (Ok reply.Closed) front.seen) }
        ensures err { IfErr result (λ refused. (refused.back ≡ session) × IsEndRefusal refused.refusal) }
    {
        match self.end_at(rt, &mut session) {
            Ok(()) => {
                self.tell_call();
                Ok(session.into_front())
            }
            Err(refusal) => Err(Refused {
                refusal,
                back: session,
            }),
        }
    }

    /// Ends the session's connection: what `end` does, without the front.
    #[tactic(auto, using(crate::proofs::Answering::closed_at))]
    pub fn close<R: Wait>(&self, rt: &R, session: Session<B>) -> Result<(), Refused<Session<B>>>
        requires { session.who.id.node ≤ self.now.nodes }
        ensures history { OnOk result (IsClosed B.start session) }
        ensures err { IfErr result (λ refused. (refused.back ≡ session) × IsEndRefusal refused.refusal) }
    {
        match self.end(rt, session) {
            Ok(_front) => Ok(()),
            Err(refused) => Err(refused),
        }
    }

    /// Ends the session's connection at its node.
    fn end_at<R: Wait>(&self, rt: &R, session: &mut Session<B>) -> Result<(), Refusal>
        requires { session.old.who.id.node ≤ self.now.nodes }
        ensures history { OnOk result (Told B.start session.old.seen (events.Disconnect session.old.who.id.node session.old.who.id.conn) (Ok reply.Closed) session.new.seen) }
        ensures err { IfErr result (λ why. IsEndRefusal why × (session.new ≡ session.old)) }
    {
        session.quiet = None;
        let mut station = self.hold(rt, session.who.id.node);
        let answer = station.close_for(&self.history, &mut session.front, &session.who);
        self.note(session.who.id.node, &answer);
        answer
    }

    /// A front of the history that has seen what both have.
    pub fn join(&self, one: Front<B>, two: Front<B>) -> Front<B>
        ensures one { IsPrefix one.seen result.seen }
        ensures two { IsPrefix two.seen result.seen }
    {
        self.history.meet(one, two)
    }

    /// A front of the history that has seen what both sessions have: what they saw begins one history.
    pub fn meet(&self, one: &mut Session<B>, two: &mut Session<B>) -> Front<B>
        ensures one { IsPrefix one.old.seen result.seen × (one.new ≡ one.old) }
        ensures two { IsPrefix two.old.seen result.seen × (two.new ≡ two.old) }
    {
        let first = self.history.again::<Brand>(&mut one.front);
        let second = self.history.again::<Brand>(&mut two.front);
        self.history.meet(first, second)
    }

    /// The session has seen what that seat knows, if that is more. Refused with Memory.
    pub fn tell(&self, session: &mut Session<B>, seat: &Seat) -> Result<(), Refusal>
        requires { IsSeatOf B.cells seat.now }
        ensures ok { OnOk result (IsLonger session.old.seat seat.now session.new.seat) }
        ensures err { OnErr result (session.new ≡ session.old) }
        ensures memory { IsOkUnless result Memory }
        ensures who { session.new.who ≡ session.old.who }
        ensures seat { Begins session.old.seat session.new.seat }
        ensures none { length seat.now ≤ length session.old.seat → IsOk result }
    {
        session.quiet = None;
        self.board().catch_up(&mut session.seat, seat)
    }
}
