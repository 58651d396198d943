//! Stations with their nodes' pens of the history, as they lie under locks.
//!
//! Each call that changes a node, and each look at it, is one event of the history, and its answer is the reply of the
//! definitions to that event in the world that it came to. A denied listing is one, too. A call that is refused otherwise
//! adds nothing.

ghost use Rattle.std.specs.Prelude.{◌≡◌, [], true, false, length, None, Ok, Err, IfOk, IfSome, OnErr, IfErr};
ghost use Rattle.cpg_cred.specs.declared.refusals.Refusal.TheVariants as refusals;
ghost use mathlib.Core.List.{IsPrefix};
ghost use Rattle.cpg_ring.specs.States.{safe_mark};
ghost use Rattle.cpg_node.specs.Calls.{next_record};
ghost use Rattle.cpg_world_laws.specs.declared.events.WorldEvent.TheVariants as events;
ghost use Rattle.cpg_world_laws.specs.declared.replies.Reply.TheVariants as reply;
ghost use Rattle.cpg_station.specs.Delivering.{Delivers, DeliverRefuses};
ghost use Rattle.cpg_station.specs.Serving.{halted_of};
ghost use Rattle.cpg_board.specs.Words.{is_counted};
ghost use Rattle.cpg_history.specs.Members.{IsAt, IsNewWorld, IsPenOf, IsSafeAt, Replied, how_many};
ghost use Rattle.cpg_history.specs.Traces.{IsTraceOf, new_trace};

use crate::histories::{Front, Happens, History, HistoryName, Pen};
use crate::parcels::{Parcel, Parcels};
use crate::traces::Trace;
use bytes::Bytes;
use cpg_board::Board;
use cpg_cred::{NodeId, Refusal};
use cpg_station::Station;
use cpg_wire::reads_what_is_spelled;
use cpg_world_laws::WorldEvent;
use std::alloc::Global;
use std::marker::{Brand, Model};

mod making;
mod serving;

pub use making::{new_member, new_spares};

/// A station with its node's pen of the history; or a spare one, which was put in the place of one that was taken away,
/// is halted, and belongs to no node. Contracts see its number, the station, whether it is a spare, what its pen has seen:
/// the beginning of the history after which its node is that; and what was recorded of its node's events.
#[derive(Drop)]
pub struct Member<B: HistoryName> {
    id: NodeId,
    station: Station<B>,
    spare: bool,
    pen: Pen<B>,
    trace: Trace,
}

impl<B: HistoryName> Model for Member<B> {
    ghost use Rattle.std.specs.Coded.{codes};
    ghost use Rattle.cpg_ring.specs.Kept.{held_code};
    ghost use Rattle.cpg_board.specs.Words.{is_counted};
    ghost use Rattle.cpg_history.specs.Members.{MemberValue, IsMember, HasTrace};

    ghost Value = { MemberValue };

    ghost coded = { Prim.hlevel (codes, held_code) };

    ghost view = { λ m. record { id = m.id; station = m.station; spare = m.spare; seen = m.pen.seen; trace = m.trace } };

    ghost invariant = { λ m. IsMember B.start m.id m.station m.spare m.pen × HasTrace (is_counted B.table) B.start m.id m.spare m.pen.seen m.trace };
}

/// How many frames there are, none or one.
fn how_many(frame: &Option<Bytes>) -> usize
    ensures { result ≡ how_many frame.now }
{
    match frame {
        None => 0,
        Some(_) => 1,
    }
}

impl<B: HistoryName> Member<B> {
    /// The station of that node, with the node's pen, which has seen nothing, where the node is new. Its events are recorded
    /// where that is asked for; they are counted then.
    pub fn new(
        alloc: Global,
        id: NodeId,
        station: Station<B>,
        pen: Pen<B>,
        traced: bool,
    ) -> Member<B>
        requires begins { IsNewWorld B.start }
        requires pen { IsPenOf B.start pen id station.node }
        requires seen { pen.seen ≡ [] }
        requires counted { traced ≡ true → is_counted B.table ≡ true }
        ensures { result ≡ record { id = id; station = station; spare = false; seen = []; trace = new_trace traced } }
    {
        Member {
            id,
            station,
            spare: false,
            pen,
            trace: Trace::new(alloc, traced),
        }
    }

    /// A spare, which is halted.
    pub fn spare(alloc: Global, id: NodeId, mut station: Station<B>, pen: Pen<B>) -> Member<B>
        requires { IsNewWorld B.start }
        ensures { result ≡ record { id = id; station = halted_of station; spare = true; seen = pen.seen; trace = new_trace false } }
    {
        station.halt();
        Member {
            id,
            station,
            spare: true,
            pen,
            trace: Trace::new(alloc, false),
        }
    }

    /// The number of its node.
    pub fn id(&self) -> NodeId
        ensures { result ≡ self.now.id }
    {
        self.id
    }

    /// Whether it is a spare.
    pub fn is_spare(&self) -> bool
        ensures { result ≡ self.now.spare }
    {
        self.spare
    }

    /// Its station.
    pub fn station(&self) -> &Station<B>
        ensures { result.now ≡ self.now.station }
    {
        &self.station
    }

    /// The history begins with a new world; where this is no spare, its node is that node of the world after all that its pen
    /// has seen; and of that all of the node's events are recorded, or the first of them. The function has nothing to do.
    pub fn stands(&self)
        ensures begins { IsNewWorld B.start }
        ensures node { self.now.spare ≡ false → IsAt B.start self.now.seen self.now.id self.now.station.node }
        ensures trace { IsTraceOf B.start self.now.id self.now.seen self.now.trace }
    {
        let _pen = &self.pen;
    }

    /// What was recorded of its node's events, each with its stamp.
    pub fn trace(&self) -> &Trace
        ensures { result.now ≡ self.now.trace }
    {
        &self.trace
    }

    /// Its station alone, when it adds no more.
    pub fn into_station(self) -> Station<B>
        ensures { result ≡ self.station }
    {
        let Member {
            id: _,
            station,
            spare: _,
            pen,
            trace,
        } = self;
        drop(pen);
        drop(trace);
        station
    }

    /// What was recorded, when it adds no more.
    pub fn into_trace(self) -> Trace
        ensures { result ≡ self.trace }
    {
        let Member {
            id: _,
            station,
            spare: _,
            pen,
            trace,
        } = self;
        drop(station);
        drop(pen);
        trace
    }

    /// It has seen just what the front has, which begins with all that it had seen: its node is that node of the world after
    /// it, too.
    pub fn catch_up(&mut self, history: &History<B>, front: Front<B>)
        requires { IsPrefix self.old.seen front.seen }
        ensures { self.new ≡ record { id = self.old.id; station = self.old.station; spare = self.old.spare; seen = front.seen; trace = self.old.trace } }
    {
        history.catch_up(&mut self.pen, front);
    }

    /// Whether it is halted.
    pub fn is_halted(&self) -> bool
        ensures { result ≡ self.now.station.halted }
    {
        self.station.is_halted()
    }

    /// The place up to which that node knows that every node holds all places; 0 where it is another's station, or a spare.
    pub fn safe_at(&self, node: NodeId) -> u32
        ensures own { self.now.spare ≡ false → self.now.id ≡ node → result ≡ safe_mark self.now.station.node.ring.state.arus }
        ensures at { IsSafeAt B.start node result }
    {
        if self.spare {
            return 0;
        }
        if self.id.get() == node.get() {
            self.station.safe()
        } else {
            0
        }
    }

    /// A front that has seen as much as its pen.
    pub fn front(&mut self, history: &History<B>) -> Front<B>
        ensures front { result.seen ≡ self.old.seen }
        ensures same { self.new ≡ self.old }
    {
        history.front::<Brand>(&mut self.pen)
    }

    /// Halts it.
    pub fn halt(&mut self)
        ensures { self.new ≡ record { id = self.old.id; station = halted_of self.old.station; spare = self.old.spare; seen = self.old.seen; trace = self.old.trace } }
    {
        self.station.halt();
    }

    /// Hears a frame that was sent, and gives what it makes the node send. A spare answers Stopped.
    pub fn frame(&mut self, history: &History<B>, parcel: Parcel<B>) -> Result<Parcels<B>, Refusal>
        ensures ok { IfOk result (λ sent. Replied B.start self.old (events.Frame self.old.id parcel.number) (Ok (reply.Sent (length sent.frames))) self.new) }
        ensures err { OnErr result (self.new ≡ self.old) }
    {
        self.frame_as::<Brand>(history, parcel)
    }

    fn frame_as<E: Happens>(
        &mut self,
        history: &History<B>,
        parcel: Parcel<B>,
    ) -> Result<Parcels<B>, Refusal>
        requires { E.event ≡ events.Frame self.old.id parcel.number }
        ensures ok { IfOk result (λ sent. Replied B.start self.old (events.Frame self.old.id parcel.number) (Ok (reply.Sent (length sent.frames))) self.new) }
        ensures err { OnErr result (self.new ≡ self.old) }
    {
        reads_what_is_spelled();
        if self.spare {
            return Err(Refusal::Stopped);
        }
        let Parcel {
            bytes,
            source,
            index,
            front,
        } = parcel;
        match self.station.shared_frame(&bytes) {
            Ok(frames) => {
                history.tell(&mut self.pen, front);
                let stamp = history.add::<E>(&mut self.pen);
                let front = history.front::<Brand>(&mut self.pen);
                let event = WorldEvent::Frame(self.id, index);
                self.trace.note(stamp, frames.len(), source, Some(event));
                Ok(Parcels {
                    frames,
                    source: stamp,
                    front,
                })
            }
            Err(refusal) => Err(refusal),
        }
    }

    /// Sends the last token again, if there is one. A spare answers Stopped.
    pub fn timer(&mut self, history: &History<B>) -> Result<Option<Parcel<B>>, Refusal>
        ensures ok { IfOk result (λ sent. Replied B.start self.old (events.Timer self.old.id) (Ok (reply.Sent (how_many sent))) self.new) }
        ensures err { OnErr result (self.new ≡ self.old) }
    {
        self.timer_as::<Brand>(history)
    }

    fn timer_as<E: Happens>(&mut self, history: &History<B>) -> Result<Option<Parcel<B>>, Refusal>
        requires { E.event ≡ events.Timer self.old.id }
        ensures ok { IfOk result (λ sent. Replied B.start self.old (events.Timer self.old.id) (Ok (reply.Sent (how_many sent))) self.new) }
        ensures err { OnErr result (self.new ≡ self.old) }
    {
        reads_what_is_spelled();
        if self.spare {
            return Err(Refusal::Stopped);
        }
        match self.station.timer() {
            Ok(token) => {
                let stamp = history.add::<E>(&mut self.pen);
                let front = history.front::<Brand>(&mut self.pen);
                let sent = how_many(&token);
                self.trace
                    .note(stamp, sent, stamp, Some(WorldEvent::Timer(self.id)));
                Ok(match token {
                    None => None,
                    Some(bytes) => Some(Parcel {
                        bytes,
                        source: stamp,
                        index: 0,
                        front,
                    }),
                })
            }
            Err(refusal) => Err(refusal),
        }
    }

    /// Judges the next place, if it is held, has the judgement stand on the board, and takes the place as delivered;
    /// gives the place. Refused as a station's `deliver` is. A spare answers Stopped.
    pub fn deliver(&mut self, history: &History<B>, board: &Board) -> Result<Option<u32>, Refusal>
        requires { board.now.cells ≡ B.cells }
        ensures some { IfOk result (λ place. IfSome place (λ p. Delivers p self.old.station self.new.station × Replied B.start self.old (events.Deliver self.old.id) (Ok (reply.Delivered place)) self.new)) }
        ensures none { result ≡ Ok None → (next_record self.old.station.node ≡ None) × (self.new ≡ self.old) }
        ensures err { self.old.spare ≡ false → IfErr result (λ why. DeliverRefuses B.cells self.old.station why self.new.station) }
        ensures spare { self.old.spare ≡ true → (result ≡ Err refusals.Stopped) × (self.new ≡ self.old) }
    {
        self.deliver_as::<Brand>(history, board)
    }

    fn deliver_as<E: Happens>(
        &mut self,
        history: &History<B>,
        board: &Board,
    ) -> Result<Option<u32>, Refusal>
        requires board { board.now.cells ≡ B.cells }
        requires event { E.event ≡ events.Deliver self.old.id }
        ensures some { IfOk result (λ place. IfSome place (λ p. Delivers p self.old.station self.new.station × Replied B.start self.old (events.Deliver self.old.id) (Ok (reply.Delivered place)) self.new)) }
        ensures none { result ≡ Ok None → (next_record self.old.station.node ≡ None) × (self.new ≡ self.old) }
        ensures err { self.old.spare ≡ false → IfErr result (λ why. DeliverRefuses B.cells self.old.station why self.new.station) }
        ensures spare { self.old.spare ≡ true → (result ≡ Err refusals.Stopped) × (self.new ≡ self.old) }
    {
        if self.spare {
            return Err(Refusal::Stopped);
        }
        match self.station.deliver(board) {
            Ok(Some(place)) => {
                let stamp = history.add::<E>(&mut self.pen);
                let event = WorldEvent::Deliver(self.id);
                self.trace.note(stamp, 0, stamp, Some(event));
                Ok(Some(place))
            }
            Ok(None) => Ok(None),
            Err(refusal) => Err(refusal),
        }
    }
}
