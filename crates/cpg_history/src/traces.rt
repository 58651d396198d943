//! What is recorded of the events that are added, so that a run can be played again.
//!
//! The form is our own. An event is recorded with its stamp, so that what the stations of a history recorded can be put into
//! one order. A frame that arrives is told by the event that sent it, since how many frames were sent in the whole world
//! before that event no node knows: it follows from how many each event sent.

ghost use Rattle.std.specs.Prelude.{◌≡◌, ◌++◌, ◌∷◌, [], None, IfSome, IsTrue, IsFalse, is_none};
ghost use Rattle.cpg_world_laws.specs.declared.events.WorldEvent.TheVariants.{Submit, List};
ghost use Rattle.cpg_history.specs.Traces.{Notes, NotesOf, new_trace};

use cpg_cred::NodeId;
use cpg_entry::{Call, Name};
use cpg_world_laws::WorldEvent;
use std::alloc::Global;
use std::marker::Model;

/// An event as it was recorded.
#[derive(Debug, Drop)]
pub struct Recorded {
    /// How many events came before it, in 64 bits.
    pub stamp: u64,
    /// How many frames it sent.
    pub sent: usize,
    /// Where a frame arrived, the stamp of the event that sent the frame.
    pub source: u64,
    /// The event. Where a frame arrived, its number is its index, from 0, among those that the source sent.
    pub event: WorldEvent,
}

/// What was recorded of a node's events, in their order. From the first that could not be recorded on, or from the
/// beginning where it was not asked to, it records none. Contracts see what it recorded, and the stamp of that first one.
#[derive(Drop)]
pub struct Trace {
    alloc: Global,
    entries: Vec<Recorded>,
    lost: Option<u64>,
}

impl Model for Trace {
    ghost use Rattle.cpg_history.specs.Traces.{TraceValue};

    ghost Value = { TraceValue };

    ghost view = { λ t. record { entries = t.entries.items; lost = t.lost } };
}

/// Puts it behind the others, and tells whether memory was there for it.
fn keep(entries: &mut Vec<Recorded>, next: Recorded) -> bool
    ensures kept { IsTrue result → entries.new.items ≡ entries.old.items ++ next ∷ [] }
    ensures lost { IsFalse result → entries.new.items ≡ entries.old.items }
{
    entries.push(next).is_ok()
}

impl Trace {
    /// A trace that has recorded nothing, and does so if it is asked to.
    pub(crate) fn new(alloc: Global, asked: bool) -> Trace
        ensures { result ≡ new_trace asked }
    {
        Trace {
            alloc,
            entries: Vec::new(alloc),
            lost: if asked { None } else { Some(0) },
        }
    }

    /// Whether it records.
    pub(crate) fn records(&self) -> bool
        ensures { result ≡ is_none self.now.lost }
    {
        self.lost.is_none()
    }

    /// What it recorded.
    pub fn entries(&self) -> &[Recorded]
        ensures { result.now ≡ self.now.entries }
    {
        self.entries.as_slice()
    }

    /// What it recorded, as a list of its own.
    pub fn into_entries(self) -> Vec<Recorded>
        ensures { result.items ≡ self.entries }
    {
        let Trace {
            alloc: _,
            entries,
            lost: _,
        } = self;
        entries
    }

    /// The stamp of the first event that it could not record, if there is one: then it has none from there on. It is 0
    /// where the trace was not asked to record.
    pub fn lost(&self) -> Option<u64>
        ensures { result ≡ self.now.lost }
    {
        self.lost
    }

    /// The event of that call, where it is to be recorded and memory is there for it.
    pub(crate) fn submit(&self, node: NodeId, conn: u16, call: &Call) -> Option<WorldEvent>
        ensures { IfSome result (λ event. event ≡ Submit node conn call.now) }
    {
        if !self.records() {
            return None;
        }
        match call.copy(self.alloc) {
            Ok(call) => Some(WorldEvent::Submit(node, conn, call)),
            Err(_) => None,
        }
    }

    /// The event of that question, where it is to be recorded and memory is there for it.
    pub(crate) fn list(&self, node: NodeId, conn: u16, group: &[u8]) -> Option<WorldEvent>
        ensures { IfSome result (λ event. event ≡ List node conn group.now) }
    {
        if !self.records() {
            return None;
        }
        match Name::from_slice(self.alloc, group) {
            Ok(group) => Some(WorldEvent::List(node, conn, group)),
            Err(_) => None,
        }
    }

    /// Records the event, if it records and the event is there; from the first on that is not, or for which memory is
    /// refused, it does not. It is put where it is called, so that no event is made where none is recorded.
    #[inline(always)]
    pub(crate) fn note(&mut self, stamp: u64, sent: usize, source: u64, event: Option<WorldEvent>)
        ensures { Notes self.old stamp sent source event self.new }
    {
        if self.records() {
            self.record(stamp, sent, source, event);
        }
    }

    fn record(&mut self, stamp: u64, sent: usize, source: u64, event: Option<WorldEvent>)
        requires { self.old.lost ≡ None }
        ensures { NotesOf self.old stamp sent source event self.new }
    {
        let kept = match event {
            None => false,
            Some(event) => keep(
                &mut self.entries,
                Recorded {
                    stamp,
                    sent,
                    source,
                    event,
                },
            ),
        };
        if !kept {
            self.lost = Some(stamp);
        }
    }
}
