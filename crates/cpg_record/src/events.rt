//! What connections are told.

ghost use Rattle.std.specs.Prelude.{◌≡◌, ◌↔◌, [], ◌∷◌, ◌++◌, IsTrue, length, OnOk, OnErr, IfOk, IsOkUnless};

use crate::memberships::Members;
use crate::moves::Moves;
use crate::verdicts::Verdict;
use cpg_cred::{NodeId, Refusal};
use cpg_entry::{Message, Name};
use std::alloc::Global;
use std::marker::Model;

/// What a place tells a connection.
#[derive(Debug, Drop)]
pub enum Event {
    /// What the connection's own entry was answered.
    Verdict {
        place: u32,
        verdict: Verdict,
    },
    /// A message to the connection's group, with the process that sent it.
    Message {
        place: u32,
        group: Name,
        node: NodeId,
        pid: u32,
        message: Message,
    },
    /// A change of the connection's group: the members after it, those who left and those who joined.
    Change {
        place: u32,
        group: Name,
        members: Members,
        left: Moves,
        joined: Moves,
    },
    /// The table of the connection's group changed.
    RulesChanged {
        place: u32,
        group: Name,
    },
}

impl Event {
    /// The same event.
    pub fn copy(&self, alloc: Global) -> Result<Event, Refusal>
        ensures ok { IfOk result (λ copy. copy ≡ self.now) }
        ensures memory { IsOkUnless result Refusal.Memory }
    {
        Ok(match self {
            Event::Verdict { place, verdict } => Event::Verdict {
                place: *place,
                verdict: *verdict,
            },
            Event::Message {
                place,
                group,
                node,
                pid,
                message,
            } => Event::Message {
                place: *place,
                group: group.copy(alloc)?,
                node: *node,
                pid: *pid,
                message: message.copy(alloc)?,
            },
            Event::Change {
                place,
                group,
                members,
                left,
                joined,
            } => Event::Change {
                place: *place,
                group: group.copy(alloc)?,
                members: members.copy(alloc)?,
                left: left.copy(alloc)?,
                joined: joined.copy(alloc)?,
            },
            Event::RulesChanged { place, group } => Event::RulesChanged {
                place: *place,
                group: group.copy(alloc)?,
            },
        })
    }
}

/// Events in the order in which they are told. Contracts see it as their list.
#[derive(Debug, Drop)]
pub struct Events {
    events: Vec<Event>,
}

impl Model for Events {
    ghost use Rattle.std.specs.Prelude.{List};
    ghost use Rattle.cpg_record.specs.declared.events.Event.{Event};

    ghost Value = { List Event };

    ghost view = { λ events. events.events.items };
}

impl Events {
    /// No events.
    pub fn new(alloc: Global) -> Events
        ensures { result ≡ [] }
    {
        Events {
            events: Vec::new(alloc),
        }
    }

    /// Puts the event last.
    pub fn push(&mut self, event: Event) -> Result<(), Refusal>
        ensures ok { OnOk result (self.new ≡ self.old ++ event ∷ []) }
        ensures err { OnErr result (self.new ≡ self.old) }
        ensures memory { IsOkUnless result Refusal.Memory }
    {
        self.events.push(event)?;
        Ok(())
    }

    /// The events.
    pub fn as_slice(&self) -> &[Event]
        ensures { result.now ≡ self.now }
    {
        self.events.as_slice()
    }

    /// How many there are.
    pub fn len(&self) -> usize
        ensures { result ≡ length self.now }
    {
        self.events.len()
    }

    /// The same events.
    pub fn copy(&self, alloc: Global) -> Result<Events, Refusal>
        ensures ok { IfOk result (λ copy. copy ≡ self.now) }
        ensures memory { IsOkUnless result Refusal.Memory }
    {
        let mut copy = Events::new(alloc);
        for event in self.as_slice() {
            copy.push(event.copy(alloc)?)?;
        }
        Ok(copy)
    }
}
