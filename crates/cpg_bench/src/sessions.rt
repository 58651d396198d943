//! What both benches ask of a cluster: its settings and whom it lets in, sessions, and their calls.

ghost use Rattle.std.specs.Prelude.{◌≤◌, OnOk};

use crate::gates::Fates;
use cpg_cred::{AcceptList, Cred, NodeId, Refusal};
use cpg_daemon::{HistoryName, Running, Session};
use cpg_entry::Call;
use cpg_node::Settings;
use cpg_record::Event;
use std::alloc::Global;
use std::collections::VecDeque;
use std::sync::Wait;

/// Settings of so many nodes and places.
pub fn settings_for(nodes: u8, places: u32) -> Settings {
    Settings {
        ring: 1,
        nodes,
        places,
        hops: 1 << 62,
    }
}

/// A list that lets in root and users 7 and 8.
pub fn list_for(alloc: Global) -> Result<AcceptList, Refusal> {
    let mut list = AcceptList::new(alloc);
    list.add_uid(7)?;
    list.add_uid(8)?;
    Ok(list)
}

/// A session of a running cluster, with the handle that its calls wait by.
#[derive(Drop)]
pub struct Open<'a, B: HistoryName, R> {
    pub rt: &'a R,
    pub running: &'a Running<B, Fates>,
    session: Session<B>,
}

impl<'a, B: HistoryName, R: Wait> Open<'a, B, R> {
    /// A session of a process of root at the node of that index, from 0. Range: there is no such node.
    pub fn at(
        rt: &'a R,
        running: &'a Running<B, Fates>,
        index: u8,
    ) -> Result<Open<'a, B, R>, Refusal> {
        match NodeId::new(index.saturating_add(1)) {
            Some(node) if node.get() <= running.nodes() => {
                let session = running.connect(rt, node, 40, Cred { uid: 0, gid: 0 })?;
                Ok(Open {
                    rt,
                    running,
                    session,
                })
            }
            _ => Err(Refusal::Range),
        }
    }

    /// Range where the session is at none of the nodes, as each is at one.
    fn is_here(&self) -> Result<(), Refusal>
        ensures { OnOk result (self.now.session.who.id.node ≤ self.now.running.now.nodes) }
    {
        if self.session.connection().id.node.get() <= self.running.nodes() {
            Ok(())
        } else {
            Err(Refusal::Range)
        }
    }

    /// Submits the call. Gives it back where the queue is full.
    pub fn submit(&mut self, call: Call) -> Result<Option<Call>, Refusal> {
        self.is_here()?;
        match self.running.submit(self.rt, &mut self.session, call) {
            Ok(()) => Ok(None),
            Err(refused) => match refused.refusal {
                Refusal::QueueFull => Ok(Some(refused.back)),
                refusal => Err(refusal),
            },
        }
    }

    /// Submits the calls in one go, until one is refused; those that are left stay.
    pub fn submit_many(&mut self, calls: &mut VecDeque<Call>) -> Result<(), Refusal> {
        self.is_here()?;
        self.running.submit_many(self.rt, &mut self.session, calls)
    }

    /// Takes the next event, if there is one.
    pub fn take(&mut self) -> Result<Option<Event>, Refusal> {
        self.is_here()?;
        self.running.take(self.rt, &mut self.session)
    }

    /// Takes events in one go, at most so many, behind those of the list.
    pub fn take_many(&mut self, events: &mut Vec<Event>, most: usize) -> Result<usize, Refusal> {
        self.is_here()?;
        self.running
            .take_many(self.rt, &mut self.session, events, most)
    }
}
