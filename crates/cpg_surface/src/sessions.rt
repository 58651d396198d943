//! `cpg_daemon`: sessions at a running cluster.

ghost use Rattle.std.specs.Prelude.{◌≤◌};
ghost use Rattle.cpg_board.specs.Seats.{IsSeatOf};

use cpg_board::Seat;
use cpg_cred::{Cred, NodeId, Refusal, Refused};
use cpg_daemon::{Cluster, HistoryName, PassAll, Session};
use cpg_group::{Event, Names, Processes};
use cpg_wire::Call;
use std::sync::Wait;

/// A running cluster, with the handle that its calls wait by.
#[derive(Clone, Copy)]
pub struct Live<'a, B: HistoryName, R> {
    pub rt: &'a R,
    pub cluster: &'a Cluster<B, PassAll>,
}

impl<B: HistoryName, R: Wait> Live<'_, B, R> {
    pub fn connect(&self, node: NodeId, pid: u32, cred: Cred) -> Result<Session<B>, Refusal>
        requires { node ≤ self.now.cluster.now.nodes }
    {
        self.cluster.connect(self.rt, node, pid, cred)
    }

    pub fn submit(&self, session: &mut Session<B>, call: Call) -> Result<(), Refused<Call>>
        requires { session.old.who.id.node ≤ self.now.cluster.now.nodes }
    {
        self.cluster.submit(self.rt, session, call)
    }

    pub fn take(&self, session: &mut Session<B>) -> Result<Option<Event>, Refusal>
        requires { session.old.who.id.node ≤ self.now.cluster.now.nodes }
    {
        self.cluster.take(self.rt, session)
    }

    pub fn list(&self, session: &mut Session<B>, group: &[u8]) -> Result<Processes, Refusal>
        requires { session.old.who.id.node ≤ self.now.cluster.now.nodes }
    {
        self.cluster.list(self.rt, session, group)
    }

    pub fn groups(&self, session: &mut Session<B>) -> Result<Names, Refusal>
        requires { session.old.who.id.node ≤ self.now.cluster.now.nodes }
    {
        self.cluster.groups(self.rt, session)
    }

    pub fn close(&self, session: Session<B>) -> Result<(), Refused<Session<B>>>
        requires { session.who.id.node ≤ self.now.cluster.now.nodes }
    {
        self.cluster.close(self.rt, session)
    }
}

pub fn seat<B: HistoryName>(session: &Session<B>) -> &Seat {
    session.seat()
}

pub fn tell<B: HistoryName>(
    cluster: &Cluster<B, PassAll>,
    session: &mut Session<B>,
    seat: &Seat,
) -> Result<(), Refusal>
    requires { IsSeatOf B.cells seat.now }
{
    cluster.tell(session, seat)
}
