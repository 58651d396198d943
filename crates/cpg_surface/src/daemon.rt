//! `cpg_daemon`: a cluster of running nodes, and the gates that hold them back.

ghost use Rattle.std.specs.Prelude.{◌≡◌, ◌≤◌};
ghost use Rattle.cpg_world_laws.specs.Worlds.{new_world};

use cpg_board::{Board, Seat};
use cpg_cred::{AcceptList, NodeId, Refusal};
use cpg_daemon::{Cluster, Ends, Fate, Gate, HistoryName, Parcel, PassAll, Station};
use cpg_link::{LinkRx, LinkTx};
use cpg_node::{Node, Settings};
use std::alloc::Global;
use std::sync::Wait;
use std::thread::Threads;
use std::time::Clock;

/// A gate is its two answers.
#[derive(Clone, Copy)]
pub struct Always(pub bool);

impl Gate for Always {
    fn fate(&self, from: NodeId, to: NodeId, index: u64) -> Fate {
        if index == 1 && from != to {
            Fate::Drop
        } else if self.0 {
            Fate::Pass
        } else {
            Fate::Repeat
        }
    }

    fn may_turn(&self, _node: NodeId, _turn: u64) -> bool {
        self.0
    }
}

/// Starts a cluster of those settings over a board, which lets in whom the list lets in.
pub fn start<B, R>(
    rt: R,
    alloc: Global,
    settings: Settings,
    board: Board,
    list: &AcceptList,
) -> Result<Cluster<B, PassAll>, Refusal>
where
    B: HistoryName + Send + Sync + 'static,
    R: Threads + Wait + Clock + Copy + Send + 'static,
    requires name { (board.cells ≡ B.cells) × (board.table ≡ B.table) × (new_world settings list.now ≡ B.start) }
{
    Cluster::<B, PassAll>::start(rt, alloc, settings, board, list, PassAll)
}

pub fn halt<B: HistoryName, R: Wait>(rt: &R, cluster: &Cluster<B, PassAll>) {
    cluster.halt(rt);
}

pub fn stop<B, R>(rt: &R, cluster: Cluster<B, PassAll>) -> Ends<B>
where
    B: HistoryName + Send + Sync + 'static,
    R: Threads + Wait,
{
    cluster.stop(rt)
}

/// What is left of a cluster: its stations, and its links.
pub type Left<B> = (Vec<Station<B>>, Vec<(LinkTx<Parcel<B>>, LinkRx<Parcel<B>>)>);

pub fn left<B: HistoryName>(ends: Ends<B>) -> Left<B> {
    let Ends { stations, links } = ends;
    (stations, links)
}

/// The node, the seat and whether it is halted, of a station that is left.
pub fn station<B: HistoryName>(station: &Station<B>) -> (&Node, &Seat, bool) {
    (&station.node, &station.seat, station.halted)
}

pub fn safe<B: HistoryName, R: Wait>(rt: &R, cluster: &Cluster<B, PassAll>, node: NodeId) -> u32
    requires { node ≤ cluster.now.nodes }
{
    cluster.safe(rt, node)
}

/// The board, how many nodes there are, and a new seat.
pub fn shown<B: HistoryName>(cluster: &Cluster<B, PassAll>) -> (&Board, u8, Seat) {
    (cluster.board(), cluster.nodes(), cluster.auditor())
}
