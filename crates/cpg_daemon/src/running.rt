//! Running nodes, as their threads and sessions see them.

ghost use Rattle.std.specs.Prelude.{◌≡◌, ◌≤◌, []};
ghost use Rattle.cpg_board.specs.Seats.{IsSeatOf};
ghost use Rattle.cpg_history.specs.Members.{IsSafeAt};
ghost use Rattle.cpg_daemon.specs.Clusters.{IsMarkIn};
ghost use Rattle.cpg_daemon.specs.Links.{next_of};

use crate::flags::NodeFlags;
use cpg_board::{Board, Seat};
use cpg_cred::{AcceptList, NodeId};
use cpg_history::{Front, History, HistoryName, Member, Parcel};
use cpg_link::{Bell, News};
use crossbeam_utils::CachePadded;
use std::hint::spin_loop;
use std::marker::Model;
use std::sync::atomic::{AtomicBool, AtomicU64, Ordering};
use std::sync::{Mutex, MutexGuard, Wait};
use std::thread;

/// How often a thread looks whether a station is free before it sleeps for its lock, how often of these without a yield
/// between, and how long a pause lies between two looks.
const FREE_LOOKS: u32 = 64;

const SPUN_LOOKS: u32 = 2;

const PAUSES: u32 = 16;

/// A node's station behind its lock. It stands alone, away from the lock itself, which whoever waits for it looks at, and
/// from those of other nodes.
pub(crate) type Lock<B> = Mutex<CachePadded<Member<B>>>;

/// A node's station, while its lock is held.
pub(crate) type Held<'a, B> = MutexGuard<'a, CachePadded<Member<B>>>;

/// Running nodes: a station for each behind a lock, with its node's pen of their history, which keeps their board, the list
/// that they accept by, the bells of their threads, and what sessions may look at without a lock. All threads may share it. Contracts
/// see how many nodes there are, and the list.
#[derive(Drop)]
pub struct Running<B: HistoryName, G> {
    pub(crate) history: History<B>,
    pub(crate) list: AcceptList,
    pub(crate) nodes: u8,
    pub(crate) stations: Vec<Lock<B>>,
    pub(crate) gate: G,
    pub(crate) bells: Vec<CachePadded<Bell>>,
    pub(crate) flags: Vec<CachePadded<NodeFlags>>,
    /// How many calls were admitted, at any node. All sessions count it up, and what else stands here is hardly ever
    /// written, so it stands alone.
    pub(crate) calls: CachePadded<AtomicU64>,
    /// Whether all nodes are halted.
    pub(crate) halted: AtomicBool,
}

impl<B: HistoryName, G> Model for Running<B, G> {
    ghost use Rattle.std.specs.Prelude.{◌≡◌, ◌≤◌, vec_len};
    ghost use Rattle.cpg_daemon.specs.Clusters.{ClusterValue};

    ghost Value = { ClusterValue };

    ghost view = { λ running. record { nodes = running.nodes; list = running.list } };

    ghost invariant = { λ running. (running.list ≡ B.start.list) × (running.nodes ≡ B.start.settings.nodes) × (vec_len running.stations ≡ running.nodes) × (vec_len running.bells ≡ running.nodes) × (vec_len running.flags ≡ running.nodes) × (running.nodes ≤ 8) };
}

/// The pause after a look at a station that was held.
fn pause(look: u32) {
    if look >= SPUN_LOOKS {
        thread::yield_now();
        return;
    }
    for _ in 0..PAUSES {
        spin_loop();
    }
}

impl<B: HistoryName, G> Running<B, G> {
    /// The board that all nodes share.
    pub fn board(&self) -> &Board
        ensures { result.now.cells ≡ B.cells }
    {
        self.history.board()
    }

    /// How many nodes there are.
    pub fn nodes(&self) -> u8
        ensures { result ≡ self.now.nodes }
    {
        self.nodes
    }

    /// They are the nodes of the world that the history begins with, and accept by its list. The function has nothing to do.
    pub fn stands(&self)
        ensures nodes { self.now.nodes ≡ B.start.settings.nodes }
        ensures list { self.now.list ≡ B.start.list }
    {
        let _list = &self.list;
    }

    /// A seat of the board that has seen nothing, for whoever wants to compare what others saw.
    pub fn auditor(&self) -> Seat
        ensures { (result ≡ []) × IsSeatOf B.cells result }
    {
        self.board().seat()
    }

    /// The lock of a node.
    pub(crate) fn station(&self, node: NodeId) -> &Lock<B>
        requires { node ≤ self.now.nodes }
    {
        &self.stations[usize::from(node.get()) - 1]
    }

    /// A node's station, once nobody else holds it. A lock that was slept for twice is left to those who sleep, so that
    /// each of its sections then waits for a thread to be woken; they take some microseconds, so a thread looks
    /// for a while before it sleeps. A session that would only be answered as just before holds none: it looks at the node's
    /// flags first, which change under this lock alone.
    pub(crate) fn hold<R: Wait>(&self, rt: &R, node: NodeId) -> Held<'_, B>
        requires { node ≤ self.now.nodes }
    {
        let station = self.station(node);
        for look in 0..FREE_LOOKS {
            if let Some(held) = station.try_lock() {
                return held;
            }
            pause(look);
        }
        station.lock(rt)
    }

    /// The safe mark of the node's station, and a front of the history that has seen what its pen has.
    #[tactic(auto, using(crate::proofs::Marks::unmarked))]
    fn mark_of(&self, station: &mut Member<B>, node: NodeId) -> (u32, Front<B>)
        ensures { IsMarkIn B.start result.1.seen node result.0 }
    {
        station.stands();
        if station.is_spare() {
            return (0, station.front(&self.history));
        }
        if station.id().get() != node.get() {
            return (0, station.front(&self.history));
        }
        let place = station.safe_at(node);
        (place, station.front(&self.history))
    }

    /// The place up to which every node holds all places, as the node knows it, and a front of the history after which it
    /// is that. It is answered after the nodes are halted, too.
    pub fn mark<R: Wait>(&self, rt: &R, node: NodeId) -> (u32, Front<B>)
        requires { node ≤ self.now.nodes }
        ensures { IsMarkIn B.start result.1.seen node result.0 }
    {
        let mut station = self.hold(rt, node);
        self.mark_of(&mut station, node)
    }

    /// The place up to which every node holds all places, as the node knows it: what `mark` gives, without the front.
    pub fn safe<R: Wait>(&self, rt: &R, node: NodeId) -> u32
        requires { node ≤ self.now.nodes }
        ensures { IsSafeAt B.start node result }
    {
        let (place, _front) = self.mark(rt, node);
        place
    }

    /// Halts all nodes: later calls of sessions are answered with Stopped.
    pub fn halt<R: Wait>(&self, rt: &R) {
        for (station, flags) in self.stations.iter().zip(self.flags.iter()) {
            let mut held = station.lock(rt);
            held.halt();
            flags.halt();
        }
        self.halted.store(true, Ordering::SeqCst);
        self.ring_all(News::Halt);
    }

    /// Whether all nodes are halted.
    pub(crate) fn are_halted(&self) -> bool {
        self.halted.load(Ordering::SeqCst)
    }

    /// The bell of a node's thread.
    pub(crate) fn bell(&self, node: NodeId) -> &Bell
        requires { node ≤ self.now.nodes }
    {
        &self.bells[usize::from(node.get()) - 1]
    }

    /// What a node's sessions may look at without its lock.
    pub(crate) fn flags(&self, node: NodeId) -> &NodeFlags
        requires { node ≤ self.now.nodes }
    {
        &self.flags[usize::from(node.get()) - 1]
    }

    /// Rings all bells.
    fn ring_all(&self, news: News) {
        for bell in self.bells.iter() {
            bell.ring(news);
        }
    }

    /// Counts a call that was admitted, and wakes the threads of a ring at rest: the token has to come by.
    pub(crate) fn tell_call(&self) {
        self.calls.fetch_add(1, Ordering::SeqCst);
        self.ring_all(News::Call);
    }

    /// How many calls were admitted.
    pub(crate) fn calls(&self) -> u64 {
        self.calls.load(Ordering::SeqCst)
    }

    /// The node's last token sent, if there is one, and a copy could be made.
    pub(crate) fn timer<R: Wait>(&self, rt: &R, node: NodeId) -> Option<Parcel<B>>
        requires { node ≤ self.now.nodes }
    {
        self.hold(rt, node).timer(&self.history).unwrap_or(None)
    }

    /// The node to which this one sends the token.
    pub(crate) fn next(&self, node: NodeId) -> NodeId
        requires { node ≤ self.now.nodes }
        ensures { result ≡ next_of self.now.nodes node }
    {
        let number = if node.get() < self.nodes {
            node.get() + 1
        } else {
            1
        };
        NodeId::new(number).unwrap_or(node)
    }
}
