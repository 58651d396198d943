//! A cluster: running nodes with their threads, from start to stop.

ghost use Rattle.std.specs.Prelude.{◌≡◌, ◌≤◌, ◌*◌, All, IfOk, IfErr, IsOkUnless, vec_len, vec_capacity};
ghost use Rattle.std.specs.Arc.{arc_value};
ghost use Rattle.cpg_ring.specs.States.{IsSettings};
ghost use Rattle.cpg_world_laws.specs.Worlds.{new_world};
ghost use Rattle.cpg_board.specs.Words.{all_nodes};
ghost use Rattle.cpg_history.specs.Histories.{first_world};
ghost use Rattle.cpg_history.specs.Members.{HaveSeen};
ghost use Rattle.cpg_daemon.specs.Clusters.{IsUnstarted};
ghost use Rattle.cpg_daemon.specs.Links.{peers_of, links_of};

use crate::beginning::begin_all;
use crate::gates::Gate;
use crate::lines::Lines;
use crate::making::{Parts, Wakers, new_parts, peers};
use crate::running::{Lock, Running};
use crate::stopping::{Begun, Room, gather, pair, stations_of, take_out};
use cpg_board::Board;
use cpg_cred::{AcceptList, Refusal};
use cpg_history::{Beginning, Front, History, HistoryName, Member, Parcel, Pen};
use cpg_link::{LinkRx, LinkTx};
use cpg_node::Settings;
use cpg_ring::are_settings;
use cpg_station::Station;
use crossbeam_utils::CachePadded;
use std::alloc::Global;
use std::marker::Model;
use std::ops::Deref;
use std::sync::atomic::{AtomicBool, AtomicU64};
use std::sync::{Arc, Wait};
use std::thread::Threads;
use std::time::Clock;

/// Nodes in threads of their own. It lends the running nodes, whose calls are those of sessions. Contracts see
/// it as these. It can't be let go but by `stop`, which waits for its threads.
pub struct Cluster<B: HistoryName, G> {
    running: Arc<Running<B, G>, Global>,
    threads: Begun<B>,
    room: Room<B>,
}

impl<B: HistoryName, G> Model for Cluster<B, G> {
    ghost use Rattle.std.specs.Prelude.{◌≡◌, All, vec_len};
    ghost use Rattle.std.specs.Arc.{arc_value};
    ghost use Rattle.cpg_daemon.specs.Clusters.{ClusterValue};
    ghost use Rattle.cpg_daemon.specs.Links.{peers_of};

    ghost Value = { ClusterValue };

    ghost view = { λ cluster. arc_value cluster.running };

    ghost invariant = { λ cluster. (cluster.room.nodes ≡ (arc_value cluster.running).nodes) × (vec_len cluster.threads.threads ≡ (arc_value cluster.running).nodes) × All (λ thread. thread.promise.0 ≡ peers_of cluster.room.nodes) cluster.threads.threads.items };
}

impl<B: HistoryName, G> Deref for Cluster<B, G> {
    type Target = Running<B, G>;

    ghost use Rattle.std.specs.Prelude.{◌≡◌};

    ghost deref_gives = { λ cluster running. running ≡ cluster };

    fn deref(&self) -> &Running<B, G> {
        &self.running
    }
}

/// The two ends of each link of a cluster, in the order of the nodes that they come from, and then of those that they go to.
pub(crate) type Links<B> = Vec<(LinkTx<Parcel<B>>, LinkRx<Parcel<B>>)>;

/// What a stopped cluster leaves: each node's station, in their order, and the two ends of each link.
#[derive(Drop)]
pub struct Ends<B: HistoryName> {
    pub stations: Vec<Station<B>>,
    pub links: Links<B>,
}

/// What running nodes leave: their stations with their pens, a front of the history, which each of them has seen, and their
/// links; and room for the stations alone.
#[derive(Drop)]
struct Left<B: HistoryName> {
    members: Vec<Member<B>>,
    front: Front<B>,
    links: Links<B>,
    room: Vec<Station<B>>,
}

/// Running nodes with those stations and wakers.
fn new_running<B: HistoryName, G>(
    alloc: Global,
    history: History<B>,
    list: AcceptList,
    stations: Vec<Lock<B>>,
    wakers: Wakers,
    nodes: u8,
    gate: G,
) -> Result<Arc<Running<B, G>, Global>, Refusal>
where
    G: Drop,
    requires start { (list ≡ B.start.list) × (nodes ≡ B.start.settings.nodes) }
    requires nodes { (vec_len stations ≡ nodes) × (vec_len wakers.bells ≡ nodes) × (vec_len wakers.flags ≡ nodes) × (nodes ≤ 8) }
    ensures ok { IfOk result (λ running. arc_value running ≡ record { nodes = nodes; list = list }) }
    ensures memory { IsOkUnless result Refusal.Memory }
{
    let Wakers { bells, flags } = wakers;
    Ok(Arc::new(
        alloc,
        Running {
            history,
            list,
            nodes,
            stations,
            gate,
            bells,
            flags,
            calls: CachePadded::new(AtomicU64::new(0)),
            halted: AtomicBool::new(false),
        },
    )?)
}

/// What running nodes leave, once they are halted.
#[tactic(auto, using(crate::proofs::Counting::fits_fewer))]
fn leave<B: HistoryName, G, R: Threads + Wait>(
    rt: &R,
    running: &Running<B, G>,
    threads: Begun<B>,
    room: Room<B>,
) -> Left<B>
    requires room { room.nodes ≡ running.now.nodes }
    requires few { vec_len threads.threads ≤ running.now.nodes }
    requires threads { All (λ thread. thread.promise.0 ≡ peers_of room.nodes) threads.threads.items }
    ensures members { vec_len result.members ≡ running.now.nodes }
    ensures front { HaveSeen result.members.items result.front.seen }
    ensures links { vec_len result.links ≡ vec_len threads.threads * peers_of running.now.nodes }
    ensures room { (vec_len result.room ≡ 0) × (running.now.nodes ≤ vec_capacity result.room) }
{
    let Room {
        nodes,
        pens,
        spares,
        members,
        stations,
        ends,
        links,
    } = room;
    let ends = gather(rt, threads, ends, usize::from(peers(nodes)));
    let (members, front) = take_out(
        rt,
        &running.history,
        &running.stations,
        pens,
        spares,
        members,
    );
    Left {
        members,
        front,
        links: pair(ends, links),
        room: stations,
    }
}

/// A cluster of these.
fn cluster_of<B: HistoryName, G>(
    running: Arc<Running<B, G>, Global>,
    threads: Begun<B>,
    room: Room<B>,
) -> Cluster<B, G>
    requires room { room.nodes ≡ (arc_value running).nodes }
    requires count { vec_len threads.threads ≡ (arc_value running).nodes }
    requires threads { All (λ thread. thread.promise.0 ≡ peers_of room.nodes) threads.threads.items }
    ensures { result ≡ arc_value running }
{
    Cluster {
        running,
        threads,
        room,
    }
}

/// Halts and joins the threads that have begun, and lets go of what they leave.
fn undo<B: HistoryName, G: Drop, R: Threads + Wait>(
    rt: &R,
    running: Arc<Running<B, G>, Global>,
    threads: Begun<B>,
    room: Room<B>,
)
    requires room { room.nodes ≡ (arc_value running).nodes }
    requires few { vec_len threads.threads ≤ (arc_value running).nodes }
    requires threads { All (λ thread. thread.promise.0 ≡ peers_of room.nodes) threads.threads.items }
{
    running.halt(rt);
    drop(leave(rt, &running, threads, room));
}

/// Begins the threads of running nodes, for which there is room. Where one is refused, those that began are halted and
/// joined.
fn begin_within<B, G, R>(
    rt: R,
    running: Arc<Running<B, G>, Global>,
    mut lines: Lines<B>,
    room: Room<B>,
    mut threads: Begun<B>,
) -> Result<Cluster<B, G>, Refusal>
where
    B: HistoryName + Send + Sync + 'static,
    G: Gate + Send + Sync + Drop + 'static,
    R: Threads + Wait + Clock + Copy + Send + 'static,
    requires nodes { room.nodes ≡ (arc_value running).nodes }
    requires lines { (vec_len lines.outgoing ≡ links_of room.nodes) × (vec_len lines.incoming ≡ links_of room.nodes) }
    requires threads { (vec_len threads.threads ≡ 0) × (room.nodes ≤ vec_capacity threads.threads) }
    ensures ok { IfOk result (λ cluster. cluster ≡ arc_value running) }
    ensures memory { IsOkUnless result Refusal.Memory }
{
    let nodes = room.nodes;
    let each = usize::from(peers(nodes));
    let begun = begin_all(rt, &running, nodes, each, &mut lines, &mut threads);
    drop(lines);
    if begun.is_err() {
        undo(&rt, running, threads, room);
        return Err(Refusal::Memory);
    }
    Ok(cluster_of(running, threads, room))
}

/// Begins the threads of running nodes.
fn begin<B, G, R>(
    rt: R,
    alloc: Global,
    running: Arc<Running<B, G>, Global>,
    lines: Lines<B>,
    room: Room<B>,
) -> Result<Cluster<B, G>, Refusal>
where
    B: HistoryName + Send + Sync + 'static,
    G: Gate + Send + Sync + Drop + 'static,
    R: Threads + Wait + Clock + Copy + Send + 'static,
    requires nodes { room.nodes ≡ (arc_value running).nodes }
    requires lines { (vec_len lines.outgoing ≡ links_of room.nodes) × (vec_len lines.incoming ≡ links_of room.nodes) }
    ensures ok { IfOk result (λ cluster. cluster ≡ arc_value running) }
    ensures memory { IsOkUnless result Refusal.Memory }
{
    let threads = Begun::none(alloc, usize::from(room.nodes))?;
    begin_within(rt, running, lines, room, threads)
}

/// Makes what the nodes of that beginning need, and begins their threads.
fn begin_on<B, G, R>(
    rt: R,
    alloc: Global,
    beginning: Beginning,
    history: History<B>,
    pens: Pen<B>,
    gate: G,
) -> Result<Cluster<B, G>, Refusal>
where
    B: HistoryName + Send + Sync + 'static,
    G: Gate + Send + Sync + Drop + 'static,
    R: Threads + Wait + Clock + Copy + Send + 'static,
    requires settings { IsSettings beginning.settings }
    requires begins { first_world beginning ≡ B.start }
    requires pens { pens ≡ all_nodes }
    ensures ok { IfOk result (λ cluster. cluster ≡ record { nodes = beginning.settings.nodes; list = beginning.list }) }
    ensures memory { IsOkUnless result Refusal.Memory }
{
    let Parts {
        stations,
        wakers,
        lines,
        room,
    } = new_parts(&rt, alloc, &beginning, &history, pens)?;
    let Beginning { settings, list } = beginning;
    let nodes = settings.nodes;
    let running = new_running(alloc, history, list, stations, wakers, nodes, gate)?;
    begin(rt, alloc, running, lines, room)
}

impl<B, G> Cluster<B, G>
where
    B: HistoryName + Send + Sync + 'static,
    G: Gate + Send + Sync + Drop + 'static,
{
    /// Starts a thread for each node, with a link of 64 frames for each ordered pair of different nodes, or
    /// one from node 1 to itself where it is the only one, and the first token on its way to node 1. The nodes share the
    /// board, which the cluster keeps, and accept by lists of the same users and groups. What happens is recorded where the
    /// board counts it. `B` names the board, and the new world that its history begins with.
    /// Refused with Range where a setting is out of its range; with Memory, also where a thread is not given.
    pub fn start<R: Threads + Wait + Clock + Copy + Send + 'static>(
        rt: R,
        alloc: Global,
        settings: Settings,
        board: Board,
        list: &AcceptList,
        gate: G,
    ) -> Result<Cluster<B, G>, Refusal>
        requires name { (board.cells ≡ B.cells) × (board.table ≡ B.table) × (new_world settings list.now ≡ B.start) }
        ensures ok { IfOk result (λ cluster. cluster ≡ record { nodes = settings.nodes; list = list.now }) }
        ensures err { IfErr result (IsUnstarted settings) }
    {
        if !are_settings(&settings) {
            return Err(Refusal::Range);
        }
        let list = list.copy(alloc)?;
        // A board comes whole, so nobody took its pens before, which no clause says of what others might share.
        let Some((history, pens)) = History::on(board) else {
            return Err(Refusal::Memory);
        };
        let beginning = Beginning { settings, list };
        begin_on(rt, alloc, beginning, history, pens, gate)
    }

    /// Halts the nodes, waits for their threads to end, and gives what they leave. It takes no memory.
    pub fn stop<R: Threads + Wait>(self, rt: &R) -> Ends<B>
        ensures stations { vec_len result.stations ≡ self.nodes }
        ensures links { vec_len result.links ≡ links_of self.nodes }
    {
        let Left {
            members,
            front,
            links,
            room,
        } = self.end(rt);
        drop(front);
        Ends {
            stations: stations_of(members, room),
            links,
        }
    }

    /// The same, but for the links: each node's station with its pen and what was recorded of it, and a front of the history,
    /// which each of them has seen: its node is that node of the world after the front. That is our own.
    pub fn stop_traced<R: Threads + Wait>(self, rt: &R) -> (Vec<Member<B>>, Front<B>)
        ensures members { vec_len result.0 ≡ self.nodes }
        ensures front { HaveSeen result.0.items result.1.seen }
    {
        let Left {
            members,
            front,
            links,
            room,
        } = self.end(rt);
        drop(links);
        drop(room);
        (members, front)
    }

    /// Halts the nodes, and waits for their threads to end.
    fn end<R: Threads + Wait>(self, rt: &R) -> Left<B>
        ensures members { vec_len result.members ≡ self.nodes }
        ensures front { HaveSeen result.members.items result.front.seen }
        ensures links { vec_len result.links ≡ links_of self.nodes }
        ensures room { (vec_len result.room ≡ 0) × (self.nodes ≤ vec_capacity result.room) }
    {
        self.halt(rt);
        let Cluster {
            running,
            threads,
            room,
        } = self;
        leave(rt, &running, threads, room)
    }
}
