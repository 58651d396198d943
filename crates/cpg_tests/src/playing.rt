//! What the tests of clusters share: a cluster for each, sessions, their calls, and what they are told in short.

ghost use Rattle.std.specs.Prelude.{◌≡◌, ◌≤◌, IsTrue};
ghost use Rattle.cpg_world_laws.specs.Worlds.{new_world};

use cpg_board::Board;
use cpg_cred::{AcceptList, By, Cred, NodeId, Refusal, Refused};
use cpg_daemon::{Cluster, Ends, Gate, HistoryName, Running, Session};
use cpg_entry::Call;
use cpg_node::Settings;
use cpg_record::{Event, Verdict};
use std::alloc::Global;
use std::collections::VecDeque;
use std::marker::Brand;
use std::sync::Wait;
use std::thread::{self, Threads};
use std::time::{Clock, Duration};

/// How often a call that may come too early is made at most: for over half a minute, so that a test fails where nothing
/// comes, and not where the machine is busy.
pub const MOST_ASKS: u32 = 40_000;

/// After how many of these a thread sleeps for a millisecond behind each, where it only yielded before.
const YIELDED_ASKS: u32 = 10_000;

/// The verdict on what no rule and no membership bars.
pub const ALLOWED: Verdict = Verdict::Allowed(By::Default);

/// Why a test stops.
#[derive(Debug, Clone, Copy, PartialEq, Eq)]
pub enum Stop {
    /// What the test needs is refused so. Memory: it was refused at each try.
    Refused(Refusal),
    /// Something is otherwise than the test says.
    Wrong,
}

impl From<Refusal> for Stop {
    fn from(refusal: Refusal) -> Stop {
        Stop::Refused(refusal)
    }
}

/// Goes on where that holds.
pub fn holds(as_wanted: bool) -> Result<(), Stop> {
    if as_wanted { Ok(()) } else { Err(Stop::Wrong) }
}

/// What a test does over a cluster, and what it wants of what is left.
pub trait Play<G> {
    /// Whether all goes as it should over the running nodes.
    fn goes<B: HistoryName, R: Wait + Clock>(
        &self,
        rt: &R,
        alloc: Global,
        running: &Running<B, G>,
    ) -> Result<(), Stop>;

    /// Whether the cluster, once it is stopped, leaves what it should.
    fn leaves<B: HistoryName, R: Wait>(&self, rt: &R, ends: Ends<B>) -> bool;
}

/// Settings of ring 1 with so many nodes.
pub fn settings_of(nodes: u8) -> Settings {
    Settings {
        ring: 1,
        nodes,
        places: 4_096,
        hops: 1 << 62,
    }
}

/// What a cluster is started on.
struct Ground {
    settings: Settings,
    board: Board,
    list: AcceptList,
}

/// The test over a new cluster on that ground, which is stopped.
fn played_on<B, G, P, R>(
    rt: R,
    alloc: Global,
    ground: Ground,
    gate: G,
    play: &P,
) -> Result<(), Stop>
where
    B: HistoryName + Send + Sync + 'static,
    G: Gate + Send + Sync + Drop + 'static,
    P: Play<G>,
    R: Threads + Wait + Clock + Copy + Send + 'static,
    requires name { (ground.board.cells ≡ B.cells) × (ground.board.table ≡ B.table) × (new_world ground.settings ground.list ≡ B.start) }
{
    let Ground {
        settings,
        board,
        list,
    } = ground;
    let cluster = Cluster::<B, G>::start(rt, alloc, settings, board, &list, gate)?;
    let gone = play.goes(&rt, alloc, &cluster);
    let left = play.leaves(&rt, cluster.stop(&rt));
    gone?;
    holds(left)
}

/// Whether the test goes so over a new cluster of those settings, on a board of so many places, which lets in users 0, 7
/// and 8.
pub fn plays<G, P, R>(
    rt: R,
    alloc: Global,
    places: u32,
    settings: Settings,
    gate: G,
    play: &P,
) -> Result<(), Stop>
where
    G: Gate + Send + Sync + Drop + 'static,
    P: Play<G>,
    R: Threads + Wait + Clock + Copy + Send + 'static,
{
    let board = Board::new(alloc, places)?;
    let mut list = AcceptList::new(alloc);
    list.add_uid(7)?;
    list.add_uid(8)?;
    let ground = Ground {
        settings,
        board,
        list,
    };
    played_on::<Brand, G, P, R>(rt, alloc, ground, gate, play)
}

/// A session of the process and the user at the node of that number. Range: there is no such node.
pub fn connect<B: HistoryName, G, R: Wait>(
    rt: &R,
    running: &Running<B, G>,
    number: u8,
    pid: u32,
    uid: u32,
) -> Result<Session<B>, Refusal> {
    match NodeId::new(number) {
        Some(node) if number <= running.nodes() => {
            running.connect(rt, node, pid, Cred { uid, gid: 100 })
        }
        _ => Err(Refusal::Range),
    }
}

/// Whether the session is at one of the nodes, as each is.
pub fn is_here<B: HistoryName, G>(running: &Running<B, G>, session: &Session<B>) -> bool
    ensures { IsTrue result → session.now.who.id.node ≤ running.now.nodes }
{
    session.connection().id.node.get() <= running.nodes()
}

/// The safe mark of the node of that number. Range: there is no such node.
pub fn safe_at<B: HistoryName, G, R: Wait>(
    rt: &R,
    running: &Running<B, G>,
    number: u8,
) -> Result<u32, Refusal> {
    match NodeId::new(number) {
        Some(node) if number <= running.nodes() => Ok(running.safe(rt, node)),
        _ => Err(Refusal::Range),
    }
}

/// Whether the safe mark of the node of that number gets to that place.
pub fn gets_safe<B: HistoryName, G, R: Wait + Clock>(
    rt: &R,
    running: &Running<B, G>,
    number: u8,
    place: u32,
) -> bool {
    for asked in 0..MOST_ASKS {
        if safe_at(rt, running, number) == Ok(place) {
            return true;
        }
        pause(rt, asked);
    }
    false
}

/// Submits the call. Range: the session is at none of the nodes.
pub fn submit<B: HistoryName, G, R: Wait>(
    rt: &R,
    running: &Running<B, G>,
    session: &mut Session<B>,
    call: Call,
) -> Result<(), Refused<Call>> {
    if is_here(running, session) {
        running.submit(rt, session, call)
    } else {
        Err(Refused {
            refusal: Refusal::Range,
            back: call,
        })
    }
}

/// What one ask for the next event gives: of an event its place, and of a change how many members, leavers and joiners it
/// tells; of a message its place, the node and the process that sent it, and its first byte.
#[derive(Clone, Copy, PartialEq, Eq)]
pub enum Told {
    Verdict(u32, Verdict),
    Message(u32, u8, u32, u8),
    Change(u32, usize, usize, usize),
    Rules(u32),
    /// None yet.
    Nothing,
    Refused(Refusal),
}

/// The event in short.
pub fn in_short(event: &Event) -> Told {
    match event {
        Event::Verdict { place, verdict } => Told::Verdict(*place, *verdict),
        Event::Message {
            place,
            node,
            pid,
            message,
            ..
        } => {
            let first = message.as_slice().first().copied().unwrap_or(0);
            Told::Message(*place, node.get(), *pid, first)
        }
        Event::Change {
            place,
            members,
            left,
            joined,
            ..
        } => Told::Change(
            *place,
            members.as_slice().len(),
            left.as_slice().len(),
            joined.as_slice().len(),
        ),
        Event::RulesChanged { place, .. } => Told::Rules(*place),
    }
}

/// What refuses the first of the calls that are submitted in one go, if any does, and how many are left.
pub fn submit_many<B: HistoryName, G, R: Wait>(
    rt: &R,
    running: &Running<B, G>,
    session: &mut Session<B>,
    calls: &mut VecDeque<Call>,
) -> (Option<Refusal>, usize) {
    if !is_here(running, session) {
        return (Some(Refusal::Range), calls.len());
    }
    let refusal = running.submit_many(rt, session, calls).err();
    (refusal, calls.len())
}

/// How many events the session takes in one go, at most so many, behind those of the list.
pub fn take_many<B: HistoryName, G, R: Wait>(
    rt: &R,
    running: &Running<B, G>,
    session: &mut Session<B>,
    events: &mut Vec<Event>,
    most: usize,
) -> Result<usize, Refusal> {
    if !is_here(running, session) {
        return Err(Refusal::Range);
    }
    running.take_many(rt, session, events, most)
}

/// The session asks for its next event once.
pub fn ask<B: HistoryName, G, R: Wait>(
    rt: &R,
    running: &Running<B, G>,
    session: &mut Session<B>,
) -> Told {
    if !is_here(running, session) {
        return Told::Refused(Refusal::Range);
    }
    match running.take(rt, session) {
        Ok(None) => Told::Nothing,
        Ok(Some(event)) => in_short(&event),
        Err(refusal) => Told::Refused(refusal),
    }
}

/// The pause behind an ask in vain, by how many there were before.
pub fn pause<R: Clock>(rt: &R, asked: u32) {
    if asked < YIELDED_ASKS {
        thread::yield_now();
    } else {
        thread::sleep(rt, Duration::from_millis(1));
    }
}

/// What the session is told next, which asks again after None, Behind or Memory.
pub fn next_told<B: HistoryName, G, R: Wait + Clock>(
    rt: &R,
    running: &Running<B, G>,
    session: &mut Session<B>,
) -> Told {
    for asked in 0..MOST_ASKS {
        match ask(rt, running, session) {
            Told::Nothing | Told::Refused(Refusal::Behind(_) | Refusal::Memory) => pause(rt, asked),
            told => return told,
        }
    }
    Told::Nothing
}

/// How many members of `db` the session is shown, and how many groups.
pub fn list_both<B: HistoryName, G, R: Wait>(
    rt: &R,
    running: &Running<B, G>,
    session: &mut Session<B>,
) -> (Result<usize, Refusal>, Result<usize, Refusal>) {
    if !is_here(running, session) {
        return (Err(Refusal::Range), Err(Refusal::Range));
    }
    let members = running.list(rt, session, b"db");
    let groups = running.groups(rt, session);
    (
        members.map(|members| members.as_slice().len()),
        groups.map(|groups| groups.as_slice().len()),
    )
}
