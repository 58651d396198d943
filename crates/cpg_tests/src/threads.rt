//! Three client threads at a cluster of three nodes, and what happened in it, played again.

ghost use Rattle.std.specs.Prelude.{◌≡◌};
ghost use Rattle.cpg_board.specs.Seats.{IsSeatOf};
ghost use Rattle.cpg_world_laws.specs.Worlds.{new_world};

use crate::playing::{Told, connect, next_told, settings_of, submit};
use crate::replaying::{begins, plays_again};
use cpg_board::{Board, Seat};
use cpg_cred::{AcceptList, Refusal};
use cpg_daemon::{Cluster, Front, HistoryName, Member, PassAll, Running, Session};
use cpg_entry::{Call, Name, Op};
use cpg_group::verify;
use cpg_node::Settings;
use cpg_record::{Reason, Record, Verdict};
use std::alloc::Global;
use std::marker::Brand;
use std::sync::Wait;
use std::test::Fail;
use std::thread::{self, Threads};
use std::time::Clock;

/// A call to remove that rule of `db`.
fn remove(alloc: Global, id: u32) -> Result<Call, Refusal> {
    Ok(Call::Remove(Name::from_slice(alloc, b"db")?, id))
}

/// Whether ten removals are put among those that wait, and the session then is told of each that it is denied, since no rule
/// has that number.
fn goes_ten<B: HistoryName, R: Wait + Clock>(
    rt: &R,
    alloc: Global,
    running: &Running<B, PassAll>,
    session: &mut Session<B>,
    batch: u8,
) -> bool {
    for step in 0u8..10 {
        let id = u32::from(batch) * 10 + u32::from(step) + 1;
        let Ok(call) = remove(alloc, id) else {
            return false;
        };
        if submit(rt, running, session, call).is_err() {
            return false;
        }
    }
    let mut denied = 0u8;
    for _ in 0u8..10 {
        match next_told(rt, running, session) {
            Told::Verdict(_, Verdict::Denied(Reason::Absent)) => denied = denied.saturating_add(1),
            _ => return false,
        }
    }
    denied == 10
}

/// The session of a process of the root user at the node of that index, from 0, once it was denied a hundred removals.
fn client<B: HistoryName, R: Wait + Clock>(
    rt: &R,
    alloc: Global,
    running: &Running<B, PassAll>,
    index: usize,
) -> Option<Session<B>> {
    let number = u8::try_from(index).unwrap_or(u8::MAX).saturating_add(1);
    let mut session = connect(rt, running, number, u32::from(number), 0).ok()?;
    for batch in 0u8..10 {
        if !goes_ten(rt, alloc, running, &mut session, batch) {
            return None;
        }
    }
    Some(session)
}

/// The auditor's seat catches up with a session's.
fn catch_up<B: HistoryName>(
    running: &Running<B, PassAll>,
    seat: &mut Seat,
    session: &Session<B>,
) -> bool
    requires { IsSeatOf B.cells seat.old }
    ensures { IsSeatOf B.cells seat.new }
{
    running.board().catch_up(seat, session.seat()).is_ok()
}

/// Copies of all records that the seat knows.
fn copies_of(alloc: Global, board: &Board, seat: &Seat) -> Result<Vec<Record>, Refusal>
    requires { IsSeatOf board.now.cells seat.now }
{
    let mut copies = Vec::new(alloc);
    for index in 0..seat.len() {
        if index < 1_000_000 {
            copies.push(board.known(seat, index as u32 + 1).copy(alloc)?)?;
        }
    }
    Ok(copies)
}

/// What an auditor knows that caught up with the three sessions.
fn audited<B: HistoryName>(
    alloc: Global,
    running: &Running<B, PassAll>,
    one: &Session<B>,
    two: &Session<B>,
    three: &Session<B>,
) -> Result<Vec<Record>, Refusal> {
    let mut seat = running.auditor();
    let caught = catch_up(running, &mut seat, one)
        && catch_up(running, &mut seat, two)
        && catch_up(running, &mut seat, three);
    let copies = copies_of(alloc, running.board(), &seat);
    drop(seat);
    if caught { copies } else { Err(Refusal::Memory) }
}

/// What the sessions of three clients, each in a thread of its own, saw, once all have gone.
fn seen_by_three<B: HistoryName + Send + Sync, R: Threads + Wait + Clock + Sync>(
    rt: &R,
    alloc: Global,
    running: &Running<B, PassAll>,
) -> Result<Vec<Record>, Refusal> {
    let one = |index: usize| -> Option<Session<B>> { client(rt, alloc, running, index) };
    let sessions = thread::map_indices(rt, alloc, 3, &one)?;
    match sessions.as_slice() {
        [Some(one), Some(two), Some(three)] => audited(alloc, running, one, two, three),
        _ => Err(Refusal::Stopped),
    }
}

/// Whether the record is of the removal of that rule.
fn is_removal(past: &Record, id: u32) -> bool {
    match &past.entry.op {
        Op::Act(Call::Remove(group, rule)) => *rule == id && group.as_slice() == b"db".as_slice(),
        _ => false,
    }
}

/// Whether the node's removals are among the records, in order, and no others of it.
fn are_in_order(records: &[Record], number: u8) -> bool {
    let mut next = 1u32;
    for past in records {
        if past.entry.node.get() == number {
            if !is_removal(past, next) {
                return false;
            }
            next = next.saturating_add(1);
        }
    }
    next == 101
}

/// Whether these are 300 records, a hundred of each node in order, and judged as they have to be.
fn are_sound(alloc: Global, records: &[Record]) -> bool {
    records.len() == 300
        && are_in_order(records, 1)
        && are_in_order(records, 2)
        && are_in_order(records, 3)
        && verify(alloc, records) == Ok(true)
}

/// Whether it is the station of the node of that number, whose audit begins the records.
fn is_left<B: HistoryName>(member: &Member<B>, number: u8, records: &[Record]) -> bool {
    member.id().get() == number && !member.is_spare() && begins(member.station().audit(), records)
}

/// Whether three stations are left, whose audits begin the records.
fn are_left<B: HistoryName>(members: &[Member<B>], records: &[Record]) -> bool {
    match members {
        [one, two, three] => {
            is_left(one, 1, records) && is_left(two, 2, records) && is_left(three, 3, records)
        }
        _ => false,
    }
}

/// Whether a cluster of three nodes serves three clients so: the records are sound, what is left begins them, and so does what
/// is judged where all that was recorded is played.
fn three_on<B, R>(
    rt: R,
    alloc: Global,
    settings: Settings,
    board: Board,
    list: &AcceptList,
) -> Result<bool, Refusal>
where
    B: HistoryName + Send + Sync + 'static,
    R: Threads + Wait + Clock + Copy + Send + Sync + 'static,
    requires name { (board.cells ≡ B.cells) × (board.table ≡ B.table) × (new_world settings list.now ≡ B.start) }
{
    let cluster = Cluster::<B, PassAll>::start(rt, alloc, settings, board, list, PassAll)?;
    let seen = seen_by_three(&rt, alloc, &cluster);
    let (members, front) = cluster.stop_traced(&rt);
    let records = seen?;
    let left = are_left(members.as_slice(), records.as_slice());
    let played = plays_again(alloc, members, front, records.as_slice());
    Ok(left && played && are_sound(alloc, records.as_slice()))
}

/// Whether a new one does, of which what happens is recorded.
fn three_go<R>(rt: R, alloc: Global) -> Result<bool, Refusal>
where
    R: Threads + Wait + Clock + Copy + Send + Sync + 'static,
{
    let (settings, list) = (settings_of(3), AcceptList::new(alloc));
    let board = Board::recorded(alloc, settings.places)?;
    three_on::<Brand, R>(rt, alloc, settings, board, &list)
}

#[test]
fn three_threads_are_served(rt: HostRuntime) -> Result<(), Fail> {
    assert!(rt; three_go(rt, rt.alloc()) == Ok(true));
    Ok(())
}
