//! What an open session is asked for, and what it is answered.
//!
//! Proved: the answer is one that `specs/Answers.antt` allows, whatever the threads do; and a wait by looks that gives
//! up has asked `MOST_POLLS` times, a number that `limits` says. One by the clock has asked at least once; no time is
//! proved of it.

ghost use Rattle.std.specs.Prelude.{true, false, ℕ, ◌≡◌, ◌≤◌, ◌<◌, ◌+◌, Ok, OnOk, IsOkUnless};
ghost use Rattle.cpg_record.specs.Places.{Begins};
ghost use Rattle.cpg_board.specs.Seats.{IsSeatOf};
ghost use Rattle.cpg_station.specs.Serving.{SubmitRefuses};
ghost use Rattle.cpg_cluster.specs.declared.commands.Ask.TheVariants as asks;
ghost use Rattle.cpg_cluster.specs.declared.replies.Reply.TheVariants as replies;
ghost use Rattle.cpg_cluster.specs.Answers.{Serves};
ghost use Rattle.cpg_cluster.specs.Steps.{SeatsOn, IsPolled, poll_of};

use crate::commands::Ask;
use crate::forms::WaitLimit;
use crate::replies::Reply;
use cpg_board::{Board, Seat};
use cpg_cred::Refusal;
use cpg_daemon::{HistoryName, Running, Session};
use cpg_entry::Call;
use cpg_node::Event;
use std::alloc::Global;
use std::sync::Wait;
use std::thread;
use std::time::{Clock, Duration, Instant};

/// How often a session that waits is asked for its next event, at most.
pub const MOST_POLLS: u32 = 1_000_000;

/// After how many polls a wait sleeps each time, and for how many microseconds: whoever waits leaves the nodes'
/// threads their time, and a million polls take some seconds.
const POLLS_A_SLEEP: u32 = 64;

const SLEEP_MICROS: u64 = 100;

/// The limit of a wait: a million polls.
pub fn limits()
    ensures polls { MOST_POLLS ≡ 1000000 }
{}

/// The session's call is to wait at its node.
fn submit<B: HistoryName, G, H: Wait>(
    rt: &H,
    alloc: Global,
    running: &Running<B, G>,
    session: &mut Session<B>,
    call: &Call,
) -> Result<Reply, Refusal>
    requires { session.old.who.id.node ≤ running.now.nodes }
    ensures answer { Serves B.start session.old (asks.Call call.now) result session.new }
    ensures seats { SeatsOn B.cells result }
{
    let call = call.copy(alloc)?;
    match running.submit(rt, session, call) {
        Ok(()) => Ok(Reply::Admitted),
        Err(refused) => Err(refused.refusal),
    }
}

/// What the answer of one poll tells whoever waits: nothing where there is no event yet, or where the session's node
/// is behind.
fn polled(answer: Result<Option<Event>, Refusal>) -> Option<Result<Event, Refusal>>
    ensures { result ≡ poll_of answer }
{
    match answer {
        Ok(None) => None,
        Ok(Some(event)) => Some(Ok(event)),
        Err(Refusal::Behind(_)) => None,
        Err(refusal) => Some(Err(refusal)),
    }
}

/// What the session is told when it asks for its next event once.
#[tactic(auto, using(crate::proofs::Seen::polled_is))]
fn look<B: HistoryName, G, H: Wait>(
    rt: &H,
    running: &Running<B, G>,
    session: &mut Session<B>,
) -> Option<Result<Event, Refusal>>
    requires { session.old.who.id.node ≤ running.now.nodes }
    ensures { IsPolled B.start session.old result session.new }
{
    polled(running.take(rt, session))
}

/// The same, counted.
fn poll<B: HistoryName, G, H: Wait>(
    rt: &H,
    running: &Running<B, G>,
    session: &mut Session<B>,
    polls: &mut u32,
) -> Option<Result<Event, Refusal>>
    requires node { session.old.who.id.node ≤ running.now.nodes }
    requires few { polls.old < MOST_POLLS }
    ensures told { IsPolled B.start session.old result session.new }
    ensures counted { polls.new ≡ polls.old + 1 }
{
    *polls += 1;
    look(rt, running, session)
}

/// Rests after that poll, from 0: by a yield, or now and then by a sleep.
fn rest<H: Clock>(rt: &H, poll: u32) {
    if poll % POLLS_A_SLEEP == POLLS_A_SLEEP - 1 {
        thread::sleep(rt, Duration::from_micros(SLEEP_MICROS));
    } else {
        thread::yield_now();
    }
}

/// The session's next event, once it comes; nothing where it does not come for `MOST_POLLS` polls, which are counted.
#[tactic(auto, using(crate::proofs::Seen::stays_on, crate::proofs::Seen::stays_self, crate::proofs::Seen::awaited_on, crate::proofs::Seen::ended_on))]
fn wait_looks<B: HistoryName, G, H: Wait + Clock>(
    rt: &H,
    running: &Running<B, G>,
    session: &mut Session<B>,
    polls: &mut u32,
) -> Result<Reply, Refusal>
    requires node { session.old.who.id.node ≤ running.now.nodes }
    requires none { polls.old ≡ 0 }
    ensures answer { Serves B.start session.old asks.Wait result session.new }
    ensures polls { (seen : ℕ) → result ≡ Ok (replies.Nothing seen) → polls.new ≡ MOST_POLLS }
    ensures seats { SeatsOn B.cells result }
{
    for number in 0..MOST_POLLS {
        match poll(rt, running, session, polls) {
            None => rest(rt, number),
            Some(Ok(event)) => return Ok(Reply::Took(event)),
            Some(Err(refusal)) => return Err(refusal),
        }
    }
    Ok(Reply::Nothing(session.seat().len()))
}

/// Whether so much time went by since the start, as far as the clock tells.
fn is_over<H: Clock>(rt: &H, start: &Instant, time: Duration) -> bool {
    match start.elapsed(rt) {
        Ok(elapsed) => elapsed >= time,
        Err(_) => true,
    }
}

/// Rests after that poll, from 0, unless the time is over, and says whether it is.
fn rest_within<H: Clock>(rt: &H, poll: u64, start: &Instant, time: Duration) -> bool {
    let over = is_over(rt, start, time);
    if !over {
        rest(rt, (poll % u64::from(POLLS_A_SLEEP)) as u32);
    }
    over
}

/// The session's next event, once it comes; nothing where it does not come within the time since the start. It is
/// asked for at least once, which is noted.
#[tactic(auto, using(crate::proofs::Seen::stays_on, crate::proofs::Seen::stays_self, crate::proofs::Seen::awaited_on, crate::proofs::Seen::ended_on))]
fn wait_within<B: HistoryName, G, H: Wait + Clock>(
    rt: &H,
    running: &Running<B, G>,
    session: &mut Session<B>,
    start: &Instant,
    time: Duration,
    looked: &mut bool,
) -> Result<Reply, Refusal>
    requires node { session.old.who.id.node ≤ running.now.nodes }
    requires none { looked.old ≡ false }
    ensures answer { Serves B.start session.old asks.Wait result session.new }
    ensures looked { (seen : ℕ) → result ≡ Ok (replies.Nothing seen) → looked.new ≡ true }
    ensures seats { SeatsOn B.cells result }
{
    for number in 0..u64::MAX {
        let told = look(rt, running, session);
        *looked = true;
        match told {
            None => {
                if rest_within(rt, number, start, time) {
                    return Ok(Reply::Nothing(session.seat().len()));
                }
            }
            Some(Ok(event)) => return Ok(Reply::Took(event)),
            Some(Err(refusal)) => return Err(refusal),
        }
    }
    Ok(Reply::Nothing(session.seat().len()))
}

/// The session's next event, once it comes; nothing where the wait limit ends before. Where the clock can't be read, a
/// time is as long as `MOST_POLLS` polls.
fn wait<B: HistoryName, G, H: Wait + Clock>(
    rt: &H,
    running: &Running<B, G>,
    wait_limit: WaitLimit,
    session: &mut Session<B>,
) -> Result<Reply, Refusal>
    requires { session.old.who.id.node ≤ running.now.nodes }
    ensures answer { Serves B.start session.old asks.Wait result session.new }
    ensures seats { SeatsOn B.cells result }
{
    if let WaitLimit::Millis(millis) = wait_limit {
        if let Ok(start) = Instant::now(rt) {
            let time = Duration::from_millis(millis);
            let mut looked = false;
            return wait_within(rt, running, session, &start, time, &mut looked);
        }
    }
    let mut polls = 0;
    wait_looks(rt, running, session, &mut polls)
}

fn list<B: HistoryName, G, H: Wait>(
    rt: &H,
    running: &Running<B, G>,
    session: &mut Session<B>,
    group: &[u8],
) -> Result<Reply, Refusal>
    requires { session.old.who.id.node ≤ running.now.nodes }
    ensures answer { Serves B.start session.old (asks.List group.now) result session.new }
    ensures seats { SeatsOn B.cells result }
{
    match running.list(rt, session, group) {
        Ok(processes) => Ok(Reply::Members(processes)),
        Err(refusal) => Err(refusal),
    }
}

fn groups<B: HistoryName, G, H: Wait>(
    rt: &H,
    running: &Running<B, G>,
    session: &mut Session<B>,
) -> Result<Reply, Refusal>
    requires { session.old.who.id.node ≤ running.now.nodes }
    ensures answer { Serves B.start session.old asks.Groups result session.new }
    ensures seats { SeatsOn B.cells result }
{
    match running.groups(rt, session) {
        Ok(names) => Ok(Reply::Groups(names)),
        Err(refusal) => Err(refusal),
    }
}

/// The seat reads what stands on the board after what it knows, up to the first place that is empty.
#[tactic(auto, using(crate::proofs::Seen::begins_on, crate::proofs::Seen::begins_self))]
fn read_rest(board: &Board, seat: &mut Seat) -> Result<(), Refusal>
    requires { IsSeatOf board.now.cells seat.old }
    ensures seat { IsSeatOf board.now.cells seat.new × Begins seat.old seat.new }
    ensures memory { IsOkUnless result Refusal.Memory }
{
    for _ in 0..u64::MAX {
        if board.read_next(seat)?.is_none() {
            break;
        }
    }
    Ok(())
}

/// The seat knows what the other knows, and what follows on the board.
#[tactic(auto, using(crate::proofs::Seen::begins_on))]
fn read_all(board: &Board, seat: &mut Seat, other: &Seat) -> Result<(), Refusal>
    requires { IsSeatOf board.now.cells seat.old × IsSeatOf board.now.cells other.now }
    ensures ok { OnOk result (IsSeatOf board.now.cells seat.new × Begins other.now seat.new) }
    ensures memory { IsOkUnless result Refusal.Memory }
{
    board.catch_up(seat, other)?;
    read_rest(board, seat)
}

/// A seat that knows all that the session and the board know.
fn audit<B: HistoryName, G>(running: &Running<B, G>, session: &Session<B>) -> Result<Reply, Refusal>
    ensures answer { Serves B.start session.now asks.Audit result session.now }
    ensures seats { SeatsOn B.cells result }
{
    let mut seat = running.auditor();
    match read_all(running.board(), &mut seat, session.seat()) {
        Ok(()) => Ok(Reply::Audit(seat)),
        Err(refusal) => {
            drop(seat);
            Err(refusal)
        }
    }
}

/// What an open session is answered.
pub fn serve<B: HistoryName, G, H: Wait + Clock>(
    rt: &H,
    alloc: Global,
    running: &Running<B, G>,
    wait_limit: WaitLimit,
    session: &mut Session<B>,
    asked: &Ask,
) -> Result<Reply, Refusal>
    requires { session.old.who.id.node ≤ running.now.nodes }
    ensures answer { Serves B.start session.old asked.now result session.new }
    ensures node { session.new.who.id ≡ session.old.who.id }
    ensures seats { SeatsOn B.cells result }
{
    match asked {
        Ask::Call(call) => submit(rt, alloc, running, session, call),
        Ask::Wait => wait(rt, running, wait_limit, session),
        Ask::List(group) => list(rt, running, session, group.as_slice()),
        Ask::Groups => groups(rt, running, session),
        Ask::Audit => audit(running, &*session),
    }
}
