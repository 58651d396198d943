//! A cluster under load, from its start to its end.

ghost use Rattle.std.specs.Prelude.{◌≡◌};
ghost use Rattle.cpg_world_laws.specs.Worlds.{new_world};

use crate::clients::{Ended, nanos_since, run_client};
use crate::gates::{Fates, Notes, gate_of};
use crate::load::{Load, Signals};
use cpg_board::Board;
use cpg_cred::AcceptList;
use cpg_daemon::{Cluster, Ends, HistoryName, MOST_FRAMES, Running};
use cpg_node::Settings;
use cpg_wire::FrameView;
use std::alloc::{AllocError, Global};
use std::io;
use std::sync::Wait;
use std::sync::atomic::Ordering;
use std::thread::{self, Threads};
use std::time::{Clock, Duration, Instant};

/// How many messages each client had taken so many milliseconds after they all had entered.
#[derive(Clone, Copy)]
struct Look {
    millis: u64,
    told: [u32; 8],
}

/// What a thread came to: a client, which looks at nothing, or whoever watches them.
#[derive(Drop)]
struct Part {
    ended: Ended,
    looks: Vec<Look>,
}

/// What a course goes by: its load, what its clients tell each other, and what the gate notes.
#[derive(Clone, Copy)]
struct Course<'a> {
    alloc: Global,
    load: Load,
    signals: &'a Signals,
    notes: &'a Notes,
}

/// What the clients have taken now.
fn look_at(signals: &Signals, millis: u64) -> Look {
    let mut told = [0; 8];
    for (slot, count) in told.iter_mut().zip(signals.told.iter()) {
        *slot = count.load(Ordering::SeqCst);
    }
    Look { millis, told }
}

/// Looks on until nothing is sent any more, each second and at the end, and turns the switch off in time.
fn watch_sending<R: Wait + Clock>(
    rt: &R,
    course: &Course<'_>,
    start: Instant,
    looks: &mut Vec<Look>,
) -> Result<(), AllocError> {
    let Course {
        load,
        signals,
        notes,
        ..
    } = *course;
    let begin = nanos_since(rt, start);
    let mut next = 1_000u64;
    for _ in rt.forever() {
        thread::sleep(rt, Duration::from_millis(5));
        let millis = nanos_since(rt, start).saturating_sub(begin) / 1_000_000;
        if millis >= load.lost {
            notes.deaf.store(false, Ordering::SeqCst);
        }
        let over = millis >= load.sending || signals.is_over();
        if over || millis >= next {
            next = next.saturating_add(1_000);
            looks.push(look_at(signals, millis))?;
        }
        if over {
            break;
        }
    }
    Ok(())
}

/// Watches the clients from their begin until nothing is sent any more. Gives when that was, and what was seen of them.
fn watch<R: Wait + Clock>(rt: &R, course: &Course<'_>, start: Instant) -> Part {
    let mut looks = Vec::new(course.alloc);
    let mut ended = Ended::FAILED;
    if course.signals.wait_for(rt, course.load.nodes) {
        course
            .notes
            .deaf
            .store(course.load.lost > 0, Ordering::SeqCst);
        ended.whole = watch_sending(rt, course, start, &mut looks).is_ok();
        course.signals.over.store(true, Ordering::SeqCst);
        course.notes.deaf.store(false, Ordering::SeqCst);
        ended.end = nanos_since(rt, start);
    }
    Part { ended, looks }
}

/// All clients, and whoever watches them where they send for a time, each in a thread of its own.
fn run_all<B, R>(
    rt: &R,
    running: &Running<B, Fates>,
    course: &Course<'_>,
    start: Instant,
) -> Result<Vec<Part>, AllocError>
where
    B: HistoryName + Send + Sync,
    R: Threads + Wait + Clock + Sync,
{
    let Course {
        alloc,
        load,
        signals,
        ..
    } = *course;
    let one = |index: usize| -> Part {
        if index < usize::from(load.nodes) {
            Part {
                ended: run_client(rt, alloc, running, load, signals, start, index),
                looks: Vec::new(alloc),
            }
        } else {
            watch(rt, course, start)
        }
    };
    let watchers = if load.sending > 0 { 1 } else { 0 };
    let count = usize::from(load.nodes).saturating_add(watchers);
    thread::map_indices(rt, alloc, count, &one)
}

/// Prints what the clients came to; without times where none are asked for.
fn print_ends<R: Print + Alloc>(rt: &R, load: Load, parts: &[Part]) -> io::Result<()> {
    let (mut begin, mut end, mut agree) = (u64::MAX, 0u64, true);
    let mut order = None;
    for part in parts {
        let ended = part.ended;
        begin = begin.min(ended.begin);
        end = end.max(ended.end);
        agree = agree && ended.whole && order.unwrap_or(ended.order) == ended.order;
        order = Some(ended.order);
    }
    let word = if agree { "yes" } else { "NO" };
    let (nodes, messages, size, total) = (load.nodes, load.messages, load.size, load.total());
    print!(rt; "load nodes {nodes} messages {messages} size {size} ordered {total} agree {word}")?;
    if !load.timed {
        return println!(rt; "");
    }
    let micros = (end.saturating_sub(begin) / 1_000).max(1);
    let rate = u64::from(total).saturating_mul(1_000_000) / micros;
    println!(rt; " micros {micros} per_second {rate}")
}

/// Prints what whoever watched saw.
fn print_looks<R: Print + Alloc>(rt: &R, load: Load, looks: &[Look]) -> io::Result<()> {
    for (index, look) in looks.iter().enumerate() {
        let word = if index + 1 < looks.len() {
            "after"
        } else {
            "sent for"
        };
        let millis = look.millis;
        print!(rt; "{word} {millis} ms told")?;
        for told in look.told.iter().take(usize::from(load.nodes)) {
            print!(rt; " {told}")?;
        }
        println!(rt; "")?;
    }
    Ok(())
}

/// Prints what was seen of the clients, and how long after the end of sending the last of them was told all.
fn print_rest<R: Print + Alloc>(rt: &R, load: Load, parts: &[Part]) -> io::Result<()> {
    let Some((watched, clients)) = parts.split_last() else {
        return Ok(());
    };
    print_looks(rt, load, watched.looks.as_slice())?;
    let (mut end, mut whole) = (watched.ended.end, watched.ended.whole);
    for client in clients {
        end = end.max(client.ended.end);
        whole = whole && client.ended.whole;
    }
    if !whole {
        return println!(rt; "a client was refused");
    }
    let rest = end.saturating_sub(watched.ended.end) / 1_000_000;
    println!(rt; "all told after {rest} ms more")
}

/// The clients over running nodes, to the end of the last, and what they came to.
fn run_over<B, R>(rt: &R, running: &Running<B, Fates>, course: &Course<'_>) -> io::Result<()>
where
    B: HistoryName + Send + Sync,
    R: Threads + Wait + Clock + Print + Alloc + Sync,
{
    let start = Instant::now(rt)?;
    let load = course.load;
    match run_all(rt, running, course, start) {
        Ok(ends) if load.sending == 0 => print_ends(rt, load, ends.as_slice()),
        Ok(ends) => print_rest(rt, load, ends.as_slice()),
        Err(_) => println!(rt; "no memory"),
    }
}

/// How often the token went round, by the newest one that was left in a link.
fn rounds_of<B: HistoryName, R: Wait>(rt: &R, mut ends: Ends<B>, nodes: u8) -> u64 {
    let mut hop = 0u64;
    for (_, receiver) in ends.links.iter_mut() {
        for _ in 0..MOST_FRAMES {
            let Some(frame) = receiver.take(rt) else {
                break;
            };
            if let Some(FrameView::Token(token)) = FrameView::read(frame.bytes()) {
                hop = hop.max(token.hop);
            }
        }
    }
    drop(ends);
    hop / u64::from(nodes.max(1))
}

/// The load over a running cluster, which is stopped. Prints how often the token went round, too.
fn run_cluster<B, R>(rt: &R, cluster: Cluster<B, Fates>, course: &Course<'_>) -> io::Result<()>
where
    B: HistoryName + Send + Sync + 'static,
    R: Threads + Wait + Clock + Print + Alloc + Sync,
{
    let done = run_over(rt, &cluster, course);
    let rounds = rounds_of(rt, cluster.stop(rt), course.load.nodes);
    done?;
    if !course.load.timed {
        return Ok(());
    }
    println!(rt; "rounds {rounds}")
}

/// What the load comes to, on that board.
pub fn run<B, R>(
    rt: R,
    alloc: Global,
    settings: Settings,
    board: Board,
    list: &AcceptList,
    load: Load,
) -> io::Result<()>
where
    B: HistoryName + Send + Sync + 'static,
    R: Threads + Wait + Clock + Print + Alloc + Copy + Send + Sync + 'static,
    requires name { (board.cells ≡ B.cells) × (board.table ≡ B.table) × (new_world settings list.now ≡ B.start) }
{
    let (Ok((gate, notes)), Ok(signals)) = (
        gate_of(alloc, load.nodes, None),
        Signals::new(alloc, load.nodes),
    ) else {
        return println!(rt; "no memory");
    };
    let course = Course {
        alloc,
        load,
        signals: &signals,
        notes: &notes,
    };
    match Cluster::<B, Fates>::start(rt, alloc, settings, board, list, gate) {
        Ok(cluster) => run_cluster(&rt, cluster, &course),
        Err(refusal) => println!(rt; "no cluster: {refusal}"),
    }
}
