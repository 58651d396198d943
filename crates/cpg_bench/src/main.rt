//! The work of `bench/load`, `bench/memory` and `bench/soak`, which need threads in one process: running clusters.
//!
//! `load NODES MESSAGES SIZE WINDOW MANY`: a client at each node joins a group, waits until all were told of all, then submits
//! so many messages of SIZE bytes as fast as it may, and takes all that it is told. A WINDOW above 0 is how many it has in
//! flight at most; with a MANY above 0 it submits so many in one go. `behind NODES MILLISECONDS SIZE WINDOW LOST`, of 3 nodes
//! or more: clients that send for so long, while data to the last node is lost for the first LOST milliseconds; printed is
//! how many messages each was told of by each second. `soak`: a line `NODES SEED` begins a cluster whose gate loses, repeats
//! and holds back frames by chance. Lines up to `stop` are commands of `cpgring run`, each answered at once. Then each node's
//! audit is printed, what the gate did, and `done`; after `NODES SEED trace` all that happened, too, as a script of
//! `cpgring step`. Without arguments one client sends ten messages, untimed.
#![tactic(auto)]

mod clients;
mod courses;
mod gates;
mod load;
mod rounds;
mod sessions;

use courses::run;
use cpg_board::Board;
use cpg_cred::Refusal;
use cpg_text::{Words, read_number};
use load::{Load, MOST_PLACES};
use rounds::{PLACES, Plan, go};
use sessions::{list_for, settings_for};
use std::alloc::Global;
use std::io::{Lines, StdinLock, Write};
use std::marker::Brand;
use std::sync::Wait;
use std::thread::Threads;
use std::time::Clock;
use std::{env, io};

/// The number that an argument gives.
fn number_at(words: &[String], index: usize) -> Option<u32> {
    words.get(index)?.as_str().parse::<u32>().ok()
}

/// How many nodes are asked for, if it is a number of nodes.
fn nodes_of(words: &[String]) -> Option<u8> {
    let nodes = u8::try_from(number_at(words, 2)?).ok()?;
    if nodes >= 1 && nodes <= 8 {
        Some(nodes)
    } else {
        None
    }
}

/// A load of so many messages.
fn read_load(words: &[String]) -> Option<Load> {
    let window = number_at(words, 5)?;
    Some(Load {
        nodes: nodes_of(words)?,
        messages: number_at(words, 3)?,
        size: number_at(words, 4)?.min(8_192) as usize,
        window: if window == 0 { u32::MAX } else { window },
        many: number_at(words, 6)?,
        timed: true,
        ..Load::SMALL
    })
}

/// A load of so long a time, or until a client has sent its part of the ring's places. It takes three nodes: of fewer, only
/// the node before the last sends it anything.
fn read_behind(words: &[String]) -> Option<Load> {
    let load = read_load(words)?;
    if load.nodes < 3 {
        return None;
    }
    Some(Load {
        messages: (MOST_PLACES / u32::from(load.nodes)).saturating_sub(1),
        many: 0,
        sending: u64::from(load.messages),
        lost: u64::from(load.many),
        ..load
    })
}

/// The load that the words ask for, if it is one.
fn load_of(words: &[String]) -> Option<Load> {
    match words.get(1) {
        None => Some(Load::SMALL),
        Some(word) if word.as_str() == "load" => read_load(words),
        Some(word) if word.as_str() == "behind" => read_behind(words),
        Some(_) => None,
    }
}

/// The load that the arguments ask for, if it is one, and whether the soak is asked for.
fn asked(rt: HostRuntime) -> io::Result<(Option<Load>, bool)> {
    let mut words = Vec::new(rt.alloc());
    for word in env::args(&rt)? {
        words.push(word)?;
    }
    let soak = matches!(words.get(1), Some(word) if word.as_str() == "soak");
    Ok((load_of(words.as_slice()), soak))
}

/// The load over a cluster of its own.
fn run_load<R>(rt: R, alloc: Global, load: Load) -> io::Result<()>
where
    R: Threads + Wait + Clock + Print + Alloc + Copy + Send + Sync + 'static,
{
    let settings = settings_for(load.nodes, load.places());
    match (Board::new(alloc, settings.places), list_for(alloc)) {
        (Ok(board), Ok(list)) => run::<Brand, R>(rt, alloc, settings, board, &list, load),
        _ => println!(rt; "no board"),
    }
}

/// What the line asks for, if it begins a round.
fn plan_of(line: &[u8]) -> Option<Plan> {
    let mut words = Words::of(line);
    let nodes = read_number(1, 8, words.next()?)?;
    let seed = read_number(0, u64::MAX, words.next()?)?;
    Some(Plan {
        nodes: u8::try_from(nodes).ok()?,
        seed,
        traced: words.next() == Some(b"trace".as_slice()),
    })
}

/// The round of that plan and of the lines that come.
fn run_round<R, W>(
    rt: R,
    alloc: Global,
    plan: Plan,
    lines: &mut Lines<StdinLock<'_>, Global>,
    writer: &mut W,
) -> Result<(), Refusal>
where
    R: Threads + Wait + Clock + Copy + Send + 'static,
    W: Write,
{
    let settings = settings_for(plan.nodes, PLACES);
    let board = if plan.traced {
        Board::recorded(alloc, PLACES)?
    } else {
        Board::new(alloc, PLACES)?
    };
    let list = list_for(alloc)?;
    go::<Brand, R, W>(rt, alloc, settings, board, &list, plan, lines, writer)
}

/// The rounds of all lines.
fn soak<R, W>(
    rt: R,
    alloc: Global,
    lines: &mut Lines<StdinLock<'_>, Global>,
    writer: &mut W,
) -> io::Result<()>
where
    R: Threads + Wait + Clock + Print + Alloc + Copy + Send + 'static,
    W: Write,
{
    for _ in 0..u64::MAX {
        let Some(line) = lines.next() else {
            break;
        };
        let Some(plan) = plan_of(line?.as_str().as_bytes()) else {
            return println!(rt; "bad line");
        };
        if let Err(refusal) = run_round(rt, alloc, plan, lines, writer) {
            return println!(rt; "ended {refusal}");
        }
    }
    Ok(())
}

fn main(rt: HostRuntime) -> io::Result<()> {
    match asked(rt)? {
        (Some(load), _) => run_load(rt, rt.alloc(), load),
        (None, true) => soak(rt, rt.alloc(), &mut rt.lines(rt.alloc()), &mut rt.stdout()),
        (None, false) => println!(rt; "not such words"),
    }
}
