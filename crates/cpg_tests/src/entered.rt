//! Entries that one call judges and puts last beside those that are judged and then applied, and what a policy
//! lends of its connections beside what it finds by searches.

use crate::drawing::{drawn, is_so_of_each};
use crate::entering::{are_equal, enter};
use cpg_entry::{Entry, MOST_PLACES, Name};
use cpg_group::{ConnId, Policy};
use std::alloc::Global;

/// How many pairs of policies there are.
const PAIRS: u32 = 200;

/// How many entries each policy judges.
const ENTRIES: u32 = 90;

/// Judges the entry and puts it last by one call, and says whether that was done.
fn enters(policy: &mut Policy, entry: Entry) -> bool {
    policy.len() < MOST_PLACES as usize && policy.enter(entry).is_ok()
}

/// Puts the entry last in both, in the one by two calls and in the other by one.
fn both_enter(one: &mut Policy, other: &mut Policy, entry: Entry) -> bool {
    enter(one, &entry).is_ok() && enters(other, entry)
}

/// Does so with the entry of the turn.
fn turn_enters(alloc: Global, one: &mut Policy, other: &mut Policy, seed: u32, turn: u32) -> bool {
    match drawn(alloc, seed, turn) {
        Ok(entry) => both_enter(one, other, entry),
        Err(_) => false,
    }
}

/// Whether both have the same records after each turn of the seed.
fn turns_enter(alloc: Global, one: &mut Policy, other: &mut Policy, seed: u32) -> bool {
    for turn in 0..ENTRIES {
        if !turn_enters(alloc, one, other, seed, turn) || one.len() != other.len() {
            return false;
        }
    }
    are_equal(one.records(), other.records())
}

/// Whether the connection is among the first so many.
fn is_among(conns: &[ConnId], count: usize, conn: &ConnId) -> bool {
    conns.iter().take(count).any(|one| one.is(conn))
}

/// Whether the connection of that index is that one.
fn is_at(conns: &[ConnId], index: usize, conn: &ConnId) -> bool {
    match conns.get(index) {
        Some(one) => one.is(conn),
        None => false,
    }
}

/// Whether the policy lends the connections of its records, each once, in the order of their first entries.
fn lends_connections(policy: &Policy) -> bool {
    let conns = policy.connections();
    let mut seen = 0usize;
    for past in policy.records() {
        let conn = ConnId::of(&past.entry);
        if !is_among(conns, seen, &conn) {
            if !is_at(conns, seen, &conn) {
                return false;
            }
            seen = seen.wrapping_add(1);
        }
    }
    seen == conns.len()
}

/// Whether the names are the same, or neither is there.
fn are_same(one: Option<&Name>, other: Option<&Name>) -> bool {
    match (one, other) {
        (Some(one), Some(other)) => one.is(other.as_slice()),
        (None, None) => true,
        _ => false,
    }
}

/// Whether the log lends the connection's own places by number, and after each the group that a search finds.
fn log_agrees(policy: &Policy, conn: &ConnId) -> bool {
    let log = policy.log(*conn);
    let mut place = 0u32;
    let mut count = 0usize;
    for past in policy.records() {
        place = place.wrapping_add(1);
        if ConnId::of(&past.entry) == *conn {
            if log.own(count) != Some(place) {
                return false;
            }
            count = count.wrapping_add(1);
        }
        if !are_same(log.group_past(count), log.group_after(place)) {
            return false;
        }
    }
    log.own(count).is_none()
}

/// Whether the new policies agree.
fn pair_agrees(alloc: Global, one: &mut Policy, other: &mut Policy, seed: u32) -> bool {
    turns_enter(alloc, one, other, seed)
        && lends_connections(other)
        && is_so_of_each(|conn| log_agrees(other, conn))
}

/// Whether policies of the seed agree.
fn seed_agrees(alloc: Global, seed: u32) -> bool {
    let mut one = Policy::new(alloc);
    let mut other = Policy::new(alloc);
    let answer = pair_agrees(alloc, &mut one, &mut other, seed);
    drop(one);
    drop(other);
    answer
}

/// Whether that is so of each seed.
fn seeds_agree(alloc: Global) -> bool {
    for seed in 0..PAIRS {
        if !seed_agrees(alloc, seed) {
            return false;
        }
    }
    true
}

#[test]
fn entries_are_entered_as_they_are_judged(rt: HostRuntime) {
    assert!(rt; seeds_agree(rt.alloc()));
}
