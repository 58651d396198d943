//! Entries of every op, drawn by the numbers of a small generator.

use crate::entering::{Ask, Source, entry, node};
use cpg_entry::{Entry, NodeId, Refusal};
use cpg_group::ConnId;
use cpg_rules::{Effect, Right, Rule, Who};
use std::alloc::Global;

/// The number of that turn of the seed: MurmurHash3's last steps over the two.
fn number_of(seed: u32, turn: u32) -> u32 {
    let mut bits = seed.wrapping_mul(4096).wrapping_add(turn);
    bits ^= bits >> 16;
    bits = bits.wrapping_mul(0x85eb_ca6b);
    bits ^= bits >> 13;
    bits = bits.wrapping_mul(0xc2b2_ae35);
    bits ^ (bits >> 16)
}

/// One of nine connections of three nodes, with one of six processes, four users and two groups of users;
/// five of eight are of user 0.
fn source_by(number: u32) -> Source {
    Source {
        node: (number % 3 + 1) as u8,
        conn: (number / 3 % 3 + 1) as u16,
        pid: number / 9 % 6,
        uid: (number / 54 % 8).saturating_sub(4),
        gid: number / 432 % 2,
    }
}

/// A right, by that number.
fn right_by(number: u32) -> Right {
    match number % 4 {
        0 => Right::Join,
        1 => Right::Send,
        2 => Right::List,
        _ => Right::Edit,
    }
}

/// Whom a rule speaks of: a user, a group of users, a node, or a user of a node.
fn who_by(number: u32) -> Who {
    let user = number / 4 % 4;
    let node = NodeId::new((number / 4 % 3 + 1) as u8);
    Who {
        uid: if number % 2 == 0 { Some(user) } else { None },
        gid: if number % 4 == 1 {
            Some(user / 2)
        } else {
            None
        },
        node: if number % 4 >= 2 { node } else { None },
    }
}

/// A rule, every other of which denies.
fn rule_by(number: u32) -> Rule {
    Rule {
        effect: if number % 2 == 0 {
            Effect::Deny
        } else {
            Effect::Allow
        },
        right: right_by(number / 2),
        who: who_by(number / 8),
    }
}

/// What is asked at the turn, with one of two groups: of twelve, four joins, three messages, two inserts at
/// one of the indices 0 to 2, a leave, a removal of one of the ids so far, and an end.
fn ask_by(turn: u32, number: u32) -> Ask {
    let group = if number % 2 == 0 { "db" } else { "app" };
    let rest = number / 24;
    match number / 2 % 12 {
        0..=3 => Ask::Join(group),
        4..=6 => Ask::Send,
        7 | 8 => Ask::Insert(group, (rest % 3) as u8, rule_by(rest / 3)),
        9 => Ask::Leave,
        10 => Ask::Remove(group, rest % (turn % 90 + 1)),
        _ => Ask::Gone,
    }
}

/// The entry of that turn of the seed.
pub fn drawn(alloc: Global, seed: u32, turn: u32) -> Result<Entry, Refusal> {
    let number = number_of(seed, turn);
    entry(alloc, &source_by(number), &ask_by(turn, number / 864))
}

/// One of the nine connections, or from 9 on one that makes no entry.
fn conn_by(number: u32) -> Result<ConnId, Refusal> {
    Ok(ConnId {
        node: node((number % 3 + 1) as u8)?,
        conn: (number / 3 % 4 + 1) as u16,
    })
}

/// How many connections are asked about: those that take part, and one that makes no entry.
const CONNS: u32 = 10;

/// Whether that is so of each connection.
pub fn is_so_of_each<F: Fn(&ConnId) -> bool>(is_so: F) -> bool
    requires { F.IsAlwaysCallable is_so }
{
    for number in 0..CONNS {
        match conn_by(number) {
            Ok(conn) if is_so(&conn) => {}
            _ => return false,
        }
    }
    true
}
