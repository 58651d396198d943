//! The next place that tells a connection anything: the sooner of its next own place and the next place of an
//! allowed entry of the group that it is in. One search of each list suffices, since it stays in its group up
//! to its next own place; so the group that it is in before the next place is known with it.

ghost use Rattle.std.specs.Prelude.{◌≡◌, IfSome, MatchOption};
ghost use Rattle.std.specs.Option.{option_copied};
ghost use Rattle.cpg_record.specs.Membership.{group_of};
ghost use Rattle.cpg_record.specs.Nexts.{reaches, IsNextTold, TellsNoMore};
ghost use Rattle.cpg_record.specs.Places.{records_before, sooner, IsNextOf};
ghost use Rattle.cpg_group.specs.Standing.{AreStanding};
ghost use Rattle.cpg_group.specs.ConnectionLogs.{group_at, IsConnectionLog};

use crate::logs::{Stop, count_own, find_joined, join_past, own_at};
use crate::places::next_in;
use crate::standing::Groups;
use cpg_entry::Name;
use cpg_record::{ConnId, Record};

/// Where a search for the next place ended: at which index the connection's log and its group are kept, and how
/// many places of each were passed. It is a hint for the search from there on, which looks there first; of the
/// connection it says nothing, and a wrong one costs time alone.
#[derive(Debug, Clone, Copy, PartialEq, Eq, Default)]
pub struct Hint {
    pub(crate) log: usize,
    pub(crate) own: usize,
    pub(crate) group: usize,
    pub(crate) heard: usize,
}

/// A place that tells a connection something, and the place of the join by which the connection is in a group
/// before it: 0 where it is in none; with where the search for it ended.
#[derive(Debug, Clone, Copy)]
pub(crate) struct Next {
    pub(crate) place: u32,
    pub(crate) join: u32,
    pub(crate) hint: Hint,
}

/// The lesser of the places that are there.
fn sooner_of(place: Option<u32>, other: Option<u32>) -> Option<u32>
    ensures { result ≡ sooner place other }
{
    match (place, other) {
        (None, other) => other,
        (Some(place), None) => Some(place),
        (Some(place), Some(other)) => {
            if place <= other {
                Some(place)
            } else {
                Some(other)
            }
        }
    }
}

/// The next place above the last one of an allowed entry of the group, if there is a group, and where the search
/// for it ended.
#[inline(always)]
fn next_heard(
    records: &[Record],
    groups: &Groups,
    group: Option<&Name>,
    last: usize,
    hint: Hint,
) -> (Option<u32>, Hint)
    requires { AreStanding groups.now records.now }
    ensures { IsNextOf (reaches (option_copied group.entry)) records.now last result.0 }
{
    match group {
        None => (None, hint),
        Some(name) => {
            let (group, at) = groups.of_near(name.as_slice(), hint.group);
            let (place, passed) = next_in(group.places(), last, hint.heard);
            let hint = Hint {
                group: at,
                heard: passed,
                ..hint
            };
            (place, hint)
        }
    }
}

/// The next place above `after` that tells the connection of the log anything, sought first where the hint says.
#[inline(always)]
pub(crate) fn find_next(
    records: &[Record],
    groups: &Groups,
    log: &[Stop],
    conn: &ConnId,
    after: usize,
    hint: Hint,
) -> Option<Next>
    requires groups { AreStanding groups.now records.now }
    requires log { IsConnectionLog records.now conn.now log.now }
    ensures told { MatchOption result (TellsNoMore records.now after conn.now) (λ next. IsNextTold records.now after conn.now next.place) }
    ensures join { IfSome result (λ next. group_at records.now next.join ≡ group_of (records_before records.now next.place) conn.now) }
{
    let passed = count_own(log, after, hint.own);
    let join = join_past(log, passed);
    let hint = Hint {
        own: passed,
        ..hint
    };
    let (heard, hint) = next_heard(records, groups, find_joined(records, join), after, hint);
    match sooner_of(own_at(log, passed), heard) {
        None => None,
        Some(place) => Some(Next { place, join, hint }),
    }
}
