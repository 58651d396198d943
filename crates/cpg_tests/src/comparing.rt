//! The policy's calls beside the plain programs, over 1,000 policies of 90 drawn entries each.
//!
//! Of twelve entries four are joins, three messages, two inserts at one of the indices 0 to 2, one a leave, one
//! a removal of one of the places so far, and one the connection's end, each with one of two groups. They are
//! made by nine connections of three nodes, with six processes, two groups of users and four users, five of
//! eight as user 0. Every other rule denies; a rule has any of the four rights, and speaks of a user, a group of
//! users, a node, or a user of a node. So connections leave, end and join again, rules deny messages, and users
//! other than 0 edit tables: each of these is counted, and has to come up more than 200 times.

use crate::drawing::{drawn, is_so_of_each};
use crate::entering::{are_equal, emptied_at, enter, events_at};
use crate::plain::{decide, entry_group, group_in, is_over, member_at, rules_of, verdict_on};
use crate::plain_events::{acts_in, are_told, hears, is_news_of, is_own};
use cpg_entry::{Asker, By, Call, Entry, Name, NodeId, Op, Refusal};
use cpg_group::{
    ConnId, Event, Member, Policy, Processes, Reason, Record, Verdict, count_upto, verify,
};
use cpg_rules::{Right, Rule, Table};
use std::alloc::Global;

/// How many policies there are.
const POLICIES: u32 = 1_000;

/// How many entries each of them judges.
const ENTRIES: u32 = 90;

/// Whether the members are those of the group.
fn are_members(list: &[Member], records: &[Record], group: &[u8]) -> bool {
    for index in 0..=list.len() {
        if list.get(index).copied() != member_at(records, group, index) {
            return false;
        }
    }
    true
}

/// The node and the process of a member, if there is one.
fn process_of(member: Option<Member>) -> Option<(NodeId, u32)> {
    match member {
        Some(member) => Some((member.node, member.pid)),
        None => None,
    }
}

/// Whether the processes are those of the group's members.
fn are_processes(list: &[(NodeId, u32)], records: &[Record], group: &[u8]) -> bool {
    for index in 0..=list.len() {
        if list.get(index).copied() != process_of(member_at(records, group, index)) {
            return false;
        }
    }
    true
}

/// Whether the group that is there has that name, or neither is there.
fn is_group(group: &Option<Name>, name: Option<&[u8]>) -> bool {
    match (group, name) {
        (Some(group), Some(name)) => group.is(name),
        (None, None) => true,
        _ => false,
    }
}

/// Whether the last record has the group and the members that the plain programs find.
fn record_agrees(records: &[Record]) -> bool {
    match records.split_last() {
        Some((past, before)) => {
            let group = entry_group(&past.entry, group_in(before, &ConnId::of(&past.entry)));
            is_group(&past.group, group)
                && are_members(past.members.as_slice(), records, group.unwrap_or(&[]))
        }
        None => false,
    }
}

/// Whether the table has those rules, in that order.
fn has_rules(table: &Table, rules: &[(u32, Rule)]) -> bool {
    for index in 0..=rules.len() {
        if table.get(index) != rules.get(index).copied() {
            return false;
        }
    }
    !rules.is_empty()
}

/// Whether the group's table, where there is one, has those rules.
fn table_agrees(policy: &Policy, group: &[u8], rules: &[(u32, Rule)]) -> bool {
    match policy.table(group) {
        Some(table) => has_rules(table, rules),
        None => rules.is_empty(),
    }
}

/// Whether the list, which is let go, has the group's members.
fn lists(list: Processes, records: &[Record], group: &[u8]) -> bool {
    let answer = are_processes(list.as_slice(), records, group);
    drop(list);
    answer
}

/// Whether the asker is shown the members of the group, or refused by the rule that denies it.
fn members_agree(policy: &Policy, group: &[u8], asker: Asker, decision: Verdict) -> bool {
    match policy.members(group, asker) {
        Ok(list) => decision.is_allowed() && lists(list, policy.records(), group),
        Err(Refusal::Denied(By::Rule(id))) => decision == Verdict::Denied(Reason::Rule(id)),
        Err(_) => false,
    }
}

/// Whether the group's table has those rules, and the asker is shown the members that they let it see.
fn group_agrees(policy: &Policy, group: &[u8], asker: Asker, rules: &[(u32, Rule)]) -> bool {
    table_agrees(policy, group, rules)
        && members_agree(policy, group, asker, decide(rules, Right::List, &asker))
}

/// Whether the group has members, and the rules let the asker list it.
fn is_shown(records: &[Record], group: &[u8], asker: &Asker, rules: &[(u32, Rule)]) -> bool {
    decide(rules, Right::List, asker).is_allowed() && member_at(records, group, 0).is_some()
}

/// Whether the names are those of the groups that are shown.
fn are_shown(names: &[Name], app: bool, db: bool) -> bool {
    match names {
        [] => !app && !db,
        [one] => app != db && one.is(if app { b"app" } else { b"db" }),
        [one, other] => app && db && one.is(b"app") && other.is(b"db"),
        _ => false,
    }
}

/// Whether the asker is shown the groups, of which one or both are there to be shown.
fn groups_agree(policy: &Policy, asker: Asker, app: bool, db: bool) -> bool {
    match policy.groups(asker) {
        Ok(names) => are_shown(names.as_slice(), app, db),
        Err(_) => false,
    }
}

/// Whether both groups have those rules, and the asker is shown what they let it see.
fn both_agree_by(policy: &Policy, asker: Asker, app: &[(u32, Rule)], db: &[(u32, Rule)]) -> bool {
    let records = policy.records();
    group_agrees(policy, b"app", asker, app)
        && group_agrees(policy, b"db", asker, db)
        && groups_agree(
            policy,
            asker,
            is_shown(records, b"app", &asker, app),
            is_shown(records, b"db", &asker, db),
        )
}

/// Whether that is so of one group, whose rules these are, and of the other.
fn other_agrees(alloc: Global, policy: &Policy, asker: Asker, app: &[(u32, Rule)]) -> bool {
    match rules_of(alloc, policy.records(), b"db") {
        Ok(db) => both_agree_by(policy, asker, app, db.as_slice()),
        Err(_) => false,
    }
}

/// Whether both groups have the rules of the plain program, and the asker is shown what they let it see.
fn both_agree(alloc: Global, policy: &Policy, asker: Asker) -> bool {
    match rules_of(alloc, policy.records(), b"app") {
        Ok(app) => other_agrees(alloc, policy, asker, app.as_slice()),
        Err(_) => false,
    }
}

/// Judges the entry, and says whether it is answered as the plain program answers it.
fn verdict_agrees(alloc: Global, policy: &mut Policy, entry: &Entry) -> bool {
    match verdict_on(alloc, policy.records(), entry) {
        Ok(plain) => enter(policy, entry) == Ok(plain),
        Err(_) => false,
    }
}

/// Judges the entry, and says whether all is as the plain programs say.
fn entry_agrees(alloc: Global, policy: &mut Policy, entry: &Entry) -> bool {
    verdict_agrees(alloc, policy, entry)
        && record_agrees(policy.records())
        && both_agree(alloc, policy, entry.asker())
}

/// Judges the entry of the turn, and says whether all is as the plain programs say.
fn turn_agrees(alloc: Global, policy: &mut Policy, seed: u32, turn: u32) -> bool {
    match drawn(alloc, seed, turn) {
        Ok(entry) => entry_agrees(alloc, policy, &entry),
        Err(_) => false,
    }
}

/// Whether that is so of each entry of the seed.
fn turns_agree(alloc: Global, policy: &mut Policy, seed: u32) -> bool {
    for turn in 0..ENTRIES {
        if !turn_agrees(alloc, policy, seed, turn) {
            return false;
        }
    }
    true
}

/// Whether the records, with no members in one of them, are verified just where that changed nothing.
fn verifies_just_the_same(alloc: Global, records: &[Record], index: usize) -> bool {
    match emptied_at(alloc, records, index) {
        Ok(changed) => {
            verify(alloc, changed.as_slice()) == Ok(are_equal(changed.as_slice(), records))
        }
        Err(_) => false,
    }
}

/// The records up to that place.
fn upto(records: &[Record], place: u32) -> &[Record] {
    records.get(..place as usize).unwrap_or(&[])
}

/// What the place tells its group; `Range` where the policy has no such place.
fn told_at(policy: &Policy, place: u32) -> Result<Option<Event>, Refusal> {
    if place == 0 || place as usize > policy.len() {
        return Err(Refusal::Range);
    }
    policy.told_at(place)
}

/// Whether the event is what the record at the place tells its group.
fn is_told_by(event: &Event, place: u32, upto: &[Record]) -> bool {
    match upto.split_last() {
        Some((past, before)) => is_news_of(event, place, past, before),
        None => false,
    }
}

/// Whether the record at the end of the list tells its group nothing.
fn tells_nothing(upto: &[Record]) -> bool {
    match upto.split_last() {
        Some((past, _)) => acts_in(past).is_none(),
        None => false,
    }
}

/// Whether that, which is let go, is what the place tells its group.
fn is_told(told: Option<Event>, place: u32, upto: &[Record]) -> bool {
    match told {
        Some(event) => is_told_by(&event, place, upto),
        None => tells_nothing(upto),
    }
}

/// Whether the place tells its group what the plain program says.
fn told_agrees(policy: &Policy, place: u32) -> bool {
    match told_at(policy, place) {
        Ok(told) => is_told(told, place, upto(policy.records(), place)),
        Err(_) => false,
    }
}

/// How many of the records act in the group.
fn count_acting(records: &[Record], group: &[u8]) -> usize {
    let mut count = 0usize;
    for past in records {
        if acts_in(past) == Some(group) {
            count = count.wrapping_add(1);
        }
    }
    count
}

/// Whether the group has as many entries up to the place as the plain program counts.
fn count_agrees(policy: &Policy, group: &[u8], place: u32) -> bool {
    count_upto(policy.places_in(group), place) == count_acting(upto(policy.records(), place), group)
}

/// Whether the place tells its group what the plain program says, and both groups have so many entries up to
/// it.
fn place_agrees(policy: &Policy, place: u32) -> bool {
    told_agrees(policy, place)
        && count_agrees(policy, b"app", place)
        && count_agrees(policy, b"db", place)
}

/// Whether that is so of each place.
fn places_agree(policy: &Policy) -> bool {
    for place in 1..=ENTRIES {
        if !place_agrees(policy, place) {
            return false;
        }
    }
    true
}

/// The next place that tells a connection anything, above the one before the place, where that is it above the place.
fn next_with(later: Option<u32>, place: u32, upto: &[Record], conn: &ConnId) -> Option<u32> {
    match upto.split_last() {
        Some((past, before)) if is_own(past, conn) || hears(past, before, conn) => Some(place),
        _ => later,
    }
}

/// Whether the connection is in the group after the place that the plain program finds.
fn group_after_agrees(policy: &Policy, place: u32, conn: &ConnId) -> bool {
    match policy.log(*conn).group_after(place) {
        Some(name) => { group_in(upto(policy.records(), place), conn) == Some(name.as_slice()) }
        None => group_in(upto(policy.records(), place), conn).is_none(),
    }
}

/// Whether the events are those that the last of the records, at that place, tells the connection.
fn has_told(events: &[Event], place: u32, upto: &[Record], conn: &ConnId) -> bool {
    match upto.split_last() {
        Some((past, before)) => are_told(events, place, past, before, conn),
        None => false,
    }
}

/// Whether the place tells the connection what the plain program says.
fn events_agree(policy: &Policy, place: u32, conn: &ConnId) -> bool {
    match events_at(policy, place, conn) {
        Ok(events) => has_told(
            events.as_slice(),
            place,
            upto(policy.records(), place),
            conn,
        ),
        Err(_) => false,
    }
}

/// Whether the place tells the connection what the plain program says, and the next place above it and the group after
/// it are the plain program's.
fn step_agrees(policy: &Policy, place: u32, conn: &ConnId, next: Option<u32>) -> bool {
    policy.next_event(place, *conn) == next
        && group_after_agrees(policy, place, conn)
        && events_agree(policy, place, conn)
}

/// Whether that is so of each place, from the last one back.
fn conn_agrees(policy: &Policy, conn: &ConnId) -> bool {
    let mut next = None;
    for above in 0..ENTRIES {
        let place = ENTRIES - above;
        if !step_agrees(policy, place, conn, next) {
            return false;
        }
        next = next_with(next, place, upto(policy.records(), place), conn);
    }
    policy.next_event(0, *conn) == next
}

/// Whether all that the policy says at its end is what the plain programs say, and its records are verified,
/// with a change in one just where that changed nothing.
fn end_agrees(alloc: Global, policy: &Policy, seed: u32) -> bool {
    places_agree(policy)
        && is_so_of_each(|conn| conn_agrees(policy, conn))
        && verify(alloc, policy.records()) == Ok(true)
        && verifies_just_the_same(alloc, policy.records(), (seed % ENTRIES) as usize)
}

/// How often what matters came up.
#[derive(Clone, Copy)]
struct Counts {
    /// Joins by a connection that was in a group before.
    rejoins: u32,
    leaves: u32,
    /// Ends of connections that are in a group.
    ends: u32,
    /// Messages that a rule denies.
    denied: u32,
    /// Edits by users other than 0.
    edits: u32,
    others: u32,
}

/// The count to which the record adds.
fn count_of<'a>(counts: &'a mut Counts, past: &Record, before: &[Record]) -> &'a mut u32 {
    let allowed = past.verdict.is_allowed();
    match &past.entry.op {
        Op::Act(Call::Join(_)) if allowed && is_over(before, &ConnId::of(&past.entry)) => {
            &mut counts.rejoins
        }
        Op::Act(Call::Leave) if allowed => &mut counts.leaves,
        Op::Gone if past.group.is_some() => &mut counts.ends,
        Op::Act(Call::Send(_)) if matches!(past.verdict, Verdict::Denied(Reason::Rule(_))) => {
            &mut counts.denied
        }
        Op::Act(Call::Insert(_, _, _) | Call::Remove(_, _))
            if allowed && past.entry.cred.uid != 0 => { &mut counts.edits }
        _ => &mut counts.others,
    }
}

/// Counts the records.
fn count(counts: &mut Counts, records: &[Record]) {
    for (index, past) in records.iter().enumerate() {
        let count = count_of(counts, past, &records[..index]);
        *count = count.wrapping_add(1);
    }
}

/// Whether the new policy agrees with the plain programs all the way.
fn policy_agrees(alloc: Global, policy: &mut Policy, seed: u32, counts: &mut Counts) -> bool {
    let answer = turns_agree(alloc, policy, seed) && end_agrees(alloc, policy, seed);
    count(counts, policy.records());
    answer
}

/// Whether a policy of the seed agrees with the plain programs.
fn seed_agrees(alloc: Global, seed: u32, counts: &mut Counts) -> bool {
    let mut policy = Policy::new(alloc);
    let answer = policy_agrees(alloc, &mut policy, seed, counts);
    drop(policy);
    answer
}

/// Whether that is so of each seed.
fn seeds_agree(alloc: Global, counts: &mut Counts) -> bool {
    for seed in 0..POLICIES {
        if !seed_agrees(alloc, seed, counts) {
            return false;
        }
    }
    true
}

/// Whether each of them came up often enough.
fn are_many(counts: &Counts) -> bool {
    counts.rejoins > 200
        && counts.leaves > 200
        && counts.ends > 200
        && counts.denied > 200
        && counts.edits > 200
}

/// Whether all policies agree with the plain programs, and what matters came up often enough.
fn all_agree(alloc: Global) -> bool {
    let mut counts = Counts {
        rejoins: 0,
        leaves: 0,
        ends: 0,
        denied: 0,
        edits: 0,
        others: 0,
    };
    seeds_agree(alloc, &mut counts) && are_many(&counts)
}

#[test]
fn the_policy_agrees_with_the_plain_programs(rt: HostRuntime) {
    assert!(rt; all_agree(rt.alloc()));
}
