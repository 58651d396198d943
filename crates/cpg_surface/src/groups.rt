//! `cpg_group`: entries judged in order, what connections are told, and who is listed.

ghost use Rattle.std.specs.Prelude.{◌≤◌, ◌<◌, length};
ghost use Rattle.cpg_record.specs.Judging.{most_places, IsNext};

use cpg_cred::{By, NodeId, Refusal, Refused};
use cpg_group::{
    ConnId, Event, Events, Member, Members, Names, Policy, Processes, Reason, Record, Records,
    Verdict, verify,
};
use cpg_rules::{Asker, Table};
use cpg_wire::{Entry, Name};
use std::alloc::Global;

pub fn new_policy(alloc: Global) -> Policy {
    Policy::new(alloc)
}

pub fn judge(policy: &Policy, entry: &Entry) -> Result<Record, Refusal>
    requires { length policy.now < most_places }
{
    policy.judge(entry)
}

pub fn apply(policy: &mut Policy, next: Record) -> Result<(), Refused<Record>>
    requires { IsNext policy.old next }
{
    policy.apply(next)
}

pub fn members(policy: &Policy, group: &[u8], asker: Asker) -> Result<Processes, Refusal> {
    policy.members(group, asker)
}

pub fn processes(list: &Processes) -> &[(NodeId, u32)] {
    list.as_slice()
}

pub fn groups(policy: &Policy, asker: Asker) -> Result<Names, Refusal> {
    policy.groups(asker)
}

pub fn names(list: &Names) -> &[Name] {
    list.as_slice()
}

pub fn table<'a>(policy: &'a Policy, group: &[u8]) -> Option<&'a Table> {
    policy.table(group)
}

pub fn events_at(policy: &Policy, place: u32, conn: ConnId) -> Result<Events, Refusal>
    requires { (1 ≤ place) × (place ≤ length policy.now) }
{
    policy.events_at(place, conn)
}

pub fn next_event(policy: &Policy, after: u32, conn: ConnId) -> Option<u32> {
    policy.next_event(after, conn)
}

pub fn shown(policy: &Policy) -> (usize, &[Record]) {
    (policy.len(), policy.records())
}

pub fn are_judged(alloc: Global, records: &[Record]) -> Result<bool, Refusal> {
    verify(alloc, records)
}

pub fn record(entry: Entry, group: Option<Name>, verdict: Verdict, members: Members) -> Record {
    Record {
        entry,
        group,
        verdict,
        members,
    }
}

pub fn entry_of(record: &Record) -> &Entry {
    &record.entry
}

pub fn process_of(record: &Record) -> u32 {
    record.entry.pid
}

pub fn copy_record(record: &Record, alloc: Global) -> Result<Record, Refusal> {
    record.copy(alloc)
}

pub fn recorded(list: &Records) -> &[Record] {
    list.as_slice()
}

pub fn copy_records(list: &Records, alloc: Global) -> Result<Records, Refusal> {
    list.copy(alloc)
}

pub fn conn_id(node: NodeId, conn: u16) -> ConnId {
    ConnId { node, conn }
}

pub fn member(node: NodeId, conn: u16, pid: u32) -> Member {
    Member { node, conn, pid }
}

pub fn new_members(alloc: Global, members: &[Member]) -> Result<Members, Refusal> {
    Members::from_slice(alloc, members)
}

pub fn copy_members(members: &Members, alloc: Global) -> Result<Members, Refusal> {
    members.copy(alloc)
}

pub fn listed(members: &Members) -> &[Member] {
    members.as_slice()
}

/// What allowed an entry.
pub fn allowed(verdict: Verdict) -> Option<By> {
    match verdict {
        Verdict::Allowed(by) => Some(by),
        Verdict::Denied(_) => None,
    }
}

/// The rule that denied, of all reasons there are.
pub fn denying(reason: Reason) -> Option<u32> {
    match reason {
        Reason::Rule(id) => Some(id),
        Reason::Default
        | Reason::Closed
        | Reason::Joined
        | Reason::Twice
        | Reason::Full
        | Reason::Position
        | Reason::TableFull
        | Reason::Absent => None,
    }
}

/// The place of an event, of all there are.
pub fn place_of(event: &Event) -> u32 {
    match event {
        Event::Verdict { place, .. }
        | Event::Message { place, .. }
        | Event::Change { place, .. }
        | Event::RulesChanged { place, .. } => *place,
    }
}

pub fn copy_event(event: &Event, alloc: Global) -> Result<Event, Refusal> {
    event.copy(alloc)
}

pub fn told(events: &Events) -> &[Event] {
    events.as_slice()
}

pub fn copy_events(events: &Events, alloc: Global) -> Result<Events, Refusal> {
    events.copy(alloc)
}
