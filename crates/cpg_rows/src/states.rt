//! All that can be seen of a policy and of records.

use crate::tables::put_rules_of;
use crate::words::{NO_COMMAND, number};
use cpg_cred::Refusal;
use cpg_entry::{Call, Entry, Name, Op};
use cpg_group::{ConnectionLog, MOST_PLACES, Policy};
use cpg_print::{put_audit, put_conn, put_members, put_verdict};
use cpg_record::{ConnId, Member, Record};
use cpg_text::{push_number, put, put_bytes, take_word};
use std::alloc::Global;

/// Puts the audit lines of the records, and their count.
pub fn put_audits(line: &mut Vec<u8>, records: &[Record]) -> Result<(), Refusal> {
    let mut place = 0u32;
    for record in records {
        place = place.saturating_add(1);
        put_audit(line, place, record)?;
    }
    put(line, "records ")?;
    push_number(line, u64::from(place))?;
    put(line, "\n")
}

/// Puts the audit line of the place that the words say; without words, those of all records with their count.
pub fn put_audits_of(line: &mut Vec<u8>, records: &[Record], words: &[u8]) -> Result<(), Refusal> {
    let Some((word, _)) = take_word(words) else {
        return put_audits(line, records);
    };
    let place = number(word)?;
    match records.get((place as usize).wrapping_sub(1)) {
        Some(record) => put_audit(line, place, record),
        None => Err(NO_COMMAND),
    }
}

/// Puts the audit line of the last record.
pub fn put_last(line: &mut Vec<u8>, records: &[Record]) -> Result<(), Refusal> {
    match records.last() {
        Some(record) => put_audit(line, u32::try_from(records.len()).unwrap_or(0), record),
        None => Ok(()),
    }
}

/// Whether the record is of that group.
fn is_of(record: &Record, name: &Name) -> bool {
    match &record.group {
        Some(other) => other.equals(name),
        None => false,
    }
}

/// The group of the record, where none of the later ones has it.
fn last_group<'r>(record: &'r Record, later: &[Record]) -> Option<&'r Name> {
    let name = record.group.as_ref()?;
    for other in later {
        if is_of(other, name) {
            return None;
        }
    }
    Some(name)
}

/// Puts the places, each behind a space.
fn put_places(line: &mut Vec<u8>, places: &[u32]) -> Result<(), Refusal> {
    for place in places {
        put(line, " ")?;
        push_number(line, u64::from(*place))?;
    }
    Ok(())
}

/// Puts the members and the places of a group.
fn put_group_line(
    line: &mut Vec<u8>,
    name: &[u8],
    members: &[Member],
    places: &[u32],
) -> Result<(), Refusal> {
    put(line, "group ")?;
    put_bytes(line, name)?;
    put(line, " members ")?;
    put_members(line, members)?;
    put(line, " places")?;
    put_places(line, places)?;
    put(line, "\n")
}

/// Puts each group once, with its table.
fn put_each_group(line: &mut Vec<u8>, policy: &Policy) -> Result<(), Refusal> {
    let mut rest = policy.records();
    for _ in 0..policy.len() {
        let [record, later @ ..] = rest else {
            break;
        };
        if let Some(name) = last_group(record, later) {
            let name = name.as_slice();
            put_group_line(
                line,
                name,
                record.members.as_slice(),
                policy.places_in(name),
            )?;
            put_rules_of(line, policy.table(name))?;
        }
        rest = later;
    }
    Ok(())
}

/// Puts the own places of a connection, each behind a space.
fn put_log(line: &mut Vec<u8>, log: &ConnectionLog<'_>, most: usize) -> Result<(), Refusal> {
    for number in 0..most {
        match log.own(number) {
            Some(place) => put_places(line, &[place])?,
            None => break,
        }
    }
    Ok(())
}

/// The name's bytes, or a dash.
fn bytes_of(name: Option<&Name>) -> &[u8] {
    match name {
        Some(name) => name.as_slice(),
        None => b"-",
    }
}

/// Puts a connection's own places and the group that it is in.
fn put_connection(line: &mut Vec<u8>, policy: &Policy, conn: &ConnId) -> Result<(), Refusal> {
    let log = policy.log(*conn);
    let last = u32::try_from(policy.len()).unwrap_or(0);
    put(line, "connection ")?;
    put_conn(line, conn)?;
    put(line, " places")?;
    put_log(line, &log, policy.len())?;
    put(line, " group ")?;
    put_bytes(line, bytes_of(log.group_after(last)))?;
    put(line, "\n")
}

fn put_connections(line: &mut Vec<u8>, policy: &Policy) -> Result<(), Refusal> {
    for conn in policy.connections() {
        put_connection(line, policy, conn)?;
    }
    Ok(())
}

/// Puts the records of the policy, its groups with their tables, and its connections.
pub fn put_policy(line: &mut Vec<u8>, policy: &Policy) -> Result<(), Refusal> {
    put_audits(line, policy.records())?;
    put_each_group(line, policy)?;
    put_connections(line, policy)
}

/// A join of the group by the member's process, with a connection of its own.
fn join_by(alloc: Global, record: &Record, name: &Name) -> Result<Entry, Refusal> {
    let entry = &record.entry;
    Ok(Entry {
        node: entry.node,
        conn: u16::MAX,
        pid: entry.pid,
        cred: entry.cred,
        op: Op::Act(Call::Join(name.copy(alloc)?)),
    })
}

/// Puts the verdict that the entry would be given.
fn put_judged(line: &mut Vec<u8>, policy: &Policy, entry: &Entry) -> Result<(), Refusal> {
    if policy.len() >= MOST_PLACES as usize {
        return Ok(());
    }
    let record = policy.judge(entry)?;
    let verdict = record.verdict;
    drop(record);
    put_verdict(line, verdict)
}

/// Puts what a join of the group by the record's process would be answered: `denied twice` where the process is in it.
fn put_process(
    alloc: Global,
    line: &mut Vec<u8>,
    policy: &Policy,
    record: &Record,
    name: &Name,
) -> Result<(), Refusal> {
    put(line, "process ")?;
    put_members(line, &[Member::of(&record.entry)])?;
    put(line, " ")?;
    let entry = join_by(alloc, record, name)?;
    let put_it = put_judged(line, policy, &entry);
    drop(entry);
    put_it?;
    put(line, "\n")
}

/// Puts that of each record's process.
pub fn put_processes(
    alloc: Global,
    line: &mut Vec<u8>,
    policy: &Policy,
    name: &Name,
) -> Result<(), Refusal> {
    for record in policy.records() {
        put_process(alloc, line, policy, record, name)?;
    }
    Ok(())
}
