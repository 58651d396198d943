//! `%policy`: entries that are judged, one a row, and what comes of them.

use crate::player::{Plays, Row, given_back};
use crate::printing;
use crate::states::{put_audits, put_last, put_policy, put_processes};
use crate::tables::{put_copied_rules, put_rules_of};
use crate::words::{
    NO_COMMAND, asker, conn_id, entry, first, index, is_word, named, number, one, put_number_line,
    put_whether, three, two,
};
use cpg_cred::{By, Refusal};
use cpg_entry::{Entry, Name, Packet};
use cpg_group::{MOST_PLACES, Policy, verify};
use cpg_print::{put_event, put_groups_line, put_members, put_members_line};
use cpg_record::{ConnId, Events, Members, Reason, Record, Records, Verdict};
use cpg_text::{put, put_byte};
use std::alloc::Global;

#[derive(Drop)]
pub struct Judging {
    policy: Policy,
}

/// Judges the entry, and puts its record last.
fn judge_and_apply(alloc: Global, policy: &mut Policy, entry: &Entry) -> Result<(), Refusal> {
    if policy.len() >= MOST_PLACES as usize {
        return Err(NO_COMMAND);
    }
    let record = policy.judge(entry)?;
    let handed = record.copy(alloc)?;
    let answer = given_back(policy.apply(record), |back| back.equals(&handed));
    drop(handed);
    answer
}

/// The same of the entry of a line.
pub fn judge_line(alloc: Global, policy: &mut Policy, text: &[u8]) -> Result<(), Refusal> {
    let entry = entry(alloc, text)?;
    let judged = judge_and_apply(alloc, policy, &entry);
    drop(entry);
    judged
}

/// Puts the entry last in one call.
fn enter(alloc: Global, policy: &mut Policy, entry: &Entry) -> Result<(), Refusal> {
    if policy.len() >= MOST_PLACES as usize {
        return Err(NO_COMMAND);
    }
    given_back(policy.enter(entry.copy(alloc)?), |back| back.equals(entry))
}

fn enter_line(alloc: Global, policy: &mut Policy, text: &[u8]) -> Result<(), Refusal> {
    let entry = entry(alloc, text)?;
    let entered = enter(alloc, policy, &entry);
    drop(entry);
    entered
}

/// Puts a line of each event.
fn put_events(line: &mut Vec<u8>, events: &Events) -> Result<(), Refusal> {
    for event in events.as_slice() {
        put_event(line, event)?;
    }
    Ok(())
}

/// Puts what the place tells the connection, as it stands or copied.
fn put_told(
    alloc: Global,
    line: &mut Vec<u8>,
    policy: &Policy,
    place: u32,
    conn: ConnId,
    is_copied: bool,
) -> Result<(), Refusal> {
    if place < 1 || place as usize > policy.len() {
        return Err(NO_COMMAND);
    }
    let mut events = policy.events_at(place, conn)?;
    if is_copied {
        events = events.copy(alloc)?;
    }
    let put = put_events(line, &events);
    drop(events);
    put
}

/// Puts what each place tells the connection.
fn put_inbox(
    alloc: Global,
    line: &mut Vec<u8>,
    policy: &Policy,
    conn: &ConnId,
    is_copied: bool,
) -> Result<(), Refusal> {
    for index in 0..policy.len() {
        let place = u32::try_from(index).unwrap_or(0).saturating_add(1);
        put_told(alloc, line, policy, place, *conn, is_copied)?;
    }
    Ok(())
}

/// `next AFTER NODE.CONN`.
fn put_next(line: &mut Vec<u8>, policy: &Policy, text: &[u8]) -> Result<(), Refusal> {
    let (after, conn) = two(text)?;
    match policy.next_event(number(after)?, conn_id(conn)?) {
        Some(place) => put_number_line(line, "place", u64::from(place)),
        None => put(line, "none\n"),
    }
}

/// `members NODE UID GID GROUP`.
fn put_listed(line: &mut Vec<u8>, policy: &Policy, text: &[u8]) -> Result<(), Refusal> {
    let (at, rest) = first(text)?;
    let (uid, rest) = first(rest)?;
    let (gid, group) = two(rest)?;
    let list = policy.members(group, asker(at, uid, gid)?)?;
    let put = put_members_line(line, list.as_slice());
    drop(list);
    put
}

/// `groups NODE UID GID`.
fn put_groups(line: &mut Vec<u8>, policy: &Policy, text: &[u8]) -> Result<(), Refusal> {
    let (at, uid, gid) = three(text)?;
    let names = policy.groups(asker(at, uid, gid)?)?;
    let put = put_groups_line(line, names.as_slice());
    drop(names);
    put
}

/// By what an entry is allowed, of no rule.
const ALLOWED: [(&str, By); 3] = [
    ("default", By::Default),
    ("root", By::Root),
    ("free", By::Free),
];

/// By what it is denied.
const DENIED: [(&str, Reason); 3] = [
    ("default", Reason::Default),
    ("closed", Reason::Closed),
    ("joined", Reason::Joined),
];

/// The verdict that the words say, of those that a row claims.
fn verdict_of(text: &[u8]) -> Result<Verdict, Refusal> {
    let (way, rest) = first(text)?;
    let (by, id) = first(rest)?;
    let is_allowed = is_word(way, "allowed");
    if !is_word(by, "rule") {
        return Ok(if is_allowed {
            Verdict::Allowed(named(&ALLOWED, by)?)
        } else {
            Verdict::Denied(named(&DENIED, by)?)
        });
    }
    let id = number(one(id)?)?;
    Ok(if is_allowed {
        Verdict::Allowed(By::Rule(id))
    } else {
        Verdict::Denied(Reason::Rule(id))
    })
}

/// Puts copies of the first records behind those of the list.
pub fn copy_first(
    alloc: Global,
    list: &mut Vec<Record>,
    records: &[Record],
    count: usize,
) -> Result<(), Refusal> {
    for record in records.iter().take(count) {
        list.push(record.copy(alloc)?)?;
    }
    Ok(())
}

/// Changes the last record as the words say: another verdict, or `nobody` among its members.
fn change_last(alloc: Global, list: &mut Vec<Record>, text: &[u8]) -> Result<(), Refusal> {
    let Some(last) = list.last_mut() else {
        return Err(NO_COMMAND);
    };
    if is_word(text, "nobody") {
        last.members = Members::new(alloc);
    } else {
        last.verdict = verdict_of(text)?;
    }
    Ok(())
}

/// Puts whether copies of the first records, the last of which may be changed, are verified.
fn verify_in(
    alloc: Global,
    line: &mut Vec<u8>,
    list: &mut Vec<Record>,
    records: &[Record],
    text: &[u8],
) -> Result<(), Refusal> {
    let (count, change) = first(text)?;
    copy_first(alloc, list, records, index(count)?)?;
    if !change.is_empty() {
        change_last(alloc, list, change)?;
    }
    put_whether(line, verify(alloc, list.as_slice())?)
}

fn put_verified(
    alloc: Global,
    line: &mut Vec<u8>,
    records: &[Record],
    text: &[u8],
) -> Result<(), Refusal> {
    let mut list = Vec::new(alloc);
    let put = verify_in(alloc, line, &mut list, records, text);
    drop(list);
    put
}

/// Puts copies of the records behind those of the list.
fn push_copies(alloc: Global, list: &mut Records, records: &[Record]) -> Result<(), Refusal> {
    for record in records {
        list.push(record.copy(alloc)?)?;
    }
    Ok(())
}

/// Puts the records of a copy of the list.
fn put_copied_records(alloc: Global, line: &mut Vec<u8>, list: &Records) -> Result<(), Refusal> {
    let copy = list.copy(alloc)?;
    let put = put_audits(line, copy.as_slice());
    drop(copy);
    put
}

/// Puts copies of all records, which are put together in a list that is copied, too.
fn put_copies(alloc: Global, line: &mut Vec<u8>, records: &[Record]) -> Result<(), Refusal> {
    let mut list = Records::new(alloc);
    let mut put = push_copies(alloc, &mut list, records);
    if put.is_ok() {
        put = put_copied_records(alloc, line, &list);
    }
    drop(list);
    put
}

/// Puts the line of a copy of the packet, which is let go.
fn put_packet(alloc: Global, line: &mut Vec<u8>, packet: Packet) -> Result<(), Refusal> {
    let copy = packet.copy(alloc);
    drop(packet);
    let copy = copy?;
    let put = printing::put_packet(line, &copy);
    drop(copy);
    put
}

/// Puts a packet of each record's entry.
fn put_packets(alloc: Global, line: &mut Vec<u8>, records: &[Record]) -> Result<(), Refusal> {
    let mut place = 0u32;
    for record in records {
        place = place.saturating_add(1);
        let packet = Packet {
            ring: 1,
            place,
            entry: record.entry.copy(alloc)?,
        };
        put_packet(alloc, line, packet)?;
    }
    Ok(())
}

/// Puts copies of lists of each record's members.
fn put_member_lists(alloc: Global, line: &mut Vec<u8>, records: &[Record]) -> Result<(), Refusal> {
    for record in records {
        let members = Members::from_slice(alloc, record.members.as_slice())?;
        let copy = members.copy(alloc);
        drop(members);
        put_member_list(line, copy?)?;
    }
    Ok(())
}

/// Puts the line of the list, which is let go.
fn put_member_list(line: &mut Vec<u8>, members: Members) -> Result<(), Refusal> {
    let put = put_members(line, members.as_slice());
    drop(members);
    put?;
    put_byte(line, b'\n')
}

/// Puts what joins of the group would be answered.
fn put_processes_of(
    alloc: Global,
    line: &mut Vec<u8>,
    policy: &Policy,
    group: &[u8],
) -> Result<(), Refusal> {
    let name = Name::from_slice(alloc, group)?;
    let put = put_processes(alloc, line, policy, &name);
    drop(name);
    put
}

impl Judging {
    pub fn new(alloc: Global) -> Judging {
        Judging {
            policy: Policy::new(alloc),
        }
    }

    /// The commands that ask for what was told.
    fn tell(&self, alloc: Global, line: &mut Vec<u8>, row: &Row<'_>) -> Result<(), Refusal> {
        if row.is("inbox") || row.is("copied") {
            return put_inbox(
                alloc,
                line,
                &self.policy,
                &conn_id(row.rest)?,
                row.is("copied"),
            );
        }
        if row.is("events") {
            let (place, conn) = two(row.rest)?;
            return put_told(
                alloc,
                line,
                &self.policy,
                number(place)?,
                conn_id(conn)?,
                false,
            );
        }
        if row.is("next") {
            return put_next(line, &self.policy, row.rest);
        }
        Err(NO_COMMAND)
    }

    /// The commands that ask for what stands.
    fn show(&self, alloc: Global, line: &mut Vec<u8>, row: &Row<'_>) -> Result<(), Refusal> {
        if row.is("members") {
            return put_listed(line, &self.policy, row.rest);
        }
        if row.is("groups") {
            return put_groups(line, &self.policy, row.rest);
        }
        if row.is("rules") {
            return put_rules_of(line, self.policy.table(row.rest));
        }
        if row.is("copy") {
            return put_copied_rules(alloc, line, self.policy.table(row.rest));
        }
        if row.is("processes") {
            return put_processes_of(alloc, line, &self.policy, row.rest);
        }
        if row.is("verify") {
            return put_verified(alloc, line, self.policy.records(), row.rest);
        }
        if row.is("copies") {
            return put_copies(alloc, line, self.policy.records());
        }
        if row.is("packets") {
            return put_packets(alloc, line, self.policy.records());
        }
        if row.is("lists") {
            return put_member_lists(alloc, line, self.policy.records());
        }
        self.tell(alloc, line, row)
    }

    /// Judges the entry that the row is.
    fn judge(&mut self, alloc: Global, line: &mut Vec<u8>, row: &Row<'_>) -> Result<(), Refusal> {
        if row.is("enter") {
            enter_line(alloc, &mut self.policy, row.rest)?;
        } else {
            judge_line(alloc, &mut self.policy, row.text)?;
        }
        put_last(line, self.policy.records())
    }
}

impl Plays for Judging {
    fn make(&mut self, alloc: Global, line: &mut Vec<u8>, row: &Row<'_>) -> Result<(), Refusal> {
        match row.word {
            [b'0'..=b'9', ..] => self.judge(alloc, line, row),
            _ if row.is("enter") => self.judge(alloc, line, row),
            _ => self.show(alloc, line, row),
        }
    }

    fn put_state(&self, _alloc: Global, text: &mut Vec<u8>) -> Result<(), Refusal> {
        put_policy(text, &self.policy)
    }
}
