//! Plain programs of the definitions, over records: slow and short, to compare the policy's calls with. They
//! know the groups `db` and `app` alone.

use cpg_entry::{Asker, By, Call, Entry, Op};
use cpg_group::{ConnId, MOST_MEMBERS, Member, Reason, Record, Verdict};
use cpg_rules::{Effect, MOST_RULES, Right, Rule, Who};
use std::alloc::{AllocError, Global};

/// An allowed leave or end of the connection.
fn ends(past: &Record, conn: &ConnId) -> bool {
    past.verdict.is_allowed()
        && ConnId::of(&past.entry) == *conn
        && matches!(&past.entry.op, Op::Act(Call::Leave) | Op::Gone)
}

/// Whether one of the records is an allowed leave or end of the connection.
pub fn is_over(records: &[Record], conn: &ConnId) -> bool {
    for past in records {
        if ends(past, conn) {
            return true;
        }
    }
    false
}

/// An allowed join of the group.
fn joins(past: &Record, group: &[u8]) -> bool {
    match &past.entry.op {
        Op::Act(Call::Join(name)) => past.verdict.is_allowed() && name.is(group),
        _ => false,
    }
}

/// Whether the record takes a seat in the group that none of the later ones ends.
fn sits(past: &Record, later: &[Record], group: &[u8]) -> bool {
    joins(past, group) && !is_over(later, &ConnId::of(&past.entry))
}

/// The member of the group before whom so many stand in it.
pub fn member_at(records: &[Record], group: &[u8], index: usize) -> Option<Member> {
    let mut left = index;
    for (i, past) in records.iter().enumerate() {
        if sits(past, &records[i..], group) {
            if left == 0 {
                return Some(Member::of(&past.entry));
            }
            left -= 1;
        }
    }
    None
}

/// The member that the connection is of the group, if it is one.
pub fn member_in(records: &[Record], group: &[u8], conn: &ConnId) -> Option<Member> {
    for (i, past) in records.iter().enumerate() {
        if ConnId::of(&past.entry) == *conn && sits(past, &records[i..], group) {
            return Some(Member::of(&past.entry));
        }
    }
    None
}

/// Whether the connection is a member of the group.
pub fn is_in(records: &[Record], group: &[u8], conn: &ConnId) -> bool {
    member_in(records, group, conn).is_some()
}

/// The one of the groups that the connection is in, if it is in one.
pub fn group_in(records: &[Record], conn: &ConnId) -> Option<&'static [u8]> {
    if is_in(records, b"db", conn) {
        Some(b"db")
    } else if is_in(records, b"app", conn) {
        Some(b"app")
    } else {
        None
    }
}

/// The entry's group: the one that it names, else the one that its connection is in.
pub fn entry_group<'a>(entry: &'a Entry, member_of: Option<&'a [u8]>) -> Option<&'a [u8]> {
    match &entry.op {
        Op::Act(Call::Join(name)) => Some(name.as_slice()),
        Op::Act(Call::Insert(name, _, _)) => Some(name.as_slice()),
        Op::Act(Call::Remove(name, _)) => Some(name.as_slice()),
        _ => member_of,
    }
}

/// Brings the rules of a group past an allowed record at that place.
fn take_in(
    rules: &mut Vec<(u32, Rule)>,
    place: u32,
    past: &Record,
    group: &[u8],
) -> Result<(), AllocError> {
    match &past.entry.op {
        Op::Act(Call::Insert(name, index, rule)) if name.is(group) => {
            let index = usize::from(*index).min(rules.len());
            rules.insert(index, (place, *rule.get()))?;
        }
        Op::Act(Call::Remove(name, id)) if name.is(group) => {
            rules.retain(|kept| kept.0 != *id);
        }
        _ => {}
    }
    Ok(())
}

/// The rules of a group with their ids, in their order.
pub fn rules_of(
    alloc: Global,
    records: &[Record],
    group: &[u8],
) -> Result<Vec<(u32, Rule)>, AllocError> {
    let mut rules: Vec<(u32, Rule)> = Vec::new(alloc);
    let mut place = 0u32;
    for past in records {
        place = place.wrapping_add(1);
        if past.verdict.is_allowed() {
            take_in(&mut rules, place, past, group)?;
        }
    }
    Ok(rules)
}

/// Whether each condition of the who that is there holds of the asker.
fn matches(who: &Who, asker: &Asker) -> bool {
    who.uid.is_none_or(|uid| uid == asker.cred.uid)
        && who.gid.is_none_or(|gid| gid == asker.cred.gid)
        && who.node.is_none_or(|node| node == asker.node)
}

/// What the rule of that id says of whom it speaks of.
fn said_by(id: u32, effect: Effect) -> Verdict {
    match effect {
        Effect::Allow => Verdict::Allowed(By::Rule(id)),
        Effect::Deny => Verdict::Denied(Reason::Rule(id)),
    }
}

/// What the first rule that speaks says, or the default.
pub fn decide(rules: &[(u32, Rule)], right: Right, asker: &Asker) -> Verdict {
    for (id, rule) in rules {
        if rule.right == right && matches(&rule.who, asker) {
            return said_by(*id, rule.effect);
        }
    }
    match right {
        Right::Edit => Verdict::Denied(Reason::Default),
        _ => Verdict::Allowed(By::Default),
    }
}

/// What may edit a table: user 0, else the right.
fn decide_edit(rules: &[(u32, Rule)], entry: &Entry) -> Verdict {
    if entry.cred.uid == 0 {
        Verdict::Allowed(By::Root)
    } else {
        decide(rules, Right::Edit, &entry.asker())
    }
}

/// The verdict on a message to the group that the sender is in.
fn verdict_on_send(rules: &[(u32, Rule)], entry: &Entry, is_member: bool) -> Verdict {
    if is_member {
        decide(rules, Right::Send, &entry.asker())
    } else {
        Verdict::Denied(Reason::Closed)
    }
}

/// The verdict on a leave.
fn verdict_on_leave(is_member: bool) -> Verdict {
    if is_member {
        Verdict::Allowed(By::Free)
    } else {
        Verdict::Denied(Reason::Closed)
    }
}

/// Whether the entry's process is a member of the group.
fn is_twice(records: &[Record], group: &[u8], entry: &Entry) -> bool {
    for (i, past) in records.iter().enumerate() {
        if past.entry.node == entry.node
            && past.entry.pid == entry.pid
            && sits(past, &records[i..], group)
        {
            return true;
        }
    }
    false
}

/// What keeps an entry that the rules allow from joining the group, if anything does.
fn bar_to_join(records: &[Record], group: &[u8], entry: &Entry, is_member: bool) -> Option<Reason> {
    if is_member {
        Some(Reason::Joined)
    } else if is_twice(records, group, entry) {
        Some(Reason::Twice)
    } else if member_at(records, group, MOST_MEMBERS - 1).is_some() {
        Some(Reason::Full)
    } else {
        None
    }
}

/// What keeps an entry that the rules allow from an insert at the index, if anything does.
fn bar_to_insert(rules: &[(u32, Rule)], index: u8) -> Option<Reason> {
    if usize::from(index) > rules.len() {
        Some(Reason::Position)
    } else if rules.len() >= MOST_RULES {
        Some(Reason::TableFull)
    } else {
        None
    }
}

/// What keeps an entry that the rules allow from a removal of the id, if anything does.
fn bar_to_remove(rules: &[(u32, Rule)], id: u32) -> Option<Reason> {
    for rule in rules {
        if rule.0 == id {
            return None;
        }
    }
    Some(Reason::Absent)
}

/// What the rules answer, where they deny or nothing bars the way.
fn unless_barred(first: Verdict, bar: Option<Reason>) -> Verdict {
    match bar {
        Some(reason) if first.is_allowed() => Verdict::Denied(reason),
        _ => first,
    }
}

/// The verdict on an entry of a connection that is in a group or not, over the rules of the entry's group.
fn verdict_by(
    records: &[Record],
    rules: &[(u32, Rule)],
    entry: &Entry,
    is_member: bool,
) -> Verdict {
    match &entry.op {
        Op::Gone => Verdict::Allowed(By::Free),
        Op::Act(Call::Leave) => verdict_on_leave(is_member),
        Op::Act(Call::Send(_)) => verdict_on_send(rules, entry, is_member),
        Op::Act(Call::Join(group)) => unless_barred(
            decide(rules, Right::Join, &entry.asker()),
            bar_to_join(records, group.as_slice(), entry, is_member),
        ),
        Op::Act(Call::Insert(_, index, _)) => unless_barred(
            decide_edit(rules, entry),
            bar_to_insert(rules, *index),
        ),
        Op::Act(Call::Remove(_, id)) => unless_barred(
            decide_edit(rules, entry),
            bar_to_remove(rules, *id),
        ),
    }
}

/// The verdict on an entry over the records before it.
pub fn verdict_on(alloc: Global, records: &[Record], entry: &Entry) -> Result<Verdict, AllocError> {
    let member_of = group_in(records, &ConnId::of(entry));
    let group = entry_group(entry, member_of).unwrap_or(&[]);
    let rules = rules_of(alloc, records, group)?;
    Ok(verdict_by(records, rules.as_slice(), entry, member_of.is_some()))
}
