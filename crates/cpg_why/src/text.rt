//! What is found, as lines of text.
//!
//! This is plain code: it is safe, and memory is all that it fails for. That its lines are right is for tests.

ghost use Rattle.std.specs.Prelude.{IsOkUnless};

use crate::findings::{Decided, Finding, PassedRule, Ruled, Stand, Unruled};
use crate::forms::{Cited, Tells};
use crate::standings::{Standing, is_told};
use crate::unmet::Unmet;
use cpg_cred::Refusal;
use cpg_entry::{Call, Entry, Name, Op};
use cpg_print::{put_conn, put_entry, put_event, put_rule, put_verdict};
use cpg_record::{ConnId, Record};
use cpg_rules::Right;
use cpg_text::{push_number, put, put_byte, put_bytes};
use std::alloc::Global;

/// Lines of text, with a blank one between two explained entries.
#[derive(Debug, Clone, Copy)]
pub struct AsText;

impl Tells for AsText {
    ghost use Rattle.cpg_why.specs.Forms.{plain};

    ghost form = { plain };

    fn text_of(alloc: Global, cited: &Cited, list: &[Finding]) -> Result<Vec<u8>, Refusal> {
        let mut text = Vec::new(alloc);
        for finding in list {
            put_finding(&mut text, cited, finding)?;
        }
        Ok(text)
    }
}

fn put_finding(text: &mut Vec<u8>, cited: &Cited, finding: &Finding) -> Result<(), Refusal>
    ensures { IsOkUnless result Refusal.Memory }
{
    match finding {
        Finding::Why { place, decided } => {
            if !text.is_empty() {
                put_byte(text, b'\n')?;
            }
            put_why(text, cited, *place, decided)
        }
        Finding::Made { place } => put_made(text, cited, *place),
        Finding::Stands(stand) => put_stand(text, cited, stand),
        Finding::Heard { event, .. } => put_event(text, event),
    }
}

/// Puts the entry of a place, with its verdict, and what decided that.
fn put_why(text: &mut Vec<u8>, cited: &Cited, place: u32, decided: &Decided) -> Result<(), Refusal>
    ensures { IsOkUnless result Refusal.Memory }
{
    let Some(past) = cited.record(place) else {
        return Ok(());
    };
    put_judged(text, cited, place, past)?;
    put_decided(text, cited, past, decided)
}

/// Puts the entry of a place, and its verdict, each on its line.
fn put_judged(text: &mut Vec<u8>, cited: &Cited, place: u32, past: &Record) -> Result<(), Refusal>
    ensures { IsOkUnless result Refusal.Memory }
{
    put_cited(text, cited, place, &past.entry)?;
    put(text, "\nverdict: ")?;
    put_verdict(text, past.verdict)?;
    put_byte(text, b'\n')
}

/// Puts the entry of a place, with the number of its line where it has one.
fn put_cited(text: &mut Vec<u8>, cited: &Cited, place: u32, entry: &Entry) -> Result<(), Refusal>
    ensures { IsOkUnless result Refusal.Memory }
{
    put(text, "entry ")?;
    push_number(text, u64::from(place))?;
    if let Some(number) = cited.line(place) {
        put(text, " line ")?;
        push_number(text, u64::from(number))?;
    }
    put(text, ": ")?;
    put_entry(text, entry)
}

/// Puts the entry of the record at a place as a line.
fn put_cited_at(text: &mut Vec<u8>, cited: &Cited, place: u32) -> Result<(), Refusal>
    ensures { IsOkUnless result Refusal.Memory }
{
    if let Some(past) = cited.record(place) {
        put_cited(text, cited, place, &past.entry)?;
    }
    put_byte(text, b'\n')
}

/// Puts an entry that a connection made, with its verdict.
fn put_made(text: &mut Vec<u8>, cited: &Cited, place: u32) -> Result<(), Refusal>
    ensures { IsOkUnless result Refusal.Memory }
{
    let Some(past) = cited.record(place) else {
        return Ok(());
    };
    put_cited(text, cited, place, &past.entry)?;
    put(text, " -> ")?;
    put_verdict(text, past.verdict)?;
    put_byte(text, b'\n')
}

/// Puts what decided the answer of a record.
fn put_decided(
    text: &mut Vec<u8>,
    cited: &Cited,
    past: &Record,
    decided: &Decided,
) -> Result<(), Refusal>
    ensures { IsOkUnless result Refusal.Memory }
{
    put(text, "decided: ")?;
    put(text, decided.name())?;
    match decided {
        Decided::Root => put(text, ": user 0 edits every table\n"),
        Decided::Free => put_free(text, &past.entry.op),
        Decided::Rule(ruled) => put_ruled(text, cited, past, ruled),
        Decided::Default(unruled) => put_unruled(text, past, unruled),
        Decided::Closed { since } => put_state(text, cited, past, " is in no group", *since),
        Decided::Joined { since } => put_state(text, cited, past, " is in a group", *since),
        Decided::Twice { by, since } => {
            put_twice(text, past, by)?;
            put_since(text, cited, *since)
        }
        Decided::Full { members } => put_counted(
            text,
            past,
            (": ", " has ", " members\n"),
            *members,
        ),
        Decided::Position { rules } => put_past_end(text, past, *rules),
        Decided::TableFull { rules } => put_counted(
            text,
            past,
            (": ", " has ", " rules\n"),
            *rules,
        ),
        Decided::Absent => put_absent(text, past),
    }
}

fn put_free(text: &mut Vec<u8>, op: &Op) -> Result<(), Refusal>
    ensures { IsOkUnless result Refusal.Memory }
{
    match op {
        Op::Gone => put(text, ": the end of a connection needs no right\n"),
        Op::Act(_) => put(text, ": a leave needs no right\n"),
    }
}

/// Puts the rule that decided, how it came there, what it passed, and what would hold without it.
fn put_ruled(text: &mut Vec<u8>, cited: &Cited, past: &Record, ruled: &Ruled) -> Result<(), Refusal>
    ensures { IsOkUnless result Refusal.Memory }
{
    put_placed(text, ruled.id, ruled.index)?;
    put(text, " of ")?;
    push_number(text, ruled.rules as u64)?;
    put(text, " in ")?;
    put_group(text, past.group.as_ref())?;
    put(text, ": ")?;
    put_rule(text, ruled.rule)?;
    put(text, "\nput in: ")?;
    put_cited_at(text, cited, ruled.id)?;
    put_passed(text, ruled.passed.as_slice())?;
    put(text, "without it: ")?;
    put_verdict(text, ruled.without)?;
    put_byte(text, b'\n')
}

/// Puts the right that no rule decided, and the rules that are passed.
fn put_unruled(text: &mut Vec<u8>, past: &Record, unruled: &Unruled) -> Result<(), Refusal>
    ensures { IsOkUnless result Refusal.Memory }
{
    put(text, " of ")?;
    put(text, right_name(unruled.right))?;
    put(text, " in ")?;
    put_group(text, past.group.as_ref())?;
    put_byte(text, b'\n')?;
    put_passed(text, unruled.passed.as_slice())
}

fn right_name(right: Right) -> &'static str {
    match right {
        Right::Join => "join",
        Right::Send => "send",
        Right::List => "list",
        Right::Edit => "edit",
    }
}

fn put_group(text: &mut Vec<u8>, group: Option<&Name>) -> Result<(), Refusal>
    ensures { IsOkUnless result Refusal.Memory }
{
    match group {
        None => Ok(()),
        Some(group) => put_bytes(text, group.as_slice()),
    }
}

/// Puts the number of a rule, and its index.
fn put_placed(text: &mut Vec<u8>, id: u32, index: usize) -> Result<(), Refusal>
    ensures { IsOkUnless result Refusal.Memory }
{
    put(text, " ")?;
    push_number(text, u64::from(id))?;
    put(text, " at ")?;
    push_number(text, index as u64)
}

/// Puts the rules that are passed, each on its line.
fn put_passed(text: &mut Vec<u8>, rules: &[PassedRule]) -> Result<(), Refusal>
    ensures { IsOkUnless result Refusal.Memory }
{
    for passed in rules {
        put(text, "passed: rule")?;
        put_placed(text, passed.id, passed.index)?;
        put(text, ": ")?;
        put_rule(text, passed.rule)?;
        put_unmet(text, passed.unmet)?;
        put_byte(text, b'\n')?;
    }
    Ok(())
}

/// Puts a condition that the asker does not meet, if there is one.
fn put_unmet(text: &mut Vec<u8>, unmet: Option<Unmet>) -> Result<(), Refusal>
    ensures { IsOkUnless result Refusal.Memory }
{
    let Some(unmet) = unmet else {
        return Ok(());
    };
    put(text, ": ")?;
    put(text, unmet.kind.name())?;
    put(text, " ")?;
    push_number(text, u64::from(unmet.has))?;
    put(text, " is not ")?;
    push_number(text, u64::from(unmet.wanted))
}

/// Puts the state of the connection of the record since its last move.
fn put_state(
    text: &mut Vec<u8>,
    cited: &Cited,
    past: &Record,
    state: &str,
    since: Option<u32>,
) -> Result<(), Refusal>
    ensures { IsOkUnless result Refusal.Memory }
{
    put(text, ": ")?;
    put_conn(text, &ConnId::of(&past.entry))?;
    put(text, state)?;
    put_since(text, cited, since)
}

/// Puts since which entry, or that there is none.
fn put_since(text: &mut Vec<u8>, cited: &Cited, since: Option<u32>) -> Result<(), Refusal>
    ensures { IsOkUnless result Refusal.Memory }
{
    match since {
        None => put(text, ": it never joined\n"),
        Some(place) => {
            put(text, " since ")?;
            put_cited_at(text, cited, place)
        }
    }
}

/// Puts that the process of the record is a member by another connection.
fn put_twice(text: &mut Vec<u8>, past: &Record, by: &ConnId) -> Result<(), Refusal>
    ensures { IsOkUnless result Refusal.Memory }
{
    put(text, ": ")?;
    push_number(text, u64::from(past.entry.node.get()))?;
    put_byte(text, b'/')?;
    push_number(text, u64::from(past.entry.pid))?;
    put(text, " is a member by ")?;
    put_conn(text, by)
}

/// Puts how many the group of the record has, between texts.
fn put_counted(
    text: &mut Vec<u8>,
    past: &Record,
    names: (&str, &str, &str),
    count: usize,
) -> Result<(), Refusal>
    ensures { IsOkUnless result Refusal.Memory }
{
    put(text, names.0)?;
    put_group(text, past.group.as_ref())?;
    put(text, names.1)?;
    push_number(text, count as u64)?;
    put(text, names.2)
}

/// Puts that the index of an insert is past the end of the table.
fn put_past_end(text: &mut Vec<u8>, past: &Record, rules: usize) -> Result<(), Refusal>
    ensures { IsOkUnless result Refusal.Memory }
{
    put(text, ": index ")?;
    if let Op::Act(Call::Insert(_, index, _)) = &past.entry.op {
        push_number(text, u64::from(*index))?;
    }
    put_counted(
        text,
        past,
        (" is past the end of ", ", which has ", " rules\n"),
        rules,
    )
}

/// Puts that the table has no rule of the number that a remove names.
fn put_absent(text: &mut Vec<u8>, past: &Record) -> Result<(), Refusal>
    ensures { IsOkUnless result Refusal.Memory }
{
    put(text, ": ")?;
    put_group(text, past.group.as_ref())?;
    put(text, " has no rule ")?;
    if let Op::Act(Call::Remove(_, id)) = &past.entry.op {
        push_number(text, u64::from(*id))?;
    }
    put_byte(text, b'\n')
}

/// Puts the entry of a place with its verdict, whether the connection is told of it, and what decided that.
fn put_stand(text: &mut Vec<u8>, cited: &Cited, stand: &Stand) -> Result<(), Refusal>
    ensures { IsOkUnless result Refusal.Memory }
{
    let Some(past) = cited.record(stand.place) else {
        return Ok(());
    };
    put_judged(text, cited, stand.place, past)?;
    put(text, "to ")?;
    put_conn(text, &stand.conn)?;
    put(
        text,
        if is_told(stand.standing) {
            ": told\n"
        } else {
            ": not told\n"
        },
    )?;
    put(text, "decided: ")?;
    put(text, stand.standing.name())?;
    match stand.standing {
        Standing::Maker => put(text, ": who makes an entry is told its verdict\n"),
        Standing::Denied => put(text, ": of a denied entry its maker alone is told\n"),
        Standing::Groupless => put(text, ": its maker was in no group\n"),
        Standing::Member | Standing::Elsewhere => put_whereabouts(text, cited, stand),
        Standing::Outside => put_outside(text, cited, stand),
    }
}

/// Puts in which group the connection is, or that it is in none, since its last move.
fn put_whereabouts(text: &mut Vec<u8>, cited: &Cited, stand: &Stand) -> Result<(), Refusal>
    ensures { IsOkUnless result Refusal.Memory }
{
    put(text, ": ")?;
    put_conn(text, &stand.conn)?;
    put(
        text,
        if stand.group.is_some() {
            " is in "
        } else {
            " is in no group"
        },
    )?;
    put_group(text, stand.group.as_ref())?;
    put_since(text, cited, stand.since)
}

/// Puts that the connection is in no group, and its last denied join.
fn put_outside(text: &mut Vec<u8>, cited: &Cited, stand: &Stand) -> Result<(), Refusal>
    ensures { IsOkUnless result Refusal.Memory }
{
    put_whereabouts(text, cited, stand)?;
    match stand.tried {
        None => Ok(()),
        Some(place) => {
            put(text, "tried: ")?;
            put_made(text, cited, place)
        }
    }
}
