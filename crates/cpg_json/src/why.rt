//! Why a verdict is what it is, as one object of JSON a line.
//!
//! The forms are this project's own; docs/CLI.md has them. This is plain code: it is safe, and memory is all that it
//! fails for. That its objects are right is for tests.

ghost use Rattle.std.specs.Prelude.{IsOkUnless};

use crate::calls::{put_group, put_rule, put_verdict, right_name};
use crate::events::{put_event_fields, put_front};
use crate::frames::put_whole_call;
use crate::marks::put_line_number;
use crate::objects::{put_end, put_kind, put_name, put_number, put_word};
use crate::records::{put_caller, put_conn};
use cpg_cred::Refusal;
use cpg_entry::{Call, Entry, Name, Op};
use cpg_record::{ConnId, Event, Record};
use cpg_text::{push_number, put};
use cpg_why::{
    Cited, Decided, Finding, PassedRule, Ruled, Stand, Standing, Tells, Unmet, Unruled, is_told,
};
use std::alloc::Global;

/// Objects of JSON, one a line.
#[derive(Debug, Clone, Copy)]
pub struct AsJson;

impl Tells for AsJson {
    ghost use Rattle.cpg_why.specs.Forms.{plain};

    ghost form = { plain };

    fn text_of(alloc: Global, cited: &Cited, list: &[Finding]) -> Result<Vec<u8>, Refusal> {
        let mut text = Vec::new(alloc);
        for finding in list {
            put_finding(&mut text, cited, finding)?;
        }
        Ok(text)
    }
}

fn put_finding(line: &mut Vec<u8>, cited: &Cited, finding: &Finding) -> Result<(), Refusal>
    ensures { IsOkUnless result Refusal.Memory }
{
    match finding {
        Finding::Why { place, decided } => put_why(line, cited, *place, decided),
        Finding::Made { place } => put_made(line, cited, *place),
        Finding::Stands(stand) => put_stand(line, cited, stand),
        Finding::Heard { conn, event } => put_heard(line, conn, event),
    }
}

/// Puts the object of an entry, its verdict, and what decided that, on its line.
fn put_why(line: &mut Vec<u8>, cited: &Cited, place: u32, decided: &Decided) -> Result<(), Refusal>
    ensures { IsOkUnless result Refusal.Memory }
{
    let Some(past) = cited.record(place) else {
        return Ok(());
    };
    put_kind(line, "why")?;
    put_judged(line, cited, place, past)?;
    put_by(line, decided.name())?;
    put_facts(line, cited, past, decided)?;
    put(line, "}")?;
    put_rest(line, cited, decided)?;
    put_end(line)
}

/// Puts the object of an entry that a connection made, with its verdict, on its line.
fn put_made(line: &mut Vec<u8>, cited: &Cited, place: u32) -> Result<(), Refusal>
    ensures { IsOkUnless result Refusal.Memory }
{
    let Some(past) = cited.record(place) else {
        return Ok(());
    };
    put_kind(line, "entry")?;
    put_judged(line, cited, place, past)?;
    put_end(line)
}

/// Puts the object of an event that the connection is told on its line.
fn put_heard(line: &mut Vec<u8>, conn: &ConnId, event: &Event) -> Result<(), Refusal>
    ensures { IsOkUnless result Refusal.Memory }
{
    put_front(line, conn)?;
    put_event_fields(line, event)?;
    put_end(line)
}

/// Puts what follows the place of an entry.
fn put_made_by(line: &mut Vec<u8>, cited: &Cited, place: u32, entry: &Entry) -> Result<(), Refusal>
    ensures { IsOkUnless result Refusal.Memory }
{
    put_line_number(line, cited.line(place))?;
    put_caller(line, entry)?;
    put_whole_call(line, &entry.op)
}

/// Puts the front of an object behind its kind: an entry, and its verdict.
fn put_judged(line: &mut Vec<u8>, cited: &Cited, place: u32, past: &Record) -> Result<(), Refusal>
    ensures { IsOkUnless result Refusal.Memory }
{
    put_number(line, "place", u64::from(place))?;
    put_made_by(line, cited, place, &past.entry)?;
    put_verdict(line, past.verdict)
}

/// Puts the entry of the record at a place, in braces, or `null`; with its verdict where that is wanted.
fn put_entry_at(
    line: &mut Vec<u8>,
    cited: &Cited,
    place: u32,
    with_verdict: bool,
) -> Result<(), Refusal>
    ensures { IsOkUnless result Refusal.Memory }
{
    let Some(past) = cited.record(place) else {
        return put(line, "null");
    };
    put(line, "{\"place\":")?;
    push_number(line, u64::from(place))?;
    put_made_by(line, cited, place, &past.entry)?;
    if with_verdict {
        put_verdict(line, past.verdict)?;
    }
    put(line, "}")
}

/// Puts the field of the entry since which a state is so.
fn put_since(line: &mut Vec<u8>, cited: &Cited, since: Option<u32>) -> Result<(), Refusal>
    ensures { IsOkUnless result Refusal.Memory }
{
    put_name(line, "since")?;
    match since {
        None => put(line, "null"),
        Some(place) => put_entry_at(line, cited, place, false),
    }
}

/// Puts the group, if there is one.
fn put_group_in(line: &mut Vec<u8>, group: Option<&Name>) -> Result<(), Refusal>
    ensures { IsOkUnless result Refusal.Memory }
{
    match group {
        None => Ok(()),
        Some(group) => put_group(line, group.as_slice()),
    }
}

/// Puts the front of the field of what decided.
fn put_by(line: &mut Vec<u8>, name: &str) -> Result<(), Refusal>
    ensures { IsOkUnless result Refusal.Memory }
{
    put(line, ",\"decided\":{\"by\":\"")?;
    put(line, name)?;
    put(line, "\"")
}

/// Puts what stands around what decided: where that is a table, the rules that were passed, and more of the rule.
fn put_rest(line: &mut Vec<u8>, cited: &Cited, decided: &Decided) -> Result<(), Refusal>
    ensures { IsOkUnless result Refusal.Memory }
{
    match decided {
        Decided::Rule(ruled) => put_around(line, cited, ruled),
        Decided::Default(unruled) => put_passed(line, unruled.passed.as_slice()),
        _ => Ok(()),
    }
}

/// Puts what is told of what decided, behind its name.
fn put_facts(
    line: &mut Vec<u8>,
    cited: &Cited,
    past: &Record,
    decided: &Decided,
) -> Result<(), Refusal>
    ensures { IsOkUnless result Refusal.Memory }
{
    let own = ConnId::of(&past.entry);
    match decided {
        Decided::Root | Decided::Free => Ok(()),
        Decided::Rule(ruled) => put_ruled(line, past, ruled),
        Decided::Default(unruled) => put_unruled(line, past, unruled),
        Decided::Closed { since } => put_state(line, cited, &own, *since),
        Decided::Joined { since } => put_state(line, cited, &own, *since),
        Decided::Twice { by, since } => put_state(line, cited, by, *since),
        Decided::Full { members } => put_counted(line, past, "members", *members),
        Decided::Position { rules } => put_past_end(line, past, *rules),
        Decided::TableFull { rules } => put_counted(line, past, "rules", *rules),
        Decided::Absent => put_absent(line, past),
    }
}

/// Puts the rule that decided.
fn put_ruled(line: &mut Vec<u8>, past: &Record, ruled: &Ruled) -> Result<(), Refusal>
    ensures { IsOkUnless result Refusal.Memory }
{
    put_group_in(line, past.group.as_ref())?;
    put_number(line, "index", ruled.index as u64)?;
    put_number(line, "rules", ruled.rules as u64)?;
    put_number(line, "id", u64::from(ruled.id))?;
    put_rule(line, ruled.rule)
}

/// Puts how the rule came into the table, the rules that it passed, and what would hold without it.
fn put_around(line: &mut Vec<u8>, cited: &Cited, ruled: &Ruled) -> Result<(), Refusal>
    ensures { IsOkUnless result Refusal.Memory }
{
    put_name(line, "put_in")?;
    put_entry_at(line, cited, ruled.id, false)?;
    put_passed(line, ruled.passed.as_slice())?;
    put(line, ",\"without\":{\"id\":")?;
    push_number(line, u64::from(ruled.id))?;
    put_verdict(line, ruled.without)?;
    put(line, "}")
}

fn put_unruled(line: &mut Vec<u8>, past: &Record, unruled: &Unruled) -> Result<(), Refusal>
    ensures { IsOkUnless result Refusal.Memory }
{
    put_group_in(line, past.group.as_ref())?;
    put_word(line, "right", right_name(unruled.right))
}

/// Puts a connection, and since which entry it is so.
fn put_state(
    line: &mut Vec<u8>,
    cited: &Cited,
    conn: &ConnId,
    since: Option<u32>,
) -> Result<(), Refusal>
    ensures { IsOkUnless result Refusal.Memory }
{
    put_conn(line, conn)?;
    put_since(line, cited, since)
}

/// Puts how many the group of the record has.
fn put_counted(
    line: &mut Vec<u8>,
    past: &Record,
    counted: &str,
    count: usize,
) -> Result<(), Refusal>
    ensures { IsOkUnless result Refusal.Memory }
{
    put_group_in(line, past.group.as_ref())?;
    put_number(line, counted, count as u64)
}

/// Puts the index of an insert, which is past the end of the table.
fn put_past_end(line: &mut Vec<u8>, past: &Record, rules: usize) -> Result<(), Refusal>
    ensures { IsOkUnless result Refusal.Memory }
{
    put_group_in(line, past.group.as_ref())?;
    if let Op::Act(Call::Insert(_, index, _)) = &past.entry.op {
        put_number(line, "index", u64::from(*index))?;
    }
    put_number(line, "rules", rules as u64)
}

/// Puts the number that a remove names, and that no rule has.
fn put_absent(line: &mut Vec<u8>, past: &Record) -> Result<(), Refusal>
    ensures { IsOkUnless result Refusal.Memory }
{
    put_group_in(line, past.group.as_ref())?;
    if let Op::Act(Call::Remove(_, id)) = &past.entry.op {
        put_number(line, "id", u64::from(*id))?;
    }
    Ok(())
}

/// Puts the field of the rules that are passed.
fn put_passed(line: &mut Vec<u8>, rules: &[PassedRule]) -> Result<(), Refusal>
    ensures { IsOkUnless result Refusal.Memory }
{
    put_name(line, "passed")?;
    put(line, "[")?;
    let mut between = "";
    for passed in rules {
        put(line, between)?;
        between = ",";
        put_passed_rule(line, passed)?;
    }
    put(line, "]")
}

fn put_passed_rule(line: &mut Vec<u8>, passed: &PassedRule) -> Result<(), Refusal>
    ensures { IsOkUnless result Refusal.Memory }
{
    put(line, "{\"index\":")?;
    push_number(line, passed.index as u64)?;
    put_number(line, "id", u64::from(passed.id))?;
    put_rule(line, passed.rule)?;
    put_name(line, "unmet")?;
    match passed.unmet {
        None => put(line, "null")?,
        Some(unmet) => put_unmet(line, unmet)?,
    }
    put(line, "}")
}

/// Puts a condition that the asker does not meet.
fn put_unmet(line: &mut Vec<u8>, unmet: Unmet) -> Result<(), Refusal>
    ensures { IsOkUnless result Refusal.Memory }
{
    put(line, "{\"condition\":\"")?;
    put(line, unmet.kind.name())?;
    put(line, "\"")?;
    put_number(line, "has", u64::from(unmet.has))?;
    put_number(line, "wanted", u64::from(unmet.wanted))?;
    put(line, "}")
}

/// Puts the object of an entry, its verdict, whether the connection is told of it, and what decided that, on its line.
fn put_stand(line: &mut Vec<u8>, cited: &Cited, stand: &Stand) -> Result<(), Refusal>
    ensures { IsOkUnless result Refusal.Memory }
{
    let Some(past) = cited.record(stand.place) else {
        return Ok(());
    };
    put_kind(line, "to")?;
    put_judged(line, cited, stand.place, past)?;
    put_name(line, "told")?;
    put(
        line,
        if is_told(stand.standing) {
            "true"
        } else {
            "false"
        },
    )?;
    put_standing(line, cited, stand)?;
    put(line, "}")?;
    put_end(line)
}

/// Puts what decided that the connection is told, or is not, but for its last brace.
fn put_standing(line: &mut Vec<u8>, cited: &Cited, stand: &Stand) -> Result<(), Refusal>
    ensures { IsOkUnless result Refusal.Memory }
{
    put_by(line, stand.standing.name())?;
    put_conn(line, &stand.conn)?;
    match stand.standing {
        Standing::Maker | Standing::Denied | Standing::Groupless => Ok(()),
        Standing::Member | Standing::Elsewhere => put_whereabouts(line, cited, stand),
        Standing::Outside => {
            put_whereabouts(line, cited, stand)?;
            put_tried(line, cited, stand.tried)
        }
    }
}

/// Puts the group that the connection is in, if it is in one, since its last move.
fn put_whereabouts(line: &mut Vec<u8>, cited: &Cited, stand: &Stand) -> Result<(), Refusal>
    ensures { IsOkUnless result Refusal.Memory }
{
    put_group_in(line, stand.group.as_ref())?;
    put_since(line, cited, stand.since)
}

/// Puts the denied join of that place, if there is one.
fn put_tried(line: &mut Vec<u8>, cited: &Cited, tried: Option<u32>) -> Result<(), Refusal>
    ensures { IsOkUnless result Refusal.Memory }
{
    match tried {
        None => Ok(()),
        Some(place) => {
            put_name(line, "tried")?;
            put_entry_at(line, cited, place, true)
        }
    }
}
