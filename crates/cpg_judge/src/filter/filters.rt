//! What a filter keeps.
//!
//! Proved: each test is the definition of its name in `specs/Filters.antt`.

ghost use Rattle.std.specs.Prelude.{◌≡◌, option_map};
ghost use Rattle.cpg_judge.specs.Filters.{is_of_kind, keeps_conn, keeps_event, keeps_group, keeps_place, keeps_record, keeps_verdict};

use cpg_entry::{Call, Name, Op};
use cpg_record::{ConnId, Event, Record};

/// The kinds of lines.
#[derive(Debug, Clone, Copy, PartialEq, Eq)]
pub enum Only {
    /// What was denied.
    Denied,
    /// Each entry, and what it was answered.
    Verdicts,
    /// Allowed messages.
    Messages,
    /// Who joined, left and went.
    Changes,
    /// Changes of rules.
    Rules,
}

/// Which lines are kept: those of a kind, of a group, of a connection, and of the places from the first to the last;
/// where a kind, a group or a connection is not asked for, each is kept.
#[derive(Debug, Clone, Copy)]
pub struct Filter<'a> {
    pub only: Option<Only>,
    pub group: Option<&'a [u8]>,
    pub conn: Option<ConnId>,
    pub first: u32,
    pub last: u32,
}

/// Whether an allowed op is of the kind.
fn is_of_kind(only: Only, op: &Op) -> bool
    ensures { result ≡ is_of_kind only op.now }
{
    match op {
        Op::Act(Call::Send(_)) => only == Only::Messages,
        Op::Act(Call::Join(_) | Call::Leave) | Op::Gone => only == Only::Changes,
        Op::Act(Call::Insert(_, _, _) | Call::Remove(_, _)) => only == Only::Rules,
    }
}

/// Whether the kind keeps the line of a record.
fn keeps_verdict(only: Option<Only>, past: &Record) -> bool
    ensures { result ≡ keeps_verdict only past.now }
{
    match only {
        None | Some(Only::Verdicts) => true,
        Some(Only::Denied) => !past.verdict.is_allowed(),
        Some(only) => past.verdict.is_allowed() && is_of_kind(only, &past.entry.op),
    }
}

/// Whether the kind keeps the line of an event.
pub(crate) fn keeps_event(only: Option<Only>, event: &Event) -> bool
    ensures { result ≡ keeps_event only event.now }
{
    let Some(only) = only else {
        return true;
    };
    match event {
        Event::Verdict { verdict, .. } => {
            only == Only::Verdicts || (only == Only::Denied && !verdict.is_allowed())
        }
        Event::Message { .. } => only == Only::Messages,
        Event::Change { .. } => only == Only::Changes,
        Event::RulesChanged { .. } => only == Only::Rules,
    }
}

/// Whether the group is the one that is asked for.
fn keeps_group(asked: Option<&[u8]>, group: &Option<Name>) -> bool
    ensures { result ≡ keeps_group (option_map (λ name. name.now) asked.entry) group.now }
{
    match asked {
        None => true,
        Some(asked) => match group {
            None => false,
            Some(group) => group.is(asked),
        },
    }
}

impl Filter<'_> {
    /// Whether the connection is kept.
    pub(crate) fn keeps_conn(&self, conn: &ConnId) -> bool
        ensures { result ≡ keeps_conn (self.now).conn conn.now }
    {
        match &self.conn {
            None => true,
            Some(asked) => asked.is(conn),
        }
    }

    /// Whether the record stands at one of the places, and is of the group.
    pub(crate) fn keeps_place(&self, place: u32, past: &Record) -> bool
        ensures { result ≡ keeps_place self.now place past.now }
    {
        self.first <= place && place <= self.last && keeps_group(self.group, &past.group)
    }

    /// Whether the line of the record is kept.
    pub(crate) fn keeps_record(&self, place: u32, past: &Record) -> bool
        ensures { result ≡ keeps_record self.now place past.now }
    {
        self.keeps_place(place, past)
            && self.keeps_conn(&ConnId::of(&past.entry))
            && keeps_verdict(self.only, past)
    }
}
