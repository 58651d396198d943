//! What is found of what is asked, as values.

use crate::standings::Standing;
use crate::unmet::Unmet;
use cpg_cred::Refusal;
use cpg_entry::Name;
use cpg_record::{ConnId, Event, Record, Verdict};
use cpg_rules::{Right, Rule};
use std::alloc::Global;
use std::marker::Model;

/// A rule of the right that stands before the one that decides.
#[derive(Debug, Drop)]
pub struct PassedRule {
    /// Where it stands in the table, from 0.
    pub index: usize,
    /// Its number: it was put in at the place of that number.
    pub id: u32,
    pub rule: Rule,
    /// A condition of it that the asker does not meet.
    pub unmet: Option<Unmet>,
}

/// Rules that are passed, in their order. Contracts see it as their list.
#[derive(Debug, Drop)]
pub struct Passed {
    rules: Vec<PassedRule>,
}

impl Model for Passed {
    ghost use Rattle.std.specs.Prelude.{List};
    ghost use Rattle.cpg_why.specs.declared.findings.PassedRule.{PassedRule};

    ghost Value = { List PassedRule };

    ghost view = { λ passed. passed.rules.items };
}

impl Passed {
    ghost use Rattle.std.specs.Prelude.{◌≡◌, ◌∷◌, ◌++◌, [], OnOk, IsOkUnless};

    /// No rules.
    pub(crate) fn new(alloc: Global) -> Passed
        ensures { result ≡ [] }
    {
        Passed {
            rules: Vec::new(alloc),
        }
    }

    /// Puts the rule of that number, which stands at the index, last.
    pub(crate) fn push(
        &mut self,
        index: usize,
        id: u32,
        rule: Rule,
        unmet: Option<Unmet>,
    ) -> Result<(), Refusal>
        ensures ok { OnOk result (self.new ≡ self.old ++ record { index = index; id = id; rule = rule; unmet = unmet } ∷ []) }
        ensures memory { IsOkUnless result Refusal.Memory }
    {
        self.rules.push(PassedRule {
            index,
            id,
            rule,
            unmet,
        })?;
        Ok(())
    }

    /// The rules.
    pub fn as_slice(&self) -> &[PassedRule]
        ensures { result.now ≡ self.now }
    {
        self.rules.as_slice()
    }
}

/// The rule that decided.
#[derive(Debug, Drop)]
pub struct Ruled {
    /// Where it stands in the table, from 0.
    pub index: usize,
    /// Its number: it was put in at the place of that number.
    pub id: u32,
    pub rule: Rule,
    /// How many rules the table has.
    pub rules: usize,
    pub passed: Passed,
    /// What would be answered if the table lacked it.
    pub without: Verdict,
}

/// A right that no rule of the table decided.
#[derive(Debug, Drop)]
pub struct Unruled {
    pub right: Right,
    pub passed: Passed,
}

/// What decided an entry's answer. `since` is the place of a connection's last join, leave or end, if it has one.
#[derive(Debug, Drop)]
pub enum Decided {
    /// User 0 edits every table.
    Root,
    /// A leave or the end of a connection needs no right.
    Free,
    Rule(Ruled),
    /// The right's default.
    Default(Unruled),
    /// The connection is in no group.
    Closed { since: Option<u32> },
    /// The connection is in a group.
    Joined { since: Option<u32> },
    /// The process is a member by that connection.
    Twice { by: ConnId, since: Option<u32> },
    /// The group has that many members.
    Full { members: usize },
    /// The index is past the end of the group's table, which has that many rules.
    Position { rules: usize },
    /// The group's table has that many rules, and no room.
    TableFull { rules: usize },
    /// The group's table has no such rule.
    Absent,
}

impl Decided {
    /// Its name.
    pub fn name(&self) -> &'static str {
        match self {
            Decided::Root => "root",
            Decided::Free => "free",
            Decided::Rule(_) => "rule",
            Decided::Default(_) => "default",
            Decided::Closed { .. } => "closed",
            Decided::Joined { .. } => "joined",
            Decided::Twice { .. } => "twice",
            Decided::Full { .. } => "full",
            Decided::Position { .. } => "position",
            Decided::TableFull { .. } => "tablefull",
            Decided::Absent => "absent",
        }
    }
}

/// How a connection stands to the entry of a place, and where it is before it.
#[derive(Debug, Drop)]
pub struct Stand {
    pub place: u32,
    pub conn: ConnId,
    pub standing: Standing,
    pub group: Option<Name>,
    /// The place of its last join, leave or end.
    pub since: Option<u32>,
    /// The place of its last denied join since.
    pub tried: Option<u32>,
}

/// One of the things that are found of what is asked.
#[derive(Debug, Drop)]
pub enum Finding {
    /// Why the entry of a place was answered as it was.
    Why { place: u32, decided: Decided },
    /// An entry that a connection made stands at the place.
    Made { place: u32 },
    /// Why a connection is told of an entry, or is not.
    Stands(Stand),
    /// What a connection is told.
    Heard { conn: ConnId, event: Event },
}

/// What is found of what is asked, in order, and the records that it speaks of.
#[derive(Drop)]
pub struct Findings {
    pub records: Vec<Record>,
    pub list: Vec<Finding>,
}
