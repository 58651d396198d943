//! Records: entries with what they were answered.

ghost use Rattle.std.specs.Prelude.{◌≡◌, ◌↔◌, ◌++◌, ◌∷◌, [], IsTrue, length, OnOk, OnErr, IfOk, IfErr, IsOkUnless};

use crate::memberships::Members;
use crate::verdicts::Verdict;
use cpg_cred::Refusal;
use cpg_entry::{Entry, Name};
use std::alloc::{AllocFailed, Global};
use std::marker::Model;

/// An entry, its group, what it was answered, and the members of its group after it.
#[derive(Debug, Drop)]
pub struct Record {
    pub entry: Entry,
    /// The group that the entry names, else the one that its connection was in.
    pub group: Option<Name>,
    pub verdict: Verdict,
    /// The members of that group after the entry; nobody where there is no group.
    pub members: Members,
}

/// Whether both are there and the same, or neither is there.
fn equal_groups(a: &Option<Name>, b: &Option<Name>) -> bool
    ensures { IsTrue result ↔ (a.now ≡ b.now) }
{
    match (a, b) {
        (None, None) => true,
        (Some(a), Some(b)) => a.equals(b),
        _ => false,
    }
}

impl Record {
    /// The same record.
    pub fn copy(&self, alloc: Global) -> Result<Record, Refusal>
        ensures ok { IfOk result (λ copy. copy ≡ self.now) }
        ensures memory { IsOkUnless result Refusal.Memory }
    {
        let entry = self.entry.copy(alloc)?;
        let group = match &self.group {
            Some(group) => Some(group.copy(alloc)?),
            None => None,
        };
        let members = self.members.copy(alloc)?;
        Ok(Record {
            entry,
            group,
            verdict: self.verdict,
            members,
        })
    }

    /// Whether the records are the same.
    pub fn equals(&self, other: &Record) -> bool
        ensures { IsTrue result ↔ (self.now ≡ other.now) }
    {
        self.entry.equals(&other.entry)
            && equal_groups(&self.group, &other.group)
            && self.verdict == other.verdict
            && self.members.equals(&other.members)
    }
}

/// Records, the first of which stands at place 1. Contracts see it as their list.
#[derive(Debug, Drop)]
pub struct Records {
    records: Vec<Record>,
}

impl Model for Records {
    ghost use Rattle.std.specs.Prelude.{List};
    ghost use Rattle.cpg_record.specs.declared.records.Record.{Record};

    ghost Value = { List Record };

    ghost view = { λ records. records.records.items };
}

impl Records {
    /// No records.
    pub fn new(alloc: Global) -> Records
        ensures { result ≡ [] }
    {
        Records {
            records: Vec::new(alloc),
        }
    }

    /// Puts the record last; gives it back where memory was refused.
    pub fn push(&mut self, next: Record) -> Result<(), AllocFailed<Record>>
        ensures ok { OnOk result (self.new ≡ self.old ++ next ∷ []) }
        ensures err { OnErr result (self.new ≡ self.old) }
        ensures back { IfErr result (λ failed. failed.value ≡ next) }
    {
        self.records.push(next)
    }

    /// The records.
    pub fn as_slice(&self) -> &[Record]
        ensures { result.now ≡ self.now }
    {
        self.records.as_slice()
    }

    /// How many there are.
    pub fn len(&self) -> usize
        ensures { result ≡ length self.now }
    {
        self.records.len()
    }

    /// The same records.
    pub fn copy(&self, alloc: Global) -> Result<Records, Refusal>
        ensures ok { IfOk result (λ copy. copy ≡ self.now) }
        ensures memory { IsOkUnless result Refusal.Memory }
    {
        let mut copy = Records::new(alloc);
        for past in self.as_slice() {
            copy.push(past.copy(alloc)?)?;
        }
        Ok(copy)
    }
}
