//! A group's rules, each with its id, in the order in which they are asked.

ghost use Rattle.std.specs.Prelude.{◌≡◌, ◌≢◌, ◌<◌, ◌≤◌, ◌==◌, not, [], length, All, OnOk, OnErr, IfOk, IsOkUnless};
ghost use Rattle.std.specs.List.{slice_get, insert, filter, list_any, find};
ghost use Rattle.cpg_rules.specs.Decision.{decide, speaks};
ghost use Rattle.cpg_rules.specs.Tables.{has_id, without_id};

use crate::decisions::Decision;
use crate::rules::{Asker, Right, Rule};
use cpg_cred::Refusal;
use std::alloc::Global;
use std::marker::Model;

/// How many rules a group's table holds at most.
pub const MOST_RULES: usize = 64;

/// The limits of this crate, as numbers.
pub fn limits()
    ensures { MOST_RULES ≡ 64 }
{}

/// A group's rules, each with its id, the one that is asked first at the front. Contracts see it as the
/// list of pairs of id and rule.
#[derive(Debug, Drop)]
pub struct Table {
    rules: Vec<(u32, Rule)>,
}

impl Model for Table {
    ghost use Rattle.cpg_rules.specs.Tables.{Rules};

    ghost Value = { Rules };

    ghost view = { λ table. table.rules.items };
}

impl Table {
    /// The empty table.
    pub fn new(alloc: Global) -> Table
        ensures { result ≡ [] }
    {
        Table {
            rules: Vec::new(alloc),
        }
    }

    /// What the first rule that speaks of the right and the asker says, else the right's default: join,
    /// send and list are allowed, edit is denied.
    pub fn decide(&self, right: Right, asker: Asker) -> Decision
        ensures { result ≡ decide self.now right asker }
    {
        match self.first_speaking(right, &asker) {
            Some((id, rule)) => Decision::by_rule(rule.effect, id),
            None => Decision::by_default(right),
        }
    }

    fn first_speaking(&self, right: Right, asker: &Asker) -> Option<(u32, Rule)>
        ensures { result ≡ find (speaks right asker.now) self.now }
    {
        for entry in &self.rules {
            if entry.1.speaks_of(right, asker) {
                return Some(*entry);
            }
        }
        None
    }

    /// How many rules there are.
    pub fn len(&self) -> usize
        ensures { result ≡ length self.now }
    {
        self.rules.len()
    }

    /// Whether there is no rule.
    pub fn is_empty(&self) -> bool
        ensures { result ≡ (length self.now == 0) }
    {
        self.rules.is_empty()
    }

    /// The id and the rule at `index`, counted from 0.
    pub fn get(&self, index: usize) -> Option<(u32, Rule)>
        ensures { result ≡ slice_get self.now index }
    {
        self.rules.get(index).copied()
    }

    /// Puts the rule before the one at `index`, or at the end.
    pub fn insert(&mut self, index: usize, id: u32, rule: Rule) -> Result<(), Refusal>
        requires index_within { index ≤ length self.old }
        requires has_room { length self.old < MOST_RULES }
        requires id_is_new { All (λ entry. entry.0 ≢ id) self.old }
        ensures ok { OnOk result (self.new ≡ insert self.old index (id, rule)) }
        ensures err { OnErr result (self.new ≡ self.old) }
        ensures memory { IsOkUnless result Refusal.Memory }
    {
        self.rules.insert(index, (id, rule))?;
        Ok(())
    }

    /// Takes the rule of that id out, and says whether there was one.
    pub fn remove(&mut self, id: u32) -> bool
        ensures after { self.new ≡ without_id id self.old }
        ensures found { result ≡ has_id id self.old }
    {
        let found = self.has(id);
        self.rules.retain(|entry| entry.0 != id);
        found
    }

    /// Whether a rule has that id.
    pub fn has(&self, id: u32) -> bool
        ensures { result ≡ has_id id self.now }
    {
        self.rules.iter().any(|entry| entry.0 == id)
    }

    /// A table of the same rules.
    pub fn copy(&self, alloc: Global) -> Result<Table, Refusal>
        ensures ok { IfOk result (λ table. table ≡ self.now) }
        ensures memory { IsOkUnless result Refusal.Memory }
    {
        Ok(Table {
            rules: Vec::from_slice(alloc, self.rules.as_slice())?,
        })
    }
}
