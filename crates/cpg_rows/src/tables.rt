//! `%table`: one table of rules.

use crate::player::{Plays, Row};
use crate::words::{
    NO_COMMAND, asker, first, index, number, one, put_number_line, put_whether, right, rule, three,
};
use cpg_cred::Refusal;
use cpg_print::{put_rule, put_verdict};
use cpg_record::{Reason, Verdict};
use cpg_rules::{Decision, MOST_RULES, Rule, Table};
use cpg_text::{push_number, put};
use std::alloc::Global;

#[derive(Drop)]
pub struct Rules {
    table: Table,
}

/// Puts the line of a rule with its id.
fn put_rule_line(line: &mut Vec<u8>, id: u32, rule: Rule) -> Result<(), Refusal> {
    push_number(line, u64::from(id))?;
    put(line, " ")?;
    put_rule(line, rule)?;
    put(line, "\n")
}

/// Puts the table's rules, each with its id, and their count.
pub fn put_rules(line: &mut Vec<u8>, table: &Table) -> Result<(), Refusal> {
    for index in 0..table.len() {
        if let Some((id, rule)) = table.get(index) {
            put_rule_line(line, id, rule)?;
        }
    }
    put_number_line(line, "rules", table.len() as u64)
}

/// The same of a table that is there only where it has rules.
pub fn put_rules_of(line: &mut Vec<u8>, table: Option<&Table>) -> Result<(), Refusal> {
    match table {
        Some(table) => put_rules(line, table),
        None => put_number_line(line, "rules", 0),
    }
}

/// Puts the rules of a copy of the table.
pub fn put_copied_rules(
    alloc: Global,
    line: &mut Vec<u8>,
    table: Option<&Table>,
) -> Result<(), Refusal> {
    let Some(table) = table else {
        return put_number_line(line, "rules", 0);
    };
    let copy = table.copy(alloc)?;
    let put = put_rules(line, &copy);
    drop(copy);
    put
}

impl Rules {
    pub fn new(alloc: Global) -> Rules {
        Rules {
            table: Table::new(alloc),
        }
    }

    /// Inserts the rule where that is within the call's conditions.
    fn insert(&mut self, at: usize, id: u32, rule: Rule) -> Result<(), Refusal> {
        if at > self.table.len() || self.table.len() >= MOST_RULES || self.table.has(id) {
            return Err(NO_COMMAND);
        }
        self.table.insert(at, id, rule)
    }

    /// `insert INDEX ID EFFECT RIGHT WHO`.
    fn insert_said(&mut self, alloc: Global, text: &[u8]) -> Result<(), Refusal> {
        let (at, rest) = first(text)?;
        let (id, rest) = first(rest)?;
        let (at, id) = (index(at)?, number(id)?);
        self.insert_read(at, id, rule(alloc, rest))
    }

    /// Inserts the rule that was read, if one was.
    fn insert_read(
        &mut self,
        at: usize,
        id: u32,
        read: Result<Rule, Refusal>,
    ) -> Result<(), Refusal> {
        match read {
            Ok(rule) => self.insert(at, id, rule),
            Err(refusal) => Err(refusal),
        }
    }

    /// `decide RIGHT NODE UID GID`.
    fn decide(&self, line: &mut Vec<u8>, text: &[u8]) -> Result<(), Refusal> {
        let (what, rest) = first(text)?;
        let (at, uid, gid) = three(rest)?;
        let verdict = match self.table.decide(right(what)?, asker(at, uid, gid)?) {
            Decision::Allowed(by) => Verdict::Allowed(by),
            Decision::Denied(by) => Verdict::Denied(Reason::of(by)),
        };
        put_verdict(line, verdict)?;
        put(line, "\n")
    }
}

impl Plays for Rules {
    fn make(&mut self, alloc: Global, line: &mut Vec<u8>, row: &Row<'_>) -> Result<(), Refusal> {
        if row.is("insert") {
            self.insert_said(alloc, row.rest)?;
            return put(line, "inserted\n");
        }
        if row.is("remove") {
            return put_whether(line, self.table.remove(number(one(row.rest)?)?));
        }
        if row.is("decide") {
            return self.decide(line, row.rest);
        }
        if row.is("copy") {
            return put_copied_rules(alloc, line, Some(&self.table));
        }
        Err(NO_COMMAND)
    }

    fn put_state(&self, _alloc: Global, text: &mut Vec<u8>) -> Result<(), Refusal> {
        put_rules(text, &self.table)
    }
}
