//! What is left of a node that is no more. That it is freed piece by piece is this project's own.

ghost use Rattle.std.specs.Prelude.{◌≡◌, ◌≤◌, ◌-◌, length};

use cpg_entry::Ledger;
use cpg_record::Record;
use std::marker::Model;

/// What is left of a node that is no more: the entries that it delivered, and their records. To free all of it at once
/// takes a time that grows with the places; its owner frees so many at a time instead. Contracts see it as how many
/// places are left.
#[derive(Drop)]
pub struct Remains {
    entries: Ledger,
    records: Vec<Record>,
}

impl Model for Remains {
    ghost use Rattle.std.specs.Prelude.{ℕ, ◌+◌, ◌≤◌, length};

    ghost Value = { ℕ };

    ghost view = { λ remains. length remains.records.items };

    // an entry goes no later than its record, unless it stands in a block, which other lists may have, too
    ghost invariant = { λ remains. length remains.entries.items ≤ length remains.records.items + remains.entries.in_blocks };
}

impl Remains {
    /// What is left: those entries, and those records.
    pub(crate) fn of(entries: Ledger, records: Vec<Record>) -> Remains
        requires { length entries.items ≤ length records.items }
        ensures { result ≡ length records.items }
    {
        Remains { entries, records }
    }

    /// How many places are left.
    pub fn left(&self) -> usize
        ensures { result ≡ self.now }
    {
        self.records.len()
    }

    /// Frees the last places, `most` of them or all that are left, and tells how many are left.
    pub fn shed(&mut self, most: usize) -> usize
        ensures value { result ≡ self.new }
        ensures left { self.new ≡ self.old - most }
    {
        let left = self.records.len().saturating_sub(most);
        self.entries.truncate(left);
        self.records.truncate(left);
        left
    }
}
