//! The entries that wait at a node for a place, and how many of them are calls.

ghost use Rattle.std.specs.Prelude.{◌≡◌, ◌+◌, ◌++◌, ◌∷◌, [], ◌<◌, ◌↔◌, length, drop, slice_index_or, IsSome, IfSome, OnOk, OnErr, IfErr};
ghost use Rattle.cpg_ring.specs.States.{calls};

use cpg_entry::{Entry, Op};
use std::alloc::Global;
use std::collections::VecDeque;
use std::marker::Model;

/// The entries that wait, the oldest first. Contracts see them as their list.
#[derive(Debug, Drop)]
pub struct Waiting {
    entries: VecDeque<Entry>,
    call_count: usize,
}

impl Model for Waiting {
    ghost use Rattle.std.specs.Prelude.{List, ◌≡◌};
    ghost use Rattle.cpg_ring.specs.States.{Entry, calls};

    ghost Value = { List Entry };

    ghost view = { λ a. a.entries.items };

    ghost invariant = { λ a. a.call_count ≡ calls a.entries.items };
}

/// One for a call, and none for the end of a connection.
fn counted(entry: &Entry) -> usize
    ensures { result ≡ calls (entry.now ∷ []) }
{
    match entry.op {
        Op::Act(_) => 1,
        Op::Gone => 0,
    }
}

impl Waiting {
    /// Nothing waits.
    pub fn new(alloc: Global) -> Waiting
        ensures { result ≡ [] }
    {
        Waiting {
            entries: VecDeque::new(alloc),
            call_count: 0,
        }
    }

    /// How many entries wait, ends of connections too.
    pub fn len(&self) -> usize
        ensures { result ≡ length self.now }
    {
        self.entries.len()
    }

    /// How many calls wait; ends of connections aren't counted.
    pub fn calls(&self) -> usize
        ensures { result ≡ calls self.now }
    {
        self.call_count
    }

    /// The entry at that index.
    pub fn get(&self, index: usize) -> Option<&Entry>
        ensures variant { IsSome result ↔ (index < length self.now) }
        ensures lookup { IfSome result (λ entry. entry.now ≡ slice_index_or self.now index entry.now) }
    {
        self.entries.get(index)
    }

    /// Puts an entry last, or gives it back where there is no memory.
    pub fn push(&mut self, entry: Entry) -> Result<(), Entry>
        ensures ok { OnOk result (self.new ≡ self.old ++ entry ∷ []) }
        ensures err { OnErr result (self.new ≡ self.old) }
        ensures back { IfErr result (λ back. back ≡ entry) }
    {
        let count = counted(&entry);
        if let Err(failed) = self.entries.push_back(entry) {
            return Err(failed.value);
        }
        self.call_count += count;
        Ok(())
    }

    /// Takes the first entry, if one waits.
    pub fn pop_first(&mut self) -> Option<Entry>
        ensures variant { IsSome result ↔ (0 < length self.old) }
        ensures lookup { IfSome result (λ entry. entry ≡ slice_index_or self.old 0 entry) }
        ensures rest { self.new ≡ drop 1 self.old }
    {
        let entry = self.entries.pop_front()?;
        self.call_count -= counted(&entry);
        Some(entry)
    }
}
