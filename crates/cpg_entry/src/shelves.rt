//! Where blocks lie that many lists have in common.

ghost use Rattle.std.specs.Prelude.{◌≡◌, ◌/◌, ◌≤◌, None, IsTrue, IfOk, IfSome, IsOkUnless};
ghost use Rattle.std.specs.Arc.{arc_value};

use crate::blocks::{BLOCK, LIGHT_BYTES};
use crate::calls::{Call, Op};
use crate::entries::Entry;
use cpg_cred::Refusal;
use once_cell::race::OnceBox;
use std::alloc::Global;
use std::marker::Model;
use std::sync::Arc;

/// A block of entries that ledgers share.
pub(crate) type Block = Arc<Vec<Entry>>;

/// Blocks of entries in a row, each laid down once by the first ledger that has it. Contracts see how many there is a
/// place for.
#[derive(Drop)]
pub struct Shelf {
    alloc: Global,
    cells: Vec<OnceBox<Block>>,
}

impl Model for Shelf {
    ghost use Rattle.std.specs.Prelude.{ℕ, length};

    ghost Value = { ℕ };

    ghost view = { λ shelf. length shelf.cells.items };
}

/// Whether the lists have the same entries.
fn are_same(one: &[Entry], other: &[Entry]) -> bool
    ensures { IsTrue result → one.now ≡ other.now }
{
    if one.len() != other.len() {
        return false;
    }
    for index in 0..one.len() {
        if !one[index].equals(&other[index]) {
            return false;
        }
    }
    true
}

/// How many bytes the message of an entry has, if it has one.
fn message_bytes(entry: &Entry) -> usize {
    match &entry.op {
        Op::Act(Call::Send(message)) => message.as_slice().len(),
        _ => 0,
    }
}

/// Whether the messages of the entries have few bytes, so that it is soon seen whether other entries are the same.
fn are_light(entries: &[Entry]) -> bool {
    let mut left = LIGHT_BYTES;
    for entry in entries {
        let bytes = message_bytes(entry);
        if left < bytes {
            return false;
        }
        left -= bytes;
    }
    true
}

/// A block of copies of the entries.
fn copied(alloc: Global, entries: &[Entry]) -> Result<Block, Refusal>
    ensures { IfOk result (λ block. (arc_value block).items ≡ entries.now) }
{
    let mut block = Vec::with_capacity(alloc, entries.len())?;
    for entry in entries {
        block.push(entry.copy(alloc)?)?;
    }
    Ok(Arc::new(alloc, block)?)
}

/// The block itself, where it has these entries.
fn same_block(block: &Block, entries: &[Entry]) -> Option<Block>
    ensures { IfSome result (λ same. (arc_value same).items ≡ entries.now) }
{
    if are_same(block.as_slice(), entries) {
        Arc::try_clone(block).ok()
    } else {
        None
    }
}

impl Shelf {
    /// An empty shelf with a place for each block of a list of so many entries.
    pub fn new(alloc: Global, most: u32) -> Result<Shelf, Refusal>
        ensures ok { IfOk result (λ shelf. shelf ≡ most / BLOCK) }
        ensures memory { IsOkUnless result Refusal.Memory }
    {
        let mut cells = Vec::new(alloc);
        for _ in 0..most as usize / BLOCK {
            cells.push(OnceBox::new(alloc))?;
        }
        Ok(Shelf { alloc, cells })
    }

    /// Lays the block down in that cell. Whether it lies there then: not where another came first, or memory is refused.
    fn lays_down(&self, cell: &OnceBox<Block>, block: &Block) -> bool {
        let Ok(twin) = Arc::try_clone(block) else {
            return false;
        };
        match Box::new(self.alloc, twin) {
            Ok(boxed) => cell.set(boxed).is_ok(),
            Err(_) => false,
        }
    }

    /// A block with these entries for an empty cell, where it is laid down, or that of who came first.
    fn fill(&self, cell: &OnceBox<Block>, entries: &[Entry]) -> Option<Block>
        ensures { IfSome result (λ block. (arc_value block).items ≡ entries.now) }
    {
        let block = copied(self.alloc, entries).ok()?;
        if self.lays_down(cell, &block) {
            return Some(block);
        }
        match cell.get() {
            None => Some(block),
            Some(other) => same_block(other, entries),
        }
    }

    /// A block with these entries: the one of that index, where it has them, or a new one, which is laid down there where
    /// nothing lies. Entries whose messages are long have a block of their own, since their bytes are shared anyway. None
    /// where another block lies there, where the shelf has no such place, and where memory is refused.
    pub(crate) fn find_same(&self, index: usize, entries: &[Entry]) -> Option<Block>
        ensures same { IfSome result (λ block. (arc_value block).items ≡ entries.now) }
        ensures past { self.now ≤ index → result ≡ None }
    {
        let cell = self.cells.get(index)?;
        if !are_light(entries) {
            return copied(self.alloc, entries).ok();
        }
        match cell.get() {
            None => self.fill(cell, entries),
            Some(block) => same_block(block, entries),
        }
    }
}
