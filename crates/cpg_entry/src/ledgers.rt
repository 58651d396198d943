//! The lists of what nodes delivered.

ghost use Rattle.std.specs.Prelude.{◌≡◌, ◌⊎◌, ℕ, ◌+◌, ◌-◌, ◌*◌, ◌<◌, ◌≤◌, ◌++◌, ◌∷◌, [], Some, All, length, take, drop, slice_get, OnOk, OnErr, IsOkUnless, vec_capacity};
ghost use Rattle.std.specs.Arc.{arc_value};
ghost use Rattle.cpg_entry.specs.declared.ranges.TheConstants.{MOST_PLACES};
ghost use Rattle.cpg_entry.specs.Blocks.{laid, IsBlock};
ghost use Rattle.cpg_entry.specs.Ledgers.{IsBlockMore};

use crate::blocks::BLOCK;
use crate::entries::Entry;
use crate::growing::reserve_ahead;
use crate::ranges::MOST_PLACES;
use crate::shelves::{Block, Shelf};
use cpg_cred::Refusal;
use std::alloc::Global;
use std::fmt;
use std::marker::Model;

/// A list of at most 1,048,576 delivered entries, the first of which stands at place 1. Contracts see it as its entries,
/// how many of the first ones stand in blocks, and how many entries it has room for.
#[derive(Drop)]
pub struct Ledger {
    blocks: Vec<Block>,
    own: Vec<Entry>,
}

impl Model for Ledger {
    ghost use Rattle.std.specs.Prelude.{◌+◌, ◌≤◌, ◌++◌, length, All, vec_capacity};
    ghost use Rattle.cpg_entry.specs.declared.ranges.TheConstants.{MOST_PLACES};
    ghost use Rattle.cpg_entry.specs.Ledgers.{LedgerValue, ledger_code};
    ghost use Rattle.cpg_entry.specs.Blocks.{laid, IsBlock};

    ghost Value = { LedgerValue };

    ghost coded = { ledger_code };

    ghost view = { λ a. record { items = laid a.blocks.items ++ a.own.items; in_blocks = length (laid a.blocks.items); room = length (laid a.blocks.items) + vec_capacity a.own } };

    ghost invariant = { λ a. All IsBlock a.blocks.items × (length (laid a.blocks.items ++ a.own.items) ≤ MOST_PLACES) };
}

impl fmt::Debug for Ledger {
    fn fmt<W: fmt::Write>(&self, f: &mut fmt::Formatter<W>) -> fmt::Result {
        let mut list = f.debug_list();
        for index in 0..self.len() {
            list.entry(self.at(index));
        }
        list.finish()
    }
}

/// How many entries stand in the blocks.
#[tactic(auto, using(crate::proofs::Laid::length_laid))]
#[inline(always)]
fn count_laid(blocks: &[Block]) -> usize
    requires blocks { All IsBlock blocks.now }
    requires most { length (laid blocks.now) ≤ MOST_PLACES }
    ensures { result ≡ length (laid blocks.now) }
{
    blocks.len() * BLOCK
}

/// The entries of the block of that index.
fn items_at(blocks: &[Block], index: usize) -> &[Entry]
    requires blocks { All IsBlock blocks.now }
    requires within { index < length blocks.now }
    ensures count { length result.now ≡ BLOCK }
    ensures items { (k : ℕ) → k < BLOCK → slice_get (laid blocks.now) (BLOCK * index + k) ≡ slice_get result.now k }
{
    blocks[index].as_slice()
}

/// The entry of that index in the blocks.
fn item_laid(blocks: &[Block], index: usize) -> &Entry
    requires blocks { All IsBlock blocks.now }
    requires within { index < length (laid blocks.now) }
    ensures { slice_get (laid blocks.now) index ≡ Some result.now }
{
    let block = items_at(blocks, index / BLOCK);
    &block[index % BLOCK]
}

/// Puts the block behind the others in place of the first own entries, which it has, too, where there is memory to.
#[tactic(auto, using(crate::proofs::Laid::first_full, crate::proofs::Laid::blocks_push, crate::proofs::Laid::moved_over, crate::proofs::Laid::laid_more))]
fn lay(blocks: &mut Vec<Block>, own: &mut Vec<Entry>, block: Block)
    requires blocks { All IsBlock blocks.old.items }
    requires enough { BLOCK ≤ length own.old.items }
    requires first { (arc_value block).items ≡ take BLOCK own.old.items }
    ensures blocks { All IsBlock blocks.new.items }
    ensures items { laid blocks.new.items ++ own.new.items ≡ laid blocks.old.items ++ own.old.items }
    ensures laid { length (laid blocks.new.items) ≡ length (laid blocks.old.items) ⊎ length (laid blocks.new.items) ≡ length (laid blocks.old.items) + BLOCK }
    ensures capacity { vec_capacity own.new ≡ vec_capacity own.old }
{
    if blocks.push(block).is_ok() {
        drop_first(own);
    }
}

/// Drops the first 256 of the entries.
#[tactic(auto, using(crate::proofs::Laid::rotated))]
fn drop_first(own: &mut Vec<Entry>)
    requires { BLOCK ≤ length own.old.items }
    ensures items { own.new.items ≡ drop BLOCK own.old.items }
    ensures capacity { vec_capacity own.new ≡ vec_capacity own.old }
{
    let rest = own.len() - BLOCK;
    own.rotate_left(BLOCK);
    own.truncate(rest);
}

impl Ledger {
    /// A list without entries.
    pub fn new(alloc: Global) -> Ledger
        ensures items { result.items ≡ [] }
        ensures laid { result.in_blocks ≡ 0 }
    {
        Ledger {
            blocks: Vec::new(alloc),
            own: Vec::new(alloc),
        }
    }

    /// How many entries there are.
    #[tactic(auto, using(crate::proofs::Laid::length_append))]
    #[inline(always)]
    pub fn len(&self) -> usize
        ensures value { result ≡ length self.now.items }
        ensures most { result ≤ MOST_PLACES }
    {
        count_laid(self.blocks.as_slice()) + self.own.len()
    }

    /// The entry of that index, counted from 0.
    #[tactic(auto, using(crate::proofs::Laid::length_append, crate::proofs::Laid::at_left, crate::proofs::Laid::at_right))]
    #[inline(always)]
    pub fn at(&self, index: usize) -> &Entry
        requires { index < length self.now.items }
        ensures { slice_get self.now.items index ≡ Some result.now }
    {
        let blocks = self.blocks.as_slice();
        let laid = count_laid(blocks);
        if index < laid {
            item_laid(blocks, index)
        } else {
            &self.own[index - laid]
        }
    }

    /// How many of its first entries stand in blocks, which other lists may have, too.
    #[tactic(auto, using(crate::proofs::Laid::length_append))]
    pub fn in_blocks(&self) -> usize
        ensures value { result ≡ self.now.in_blocks }
        ensures most { result ≤ length self.now.items }
    {
        count_laid(self.blocks.as_slice())
    }

    /// Makes room for so many entries more, as lists that only grow do. What is in the list stays.
    #[inline(always)]
    pub fn reserve(&mut self, additional: usize) -> Result<(), Refusal>
        ensures items { self.new.items ≡ self.old.items }
        ensures laid { self.new.in_blocks ≡ self.old.in_blocks }
        ensures ok { OnOk result (length self.new.items + additional ≤ self.new.room) }
        ensures room { self.old.room ≤ self.new.room }
        ensures full { OnErr result (self.old.room < length self.old.items + additional) }
        ensures memory { IsOkUnless result Refusal.Memory }
    {
        reserve_ahead(&mut self.own, additional)
    }

    /// Puts the entry last, where there is room for it.
    #[inline(always)]
    pub fn push_reserved(&mut self, entry: Entry)
        requires room { length self.old.items < self.old.room }
        requires most { length self.old.items < MOST_PLACES }
        ensures items { self.new.items ≡ self.old.items ++ entry ∷ [] }
        ensures laid { self.new.in_blocks ≡ self.old.in_blocks }
        ensures room { self.new.room ≡ self.old.room }
    {
        self.own.push_reserved(entry);
    }

    /// Drops what stands behind the first `len` entries, so far as it is its own: what stands in blocks stays.
    #[tactic(auto, using(crate::proofs::Laid::length_append, crate::proofs::Laid::take_over, crate::proofs::Laid::take_shorter))]
    pub fn truncate(&mut self, len: usize)
        ensures items { self.new.items ≡ take (self.old.in_blocks + (len - self.old.in_blocks)) self.old.items }
        ensures laid { self.new.in_blocks ≡ self.old.in_blocks }
    {
        let laid = count_laid(self.blocks.as_slice());
        self.own.truncate(len.saturating_sub(laid));
    }

    /// Takes the first 256 of its own entries from the shelf, in the place where lists that begin alike put the same
    /// ones, where its own are 512, 768 and so on: so the last ones stay its own, and it is to be asked after each entry.
    /// Who reads the list sees no difference. Its own stay where memory is refused, and where others lie on the shelf.
    #[inline(always)]
    pub fn share(&mut self, shelf: &Shelf)
        ensures items { self.new.items ≡ self.old.items }
        ensures room { self.old.room ≤ self.new.room }
        // A block more or none, after which at least a block's own ones are left.
        ensures laid { self.new.in_blocks ≡ self.old.in_blocks ⊎ IsBlockMore self.old self.new }
    {
        let own = self.own.len();
        if own >= 2 * BLOCK && own % BLOCK == 0 {
            self.share_first(shelf);
        }
    }

    /// Takes the first 256 of its own entries from the shelf, if it has so many.
    #[inline(never)]
    #[tactic(auto, using(crate::proofs::Laid::first_full, crate::proofs::Laid::length_append))]
    fn share_first(&mut self, shelf: &Shelf)
        ensures items { self.new.items ≡ self.old.items }
        ensures room { self.old.room ≤ self.new.room }
        ensures laid { self.new.in_blocks ≡ self.old.in_blocks ⊎ self.new.in_blocks ≡ self.old.in_blocks + BLOCK }
    {
        if self.own.len() < BLOCK {
            return;
        }
        let own = &self.own.as_slice()[..BLOCK];
        let Some(block) = shelf.find_same(self.blocks.len(), own) else {
            return;
        };
        lay(&mut self.blocks, &mut self.own, block);
    }
}
