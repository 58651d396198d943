//! Tables of names.
//!
//! Proved: a table has each name once, beside the number that was added first for it.

ghost use Rattle.std.specs.Prelude.{◌≡◌, [], OnOk, IsOkUnless};
ghost use Rattle.cpg_conf.specs.Names.{number_of, with_name};
ghost use Rattle.cpg_conf.specs.Steps.{pairs};

use cpg_cred::{NameHasher, Refusal};
use indexmap::IndexMap;
use smallvec::SmallVec;
use std::alloc::Global;
use std::hash::BuildHasherDefault;
use std::marker::Model;

/// Names, each beside the number that it stands for. A name of at most 16 bytes takes no memory of its own.
/// Contracts see the list of both.
#[derive(Drop)]
pub struct NameTable {
    numbers: IndexMap<SmallVec<u8, 16>, u32, BuildHasherDefault<NameHasher>>,
}

impl Model for NameTable {
    ghost use Rattle.std.specs.Prelude.{List, ℕ};
    ghost use Rattle.cpg_conf.specs.Steps.{pairs};

    ghost Value = { List (List ℕ × ℕ) };

    ghost view = { λ table. pairs table.numbers.entries };
}

impl NameTable {
    pub fn new(alloc: Global) -> NameTable
        ensures { result ≡ [] }
    {
        NameTable {
            numbers: IndexMap::with_hasher(alloc, BuildHasherDefault::new()),
        }
    }

    /// The number that the name stands for, if the table has it.
    pub fn get(&self, name: &[u8]) -> Option<u32>
        ensures { result ≡ number_of self.now name.now }
    {
        match SmallVec::from_slice(*self.numbers.allocator(), name) {
            Ok(key) => self.find(&key),
            Err(_) => self.find_slowly(name),
        }
    }

    /// The same for a name as it is kept.
    #[inline(always)]
    fn find(&self, name: &SmallVec<u8, 16>) -> Option<u32>
        ensures { result ≡ number_of self.now (name.now).items }
    {
        self.numbers.get(name).copied()
    }

    /// The same with no memory: the names are gone through.
    #[inline(never)]
    fn find_slowly(&self, name: &[u8]) -> Option<u32>
        ensures { result ≡ number_of self.now name.now }
    {
        for place in 0..self.numbers.len() {
            if let Some((key, number)) = self.numbers.get_index(place) {
                if name == key.as_slice() {
                    return Some(*number);
                }
            }
        }
        None
    }

    /// Puts the name last, unless the table has it. A short name takes no memory of its own.
    pub fn add(&mut self, name: &[u8], number: u32) -> Result<(), Refusal>
        ensures ok { OnOk result (self.new ≡ with_name self.old name.now number) }
        ensures memory { IsOkUnless result Refusal.Memory }
    {
        let name = SmallVec::from_slice(*self.numbers.allocator(), name)?;
        put_name(&mut self.numbers, name, number)
    }
}

/// Puts the name last, unless the map has it. It is looked for once.
#[inline(always)]
fn put_name(
    numbers: &mut IndexMap<SmallVec<u8, 16>, u32, BuildHasherDefault<NameHasher>>,
    name: SmallVec<u8, 16>,
    number: u32,
) -> Result<(), Refusal>
    ensures ok { OnOk result (pairs numbers.new.entries ≡ with_name (pairs numbers.old.entries) name.items number) }
    ensures memory { IsOkUnless result Refusal.Memory }
{
    numbers.entry(name)?.or_insert(number);
    Ok(())
}
