//! Names of sessions.

ghost use Rattle.std.specs.Prelude.{IsOkUnless};

use cpg_cred::{NameHasher, Refusal};
use indexmap::IndexMap;
use std::alloc::Global;
use std::hash::BuildHasherDefault;

/// The numbers of named sessions; 0 where the last that was to have the name was refused.
#[derive(Drop)]
pub struct Names {
    numbers: IndexMap<Vec<u8>, u32, BuildHasherDefault<NameHasher>>,
}

/// Whether a word can be the name of a session: it begins with a letter.
pub fn is_name(word: &[u8]) -> bool {
    matches!(word, [b'a'..=b'z' | b'A'..=b'Z', ..])
}

impl Names {
    /// No session has a name.
    pub fn none(alloc: Global) -> Names {
        Names {
            numbers: IndexMap::with_hasher(alloc, BuildHasherDefault::new()),
        }
    }

    /// The number of the session of that name.
    pub fn number(&self, name: &[u8]) -> Option<u32> {
        self.numbers.get(name).copied()
    }

    /// Gives the session of that number the name, which no other has any more.
    pub fn give(&mut self, name: Vec<u8>, number: u32) -> Result<(), Refusal>
        ensures { IsOkUnless result Refusal.Memory }
    {
        self.numbers.insert(name, number)?;
        Ok(())
    }
}
