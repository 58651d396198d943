//! The places that a token asks for.

ghost use Rattle.std.specs.Prelude.{◌≡◌, IfOk, IsOkUnless};

use cpg_rules::Refusal;
use std::alloc::Global;
use std::marker::Model;

/// The places that a token asks to be sent again (`rtr`). Contracts see it as their list.
#[derive(Debug, Drop)]
pub struct Places {
    places: Vec<u32>,
}

impl Model for Places {
    ghost use Rattle.std.specs.Prelude.{List, ℕ};

    ghost Value = { List ℕ };

    ghost view = { λ places. places.places.items };
}

impl Places {
    /// The list of those places.
    pub fn from_slice(alloc: Global, places: &[u32]) -> Result<Places, Refusal>
        ensures ok { IfOk result (λ copy. copy ≡ places.now) }
        ensures memory { IsOkUnless result Refusal.Memory }
    {
        Ok(Places {
            places: Vec::from_slice(alloc, places)?,
        })
    }

    /// The list of those places, which takes no memory.
    pub fn from_vec(places: Vec<u32>) -> Places
        ensures { result ≡ places.items }
    {
        Places { places }
    }

    /// A list of the same places.
    pub fn copy(&self, alloc: Global) -> Result<Places, Refusal>
        ensures ok { IfOk result (λ copy. copy ≡ self.now) }
        ensures memory { IsOkUnless result Refusal.Memory }
    {
        Places::from_slice(alloc, self.as_slice())
    }

    /// The places.
    pub fn as_slice(&self) -> &[u32]
        ensures { result.now ≡ self.now }
    {
        self.places.as_slice()
    }
}

impl PartialEq for Places {
    ghost use Rattle.std.specs.Str.{bytes_eq};
    ghost use Rattle.std.proofs.Common.{rules};
    ghost use Rattle.std.specs.Cmp.Rules.{comparing};

    ghost eq = { bytes_eq };

    ghost laws = { Prim.search (comparing, rules) };

    fn eq(&self, other: &Places) -> bool {
        self.places.as_slice() == other.places.as_slice()
    }
}

impl Eq for Places {
    ghost use Rattle.std.proofs.Common.{rules};
    ghost use Rattle.std.specs.Cmp.Rules.{comparing};

    ghost laws = { Prim.search (comparing, rules) };
}
