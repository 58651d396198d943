//! The names of groups.

ghost use Rattle.std.specs.Prelude.{◌≡◌, ◌↔◌, ℕ, List, IsTrue, IfOk, IsOkUnless};
ghost use Rattle.std.specs.Str.{bytes_eq};
ghost use Rattle.cpg_entry.specs.Names.{IsName, is_name};

use cpg_rules::Refusal;
use smallvec::SmallVec;
use std::alloc::Global;
use std::cmp::Ordering;
use std::hash::{Hash, Hasher};
use std::marker::Model;
use std::sync::Arc;

/// How many bytes a group's name has at most.
pub const MOST_NAME_BYTES: usize = 128;

/// How many bytes a name keeps beside the count of its owners: a longer one has a second block of memory.
const KEPT_INSIDE: usize = 16;

/// Whether the bytes may name a group: 1 to 128 of them, each a printing ASCII character (0x21 to 0x7E).
pub fn accepts_name(bytes: &[u8]) -> bool
    ensures rule { IsTrue result ↔ IsName bytes.now }
    ensures test { result ≡ is_name bytes.now }
{
    is_printing_name(bytes)
}

fn is_printing_name(bytes: &[u8]) -> bool
    ensures { IsTrue result ↔ IsName bytes.now }
{
    !bytes.is_empty()
        && bytes.len() <= MOST_NAME_BYTES
        && bytes.iter().all(|byte| *byte >= 0x21 && *byte <= 0x7e)
}

/// The rule of names and its test are the same.
pub fn names_pass()
    ensures { (bytes : List ℕ) → IsTrue (is_name bytes) ↔ IsName bytes }
{}

/// The name of a group, any bytes until `accepts_name` has tested them. Contracts see it as the list of
/// its bytes. Copies share them.
#[derive(Debug, Drop)]
pub struct Name {
    bytes: Arc<SmallVec<u8, KEPT_INSIDE>>,
}

impl Model for Name {
    ghost use Rattle.std.specs.Prelude.{List, ℕ};
    ghost use Rattle.std.specs.Arc.{arc_value};

    ghost Value = { List ℕ };

    ghost view = { λ name. (arc_value name.bytes).items };
}

impl Name {
    /// The name of those bytes.
    pub fn from_slice(alloc: Global, bytes: &[u8]) -> Result<Name, Refusal>
        ensures ok { IfOk result (λ name. name ≡ bytes.now) }
        ensures memory { IsOkUnless result Refusal.Memory }
    {
        let bytes = SmallVec::from_slice(alloc, bytes)?;
        Ok(Name {
            bytes: Arc::new(alloc, bytes)?,
        })
    }

    /// A name of the same bytes, which the two share.
    pub fn copy(&self, _alloc: Global) -> Result<Name, Refusal>
        ensures ok { IfOk result (λ name. name ≡ self.now) }
        ensures memory { IsOkUnless result Refusal.Memory }
    {
        Ok(Name {
            bytes: Arc::try_clone(&self.bytes)?,
        })
    }

    /// The bytes.
    pub fn as_slice(&self) -> &[u8]
        ensures { result.now ≡ self.now }
    {
        self.bytes.as_slice()
    }

    /// Whether those bytes are the name.
    pub fn is(&self, bytes: &[u8]) -> bool
        ensures { result ≡ bytes_eq self.now bytes.now }
    {
        self.bytes.as_slice() == bytes
    }

    /// Whether the names have the same bytes.
    pub fn equals(&self, other: &Name) -> bool
        ensures { IsTrue result ↔ (self.now ≡ other.now) }
    {
        *self == *other
    }
}

impl PartialEq for Name {
    ghost use Rattle.std.specs.Str.{bytes_eq};
    ghost use Rattle.std.proofs.Common.{rules};
    ghost use Rattle.std.specs.Cmp.Rules.{comparing};

    ghost eq = { bytes_eq };

    ghost laws = { Prim.search (comparing, rules) };

    fn eq(&self, other: &Name) -> bool {
        self.bytes.as_slice() == other.bytes.as_slice()
    }
}

impl Eq for Name {
    ghost use Rattle.std.proofs.Common.{rules};
    ghost use Rattle.std.specs.Cmp.Rules.{comparing};

    ghost laws = { Prim.search (comparing, rules) };
}

impl Hash for Name {
    ghost use Rattle.std.proofs.Common.{rules};
    ghost use Rattle.std.specs.Hash as fed;
    ghost use Rattle.std.specs.Cmp.Rules.{hashing};

    ghost hash_input = { fed.slice fed.u8 };

    ghost respects_eq = { Prim.search (hashing, rules) };

    fn hash<H: Hasher>(&self, state: &mut H) {
        self.bytes.as_slice().hash(state);
    }
}

impl PartialOrd for Name {
    ghost use Rattle.std.proofs.Common.{rules};
    ghost use Rattle.std.specs.Ordering.{nat_cmp, as_partial_cmp};
    ghost use Rattle.std.specs.Cmp.Lexicographic.{slice_cmp};
    ghost use Rattle.std.specs.Cmp.Rules.{comparing};

    ghost partial_cmp = { as_partial_cmp (slice_cmp nat_cmp) };

    ghost laws = { Prim.search (comparing, rules) };

    fn partial_cmp(&self, other: &Name) -> Option<Ordering> {
        Some(self.cmp(other))
    }
}

impl Ord for Name {
    ghost use Rattle.std.proofs.Common.{rules};
    ghost use Rattle.std.specs.Ordering.{nat_cmp};
    ghost use Rattle.std.specs.Cmp.Lexicographic.{slice_cmp};
    ghost use Rattle.std.specs.Cmp.Rules.{comparing};

    ghost cmp = { slice_cmp nat_cmp };

    ghost total = { Prim.search (comparing, rules) };

    ghost matches_partial_cmp = { Prim.search (comparing, rules) };

    ghost matches_eq = { Prim.search (comparing, rules) };

    fn cmp(&self, other: &Name) -> Ordering {
        self.bytes.as_slice().cmp(other.bytes.as_slice())
    }
}
