//! Where the names of groups that lines say come from.

use cpg_cred::Refusal;
use cpg_entry::Name;
use std::alloc::Global;

/// Gives the name of a group by its bytes.
pub trait GivesNames {
    ghost use Rattle.std.specs.Prelude.{◌≡◌, IfOk, IsOkUnless};

    /// The name of those bytes, made anew, or shared with whoever has it already.
    fn name(&self, alloc: Global, bytes: &[u8]) -> Result<Name, Refusal>
        ensures ok { IfOk result (λ name. name ≡ bytes.now) }
        ensures memory { IsOkUnless result Refusal.Memory };
}

/// Makes each name anew.
#[derive(Debug, Clone, Copy)]
pub struct NewNames;

impl GivesNames for NewNames {
    fn name(&self, alloc: Global, bytes: &[u8]) -> Result<Name, Refusal> {
        Name::from_slice(alloc, bytes)
    }
}
