//! An item at a list's end.

ghost use Rattle.std.specs.Prelude.{◌≡◌, ◌++◌, ◌∷◌, [], OnOk, IsOkUnless};

use cpg_cred::Refusal;

/// Puts the item at the list's end. Where the list has room it is put without a call, so that a byte of a line costs
/// little.
#[inline(always)]
pub fn push_item<T: Copy>(list: &mut Vec<T>, item: T) -> Result<(), Refusal>
    ensures ok { OnOk result (list.new.items ≡ list.old.items ++ item ∷ []) }
    ensures memory { IsOkUnless result Refusal.Memory }
{
    if list.len() < list.capacity() {
        list.push_reserved(item);
        return Ok(());
    }
    push_growing(list, item)
}

/// The same, where memory may have to be asked for.
#[inline(never)]
fn push_growing<T: Copy>(list: &mut Vec<T>, item: T) -> Result<(), Refusal>
    ensures ok { OnOk result (list.new.items ≡ list.old.items ++ item ∷ []) }
    ensures memory { IsOkUnless result Refusal.Memory }
{
    list.push(item)?;
    Ok(())
}
