//! Arrays: items in brackets, with commas between them.
//!
//! Proved: what is put is the array of what its items are printed as.

ghost use Rattle.std.specs.Prelude.{◌≡◌, ◌++◌, map, OnOk, IsOkUnless};
ghost use Rattle.cpg_json.specs.Objects.{after_comma, array, field, joined, more};

use crate::objects::put_name;
use cpg_cred::Refusal;
use cpg_text::put;

/// What stands in an array.
pub trait Item {
    ghost use Rattle.std.specs.Prelude.{◌≡◌, ◌++◌, ℕ, List, OnOk, IsOkUnless};

    // How it is printed.
    ghost printed: { Self → List ℕ };

    /// Puts the item at the line's end.
    fn put_item(&self, line: &mut Vec<u8>) -> Result<(), Refusal>
        ensures ok { OnOk result (line.new.items ≡ line.old.items ++ printed self.now) }
        ensures memory { IsOkUnless result Refusal.Memory };
}

/// Puts the array of the items, as the field of that name, at the line's end.
#[tactic(auto, unfolding(crate::specs::Objects::after_comma, crate::specs::Objects::field))]
pub fn put_array<T: Item>(line: &mut Vec<u8>, name: &str, items: &[T]) -> Result<(), Refusal>
    ensures ok { OnOk result (line.new.items ≡ line.old.items ++ after_comma (field name.now (array (map T.printed items.now)))) }
    ensures memory { IsOkUnless result Refusal.Memory }
{
    put_name(line, name)?;
    put(line, "[")?;
    put_joined(line, items)?;
    put(line, "]")
}

/// Puts the items with commas between them at the line's end.
pub(crate) fn put_joined<T: Item>(line: &mut Vec<u8>, items: &[T]) -> Result<(), Refusal>
    ensures ok { OnOk result (line.new.items ≡ line.old.items ++ joined (map T.printed items.now)) }
    ensures memory { IsOkUnless result Refusal.Memory }
{
    match items {
        [] => Ok(()),
        [first, others @ ..] => {
            first.put_item(line)?;
            put_more(line, others)
        }
    }
}

/// Puts the items, each after a comma, at the line's end.
#[tactic(auto, unfolding(crate::specs::Objects::after_comma))]
fn put_more<T: Item>(line: &mut Vec<u8>, items: &[T]) -> Result<(), Refusal>
    ensures ok { OnOk result (line.new.items ≡ line.old.items ++ more (map T.printed items.now)) }
    ensures memory { IsOkUnless result Refusal.Memory }
{
    for item in items {
        put(line, ",")?;
        item.put_item(line)?;
    }
    Ok(())
}
