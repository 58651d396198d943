//! Lists that only grow, such as those of delivered and judged entries.

ghost use Rattle.std.specs.Prelude.{◌≡◌, ◌≤◌, ◌<◌, ◌+◌, OnOk, OnErr, IsOkUnless, vec_len, vec_capacity};

use cpg_rules::Refusal;

/// Gives the list three times as much room as it has items, where there is memory for so much.
#[inline(never)]
fn grow_fourfold<T>(list: &mut Vec<T>)
    ensures items { list.new.items ≡ list.old.items }
    ensures len { vec_len list.new ≡ vec_len list.old }
    ensures capacity { vec_capacity list.old ≤ vec_capacity list.new }
{
    let _ = list.reserve(list.len().saturating_mul(3));
}

/// Makes room for so many items more. A list that has not enough grows to four times its items: as it fills, each
/// item is copied a third of a time, and not once, as where it doubles. Where there is no memory for so much, it grows
/// as it has to. Refused with Memory only where the room was missing; what is in the list stays.
#[inline(always)]
pub fn reserve_ahead<T>(list: &mut Vec<T>, additional: usize) -> Result<(), Refusal>
    ensures items { list.new.items ≡ list.old.items }
    ensures len { vec_len list.new ≡ vec_len list.old }
    ensures ok { OnOk result (vec_len list.new + additional ≤ vec_capacity list.new) }
    ensures capacity { vec_capacity list.old ≤ vec_capacity list.new }
    ensures full { OnErr result (vec_capacity list.old < vec_len list.old + additional) }
    ensures memory { IsOkUnless result Refusal.Memory }
{
    if list.capacity() - list.len() < additional {
        grow_fourfold(list);
    }
    list.reserve(additional)?;
    Ok(())
}
