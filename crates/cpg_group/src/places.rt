//! Ascending places, and the records that stand at them.

ghost use Rattle.std.specs.Prelude.{◌≡◌, ◌≤◌, ℕ, List, Bool, length, take, nat_le, true, false, IsTrue};
ghost use Rattle.std.specs.List.{slice_get};
ghost use Rattle.std.specs.List.Sorted.{IsNonDecreasingBy, IsPartitionPoint};
ghost use Rattle.std.specs.Option.{option_copied};
ghost use Rattle.cpg_record.specs.declared.records.Record.{Record};
ghost use Rattle.cpg_record.specs.Judging.{AreJudged};
ghost use Rattle.cpg_record.specs.Membership.{members};
ghost use Rattle.cpg_record.specs.Nexts.{acts_in};
ghost use Rattle.cpg_record.specs.Places.{places_of, record_at, IsNextOf};
ghost use Rattle.cpg_group.specs.Places.{upto};
ghost use Rattle.cpg_group.specs.Standing.{listed};

use cpg_record::{Members, Record};

/// The record at the place, if one stands there.
pub(crate) fn find_record(records: &[Record], place: u32) -> Option<&Record>
    ensures { option_copied result ≡ record_at records.now place }
{
    if place == 0 {
        return None;
    }
    match records.get(place as usize - 1) {
        None => None,
        Some(past) => Some(past),
    }
}

/// What stands at a place. A place stands at itself.
pub(crate) trait Placed {
    ghost place_of: { Self → ℕ };

    /// The place.
    fn place(&self) -> u32
        ensures { result ≡ place_of self.now };
}

impl Placed for u32 {
    ghost place_of = { λ place. place };

    fn place(&self) -> u32 {
        *self
    }
}

/// How many of those that stand at ascending places come up to the last place, by a binary search.
pub(crate) fn cut_upto<T: Placed>(items: &[T], last: usize) -> usize
    ensures within { result ≤ length items.now }
    ensures cut { IsNonDecreasingBy T.place_of items.now → IsPartitionPoint (λ item. nat_le (T.place_of item) last ≡ true) (λ item. nat_le (T.place_of item) last ≡ false) items.now result }
{
    items.partition_point(|item| item.place() as usize <= last)
}

/// Whether the item at the index is there and stands at a place up to the last one.
#[inline(always)]
fn is_upto<T: Placed>(items: &[T], index: usize, last: usize) -> bool
    ensures { result ≡ upto T.place_of last (slice_get items.now index) }
{
    match items.get(index) {
        None => false,
        Some(item) => item.place() as usize <= last,
    }
}

/// Whether those before the index come up to the last place and the others do not, by the two beside it.
#[inline(always)]
fn is_cut<T: Placed>(items: &[T], index: usize, last: usize) -> bool
    ensures cut { IsTrue result → IsNonDecreasingBy T.place_of items.now → IsPartitionPoint (λ item. nat_le (T.place_of item) last ≡ true) (λ item. nat_le (T.place_of item) last ≡ false) items.now index }
    ensures within { IsTrue result → index ≤ length items.now }
{
    if is_upto(items, index, last) {
        return false;
    }
    index == 0 || is_upto(items, index - 1, last)
}

/// The same as `cut_upto`: at the hint or one behind it, where that is so, else by a binary search. A hint says
/// nothing of the items; it saves the search where it is near.
pub(crate) fn cut_near<T: Placed>(items: &[T], last: usize, hint: usize) -> usize
    ensures within { result ≤ length items.now }
    ensures cut { IsNonDecreasingBy T.place_of items.now → IsPartitionPoint (λ item. nat_le (T.place_of item) last ≡ true) (λ item. nat_le (T.place_of item) last ≡ false) items.now result }
{
    if is_cut(items, hint, last) {
        return hint;
    }
    let next = hint.saturating_add(1);
    if is_cut(items, next, last) {
        return next;
    }
    cut_upto(items, last)
}

/// The one of the ascending places that follows the first so many.
fn place_at(places: &[u32], index: usize) -> Option<u32>
    ensures { result ≡ slice_get places.now index }
{
    match places.get(index) {
        None => None,
        Some(place) => Some(*place),
    }
}

/// The first of the ascending places that is above the last one, and how many are before it: sought from a hint
/// at how many these are.
pub(crate) fn next_in(places: &[u32], last: usize, hint: usize) -> (Option<u32>, usize)
    ensures { (test : Record → Bool) (records : List Record) → places.now ≡ places_of test records → IsNextOf test records last result.0 }
{
    let passed = cut_near(places, last, hint);
    (place_at(places, passed), passed)
}

/// The members of a group after the last place, from the places of its allowed entries: the record at the
/// latest of them lists them. Where there is none, the group has no members.
pub(crate) fn find_members<'a>(
    records: &'a [Record],
    places: &[u32],
    group: &[u8],
    last: usize,
) -> Option<&'a Members>
    requires judged { AreJudged records.now }
    requires places { places.now ≡ places_of (acts_in group.now) records.now }
    ensures { listed (option_copied result) ≡ members (take last records.now) group.now }
{
    let passed = cut_upto(places, last);
    if passed == 0 {
        return None;
    }
    match find_record(records, places[passed - 1]) {
        None => None,
        Some(past) => Some(&past.members),
    }
}
