//! The lines of entries, by the numbers of a script's lines that hold one; and records at their places.

ghost use Rattle.std.specs.Prelude.{◌≡◌, ◌≤◌};
ghost use Rattle.std.specs.Option.{option_copied};
ghost use Rattle.cpg_record.specs.Places.{record_at};
ghost use Rattle.cpg_why.specs.Scripts.{line_at};

use cpg_record::Record;

/// The number of the line of the entry at a place, where it has one.
pub fn line_of(numbers: &[u32], place: u32) -> Option<u32>
    requires { 1 ≤ place }
    ensures { result ≡ line_at numbers.now place }
{
    numbers.get(place as usize - 1).copied()
}

/// The record at a place, if one stands there.
pub fn find_record(records: &[Record], place: u32) -> Option<&Record>
    ensures { option_copied result ≡ record_at records.now place }
{
    records.get((place as usize).checked_sub(1)?)
}
