//! How many there are at most.

ghost use Rattle.std.specs.Prelude.{◌≡◌};

/// How many members a group has at most.
pub const MOST_MEMBERS: usize = 128;

/// The limits, as numbers.
pub fn limits()
    ensures { MOST_MEMBERS ≡ 128 }
{}
