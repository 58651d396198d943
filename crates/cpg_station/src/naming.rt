//! Which board it is.

use std::marker::Brand;

/// A type that names a board: its cells, for contracts alone. What carries it and lies behind a lock is of
/// that board whoever opens the lock.
pub trait BoardName {
    ghost use Rattle.std.specs.Prelude.{ℕ, List};

    ghost cells: { List ℕ };
}

/// The name that a program picks at a call, where it binds the cells.
impl BoardName for Brand {
    ghost use Rattle.std.specs.Prelude.{[]};

    ghost cells = { [] };
}
