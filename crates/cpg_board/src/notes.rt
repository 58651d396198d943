//! What is known of a cell.

ghost use Rattle.std.specs.Prelude.{◌≡◌};

use once_cell::race::Note;

/// The note knows what the other knows. A note takes no bytes, so nothing is done when it runs.
pub(crate) fn learn<T>(note: &mut Note<T>, other: &Note<T>)
    ensures { note.new ≡ other.now }
{}
