//! The rows of a picture that the options of `draw` ask for.
//!
//! Proved: they are those that the words of the options say, and none where a word says nothing.

ghost use Rattle.std.specs.Prelude.{◌≡◌, ◌↔◌, None, codes, option_map, IfSome};
ghost use Rattle.clap.specs.Words.{found_of, first_value};
ghost use Rattle.cpgring.specs.Asking.{IsExcerptGiven};
ghost use Rattle.cpgring.specs.Filtering.{in_order, rows_given, rows_named};

use crate::filtering::{places_of, read_places};
use crate::options::{FRAMES_ONLY, ROWS};
use clap::ArgMatches;
use cpg_console::Excerpt;

/// The excerpt that the options give, where their words say one.
pub fn excerpt_of(given: &ArgMatches<'_>) -> Option<Excerpt>
    ensures given { IfSome result (IsExcerptGiven (found_of given.now)) }
    ensures none { (result ≡ None) ↔ (rows_given (first_value (found_of given.now) (codes "rows")) ≡ None) }
{
    let (first, last) = read_rows(given.get_str(ROWS))?;
    Some(Excerpt {
        first: u64::from(first),
        last: u64::from(last),
        frames: given.get_flag(FRAMES_ONLY),
    })
}

/// The first and the last row that is asked for; all, where none is.
fn read_rows(word: Option<&str>) -> Option<(u32, u32)>
    ensures { result ≡ rows_given (option_map (λ text. text.now) word.entry) }
{
    in_order(read_places(word)?)
}

/// The first and the last of the rows `A..B`, `A..`, `..B` or `A`; A is not behind B.
pub(crate) fn rows_of(word: &[u8]) -> Option<(u32, u32)>
    ensures { result ≡ rows_named word.now }
{
    in_order(places_of(word)?)
}

/// The first and the last row, where the first is not behind the last.
fn in_order(rows: (u32, u32)) -> Option<(u32, u32)>
    ensures { result ≡ in_order rows }
{
    if rows.0 <= rows.1 { Some(rows) } else { None }
}
