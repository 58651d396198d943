//! The number at the front of a line.
//!
//! Proved: the number that is taken is the one that the definition `number_in` finds in the first word, and
//! the words that are left are those after it. A short number is read while its end is looked for.

ghost use Rattle.std.specs.Prelude.{◌≡◌, ◌<◌, ◌≤◌, length, take, true, option_map};
ghost use Rattle.std.specs.Char.{is_ascii_digit};
ghost use Rattle.std.specs.List.{list_all};
ghost use Rattle.cpg_text.specs.Lines.{words_of};
ghost use Rattle.cpg_text.specs.Numbers.{value_of, first_number};

use crate::lines::is_blank;
use crate::numbers::read_number;
use crate::words::{first_word, skip_blanks};

/// The number of at most 4294967295 that the first word of the line writes, and what follows that word. There
/// is none where there is no word, or where it writes no such number.
#[inline(always)]
pub fn take_number(line: &[u8]) -> Option<(u32, &[u8])>
    ensures { option_map (λ found. (found.0, words_of found.1.now)) result ≡ first_number (words_of line.now) }
{
    let line = skip_blanks(line);
    let (number, end) = first_digits(line);
    if end < line.len() && is_blank(line[end]) {
        return Some((number, &line[end + 1..]));
    }
    if end > 0 && end == line.len() {
        return Some((number, &[]));
    }
    take_slowly(line)
}

/// The number that the digits at the line's front write, nine at most, and where they end.
#[inline(always)]
pub fn first_digits(line: &[u8]) -> (u32, usize)
    ensures digits { list_all is_ascii_digit (take result.1 line.now) ≡ true }
    ensures value { result.0 ≡ value_of (take result.1 line.now) }
    ensures small { result.0 < 1000000000 }
    ensures within { result.1 ≤ length line.now }
{
    let most = line.len().min(9);
    let mut number = 0u32;
    let mut end = 0;
    while end < most && line[end].is_ascii_digit() {
        number = number * 10 + u32::from(line[end] - b'0');
        end += 1;
    }
    (number, end)
}

/// The same for any word: it is found first, and then read.
#[inline(never)]
fn take_slowly(line: &[u8]) -> Option<(u32, &[u8])>
    ensures { option_map (λ found. (found.0, words_of found.1.now)) result ≡ first_number (words_of line.now) }
{
    let (word, rest) = first_word(line)?;
    let number = read_number(0, u64::from(u32::MAX), word)?;
    Some((number as u32, rest))
}
