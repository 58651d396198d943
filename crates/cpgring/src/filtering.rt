//! The filter that the options of `judge` give.
//!
//! Proved: the filter is the one that the words of the options say, and none where a word says nothing.

ghost use Rattle.std.specs.Prelude.{◌≡◌, None, option_map, IfSome};
ghost use Rattle.clap.specs.Words.{found_of, first_value};
ghost use Rattle.cpg_print.specs.Entries.{conn_of_word};
ghost use Rattle.cpgring.specs.Filtering.{bound_of, group_named, kind_named, places_given, places_named, span_of, read_given, is_filtered, IsBadFilter, IsFilterGiven};

use crate::options::{CONNECTION, GROUP, ONLY, PLACES};
use crate::questions::read_conn;
use clap::ArgMatches;
use cpg_console::{Filter, Only};
use cpg_entry::accepts_name;
use cpg_record::ConnId;
use cpg_text::{cut, is, read_u32, strip_name};

/// Whether the options ask for a filter.
pub fn is_filtered(given: &ArgMatches<'_>) -> bool
    ensures { result ≡ is_filtered (found_of given.now) }
{
    given.get_str(ONLY).is_some()
        || given.get_str(GROUP).is_some()
        || given.get_str(CONNECTION).is_some()
        || given.get_str(PLACES).is_some()
}

/// The filter that the options give, where their words say one.
pub fn filter_of<'a>(given: &'a ArgMatches<'_>) -> Option<Filter<'a>>
    ensures given { IfSome result (IsFilterGiven (found_of given.now)) }
    ensures none { result ≡ None → IsBadFilter (found_of given.now) }
{
    let (first, last) = read_places(given.get_str(PLACES))?;
    Some(Filter {
        only: read_only(given.get_str(ONLY))?,
        group: read_group(given.get_str(GROUP))?,
        conn: read_connection(given.get_str(CONNECTION))?,
        first,
        last,
    })
}

/// The group that is asked for, if one is; its name is one that a group may have.
fn read_group(word: Option<&str>) -> Option<Option<&[u8]>>
    ensures { option_map (option_map (λ name. name.now)) result ≡ read_given group_named (option_map (λ text. text.now) word.entry) }
{
    match word {
        None => Some(None),
        Some(word) if accepts_name(word.as_bytes()) => Some(Some(word.as_bytes())),
        Some(_) => None,
    }
}

/// The kind that is asked for, if one is.
fn read_only(word: Option<&str>) -> Option<Option<Only>>
    ensures { result ≡ read_given kind_named (option_map (λ text. text.now) word.entry) }
{
    match word {
        None => Some(None),
        Some(word) => Some(Some(kind_of(word.as_bytes())?)),
    }
}

/// The kind of that name.
pub(crate) fn kind_of(word: &[u8]) -> Option<Only>
    ensures { result ≡ kind_named word.now }
{
    if is(word, b"denied") {
        Some(Only::Denied)
    } else if is(word, b"verdicts") {
        Some(Only::Verdicts)
    } else if is(word, b"messages") {
        Some(Only::Messages)
    } else if is(word, b"changes") {
        Some(Only::Changes)
    } else if is(word, b"rules") {
        Some(Only::Rules)
    } else {
        None
    }
}

/// The connection that is asked for, if one is.
fn read_connection(word: Option<&str>) -> Option<Option<ConnId>>
    ensures { result ≡ read_given conn_of_word (option_map (λ text. text.now) word.entry) }
{
    match word {
        None => Some(None),
        Some(word) => Some(Some(read_conn(word.as_bytes())?)),
    }
}

/// The first and the last place that is asked for; all, where none is.
pub(crate) fn read_places(word: Option<&str>) -> Option<(u32, u32)>
    ensures { result ≡ places_given (option_map (λ text. text.now) word.entry) }
{
    match word {
        None => Some((1, u32::MAX)),
        Some(word) => places_of(word.as_bytes()),
    }
}

/// The first and the last of the places `A..B`, `A..`, `..B` or `A`.
pub(crate) fn places_of(word: &[u8]) -> Option<(u32, u32)>
    ensures { result ≡ places_named word.now }
{
    match cut(b'.', word) {
        None => {
            let place = read_u32(1, u32::MAX, word)?;
            Some((place, place))
        }
        Some((first, rest)) => read_span(first, strip_name(b".", rest)?),
    }
}

fn read_span(first: &[u8], last: &[u8]) -> Option<(u32, u32)>
    ensures { result ≡ span_of first.now last.now }
{
    Some((read_bound(1, first)?, read_bound(u32::MAX, last)?))
}

/// The place that the word writes, and the usual one where it is empty.
fn read_bound(usual: u32, word: &[u8]) -> Option<u32>
    ensures { result ≡ bound_of usual word.now }
{
    if word.is_empty() {
        Some(usual)
    } else {
        read_u32(1, u32::MAX, word)
    }
}
