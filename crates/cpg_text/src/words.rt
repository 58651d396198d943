//! Words.
//!
//! Words stand between spaces and tabs. Proved: the words that are taken, one after the other, are those of
//! the definition `words_of`.

ghost use Rattle.std.specs.Prelude.{◌≡◌, ◌<◌, ◌∷◌, [], ℕ, List, length, map, take, option_map, MatchOption};
ghost use Rattle.std.specs.Iterator.{YieldsFirstRef, item_count};
ghost use Rattle.cpg_text.specs.Lines.{only, words_of};
ghost use Rattle.cpg_text.specs.Steps.{StartsWord};

use crate::lines::is_blank;
use crate::places::place_of_blank;
use arrayvec::ArrayVec;

/// The words of a line, first to last.
#[derive(Drop)]
pub struct Words<'a> {
    /// What follows the words that were taken.
    pub rest: &'a [u8],
}

impl<'a> Words<'a> {
    /// The words of the line.
    pub fn of(line: &'a [u8]) -> Words<'a>
        ensures { words_of result.rest.now ≡ words_of line.now }
    {
        Words { rest: line }
    }
}

impl<'a> Iterator for Words<'a> {
    type Item = &'a [u8];

    ghost next_gives = { YieldsFirstRef (λ words. words_of words.rest.now) };

    ghost remaining = { item_count (λ words. words_of words.rest.now) };

    fn next(&mut self) -> Option<&'a [u8]> {
        let (word, rest) = first_word(self.rest)?;
        self.rest = rest;
        Some(word)
    }
}

/// The first word, and what follows it. One byte before a space, as most numbers of nodes are, is taken where it
/// stands.
#[inline(always)]
pub fn take_word(line: &[u8]) -> Option<(&[u8], &[u8])>
    ensures { MatchOption result (words_of line.now ≡ []) (λ parts. words_of line.now ≡ parts.0.now ∷ words_of parts.1.now) }
{
    if line.len() > 1 && line[1] == b' ' && !is_blank(line[0]) {
        return Some((&line[..1], &line[2..]));
    }
    first_word(line)
}

/// The word of a line that has no other; one byte is taken as it stands.
#[inline(always)]
pub fn only_word(line: &[u8]) -> Option<&[u8]>
    ensures { option_map (λ word. word.now) result ≡ only (words_of line.now) }
{
    if line.len() == 1 && !is_blank(line[0]) {
        return Some(line);
    }
    let (word, rest) = first_word(line)?;
    match first_word(rest) {
        None => Some(word),
        Some(_) => None,
    }
}

/// The first word, and what follows it.
pub(crate) fn first_word(line: &[u8]) -> Option<(&[u8], &[u8])>
    ensures { MatchOption result (words_of line.now ≡ []) (λ parts. words_of line.now ≡ parts.0.now ∷ words_of parts.1.now) }
{
    let line = skip_blanks(line);
    if line.is_empty() {
        return None;
    }
    match place_of_blank(line) {
        None => Some((line, &[])),
        Some(end) => Some((&line[..end], &line[end + 1..])),
    }
}

/// The line from its first byte that is not blank.
pub(crate) fn skip_blanks(line: &[u8]) -> &[u8]
    ensures same { words_of result.now ≡ words_of line.now }
    ensures start { StartsWord result.now }
{
    let mut rest = line;
    while let [byte, after @ ..] = rest {
        if !is_blank(*byte) {
            break;
        }
        rest = after;
    }
    rest
}

/// The first words of a line, at most `N`, in room of their own. One word more than a shape has room for tells
/// that a line is too long.
pub fn take_words<const N: usize>(line: &[u8]) -> ArrayVec<&[u8], N>
    ensures { map (λ word. word.now) result.items ≡ take N (words_of line.now) }
{
    let mut words = ArrayVec::new();
    let mut rest = line;
    for _ in 0..N {
        let Some((word, after)) = first_word(rest) else {
            break;
        };
        words.push(word);
        rest = after;
    }
    words
}
