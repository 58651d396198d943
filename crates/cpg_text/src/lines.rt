//! Lines.
//!
//! Lines end at LF, and the last may lack it; space, tab and CR are trimmed. Proved: each function is the
//! definition in `specs/Lines.antt` that it names.

ghost use Rattle.std.specs.Prelude.{◌≡◌, ◌==◌, ◌∷◌, not, ℕ, List, length, option_map};
ghost use Rattle.std.specs.List.{position};
ghost use Rattle.std.specs.Iterator.{YieldsFirstRef, item_count};
ghost use Rattle.cpg_text.specs.Lines.{is_line_feed, is_blank, is_edge, lines_of, lines_left, trimmed_front, trimmed_end, trimmed, is_ignored};

use crate::places::place_of;

/// The lines of a text, first to last, without their line feeds.
#[derive(Drop)]
pub struct Lines<'a> {
    /// What follows the lines that were taken; none where the last was.
    pub rest: Option<&'a [u8]>,
}

impl<'a> Lines<'a> {
    /// The lines of the text; after a last LF there is an empty one.
    pub fn of(text: &'a [u8]) -> Lines<'a>
        ensures { lines_left (option_map (λ rest. rest.now) result.rest) ≡ lines_of text.now }
    {
        Lines { rest: Some(text) }
    }
}

impl<'a> Iterator for Lines<'a> {
    type Item = &'a [u8];

    ghost next_gives = { YieldsFirstRef (λ lines. lines_left (option_map (λ rest. rest.now) lines.rest)) };

    ghost remaining = { item_count (λ lines. lines_left (option_map (λ rest. rest.now) lines.rest)) };

    fn next(&mut self) -> Option<&'a [u8]> {
        let (line, rest) = first_line(self.rest?);
        self.rest = rest;
        Some(line)
    }
}

/// The first line, and what is left.
#[tactic(auto, using(crate::proofs::Texts::first_of_lines, crate::proofs::Texts::last_of_lines))]
fn first_line(text: &[u8]) -> (&[u8], Option<&[u8]>)
    ensures { lines_of text.now ≡ result.0.now ∷ lines_left (option_map (λ rest. rest.now) result.1) }
{
    match place_of(b'\n', text) {
        None => (text, None),
        Some(end) => (&text[..end], Some(&text[end + 1..])),
    }
}

/// The line without the space, tab and CR at both ends.
pub fn trim(line: &[u8]) -> &[u8]
    ensures { result.now ≡ trimmed line.now }
{
    trim_end(trim_front(line))
}

fn trim_front(line: &[u8]) -> &[u8]
    ensures { result.now ≡ trimmed_front line.now }
{
    match word_start(line) {
        None => &[],
        Some(start) => &line[start..],
    }
}

fn word_start(line: &[u8]) -> Option<usize>
    ensures { result ≡ position (λ byte. not (is_edge byte)) line.now }
{
    line.iter().position(|byte| !is_edge(*byte))
}

fn trim_end(line: &[u8]) -> &[u8]
    ensures { result.now ≡ trimmed_end line.now }
{
    let mut end = line.len();
    while end > 0 && is_edge(line[end - 1]) {
        end -= 1;
    }
    &line[..end]
}

fn is_edge(byte: u8) -> bool
    ensures { result ≡ is_edge byte }
{
    is_blank(byte) || byte == b'\r'
}

/// Whether the byte is a space or a tab.
pub fn is_blank(byte: u8) -> bool
    ensures { result ≡ is_blank byte }
{
    byte <= b' ' && (byte == b' ' || is_tab(byte))
}

/// It stands apart, so that most bytes are told by one comparison.
#[inline(never)]
fn is_tab(byte: u8) -> bool
    ensures { result ≡ (byte == 9) }
{
    byte == b'\t'
}

/// Whether a trimmed line says nothing: it is empty, or begins with `#`.
pub fn is_ignored(line: &[u8]) -> bool
    ensures { result ≡ is_ignored line.now }
{
    match line {
        [] => true,
        [byte, ..] => *byte == b'#',
    }
}
