//! Where the words of a line stand among its bytes.
//!
//! Proved: each function is the definition in `specs/Places.antt` that it names.

ghost use Rattle.std.specs.Prelude.{◌≡◌, ◌≤◌, ◌==◌, length, not};
ghost use Rattle.std.specs.List.{position};
ghost use Rattle.cpg_text.specs.Lines.{is_blank, is_edge, trimmed};
ghost use Rattle.cpg_hint.specs.Places.{edge_len, from_blank, from_word, from_word_at, place_in};

use cpg_text::trim;

/// The line from the word of that place among its words, and its end where it has no such word.
#[tactic(auto, using(crate::proofs::Placed::from_word_next))]
pub fn from_word_at(index: usize, line: &[u8]) -> &[u8]
    ensures { result.now ≡ from_word_at index line.now }
{
    let mut left = index;
    let mut rest = line;
    while left > 0 {
        rest = from_blank(from_word(rest));
        left -= 1;
    }
    from_word(rest)
}

fn from_word(line: &[u8]) -> &[u8]
    ensures { result.now ≡ from_word line.now }
{
    let mut rest = line;
    while let [byte, after @ ..] = rest {
        if !is_blank(*byte) {
            break;
        }
        rest = after;
    }
    rest
}

fn from_blank(line: &[u8]) -> &[u8]
    ensures { result.now ≡ from_blank line.now }
{
    let mut rest = line;
    while let [byte, after @ ..] = rest {
        if is_blank(*byte) {
            break;
        }
        rest = after;
    }
    rest
}

fn is_blank(byte: u8) -> bool
    ensures { result ≡ is_blank byte }
{
    byte == b' ' || byte == b'\t'
}

fn is_edge(byte: u8) -> bool
    ensures { result ≡ is_edge byte }
{
    is_blank(byte) || byte == b'\r'
}

/// The place among the bytes of a line where an end of it begins, which is trimmed with it.
pub fn place_in(line: &[u8], end: &[u8]) -> usize
    ensures { result ≡ place_in line.now end.now }
{
    edge_len(line) + trim(line).len().saturating_sub(end.len())
}

/// How many bytes stand before the first that is not trimmed.
fn edge_len(line: &[u8]) -> usize
    ensures len { result ≡ edge_len (position (λ byte. not (is_edge byte)) line.now) line.now }
    ensures within { result ≤ length line.now }
{
    match edge_end(line) {
        None => line.len(),
        Some(start) => start,
    }
}

fn edge_end(line: &[u8]) -> Option<usize>
    ensures { result ≡ position (λ byte. not (is_edge byte)) line.now }
{
    line.iter().position(|byte| !is_edge(*byte))
}
