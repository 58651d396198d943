//! Which word of a line is the first that does not fit.
//!
//! Proved: it is that of the definition `first_unfit`.

ghost use Rattle.std.specs.Prelude.{◌≡◌, option_map};
ghost use Rattle.cpg_text.specs.Lines.{words_of};
ghost use Rattle.cpg_hint.specs.Patterns.{first_mismatch, reached, unmet, pattern_after, pattern_at};

use crate::fits::fits;
use crate::patterns::{Expected, call_pattern, op_pattern, run_pattern, step_pattern};
use cpg_text::Words;

/// A word that does not fit: its place among the words of its line, from 0, and what was wanted there.
#[derive(Debug, Clone, Copy, PartialEq, Eq)]
pub struct Mismatch {
    pub index: usize,
    pub expected: Expected,
}

/// The first word of a line that is not what is wanted, where there are so many nodes.
#[tactic(auto, using(crate::proofs::Counts::words_few))]
pub fn first_mismatch(nodes: u8, pattern: &'static [Expected], line: &[u8]) -> Option<Mismatch>
    ensures { result ≡ first_mismatch nodes 0 pattern.now (words_of line.now) }
{
    let mut pattern = pattern;
    let mut index = 0;
    for word in Words::of(line) {
        match pattern_at(nodes, pattern, word) {
            Ok(later) => pattern = later,
            Err(expected) => return Some(Mismatch { index, expected }),
        }
        index += 1;
    }
    unmet(index, pattern)
}

/// What is wanted after the word, or what it does not fit.
fn pattern_at(
    nodes: u8,
    pattern: &'static [Expected],
    word: &[u8],
) -> Result<&'static [Expected], Expected>
    ensures { reached result ≡ pattern_at nodes pattern.now word.now }
{
    match pattern {
        [] => Err(Expected::Nothing),
        [expected, later @ ..] => pattern_after(nodes, *expected, word, later).ok_or(*expected),
    }
}

/// What is wanted where no word is left.
fn unmet(index: usize, pattern: &[Expected]) -> Option<Mismatch>
    ensures { result ≡ unmet index pattern.now }
{
    match pattern {
        [] => None,
        [expected, ..] => Some(Mismatch {
            index,
            expected: *expected,
        }),
    }
}

/// What is wanted after the word, if it fits.
fn pattern_after(
    nodes: u8,
    expected: Expected,
    word: &[u8],
    later: &'static [Expected],
) -> Option<&'static [Expected]>
    ensures { option_map (λ pattern. pattern.now) result ≡ pattern_after nodes expected word.now later.now }
{
    match expected {
        Expected::Op => op_pattern(word),
        Expected::Call => call_pattern(word),
        Expected::StepCommand => step_pattern(word),
        Expected::RunCommand => run_pattern(word),
        _ => {
            if fits(nodes, expected, word) {
                Some(later)
            } else {
                None
            }
        }
    }
}
