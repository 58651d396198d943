//! What is told of one line.
//!
//! Proved: each function is the definition in `specs/Told.antt` that it names.

ghost use Rattle.std.specs.Prelude.{◌≡◌, ◌++◌, OnOk, IsOkUnless, option_map};
ghost use Rattle.cpg_text.specs.Lines.{lines_left};
ghost use Rattle.cpg_hint.specs.Told.{line_at, told_mismatch};

use crate::marks::put_marked;
use crate::phrases::put_expected;
use crate::places::{from_word_at, place_in};
use crate::words::Mismatch;
use cpg_cred::Refusal;
use cpg_text::{Lines, trim};
use std::alloc::Global;

/// The line of that number, the first of the lines having 1.
pub fn line_at(number: u32, lines: Lines<'_>) -> Option<&[u8]>
    ensures { option_map (λ line. line.now) result ≡ line_at number (lines_left (option_map (λ rest. rest.now) (lines.entry).rest)) }
{
    let mut left = number;
    for line in lines {
        if left == 1 {
            return Some(line);
        }
        left = left.saturating_sub(1);
    }
    None
}

/// Puts the line of that number with a mark under the word that does not fit, and what was wanted there, where there
/// are so many nodes.
pub fn put_mismatch(
    alloc: Global,
    text: &mut Vec<u8>,
    nodes: u8,
    number: u64,
    line: &[u8],
    mismatch: Mismatch,
) -> Result<(), Refusal>
    ensures ok { OnOk result (text.new.items ≡ text.old.items ++ told_mismatch nodes number line.now mismatch) }
    ensures memory { IsOkUnless result Refusal.Memory }
{
    let mut phrase = Vec::new(alloc);
    put_expected(&mut phrase, nodes, mismatch.expected)?;
    let place = place_in(line, from_word_at(mismatch.index, trim(line)));
    put_marked(alloc, text, number, line, place, phrase.as_slice())
}
