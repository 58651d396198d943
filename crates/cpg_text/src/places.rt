//! The first place of a byte, found by blocks.
//!
//! Proved: the place is the first, and where none is told the byte stands nowhere.

ghost use Rattle.std.specs.Prelude.{◌≡◌, ◌==◌, map};
ghost use Rattle.std.specs.List.{position};
ghost use Rattle.cpg_text.specs.Lines.{is_blank};
ghost use Rattle.std.specs.Simd.Lanes.{mask_l};

use crate::lines::is_blank;
use memchr::{memchr, memchr2};
use std::simd::prelude::*;

/// The first place of the byte in the text, if it stands there. Most often that is near, so that one block is
/// looked at first.
#[inline(always)]
pub fn place_of(byte: u8, text: &[u8]) -> Option<usize>
    ensures { result ≡ position (λ item. item == byte) text.now }
{
    if text.len() >= 32 {
        let found = places_in_32(byte, u8x32::from_slice(text));
        if found != 0 {
            return Some(found.trailing_zeros() as usize);
        }
    }
    place_far(byte, text)
}

/// The same, where the place may be far.
#[inline(never)]
#[tactic(auto, using(crate::proofs::Feeds::first_place))]
fn place_far(byte: u8, text: &[u8]) -> Option<usize>
    ensures { result ≡ position (λ item. item == byte) text.now }
{
    memchr(byte, text)
}

/// The first place of a space or a tab in the line, if there is one.
pub fn place_of_blank(line: &[u8]) -> Option<usize>
    ensures { result ≡ position is_blank line.now }
{
    if line.len() < 32 {
        return blank_in_few(line);
    }
    let found = blanks_in_32(u8x32::from_slice(line));
    if found != 0 {
        return Some(found.trailing_zeros() as usize);
    }
    blank_far(line)
}

/// The same for a few bytes.
#[inline(always)]
fn blank_in_few(line: &[u8]) -> Option<usize>
    ensures { result ≡ position is_blank line.now }
{
    line.iter().position(|byte| is_blank(*byte))
}

/// The same, where the place may be far.
#[inline(never)]
#[tactic(auto, using(crate::proofs::Feeds::first_blank))]
fn blank_far(line: &[u8]) -> Option<usize>
    ensures { result ≡ position is_blank line.now }
{
    memchr2(b' ', b'\t', line)
}

/// A bit for each place of a space or a tab, the first lowest.
#[inline(always)]
fn blanks_in_32(block: u8x32) -> u64
    ensures { result ≡ mask_l (map is_blank block) }
{
    (block.simd_eq(u8x32::splat(b' ')) | block.simd_eq(u8x32::splat(b'\t'))).to_bitmask()
}

/// A bit for each place of the byte, the first lowest.
#[inline(always)]
fn places_in_32(byte: u8, block: u8x32) -> u64
    ensures { result ≡ mask_l (map (λ item. item == byte) block) }
{
    block.simd_eq(u8x32::splat(byte)).to_bitmask()
}
