//! Runs of plain bytes, found by blocks.
//!
//! Proved: a run ends where the first byte stands that can't stand for itself.

ghost use Rattle.std.specs.Prelude.{◌≡◌, ◌&&◌, ◌+◌, ◌-◌, ◌≤◌, ◌<◌, ◌++◌, IsTrue, length, take, drop, map};
ghost use Rattle.std.specs.List.{list_all, prefix_len};
ghost use Rattle.std.specs.Simd.Lanes.{mask_l};
ghost use Rattle.cpg_text.specs.Percent.{is_plain};
ghost use Rattle.cpg_text.specs.Steps.{is_low, is_odd};

use std::simd::prelude::*;

/// How many bytes stand before the text's first that is not plain.
#[inline(always)]
pub fn plain_run(text: &[u8]) -> usize
    ensures value { result ≡ prefix_len is_plain text.now }
    ensures within { result ≤ length text.now }
{
    if text.len() >= 16 {
        return run_of_long(text);
    }
    if has_plain_ends(text) {
        return text.len();
    }
    run_slowly(text)
}

/// Whether a text of 4 to 15 bytes is known to be plain, by its first and its last bytes, which meet.
#[inline(always)]
fn has_plain_ends(text: &[u8]) -> bool
    requires { length text.now < 16 }
    ensures { IsTrue result → prefix_len is_plain text.now ≡ length text.now }
{
    match text.len() {
        0..4 => false,
        4..8 => odd_of(ends_of_4(text)) == 0,
        _ => odd_of(ends_of_8(text)) == 0,
    }
}

/// The first four bytes and the last four.
#[inline(always)]
fn ends_of_4(text: &[u8]) -> u8x8
    requires { 4 ≤ length text.now }
    ensures { result ≡ take 4 text.now ++ take 4 (drop (length text.now - 4) text.now) }
{
    let last = u8x4::from_slice(&text[text.len() - 4..]);
    u8x4::from_slice(text).shuffle(last, [0, 1, 2, 3, 4, 5, 6, 7])
}

/// The first eight bytes and the last eight.
#[inline(always)]
fn ends_of_8(text: &[u8]) -> u8x16
    requires { 8 ≤ length text.now }
    ensures { result ≡ take 8 text.now ++ take 8 (drop (length text.now - 8) text.now) }
{
    let last = u8x8::from_slice(&text[text.len() - 8..]);
    u8x8::from_slice(text).shuffle(last, [0, 1, 2, 3, 4, 5, 6, 7, 8, 9, 10, 11, 12, 13, 14, 15])
}

/// How many bytes stand before the first that is not plain, by blocks. It stands apart, since most texts are
/// short.
#[inline(never)]
fn run_of_long(text: &[u8]) -> usize
    requires { 16 ≤ length text.now }
    ensures value { result ≡ prefix_len is_plain text.now }
    ensures within { result ≤ length text.now }
{
    let mut run = 0;
    while text.len() - run > 16 {
        let odd = odd_of(u8x16::from_slice(&text[run..]));
        if odd != 0 {
            return run + odd.trailing_zeros() as usize;
        }
        run = skip_plain(text, run + 16);
    }
    end_of_run(text)
}

/// The same where the text is plain up to its last block, which may overlap those that were looked at.
#[inline(always)]
fn end_of_run(text: &[u8]) -> usize
    requires room { 16 ≤ length text.now }
    requires plain { length text.now ≤ 16 + prefix_len is_plain text.now }
    ensures value { result ≡ prefix_len is_plain text.now }
    ensures within { result ≤ length text.now }
{
    let last = text.len() - 16;
    let odd = odd_of(u8x16::from_slice(&text[last..]));
    if odd == 0 {
        text.len()
    } else {
        last + odd.trailing_zeros() as usize
    }
}

/// The place past the blocks of plain bytes that stand there. One of 64 is looked at first, so that a text whose runs are
/// short pays for no longer ones.
#[inline(always)]
fn skip_plain(text: &[u8], from: usize) -> usize
    requires { from ≤ length text.now }
    ensures value { result + prefix_len is_plain (drop result text.now) ≡ from + prefix_len is_plain (drop from text.now) }
    ensures forth { from ≤ result }
    ensures within { result ≤ length text.now }
{
    if text.len() - from < 64 || !are_low(highest_of_64(text, from)) {
        return from;
    }
    skip_by_64(text, skip_by_256(text, from + 64))
}

/// The place past the blocks of 256 plain bytes that stand there.
#[inline(always)]
fn skip_by_256(text: &[u8], from: usize) -> usize
    requires { from ≤ length text.now }
    ensures value { result + prefix_len is_plain (drop result text.now) ≡ from + prefix_len is_plain (drop from text.now) }
    ensures forth { from ≤ result }
    ensures within { result ≤ length text.now }
{
    let mut place = from;
    while text.len() - place >= 256 {
        if !are_low(highest_of_256(text, place)) {
            return place;
        }
        place += 256;
    }
    place
}

/// The place past the blocks of 64 plain bytes that stand there.
#[inline(always)]
fn skip_by_64(text: &[u8], from: usize) -> usize
    requires { from ≤ length text.now }
    ensures value { result + prefix_len is_plain (drop result text.now) ≡ from + prefix_len is_plain (drop from text.now) }
    ensures forth { from ≤ result }
    ensures within { result ≤ length text.now }
{
    let mut place = from;
    while text.len() - place >= 64 {
        if !are_low(highest_of_64(text, place)) {
            return place;
        }
        place += 64;
    }
    place
}

/// How many bytes stand before the first that is not plain, byte by byte.
#[inline(always)]
fn run_slowly(text: &[u8]) -> usize
    ensures value { result ≡ prefix_len is_plain text.now }
    ensures within { result ≤ length text.now }
{
    let mut place = 0;
    while place < text.len() && is_plain(text[place]) {
        place += 1;
    }
    place
}

/// A bit for each byte that is not plain, the first lowest.
#[inline(always)]
fn odd_of<const N: usize>(block: Simd<u8, N>) -> u64
    requires { N ≤ 64 }
    ensures { result ≡ mask_l (map is_odd block.entry) }
{
    let shifted = block - Simd::splat(b'!');
    (shifted.simd_ge(Simd::splat(94)) | shifted.simd_eq(Simd::splat(4))).to_bitmask()
}

/// How far the 256 bytes from there stand past `%`, the furthest of each 16. One maximum over all tells whether they are
/// plain and past `%`: so `!` to `$`, which are plain, are left to a closer look.
#[inline(always)]
fn highest_of_256(text: &[u8], from: usize) -> u8x16
    requires { from + 256 ≤ length text.now }
    ensures { IsTrue (list_all is_low result) → prefix_len is_plain (drop from text.now) ≡ 256 + prefix_len is_plain (drop (from + 256) text.now) }
{
    let first = higher_of(highest_of_64(text, from), highest_of_64(text, from + 64));
    let last = higher_of(
        highest_of_64(text, from + 128),
        highest_of_64(text, from + 192),
    );
    higher_of(first, last)
}

/// How far the 64 bytes from there stand past `%`, the furthest of each 4.
#[inline(always)]
fn highest_of_64(text: &[u8], from: usize) -> u8x16
    requires { from + 64 ≤ length text.now }
    ensures { IsTrue (list_all is_low result) → prefix_len is_plain (drop from text.now) ≡ 64 + prefix_len is_plain (drop (from + 64) text.now) }
{
    let first = higher_of(
        past_percent_at(text, from),
        past_percent_at(text, from + 16),
    );
    let last = higher_of(
        past_percent_at(text, from + 32),
        past_percent_at(text, from + 48),
    );
    higher_of(first, last)
}

/// Whether all the bytes, past `%` so far, are plain.
#[inline(always)]
fn are_low(block: u8x16) -> bool
    ensures { result ≡ list_all is_low block }
{
    !block.simd_gt(Simd::splat(b'~' - b'&')).any()
}

/// The higher byte of both blocks at each place.
#[inline(always)]
fn higher_of(one: u8x16, two: u8x16) -> u8x16
    ensures { list_all is_low result ≡ list_all is_low one && list_all is_low two }
{
    one.simd_max(two)
}

/// How far each byte stands past `%`; one that doesn't stands further than all that are plain.
#[inline(always)]
fn past_percent(block: u8x16) -> u8x16
    ensures { IsTrue (list_all is_low result) → mask_l (map is_odd block) ≡ 0 }
{
    block - Simd::splat(b'&')
}

/// How far the 16 bytes from there stand past `%`.
#[inline(always)]
fn past_percent_at(text: &[u8], from: usize) -> u8x16
    requires { from + 16 ≤ length text.now }
    ensures { IsTrue (list_all is_low result) → prefix_len is_plain (drop from text.now) ≡ 16 + prefix_len is_plain (drop (from + 16) text.now) }
{
    past_percent(u8x16::from_slice(&text[from..]))
}

/// Whether the byte stands for itself.
#[inline(always)]
pub fn is_plain(byte: u8) -> bool
    ensures { result ≡ is_plain byte }
{
    byte >= b'!' && byte <= b'~' && byte != b'%'
}
