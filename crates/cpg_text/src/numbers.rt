//! Numbers as digits, both ways.
//!
//! A number is ASCII digits alone, leading zeros allowed. Proved: `read_number` is the definition
//! `number_in`, however long the word; `push_number` prints a number without leading zeros.

ghost use Rattle.std.specs.Prelude.{◌≡◌, ◌+◌, ◌/◌, ◌%◌, ◌<◌, ◌≤◌, ◌++◌, length, decimal, Some, OnOk, IsOkUnless};
ghost use Rattle.std.specs.Char.{is_ascii_digit};
ghost use Rattle.std.specs.List.{list_all};
ghost use Rattle.cpg_text.specs.Numbers.{is_number, number_in};
ghost use Rattle.cpg_text.specs.Steps.{one_digit, one_more, read_digits, read_on};

use crate::items::push_item;
use cpg_cred::Refusal;
use itoa::Buffer;
use std::alloc::AllocError;

/// Whether the word is ASCII digits alone, one at least.
pub fn is_number(word: &[u8]) -> bool
    ensures { result ≡ is_number word.now }
{
    !word.is_empty() && has_digits_alone(word)
}

fn has_digits_alone(word: &[u8]) -> bool
    ensures { result ≡ list_all is_ascii_digit word.now }
{
    word.iter().all(|byte| byte.is_ascii_digit())
}

/// The number that the word writes, where it writes one that is `low` to `high`.
#[tactic(auto, using(crate::proofs::Digits::read_on_is, crate::proofs::Digits::number_found))]
pub fn read_number(low: u64, high: u64, word: &[u8]) -> Option<u64>
    ensures { result ≡ number_in low high word.now }
{
    if word.is_empty() {
        return None;
    }
    let number = read_on(high, word)?;
    if low <= number { Some(number) } else { None }
}

/// The number that the digits write, where it is at most `most`.
fn read_on(most: u64, word: &[u8]) -> Option<u64>
    ensures { result ≡ read_on most (Some 0) word.now }
{
    if word.len() <= 9 {
        read_short(most, word)
    } else {
        read_long(most, word)
    }
}

/// The number that at most nine digits write, where it is at most `most`.
#[tactic(auto, using(crate::proofs::Digits::short_none, crate::proofs::Digits::short_some))]
fn read_short(most: u64, word: &[u8]) -> Option<u64>
    requires { length word.now ≤ 9 }
    ensures { result ≡ read_on most (Some 0) word.now }
{
    short_value(word).filter(|number| *number <= most)
}

/// The number that at most nine digits write: it can't pass what a `u64` holds.
#[tactic(auto, using(crate::proofs::Digits::digit_more))]
fn short_value(word: &[u8]) -> Option<u64>
    requires { length word.now ≤ 9 }
    ensures { result ≡ read_digits (Some 0) word.now }
{
    let mut number = 0u64;
    for byte in word {
        number = one_digit(number, *byte)?;
    }
    Some(number)
}

/// The number after one digit more.
fn one_digit(number: u64, byte: u8) -> Option<u64>
    requires { number < 100000000 }
    ensures { result ≡ one_digit number byte }
{
    if byte.is_ascii_digit() {
        Some(number * 10 + u64::from(byte - b'0'))
    } else {
        None
    }
}

/// The number that the digits write, however many there are, where it is at most `most`.
fn read_long(most: u64, word: &[u8]) -> Option<u64>
    ensures { result ≡ read_on most (Some 0) word.now }
{
    let mut number = 0u64;
    for byte in word {
        number = one_more(most, number, *byte)?;
    }
    Some(number)
}

/// The number after one digit more, where it is at most `most`.
fn one_more(most: u64, number: u64, byte: u8) -> Option<u64>
    ensures { result ≡ one_more most number byte }
{
    if !byte.is_ascii_digit() {
        return None;
    }
    let digit = u64::from(byte - b'0');
    let number = number.checked_mul(10)?.checked_add(digit)?;
    if number <= most { Some(number) } else { None }
}

/// Puts the number at the line's end, without leading zeros.
#[tactic(auto, using(std::proofs::lemmas::Fmt::decimal_digit))]
#[inline(always)]
pub fn push_number(line: &mut Vec<u8>, number: u64) -> Result<(), Refusal>
    ensures ok { OnOk result (line.new.items ≡ line.old.items ++ decimal number) }
    ensures memory { IsOkUnless result Refusal.Memory }
{
    if number >= 100_000 {
        push_long(line, number)?;
        return Ok(());
    }
    if number >= 10 {
        return push_short(line, number as u32);
    }
    push_item(line, b'0' + number as u8)
}

/// The same for two to five digits, as most numbers have.
#[inline(always)]
fn push_short(line: &mut Vec<u8>, number: u32) -> Result<(), Refusal>
    requires { (10 ≤ number) × (number < 100000) }
    ensures ok { OnOk result (line.new.items ≡ line.old.items ++ decimal number) }
    ensures memory { IsOkUnless result Refusal.Memory }
{
    push_digits(line, number)?;
    Ok(())
}

/// The same, all digits at once: a line with no room for five takes them by the buffer, so that it grows
/// nowhere else.
#[inline(never)]
#[tactic(auto, using(crate::proofs::Decimals::two, crate::proofs::Decimals::three, crate::proofs::Decimals::four, crate::proofs::Decimals::five))]
fn push_digits(line: &mut Vec<u8>, number: u32) -> Result<(), AllocError>
    requires { (10 ≤ number) × (number < 100000) }
    ensures { OnOk result (line.new.items ≡ line.old.items ++ decimal number) }
{
    if line.capacity() - line.len() < 5 {
        return push_long(line, u64::from(number));
    }
    let tens = number / 10;
    let hundreds = tens / 10;
    let thousands = hundreds / 10;
    let first = thousands / 10;
    if number < 100 {
        line.extend_from_slice(&[b'0' + tens as u8, digit(number, tens)])
    } else if number < 1_000 {
        line.extend_from_slice(&[
            b'0' + hundreds as u8,
            digit(tens, hundreds),
            digit(number, tens),
        ])
    } else if number < 10_000 {
        line.extend_from_slice(&[
            b'0' + thousands as u8,
            digit(hundreds, thousands),
            digit(tens, hundreds),
            digit(number, tens),
        ])
    } else {
        line.extend_from_slice(&[
            b'0' + first as u8,
            digit(thousands, first),
            digit(hundreds, thousands),
            digit(tens, hundreds),
            digit(number, tens),
        ])
    }
}

/// The last digit of a number with so many tens.
fn digit(number: u32, tens: u32) -> u8
    requires { tens ≡ number / 10 }
    ensures { result ≡ 48 + number % 10 }
{
    b'0' + (number - tens * 10) as u8
}

/// The same for any number, by a buffer.
#[inline(never)]
fn push_long(line: &mut Vec<u8>, number: u64) -> Result<(), AllocError>
    ensures { OnOk result (line.new.items ≡ line.old.items ++ decimal number) }
{
    let mut buffer = Buffer::new();
    line.extend_from_slice(buffer.format(number).as_bytes())
}
