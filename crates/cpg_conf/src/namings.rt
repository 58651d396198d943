//! Lines of a names text.
//!
//! Proved: a line is read as what `naming_of` says, and so is its fault.

ghost use Rattle.std.specs.Prelude.{◌≡◌, ◌∷◌, ℕ, Some, Ok, Err, IsTrue, IfSome, IfOk, IfErr, codes, option_map};
ghost use Rattle.cpg_text.specs.Lines.{trimmed, words_of};
ghost use Rattle.cpg_conf.specs.Names.{User, naming_of, naming_in, three, value_on};
ghost use Rattle.cpg_conf.specs.Steps.{BeginsNaming, naming_seen};

use crate::lines::ends_whole;
use cpg_cred::Refusal;
use cpg_text::{Words, is_ignored, read_number, take_number, trim};

/// What a line of a names text says.
#[derive(Debug, Clone, Copy)]
pub enum NamingView<'a> {
    /// Nothing: it is empty, or a comment.
    Nothing,
    /// The number of a user's name.
    User(&'a [u8], u32),
    /// The number of a group's name.
    Group(&'a [u8], u32),
}

impl<'a> NamingView<'a> {
    /// What the line of that number says. One that is `user NAME N`, with nothing to trim, is read at once.
    #[inline(always)]
    #[tactic(auto, using(crate::proofs::Plain::plain_naming))]
    pub fn read(number: u32, line: &'a [u8]) -> Result<NamingView<'a>, Refusal>
        ensures ok { IfOk result (λ naming. naming_of number (trimmed line.now) ≡ Ok (naming_seen naming)) }
        ensures err { IfErr result (λ refusal. naming_of number (trimmed line.now) ≡ Err refusal) }
    {
        if begins_naming(line) && ends_whole(line) {
            if let Some((name, value)) = name_and_number(&line[5..]) {
                return Ok(NamingView::User(name, value));
            }
        }
        read_slowly(number, line)
    }
}

/// Whether the line begins with `user `.
#[inline(always)]
fn begins_naming(line: &[u8]) -> bool
    ensures { IsTrue result → BeginsNaming line.now }
{
    line.len() >= 5
        && line[0] == b'u'
        && line[1] == b's'
        && line[2] == b'e'
        && line[3] == b'r'
        && line[4] == b' '
}

/// The name and the number that a line says, which has a name, a number and no more; none also where the line
/// goes on past the number.
#[inline(always)]
#[tactic(auto, using(crate::proofs::Plain::named))]
fn name_and_number(line: &[u8]) -> Option<(&[u8], u32)>
    ensures { IfSome result (λ found. (number : ℕ) → naming_in number (three (codes "user" ∷ words_of line.now)) ≡ Ok (User found.0.now found.1)) }
{
    let mut words = Words::of(line);
    let name = words.next()?;
    let (value, rest) = take_number(words.rest)?;
    if rest.is_empty() {
        Some((name, value))
    } else {
        None
    }
}

/// What any line of that number says.
#[inline(never)]
fn read_slowly(number: u32, line: &[u8]) -> Result<NamingView<'_>, Refusal>
    ensures ok { IfOk result (λ naming. naming_of number (trimmed line.now) ≡ Ok (naming_seen naming)) }
    ensures err { IfErr result (λ refusal. naming_of number (trimmed line.now) ≡ Err refusal) }
{
    let line = trim(line);
    if is_ignored(line) {
        return Ok(NamingView::Nothing);
    }
    match read_three(line) {
        None => Err(Refusal::BadLine(number)),
        Some((kind, name, value)) => read_naming(number, kind, name, value),
    }
}

/// The words of a line, where they are three.
fn read_three(line: &[u8]) -> Option<(&[u8], &[u8], &[u8])>
    ensures { option_map (λ words. (words.0.now, words.1.now, words.2.now)) result ≡ three (words_of line.now) }
{
    let mut words = Words::of(line);
    let first = words.next()?;
    let second = words.next()?;
    let third = words.next()?;
    match words.next() {
        None => Some((first, second, third)),
        Some(_) => None,
    }
}

fn read_naming<'a>(
    number: u32,
    kind: &[u8],
    name: &'a [u8],
    value: &[u8],
) -> Result<NamingView<'a>, Refusal>
    ensures ok { IfOk result (λ naming. naming_in number (Some (kind.now, name.now, value.now)) ≡ Ok (naming_seen naming)) }
    ensures err { IfErr result (λ refusal. naming_in number (Some (kind.now, name.now, value.now)) ≡ Err refusal) }
{
    if kind == b"user".as_slice() {
        Ok(NamingView::User(name, read_value(number, value)?))
    } else if kind == b"group".as_slice() {
        Ok(NamingView::Group(name, read_value(number, value)?))
    } else {
        Err(Refusal::BadLine(number))
    }
}

/// The number that the word writes; any other word is a bad value of the line of that number.
pub fn read_value(number: u32, word: &[u8]) -> Result<u32, Refusal>
    ensures { result ≡ value_on number word.now }
{
    match read_number(0, u64::from(u32::MAX), word) {
        None => Err(Refusal::BadValue(number)),
        Some(value) => Ok(value as u32),
    }
}
