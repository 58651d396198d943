//! What is told of a fault of a names or conf part.
//!
//! The form is this project's own. Proved: what is told is the definition `part_hint`, byte for byte.

ghost use Rattle.std.specs.Prelude.{◌≡◌, ◌++◌, nat_lt, length, None, OnOk, IsOkUnless, option_map};
ghost use Rattle.cpg_text.specs.Lines.{lines_left, lines_of, words_of};
ghost use Rattle.cpg_conf.specs.Lines.{line_of, opened};
ghost use Rattle.cpg_accept.specs.Parts.{is_head};
ghost use Rattle.cpg_hint.specs.Parts.{begun_at, colon_of, depth_after, flaw_end, flaw_line, flaw_phrase, flaw_text, is_uid, offset_hint, open_line, opened_by, or_whole, turn_of, value_behind};
ghost use Rattle.cpg_hint.specs.Reasons.{why_no_naming};
ghost use Rattle.cpg_hint.specs.Steps.{begun_seen};
ghost use Rattle.cpg_hint.specs.Told.{line_at};

use crate::marks::put_marked;
use crate::patterns::Expected;
use crate::places::place_in;
use crate::told::{line_at, put_mismatch};
use crate::words::{Mismatch, first_mismatch};
use cpg_cred::Refusal;
use cpg_text::{Lines, is, is_ignored, trim};
use std::alloc::Global;

/// A part of a script.
#[derive(Debug, Clone, Copy)]
pub struct PartStart<'a> {
    /// The number in the script of the line that begins it.
    pub number: u32,
    /// Whether it is one of names.
    pub names: bool,
    /// What follows that line; none where it is the last.
    pub after: Option<&'a [u8]>,
}

/// A line with a fault: the fault, and the line's number.
#[derive(Debug, Clone, Copy)]
pub struct Flaw<'a> {
    pub refusal: Refusal,
    pub number: u64,
    pub line: &'a [u8],
}

/// Puts what is told of a fault of the part at the text's end.
pub fn put_part(
    alloc: Global,
    text: &mut Vec<u8>,
    start: &PartStart<'_>,
    refusal: Refusal,
) -> Result<(), Refusal>
    ensures ok { OnOk result (text.new.items ≡ text.old.items ++ offset_hint refusal (begun_seen start.now) (flaw_line refusal (lines_left (option_map (λ after. after.now) (start.now).after)))) }
    ensures memory { IsOkUnless result Refusal.Memory }
{
    let Some(offset) = flaw_line(refusal, start.after) else {
        return Ok(());
    };
    let number = u64::from(start.number) + u64::from(offset);
    match line_at(offset, Lines { rest: start.after }) {
        None => Ok(()),
        Some(line) => {
            let flaw = Flaw {
                refusal,
                number,
                line,
            };
            flaw.put_in_part(alloc, text, start.names)
        }
    }
}

impl Flaw<'_> {
    /// Puts what is told of a line of a names part, or of a conf part, at the text's end.
    pub fn put_in_part(&self, alloc: Global, text: &mut Vec<u8>, names: bool) -> Result<(), Refusal>
        ensures ok { OnOk result (text.new.items ≡ text.old.items ++ flaw_text names (self.now).refusal (self.now).number (self.now).line.now) }
        ensures memory { IsOkUnless result Refusal.Memory }
    {
        let Flaw {
            refusal,
            number,
            line,
        } = *self;
        if names {
            put_mismatch(alloc, text, 0, number, line, mismatch_naming(trim(line)))
        } else {
            let place = place_in(line, flaw_end(refusal, trim(line)));
            let phrase = flaw_phrase(refusal, trim(line));
            put_marked(alloc, text, number, line, place, phrase.as_bytes())
        }
    }
}

/// The word of a line of a names part that does not fit.
fn mismatch_naming(line: &[u8]) -> Mismatch
    ensures { result ≡ or_whole (why_no_naming (words_of line.now)) }
{
    let mismatch = first_mismatch(
        0,
        &[Expected::Table, Expected::Named, Expected::Number],
        line,
    );
    mismatch.unwrap_or(Mismatch {
        index: 0,
        expected: Expected::Table,
    })
}

/// The part of that number.
pub fn part_at(part: u32, script: &[u8]) -> Option<PartStart<'_>>
    ensures { option_map begun_seen result ≡ begun_at part 1 (lines_of script.now) }
{
    let mut left = part;
    let mut number = 0u32;
    let mut lines = Lines::of(script);
    while let Some(line) = lines.next() {
        number = number.saturating_add(1);
        if is_head(line) {
            if left == 1 {
                return Some(PartStart {
                    number,
                    names: is(trim(line), b"%names".as_slice()),
                    after: lines.rest,
                });
            }
            left = left.saturating_sub(1);
        }
    }
    None
}

/// Whether a line begins a part.
pub fn is_head(line: &[u8]) -> bool
    ensures { result ≡ is_head line.now }
{
    let line = trim(line);
    is(line, b"%names".as_slice()) || is(line, b"%conf".as_slice()) || is(line, b"%ask".as_slice())
}

/// The line of the part that a fault is told of.
pub fn flaw_line(refusal: Refusal, after: Option<&[u8]>) -> Option<u32>
    ensures { result ≡ flaw_line refusal (lines_left (option_map (λ rest. rest.now) after.entry)) }
{
    match refusal {
        Refusal::BadLine(line)
        | Refusal::Unopened(line)
        | Refusal::BadItem(line)
        | Refusal::BadValue(line)
        | Refusal::UnknownName(line) => Some(line),
        Refusal::Unclosed => open_line(Lines { rest: after }),
        _ => None,
    }
}

/// The line that opened the outermost section last, up to the part's end.
fn open_line(lines: Lines<'_>) -> Option<u32>
    ensures { result ≡ open_line 0 None 1 (lines_left (option_map (λ rest. rest.now) (lines.entry).rest)) }
{
    let mut last = None;
    let mut depth = 0u32;
    let mut number = 0u32;
    for line in lines {
        if is_head(line) {
            return last;
        }
        number = number.saturating_add(1);
        let turn = turn_of(trim(line));
        last = opened_by(turn, depth, number, last);
        depth = depth_after(turn, depth);
    }
    last
}

/// What a line of a conf text does to the sections.
#[derive(Debug, Clone, Copy)]
pub enum Turn {
    /// It opens one.
    Opens,
    /// It closes one.
    Closes,
    /// Neither.
    Stays,
}

/// What the trimmed line does.
#[tactic(auto, using(crate::proofs::Turns::keyed_stays))]
fn turn_of(line: &[u8]) -> Turn
    ensures { result ≡ turn_of (line_of line.now) }
{
    if is_ignored(line) {
        Turn::Stays
    } else if is(line, b"}".as_slice()) {
        Turn::Closes
    } else if has_name(line) {
        Turn::Opens
    } else {
        Turn::Stays
    }
}

/// Whether a name stands before a brace at the line's end.
fn has_name(line: &[u8]) -> bool
    ensures { result ≡ nat_lt 0 (length (opened line.now)) }
{
    !name_of(line).is_empty()
}

fn name_of(line: &[u8]) -> &[u8]
    ensures { result.now ≡ opened line.now }
{
    match line {
        [name @ .., b'{'] => trim(name),
        _ => &[],
    }
}

/// How many sections are open after a line.
fn depth_after(turn: Turn, depth: u32) -> u32
    ensures { result ≡ depth_after turn depth }
{
    match turn {
        Turn::Opens => depth.saturating_add(1),
        Turn::Closes => depth.saturating_sub(1),
        Turn::Stays => depth,
    }
}

/// The line that opened the outermost section last, after a line.
fn opened_by(turn: Turn, depth: u32, number: u32, last: Option<u32>) -> Option<u32>
    ensures { result ≡ opened_by turn depth number last }
{
    match turn {
        Turn::Opens => { if depth == 0 { Some(number) } else { last } }
        Turn::Closes | Turn::Stays => last,
    }
}

/// The end of a trimmed conf line that a fault is of.
pub fn flaw_end(refusal: Refusal, line: &[u8]) -> &[u8]
    ensures { result.now ≡ flaw_end refusal line.now }
{
    match refusal {
        Refusal::BadValue(_) | Refusal::UnknownName(_) => value_of(line),
        _ => line,
    }
}

/// The value behind the first colon.
fn value_of(line: &[u8]) -> &[u8]
    ensures { result.now ≡ value_behind (colon_of line.now) line.now }
{
    match colon_of(line) {
        None => &[],
        Some(colon) => trim(&line[colon + 1..]),
    }
}

/// Whether the key before the first colon is `uid`.
pub fn is_uid(line: &[u8]) -> bool
    ensures { result ≡ is_uid (colon_of line.now) line.now }
{
    match colon_of(line) {
        None => false,
        Some(colon) => is(trim(&line[..colon]), b"uid".as_slice()),
    }
}

fn colon_of(line: &[u8]) -> Option<usize>
    ensures { result ≡ colon_of line.now }
{
    line.iter().position(|byte| *byte == b':')
}

/// What was wanted where a fault is.
pub fn flaw_phrase(refusal: Refusal, line: &[u8]) -> &'static str
    ensures { result.now ≡ flaw_phrase refusal line.now }
{
    match refusal {
        Refusal::Unopened(_) => "nothing: no section is open here that this could close",
        Refusal::Unclosed => "a line } further on: this section is not closed before the part ends",
        Refusal::BadItem(_) => "KEY: uid or gid, as this section is uidgid",
        Refusal::BadValue(_) => "VALUE: a number from 0 to 4294967295, or a name",
        Refusal::UnknownName(_) if is_uid(line) => {
            "VALUE: a number, or a NAME that a line user NAME N of the names part has"
        }
        Refusal::UnknownName(_) => {
            "VALUE: a number, or a NAME that a line group NAME N of the names part has"
        }
        _ => "a line NAME {, KEY: VALUE, or }",
    }
}
