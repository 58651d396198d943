//! Lines of a conf text, by their shapes.
//!
//! The shapes are those of Corosync's configuration files. Proved: a line is read as what `line_of` says.

ghost use Rattle.std.specs.Prelude.{◌≡◌, ◌==◌, codes, IsTrue, IfSome};
ghost use Rattle.std.specs.Str.{bytes_eq};
ghost use Rattle.std.specs.List.{position};
ghost use Rattle.cpg_text.specs.Lines.{trimmed};
ghost use Rattle.cpg_conf.specs.Lines.{Key, line_of, opened, keyed};
ghost use Rattle.cpg_conf.specs.Steps.{BeginsUser, EndsWhole, line_seen};

use cpg_text::{is_ignored, trim};

/// What a line of a conf text is. Names, keys and values are trimmed.
#[derive(Debug, Clone, Copy)]
pub enum LineView<'a> {
    /// Empty, or a comment.
    Ignored,
    /// `}`: it ends a section.
    Close,
    /// `NAME {`: it begins a section of that name.
    Open(&'a [u8]),
    /// `KEY: VALUE`, cut at the first colon.
    Key(&'a [u8], &'a [u8]),
    /// Of no shape.
    Bad,
}

impl<'a> LineView<'a> {
    /// What the line is, which is trimmed.
    pub fn read(line: &'a [u8]) -> LineView<'a>
        ensures { line_seen result ≡ line_of line.now }
    {
        if is_ignored(line) {
            return LineView::Ignored;
        }
        if is_close(line) {
            return LineView::Close;
        }
        let name = opened(line);
        if !name.is_empty() {
            return LineView::Open(name);
        }
        read_key(line)
    }
}

fn is_close(line: &[u8]) -> bool
    ensures { result ≡ bytes_eq line.now (codes "}") }
{
    line == b"}".as_slice()
}

/// The name that stands before a brace at the line's end; nothing where no brace ends the line.
fn opened(line: &[u8]) -> &[u8]
    ensures { result.now ≡ opened line.now }
{
    match line {
        [name @ .., b'{'] => trim(name),
        _ => &[],
    }
}

/// The key and the value around the first colon.
fn read_key(line: &[u8]) -> LineView<'_>
    ensures { line_seen result ≡ keyed line.now (position (λ byte. byte == 58) line.now) }
{
    match colon(line) {
        None => LineView::Bad,
        Some(colon) => LineView::Key(trim(&line[..colon]), trim(&line[colon + 1..])),
    }
}

fn colon(line: &[u8]) -> Option<usize>
    ensures { result ≡ position (λ byte. byte == 58) line.now }
{
    line.iter().position(|byte| *byte == b':')
}

/// The value of a line that is `uid: VALUE` with nothing to trim; none where the line is another, or is spelled
/// otherwise.
#[inline(always)]
#[tactic(auto, using(crate::proofs::Plain::plain_key))]
pub fn plain_user(line: &[u8]) -> Option<&[u8]>
    ensures { IfSome result (λ value. line_of (trimmed line.now) ≡ Key (codes "uid") value.now) }
{
    if begins_user(line) && ends_whole(line) {
        Some(&line[5..])
    } else {
        None
    }
}

/// Whether the line begins with `uid: ` and goes on with a byte that is not trimmed.
#[inline(always)]
fn begins_user(line: &[u8]) -> bool
    ensures { IsTrue result → BeginsUser line.now }
{
    line.len() >= 6
        && line[0] == b'u'
        && line[1] == b'i'
        && line[2] == b'd'
        && line[3] == b':'
        && line[4] == b' '
        && line[5] > b' '
}

/// Whether the line ends with a byte that is not trimmed, and that ends no line which opens a section.
#[inline(always)]
pub fn ends_whole(line: &[u8]) -> bool
    ensures { IsTrue result → EndsWhole line.now }
{
    match line {
        [.., last] => *last > b' ' && *last != b'{',
        [] => false,
    }
}
