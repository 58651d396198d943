//! The parts of a script.
//!
//! A line `%names`, `%conf` or `%ask` begins a part, whose text ends before the next such line. Proved: the
//! parts are those of the definition `parts_from`.

ghost use Rattle.std.specs.Prelude.{◌≡◌, ◌<◌, ◌+◌, ◌∷◌, Some, length, IfSome};
ghost use Rattle.std.specs.Iterator.{YieldsFirstBy, item_count};
ghost use Rattle.cpg_text.specs.Lines.{lines_of, trimmed};
ghost use Rattle.cpg_conf.specs.Names.{next_number};
ghost use Rattle.cpg_accept.specs.Parts.{head_of, parts_from, text_before};
ghost use Rattle.cpg_accept.specs.Steps.{len_after, parts_of_head, part_seen};

use cpg_text::{Lines, trim};

/// What a part of a script is for.
#[derive(Debug, Clone, Copy, PartialEq, Eq)]
pub enum Kind {
    /// A names text, which makes the names anew.
    Names,
    /// A conf text, which adds to the list.
    Conf,
    /// Asks, which are answered by the list as the parts before leave it.
    Ask,
}

impl Kind {
    /// The kind of part that a trimmed line begins, where it begins one.
    pub fn of(line: &[u8]) -> Option<Kind>
        ensures { result ≡ head_of line.now }
    {
        if line == b"%names".as_slice() {
            Some(Kind::Names)
        } else if line == b"%conf".as_slice() {
            Some(Kind::Conf)
        } else if line == b"%ask".as_slice() {
            Some(Kind::Ask)
        } else {
            None
        }
    }
}

/// A part of a script.
#[derive(Debug, Clone, Copy)]
pub struct Part<'a> {
    pub kind: Kind,
    /// The number in the script of the line that begins the part.
    pub line: u32,
    /// What stands between that line and the next that begins a part.
    pub text: &'a [u8],
}

/// A line that begins a part.
#[derive(Debug, Clone, Copy)]
pub struct Head<'a> {
    pub kind: Kind,
    /// The number of the line in the script.
    pub line: u32,
    /// What follows the line; none where it is the last.
    pub after: Option<&'a [u8]>,
}

/// A text that is cut at the first line that begins a part.
#[derive(Debug, Clone, Copy)]
pub struct Cut<'a> {
    /// The text before that line; all of it where no line begins a part.
    pub before: &'a [u8],
    pub head: Option<Head<'a>>,
}

impl<'a> Cut<'a> {
    /// Cuts a text that stands after so many lines of a script.
    pub fn of(lines_before: u32, text: &'a [u8]) -> Cut<'a>
        ensures before { (result.before).now ≡ text_before (lines_of text.now) }
        ensures parts { parts_of_head result.head ≡ parts_from (next_number lines_before) (lines_of text.now) }
    {
        let mut lines = Lines::of(text);
        let mut number = lines_before;
        let mut end = 0;
        while let Some(line) = lines.next() {
            number = number.saturating_add(1);
            if let Some(kind) = head_in(line) {
                return Cut {
                    before: &text[..end],
                    head: Some(Head {
                        kind,
                        line: number,
                        after: lines.rest,
                    }),
                };
            }
            end = end_before(text, lines.rest);
        }
        Cut {
            before: text,
            head: None,
        }
    }
}

/// The kind of part that a line begins, where it begins one. Most lines begin with a letter: a first byte past
/// `%` is no edge, so that the line needs no trimming to be told from a head.
#[inline(always)]
#[tactic(auto, using(crate::proofs::Heads::no_head))]
fn head_in(line: &[u8]) -> Option<Kind>
    ensures { result ≡ head_of (trimmed line.now) }
{
    match line {
        [first, ..] if *first > b'%' => None,
        _ => trimmed_head(line),
    }
}

/// The same for any line.
#[inline(never)]
fn trimmed_head(line: &[u8]) -> Option<Kind>
    ensures { result ≡ head_of (trimmed line.now) }
{
    Kind::of(trim(line))
}

/// How long the text is before its rest, and before the line feed between them where there is a rest.
fn end_before(text: &[u8], rest: Option<&[u8]>) -> usize
    requires { IfSome rest (λ rest. length rest.now < length text.now) }
    ensures { result + len_after rest.entry ≡ length text.now }
{
    match rest {
        None => text.len(),
        Some(rest) => text.len() - rest.len() - 1,
    }
}

/// The parts of a script, first to last.
#[derive(Drop)]
pub struct Parts<'a> {
    /// The line that begins the next part; none where there is no part left.
    pub head: Option<Head<'a>>,
}

impl<'a> Iterator for Parts<'a> {
    type Item = Part<'a>;

    ghost next_gives = { YieldsFirstBy part_seen (λ parts. parts_of_head parts.head) };

    ghost remaining = { item_count (λ parts. parts_of_head parts.head) };

    fn next(&mut self) -> Option<Part<'a>> {
        let head = self.head?;
        let cut = cut_after(&head);
        self.head = cut.head;
        Some(Part {
            kind: head.kind,
            line: head.line,
            text: cut.before,
        })
    }
}

/// Cuts what follows a line that begins a part at the next such line.
fn cut_after<'a>(head: &Head<'a>) -> Cut<'a>
    ensures { parts_of_head (Some head.now) ≡ record { kind = (head.now).kind; line = (head.now).line; text = (result.before).now } ∷ parts_of_head result.head }
{
    match head.after {
        None => Cut {
            before: &[],
            head: None,
        },
        Some(text) => Cut::of(head.line, text),
    }
}
