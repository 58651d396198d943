//! What is told of a fault of a file of `cpgring admit`.
//!
//! The form is this project's own. Proved: what is told is the definition `file_hint`, byte for byte.

ghost use Rattle.std.specs.Prelude.{◌≡◌, ◌++◌, OnOk, IfOk, IsOkUnless, option_map};
ghost use Rattle.cpg_text.specs.Lines.{lines_of};
ghost use Rattle.cpg_hint.specs.Files.{account_end, conf_phrase, file_flaw, file_hint, from_number, group_phrase, marked_end, user_phrase};

use crate::marks::put_marked;
use crate::parts::{Flaw, flaw_end, flaw_line, flaw_phrase, is_uid};
use crate::places::place_in;
use crate::told::line_at;
use cpg_accept::admit::File;
use cpg_cred::Refusal;
use cpg_text::{Lines, cut, trim};
use std::alloc::Global;

/// What a person needs to mend a file of that text, beside the line of its fault: the file's line, a mark under what does
/// not fit, and what was wanted there. Nothing is told of faults that no line has.
pub fn file_hint(
    alloc: Global,
    file: File,
    text: &[u8],
    refusal: Refusal,
) -> Result<Vec<u8>, Refusal>
    ensures ok { IfOk result (λ hint. hint.items ≡ file_hint file text.now refusal) }
    ensures memory { IsOkUnless result Refusal.Memory }
{
    let mut hint = Vec::new(alloc);
    let Some(number) = flaw_line(refusal, Some(text)) else {
        return Ok(hint);
    };
    match line_at(number, Lines::of(text)) {
        None => Ok(hint),
        Some(line) => {
            let flaw = Flaw {
                refusal,
                number: u64::from(number),
                line,
            };
            flaw.put_in_file(alloc, &mut hint, file)?;
            Ok(hint)
        }
    }
}

impl Flaw<'_> {
    /// Puts what is told of a line of the file at the hint's end.
    fn put_in_file(&self, alloc: Global, hint: &mut Vec<u8>, file: File) -> Result<(), Refusal>
        ensures ok { OnOk result (hint.new.items ≡ hint.old.items ++ file_flaw file (self.now).refusal (self.now).number (self.now).line.now) }
        ensures memory { IsOkUnless result Refusal.Memory }
    {
        let (refusal, stands) = (self.refusal, trim(self.line));
        match file {
            File::Conf(_) => {
                let phrase = conf_phrase(refusal, stands);
                self.put_end(alloc, hint, flaw_end(refusal, stands), phrase)
            }
            File::Names => self.put_in_part(alloc, hint, true),
            File::Passwd => {
                let (end, phrase) = (account_end(refusal, stands), user_phrase(refusal));
                self.put_end(alloc, hint, end, phrase)
            }
            File::Group => {
                let (end, phrase) = (account_end(refusal, stands), group_phrase(refusal));
                self.put_end(alloc, hint, end, phrase)
            }
        }
    }

    /// Puts the line, with a mark where that end of it begins, at the hint's end.
    fn put_end(
        &self,
        alloc: Global,
        hint: &mut Vec<u8>,
        end: &[u8],
        phrase: &str,
    ) -> Result<(), Refusal>
        ensures ok { OnOk result (hint.new.items ≡ hint.old.items ++ marked_end (self.now).number (self.now).line.now end.now phrase.now) }
        ensures memory { IsOkUnless result Refusal.Memory }
    {
        let place = place_in(self.line, end);
        put_marked(
            alloc,
            hint,
            self.number,
            self.line,
            place,
            phrase.as_bytes(),
        )
    }
}

/// What is wanted in a trimmed line of a conf file.
fn conf_phrase(refusal: Refusal, line: &[u8]) -> &'static str
    ensures { result.now ≡ conf_phrase refusal line.now }
{
    match refusal {
        Refusal::Unclosed => {
            "a line } further on: this section is not closed before the file ends"
        }
        Refusal::UnknownName(_) if is_uid(line) => {
            "VALUE: a number, or a NAME that the file of --names or --passwd has"
        }
        Refusal::UnknownName(_) => {
            "VALUE: a number, or a NAME that the file of --names or --group has"
        }
        _ => flaw_phrase(refusal, line),
    }
}

/// The end of a trimmed line of accounts that a fault is of.
fn account_end(refusal: Refusal, line: &[u8]) -> &[u8]
    ensures { result.now ≡ account_end refusal line.now }
{
    match refusal {
        Refusal::BadValue(_) => match from_number(line) {
            None => line,
            Some(end) => end,
        },
        _ => line,
    }
}

/// The line from its number on.
fn from_number(line: &[u8]) -> Option<&[u8]>
    ensures { option_map (λ end. end.now) result ≡ from_number line.now }
{
    let (_name, rest) = cut(b':', line)?;
    let (_password, rest) = cut(b':', rest)?;
    Some(rest)
}

/// What is wanted in a line of users' accounts.
fn user_phrase(refusal: Refusal) -> &'static str
    ensures { result.now ≡ user_phrase refusal }
{
    match refusal {
        Refusal::BadValue(_) => "UID: a number from 0 to 4294967295",
        _ => "a line NAME:PASSWORD:UID:GID:GECOS:DIRECTORY:SHELL",
    }
}

/// What is wanted in a line of groups' accounts.
fn group_phrase(refusal: Refusal) -> &'static str
    ensures { result.now ≡ group_phrase refusal }
{
    match refusal {
        Refusal::BadValue(_) => "GID: a number from 0 to 4294967295",
        _ => "a line NAME:PASSWORD:GID:MEMBERS",
    }
}
