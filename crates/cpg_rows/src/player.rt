//! Rows that are played: each command's answer beside the one that stands in the file.
//!
//! A call that answers Memory is made again where the driver was told so, and a call that is refused has to leave its
//! object as it was: the text of all that can be seen of the object is compared.

pub use crate::texts::{TRIES, surely};
use crate::texts::{parts_of, put_line_surely, put_plain_surely, put_surely, reserve_surely};
use cpg_cred::{Refusal, Refused};
use cpg_print::put_refused_line;
use cpg_text::{Lines, is, is_ignored, push_number, put, put_bytes, read_number, take_word, trim};
use std::alloc::Global;

/// How many bytes an answer may have before memory is asked for behind a call.
const ROOM: usize = 262_144;

/// Up to how often a row makes its command with the object looked at before and after.
const LOOKS: u64 = 300;

/// One command, as its object sees it.
#[derive(Clone, Copy)]
pub struct Row<'r> {
    /// The whole command.
    pub text: &'r [u8],
    /// Its first word.
    pub word: &'r [u8],
    /// What follows that.
    pub rest: &'r [u8],
    /// The lines of the last block.
    pub block: &'r [u8],
    /// How often a call is made that answers Memory.
    pub tries: u32,
}

impl Row<'_> {
    /// Whether that is the first word.
    pub fn is(&self, name: &str) -> bool {
        is(self.word, name.as_bytes())
    }
}

/// What is answered to what was handed in, which comes back as it was: whether it does is asked of what came back.
pub fn given_back<T: Drop, F: Fn(&T) -> bool>(
    answer: Result<(), Refused<T>>,
    is_same: F,
) -> Result<(), Refusal>
    requires { F.IsAlwaysCallable is_same }
{
    match answer {
        Ok(()) => Ok(()),
        Err(refused) if is_same(&refused.back) => Err(refused.into_refusal()),
        Err(_) => Err(Refusal::Differs),
    }
}

/// What commands are made on.
pub trait Plays: Drop {
    /// Makes the command, and puts what it is answered. It changes something only where it answers Ok, and asks for no
    /// memory behind the call that does.
    fn make(&mut self, alloc: Global, line: &mut Vec<u8>, row: &Row<'_>) -> Result<(), Refusal>;

    /// Puts all that can be seen of it.
    fn put_state(&self, alloc: Global, text: &mut Vec<u8>) -> Result<(), Refusal>;
}

/// A file of rows that is played.
#[derive(Drop)]
pub struct Player<'a> {
    pub alloc: Global,
    /// How often a call is made that answers Memory.
    pub tries: u32,
    /// How often the part's object may still be made again after Memory.
    left: u32,
    lines: Lines<'a>,
    number: u64,
    /// The command whose answer is not looked at yet, and its line.
    row: Option<(u64, &'a [u8])>,
    /// The lines of the last block, and whether the next one goes on with it.
    block: Vec<u8>,
    is_block_open: bool,
    /// The command, what one call is answered, all that the row is answered, and what stands in the file.
    command: Vec<u8>,
    line: Vec<u8>,
    answer: Vec<u8>,
    expected: Vec<u8>,
    /// What could be seen of the object before a call and behind it.
    before: Vec<u8>,
    after: Vec<u8>,
    /// How many rows were played, how many of them not as they stand, and what is said of those.
    pub rows: u64,
    pub failed: u64,
    pub report: Vec<u8>,
}

/// Puts all that can be seen of the object in the text's place.
fn look<P: Plays>(alloc: Global, object: &P, text: &mut Vec<u8>) -> Result<(), Refusal> {
    text.clear();
    put_surely(text, |text| object.put_state(alloc, text))
}

/// Puts the line of the refusal in the line's place.
fn say_refused(alloc: Global, line: &mut Vec<u8>, refusal: Refusal) -> Result<(), Refusal> {
    line.clear();
    put_surely(line, |line| put_refused_line(alloc, line, refusal))
}

/// Makes the command. `state` is one of each object.
fn make<P: Plays>(
    alloc: Global,
    object: &mut P,
    line: &mut Vec<u8>,
    row: &Row<'_>,
) -> Result<(), Refusal> {
    line.clear();
    if row.is("state") {
        return object.put_state(alloc, line);
    }
    object.make(alloc, line, row)
}

impl<'a> Player<'a> {
    /// A player of that file.
    pub fn new(alloc: Global, tries: u32, file: &'a [u8]) -> Player<'a> {
        Player {
            alloc,
            tries,
            left: tries,
            lines: Lines::of(file),
            number: 0,
            row: None,
            block: Vec::new(alloc),
            is_block_open: false,
            command: Vec::new(alloc),
            line: Vec::new(alloc),
            answer: Vec::new(alloc),
            expected: Vec::new(alloc),
            before: Vec::new(alloc),
            after: Vec::new(alloc),
            rows: 0,
            failed: 0,
            report: Vec::new(alloc),
        }
    }

    /// The next line that says something.
    fn next_line(&mut self) -> Option<&'a [u8]> {
        for _ in 0..u64::MAX {
            let line = trim(self.lines.next()?);
            self.number = self.number.saturating_add(1);
            if !is_ignored(line) {
                return Some(line);
            }
        }
        None
    }

    /// Gives the texts room, so that none of them asks for memory behind a call.
    pub fn make_room(&mut self) -> Result<(), Refusal> {
        reserve_surely(&mut self.line, ROOM)?;
        reserve_surely(&mut self.answer, ROOM)?;
        reserve_surely(&mut self.expected, ROOM)
    }

    /// The words of the line that begins a part, whose answer stands from now on.
    pub fn begin(&mut self, head: &'a [u8]) -> Result<&'a [u8], Refusal> {
        let (words, told) = parts_of(head);
        self.row = Some((self.number, words));
        self.is_block_open = false;
        self.answer.clear();
        self.expected.clear();
        if let Some(told) = told {
            put_line_surely(&mut self.expected, told)?;
        }
        Ok(words)
    }

    /// Whether the part's object is to be made again, which is counted.
    pub fn tries_again(&mut self) -> bool {
        self.left = self.left.saturating_sub(1);
        self.left > 0
    }

    /// Whether it is being made again.
    pub fn is_trying_again(&self) -> bool {
        self.left < self.tries
    }

    /// Says that the part's object could not be made.
    pub fn refuse(&mut self, refusal: Refusal) -> Result<(), Refusal> {
        say_refused(self.alloc, &mut self.answer, refusal)
    }

    /// Plays the part of the object, to the line of the next part.
    pub fn play<P: Plays>(&mut self, object: &mut P) -> Result<Option<&'a [u8]>, Refusal> {
        self.left = self.tries;
        for _ in 0..u64::MAX {
            let Some(line) = self.next_line() else {
                break;
            };
            if let [b'%', ..] = line {
                self.finish()?;
                return Ok(Some(line));
            }
            self.play_line(object, line)?;
        }
        self.finish()?;
        Ok(None)
    }

    /// Plays a line of a part: more of an answer, more of a block, or a row.
    fn play_line<P: Plays>(&mut self, object: &mut P, line: &'a [u8]) -> Result<(), Refusal> {
        match line {
            [b'=', b'>', told @ ..] => put_line_surely(&mut self.expected, trim(told)),
            [b'|', b' ', text @ ..] => self.add_to_block(text),
            [b'|', text @ ..] => self.add_to_block(text),
            _ => self.play_row(object, line),
        }
    }

    /// Puts the line in the block, the first of a new one where another line stands before it.
    fn add_to_block(&mut self, text: &[u8]) -> Result<(), Refusal> {
        if !self.is_block_open {
            self.block.clear();
            self.is_block_open = true;
        }
        put_plain_surely(&mut self.block, text)
    }

    /// Counts the row before, and says where it is not answered as it stands.
    fn finish(&mut self) -> Result<(), Refusal> {
        let Some((number, text)) = self.row.take() else {
            return Ok(());
        };
        self.rows = self.rows.saturating_add(1);
        if self.answer.as_slice() == self.expected.as_slice() {
            return Ok(());
        }
        self.failed = self.failed.saturating_add(1);
        self.say_otherwise(number, text)
    }

    fn say_otherwise(&mut self, number: u64, text: &[u8]) -> Result<(), Refusal> {
        let report = &mut self.report;
        put(report, "line ")?;
        push_number(report, number)?;
        put(report, ": ")?;
        put_bytes(report, text)?;
        put(report, "\n- expected:\n")?;
        put_bytes(report, self.expected.as_slice())?;
        put(report, "+ answered:\n")?;
        put_bytes(report, self.answer.as_slice())
    }

    /// Plays the row of that line.
    fn play_row<P: Plays>(&mut self, object: &mut P, line: &'a [u8]) -> Result<(), Refusal> {
        self.finish()?;
        let mut command = std::mem::replace(&mut self.command, Vec::new(self.alloc));
        command.clear();
        let played = self.play_spelled(object, line, &mut command);
        self.command = command;
        played
    }

    /// The same, with a text for the command with its `<N TEXT>` written out.
    fn play_spelled<P: Plays>(
        &mut self,
        object: &mut P,
        line: &'a [u8],
        command: &mut Vec<u8>,
    ) -> Result<(), Refusal> {
        put_line_surely(command, self.begin(line)?)?;
        let _ = command.pop();
        self.play_command(object, command.as_slice())
    }

    /// Plays the command, which may be one that is made often.
    fn play_command<P: Plays>(&mut self, object: &mut P, text: &[u8]) -> Result<(), Refusal> {
        let Some((word, rest)) = take_word(text) else {
            return Ok(());
        };
        let is_last = is(word, b"last");
        if !is_last && !is(word, b"each") {
            return self.play_times(object, text, 1, false);
        }
        match take_word(rest) {
            Some((count, command)) => {
                let times = read_number(1, 1_000_000, count).unwrap_or(0);
                self.play_times(object, command, times, is_last)
            }
            None => self.refuse(Refusal::BadCommand(0)),
        }
    }

    /// Makes the command so many times. Its answer is that of each, told once for those in a row that are the same; or
    /// that of the last alone.
    fn play_times<P: Plays>(
        &mut self,
        object: &mut P,
        command: &[u8],
        times: u64,
        is_last: bool,
    ) -> Result<(), Refusal> {
        for _ in 0..times {
            self.call(object, command, times <= LOOKS)?;
            if is_last {
                self.answer.clear();
            }
            self.add_answer()?;
        }
        Ok(())
    }

    /// Puts what the call is answered behind the answer, which may end so already.
    fn add_answer(&mut self) -> Result<(), Refusal> {
        let line = self.line.as_slice();
        if !line.is_empty() && self.answer.as_slice().ends_with(line) {
            return Ok(());
        }
        put_bytes(&mut self.answer, line)
    }

    /// Makes the command, again after Memory.
    fn call<P: Plays>(
        &mut self,
        object: &mut P,
        command: &[u8],
        looks: bool,
    ) -> Result<(), Refusal> {
        for _ in 0..self.tries {
            if !self.call_once(object, command, looks)? {
                return Ok(());
            }
        }
        say_refused(self.alloc, &mut self.line, Refusal::Memory)
    }

    /// Makes the command once; a refusal has to change nothing. Whether that met Memory alone.
    fn call_once<P: Plays>(
        &mut self,
        object: &mut P,
        command: &[u8],
        looks: bool,
    ) -> Result<bool, Refusal> {
        if looks {
            look(self.alloc, &*object, &mut self.before)?;
        }
        let Err(refusal) = self.make_row(object, command) else {
            return Ok(false);
        };
        say_refused(self.alloc, &mut self.line, refusal)?;
        if looks {
            look(self.alloc, &*object, &mut self.after)?;
            if self.before.as_slice() != self.after.as_slice() {
                put(&mut self.line, "changed by a refusal\n")?;
                return Ok(false);
            }
        }
        Ok(refusal == Refusal::Memory)
    }

    /// Makes the command once, whatever it is answered.
    fn make_row<P: Plays>(&mut self, object: &mut P, command: &[u8]) -> Result<(), Refusal> {
        let (word, rest) = take_word(command).unwrap_or((&[], &[]));
        let row = Row {
            text: command,
            word,
            rest,
            block: self.block.as_slice(),
            tries: self.tries,
        };
        make(self.alloc, object, &mut self.line, &row)
    }
}
