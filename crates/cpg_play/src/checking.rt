//! What a command printed, line by line beside what was wanted of it.
//!
//! Proved: which line is the next, and what is left.

ghost use Rattle.std.specs.Prelude.{◌≡◌, ◌≤◌, [], Some, None, length, drop, option_map};
ghost use Rattle.cpg_play.specs.Checking.{behind_line, next_line, unwanted_in};

use cpg_text::Lines;
use std::alloc::Global;
use std::marker::Model;

/// What the last command printed and no line was wanted of yet. Contracts see that text, and the number of the last line of
/// the script that wanted a line of it.
#[derive(Drop)]
pub struct Printed {
    text: Vec<u8>,
    at: usize,
    wanted: Option<u32>,
}

impl Model for Printed {
    ghost use Rattle.std.specs.Prelude.{◌≤◌, length, drop};
    ghost use Rattle.cpg_play.specs.Checking.{PrintedValue};

    ghost Value = { PrintedValue };

    ghost view = { λ printed. record { rest = drop printed.at printed.text.items; wanted = printed.wanted } };

    ghost invariant = { λ printed. printed.at ≤ length printed.text.items };
}

impl Printed {
    /// Before the first command.
    pub fn nothing(alloc: Global) -> Printed
        ensures { result ≡ record { rest = []; wanted = None } }
    {
        Printed::of(Vec::new(alloc))
    }

    /// What a command printed.
    pub fn of(text: Vec<u8>) -> Printed
        ensures { result ≡ record { rest = text.items; wanted = None } }
    {
        Printed {
            text,
            at: 0,
            wanted: None,
        }
    }

    /// The next line, without its line feed, if there is one.
    pub fn next(&self) -> Option<&[u8]>
        ensures { option_map (λ line. line.now) result ≡ next_line self.now.rest }
    {
        let rest = &self.text[self.at..];
        if rest.is_empty() {
            return None;
        }
        Lines::of(rest).next()
    }

    /// Goes on behind the next line, which the script's line of that number wanted to be something.
    pub fn pass(&mut self, number: u32)
        ensures { self.new ≡ record { rest = behind_line self.old.rest; wanted = Some number } }
    {
        self.at = end_of_line(self.text.as_slice(), self.at);
        self.wanted = Some(number);
    }

    /// Where lines of it were wanted, and others follow: the number of the last line that wanted one.
    pub fn unwanted(&self) -> Option<u32>
        ensures { result ≡ unwanted_in self.now.rest self.now.wanted }
    {
        match &self.text[self.at..] {
            [] => None,
            [_, ..] => self.wanted,
        }
    }
}

/// The place behind the line that begins there, and its line feed; the text's end where there is none.
fn end_of_line(text: &[u8], at: usize) -> usize
    requires { at ≤ length text.now }
    ensures within { result ≤ length text.now }
    ensures end { drop result text.now ≡ behind_line (drop at text.now) }
{
    match Lines::of(&text[at..]).next() {
        None => text.len(),
        Some(line) if line.len() < text.len() - at => at + line.len() + 1,
        Some(_) => text.len(),
    }
}
