//! A line of progress for a person who waits: how many lines are printed so far.
//!
//! Proved: what is written is what the stream takes, whatever is told beside it.

ghost use Rattle.std.specs.Prelude.{◌≡◌};
ghost use Rattle.cpg_console.specs.Progress.{counted_of};

use arrayvec::ArrayString;
use cpg_text::write_whole;
use std::fmt::Write as _;
use std::io::{self, Write};
use std::time::{Clock, Instant};

/// How many milliseconds a run takes before its progress is told, and between two lines of it.
const BEFORE_FIRST: u64 = 1_000;

const BETWEEN: u64 = 250;

/// The most bytes that a line of progress may have.
const ROOM: usize = 64;

/// A stream that is written to, whose lines are counted and told on another stream, which is a terminal: a second after
/// the beginning, and then four times a second; a flush takes that line away. Where there is no such stream nothing is
/// told.
#[derive(Drop)]
pub struct Counted<W, E, H> {
    stream: W,
    errors: Option<E>,
    clock: H,
    began: Option<Instant>,
    next: u64,
    lines: u64,
    is_told: bool,
}

impl<W, E: Write, H: Clock> Counted<W, E, H> {
    /// The stream, of which nothing is told yet; nor later, where there is no stream to tell it on.
    pub fn new(stream: W, errors: Option<E>, clock: H) -> Counted<W, E, H>
        ensures { counted_of result ≡ stream }
    {
        let began = Instant::now(&clock).ok();
        Counted {
            stream,
            errors,
            clock,
            began,
            next: BEFORE_FIRST,
            lines: 0,
            is_told: false,
        }
    }

    /// How many milliseconds have gone since the beginning.
    fn elapsed(&self) -> u64 {
        match &self.began {
            None => 0,
            Some(began) => match began.elapsed(&self.clock) {
                Ok(elapsed) => u64::try_from(elapsed.as_millis()).unwrap_or(0),
                Err(_) => 0,
            },
        }
    }

    /// Tells how many lines there are, where it is time.
    fn tell_in_time(&mut self)
        ensures { counted_of self.new ≡ counted_of self.old }
    {
        let now = self.elapsed();
        if now < self.next {
            return;
        }
        self.next = now.saturating_add(BETWEEN);
        if let Some(errors) = &mut self.errors {
            tell(errors, self.lines);
            self.is_told = true;
        }
    }

    /// Counts the lines of what was taken of a piece, where there is a stream to tell them on.
    fn count(&mut self, taken: usize, piece: &[u8])
        ensures { counted_of self.new ≡ counted_of self.old }
    {
        if self.errors.is_none() {
            return;
        }
        let lines = piece
            .iter()
            .take(taken)
            .filter(|byte| **byte == b'\n')
            .count();
        self.lines = self.lines.saturating_add(lines as u64);
        self.tell_in_time();
    }

    /// Takes the line away that was told.
    fn clear(&mut self)
        ensures { counted_of self.new ≡ counted_of self.old }
    {
        if self.is_told {
            if let Some(errors) = &mut self.errors {
                let _ = write_whole(errors, b"\r\x1b[K");
            }
            self.is_told = false;
        }
    }
}

impl<W: Write, E: Write, H: Clock> Write for Counted<W, E, H> {
    ghost use Rattle.cpg_console.specs.Progress.{counted_of};

    ghost contents = { λ counted. W.contents (counted_of counted) };

    fn write(&mut self, buf: &[u8]) -> io::Result<usize> {
        let done = self.stream.write(buf);
        if let Ok(taken) = &done {
            self.count(*taken, buf);
        }
        done
    }

    fn flush(&mut self) -> io::Result<()> {
        self.clear();
        self.stream.flush()
    }
}

/// Tells how many lines there are, in place of what was told before.
fn tell<E: Write>(errors: &mut E, lines: u64) {
    let mut line = ArrayString::<ROOM>::new();
    if write!(line, "\rcpgring: {lines} lines").is_ok() {
        let _ = write_whole(errors, line.as_bytes());
    }
}
