//! Standard output, and whether its reader has left.
//!
//! That a closed pipe is told by no line is this project's own, after what a program does that a signal ends there.
//! Proved: what is written is what the stream takes; its reader has left exactly where a call failed with `BrokenPipe`.

ghost use Rattle.std.specs.Prelude.{◌≡◌, ◌⊎◌, ◌↔◌, false, true, IsErrAnd};
ghost use Rattle.std.specs.Io.{WritesAtMost};
ghost use Rattle.std.specs.Io.KnownBytes.{Keeps, WriteAppends};
ghost use Rattle.std.specs.IoError.{error_kind};
ghost use Rattle.cpg_console.specs.Pipes.{is_left, stream_of};

use std::io::{self, ErrorKind, Write};

/// A stream that is written to, and whether it is a pipe whose reader has left.
#[derive(Drop)]
pub struct Piped<W> {
    stream: W,
    left: bool,
}

/// Whether a call failed since nobody reads the pipe any more.
fn is_broken<T>(done: &io::Result<T>) -> bool
    ensures { (result ≡ true) ↔ IsErrAnd done.now (λ error. error_kind error ≡ ErrorKind.BrokenPipe) }
{
    match done {
        Ok(_) => false,
        Err(error) => match error.kind() {
            ErrorKind::BrokenPipe => true,
            _ => false,
        },
    }
}

impl<W> Piped<W> {
    /// The stream, whose reader has not left yet as far as is known.
    pub fn new(stream: W) -> Piped<W>
        ensures stream { stream_of result ≡ stream }
        ensures left { is_left result ≡ false }
    {
        Piped {
            stream,
            left: false,
        }
    }

    /// Whether the reader has left.
    pub fn has_left(&self) -> bool
        ensures { result ≡ is_left self.now }
    {
        self.left
    }

    /// The stream.
    pub fn stream(&self) -> &W
        ensures { result.now ≡ stream_of self.now }
    {
        &self.stream
    }

    /// Takes in how a call of the stream ended.
    fn note<T>(&mut self, done: &io::Result<T>)
        ensures stream { stream_of self.new ≡ stream_of self.old }
        ensures left { (is_left self.new ≡ true) ↔ ((is_left self.old ≡ true) ⊎ IsErrAnd done.now (λ error. error_kind error ≡ ErrorKind.BrokenPipe)) }
    {
        if is_broken(done) {
            self.left = true;
        }
    }
}

impl<W: Write> Write for Piped<W> {
    ghost use Rattle.cpg_console.specs.Pipes.{stream_of};

    ghost contents = { λ piped. W.contents (stream_of piped) };

    fn write(&mut self, buf: &[u8]) -> io::Result<usize>
        ensures bound { WritesAtMost result buf.now }
        ensures bytes { WriteAppends (W.contents (stream_of self.old)) (W.contents (stream_of self.new)) result buf.now }
        ensures left { (is_left self.new ≡ true) ↔ ((is_left self.old ≡ true) ⊎ IsErrAnd result (λ error. error_kind error ≡ ErrorKind.BrokenPipe)) }
    {
        let done = self.stream.write(buf);
        self.note(&done);
        done
    }

    fn flush(&mut self) -> io::Result<()>
        ensures bytes { Keeps (W.contents (stream_of self.old)) (W.contents (stream_of self.new)) }
        ensures left { (is_left self.new ≡ true) ↔ ((is_left self.old ≡ true) ⊎ IsErrAnd result (λ error. error_kind error ≡ ErrorKind.BrokenPipe)) }
    {
        let done = self.stream.flush();
        self.note(&done);
        done
    }
}
