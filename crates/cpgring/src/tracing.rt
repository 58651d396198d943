//! `--trace`: the two files that a trace is written to.
//!
//! What is written is proved of `cpg_console`. That it is written into these files, and when, is tested.

ghost use Rattle.std.specs.Prelude.{◌≡◌};
ghost use Rattle.cpgring.specs.Tracing.{file_of};

use crate::options::TRACE;
use crate::sources::{Unread, tell_unread, why_unread};
use clap::{ArgMatches, Error};
use cpg_console::{Run, Tracer, trace_heading, trace_words};
use cpg_cred::Refusal;
use cpg_ring::Settings;
use cpg_text::write_whole;
use std::alloc::{AllocError, Global};
use std::fs::{Files, OpenFile, OpenOptions};
use std::io::{self, BufWriter, ErrorKind, Write};

/// The name of the file of a trace, where one is asked for.
pub fn trace_of<'a>(given: &'a ArgMatches<'_>) -> Option<&'a str> {
    given.get_str(TRACE)
}

/// The settings and the words of a run that can be traced.
pub fn traced_world<'a>(run: &Run<'a>) -> Option<(Settings, &'a [&'a str])> {
    match run {
        Run::Cluster(_, _, settings, words) => Some((*settings, words)),
        _ => None,
    }
}

/// Why there are no files for a trace.
#[derive(Clone, Copy)]
pub enum NoTrace {
    /// Memory was refused.
    Memory,
    /// A file can't be written.
    Unwritten(Unread),
}

impl From<AllocError> for NoTrace {
    fn from(_error: AllocError) -> NoTrace {
        NoTrace::Memory
    }
}

impl From<Refusal> for NoTrace {
    fn from(_refusal: Refusal) -> NoTrace {
        NoTrace::Memory
    }
}

/// Why a file can't be written.
fn why_unwritten(why: Unread) -> Unread {
    match why {
        Unread::Other => Unread::Unwritten,
        why => why,
    }
}

/// The file of that path, with what is in it, or a new one.
fn open_kept<F: Files>(files: &F, path: &str) -> Result<F::File, NoTrace> {
    let mut how = OpenOptions::new();
    match how.write(true).create(true).open(files, path) {
        Ok(file) => Ok(file),
        Err(error) => Err(NoTrace::Unwritten(why_unwritten(why_unread(error.kind())))),
    }
}

/// Takes out what is in the file. A device or a pipe holds nothing.
fn empty<F: OpenFile>(file: &F) -> io::Result<()> {
    if file.metadata()?.is_file() {
        file.set_len(0)?;
    }
    Ok(())
}

/// The files of a trace: that of its commands, which is written to, and that of its words. What they held before stays until
/// there is a trace to write in its place; then the words are written, too. Contracts see the first file.
#[derive(Drop)]
pub struct TraceFiles<F> {
    file: F,
    beside: F,
    words: Vec<u8>,
    begun: bool,
}

impl<F: Write + OpenFile> TraceFiles<F> {
    /// Takes out what the files held before, and writes the words, where that is not done yet.
    fn begin(&mut self) -> io::Result<()>
        ensures { file_of self.new ≡ file_of self.old }
    {
        if self.begun {
            return Ok(());
        }
        empty(&self.beside)?;
        if write_whole(&mut self.beside, self.words.as_slice()).is_err() {
            return Err(io::Error::from(ErrorKind::Other));
        }
        empty(&self.file)?;
        self.begun = true;
        Ok(())
    }
}

impl<F: Write + OpenFile> Write for TraceFiles<F> {
    ghost use Rattle.cpgring.specs.Tracing.{file_of};

    ghost contents = { λ files. F.contents (file_of files) };

    fn write(&mut self, buf: &[u8]) -> io::Result<usize> {
        self.begin()?;
        self.file.write(buf)
    }

    fn flush(&mut self) -> io::Result<()> {
        self.file.flush()
    }
}

/// The heading of a trace, and its files, which hold yet what they held before.
pub fn open_trace<F: Files>(
    files: &F,
    alloc: Global,
    path: &str,
    settings: &Settings,
    words: &[&str],
) -> Result<(Vec<u8>, BufWriter<TraceFiles<F::File>>), NoTrace>
where
    F::File: Drop,
{
    let mut beside = String::new(alloc);
    beside.push_str(path)?;
    beside.push_str(".words")?;
    let written = TraceFiles {
        words: trace_words(alloc, settings, words)?,
        beside: open_kept(files, beside.as_str())?,
        file: open_kept(files, path)?,
        begun: false,
    };
    let heading = trace_heading(alloc, settings, words)?;
    let writer = BufWriter::new(alloc, written).map_err(|_| AllocError)?;
    Ok((heading, writer))
}

/// The exit status of a run that is to be traced, and there are no files for that, which is told.
pub fn end_untraced(rt: &HostRuntime, path: &str, why: NoTrace) -> Result<u8, Error> {
    match why {
        NoTrace::Memory => Err(Error::from(AllocError)),
        NoTrace::Unwritten(why) => Ok(tell_unread(rt.alloc(), &mut rt.stderr(), path, why)),
    }
}

/// The exit status of a run that has ended with that, and was traced: where the trace is not whole, that is told, and is a
/// fault.
pub fn end_trace<T, E: Write>(
    alloc: Global,
    errors: &mut E,
    path: &str,
    tracer: &Tracer<'_, T>,
    status: u8,
) -> u8 {
    match tracer.refused() {
        None => status,
        Some(_) => {
            let _ = tell_unread(alloc, errors, path, Unread::Cut);
            status.max(1)
        }
    }
}
