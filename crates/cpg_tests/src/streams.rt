//! Streams that come in pieces and take pieces, and that fail.

use std::io::{self, Error, ErrorKind, Read, Write};

/// Gives one byte a read, and fails after so many reads.
#[derive(Drop)]
pub struct Slow<'a> {
    pub rest: &'a [u8],
    pub until: usize,
}

impl Read for Slow<'_> {
    fn read(&mut self, buf: &mut [u8]) -> io::Result<usize> {
        if self.until == 0 {
            return Err(Error::from(ErrorKind::Other));
        }
        self.until -= 1;
        let Some((first, rest)) = self.rest.split_first() else {
            return Ok(0);
        };
        if buf.is_empty() {
            return Ok(0);
        }
        buf[0] = *first;
        self.rest = rest;
        Ok(1)
    }
}

/// Takes one byte a write, and after so many fails, or takes nothing.
#[derive(Drop)]
pub struct Short {
    pub got: Vec<u8>,
    pub until: usize,
    pub fails: bool,
}

impl Write for Short {
    fn write(&mut self, buf: &[u8]) -> io::Result<usize> {
        if self.until == 0 && self.fails {
            return Err(Error::from(ErrorKind::Other));
        }
        if self.until == 0 {
            return Ok(0);
        }
        let Some(first) = buf.first() else {
            return Ok(0);
        };
        self.until -= 1;
        match self.got.push(*first) {
            Ok(()) => Ok(1),
            Err(_) => Err(Error::from(ErrorKind::OutOfMemory)),
        }
    }

    fn flush(&mut self) -> io::Result<()> {
        Ok(())
    }
}
