//! Texts read and written whole, over streams that are interrupted, come in pieces, take pieces or fail.

use crate::streams::{Short, Slow};
use cpg_cred::Refusal;
use cpg_text::{read_whole, write_whole};
use std::alloc::Global;
use std::io::{self, Error, ErrorKind, Read};
use std::test::Fail;

/// Is interrupted first, and then gives one byte a read.
#[derive(Drop)]
struct Interrupted<'a> {
    slow: Slow<'a>,
    was: bool,
}

impl Read for Interrupted<'_> {
    fn read(&mut self, buf: &mut [u8]) -> io::Result<usize> {
        if !self.was {
            self.was = true;
            return Err(Error::from(ErrorKind::Interrupted));
        }
        self.slow.read(buf)
    }
}

/// Gives `one`, a line feed and `two`, is interrupted first, and fails after so many reads.
fn two_lines(until: usize) -> Interrupted<'static> {
    Interrupted {
        slow: Slow {
            rest: b"one\ntwo",
            until,
        },
        was: false,
    }
}

#[test]
fn reads_whole_byte_by_byte(rt: HostRuntime) -> Result<(), Fail> {
    let mut reader = two_lines(8);
    let text = read_whole(rt.alloc(), &mut reader)?;
    assert_eq!(rt; text.as_slice(), b"one\ntwo".as_slice());
    Ok(())
}

#[test]
fn reads_as_often_as_there_are_bytes(rt: HostRuntime) -> Result<(), Fail> {
    let mut reader = Slow {
        rest: [b'x'; 70_000].as_slice(),
        until: 70_001,
    };
    assert_eq!(rt; read_whole(rt.alloc(), &mut reader)?.len(), 70_000);
    Ok(())
}

#[test]
fn a_reader_that_fails_in_mid_stream_is_a_read_fault(rt: HostRuntime) {
    for until in 0..8 {
        let mut reader = two_lines(until);
        let read = read_whole(rt.alloc(), &mut reader);
        assert!(rt; matches!(&read, Err(Refusal::Read)));
    }
}

/// What is written to a writer that takes so many bytes, and then fails or takes nothing, and whether it was refused.
fn written(alloc: Global, text: &[u8], until: usize, fails: bool) -> (Vec<u8>, bool) {
    let mut writer = Short {
        got: Vec::new(alloc),
        until,
        fails,
    };
    let refused = write_whole(&mut writer, text) == Err(Refusal::Write);
    (writer.got, refused)
}

#[test]
fn writes_a_front_and_fails(rt: HostRuntime) {
    let text = b"hello all\n".as_slice();
    for fails in [true, false] {
        for until in 0..=10usize {
            let (got, refused) = written(rt.alloc(), text, until, fails);
            assert!(rt; got.as_slice() == &text[..until] && refused == (until < 10));
        }
    }
}
