//! `%link CAPACITY`: a link of texts.

ghost use Rattle.cpg_link.specs.Links.{AreEnds};

use crate::player::{Plays, Row};
use crate::words::{NO_COMMAND, index, one};
use cpg_cred::Refusal;
use cpg_link::{LinkRx, LinkTx, close, link};
use cpg_text::{push_message, put, read_message};
use std::alloc::Global;
use std::sync::Wait;

/// The ends of one link.
#[derive(Drop)]
struct Pair {
    sender: LinkTx<Vec<u8>>,
    receiver: LinkRx<Vec<u8>>,
    ghost ends: { AreEnds sender receiver },
}

#[derive(Drop)]
pub struct Linked<'r, R: Wait> {
    rt: &'r R,
    pair: Option<Pair>,
}

/// Puts the text behind that word, as a line.
fn put_text(line: &mut Vec<u8>, word: &str, text: &[u8]) -> Result<(), Refusal> {
    put(line, word)?;
    push_message(line, text)?;
    put(line, "\n")
}

/// Puts a line for each of the texts.
fn put_each_left(line: &mut Vec<u8>, left: &[Vec<u8>]) -> Result<(), Refusal> {
    for text in left {
        put_text(line, "left ", text.as_slice())?;
    }
    put(line, "closed\n")
}

/// The same, where the texts are let go.
fn put_left(line: &mut Vec<u8>, left: Vec<Vec<u8>>) -> Result<(), Refusal> {
    let put = put_each_left(line, left.as_slice());
    drop(left);
    put
}

/// The text that the word spells.
fn read_text(alloc: Global, word: &[u8]) -> Result<Vec<u8>, Refusal> {
    match read_message(alloc, word)? {
        Some(text) => Ok(text),
        None => Err(NO_COMMAND),
    }
}

impl Pair {
    fn put<R: Wait>(&mut self, rt: &R, line: &mut Vec<u8>, text: Vec<u8>) -> Result<(), Refusal> {
        match self.sender.put(rt, text) {
            Ok(()) => put(line, "put\n"),
            Err(back) => put_text(line, "full ", back.as_slice()),
        }
    }

    fn take<R: Wait>(&mut self, rt: &R, line: &mut Vec<u8>) -> Result<(), Refusal> {
        match self.receiver.take(rt) {
            Some(text) => put_text(line, "", text.as_slice()),
            None => put(line, "none\n"),
        }
    }
}

impl<'r, R: Wait> Linked<'r, R> {
    pub fn new(rt: &'r R, alloc: Global, text: &[u8]) -> Result<Linked<'r, R>, Refusal> {
        let (sender, receiver) = link(alloc, index(one(text)?)?)?;
        Ok(Linked {
            rt,
            pair: Some(Pair { sender, receiver }),
        })
    }

    fn pair(&mut self) -> Result<&mut Pair, Refusal> {
        self.pair.as_mut().ok_or(NO_COMMAND)
    }

    fn put(&mut self, alloc: Global, line: &mut Vec<u8>, word: &[u8]) -> Result<(), Refusal> {
        let text = read_text(alloc, word)?;
        let rt = self.rt;
        match self.pair() {
            Ok(pair) => pair.put(rt, line, text),
            Err(refusal) => Err(refusal),
        }
    }

    fn take(&mut self, line: &mut Vec<u8>) -> Result<(), Refusal> {
        let rt = self.rt;
        self.pair()?.take(rt, line)
    }

    /// Closes the link, which comes back where that is refused.
    fn close(&mut self, alloc: Global, line: &mut Vec<u8>) -> Result<(), Refusal> {
        match self.pair.take() {
            Some(pair) => self.close_pair(alloc, line, pair),
            None => Err(NO_COMMAND),
        }
    }

    fn close_pair(&mut self, alloc: Global, line: &mut Vec<u8>, pair: Pair) -> Result<(), Refusal> {
        match close(self.rt, alloc, pair.sender, pair.receiver) {
            Ok(left) => put_left(line, left),
            Err(refused) => {
                let (sender, receiver) = refused.back;
                self.pair = Some(Pair { sender, receiver });
                Err(refused.refusal)
            }
        }
    }
}

impl<R: Wait> Plays for Linked<'_, R> {
    fn make(&mut self, alloc: Global, line: &mut Vec<u8>, row: &Row<'_>) -> Result<(), Refusal> {
        if row.is("put") {
            return self.put(alloc, line, one(row.rest)?);
        }
        if row.is("take") {
            return self.take(line);
        }
        if row.is("close") {
            return self.close(alloc, line);
        }
        Err(NO_COMMAND)
    }

    fn put_state(&self, _alloc: Global, text: &mut Vec<u8>) -> Result<(), Refusal> {
        put(
            text,
            if self.pair.is_some() {
                "open\n"
            } else {
                "closed\n"
            },
        )
    }
}
