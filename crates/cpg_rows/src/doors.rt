//! `%accept WORD ..`: names, conf texts and who is let in.

use crate::player::{Plays, Row};
use crate::printing::put_debug;
use crate::words::{NO_COMMAND, accept_list, add_to, cred, first, index, one, two};
use cpg_conf::{Names, read_conf};
use cpg_cred::{AcceptList, Refusal, Via};
use cpg_print::put_refused_line;
use cpg_text::{put, put_bytes};
use std::alloc::Global;

/// The names that are known, and the list that lets users and groups in.
#[derive(Drop)]
pub struct Door {
    list: AcceptList,
    names: Names,
}

/// Puts a copy of the list.
fn put_copy(alloc: Global, line: &mut Vec<u8>, list: &AcceptList) -> Result<(), Refusal> {
    let copy = list.copy(alloc)?;
    let put = put_debug(alloc, line, &copy);
    drop(copy);
    put
}

/// Puts what the text adds to no list, or its fault.
fn put_told(alloc: Global, line: &mut Vec<u8>, names: &Names, text: &[u8]) -> Result<(), Refusal> {
    match read_conf(alloc, text, names, AcceptList::new(alloc)) {
        Ok(list) => {
            let put = put_debug(alloc, line, &list);
            drop(list);
            put
        }
        Err(refused) => put_fault(alloc, line, refused.into_refusal()),
    }
}

fn put_fault(alloc: Global, line: &mut Vec<u8>, refusal: Refusal) -> Result<(), Refusal> {
    if refusal == Refusal::Memory {
        return Err(refusal);
    }
    put_refused_line(alloc, line, refusal)
}

/// Puts the told line, unless the line ends so already.
fn put_once(line: &mut Vec<u8>, told: &[u8]) -> Result<(), Refusal> {
    if line.as_slice().ends_with(told) {
        return Ok(());
    }
    put_bytes(line, told)
}

/// The first bytes of the text.
fn front(text: &[u8], length: usize) -> Result<&[u8], Refusal> {
    if length <= text.len() {
        Ok(&text[..length])
    } else {
        Err(NO_COMMAND)
    }
}

fn said(via: Via) -> &'static str {
    match via {
        Via::RootUser => "accepted root-user\n",
        Via::RootGroup => "accepted root-group\n",
        Via::User => "accepted user\n",
        Via::Group => "accepted group\n",
    }
}

impl Door {
    pub fn new(alloc: Global, text: &[u8]) -> Result<Door, Refusal> {
        Ok(Door {
            list: accept_list(alloc, text)?,
            names: Names::new(alloc),
        })
    }

    fn read_names(
        &mut self,
        alloc: Global,
        line: &mut Vec<u8>,
        text: &[u8],
    ) -> Result<(), Refusal> {
        self.names = Names::read(alloc, text)?;
        put(line, "read\n")
    }

    /// Reads the conf text to the list, which comes back where it has a fault.
    fn read_conf(&mut self, alloc: Global, line: &mut Vec<u8>, text: &[u8]) -> Result<(), Refusal> {
        let list = std::mem::replace(&mut self.list, AcceptList::new(alloc));
        match read_conf(alloc, text, &self.names, list) {
            Ok(list) => {
                self.list = list;
                put(line, "read\n")
            }
            Err(refused) => {
                self.list = refused.back;
                Err(refused.refusal)
            }
        }
    }

    /// `cut FIRST [LAST]`: what the block's first bytes add to no list, for each length.
    fn cut(&self, alloc: Global, line: &mut Vec<u8>, row: &Row<'_>) -> Result<(), Refusal> {
        let (low, rest) = first(row.rest)?;
        let high = if rest.is_empty() { low } else { one(rest)? };
        let mut told = Vec::new(alloc);
        let cut = self.cut_each(
            alloc,
            line,
            &mut told,
            row.block,
            [index(low)?, index(high)?],
        );
        drop(told);
        cut
    }

    fn cut_each(
        &self,
        alloc: Global,
        line: &mut Vec<u8>,
        told: &mut Vec<u8>,
        block: &[u8],
        ends: [usize; 2],
    ) -> Result<(), Refusal> {
        for length in ends[0]..=ends[1] {
            told.clear();
            put_told(alloc, told, &self.names, front(block, length)?)?;
            put_once(line, told.as_slice())?;
        }
        Ok(())
    }

    fn ask(&self, line: &mut Vec<u8>, text: &[u8]) -> Result<(), Refusal> {
        let (uid, gid) = two(text)?;
        put(line, said(self.list.accepts(cred(uid, gid)?)?))
    }
}

impl Plays for Door {
    fn make(&mut self, alloc: Global, line: &mut Vec<u8>, row: &Row<'_>) -> Result<(), Refusal> {
        if row.is("ask") {
            return self.ask(line, row.rest);
        }
        if row.is("add") {
            add_to(&mut self.list, row.rest)?;
            return put(line, "added\n");
        }
        if row.is("names") {
            return self.read_names(alloc, line, row.block);
        }
        if row.is("conf") {
            return self.read_conf(alloc, line, row.block);
        }
        if row.is("cut") {
            return self.cut(alloc, line, row);
        }
        if row.is("copy") {
            return put_copy(alloc, line, &self.list);
        }
        Err(NO_COMMAND)
    }

    fn put_state(&self, alloc: Global, text: &mut Vec<u8>) -> Result<(), Refusal> {
        put_debug(alloc, text, &self.list)
    }
}
