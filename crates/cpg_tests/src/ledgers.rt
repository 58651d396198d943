//! What ledgers of delivered entries have in common, and that nobody who reads them sees it.

use crate::shelves::leave;
use cpg_entry::{BLOCK, Call, Entry, Ledger, Message, Op, Refusal, Shelf};
use std::alloc::Global;
use std::test::Fail;

/// Puts the entry last, where the ledger has less than 1,000 entries, and asks it to share.
fn put(ledger: &mut Ledger, shelf: &Shelf, entry: Entry) -> Result<(), Refusal> {
    ledger.reserve(1)?;
    if ledger.len() < 1000 {
        ledger.push_reserved(entry);
        ledger.share(shelf);
    }
    Ok(())
}

/// A ledger of leaves by so many processes, from that one on, which was asked to share after each.
fn filled(alloc: Global, shelf: &Shelf, first: u32, count: u32) -> Result<Ledger, Refusal> {
    let mut ledger = Ledger::new(alloc);
    for index in 0..count {
        put(&mut ledger, shelf, leave(first.saturating_add(index))?)?;
    }
    Ok(ledger)
}

/// Whether the ledger has the leaves by so many processes, from that one on, and no entry else.
fn has_all(ledger: &Ledger, first: u32, count: usize) -> bool {
    if ledger.len() != count {
        return false;
    }
    let mut pid = first;
    for index in 0..count {
        if ledger.at(index).pid != pid {
            return false;
        }
        pid = pid.saturating_add(1);
    }
    true
}

/// Whether of so many entries so many stand in blocks then, and none is changed or lost.
fn shares(alloc: Global, shelf: &Shelf, count: u32, laid: usize) -> Result<bool, Refusal> {
    let ledger = filled(alloc, shelf, 1, count)?;
    Ok(has_all(&ledger, 1, count as usize) && ledger.in_blocks() == laid)
}

/// A block is shared once a ledger has two of its own, so that the last entries stay its own. The ledger that comes
/// first lays it down, and those that come later take it.
#[test]
fn equal_ledgers_share_blocks(rt: HostRuntime) -> Result<(), Fail> {
    let alloc = rt.alloc();
    let shelf = Shelf::new(alloc, 4096)?;
    assert!(rt; shares(alloc, &shelf, 900, 2 * BLOCK) == Ok(true));
    assert!(rt; shares(alloc, &shelf, 900, 2 * BLOCK) == Ok(true));
    assert!(rt; shares(alloc, &shelf, 512, BLOCK) == Ok(true));
    assert!(rt; shares(alloc, &shelf, 511, 0) == Ok(true));
    Ok(())
}

/// Whether a ledger of 600 entries, each by the process after that of the other ledgers, shares none and keeps all.
fn keeps_its_own(alloc: Global, shelf: &Shelf) -> Result<bool, Refusal> {
    let ledger = filled(alloc, shelf, 2, 600)?;
    Ok(has_all(&ledger, 2, 600) && ledger.in_blocks() == 0)
}

/// A ledger whose entries are others than those on the shelf keeps its own.
#[test]
fn another_ledger_keeps_its_own(rt: HostRuntime) -> Result<(), Fail> {
    let alloc = rt.alloc();
    let shelf = Shelf::new(alloc, 4096)?;
    assert!(rt; shares(alloc, &shelf, 600, BLOCK) == Ok(true));
    assert!(rt; keeps_its_own(alloc, &shelf) == Ok(true));
    assert!(rt; shares(alloc, &shelf, 600, BLOCK) == Ok(true));
    Ok(())
}

/// A shelf has a place for each whole block of the entries that it is made for, and none past them.
#[test]
fn a_short_shelf_takes_what_it_can(rt: HostRuntime) -> Result<(), Fail> {
    let alloc = rt.alloc();
    let shelf = Shelf::new(alloc, 300)?;
    assert!(rt; shares(alloc, &shelf, 900, BLOCK) == Ok(true));
    Ok(())
}

/// A message of 100 bytes by connection 1 of node 1, of that process.
fn long_send(alloc: Global, pid: u32) -> Result<Entry, Refusal> {
    let message = Message::from_slice(alloc, &[b'x'; 100])?;
    Ok(Entry {
        op: Op::Act(Call::Send(message)),
        ..leave(pid)?
    })
}

/// How many of 512 such messages, by processes from that one on, stand in blocks.
fn long_ones_laid(alloc: Global, shelf: &Shelf, first: u32) -> Result<usize, Refusal> {
    let mut ledger = Ledger::new(alloc);
    for index in 0..512u32 {
        let entry = long_send(alloc, first.saturating_add(index))?;
        put(&mut ledger, shelf, entry)?;
    }
    Ok(ledger.in_blocks())
}

/// Long messages stand in blocks of their ledger's own, whatever others there are: they are not looked for on the shelf.
#[test]
fn long_messages_have_blocks_of_their_own(rt: HostRuntime) -> Result<(), Fail> {
    let alloc = rt.alloc();
    let shelf = Shelf::new(alloc, 4096)?;
    assert!(rt; long_ones_laid(alloc, &shelf, 1) == Ok(BLOCK));
    assert!(rt; long_ones_laid(alloc, &shelf, 2) == Ok(BLOCK));
    Ok(())
}

/// A ledger that shared the first 256 of 600 entries on a shelf that is gone.
fn outlives_its_shelf(alloc: Global) -> Result<Ledger, Refusal> {
    let shelf = Shelf::new(alloc, 1000)?;
    filled(alloc, &shelf, 1, 600)
}

/// What was shared stays when the shelf goes.
#[test]
fn blocks_stay_without_the_shelf(rt: HostRuntime) -> Result<(), Fail> {
    let ledger = outlives_its_shelf(rt.alloc())?;
    assert!(rt; has_all(&ledger, 1, 600) && ledger.in_blocks() == BLOCK);
    Ok(())
}
