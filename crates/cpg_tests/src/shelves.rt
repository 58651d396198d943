//! What a station that delivered lays down on its board's shelf.

ghost use Rattle.std.specs.Prelude.{◌≡◌, ◌≤◌, IfOk};
ghost use Rattle.cpg_entry.specs.Ranges.{IsEntry};

use bytes::Bytes;
use cpg_board::Board;
use cpg_cred::{AcceptList, Cred, NodeId, Refusal};
use cpg_entry::{Call, Entry, Ledger, Op, Packet, Shelf};
use cpg_node::{Node, Settings};
use cpg_station::{BoardName, Station};
use cpg_wire::encode_data;
use std::alloc::Global;
use std::marker::Brand;
use std::test::Fail;

/// How many places are delivered: a ledger with so many entries of its own looks at the shelf.
const COUNT: u32 = 512;

/// A leave by connection 1 of node 1, of that process.
pub fn leave(pid: u32) -> Result<Entry, Refusal>
    ensures { IfOk result IsEntry }
{
    Ok(Entry {
        node: NodeId::new(1).ok_or(Refusal::Range)?,
        conn: 1,
        pid,
        cred: Cred { uid: 7, gid: 100 },
        op: Op::Act(Call::Leave),
    })
}

/// The station of that node of two, with a new seat of the board.
fn new_station<B: BoardName>(
    alloc: Global,
    board: &Board,
    number: u8,
) -> Result<Station<B>, Refusal> {
    let settings = Settings {
        ring: 1,
        nodes: 2,
        places: 1000,
        hops: 100,
    };
    let id = NodeId::new(number).ok_or(Refusal::Range)?;
    let list = AcceptList::new(alloc);
    match Node::new(alloc, settings, id, list) {
        Ok(node) => Ok(Station::new(node, board.seat())),
        Err(refused) => Err(refused.into_refusal()),
    }
}

/// The spelling of a packet that brings such a leave, by process 40, at that place.
fn spelled(alloc: Global, place: u32) -> Result<Bytes, Refusal>
    requires from { 1 ≤ place }
    requires up_to { place ≤ COUNT }
{
    let entry = leave(40)?;
    let packet = Packet {
        ring: 1,
        place,
        entry,
    };
    encode_data(alloc, &packet)
}

/// The station hears the packet of that place, and delivers it.
fn deliver_next<B: BoardName>(
    alloc: Global,
    board: &Board,
    station: &mut Station<B>,
    place: u32,
) -> Result<(), Refusal>
    requires board { board.now.cells ≡ B.cells }
    requires from { 1 ≤ place }
    requires up_to { place ≤ COUNT }
{
    let bytes = spelled(alloc, place)?;
    station.frame(bytes.as_slice())?;
    station.deliver(board)?;
    Ok(())
}

/// Whether the station delivers all places.
fn delivers_all<B: BoardName>(
    alloc: Global,
    board: &Board,
    station: &mut Station<B>,
) -> Result<bool, Refusal>
    requires { board.now.cells ≡ B.cells }
{
    for before in 0..COUNT {
        deliver_next(alloc, board, station, before + 1)?;
    }
    Ok(station.delivered() == COUNT)
}

/// Whether other entries lie on the shelf than those of a new ledger, which takes none of them then, and else lays its
/// own down.
fn holds_others(alloc: Global, shelf: &Shelf) -> Result<bool, Refusal> {
    let mut ledger = Ledger::new(alloc);
    for _ in 0..COUNT {
        ledger.reserve(1)?;
        let entry = leave(41)?;
        if ledger.len() < COUNT as usize {
            ledger.push_reserved(entry);
            ledger.share(shelf);
        }
    }
    Ok(ledger.in_blocks() == 0)
}

/// A station of that node that delivered all places.
fn delivered<B: BoardName>(alloc: Global, board: &Board, number: u8) -> Result<Station<B>, Refusal>
    requires { board.now.cells ≡ B.cells }
{
    let mut station = new_station::<B>(alloc, board, number)?;
    match delivers_all(alloc, board, &mut station) {
        Ok(true) => Ok(station),
        _ => Err(Refusal::Memory),
    }
}

/// Whether a station that delivered all places laid them down.
fn lays_down<B: BoardName>(alloc: Global, board: &Board) -> Result<bool, Refusal>
    requires { board.now.cells ≡ B.cells }
{
    drop(delivered::<B>(alloc, board, 1)?);
    holds_others(alloc, board.shelf())
}

#[test]
fn a_station_lays_down_what_it_delivered(rt: HostRuntime) -> Result<(), Fail> {
    let board = Board::new(rt.alloc(), COUNT)?;
    assert!(rt; lays_down::<Brand>(rt.alloc(), &board) == Ok(true));
    Ok(())
}

/// On an empty shelf a ledger lays its own down: so what is found above is the station's.
#[test]
fn an_empty_shelf_holds_no_others(rt: HostRuntime) -> Result<(), Fail> {
    let board = Board::new(rt.alloc(), COUNT)?;
    assert!(rt; holds_others(rt.alloc(), board.shelf()) == Ok(false));
    Ok(())
}
