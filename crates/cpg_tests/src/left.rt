//! What a stopped cluster leaves: its stations in their order, and the frames in its links.

use cpg_daemon::{Ends, HistoryName, Parcel, Station};
use cpg_link::{LinkRx, LinkTx};
use std::sync::Wait;

/// What is wanted of the frames in the links of a cluster that was stopped.
#[derive(Clone, Copy)]
pub enum Left {
    /// Any.
    Any,
    /// So many from the last node to node 1, from node 1 to node 2 and from node 1 to each further node; between others
    /// there are none.
    Frames {
        to_first: usize,
        to_second: usize,
        to_further: usize,
        /// Whether one is of more than 8,192 bytes on each way with more than one.
        long: bool,
    },
}

/// Whether the station is that node's, by its first connection, if that is open.
fn is_of<B: HistoryName>(station: &Station<B>, number: u8) -> bool {
    match station.connection(1) {
        Some(who) => who.id.node.get() == number,
        None => true,
    }
}

/// Whether it is the halted station of the node of that number.
fn is_station<B: HistoryName>(station: &Station<B>, number: u8) -> bool {
    is_of(station, number) && station.halted
}

/// Whether these are the stations of so many nodes, in their order.
fn are_stations<B: HistoryName>(stations: &[Station<B>], nodes: u8) -> bool {
    let mut number = 0u8;
    for station in stations {
        number = number.saturating_add(1);
        if !is_station(station, number) {
            return false;
        }
    }
    number == nodes
}

/// How many frames are in the link, and whether one of them is of more than 8,192 bytes. The last of them is kept.
fn drain<B: HistoryName, R: Wait>(
    rt: &R,
    receiver: &mut LinkRx<Parcel<B>>,
    last: &mut Option<Parcel<B>>,
) -> (usize, bool) {
    let mut count = 0usize;
    let mut long = false;
    for _ in 0..5_000 {
        let Some(frame) = receiver.take(rt) else {
            break;
        };
        count = count.saturating_add(1);
        long = long || frame.bytes().len() > 8_192;
        *last = Some(frame);
    }
    (count, long)
}

/// How many frames are wanted from one node to another of so many, and whether one is long.
fn wanted(nodes: u8, left: Left, way: (u8, u8)) -> Option<(usize, bool)> {
    let Left::Frames {
        to_first,
        to_second,
        to_further,
        long,
    } = left
    else {
        return None;
    };
    let count = match way {
        (from, 1) if from == nodes => to_first,
        (1, 2) => to_second,
        (1, _) => to_further,
        _ => 0,
    };
    Some((count, long && count > 1))
}

/// Whether the link leaves what is wanted.
fn is_link<B: HistoryName, R: Wait>(
    rt: &R,
    wanted: Option<(usize, bool)>,
    receiver: &mut LinkRx<Parcel<B>>,
    last: &mut Option<Parcel<B>>,
) -> bool {
    let drained = drain(rt, receiver, last);
    match wanted {
        Some(frames) => drained == frames,
        None => true,
    }
}

/// The node to which the next link goes that comes from the node, after one that goes to that.
fn target_after(from: u8, to: u8) -> u8 {
    let next = to.saturating_add(1);
    if next == from {
        next.saturating_add(1)
    } else {
        next
    }
}

/// Whether the links are those of so many nodes, in the order of the nodes that they come from, and then of those that
/// they go to. They are empty then, and the last frame is kept.
fn are_links<B: HistoryName, R: Wait>(
    rt: &R,
    nodes: u8,
    left: Left,
    links: &mut [(LinkTx<Parcel<B>>, LinkRx<Parcel<B>>)],
    last: &mut Option<Parcel<B>>,
) -> bool {
    let mut way = if nodes == 1 { (1, 1) } else { (1, 2) };
    let mut count = 0u8;
    for (_, receiver) in links.iter_mut() {
        if !is_link(rt, wanted(nodes, left, way), receiver, last) {
            return false;
        }
        count = count.saturating_add(1);
        let next = target_after(way.0, way.1);
        way = if next > nodes {
            let from = way.0.saturating_add(1);
            (from, target_after(from, 0))
        } else {
            (way.0, next)
        };
    }
    u32::from(count) == u32::from(nodes) * u32::from(nodes.saturating_sub(1).max(1))
}

/// The frame, which is put into the link, as it comes out at the other end.
fn carried<B: HistoryName, R: Wait>(
    rt: &R,
    sender: &mut LinkTx<Parcel<B>>,
    receiver: &mut LinkRx<Parcel<B>>,
    frame: Parcel<B>,
) -> Option<Parcel<B>> {
    match sender.put(rt, frame) {
        Ok(()) => receiver.take(rt),
        Err(_) => None,
    }
}

/// Whether the two ends of each pair are those of one link: the frame goes through each of the empty links.
fn are_paired<B: HistoryName, R: Wait>(
    rt: &R,
    links: &mut [(LinkTx<Parcel<B>>, LinkRx<Parcel<B>>)],
    frame: Parcel<B>,
) -> bool {
    let mut on_its_way = frame;
    for (sender, receiver) in links.iter_mut() {
        match carried(rt, sender, receiver, on_its_way) {
            Some(frame) => on_its_way = frame,
            None => return false,
        }
    }
    true
}

/// Whether that is what so many nodes leave, which is let go: where a link has a frame, the pairs are of one link each.
pub fn are_left<B: HistoryName, R: Wait>(rt: &R, nodes: u8, left: Left, mut ends: Ends<B>) -> bool {
    let stations = are_stations(ends.stations.as_slice(), nodes);
    let mut last = None;
    let links = are_links(rt, nodes, left, ends.links.as_mut_slice(), &mut last);
    let pairs = match last {
        Some(frame) => are_paired(rt, ends.links.as_mut_slice(), frame),
        None => true,
    };
    drop(ends);
    stations && links && pairs
}
