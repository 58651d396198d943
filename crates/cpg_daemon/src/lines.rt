//! The links of a cluster: which there are, and the ends that each node's thread holds.

use crate::gates::{Fate, Gate};
use cpg_cred::NodeId;
use cpg_history::{History, HistoryName, Parcel, Parcels};
use cpg_link::{LinkRx, LinkTx};
use std::sync::Wait;

/// How many frames a link of a cluster has room for.
pub(crate) const ROOM: usize = 64;

/// Between which nodes a link goes.
#[derive(Debug, Clone, Copy, PartialEq, Eq)]
pub(crate) struct Way {
    pub from: NodeId,
    pub to: NodeId,
}

impl Way {
    /// Ways in the order of the nodes that they come from, and then of those that they go to.
    pub fn by_source(self) -> u16 {
        u16::from(self.from.get()) * 16 + u16::from(self.to.get())
    }

    /// Ways in the order of the nodes that they go to, and then of those that they come from.
    pub fn by_target(self) -> u16 {
        u16::from(self.to.get()) * 16 + u16::from(self.from.get())
    }
}

/// The end of a link into which its node's thread puts frames.
#[derive(Drop)]
pub(crate) struct Outgoing<B: HistoryName> {
    pub way: Way,
    /// How many frames of this way the gate was asked for; it stays at its last value.
    pub index: u64,
    pub link: LinkTx<Parcel<B>>,
}

/// The end of a link from which its node's thread takes frames. It holds the turn's frame until the node hears it, and then
/// what the node answered until that is sent.
#[derive(Drop)]
pub(crate) struct Incoming<B: HistoryName> {
    pub way: Way,
    pub link: LinkRx<Parcel<B>>,
    pub frame: Option<Parcel<B>>,
    pub answer: Option<Parcels<B>>,
}

/// The ends that a node's thread holds.
#[derive(Drop)]
pub(crate) struct Lines<B: HistoryName> {
    pub outgoing: Vec<Outgoing<B>>,
    pub incoming: Vec<Incoming<B>>,
}

impl<B: HistoryName> Incoming<B> {
    /// The end of a new link.
    pub fn new(from: NodeId, to: NodeId, link: LinkRx<Parcel<B>>) -> Incoming<B> {
        Incoming {
            way: Way { from, to },
            link,
            frame: None,
            answer: None,
        }
    }
}

impl<B: HistoryName> Outgoing<B> {
    /// The end of a new link.
    pub fn new(from: NodeId, to: NodeId, link: LinkTx<Parcel<B>>) -> Outgoing<B> {
        Outgoing {
            way: Way { from, to },
            index: 0,
            link,
        }
    }

    /// Puts the frame, unless the link is full: then it is lost.
    fn put<R: Wait>(&mut self, rt: &R, frame: Parcel<B>) {
        let _ = self.link.put(rt, frame);
    }

    /// Sends the frame, as the gate has it. Where it is to be repeated and memory is refused for that, it is put once.
    pub fn send<G: Gate, R: Wait>(
        &mut self,
        rt: &R,
        gate: &G,
        history: &History<B>,
        mut frame: Parcel<B>,
    ) {
        self.index = self.index.saturating_add(1);
        match gate.fate(self.way.from, self.way.to, self.index) {
            Fate::Pass => self.put(rt, frame),
            Fate::Drop => {}
            Fate::Repeat => {
                if let Ok(again) = frame.again(history) {
                    self.put(rt, again);
                }
                self.put(rt, frame);
            }
        }
    }
}
