//! Switches of a running cluster: nodes that are held, and pairs of nodes that are cut.

use cpg_cred::NodeId;
use cpg_daemon::{Fate, Gate};
use std::alloc::Global;
use std::sync::Arc;
use std::sync::atomic::{AtomicU64, Ordering};

/// One turn of a switch.
#[derive(Debug, Clone, Copy)]
pub enum Switch {
    /// The node's turns wait.
    Hold(NodeId),
    /// They go on.
    Let(NodeId),
    /// All frames between the two nodes are lost.
    Cut(NodeId, NodeId),
    /// They come again.
    Mend(NodeId, NodeId),
}

/// Which nodes are held, and which pairs are cut, a bit for each.
#[derive(Drop)]
pub struct Switches {
    held: AtomicU64,
    cut: AtomicU64,
}

/// The bit of a node.
fn bit_of(node: NodeId) -> u64 {
    1u64.wrapping_shl(u32::from(node.get()))
}

/// The bit of the way from one node to another.
fn way_of(from: NodeId, to: NodeId) -> u64 {
    1u64.wrapping_shl(u32::from(from.get() - 1) * 8 + u32::from(to.get() - 1))
}

impl Switches {
    /// No node is held, and none are cut.
    pub fn open() -> Switches {
        Switches {
            held: AtomicU64::new(0),
            cut: AtomicU64::new(0),
        }
    }

    /// Turns a switch.
    pub fn turn(&self, switch: Switch) {
        match switch {
            Switch::Hold(node) => {
                self.held.fetch_or(bit_of(node), Ordering::SeqCst);
            }
            Switch::Let(node) => {
                self.held.fetch_and(!bit_of(node), Ordering::SeqCst);
            }
            Switch::Cut(one, other) => {
                let ways = way_of(one, other) | way_of(other, one);
                self.cut.fetch_or(ways, Ordering::SeqCst);
            }
            Switch::Mend(one, other) => {
                let ways = way_of(one, other) | way_of(other, one);
                self.cut.fetch_and(!ways, Ordering::SeqCst);
            }
        }
    }

    /// Whether the node is held.
    pub fn is_held(&self, node: NodeId) -> bool {
        self.held.load(Ordering::SeqCst) & bit_of(node) != 0
    }

    /// Whether frames from one node to another are lost.
    pub fn is_cut(&self, from: NodeId, to: NodeId) -> bool {
        self.cut.load(Ordering::SeqCst) & way_of(from, to) != 0
    }
}

/// A gate behind switches.
#[derive(Drop)]
pub struct Switched<G> {
    switches: Arc<Switches, Global>,
    gate: G,
}

impl<G> Switched<G> {
    /// The gate behind those switches.
    pub fn new(switches: Arc<Switches, Global>, gate: G) -> Switched<G> {
        Switched { switches, gate }
    }
}

impl<G: Gate> Gate for Switched<G> {
    fn fate(&self, from: NodeId, to: NodeId, index: u64) -> Fate {
        if self.switches.is_cut(from, to) {
            Fate::Drop
        } else {
            self.gate.fate(from, to, index)
        }
    }

    fn may_turn(&self, node: NodeId, turn: u64) -> bool {
        !self.switches.is_held(node) && self.gate.may_turn(node, turn)
    }
}
