//! What a cluster is tested by: a gate that says when turns begin, and what becomes of frames.

use cpg_cred::NodeId;

/// What becomes of a frame on its way into a link.
#[derive(Debug, Clone, Copy, PartialEq, Eq)]
pub enum Fate {
    /// It is put.
    Pass,
    /// It is lost.
    Drop,
    /// It is put twice.
    Repeat,
}

/// Says what becomes of frames, and when a node's turns begin. Every answer is lawful.
pub trait Gate {
    /// What becomes of a frame from one node to another. The index counts the frames of the two, in this
    /// direction, from 1, and stays at its last value.
    fn fate(&self, from: NodeId, to: NodeId, index: u64) -> Fate;

    /// Whether that turn of the node may begin; it is asked again until it may. Turns are numbered from 1, and
    /// the number stays at its last value.
    fn may_turn(&self, node: NodeId, turn: u64) -> bool;

    /// Whether every turn may begin at once. A thread takes several turns in a row under one lock then, and asks before the
    /// first of them alone; it asks no gate while it holds a lock.
    fn lets_all_begin(&self) -> bool {
        false
    }
}

/// The gate that passes every frame and lets every turn begin.
#[derive(Debug, Clone, Copy)]
pub struct PassAll;

impl Gate for PassAll {
    fn fate(&self, _from: NodeId, _to: NodeId, _index: u64) -> Fate {
        Fate::Pass
    }

    fn may_turn(&self, _node: NodeId, _turn: u64) -> bool {
        true
    }

    fn lets_all_begin(&self) -> bool {
        true
    }
}
