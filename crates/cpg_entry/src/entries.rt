//! Entries: what one connection asks, as the ring orders it.

ghost use Rattle.std.specs.Prelude.{◌≡◌, ◌≢◌, ◌↔◌, IsTrue, IfOk, OnErr, IsOkUnless};
ghost use Rattle.cpg_entry.specs.Entries.{asker_of};

use crate::calls::Op;
use cpg_rules::{Asker, Cred, NodeId, Refusal};
use std::alloc::Global;

/// What one connection asks, with who asks.
#[derive(Debug, PartialEq, Eq, Drop)]
pub struct Entry {
    /// The node of the connection.
    pub node: NodeId,
    /// The connection's number at its node, from 1.
    pub conn: u16,
    /// The process of the connection.
    pub pid: u32,
    /// The credentials of the connection.
    pub cred: Cred,
    pub op: Op,
}

impl Entry {
    /// The same entry.
    pub fn copy(&self, alloc: Global) -> Result<Entry, Refusal>
        ensures ok { IfOk result (λ entry. entry ≡ self.now) }
        ensures memory { IsOkUnless result Refusal.Memory }
        ensures gone { OnErr result ((self.now).op ≢ Op.Gone) }
    {
        let op = self.op.copy(alloc)?;
        Ok(Entry {
            node: self.node,
            conn: self.conn,
            pid: self.pid,
            cred: self.cred,
            op,
        })
    }

    /// Who asks, as rules see it.
    pub fn asker(&self) -> Asker
        ensures { result ≡ asker_of self.now }
    {
        Asker {
            node: self.node,
            cred: self.cred,
        }
    }

    /// Whether the entries are the same.
    pub fn equals(&self, other: &Entry) -> bool
        ensures { IsTrue result ↔ (self.now ≡ other.now) }
    {
        self.node == other.node
            && self.conn == other.conn
            && self.pid == other.pid
            && self.cred == other.cred
            && self.op.equals(&other.op)
    }
}
