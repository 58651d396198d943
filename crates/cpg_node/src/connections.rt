//! Connections, as their node keeps them and as it tells them.

ghost use Rattle.std.specs.Prelude.{◌≡◌, ◌≤◌};
ghost use Rattle.cpg_entry.specs.Ranges.{IsOp, IsEntry};

use cpg_cred::{Cred, NodeId};
use cpg_entry::{Entry, Op};
use cpg_record::ConnId;
use cpg_rules::Asker;

/// A connection, as its node keeps it.
#[derive(Debug, Clone, Copy, PartialEq, Eq)]
pub struct Client {
    /// Its process.
    pub pid: u32,
    pub cred: Cred,
    /// It was disconnected.
    pub ended: bool,
    /// How many events it took.
    pub taken: u32,
}

impl Client {
    /// What the connection of that number asks.
    pub fn entry(self, node: NodeId, conn: u16, op: Op) -> Entry
        ensures made { result ≡ record { node = node; conn = conn; pid = self.pid; cred = self.cred; op = op } }
        ensures ruled { 1 ≤ conn → IsOp op → IsEntry result }
    {
        Entry {
            node,
            conn,
            pid: self.pid,
            cred: self.cred,
            op,
        }
    }

    /// Who asks, as rules see it.
    pub fn asker(&self, node: NodeId) -> Asker
        ensures { result ≡ record { node = node; cred = self.now.cred } }
    {
        Asker {
            node,
            cred: self.cred,
        }
    }
}

/// An open connection, as its node tells it.
#[derive(Debug, Clone, Copy, PartialEq, Eq)]
pub struct Connection {
    pub id: ConnId,
    pub pid: u32,
    pub cred: Cred,
    /// How many events it took.
    pub taken: u32,
}
