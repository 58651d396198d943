//! Connections, as all nodes know them.

ghost use Rattle.std.specs.Prelude.{◌≡◌};
ghost use Rattle.cpg_record.specs.Connections.{conn_of, is_conn};

use cpg_cred::NodeId;
use cpg_entry::Entry;

/// A connection, as all nodes know it: its node and its number there, from 1.
#[derive(Debug, Clone, Copy, PartialEq, Eq, PartialOrd, Ord, Hash)]
pub struct ConnId {
    pub node: NodeId,
    pub conn: u16,
}

impl ConnId {
    /// The connection that made the entry.
    pub fn of(entry: &Entry) -> ConnId
        ensures { result ≡ conn_of entry.now }
    {
        ConnId {
            node: entry.node,
            conn: entry.conn,
        }
    }

    /// Whether the two are one connection.
    pub fn is(&self, other: &ConnId) -> bool
        ensures { result ≡ is_conn self.now other.now }
    {
        self.node == other.node && self.conn == other.conn
    }
}
