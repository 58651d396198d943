//! What is asked of a script, and why it is not told.

ghost use Rattle.std.specs.Prelude.{◌≡◌, None};
ghost use Rattle.cpg_why.specs.declared.asking.WhyFault.TheVariants.{Script};

use cpg_cred::Refusal;
use cpg_record::ConnId;
use cpg_text::Fault;
use thiserror::Error;

/// What is asked of the entries of a script.
#[derive(Debug, Clone, Copy, PartialEq, Eq)]
pub enum Asked {
    /// Why the entry at that place was answered as it was; places are counted from 1.
    Place(u32),
    /// The same of each denied entry, in order, with a blank line between them.
    Denials,
    /// The way of that connection: each of its entries with its verdict, and each change of its group's members that
    /// it was told, in order. A connection that made no entry has none, and is missing.
    Connection(ConnId),
    /// Why the entry at that place told the connection something, or did not, and what.
    To(u32, ConnId),
    /// The same of each connection whose first entry a process of that pid made, in the order of these.
    ToProcess(u32, u32),
    /// Why the entry was answered as it was that told that connection its event of that number; events are counted
    /// from 1, in the order in which the connection was told them.
    Told(ConnId, u32),
}

/// What is asked of and is not there.
#[derive(Debug, Clone, Copy, PartialEq, Eq, Error)]
pub enum Missing {
    /// No entry stands at the place, as there are so many.
    #[error("no entry {place}: there are {entries}")]
    Entry {
        place: u32,
        entries: u32,
    },
    /// The connection made no entry; so many connections made one.
    #[error("no entry of {}.{}: {conns} connections have one", .conn.node.get(), .conn.conn)]
    Connection {
        conn: ConnId,
        conns: u32,
    },
    /// No process of that pid made an entry; so many connections made one.
    #[error("no entry of process {pid}: {conns} connections have one")]
    Process {
        pid: u32,
        conns: u32,
    },
    /// The connection was told no event of that number, as it was told so many.
    #[error("no event {event} of {}.{}: it was told {events}", .conn.node.get(), .conn.conn)]
    Event {
        conn: ConnId,
        event: u32,
        events: u32,
    },
}

/// Why nothing is told, or not all.
#[derive(Debug, Drop, Error)]
pub enum WhyFault {
    /// The script cannot be read, has a bad line, memory is refused, or the writer fails.
    #[error("{0}")]
    Script(Fault),
    /// What is asked of is not there.
    #[error("{0}")]
    Missing(Missing),
}

impl From<Refusal> for WhyFault {
    ghost from_gives = { λ refusal fault. fault ≡ Script (record { part = None; refusal = refusal }) };

    fn from(refusal: Refusal) -> WhyFault {
        WhyFault::Script(Fault {
            part: None,
            refusal,
        })
    }
}
