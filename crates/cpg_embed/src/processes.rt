//! Processes, in numbers.

ghost use Rattle.std.specs.Prelude.{◌≡◌};
ghost use Rattle.cpg_embed.specs.Processes.{process_of, moved_of, listed_of};

use cpg_cred::NodeId;
use cpg_entry::Entry;
use cpg_record::{Cause, Member, Move};

/// A process of a group, in numbers.
#[repr(C)]
#[derive(Clone, Copy)]
pub struct Process {
    /// The number of its node.
    pub node: u32,
    /// The number of its connection there, where it is told, else 0.
    pub conn: u32,
    pub pid: u32,
    /// Why it moved: 1 it left, 2 its connection ended, 3 it joined; 0 where it did not move.
    pub cause: u32,
}

impl Process {
    /// A member.
    pub(crate) fn of(member: &Member) -> Process
        ensures { result ≡ process_of member.now }
    {
        Process {
            node: u32::from(member.node.get()),
            conn: u32::from(member.conn),
            pid: member.pid,
            cause: 0,
        }
    }

    /// Who made an entry.
    pub(crate) fn of_maker(entry: &Entry) -> Process
        ensures { result ≡ record { node = entry.now.node; conn = entry.now.conn; pid = entry.now.pid; cause = 0 } }
    {
        Process::of(&Member::of(entry))
    }

    /// A member that left or joined.
    pub(crate) fn of_move(moved: &Move) -> Process
        ensures { result ≡ moved_of moved.now }
    {
        let cause = match moved.cause {
            Cause::Leave => 1,
            Cause::Down => 2,
            Cause::Join => 3,
        };
        Process {
            cause,
            ..Process::of(&moved.member)
        }
    }

    /// A process that was listed.
    pub(crate) fn of_listed(listed: (NodeId, u32)) -> Process
        ensures { result ≡ listed_of listed }
    {
        let (node, pid) = listed;
        Process {
            node: u32::from(node.get()),
            conn: 0,
            pid,
            cause: 0,
        }
    }
}
