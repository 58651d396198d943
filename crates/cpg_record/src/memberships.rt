//! The members of groups.

ghost use Rattle.std.specs.Prelude.{◌≡◌, ◌↔◌, ◌++◌, ◌∷◌, IsTrue, [], length, OnOk, OnErr, IfOk, IsOkUnless};
ghost use Rattle.std.specs.Arc.{arc_value};
ghost use Rattle.cpg_record.specs.Connections.{conn_in, member_of};
ghost use Rattle.cpg_record.specs.Steps.{members_after, without};
ghost use Rattle.cpg_record.specs.Verdicts.{has_process};

use crate::connections::ConnId;
use crate::records::Record;
use cpg_cred::{NodeId, Refusal};
use cpg_entry::{Call, Entry, Op};
use smallvec::SmallVec;
use std::alloc::Global;
use std::fmt;
use std::marker::Model;
use std::sync::Arc;

/// A member of a group: a connection with its process.
#[derive(Debug, Clone, Copy, Default, PartialEq, Eq)]
pub struct Member {
    pub node: NodeId,
    pub conn: u16,
    pub pid: u32,
}

impl Member {
    /// The member that the entry's connection is, or would be.
    pub fn of(entry: &Entry) -> Member
        ensures { result ≡ member_of entry.now }
    {
        Member {
            node: entry.node,
            conn: entry.conn,
            pid: entry.pid,
        }
    }

    /// The member's connection.
    pub fn conn_id(self) -> ConnId
        ensures { result ≡ conn_in self }
    {
        ConnId {
            node: self.node,
            conn: self.conn,
        }
    }
}

/// How many members a list keeps beside the count of its owners: a longer one has a second block of memory.
const KEPT_INSIDE: usize = 4;

type Kept = SmallVec<Member, KEPT_INSIDE>;

/// Members of a group, in the order of their joins. Contracts see it as their list. Copies share it.
#[derive(Drop)]
pub struct Members {
    alloc: Global,
    list: Option<Arc<Kept>>,
}

impl Model for Members {
    ghost use Rattle.std.specs.Prelude.{List};
    ghost use Rattle.cpg_record.specs.declared.memberships.Member.{Member};
    ghost use Rattle.cpg_record.specs.Shared.{shared};

    ghost Value = { List Member };

    ghost view = { λ members. shared members.list };
}

impl fmt::Debug for Members {
    fn fmt<W: fmt::Write>(&self, f: &mut fmt::Formatter<W>) -> fmt::Result {
        f.debug_list().slice(self.as_slice()).finish()
    }
}

impl Members {
    /// Nobody.
    pub fn new(alloc: Global) -> Members
        ensures { result ≡ [] }
    {
        Members { alloc, list: None }
    }

    /// Those members.
    pub fn from_slice(alloc: Global, members: &[Member]) -> Result<Members, Refusal>
        ensures ok { IfOk result (λ copy. copy ≡ members.now) }
        ensures memory { IsOkUnless result Refusal.Memory }
    {
        let list = Kept::from_slice(alloc, members)?;
        Ok(Members {
            alloc,
            list: Some(Arc::new(alloc, list)?),
        })
    }

    /// The same members.
    pub fn copy(&self, alloc: Global) -> Result<Members, Refusal>
        ensures ok { IfOk result (λ copy. copy ≡ self.now) }
        ensures memory { IsOkUnless result Refusal.Memory }
    {
        match &self.list {
            None => Ok(Members::new(alloc)),
            Some(list) => Ok(Members {
                alloc,
                list: Some(Arc::try_clone(list)?),
            }),
        }
    }

    /// The members.
    pub fn as_slice(&self) -> &[Member]
        ensures { result.now ≡ self.now }
    {
        match &self.list {
            None => &[],
            Some(list) => list.as_slice(),
        }
    }

    /// How many there are.
    pub fn len(&self) -> usize
        ensures { result ≡ length self.now }
    {
        self.as_slice().len()
    }

    /// Whether the lists are the same.
    pub fn equals(&self, other: &Members) -> bool
        ensures { IsTrue result ↔ (self.now ≡ other.now) }
    {
        self.as_slice() == other.as_slice()
    }

    /// Whether the entry's process is among them.
    pub fn has_process(&self, entry: &Entry) -> bool
        ensures { result ≡ has_process entry.now self.now }
    {
        let node = entry.node;
        let pid = entry.pid;
        self.as_slice()
            .iter()
            .any(|member| member.node == node && member.pid == pid)
    }

    /// Brings the members of a group past one record more.
    pub fn take_in(&mut self, past: &Record, group: &[u8]) -> Result<(), Refusal>
        ensures ok { OnOk result (self.new ≡ members_after past.now group.now self.old) }
        ensures err { OnErr result (self.new ≡ self.old) }
        ensures memory { IsOkUnless result Refusal.Memory }
    {
        if !past.verdict.is_allowed() {
            return Ok(());
        }
        match &past.entry.op {
            Op::Act(Call::Join(name)) => {
                if name.is(group) {
                    let list = with_member(self.alloc, self.as_slice(), Member::of(&past.entry))?;
                    self.list = Some(list);
                }
                Ok(())
            }
            Op::Act(Call::Leave) | Op::Gone => {
                let list = without_conn(self.alloc, self.as_slice(), &ConnId::of(&past.entry))?;
                self.list = Some(list);
                Ok(())
            }
            _ => Ok(()),
        }
    }
}

/// The members with one more, last.
fn with_member(alloc: Global, members: &[Member], member: Member) -> Result<Arc<Kept>, Refusal>
    ensures ok { IfOk result (λ list. (arc_value list).items ≡ members.now ++ member ∷ []) }
    ensures memory { IsOkUnless result Refusal.Memory }
{
    let mut list = Kept::with_capacity(alloc, members.len() + 1)?;
    list.extend_from_slice(members)?;
    list.push(member)?;
    Ok(Arc::new(alloc, list)?)
}

/// The members that are not that connection, in their order.
fn without_conn(alloc: Global, members: &[Member], conn: &ConnId) -> Result<Arc<Kept>, Refusal>
    ensures ok { IfOk result (λ list. (arc_value list).items ≡ without conn.now members.now) }
    ensures memory { IsOkUnless result Refusal.Memory }
{
    let list: Kept = members
        .iter()
        .copied()
        .filter(|member| !member.conn_id().is(conn))
        .collect(alloc)?;
    Ok(Arc::new(alloc, list)?)
}
