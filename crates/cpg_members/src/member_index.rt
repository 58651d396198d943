//! The members of a group, with the set of their processes where they are more than a few: whether a process
//! is a member is one search of the set there, and a look at each of the few members elsewhere. The set is
//! boxed, so that a group of few members, as nearly each is, pays no more than the place of a box.

ghost use Rattle.std.specs.Prelude.{◌≡◌, ◌++◌, ◌∷◌, [], OnOk, OnErr, IfOk, IsOkUnless};
ghost use Rattle.cpg_record.specs.Connections.{conn_of, member_of};
ghost use Rattle.cpg_record.specs.Verdicts.{has_process};
ghost use Rattle.cpg_members.specs.Processes.{kept_of, process_in, process_of, AreKept, AreProcesses, ComesTo, Leaves, TakesOut};

use cpg_cred::{NodeId, Refusal};
use cpg_entry::{Call, Entry, Op};
use cpg_record::{ConnId, Member, Members, Record};
use indexmap::IndexSet;
use std::alloc::Global;
use std::marker::Model;

/// The most members whose processes no set keeps. Most groups have no more, and need no memory for a set.
const FEW: usize = 8;

/// A process: its node and its pid there.
#[derive(Debug, Clone, Copy, PartialEq, Eq, Hash)]
struct Process {
    node: NodeId,
    pid: u32,
}

impl Process {
    /// The process of an entry.
    fn of(entry: &Entry) -> Process
        ensures { result ≡ process_of entry.now }
    {
        Process {
            node: entry.node,
            pid: entry.pid,
        }
    }

    /// The process of a member.
    fn of_member(member: &Member) -> Process
        ensures { result ≡ process_in member.now }
    {
        Process {
            node: member.node,
            pid: member.pid,
        }
    }
}

/// The set of the members' processes, made anew.
fn processes_of(alloc: Global, members: &[Member]) -> Result<IndexSet<Process>, Refusal>
    ensures ok { IfOk result (λ processes. AreProcesses processes.keys members.now) }
    ensures memory { IsOkUnless result Refusal.Memory }
{
    let mut processes = IndexSet::with_capacity(alloc, members.len())?;
    for member in members {
        processes.insert(Process::of_member(member))?;
    }
    Ok(processes)
}

/// The processes to keep beside those members, made anew: where they are more than a few, the set of them.
fn kept_beside(alloc: Global, members: &Members) -> Result<Option<Box<IndexSet<Process>>>, Refusal>
    ensures ok { IfOk result (λ processes. AreKept (kept_of processes) members.now) }
    ensures memory { IsOkUnless result Refusal.Memory }
{
    if members.len() > FEW {
        let processes = processes_of(alloc, members.as_slice())?;
        Ok(Some(Box::new(alloc, processes)?))
    } else {
        Ok(None)
    }
}

/// Takes the member's process out of the kept ones, if the member is that connection.
fn take_out_one(processes: &mut IndexSet<Process>, member: &Member, conn: &ConnId)
    ensures { TakesOut conn.now (member.now ∷ []) processes.old.keys processes.new.keys }
{
    if member.conn_id().is(conn) {
        let _ = processes.swap_remove(&Process::of_member(member));
    }
}

/// Takes the processes of those members that are the connection out of the kept ones.
fn take_out(processes: &mut IndexSet<Process>, members: &[Member], conn: &ConnId)
    ensures { TakesOut conn.now members.now processes.old.keys processes.new.keys }
{
    for member in members {
        take_out_one(processes, member, conn);
    }
}

/// Brings the kept processes past a leave or end. Where no more than a few members stay, none is kept, and the
/// set gives its memory back.
fn keep_rest(processes: &mut Option<Box<IndexSet<Process>>>, before: &Members, past: &Record)
    requires left { Leaves (conn_of past.now.entry) before.now past.now.members }
    requires kept { AreKept (kept_of processes.old) before.now }
    ensures { AreKept (kept_of processes.new) past.now.members }
{
    if past.members.len() <= FEW {
        *processes = None;
    } else if let Some(kept) = processes {
        let conn = ConnId::of(&past.entry);
        take_out(kept, before.as_slice(), &conn);
    }
}

/// The members of a group in the order of their joins, with the set of their processes where they are more
/// than a few. A group with few members has no set. Contracts see it as the list of members.
#[derive(Debug, Drop)]
pub struct MemberIndex {
    members: Members,
    processes: Option<Box<IndexSet<Process>>>,
}

impl Model for MemberIndex {
    ghost use Rattle.std.specs.Prelude.{List};
    ghost use Rattle.cpg_record.specs.declared.memberships.Member.{Member};
    ghost use Rattle.cpg_members.specs.Processes.{kept_of, AreKept};

    ghost Value = { List Member };

    ghost view = { λ member_index. member_index.members };

    ghost invariant = { λ member_index. AreKept (kept_of member_index.processes) member_index.members };
}

impl MemberIndex {
    /// Nobody.
    pub fn new(alloc: Global) -> MemberIndex
        ensures { result ≡ [] }
    {
        MemberIndex {
            members: Members::new(alloc),
            processes: None,
        }
    }

    /// The members.
    pub fn members(&self) -> &Members
        ensures { result.now ≡ self.now }
    {
        &self.members
    }

    /// Whether the entry's process is a member. Looks at each member where they are few, and else into the set.
    pub fn has_process(&self, entry: &Entry) -> bool
        ensures { result ≡ has_process entry.now self.now }
    {
        match &self.processes {
            Some(processes) => processes.contains(&Process::of(entry)),
            None => self.members.has_process(entry),
        }
    }

    /// Lists the members of the record of an allowed join. A refusal changes nothing.
    fn join(&mut self, alloc: Global, past: &Record) -> Result<(), Refusal>
        requires { past.now.members ≡ self.old ++ member_of past.now.entry ∷ [] }
        ensures ok { OnOk result (self.new ≡ past.now.members) }
        ensures err { OnErr result (self.new ≡ self.old) }
        ensures memory { IsOkUnless result Refusal.Memory }
    {
        let members = past.members.copy(alloc)?;
        match &mut self.processes {
            Some(processes) => {
                processes.insert(Process::of(&past.entry))?;
            }
            None => self.processes = kept_beside(alloc, &members)?,
        }
        self.members = members;
        Ok(())
    }

    /// Lists the members of the record of an allowed leave or end. A refusal changes nothing.
    fn leave(&mut self, alloc: Global, past: &Record) -> Result<(), Refusal>
        requires { Leaves (conn_of past.now.entry) self.old past.now.members }
        ensures ok { OnOk result (self.new ≡ past.now.members) }
        ensures err { OnErr result (self.new ≡ self.old) }
        ensures memory { IsOkUnless result Refusal.Memory }
    {
        let members = past.members.copy(alloc)?;
        keep_rest(&mut self.processes, &self.members, past);
        self.members = members;
        Ok(())
    }

    /// Lists the members of an allowed record of the group. A refusal changes nothing.
    pub fn take_in(&mut self, alloc: Global, past: &Record) -> Result<(), Refusal>
        requires { ComesTo self.old past.now.entry past.now.entry.op past.now.members }
        ensures ok { OnOk result (self.new ≡ past.now.members) }
        ensures err { OnErr result (self.new ≡ self.old) }
        ensures memory { IsOkUnless result Refusal.Memory }
    {
        match &past.entry.op {
            Op::Act(Call::Join(_)) => self.join(alloc, past),
            Op::Act(Call::Leave) => self.leave(alloc, past),
            Op::Gone => self.leave(alloc, past),
            _ => Ok(()),
        }
    }
}
