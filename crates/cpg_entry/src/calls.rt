//! What connections ask of groups.

ghost use Rattle.std.specs.Prelude.{◌≡◌, ◌≢◌, ◌↔◌, IsTrue, IfOk, OnErr, IsOkUnless};
ghost use Rattle.cpg_entry.specs.Entries.{is_move};

use crate::messages::Message;
use crate::names::Name;
use crate::shared::SharedRule;
use cpg_rules::Refusal;
use std::alloc::Global;

/// What a connection asks.
#[derive(Debug, PartialEq, Eq, Drop)]
pub enum Call {
    /// To become a member of the group (cpg_join(3)).
    Join(Name),
    /// To leave its group (cpg_leave(3)).
    Leave,
    /// To multicast to its group (cpg_mcast_joined(3)).
    Send(Message),
    /// To put the rule into the group's table at that index, counted from 0.
    Insert(Name, u8, SharedRule),
    /// To take the rule of that id out of the group's table.
    Remove(Name, u32),
}

impl Call {
    /// The same call.
    pub fn copy(&self, alloc: Global) -> Result<Call, Refusal>
        ensures ok { IfOk result (λ call. call ≡ self.now) }
        ensures memory { IsOkUnless result Refusal.Memory }

        // A leave takes no memory.
        ensures leave { OnErr result (self.now ≢ Call.Leave) }
    {
        Ok(match self {
            Call::Join(group) => Call::Join(group.copy(alloc)?),
            Call::Leave => Call::Leave,
            Call::Send(message) => Call::Send(message.copy(alloc)?),
            Call::Insert(group, index, rule) => {
                Call::Insert(group.copy(alloc)?, *index, rule.copy()?)
            }
            Call::Remove(group, id) => Call::Remove(group.copy(alloc)?, *id),
        })
    }

    /// Whether the calls are the same.
    pub fn equals(&self, other: &Call) -> bool
        ensures { IsTrue result ↔ (self.now ≡ other.now) }
    {
        match (self, other) {
            (Call::Join(a), Call::Join(b)) => a.equals(b),
            (Call::Leave, Call::Leave) => true,
            (Call::Send(a), Call::Send(b)) => a.equals(b),
            (Call::Insert(a, i, r), Call::Insert(b, j, s)) => a.equals(b)
                && *i == *j
                && r.equals(s),
            (Call::Remove(a, i), Call::Remove(b, j)) => a.equals(b) && *i == *j,
            _ => false,
        }
    }
}

/// What an entry does: a call, or the end of its connection.
#[derive(Debug, PartialEq, Eq, Drop)]
pub enum Op {
    Act(Call),
    /// The connection has ended.
    Gone,
}

impl Op {
    /// The same op.
    pub fn copy(&self, alloc: Global) -> Result<Op, Refusal>
        ensures ok { IfOk result (λ op. op ≡ self.now) }
        ensures memory { IsOkUnless result Refusal.Memory }

        // The end of a connection takes no memory.
        ensures gone { OnErr result (self.now ≢ Op.Gone) }
    {
        match self {
            Op::Act(call) => Ok(Op::Act(call.copy(alloc)?)),
            Op::Gone => Ok(Op::Gone),
        }
    }

    /// Whether the ops are the same.
    pub fn equals(&self, other: &Op) -> bool
        ensures { IsTrue result ↔ (self.now ≡ other.now) }
    {
        match (self, other) {
            (Op::Act(a), Op::Act(b)) => a.equals(b),
            (Op::Gone, Op::Gone) => true,
            _ => false,
        }
    }

    /// Whether the op moves its connection into a group, or out of one, where it is allowed: a join, a leave,
    /// and the end of the connection.
    pub fn is_move(&self) -> bool
        ensures { result ≡ is_move self.now }
    {
        match self {
            Op::Act(Call::Join(_)) | Op::Act(Call::Leave) | Op::Gone => true,
            _ => false,
        }
    }
}
