//! Who left a group or joined it, and why.

ghost use Rattle.std.specs.Prelude.{◌≡◌, ◌↔◌, [], ◌∷◌, IsTrue, IfOk, IsOkUnless};
ghost use Rattle.cpg_record.specs.Events.{moves_of};

use crate::connections::ConnId;
use crate::memberships::{Member, Members};
use cpg_cred::Refusal;
use std::alloc::Global;
use std::marker::Model;

/// Why a member left or joined (the reasons of cpg_initialize(3), but those of nodes).
#[derive(Debug, Clone, Copy, PartialEq, Eq)]
pub enum Cause {
    /// It left the group.
    Leave,
    /// Its connection ended.
    Down,
    /// It joined the group.
    Join,
}

/// A member that left or joined, and why.
#[derive(Debug, Clone, Copy, PartialEq, Eq)]
pub struct Move {
    pub member: Member,
    pub cause: Cause,
}

/// Members that left, or that joined. Contracts see it as their list.
#[derive(Debug, Drop)]
pub struct Moves {
    moves: Vec<Move>,
}

impl Model for Moves {
    ghost use Rattle.std.specs.Prelude.{List};
    ghost use Rattle.cpg_record.specs.declared.moves.Move.{Move};

    ghost Value = { List Move };

    ghost view = { λ moves. moves.moves.items };
}

impl Moves {
    /// Nobody.
    pub fn new(alloc: Global) -> Moves
        ensures { result ≡ [] }
    {
        Moves {
            moves: Vec::new(alloc),
        }
    }

    /// The join of one member.
    pub fn join_of(alloc: Global, member: Member) -> Result<Moves, Refusal>
        ensures ok { IfOk result (λ moves. moves ≡ record { member = member; cause = Cause.Join } ∷ []) }
        ensures memory { IsOkUnless result Refusal.Memory }
    {
        let mut moves = Vec::new(alloc);
        moves.push(Move {
            member,
            cause: Cause::Join,
        })?;
        Ok(Moves { moves })
    }

    /// The members that are this connection, each with the cause.
    pub fn of_conn(
        alloc: Global,
        conn: &ConnId,
        cause: Cause,
        members: &Members,
    ) -> Result<Moves, Refusal>
        ensures ok { IfOk result (λ moves. moves ≡ moves_of conn.now cause members.now) }
        ensures memory { IsOkUnless result Refusal.Memory }
    {
        let moves = members
            .as_slice()
            .iter()
            .copied()
            .filter(|member| member.conn_id().is(conn))
            .map(|member| Move { member, cause })
            .collect(alloc)?;
        Ok(Moves { moves })
    }

    /// Those moves.
    pub fn from_slice(alloc: Global, moves: &[Move]) -> Result<Moves, Refusal>
        ensures ok { IfOk result (λ copy. copy ≡ moves.now) }
        ensures memory { IsOkUnless result Refusal.Memory }
    {
        Ok(Moves {
            moves: Vec::from_slice(alloc, moves)?,
        })
    }

    /// The same moves.
    pub fn copy(&self, alloc: Global) -> Result<Moves, Refusal>
        ensures ok { IfOk result (λ copy. copy ≡ self.now) }
        ensures memory { IsOkUnless result Refusal.Memory }
    {
        Moves::from_slice(alloc, self.as_slice())
    }

    /// The moves.
    pub fn as_slice(&self) -> &[Move]
        ensures { result.now ≡ self.now }
    {
        self.moves.as_slice()
    }

    /// Whether the lists are the same.
    pub fn equals(&self, other: &Moves) -> bool
        ensures { IsTrue result ↔ (self.now ≡ other.now) }
    {
        self.moves.as_slice() == other.moves.as_slice()
    }
}
