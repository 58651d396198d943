//! Ops as they stand in a frame.
//!
//! A view lends the name and the message that it has from the frame's bytes, so reading takes no memory.
//! Proved: what is read is the definition `op_at`, and a copy is the op that the view shows.

ghost use Rattle.std.specs.Prelude.{◌≡◌, IfOk, IsOkUnless, option_map};
ghost use Rattle.cpg_wire.specs.Reading.{Reads, insert_at, remove_at, body_at, op_at};
ghost use Rattle.cpg_wire.specs.Views.{op_seen, EndsWith};

use crate::codes::{OpCode, Version};
use crate::fields::{read_message, read_name};
use crate::input::Input;
use crate::rules::read_rule;
use bytes::Bytes;
use cpg_entry::{Call, Message, Name, Op, Refusal, Rule, SharedRule};
use std::alloc::Global;

/// An op whose name or message stands in the frame.
#[derive(Clone, Copy)]
pub enum OpView<'a> {
    Join(&'a [u8]),
    Leave,
    Send(&'a [u8]),
    Insert(&'a [u8], u8, Rule),
    Remove(&'a [u8], u32),
    Gone,
}

impl<'a> OpView<'a> {
    #[tactic(auto, unfolding(crate::specs::Reading::op_at))]
    pub fn read(input: &mut Input<'a>, version: Version) -> Option<OpView<'a>>
        ensures { Reads (option_map op_seen result) input.new (op_at version input.old) }
    {
        let code = OpCode::of(input.byte()?)?;
        OpView::read_body(input, version, code)
    }

    #[tactic(auto, unfolding(crate::specs::Reading::body_at))]
    fn read_body(input: &mut Input<'a>, version: Version, code: OpCode) -> Option<OpView<'a>>
        ensures { Reads (option_map op_seen result) input.new (body_at version code input.old) }
    {
        match code {
            OpCode::Join => Some(OpView::Join(read_name(input)?)),
            OpCode::Leave => Some(OpView::Leave),
            OpCode::Send => Some(OpView::Send(read_message(input)?)),
            OpCode::Insert => OpView::read_insert(input, version),
            OpCode::Remove => OpView::read_remove(input),
            OpCode::Gone => Some(OpView::Gone),
        }
    }

    #[tactic(auto, unfolding(crate::specs::Reading::insert_at))]
    fn read_insert(input: &mut Input<'a>, version: Version) -> Option<OpView<'a>>
        ensures { Reads (option_map op_seen result) input.new (insert_at version input.old) }
    {
        let name = read_name(input)?;
        let position = input.u8_within(0, u8::MAX)?;
        let rule = read_rule(input, version)?;
        Some(OpView::Insert(name, position, rule))
    }

    #[tactic(auto, unfolding(crate::specs::Reading::remove_at))]
    fn read_remove(input: &mut Input<'a>) -> Option<OpView<'a>>
        ensures { Reads (option_map op_seen result) input.new (remove_at input.old) }
    {
        let name = read_name(input)?;
        let id = input.u32()?;
        Some(OpView::Remove(name, id))
    }

    /// The op, with a name or message of its own.
    pub fn copy(&self, alloc: Global) -> Result<Op, Refusal>
        ensures ok { IfOk result (λ op. op ≡ op_seen self.now) }
        ensures memory { IsOkUnless result Refusal.Memory }
    {
        match self {
            OpView::Join(name) => Ok(Op::Act(Call::Join(Name::from_slice(alloc, name)?))),
            OpView::Leave => Ok(Op::Act(Call::Leave)),
            OpView::Send(message) => {
                Ok(Op::Act(Call::Send(Message::from_slice(alloc, message)?)))
            }
            OpView::Insert(name, position, rule) => {
                let name = Name::from_slice(alloc, name)?;
                let rule = SharedRule::new(alloc, *rule)?;
                Ok(Op::Act(Call::Insert(name, *position, rule)))
            }
            OpView::Remove(name, id) => {
                Ok(Op::Act(Call::Remove(Name::from_slice(alloc, name)?, *id)))
            }
            OpView::Gone => Ok(Op::Gone),
        }
    }

    /// The op; a long message is shared with the frame, which it ends.
    pub fn share(&self, alloc: Global, frame: &Bytes) -> Result<Op, Refusal>
        requires { EndsWith (op_seen self.now) frame.now }
        ensures ok { IfOk result (λ op. op ≡ op_seen self.now) }
        ensures memory { IsOkUnless result Refusal.Memory }
    {
        match self {
            OpView::Send(message) => {
                let message = Message::from_end(alloc, frame, message.len())?;
                Ok(Op::Act(Call::Send(message)))
            }
            _ => self.copy(alloc),
        }
    }
}
