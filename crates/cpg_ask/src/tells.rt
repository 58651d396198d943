//! What the daemon tells a client, as bytes.

ghost use Rattle.std.specs.Prelude.{◌≡◌, ◌++◌, map, OnOk, OnErr, IsOkUnless};
ghost use Rattle.std.specs.List.{flat_map};
ghost use Rattle.cpg_ask.specs.Tells.{Answer, Denied, Message, Change, still, moved, cause_code, process_bytes, member_bytes, move_bytes, all_bytes, tell_bytes};

use crate::codes::AskCode;
use crate::frames::{put_filled, put_framed};
use crate::output::{put_four, put_number};
use crate::statuses::{Denial, Status};
use bytes::BufMut;
use cpg_cred::Refusal;
use cpg_entry::NodeId;
use cpg_record::{Cause, Member, Move};
use std::alloc::{AllocError, Global};

/// Puts an answer last that is a status alone, or leaves all as it was.
#[tactic(auto, unfolding(crate::specs::Tells::number))]
pub fn put_answer(out: &mut Vec<u8>, code: AskCode, tag: u16, status: Status) -> Result<(), Refusal>
    ensures ok { OnOk result (out.new.items ≡ out.old.items ++ tell_bytes (Answer code tag status)) }
    ensures err { OnErr result (out.new.items ≡ out.old.items) }
    ensures memory { IsOkUnless result Refusal.Memory }
{
    let text = u32::from(status.number()).to_le_bytes();
    put_framed(out, 256 + code.number(), tag, &text)
}

/// Puts last that a message was denied, or leaves all as it was.
pub fn put_denied(
    alloc: Global,
    out: &mut Vec<u8>,
    status: Status,
    denial: Denial,
) -> Result<(), Refusal>
    ensures ok { OnOk result (out.new.items ≡ out.old.items ++ tell_bytes (Denied status denial)) }
    ensures err { OnErr result (out.new.items ≡ out.old.items) }
    ensures memory { IsOkUnless result Refusal.Memory }
{
    let mut text = Vec::new(alloc);
    put_number(&mut text, u32::from(status.number()))?;
    put_number(&mut text, denial.verdict)?;
    put_number(&mut text, denial.rule)?;
    put_framed(out, 515, 0, text.as_slice())
}

/// Puts a message of the client's group last, or leaves all as it was.
pub fn put_message(
    alloc: Global,
    out: &mut Vec<u8>,
    node: NodeId,
    pid: u32,
    group: &[u8],
    message: &[u8],
) -> Result<(), Refusal>
    ensures ok { OnOk result (out.new.items ≡ out.old.items ++ tell_bytes (Message node pid group.now message.now)) }
    ensures err { OnErr result (out.new.items ≡ out.old.items) }
    ensures memory { IsOkUnless result Refusal.Memory }
{
    let room = message.len().saturating_add(group.len()).saturating_add(24);
    let mut text = Vec::with_capacity(alloc, room)?;
    put_four(
        &mut text,
        usize::from(node.get()),
        pid as usize,
        message.len(),
        group.len(),
    )?;
    put_filled(&mut text, message)?;
    text.put_slice(group)?;
    put_framed(out, 513, 0, text.as_slice())
}

/// Puts a change of the client's group last, or leaves all as it was.
#[tactic(auto, using(crate::proofs::Mapped::length_mapped))]
pub fn put_change(
    alloc: Global,
    out: &mut Vec<u8>,
    group: &[u8],
    members: &[Member],
    left: &[Move],
    joined: &[Move],
) -> Result<(), Refusal>
    ensures ok { OnOk result (out.new.items ≡ out.old.items ++ tell_bytes (Change group.now (map still members.now) (map moved left.now) (map moved joined.now))) }
    ensures err { OnErr result (out.new.items ≡ out.old.items) }
    ensures memory { IsOkUnless result Refusal.Memory }
{
    let mut text = Vec::new(alloc);
    put_four(
        &mut text,
        group.len(),
        members.len(),
        left.len(),
        joined.len(),
    )?;
    put_processes(&mut text, members, left, joined)?;
    text.put_slice(group)?;
    put_framed(out, 514, 0, text.as_slice())
}

fn put_processes(
    out: &mut Vec<u8>,
    members: &[Member],
    left: &[Move],
    joined: &[Move],
) -> Result<(), AllocError>
    ensures { OnOk result (out.new.items ≡ out.old.items ++ all_bytes (map still members.now) (map moved left.now) (map moved joined.now)) }
{
    put_members(out, members)?;
    put_moves(out, left)?;
    put_moves(out, joined)
}

fn cause_number(cause: Cause) -> u32
    ensures { result ≡ cause_code cause }
{
    match cause {
        Cause::Join => 1,
        Cause::Leave => 2,
        Cause::Down => 5,
    }
}

fn put_process(out: &mut Vec<u8>, member: &Member, reason: u32) -> Result<(), AllocError>
    ensures { OnOk result (out.new.items ≡ out.old.items ++ process_bytes (record { node = member.now.node; pid = member.now.pid; reason = reason })) }
{
    put_number(out, u32::from(member.node.get()))?;
    put_number(out, member.pid)?;
    put_number(out, reason)
}

fn put_members(out: &mut Vec<u8>, members: &[Member]) -> Result<(), AllocError>
    ensures { OnOk result (out.new.items ≡ out.old.items ++ flat_map member_bytes members.now) }
{
    for member in members {
        put_process(out, member, 0)?;
    }
    Ok(())
}

fn put_moves(out: &mut Vec<u8>, moves: &[Move]) -> Result<(), AllocError>
    ensures { OnOk result (out.new.items ≡ out.old.items ++ flat_map move_bytes moves.now) }
{
    for each in moves {
        put_process(out, &each.member, cause_number(each.cause))?;
    }
    Ok(())
}
