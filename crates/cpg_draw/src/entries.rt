//! What is said of entries, and of what was delivered.

ghost use Rattle.std.specs.Prelude.{◌≤◌, length, IsOkUnless};

use crate::frames::frame_at;
use crate::pictures::Scene;
use cpg_cred::Refusal;
use cpg_entry::{Entry, Frame, Op};
use cpg_print::{put_call, put_verdict};
use cpg_record::Record;
use cpg_step::put_answer;
use cpg_text::{push_number, put};
use cpg_world::Reply;
use std::alloc::Global;

/// Puts NODE/PID CALL of an entry.
fn put_entry(line: &mut Vec<u8>, entry: &Entry) -> Result<(), Refusal>
    ensures memory { IsOkUnless result Refusal.Memory }
{
    push_number(line, u64::from(entry.node.get()))?;
    put(line, "/")?;
    push_number(line, u64::from(entry.pid))?;
    match &entry.op {
        Op::Act(call) => put_call(line, call),
        Op::Gone => put(line, " gone"),
    }
}

/// Puts the entry that the frame of that number carries, where it is data.
pub(crate) fn put_carried(line: &mut Vec<u8>, scene: &Scene<'_>, number: u64) -> Result<(), Refusal>
    ensures memory { IsOkUnless result Refusal.Memory }
{
    if let Some(Frame::Packet(packet)) = frame_at(scene.alloc, scene.world, number as usize)? {
        put(line, ": ")?;
        put_entry(line, &packet.entry)?;
    }
    Ok(())
}

/// Puts a record: its entry, and what it was answered.
fn put_record(line: &mut Vec<u8>, past: &Record) -> Result<(), Refusal>
    ensures memory { IsOkUnless result Refusal.Memory }
{
    put(line, ": ")?;
    put_entry(line, &past.entry)?;
    put(line, " -> ")?;
    put_verdict(line, past.verdict)
}

/// Puts an answer, with the record of what was delivered among those of its node.
pub(crate) fn put_told(
    alloc: Global,
    line: &mut Vec<u8>,
    records: &[Record],
    answer: &Result<Reply, Refusal>,
) -> Result<(), Refusal>
    ensures memory { IsOkUnless result Refusal.Memory }
{
    let Ok(Reply::Delivered(Some(place))) = answer else {
        return put_answer(alloc, line, answer);
    };
    put(line, "delivered ")?;
    push_number(line, u64::from(*place))?;
    if let Some(past) = records.get((*place as usize).saturating_sub(1)) {
        put_record(line, past)?;
    }
    put(line, "\n")
}
