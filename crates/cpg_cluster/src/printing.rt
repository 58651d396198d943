//! Answers as they are printed.

ghost use Rattle.std.specs.Prelude.{◌≡◌, ◌++◌, length, OnOk, IsOkUnless};
ghost use Rattle.std.specs.List.{concat};
ghost use Rattle.cpg_board.specs.Seats.{IsSeatOf, records_of};
ghost use Rattle.cpg_print.specs.Records.{audit_lines};
ghost use Rattle.cpg_cluster.specs.Lines.{audit_text, session_line, reply_text, answer_text};
ghost use Rattle.cpg_cluster.specs.Steps.{SeatsOn};

use crate::replies::Reply;
use cpg_board::{Board, Seat};
use cpg_cred::Refusal;
use cpg_print::{
    put_audit, put_count, put_groups_line, put_members_line, put_refused_line, put_safe_line,
    put_took_line,
};
use cpg_text::{push_number, put};
use std::alloc::Global;

/// Puts the line of a new session at the text's end.
fn put_session(text: &mut Vec<u8>, number: usize) -> Result<(), Refusal>
    ensures ok { OnOk result (text.new.items ≡ text.old.items ++ session_line number) }
    ensures memory { IsOkUnless result Refusal.Memory }
{
    put(text, "session ")?;
    push_number(text, number as u64)?;
    put(text, "\n")
}

#[tactic(auto, using(crate::proofs::Put::known_put))]
fn put_records(text: &mut Vec<u8>, board: &Board, seat: &Seat, count: u32) -> Result<(), Refusal>
    requires seat { IsSeatOf board.now.cells seat.now }
    requires count { count ≡ length seat.now }
    ensures ok { OnOk result (text.new.items ≡ text.old.items ++ concat (audit_lines (records_of seat.now))) }
    ensures memory { IsOkUnless result Refusal.Memory }
{
    for index in 0..count {
        put_audit(text, index + 1, board.known(seat, index + 1))?;
    }
    Ok(())
}

/// Puts the audit lines of what the seat knows, and their count, at the text's end. A board has at most 1,048,576
/// places, so the count fits.
#[tactic(auto, using(crate::proofs::Put::seat_put))]
fn put_seat(text: &mut Vec<u8>, board: &Board, seat: &Seat) -> Result<(), Refusal>
    requires { IsSeatOf board.now.cells seat.now }
    ensures ok { OnOk result (text.new.items ≡ text.old.items ++ audit_text (records_of seat.now)) }
    ensures memory { IsOkUnless result Refusal.Memory }
{
    let Ok(count) = u32::try_from(seat.len()) else {
        return Err(Refusal::Memory);
    };
    put_records(text, board, seat, count)?;
    put_count(text, count)
}

/// Puts the text of a reply at the text's end.
fn put_reply(text: &mut Vec<u8>, board: &Board, reply: &Reply) -> Result<(), Refusal>
    requires { SeatsOn board.now.cells (Ok reply.now) }
    ensures ok { OnOk result (text.new.items ≡ text.old.items ++ reply_text reply.now) }
    ensures memory { IsOkUnless result Refusal.Memory }
{
    match reply {
        Reply::Opened(number) => put_session(text, *number),
        Reply::Admitted => put(text, "admitted\n"),
        Reply::Took(event) => put_took_line(text, Some(event)),
        Reply::Nothing(_) => put_took_line(text, None),
        Reply::Members(processes) => put_members_line(text, processes.as_slice()),
        Reply::Groups(names) => put_groups_line(text, names.as_slice()),
        Reply::Audit(seat) => put_seat(text, board, seat),
        Reply::Closed => put(text, "closed\n"),
        Reply::Safe(place) => put_safe_line(text, *place),
    }
}

/// Puts the text of a reply or of a refusal at the text's end.
pub fn put_answer(
    alloc: Global,
    text: &mut Vec<u8>,
    board: &Board,
    answer: &Result<Reply, Refusal>,
) -> Result<(), Refusal>
    requires { SeatsOn board.now.cells answer.now }
    ensures ok { OnOk result (text.new.items ≡ text.old.items ++ answer_text answer.now) }
    ensures memory { IsOkUnless result Refusal.Memory }
{
    match answer {
        Ok(reply) => put_reply(text, board, reply),
        Err(refusal) => put_refused_line(alloc, text, *refusal),
    }
}
