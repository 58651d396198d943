//! Replies, frames and rules as they are printed.

ghost use Rattle.std.specs.Prelude.{◌≡◌, ◌++◌, ◌∷◌, [], codes, decimal, Ok, OnOk, IsOkUnless};
ghost use Rattle.std.specs.List.{concat, flat_map};
ghost use Rattle.cpg_text.specs.Words.{listed};
ghost use Rattle.cpg_step.specs.Lines.{number_or_none, delivered_line, reply_line, answer_line, packet_line, token_line, frame_line, rule_line};

use cpg_cred::Refusal;
use cpg_entry::{Frame, Packet, Token};
use cpg_print::{
    node_number, put_entry, put_groups_line, put_members_line, put_refused_line, put_rule,
    put_took_line,
};
use cpg_rules::Rule;
use cpg_text::{push_number, put};
use cpg_world::Reply;
use std::alloc::Global;

fn put_number_or_none(line: &mut Vec<u8>, number: Option<u32>) -> Result<(), Refusal>
    ensures ok { OnOk result (line.new.items ≡ line.old.items ++ number_or_none number) }
    ensures memory { IsOkUnless result Refusal.Memory }
{
    match number {
        None => put(line, "none"),
        Some(number) => push_number(line, u64::from(number)),
    }
}

fn put_delivered(line: &mut Vec<u8>, place: Option<u32>) -> Result<(), Refusal>
    ensures ok { OnOk result (line.new.items ≡ line.old.items ++ delivered_line place) }
    ensures memory { IsOkUnless result Refusal.Memory }
{
    put(line, "delivered ")?;
    put_number_or_none(line, place)?;
    put(line, "\n")
}

/// Puts a name, a space and a number as a line at the lines' end.
fn put_count(line: &mut Vec<u8>, name: &str, count: u64) -> Result<(), Refusal>
    ensures ok { OnOk result (line.new.items ≡ line.old.items ++ (name.now ++ codes " " ++ decimal count ++ codes "\n")) }
    ensures memory { IsOkUnless result Refusal.Memory }
{
    put(line, name)?;
    put(line, " ")?;
    push_number(line, count)?;
    put(line, "\n")
}

/// Puts the line of a reply at the lines' end.
#[inline(always)]
pub fn put_reply(line: &mut Vec<u8>, reply: &Reply) -> Result<(), Refusal>
    ensures ok { OnOk result (line.new.items ≡ line.old.items ++ reply_line reply.now) }
    ensures memory { IsOkUnless result Refusal.Memory }
{
    match reply {
        Reply::Connected(conn) => put_count(line, "connected", u64::from(*conn)),
        Reply::Admitted => put(line, "admitted\n"),
        Reply::Closed => put(line, "closed\n"),
        Reply::Sent(count) => put_count(line, "sent", *count as u64),
        Reply::Delivered(place) => put_delivered(line, *place),
        Reply::Took(event) => put_took_line(line, event.as_ref()),
        Reply::Members(processes) => put_members_line(line, processes.as_slice()),
        Reply::Groups(names) => put_groups_line(line, names.as_slice()),
    }
}

/// Puts the line of a reply or of a refusal at the lines' end.
#[inline(always)]
pub fn put_answer(
    alloc: Global,
    line: &mut Vec<u8>,
    answer: &Result<Reply, Refusal>,
) -> Result<(), Refusal>
    ensures ok { OnOk result (line.new.items ≡ line.old.items ++ answer_line answer.now) }
    ensures memory { IsOkUnless result Refusal.Memory }
{
    match answer {
        Ok(reply) => put_reply(line, reply),
        Err(refusal) => put_refused_line(alloc, line, *refusal),
    }
}

fn put_packet(line: &mut Vec<u8>, packet: &Packet) -> Result<(), Refusal>
    ensures ok { OnOk result (line.new.items ≡ line.old.items ++ packet_line packet.now) }
    ensures memory { IsOkUnless result Refusal.Memory }
{
    put(line, "data ")?;
    push_number(line, u64::from(packet.place))?;
    put(line, " ")?;
    put_entry(line, &packet.entry)?;
    put(line, "\n")
}

#[tactic(auto, unfolding(crate::specs::Lines::token_line))]
fn put_token(line: &mut Vec<u8>, token: &Token) -> Result<(), Refusal>
    ensures ok { OnOk result (line.new.items ≡ line.old.items ++ token_line token.now) }
    ensures memory { IsOkUnless result Refusal.Memory }
{
    put(line, "token hop ")?;
    push_number(line, token.hop)?;
    put(line, " seq ")?;
    push_number(line, u64::from(token.seq))?;
    put(line, " aru ")?;
    push_number(line, u64::from(token.aru))?;
    put(line, " id ")?;
    put_number_or_none(line, node_number(token.aru_id))?;
    put(line, " rtr ")?;
    put_places(line, token.rtr.as_slice())?;
    put(line, "\n")
}

fn put_places(line: &mut Vec<u8>, places: &[u32]) -> Result<(), Refusal>
    ensures ok { OnOk result (line.new.items ≡ line.old.items ++ listed decimal places.now) }
    ensures memory { IsOkUnless result Refusal.Memory }
{
    match places {
        [] => put(line, "-"),
        [first, others @ ..] => {
            push_number(line, u64::from(*first))?;
            put_more_places(line, others)
        }
    }
}

fn put_more_places(line: &mut Vec<u8>, places: &[u32]) -> Result<(), Refusal>
    ensures ok { OnOk result (line.new.items ≡ line.old.items ++ flat_map (λ place. codes "," ++ decimal place) places.now) }
    ensures memory { IsOkUnless result Refusal.Memory }
{
    for place in places {
        put(line, ",")?;
        push_number(line, u64::from(*place))?;
    }
    Ok(())
}

/// Puts the line of a frame at the lines' end.
pub fn put_frame(line: &mut Vec<u8>, frame: &Frame) -> Result<(), Refusal>
    ensures ok { OnOk result (line.new.items ≡ line.old.items ++ frame_line frame.now) }
    ensures memory { IsOkUnless result Refusal.Memory }
{
    match frame {
        Frame::Packet(packet) => put_packet(line, packet),
        Frame::Token(token) => put_token(line, token),
    }
}

/// Puts the line of a table's rule, with its id, at the lines' end.
pub fn put_rule_line(line: &mut Vec<u8>, id: u32, rule: Rule) -> Result<(), Refusal>
    ensures ok { OnOk result (line.new.items ≡ line.old.items ++ rule_line (id, rule)) }
    ensures memory { IsOkUnless result Refusal.Memory }
{
    push_number(line, u64::from(id))?;
    put(line, " ")?;
    put_rule(line, rule)?;
    put(line, "\n")
}

/// Puts the line that counts a table's rules at the lines' end.
pub fn put_rule_count(line: &mut Vec<u8>, count: usize) -> Result<(), Refusal>
    ensures ok { OnOk result (line.new.items ≡ line.old.items ++ (codes "rules " ++ decimal count ++ codes "\n")) }
    ensures memory { IsOkUnless result Refusal.Memory }
{
    put_count(line, "rules", count as u64)
}
