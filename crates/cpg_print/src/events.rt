//! Events as they are printed.

ghost use Rattle.std.specs.Prelude.{◌≡◌, ◌++◌, List, codes, decimal, OnOk, IsOkUnless};
ghost use Rattle.std.specs.List.{flat_map};
ghost use Rattle.cpg_record.specs.declared.memberships.Member.{Member};
ghost use Rattle.cpg_text.specs.Percent.{text_of};
ghost use Rattle.cpg_print.specs.Records.{members_text};
ghost use Rattle.cpg_print.specs.Events.{cause_text, move_text, moves_text, news_text, event_line, inbox_line};

use crate::entries::put_conn;
use crate::records::{put_member, put_members};
use crate::verdicts::put_verdict;
use cpg_cred::{NodeId, Refusal};
use cpg_record::{Cause, ConnId, Event, Member, Move, Verdict};
use cpg_text::{push_message, push_number, put, put_byte, put_bytes};

/// Puts the head of a connection's events at the line's end.
pub fn put_inbox(line: &mut Vec<u8>, conn: &ConnId) -> Result<(), Refusal>
    ensures ok { OnOk result (line.new.items ≡ line.old.items ++ inbox_line conn.now) }
    ensures memory { IsOkUnless result Refusal.Memory }
{
    put(line, "inbox ")?;
    put_conn(line, conn)?;
    put_byte(line, b'\n')
}

/// Puts the line of an event at the line's end.
pub fn put_event(line: &mut Vec<u8>, event: &Event) -> Result<(), Refusal>
    ensures ok { OnOk result (line.new.items ≡ line.old.items ++ event_line event.now) }
    ensures memory { IsOkUnless result Refusal.Memory }
{
    match event {
        Event::Verdict { place, verdict } => put_verdict_line(line, *place, *verdict),
        Event::Message {
            place,
            group,
            node,
            pid,
            message,
        } => {
            put_message_line(
                line,
                *place,
                group.as_slice(),
                *node,
                *pid,
                message.as_slice(),
            )
        }
        Event::Change {
            place,
            group,
            members,
            left,
            joined,
        } => {
            put_change_line(
                line,
                *place,
                group.as_slice(),
                members.as_slice(),
                left.as_slice(),
                joined.as_slice(),
            )
        }
        Event::RulesChanged { place, group } => put_rules_line(line, *place, group.as_slice()),
    }
}

/// Puts the line of what a connection's own entry was answered at the line's end.
#[tactic(auto, unfolding(crate::specs::Events::news_text))]
pub fn put_verdict_line(line: &mut Vec<u8>, place: u32, verdict: Verdict) -> Result<(), Refusal>
    ensures ok { OnOk result (line.new.items ≡ line.old.items ++ event_line (Event.Verdict place verdict)) }
    ensures memory { IsOkUnless result Refusal.Memory }
{
    put_place(line, place)?;
    put(line, " verdict ")?;
    put_verdict(line, verdict)?;
    put_byte(line, b'\n')
}

/// Puts the line of a message to a group, with the process that sent it, at the line's end.
pub fn put_message_line(
    line: &mut Vec<u8>,
    place: u32,
    group: &[u8],
    node: NodeId,
    pid: u32,
    message: &[u8],
) -> Result<(), Refusal>
    ensures ok { OnOk result (line.new.items ≡ line.old.items ++ event_line (Event.Message place group.now node pid message.now)) }
    ensures memory { IsOkUnless result Refusal.Memory }
{
    put_message(line, place, group, node, pid, message)?;
    put_byte(line, b'\n')
}

#[inline(always)]
#[tactic(auto, unfolding(crate::specs::Events::news_text))]
fn put_message(
    line: &mut Vec<u8>,
    place: u32,
    group: &[u8],
    node: NodeId,
    pid: u32,
    message: &[u8],
) -> Result<(), Refusal>
    ensures ok { OnOk result (line.new.items ≡ line.old.items ++ codes "event " ++ decimal place ++ codes " " ++ news_text (Event.Message place group.now node pid message.now)) }
    ensures memory { IsOkUnless result Refusal.Memory }
{
    put_place(line, place)?;
    put(line, " message ")?;
    put_bytes(line, group)?;
    put_sent(line, node, pid, message)
}

/// Puts who sent a message, and the message, at the line's end.
#[inline(always)]
fn put_sent(line: &mut Vec<u8>, node: NodeId, pid: u32, message: &[u8]) -> Result<(), Refusal>
    ensures ok { OnOk result (line.new.items ≡ line.old.items ++ codes " " ++ decimal node ++ codes " " ++ decimal pid ++ codes " " ++ text_of message.now) }
    ensures memory { IsOkUnless result Refusal.Memory }
{
    put_sender(line, node, pid)?;
    put_byte(line, b' ')?;
    push_message(line, message)
}

#[inline(always)]
fn put_sender(line: &mut Vec<u8>, node: NodeId, pid: u32) -> Result<(), Refusal>
    ensures ok { OnOk result (line.new.items ≡ line.old.items ++ codes " " ++ decimal node ++ codes " " ++ decimal pid) }
    ensures memory { IsOkUnless result Refusal.Memory }
{
    put_byte(line, b' ')?;
    push_number(line, u64::from(node.get()))?;
    put_byte(line, b' ')?;
    push_number(line, u64::from(pid))
}

/// Puts the line of a change of a group, with its members after it, those who left and those who joined, at the
/// line's end.
pub fn put_change_line(
    line: &mut Vec<u8>,
    place: u32,
    group: &[u8],
    members: &[Member],
    left: &[Move],
    joined: &[Move],
) -> Result<(), Refusal>
    ensures ok { OnOk result (line.new.items ≡ line.old.items ++ event_line (Event.Change place group.now members.now left.now joined.now)) }
    ensures memory { IsOkUnless result Refusal.Memory }
{
    put_change(line, place, group, members, left, joined)?;
    put_byte(line, b'\n')
}

#[tactic(auto, unfolding(crate::specs::Events::news_text))]
fn put_change(
    line: &mut Vec<u8>,
    place: u32,
    group: &[u8],
    members: &[Member],
    left: &[Move],
    joined: &[Move],
) -> Result<(), Refusal>
    ensures ok { OnOk result (line.new.items ≡ line.old.items ++ codes "event " ++ decimal place ++ codes " " ++ news_text (Event.Change place group.now members.now left.now joined.now)) }
    ensures memory { IsOkUnless result Refusal.Memory }
{
    put_changed(line, place, group)?;
    put_members(line, members)?;
    put_left_and_joined(line, left, joined)
}

/// The same from the text of the members.
pub fn put_change_with(
    line: &mut Vec<u8>,
    place: u32,
    group: &[u8],
    members: &[u8],
    left: &[Move],
    joined: &[Move],
) -> Result<(), Refusal>
    ensures ok { (list : List Member) → members.now ≡ members_text list → OnOk result (line.new.items ≡ line.old.items ++ event_line (Event.Change place group.now list left.now joined.now)) }
    ensures memory { IsOkUnless result Refusal.Memory }
{
    put_shown_change(line, place, group, members, left, joined)?;
    put_byte(line, b'\n')
}

#[tactic(auto, unfolding(crate::specs::Events::news_text))]
fn put_shown_change(
    line: &mut Vec<u8>,
    place: u32,
    group: &[u8],
    members: &[u8],
    left: &[Move],
    joined: &[Move],
) -> Result<(), Refusal>
    ensures ok { (list : List Member) → members.now ≡ members_text list → OnOk result (line.new.items ≡ line.old.items ++ codes "event " ++ decimal place ++ codes " " ++ news_text (Event.Change place group.now list left.now joined.now)) }
    ensures memory { IsOkUnless result Refusal.Memory }
{
    put_changed(line, place, group)?;
    put_bytes(line, members)?;
    put_left_and_joined(line, left, joined)
}

/// Puts the front of a change's line, up to the members, at the line's end.
fn put_changed(line: &mut Vec<u8>, place: u32, group: &[u8]) -> Result<(), Refusal>
    ensures ok { OnOk result (line.new.items ≡ line.old.items ++ codes "event " ++ decimal place ++ codes " change " ++ group.now ++ codes " members ") }
    ensures memory { IsOkUnless result Refusal.Memory }
{
    put_place(line, place)?;
    put(line, " change ")?;
    put_bytes(line, group)?;
    put(line, " members ")
}

/// Puts the rest of a change's line, after the members, at the line's end.
fn put_left_and_joined(line: &mut Vec<u8>, left: &[Move], joined: &[Move]) -> Result<(), Refusal>
    ensures ok { OnOk result (line.new.items ≡ line.old.items ++ codes " left " ++ moves_text left.now ++ codes " joined " ++ moves_text joined.now) }
    ensures memory { IsOkUnless result Refusal.Memory }
{
    put(line, " left ")?;
    put_moves(line, left)?;
    put(line, " joined ")?;
    put_moves(line, joined)
}

/// Puts the line of a change of a group's table at the line's end.
#[tactic(auto, unfolding(crate::specs::Events::news_text))]
pub fn put_rules_line(line: &mut Vec<u8>, place: u32, group: &[u8]) -> Result<(), Refusal>
    ensures ok { OnOk result (line.new.items ≡ line.old.items ++ event_line (Event.RulesChanged place group.now)) }
    ensures memory { IsOkUnless result Refusal.Memory }
{
    put_place(line, place)?;
    put(line, " rules ")?;
    put_bytes(line, group)?;
    put_byte(line, b'\n')
}

/// Puts the word `event` and the place at the line's end.
#[inline(always)]
fn put_place(line: &mut Vec<u8>, place: u32) -> Result<(), Refusal>
    ensures ok { OnOk result (line.new.items ≡ line.old.items ++ codes "event " ++ decimal place) }
    ensures memory { IsOkUnless result Refusal.Memory }
{
    put(line, "event ")?;
    push_number(line, u64::from(place))
}

fn put_moves(line: &mut Vec<u8>, moves: &[Move]) -> Result<(), Refusal>
    ensures ok { OnOk result (line.new.items ≡ line.old.items ++ moves_text moves.now) }
    ensures memory { IsOkUnless result Refusal.Memory }
{
    match moves {
        [] => put(line, "-"),
        [first, others @ ..] => {
            put_move(line, *first)?;
            put_more_moves(line, others)
        }
    }
}

fn put_more_moves(line: &mut Vec<u8>, moves: &[Move]) -> Result<(), Refusal>
    ensures ok { OnOk result (line.new.items ≡ line.old.items ++ flat_map (λ one. codes "," ++ move_text one) moves.now) }
    ensures memory { IsOkUnless result Refusal.Memory }
{
    for one in moves {
        put_byte(line, b',')?;
        put_move(line, *one)?;
    }
    Ok(())
}

fn put_move(line: &mut Vec<u8>, one: Move) -> Result<(), Refusal>
    ensures ok { OnOk result (line.new.items ≡ line.old.items ++ move_text one) }
    ensures memory { IsOkUnless result Refusal.Memory }
{
    put_member(line, one.member)?;
    put(line, cause_after_colon(one.cause))
}

fn cause_after_colon(cause: Cause) -> &'static str
    ensures { result.now ≡ codes ":" ++ cause_text cause }
{
    match cause {
        Cause::Leave => ":leave",
        Cause::Down => ":down",
        Cause::Join => ":join",
    }
}
