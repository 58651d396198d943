//! Events as lines.

ghost use Rattle.std.specs.Prelude.{◌≡◌, ◌++◌, ◌∷◌, [], codes, decimal, OnOk, IsOkUnless};
ghost use Rattle.cpg_print.specs.Events.{cause_text};
ghost use Rattle.cpg_json.specs.Events.{event_fields, inbox_json, move_object, told_fields};
ghost use Rattle.cpg_json.specs.Objects.{after_comma, field, more, number};
ghost use Rattle.cpg_json.specs.Calls.{group_field, message_fields};
ghost use Rattle.cpg_json.specs.Records.{process_array};
ghost use Rattle.cpg_json.specs.Tails.{front_of, tail_of};

use crate::arrays::{Item, put_array};
use crate::calls::{put_group, put_message, put_verdict};
use crate::objects::{put_end, put_kind, put_name, put_number, put_word};
use crate::records::{put_conn, put_process};
use cpg_cred::{NodeId, Refusal};
use cpg_record::{Cause, ConnId, Event, Member, Move, Verdict};
use cpg_text::{push_number, put};

/// Puts the line that names a connection at the lines' end.
pub(crate) fn put_inbox(line: &mut Vec<u8>, conn: &ConnId) -> Result<(), Refusal>
    ensures ok { OnOk result (line.new.items ≡ line.old.items ++ inbox_json conn.now) }
    ensures memory { IsOkUnless result Refusal.Memory }
{
    put_kind(line, "inbox")?;
    put_conn(line, conn)?;
    put_end(line)
}

/// Puts the front of an event's line, with its connection, at the lines' end.
pub fn put_front(line: &mut Vec<u8>, conn: &ConnId) -> Result<(), Refusal>
    ensures ok { OnOk result (line.new.items ≡ line.old.items ++ front_of conn.now) }
    ensures memory { IsOkUnless result Refusal.Memory }
{
    put_kind(line, "event")?;
    put_conn(line, conn)
}

/// Puts what the line of a verdict says after its connection at the line's end.
pub(crate) fn put_verdict_tail(
    line: &mut Vec<u8>,
    place: u32,
    verdict: Verdict,
) -> Result<(), Refusal>
    ensures ok { OnOk result (line.new.items ≡ line.old.items ++ tail_of (Event.Verdict place verdict)) }
    ensures memory { IsOkUnless result Refusal.Memory }
{
    put_told_verdict(line, place, verdict)?;
    put_end(line)
}

/// Puts what an event says at the line's end, whomever it is told.
pub fn put_event_fields(line: &mut Vec<u8>, event: &Event) -> Result<(), Refusal>
    ensures ok { OnOk result (line.new.items ≡ line.old.items ++ more (event_fields event.now)) }
    ensures memory { IsOkUnless result Refusal.Memory }
{
    match event {
        Event::Verdict { place, verdict } => put_told_verdict(line, *place, *verdict),
        Event::Message {
            place,
            group,
            node,
            pid,
            message,
        } => {
            put_told_group(line, *place, "message", group.as_slice())?;
            put_sent(line, *node, *pid, message.as_slice())
        }
        Event::Change {
            place,
            group,
            members,
            left,
            joined,
        } => {
            put_told_group(line, *place, "change", group.as_slice())?;
            put_array(line, "members", members.as_slice())?;
            put_array(line, "left", left.as_slice())?;
            put_array(line, "joined", joined.as_slice())
        }
        Event::RulesChanged { place, group } => {
            put_told_group(line, *place, "rules", group.as_slice())
        }
    }
}

fn put_told(line: &mut Vec<u8>, place: u32, name: &str) -> Result<(), Refusal>
    ensures ok { OnOk result (line.new.items ≡ line.old.items ++ more (told_fields place name.now)) }
    ensures memory { IsOkUnless result Refusal.Memory }
{
    put_number(line, "place", u64::from(place))?;
    put_word(line, "event", name)
}

/// Puts what a connection's own entry was answered at the line's end.
fn put_told_verdict(line: &mut Vec<u8>, place: u32, verdict: Verdict) -> Result<(), Refusal>
    ensures ok { OnOk result (line.new.items ≡ line.old.items ++ more (event_fields (Event.Verdict place verdict))) }
    ensures memory { IsOkUnless result Refusal.Memory }
{
    put_told(line, place, "verdict")?;
    put_verdict(line, verdict)
}

fn put_told_group(line: &mut Vec<u8>, place: u32, name: &str, group: &[u8]) -> Result<(), Refusal>
    ensures ok { OnOk result (line.new.items ≡ line.old.items ++ more (told_fields place name.now ++ group_field group.now ∷ [])) }
    ensures memory { IsOkUnless result Refusal.Memory }
{
    put_told(line, place, name)?;
    put_group(line, group)
}

/// Puts who sent a message, and the message, at the line's end.
fn put_sent(line: &mut Vec<u8>, node: NodeId, pid: u32, message: &[u8]) -> Result<(), Refusal>
    ensures ok { OnOk result (line.new.items ≡ line.old.items ++ more (field (codes "sender") (process_array (node, pid)) ∷ message_fields message.now)) }
    ensures memory { IsOkUnless result Refusal.Memory }
{
    put_sender(line, node, pid)?;
    put_message(line, message)
}

#[tactic(auto, unfolding(crate::specs::Objects::after_comma, crate::specs::Objects::field))]
fn put_sender(line: &mut Vec<u8>, node: NodeId, pid: u32) -> Result<(), Refusal>
    ensures ok { OnOk result (line.new.items ≡ line.old.items ++ after_comma (field (codes "sender") (process_array (node, pid)))) }
    ensures memory { IsOkUnless result Refusal.Memory }
{
    put_name(line, "sender")?;
    put_process(line, (node, pid))
}

/// A move of a member.
impl Item for Move {
    ghost use Rattle.cpg_json.specs.Events.{move_object};

    ghost printed = { move_object };

    fn put_item(&self, line: &mut Vec<u8>) -> Result<(), Refusal> {
        put_move(line, *self)
    }
}

#[tactic(auto, unfolding(crate::specs::Objects::field))]
fn put_move(line: &mut Vec<u8>, one: Move) -> Result<(), Refusal>
    ensures ok { OnOk result (line.new.items ≡ line.old.items ++ move_object one) }
    ensures memory { IsOkUnless result Refusal.Memory }
{
    let Move { member, cause } = one;
    put(line, "{\"node\":")?;
    put_member_parts(line, member)?;
    put_word(line, "cause", cause_name(cause))?;
    put(line, "}")
}

fn put_member_parts(line: &mut Vec<u8>, member: Member) -> Result<(), Refusal>
    ensures ok { OnOk result (line.new.items ≡ line.old.items ++ decimal member.node ++ after_comma (number (codes "pid") member.pid)) }
    ensures memory { IsOkUnless result Refusal.Memory }
{
    let Member { node, pid, .. } = member;
    push_number(line, u64::from(node.get()))?;
    put_number(line, "pid", u64::from(pid))
}

fn cause_name(cause: Cause) -> &'static str
    ensures { result.now ≡ cause_text cause }
{
    match cause {
        Cause::Leave => "leave",
        Cause::Down => "down",
        Cause::Join => "join",
    }
}
