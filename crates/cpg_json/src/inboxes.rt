//! An inbox, written.
//!
//! Proved: each function puts its lines behind those that were written and gathered, or leaves after a refusal what
//! `Gathers` says of them.

ghost use Rattle.std.specs.Prelude.{◌≡◌, ◌≤◌, ◌++◌, Some, length, map, take, OnOk, IsOkUnless};
ghost use Rattle.std.specs.List.{concat};
ghost use Rattle.std.specs.Option.{option_copied};
ghost use Rattle.cpg_record.specs.Events as events;
ghost use Rattle.cpg_record.specs.Judging.{judged};
ghost use Rattle.cpg_record.specs.Membership.{group_of};
ghost use Rattle.cpg_record.specs.Nexts.{is_made_by};
ghost use Rattle.cpg_record.specs.Places.{IsNextOf};
ghost use Rattle.cpg_judge.specs.Gathering.{Gathers};
ghost use Rattle.cpg_json.specs.Events.{event_json};
ghost use Rattle.cpg_json.specs.Judging.{inbox_lines};
ghost use Rattle.cpg_json.specs.Steps.{lines_at, lines_between, IsInbox};
ghost use Rattle.cpg_json.specs.Tails.{heard_text, own_text, AreTails};

use crate::events::{put_front, put_inbox, put_verdict_tail};
use crate::stretches::{Inbox, put_told, write_between};
use crate::tails::Tails;
use cpg_cred::Refusal;
use cpg_entry::Name;
use cpg_group::Policy;
use cpg_judge::write_much;
use cpg_record::{ConnId, Event, Verdict};
use cpg_text::put_bytes;
use std::io::Write;

/// Puts the line of a connection's own verdict at the lines' end, where the entry is its own.
fn put_own(
    lines: &mut Vec<u8>,
    own: bool,
    front: &[u8],
    place: u32,
    verdict: Verdict,
) -> Result<(), Refusal>
    ensures ok { OnOk result (lines.new.items ≡ lines.old.items ++ own_text own front.now (Event.Verdict place verdict)) }
    ensures memory { IsOkUnless result Refusal.Memory }
{
    if !own {
        return Ok(());
    }
    put_bytes(lines, front)?;
    put_verdict_tail(lines, place, verdict)
}

/// Puts the line of what a place tells the group at the lines' end, where the connection hears it.
fn put_heard(lines: &mut Vec<u8>, heard: bool, front: &[u8], tail: &[u8]) -> Result<(), Refusal>
    ensures ok { OnOk result (lines.new.items ≡ lines.old.items ++ heard_text heard front.now tail.now) }
    ensures memory { IsOkUnless result Refusal.Memory }
{
    if !heard {
        return Ok(());
    }
    put_told(lines, front, tail)
}

/// Puts what the place tells the connection at the lines' end.
fn put_place(lines: &mut Vec<u8>, inbox: &Inbox<'_>, place: u32) -> Result<(), Refusal>
    requires inbox { IsInbox inbox.now }
    requires place { (1 ≤ place) × (place ≤ length (judged inbox.now.policy.now)) }
    ensures ok { OnOk result (lines.new.items ≡ lines.old.items ++ concat (lines_at (judged inbox.now.policy.now) inbox.now.conn.now place)) }
    ensures memory { IsOkUnless result Refusal.Memory }
{
    let past = &inbox.policy.records()[place as usize - 1];
    let own = inbox.conn.is(&ConnId::of(&past.entry));
    let heard = inbox.policy.count_at(place, *inbox.conn) > usize::from(own);
    put_own(lines, own, inbox.front, place, past.verdict)?;
    put_heard(lines, heard, inbox.front, inbox.tails.at(place))
}

/// Writes what the place tells the connection.
fn write_place<W: Write>(
    writer: &mut W,
    lines: &mut Vec<u8>,
    inbox: &Inbox<'_>,
    place: u32,
) -> Result<(), Refusal>
    requires inbox { IsInbox inbox.now }
    requires place { (1 ≤ place) × (place ≤ length (judged inbox.now.policy.now)) }
    ensures { Gathers result (W.contents writer.old) lines.old.items (W.contents writer.new) lines.new.items (lines_at (judged inbox.now.policy.now) inbox.now.conn.now place) }
{
    put_place(lines, inbox, place)?;
    write_much(writer, lines)
}

/// Writes what the places above `after` tell the connection, up to the next at which it made the entry. It is in that
/// group before that place, if it is in one.
fn write_upto<W: Write>(
    writer: &mut W,
    lines: &mut Vec<u8>,
    inbox: &Inbox<'_>,
    group: Option<&Name>,
    after: u32,
    place: u32,
) -> Result<(), Refusal>
    requires inbox { IsInbox inbox.now }
    requires group { option_copied group ≡ group_of (take after (judged inbox.now.policy.now)) inbox.now.conn.now }
    requires next { IsNextOf (is_made_by inbox.now.conn.now) (judged inbox.now.policy.now) after (Some place) }
    ensures { Gathers result (W.contents writer.old) lines.old.items (W.contents writer.new) lines.new.items (lines_between (judged inbox.now.policy.now) inbox.now.conn.now after place) }
{
    write_between(writer, lines, inbox, group, after, place - 1)?;
    write_place(writer, lines, inbox, place)
}

/// Writes what the judged places tell the connection, from one at which it made the entry to the next.
fn write_events<W: Write>(
    writer: &mut W,
    lines: &mut Vec<u8>,
    inbox: &Inbox<'_>,
) -> Result<(), Refusal>
    requires { IsInbox inbox.now }
    ensures { Gathers result (W.contents writer.old) lines.old.items (W.contents writer.new) lines.new.items (map (event_json inbox.now.conn.now) (events.inbox (judged inbox.now.policy.now) inbox.now.conn.now)) }
{
    let log = inbox.policy.log(*inbox.conn);
    let mut count = 0;
    let mut after = 0;
    while let Some(place) = log.own(count) {
        let group = log.group_past(count);
        match write_upto(writer, lines, inbox, group, after, place) {
            Ok(()) => {}
            Err(refusal) => return Err(refusal),
        }
        count += 1;
        after = place;
    }
    let group = log.group_past(count);
    write_between(
        writer,
        lines,
        inbox,
        group,
        after,
        inbox.policy.len() as u32,
    )
}

/// Writes the inbox of a connection: a line that names it, and its events by place.
pub(crate) fn write_inbox<W: Write>(
    writer: &mut W,
    lines: &mut Vec<u8>,
    policy: &Policy,
    tails: &Tails,
    front: &mut Vec<u8>,
    conn: &ConnId,
) -> Result<(), Refusal>
    requires { AreTails tails.now (judged policy.now) (length (judged policy.now)) }
    ensures { Gathers result (W.contents writer.old) lines.old.items (W.contents writer.new) lines.new.items (inbox_lines (judged policy.now) conn.now) }
{
    put_inbox(lines, conn)?;
    front.clear();
    put_front(front, conn)?;
    let inbox = Inbox {
        policy,
        tails,
        front: front.as_slice(),
        conn,
    };
    write_events(writer, lines, &inbox)
}
