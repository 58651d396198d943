//! What is kept of an inbox.
//!
//! Proved: each function puts its lines behind those that were written and gathered, or leaves after a refusal what
//! `Gathers` says of them.

ghost use Rattle.std.specs.Prelude.{◌≡◌, ◌≤◌, ◌++◌, length, OnOk, IsOkUnless};
ghost use Rattle.std.specs.List.{concat, flat_map};
ghost use Rattle.cpg_record.specs.Events.{events};
ghost use Rattle.cpg_record.specs.Judging.{judged};
ghost use Rattle.cpg_judge.specs.Gathering.{Gathers};
ghost use Rattle.cpg_judge.specs.Filtering.{event_kept, headed, inbox_kept, lines_at, told_lines};

use crate::filter::filters::{Filter, Only, keeps_event};
use crate::gathering::write_much;
use crate::judging::record_of;
use cpg_cred::Refusal;
use cpg_group::Policy;
use cpg_print::{put_event, put_inbox};
use cpg_record::{ConnId, Event};
use std::io::Write;

/// The inbox of a connection, and the filter that says what is kept of it.
#[derive(Clone, Copy)]
struct FilteredInbox<'a, 'f> {
    policy: &'a Policy,
    filter: &'a Filter<'f>,
    conn: &'a ConnId,
}

/// Puts the line of the event, where it is kept, at the lines' end.
fn put_kept(lines: &mut Vec<u8>, only: Option<Only>, event: &Event) -> Result<(), Refusal>
    ensures ok { OnOk result (lines.new.items ≡ lines.old.items ++ concat (event_kept only event.now)) }
    ensures memory { IsOkUnless result Refusal.Memory }
{
    if keeps_event(only, event) {
        put_event(lines, event)?;
    }
    Ok(())
}

/// Puts the lines of the events that are kept at the lines' end.
fn put_events(lines: &mut Vec<u8>, only: Option<Only>, events: &[Event]) -> Result<(), Refusal>
    ensures ok { OnOk result (lines.new.items ≡ lines.old.items ++ flat_map (λ event. concat (event_kept only event)) events.now) }
    ensures memory { IsOkUnless result Refusal.Memory }
{
    for event in events {
        put_kept(lines, only, event)?;
    }
    Ok(())
}

/// Puts what is kept of what the place tells the connection at the lines' end, where the place is kept.
#[tactic(auto, using(crate::proofs::Between::concat_flat_map))]
fn put_told(
    lines: &mut Vec<u8>,
    policy: &Policy,
    only: Option<Only>,
    place: u32,
    conn: &ConnId,
) -> Result<(), Refusal>
    requires { (1 ≤ place) × (place ≤ length policy.now) }
    ensures ok { OnOk result (lines.new.items ≡ lines.old.items ++ concat (flat_map (event_kept only) (events (judged policy.now) place conn.now))) }
    ensures memory { IsOkUnless result Refusal.Memory }
{
    let told = policy.events_at(place, *conn)?;
    put_events(lines, only, told.as_slice())
}

/// Puts what is kept of what the place tells the connection at the lines' end.
fn put_place(lines: &mut Vec<u8>, inbox: &FilteredInbox<'_, '_>, place: u32) -> Result<(), Refusal>
    requires { (1 ≤ place) × (place ≤ length inbox.now.policy.now) }
    ensures ok { OnOk result (lines.new.items ≡ lines.old.items ++ concat (lines_at inbox.now.filter.now (judged inbox.now.policy.now) inbox.now.conn.now place)) }
    ensures memory { IsOkUnless result Refusal.Memory }
{
    if inbox
        .filter
        .keeps_place(place, record_of(inbox.policy, place))
    {
        put_told(lines, inbox.policy, inbox.filter.only, place, inbox.conn)?;
    }
    Ok(())
}

/// Puts what is kept of what the judged places tell the connection at the lines' end, from one that tells it anything
/// to the next.
fn put_places(lines: &mut Vec<u8>, inbox: &FilteredInbox<'_, '_>) -> Result<(), Refusal>
    ensures ok { OnOk result (lines.new.items ≡ lines.old.items ++ concat (told_lines inbox.now.filter.now (judged inbox.now.policy.now) inbox.now.conn.now)) }
    ensures memory { IsOkUnless result Refusal.Memory }
{
    let mut after = 0u32;
    while let Some(place) = inbox.policy.next_event(after, *inbox.conn) {
        put_place(lines, inbox, place)?;
        after = place;
    }
    Ok(())
}

/// Puts what is kept of the inbox of a connection at the lines' end, behind a line that names it; nothing where
/// nothing of it is kept.
fn put_headed(lines: &mut Vec<u8>, inbox: &FilteredInbox<'_, '_>) -> Result<(), Refusal>
    ensures ok { OnOk result (lines.new.items ≡ lines.old.items ++ concat (headed inbox.now.conn.now (told_lines inbox.now.filter.now (judged inbox.now.policy.now) inbox.now.conn.now))) }
    ensures memory { IsOkUnless result Refusal.Memory }
{
    let start = lines.len();
    put_inbox(lines, inbox.conn)?;
    let head = lines.len();
    put_places(lines, inbox)?;
    if lines.len() == head {
        lines.truncate(start);
    }
    Ok(())
}

/// Puts what is kept of the inbox of a connection, where that is kept, at the lines' end.
fn put_inbox_kept(lines: &mut Vec<u8>, inbox: &FilteredInbox<'_, '_>) -> Result<(), Refusal>
    ensures ok { OnOk result (lines.new.items ≡ lines.old.items ++ concat (inbox_kept inbox.now.filter.now (judged inbox.now.policy.now) inbox.now.conn.now)) }
    ensures memory { IsOkUnless result Refusal.Memory }
{
    if inbox.filter.keeps_conn(inbox.conn) {
        put_headed(lines, inbox)?;
    }
    Ok(())
}

/// Writes what is kept of the inbox of a connection. `Memory` leaves nothing of it.
pub fn write_inbox<W: Write>(
    writer: &mut W,
    lines: &mut Vec<u8>,
    policy: &Policy,
    filter: &Filter<'_>,
    conn: &ConnId,
) -> Result<(), Refusal>
    ensures { Gathers result (W.contents writer.old) lines.old.items (W.contents writer.new) lines.new.items (inbox_kept filter.now (judged policy.now) conn.now) }
{
    let inbox = FilteredInbox {
        policy,
        filter,
        conn,
    };
    put_inbox_kept(lines, &inbox)?;
    write_much(writer, lines)
}
