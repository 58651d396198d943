//! An inbox, written as text.
//!
//! Proved: each function puts its lines behind those that were written and gathered, or leaves after a refusal what
//! `Gathers` says of them.

ghost use Rattle.std.specs.Prelude.{◌≡◌, ◌≤◌, ◌-◌, ◌++◌, Some, drop, length, map, OnOk, IsOkUnless};
ghost use Rattle.std.specs.List.{concat};
ghost use Rattle.cpg_record.specs.Events as events;
ghost use Rattle.cpg_record.specs.Judging.{judged};
ghost use Rattle.cpg_record.specs.Nexts.{is_made_by};
ghost use Rattle.cpg_record.specs.Places.{IsNextOf};
ghost use Rattle.cpg_print.specs.Events.{event_line};
ghost use Rattle.cpg_judge.specs.Gathering.{Gathers};
ghost use Rattle.cpg_judge.specs.Judging.{inbox_text};
ghost use Rattle.cpg_judge.specs.Texts.{lines_at, lines_between, AreTexts, Makes};

use crate::gathering::{gather, write_much};
use crate::inboxes::{Inbox, pass};
use crate::texts::Texts;
use cpg_cred::Refusal;
use cpg_group::Policy;
use cpg_print::{put_inbox, put_verdict_line};
use cpg_record::ConnId;
use std::io::Write;

/// Puts what a place tells the connection that made its entry at the lines' end: the verdict, and what it tells
/// its group.
#[inline(always)]
fn put_own(lines: &mut Vec<u8>, inbox: &Inbox<'_>, line: &[u8], place: u32) -> Result<(), Refusal>
    requires line { line.now ≡ concat (drop 1 (lines_at (judged inbox.now.entries) inbox.now.conn place)) }
    requires own { Makes (judged inbox.now.entries) inbox.now.conn place }
    requires place { (1 ≤ place) × (place ≤ length (judged inbox.now.entries)) }
    ensures ok { OnOk result (lines.new.items ≡ lines.old.items ++ concat (lines_at (judged inbox.now.entries) inbox.now.conn place)) }
    ensures memory { IsOkUnless result Refusal.Memory }
{
    put_verdict_line(lines, place, inbox.record(place).verdict)?;
    lines.extend_from_slice(line)?;
    Ok(())
}

/// Writes what a place tells the connection that made its entry.
#[inline(always)]
fn write_own<W: Write>(
    writer: &mut W,
    lines: &mut Vec<u8>,
    inbox: &Inbox<'_>,
    line: &[u8],
    place: u32,
) -> Result<(), Refusal>
    requires line { line.now ≡ concat (drop 1 (lines_at (judged inbox.now.entries) inbox.now.conn place)) }
    requires own { Makes (judged inbox.now.entries) inbox.now.conn place }
    requires place { (1 ≤ place) × (place ≤ length (judged inbox.now.entries)) }
    ensures { Gathers result (W.contents writer.old) lines.old.items (W.contents writer.new) lines.new.items (lines_at (judged inbox.now.entries) inbox.now.conn place) }
{
    put_own(lines, inbox, line, place)?;
    write_much(writer, lines)
}

/// Writes what the places above `after` tell the connection, up to the next at which it made the entry: the text
/// of those between, and its own place.
#[inline(always)]
fn write_upto<W: Write>(
    writer: &mut W,
    lines: &mut Vec<u8>,
    inbox: &Inbox<'_>,
    text: &[u8],
    line: &[u8],
    after: u32,
    place: u32,
) -> Result<(), Refusal>
    requires text { text.now ≡ concat (lines_between (judged inbox.now.entries) inbox.now.conn after (place - 1)) }
    requires line { line.now ≡ concat (drop 1 (lines_at (judged inbox.now.entries) inbox.now.conn place)) }
    requires next { IsNextOf (is_made_by inbox.now.conn) (judged inbox.now.entries) after (Some place) }
    ensures { Gathers result (W.contents writer.old) lines.old.items (W.contents writer.new) lines.new.items (lines_between (judged inbox.now.entries) inbox.now.conn after place) }
{
    gather(writer, lines, text)?;
    write_own(writer, lines, inbox, line, place)
}

/// Writes what the judged places tell the connection, from one at which it made the entry to the next.
fn write_places<W: Write>(
    writer: &mut W,
    lines: &mut Vec<u8>,
    inbox: &Inbox<'_>,
) -> Result<(), Refusal>
    ensures { Gathers result (W.contents writer.old) lines.old.items (W.contents writer.new) lines.new.items (map event_line (events.inbox (judged inbox.now.entries) inbox.now.conn)) }
{
    let mut count = 0;
    let mut after = 0;
    let mut told = None;
    while let Some(place) = inbox.own(count) {
        count += 1;
        let (text, before) = pass(told, place - 1);
        told = inbox.told_after(&before, count, place);
        let line = inbox.own_line(&before, &told, place);
        match write_upto(writer, lines, inbox, text, line, after, place) {
            Ok(()) => {}
            Err(refusal) => return Err(refusal),
        }
        after = place;
    }
    let (text, _) = pass(told, inbox.last());
    gather(writer, lines, text)
}

/// Writes the inbox of a connection: a line that names it, and its events by place.
pub fn write_inbox<W: Write>(
    writer: &mut W,
    lines: &mut Vec<u8>,
    policy: &Policy,
    texts: &Texts,
    conn: &ConnId,
) -> Result<(), Refusal>
    requires { AreTexts texts.now (judged policy.now) (length (judged policy.now)) }
    ensures { Gathers result (W.contents writer.old) lines.old.items (W.contents writer.new) lines.new.items (inbox_text (judged policy.now) conn.now) }
{
    put_inbox(lines, conn)?;
    write_places(writer, lines, &Inbox::of(policy, texts, *conn))
}
