//! What a connection is told between two of its own entries: the places of its group, one after the other.
//!
//! Proved: each function puts its lines behind those that were written and gathered, or leaves after a refusal what
//! `Gathers` says of them.

ghost use Rattle.std.specs.Prelude.{◌≡◌, ◌≤◌, ◌-◌, ◌++◌, ◌∷◌, [], suc, length, map, take, drop, OnOk, IsOkUnless};
ghost use Rattle.std.specs.Option.{option_copied};
ghost use Rattle.cpg_record.specs.Judging.{judged};
ghost use Rattle.cpg_record.specs.Membership.{group_of};
ghost use Rattle.cpg_record.specs.Nexts.{acts_in};
ghost use Rattle.cpg_record.specs.Places.{places_from};
ghost use Rattle.cpg_judge.specs.Gathering.{Gathers};
ghost use Rattle.cpg_judge.specs.Texts.{MakesNone};
ghost use Rattle.cpg_json.specs.Steps.{lines_between, ArePlaces, IsInbox};
ghost use Rattle.cpg_json.specs.Tails.{heard_line};

use crate::tails::Tails;
use cpg_cred::Refusal;
use cpg_entry::Name;
use cpg_group::{Policy, count_upto};
use cpg_judge::write_much;
use cpg_record::ConnId;
use cpg_text::put_bytes;
use std::io::Write;

/// The inbox of a connection, with what its lines are made of: their front, and the tails of all places.
#[derive(Clone, Copy)]
pub(crate) struct Inbox<'a> {
    pub(crate) policy: &'a Policy,
    pub(crate) tails: &'a Tails,
    pub(crate) front: &'a [u8],
    pub(crate) conn: &'a ConnId,
}

/// The places of the allowed entries of a group above `after`, up to the last one.
fn places_between<'a>(policy: &'a Policy, group: &[u8], after: u32, last: u32) -> &'a [u32]
    requires { (after ≤ last) × (last ≤ length (judged policy.now)) }
    ensures { result.now ≡ places_from (acts_in group.now) (suc after) (take (last - after) (drop after (judged policy.now))) }
{
    let places = policy.places_in(group);
    let from = count_upto(places, after);
    let to = count_upto(places, last);
    if from <= to && to <= places.len() {
        &places[from..to]
    } else {
        &[]
    }
}

/// Puts the line of what a place tells its group, behind that front, at the lines' end.
pub(crate) fn put_told(lines: &mut Vec<u8>, front: &[u8], tail: &[u8]) -> Result<(), Refusal>
    ensures ok { OnOk result (lines.new.items ≡ lines.old.items ++ (front.now ++ tail.now)) }
    ensures memory { IsOkUnless result Refusal.Memory }
{
    put_bytes(lines, front)?;
    put_bytes(lines, tail)
}

/// Writes the line of what the place tells its group, to the connection.
fn write_told<W: Write>(
    writer: &mut W,
    lines: &mut Vec<u8>,
    inbox: &Inbox<'_>,
    place: u32,
) -> Result<(), Refusal>
    requires inbox { IsInbox inbox.now }
    requires place { (1 ≤ place) × (place ≤ length (judged inbox.now.policy.now)) }
    ensures { Gathers result (W.contents writer.old) lines.old.items (W.contents writer.new) lines.new.items (heard_line (judged inbox.now.policy.now) inbox.now.conn.now place ∷ []) }
{
    put_told(lines, inbox.front, inbox.tails.at(place))?;
    write_much(writer, lines)
}

/// Writes the lines of what the places tell their group, to the connection.
fn write_all_told<W: Write>(
    writer: &mut W,
    lines: &mut Vec<u8>,
    inbox: &Inbox<'_>,
    places: &[u32],
) -> Result<(), Refusal>
    requires inbox { IsInbox inbox.now }
    requires places { ArePlaces (judged inbox.now.policy.now) places.now }
    ensures { Gathers result (W.contents writer.old) lines.old.items (W.contents writer.new) lines.new.items (map (heard_line (judged inbox.now.policy.now) inbox.now.conn.now) places.now) }
{
    for place in places {
        match write_told(writer, lines, inbox, *place) {
            Ok(()) => {}
            Err(refusal) => return Err(refusal),
        }
    }
    Ok(())
}

/// Writes what the places above `after` tell the connection, up to the last one. It made no entry there, and is in that
/// group, if it is in one.
pub(crate) fn write_between<W: Write>(
    writer: &mut W,
    lines: &mut Vec<u8>,
    inbox: &Inbox<'_>,
    group: Option<&Name>,
    after: u32,
    last: u32,
) -> Result<(), Refusal>
    requires inbox { IsInbox inbox.now }
    requires places { (after ≤ last) × (last ≤ length (judged inbox.now.policy.now)) }
    requires group { option_copied group ≡ group_of (take after (judged inbox.now.policy.now)) inbox.now.conn.now }
    requires none { MakesNone (judged inbox.now.policy.now) inbox.now.conn.now after last }
    ensures { Gathers result (W.contents writer.old) lines.old.items (W.contents writer.new) lines.new.items (lines_between (judged inbox.now.policy.now) inbox.now.conn.now after last) }
{
    match group {
        None => Ok(()),
        Some(group) => {
            let places = places_between(inbox.policy, group.as_slice(), after, last);
            write_all_told(writer, lines, inbox, places)
        }
    }
}
