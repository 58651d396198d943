//! What an inbox is made of: what its connection did, and what the groups tell, each looked up once for as long
//! as it serves.
//!
//! Proved: the bytes that are found for places are the lines that these places tell the connection.

ghost use Rattle.std.specs.Prelude.{true, false, ◌≡◌, ◌≤◌, ◌-◌, ◌&&◌, ℕ, Bool, List, drop, length, nat_le, take, IfSome, MatchOption, Some};
ghost use Rattle.std.specs.List.{concat, slice_get};
ghost use Rattle.std.specs.Option.{option_copied};
ghost use Rattle.std.specs.Str.{bytes_eq};
ghost use Rattle.cpg_record.specs.declared.records.Record.{Record};
ghost use Rattle.cpg_record.specs.Judging.{judged};
ghost use Rattle.cpg_record.specs.Membership.{group_of, is_allowed, is_member};
ghost use Rattle.cpg_record.specs.Nexts.{acts_in, is_made_by};
ghost use Rattle.cpg_record.specs.Places.{places_of, record_at, records_before};
ghost use Rattle.cpg_judge.specs.Inboxes.{count_at, told_between, IsHeard, IsPast};
ghost use Rattle.cpg_judge.specs.Texts.{hears_own, lines_at, lines_between, told_lines, AreTexts, Makes, MakesNone};

use crate::texts::{Text, Texts};
use cpg_entry::{Call, Name, Op};
use cpg_group::{ConnectionLog, Policy, count_upto};
use cpg_record::{ConnId, Record};
use std::marker::Model;

/// Whether a place up to the last one stands there among the places.
fn is_upto(places: &[u32], index: usize, last: u32) -> bool
    ensures { MatchOption (slice_get places.now index) (result ≡ false) (λ place. result ≡ nat_le place last) }
{
    match places.get(index) {
        None => false,
        Some(place) => *place <= last,
    }
}

/// How many of a group's places come up to the last one, where so many come up to one before it. Most often
/// that is none or one more; else they are searched by halving.
#[inline(always)]
fn count_on(places: &[u32], passed: usize, last: u32) -> usize
    ensures { (test : Record → Bool) (records : List Record) (after : ℕ) → places.now ≡ places_of test records → passed ≡ length (places_of test (take after records)) → after ≤ last → last ≤ length records → result ≡ length (places_of test (take last records)) }
{
    if !is_upto(places, passed, last) {
        return passed;
    }
    let next = passed + 1;
    if is_upto(places, next, last) {
        count_upto(places, last)
    } else {
        next
    }
}

/// What a group tells: the places of its allowed entries, the lines of these places, and how many of them an
/// inbox has passed. Contracts see it as these three and the group's name.
#[derive(Drop)]
pub(crate) struct Told<'a> {
    group: &'a Name,
    places: &'a [u32],
    text: &'a Text,
    passed: usize,
}

impl<'a> Model for Told<'a> {
    ghost use Rattle.cpg_judge.specs.Inboxes.{ToldValue};

    ghost Value = { ToldValue };

    ghost view = { λ told. record { group = told.group.now; places = told.places.now; text = told.text.now; passed = told.passed } };
}

impl<'a> Told<'a> {
    /// Whether it is what the group of that name tells.
    fn is_of(&self, group: &Name) -> bool
        ensures { result ≡ bytes_eq self.now.group group.now }
    {
        *self.group == *group
    }

    /// How many of the places were passed.
    fn passed(&self) -> usize
        ensures { result ≡ self.now.passed }
    {
        self.passed
    }

    /// The same, with the places up to the last one passed.
    #[inline(always)]
    fn brought_to(&self, last: u32) -> Told<'a>
        ensures { (records : List Record) (after : ℕ) → IsPast records after self.now → after ≤ last → last ≤ length records → (result.group ≡ self.now.group) × IsPast records last result }
    {
        Told {
            group: self.group,
            places: self.places,
            text: self.text,
            passed: count_on(self.places, self.passed, last),
        }
    }

    /// What the places tell the group, from those that an earlier one had passed on, as one text.
    #[inline(always)]
    fn since(&self, passed: usize) -> &'a [u8]
        ensures { (records : List Record) (after last : ℕ) → IsPast records last self.now → passed ≡ count_at records self.now.group after → after ≤ last → last ≤ length records → result.now ≡ told_between records self.now.group after last }
    {
        self.text.range(passed, self.passed)
    }

    /// What the next place tells the group.
    fn next(&self) -> &'a [u8]
        ensures { (records : List Record) (place : ℕ) (past : Record) → IsPast records (place - 1) self.now → record_at records place ≡ Some past → acts_in self.now.group past ≡ true → result.now ≡ concat (told_lines records place) }
    {
        if self.passed < self.places.len() {
            self.text.range(self.passed, self.passed + 1)
        } else {
            &[]
        }
    }

    /// What the last of the passed places tells the group.
    fn latest(&self) -> &'a [u8]
        ensures { (records : List Record) (place : ℕ) (past : Record) → IsPast records place self.now → record_at records place ≡ Some past → acts_in self.now.group past ≡ true → result.now ≡ concat (told_lines records place) }
    {
        if self.passed == 0 {
            &[]
        } else {
            self.text.range(self.passed - 1, self.passed)
        }
    }
}

/// What the inbox of a connection is made of. Contracts see it as the judged entries and the connection.
#[derive(Drop)]
pub(crate) struct Inbox<'a> {
    policy: &'a Policy,
    texts: &'a Texts,
    log: ConnectionLog<'a>,
}

impl<'a> Model for Inbox<'a> {
    ghost use Rattle.std.specs.Prelude.{◌≡◌, length};
    ghost use Rattle.cpg_record.specs.Judging.{judged};
    ghost use Rattle.cpg_judge.specs.Inboxes.{InboxValue};
    ghost use Rattle.cpg_judge.specs.Texts.{AreTexts};

    ghost Value = { InboxValue };

    ghost view = { λ inbox. record { entries = inbox.policy.now; conn = inbox.log.conn } };

    ghost invariant = { λ inbox. (inbox.log.records ≡ judged inbox.policy.now) × AreTexts inbox.texts.now (judged inbox.policy.now) (length (judged inbox.policy.now)) };
}

impl<'a> Inbox<'a> {
    /// The inbox of the connection.
    pub(crate) fn of(policy: &'a Policy, texts: &'a Texts, conn: ConnId) -> Inbox<'a>
        requires { AreTexts texts.now (judged policy.now) (length (judged policy.now)) }
        ensures { result ≡ record { entries = policy.now; conn = conn } }
    {
        Inbox {
            policy,
            texts,
            log: policy.log(conn),
        }
    }

    /// The place of that index, from 0, among those at which the connection made the entry.
    pub(crate) fn own(&self, index: usize) -> Option<u32>
        ensures { result ≡ slice_get (places_of (is_made_by self.now.conn) (judged self.now.entries)) index }
    {
        self.log.own(index)
    }

    /// How many places there are.
    pub(crate) fn last(&self) -> u32
        ensures { result ≡ length (judged self.now.entries) }
    {
        self.policy.len() as u32
    }

    /// The record at the place.
    pub(crate) fn record(&self, place: u32) -> &'a Record
        requires { (1 ≤ place) × (place ≤ length (judged self.now.entries)) }
        ensures { record_at (judged self.now.entries) place ≡ Some result.now }
    {
        &self.policy.records()[place as usize - 1]
    }

    /// The group that the connection is in after the last place.
    fn group_after(&self, last: u32) -> Option<&'a Name>
        ensures { option_copied result ≡ group_of (take last (judged self.now.entries)) self.now.conn }
    {
        self.log.group_after(last)
    }

    /// What the group of that name tells, with the places up to that one passed.
    fn look_up(&self, group: &'a Name, after: u32) -> Told<'a>
        ensures name { result.group ≡ group.now }
        ensures past { IsPast (judged self.now.entries) after result }
    {
        let places = self.policy.places_in(group.as_slice());
        Told {
            group,
            places,
            text: self.texts.of(group),
            passed: count_upto(places, after),
        }
    }

    /// The same, from what was looked up before the place where it is of that group.
    #[inline(always)]
    fn told_of(&self, before: &Option<Told<'a>>, group: &'a Name, place: u32) -> Told<'a>
        requires before { IfSome before.now (IsPast (judged self.now.entries) (place - 1)) }
        requires place { place ≤ length (judged self.now.entries) }
        ensures name { result.group ≡ group.now }
        ensures past { IsPast (judged self.now.entries) place result }
    {
        match before {
            None => self.look_up(group, place),
            Some(told) => {
                if told.is_of(group) {
                    told.brought_to(place)
                } else {
                    self.look_up(group, place)
                }
            }
        }
    }

    /// What the group tells that the connection is in after the place, up to which it made so many entries, if it
    /// is in one, with the places up to there passed: what was looked up before, where it is of that group.
    #[inline(always)]
    pub(crate) fn told_after(
        &self,
        before: &Option<Told<'a>>,
        count: usize,
        place: u32,
    ) -> Option<Told<'a>>
        requires before { IfSome before.now (IsPast (judged self.now.entries) (place - 1)) }
        requires count { count ≡ length (places_of (is_made_by self.now.conn) (take place (judged self.now.entries))) }
        requires place { place ≤ length (judged self.now.entries) }
        ensures { IsHeard (judged self.now.entries) self.now.conn place result }
    {
        match self.log.group_past(count) {
            None => None,
            Some(group) => Some(self.told_of(before, group, place)),
        }
    }

    /// Whether the connection was in the group before the place.
    fn was_in(&self, place: u32, group: &Name) -> bool
        requires { 1 ≤ place }
        ensures { result ≡ is_member (records_before (judged self.now.entries) place) self.now.conn group.now }
    {
        match self.group_after(place - 1) {
            None => false,
            Some(before) => *before == *group,
        }
    }

    /// Whether the connection hears what its own allowed op tells the group: what changes the rules of another
    /// group it does not.
    fn hears(&self, place: u32, group: &Name, op: &Op) -> bool
        requires { 1 ≤ place }
        ensures { result ≡ hears_own (group_of (records_before (judged self.now.entries) place) self.now.conn) group.now op.now }
    {
        match op {
            Op::Act(Call::Insert(_, _, _)) | Op::Act(Call::Remove(_, _)) => {
                self.was_in(place, group)
            }
            _ => true,
        }
    }

    /// Whether the connection is told what its own record tells the group.
    fn is_told(&self, place: u32, group: &Name, past: &Record) -> bool
        requires { 1 ≤ place }
        ensures { result ≡ (is_allowed past.now.verdict && hears_own (group_of (records_before (judged self.now.entries) place) self.now.conn) group.now past.now.entry.op) }
    {
        past.verdict.is_allowed() && self.hears(place, group, &past.entry.op)
    }

    /// What a place of the group of that name tells it, from what is looked up after the place where it is of
    /// that group.
    fn told_upto(&self, after: &Option<Told<'a>>, group: &'a Name, place: u32) -> &'a [u8]
        requires after { IfSome after.now (IsPast (judged self.now.entries) place) }
        ensures { (past : Record) → record_at (judged self.now.entries) place ≡ Some past → acts_in group.now past ≡ true → result.now ≡ concat (told_lines (judged self.now.entries) place) }
    {
        match after {
            None => self.look_up(group, place).latest(),
            Some(told) => {
                if told.is_of(group) {
                    told.latest()
                } else {
                    self.look_up(group, place).latest()
                }
            }
        }
    }

    /// The same, from what was looked up before the place or after it: a leave tells the group that the
    /// connection was in before it, a join the one that it is in after it.
    fn told_at(
        &self,
        before: &Option<Told<'a>>,
        after: &Option<Told<'a>>,
        group: &'a Name,
        place: u32,
    ) -> &'a [u8]
        requires before { IfSome before.now (IsPast (judged self.now.entries) (place - 1)) }
        requires after { IfSome after.now (IsPast (judged self.now.entries) place) }
        ensures { (past : Record) → record_at (judged self.now.entries) place ≡ Some past → acts_in group.now past ≡ true → result.now ≡ concat (told_lines (judged self.now.entries) place) }
    {
        match before {
            None => self.told_upto(after, group, place),
            Some(told) => {
                if told.is_of(group) {
                    told.next()
                } else {
                    self.told_upto(after, group, place)
                }
            }
        }
    }

    /// What the place tells the connection that made its entry beside the verdict: the line that it tells its
    /// group, where the connection hears it.
    #[inline(always)]
    pub(crate) fn own_line(
        &self,
        before: &Option<Told<'a>>,
        after: &Option<Told<'a>>,
        place: u32,
    ) -> &'a [u8]
        requires before { IfSome before.now (IsPast (judged self.now.entries) (place - 1)) }
        requires after { IfSome after.now (IsPast (judged self.now.entries) place) }
        requires own { Makes (judged self.now.entries) self.now.conn place }
        requires place { (1 ≤ place) × (place ≤ length (judged self.now.entries)) }
        ensures { result.now ≡ concat (drop 1 (lines_at (judged self.now.entries) self.now.conn place)) }
    {
        let past = self.record(place);
        match &past.group {
            None => &[],
            Some(group) => {
                if self.is_told(place, group, past) {
                    self.told_at(before, after, group, place)
                } else {
                    &[]
                }
            }
        }
    }
}

/// The lines of the places above those that were passed up to the last one, at which the connection made no
/// entry, as one text: they are lines that its group was told one after the other. These places are passed then.
#[inline(always)]
pub(crate) fn pass<'a>(told: Option<Told<'a>>, last: u32) -> (&'a [u8], Option<Told<'a>>)
    ensures text { (records : List Record) (conn : ConnId) (after : ℕ) → IsHeard records conn after told.entry → after ≤ last → last ≤ length records → MakesNone records conn after last → result.0.now ≡ concat (lines_between records conn after last) }
    ensures told { (records : List Record) (after : ℕ) → IfSome told.entry (IsPast records after) → after ≤ last → last ≤ length records → IfSome result.1 (IsPast records last) }
{
    match told {
        None => (&[], None),
        Some(told) => {
            let passed = told.passed();
            let told = told.brought_to(last);
            (told.since(passed), Some(told))
        }
    }
}
