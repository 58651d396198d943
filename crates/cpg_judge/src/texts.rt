//! What places tell their groups, as it is printed: each place's line is put once, into the text of its group,
//! so that the lines of places that follow each other in a group are one slice. The text of a group's members
//! stands beside it, and is put again where a record moves one.

ghost use Rattle.std.specs.Prelude.{true, ◌≡◌, ◌≤◌, ◌+◌, ◌-◌, ◌++◌, ℕ, List, [], Some, length, take, drop, if◌then◌else◌, IfOk, MatchOption, OnOk, IsOkUnless};
ghost use Rattle.std.specs.List.{concat, slice_get};
ghost use Rattle.std.specs.Str.{bytes_eq};
ghost use Rattle.cpg_entry.specs.Entries.{is_move};
ghost use Rattle.cpg_record.specs.declared.moves.Cause.TheVariants as Cause;
ghost use Rattle.cpg_record.specs.declared.records.Record.{Record};
ghost use Rattle.cpg_record.specs.Connections.{member_of};
ghost use Rattle.cpg_record.specs.Judging.{judged};
ghost use Rattle.cpg_record.specs.Named.{names_of};
ghost use Rattle.cpg_record.specs.Places.{record_at};
ghost use Rattle.cpg_print.specs.Records.{audit_line, members_text};
ghost use Rattle.cpg_judge.specs.Texts.{kept_text, no_text, showing, told_text, with_place, AreShown, AreTexts, HoldsTexts, LacksText, StandsAllowed};

use cpg_cred::{NameHasher, Refusal};
use cpg_entry::{Call, Name, Op};
use cpg_group::Policy;
use cpg_print::{
    put_audit, put_audit_with, put_change_with, put_event, put_members, put_message_line,
    put_rules_line,
};
use cpg_record::{Cause, Member, Move, Record};
use indexmap::IndexMap;
use smallvec::SmallVec;
use std::alloc::Global;
use std::hash::BuildHasherDefault;
use std::marker::Model;

/// The room for the text of a group's members, in bytes, when its first place is put.
const MEMBERS_ROOM: usize = 24;

/// The room for the line of each of a group's places, in bytes: most take less, and what more take grows.
const LINE_ROOM: usize = 60;

/// How many ends of lines a text keeps in itself, as most groups have no more places than that: more have memory of
/// their own.
const KEPT_INSIDE: usize = 16;

/// A place of judged entries, and its record.
#[derive(Clone, Copy)]
pub struct Placed<'a> {
    pub policy: &'a Policy,
    pub place: u32,
    pub past: &'a Record,
}

/// The move of the member that the entry's connection becomes.
fn join_of(past: &Record) -> Move
    ensures { result ≡ record { member = member_of past.now.entry; cause = Cause.Join } }
{
    Move {
        member: Member::of(&past.entry),
        cause: Cause::Join,
    }
}

/// Puts the line that the allowed record of the place tells its group at the line's end, from the text of its
/// members where it moves one. But for an end of a membership, whose member is sought among the group's, it is put
/// from the record.
#[inline(always)]
fn put_told(
    line: &mut Vec<u8>,
    policy: &Policy,
    place: u32,
    past: &Record,
    group: &[u8],
    members: &[u8],
) -> Result<(), Refusal>
    requires allowed { StandsAllowed policy.now place past.now group.now }
    requires members { is_move past.now.entry.op ≡ true → members.now ≡ members_text past.now.members }
    ensures ok { OnOk result (line.new.items ≡ line.old.items ++ told_text (judged policy.now) place) }
    ensures memory { IsOkUnless result Refusal.Memory }
{
    match &past.entry.op {
        Op::Act(Call::Send(message)) => {
            let node = past.entry.node;
            put_message_line(line, place, group, node, past.entry.pid, message.as_slice())
        }
        Op::Act(Call::Join(_)) => {
            put_change_with(line, place, group, members, &[], &[join_of(past)])
        }
        Op::Act(Call::Insert(_, _, _)) | Op::Act(Call::Remove(_, _)) => {
            put_rules_line(line, place, group)
        }
        _ => match policy.told_at(place)? {
            None => Ok(()),
            Some(event) => put_event(line, &event),
        },
    }
}

/// Where a text ends, in 32 bits. One of 4 GiB, which no script of 16 MiB makes a group tell, is refused for want of room.
#[inline(always)]
fn end_of(text: &[u8]) -> Result<u32, Refusal>
    ensures ok { IfOk result (λ end. end ≡ length text.now) }
    ensures memory { IsOkUnless result Refusal.Memory }
{
    match u32::try_from(text.len()) {
        Ok(end) => Ok(end),
        Err(_) => Err(Refusal::Memory),
    }
}

/// The text of a group's members, and what its places tell it, put one after the other, with where each of
/// these ends.
#[derive(Debug, Drop)]
pub(crate) struct Text {
    members: Vec<u8>,
    text: Vec<u8>,
    ends: SmallVec<u32, KEPT_INSIDE>,
}

impl Model for Text {
    ghost use Rattle.cpg_print.specs.Records.{audit_line, members_text};
    ghost use Rattle.cpg_judge.specs.Texts.{TextValue};

    ghost Value = { TextValue };

    ghost view = { λ text. record { members = text.members.items; text = text.text.items; ends = text.ends.items } };
}

impl Text {
    /// No texts, and nobody.
    fn new(alloc: Global) -> Result<Text, Refusal>
        ensures ok { IfOk result (λ text. text ≡ no_text) }
        ensures memory { IsOkUnless result Refusal.Memory }
    {
        let mut members = Vec::new(alloc);
        put_members(&mut members, &[])?;
        Ok(Text {
            members,
            text: Vec::new(alloc),
            ends: SmallVec::new(alloc),
        })
    }

    /// The same, with room for what so many places will put.
    fn with_room(alloc: Global, places: usize) -> Result<Text, Refusal>
        ensures ok { IfOk result (λ text. text ≡ no_text) }
        ensures memory { IsOkUnless result Refusal.Memory }
    {
        let mut members = Vec::with_capacity(alloc, MEMBERS_ROOM)?;
        put_members(&mut members, &[])?;
        Ok(Text {
            members,
            text: Vec::with_capacity(alloc, places.saturating_mul(LINE_ROOM))?,
            ends: SmallVec::with_capacity(alloc, places)?,
        })
    }

    /// The text of the members.
    pub(crate) fn members(&self) -> &[u8]
        ensures { result.now ≡ self.now.members }
    {
        self.members.as_slice()
    }

    /// Puts the text of those members in place of the one before.
    fn show(&mut self, members: &[Member]) -> Result<(), Refusal>
        ensures ok { OnOk result (self.new ≡ showing members.now self.old) }
        ensures memory { IsOkUnless result Refusal.Memory }
    {
        self.members.clear();
        put_members(&mut self.members, members)
    }

    /// Takes in the allowed record of the place, of the group of that name: its members where it moves one, and
    /// what the place tells the group.
    #[inline(always)]
    fn take_in(
        &mut self,
        policy: &Policy,
        place: u32,
        past: &Record,
        group: &[u8],
    ) -> Result<(), Refusal>
        requires allowed { StandsAllowed policy.now place past.now group.now }
        ensures ok { OnOk result (self.new ≡ with_place past.now (told_text (judged policy.now) place) self.old) }
        ensures memory { IsOkUnless result Refusal.Memory }
    {
        if past.entry.op.is_move() {
            self.show(past.members.as_slice())?;
        }
        put_told(
            &mut self.text,
            policy,
            place,
            past,
            group,
            self.members.as_slice(),
        )?;
        let end = end_of(&self.text)?;
        self.ends.push(end)?;
        Ok(())
    }

    /// The same, and puts the audit line of the place at the lines' end.
    fn put_place(
        &mut self,
        lines: &mut Vec<u8>,
        placed: &Placed<'_>,
        group: &[u8],
    ) -> Result<(), Refusal>
        requires allowed { StandsAllowed placed.now.policy.now placed.now.place placed.now.past.now group.now }
        requires members { (with_place placed.now.past.now (told_text (judged placed.now.policy.now) placed.now.place) self.old).members ≡ members_text placed.now.past.now.members }
        ensures ok { OnOk result (self.new ≡ with_place placed.now.past.now (told_text (judged placed.now.policy.now) placed.now.place) self.old) }
        ensures line { OnOk result (lines.new.items ≡ lines.old.items ++ audit_line placed.now.place placed.now.past.now) }
        ensures memory { IsOkUnless result Refusal.Memory }
    {
        let Placed {
            policy,
            place,
            past,
        } = *placed;
        self.take_in(policy, place, past, group)?;
        put_audit_with(lines, place, past, self.members.as_slice())
    }

    /// Where the first so many texts end.
    fn end(&self, count: usize) -> usize
        ensures { (texts : List (List ℕ)) → HoldsTexts self.now texts → count ≤ length texts → result ≡ length (concat (take count texts)) }
    {
        if count == 0 {
            return 0;
        }
        if count <= self.ends.len() {
            self.ends.as_slice()[count - 1] as usize
        } else {
            0
        }
    }

    /// The texts after the first `from`, up to the first `to`, as one.
    pub(crate) fn range(&self, from: usize, to: usize) -> &[u8]
        ensures { (texts : List (List ℕ)) → HoldsTexts self.now texts → from ≤ to → to ≤ length texts → result.now ≡ concat (drop from (take to texts)) }
    {
        let start = self.end(from);
        let end = self.end(to);
        if start <= end && end <= self.text.len() {
            &self.text[start..end]
        } else {
            &[]
        }
    }
}

/// The texts of all groups, kept for names that share their bytes with the records. Contracts see it as the list of
/// names with texts; a group that is not there has none.
#[derive(Drop)]
pub struct Texts {
    kept: IndexMap<Name, Text, BuildHasherDefault<NameHasher>>,
    none: Text,
    // Where the texts of the place before are kept. They are believed only where their group has the wanted name.
    last: usize,
}

impl Model for Texts {
    ghost use Rattle.std.specs.Prelude.{◌≡◌};
    ghost use Rattle.cpg_print.specs.Records.{audit_line, members_text};
    ghost use Rattle.cpg_judge.specs.Texts.{KeptTexts, no_text};

    ghost Value = { KeptTexts };

    ghost view = { λ texts. texts.kept.entries };

    ghost invariant = { λ texts. texts.none ≡ no_text };
}

impl Texts {
    /// No texts.
    pub(crate) fn new(alloc: Global) -> Result<Texts, Refusal>
        ensures texts { IfOk result (λ texts. (records : List Record) → AreTexts texts records 0) }
        ensures shown { IfOk result (λ texts. (records : List Record) → AreShown texts records 0) }
        ensures memory { IsOkUnless result Refusal.Memory }
    {
        Ok(Texts {
            kept: IndexMap::with_hasher(alloc, BuildHasherDefault::new()),
            none: Text::new(alloc)?,
            last: 0,
        })
    }

    /// The texts of the group of that name.
    pub(crate) fn of(&self, name: &Name) -> &Text
        ensures { result.now ≡ kept_text self.now name.now }
    {
        match self.kept.get(name) {
            Some(text) => text,
            None => &self.none,
        }
    }

    /// The index at which the texts of the group of that name are kept. Those of the place before are looked at first,
    /// as most places are of the same group as that one, and then no name is hashed.
    #[inline(always)]
    fn index_of(&self, name: &Name) -> Option<usize>
        ensures { MatchOption result (LacksText self.now name.now) (λ index. slice_get (names_of self.now) index ≡ Some name.now) }
    {
        match self.kept.get_index(self.last) {
            Some((kept, _)) if *kept == *name => Some(self.last),
            _ => match self.kept.get_full(name) {
                Some((index, _, _)) => Some(index),
                None => None,
            },
        }
    }

    /// Keeps the texts of the group of that name, which has none, with the place as its first, and puts the audit
    /// line of the place. It stands apart, since most groups have texts already.
    #[inline(never)]
    fn begin(
        &mut self,
        lines: &mut Vec<u8>,
        placed: &Placed<'_>,
        name: &Name,
    ) -> Result<(), Refusal>
        requires allowed { StandsAllowed placed.now.policy.now placed.now.place placed.now.past.now name.now }
        requires members { (with_place placed.now.past.now (told_text (judged placed.now.policy.now) placed.now.place) no_text).members ≡ members_text placed.now.past.now.members }
        requires lacking { LacksText self.old name.now }
        ensures ok { OnOk result ((g : List ℕ) → kept_text self.new g ≡ (if bytes_eq name.now g then with_place placed.now.past.now (told_text (judged placed.now.policy.now) placed.now.place) (kept_text self.old g) else kept_text self.old g)) }
        ensures line { OnOk result (lines.new.items ≡ lines.old.items ++ audit_line placed.now.place placed.now.past.now) }
        ensures memory { IsOkUnless result Refusal.Memory }
    {
        let alloc = *self.kept.allocator();
        let key = name.copy(alloc)?;
        let mut text = Text::with_room(alloc, placed.policy.places_in(name.as_slice()).len())?;
        text.put_place(lines, placed, name.as_slice())?;
        self.last = self.kept.len();
        self.kept.insert(key, text)?;
        Ok(())
    }

    /// Takes in the allowed record of the place, of the group of that name, and puts the audit line of the place.
    #[inline(always)]
    fn put_allowed(
        &mut self,
        lines: &mut Vec<u8>,
        placed: &Placed<'_>,
        name: &Name,
    ) -> Result<(), Refusal>
        requires allowed { StandsAllowed placed.now.policy.now placed.now.place placed.now.past.now name.now }
        requires members { (with_place placed.now.past.now (told_text (judged placed.now.policy.now) placed.now.place) (kept_text self.old name.now)).members ≡ members_text placed.now.past.now.members }
        ensures ok { OnOk result ((g : List ℕ) → kept_text self.new g ≡ (if bytes_eq name.now g then with_place placed.now.past.now (told_text (judged placed.now.policy.now) placed.now.place) (kept_text self.old g) else kept_text self.old g)) }
        ensures line { OnOk result (lines.new.items ≡ lines.old.items ++ audit_line placed.now.place placed.now.past.now) }
        ensures memory { IsOkUnless result Refusal.Memory }
    {
        match self.index_of(name) {
            Some(index) => {
                self.last = index;
                let (_, text) = self.kept.pair_mut(index);
                text.put_place(lines, placed, name.as_slice())
            }
            None => self.begin(lines, placed, name),
        }
    }

    /// Takes in the record of the place, the one after those that were taken in, and puts its audit line at the
    /// lines' end.
    pub(crate) fn put_place(
        &mut self,
        lines: &mut Vec<u8>,
        placed: &Placed<'_>,
    ) -> Result<(), Refusal>
        requires place { (1 ≤ placed.now.place) × (placed.now.place ≤ length placed.now.policy.now) }
        requires stands { record_at (judged placed.now.policy.now) placed.now.place ≡ Some placed.now.past.now }
        requires texts { AreTexts self.old (judged placed.now.policy.now) (placed.now.place - 1) }
        requires shown { AreShown self.old (judged placed.now.policy.now) (placed.now.place - 1) }
        ensures ok { OnOk result (AreTexts self.new (judged placed.now.policy.now) placed.now.place) }
        ensures shown { OnOk result (AreShown self.new (judged placed.now.policy.now) placed.now.place) }
        ensures line { OnOk result (lines.new.items ≡ lines.old.items ++ audit_line placed.now.place placed.now.past.now) }
        ensures memory { IsOkUnless result Refusal.Memory }
    {
        let Placed { place, past, .. } = *placed;
        match &past.group {
            None => put_audit(lines, place, past),
            Some(name) => {
                if past.verdict.is_allowed() {
                    self.put_allowed(lines, placed, name)
                } else {
                    put_audit_with(lines, place, past, self.of(name).members())
                }
            }
        }
    }
}
