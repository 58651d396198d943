//! How the groups stand, kept beside the records: each one's table, members and places.

ghost use Rattle.std.specs.Prelude.{◌≡◌, List, ℕ, [], true, false, None, Some, if◌then◌else◌, OnOk, OnErr, IfOk, MatchOption, IsOkUnless};
ghost use Rattle.std.specs.List.{slice_get, IsDistinct};
ghost use Rattle.std.specs.Map.{lookup};
ghost use Rattle.std.specs.Option.{option_copied};
ghost use Rattle.std.specs.Str.{bytes_eq};
ghost use Rattle.cpg_record.specs.Listings.{AreGroups};
ghost use Rattle.cpg_record.specs.RuleTables.{edited_by};
ghost use Rattle.cpg_record.specs.Steps.{CanEditBy};
ghost use Rattle.cpg_record.specs.Verdicts.{has_process};
ghost use Rattle.cpg_record.specs.Named.{names_of};
ghost use Rattle.cpg_group.specs.Standing.{kept_for, kept_group, changed, group_past, no_group, AreStanding, CanChange, CanTake};

use crate::listing::shows_group;
use cpg_cred::{NameHasher, Refusal};
use cpg_entry::{Call, Entry, Name, Op};
use cpg_members::MemberIndex;
use cpg_record::{Members, Record};
use cpg_rules::{Asker, Table};
use indexmap::IndexMap;
use std::alloc::Global;
use std::hash::BuildHasherDefault;
use std::marker::Model;

/// How many places a new group has room for: those of most groups stay in the one block that this takes.
const FIRST_PLACES: usize = 16;

/// Brings a table past an allowed op at that place.
fn edit(table: &mut Table, place: u32, op: &Op) -> Result<(), Refusal>
    requires { CanEditBy table.old place op.now }
    ensures ok { OnOk result (table.new ≡ edited_by place op.now table.old) }
    ensures err { OnErr result (table.new ≡ table.old) }
    ensures memory { IsOkUnless result Refusal.Memory }
{
    match op {
        Op::Act(Call::Insert(_, index, rule)) => {
            table.insert(usize::from(*index), place, *rule.get())
        }
        Op::Act(Call::Remove(_, id)) => {
            let _ = table.remove(*id);
            Ok(())
        }
        _ => Ok(()),
    }
}

/// A group as it stands: its table, its members in the order of their joins, and the ascending places of
/// the allowed entries that are of it. Contracts see it as these three.
#[derive(Debug, Drop)]
pub(crate) struct Group {
    table: Table,
    member_index: MemberIndex,
    places: Vec<u32>,
}

impl Model for Group {
    ghost use Rattle.cpg_group.specs.Standing.{GroupValue};

    ghost Value = { GroupValue };

    ghost view = { λ group. record { table = group.table; members = group.member_index; places = group.places.items } };
}

impl Group {
    /// A group without rules, members and places.
    fn new(alloc: Global) -> Group
        ensures { result ≡ no_group }
    {
        Group {
            table: Table::new(alloc),
            member_index: MemberIndex::new(alloc),
            places: Vec::new(alloc),
        }
    }

    /// A group without rules, members and places that has room for its first places.
    fn with_room(alloc: Global) -> Result<Group, Refusal>
        ensures ok { IfOk result (λ group. group ≡ no_group) }
        ensures memory { IsOkUnless result Refusal.Memory }
    {
        let places = Vec::with_capacity(alloc, FIRST_PLACES)?;
        Ok(Group {
            table: Table::new(alloc),
            member_index: MemberIndex::new(alloc),
            places,
        })
    }

    /// Its table.
    pub(crate) fn table(&self) -> &Table
        ensures { result.now ≡ self.now.table }
    {
        &self.table
    }

    /// Its members.
    pub(crate) fn members(&self) -> &Members
        ensures { result.now ≡ self.now.members }
    {
        self.member_index.members()
    }

    /// Whether the entry's process is a member.
    pub(crate) fn has_process(&self, entry: &Entry) -> bool
        ensures { result ≡ has_process entry.now self.now.members }
    {
        self.member_index.has_process(entry)
    }

    /// The places of the allowed entries that are of it.
    pub(crate) fn places(&self) -> &[u32]
        ensures { result.now ≡ self.now.places }
    {
        self.places.as_slice()
    }

    /// Brings the group past its allowed record at that place. A refusal changes nothing.
    pub(crate) fn take_in(&mut self, place: u32, past: &Record) -> Result<(), Refusal>
        requires { CanChange self.old place past.now }
        ensures ok { OnOk result (self.new ≡ changed place past.now self.old) }
        ensures err { OnErr result (self.new ≡ self.old) }
        ensures memory { IsOkUnless result Refusal.Memory }
    {
        self.places.reserve(1)?;
        match &past.entry.op {
            Op::Act(Call::Insert(_, _, _)) | Op::Act(Call::Remove(_, _)) => {
                edit(&mut self.table, place, &past.entry.op)?
            }
            _ => self.member_index.take_in(*self.places.allocator(), past)?,
        }
        self.places.push_reserved(place);
        Ok(())
    }
}

/// The groups as they stand. Contracts see it as the list of names with groups; a group that is not there
/// has no rules, members and places.
#[derive(Drop)]
pub(crate) struct Groups {
    pub(crate) kept: IndexMap<Vec<u8>, Group, BuildHasherDefault<NameHasher>>,
    pub(crate) none: Group,
    // Where the group of the entry before is kept. It is believed only where that group has the wanted name.
    pub(crate) last: usize,
}

impl Model for Groups {
    ghost use Rattle.std.specs.Prelude.{◌≡◌};
    ghost use Rattle.cpg_record.specs.Named.{named};
    ghost use Rattle.cpg_group.specs.Standing.{Kept, no_group};

    ghost Value = { Kept };

    ghost view = { λ groups. named groups.kept.entries };

    ghost invariant = { λ groups. groups.none ≡ no_group };
}

impl Groups {
    /// No groups.
    pub(crate) fn new(alloc: Global) -> Groups
        ensures { (g : List ℕ) → kept_group result g ≡ no_group }
    {
        Groups {
            kept: IndexMap::with_hasher(alloc, BuildHasherDefault::new()),
            none: Group::new(alloc),
            last: 0,
        }
    }

    /// The group of that name.
    pub(crate) fn of(&self, name: &[u8]) -> &Group
        ensures { result.now ≡ kept_group self.now name.now }
    {
        self.find(name).0
    }

    /// The group of that name, and at which index it is kept: looked for first where the hint says.
    #[inline(always)]
    pub(crate) fn of_near(&self, name: &[u8], hint: usize) -> (&Group, usize)
        ensures { result.0.now ≡ kept_group self.now name.now }
    {
        match self.kept.get_index(hint) {
            Some((kept, group)) if kept.as_slice() == name => (group, hint),
            _ => self.find(name),
        }
    }

    /// The group of that name, and at which index it is kept.
    fn find(&self, name: &[u8]) -> (&Group, usize)
        ensures { result.0.now ≡ kept_group self.now name.now }
    {
        match self.kept.get_full(name) {
            Some((index, _, group)) => (group, index),
            None => (&self.none, 0),
        }
    }

    /// The index at which the group of that name is kept. The group of the entry before is looked at first, as
    /// most entries are of the same group as that one, and then no name is hashed.
    #[inline(always)]
    pub(crate) fn index_of(&self, name: &[u8]) -> Option<usize>
        ensures { MatchOption result (lookup (bytes_eq name.now) self.now ≡ None) (λ index. slice_get (names_of self.now) index ≡ Some name.now) }
    {
        match self.kept.get_index(self.last) {
            Some((kept, _)) if kept.as_slice() == name => Some(self.last),
            _ => match self.kept.get_full(name) {
                Some((index, _, _)) => Some(index),
                None => None,
            },
        }
    }

    /// The group of that name, and one without rules, members and places where there is no name.
    pub(crate) fn of_name(&self, name: Option<&Name>) -> &Group
        ensures { result.now ≡ kept_for self.now (option_copied name.entry) }
    {
        match name {
            None => &self.none,
            Some(name) => self.of(name.as_slice()),
        }
    }

    /// Whether the asker may list a group that has members. Takes no memory.
    #[tactic(auto, using(crate::proofs::Shown::shows_some))]
    pub(crate) fn shows_any(&self, records: &[Record], asker: &Asker) -> bool
        requires { AreStanding self.now records.now }
        ensures none { result ≡ false → AreGroups records.now asker.now [] }
        ensures some { result ≡ true → ¬ AreGroups records.now asker.now [] }
    {
        for name in self.kept.keys().as_slice() {
            let name = name.as_slice();
            if shows_group(records, self.of(name), name, asker) {
                return true;
            }
        }
        false
    }

    /// The names of the groups that are kept, each once.
    pub(crate) fn names(&self, alloc: Global) -> Result<Vec<Name>, Refusal>
        ensures ok { IfOk result (λ names. names.items ≡ names_of self.now) }
        ensures once { IfOk result (λ names. IsDistinct bytes_eq names.items) }
        ensures memory { IsOkUnless result Refusal.Memory }
    {
        let mut names = Vec::new(alloc);
        for name in self.kept.keys().as_slice() {
            names.push(Name::from_slice(alloc, name.as_slice())?)?;
        }
        Ok(names)
    }

    /// Keeps a group of that name, which none has, as it is after its first allowed record.
    fn add(&mut self, name: &[u8], place: u32, past: &Record) -> Result<(), Refusal>
        requires absent { lookup (bytes_eq name.now) self.old ≡ None }
        requires can { CanChange no_group place past.now }
        ensures ok { OnOk result ((g : List ℕ) → kept_group self.new g ≡ (if bytes_eq name.now g then changed place past.now (kept_group self.old g) else kept_group self.old g)) }
        ensures err { OnErr result ((g : List ℕ) → kept_group self.new g ≡ kept_group self.old g) }
        ensures memory { IsOkUnless result Refusal.Memory }
    {
        let alloc = *self.kept.allocator();
        let key = Vec::from_slice(alloc, name)?;
        let mut group = Group::with_room(alloc)?;
        group.take_in(place, past)?;
        self.last = self.kept.len();
        self.kept.insert(key, group)?;
        Ok(())
    }

    /// Brings the group of that name past its allowed record.
    fn change(&mut self, name: &[u8], place: u32, past: &Record) -> Result<(), Refusal>
        requires { CanChange (kept_group self.old name.now) place past.now }
        ensures ok { OnOk result ((g : List ℕ) → kept_group self.new g ≡ (if bytes_eq name.now g then changed place past.now (kept_group self.old g) else kept_group self.old g)) }
        ensures err { OnErr result ((g : List ℕ) → kept_group self.new g ≡ kept_group self.old g) }
        ensures memory { IsOkUnless result Refusal.Memory }
    {
        match self.index_of(name) {
            Some(index) => {
                self.last = index;
                let (_, group) = self.kept.pair_mut(index);
                group.take_in(place, past)
            }
            None => self.add(name, place, past),
        }
    }

    /// Brings the groups past the record of that place. A refusal changes no group.
    pub(crate) fn take_in(&mut self, place: u32, past: &Record) -> Result<(), Refusal>
        requires { (g : List ℕ) → CanTake g (kept_group self.old g) (place, past.now) }
        ensures ok { OnOk result ((g : List ℕ) → kept_group self.new g ≡ group_past g (kept_group self.old g) (place, past.now)) }
        ensures err { OnErr result ((g : List ℕ) → kept_group self.new g ≡ kept_group self.old g) }
        ensures memory { IsOkUnless result Refusal.Memory }
    {
        if !past.verdict.is_allowed() {
            return Ok(());
        }
        match &past.group {
            None => Ok(()),
            Some(name) => self.change(name.as_slice(), place, past),
        }
    }
}
