//! Which credentials are let in: user 0, group 0, and the users and groups of a list.

ghost use Rattle.std.specs.Prelude.{◌≡◌, ◌≢◌, [], false, Some, None, IfOk, OnOk, OnErr, IsOkUnless};
ghost use Rattle.std.specs.Option.{ok_or};
ghost use Rattle.cpg_cred.specs.Listed.{is_among, with_number, with_numbers};

use crate::credentials::Cred;
use crate::refusals::Refusal;
use indexmap::IndexSet;
use std::alloc::Global;
use std::marker::Model;

/// The first of the four tests that let credentials in.
#[derive(Debug, Clone, Copy, PartialEq, Eq)]
pub enum Via {
    /// The user is 0.
    RootUser,
    /// The group is 0.
    RootGroup,
    /// The user is listed.
    User,
    /// The group is listed.
    Group,
}

/// The users and the groups that are let in beside user 0 and group 0, each in the order in which they
/// were added.
#[derive(Debug, Drop)]
pub struct AcceptList {
    users: IndexSet<u32>,
    groups: IndexSet<u32>,
}

impl Model for AcceptList {
    ghost use Rattle.cpg_cred.specs.Listed.{Listed};

    ghost Value = { Listed };

    ghost view = { λ list. record { users = list.users.keys; groups = list.groups.keys } };
}

impl AcceptList {
    ghost use Rattle.cpg_cred.specs.Listed.{with_user, with_group, with_listed};
    ghost use Rattle.cpg_cred.specs.Admission.{via_of};

    /// The empty list, which lets in user 0 and group 0 alone.
    pub fn new(alloc: Global) -> AcceptList
        ensures { result ≡ record { users = []; groups = [] } }
    {
        AcceptList {
            users: IndexSet::new(alloc),
            groups: IndexSet::new(alloc),
        }
    }

    /// Puts the user at the end of the listed users, if it is not among them.
    pub fn add_uid(&mut self, uid: u32) -> Result<(), Refusal>
        ensures ok { OnOk result (self.new ≡ with_user self.old uid) }
        ensures err { OnErr result (self.new ≡ self.old) }
        ensures memory { IsOkUnless result Refusal.Memory }

        // A user that is listed already takes no memory.
        ensures absent { OnErr result (is_among self.old.users uid ≡ false) }
    {
        add(&mut self.users, uid)
    }

    /// Puts the group at the end of the listed groups, if it is not among them.
    pub fn add_gid(&mut self, gid: u32) -> Result<(), Refusal>
        ensures ok { OnOk result (self.new ≡ with_group self.old gid) }
        ensures err { OnErr result (self.new ≡ self.old) }
        ensures memory { IsOkUnless result Refusal.Memory }

        // A group that is listed already takes no memory.
        ensures absent { OnErr result (is_among self.old.groups gid ≡ false) }
    {
        add(&mut self.groups, gid)
    }

    /// Puts the users at the end of the listed users, one after the other, each if it is not among them, and
    /// the groups likewise: all of them or, where memory was refused, none.
    pub fn add_all(&mut self, users: &[u32], groups: &[u32]) -> Result<(), Refusal>
        ensures ok { OnOk result (self.new ≡ with_listed self.old (record { users = users.now; groups = groups.now })) }
        ensures err { OnErr result (self.new ≡ self.old) }
        ensures memory { IsOkUnless result Refusal.Memory }

        // Numbers that are listed already take no memory, and no numbers take none.
        ensures grows { OnErr result (with_listed self.old (record { users = users.now; groups = groups.now }) ≢ self.old) }
    {
        let count = self.users.len();
        add_each(&mut self.users, users)?;
        match add_each(&mut self.groups, groups) {
            Ok(()) => Ok(()),
            Err(refusal) => {
                self.users.truncate(count);
                Err(refusal)
            }
        }
    }

    /// What lets the credentials in, or `Access` where nothing does.
    pub fn accepts(&self, cred: Cred) -> Result<Via, Refusal>
        ensures { result ≡ ok_or (via_of self.now cred) Refusal.Access }
    {
        if cred.uid == 0 {
            Ok(Via::RootUser)
        } else if cred.gid == 0 {
            Ok(Via::RootGroup)
        } else if self.users.contains(&cred.uid) {
            Ok(Via::User)
        } else if self.groups.contains(&cred.gid) {
            Ok(Via::Group)
        } else {
            Err(Refusal::Access)
        }
    }

    /// A list of the same users and groups.
    pub fn copy(&self, alloc: Global) -> Result<AcceptList, Refusal>
        ensures ok { IfOk result (λ copy. copy ≡ self.now) }
        ensures memory { IsOkUnless result Refusal.Memory }

        // A copy of the empty list takes no memory.
        ensures listed { OnErr result (self.now ≢ record { users = []; groups = [] }) }
    {
        let users = copy_of(alloc, &self.users)?;
        let groups = copy_of(alloc, &self.groups)?;
        Ok(AcceptList { users, groups })
    }
}

/// Puts the number at the list's end, if the list lacks it.
#[inline(always)]
fn add(numbers: &mut IndexSet<u32>, number: u32) -> Result<(), Refusal>
    ensures ok { OnOk result (numbers.new.keys ≡ with_number numbers.old.keys number) }
    ensures err { OnErr result (numbers.new.keys ≡ numbers.old.keys) }
    ensures memory { IsOkUnless result Refusal.Memory }
    ensures absent { OnErr result (is_among numbers.old.keys number ≡ false) }
{
    numbers.insert(number)?;
    Ok(())
}

/// Puts the numbers at the list's end, each if the list lacks it: all or none.
fn add_each(numbers: &mut IndexSet<u32>, more: &[u32]) -> Result<(), Refusal>
    ensures ok { OnOk result (numbers.new.keys ≡ with_numbers numbers.old.keys more.now) }
    ensures err { OnErr result (numbers.new.keys ≡ numbers.old.keys) }
    ensures memory { IsOkUnless result Refusal.Memory }
    ensures grows { OnErr result (with_numbers numbers.old.keys more.now ≢ numbers.old.keys) }
{
    make_room(numbers, more.len());
    add_in_turn(numbers, more)
}

/// Asks an empty list's room for so many numbers at once. Where it is refused, each number asks for its own.
fn make_room(numbers: &mut IndexSet<u32>, count: usize)
    ensures { numbers.new.keys ≡ numbers.old.keys }
{
    if numbers.is_empty() {
        let _ = numbers.reserve(count);
    }
}

/// The same as `add_each`, in the room that there is or is asked for on the way.
fn add_in_turn(numbers: &mut IndexSet<u32>, more: &[u32]) -> Result<(), Refusal>
    ensures ok { OnOk result (numbers.new.keys ≡ with_numbers numbers.old.keys more.now) }
    ensures err { OnErr result (numbers.new.keys ≡ numbers.old.keys) }
    ensures memory { IsOkUnless result Refusal.Memory }
    ensures grows { OnErr result (with_numbers numbers.old.keys more.now ≢ numbers.old.keys) }
{
    let count = numbers.len();
    for number in more {
        match add(numbers, *number) {
            Ok(()) => {}
            Err(refusal) => {
                numbers.truncate(count);
                return Err(refusal);
            }
        }
    }
    Ok(())
}

/// A set of the same numbers, in their order.
fn copy_of(alloc: Global, numbers: &IndexSet<u32>) -> Result<IndexSet<u32>, Refusal>
    ensures ok { IfOk result (λ copy. copy.keys ≡ numbers.now.keys) }
    ensures memory { IsOkUnless result Refusal.Memory }
    ensures listed { OnErr result (numbers.now.keys ≢ []) }
{
    let mut copy = IndexSet::new(alloc);
    add_each(&mut copy, numbers.as_slice())?;
    Ok(copy)
}
