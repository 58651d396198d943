//! What askers see of members and groups.

ghost use Rattle.std.specs.Prelude.{◌≡◌, [], filter, IfOk, OnErr, IsOkUnless};
ghost use Rattle.std.specs.Option.{option_copied};
ghost use Rattle.cpg_record.specs.Listings.{AnswersListing, AreGroups, listing, processes};
ghost use Rattle.cpg_record.specs.RuleTables.{rules_of};
ghost use Rattle.cpg_group.specs.Groups.{is_shown};
ghost use Rattle.cpg_record.specs.Named.{names_of};
ghost use Rattle.cpg_group.specs.Standing.{standing, AreStanding};

use crate::standing::{Group, Groups};
use cpg_cred::{NodeId, Refusal};
use cpg_entry::Name;
use cpg_record::{Members, Record};
use cpg_rules::{Asker, Decision, Right};
use std::alloc::Global;
use std::marker::Model;

/// Processes, each by its node and pid. Contracts see it as their list.
#[derive(Debug, Drop)]
pub struct Processes {
    processes: Vec<(NodeId, u32)>,
}

impl Model for Processes {
    ghost use Rattle.std.specs.Prelude.{List, ℕ};

    ghost Value = { List (ℕ × ℕ) };

    ghost view = { λ processes. processes.processes.items };
}

impl Processes {
    /// The processes of members, in their order.
    fn of(alloc: Global, members: &Members) -> Result<Processes, Refusal>
        ensures ok { IfOk result (λ list. list ≡ processes members.now) }
        ensures memory { IsOkUnless result Refusal.Memory }
    {
        let processes = members
            .as_slice()
            .iter()
            .map(|member| (member.node, member.pid))
            .collect(alloc)?;
        Ok(Processes { processes })
    }

    /// The pairs of node and pid.
    pub fn as_slice(&self) -> &[(NodeId, u32)]
        ensures { result.now ≡ self.now }
    {
        self.processes.as_slice()
    }
}

/// Names of groups. Contracts see it as their list.
#[derive(Debug, Drop)]
pub struct Names {
    names: Vec<Name>,
}

impl Model for Names {
    ghost use Rattle.std.specs.Prelude.{List, ℕ};

    ghost Value = { List (List ℕ) };

    ghost view = { λ names. names.names.items };
}

impl Names {
    /// The names.
    pub fn as_slice(&self) -> &[Name]
        ensures { result.now ≡ self.now }
    {
        self.names.as_slice()
    }
}

/// The processes of a group's members, if the asker may list it.
pub(crate) fn list_members(
    alloc: Global,
    records: &[Record],
    group: &Group,
    name: &[u8],
    asker: &Asker,
) -> Result<Processes, Refusal>
    requires { group.now ≡ standing records.now name.now }
    ensures { AnswersListing (listing records.now asker.now name.now) result }
{
    match group.table().decide(Right::List, *asker) {
        Decision::Denied(by) => Err(Refusal::Denied(by)),
        Decision::Allowed(_) => Processes::of(alloc, group.members()),
    }
}

/// Whether the asker may list the group, and it has members.
pub(crate) fn shows_group(records: &[Record], group: &Group, name: &[u8], asker: &Asker) -> bool
    requires { group.now ≡ standing records.now name.now }
    ensures { result ≡ is_shown records.now asker.now name.now }
{
    match group.table().decide(Right::List, *asker) {
        Decision::Denied(_) => false,
        Decision::Allowed(_) => !group.members().as_slice().is_empty(),
    }
}

/// Those of the names that the asker may list, and that have members.
fn keep_shown(
    alloc: Global,
    records: &[Record],
    groups: &Groups,
    names: Vec<Name>,
    asker: &Asker,
) -> Result<Vec<Name>, Refusal>
    requires { AreStanding groups.now records.now }
    ensures ok { IfOk result (λ kept. kept.items ≡ filter (is_shown records.now asker.now) names.items) }
    ensures memory { IsOkUnless result Refusal.Memory }
{
    let mut kept = Vec::new(alloc);
    for name in names {
        let group = name.as_slice();
        if shows_group(records, groups.of(group), group, asker) {
            kept.push(name)?;
        }
    }
    Ok(kept)
}

/// The names of the groups with members that the asker may list, in the order of their bytes.
pub(crate) fn list_groups(
    alloc: Global,
    records: &[Record],
    groups: &Groups,
    asker: &Asker,
) -> Result<Names, Refusal>
    requires { AreStanding groups.now records.now }
    ensures ok { IfOk result (λ names. AreGroups records.now asker.now names) }
    ensures memory { IsOkUnless result Refusal.Memory }
    ensures some { OnErr result (¬ AreGroups records.now asker.now []) }
{
    if !groups.shows_any(records, asker) {
        return Ok(Names {
            names: Vec::new(alloc),
        });
    }
    let mut kept = groups.names(alloc)?;
    kept.sort()?;
    let names = keep_shown(alloc, records, groups, kept, asker)?;
    Ok(Names { names })
}
