//! The node of the next ring of a ring of one node, whole.

ghost use Rattle.std.specs.Prelude.{◌≡◌, ◌+◌, List, suc, length, IfOk, IfErr, OnOk, OnErr};
ghost use Rattle.cpg_cred.specs.Listed.{Listed};
ghost use Rattle.cpg_entry.specs.declared.entries.Entry.{Entry};
ghost use Rattle.cpg_record.specs.Membership.{memberships};
ghost use Rattle.cpg_node.specs.Nodes.{records_of};
ghost use Rattle.cpg_serve.specs.Renewing.{Root};
ghost use Rattle.cpg_serve.specs.Carrying.{HasPutAll, HaveJoined, HaveMoved, IsBegun, IsFilled, IsFirst, IsRoot, tables_in};
ghost use Rattle.cpg_serve.specs.Refusals.{rule_count, WhyNotBegun, WhyNotFirst, WhyNotJoined, WhyNotPut};

use crate::carrying::{gather, gather_tables};
use crate::desks::Desk;
use crate::moving::take_over;
use crate::renewing::{connect_all, give_all, insert_groups, join_all, part};
use cpg_ask::Greeting;
use cpg_cred::{AcceptList, Cred, NodeId, Refusal};
use cpg_node::{Node, Settings};
use std::alloc::Global;
use std::mem;

/// A new ring of one node, with the daemon's own connection. Range where the settings are of no such ring.
pub(crate) fn first_node(
    alloc: Global,
    settings: Settings,
    list: &AcceptList,
) -> Result<Node, Refusal>
    ensures ok { IfOk result (λ node. IsFirst settings list.now node) }
    ensures why { IfErr result (λ why. WhyNotFirst settings why) }
{
    if settings.nodes != 1 {
        return Err(Refusal::Range);
    }
    let list = list.copy(alloc)?;
    match Node::new(alloc, settings, NodeId::default(), list) {
        Err(refused) => Err(refused.into_refusal()),
        Ok(mut node) => {
            node.connect(0, Cred { uid: 0, gid: 0 })?;
            Ok(node)
        }
    }
}

/// The old node's members join their groups again, in order, by their new numbers.
fn seat_all(alloc: Global, old: &Node, numbers: &[u16], node: &mut Node) -> Result<(), Refusal>
    ensures ok { OnOk result (HaveJoined numbers.now (memberships (records_of old.now)) node.old node.new) }
    ensures why { (es : List Entry) → IsBegun node.old es → IfErr result (λ why. WhyNotJoined numbers.now node.old (length es) (memberships (records_of old.now)) why) }
{
    let all = gather(alloc, old.audit())?;
    join_all(alloc, node, numbers, all.as_slice())
}

/// The daemon's own connection puts in all rules of the old node's tables, and ends.
fn put_tables(alloc: Global, old: &Node, node: &mut Node) -> Result<(), Refusal>
    ensures ok { OnOk result (HasPutAll (records_of old.now) node.old node.new) }
    ensures why { (root : Root) (es : List Entry) → root.conn ≡ 1 → IsRoot root node.old → IsBegun node.old es → IfErr result (λ why. WhyNotPut node.old.ring.settings (tables_in (records_of old.now)) (suc (length es + rule_count (records_of old.now) (tables_in (records_of old.now)))) why) }
{
    let groups = gather_tables(alloc, old.audit())?;
    insert_groups(alloc, old, node, 1, groups.as_slice())?;
    part(node, 1)
}

/// Makes a new ring's node that of the next ring, and gives the new number of each connection of the old one.
fn fill(alloc: Global, old: &Node, last: u16, node: &mut Node) -> Result<Vec<u16>, Refusal>
    requires { last ≡ length old.now.clients }
    ensures ok { IfOk result (λ numbers. IsFilled numbers.items old.now node.old node.new) }
    ensures count { IfOk result (λ numbers. length numbers.items ≡ length old.now.clients) }
    ensures why { (s : Settings) (list : Listed) → IsFirst s list node.old → IfErr result (λ why. WhyNotBegun s list old.now why) }
{
    let numbers = connect_all(alloc, old, last, node)?;
    seat_all(alloc, old, numbers.as_slice(), node)?;
    put_tables(alloc, old, node)?;
    give_all(node, last.saturating_add(1))?;
    Ok(numbers)
}

/// Puts the next ring's node in place of this one, and moves the desks of open connections.
pub(crate) fn swap_in(
    alloc: Global,
    greeting: &Greeting,
    node: &mut Node,
    next: &mut Node,
    desks: &mut Vec<Desk>,
) -> Result<Vec<u16>, Refusal>
    requires { length desks.old.items ≡ length node.old.clients }
    ensures ok { IfOk result (λ numbers. IsFilled numbers.items node.old next.old node.new × HaveMoved greeting.now numbers.items desks.old.items desks.new.items) }
    ensures given { IfOk result (λ numbers. length numbers.items ≡ length desks.old.items) }
    ensures err { OnErr result ((node.new ≡ node.old) × (desks.new.items ≡ desks.old.items)) }
    ensures why { (s : Settings) (list : Listed) → IsFirst s list next.old → IfErr result (λ why. WhyNotBegun s list node.old why) }
{
    let Ok(last) = u16::try_from(desks.len()) else {
        return Err(Refusal::ConnectionsFull);
    };
    let numbers = fill(alloc, node, last, next)?;
    take_over(alloc, greeting, numbers.as_slice(), desks)?;
    mem::swap(node, next);
    Ok(numbers)
}
