//! The node of the next ring of a ring of one node.

ghost use Rattle.std.specs.Prelude.{◌≡◌, ◌<◌, ◌≤◌, ◌+◌, ◌&&◌, ◌==◌, ◌∷◌, [], List, Some, suc, map, is_some, length, take, IfOk, IfErr, OnOk, IsOkUnless};
ghost use Rattle.cpg_entry.specs.declared.calls.Op.TheVariants as ops;
ghost use Rattle.cpg_entry.specs.declared.entries.Entry.{Entry};
ghost use Rattle.cpg_rules.specs.declared.tables.TheConstants.{MOST_RULES};
ghost use Rattle.cpg_record.specs.RuleTables.{rules_of};
ghost use Rattle.cpg_node.specs.declared.connections.Client.{Client};
ghost use Rattle.cpg_node.specs.Nodes.{open_client, records_of};
ghost use Rattle.cpg_serve.specs.Renewing.{Root, bare, inserts, root_entry, all_inserts};
ghost use Rattle.cpg_serve.specs.Coming.{IsTold};
ghost use Rattle.cpg_serve.specs.Carrying.{number_at, rest_for, table_of, ConnectsBy, HasEntered, HasGiven, HasParted, HasPut, HasTaken, HaveConnected, HaveGiven, HaveJoined, IsBegun, IsRoot};
ghost use Rattle.cpg_serve.specs.Refusals.{rule_count, WhyNotConnected, WhyNotEntered, WhyNotJoined, WhyNotOne, WhyNotPut, WhyShort};

use crate::carrying::Membership;
use crate::turning::turn_until_still;
use cpg_cred::{Cred, Refusal};
use cpg_entry::{Call, Name, SharedRule};
use cpg_node::{Connection, Event, Node};
use cpg_rules::{Rule, Table};
use std::alloc::Global;

/// Makes the connection's call, and turns until it is delivered.
fn enter(node: &mut Node, conn: u16, call: Call) -> Result<(), Refusal>
    ensures ok { OnOk result (HasEntered conn (ops.Act call) node.old node.new) }
    ensures why { (es : List Entry) (c : Client) → open_client node.old conn ≡ Some c → IsBegun node.old es → IfErr result (λ why. WhyNotEntered node.old.ring.settings (length es) call why) }
{
    if let Err(refused) = node.submit(conn, call) {
        return Err(refused.into_refusal());
    }
    turn_until_still(node)
}

/// Ends the connection, and turns until its end is delivered.
pub(crate) fn part(node: &mut Node, conn: u16) -> Result<(), Refusal>
    ensures ok { OnOk result (HasParted conn node.old node.new) }
    ensures why { (es : List Entry) (c : Client) → open_client node.old conn ≡ Some c → IsBegun node.old es → IfErr result (λ why. WhyShort node.old.ring.settings (suc (length es)) why) }
{
    node.disconnect(conn)?;
    turn_until_still(node)
}

/// Connects an old node's connection again, if it is open, and gives its new number; 0 where it ended.
fn connect_one(old: &Node, conn: u16, node: &mut Node) -> Result<u16, Refusal>
    ensures ok { IfOk result (λ number. ConnectsBy (open_client old.now conn) number node.old node.new) }
    ensures why { IfErr result (λ why. WhyNotOne node.old (open_client old.now conn) why) }
{
    match old.connection(conn) {
        None => Ok(0),
        Some(client) => node.connect(client.pid, client.cred),
    }
}

/// Connects the first connections of an old node again, those that are open, and gives the new number of each.
pub(crate) fn connect_all(
    alloc: Global,
    old: &Node,
    last: u16,
    node: &mut Node,
) -> Result<Vec<u16>, Refusal>
    requires { last ≤ length old.now.clients }
    ensures ok { IfOk result (λ numbers. HaveConnected (take last old.now.clients) numbers.items node.old node.new) }
    ensures why { IfErr result (λ why. WhyNotConnected node.old old.now.clients why) }
{
    let mut numbers = Vec::new(alloc);
    let mut conn = 0;
    while conn < last {
        conn += 1;
        let number = connect_one(old, conn, node)?;
        numbers.push(number)?;
    }
    Ok(numbers)
}

/// The new number of a connection, 0 where it has none.
fn number_at(numbers: &[u16], conn: u16) -> u16
    ensures { result ≡ number_at numbers.now conn }
{
    if conn == 0 {
        return 0;
    }
    match numbers.get(conn as usize - 1) {
        None => 0,
        Some(number) => *number,
    }
}

/// Whether the connection is the member's process.
fn is_own(client: &Connection, one: &Membership) -> bool
    ensures { result ≡ ((client.now.pid == one.now.member.pid) && (client.now.id.node == one.now.member.node)) }
{
    client.pid == one.member.pid && client.id.node == one.member.node
}

/// A member joins its group again. NoConnection where it is no process of an open connection, as it may be where the
/// node heard what its ring did not send.
fn join_one(
    alloc: Global,
    node: &mut Node,
    numbers: &[u16],
    one: &Membership,
) -> Result<(), Refusal>
    ensures ok { OnOk result (HaveJoined numbers.now (one.now ∷ []) node.old node.new) }
    ensures why { (es : List Entry) → IsBegun node.old es → IfErr result (λ why. WhyNotJoined numbers.now node.old (length es) (one.now ∷ []) why) }
{
    let number = number_at(numbers, one.member.conn);
    match node.connection(number) {
        None => Err(Refusal::NoConnection),
        Some(client) => {
            if !is_own(&client, one) {
                return Err(Refusal::NoConnection);
            }
            let group = one.group.copy(alloc)?;
            enter(node, number, Call::Join(group))
        }
    }
}

/// Members join their groups again, in order.
pub(crate) fn join_all(
    alloc: Global,
    node: &mut Node,
    numbers: &[u16],
    all: &[Membership],
) -> Result<(), Refusal>
    ensures ok { OnOk result (HaveJoined numbers.now all.now node.old node.new) }
    ensures why { (es : List Entry) → IsBegun node.old es → IfErr result (λ why. WhyNotJoined numbers.now node.old (length es) all.now why) }
{
    for one in all {
        join_one(alloc, node, numbers, one)?;
    }
    Ok(())
}

/// Puts a rule into a group's table, at that index.
fn insert_one(
    alloc: Global,
    node: &mut Node,
    conn: u16,
    group: &Name,
    index: usize,
    rule: Rule,
) -> Result<(), Refusal>
    requires { index < MOST_RULES }
    ensures ok { OnOk result ((root : Root) → root.conn ≡ conn → HasPut root (root_entry root group.now index rule ∷ []) node.old node.new) }
    ensures why { (root : Root) (es : List Entry) → root.conn ≡ conn → IsRoot root node.old → IsBegun node.old es → IfErr result (λ why. WhyNotPut node.old.ring.settings (group.now ∷ []) (suc (length es)) why) }
{
    let group = group.copy(alloc)?;
    let rule = SharedRule::new(alloc, rule)?;
    enter(node, conn, Call::Insert(group, index as u8, rule))
}

/// Puts all rules of a table in, in order.
fn insert_all(
    alloc: Global,
    node: &mut Node,
    conn: u16,
    group: &Name,
    table: &Table,
) -> Result<(), Refusal>
    requires { length table.now ≤ MOST_RULES }
    ensures ok { OnOk result ((root : Root) → root.conn ≡ conn → HasPut root (inserts root group.now 0 (bare table.now)) node.old node.new) }
    ensures why { (root : Root) (es : List Entry) → root.conn ≡ conn → IsRoot root node.old → IsBegun node.old es → IfErr result (λ why. WhyNotPut node.old.ring.settings (group.now ∷ []) (length es + length table.now) why) }
{
    let mut index = 0;
    while let Some((_, rule)) = table.get(index) {
        insert_one(alloc, node, conn, group, index, rule)?;
        index += 1;
    }
    Ok(())
}

/// Puts in all rules of a group's table that an old node has.
fn insert_group(
    alloc: Global,
    old: &Node,
    node: &mut Node,
    conn: u16,
    group: &Name,
) -> Result<(), Refusal>
    ensures ok { OnOk result ((root : Root) → root.conn ≡ conn → HasPut root (all_inserts root (table_of (records_of old.now) group.now ∷ [])) node.old node.new) }
    ensures why { (root : Root) (es : List Entry) → root.conn ≡ conn → IsRoot root node.old → IsBegun node.old es → IfErr result (λ why. WhyNotPut node.old.ring.settings (group.now ∷ []) (length es + length (rules_of (records_of old.now) group.now)) why) }
{
    match old.table(group.as_slice()) {
        None => Ok(()),
        Some(table) => insert_all(alloc, node, conn, group, table),
    }
}

/// Puts in all rules of these groups' tables that an old node has.
pub(crate) fn insert_groups(
    alloc: Global,
    old: &Node,
    node: &mut Node,
    conn: u16,
    groups: &[Name],
) -> Result<(), Refusal>
    ensures ok { OnOk result ((root : Root) → root.conn ≡ conn → HasPut root (all_inserts root (map (table_of (records_of old.now)) groups.now)) node.old node.new) }
    ensures why { (root : Root) (es : List Entry) → root.conn ≡ conn → IsRoot root node.old → IsBegun node.old es → IfErr result (λ why. WhyNotPut node.old.ring.settings groups.now (length es + rule_count (records_of old.now) groups.now) why) }
{
    for group in groups {
        insert_group(alloc, old, node, conn, group)?;
    }
    Ok(())
}

/// Whether there was an event, which nobody is told.
fn was_one(event: Option<Event>) -> bool
    ensures { result ≡ is_some event }
{
    event.is_some()
}

/// Takes the next of what the ring tells the connection. False where there is none.
fn take_one(node: &mut Node, conn: u16) -> Result<bool, Refusal>
    ensures ok { IfOk result (λ more. HasTaken conn node.old node.new × IsTold more (rest_for node.old conn) (rest_for node.new conn)) }
    ensures memory { IsOkUnless result Refusal.Memory }
{
    if node.connection(conn).is_none() {
        return Ok(false);
    }
    let event = node.take(conn)?;
    Ok(was_one(event))
}

/// Takes all that the ring tells the connection so far.
fn give(node: &mut Node, conn: u16) -> Result<(), Refusal>
    ensures ok { OnOk result (HasGiven conn node.old node.new) }
    ensures memory { IsOkUnless result Refusal.Memory }
{
    while take_one(node, conn)? {}
    Ok(())
}

/// Takes all that the ring tells the connections up to that number so far.
pub(crate) fn give_all(node: &mut Node, last: u16) -> Result<(), Refusal>
    ensures ok { OnOk result (HaveGiven last node.old node.new) }
    ensures memory { IsOkUnless result Refusal.Memory }
{
    let mut conn = 0;
    while conn < last {
        conn += 1;
        give(node, conn)?;
    }
    Ok(())
}
