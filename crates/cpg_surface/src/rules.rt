//! `cpg_rules`: rules, who they are for, and tables of them.

ghost use Rattle.std.specs.Prelude.{◌≤◌, ◌<◌, ◌≢◌, All, length};
ghost use Rattle.cpg_rules.specs.declared.tables.TheConstants.{MOST_RULES};

use cpg_rules::{Asker, By, Cred, Decision, Effect, NodeId, Refusal, Right, Rule, Table, Who};
use std::alloc::Global;

pub fn whos(uid: u32, gid: u32, node: NodeId) -> [Who; 4] {
    [Who::any(), Who::uid(uid), Who::gid(gid), Who::node(node)]
}

pub fn rule(
    effect: Effect,
    right: Right,
    uid: Option<u32>,
    gid: Option<u32>,
    node: Option<NodeId>,
) -> Rule {
    let who = Who { uid, gid, node };
    Rule { effect, right, who }
}

pub fn asker(node: NodeId, cred: Cred) -> Asker {
    Asker { node, cred }
}

pub fn is_allow(effect: Effect) -> bool {
    match effect {
        Effect::Allow => true,
        Effect::Deny => false,
    }
}

/// Whether the right is one to act by a call, of all there are.
pub fn is_to_act(right: Right) -> bool {
    match right {
        Right::Join | Right::Send | Right::Edit => true,
        Right::List => false,
    }
}

/// The rule that decided, of all bases there are.
pub fn decided_by(decision: Decision) -> Option<u32> {
    let by: By = match decision {
        Decision::Allowed(by) | Decision::Denied(by) => by,
    };
    match by {
        By::Rule(id) => Some(id),
        By::Default | By::Root | By::Free => None,
    }
}

pub fn new_table(alloc: Global) -> Table {
    Table::new(alloc)
}

pub fn copy_table(table: &Table, alloc: Global) -> Result<Table, Refusal> {
    table.copy(alloc)
}

pub fn decide(table: &Table, right: Right, asker: Asker) -> Decision {
    table.decide(right, asker)
}

pub fn insert(table: &mut Table, index: usize, id: u32, rule: Rule) -> Result<(), Refusal>
    requires index { index ≤ length table.old }
    requires room { length table.old < MOST_RULES }
    requires id { All (λ entry. entry.0 ≢ id) table.old }
{
    table.insert(index, id, rule)
}

pub fn remove(table: &mut Table, id: u32) -> bool {
    table.remove(id)
}

/// How many rules there are, and the one of that index with its id.
pub fn shown(table: &Table, index: usize) -> (usize, Option<(u32, Rule)>) {
    (table.len(), table.get(index))
}
