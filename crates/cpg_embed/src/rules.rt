//! Rules, in numbers.

ghost use Rattle.std.specs.Prelude.{◌≡◌, unwrap_or};
ghost use Rattle.cpg_embed.specs.Rules.{rule_of, line_of, effect_of, right_of, number_if, node_if, effect_number, right_number};

use cpg_cred::NodeId;
use cpg_rules::{Effect, Right, Rule, Who};

/// A rule of a group's table, in numbers.
#[repr(C)]
#[derive(Clone, Copy)]
pub struct RuleLine {
    /// The rule's id, where a table tells it; it is not read where a rule is put in.
    pub id: u32,
    /// 1 allow, 2 deny.
    pub effect: u32,
    /// 1 join, 2 send, 3 list, 4 edit.
    pub right: u32,
    /// Whether the rule speaks of one user alone.
    pub has_uid: bool,
    /// Whether the rule speaks of one group of users alone.
    pub has_gid: bool,
    /// Whether the rule speaks of one node alone.
    pub has_node: bool,
    pub uid: u32,
    pub gid: u32,
    pub node: u8,
}

fn effect_of(number: u32) -> Option<Effect>
    ensures { result ≡ effect_of number }
{
    match number {
        1 => Some(Effect::Allow),
        2 => Some(Effect::Deny),
        _ => None,
    }
}

fn right_of(number: u32) -> Option<Right>
    ensures { result ≡ right_of number }
{
    match number {
        1 => Some(Right::Join),
        2 => Some(Right::Send),
        3 => Some(Right::List),
        4 => Some(Right::Edit),
        _ => None,
    }
}

fn number_if(has: bool, number: u32) -> Option<u32>
    ensures { result ≡ number_if has number }
{
    if has { Some(number) } else { None }
}

/// No condition, or a condition on that node, where there is such a node.
fn node_if(has: bool, number: u8) -> Option<Option<NodeId>>
    ensures { result ≡ node_if has number }
{
    if !has {
        return Some(None);
    }
    match NodeId::new(number) {
        Some(node) => Some(Some(node)),
        None => None,
    }
}

fn effect_number(effect: Effect) -> u32
    ensures { result ≡ effect_number effect }
{
    match effect {
        Effect::Allow => 1,
        Effect::Deny => 2,
    }
}

fn right_number(right: Right) -> u32
    ensures { result ≡ right_number right }
{
    match right {
        Right::Join => 1,
        Right::Send => 2,
        Right::List => 3,
        Right::Edit => 4,
    }
}

fn node_number(node: Option<NodeId>) -> u8
    ensures { result ≡ unwrap_or node 0 }
{
    match node {
        Some(node) => node.get(),
        None => 0,
    }
}

impl RuleLine {
    /// The rule that the numbers say, if they say one.
    pub(crate) fn rule(&self) -> Option<Rule>
        ensures { result ≡ rule_of self.now }
    {
        let effect = effect_of(self.effect)?;
        let right = right_of(self.right)?;
        let node = node_if(self.has_node, self.node)?;
        Some(Rule {
            effect,
            right,
            who: Who {
                uid: number_if(self.has_uid, self.uid),
                gid: number_if(self.has_gid, self.gid),
                node,
            },
        })
    }

    /// A rule of a table, with its id.
    pub(crate) fn of(id: u32, rule: &Rule) -> RuleLine
        ensures { result ≡ line_of id rule.now }
    {
        RuleLine {
            id,
            effect: effect_number(rule.effect),
            right: right_number(rule.right),
            has_uid: rule.who.uid.is_some(),
            has_gid: rule.who.gid.is_some(),
            has_node: rule.who.node.is_some(),
            uid: rule.who.uid.unwrap_or(0),
            gid: rule.who.gid.unwrap_or(0),
            node: node_number(rule.who.node),
        }
    }
}
