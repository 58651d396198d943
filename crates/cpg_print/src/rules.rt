//! Access rules as words, both ways.

ghost use Rattle.std.specs.Prelude.{◌≡◌, ◌++◌, ◌≤◌, OnOk, IsOkUnless, codes, option_map};
ghost use Rattle.cpg_text.specs.Words.{cut_at};
ghost use Rattle.cpg_print.specs.Rules.{effect_text, right_text, condition_text, conditions_text, who_text, rule_text, effect_of, right_of, first_condition, named_number, take_condition, conditions_of, who_of, who_in, rule_of};
ghost use Rattle.cpg_print.specs.Words.{texts};

use cpg_cred::{MOST_NODES, NodeId, Refusal};
use cpg_rules::{Effect, Right, Rule, Who};
use cpg_text::{cut, is, push_number, put, read_u32, strip_name};

/// Puts EFFECT RIGHT WHO at the line's end.
pub fn put_rule(line: &mut Vec<u8>, rule: Rule) -> Result<(), Refusal>
    ensures ok { OnOk result (line.new.items ≡ line.old.items ++ rule_text rule) }
    ensures memory { IsOkUnless result Refusal.Memory }
{
    put(line, effect_name(rule.effect))?;
    put(line, " ")?;
    put(line, right_name(rule.right))?;
    put(line, " ")?;
    put_who(line, rule.who)
}

fn effect_name(effect: Effect) -> &'static str
    ensures { result.now ≡ effect_text effect }
{
    match effect {
        Effect::Allow => "allow",
        Effect::Deny => "deny",
    }
}

fn right_name(right: Right) -> &'static str
    ensures { result.now ≡ right_text right }
{
    match right {
        Right::Join => "join",
        Right::Send => "send",
        Right::List => "list",
        Right::Edit => "edit",
    }
}

fn put_who(line: &mut Vec<u8>, who: Who) -> Result<(), Refusal>
    ensures ok { OnOk result (line.new.items ≡ line.old.items ++ who_text who) }
    ensures memory { IsOkUnless result Refusal.Memory }
{
    if who.uid.is_some() || who.gid.is_some() || who.node.is_some() {
        put_conditions(line, who)
    } else {
        put(line, "any")
    }
}

fn put_conditions(line: &mut Vec<u8>, who: Who) -> Result<(), Refusal>
    ensures ok { OnOk result (line.new.items ≡ line.old.items ++ conditions_text who) }
    ensures memory { IsOkUnless result Refusal.Memory }
{
    let node = node_number(who.node);
    put_condition(line, false, "uid:", who.uid)?;
    put_condition(line, who.uid.is_some(), "gid:", who.gid)?;
    put_condition(line, who.uid.is_some() || who.gid.is_some(), "node:", node)
}

/// The number of a node that is there.
pub fn node_number(node: Option<NodeId>) -> Option<u32>
    ensures { result ≡ node }
{
    match node {
        None => None,
        Some(node) => Some(u32::from(node.get())),
    }
}

/// Puts the condition if it is there, after a `+` if it joins another.
fn put_condition(
    line: &mut Vec<u8>,
    joins: bool,
    name: &str,
    number: Option<u32>,
) -> Result<(), Refusal>
    ensures ok { OnOk result (line.new.items ≡ line.old.items ++ condition_text joins name.now number) }
    ensures memory { IsOkUnless result Refusal.Memory }
{
    match number {
        None => Ok(()),
        Some(number) => {
            put(line, if joins { "+" } else { "" })?;
            put(line, name)?;
            push_number(line, u64::from(number))
        }
    }
}

/// The rule that EFFECT RIGHT WHO say, where one word is left for WHO.
#[tactic(auto, unfolding(crate::specs::Rules::rule_of))]
pub fn read_rule(effect: &[u8], right: &[u8], who: &[&[u8]]) -> Option<Rule>
    ensures { result ≡ rule_of effect.now right.now (texts who.now) }
{
    let effect = read_effect(effect)?;
    let right = read_right(right)?;
    let who = read_who_in(who)?;
    Some(Rule { effect, right, who })
}

fn read_who_in(words: &[&[u8]]) -> Option<Who>
    ensures { result ≡ who_in (texts words.now) }
{
    match words {
        [who] => read_who(who),
        _ => None,
    }
}

fn read_effect(word: &[u8]) -> Option<Effect>
    ensures { result ≡ effect_of word.now }
{
    if is(word, b"allow".as_slice()) {
        Some(Effect::Allow)
    } else if is(word, b"deny".as_slice()) {
        Some(Effect::Deny)
    } else {
        None
    }
}

fn read_right(word: &[u8]) -> Option<Right>
    ensures { result ≡ right_of word.now }
{
    if is(word, b"join".as_slice()) {
        Some(Right::Join)
    } else if is(word, b"send".as_slice()) {
        Some(Right::Send)
    } else if is(word, b"list".as_slice()) {
        Some(Right::List)
    } else if is(word, b"edit".as_slice()) {
        Some(Right::Edit)
    } else {
        None
    }
}

fn read_who(word: &[u8]) -> Option<Who>
    ensures { result ≡ who_of word.now }
{
    if is(word, b"any".as_slice()) {
        Some(Who::any())
    } else {
        read_conditions(word)
    }
}

#[tactic(auto, unfolding(crate::specs::Rules::conditions_of))]
fn read_conditions(word: &[u8]) -> Option<Who>
    ensures { result ≡ conditions_of word.now }
{
    let (uid, left) = take_number(b"uid:".as_slice(), 0, u32::MAX, Some(word));
    let (gid, left) = take_number(b"gid:".as_slice(), 0, u32::MAX, left);
    let (node, left) = take_node(left);
    match left {
        None => Some(Who { uid, gid, node }),
        Some(_) => None,
    }
}

fn take_node(conditions: Option<&[u8]>) -> (Option<NodeId>, Option<&[u8]>)
    ensures node { result.0 ≡ (take_condition (codes "node:") 1 8 (option_map (λ rest. rest.now) conditions.entry)).0 }
    ensures left { option_map (λ rest. rest.now) result.1 ≡ (take_condition (codes "node:") 1 8 (option_map (λ rest. rest.now) conditions.entry)).1 }
{
    let (number, left) = take_number(b"node:".as_slice(), 1, u32::from(MOST_NODES), conditions);
    match number {
        None => (None, left),
        Some(number) => (NodeId::new(number as u8), left),
    }
}

/// The number of the first condition, where it has that name and is in that range, and the conditions left.
fn take_number<'a>(
    name: &[u8],
    low: u32,
    high: u32,
    conditions: Option<&'a [u8]>,
) -> (Option<u32>, Option<&'a [u8]>)
    ensures number { result.0 ≡ (take_condition name.now low high (option_map (λ rest. rest.now) conditions.entry)).0 }
    ensures left { option_map (λ rest. rest.now) result.1 ≡ (take_condition name.now low high (option_map (λ rest. rest.now) conditions.entry)).1 }
{
    match conditions {
        None => (None, None),
        Some(text) => {
            let (first, others) = cut_condition(text);
            match named_number(name, low, high, first) {
                None => (None, Some(text)),
                Some(number) => (Some(number), others),
            }
        }
    }
}

fn cut_condition(text: &[u8]) -> (&[u8], Option<&[u8]>)
    ensures first { result.0.now ≡ (first_condition text.now (cut_at 43 text.now)).0 }
    ensures others { option_map (λ rest. rest.now) result.1 ≡ (first_condition text.now (cut_at 43 text.now)).1 }
{
    match cut(b'+', text) {
        None => (text, None),
        Some((first, others)) => (first, Some(others)),
    }
}

fn named_number(name: &[u8], low: u32, high: u32, word: &[u8]) -> Option<u32>
    ensures { result ≡ named_number name.now low high word.now }
{
    read_u32(low, high, strip_name(name, word)?)
}
