//! A rule that is asked for, in words of four bytes, and what they mean.

ghost use Rattle.std.specs.Prelude.{◌≡◌, ◌⊎◌, ◌++◌, OnOk};
ghost use Rattle.cpg_wire.specs.Reading.{Reads};
ghost use Rattle.cpg_ask.specs.Rules.{who_at, rule_at, who_bytes, rule_bytes, effect_of, right_of, is_given, who_meant, rule_meant, insert_meant};

use crate::input::Input;
use crate::output::put_u32;
use crate::words::Words;
use cpg_cred::MOST_NODES;
use cpg_entry::{Effect, NodeId, Right, Rule, Who};
use std::alloc::AllocError;

/// Whom a rule speaks of: which conditions are there (1 for the user, 2 for the group, 4 for the node, added), and
/// the value of each, which stands for nothing where its condition is not there.
#[derive(Debug, Clone, Copy, PartialEq, Eq)]
pub struct WhoWords {
    pub conditions: u32,
    pub uid: u32,
    pub gid: u32,
    pub node: u32,
}

/// Where a rule is to stand, from 0; its effect (1 allow, 2 deny); its right (1 join, 2 send, 3 list, 4 edit); and
/// whom it speaks of.
#[derive(Debug, Clone, Copy, PartialEq, Eq)]
pub struct RuleWords {
    pub index: u32,
    pub effect: u32,
    pub right: u32,
    pub who: WhoWords,
}

impl WhoWords {
    #[tactic(auto, unfolding(crate::specs::Rules::who_at))]
    fn read(input: &mut Input<'_>) -> Option<WhoWords>
        ensures { Reads result input.new (who_at input.old) }
    {
        let words = Words::read(input)?;
        Some(WhoWords {
            conditions: words.first,
            uid: words.second,
            gid: words.third,
            node: words.fourth,
        })
    }

    fn put(&self, out: &mut Vec<u8>) -> Result<(), AllocError>
        ensures { OnOk result (out.new.items ≡ out.old.items ++ who_bytes self.now) }
    {
        put_u32(out, self.conditions)?;
        put_u32(out, self.uid)?;
        put_u32(out, self.gid)?;
        put_u32(out, self.node)
    }

    fn has(&self, bit: u32) -> bool
        requires { bit ≡ 1 ⊎ (bit ≡ 2 ⊎ bit ≡ 4) }
        ensures { result ≡ is_given bit self.now }
    {
        (self.conditions / bit) % 2 == 1
    }

    /// Whom the words speak of; none where they name a node that no ring has.
    fn meant(&self) -> Option<Who>
        ensures { result ≡ who_meant self.now }
    {
        let uid = if self.has(1) { Some(self.uid) } else { None };
        let gid = if self.has(2) { Some(self.gid) } else { None };
        if !self.has(4) {
            return Some(Who {
                uid,
                gid,
                node: None,
            });
        }
        if self.node < 1 || self.node > u32::from(MOST_NODES) {
            return None;
        }
        let node = NodeId::new(self.node as u8)?;
        Some(Who {
            uid,
            gid,
            node: Some(node),
        })
    }
}

impl RuleWords {
    #[tactic(auto, unfolding(crate::specs::Rules::rule_at))]
    pub(crate) fn read(input: &mut Input<'_>) -> Option<RuleWords>
        ensures { Reads result input.new (rule_at input.old) }
    {
        let index = input.u32()?;
        let effect = input.u32()?;
        let right = input.u32()?;
        let who = WhoWords::read(input)?;
        Some(RuleWords {
            index,
            effect,
            right,
            who,
        })
    }

    pub(crate) fn put(&self, out: &mut Vec<u8>) -> Result<(), AllocError>
        ensures { OnOk result (out.new.items ≡ out.old.items ++ rule_bytes self.now) }
    {
        put_u32(out, self.index)?;
        put_u32(out, self.effect)?;
        put_u32(out, self.right)?;
        self.who.put(out)
    }

    #[tactic(auto, unfolding(crate::specs::Rules::rule_meant))]
    fn rule(&self) -> Option<Rule>
        ensures { result ≡ rule_meant self.now }
    {
        let effect = effect_of(self.effect)?;
        let right = right_of(self.right)?;
        let who = self.who.meant()?;
        Some(Rule { effect, right, who })
    }

    /// The index and the rule that the words mean, if they mean one.
    pub fn meant(&self) -> Option<(u8, Rule)>
        ensures { result ≡ insert_meant self.now }
    {
        if self.index > 255 {
            return None;
        }
        let rule = self.rule()?;
        Some((self.index as u8, rule))
    }
}

#[tactic(auto, unfolding(crate::specs::Rules::effect_of))]
fn effect_of(number: u32) -> Option<Effect>
    ensures { result ≡ effect_of number }
{
    match number {
        1 => Some(Effect::Allow),
        2 => Some(Effect::Deny),
        _ => None,
    }
}

#[tactic(auto, unfolding(crate::specs::Rules::right_of))]
fn right_of(number: u32) -> Option<Right>
    ensures { result ≡ right_of number }
{
    match number {
        1 => Some(Right::Join),
        2 => Some(Right::Send),
        3 => Some(Right::List),
        4 => Some(Right::Edit),
        _ => None,
    }
}
