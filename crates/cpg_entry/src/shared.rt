//! Rules that calls have in common.

ghost use Rattle.std.specs.Prelude.{◌≡◌, ◌↔◌, IsTrue, IfOk, IsOkUnless};

use cpg_rules::{Refusal, Rule};
use std::alloc::Global;
use std::fmt;
use std::marker::Model;
use std::sync::Arc;

/// The rule of an insert, which its copies have in common, so that every other call is small. Contracts see it as the
/// rule.
#[derive(Drop)]
pub struct SharedRule {
    rule: Arc<Rule>,
}

impl Model for SharedRule {
    ghost use Rattle.std.specs.Arc.{arc_value};
    ghost use Rattle.cpg_rules.specs.declared.rules.Rule.{Rule};

    ghost Value = { Rule };

    ghost view = { λ shared. arc_value shared.rule };
}

impl fmt::Debug for SharedRule {
    fn fmt<W: fmt::Write>(&self, f: &mut fmt::Formatter<W>) -> fmt::Result {
        self.rule.fmt(f)
    }
}

impl SharedRule {
    /// The rule, to be had in common.
    pub fn new(alloc: Global, rule: Rule) -> Result<SharedRule, Refusal>
        ensures ok { IfOk result (λ shared. shared ≡ rule) }
        ensures memory { IsOkUnless result Refusal.Memory }
    {
        Ok(SharedRule {
            rule: Arc::new(alloc, rule)?,
        })
    }

    /// The rule.
    pub fn get(&self) -> &Rule
        ensures { result.now ≡ self.now }
    {
        &self.rule
    }

    /// The same rule, which the two have in common.
    pub fn copy(&self) -> Result<SharedRule, Refusal>
        ensures ok { IfOk result (λ twin. twin ≡ self.now) }
        ensures memory { IsOkUnless result Refusal.Memory }
    {
        Ok(SharedRule {
            rule: Arc::try_clone(&self.rule)?,
        })
    }

    /// Whether the rules are the same.
    pub fn equals(&self, other: &SharedRule) -> bool
        ensures { IsTrue result ↔ (self.now ≡ other.now) }
    {
        self.rule.equals(&other.rule)
    }
}

impl PartialEq for SharedRule {
    ghost use Rattle.cpg_rules.specs.contracts.rules.RulePartialEq.TheImpl as rule_eq;
    ghost use Rattle.cpg_rules.specs.contracts.rules.RulePartialEq.TheImpl.Laws as rule_laws;

    ghost eq = { rule_eq.ghosts.eq };

    ghost laws = { rule_laws.laws-law };

    fn eq(&self, other: &SharedRule) -> bool {
        *self.get() == *other.get()
    }
}

impl Eq for SharedRule {
    ghost use Rattle.cpg_rules.specs.contracts.rules.RuleEq.TheImpl.Laws as rule_laws;

    ghost laws = { rule_laws.laws-law };
}
