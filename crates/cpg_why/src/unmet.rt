//! Which condition of a rule an asker does not meet.

ghost use Rattle.std.specs.Prelude.{◌≡◌, ◌&&◌};
ghost use Rattle.cpg_rules.specs.Decision.{matches, same_right};
ghost use Rattle.cpg_why.specs.Unmet.{lacking, unmet};

use cpg_print::node_number;
use cpg_rules::{Asker, Right, Rule, Who};

/// What a condition of a rule is on.
#[derive(Debug, Clone, Copy, PartialEq, Eq)]
pub enum Subject {
    /// The user of the asker.
    Uid,
    /// The group of users of the asker.
    Gid,
    /// The node of the asker.
    Node,
}

impl Subject {
    /// Its name.
    pub fn name(self) -> &'static str {
        match self {
            Subject::Uid => "uid",
            Subject::Gid => "gid",
            Subject::Node => "node",
        }
    }
}

/// A condition that an asker does not meet: it has one number and another is wanted.
#[derive(Debug, Clone, Copy, PartialEq, Eq)]
pub struct Unmet {
    pub kind: Subject,
    /// What the asker has.
    pub has: u32,
    /// What the condition wants.
    pub wanted: u32,
}

/// The condition of that kind, where it is there and does not hold of the number.
fn find_lacking(kind: Subject, has: u32, condition: Option<u32>) -> Option<Unmet>
    ensures { result ≡ lacking kind has condition }
{
    match condition {
        None => None,
        Some(wanted) => {
            if has == wanted {
                None
            } else {
                Some(Unmet { kind, has, wanted })
            }
        }
    }
}

/// The first condition, in the order uid, gid, node, that the asker does not meet.
#[tactic(auto, unfolding(crate::specs::Unmet::unmet))]
pub fn find_unmet(who: &Who, asker: &Asker) -> Option<Unmet>
    ensures { result ≡ unmet who.now asker.now }
{
    match find_lacking(Subject::Uid, asker.cred.uid, who.uid) {
        Some(found) => Some(found),
        None => match find_lacking(Subject::Gid, asker.cred.gid, who.gid) {
            Some(found) => Some(found),
            None => find_lacking(
                Subject::Node,
                u32::from(asker.node.get()),
                node_number(who.node),
            ),
        },
    }
}

/// Whether the rule speaks of that right and that asker.
#[tactic(auto, using(crate::proofs::Conditions::matches_unmet))]
pub(crate) fn speaks_of(rule: &Rule, right: Right, asker: &Asker) -> bool
    ensures { result ≡ same_right rule.now.right right && matches rule.now.who asker.now }
{
    rule.right == right && find_unmet(&rule.who, asker).is_none()
}
