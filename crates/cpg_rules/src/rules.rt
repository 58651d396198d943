//! Rules: an effect, a right and whom the rule speaks of.

ghost use Rattle.std.specs.Prelude.{◌≡◌, ◌↔◌, ◌&&◌, IsTrue, None, Some};
ghost use Rattle.cpg_rules.specs.Decision.{agrees, matches, same_right};

use cpg_cred::{Cred, NodeId};

/// What a rule does to the askers that it speaks of.
#[derive(Debug, Clone, Copy, PartialEq, Eq)]
pub enum Effect {
    Allow,
    Deny,
}

/// What a connection may ask of a group.
#[derive(Debug, Clone, Copy, PartialEq, Eq)]
pub enum Right {
    /// To become a member.
    Join,
    /// To multicast to the members.
    Send,
    /// To see who the members are.
    List,
    /// To change the group's table.
    Edit,
}

/// Whom a rule speaks of: a conjunction of at most one condition of each kind. A condition that is not
/// there holds of everyone.
#[derive(Debug, Clone, Copy, PartialEq, Eq)]
pub struct Who {
    pub uid: Option<u32>,
    pub gid: Option<u32>,
    pub node: Option<NodeId>,
}

/// An access rule.
#[derive(Debug, Clone, Copy, PartialEq, Eq)]
pub struct Rule {
    pub effect: Effect,
    pub right: Right,
    pub who: Who,
}

/// Who asks: the node and the credentials of a connection.
#[derive(Debug, Clone, Copy, PartialEq, Eq)]
pub struct Asker {
    pub node: NodeId,
    pub cred: Cred,
}

impl Who {
    /// Everyone.
    pub fn any() -> Who
        ensures { result ≡ record { uid = None; gid = None; node = None } }
    {
        Who {
            uid: None,
            gid: None,
            node: None,
        }
    }

    /// The askers of that user.
    pub fn uid(uid: u32) -> Who
        ensures { result ≡ record { uid = Some uid; gid = None; node = None } }
    {
        Who {
            uid: Some(uid),
            gid: None,
            node: None,
        }
    }

    /// The askers of that group of users.
    pub fn gid(gid: u32) -> Who
        ensures { result ≡ record { uid = None; gid = Some gid; node = None } }
    {
        Who {
            uid: None,
            gid: Some(gid),
            node: None,
        }
    }

    /// The askers at that node.
    pub fn node(node: NodeId) -> Who
        ensures { result ≡ record { uid = None; gid = None; node = Some node } }
    {
        Who {
            uid: None,
            gid: None,
            node: Some(node),
        }
    }

    /// Whether the conditions are the same.
    pub fn equals(&self, other: &Who) -> bool
        ensures { IsTrue result ↔ (self.now ≡ other.now) }
    {
        self.uid == other.uid && self.gid == other.gid && self.node == other.node
    }

    /// Whether each condition that is there holds of the asker.
    fn matches(&self, asker: &Asker) -> bool
        ensures { result ≡ matches self.now asker.now }
    {
        holds(self.uid, asker.cred.uid)
            && holds(self.gid, asker.cred.gid)
            && holds_at(self.node, asker.node)
    }
}

/// Whether a condition on a number holds of it.
fn holds(condition: Option<u32>, number: u32) -> bool
    ensures { result ≡ agrees condition number }
{
    match condition {
        None => true,
        Some(wanted) => number == wanted,
    }
}

/// Whether a condition on a node holds of it.
fn holds_at(condition: Option<NodeId>, node: NodeId) -> bool
    ensures { result ≡ agrees condition node }
{
    match condition {
        None => true,
        Some(wanted) => node == wanted,
    }
}

impl Rule {
    /// Whether the rules are the same.
    pub fn equals(&self, other: &Rule) -> bool
        ensures { IsTrue result ↔ (self.now ≡ other.now) }
    {
        self.effect == other.effect && self.right == other.right && self.who.equals(&other.who)
    }

    /// Whether the rule speaks of that right and that asker.
    pub(crate) fn speaks_of(&self, right: Right, asker: &Asker) -> bool
        ensures { result ≡ same_right self.now.right right && matches self.now.who asker.now }
    {
        self.right == right && self.who.matches(asker)
    }
}
