//! The numbers of nodes.

ghost use Rattle.std.specs.Prelude.{◌≡◌, ℕ, ◌≤◌, SomeIff};

use std::marker::Model;

/// How many nodes a ring has at most.
pub const MOST_NODES: u8 = 8;

/// The limits of this crate, as numbers.
pub fn limits()
    ensures { MOST_NODES ≡ 8 }
{}

/// The number of a node of the ring, 1 to 8. Contracts see it as that number.
#[derive(Debug, Clone, Copy, PartialEq, Eq, PartialOrd, Ord, Hash)]
pub struct NodeId {
    number: u8,
}

impl Model for NodeId {
    ghost use Rattle.std.specs.Prelude.{ℕ, ◌≤◌};
    ghost use Rattle.cpg_cred.specs.declared.nodes.TheConstants.{MOST_NODES};

    ghost Value = { ℕ };

    ghost view = { λ node. node.number };

    ghost invariant = { λ node. (1 ≤ node.number) × (node.number ≤ MOST_NODES) };

    ghost inverse = { λ n. record { number = n } };
}

/// The first node, which every ring has.
impl Default for NodeId {
    ghost is_default = { λ node. node ≡ 1 };

    fn default() -> NodeId {
        NodeId { number: 1 }
    }
}

impl NodeId {
    /// The node of that number, for 1 to 8; none for any other number.
    pub fn new(number: u8) -> Option<NodeId>
        ensures { SomeIff result ((1 ≤ number) × (number ≤ MOST_NODES)) number }
    {
        if number >= 1 && number <= MOST_NODES {
            Some(NodeId { number })
        } else {
            None
        }
    }

    /// The node's number, 1 to 8.
    pub fn get(self) -> u8
        ensures value { result ≡ self }
        ensures range { (1 ≤ result) × (result ≤ MOST_NODES) }
    {
        self.number
    }
}
