//! Sets of nodes, a bit for each.
//!
//! Proved: the definitions of `specs/Sets.antt`.

ghost use Rattle.std.specs.Prelude.{◌≡◌, ℕ, ◌<◌, ◌≤◌, ◌||◌, ◌==◌, false};
ghost use Rattle.cpg_draw.specs.Sets.{bit_of, with_node, has};

/// The bit of a node, from 1 on; no bit where there is no such node.
#[tactic(auto, unfolding(crate::specs::Sets::bit_of))]
fn bit(node: u8) -> u8
    ensures { result ≡ bit_of node }
{
    match node {
        1 => 1,
        2 => 2,
        3 => 4,
        4 => 8,
        5 => 16,
        6 => 32,
        7 => 64,
        8 => 128,
        _ => 0,
    }
}

/// The set, and that node.
#[tactic(auto, using(crate::proofs::Unions::put_in))]
pub(crate) fn with(set: u8, node: u8) -> u8
    ensures bits { result ≡ with_node set node }
    ensures held { (other : ℕ) → 0 < other → other ≤ 8 → has result other ≡ (has set other || (other == node)) }
{
    set | bit(node)
}

/// Whether the node is in the set.
pub(crate) fn contains(set: u8, node: u8) -> bool
    ensures held { result ≡ has set node }
    ensures none { has 0 node ≡ false }
{
    set & bit(node) != 0
}
