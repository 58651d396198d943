//! The frames that did not come to a node that they went to.
//!
//! Proved: which they are, and which of them are lost, are the definitions of `specs/Misses.antt`.

ghost use Rattle.std.specs.Prelude.{◌≡◌, ◌<◌, ◌++◌, bit_or, length, get_or, set, OnOk, IfOk, IsOkUnless, reverse};
ghost use Rattle.cpg_draw.specs.Misses.{next_of, is_token, goes_to, misses_at, misses_to, misses_in};
ghost use Rattle.cpg_draw.specs.Passed.{passed_in};
ghost use Rattle.cpg_draw.specs.Sets.{has};

use crate::arrows::{Arrow, ArrowKind};
use crate::sets::contains;
use cpg_cred::Refusal;
use std::alloc::Global;

/// A frame that did not come to a node that it went to.
#[derive(Debug, Clone, Copy, PartialEq, Eq)]
pub struct Miss {
    /// The frame.
    pub arrow: Arrow,
    /// The node, from 1.
    pub node: u8,
    /// Whether it is lost, as a later frame of its sender came to that node; else it is under way.
    pub lost: bool,
}

/// The node, of so many, that the token of a node goes to.
fn next(nodes: u8, node: u8) -> u8
    ensures { result ≡ next_of nodes node }
{
    if node < nodes { node + 1 } else { 1 }
}

/// Whether it is the token.
pub fn holds_token(kind: ArrowKind) -> bool
    ensures { result ≡ is_token kind }
{
    match kind {
        ArrowKind::Token => true,
        ArrowKind::Data => false,
        ArrowKind::Again => false,
    }
}

/// Whether the frame goes to a node of so many.
fn goes(nodes: u8, arrow: &Arrow, node: u8) -> bool
    ensures { result ≡ goes_to nodes arrow.now node }
{
    if holds_token(arrow.kind) {
        node == next(nodes, arrow.node)
    } else {
        nodes == 1 || node != arrow.node
    }
}

/// Puts the frame after the others, where it did not come to that node; the set has the nodes to which later
/// frames of its sender came.
fn push_miss(
    misses: &mut Vec<Miss>,
    nodes: u8,
    arrow: &Arrow,
    passed: u8,
    node: u8,
) -> Result<(), Refusal>
    ensures ok { OnOk result (misses.new.items ≡ misses.old.items ++ misses_at nodes arrow.now (has passed) node) }
    ensures memory { IsOkUnless result Refusal.Memory }
{
    if goes(nodes, arrow, node) && !contains(arrow.came, node) {
        let lost = contains(passed, node);
        misses.push(Miss {
            arrow: *arrow,
            node,
            lost,
        })?;
    }
    Ok(())
}

/// Puts the frame for each node that it did not come to, the last node first.
fn push_misses(misses: &mut Vec<Miss>, nodes: u8, arrow: &Arrow, passed: u8) -> Result<(), Refusal>
    ensures ok { OnOk result (misses.new.items ≡ misses.old.items ++ reverse (misses_to nodes arrow.now (has passed) nodes)) }
    ensures memory { IsOkUnless result Refusal.Memory }
{
    for before in (0..nodes).rev() {
        push_miss(misses, nodes, arrow, passed, before + 1)?;
    }
    Ok(())
}

/// The nodes in the table that a sender's frames came to.
fn passed_by(table: &[u8], sender: u8) -> u8
    requires { length table.now ≡ 256 }
    ensures set { result ≡ get_or table.now sender 0 }
    ensures within { sender < 256 }
{
    table[usize::from(sender)]
}

/// Notes in the table that a frame of that sender came to those nodes.
fn note_passed(table: &mut [u8], sender: u8, came: u8)
    requires { length table.old ≡ 256 }
    ensures { table.new ≡ set table.old sender (bit_or (get_or table.old sender 0) came) }
{
    let sender = usize::from(sender);
    table[sender] = table[sender] | came;
}

/// All that did not come to nodes that they went to, the last first.
fn gather(alloc: Global, nodes: u8, arrows: &[Arrow]) -> Result<Vec<Miss>, Refusal>
    ensures ok { IfOk result (λ misses. misses.items ≡ reverse (passed_in nodes arrows.now)) }
    ensures memory { IsOkUnless result Refusal.Memory }
{
    let mut misses = Vec::new(alloc);
    // By sender, the nodes that its later frames came to: the last frame is gone over first.
    let mut table = vec![in alloc; 0u8; 256]?;
    for index in (0..arrows.len()).rev() {
        let arrow = arrows[index];
        let passed = passed_by(table.as_slice(), arrow.node);
        push_misses(&mut misses, nodes, &arrow, passed)?;
        note_passed(table.as_mut_slice(), arrow.node, arrow.came);
    }
    Ok(misses)
}

/// The same, the last first.
fn turned(alloc: Global, misses: &[Miss]) -> Result<Vec<Miss>, Refusal>
    ensures ok { IfOk result (λ turned. turned.items ≡ reverse misses.now) }
    ensures memory { IsOkUnless result Refusal.Memory }
{
    let turned = misses.iter().rev().copied().collect(alloc)?;
    Ok(turned)
}

/// All that did not come to nodes that they went to, frame by frame. `Memory` is the only error.
pub fn find_misses(alloc: Global, nodes: u8, arrows: &[Arrow]) -> Result<Vec<Miss>, Refusal>
    ensures ok { IfOk result (λ misses. misses.items ≡ misses_in nodes arrows.now) }
    ensures memory { IsOkUnless result Refusal.Memory }
{
    let backwards = gather(alloc, nodes, arrows)?;
    let misses = turned(alloc, backwards.as_slice())?;
    Ok(misses)
}
