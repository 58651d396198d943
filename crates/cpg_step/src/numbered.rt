//! Nodes and connections by numbers that are written as they are printed, which are read with no search for words.

ghost use Rattle.std.specs.Prelude.{◌≡◌, ◌≤◌, Some, IfSome};
ghost use Rattle.cpg_text.specs.Lines.{words_of};
ghost use Rattle.cpg_step.specs.Steps.{at_numbered, between, node_numbered, two_numbers};

use cpg_cred::{MOST_NODES, NodeId};
use cpg_entry::MOST_CONNECTIONS;
use cpg_text::first_digits;

/// The two numbers of a digit, a space and digits, nine at most, where the text is no more. There may be none though it
/// writes two.
#[inline(always)]
#[tactic(auto, using(crate::proofs::LastNumbers::digit_and_digits))]
pub(crate) fn last_numbers(text: &[u8]) -> Option<(u32, u32)>
    ensures { IfSome result (λ found. two_numbers (words_of text.now) ≡ Some (found.0, found.1)) }
{
    if text.len() < 3 || !text[0].is_ascii_digit() || text[1] != b' ' {
        return None;
    }
    let (second, end) = first_digits(&text[2..]);
    if end == text.len() - 2 {
        Some((u32::from(text[0] - b'0'), second))
    } else {
        None
    }
}

/// The node of that number, where the ring has it.
#[inline(always)]
pub(crate) fn node_of_number(nodes: u8, number: u32) -> Option<NodeId>
    ensures node { result ≡ node_numbered nodes number }
    ensures within { IfSome result (λ node. node ≤ nodes) }
{
    if number > u32::from(MOST_NODES) {
        return None;
    }
    let node = NodeId::new(number as u8)?;
    if node.get() <= nodes {
        Some(node)
    } else {
        None
    }
}

/// The connection of that number.
#[inline(always)]
fn conn_of_number(number: u32) -> Option<u16>
    ensures { result ≡ between 1 MOST_CONNECTIONS number }
{
    if number >= 1 && number <= u32::from(MOST_CONNECTIONS) {
        Some(number as u16)
    } else {
        None
    }
}

/// The node and the connection of those numbers.
#[inline(always)]
pub(crate) fn at_of_numbers(nodes: u8, node: u32, conn: u32) -> Option<(NodeId, u16)>
    ensures at { result ≡ at_numbered nodes node conn }
    ensures within { IfSome result (λ at. at.0 ≤ nodes) }
{
    let node = node_of_number(nodes, node)?;
    let conn = conn_of_number(conn)?;
    Some((node, conn))
}
