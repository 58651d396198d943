//! A row's columns in letters: one for each node, with the arrow that ends in the row.

ghost use Rattle.std.specs.Prelude.{IsOkUnless};

use crate::arrows::{Arrow, ArrowKind};
use cpg_cred::Refusal;
use cpg_text::{push_number, put};

/// What stands between a column and the next one, in the row of a node that the arrow ends at.
fn gap(at: u8, arrow: Option<Arrow>, column: u8) -> &'static str {
    let Some(arrow) = arrow else {
        return "   ";
    };
    if arrow.node <= column && column < at {
        match arrow.kind {
            ArrowKind::Data => "-->",
            ArrowKind::Again => "==>",
            ArrowKind::Token => "..>",
        }
    } else if at <= column && column < arrow.node {
        match arrow.kind {
            ArrowKind::Data => "<--",
            ArrowKind::Again => "<==",
            ArrowKind::Token => "<..",
        }
    } else {
        "   "
    }
}

/// What stands in a column: the row's node, the node where the arrow begins, or the line of another.
fn dot(at: u8, arrow: Option<Arrow>, column: u8) -> &'static str {
    if column == at {
        return "*";
    }
    match arrow {
        Some(arrow) if arrow.node == column => "o",
        _ => "|",
    }
}

/// Puts the columns of so many nodes in the row of a node, with the arrow that ends there. One from outside the ring
/// begins before the first.
pub(crate) fn put_columns(
    line: &mut Vec<u8>,
    nodes: u8,
    at: u8,
    arrow: Option<Arrow>,
) -> Result<(), Refusal>
    ensures memory { IsOkUnless result Refusal.Memory }
{
    for before in 0..nodes {
        put(line, gap(at, arrow, before))?;
        put(line, dot(at, arrow, before + 1))?;
    }
    Ok(())
}

/// Puts the numbers of so many nodes, each over its column.
pub(crate) fn put_heads(line: &mut Vec<u8>, nodes: u8) -> Result<(), Refusal>
    ensures memory { IsOkUnless result Refusal.Memory }
{
    for before in 0..nodes {
        put(line, "   ")?;
        push_number(line, u64::from(before + 1))?;
    }
    Ok(())
}
