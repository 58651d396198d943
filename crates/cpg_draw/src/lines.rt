//! A picture as lines for a terminal.

ghost use Rattle.std.specs.Prelude.{IsOkUnless};

use crate::columns::{put_columns, put_heads};
use crate::pictures::Scene;
use crate::rows::Row;
use crate::words::{put_miss, put_row_words, put_start};
use cpg_cred::Refusal;
use cpg_text::put;

/// Puts what is drawn.
pub(crate) fn put_lines(text: &mut Vec<u8>, scene: &Scene<'_>) -> Result<(), Refusal>
    ensures memory { IsOkUnless result Refusal.Memory }
{
    let nodes = scene.world.nodes();
    put_heads(text, nodes)?;
    put(text, "  row\n")?;
    put_columns(text, nodes, 0, None)?;
    put(text, "  ")?;
    put_start(text, scene)?;
    put(text, "\n")?;
    for row in scene.picture.rows.as_slice() {
        put_line(text, scene, row)?;
    }
    for miss in scene.picture.misses.as_slice() {
        put_miss(text, nodes, miss)?;
    }
    Ok(())
}

fn put_line(text: &mut Vec<u8>, scene: &Scene<'_>, row: &Row) -> Result<(), Refusal>
    ensures memory { IsOkUnless result Refusal.Memory }
{
    put_columns(text, scene.world.nodes(), row.node, row.ending())?;
    put_row_words(text, scene, row)?;
    match row.answer {
        None => put(text, "\n"),
        Some(_) => Ok(()),
    }
}
