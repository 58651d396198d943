//! Arrows as they are drawn.

ghost use Rattle.std.specs.Prelude.{IsOkUnless};

use crate::arrows::Arrow;
use crate::pictures::Scene;
use crate::rows::Row;
use crate::svg::layout::{bend_between, column_at, label_across, label_down, row_at};
use crate::svg::shapes::{put_frame_title, put_place, put_point};
use crate::words::{put_arrow, put_kind};
use cpg_cred::Refusal;
use cpg_text::put;

/// Puts the path of the arrow to the row where it ends, with an open diamond at its beginning where it comes from a row
/// above all lines.
fn put_path(text: &mut Vec<u8>, arrow: &Arrow, row: &Row) -> Result<(), Refusal>
    ensures memory { IsOkUnless result Refusal.Memory }
{
    let from = (column_at(arrow.node), row_at(arrow.sent.place));
    let to = (column_at(row.node), row_at(row.spot.place));
    let bend = bend_between(arrow.node, row.node);
    put(text, "<path d='M")?;
    put_point(text, from.0, from.1)?;
    put(text, "Q")?;
    put_point(text, (from.0 + to.0) / 2 + bend, (from.1 + to.1) / 2)?;
    put(text, " ")?;
    put_point(text, to.0, to.1)?;
    put(text, "'/>")?;
    if arrow.sent.place == 0 && arrow.sent.row != 0 {
        put(text, "<g class='way'><path d='M")?;
        put_point(text, from.0, from.1)?;
        put(text, "m0-6l6 6-6 6-6-6 6-6'/></g>")?;
    }
    Ok(())
}

/// The side of the end of an arrow from a node to a node on which its label stands.
pub(crate) fn side(from: u8, to: u8) -> &'static str {
    if from < to { "right" } else { "left" }
}

/// Puts the arrow that ends in the row, if one does, under its frame.
pub(crate) fn put_arrow_to(text: &mut Vec<u8>, scene: &Scene<'_>, row: &Row) -> Result<(), Refusal>
    ensures memory { IsOkUnless result Refusal.Memory }
{
    let Some(arrow) = row.ending() else {
        return Ok(());
    };
    put(text, "<g class='")?;
    put_kind(text, arrow.kind)?;
    put(text, "'>")?;
    put_frame_title(text, scene, arrow.number)?;
    put_path(text, &arrow, row)?;
    put(text, "</g>")
}

/// Puts the label of that arrow, under its frame.
pub(crate) fn put_label_at(text: &mut Vec<u8>, scene: &Scene<'_>, row: &Row) -> Result<(), Refusal>
    ensures memory { IsOkUnless result Refusal.Memory }
{
    let Some(arrow) = row.ending() else {
        return Ok(());
    };
    let at = (
        label_across(arrow.node, row.node),
        label_down(row.spot.place),
    );
    put(text, "<g class='")?;
    put(text, side(arrow.node, row.node))?;
    put(text, "'>")?;
    put_frame_title(text, scene, arrow.number)?;
    put_label(text, at, &arrow)
}

/// Puts the words of an arrow's label at a point, and ends what stands round them.
pub(crate) fn put_label(text: &mut Vec<u8>, at: (u64, u64), arrow: &Arrow) -> Result<(), Refusal>
    ensures memory { IsOkUnless result Refusal.Memory }
{
    put_place(text, at.0, at.1)?;
    put_arrow(text, arrow)?;
    put(text, "</text></g>")
}
