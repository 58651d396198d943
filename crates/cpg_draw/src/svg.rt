//! A picture as one SVG, with nodes as columns and time downwards.
//!
//! Each command is a row. An arrow goes from the row that sent a frame to the row that brings it. Beside its
//! sender a frame has a cross for each node that it is lost for, and a diamond for each that it is under way to.
//! The layout is this project's own.

ghost use Rattle.std.specs.Prelude.{IsOkUnless};

mod arrows;
mod layout;
mod marks;
mod rows;
mod shapes;
mod style;

use crate::pictures::Scene;
use crate::svg::marks::put_misses;
use crate::svg::rows::{put_columns, put_over, put_start_over, put_start_under, put_under};
use crate::svg::shapes::put_opening;
use crate::svg::style::STYLE;
use cpg_cred::Refusal;
use cpg_text::put;

/// Puts what is drawn: lines and arrows first, then the marks of what did not come, and last what stands over them.
pub(crate) fn put_svg(text: &mut Vec<u8>, scene: &Scene<'_>) -> Result<(), Refusal>
    ensures memory { IsOkUnless result Refusal.Memory }
{
    let (nodes, picture) = (scene.world.nodes(), scene.picture);
    let rows = picture.rows.len() as u64;
    put_opening(text, scene, rows)?;
    put(text, STYLE)?;
    put_columns(text, nodes, rows)?;
    put_start_under(text, scene)?;
    for row in picture.rows.as_slice() {
        put_under(text, scene, row)?;
    }
    put_misses(text, scene, rows)?;
    put(text, "<g>\n")?;
    put_start_over(text, nodes)?;
    for row in picture.rows.as_slice() {
        put_over(text, scene, row)?;
    }
    put(text, "</g>\n</svg>\n")
}
