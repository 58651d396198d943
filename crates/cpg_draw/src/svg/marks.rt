//! The marks of frames that did not come.

ghost use Rattle.std.specs.Prelude.{◌≡◌, length, IsOkUnless};

use crate::misses::Miss;
use crate::pictures::Scene;
use crate::svg::arrows::{put_label, side};
use crate::svg::layout::{
    MARKS, column_at, label_across, label_down, line_at, mark_across, row_at, second_across,
    words_across,
};
use crate::svg::shapes::{put_frame_title, put_point, put_words};
use crate::words::{put_kind, put_miss};
use cpg_cred::Refusal;
use cpg_text::{push_number, put};

/// What a stub ends with: a cross where the frame is lost, else an open diamond.
fn end(miss: &Miss) -> &'static str {
    if miss.lost {
        "m-6-6l12 12m0-12l-12 12'/>"
    } else if miss.arrow.node < miss.node {
        "l6-6 6 6-6 6-6-6'/>"
    } else {
        "l-6-6-6 6 6 6 6-6'/>"
    }
}

/// Puts the stub of a frame that did not come, from its sender's dot towards the node.
fn put_mark(text: &mut Vec<u8>, miss: &Miss, place: u64) -> Result<(), Refusal>
    ensures memory { IsOkUnless result Refusal.Memory }
{
    let arrow = miss.arrow;
    put(text, "<path d='M")?;
    put_point(text, column_at(arrow.node), row_at(arrow.sent.place))?;
    put(text, "H")?;
    push_number(text, mark_across(arrow.node, miss.node, place))?;
    put(text, end(miss))
}

/// Puts the label of a mark, where it is one of the first two.
fn put_mark_label(text: &mut Vec<u8>, miss: &Miss, place: u64) -> Result<(), Refusal>
    ensures memory { IsOkUnless result Refusal.Memory }
{
    if place > 1 {
        return Ok(());
    }
    let arrow = miss.arrow;
    let across = if place == 0 {
        label_across(arrow.node, miss.node)
    } else {
        second_across(arrow.node, miss.node)
    };
    put(text, "<g class='")?;
    put(text, side(arrow.node, miss.node))?;
    put(text, "'>")?;
    put_label(text, (across, label_down(arrow.sent.place)), &arrow)
}

/// Puts a frame that did not come: its mark, and what is said of it on a line below so many rows.
fn put_shape(
    text: &mut Vec<u8>,
    scene: &Scene<'_>,
    down: u64,
    place: u64,
    miss: &Miss,
) -> Result<(), Refusal>
    ensures memory { IsOkUnless result Refusal.Memory }
{
    put(text, "<g class='")?;
    put_kind(text, miss.arrow.kind)?;
    put(text, if miss.lost { "lost'>" } else { "way'>" })?;
    put_frame_title(text, scene, miss.arrow.number)?;
    put_mark(text, miss, place)?;
    put_mark_label(text, miss, place)?;
    let nodes = scene.world.nodes();
    let mut words = Vec::new(scene.alloc);
    put_miss(&mut words, nodes, miss)?;
    put_words(text, words_across(nodes), down, words.as_slice())?;
    put(text, "</g>\n")
}

/// The place of the frame, from 0 on, among those of its row that did not come to the node, where that is the row and the
/// next place of the last one.
fn place_after(last: (u64, u64), row: u64) -> u64 {
    if row == last.0 { last.1 } else { 0 }
}

/// Puts the frames that did not come, below so many rows.
pub(crate) fn put_misses(text: &mut Vec<u8>, scene: &Scene<'_>, rows: u64) -> Result<(), Refusal>
    ensures memory { IsOkUnless result Refusal.Memory }
{
    // By node, the row and the place of its next frame.
    let mut next = [(0u64, 0u64); 256];
    let misses = scene.picture.misses.as_slice();
    for index in 0..misses.len() {
        let miss = &misses[index];
        let node = usize::from(miss.node);
        let row = miss.arrow.sent.row;
        let place = place_after(next[node], row);
        let down = line_at(rows, index as u64 + 1) + 4;
        put_shape(text, scene, down, place, miss)?;
        next[node] = (row, place.min(MARKS) + 1);
    }
    Ok(())
}
