//! The rows of a picture, in two layers: lines, arrows and words; and over them the numbers of nodes, dots, and labels.

ghost use Rattle.std.specs.Prelude.{IsOkUnless};

use crate::pictures::Scene;
use crate::rows::Row;
use crate::svg::arrows::{put_arrow_to, put_label_at};
use crate::svg::layout::{HEADS, LETTERS, column_at, end_of, number_down, row_at, words_across};
use crate::svg::shapes::{put_escaped, put_place, put_point, put_title, put_words};
use crate::words::{put_row_words, put_start};
use cpg_cred::Refusal;
use cpg_text::{push_number, put};

/// Puts the columns of so many nodes, down to the last of so many rows.
pub(crate) fn put_columns(text: &mut Vec<u8>, nodes: u8, rows: u64) -> Result<(), Refusal>
    ensures memory { IsOkUnless result Refusal.Memory }
{
    for before in 0..nodes {
        put(text, "<path d='M")?;
        put_point(text, column_at(before + 1), row_at(0))?;
        put(text, "V")?;
        push_number(text, row_at(rows))?;
        put(text, "'/>\n")?;
    }
    Ok(())
}

/// Puts the line at a place across the columns of so many nodes.
fn put_line(text: &mut Vec<u8>, nodes: u8, place: u64) -> Result<(), Refusal>
    ensures memory { IsOkUnless result Refusal.Memory }
{
    put(text, "<g><path d='M")?;
    put_point(text, column_at(0), row_at(place))?;
    put(text, "H")?;
    push_number(text, end_of(nodes))?;
    put(text, "'/>")
}

/// What there is room for of what a row says.
#[tactic(auto, using(crate::proofs::Cut::front_fits))]
fn cut(words: &[u8]) -> &[u8] {
    if words.len() > LETTERS {
        &words[..LETTERS - 3]
    } else {
        words
    }
}

/// Puts what a row says, right of all columns: cut where there is no room, and then with all of it under the pointer.
fn put_words_of(text: &mut Vec<u8>, nodes: u8, place: u64, words: &[u8]) -> Result<(), Refusal>
    ensures memory { IsOkUnless result Refusal.Memory }
{
    let (across, down) = (words_across(nodes), row_at(place) + 4);
    let front = cut(words);
    if front.len() == words.len() {
        put_words(text, across, down, words)?;
    } else {
        put_title(text, words)?;
        put_place(text, across, down)?;
        put_escaped(text, front)?;
        put(text, "...</text>")?;
    }
    put(text, "</g>\n")
}

/// Puts the lower layer of the line above the first row.
pub(crate) fn put_start_under(text: &mut Vec<u8>, scene: &Scene<'_>) -> Result<(), Refusal>
    ensures memory { IsOkUnless result Refusal.Memory }
{
    let nodes = scene.world.nodes();
    let mut words = Vec::new(scene.alloc);
    put_start(&mut words, scene)?;
    put_line(text, nodes, 0)?;
    put_words_of(text, nodes, 0, words.as_slice())
}

/// Puts the lower layer of a row.
pub(crate) fn put_under(text: &mut Vec<u8>, scene: &Scene<'_>, row: &Row) -> Result<(), Refusal>
    ensures memory { IsOkUnless result Refusal.Memory }
{
    let nodes = scene.world.nodes();
    let mut words = Vec::new(scene.alloc);
    put_row_words(&mut words, scene, row)?;
    put_line(text, nodes, row.spot.place)?;
    put_arrow_to(text, scene, row)?;
    put_words_of(text, nodes, row.spot.place, words.as_slice())
}

/// Puts the numbers of so many nodes above a line, where they stand there: above line 0, and again after so many.
fn put_heads(text: &mut Vec<u8>, nodes: u8, place: u64) -> Result<(), Refusal>
    ensures memory { IsOkUnless result Refusal.Memory }
{
    if place % HEADS != 0 {
        return Ok(());
    }
    put(text, "<g class='head'>")?;
    for before in 0..nodes {
        let node = before + 1;
        put_place(text, column_at(node), number_down(place))?;
        push_number(text, u64::from(node))?;
        put(text, "</text>")?;
    }
    put(text, "</g>")
}

/// Puts the upper layer of the line above the first row.
pub(crate) fn put_start_over(text: &mut Vec<u8>, nodes: u8) -> Result<(), Refusal>
    ensures memory { IsOkUnless result Refusal.Memory }
{
    put_heads(text, nodes, 0)?;
    put(text, "\n")
}

/// Puts the dot of a row at its node: a large one for what acts, a small one for what only looks.
fn put_dot(text: &mut Vec<u8>, row: &Row) -> Result<(), Refusal>
    ensures memory { IsOkUnless result Refusal.Memory }
{
    if row.node == 0 {
        return Ok(());
    }
    put(text, "<circle cx='")?;
    push_number(text, column_at(row.node))?;
    put(text, "' cy='")?;
    push_number(text, row_at(row.spot.place))?;
    put(
        text,
        if row.answer.is_some() {
            "' r='5'/>"
        } else {
            "' r='3'/>"
        },
    )
}

/// Puts the upper layer of a row.
pub(crate) fn put_over(text: &mut Vec<u8>, scene: &Scene<'_>, row: &Row) -> Result<(), Refusal>
    ensures memory { IsOkUnless result Refusal.Memory }
{
    put_heads(text, scene.world.nodes(), row.spot.place)?;
    put_dot(text, row)?;
    put_label_at(text, scene, row)?;
    put(text, "\n")
}
