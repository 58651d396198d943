//! The pieces that pictures are made of.

ghost use Rattle.std.specs.Prelude.{◌<◌, ◌^◌, IsOkUnless};

use crate::frames::frame_at;
use crate::pictures::Scene;
use crate::svg::layout::{line_at, width};
use cpg_cred::Refusal;
use cpg_step::put_frame;
use cpg_text::{push_number, put, put_byte};

/// Puts the beginning of a picture of so many rows, with a line below them for each frame that did not come.
pub(crate) fn put_opening(text: &mut Vec<u8>, scene: &Scene<'_>, rows: u64) -> Result<(), Refusal>
    ensures memory { IsOkUnless result Refusal.Memory }
{
    let lines = scene.picture.misses.len() as u64;
    let (width, height) = (
        width(scene.world.nodes()),
        line_at(rows, lines.saturating_add(1)),
    );
    put(
        text,
        "<svg xmlns='http://www.w3.org/2000/svg' viewBox='0 0 ",
    )?;
    put_point(text, width, height)?;
    put(text, "' width='")?;
    push_number(text, width)?;
    put(text, "' height='")?;
    push_number(text, height)?;
    put(text, "'>\n")
}

/// Puts the words, as they stand in XML; a line's end stays out.
pub(crate) fn put_escaped(text: &mut Vec<u8>, words: &[u8]) -> Result<(), Refusal>
    ensures memory { IsOkUnless result Refusal.Memory }
{
    for byte in words {
        match *byte {
            b'&' => put(text, "&amp;")?,
            b'<' => put(text, "&lt;")?,
            b'>' => put(text, "&gt;")?,
            b'\n' => {}
            byte => put_byte(text, byte)?,
        }
    }
    Ok(())
}

/// Puts a point of a path.
pub(crate) fn put_point(text: &mut Vec<u8>, x: u64, y: u64) -> Result<(), Refusal>
    ensures memory { IsOkUnless result Refusal.Memory }
{
    push_number(text, x)?;
    put(text, " ")?;
    push_number(text, y)
}

/// Puts what stands before the words of a text at a point.
pub(crate) fn put_place(text: &mut Vec<u8>, x: u64, y: u64) -> Result<(), Refusal>
    ensures memory { IsOkUnless result Refusal.Memory }
{
    put(text, "<text x='")?;
    push_number(text, x)?;
    put(text, "' y='")?;
    push_number(text, y)?;
    put(text, "'>")
}

/// Puts words at a point.
pub(crate) fn put_words(text: &mut Vec<u8>, x: u64, y: u64, words: &[u8]) -> Result<(), Refusal>
    ensures memory { IsOkUnless result Refusal.Memory }
{
    put_place(text, x, y)?;
    put_escaped(text, words)?;
    put(text, "</text>")
}

/// Puts what is shown under the pointer: the words.
pub(crate) fn put_title(text: &mut Vec<u8>, words: &[u8]) -> Result<(), Refusal>
    ensures memory { IsOkUnless result Refusal.Memory }
{
    put(text, "<title>")?;
    put_escaped(text, words)?;
    put(text, "</title>")
}

/// The same: the frame of that number, as `show` prints it.
pub(crate) fn put_frame_title(
    text: &mut Vec<u8>,
    scene: &Scene<'_>,
    number: u64,
) -> Result<(), Refusal>
    ensures memory { IsOkUnless result Refusal.Memory }
{
    let Some(frame) = frame_at(scene.alloc, scene.world, number as usize)? else {
        return Ok(());
    };
    let mut line = Vec::new(scene.alloc);
    put_frame(&mut line, &frame)?;
    put_title(text, line.as_slice())
}
