//! `cpgring draw`: a script is read and checked whole, run over a world, and drawn, as lines or as one SVG.
//!
//! Proved: how it ends, and what each fault leaves; what is drawn is proved of `picture_of`.

ghost use Rattle.std.specs.Prelude.{◌≡◌, ◌≤◌, None, All, length, OnOk, IfErr, IfSome, IsOkUnless};
ghost use Rattle.cpg_step.specs.Commands.{IsWithin};
ghost use Rattle.cpg_step.specs.Scripts.{commands_of_script};
ghost use Rattle.cpg_draw.specs.Drawing.{EndsDrawing, IsDrawn, Leaves};

use crate::excerpts::{Excerpt, cut};
use crate::lines::put_lines;
use crate::pictures::{Scene, picture_of};
use crate::svg::put_svg;
use cpg_cred::Refusal;
use cpg_step::{Command, read_commands};
use cpg_text::{Fault, MOST_BYTES, read_whole, write_whole};
use cpg_world::World;
use std::alloc::Global;
use std::io::{Read, Write};

/// How a picture is written.
#[derive(Debug, Clone, Copy, PartialEq, Eq)]
pub enum Shape {
    /// As lines for a terminal.
    Lines,
    /// As one SVG.
    Svg,
}

/// Runs the commands of a script over the world up to the last of the excerpt, and writes that excerpt's picture of the
/// run.
///
/// The faults come in this order: `Read`, then `BadCommand` with the first bad line, then `Memory`, all with
/// nothing written; and last `Write`, which leaves a front of the picture.
pub fn draw_script<R: Read, W: Write>(
    alloc: Global,
    reader: &mut R,
    writer: &mut W,
    shape: Shape,
    excerpt: Excerpt,
    world: World,
) -> Result<(), Fault>
    ensures ok { OnOk result (IfSome (R.remaining reader.old) (λ script.
        (length script ≤ MOST_BYTES) × IsDrawn (commands_of_script world.settings.nodes script) (W.contents writer.old) (W.contents writer.new))) }
    ensures err { IfErr result (λ fault. IfSome (R.remaining reader.old) (λ script.
        Leaves (commands_of_script world.settings.nodes script) fault.refusal (W.contents writer.old) (W.contents writer.new))) }

    // Nothing is written before the picture is whole, even where the reader tells no bytes.
    ensures ends { IfErr result (λ fault. EndsDrawing fault.refusal (W.contents writer.old) (W.contents writer.new)) }
    ensures whole { IfErr result (λ fault. fault.part ≡ None) }
{
    let script = read_whole(alloc, reader)?;
    let commands = read_commands(alloc, world.nodes(), script.as_slice())?;
    let text = draw_commands(
        alloc,
        shape,
        excerpt,
        world,
        cut(excerpt, commands.as_slice()),
    )?;
    Ok(write_whole(writer, text.as_slice())?)
}

/// The picture of the commands' run over the world, as it is written.
fn draw_commands(
    alloc: Global,
    shape: Shape,
    excerpt: Excerpt,
    mut world: World,
    commands: &[Command],
) -> Result<Vec<u8>, Refusal>
    requires { All (λ command. IsWithin (length world.nodes) command) commands.now }
    ensures memory { IsOkUnless result Refusal.Memory }
{
    let picture = picture_of(alloc, excerpt, &mut world, commands)?;
    let mut text = Vec::new(alloc);
    let scene = Scene {
        alloc,
        excerpt,
        world: &world,
        commands,
        picture: &picture,
    };
    match shape {
        Shape::Lines => put_lines(&mut text, &scene)?,
        Shape::Svg => put_svg(&mut text, &scene)?,
    }
    Ok(text)
}
