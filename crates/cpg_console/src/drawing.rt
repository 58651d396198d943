//! `cpgring draw` and `cpgring step --numbers`: a new world, and what is written of the script that is run over it, once
//! that is whole.
//!
//! Proved: the words of the command line come first, then the settings, then the script. The picture is proved as a value;
//! how it is written is plain code.

ghost use Rattle.std.specs.Prelude.{◌≡◌, ◌≤◌, ◌↔◌, Err, Some, None, length, map, OnOk, IfErr, IfSome};
ghost use Rattle.cpg_step.specs.Scripts.{commands_of_script};
ghost use Rattle.cpg_draw.specs.Drawing.{EndsDrawing};
ghost use Rattle.cpg_console.specs.Runs.{Draws, FailsLate, IsDrawn, LeavesDrawn};
ghost use Rattle.cpg_console.specs.Words.{list_of_words};

use crate::failures::Failure;
use crate::runs::Picture;
use crate::stepping::world_by;
use cpg_draw::{Shape, draw_script};
use cpg_ring::Settings;
use cpg_step::numbers::SteppedWithNumbers;
use cpg_step::run_gathered;
use cpg_text::{Fault, MOST_BYTES};
use cpg_world::World;
use std::alloc::Global;
use std::io::{Read, Write};

/// Draws the script's run over a new world of those settings, whose nodes let in whom the words let in, as that
/// picture.
///
/// A wrong word comes first, then settings out of their ranges, then the faults of the script.
#[tactic(auto, using(crate::proofs::Started::none_late, crate::proofs::Pictured::none_drawn, crate::proofs::Pictured::all_drawn, crate::proofs::Pictured::part_drawn, crate::proofs::Pictured::drawn_late))]
pub fn draw_over_world<R: Read, W: Write>(
    alloc: Global,
    picture: Picture,
    settings: Settings,
    words: &[&str],
    reader: &mut R,
    writer: &mut W,
) -> Result<(), Failure>
    ensures ok { OnOk result (IfSome (R.remaining reader.old) (λ script.
        Draws picture settings (list_of_words (map (λ word. word.now) words.now)) script None (W.contents writer.old) (W.contents writer.new))) }
    ensures err { IfErr result (λ failure. IfSome (R.remaining reader.old) (λ script.
        Draws picture settings (list_of_words (map (λ word. word.now) words.now)) script (Some failure) (W.contents writer.old) (W.contents writer.new))) }
    ensures late { IfErr result (λ failure. FailsLate failure (W.contents writer.old) (W.contents writer.new)) }
    ensures word { (result ≡ Err Failure.BadWord) ↔ (list_of_words (map (λ word. word.now) words.now) ≡ None) }
{
    match world_by(alloc, settings, words) {
        Err(failure) => Err(failure),
        Ok(world) => match draw(alloc, picture, reader, writer, world) {
            Err(fault) => Err(Failure::from(fault)),
            Ok(()) => Ok(()),
        },
    }
}

/// Draws the script's run over the world, as that picture.
#[tactic(auto, using(crate::proofs::Pictured::ends_alike))]
fn draw<R: Read, W: Write>(
    alloc: Global,
    picture: Picture,
    reader: &mut R,
    writer: &mut W,
    world: World,
) -> Result<(), Fault>
    ensures ok { OnOk result (IfSome (R.remaining reader.old) (λ script.
        (length script ≤ MOST_BYTES) × IsDrawn picture (commands_of_script world.settings.nodes script) world (W.contents writer.old) (W.contents writer.new))) }
    ensures err { IfErr result (λ fault. IfSome (R.remaining reader.old) (λ script.
        LeavesDrawn picture (commands_of_script world.settings.nodes script) fault.refusal world (W.contents writer.old) (W.contents writer.new))) }
    ensures ends { IfErr result (λ fault. EndsDrawing fault.refusal (W.contents writer.old) (W.contents writer.new)) }
    ensures whole { IfErr result (λ fault. fault.part ≡ None) }
{
    match picture {
        Picture::Svg(excerpt) => { draw_script(alloc, reader, writer, Shape::Svg, excerpt, world) }
        Picture::Lines(excerpt) => {
            draw_script(alloc, reader, writer, Shape::Lines, excerpt, world)
        }
        Picture::Numbered => run_gathered(alloc, &SteppedWithNumbers, reader, writer, world),
    }
}
