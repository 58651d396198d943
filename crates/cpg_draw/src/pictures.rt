//! The picture of a script's run, as values: what is drawn, before it is letters or shapes.
//!
//! Proved: it is that of `specs/Rows.antt`.

ghost use Rattle.std.specs.Prelude.{◌≡◌, ◌≤◌, [], All, length, OnOk, IfOk, IsOkUnless};
ghost use Rattle.cpg_step.specs.Commands.{IsWithin};
ghost use Rattle.cpg_draw.specs.Excerpts.{first_spot};
ghost use Rattle.cpg_draw.specs.Rows.{IsPicture};
ghost use Rattle.cpg_draw.specs.Steps.{AreRows};

use crate::arrows::Arrow;
use crate::excerpts::{Excerpt, after, before_script, find_shown, first_spot};
use crate::frames::push_arrows;
use crate::misses::Miss;
use crate::rows::{Row, draw_command};
use cpg_cred::Refusal;
use cpg_step::Command;
use cpg_world::World;
use std::alloc::Global;

/// What is drawn of a script's run.
#[derive(Debug, Drop)]
pub struct Picture {
    /// How many frames were sent before the script.
    pub before: usize,
    /// The rows that are shown.
    pub rows: Vec<Row>,
    /// All frames that were sent.
    pub arrows: Vec<Arrow>,
    /// Those that shown rows sent and that did not come to a node that they went to, frame by frame.
    pub misses: Vec<Miss>,
}

/// What is drawn: the picture of an excerpt of a run, with its commands, and the world after them.
#[derive(Clone, Copy)]
pub(crate) struct Scene<'a> {
    pub alloc: Global,
    pub excerpt: Excerpt,
    pub world: &'a World,
    pub commands: &'a [Command],
    pub picture: &'a Picture,
}

/// Runs the commands over the world. The picture of an excerpt of their run. `Memory` is the only error.
#[tactic(auto, using(crate::proofs::Drawn::picture_drawn))]
pub fn picture_of(
    alloc: Global,
    excerpt: Excerpt,
    world: &mut World,
    commands: &[Command],
) -> Result<Picture, Refusal>
    requires { All (λ command. IsWithin (length world.old.nodes) command) commands.now }
    ensures ok { IfOk result (λ picture. IsPicture excerpt world.old commands.now picture world.new) }
    ensures memory { IsOkUnless result Refusal.Memory }
{
    let before = world.sent();
    let mut rows = Vec::new(alloc);
    let mut arrows = Vec::new(alloc);
    push_arrows(alloc, &mut arrows, world, (before_script(), 0, 0), 0)?;
    draw_rows(alloc, &mut rows, &mut arrows, excerpt, world, commands)?;
    let misses = find_shown(alloc, excerpt, world.nodes(), arrows.as_slice())?;
    Ok(Picture {
        before,
        rows,
        arrows,
        misses,
    })
}

/// Does the commands one after the other, and puts the rows that are shown.
fn draw_rows(
    alloc: Global,
    rows: &mut Vec<Row>,
    arrows: &mut Vec<Arrow>,
    excerpt: Excerpt,
    world: &mut World,
    commands: &[Command],
) -> Result<(), Refusal>
    requires { All (λ command. IsWithin (length world.old.nodes) command) commands.now }
    ensures ok { OnOk result (AreRows excerpt first_spot arrows.old.items world.old commands.now rows.old.items arrows.new.items world.new rows.new.items) }
    ensures nodes { OnOk result (length world.new.nodes ≡ length world.old.nodes) }
    ensures memory { IsOkUnless result Refusal.Memory }
{
    let mut next = first_spot();
    for command in commands {
        let here = draw_command(alloc, rows, arrows, (excerpt, next), world, command)?;
        next = after(next, here);
    }
    Ok(())
}
