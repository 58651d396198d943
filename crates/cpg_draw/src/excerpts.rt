//! Which rows of a picture are shown, and on which lines they stand.
//!
//! Proved: the definitions of `specs/Excerpts.antt`.

ghost use Rattle.std.specs.Prelude.{◌≡◌, ◌<◌, ◌≤◌, ◌^◌, ◌++◌, ℕ, All, take, OnOk, IfOk, IsOkUnless};
ghost use Rattle.cpg_step.specs.Commands.{IsWithin};
ghost use Rattle.cpg_draw.specs.Excerpts.{after_row, is_below, is_shown, miss_kept, misses_kept, shown_misses, spot_of, start, first_spot};

use crate::arrows::Arrow;
use crate::misses::{Miss, find_misses};
use cpg_cred::Refusal;
use cpg_step::Command;
use std::alloc::Global;

/// Which rows of a picture are shown: those of some commands of the script, counted from 1.
#[derive(Debug, Clone, Copy, PartialEq, Eq)]
pub struct Excerpt {
    /// The first command that has a row.
    pub first: u64,
    /// The last one; the picture is that of the script up to it.
    pub last: u64,
    /// Whether rows that neither bring a frame nor send one are folded away.
    pub frames: bool,
}

/// A row, and where it is drawn.
#[derive(Debug, Clone, Copy, PartialEq, Eq)]
pub struct Spot {
    /// The row's command, from 1; 0 before the script.
    pub row: u64,
    /// Its line among those that are shown, from 1; 0 for what lies above them.
    pub place: u64,
}

/// What lies before the script.
pub(crate) fn before_script() -> Spot
    ensures { result ≡ start }
{
    Spot { row: 0, place: 0 }
}

/// The row of the first command, and the first line.
pub(crate) fn first_spot() -> Spot
    ensures { result ≡ first_spot }
{
    Spot { row: 1, place: 1 }
}

/// The commands up to the last that has a row.
#[tactic(auto, using(crate::proofs::Front::cut_within, crate::proofs::Front::cut_whole))]
pub(crate) fn cut(excerpt: Excerpt, commands: &[Command]) -> &[Command]
    ensures front { result.now ≡ take excerpt.last commands.now }
    ensures within { (nodes : ℕ) → All (λ command. IsWithin nodes command) commands.now → All (λ command. IsWithin nodes command) result.now }
{
    if excerpt.last < commands.len() as u64 {
        &commands[..excerpt.last as usize]
    } else {
        commands
    }
}

/// Whether a row is not above the first that is shown.
pub(crate) fn reaches(excerpt: Excerpt, row: u64) -> bool
    ensures { result ≡ is_below excerpt row }
{
    excerpt.first <= row.max(1)
}

/// Whether a row is shown, which moves frames or does not.
pub(crate) fn is_shown(excerpt: Excerpt, row: u64, moves: bool) -> bool
    ensures { result ≡ is_shown excerpt row moves }
{
    reaches(excerpt, row) && (!excerpt.frames || moves)
}

/// Where a row is drawn, where that is the next free line.
pub(crate) fn spot_at(excerpt: Excerpt, next: Spot) -> Spot
    ensures { result ≡ spot_of excerpt next }
{
    let place = if reaches(excerpt, next.row) {
        next.place
    } else {
        0
    };
    Spot {
        row: next.row,
        place,
    }
}

/// The next row, and its line, after one that is shown or is not.
pub(crate) fn after(next: Spot, here: bool) -> Spot
    requires more { next.row < 2 ^ 63 }
    requires some { 0 < next.place }
    requires few { next.place ≤ next.row }
    ensures value { result ≡ after_row here next }
    ensures line { 0 < result.place }
    ensures order { result.place ≤ result.row }
{
    let place = if here { next.place + 1 } else { next.place };
    Spot {
        row: next.row + 1,
        place,
    }
}

/// Puts the frame that did not come after the others, where the row that sent it is shown.
fn push_kept(kept: &mut Vec<Miss>, excerpt: Excerpt, miss: &Miss) -> Result<(), Refusal>
    ensures ok { OnOk result (kept.new.items ≡ kept.old.items ++ miss_kept excerpt miss.now) }
    ensures memory { IsOkUnless result Refusal.Memory }
{
    if reaches(excerpt, miss.arrow.sent.row) {
        kept.push(*miss)?;
    }
    Ok(())
}

/// Those that rows sent which are shown.
fn keep(alloc: Global, excerpt: Excerpt, misses: &[Miss]) -> Result<Vec<Miss>, Refusal>
    ensures ok { IfOk result (λ kept. kept.items ≡ misses_kept excerpt misses.now) }
    ensures memory { IsOkUnless result Refusal.Memory }
{
    let mut kept = Vec::new(alloc);
    for miss in misses {
        push_kept(&mut kept, excerpt, miss)?;
    }
    Ok(kept)
}

/// All that rows that are shown sent and that did not come to nodes that they went to, frame by frame.
pub(crate) fn find_shown(
    alloc: Global,
    excerpt: Excerpt,
    nodes: u8,
    arrows: &[Arrow],
) -> Result<Vec<Miss>, Refusal>
    ensures ok { IfOk result (λ misses. misses.items ≡ shown_misses excerpt nodes arrows.now) }
    ensures memory { IsOkUnless result Refusal.Memory }
{
    let misses = find_misses(alloc, nodes, arrows)?;
    keep(alloc, excerpt, misses.as_slice())
}
