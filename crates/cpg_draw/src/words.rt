//! What is said of rows and of arrows.

ghost use Rattle.std.specs.Prelude.{IsOkUnless};

use crate::arrows::{Arrow, ArrowKind, find_arrow};
use crate::entries::{put_carried, put_told};
use crate::excerpts::reaches;
use crate::misses::{Miss, holds_token};
use crate::pictures::Scene;
use crate::rows::Row;
use cpg_cred::{NodeId, Refusal};
use cpg_print::put_call;
use cpg_step::{Command, Target, command_name, command_target};
use cpg_text::{push_number, put};
use cpg_world::WorldEvent;

/// Puts what an arrow stands for.
pub(crate) fn put_kind(line: &mut Vec<u8>, kind: ArrowKind) -> Result<(), Refusal>
    ensures memory { IsOkUnless result Refusal.Memory }
{
    put(
        line,
        match kind {
            ArrowKind::Data => "data ",
            ArrowKind::Again => "again ",
            ArrowKind::Token => "token ",
        },
    )
}

/// Puts what the arrow stands for, with its place or its hop.
pub(crate) fn put_arrow(line: &mut Vec<u8>, arrow: &Arrow) -> Result<(), Refusal>
    ensures memory { IsOkUnless result Refusal.Memory }
{
    put_kind(line, arrow.kind)?;
    push_number(line, arrow.mark)
}

/// Puts what the frame is that a row brings or shows, the row that sent it, and the entry that it carries.
fn put_brought(line: &mut Vec<u8>, scene: &Scene<'_>, arrow: Option<Arrow>) -> Result<(), Refusal>
    ensures memory { IsOkUnless result Refusal.Memory }
{
    let Some(arrow) = arrow else {
        return Ok(());
    };
    put(line, ", ")?;
    put_arrow(line, &arrow)?;
    put(line, " of row ")?;
    push_number(line, arrow.sent.row)?;
    put_carried(line, scene, arrow.number)
}

/// Puts the frames behind the first so many up to so many: the number of each, what it is, and the entry that it
/// carries.
fn put_sent(
    line: &mut Vec<u8>,
    scene: &Scene<'_>,
    before: usize,
    after: usize,
) -> Result<(), Refusal>
    ensures memory { IsOkUnless result Refusal.Memory }
{
    for number in before..after {
        if let Some(arrow) = find_arrow(scene.picture.arrows.as_slice(), number + 1) {
            put(line, ", sends ")?;
            push_number(line, arrow.number)?;
            put(line, " ")?;
            put_arrow(line, &arrow)?;
            put_carried(line, scene, arrow.number)?;
        }
    }
    Ok(())
}

/// Puts what the line above the first row says: what was sent before the script, or which rows are not shown.
pub(crate) fn put_start(line: &mut Vec<u8>, scene: &Scene<'_>) -> Result<(), Refusal>
    ensures memory { IsOkUnless result Refusal.Memory }
{
    if reaches(scene.excerpt, 0) {
        put(line, "0 start")?;
        put_sent(line, scene, 0, scene.picture.before)
    } else {
        put(line, "rows before ")?;
        push_number(line, scene.excerpt.first)
    }
}

fn put_number(line: &mut Vec<u8>, number: u64) -> Result<(), Refusal>
    ensures memory { IsOkUnless result Refusal.Memory }
{
    put(line, " ")?;
    push_number(line, number)
}

/// Puts the number of the connection or the frame that a command is of. The column tells its node.
fn put_target(line: &mut Vec<u8>, target: Target) -> Result<(), Refusal>
    ensures memory { IsOkUnless result Refusal.Memory }
{
    match target {
        Target::Frame(number) => put_number(line, number),
        Target::Node(_) => Ok(()),
        Target::Connection(_, conn) => put_number(line, u64::from(conn)),
    }
}

/// Puts a command, as a row names it: a call with what is called, and a frame's arrival with its number.
fn put_command(line: &mut Vec<u8>, command: &Command) -> Result<(), Refusal>
    ensures memory { IsOkUnless result Refusal.Memory }
{
    put(line, command_name(command))?;
    put_target(line, command_target(command))?;
    match command {
        Command::Act(WorldEvent::Submit(_, _, call)) => put_call(line, call),
        Command::Act(WorldEvent::Frame(_, number)) => put_number(line, *number as u64),
        _ => Ok(()),
    }
}

/// Puts what the row of one of the commands says: the command, the frames that it brings and sends, its node then, and
/// its answer with a line's end, where it has one.
pub(crate) fn put_row_words(line: &mut Vec<u8>, scene: &Scene<'_>, row: &Row) -> Result<(), Refusal>
    ensures memory { IsOkUnless result Refusal.Memory }
{
    put(line, "  ")?;
    push_number(line, row.spot.row)?;
    put(line, " ")?;
    if let Some(command) = scene
        .commands
        .get((row.spot.row as usize).saturating_sub(1))
    {
        put_command(line, command)?;
    }
    put_brought(line, scene, row.arrow)?;
    put_sent(line, scene, row.sent_before, row.sent_after)?;
    if let Some(state) = row.state {
        put(line, ", waiting ")?;
        push_number(line, state.waiting as u64)?;
        put(line, ", safe ")?;
        push_number(line, u64::from(state.safe))?;
    }
    put_answer(line, scene, row)
}

/// Puts the answer of an event.
fn put_answer(line: &mut Vec<u8>, scene: &Scene<'_>, row: &Row) -> Result<(), Refusal>
    ensures memory { IsOkUnless result Refusal.Memory }
{
    let Some(answer) = &row.answer else {
        return Ok(());
    };
    let (alloc, world) = (scene.alloc, scene.world);
    put(line, ": ")?;
    match NodeId::new(row.node) {
        Some(node) if node.get() <= world.nodes() => {
            put_told(alloc, line, world.node(node).audit(), answer)
        }
        _ => put_told(alloc, line, &[], answer),
    }
}

/// Puts the line of a frame that did not come to one of so many nodes.
pub(crate) fn put_miss(line: &mut Vec<u8>, nodes: u8, miss: &Miss) -> Result<(), Refusal>
    ensures memory { IsOkUnless result Refusal.Memory }
{
    put(line, if miss.lost { "lost " } else { "under way " })?;
    push_number(line, miss.arrow.number)?;
    put(line, " ")?;
    put_arrow(line, &miss.arrow)?;
    put(line, " of row ")?;
    push_number(line, miss.arrow.sent.row)?;
    // Where there are two nodes, or it is the token, it goes to one alone.
    if !holds_token(miss.arrow.kind) && nodes > 2 {
        put(line, " for node ")?;
        push_number(line, u64::from(miss.node))?;
    }
    put(line, "\n")
}
