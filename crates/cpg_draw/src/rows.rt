//! The rows of a picture: what is shown of each command.
//!
//! Proved: they are those of `specs/Rows.antt`.

ghost use Rattle.std.specs.Prelude.{◌≡◌, ◌≤◌, ◌++◌, ◌||◌, nat_lt, is_some, length, Some, OnOk, IfOk, IsOkUnless};
ghost use Rattle.cpg_ring.specs.Worlds.{item};
ghost use Rattle.cpg_world_laws.specs.Worlds.{node_in};
ghost use Rattle.cpg_step.specs.Commands.{IsWithin, LooksWithin};
ghost use Rattle.cpg_step.specs.declared.commands.Command.TheVariants.{Act, Look as Seen};
ghost use Rattle.cpg_step.specs.Targets.{frame_of_target, node_of_target};
ghost use Rattle.cpg_draw.specs.Excerpts.{if_shown};
ghost use Rattle.cpg_draw.specs.Rows.{brings, look_row, state_of};
ghost use Rattle.cpg_draw.specs.Steps.{IsActed, StandsBefore};

use crate::arrows::{Arrow, find_arrow, note_brought};
use crate::excerpts::{Excerpt, Spot, is_shown, spot_at};
use crate::frames::{push_arrows, seq_at};
use cpg_cred::Refusal;
use cpg_node::Node;
use cpg_step::{Command, Look, Target, answer_to, look_target};
use cpg_world::{Reply, World, WorldEvent};
use std::alloc::Global;

/// What is shown of a node.
#[derive(Debug, Clone, Copy, PartialEq, Eq)]
pub struct State {
    /// How many entries wait there.
    pub waiting: usize,
    /// Its safe mark.
    pub safe: u32,
}

/// What is shown of a command.
#[derive(Debug, Drop)]
pub struct Row {
    /// Its number, and where it is drawn.
    pub spot: Spot,
    /// The node that acts or is looked at, from 1; 0 for none.
    pub node: u8,
    /// The frame that an event brings, or that is looked at.
    pub arrow: Option<Arrow>,
    /// How many frames were sent before it.
    pub sent_before: usize,
    /// How many frames were sent after it.
    pub sent_after: usize,
    /// The node after it.
    pub state: Option<State>,
    /// What an event was answered; none where a command only looks.
    pub answer: Option<Result<Reply, Refusal>>,
}

impl Row {
    /// The arrow that ends in the row.
    pub fn ending(&self) -> Option<Arrow> {
        match self.answer {
            None => None,
            Some(_) => self.arrow,
        }
    }
}

/// The number of the frame that the event brings, 0 where it brings none.
fn brought_by(event: &WorldEvent) -> usize
    ensures { result ≡ brings event.now }
{
    match event {
        WorldEvent::Frame(_, number) => *number,
        _ => 0,
    }
}

fn state_at(node: &Node) -> State
    ensures { Some result ≡ state_of (Some node.now) }
{
    State {
        waiting: node.waiting(),
        safe: node.safe(),
    }
}

/// Does an event. Its row; the arrow that it brings ends there, and those that it sends begin.
fn act(
    alloc: Global,
    arrows: &mut Vec<Arrow>,
    spot: Spot,
    world: &mut World,
    event: &WorldEvent,
) -> Result<Row, Refusal>
    requires { node_in event.now ≤ length world.old.nodes }
    ensures ok { IfOk result (λ row. IsActed spot arrows.old.items world.old event.now row arrows.new.items world.new) }
    ensures memory { IsOkUnless result Refusal.Memory }
{
    let number = brought_by(event);
    let node = event.node();
    let arrow = find_arrow(arrows.as_slice(), number);
    let seq = seq_at(alloc, world, number)?;
    let sent_before = world.sent();
    let answer = answer_to(alloc, world, event)?;
    note_brought(arrows, number, node.get());
    push_arrows(alloc, arrows, world, (spot, node.get(), seq), sent_before)?;
    Ok(Row {
        spot,
        node: node.get(),
        arrow,
        sent_before,
        sent_after: world.sent(),
        state: Some(state_at(world.node(node))),
        answer: Some(answer),
    })
}

/// Whether an arrow ends in the row, or some begin there.
fn moves(row: &Row) -> bool
    ensures { result ≡ (is_some row.now.arrow || nat_lt row.now.sent_before row.now.sent_after) }
{
    row.arrow.is_some() || row.sent_before < row.sent_after
}

/// The node of the target, from 1; 0 where it is a frame.
fn node_of(target: &Target) -> u8
    ensures { result ≡ node_of_target target.now }
{
    match target {
        Target::Frame(_) => 0,
        Target::Node(node) | Target::Connection(node, _) => node.get(),
    }
}

/// The number of the frame that the target is; 0 where it is none.
fn frame_of(target: &Target) -> u64
    ensures { result ≡ frame_of_target target.now }
{
    match target {
        Target::Frame(number) => *number,
        _ => 0,
    }
}

/// The node of the target, as it is.
fn state_seen(world: &World, target: &Target) -> Option<State>
    requires { node_of_target target.now ≤ length world.now.nodes }
    ensures { result ≡ state_of (item world.now.nodes (node_of_target target.now)) }
{
    match target {
        Target::Frame(_) => None,
        Target::Node(node) | Target::Connection(node, _) => Some(state_at(world.node(*node))),
    }
}

/// The row of a command that only looks.
fn look_row(arrows: &[Arrow], spot: Spot, world: &World, look: &Look) -> Row
    requires { LooksWithin (length world.now.nodes) look.now }
    ensures { result ≡ look_row spot arrows.now world.now look.now }
{
    let target = look_target(look);
    Row {
        spot,
        node: node_of(&target),
        arrow: find_arrow(arrows, frame_of(&target) as usize),
        sent_before: world.sent(),
        sent_after: world.sent(),
        state: state_seen(world, &target),
        answer: None,
    }
}

/// Puts the row after the others, where it is shown.
fn push_shown(rows: &mut Vec<Row>, here: bool, row: Row) -> Result<(), Refusal>
    ensures ok { OnOk result (rows.new.items ≡ rows.old.items ++ if_shown here row) }
    ensures memory { IsOkUnless result Refusal.Memory }
{
    if here {
        rows.push(row)?;
    }
    Ok(())
}

/// Does an event, and puts its row, where that is shown, and says whether it is.
#[tactic(auto, using(crate::proofs::Drawn::act_goes_on, crate::proofs::Drawn::as_many_acted))]
fn draw_act(
    alloc: Global,
    rows: &mut Vec<Row>,
    arrows: &mut Vec<Arrow>,
    from: (Excerpt, Spot),
    world: &mut World,
    event: &WorldEvent,
) -> Result<bool, Refusal>
    requires { node_in event.now ≤ length world.old.nodes }
    ensures ok { IfOk result (λ here. StandsBefore from.0 from.1 arrows.old.items world.old (Act event.now) rows.old.items here arrows.new.items world.new rows.new.items) }
    ensures nodes { OnOk result (length world.new.nodes ≡ length world.old.nodes) }
    ensures memory { IsOkUnless result Refusal.Memory }
{
    let (excerpt, next) = from;
    let row = act(alloc, arrows, spot_at(excerpt, next), world, event)?;
    let here = is_shown(excerpt, next.row, moves(&row));
    push_shown(rows, here, row)?;
    Ok(here)
}

/// Puts the row of a command that only looks, where that is shown, and says whether it is.
#[tactic(auto, using(crate::proofs::Drawn::look_goes_on))]
fn draw_look(
    rows: &mut Vec<Row>,
    arrows: &[Arrow],
    from: (Excerpt, Spot),
    world: &World,
    look: &Look,
) -> Result<bool, Refusal>
    requires { LooksWithin (length world.now.nodes) look.now }
    ensures ok { IfOk result (λ here. StandsBefore from.0 from.1 arrows.now world.now (Seen look.now) rows.old.items here arrows.now world.now rows.new.items) }
    ensures memory { IsOkUnless result Refusal.Memory }
{
    let (excerpt, next) = from;
    let row = look_row(arrows, spot_at(excerpt, next), world, look);
    let here = is_shown(excerpt, next.row, false);
    push_shown(rows, here, row)?;
    Ok(here)
}

/// Does a command, and puts its row, where that is shown, and says whether it is. The row is the next of an excerpt, and
/// its line the next free one.
pub(crate) fn draw_command(
    alloc: Global,
    rows: &mut Vec<Row>,
    arrows: &mut Vec<Arrow>,
    from: (Excerpt, Spot),
    world: &mut World,
    command: &Command,
) -> Result<bool, Refusal>
    requires { IsWithin (length world.old.nodes) command.now }
    ensures ok { IfOk result (λ here. StandsBefore from.0 from.1 arrows.old.items world.old command.now rows.old.items here arrows.new.items world.new rows.new.items) }
    ensures nodes { OnOk result (length world.new.nodes ≡ length world.old.nodes) }
    ensures memory { IsOkUnless result Refusal.Memory }
{
    match command {
        Command::Act(event) => draw_act(alloc, rows, arrows, from, world, event),
        Command::Look(look) => draw_look(rows, arrows.as_slice(), from, world, look),
    }
}
