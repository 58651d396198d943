//! What commands are named, and what they are of.
//!
//! Proved: the names and the targets are those of `specs/Targets.antt`.

ghost use Rattle.std.specs.Prelude.{◌≡◌, ◌≤◌, ◌++◌, ℕ, OnOk, IsOkUnless};
ghost use Rattle.cpg_step.specs.Commands.{LooksWithin};
ghost use Rattle.cpg_step.specs.Targets.{command_name, command_target, event_name, event_target, look_name, look_target, node_of_target, target_word};

use crate::commands::{Command, Look};
use cpg_cred::{NodeId, Refusal};
use cpg_text::{push_number, put};
use cpg_world::WorldEvent;

/// What a command is of.
#[derive(Debug, Clone, Copy)]
pub enum Target {
    /// The frame of that number.
    Frame(u64),
    /// A node.
    Node(NodeId),
    /// A connection of a node.
    Connection(NodeId, u16),
}

/// The first word of the event's line.
pub fn event_name(event: &WorldEvent) -> &'static str
    ensures { result.now ≡ event_name event.now }
{
    match event {
        WorldEvent::Connect(_, _, _) => "connect",
        WorldEvent::Submit(_, _, _) => "call",
        WorldEvent::Disconnect(_, _) => "disconnect",
        WorldEvent::Frame(_, _) => "frame",
        WorldEvent::Timer(_) => "timer",
        WorldEvent::Deliver(_) => "deliver",
        WorldEvent::Take(_, _) => "take",
        WorldEvent::List(_, _, _) => "list",
        WorldEvent::Groups(_, _) => "groups",
    }
}

/// The first word of the look's line.
pub fn look_name(look: &Look) -> &'static str
    ensures { result.now ≡ look_name look.now }
{
    match look {
        Look::Show(_) => "show",
        Look::Audit(_) => "audit",
        Look::Rules(_, _) => "rules",
        Look::Safe(_) => "safe",
    }
}

/// The first word of the command's line.
pub fn command_name(command: &Command) -> &'static str
    ensures { result.now ≡ command_name command.now }
{
    match command {
        Command::Act(event) => event_name(event),
        Command::Look(look) => look_name(look),
    }
}

/// What an event is of: the connection that it names, or else the node.
pub fn event_target(event: &WorldEvent) -> Target
    ensures { result ≡ event_target event.now }
{
    match event {
        WorldEvent::Connect(node, _, _) => Target::Node(*node),
        WorldEvent::Submit(node, conn, _) => Target::Connection(*node, *conn),
        WorldEvent::Disconnect(node, conn) => Target::Connection(*node, *conn),
        WorldEvent::Frame(node, _) => Target::Node(*node),
        WorldEvent::Timer(node) => Target::Node(*node),
        WorldEvent::Deliver(node) => Target::Node(*node),
        WorldEvent::Take(node, conn) => Target::Connection(*node, *conn),
        WorldEvent::List(node, conn, _) => Target::Connection(*node, *conn),
        WorldEvent::Groups(node, conn) => Target::Connection(*node, *conn),
    }
}

/// What a look is of: its node is there where that of the look is.
pub fn look_target(look: &Look) -> Target
    ensures target { result ≡ look_target look.now }
    ensures within { (nodes : ℕ) → LooksWithin nodes look.now → node_of_target result ≤ nodes }
{
    match look {
        Look::Show(number) => Target::Frame(*number),
        Look::Audit(node) => Target::Node(*node),
        Look::Rules(node, _) => Target::Node(*node),
        Look::Safe(node) => Target::Node(*node),
    }
}

/// What the command is of.
pub fn command_target(command: &Command) -> Target
    ensures { result ≡ command_target command.now }
{
    match command {
        Command::Act(event) => event_target(event),
        Command::Look(look) => look_target(look),
    }
}

/// Puts the target as it stands before a line.
pub fn put_target(words: &mut Vec<u8>, target: Target) -> Result<(), Refusal>
    ensures ok { OnOk result (words.new.items ≡ words.old.items ++ target_word target) }
    ensures memory { IsOkUnless result Refusal.Memory }
{
    match target {
        Target::Frame(_) => put(words, "-"),
        Target::Node(node) => put_node(words, node),
        Target::Connection(node, conn) => put_connection(words, node, conn),
    }
}

fn put_node(words: &mut Vec<u8>, node: NodeId) -> Result<(), Refusal>
    ensures ok { OnOk result (words.new.items ≡ words.old.items ++ target_word (Target.Node node)) }
    ensures memory { IsOkUnless result Refusal.Memory }
{
    put(words, "n")?;
    push_number(words, u64::from(node.get()))
}

fn put_connection(words: &mut Vec<u8>, node: NodeId, conn: u16) -> Result<(), Refusal>
    ensures ok { OnOk result (words.new.items ≡ words.old.items ++ target_word (Target.Connection node conn)) }
    ensures memory { IsOkUnless result Refusal.Memory }
{
    push_number(words, u64::from(node.get()))?;
    put(words, ".")?;
    push_number(words, u64::from(conn))
}
