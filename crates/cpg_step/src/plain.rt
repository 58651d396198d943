//! Commands of a schedule that are written as they are printed, one space between words, and read with no search for
//! words: most lines of a schedule are such.
//!
//! Proved: what is read of such a line is its command by the definition for its words. A line of which nothing is read
//! here may say a command all the same.

ghost use Rattle.std.specs.Prelude.{◌≡◌, ◌∷◌, Some, IfSome, codes};
ghost use Rattle.cpg_text.specs.Lines.{words_of};
ghost use Rattle.cpg_step.specs.Commands.{command_of, IsWithin};
ghost use Rattle.cpg_step.specs.Plain.{plain_command};

use crate::commands::Command;
use crate::numbered::{at_of_numbers, last_numbers, node_of_number};
use cpg_cred::NodeId;
use cpg_world::WorldEvent;

/// A command that brings no memory along.
#[derive(Debug, Clone, Copy, PartialEq, Eq)]
pub(crate) enum Plain {
    Deliver(NodeId),
    Frame(NodeId, u32),
    Take(NodeId, u16),
}

impl Plain {
    /// The command.
    #[inline(always)]
    pub(crate) fn command(self) -> Command
        ensures { result ≡ plain_command self }
    {
        match self {
            Plain::Deliver(node) => Command::Act(WorldEvent::Deliver(node)),
            Plain::Frame(node, number) => Command::Act(WorldEvent::Frame(node, number as usize)),
            Plain::Take(node, conn) => Command::Act(WorldEvent::Take(node, conn)),
        }
    }
}

/// `deliver NODE`, by the word.
#[inline(always)]
#[tactic(auto, using(crate::proofs::LastNumbers::plain_deliver))]
fn read_deliver(nodes: u8, rest: &[u8]) -> Option<Plain>
    ensures command { IfSome result (λ plain. command_of nodes (codes "deliver" ∷ words_of rest.now) ≡ Some (plain_command plain)) }
    ensures within { IfSome result (λ plain. IsWithin nodes (plain_command plain)) }
{
    match rest {
        [digit] if digit.is_ascii_digit() => {
            let node = node_of_number(nodes, u32::from(*digit - b'0'))?;
            Some(Plain::Deliver(node))
        }
        _ => None,
    }
}

/// `frame NODE K`, by the words.
#[inline(always)]
#[tactic(auto, using(crate::proofs::LastNumbers::plain_frame))]
fn read_frame(nodes: u8, rest: &[u8]) -> Option<Plain>
    ensures command { IfSome result (λ plain. command_of nodes (codes "frame" ∷ words_of rest.now) ≡ Some (plain_command plain)) }
    ensures within { IfSome result (λ plain. IsWithin nodes (plain_command plain)) }
{
    let (node, number) = last_numbers(rest)?;
    let node = node_of_number(nodes, node)?;
    Some(Plain::Frame(node, number))
}

/// `take NODE CONN`, by the words.
#[inline(always)]
#[tactic(auto, using(crate::proofs::LastNumbers::plain_take))]
fn read_take(nodes: u8, rest: &[u8]) -> Option<Plain>
    ensures command { IfSome result (λ plain. command_of nodes (codes "take" ∷ words_of rest.now) ≡ Some (plain_command plain)) }
    ensures within { IfSome result (λ plain. IsWithin nodes (plain_command plain)) }
{
    let (node, conn) = last_numbers(rest)?;
    let (node, conn) = at_of_numbers(nodes, node, conn)?;
    Some(Plain::Take(node, conn))
}

/// The command of the line, in a ring of so many nodes, if it is written so.
#[inline(always)]
pub(crate) fn read_plain(nodes: u8, line: &[u8]) -> Option<Plain>
    ensures command { IfSome result (λ plain. command_of nodes (words_of line.now) ≡ Some (plain_command plain)) }
    ensures within { IfSome result (λ plain. IsWithin nodes (plain_command plain)) }
{
    match line {
        [b'f', b'r', b'a', b'm', b'e', b' ', rest @ ..] => read_frame(nodes, rest),
        [b't', b'a', b'k', b'e', b' ', rest @ ..] => read_take(nodes, rest),
        [b'd', b'e', b'l', b'i', b'v', b'e', b'r', b' ', rest @ ..] => read_deliver(nodes, rest),
        _ => None,
    }
}
