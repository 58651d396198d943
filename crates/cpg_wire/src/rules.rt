//! Reading access rules.
//!
//! In version 1 a rule has one condition or 'any'; in version 2 a count and then the conditions, in the
//! order uid, gid, node. Proved: each function reads what its definition in `specs/Reading.antt` does.

ghost use Rattle.std.specs.Prelude.{◌≤◌, IfSome};
ghost use Rattle.cpg_entry.specs.Widths.{most_u32};
ghost use Rattle.cpg_wire.specs.Reading.{Reads, condition_at, conditions_at, value_at, single_at, who_at, rule_at};
ghost use Rattle.cpg_wire.specs.declared.codes.Subject.TheVariants.{Node};

use crate::codes::{Subject, Version, read_effect, read_right};
use crate::fields::read_wide_node;
use crate::input::Input;
use cpg_cred::MOST_NODES;
use cpg_entry::{NodeId, Rule, Who};

#[tactic(auto, unfolding(crate::specs::Reading::rule_at))]
pub fn read_rule(input: &mut Input<'_>, version: Version) -> Option<Rule>
    ensures { Reads result input.new (rule_at version input.old) }
{
    let effect = read_effect(input.byte()?)?;
    let right = read_right(input.byte()?)?;
    let who = read_who(input, version)?;
    Some(Rule { effect, right, who })
}

fn read_who(input: &mut Input<'_>, version: Version) -> Option<Who>
    ensures { Reads result input.new (who_at version input.old) }
{
    match version {
        Version::One => read_single(input),
        Version::Two => read_conditions(input),
    }
}

#[tactic(auto, unfolding(crate::specs::Reading::single_at))]
fn read_single(input: &mut Input<'_>) -> Option<Who>
    ensures { Reads result input.new (single_at input.old) }
{
    let subject = Subject::of(input.byte()?)?;
    read_value(input, subject)
}

#[tactic(auto, unfolding(crate::specs::Reading::value_at))]
fn read_value(input: &mut Input<'_>, subject: Subject) -> Option<Who>
    ensures { Reads result input.new (value_at subject input.old) }
{
    match subject {
        Subject::Any => {
            input.u32_within(0, 0)?;
            Some(Who::any())
        }
        Subject::Uid => Some(Who::uid(input.u32()?)),
        Subject::Gid => Some(Who::gid(input.u32()?)),
        Subject::Node => Some(Who::node(read_wide_node(input)?)),
    }
}

#[tactic(auto, unfolding(crate::specs::Reading::conditions_at))]
fn read_conditions(input: &mut Input<'_>) -> Option<Who>
    ensures { Reads result input.new (conditions_at input.old) }
{
    let count = input.u8_within(0, 3)?;
    let (uid, left) = read_condition(input, Subject::Uid, 0, u32::MAX, count)?;
    let (gid, left) = read_condition(input, Subject::Gid, 0, u32::MAX, left)?;
    let (node, left) = read_node_condition(input, left)?;
    if left == 0 {
        Some(Who { uid, gid, node })
    } else {
        None
    }
}

/// The condition on that subject where it comes next and one is left to come, and how many are left then.
#[tactic(auto, unfolding(crate::specs::Reading::condition_at))]
fn read_condition(
    input: &mut Input<'_>,
    subject: Subject,
    low: u32,
    high: u32,
    left: u8,
) -> Option<(Option<u32>, u8)>
    ensures reads { Reads result input.new (condition_at subject low high left input.old) }
    ensures range { IfSome result (λ found. IfSome found.0 (λ value. (low ≤ value) × (value ≤ high))) }
{
    if left == 0 {
        return Some((None, 0));
    }
    if input.passes(subject.byte())? {
        let value = input.u32_within(low, high)?;
        Some((Some(value), left - 1))
    } else {
        Some((None, left))
    }
}

fn read_node_condition(input: &mut Input<'_>, left: u8) -> Option<(Option<NodeId>, u8)>
    ensures { Reads result input.new (condition_at Node 1 MOST_NODES left input.old) }
{
    let (value, left) = read_condition(input, Subject::Node, 1, u32::from(MOST_NODES), left)?;
    match value {
        None => Some((None, left)),
        Some(number) => Some((NodeId::new(number as u8), left)),
    }
}
