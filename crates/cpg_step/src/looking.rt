//! Commands that only look, told in a form of lines.
//!
//! Proved: what is put at the lines' end is the definition `told_by` of the form and of the world as it is.

ghost use Rattle.std.specs.Prelude.{◌≡◌, ◌≤◌, ◌++◌, length, map, Some, IsSome, IfOk, OnOk, IsOkUnless, slice_get};
ghost use Rattle.std.specs.List.{concat};
ghost use Rattle.cpg_record.specs.Judging.{most_places};
ghost use Rattle.cpg_record.specs.RuleTables.{rules_of};
ghost use Rattle.cpg_wire.specs.Reading.{frame_of};
ghost use Rattle.cpg_ring.specs.Worlds.{item};
ghost use Rattle.cpg_node.specs.Nodes.{records_of};
ghost use Rattle.cpg_step.specs.Commands.{LooksWithin};
ghost use Rattle.cpg_step.specs.Lines.{look_lines};
ghost use Rattle.cpg_step.specs.Looks.{audit_by, frame_by, numbered, past_by, rule_by, table_by, told_by};
ghost use Rattle.cpg_step.specs.Steps.{line_of};

use crate::commands::Look;
use crate::forms::SteppedAsText;
use crate::printing::{put_frame, put_rule_count, put_rule_line};
use cpg_cred::Refusal;
use cpg_entry::Frame;
use cpg_node::Node;
use cpg_print::{put_audit, put_count, put_refused_line, put_safe_line};
use cpg_record::Record;
use cpg_rules::{Rule, Table};
use cpg_wire::decode;
use cpg_world::World;
use std::alloc::Global;

/// A form in which it is told what is looked at, a line each.
pub trait TellsLooks {
    ghost use Rattle.std.specs.Prelude.{◌≡◌, ◌++◌, Some, None, OnOk, IsOkUnless};
    ghost use Rattle.cpg_step.specs.Looks.{LookForm, frame_by, past_by, records_by, rule_by, rules_by, safe_by};

    // The form.
    ghost form: { Self → LookForm };

    /// Puts the line of a frame that was sent at the lines' end.
    fn put_frame(&self, line: &mut Vec<u8>, frame: &Frame) -> Result<(), Refusal>
        ensures ok { OnOk result (line.new.items ≡ line.old.items ++ frame_by (form self.now) (Some frame.now)) }
        ensures memory { IsOkUnless result Refusal.Memory };

    /// Puts the line that no frame has that number at the lines' end.
    fn put_no_frame(&self, alloc: Global, line: &mut Vec<u8>) -> Result<(), Refusal>
        ensures ok { OnOk result (line.new.items ≡ line.old.items ++ frame_by (form self.now) None) }
        ensures memory { IsOkUnless result Refusal.Memory };

    /// Puts the line of the record at that place at the lines' end.
    fn put_record(&self, line: &mut Vec<u8>, place: u32, past: &Record) -> Result<(), Refusal>
        ensures ok { OnOk result (line.new.items ≡ line.old.items ++ past_by (form self.now) place past.now) }
        ensures memory { IsOkUnless result Refusal.Memory };

    /// Puts the line that counts a node's records at the lines' end.
    fn put_count(&self, line: &mut Vec<u8>, count: u32) -> Result<(), Refusal>
        ensures ok { OnOk result (line.new.items ≡ line.old.items ++ records_by (form self.now) count) }
        ensures memory { IsOkUnless result Refusal.Memory };

    /// Puts the line of a table's rule, with its id, at the lines' end.
    fn put_rule(&self, line: &mut Vec<u8>, id: u32, rule: Rule) -> Result<(), Refusal>
        ensures ok { OnOk result (line.new.items ≡ line.old.items ++ rule_by (form self.now) (id, rule)) }
        ensures memory { IsOkUnless result Refusal.Memory };

    /// Puts the line that counts a table's rules at the lines' end.
    fn put_rule_count(&self, line: &mut Vec<u8>, count: usize) -> Result<(), Refusal>
        ensures ok { OnOk result (line.new.items ≡ line.old.items ++ rules_by (form self.now) count) }
        ensures memory { IsOkUnless result Refusal.Memory };

    /// Puts the line of a safe mark at the lines' end.
    fn put_safe(&self, line: &mut Vec<u8>, place: u32) -> Result<(), Refusal>
        ensures ok { OnOk result (line.new.items ≡ line.old.items ++ safe_by (form self.now) place) }
        ensures memory { IsOkUnless result Refusal.Memory };
}

impl TellsLooks for SteppedAsText {
    ghost use Rattle.cpg_step.specs.Lines.{looked_text};

    ghost form = { λ told. looked_text };

    fn put_frame(&self, line: &mut Vec<u8>, frame: &Frame) -> Result<(), Refusal> {
        put_frame(line, frame)
    }

    fn put_no_frame(&self, alloc: Global, line: &mut Vec<u8>) -> Result<(), Refusal> {
        put_refused_line(alloc, line, Refusal::NoFrame)
    }

    fn put_record(&self, line: &mut Vec<u8>, place: u32, past: &Record) -> Result<(), Refusal> {
        put_audit(line, place, past)
    }

    fn put_count(&self, line: &mut Vec<u8>, count: u32) -> Result<(), Refusal> {
        put_count(line, count)
    }

    fn put_rule(&self, line: &mut Vec<u8>, id: u32, rule: Rule) -> Result<(), Refusal> {
        put_rule_line(line, id, rule)
    }

    fn put_rule_count(&self, line: &mut Vec<u8>, count: usize) -> Result<(), Refusal> {
        put_rule_count(line, count)
    }

    fn put_safe(&self, line: &mut Vec<u8>, place: u32) -> Result<(), Refusal> {
        put_safe_line(line, place)
    }
}

/// Puts the lines of text of what is looked at at the lines' end.
pub fn put_look(
    alloc: Global,
    lines: &mut Vec<u8>,
    world: &World,
    look: &Look,
) -> Result<(), Refusal>
    requires { LooksWithin (length world.now.nodes) look.now }
    ensures ok { OnOk result (lines.new.items ≡ lines.old.items ++ concat (look_lines world.now look.now)) }
    ensures memory { IsOkUnless result Refusal.Memory }
{
    put_look_in(alloc, lines, &SteppedAsText, world, look)
}

/// Puts the lines of what is looked at, in that form, at the lines' end.
#[inline(never)]
pub fn put_look_in<F: TellsLooks>(
    alloc: Global,
    lines: &mut Vec<u8>,
    form: &F,
    world: &World,
    look: &Look,
) -> Result<(), Refusal>
    requires { LooksWithin (length world.now.nodes) look.now }
    ensures ok { OnOk result (lines.new.items ≡ lines.old.items ++ concat (told_by (F.form form.now) world.now look.now)) }
    ensures memory { IsOkUnless result Refusal.Memory }
{
    match look {
        Look::Show(number) => put_shown(alloc, lines, form, world, *number),
        Look::Audit(node) => put_audit_of(lines, form, world.node(*node)),
        Look::Rules(node, group) => put_table_of(lines, form, world.node(*node), group.as_slice()),
        Look::Safe(node) => form.put_safe(lines, world.node(*node).safe()),
    }
}

/// Puts the line of the frame of that number, or that there is none, at the lines' end.
fn put_shown<F: TellsLooks>(
    alloc: Global,
    line: &mut Vec<u8>,
    form: &F,
    world: &World,
    number: u64,
) -> Result<(), Refusal>
    ensures ok { OnOk result (line.new.items ≡ line.old.items ++ frame_by (F.form form.now) (item world.now.sent number)) }
    ensures memory { IsOkUnless result Refusal.Memory }
{
    match world.sent_frame(number as usize) {
        None => form.put_no_frame(alloc, line),
        Some(bytes) => put_spelled(alloc, line, form, bytes),
    }
}

/// Puts the line of the frame that the bytes spell at the lines' end.
fn put_spelled<F: TellsLooks>(
    alloc: Global,
    line: &mut Vec<u8>,
    form: &F,
    bytes: &[u8],
) -> Result<(), Refusal>
    requires { IsSome (frame_of bytes.now) }
    ensures ok { OnOk result (line.new.items ≡ line.old.items ++ frame_by (F.form form.now) (frame_of bytes.now)) }
    ensures memory { IsOkUnless result Refusal.Memory }
{
    let frame = read_spelled(alloc, bytes)?;
    form.put_frame(line, &frame)
}

/// The frame that the bytes spell.
fn read_spelled(alloc: Global, bytes: &[u8]) -> Result<Frame, Refusal>
    requires { IsSome (frame_of bytes.now) }
    ensures ok { IfOk result (λ frame. frame_of bytes.now ≡ Some frame) }
    ensures memory { IsOkUnless result Refusal.Memory }
{
    decode(alloc, bytes)
}

/// Puts the lines of a node's records, and of how many there are, at the lines' end.
#[tactic(auto, using(crate::proofs::Listing::lines_and_last))]
fn put_audit_of<F: TellsLooks>(lines: &mut Vec<u8>, form: &F, node: &Node) -> Result<(), Refusal>
    ensures ok { OnOk result (lines.new.items ≡ lines.old.items ++ concat (audit_by (F.form form.now) (records_of node.now))) }
    ensures memory { IsOkUnless result Refusal.Memory }
{
    let count = node.delivered();
    put_records(lines, form, node.audit())?;
    form.put_count(lines, count)
}

fn put_records<F: TellsLooks>(
    lines: &mut Vec<u8>,
    form: &F,
    records: &[Record],
) -> Result<(), Refusal>
    requires { length records.now ≤ most_places }
    ensures ok { OnOk result (lines.new.items ≡ lines.old.items ++ concat (numbered (past_by (F.form form.now)) records.now)) }
    ensures memory { IsOkUnless result Refusal.Memory }
{
    let mut place = 0u32;
    for past in records {
        place += 1;
        form.put_record(lines, place, past)?;
    }
    Ok(())
}

/// Puts the lines of a group's rules, and of how many there are, at the lines' end.
fn put_table_of<F: TellsLooks>(
    lines: &mut Vec<u8>,
    form: &F,
    node: &Node,
    group: &[u8],
) -> Result<(), Refusal>
    ensures ok { OnOk result (lines.new.items ≡ lines.old.items ++ concat (table_by (F.form form.now) (rules_of (records_of node.now) group.now))) }
    ensures memory { IsOkUnless result Refusal.Memory }
{
    match node.table(group) {
        None => form.put_rule_count(lines, 0),
        Some(table) => put_table(lines, form, table),
    }
}

#[tactic(auto, using(crate::proofs::Listing::lines_and_last))]
fn put_table<F: TellsLooks>(lines: &mut Vec<u8>, form: &F, table: &Table) -> Result<(), Refusal>
    ensures ok { OnOk result (lines.new.items ≡ lines.old.items ++ concat (table_by (F.form form.now) table.now)) }
    ensures memory { IsOkUnless result Refusal.Memory }
{
    put_rules(lines, form, table)?;
    form.put_rule_count(lines, table.len())
}

#[tactic(auto, using(crate::proofs::Listing::rule_put))]
fn put_rules<F: TellsLooks>(lines: &mut Vec<u8>, form: &F, table: &Table) -> Result<(), Refusal>
    ensures ok { OnOk result (lines.new.items ≡ lines.old.items ++ concat (map (rule_by (F.form form.now)) table.now)) }
    ensures memory { IsOkUnless result Refusal.Memory }
{
    for index in 0..table.len() {
        put_rule_at(lines, form, table, index)?;
    }
    Ok(())
}

fn put_rule_at<F: TellsLooks>(
    lines: &mut Vec<u8>,
    form: &F,
    table: &Table,
    index: usize,
) -> Result<(), Refusal>
    ensures ok { OnOk result (lines.new.items ≡ lines.old.items ++ line_of (rule_by (F.form form.now)) (slice_get table.now index)) }
    ensures memory { IsOkUnless result Refusal.Memory }
{
    match table.get(index) {
        None => Ok(()),
        Some((id, rule)) => form.put_rule(lines, id, rule),
    }
}
