//! The verdict on an entry if its group's table lacked a rule.
//!
//! Proved: it is the definition of `specs/Without.antt`.

ghost use Rattle.std.specs.Prelude.{◌≡◌, ℕ, List, IfOk, IsOkUnless, is_some};
ghost use Rattle.cpg_entry.specs.declared.calls.Call.TheVariants as call;
ghost use Rattle.cpg_entry.specs.declared.calls.Op.TheVariants as op;
ghost use Rattle.cpg_record.specs.Judging.{judged, record_of};
ghost use Rattle.cpg_record.specs.Membership.{group_of};
ghost use Rattle.cpg_record.specs.Verdicts.{edit_decision, insert_verdict, leave_verdict, remove_verdict};
ghost use Rattle.cpg_why.specs.Without.{join_states, join_under, send_under, verdict_under, verdict_without};

use cpg_cred::{By, Refusal};
use cpg_entry::{Call, Entry, Name, Op};
use cpg_group::Policy;
use cpg_record::{ConnId, MOST_MEMBERS, Reason, Record, Verdict};
use cpg_rules::{Decision, MOST_RULES, Right, Table};
use std::alloc::Global;

/// Whether the connection is in a group after the judged entries.
#[tactic(auto, using(crate::proofs::Before::all_before))]
fn is_in_some(policy: &Policy, conn: ConnId) -> bool
    ensures { result ≡ is_some (group_of (judged policy.now) conn) }
{
    policy.log(conn).group_after(policy.len() as u32).is_some()
}

/// What the states say of the join of a record, which the right allows by that. An allowed join met no state that
/// denies it, and of a denied one the record has the members before it.
fn judge_states(policy: &Policy, past: &Record, by: By) -> Verdict
    requires { past.now ≡ record_of (judged policy.now) past.now.entry }
    ensures { (g : List ℕ) → past.now.entry.op ≡ op.Act (call.Join g) → result ≡ join_states (judged policy.now) past.now.entry g by }
{
    let entry = &past.entry;
    if past.verdict.is_allowed() {
        Verdict::Allowed(by)
    } else if is_in_some(policy, ConnId::of(entry)) {
        Verdict::Denied(Reason::Joined)
    } else if past.members.has_process(entry) {
        Verdict::Denied(Reason::Twice)
    } else if past.members.len() >= MOST_MEMBERS {
        Verdict::Denied(Reason::Full)
    } else {
        Verdict::Allowed(by)
    }
}

/// A join under that table.
fn judge_join(policy: &Policy, table: &Table, past: &Record) -> Verdict
    requires { past.now ≡ record_of (judged policy.now) past.now.entry }
    ensures { (g : List ℕ) → past.now.entry.op ≡ op.Act (call.Join g) → result ≡ join_under table.now (judged policy.now) past.now.entry g }
{
    match table.decide(Right::Join, past.entry.asker()) {
        Decision::Denied(by) => Verdict::Denied(Reason::of(by)),
        Decision::Allowed(by) => judge_states(policy, past, by),
    }
}

/// A send under that table, of a connection in that group.
fn judge_send(table: &Table, entry: &Entry, group: &Option<Name>) -> Verdict
    ensures { result ≡ send_under table.now entry.now group.now }
{
    if group.is_none() {
        return Verdict::Denied(Reason::Closed);
    }
    match table.decide(Right::Send, entry.asker()) {
        Decision::Denied(by) => Verdict::Denied(Reason::of(by)),
        Decision::Allowed(by) => Verdict::Allowed(by),
    }
}

/// A leave of a connection in that group.
fn judge_leave(group: &Option<Name>) -> Verdict
    ensures { result ≡ leave_verdict group.now }
{
    match group {
        None => Verdict::Denied(Reason::Closed),
        Some(_) => Verdict::Allowed(By::Free),
    }
}

/// Whether the entry may edit the table: user 0 may, the others by the right.
fn decide_edit(table: &Table, entry: &Entry) -> Decision
    ensures { result ≡ edit_decision table.now entry.now }
{
    if entry.cred.uid == 0 {
        Decision::Allowed(By::Root)
    } else {
        table.decide(Right::Edit, entry.asker())
    }
}

/// An insert under that table.
fn judge_insert(table: &Table, entry: &Entry, index: u8) -> Verdict
    ensures { result ≡ insert_verdict table.now entry.now index }
{
    match decide_edit(table, entry) {
        Decision::Denied(by) => Verdict::Denied(Reason::of(by)),
        Decision::Allowed(by) => {
            if table.len() < usize::from(index) {
                Verdict::Denied(Reason::Position)
            } else if table.len() >= MOST_RULES {
                Verdict::Denied(Reason::TableFull)
            } else {
                Verdict::Allowed(by)
            }
        }
    }
}

/// A remove under that table.
fn judge_remove(table: &Table, entry: &Entry, id: u32) -> Verdict
    ensures { result ≡ remove_verdict table.now entry.now id }
{
    match decide_edit(table, entry) {
        Decision::Denied(by) => Verdict::Denied(Reason::of(by)),
        Decision::Allowed(by) => {
            if table.has(id) {
                Verdict::Allowed(by)
            } else {
                Verdict::Denied(Reason::Absent)
            }
        }
    }
}

/// The verdict on the entry of a record under that table.
fn judge_under(policy: &Policy, table: &Table, past: &Record) -> Verdict
    requires { past.now ≡ record_of (judged policy.now) past.now.entry }
    ensures { result ≡ verdict_under table.now (judged policy.now) past.now.entry past.now.entry.op }
{
    let entry = &past.entry;
    match &entry.op {
        Op::Act(Call::Join(_)) => judge_join(policy, table, past),
        Op::Act(Call::Leave) => judge_leave(&past.group),
        Op::Act(Call::Send(_)) => judge_send(table, entry, &past.group),
        Op::Act(Call::Insert(_, index, _)) => judge_insert(table, entry, *index),
        Op::Act(Call::Remove(_, id)) => judge_remove(table, entry, *id),
        Op::Gone => Verdict::Allowed(By::Free),
    }
}

/// The verdict on the entry of a record if the table lacked the rule of that number.
pub(crate) fn judge_without(
    alloc: Global,
    policy: &Policy,
    table: &Table,
    id: u32,
    past: &Record,
) -> Result<Verdict, Refusal>
    requires { past.now ≡ record_of (judged policy.now) past.now.entry }
    ensures ok { IfOk result (λ verdict. verdict ≡ verdict_without table.now id (judged policy.now) past.now.entry) }
    ensures memory { IsOkUnless result Refusal.Memory }
{
    let mut lacking = table.copy(alloc)?;
    lacking.remove(id);
    Ok(judge_under(policy, &lacking, past))
}
