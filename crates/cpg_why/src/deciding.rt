//! What decided an answer: the state that it met, or the first rule of a table that speaks.
//!
//! Proved: it is the definition of `specs/Deciding.antt`.

ghost use Rattle.std.specs.Prelude.{◌≡◌, ◌≤◌, ◌++◌, ◌&&◌, ◌==◌, ℕ, Some, length, slice_get, OnOk, IfOk, IsOkUnless};
ghost use Rattle.std.specs.List.{find, position_or_len};
ghost use Rattle.std.specs.Option.{option_copied};
ghost use Rattle.cpg_rules.specs.declared.rules.Rule.{Rule};
ghost use Rattle.cpg_rules.specs.Decision.{speaks};
ghost use Rattle.cpg_entry.specs.Entries.{asker_of};
ghost use Rattle.cpg_record.specs.declared.verdicts.Verdict.TheVariants.{Allowed, Denied};
ghost use Rattle.cpg_record.specs.Judging.{judged, record_of};
ghost use Rattle.cpg_record.specs.RuleTables.{rules_of};
ghost use Rattle.cpg_why.specs.Deciding.{decided_by, decided_by_right, decided_by_table, decided_of, holder, passed_by, passed_one, passed_rules, right_needed, rules_in, subject};
ghost use Rattle.cpg_why.specs.Moves.{last_move};

use crate::findings::{Decided, Passed, Ruled, Unruled};
use crate::unmet::{find_unmet, speaks_of};
use crate::without::judge_without;
use cpg_cred::{By, Refusal};
use cpg_entry::{Call, Entry, Name, Op};
use cpg_group::Policy;
use cpg_record::{ConnId, Member, Reason, Record, Verdict};
use cpg_rules::{Asker, Right, Rule, Table};
use std::alloc::Global;

/// Whether a rule stands at the index, and speaks of the right and the asker.
fn speaks_at(table: &Table, index: usize, right: Right, asker: &Asker) -> bool
    ensures { (entry : ℕ × Rule) → slice_get table.now index ≡ Some entry → result ≡ speaks right asker.now entry }
{
    match table.get(index) {
        None => false,
        Some(entry) => speaks_of(&entry.1, right, asker),
    }
}

/// The index of the first rule that speaks of the right and the asker, and how many rules there are where none does.
fn find_first(table: &Table, right: Right, asker: &Asker) -> usize
    ensures first { result ≡ position_or_len (speaks right asker.now) table.now }
    ensures within { result ≤ length table.now }
{
    for index in 0..table.len() {
        if speaks_at(table, index, right, asker) {
            return index;
        }
    }
    table.len()
}

/// Puts the rule at the index last, where it has the right.
fn pass_rule(
    passed: &mut Passed,
    right: Right,
    asker: &Asker,
    index: usize,
    entry: (u32, Rule),
) -> Result<(), Refusal>
    ensures ok { OnOk result (passed.new ≡ passed.old ++ passed_one right asker.now (index, entry)) }
    ensures memory { IsOkUnless result Refusal.Memory }
{
    let (id, rule) = entry;
    if rule.right != right {
        return Ok(());
    }
    passed.push(index, id, rule, find_unmet(&rule.who, asker))
}

/// The same of the rule at the index of a table, if one stands there.
fn pass_at(
    passed: &mut Passed,
    table: &Table,
    right: Right,
    asker: &Asker,
    index: usize,
) -> Result<(), Refusal>
    ensures ok { OnOk result (passed.new ≡ passed.old ++ passed_by right asker.now index (slice_get table.now index)) }
    ensures memory { IsOkUnless result Refusal.Memory }
{
    match table.get(index) {
        None => Ok(()),
        Some(entry) => pass_rule(passed, right, asker, index, entry),
    }
}

/// Of the first so many rules of a table those that have the right.
fn find_passed(
    alloc: Global,
    table: &Table,
    right: Right,
    asker: &Asker,
    count: usize,
) -> Result<Passed, Refusal>
    requires { count ≤ length table.now }
    ensures ok { IfOk result (λ passed. passed ≡ passed_rules right asker.now table.now count) }
    ensures memory { IsOkUnless result Refusal.Memory }
{
    let mut passed = Passed::new(alloc);
    for index in 0..count {
        pass_at(&mut passed, table, right, asker, index)?;
    }
    Ok(passed)
}

/// What the table decides of the right.
fn decide_by_table(
    alloc: Global,
    policy: &Policy,
    past: &Record,
    right: Right,
    table: &Table,
) -> Result<Decided, Refusal>
    requires { past.now ≡ record_of (judged policy.now) past.now.entry }
    ensures ok { IfOk result (λ decided. decided ≡ decided_by_table (judged policy.now) past.now.entry right table.now) }
    ensures memory { IsOkUnless result Refusal.Memory }
{
    let asker = past.entry.asker();
    let index = find_first(table, right, &asker);
    let passed = find_passed(alloc, table, right, &asker, index)?;
    match table.get(index) {
        None => Ok(Decided::Default(Unruled { right, passed })),
        Some((id, rule)) => Ok(Decided::Rule(Ruled {
            index,
            id,
            rule,
            rules: table.len(),
            passed,
            without: judge_without(alloc, policy, table, id, past)?,
        })),
    }
}

/// The right that an op needs, if it needs one.
fn find_right(op: &Op) -> Option<Right>
    ensures { result ≡ right_needed op.now }
{
    match op {
        Op::Act(Call::Join(_)) => Some(Right::Join),
        Op::Act(Call::Send(_)) => Some(Right::Send),
        Op::Act(Call::Insert(_, _, _)) | Op::Act(Call::Remove(_, _)) => Some(Right::Edit),
        Op::Act(Call::Leave) | Op::Gone => None,
    }
}

/// What the table of the group of that name decides of the right.
fn decide_in(
    alloc: Global,
    policy: &Policy,
    past: &Record,
    right: Right,
    group: &[u8],
) -> Result<Decided, Refusal>
    requires { past.now ≡ record_of (judged policy.now) past.now.entry }
    ensures ok { IfOk result (λ decided. decided ≡ decided_by_table (judged policy.now) past.now.entry right (rules_of (judged policy.now) group.now)) }
    ensures memory { IsOkUnless result Refusal.Memory }
{
    match policy.table(group) {
        Some(table) => decide_by_table(alloc, policy, past, right, table),
        None => decide_by_table(alloc, policy, past, right, &Table::new(alloc)),
    }
}

/// What the table of the record's group decides of the right that its entry needs.
fn decide_by_right(alloc: Global, policy: &Policy, past: &Record) -> Result<Decided, Refusal>
    requires { past.now ≡ record_of (judged policy.now) past.now.entry }
    ensures ok { IfOk result (λ decided. decided ≡ decided_by_right (judged policy.now) past.now.entry (right_needed past.now.entry.op) past.now.group) }
    ensures memory { IsOkUnless result Refusal.Memory }
{
    match (find_right(&past.entry.op), &past.group) {
        (Some(right), Some(group)) => decide_in(alloc, policy, past, right, group.as_slice()),
        _ => Ok(Decided::Free),
    }
}

/// Whether the member has the process of the entry.
fn is_process_of(member: &Member, entry: &Entry) -> bool
    ensures { result ≡ ((member.now.node == entry.now.node) && (member.now.pid == entry.now.pid)) }
{
    member.node == entry.node && member.pid == entry.pid
}

/// The member that has the process of the record's entry, if one has it.
fn find_member(past: &Record) -> Option<Member>
    ensures { result ≡ find (λ member. (member.node == past.now.entry.node) && (member.pid == past.now.entry.pid)) past.now.members }
{
    for member in past.members.as_slice() {
        if is_process_of(member, &past.entry) {
            return Some(*member);
        }
    }
    None
}

/// The connection of the member that has the process of the record's entry, else the entry's own.
fn find_holder(past: &Record) -> ConnId
    ensures { result ≡ holder past.now }
{
    match find_member(past) {
        None => ConnId::of(&past.entry),
        Some(member) => member.conn_id(),
    }
}

/// The connection whose last move is told of the record.
pub(crate) fn find_subject(past: &Record) -> ConnId
    ensures { result ≡ subject past.now past.now.verdict }
{
    match past.verdict {
        Verdict::Denied(Reason::Twice) => find_holder(past),
        _ => ConnId::of(&past.entry),
    }
}

/// How many rules the table of the group has, if there is one.
fn count_rules(policy: &Policy, group: Option<&Name>) -> usize
    ensures { result ≡ rules_in (judged policy.now) (option_copied group.entry) }
{
    match group {
        None => 0,
        Some(group) => match policy.table(group.as_slice()) {
            None => 0,
            Some(table) => table.len(),
        },
    }
}

/// What decided the answer of a record, which comes after the judged ones. The connection that is told of moved last at
/// `last`.
pub fn explain(
    alloc: Global,
    policy: &Policy,
    past: &Record,
    last: Option<u32>,
) -> Result<Decided, Refusal>
    requires judged { past.now ≡ record_of (judged policy.now) past.now.entry }
    requires last { last ≡ last_move (judged policy.now) (subject past.now past.now.verdict) }
    ensures ok { IfOk result (λ decided. decided ≡ decided_of (judged policy.now) past.now) }
    ensures memory { IsOkUnless result Refusal.Memory }
{
    let rules = count_rules(policy, past.group.as_ref());
    match past.verdict {
        Verdict::Allowed(By::Root) => Ok(Decided::Root),
        Verdict::Allowed(By::Free | By::Rule(_) | By::Default)
        | Verdict::Denied(Reason::Rule(_) | Reason::Default) => {
            decide_by_right(alloc, policy, past)
        }
        Verdict::Denied(Reason::Closed) => Ok(Decided::Closed { since: last }),
        Verdict::Denied(Reason::Joined) => Ok(Decided::Joined { since: last }),
        Verdict::Denied(Reason::Twice) => Ok(Decided::Twice {
            by: find_holder(past),
            since: last,
        }),
        Verdict::Denied(Reason::Full) => Ok(Decided::Full {
            members: past.members.len(),
        }),
        Verdict::Denied(Reason::Position) => Ok(Decided::Position { rules }),
        Verdict::Denied(Reason::TableFull) => Ok(Decided::TableFull { rules }),
        Verdict::Denied(Reason::Absent) => Ok(Decided::Absent),
    }
}
