//! Members and records as they are printed.

ghost use Rattle.std.specs.Prelude.{◌≡◌, ◌++◌, codes, decimal, OnOk, IsOkUnless};
ghost use Rattle.std.specs.Option.{option_copied};
ghost use Rattle.std.specs.List.{flat_map};
ghost use Rattle.cpg_print.specs.Entries.{entry_text};
ghost use Rattle.cpg_print.specs.Records.{process_text, member_text, members_text, group_text, outcome_text, audit_line, count_line};

use crate::entries::put_entry;
use crate::verdicts::put_verdict;
use cpg_cred::{NodeId, Refusal};
use cpg_entry::{Entry, Name};
use cpg_record::{Member, Record};
use cpg_text::{push_number, put, put_byte, put_bytes};

/// Puts the audit line of a record, which stands at that place, at the line's end.
#[tactic(auto, unfolding(crate::specs::Records::audit_line))]
pub fn put_audit(line: &mut Vec<u8>, place: u32, past: &Record) -> Result<(), Refusal>
    ensures ok { OnOk result (line.new.items ≡ line.old.items ++ audit_line place past.now) }
    ensures memory { IsOkUnless result Refusal.Memory }
{
    put_asked(line, place, &past.entry)?;
    put_outcome(line, past)?;
    put_byte(line, b'\n')
}

/// Puts PLACE, the entry and an arrow at the line's end.
#[inline(always)]
fn put_asked(line: &mut Vec<u8>, place: u32, entry: &Entry) -> Result<(), Refusal>
    ensures ok { OnOk result (line.new.items ≡ line.old.items ++ decimal place ++ codes " " ++ entry_text entry.now ++ codes " -> ") }
    ensures memory { IsOkUnless result Refusal.Memory }
{
    push_number(line, u64::from(place))?;
    put_byte(line, b' ')?;
    put_entry(line, entry)?;
    put(line, " -> ")
}

fn put_outcome(line: &mut Vec<u8>, past: &Record) -> Result<(), Refusal>
    ensures ok { OnOk result (line.new.items ≡ line.old.items ++ outcome_text past.now) }
    ensures memory { IsOkUnless result Refusal.Memory }
{
    put_verdict(line, past.verdict)?;
    put_group(line, past.group.as_ref(), past.members.as_slice())
}

fn put_group(line: &mut Vec<u8>, group: Option<&Name>, members: &[Member]) -> Result<(), Refusal>
    ensures ok { OnOk result (line.new.items ≡ line.old.items ++ group_text (option_copied group.entry) members.now) }
    ensures memory { IsOkUnless result Refusal.Memory }
{
    match group {
        None => Ok(()),
        Some(group) => {
            put(line, " group ")?;
            put_bytes(line, group.as_slice())?;
            put(line, " members ")?;
            put_members(line, members)
        }
    }
}

/// Puts the audit line of a record, which stands at that place, at the line's end, from the text of its members.
#[tactic(auto, unfolding(crate::specs::Records::audit_line))]
pub fn put_audit_with(
    line: &mut Vec<u8>,
    place: u32,
    past: &Record,
    members: &[u8],
) -> Result<(), Refusal>
    requires { members.now ≡ members_text past.now.members }
    ensures ok { OnOk result (line.new.items ≡ line.old.items ++ audit_line place past.now) }
    ensures memory { IsOkUnless result Refusal.Memory }
{
    put_asked(line, place, &past.entry)?;
    put_verdict(line, past.verdict)?;
    put_group_with(line, past, members)?;
    put_byte(line, b'\n')
}

#[inline(always)]
fn put_group_with(line: &mut Vec<u8>, past: &Record, members: &[u8]) -> Result<(), Refusal>
    requires { members.now ≡ members_text past.now.members }
    ensures ok { OnOk result (line.new.items ≡ line.old.items ++ group_text past.now.group past.now.members) }
    ensures memory { IsOkUnless result Refusal.Memory }
{
    match &past.group {
        None => Ok(()),
        Some(group) => {
            put(line, " group ")?;
            put_bytes(line, group.as_slice())?;
            put(line, " members ")?;
            put_bytes(line, members)
        }
    }
}

/// Puts the list of members at the line's end.
pub fn put_members(line: &mut Vec<u8>, members: &[Member]) -> Result<(), Refusal>
    ensures ok { OnOk result (line.new.items ≡ line.old.items ++ members_text members.now) }
    ensures memory { IsOkUnless result Refusal.Memory }
{
    match members {
        [] => put(line, "-"),
        [first, others @ ..] => {
            put_member(line, *first)?;
            put_more_members(line, others)
        }
    }
}

fn put_more_members(line: &mut Vec<u8>, members: &[Member]) -> Result<(), Refusal>
    ensures ok { OnOk result (line.new.items ≡ line.old.items ++ flat_map (λ member. codes "," ++ member_text member) members.now) }
    ensures memory { IsOkUnless result Refusal.Memory }
{
    for member in members {
        put_byte(line, b',')?;
        put_member(line, *member)?;
    }
    Ok(())
}

/// Puts NODE/PID of a member at the line's end.
pub fn put_member(line: &mut Vec<u8>, member: Member) -> Result<(), Refusal>
    ensures ok { OnOk result (line.new.items ≡ line.old.items ++ member_text member) }
    ensures memory { IsOkUnless result Refusal.Memory }
{
    put_process(line, (member.node, member.pid))
}

/// Puts NODE/PID at the line's end.
pub fn put_process(line: &mut Vec<u8>, process: (NodeId, u32)) -> Result<(), Refusal>
    ensures ok { OnOk result (line.new.items ≡ line.old.items ++ process_text process) }
    ensures memory { IsOkUnless result Refusal.Memory }
{
    push_number(line, u64::from(process.0.get()))?;
    put_byte(line, b'/')?;
    push_number(line, u64::from(process.1))
}

/// Puts the count of records at the line's end.
pub fn put_count(line: &mut Vec<u8>, count: u32) -> Result<(), Refusal>
    ensures ok { OnOk result (line.new.items ≡ line.old.items ++ count_line count) }
    ensures memory { IsOkUnless result Refusal.Memory }
{
    put(line, "records ")?;
    push_number(line, u64::from(count))?;
    put_byte(line, b'\n')
}
