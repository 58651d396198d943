//! What calls are answered, as it is printed.

ghost use Rattle.std.specs.Prelude.{◌≡◌, ◌++◌, codes, OnOk, IsOkUnless};
ghost use Rattle.std.specs.List.{flat_map};
ghost use Rattle.std.specs.Option.{option_copied};
ghost use Rattle.cpg_text.specs.Words.{listed};
ghost use Rattle.cpg_print.specs.Records.{process_text};
ghost use Rattle.cpg_print.specs.Answers.{members_line, groups_line, took_line, safe_line, refused_line};

use crate::events::put_event;
use crate::records::put_process;
use cpg_cred::{NodeId, Refusal};
use cpg_entry::Name;
use cpg_record::Event;
use cpg_text::{Fault, push_number, put, put_bytes, put_fault};
use std::alloc::Global;

/// Puts the line of a listing, the node and pid of each member, at the line's end.
pub fn put_members_line(line: &mut Vec<u8>, processes: &[(NodeId, u32)]) -> Result<(), Refusal>
    ensures ok { OnOk result (line.new.items ≡ line.old.items ++ members_line processes.now) }
    ensures memory { IsOkUnless result Refusal.Memory }
{
    put(line, "members ")?;
    put_processes(line, processes)?;
    put(line, "\n")
}

fn put_processes(line: &mut Vec<u8>, processes: &[(NodeId, u32)]) -> Result<(), Refusal>
    ensures ok { OnOk result (line.new.items ≡ line.old.items ++ listed process_text processes.now) }
    ensures memory { IsOkUnless result Refusal.Memory }
{
    match processes {
        [] => put(line, "-"),
        [first, others @ ..] => {
            put_process(line, *first)?;
            put_more_processes(line, others)
        }
    }
}

fn put_more_processes(line: &mut Vec<u8>, processes: &[(NodeId, u32)]) -> Result<(), Refusal>
    ensures ok { OnOk result (line.new.items ≡ line.old.items ++ flat_map (λ process. codes "," ++ process_text process) processes.now) }
    ensures memory { IsOkUnless result Refusal.Memory }
{
    for process in processes {
        put(line, ",")?;
        put_process(line, *process)?;
    }
    Ok(())
}

/// Puts the line of the groups' names at the line's end.
pub fn put_groups_line(line: &mut Vec<u8>, names: &[Name]) -> Result<(), Refusal>
    ensures ok { OnOk result (line.new.items ≡ line.old.items ++ groups_line names.now) }
    ensures memory { IsOkUnless result Refusal.Memory }
{
    put(line, "groups")?;
    put_names(line, names)?;
    put(line, "\n")
}

fn put_names(line: &mut Vec<u8>, names: &[Name]) -> Result<(), Refusal>
    ensures ok { OnOk result (line.new.items ≡ line.old.items ++ flat_map (λ name. codes " " ++ name) names.now) }
    ensures memory { IsOkUnless result Refusal.Memory }
{
    for name in names {
        put(line, " ")?;
        put_bytes(line, name.as_slice())?;
    }
    Ok(())
}

/// Puts the line of the event that was taken, or `none`, at the line's end.
pub fn put_took_line(line: &mut Vec<u8>, event: Option<&Event>) -> Result<(), Refusal>
    ensures ok { OnOk result (line.new.items ≡ line.old.items ++ took_line (option_copied event.entry)) }
    ensures memory { IsOkUnless result Refusal.Memory }
{
    match event {
        None => put(line, "none\n"),
        Some(event) => put_event(line, event),
    }
}

/// Puts the line of a safe mark at the line's end.
pub fn put_safe_line(line: &mut Vec<u8>, place: u32) -> Result<(), Refusal>
    ensures ok { OnOk result (line.new.items ≡ line.old.items ++ safe_line place) }
    ensures memory { IsOkUnless result Refusal.Memory }
{
    put(line, "safe ")?;
    push_number(line, u64::from(place))?;
    put(line, "\n")
}

/// Puts the line of a refusal at the line's end.
pub fn put_refused_line(alloc: Global, line: &mut Vec<u8>, refusal: Refusal) -> Result<(), Refusal>
    ensures ok { OnOk result (line.new.items ≡ line.old.items ++ refused_line refusal) }
    ensures memory { IsOkUnless result Refusal.Memory }
{
    put(line, "refused ")?;
    put_fault(alloc, line, &Fault::from(refusal))?;
    put(line, "\n")
}
