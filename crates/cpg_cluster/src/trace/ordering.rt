//! What pens recorded, put in one order.

ghost use Rattle.std.specs.Prelude.{◌≡◌, ◌++◌, ◌≤◌, length, take, OnOk, IsOkUnless};
ghost use Rattle.cpg_cluster.specs.TraceScripts.{IsScript, counted};

use cpg_cred::Refusal;
use cpg_history::Recorded;

/// Puts what another pen recorded behind the others.
pub fn gather(entries: &mut Vec<Recorded>, mut more: Vec<Recorded>) -> Result<(), Refusal>
    ensures ok { OnOk result (entries.new.items ≡ entries.old.items ++ more.items) }
    ensures memory { IsOkUnless result Refusal.Memory }
{
    entries.append(&mut more)?;
    Ok(())
}

/// How many entries have the stamps from 0 on.
fn counted(entries: &[Recorded]) -> usize
    ensures { take result entries.now ≡ counted 0 entries.now }
{
    for (index, entry) in entries.iter().enumerate() {
        if entry.stamp != index as u64 {
            return index;
        }
    }
    entries.len()
}

/// Puts the entries in the order of their stamps, and lets those go that stand behind a stamp that none has.
pub fn order(entries: &mut Vec<Recorded>)
    ensures { IsScript entries.old.items entries.new.items }
{
    entries.sort_unstable_by_key(|entry| entry.stamp);
    let count = counted(entries.as_slice());
    entries.truncate(count);
}
