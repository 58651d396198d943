//! Entries that stand in no script, as those of an audit, are judged again, and what is asked of them is told.
//!
//! Proved: that what is found is told, and what each fault leaves.

ghost use Rattle.std.specs.Prelude.{◌≡◌, ◌≤◌, [], Ok, length, OnOk, IfOk, IfErr, IsOkUnless};
ghost use Rattle.cpg_record.specs.Judging.{entries_of, most_places};
ghost use Rattle.cpg_why.specs.Scripts.{IsWritten, LeavesEntries};

use crate::asking::{Asked, WhyFault};
use crate::forms::Tells;
use crate::telling::tell_entries;
use cpg_cred::Refusal;
use cpg_entry::Entry;
use cpg_record::Record;
use cpg_text::write_whole;
use std::alloc::Global;
use std::io::Write;

/// Judges the entries, and writes what is asked of them in a form, without numbers of lines.
///
/// The faults come in this order: that what is asked of is not there, with how many entries or events there are;
/// `Memory` may come at any time; both with nothing written. Last is `Write`, which leaves a front of what is told.
pub fn why_of_entries<F: Tells, W: Write>(
    alloc: Global,
    writer: &mut W,
    entries: &[Entry],
    asked: Asked,
) -> Result<(), WhyFault>
    requires { length entries.now ≤ most_places }
    ensures ok { OnOk result (IsWritten F.form (Ok entries.now) [] asked (W.contents writer.old) (W.contents writer.new)) }
    ensures err { IfErr result (λ fault. LeavesEntries F.form [] entries.now asked fault (W.contents writer.old) (W.contents writer.new)) }
{
    let text = tell_entries::<F>(alloc, &[], entries, asked)?;
    write_whole(writer, text.as_slice())?;
    Ok(())
}

/// The entries of records.
fn copy_entries(alloc: Global, records: &[Record]) -> Result<Vec<Entry>, Refusal>
    ensures ok { IfOk result (λ entries. entries.items ≡ entries_of records.now) }
    ensures memory { IsOkUnless result Refusal.Memory }
{
    let mut entries = Vec::new(alloc);
    for past in records {
        entries.push(past.entry.copy(alloc)?)?;
    }
    Ok(entries)
}

/// Judges the entries of records again, as those of a node's audit, and writes what is asked of them in a form. The
/// faults are those of `why_of_entries`.
pub fn why_of_records<F: Tells, W: Write>(
    alloc: Global,
    writer: &mut W,
    records: &[Record],
    asked: Asked,
) -> Result<(), WhyFault>
    requires { length records.now ≤ most_places }
    ensures ok { OnOk result (IsWritten F.form (Ok (entries_of records.now)) [] asked (W.contents writer.old) (W.contents writer.new)) }
    ensures err { IfErr result (λ fault. LeavesEntries F.form [] (entries_of records.now) asked fault (W.contents writer.old) (W.contents writer.new)) }
{
    let entries = copy_entries(alloc, records)?;
    why_of_entries::<F, W>(alloc, writer, entries.as_slice(), asked)
}
