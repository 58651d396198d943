//! The entries of a script.

ghost use Rattle.std.specs.Prelude.{◌≡◌, ◌≤◌, Ok, length, IfOk, IfErr};
ghost use Rattle.cpg_record.specs.Judging.{most_places};
ghost use Rattle.cpg_text.specs.Reading.{FailsAs};
ghost use Rattle.cpg_judge.specs.Scripts.{entries_of_script};

use cpg_cred::Refusal;
use cpg_entry::{Entry, MOST_PLACES};
use cpg_print::entry_in_line;
use cpg_text::{MOST_BYTES, ReadsLine, read_script};
use std::alloc::Global;

/// Reads entries, at most 1,048,576.
#[derive(Debug, Clone, Copy)]
struct EntryReader;

impl ReadsLine for EntryReader {
    type Item = Entry;

    ghost use Rattle.cpg_judge.specs.Scripts.{entry_in};

    ghost meaning = { λ reader before line. entry_in before line };

    ghost holds = { λ reader entry. Unit {0} };

    fn read(&self, alloc: Global, before: usize, line: &[u8]) -> Result<Option<Entry>, Refusal> {
        if before >= MOST_PLACES as usize {
            return Ok(None);
        }
        entry_in_line(alloc, line)
    }
}

/// The entries of a script, or `BadCommand` with its first bad line.
#[tactic(auto, using(crate::proofs::Few::entries_few))]
pub(crate) fn read_entries(alloc: Global, script: &[u8]) -> Result<Vec<Entry>, Refusal>
    requires { length script.now ≤ MOST_BYTES }
    ensures ok { IfOk result (λ entries. entries_of_script script.now ≡ Ok entries.items) }
    ensures few { IfOk result (λ entries. length entries.items ≤ most_places) }
    ensures err { IfErr result (λ refusal. FailsAs (entries_of_script script.now) refusal) }
{
    read_script(alloc, &EntryReader, script)
}
