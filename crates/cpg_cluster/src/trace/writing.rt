//! A recording is written.

ghost use Rattle.std.specs.Prelude.{◌≡◌, OnOk, OnErr};
ghost use Rattle.std.specs.Io.KnownBytes.{Appends};
ghost use Rattle.cpg_text.specs.Streams.{AppendsFront};
ghost use Rattle.cpg_cluster.specs.TraceLines.{event_line};
ghost use Rattle.cpg_cluster.specs.TraceScripts.{AreFirstNumbers, end_text, numbered, script_text, trace_text};

use crate::trace::recordings::Recording;
use crate::trace::scripts::{first_numbers, put_entry};
use cpg_cred::Refusal;
use cpg_history::Recorded;
use cpg_text::write_whole;
use std::alloc::Global;
use std::io::Write;

/// The last line of a script that is not whole.
const CUT: &str = "# what came behind these is not here: memory was refused for it\n";

/// Writes the line of an entry of the script. `line` lends its room.
#[tactic(auto, using(crate::proofs::Written::nothing_yet))]
fn write_entry<W: Write>(
    writer: &mut W,
    line: &mut Vec<u8>,
    script: &[Recorded],
    numbers: &[u64],
    entry: &Recorded,
) -> Result<(), Refusal>
    requires { AreFirstNumbers script.now numbers.now }
    ensures ok { OnOk result (Appends (W.contents writer.old) (W.contents writer.new) (event_line (numbered script.now (entry.now).source (entry.now).event))) }
    ensures err { OnErr result (AppendsFront (W.contents writer.old) (W.contents writer.new) (event_line (numbered script.now (entry.now).source (entry.now).event))) }
{
    line.clear();
    put_entry(line, script, numbers, entry)?;
    write_whole(writer, line.as_slice())
}

/// Writes the commands of the script, a line for each entry. Refused with Memory, or with Write: then a front of them is
/// written.
#[tactic(auto, using(crate::proofs::Written::nothing_yet))]
fn write_script<W: Write>(alloc: Global, writer: &mut W, script: &[Recorded]) -> Result<(), Refusal>
    ensures ok { OnOk result (Appends (W.contents writer.old) (W.contents writer.new) (script_text script.now)) }
    ensures err { OnErr result (AppendsFront (W.contents writer.old) (W.contents writer.new) (script_text script.now)) }
{
    let numbers = first_numbers(alloc, script)?;
    let mut line = Vec::new(alloc);
    for entry in script {
        match write_entry(writer, &mut line, script, numbers.as_slice(), entry) {
            Ok(()) => {}
            Err(refusal) => return Err(refusal),
        }
    }
    Ok(())
}

/// Writes the last line where the script is not whole.
fn write_end<W: Write>(writer: &mut W, cut: bool) -> Result<(), Refusal>
    ensures ok { OnOk result (Appends (W.contents writer.old) (W.contents writer.new) (end_text cut)) }
    ensures err { OnErr result (AppendsFront (W.contents writer.old) (W.contents writer.new) (end_text cut)) }
{
    let end = if cut { CUT } else { "" };
    write_whole(writer, end.as_bytes())
}

/// Writes a recording behind the heading. Refused with Memory, or with Write: then a front of it is written.
pub fn write_trace<W: Write>(
    alloc: Global,
    writer: &mut W,
    heading: &[u8],
    recording: &Recording,
) -> Result<(), Refusal>
    ensures ok { OnOk result (Appends (W.contents writer.old) (W.contents writer.new) (trace_text heading.now (recording.now).script.items (recording.now).cut)) }
    ensures err { OnErr result (AppendsFront (W.contents writer.old) (W.contents writer.new) (trace_text heading.now (recording.now).script.items (recording.now).cut)) }
{
    write_whole(writer, heading)?;
    write_script(alloc, writer, recording.script.as_slice())?;
    write_end(writer, recording.cut)
}
