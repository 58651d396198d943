//! A line written to where a script's answer goes.
//!
//! Proved: the line is written, or after a refusal what `LeavesLines` says of it.

ghost use Rattle.std.specs.Prelude.{◌∷◌, [], OnOk, IfErr, IsOkUnless};
ghost use Rattle.std.specs.Io.KnownBytes.{Appends};
ghost use Rattle.cpg_text.specs.Written.{LeavesLines};

use crate::streams::write_whole;
use cpg_cred::Refusal;
use std::io::Write;

/// Writes a line.
#[tactic(auto, using(crate::proofs::Lined::front_of_line))]
pub fn write_line<W: Write>(writer: &mut W, line: &[u8]) -> Result<(), Refusal>
    ensures ok { OnOk result (Appends (W.contents writer.old) (W.contents writer.new) line.now) }
    ensures err { IfErr result (λ refusal. LeavesLines (line.now ∷ []) refusal (W.contents writer.old) (W.contents writer.new)) }
    ensures errors { IsOkUnless result Refusal.Write }
{
    match write_whole(writer, line) {
        Ok(()) => Ok(()),
        Err(_) => Err(Refusal::Write),
    }
}
