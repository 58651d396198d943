//! `cpgring judge`, `why` and `accept`: what they print of a script, in the form that is asked for.

ghost use Rattle.std.specs.Prelude.{◌≡◌, ◌≤◌, None, length, OnOk, IfErr, IfSome};
ghost use Rattle.cpg_text.specs.Written.{WritesLate};
ghost use Rattle.cpg_judge.specs.Scripts.{entries_of_script};
ghost use Rattle.cpg_why.specs.Forms.{plain};
ghost use Rattle.cpg_why.specs.Scripts.{numbers_of, EndsWhy, IsWritten, Leaves};
ghost use Rattle.cpg_console.specs.Runs.{AreAnswered, IsJudged, LeavesAnswered, LeavesJudged};

use crate::runs::Form;
use cpg_accept::{accept_in_form, accept_script};
use cpg_json::why::AsJson;
use cpg_json::{AdmittedAsJson, JudgedAsJson};
use cpg_judge::{judge_in_form, judge_script};
use cpg_text::{Fault, MOST_BYTES};
use cpg_why::{AsText, Asked, WhyFault, why_script};
use std::alloc::Global;
use std::io::{Read, Write};

/// Judges the entries of a script, and writes what is printed of them in that form.
pub fn judge<R: Read, W: Write>(
    alloc: Global,
    form: Form,
    reader: &mut R,
    writer: &mut W,
) -> Result<(), Fault>
    ensures ok { OnOk result (IfSome (R.remaining reader.old) (λ script.
        (length script ≤ MOST_BYTES) × IsJudged form script (W.contents writer.old) (W.contents writer.new))) }
    ensures err { IfErr result (λ fault. IfSome (R.remaining reader.old) (λ script.
        LeavesJudged form script fault.refusal (W.contents writer.old) (W.contents writer.new))) }
    ensures late { IfErr result (λ fault. WritesLate fault.refusal (W.contents writer.old) (W.contents writer.new)) }
    ensures whole { IfErr result (λ fault. fault.part ≡ None) }
{
    match form {
        Form::Text => judge_script(alloc, reader, writer),
        Form::Json => judge_in_form(alloc, &JudgedAsJson, reader, writer),
    }
}

/// Answers the asks of a script, and writes the answers in that form.
pub fn accept<R: Read, W: Write>(
    alloc: Global,
    form: Form,
    reader: &mut R,
    writer: &mut W,
) -> Result<(), Fault>
    ensures ok { OnOk result (IfSome (R.remaining reader.old) (λ script.
        (length script ≤ MOST_BYTES) × AreAnswered form script (W.contents writer.old) (W.contents writer.new))) }
    ensures err { IfErr result (λ fault. IfSome (R.remaining reader.old) (λ script.
        LeavesAnswered form script fault (W.contents writer.old) (W.contents writer.new))) }
    ensures late { IfErr result (λ fault. WritesLate fault.refusal (W.contents writer.old) (W.contents writer.new)) }
{
    match form {
        Form::Text => accept_script(alloc, reader, writer),
        Form::Json => accept_in_form::<AdmittedAsJson, R, W>(alloc, reader, writer),
    }
}

/// Judges the entries of a script, and writes what is asked of them in that form.
pub fn explain<R: Read, W: Write>(
    alloc: Global,
    form: Form,
    asked: Asked,
    reader: &mut R,
    writer: &mut W,
) -> Result<(), WhyFault>
    ensures ok { OnOk result (IfSome (R.remaining reader.old) (λ script.
        (length script ≤ MOST_BYTES) × IsWritten plain (entries_of_script script) (numbers_of script) asked (W.contents writer.old) (W.contents writer.new))) }
    ensures err { IfErr result (λ fault. IfSome (R.remaining reader.old) (λ script.
        Leaves plain (entries_of_script script) (numbers_of script) asked fault (W.contents writer.old) (W.contents writer.new))) }
    ensures ends { IfErr result (λ fault. EndsWhy asked fault (W.contents writer.old) (W.contents writer.new)) }
{
    match form {
        Form::Text => why_script::<AsText, R, W>(alloc, reader, writer, asked),
        Form::Json => why_script::<AsJson, R, W>(alloc, reader, writer, asked),
    }
}
