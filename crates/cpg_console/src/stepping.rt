//! `cpgring step`: a new world, and the script that is run over it.
//!
//! Proved: the words of the command line come first, then the settings, then the script; what is written of the steps; and
//! what is found for each entry of `--why`, whose text is plain code.

ghost use Rattle.std.specs.Prelude.{◌≡◌, ◌≤◌, ◌↔◌, Err, Some, None, length, map, OnOk, IfOk, IfErr, IfSome};
ghost use Rattle.cpg_world_laws.specs.Worlds.{new_world};
ghost use Rattle.cpg_step.specs.Running.{EndsRunning};
ghost use Rattle.cpg_step.specs.Scripts.{commands_of_script};
ghost use Rattle.cpg_why.specs.Forms.{plain};
ghost use Rattle.cpg_why.specs.Scripts.{numbers_of, EndsWhy};
ghost use Rattle.cpg_why.specs.Explaining.{IsExplained, Leaves};
ghost use Rattle.cpg_console.specs.Runs.{FailsLate, IsRun, LeavesRun, Steps, TellsSteps};
ghost use Rattle.cpg_console.specs.Starting.{IsStarted, IsNotStarted};
ghost use Rattle.cpg_console.specs.Words.{list_of_words};

use crate::failures::{Failure, undelivered};
use crate::runs::{Form, Stepped};
use crate::words::read_list;
use cpg_cred::AcceptList;
use cpg_json::SteppedAsJson;
use cpg_json::why::AsJson;
use cpg_ring::Settings;
use cpg_step::{run_in_form, run_script};
use cpg_text::{Fault, MOST_BYTES};
use cpg_why::steps::why_of_steps;
use cpg_why::{AsText, Asked, WhyFault};
use cpg_world::World;
use std::alloc::Global;
use std::io::{Read, Write};
use std::mem;

/// Runs the script over a new world of those settings, whose nodes let in whom the words let in, and writes what it
/// prints in that form.
///
/// A wrong word comes first, then settings out of their ranges, then the faults of the script. It is for a process that
/// ends next: what the world keeps is left to the system.
#[tactic(auto, using(crate::proofs::Started::none_stepped, crate::proofs::Started::none_late, crate::proofs::Started::all_stepped, crate::proofs::Started::part_stepped, crate::proofs::Started::part_late))]
pub fn step_over_world<R: Read, W: Write>(
    alloc: Global,
    form: Stepped,
    settings: Settings,
    words: &[&str],
    reader: &mut R,
    writer: &mut W,
) -> Result<(), Failure>
    ensures ok { OnOk result (IfSome (R.remaining reader.old) (λ script.
        Steps form settings (list_of_words (map (λ word. word.now) words.now)) script None (W.contents writer.old) (W.contents writer.new))) }
    ensures err { IfErr result (λ failure. IfSome (R.remaining reader.old) (λ script.
        Steps form settings (list_of_words (map (λ word. word.now) words.now)) script (Some failure) (W.contents writer.old) (W.contents writer.new))) }
    ensures late { IfErr result (λ failure. FailsLate failure (W.contents writer.old) (W.contents writer.new)) }
    ensures word { (result ≡ Err Failure.BadWord) ↔ (list_of_words (map (λ word. word.now) words.now) ≡ None) }
{
    match world_by(alloc, settings, words) {
        Err(failure) => Err(failure),
        Ok(mut world) => match step(alloc, form, reader, writer, &mut world) {
            Err(fault) => {
                leave(world);
                Err(Failure::from(fault))
            }
            Ok(()) => {
                leave(world);
                Ok(())
            }
        },
    }
}

/// Leaves what the world keeps to the system, which takes it back at once when the process ends, as it does next: to give
/// it back record by record costs one instruction in twenty.
fn leave(world: World) {
    mem::forget(world);
}

/// Runs the script over the world, and writes what it prints in that form.
fn step<R: Read, W: Write>(
    alloc: Global,
    form: Stepped,
    reader: &mut R,
    writer: &mut W,
    world: &mut World,
) -> Result<(), Fault>
    ensures ok { OnOk result (IfSome (R.remaining reader.old) (λ script.
        (length script ≤ MOST_BYTES) × IsRun form (numbers_of script) (commands_of_script world.old.settings.nodes script) world.old (W.contents writer.old) (W.contents writer.new) world.new)) }
    ensures err { IfErr result (λ fault. IfSome (R.remaining reader.old) (λ script.
        LeavesRun form (numbers_of script) (commands_of_script world.old.settings.nodes script) fault.refusal world.old (W.contents writer.old) (W.contents writer.new) world.new)) }
    ensures ends { IfErr result (λ fault. EndsRunning fault.refusal world.old (W.contents writer.old) (W.contents writer.new) world.new) }
    ensures whole { IfErr result (λ fault. fault.part ≡ None) }
{
    match form {
        Stepped::Text => run_script(alloc, reader, writer, world),
        Stepped::Json(marks) => run_in_form(alloc, &SteppedAsJson { marks }, reader, writer, world),
    }
}

/// Runs the script over a new world of those settings, whose nodes let in whom the words let in, and writes what is asked
/// of what was delivered there in that form.
///
/// A wrong word comes first, then settings out of their ranges, then the faults of the script.
#[tactic(auto, using(crate::proofs::Explained::none_told, crate::proofs::Started::none_late, crate::proofs::Explained::all_told, crate::proofs::Explained::part_told, crate::proofs::Explained::part_late))]
pub fn explain_over_world<R: Read, W: Write>(
    alloc: Global,
    form: Form,
    asked: Asked,
    settings: Settings,
    words: &[&str],
    reader: &mut R,
    writer: &mut W,
) -> Result<(), Failure>
    ensures ok { OnOk result (IfSome (R.remaining reader.old) (λ script.
        TellsSteps asked settings (list_of_words (map (λ word. word.now) words.now)) script None (W.contents writer.old) (W.contents writer.new))) }
    ensures err { IfErr result (λ failure. IfSome (R.remaining reader.old) (λ script.
        TellsSteps asked settings (list_of_words (map (λ word. word.now) words.now)) script (Some failure) (W.contents writer.old) (W.contents writer.new))) }
    ensures late { IfErr result (λ failure. FailsLate failure (W.contents writer.old) (W.contents writer.new)) }
    ensures word { (result ≡ Err Failure.BadWord) ↔ (list_of_words (map (λ word. word.now) words.now) ≡ None) }
{
    match world_by(alloc, settings, words) {
        Err(failure) => Err(failure),
        Ok(mut world) => match explain(alloc, form, asked, reader, writer, &mut world) {
            Err(fault) => Err(undelivered(fault)),
            Ok(()) => Ok(()),
        },
    }
}

/// Runs the script over the world, and writes what is asked of what was delivered there in that form.
fn explain<R: Read, W: Write>(
    alloc: Global,
    form: Form,
    asked: Asked,
    reader: &mut R,
    writer: &mut W,
    world: &mut World,
) -> Result<(), WhyFault>
    ensures ok { OnOk result (IfSome (R.remaining reader.old) (λ script.
        (length script ≤ MOST_BYTES) × IsExplained plain (commands_of_script world.old.settings.nodes script) asked world.old (W.contents writer.old) (W.contents writer.new) world.new)) }
    ensures err { IfErr result (λ fault. IfSome (R.remaining reader.old) (λ script.
        Leaves plain (commands_of_script world.old.settings.nodes script) asked fault world.old (W.contents writer.old) (W.contents writer.new) world.new)) }
    ensures ends { IfErr result (λ fault. EndsWhy asked fault (W.contents writer.old) (W.contents writer.new)) }
{
    match form {
        Form::Text => why_of_steps::<AsText, R, W>(alloc, reader, writer, world, asked),
        Form::Json => why_of_steps::<AsJson, R, W>(alloc, reader, writer, world, asked),
    }
}

/// A new world of those settings, whose nodes let in whom the words let in.
pub fn world_by(alloc: Global, settings: Settings, words: &[&str]) -> Result<World, Failure>
    ensures ok { IfOk result (λ world. IsStarted settings (list_of_words (map (λ word. word.now) words.now)) world) }
    ensures err { IfErr result (λ failure. IsNotStarted settings (list_of_words (map (λ word. word.now) words.now)) failure) }
{
    match read_list(alloc, words) {
        Err(refusal) => Err(Failure::from(refusal)),
        Ok(None) => Err(Failure::BadWord),
        Ok(Some(list)) => world_with(alloc, settings, &list),
    }
}

/// A new world of those settings and that list.
fn world_with(alloc: Global, settings: Settings, list: &AcceptList) -> Result<World, Failure>
    ensures ok { IfOk result (λ world. world ≡ new_world settings list.now) }
    ensures err { IfErr result (λ failure. IsNotStarted settings (Some list.now) failure) }
{
    match World::new(alloc, settings, list) {
        Ok(world) => Ok(world),
        Err(refusal) => Err(Failure::from(refusal)),
    }
}
