//! `cpgring run --why`: a new cluster, the script that is run over it, and what is asked of the entries that stand on its
//! board then.
//!
//! Proved: the words of the command line come first, then the settings, then the script; and what is found for each entry.
//! How that is written is plain code.

ghost use Rattle.std.specs.Prelude.{◌≡◌, ◌≢◌, ◌≤◌, ◌↔◌, Err, Some, None, length, map, OnOk, IfErr, IfSome};
ghost use Rattle.cpg_why.specs.Forms.{plain};
ghost use Rattle.cpg_why.specs.Scripts.{EndsWhy};
ghost use Rattle.cpg_cluster.specs.Scripts.{commands_of_script};
ghost use Rattle.cpg_why.specs.Sessions.{AreRun, IsTold, Leaves};
ghost use Rattle.cpg_console.specs.Runs.{failure_of, FailsLate, TellsSessionsOf};
ghost use Rattle.cpg_console.specs.Words.{list_of_words};
ghost use Rattle.cpg_world_laws.specs.Worlds.{new_world};

use crate::chances::Chances;
use crate::failures::{Failure, undelivered};
use crate::founding::{Foundation, Host, found};
use crate::runs::Form;
use cpg_cluster::{Sessions, WaitLimit};
use cpg_cred::Refusal;
use cpg_daemon::{Cluster, HistoryName, Running};
use cpg_json::why::AsJson;
use cpg_ring::Settings;
use cpg_text::MOST_BYTES;
use cpg_why::sessions::why_of_sessions;
use cpg_why::{AsText, Asked, Tells, WhyFault};
use std::alloc::Global;
use std::io::{Read, Write};
use std::marker::Brand;

/// What is asked once a script of sessions was run.
#[derive(Debug, Clone, Copy)]
pub struct Inquiry {
    /// How it is told.
    pub form: Form,
    /// What is asked of the entries that stand on the board then.
    pub asked: Asked,
    /// How long a wait of the script looks.
    pub wait_limit: WaitLimit,
    /// What becomes of the cluster's frames.
    pub chances: Chances,
}

/// Runs the script over a new cluster of those settings, whose nodes let in whom the words let in, writes what is asked
/// of the entries that stand on its board then, and stops the cluster.
///
/// A wrong word comes first, then settings out of their ranges, then the faults of the script, and then that what is
/// asked of is not there.
#[tactic(auto, using(crate::proofs::Audited::none_audited, crate::proofs::Started::none_late))]
pub fn explain_over_cluster<H: Host + 'static, R: Read, W: Write>(
    rt: H,
    alloc: Global,
    inquiry: &Inquiry,
    settings: Settings,
    words: &[&str],
    reader: &mut R,
    writer: &mut W,
) -> Result<(), Failure>
    ensures tells { TellsSessionsOf (inquiry.now).asked settings (list_of_words (map (λ word. word.now) words.now))
        (R.remaining reader.old) (failure_of result) (W.contents writer.old) (W.contents writer.new) }
    ensures late { IfErr result (λ failure. FailsLate failure (W.contents writer.old) (W.contents writer.new)) }
    ensures word { (result ≡ Err Failure.BadWord) ↔ (list_of_words (map (λ word. word.now) words.now) ≡ None) }
{
    match found(alloc, settings, words, false) {
        Err(failure) => Err(failure),
        Ok(foundation) => explain_on::<Brand, H, R, W>(
            rt, alloc, inquiry, settings, foundation, reader, writer,
        ),
    }
}

/// The same over a new cluster on that foundation.
#[tactic(auto, using(crate::proofs::Audited::none_of_memory, crate::proofs::Audited::all_told, crate::proofs::Audited::part_told, crate::proofs::Explained::part_late))]
fn explain_on<B, H: Host + 'static, R: Read, W: Write>(
    rt: H,
    alloc: Global,
    inquiry: &Inquiry,
    settings: Settings,
    foundation: Foundation,
    reader: &mut R,
    writer: &mut W,
) -> Result<(), Failure>
where
    B: HistoryName + Send + Sync + 'static,
    requires name { (foundation.board.cells ≡ B.cells) × (foundation.board.table ≡ B.table) × (new_world settings foundation.list ≡ B.start) }
    requires places { length B.cells ≡ settings.places }
    ensures tells { TellsSessionsOf (inquiry.now).asked settings (Some foundation.list)
        (R.remaining reader.old) (failure_of result) (W.contents writer.old) (W.contents writer.new) }
    ensures late { IfErr result (λ failure. FailsLate failure (W.contents writer.old) (W.contents writer.new)) }
    ensures word { result ≢ Err Failure.BadWord }
{
    let Foundation { board, list } = foundation;
    match Cluster::<B, Chances>::start(rt, alloc, settings, board, &list, inquiry.chances) {
        Err(_) => Err(Failure::from(Refusal::Memory)),
        Ok(cluster) => match explain_over(rt, alloc, inquiry, cluster, reader, writer) {
            Err(fault) => Err(undelivered(fault)),
            Ok(()) => Ok(()),
        },
    }
}

/// The same over the cluster, which is stopped.
fn explain_over<B, H: Host, R: Read, W: Write>(
    rt: H,
    alloc: Global,
    inquiry: &Inquiry,
    cluster: Cluster<B, Chances>,
    reader: &mut R,
    writer: &mut W,
) -> Result<(), WhyFault>
where
    B: HistoryName + Send + Sync + 'static,
    ensures ok { OnOk result (IfSome (R.remaining reader.old) (λ script.
        (length script ≤ MOST_BYTES) × AreRun B.start (commands_of_script cluster.nodes script))) }
    ensures told { OnOk result (IsTold plain B.cells (inquiry.now).asked (W.contents writer.old) (W.contents writer.new)) }
    ensures err { IfErr result (λ fault. IfSome (R.remaining reader.old) (λ script.
        Leaves plain B.cells B.start (commands_of_script cluster.nodes script) (inquiry.now).asked fault (W.contents writer.old) (W.contents writer.new))) }
    ensures ends { IfErr result (λ fault. EndsWhy (inquiry.now).asked fault (W.contents writer.old) (W.contents writer.new)) }
{
    let done = explain(&rt, alloc, inquiry, reader, writer, &cluster);
    drop(cluster.stop(&rt));
    done
}

/// Runs the script over running nodes, and writes what is asked in the form that is asked for.
fn explain<B: HistoryName, H: Host, R: Read, W: Write>(
    rt: &H,
    alloc: Global,
    inquiry: &Inquiry,
    reader: &mut R,
    writer: &mut W,
    running: &Running<B, Chances>,
) -> Result<(), WhyFault>
    ensures ok { OnOk result (IfSome (R.remaining reader.old) (λ script.
        (length script ≤ MOST_BYTES) × AreRun B.start (commands_of_script running.now.nodes script))) }
    ensures told { OnOk result (IsTold plain B.cells (inquiry.now).asked (W.contents writer.old) (W.contents writer.new)) }
    ensures err { IfErr result (λ fault. IfSome (R.remaining reader.old) (λ script.
        Leaves plain B.cells B.start (commands_of_script running.now.nodes script) (inquiry.now).asked fault (W.contents writer.old) (W.contents writer.new))) }
    ensures ends { IfErr result (λ fault. EndsWhy (inquiry.now).asked fault (W.contents writer.old) (W.contents writer.new)) }
{
    match inquiry.form {
        Form::Text => explain_as::<AsText, B, H, R, W>(rt, alloc, inquiry, reader, writer, running),
        Form::Json => explain_as::<AsJson, B, H, R, W>(rt, alloc, inquiry, reader, writer, running),
    }
}

/// The same in that form.
#[tactic(auto, using(crate::proofs::Audited::ran_unprinted, crate::proofs::Audited::told_seated, crate::proofs::Audited::left_seated))]
fn explain_as<F: Tells, B: HistoryName, H: Host, R: Read, W: Write>(
    rt: &H,
    alloc: Global,
    inquiry: &Inquiry,
    reader: &mut R,
    writer: &mut W,
    running: &Running<B, Chances>,
) -> Result<(), WhyFault>
    ensures ok { OnOk result (IfSome (R.remaining reader.old) (λ script.
        (length script ≤ MOST_BYTES) × AreRun B.start (commands_of_script running.now.nodes script))) }
    ensures told { OnOk result (IsTold F.form B.cells (inquiry.now).asked (W.contents writer.old) (W.contents writer.new)) }
    ensures err { IfErr result (λ fault. IfSome (R.remaining reader.old) (λ script.
        Leaves F.form B.cells B.start (commands_of_script running.now.nodes script) (inquiry.now).asked fault (W.contents writer.old) (W.contents writer.new))) }
    ensures ends { IfErr result (λ fault. EndsWhy (inquiry.now).asked fault (W.contents writer.old) (W.contents writer.new)) }
{
    let mut sessions = Sessions::none(alloc);
    let mut seat = running.auditor();
    why_of_sessions::<F, B, Chances, H, R, W>(
        rt,
        alloc,
        reader,
        writer,
        running,
        inquiry.wait_limit,
        inquiry.asked,
        &mut sessions,
        &mut seat,
    )
}
