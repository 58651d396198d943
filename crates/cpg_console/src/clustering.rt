//! `cpgring run`: a new cluster, and the script that is run over it.
//!
//! Proved: the words of the command line come first, then the settings, then the script; and what is written.

ghost use Rattle.std.specs.Prelude.{◌≡◌, ◌≢◌, ◌⊎◌, ◌↔◌, Err, Some, None, map, OnOk, OnErr, IfErr};
ghost use Rattle.cpg_console.specs.Runs.{failure_of, ClustersOf, FailsLate};
ghost use Rattle.cpg_console.specs.OutputForms.{output_as};
ghost use Rattle.cpg_console.specs.Starting.{ClusterEnds};
ghost use Rattle.cpg_console.specs.Tracing.{WasKept, WasKeptOf};
ghost use Rattle.cpg_console.specs.Words.{list_of_words};
ghost use Rattle.cpg_world_laws.specs.Worlds.{new_world};

use crate::chances::Chances;
use crate::failures::Failure;
use crate::founding::{Foundation, Host, found};
use crate::output_form::OutputForm;
use crate::tracing::{KeepsEnds, stop_kept};
use cpg_cluster::{RunOptions, Sessions, run_sessions};
use cpg_cred::Refusal;
use cpg_daemon::{Cluster, HistoryName};
use cpg_ring::Settings;
use std::alloc::Global;
use std::io::{Read, Write};
use std::marker::Brand;

/// Runs the script over a new cluster of those settings, whose nodes let in whom the words let in, and stops
/// the cluster. What that leaves is the keeper's.
///
/// A wrong word comes first, then settings out of their ranges, then the faults of the script.
#[tactic(auto, using(crate::proofs::Clustered::none_clustered, crate::proofs::Started::none_late))]
pub fn run_cluster<H: Host + 'static, R: Read, W: Write, K: KeepsEnds>(
    rt: H,
    alloc: Global,
    options: &RunOptions<OutputForm>,
    chances: Chances,
    settings: Settings,
    words: &[&str],
    reader: &mut R,
    writer: &mut W,
    keeper: &mut K,
) -> Result<(), Failure>
    ensures clusters { ClustersOf (output_as (options.now).form) settings (list_of_words (map (λ word. word.now) words.now))
        (R.remaining reader.old) (failure_of result) (W.contents writer.old) (W.contents writer.new) }
    ensures late { IfErr result (λ failure. FailsLate failure (W.contents writer.old) (W.contents writer.new)) }
    ensures word { (result ≡ Err Failure.BadWord) ↔ (list_of_words (map (λ word. word.now) words.now) ≡ None) }
    ensures kept { OnOk result (WasKeptOf K.keeps settings (list_of_words (map (λ word. word.now) words.now)) keeper.old keeper.new) }
    ensures left { OnErr result ((keeper.new ≡ keeper.old) ⊎ WasKeptOf K.keeps settings (list_of_words (map (λ word. word.now) words.now)) keeper.old keeper.new) }
{
    match found(alloc, settings, words, keeper.is_asked()) {
        Err(failure) => Err(failure),
        Ok(foundation) => run_on::<Brand, H, R, W, K>(
            rt, alloc, options, chances, settings, foundation, reader, writer, keeper,
        ),
    }
}

/// Runs the script over a new cluster on that foundation.
#[tactic(auto, using(crate::proofs::Clustered::none_of_memory, crate::proofs::Clustered::ends_clustered))]
fn run_on<B, H: Host + 'static, R: Read, W: Write, K: KeepsEnds>(
    rt: H,
    alloc: Global,
    options: &RunOptions<OutputForm>,
    chances: Chances,
    settings: Settings,
    foundation: Foundation,
    reader: &mut R,
    writer: &mut W,
    keeper: &mut K,
) -> Result<(), Failure>
where
    B: HistoryName + Send + Sync + 'static,
    requires name { (foundation.board.cells ≡ B.cells) × (foundation.board.table ≡ B.table) × (new_world settings foundation.list ≡ B.start) }
    ensures clusters { ClustersOf (output_as (options.now).form) settings (Some foundation.list)
        (R.remaining reader.old) (failure_of result) (W.contents writer.old) (W.contents writer.new) }
    ensures late { IfErr result (λ failure. FailsLate failure (W.contents writer.old) (W.contents writer.new)) }
    ensures word { result ≢ Err Failure.BadWord }
    ensures kept { OnOk result (WasKept K.keeps B.start keeper.old keeper.new) }
    ensures left { OnErr result ((keeper.new ≡ keeper.old) ⊎ WasKept K.keeps B.start keeper.old keeper.new) }
{
    let Foundation { board, list } = foundation;
    match Cluster::<B, Chances>::start(rt, alloc, settings, board, &list, chances) {
        Err(_) => Err(Failure::from(Refusal::Memory)),
        Ok(cluster) => run_over(rt, alloc, options, cluster, reader, writer, keeper),
    }
}

/// Runs the script over the cluster, and stops it.
#[tactic(auto, using(cpg_cluster::proofs::Doing::runs_from_none, cpg_cluster::proofs::Doing::stops_from_none, crate::proofs::Clustered::part_late))]
fn run_over<B, H: Host, R: Read, W: Write, K: KeepsEnds>(
    rt: H,
    alloc: Global,
    options: &RunOptions<OutputForm>,
    cluster: Cluster<B, Chances>,
    reader: &mut R,
    writer: &mut W,
    keeper: &mut K,
) -> Result<(), Failure>
where
    B: HistoryName + Send + Sync + 'static,
    ensures ends { ClusterEnds (output_as (options.now).form) cluster.nodes B.start
        (R.remaining reader.old) (failure_of result) (W.contents writer.old) (W.contents writer.new) }
    ensures late { IfErr result (λ failure. FailsLate failure (W.contents writer.old) (W.contents writer.new)) }
    ensures word { result ≢ Err Failure.BadWord }
    ensures kept { WasKept K.keeps B.start keeper.old keeper.new }
{
    let mut sessions = Sessions::none(alloc);
    let done = run_sessions(&rt, alloc, reader, writer, &cluster, options, &mut sessions);
    drop(sessions);
    stop_kept(&rt, alloc, cluster, keeper);
    match done {
        Ok(()) => Ok(()),
        Err(fault) => Err(Failure::from(fault)),
    }
}
