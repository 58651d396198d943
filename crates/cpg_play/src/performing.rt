//! `--checked`: a new world or a new cluster, and the script that checks itself over it.
//!
//! Proved: a wrong word comes first, what a script writes over a world and whether all was as wanted, what a stopped
//! cluster leaves is the keeper's, and the exit status.

ghost use Rattle.std.specs.Prelude.{◌≡◌, ◌≢◌, ◌↔◌, [], Err, Some, None, map, OnOk, IfOk, IfSome, IsTrue};
ghost use Rattle.std.specs.Io.Buffered.{writer_buffer};
ghost use Rattle.cpg_world_laws.specs.Worlds.{new_world};
ghost use Rattle.cpg_console.specs.Runs.{failure_of};
ghost use Rattle.cpg_console.specs.Tracing.{WasKept};
ghost use Rattle.cpg_console.specs.Pipes.{written};
ghost use Rattle.cpg_console.specs.Words.{list_of_words};
ghost use Rattle.cpg_play.specs.Worlds.{IsPlayedOverWorld};
ghost use Rattle.cpg_play.specs.Playing.{IsLeftOf, IsPlayedOn, failure_played, status_played, wanted_played};

use crate::clusters::OverCluster;
use crate::switches::{Switched, Switches};
use crate::walks::{play_lines, play_script};
use crate::worlds::OverWorld;
use cpg_cluster::WaitLimit;
use cpg_console::{
    Chances, Ended, Failure, Foundation, Host, KeepsEnds, Piped, failure_after, found, hand_on,
    stop_kept, tell, world_by,
};
use cpg_cred::Refusal;
use cpg_daemon::{Cluster, HistoryName};
use cpg_ring::Settings;
use std::alloc::{AllocError, Global};
use std::io::{BufWriter, Read, Write};
use std::marker::Brand;
use std::sync::Arc;

/// What a script that checks itself is played over.
#[derive(Debug, Clone, Copy)]
pub enum Stage {
    /// A new world, as `step` has it.
    World,
    /// A new cluster, as `run` or `shell` has it.
    Cluster(Live),
}

/// How a script is played over a cluster.
#[derive(Debug, Clone, Copy)]
pub struct Live {
    /// How long a wait without a time of its own looks.
    pub wait_limit: WaitLimit,
    /// What becomes of frames between nodes that are not cut.
    pub chances: Chances,
    /// Whether lines are typed, each answered at once.
    pub typed: bool,
}

/// How a script that checks itself ended.
#[derive(Debug, Drop)]
pub struct Played {
    /// How it ended, as any run.
    pub ended: Ended,
    /// Whether all that was printed is as its lines want it; true, too, where it ended early.
    pub wanted: bool,
}

impl Played {
    /// The exit status: that of the run, and 1 where it ended well and something was printed otherwise than wanted.
    pub fn status(&self) -> u8
        ensures { result ≡ status_played (self.now).ended.failure (self.now).wanted }
    {
        match &self.ended.failure {
            None if !self.wanted => 1,
            _ => self.ended.status(),
        }
    }
}

/// Plays the script over a new world or cluster of those settings, whose nodes let in whom the words let in. What a stopped
/// cluster leaves is the keeper's.
///
/// A wrong word comes first, then settings out of their ranges, then the faults of the script. Why it ended early is told
/// as `perform` tells it.
#[tactic(auto, using(crate::proofs::Flushing::word_played, crate::proofs::Flushing::kept_played, crate::proofs::Flushing::all_played))]
pub fn perform_play<H: Host + 'static, R: Read, W: Write + Drop, E: Write, K: KeepsEnds>(
    rt: H,
    alloc: Global,
    stage: &Stage,
    settings: Settings,
    words: &[&str],
    reader: &mut R,
    writer: &mut BufWriter<Piped<W>>,
    errors: &mut E,
    keeper: &mut K,
) -> Played
    ensures word { (result.ended.failure ≡ Some Failure.BadWord) ↔ (list_of_words (map (λ word. word.now) words.now) ≡ None) }
    ensures flushed { IsTrue result.ended.flushed → writer_buffer writer.new ≡ [] }
    ensures played { result.ended.failure ≡ None → IfSome (R.remaining reader.old) (λ script.
        IsPlayedOn stage.now settings (list_of_words (map (λ word. word.now) words.now)) script (written W.contents writer.old) (written W.contents writer.new) result.wanted) }
    ensures kept { result.ended.failure ≡ None → IsLeftOf K.keeps stage.now settings (list_of_words (map (λ word. word.now) words.now)) keeper.old keeper.new }
{
    let played = play(
        rt, alloc, stage, settings, words, reader, writer, errors, keeper,
    );
    let (wanted, done) = parted(played);
    let flushed = hand_on(writer);
    let failure = failure_after(done, flushed);
    let told = tell(errors, writer.get_ref().has_left(), &failure);
    Played {
        ended: Ended {
            failure,
            flushed,
            told,
        },
        wanted,
    }
}

/// Whether all was printed as wanted, which is said of what ended early, too; and how it ended.
fn parted(played: Result<bool, Failure>) -> (bool, Result<(), Failure>)
    ensures failure { failure_of result.1 ≡ failure_played played }
    ensures wanted { result.0 ≡ wanted_played played }
{
    match played {
        Ok(wanted) => (wanted, Ok(())),
        Err(failure) => (true, Err(failure)),
    }
}

/// Plays the script, and says whether all was printed as wanted.
fn play<H: Host + 'static, R: Read, W: Write, E: Write, K: KeepsEnds>(
    rt: H,
    alloc: Global,
    stage: &Stage,
    settings: Settings,
    words: &[&str],
    reader: &mut R,
    writer: &mut W,
    errors: &mut E,
    keeper: &mut K,
) -> Result<bool, Failure>
    ensures word { (result ≡ Err Failure.BadWord) ↔ (list_of_words (map (λ word. word.now) words.now) ≡ None) }
    ensures played { IfOk result (λ wanted. IfSome (R.remaining reader.old) (λ script.
        IsPlayedOn stage.now settings (list_of_words (map (λ word. word.now) words.now)) script (W.contents writer.old) (W.contents writer.new) wanted)) }
    ensures kept { OnOk result (IsLeftOf K.keeps stage.now settings (list_of_words (map (λ word. word.now) words.now)) keeper.old keeper.new) }
{
    match stage {
        Stage::World => play_over_world(alloc, settings, words, reader, writer, errors),
        Stage::Cluster(live) => match found(alloc, settings, words, keeper.is_asked()) {
            Err(failure) => Err(failure),
            Ok(foundation) => play_on::<Brand, H, R, W, E, K>(
                rt, alloc, live, settings, foundation, reader, writer, errors, keeper,
            ),
        },
    }
}

/// Plays the script over a new world.
fn play_over_world<R: Read, W: Write, E: Write>(
    alloc: Global,
    settings: Settings,
    words: &[&str],
    reader: &mut R,
    writer: &mut W,
    errors: &mut E,
) -> Result<bool, Failure>
    ensures word { (result ≡ Err Failure.BadWord) ↔ (list_of_words (map (λ word. word.now) words.now) ≡ None) }
    ensures played { IfOk result (λ wanted. IfSome (R.remaining reader.old) (λ script.
        IsPlayedOverWorld settings (list_of_words (map (λ word. word.now) words.now)) script (W.contents writer.old) (W.contents writer.new) wanted)) }
{
    match world_by(alloc, settings, words) {
        Err(failure) => Err(failure),
        Ok(world) => {
            let mut player = OverWorld { world };
            match play_script(alloc, &mut player, reader, writer, errors) {
                Ok(wanted) => Ok(wanted),
                Err(refusal) => Err(Failure::from(refusal)),
            }
        }
    }
}

/// Switches, and what shares them.
fn shared_switches(
    alloc: Global,
) -> Result<(Arc<Switches, Global>, Arc<Switches, Global>), AllocError> {
    let switches = Arc::new(alloc, Switches::open())?;
    let shared = switches.clone()?;
    Ok((switches, shared))
}

/// Plays the script over a new cluster on that foundation.
fn play_on<B, H: Host + 'static, R: Read, W: Write, E: Write, K: KeepsEnds>(
    rt: H,
    alloc: Global,
    live: &Live,
    settings: Settings,
    foundation: Foundation,
    reader: &mut R,
    writer: &mut W,
    errors: &mut E,
    keeper: &mut K,
) -> Result<bool, Failure>
where
    B: HistoryName + Send + Sync + 'static,
    requires name { (foundation.board.cells ≡ B.cells) × (foundation.board.table ≡ B.table) × (new_world settings foundation.list ≡ B.start) }
    ensures word { result ≢ Err Failure.BadWord }
    ensures kept { OnOk result (WasKept K.keeps B.start keeper.old keeper.new) }
{
    let Ok((switches, shared)) = shared_switches(alloc) else {
        return Err(Failure::from(Refusal::Memory));
    };
    let gate = Switched::new(shared, live.chances);
    let Foundation { board, list } = foundation;
    match Cluster::<B, Switched<Chances>>::start(rt, alloc, settings, board, &list, gate) {
        Err(_) => Err(Failure::from(Refusal::Memory)),
        Ok(cluster) => play_over(
            rt, alloc, live, &switches, cluster, reader, writer, errors, keeper,
        ),
    }
}

/// Plays the script over the cluster, and stops it.
fn play_over<B, H: Host, R: Read, W: Write, E: Write, K: KeepsEnds>(
    rt: H,
    alloc: Global,
    live: &Live,
    switches: &Switches,
    cluster: Cluster<B, Switched<Chances>>,
    reader: &mut R,
    writer: &mut W,
    errors: &mut E,
    keeper: &mut K,
) -> Result<bool, Failure>
where
    B: HistoryName + Send + Sync + 'static,
    ensures word { result ≢ Err Failure.BadWord }
    ensures kept { WasKept K.keeps B.start keeper.old keeper.new }
{
    let done = {
        let mut player = OverCluster::new(
            &rt,
            alloc,
            &cluster,
            switches,
            live.wait_limit,
            live.typed,
        );
        if live.typed {
            play_lines(alloc, &mut player, reader, writer, errors)
        } else {
            play_script(alloc, &mut player, reader, writer, errors)
        }
    };
    stop_kept(&rt, alloc, cluster, keeper);
    match done {
        Ok(wanted) => Ok(wanted),
        Err(refusal) => Err(Failure::from(refusal)),
    }
}
