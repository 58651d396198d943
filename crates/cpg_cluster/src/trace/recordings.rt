//! What the stations of a stopped cluster recorded.

ghost use Rattle.std.specs.Prelude.{◌≡◌, ◌≤◌, ◌+◌, ◌++◌, ◌||◌, IfOk, OnOk, IsOkUnless, length};
ghost use Rattle.std.specs.List.Sorted.{IsPermutation};
ghost use Rattle.cpg_history.specs.Members.{HaveSeen};
ghost use Rattle.cpg_cluster.specs.TraceScripts.{HaveTraces, IsRecording, lines_of_all, is_cut};

use crate::trace::ordering::{gather, order};
use cpg_cred::Refusal;
use cpg_history::{Front, HistoryName, Member, Recorded};
use std::alloc::Global;

/// What a stopped cluster recorded.
#[derive(Drop)]
pub struct Recording {
    /// The events from the first on, in their order.
    pub script: Vec<Recorded>,
    /// Whether memory was refused for some that came behind them.
    pub cut: bool,
}

/// Of each of these stations, which have seen just what the front has, what was recorded is its node's events of that. The
/// function has nothing to do.
fn are_traced<B: HistoryName>(stations: &[Member<B>], front: &Front<B>)
    requires { HaveSeen stations.now front.now.seen }
    ensures { HaveTraces B.start front.now.seen stations.now }
{
    for station in stations {
        station.stands();
    }
    let _front = front;
}

/// Takes the last of the stations, and puts what it recorded behind the others.
fn gather_last<B: HistoryName>(
    stations: &mut Vec<Member<B>>,
    recording: &mut Recording,
) -> Result<(), Refusal>
    requires some { 1 ≤ length stations.old.items }
    ensures fewer { length stations.new.items + 1 ≡ length stations.old.items }
    ensures entries { OnOk result (IsPermutation (lines_of_all stations.old.items ++ (recording.old).script.items) (lines_of_all stations.new.items ++ (recording.new).script.items)) }
    ensures cut { OnOk result ((is_cut stations.new.items || (recording.new).cut) ≡ (is_cut stations.old.items || (recording.old).cut)) }
    ensures memory { IsOkUnless result Refusal.Memory }
{
    let Some(station) = stations.pop() else {
        return Ok(());
    };
    let trace = station.into_trace();
    recording.cut = recording.cut || trace.lost().is_some();
    gather(&mut recording.script, trace.into_entries())
}

/// What these stations recorded, which have seen just what the front has. Refused with Memory.
pub fn recorded_by<B: HistoryName>(
    alloc: Global,
    mut stations: Vec<Member<B>>,
    front: &Front<B>,
) -> Result<Recording, Refusal>
    requires { HaveSeen stations.items front.now.seen }
    ensures ok { IfOk result (λ r. IsRecording B.start front.now.seen stations.items r.script.items r.cut) }
    ensures memory { IsOkUnless result Refusal.Memory }
{
    let mut recording = Recording {
        script: Vec::new(alloc),
        cut: false,
    };
    are_traced(stations.as_slice(), front);
    for _ in 0..stations.len() {
        gather_last(&mut stations, &mut recording)?;
    }
    order(&mut recording.script);
    Ok(recording)
}
