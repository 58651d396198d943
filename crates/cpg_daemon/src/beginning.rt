//! How a cluster's threads begin.

ghost use Rattle.std.specs.Prelude.{◌≡◌, ◌≤◌, ◌<◌, ◌+◌, ◌*◌, All, IfOk, OnOk, vec_len, vec_capacity};
ghost use Rattle.std.specs.Arc.{arc_value};

use crate::gates::Gate;
use crate::lines::Lines;
use crate::running::Running;
use crate::stopping::{Begun, SoMany, Thread};
use cpg_cred::NodeId;
use cpg_history::HistoryName;
use std::alloc::{AllocError, Global};
use std::sync::{Arc, Wait};
use std::thread;
use std::thread::Threads;
use std::time::Clock;

/// The last so many ends of links of each kind.
fn last_lines<B: HistoryName>(lines: &mut Lines<B>, peers: usize) -> Result<Lines<B>, AllocError>
    requires { (peers ≤ vec_len lines.old.outgoing) × (peers ≤ vec_len lines.old.incoming) }
    ensures ok { IfOk result (λ last. (vec_len last.outgoing ≡ peers) × (vec_len last.incoming ≡ peers)) }
    ensures rest { OnOk result ((vec_len lines.new.outgoing + peers ≡ vec_len lines.old.outgoing) × (vec_len lines.new.incoming + peers ≡ vec_len lines.old.incoming)) }
{
    let outgoing = lines.outgoing.split_off(lines.outgoing.len() - peers)?;
    let incoming = lines.incoming.split_off(lines.incoming.len() - peers)?;
    Ok(Lines { outgoing, incoming })
}

/// A thread for the node, which holds those ends of links.
fn begin_one<B, G, R>(
    rt: R,
    running: &Arc<Running<B, G>, Global>,
    node: NodeId,
    lines: Lines<B>,
    peers: usize,
) -> Result<Thread<B>, AllocError>
where
    B: HistoryName + Send + Sync + 'static,
    G: Gate + Send + Sync + Drop + 'static,
    R: Threads + Wait + Clock + Copy + Send + 'static,
    requires node { node ≤ (arc_value running.now).nodes }
    requires lines { (vec_len lines.outgoing ≡ peers) × (vec_len lines.incoming ≡ peers) }
    ensures { IfOk result (λ thread. thread.promise.0 ≡ peers) }
{
    let theirs = Arc::try_clone(running)?;
    let thread = thread::spawn_with(
        &rt,
        SoMany(peers),
        move ||
            requires { node ≤ (arc_value theirs).nodes }
        { theirs.run(&rt, node, lines) },
    )?;
    Ok(thread)
}

/// A thread for each node, with its part of the ends of links. Where one is refused, some have begun.
#[tactic(auto, using(crate::proofs::Counting::last_fits))]
pub(crate) fn begin_all<B, G, R>(
    rt: R,
    running: &Arc<Running<B, G>, Global>,
    nodes: u8,
    peers: usize,
    lines: &mut Lines<B>,
    threads: &mut Begun<B>,
) -> Result<(), AllocError>
where
    B: HistoryName + Send + Sync + 'static,
    G: Gate + Send + Sync + Drop + 'static,
    R: Threads + Wait + Clock + Copy + Send + 'static,
    requires nodes { nodes ≡ (arc_value running.now).nodes }
    requires lines { (vec_len lines.old.outgoing ≡ nodes * peers) × (vec_len lines.old.incoming ≡ nodes * peers) }
    requires room { (vec_len threads.old.threads ≡ 0) × (nodes ≤ vec_capacity threads.old.threads) }
    ensures all { All (λ thread. thread.promise.0 ≡ peers) threads.new.threads.items }
    ensures few { vec_len threads.new.threads ≤ nodes }
    ensures ok { OnOk result (vec_len threads.new.threads ≡ nodes) }
{
    for before in 0..nodes {
        let Some(node) = NodeId::new(nodes - before) else {
            return Err(AllocError);
        };
        let ends = last_lines(lines, peers)?;
        let thread = begin_one(rt, running, node, ends, peers)?;
        threads.add(thread, peers);
    }
    Ok(())
}
