//! A script of sessions over a cluster whose links lose and repeat frames prints what it prints over any other.

use crate::playing::{Play, Stop, holds, plays, settings_of};
use cpg_cluster::cluster_script;
use cpg_cred::NodeId;
use cpg_daemon::{Ends, Fate, Gate, HistoryName, Running};
use std::alloc::Global;
use std::sync::Wait;
use std::test::Fail;
use std::time::Clock;

/// Sessions that are refused, wait, list, audit and close: `examples/cluster_sessions.run`.
const SESSIONS: &[u8] =
    b"connect 1 40 7 100\nconnect 2 50 0 0\nconnect 2 60 9 9\ncall 2 insert db 0 deny list uid:8\nwait 2\nconnect 1 60 8 100\ncall 1 join db\nwait 1\nwait 1\ncall 1 send hi\nwait 1\nwait 1\nlist 1 db\ncall 3 leave\nwait 3\nlist 3 db\ngroups 3\naudit 3\nclose 3\n";

/// What they print.
const PRINTED: &[u8] =
    b"session 1\nsession 2\nrefused 2 Access\nadmitted\nevent 1 verdict allowed root\nsession 3\nadmitted\nevent 2 verdict allowed default\nevent 2 change db members 1/40 left - joined 1/40:join\nadmitted\nevent 3 verdict allowed default\nevent 3 message db 1 40 hi\nmembers 1/40\nadmitted\nevent 4 verdict denied closed\nrefused 21 Denied rule 1\ngroups\n1 2.1 50 0 0 insert db 0 deny list uid:8 -> allowed root group db members -\n2 1.1 40 7 100 join db -> allowed default group db members 1/40\n3 1.1 40 7 100 send hi -> allowed default group db members 1/40\n4 1.2 60 8 100 leave -> denied closed\nrecords 4\nclosed\n";

/// The gate that loses the first eight frames of each pair, and repeats all others.
#[derive(Debug, Clone, Copy)]
struct Lossy;

impl Gate for Lossy {
    fn fate(&self, _from: NodeId, _to: NodeId, index: u64) -> Fate {
        if index <= 8 { Fate::Drop } else { Fate::Repeat }
    }

    fn may_turn(&self, _node: NodeId, _turn: u64) -> bool {
        true
    }

    fn lets_all_begin(&self) -> bool {
        true
    }
}

/// Whether the script prints so over the running nodes.
fn prints<B: HistoryName, R: Wait + Clock>(
    rt: &R,
    alloc: Global,
    running: &Running<B, Lossy>,
    mut script: &[u8],
    answer: &[u8],
) -> bool {
    let mut written = Vec::new(alloc);
    let done = cluster_script(rt, alloc, &mut script, &mut written, running);
    done.is_ok() && written.as_slice() == answer
}

/// The sessions' script, and connections to the halted nodes, whoever asks.
struct Sessions;

impl Play<Lossy> for Sessions {
    fn goes<B: HistoryName, R: Wait + Clock>(
        &self,
        rt: &R,
        alloc: Global,
        running: &Running<B, Lossy>,
    ) -> Result<(), Stop> {
        let printed = prints(rt, alloc, running, SESSIONS, PRINTED);
        running.halt(rt);
        let asked = b"connect 1 40 7 100\nconnect 1 60 9 9\n";
        let answered = b"refused 20 Stopped\nrefused 20 Stopped\n";
        holds(printed && prints(rt, alloc, running, asked, answered))
    }

    fn leaves<B: HistoryName, R: Wait>(&self, _rt: &R, ends: Ends<B>) -> bool {
        drop(ends);
        true
    }
}

/// Frames that are lost or repeated change no line, and a halted cluster lets nobody in.
#[test]
fn lossy_links(rt: HostRuntime) -> Result<(), Fail> {
    plays(rt, rt.alloc(), 4_096, settings_of(2), Lossy, &Sessions)?;
    Ok(())
}
