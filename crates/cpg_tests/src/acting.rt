//! A test over a running cluster, as a list of steps: what its gate is told, and what its sessions do.

use crate::deeds::{Deed, TRIES, closes, does};
use crate::left::{Left, are_left};
use crate::playing::{Play, Stop, connect, gets_safe, holds, plays, safe_at};
use crate::stages::{Cue, Marks, Plan, Stage};
use cpg_cred::Refusal;
use cpg_daemon::{Ends, HistoryName, Running, Session};
use cpg_node::Settings;
use cpg_record::Event;
use std::alloc::Global;
use std::sync::{Arc, Wait};
use std::thread::Threads;
use std::time::Clock;

/// How many places a board has at most.
const MOST_PLACES: u32 = 1_048_576;

/// A step of a test. Sessions are numbered from 0, as they entered.
#[derive(Clone, Copy)]
pub enum Step {
    /// The gate does so.
    Gate(Cue),
    /// A process and its user are let in at the node.
    Enters(u8, u32, u32),
    /// A user is refused so at the node.
    Barred(u8, u32, Refusal),
    /// So many processes more are let in at the node.
    Crowds(u8, u32),
    /// The session does so.
    Does(usize, Deed),
    /// The first session has seen what the second one saw.
    Tells(usize, usize),
    /// The session is closed, or refused so.
    Closes(usize, Option<Refusal>),
    /// The node's safe mark is that place.
    Safe(u8, u32),
    /// It comes to be.
    GetsSafe(u8, u32),
    /// All nodes are halted.
    Halts,
}

/// The sessions of a test, and the events that were taken in goes.
#[derive(Drop)]
struct Crew<B: HistoryName> {
    sessions: Vec<Option<Session<B>>>,
    taken: Vec<Event>,
}

/// What comes of it, where memory is not refused at each try.
fn tried<T, F: FnMut() -> Result<T, Refusal>>(mut act: F) -> Result<T, Stop>
    requires { F.IsAlwaysCallable act }
{
    for _ in 0..TRIES {
        match act() {
            Ok(done) => return Ok(done),
            Err(Refusal::Memory) => {}
            Err(refusal) => return Err(Stop::Refused(refusal)),
        }
    }
    Err(Stop::Refused(Refusal::Memory))
}

/// So many processes of root are let in at the node. Nobody takes what they are told.
fn crowds<B: HistoryName, R: Wait>(
    rt: &R,
    running: &Running<B, Stage>,
    node: u8,
    count: u32,
) -> Result<(), Stop> {
    for _ in 0..count {
        drop(tried(|| connect(rt, running, node, 40, 0))?);
    }
    Ok(())
}

impl<B: HistoryName> Crew<B> {
    /// The session of that number, which is put back where it stays open.
    fn take_out(&mut self, number: usize) -> Result<Session<B>, Stop> {
        match self.sessions.get_mut(number) {
            Some(slot) => slot.take().ok_or(Stop::Wrong),
            None => Err(Stop::Wrong),
        }
    }

    /// The first session has seen what the second one saw.
    fn tells(
        &mut self,
        running: &Running<B, Stage>,
        number: usize,
        other: usize,
    ) -> Result<(), Stop> {
        let mut session = self.take_out(number)?;
        let told = match self.sessions.get(other) {
            Some(Some(other)) => tried(|| running.tell(&mut session, other.seat())),
            _ => Err(Stop::Wrong),
        };
        match self.sessions.get_mut(number) {
            Some(slot) => *slot = Some(session),
            None => drop(session),
        }
        told
    }

    /// Does a step of the sessions.
    fn acts<R: Wait + Clock>(
        &mut self,
        rt: &R,
        alloc: Global,
        running: &Running<B, Stage>,
        step: Step,
    ) -> Result<(), Stop> {
        match step {
            Step::Enters(node, pid, uid) => {
                let session = tried(|| connect(rt, running, node, pid, uid))?;
                match self.sessions.push(Some(session)) {
                    Ok(()) => Ok(()),
                    Err(_) => Err(Stop::Refused(Refusal::Memory)),
                }
            }
            Step::Does(number, deed) => match self.sessions.get_mut(number) {
                Some(Some(session)) => does(rt, alloc, running, session, &mut self.taken, deed),
                _ => Err(Stop::Wrong),
            },
            Step::Tells(number, other) => self.tells(running, number, other),
            Step::Closes(number, wanted) => {
                let session = self.take_out(number)?;
                holds(closes(rt, running, session)? == wanted)
            }
            _ => Err(Stop::Wrong),
        }
    }
}

/// Does a step of the gate or of the nodes; `None`: it is one of the sessions.
fn stands<B: HistoryName, R: Wait + Clock>(
    rt: &R,
    running: &Running<B, Stage>,
    marks: &Marks,
    step: Step,
) -> Option<Result<(), Stop>> {
    Some(match step {
        Step::Gate(cue) => holds(marks.follows(cue)),
        Step::Barred(node, uid, why) => {
            holds(connect(rt, running, node, 40, uid).err() == Some(why))
        }
        Step::Crowds(node, count) => crowds(rt, running, node, count),
        Step::Safe(node, place) => holds(safe_at(rt, running, node) == Ok(place)),
        Step::GetsSafe(node, place) => holds(gets_safe(rt, running, node, place)),
        Step::Halts => {
            running.halt(rt);
            Ok(())
        }
        _ => return None,
    })
}

/// A test: its steps, over what they go, and what the cluster leaves.
#[derive(Drop)]
pub struct Scene {
    pub settings: Settings,
    pub plan: Plan,
    pub steps: Vec<Step>,
    pub left: Left,
}

/// A scene with the marks of its gate.
#[derive(Drop)]
struct Staged {
    scene: Scene,
    marks: Arc<Marks, Global>,
}

impl Play<Stage> for Staged {
    fn goes<B: HistoryName, R: Wait + Clock>(
        &self,
        rt: &R,
        alloc: Global,
        running: &Running<B, Stage>,
    ) -> Result<(), Stop> {
        let mut crew = Crew {
            sessions: Vec::new(alloc),
            taken: Vec::new(alloc),
        };
        for step in self.scene.steps.iter() {
            match stands(rt, running, &self.marks, *step) {
                Some(done) => done?,
                None => crew.acts(rt, alloc, running, *step)?,
            }
        }
        holds(self.marks.are_right())
    }

    fn leaves<B: HistoryName, R: Wait>(&self, rt: &R, ends: Ends<B>) -> bool {
        are_left(rt, self.scene.settings.nodes, self.scene.left, ends)
    }
}

/// Whether a new cluster goes as the scene says.
pub fn is_played<R>(rt: R, alloc: Global, scene: Scene) -> Result<(), Stop>
where
    R: Threads + Wait + Clock + Copy + Send + 'static,
{
    let (stage, marks) = Stage::of(alloc, scene.plan)?;
    let settings = scene.settings;
    plays(
        rt,
        alloc,
        settings.places.clamp(1, MOST_PLACES),
        settings,
        stage,
        &Staged { scene, marks },
    )
}
