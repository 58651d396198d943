//! A link's two ends.

ghost use Rattle.std.specs.Prelude.{◌≡◌, true, [], ◌++◌, ◌≤◌, length, IfOk, IfErr, MatchOption, MatchResult, vec_capacity};
ghost use Rattle.crossbeam_queue.specs.Passes.{view, IsPassOf, ruled_capacity};
ghost use Rattle.cpg_cred.specs.declared.refusals.Refusal.TheVariants.{Memory};
ghost use Rattle.cpg_link.specs.Links.{known, most_frames, IsNoLink, AreEnds, MayBeFull, with_frame};

use crate::passes::{Empties, Ends, InOrder, Known, Puts, Takes};
use cpg_cred::{Refusal, Refused};
use crossbeam_queue::{Pass, RuledArrayQueue};
use std::alloc::Global;
use std::marker::Model;
use std::sync::{Arc, Wait};

/// The most frames that a link may have room for.
pub const MOST_FRAMES: usize = 4_096;

/// The numbers of this crate, told as numbers.
pub fn limits()
    ensures { most_frames ≡ 4096 }
{}

type Line<T> = RuledArrayQueue<T, Known<T>, InOrder>;

/// The sender's end. Contracts see the link, and the frames that were put.
#[derive(Drop)]
pub struct LinkTx<T> {
    line: Arc<Line<T>, Global>,
    pass: Pass<T, Known<T>>,
}

impl<T> Model for LinkTx<T> {
    ghost use Rattle.std.specs.Prelude.{◌≡◌, true, false, []};
    ghost use Rattle.std.specs.Arc.{arc_value};
    ghost use Rattle.crossbeam_queue.specs.Passes.{IsPassOf, ruled_capacity};
    ghost use Rattle.cpg_link.specs.Links.{LinkEnd, known, told};

    ghost Value = { LinkEnd T };

    ghost view = { λ end. record { link = end.pass.table_id; room = ruled_capacity (arc_value end.line); frames = (told end.pass).put } };

    ghost invariant = { λ end. IsPassOf (arc_value end.line) end.pass × (told end.pass ≡ known true false (told end.pass).put []) };
}

/// The receiver's end. Contracts see the link, and the frames that were taken.
#[derive(Drop)]
pub struct LinkRx<T> {
    line: Arc<Line<T>, Global>,
    pass: Pass<T, Known<T>>,
}

impl<T> Model for LinkRx<T> {
    ghost use Rattle.std.specs.Prelude.{◌≡◌, true, false, []};
    ghost use Rattle.std.specs.Arc.{arc_value};
    ghost use Rattle.crossbeam_queue.specs.Passes.{IsPassOf, ruled_capacity};
    ghost use Rattle.cpg_link.specs.Links.{LinkEnd, known, told};

    ghost Value = { LinkEnd T };

    ghost view = { λ end. record { link = end.pass.table_id; room = ruled_capacity (arc_value end.line); frames = (told end.pass).taken } };

    ghost invariant = { λ end. IsPassOf (arc_value end.line) end.pass × (told end.pass ≡ known false true [] (told end.pass).taken) };
}

/// A link with room for so many frames, from 1 to 4,096. Refused with Range for another number; with Memory.
pub fn link<T: Drop>(alloc: Global, capacity: usize) -> Result<(LinkTx<T>, LinkRx<T>), Refusal>
    ensures ends { IfOk result (λ ends. AreEnds ends.0 ends.1) }
    ensures room { IfOk result (λ ends. (ends.0.room ≡ capacity) × (ends.1.room ≡ capacity)) }
    ensures empty { IfOk result (λ ends. (ends.0.frames ≡ []) × (ends.1.frames ≡ [])) }
    ensures err { IfErr result (IsNoLink capacity) }
{
    if capacity == 0 || capacity > MOST_FRAMES {
        return Err(Refusal::Range);
    }
    let (line, mut pass) = Line::<T>::ruled(alloc, capacity)?;
    let other = line.another::<Ends>(&mut pass);
    let line = Arc::new(alloc, line)?;
    let theirs = Arc::try_clone(&line)?;
    Ok((
        LinkTx { line, pass },
        LinkRx {
            line: theirs,
            pass: other,
        },
    ))
}

impl<T: Drop> LinkTx<T> {
    /// Puts a frame behind those that were put. It comes back where the link is full. What a sender can know of that
    /// is proved: it has put as many as there is room for, or more.
    #[tactic(auto, using(crate::proofs::Carrying::filled))]
    pub fn put<R: Wait>(&mut self, rt: &R, frame: T) -> Result<(), T>
        ensures { MatchResult result (λ _. self.new ≡ with_frame self.old frame) (λ back. (back ≡ frame) × (self.new ≡ self.old) × MayBeFull self.old) }
    {
        self.line.push_as::<Puts, R>(rt, &mut self.pass, frame)
    }
}

impl<T: Drop> LinkRx<T> {
    /// Takes the next frame, if there is one.
    pub fn take<R: Wait>(&mut self, rt: &R) -> Option<T>
        ensures { MatchOption result (self.new ≡ self.old) (λ frame. self.new ≡ with_frame self.old frame) }
    {
        self.line.pop_as::<Takes, R>(rt, &mut self.pass)
    }

    /// Takes the next frame, if it is there at once: none also while its sender is still putting it. It never waits.
    pub fn take_now(&mut self) -> Option<T>
        ensures { MatchOption result (self.new ≡ self.old) (λ frame. self.new ≡ with_frame self.old frame) }
    {
        self.line.try_pop_as::<Takes>(&mut self.pass)
    }
}

/// What was left in a link whose two ends are given up: what was put is what was taken, followed by this.
/// Refused with Memory, which gives the ends back.
pub fn close<T: Drop, R: Wait>(
    rt: &R,
    alloc: Global,
    sender: LinkTx<T>,
    receiver: LinkRx<T>,
) -> Result<Vec<T>, Refused<(LinkTx<T>, LinkRx<T>)>>
    requires { AreEnds sender receiver }
    ensures { MatchResult result (λ left. sender.frames ≡ receiver.frames ++ left.items) (λ refused. (refused.refusal ≡ Memory) × (refused.back ≡ (sender, receiver))) }
{
    let Ok(left) = Vec::with_capacity(alloc, sender.line.capacity()) else {
        return Err(Refused {
            refusal: Refusal::Memory,
            back: (sender, receiver),
        });
    };
    let LinkTx { line, mut pass } = sender;
    let LinkRx {
        line: _,
        pass: other,
    } = receiver;
    line.absorb::<Ends>(&mut pass, other);
    Ok(drain(rt, &line, pass, left))
}

/// All that stands in the queue, for which there is room.
fn drain<T: Drop, R: Wait>(
    rt: &R,
    line: &Line<T>,
    mut pass: Pass<T, Known<T>>,
    mut left: Vec<T>,
) -> Vec<T>
    requires pass { IsPassOf line.now pass × (view pass ≡ known true true (view pass).put (view pass).taken) }
    requires room { (left.items ≡ []) × (ruled_capacity line.now ≤ vec_capacity left) }
    ensures { (view pass).put ≡ (view pass).taken ++ result.items }
{
    let count = line.len_as::<Empties, R>(rt, &mut pass);
    for _ in 0..count {
        let Some(frame) = line.pop_as::<Empties, R>(rt, &mut pass) else {
            return left;
        };
        left.push_reserved(frame);
    }
    line.learn_as::<Empties>(&mut pass);
    left
}
