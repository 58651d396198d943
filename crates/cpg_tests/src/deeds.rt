//! What a session of a test does, and what it is to be answered. Where memory is refused it is tried again, which changed
//! nothing.

use crate::playing::{
    MOST_ASKS, Stop, Told, ask, holds, in_short, is_here, list_both, next_told, pause, submit,
    submit_many, take_many,
};
use cpg_cred::Refusal;
use cpg_daemon::{HistoryName, Running, Session};
use cpg_entry::{Call, MOST_MESSAGE_BYTES, Message, Name};
use cpg_record::Event;
use std::alloc::Global;
use std::collections::VecDeque;
use std::sync::Wait;
use std::time::Clock;

/// How often a call is made before it is taken that memory has run out.
pub const TRIES: u32 = 30;

/// More calls than wait at a node, and more events than a session of these tests is told.
const MANY: u32 = 300;

/// A call.
#[derive(Clone, Copy)]
pub enum Say {
    Join(&'static [u8]),
    Text(&'static [u8]),
    /// The longest message.
    Long,
    Leave,
}

/// The longest message.
fn long_message(alloc: Global) -> Result<Message, Refusal> {
    let text = vec![in alloc; b'a'; MOST_MESSAGE_BYTES]?;
    Message::from_slice(alloc, text.as_slice())
}

impl Say {
    /// The call.
    fn call(self, alloc: Global) -> Result<Call, Refusal> {
        Ok(match self {
            Say::Join(name) => Call::Join(Name::from_slice(alloc, name)?),
            Say::Text(text) => Call::Send(Message::from_slice(alloc, text)?),
            Say::Long => Call::Send(long_message(alloc)?),
            Say::Leave => Call::Leave,
        })
    }
}

/// What a session does, and what comes of it.
#[derive(Clone, Copy)]
pub enum Deed {
    /// The call is admitted, or refused so.
    Calls(Say, Option<Refusal>),
    /// Messages are admitted until the queue is full.
    Fills,
    /// Of the calls, submitted in one go, the last so many stay, since the first of these is refused so.
    Together(&'static [Say], Option<Refusal>, usize),
    /// The calls, submitted in one go, come to be admitted, which are refused with QueueFull before.
    Empties(&'static [Say]),
    /// The session is told that next.
    Hears(Told),
    /// It is told some verdict next.
    Answered,
    /// It comes to be told that.
    Comes(Told),
    /// It is told these at once, one by one.
    Now(&'static [Told]),
    /// It takes what there is, and then is told twice that there is no more.
    Quiet,
    /// Of at most so many events that are taken in one go, so many are, or it is refused so.
    Takes(usize, Result<usize, Refusal>),
    /// Events are taken in one go until there are so many.
    TakesUpTo(usize),
    /// The events that were taken in goes are these.
    Took(&'static [Told]),
    /// So many members of `db` are listed, and so many groups.
    Lists(Result<usize, Refusal>),
    /// It has seen so many records.
    Knows(usize),
}

/// Whether it is the call, which came back.
fn is_back(alloc: Global, back: &Call, say: Say) -> Result<bool, Refusal> {
    let handed = say.call(alloc)?;
    Ok(back.equals(&handed))
}

/// What refuses the call, if anything does but want of memory; of that, the call comes back as it was.
fn calls<B: HistoryName, G, R: Wait>(
    rt: &R,
    alloc: Global,
    running: &Running<B, G>,
    session: &mut Session<B>,
    say: Say,
) -> Result<Option<Refusal>, Stop> {
    for _ in 0..TRIES {
        match submit(rt, running, session, say.call(alloc)?) {
            Ok(()) => return Ok(None),
            Err(refused) if refused.refusal != Refusal::Memory => {
                return Ok(Some(refused.refusal));
            }
            Err(refused) => holds(is_back(alloc, &refused.back, say)?)?,
        }
    }
    Err(Stop::Refused(Refusal::Memory))
}

/// Messages are admitted until the queue is full.
fn fills<B: HistoryName, G, R: Wait>(
    rt: &R,
    alloc: Global,
    running: &Running<B, G>,
    session: &mut Session<B>,
) -> Result<(), Stop> {
    for _ in 0..MANY {
        if let Some(refusal) = calls(rt, alloc, running, session, Say::Text(b"hi"))? {
            return holds(refusal == Refusal::QueueFull);
        }
    }
    Err(Stop::Wrong)
}

/// The calls.
fn all_of(alloc: Global, said: &[Say]) -> Result<VecDeque<Call>, Refusal> {
    let mut calls = VecDeque::new(alloc);
    for say in said {
        calls.push_back(say.call(alloc)?)?;
    }
    Ok(calls)
}

/// The calls come to be admitted.
fn empties<B: HistoryName, G, R: Wait + Clock>(
    rt: &R,
    running: &Running<B, G>,
    session: &mut Session<B>,
    mut calls: VecDeque<Call>,
) -> Result<(), Stop> {
    for asked in 0..MOST_ASKS {
        match submit_many(rt, running, session, &mut calls) {
            (None, left) => return holds(left == 0),
            (Some(Refusal::QueueFull), _) => pause(rt, asked),
            (Some(refusal), _) => return Err(Stop::Refused(refusal)),
        }
    }
    Err(Stop::Wrong)
}

/// The session comes to be told that.
fn comes<B: HistoryName, G, R: Wait + Clock>(
    rt: &R,
    running: &Running<B, G>,
    session: &mut Session<B>,
    wanted: Told,
) -> Result<(), Stop> {
    for _ in 0..MANY {
        let told = next_told(rt, running, session);
        if told == wanted {
            return Ok(());
        }
        holds(told != Told::Nothing)?;
    }
    Err(Stop::Wrong)
}

/// The session is told these at once, one by one.
fn is_told_now<B: HistoryName, G, R: Wait>(
    rt: &R,
    running: &Running<B, G>,
    session: &mut Session<B>,
    wanted: &[Told],
) -> Result<(), Stop> {
    for told in wanted {
        holds(ask(rt, running, session) == *told)?;
    }
    Ok(())
}

/// The session takes what there is, and then is told twice that there is no more.
fn is_quiet<B: HistoryName, G, R: Wait>(
    rt: &R,
    running: &Running<B, G>,
    session: &mut Session<B>,
) -> Result<(), Stop> {
    for _ in 0..MANY {
        match ask(rt, running, session) {
            Told::Nothing => return holds(ask(rt, running, session) == Told::Nothing),
            Told::Refused(refusal) => return Err(Stop::Refused(refusal)),
            _ => {}
        }
    }
    Err(Stop::Wrong)
}

/// Events are taken in one go until the list has so many. What is refused memory leaves those that were taken before.
fn takes_up_to<B: HistoryName, G, R: Wait + Clock>(
    rt: &R,
    running: &Running<B, G>,
    session: &mut Session<B>,
    taken: &mut Vec<Event>,
    count: usize,
) -> Result<(), Stop> {
    for asked in 0..MOST_ASKS {
        let most = count.saturating_sub(taken.len());
        match take_many(rt, running, session, taken, most) {
            Ok(_) | Err(Refusal::Memory | Refusal::Behind(_)) => {}
            Err(refusal) => return Err(Stop::Refused(refusal)),
        }
        if taken.len() >= count {
            return Ok(());
        }
        pause(rt, asked);
    }
    Err(Stop::Refused(Refusal::Memory))
}

/// Whether the events are these in short.
fn are_these(events: &[Event], wanted: &[Told]) -> bool {
    events.len() == wanted.len()
        && events
            .iter()
            .zip(wanted.iter())
            .all(|(event, wanted)| in_short(event) == *wanted)
}

/// How many members of `db` are listed, and how many groups: the answers are to be alike.
fn lists<B: HistoryName, G, R: Wait>(
    rt: &R,
    running: &Running<B, G>,
    session: &mut Session<B>,
    wanted: Result<usize, Refusal>,
) -> Result<(), Stop> {
    for _ in 0..TRIES {
        let (members, groups) = list_both(rt, running, session);
        if members != Err(Refusal::Memory) && groups != Err(Refusal::Memory) {
            return holds(members == wanted && groups == wanted);
        }
    }
    Err(Stop::Refused(Refusal::Memory))
}

/// What has to do with calls.
fn asks<B: HistoryName, G, R: Wait + Clock>(
    rt: &R,
    alloc: Global,
    running: &Running<B, G>,
    session: &mut Session<B>,
    deed: Deed,
) -> Result<(), Stop> {
    match deed {
        Deed::Calls(say, wanted) => holds(calls(rt, alloc, running, session, say)? == wanted),
        Deed::Fills => fills(rt, alloc, running, session),
        Deed::Together(said, wanted, left) => {
            let mut calls = all_of(alloc, said)?;
            holds(submit_many(rt, running, session, &mut calls) == (wanted, left))
        }
        Deed::Empties(said) => empties(rt, running, session, all_of(alloc, said)?),
        Deed::Lists(wanted) => lists(rt, running, session, wanted),
        _ => holds(deed_knows(session, deed)),
    }
}

/// Whether the session has seen as many records as the deed says.
fn deed_knows<B: HistoryName>(session: &Session<B>, deed: Deed) -> bool {
    matches!(deed, Deed::Knows(count) if session.seat().len() == count)
}

/// Does the deed. The events that are taken in goes stand in the list.
pub fn does<B: HistoryName, G, R: Wait + Clock>(
    rt: &R,
    alloc: Global,
    running: &Running<B, G>,
    session: &mut Session<B>,
    taken: &mut Vec<Event>,
    deed: Deed,
) -> Result<(), Stop> {
    match deed {
        Deed::Hears(wanted) => holds(next_told(rt, running, session) == wanted),
        Deed::Answered => holds(matches!(next_told(rt, running, session), Told::Verdict(_, _))),
        Deed::Comes(wanted) => comes(rt, running, session, wanted),
        Deed::Now(wanted) => is_told_now(rt, running, session, wanted),
        Deed::Quiet => is_quiet(rt, running, session),
        Deed::Takes(most, wanted) => {
            holds(take_many(rt, running, session, taken, most) == wanted)
        }
        Deed::TakesUpTo(count) => takes_up_to(rt, running, session, taken, count),
        Deed::Took(wanted) => holds(are_these(taken.as_slice(), wanted)),
        _ => asks(rt, alloc, running, session, deed),
    }
}

/// Closes the session, which comes back where memory is refused, with as many events taken. What refuses it otherwise.
pub fn closes<B: HistoryName, G, R: Wait>(
    rt: &R,
    running: &Running<B, G>,
    session: Session<B>,
) -> Result<Option<Refusal>, Stop> {
    let before = session.connection();
    let mut open = session;
    for _ in 0..TRIES {
        if !is_here(running, &open) {
            return Err(Stop::Wrong);
        }
        match running.close(rt, open) {
            Ok(()) => return Ok(None),
            Err(refused) => {
                holds(refused.back.connection() == before)?;
                if refused.refusal != Refusal::Memory {
                    return Ok(Some(refused.refusal));
                }
                open = refused.back;
            }
        }
    }
    Err(Stop::Refused(Refusal::Memory))
}
