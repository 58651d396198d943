//! A client of a load: a process at a node that joins, sends as fast as it may, and takes all that it is told.

use crate::gates::Fates;
use crate::load::{Load, Signals, Tally};
use crate::sessions::Open;
use cpg_cred::Refusal;
use cpg_daemon::{HistoryName, Running};
use cpg_entry::{Call, Message, Name};
use cpg_record::Event;
use std::alloc::Global;
use std::collections::VecDeque;
use std::sync::Wait;
use std::sync::atomic::Ordering;
use std::thread;
use std::time::{Clock, Instant};

/// How many events a client takes in one go at most before it submits again.
const MOST_TAKES: usize = 256;

/// How a client ended, with its times in nanoseconds since the start.
#[derive(Debug, Clone, Copy)]
pub struct Ended {
    /// When all had entered.
    pub begin: u64,
    /// When it was done.
    pub end: u64,
    /// The number that its messages and their order come to.
    pub order: u64,
    /// Whether it was refused nothing.
    pub whole: bool,
}

impl Ended {
    /// Of a client that was refused.
    pub const FAILED: Ended = Ended {
        begin: 0,
        end: 0,
        order: 0,
        whole: false,
    };
}

/// The nanoseconds since the start; 0 where the clock can't be read.
pub fn nanos_since<R: Clock>(rt: &R, start: Instant) -> u64 {
    match start.elapsed(rt) {
        Ok(spent) => u64::try_from(spent.as_nanos()).unwrap_or(u64::MAX),
        Err(_) => 0,
    }
}

/// What a client sends, what it took last, and how far it is.
#[derive(Drop)]
struct Client<'a> {
    alloc: Global,
    load: Load,
    signals: &'a Signals,
    index: usize,
    tally: Tally,
    /// What it submits next: calls that came back, or were not submitted yet.
    calls: VecDeque<Call>,
    /// The text of its next message, and how many were made.
    text: Vec<u8>,
    made: u32,
    taken: Vec<Event>,
}

impl<'a> Client<'a> {
    /// The client at the node of that index, which has done nothing.
    fn new(
        alloc: Global,
        load: Load,
        signals: &'a Signals,
        index: usize,
    ) -> Result<Client<'a>, Refusal> {
        Ok(Client {
            alloc,
            load,
            signals,
            index,
            tally: Tally::default(),
            calls: VecDeque::new(alloc),
            text: vec![in alloc; b'x'; load.size]?,
            made: 0,
            taken: Vec::new(alloc),
        })
    }

    /// Makes messages until so many calls are there. Each begins with its number: the first bytes of the text, up to four.
    fn fill(&mut self, count: u32) -> Result<(), Refusal> {
        for _ in self.calls.len()..count as usize {
            for (slot, byte) in self.text.iter_mut().zip(self.made.to_be_bytes().iter()) {
                *slot = *byte;
            }
            self.made = self.made.saturating_add(1);
            let message = Message::from_slice(self.alloc, self.text.as_slice())?;
            self.calls.push_back(Call::Send(message))?;
        }
        Ok(())
    }

    /// Submits so many calls at most, one by one, until the queue is full. Gives how many were admitted.
    fn submit_each<B: HistoryName, R: Wait>(
        &mut self,
        open: &mut Open<'_, B, R>,
        most: u32,
    ) -> Result<u32, Refusal> {
        for sent in 0..most {
            self.fill(1)?;
            let Some(call) = self.calls.pop_front() else {
                return Ok(sent);
            };
            if let Some(back) = open.submit(call)? {
                self.calls.push_front(back)?;
                return Ok(sent);
            }
        }
        Ok(most)
    }

    /// Submits so many calls in one go, until the queue is full. Gives how many were admitted.
    fn submit_many<B: HistoryName, R: Wait>(
        &mut self,
        open: &mut Open<'_, B, R>,
        most: u32,
    ) -> Result<u32, Refusal> {
        self.fill(most)?;
        let before = self.calls.len();
        match open.submit_many(&mut self.calls) {
            Ok(()) | Err(Refusal::QueueFull) => {
                let sent = before.saturating_sub(self.calls.len());
                Ok(u32::try_from(sent).unwrap_or(most))
            }
            Err(refusal) => Err(refusal),
        }
    }

    /// Submits until the queue is full, or as many as may be submitted now were admitted. Gives how many were.
    fn submit_all<B: HistoryName, R: Wait>(
        &mut self,
        open: &mut Open<'_, B, R>,
    ) -> Result<u32, Refusal> {
        let room = self.load.room(self.tally);
        match self.load.many {
            0 => self.submit_each(open, room),
            many => self.submit_many(open, room.min(many)),
        }
    }

    /// Takes in one go until there is no event, or so many were taken.
    fn take_all<B: HistoryName, R: Wait>(
        &mut self,
        open: &mut Open<'_, B, R>,
    ) -> Result<(), Refusal> {
        open.take_many(&mut self.taken, MOST_TAKES)?;
        for event in self.taken.iter() {
            self.tally = self.tally.after(event).ok_or(Refusal::Stopped)?;
        }
        self.taken.clear();
        Ok(())
    }

    /// Submits, unless the load is over, and takes, and tells how far it is; where it did neither, yields.
    fn step<B: HistoryName, R: Wait>(&mut self, open: &mut Open<'_, B, R>) -> Result<(), Refusal> {
        let (before, signals) = (self.tally, self.signals);
        if !signals.is_over() {
            let sent = self.submit_all(open)?;
            self.tally.sent = self.tally.sent.saturating_add(sent);
        }
        self.take_all(open)?;
        if self.tally == before {
            thread::yield_now();
        }
        if let Some(told) = signals.told.get(self.index) {
            told.store(self.tally.told, Ordering::SeqCst);
        }
        if self.load.sending > 0 && self.tally.sent >= self.load.messages {
            signals.over.store(true, Ordering::SeqCst);
        }
        Ok(())
    }

    /// Sends and takes until all is done.
    fn send_and_take<B: HistoryName, R: Wait>(
        &mut self,
        open: &mut Open<'_, B, R>,
    ) -> Result<(), Refusal> {
        for _ in open.rt.forever() {
            if self.signals.has_failed() {
                return Err(Refusal::Stopped);
            }
            if self.load.is_done(self.tally, self.signals.is_over()) {
                break;
            }
            self.step(open)?;
        }
        Ok(())
    }
}

/// Whether the event tells of a group with so many members.
fn tells_of(event: &Event, count: usize) -> bool {
    match event {
        Event::Change { members, .. } => members.as_slice().len() == count,
        _ => false,
    }
}

/// Takes an event, if there is one, and says whether it tells of a group with so many members.
fn take_change<B: HistoryName, R: Wait>(
    open: &mut Open<'_, B, R>,
    count: usize,
) -> Result<Option<bool>, Refusal> {
    Ok(open.take()?.map(|event| tells_of(&event, count)))
}

/// Takes events until a change tells of as many members as there are nodes.
fn take_joins<B: HistoryName, R: Wait>(
    open: &mut Open<'_, B, R>,
    signals: &Signals,
) -> Result<(), Refusal> {
    let all = usize::from(open.running.nodes());
    for _ in open.rt.forever() {
        match take_change(open, all)? {
            Some(true) => break,
            Some(false) => {}
            None if signals.has_failed() => return Err(Refusal::Stopped),
            None => thread::yield_now(),
        }
    }
    Ok(())
}

/// Joins the group, and waits until it was told of the join of all, and all others were.
fn enter<B: HistoryName, R: Wait>(
    open: &mut Open<'_, B, R>,
    signals: &Signals,
    join: Call,
) -> Result<(), Refusal> {
    if open.submit(join)?.is_some() {
        return Err(Refusal::QueueFull);
    }
    take_joins(open, signals)?;
    signals.entered.fetch_add(1, Ordering::SeqCst);
    if signals.wait_for(open.rt, open.running.nodes()) {
        Ok(())
    } else {
        Err(Refusal::Stopped)
    }
}

/// What a client does from its first call to its end.
fn serve<B: HistoryName, R: Wait + Clock>(
    rt: &R,
    running: &Running<B, Fates>,
    client: &mut Client<'_>,
    start: Instant,
) -> Result<Ended, Refusal> {
    let index = u8::try_from(client.index).unwrap_or(u8::MAX);
    let mut open = Open::at(rt, running, index)?;
    let join = Call::Join(Name::from_slice(client.alloc, b"load")?);
    enter(&mut open, client.signals, join)?;
    let begin = nanos_since(rt, start);
    client.send_and_take(&mut open)?;
    Ok(Ended {
        begin,
        end: nanos_since(rt, start),
        order: client.tally.order,
        whole: true,
    })
}

/// The client at the node of that index, from 0, from its session to its end.
pub fn run_client<B: HistoryName, R: Wait + Clock>(
    rt: &R,
    alloc: Global,
    running: &Running<B, Fates>,
    load: Load,
    signals: &Signals,
    start: Instant,
    index: usize,
) -> Ended {
    let ended = match Client::new(alloc, load, signals, index) {
        Ok(mut client) => serve(rt, running, &mut client, start).unwrap_or(Ended::FAILED),
        Err(_) => Ended::FAILED,
    };
    if !ended.whole {
        signals.fail();
    }
    ended
}
