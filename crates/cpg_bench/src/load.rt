//! What the clients are to do, how far each of them is, and what they tell each other while they run.

use cpg_cred::{NodeId, Refusal};
use cpg_record::{Event, Verdict};
use std::alloc::Global;
use std::sync::Wait;
use std::sync::atomic::{AtomicBool, AtomicU32, Ordering};
use std::thread;

/// How many places a ring has at most.
pub const MOST_PLACES: u32 = 1_048_576;

/// What each client is to do.
#[derive(Debug, Clone, Copy)]
pub struct Load {
    /// How many nodes there are, each with one client: 1 to 8.
    pub nodes: u8,
    /// How many messages a client sends at most.
    pub messages: u32,
    /// How many bytes a message has: 0 to 8,192.
    pub size: usize,
    /// How many messages a client has in flight at most: admitted, and their verdicts not taken yet.
    pub window: u32,
    /// How many calls a client submits in one go at most, where its window is open; 0: it submits them one by one.
    pub many: u32,
    /// For how many milliseconds all clients send, or until one of them has sent all its messages; 0: each sends all.
    pub sending: u64,
    /// For how many milliseconds of that time data to the last node is lost.
    pub lost: u64,
    /// Whether times are printed.
    pub timed: bool,
}

impl Load {
    /// The run without arguments.
    pub const SMALL: Load = Load {
        nodes: 1,
        messages: 10,
        size: 16,
        window: u32::MAX,
        many: 0,
        sending: 0,
        lost: 0,
        timed: false,
    };

    /// How many messages all clients send.
    pub fn total(self) -> u32 {
        u32::from(self.nodes).saturating_mul(self.messages)
    }

    /// How many places the ring needs: one for each message, and one for each client's join.
    pub fn places(self) -> u32 {
        self.total().saturating_add(u32::from(self.nodes))
    }

    /// How many messages more a client may submit now.
    pub fn room(self, tally: Tally) -> u32 {
        let in_flight = tally.sent.saturating_sub(tally.answered);
        let left = self.messages.saturating_sub(tally.sent);
        left.min(self.window.saturating_sub(in_flight))
    }

    /// Whether a client is done: where the load is over, once it was told of all that it sent itself, else once it
    /// was told of all that all sent.
    pub fn is_done(self, tally: Tally, over: bool) -> bool {
        if over {
            tally.answered >= tally.sent
        } else {
            tally.answered >= self.messages && tally.told >= self.total()
        }
    }
}

/// How far a client is.
#[derive(Debug, Clone, Copy, PartialEq, Eq, Default)]
pub struct Tally {
    /// How many messages of its own were admitted.
    pub sent: u32,
    /// How many verdicts on them it took.
    pub answered: u32,
    /// How many messages, of all clients, it took.
    pub told: u32,
    /// A number that these messages and their order come to.
    pub order: u64,
}

/// What messages come to, with one more.
fn mixed(order: u64, place: u32, node: NodeId, message: &[u8]) -> u64 {
    let length = message.len() as u64;
    let step = u64::from(place) << 24 ^ u64::from(node.get()) << 16 ^ length;
    (order ^ step).wrapping_mul(0x100_0000_01b3)
}

impl Tally {
    /// The tally after the event; none where no such event comes under a load: a refused message, a change of
    /// members or of rules.
    pub fn after(self, event: &Event) -> Option<Tally> {
        match event {
            Event::Verdict { verdict, .. } => match verdict {
                Verdict::Allowed(_) => Some(Tally {
                    answered: self.answered.saturating_add(1),
                    ..self
                }),
                _ => None,
            },
            Event::Message {
                place,
                node,
                message,
                ..
            } => Some(Tally {
                told: self.told.saturating_add(1),
                order: mixed(self.order, *place, *node, message.as_slice()),
                ..self
            }),
            _ => None,
        }
    }
}

/// What the clients, and whoever watches them, tell each other.
#[derive(Drop)]
pub struct Signals {
    /// How many clients were told of the join of all.
    pub entered: AtomicU32,
    /// Whether nothing is sent any more.
    pub over: AtomicBool,
    /// Whether a client was refused, so that all give up.
    failed: AtomicBool,
    /// How many messages each client took, in the order of their nodes.
    pub told: Vec<AtomicU32>,
}

impl Signals {
    /// For so many clients, which have done nothing.
    pub fn new(alloc: Global, clients: u8) -> Result<Signals, Refusal> {
        let mut told = Vec::new(alloc);
        for _ in 0..clients {
            told.push(AtomicU32::new(0))?;
        }
        Ok(Signals {
            entered: AtomicU32::new(0),
            over: AtomicBool::new(false),
            failed: AtomicBool::new(false),
            told,
        })
    }

    /// All give up.
    pub fn fail(&self) {
        self.failed.store(true, Ordering::SeqCst);
        self.over.store(true, Ordering::SeqCst);
    }

    /// Whether nothing is sent any more.
    pub fn is_over(&self) -> bool {
        self.over.load(Ordering::SeqCst)
    }

    /// Whether a client was refused.
    pub fn has_failed(&self) -> bool {
        self.failed.load(Ordering::SeqCst)
    }

    /// Waits until so many clients have entered. Whether they have: else one was refused.
    pub fn wait_for<R: Wait>(&self, rt: &R, clients: u8) -> bool {
        for _ in rt.forever() {
            if self.has_failed() {
                return false;
            }
            if self.entered.load(Ordering::SeqCst) >= u32::from(clients) {
                return true;
            }
            thread::yield_now();
        }
        unreachable!()
    }
}
