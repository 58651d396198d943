//! The gate of the tests: it lets turns begin one after the other, as a test says, and notes what it is asked.

use crate::playing::Stop;
use cpg_cred::{NodeId, Refusal};
use cpg_daemon::{Fate, Gate};
use std::alloc::Global;
use std::sync::Arc;
use std::sync::atomic::{AtomicBool, AtomicU64, Ordering};
use std::thread;

/// How often a test looks for a turn at most.
const MOST_LOOKS: u32 = 50_000_000;

/// The turns of a node.
#[derive(Drop, Default)]
pub struct Turns {
    /// The last turn that may begin.
    last: AtomicU64,
    /// How many have begun.
    begun: AtomicU64,
    /// The turn that was asked for last.
    asked: AtomicU64,
}

impl Turns {
    /// Lets the turns up to that one begin.
    fn let_go(&self, turn: u64) {
        self.last.store(turn, Ordering::SeqCst);
    }

    /// Whether the turn may begin. It has to be the one after those that have begun: turns count from 1.
    fn ask(&self, turn: u64, wrong: &AtomicBool) -> bool {
        if turn != self.begun.load(Ordering::SeqCst).saturating_add(1) {
            wrong.store(true, Ordering::SeqCst);
        }
        self.asked.store(turn, Ordering::SeqCst);
        let may = turn <= self.last.load(Ordering::SeqCst);
        if may {
            self.begun.store(turn, Ordering::SeqCst);
        }
        may
    }

    /// Whether a turn after that one comes to be asked for: all up to it have ended then.
    fn ends(&self, turn: u64) -> bool {
        for _ in 0..MOST_LOOKS {
            if self.asked.load(Ordering::SeqCst) > turn {
                return true;
            }
            thread::yield_now();
        }
        false
    }
}

/// The frames of one way that the gate was asked for, and in which turns of the sender it was for the first three.
#[derive(Drop, Default)]
pub struct Frames {
    count: AtomicU64,
    first: AtomicU64,
    second: AtomicU64,
    third: AtomicU64,
}

impl Frames {
    /// Notes a frame of a turn. Frames count from 1, none left out.
    fn note(&self, index: u64, turn: u64, wrong: &AtomicBool) {
        if index != self.count.load(Ordering::SeqCst).saturating_add(1) {
            wrong.store(true, Ordering::SeqCst);
        }
        match index {
            1 => self.first.store(turn, Ordering::SeqCst),
            2 => self.second.store(turn, Ordering::SeqCst),
            3 => self.third.store(turn, Ordering::SeqCst),
            _ => {}
        }
        self.count.store(index, Ordering::SeqCst);
    }

    /// The turns of the first three.
    fn turns(&self) -> [u64; 3] {
        [
            self.first.load(Ordering::SeqCst),
            self.second.load(Ordering::SeqCst),
            self.third.load(Ordering::SeqCst),
        ]
    }

    /// Whether there come to be so many.
    fn gets(&self, count: u64) -> bool {
        for _ in 0..MOST_LOOKS {
            if self.count.load(Ordering::SeqCst) >= count {
                return true;
            }
            thread::yield_now();
        }
        false
    }
}

/// What the gate is told by a test, and what it notes.
#[derive(Drop, Default)]
pub struct Marks {
    one: Turns,
    two: Turns,
    /// The last turn of each further node that may begin.
    further: AtomicU64,
    /// From node 1 to node 2, from node 1 to node 3, and from node 2 to node 1.
    to_two: Frames,
    to_three: Frames,
    to_one: Frames,
    /// Whether a number of a turn or of a frame was not the next, or a node did not meet the other.
    wrong: AtomicBool,
}

/// A way of frames that is noted.
#[derive(Clone, Copy)]
pub enum Way {
    ToTwo,
    ToThree,
    ToOne,
}

/// What a test tells the gate, or wants of what it noted.
#[derive(Clone, Copy)]
pub enum Cue {
    /// The node's turns up to that one begin, and the last of them ends.
    Goes(u8, u64),
    /// The node's turns up to that one may begin.
    Lets(u8, u64),
    /// All turns of all nodes may.
    LetsAll,
    /// The gate comes to be asked for the node's turn after that one.
    Asked(u8, u64),
    /// It was asked for so many frames of the way.
    Sent(Way, u64),
    /// It comes to be.
    Gets(Way, u64),
    /// The first three frames of the way were of those turns; 0: there are fewer.
    In(Way, [u64; 3]),
}

impl Marks {
    fn turns(&self, node: u8) -> &Turns {
        if node == 1 { &self.one } else { &self.two }
    }

    fn frames(&self, way: Way) -> &Frames {
        match way {
            Way::ToTwo => &self.to_two,
            Way::ToThree => &self.to_three,
            Way::ToOne => &self.to_one,
        }
    }

    /// Lets all turns of all nodes begin.
    fn let_all_go(&self) {
        self.one.let_go(u64::MAX);
        self.two.let_go(u64::MAX);
        self.further.store(u64::MAX, Ordering::SeqCst);
    }

    /// Does what the cue says, and says whether all is as it says.
    pub fn follows(&self, cue: Cue) -> bool {
        match cue {
            Cue::Goes(node, turn) => {
                self.turns(node).let_go(turn);
                self.turns(node).ends(turn)
            }
            Cue::Lets(node, turn) => {
                self.turns(node).let_go(turn);
                true
            }
            Cue::LetsAll => {
                self.let_all_go();
                true
            }
            Cue::Asked(node, turn) => self.turns(node).ends(turn),
            Cue::Sent(way, count) => self.frames(way).count.load(Ordering::SeqCst) == count,
            Cue::Gets(way, count) => self.frames(way).gets(count),
            Cue::In(way, turns) => self.frames(way).turns() == turns,
        }
    }

    /// Whether turns and frames were counted from 1, none left out, and nodes met where they were to.
    pub fn are_right(&self) -> bool {
        !self.wrong.load(Ordering::SeqCst)
    }

    /// Notes a frame of the first two nodes.
    fn note(&self, from: NodeId, to: NodeId, index: u64) {
        let (way, turns) = match (from.get(), to.get()) {
            (1, 2) => (&self.to_two, &self.one),
            (1, 3) => (&self.to_three, &self.one),
            (2, 1) => (&self.to_one, &self.two),
            _ => return,
        };
        way.note(index, turns.begun.load(Ordering::SeqCst), &self.wrong);
    }

    /// The first turns of nodes 1 and 2 begin once both were asked for.
    fn meets(&self, node: u8, turn: u64) -> bool {
        self.turns(node).asked.store(turn, Ordering::SeqCst);
        let other = if node == 1 { &self.two } else { &self.one };
        if !other.ends(0) {
            self.wrong.store(true, Ordering::SeqCst);
        }
        true
    }
}

/// What becomes of turns, and of the frames from node 1. All other frames pass.
#[derive(Clone, Copy, PartialEq, Eq)]
pub enum Plan {
    Pass,
    Drop,
    Repeat,
    /// The first of each way is lost, the second is repeated, and the others pass.
    Mixed,
    /// Frames pass, and every turn may begin at once.
    Free,
    /// Frames pass, and the first turns of nodes 1 and 2 wait for each other.
    Meeting,
}

/// The gate.
#[derive(Drop)]
pub struct Stage {
    plan: Plan,
    marks: Arc<Marks, Global>,
}

impl Stage {
    /// A new gate, and its marks.
    pub fn of(alloc: Global, plan: Plan) -> Result<(Stage, Arc<Marks, Global>), Stop> {
        let Ok(marks) = Arc::new(alloc, Marks::default()) else {
            return Err(Stop::Refused(Refusal::Memory));
        };
        match Arc::try_clone(&marks) {
            Ok(own) => Ok((Stage { plan, marks: own }, marks)),
            Err(_) => Err(Stop::Refused(Refusal::Memory)),
        }
    }
}

impl Gate for Stage {
    fn fate(&self, from: NodeId, to: NodeId, index: u64) -> Fate {
        self.marks.note(from, to, index);
        match (self.plan, index) {
            _ if from.get() != 1 => Fate::Pass,
            (Plan::Drop, _) | (Plan::Mixed, 1) => Fate::Drop,
            (Plan::Repeat, _) | (Plan::Mixed, 2) => Fate::Repeat,
            _ => Fate::Pass,
        }
    }

    fn may_turn(&self, node: NodeId, turn: u64) -> bool {
        match (self.plan, node.get()) {
            (Plan::Free, _) => true,
            (Plan::Meeting, node) => self.marks.meets(node, turn),
            (_, 1) => self.marks.one.ask(turn, &self.marks.wrong),
            (_, 2) => self.marks.two.ask(turn, &self.marks.wrong),
            _ => turn <= self.marks.further.load(Ordering::SeqCst),
        }
    }

    fn lets_all_begin(&self) -> bool {
        self.plan == Plan::Free
    }
}
