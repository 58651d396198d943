//! What a node's thread does: turn after turn, until its station is halted.

ghost use Rattle.std.specs.Prelude.{◌≡◌, ◌≤◌, ◌+◌, IfSome, IsTrue, vec_len};

use crate::gates::Gate;
use crate::lines::{Incoming, Lines, Outgoing};
use crate::running::Running;
use cpg_cred::NodeId;
use cpg_history::{History, HistoryName, Member, Parcel, Parcels};
use cpg_link::{Bell, Depth, News};
use std::sync::Wait;
use std::thread;

/// How a node's thread paces its turns: the policy is this project's own. Turns, tokens and frames are counted in a row;
/// sleeps are in microseconds, and each is at most so long.
///
/// A thread that finds no frame looks again for `looked_turns`, and then sleeps lightly between its turns until a frame
/// wakes it. After `idle_turns`, some milliseconds, it sends its last token again; a token comes round in less, even where
/// the nodes share a processor. With each token sent again it sleeps longer, up to `slowest_resent` times, so that
/// whoever's token is the last finds the time for its own idle turns. After `most_in_vain` of them, or frames refused, it
/// takes it that there is no way on.
///
/// After `calm_tokens` that brought nothing and took nothing along a ring is calm: in so many rounds the places that were
/// given out have been asked for and delivered. A thread then waits longer for a token, and so doesn't send its own again
/// where another thread is late or at rest. `lost_stale` frames refused show that a token was lost, and not only sent again
/// too early: the ring is calm no more. After `rest_tokens` it is at rest: so many more that all nodes are calm before the
/// first of them rests, whose counts differ by a round or two. A thread at rest is woken by data and by calls; eight that
/// wake by themselves as seldom as this use less than a hundredth of a processor. The token moves on with each sleep that
/// ends, and so comes round within eight of `due_turns`, after which it is overdue.
///
/// A thread takes at most `turns_at_once` before it delivers: so many frames are a burst and the token behind it. Between
/// two visits of the token at most 56 places come, of seven other nodes, so that no frame is too far ahead of a node that has
/// yet to deliver, unless it is late by a round.
#[derive(Debug, Clone, Copy)]
struct Pacing {
    looked_turns: u32,
    light_micros: u64,
    idle_turns: u32,
    slowest_resent: u32,
    most_in_vain: u32,
    vain_micros: u64,
    calm_tokens: u32,
    calm_micros: u64,
    lost_stale: u32,
    rest_tokens: u32,
    deep_micros: u64,
    due_turns: u32,
    turns_at_once: u32,
}

const PACING: Pacing = Pacing {
    looked_turns: 32,
    light_micros: 50,
    idle_turns: 64,
    slowest_resent: 15,
    most_in_vain: 1024,
    vain_micros: 10_000,
    calm_tokens: 6,
    calm_micros: 10_000,
    lost_stale: 2,
    rest_tokens: 12,
    deep_micros: 100_000,
    due_turns: 32,
    turns_at_once: 9,
};

/// What a turn did.
#[derive(Debug, Clone, Copy, PartialEq, Eq)]
enum Turn {
    /// It took no frame, and delivered nothing.
    Idle,
    /// It was refused a frame: somebody sent it again.
    Stale,
    /// It passed a token on, which brought nothing and took nothing along.
    Quiet,
    /// It took or sent data, or delivered.
    Busy,
}

impl Turn {
    /// Both parts of one turn.
    fn and(self, other: Turn) -> Turn {
        match (self, other) {
            (Turn::Busy, _) | (_, Turn::Busy) => Turn::Busy,
            (Turn::Quiet, _) | (_, Turn::Quiet) => Turn::Quiet,
            (Turn::Stale, _) | (_, Turn::Stale) => Turn::Stale,
            (Turn::Idle, Turn::Idle) => Turn::Idle,
        }
    }
}

/// How long nothing much has happened.
#[derive(Debug, Clone, Copy)]
struct IdleState {
    /// How many of the last turns were idle since a token was sent again.
    idle: u32,
    /// How many tokens in a row brought nothing and took nothing along, since a call was admitted.
    quiet: u32,
    /// How often a token was sent again since a frame came.
    resent: u32,
    /// How many frames were refused since one was not.
    stale: u32,
}

impl IdleState {
    /// After a turn that was busy.
    const NONE: IdleState = IdleState {
        idle: 0,
        quiet: 0,
        resent: 0,
        stale: 0,
    };

    /// After one turn more.
    fn after(self, turn: Turn) -> IdleState
        ensures { result.idle ≤ self.idle + 1 }
    {
        match turn {
            Turn::Busy => IdleState::NONE,
            Turn::Quiet => IdleState {
                quiet: self.quiet.saturating_add(1),
                ..IdleState::NONE
            },
            Turn::Stale => IdleState {
                quiet: self.quiet,
                stale: self.stale.saturating_add(1),
                ..IdleState::NONE
            },
            Turn::Idle => IdleState {
                idle: self.idle.saturating_add(1),
                ..self
            },
        }
    }

    /// After a token was sent again.
    fn after_resend(self) -> IdleState
        ensures { result.idle ≡ 0 }
    {
        IdleState {
            idle: 0,
            resent: self.resent.saturating_add(1),
            ..self
        }
    }

    /// After calls were admitted.
    fn after_calls(self) -> IdleState
        ensures { (result.quiet ≡ 0) × (result.idle ≡ self.idle) }
    {
        IdleState { quiet: 0, ..self }
    }

    /// Whether the ring is calm.
    fn is_calm(self) -> bool
        ensures { IsTrue result → 6 ≤ self.quiet }
    {
        self.quiet >= PACING.calm_tokens && self.stale < PACING.lost_stale
    }

    /// Whether the ring is at rest.
    fn is_rest(self) -> bool
        ensures { IsTrue result → (12 ≤ self.quiet) × (self.idle ≤ 32) × (self.resent ≡ 0) }
    {
        self.is_calm()
            && self.quiet >= PACING.rest_tokens
            && self.idle <= PACING.due_turns
            && self.resent == 0
    }

    /// How deep to sleep, once one turn more has found nothing.
    fn depth(self) -> Depth
        ensures awake { result ≡ Depth.Awake → self.idle ≡ 0 }
        ensures deep { result ≡ Depth.Deep → (12 ≤ self.quiet) × (self.idle ≤ 32) × (self.resent ≡ 0) }
    {
        if self.is_rest() {
            Depth::Deep
        } else if self.idle > 0 {
            Depth::Light
        } else {
            Depth::Awake
        }
    }

    /// For how many microseconds to sleep at most, if at all: a tenth of a second, however deep.
    fn most_micros(self) -> Option<u64>
        ensures { IfSome result (λ micros. micros ≤ 100_000) }
    {
        if self.is_rest() {
            Some(PACING.deep_micros)
        } else if self.resent > PACING.most_in_vain || self.stale > PACING.most_in_vain {
            Some(PACING.vain_micros)
        } else if self.is_calm() {
            Some(PACING.calm_micros)
        } else if self.idle <= PACING.looked_turns {
            None
        } else {
            Some(PACING.light_micros * u64::from(self.resent.min(PACING.slowest_resent) + 1))
        }
    }
}

/// What a node's thread goes by between its turns.
#[derive(Debug, Clone, Copy)]
struct Backoff {
    /// The number of the next turn; it stays at its last value.
    turn: u64,
    idle_state: IdleState,
    /// How many calls it knows to be admitted.
    calls: u64,
    /// Whether the last delivery was refused: each turn tries it again.
    owes: bool,
}

impl Backoff {
    /// Before the first turn.
    const FIRST: Backoff = Backoff {
        turn: 1,
        idle_state: IdleState::NONE,
        calls: 0,
        owes: false,
    };

    /// After one turn more, and so many calls.
    fn after(self, turn: Turn, calls: u64) -> Backoff {
        let idle_state = self.idle_state.after(turn);
        Backoff {
            turn: self.turn.saturating_add(1),
            idle_state: if calls == self.calls {
                idle_state
            } else {
                idle_state.after_calls()
            },
            calls,
            ..self
        }
    }

    /// Once the same turn delivered something, too, or was refused to, or neither.
    fn after_delivery(self, has_delivered: bool, owes: bool) -> Backoff
        ensures same { (result.turn ≡ self.turn) × (result.calls ≡ self.calls) × (result.owes ≡ owes) }
        ensures idle { result.idle_state.idle ≤ self.idle_state.idle }
    {
        Backoff {
            idle_state: if has_delivered {
                IdleState::NONE
            } else {
                self.idle_state
            },
            owes,
            ..self
        }
    }
}

/// What it was to hear a frame that was answered with so many.
fn turn_of(answers: usize) -> Turn {
    if answers == 1 {
        Turn::Quiet
    } else {
        Turn::Busy
    }
}

/// Sends a frame to all other nodes. The last link gets the frame itself, and the others share its bytes; those for which
/// memory is refused are lost.
fn send_data<B: HistoryName, G: Gate, R: Wait>(
    rt: &R,
    gate: &G,
    history: &History<B>,
    mut packet: Parcel<B>,
    outgoing: &mut [Outgoing<B>],
) {
    let Some((last, others)) = outgoing.split_last_mut() else {
        return;
    };
    for end in others.iter_mut() {
        if let Ok(again) = packet.again(history) {
            end.send(rt, gate, history, again);
        }
    }
    if last.way.from != last.way.to {
        last.send(rt, gate, history, packet);
    }
}

/// Sends a token to the next node.
fn send_token<B: HistoryName, G: Gate, R: Wait>(
    rt: &R,
    gate: &G,
    history: &History<B>,
    next: NodeId,
    token: Parcel<B>,
    outgoing: &mut [Outgoing<B>],
) {
    if let Some(end) = outgoing.iter_mut().find(|end| end.way.to == next) {
        end.send(rt, gate, history, token);
    }
}

/// Takes at most one frame from each link. Says whether there was one. A frame that is still being put is left to the next
/// turn.
fn take_each<B: HistoryName>(incoming: &mut [Incoming<B>]) -> bool {
    let mut some = false;
    for end in incoming.iter_mut() {
        end.frame = end.link.take_now();
        some = some || end.frame.is_some();
    }
    some
}

/// Whether any of the frames that were heard is answered.
fn are_answered<B: HistoryName>(incoming: &[Incoming<B>]) -> bool {
    incoming.iter().any(|end| end.answer.is_some())
}

/// Waits between two turns until the thread's bell is rung, for as long at most as the idle state says.
fn rest<R: Wait>(rt: &R, bell: &Bell, idle_state: IdleState) {
    if !idle_state.is_rest() && bell.is_rung_soon() {
        return;
    }
    if let Some(micros) = idle_state.most_micros() {
        bell.sleep(rt, micros);
    }
}

impl<B: HistoryName, G: Gate> Running<B, G> {
    /// The node hears the frame of a link, if one was taken. A refused frame is lost.
    fn hear(&self, station: &mut Member<B>, end: &mut Incoming<B>) -> Turn {
        let Some(frame) = end.frame.take() else {
            return Turn::Idle;
        };
        match station.frame(&self.history, frame) {
            Ok(sent) => {
                let answers = sent.len();
                if answers > 0 {
                    end.answer = Some(sent);
                }
                turn_of(answers)
            }
            Err(_) => Turn::Stale,
        }
    }

    /// The node hears the frames that were taken, one after the other.
    fn hear_each(&self, station: &mut Member<B>, incoming: &mut [Incoming<B>]) -> Turn {
        let mut heard = Turn::Idle;
        for end in incoming.iter_mut() {
            heard = heard.and(self.hear(station, end));
        }
        heard
    }

    /// Wakes those to whom frames were sent: the next, for the token, and where data was, all.
    fn ring_for(&self, node: NodeId, frames: usize)
        requires { node ≤ self.now.nodes }
    {
        self.bell(self.next(node)).ring(News::Token);
        if frames > 1 {
            for bell in self.bells.iter() {
                bell.ring(News::Data);
            }
        }
    }

    /// Sends what a frame is answered with: its last is a token, which goes to the next node, the others are data, which
    /// goes to all others. What memory is refused for is lost.
    fn send_all<R: Wait>(
        &self,
        rt: &R,
        node: NodeId,
        sent: &mut Parcels<B>,
        outgoing: &mut [Outgoing<B>],
    )
        requires { node ≤ self.now.nodes }
    {
        let count = sent.len();
        let next = self.next(node);
        for index in 0..count {
            let Ok(frame) = sent.parcel(&self.history, index) else {
                continue;
            };
            if index + 1 < count {
                send_data(rt, &self.gate, &self.history, frame, outgoing);
            } else {
                send_token(rt, &self.gate, &self.history, next, frame, outgoing);
            }
        }
        self.ring_for(node, count);
    }

    /// Sends what the frames of a turn were answered with.
    fn answer_each<R: Wait>(
        &self,
        rt: &R,
        node: NodeId,
        incoming: &mut [Incoming<B>],
        outgoing: &mut [Outgoing<B>],
    )
        requires { node ≤ self.now.nodes }
    {
        for end in incoming.iter_mut() {
            if let Some(mut sent) = end.answer.take() {
                self.send_all(rt, node, &mut sent, outgoing);
            }
        }
    }

    /// Delivers what the node can, at the end of a turn. Before the lock is given back the node's flags say so.
    fn deliver_all<R: Wait>(
        &self,
        rt: &R,
        node: NodeId,
        backoff: Backoff,
        station: &mut Member<B>,
    ) -> Backoff
        requires { node ≤ self.now.nodes }
    {
        let mut has_delivered = false;
        let mut is_refused = false;
        for _ in rt.forever() {
            match station.deliver(&self.history, self.board()) {
                Ok(None) => break,
                Ok(Some(_)) => has_delivered = true,
                Err(_) => {
                    is_refused = true;
                    break;
                }
            }
        }
        self.show(node, has_delivered, is_refused);
        if is_refused && station.is_halted() {
            self.flags(node).halt();
        }
        backoff.after_delivery(has_delivered, is_refused)
    }

    /// Sends the node's last token again.
    fn send_again<R: Wait>(&self, rt: &R, node: NodeId, outgoing: &mut [Outgoing<B>])
        requires { node ≤ self.now.nodes }
    {
        if let Some(token) = self.timer(rt, node) {
            let next = self.next(node);
            send_token(rt, &self.gate, &self.history, next, token, outgoing);
            self.ring_for(node, 1);
        }
    }

    /// Has the node's flags say what became of its deliveries. A refusal may have halted the node.
    fn show(&self, node: NodeId, has_delivered: bool, is_refused: bool)
        requires { node ≤ self.now.nodes }
    {
        let flags = self.flags(node);
        if has_delivered || is_refused {
            flags.tell();
        }
        if is_refused {
            flags.open();
        }
    }

    /// What the thread goes by after what it heard in a turn. After a busy turn no call can make the ring less calm, so that
    /// it doesn't look for one.
    fn backed_off(&self, backoff: Backoff, heard: Turn) -> Backoff {
        let calls = if heard == Turn::Busy {
            backoff.calls
        } else {
            self.calls()
        };
        backoff.after(heard, calls)
    }

    /// How many turns in a row a thread takes under one lock at most, before it delivers what they brought. It asks the gate,
    /// so it is called while no lock is held.
    fn turns_at_once(&self) -> u32
        ensures { (1 ≤ result) × (result ≤ 9) }
    {
        if self.gate.lets_all_begin() {
            PACING.turns_at_once
        } else {
            1
        }
    }

    /// Turns in a row, the first of which has taken its frames. They end with one that is to be answered, with one that finds
    /// no frame, and where all are halted.
    fn hear_on(
        &self,
        backoff: Backoff,
        station: &mut Member<B>,
        incoming: &mut [Incoming<B>],
        turns: u32,
    ) -> Backoff {
        let mut backoff = self.backed_off(backoff, self.hear_each(station, incoming));
        for _ in 1..turns {
            if are_answered(incoming) || self.are_halted() {
                break;
            }
            if !take_each(incoming) {
                return self.backed_off(backoff, Turn::Idle);
            }
            backoff = self.backed_off(backoff, self.hear_each(station, incoming));
        }
        backoff
    }

    /// Whether what was heard is answered before anything is delivered, since other nodes wait for it. A node that is alone
    /// waits for itself only, so that it delivers under the lock that it has.
    fn is_awaited(&self, incoming: &[Incoming<B>]) -> bool
        ensures { IsTrue result → 2 ≤ self.now.nodes }
    {
        self.nodes > 1 && are_answered(incoming)
    }

    /// Such turns under one lock, the last of which delivers what the node can, where it is not to be answered first. Before
    /// the lock is given back under which the token took calls along, the node's flags say so.
    fn hear_under_lock<R: Wait>(
        &self,
        rt: &R,
        node: NodeId,
        backoff: Backoff,
        incoming: &mut [Incoming<B>],
    ) -> Backoff
        requires { node ≤ self.now.nodes }
    {
        let turns = self.turns_at_once();
        let mut station = self.hold(rt, node);
        let heard = self.hear_on(backoff, &mut station, incoming, turns);
        if are_answered(incoming) {
            self.flags(node).open();
        }
        if self.is_awaited(incoming) {
            return heard;
        }
        self.deliver_all(rt, node, heard, &mut station)
    }

    /// What is left of a turn once its frames were answered.
    fn deliver_after<R: Wait>(&self, rt: &R, node: NodeId, backoff: Backoff) -> Backoff
        requires { node ≤ self.now.nodes }
    {
        let mut station = self.hold(rt, node);
        self.deliver_all(rt, node, backoff, &mut station)
    }

    /// One turn, or several under one lock: what is heard is answered before anything is delivered, where others wait for the
    /// answer. It takes no lock where no frame came and no delivery is owed.
    fn turn<R: Wait>(
        &self,
        rt: &R,
        node: NodeId,
        backoff: Backoff,
        incoming: &mut [Incoming<B>],
        outgoing: &mut [Outgoing<B>],
    ) -> Backoff
        requires { node ≤ self.now.nodes }
    {
        if !take_each(incoming) && !backoff.owes {
            return self.backed_off(backoff, Turn::Idle);
        }
        let next = self.hear_under_lock(rt, node, backoff, incoming);
        let is_awaited = self.is_awaited(incoming);
        self.answer_each(rt, node, incoming, outgoing);
        if is_awaited {
            self.deliver_after(rt, node, next)
        } else {
            next
        }
    }

    /// Whether the thread is to end: all are halted, or its own station is. A station halts where it refuses a delivery that
    /// differs, and where it is not as a session knows it; whoever meets that has the node's flags say so before the lock is
    /// given back, so that none is taken here.
    fn is_over(&self, node: NodeId) -> bool
        requires { node ≤ self.now.nodes }
    {
        self.are_halted() || self.flags(node).is_halted()
    }

    /// One turn or several, and what the thread goes by after them. After so many idle turns the last token is sent again.
    fn go_on<R: Wait>(
        &self,
        rt: &R,
        node: NodeId,
        backoff: Backoff,
        incoming: &mut [Incoming<B>],
        outgoing: &mut [Outgoing<B>],
    ) -> Backoff
        requires { node ≤ self.now.nodes }
    {
        let next = self.turn(rt, node, backoff, incoming, outgoing);
        if next.idle_state.idle < PACING.idle_turns {
            return next;
        }
        self.send_again(rt, node, outgoing);
        Backoff {
            idle_state: next.idle_state.after_resend(),
            ..next
        }
    }

    /// A node's thread. It gives back its ends of links. What can end a sleep is looked at after the sleep is announced: the
    /// halt, the links and the calls.
    pub(crate) fn run<R: Wait>(&self, rt: &R, node: NodeId, mut lines: Lines<B>) -> Lines<B>
        requires { node ≤ self.now.nodes }
        ensures { (vec_len result.outgoing ≡ vec_len lines.outgoing) × (vec_len result.incoming ≡ vec_len lines.incoming) }
    {
        let mut backoff = Backoff::FIRST;
        for _ in rt.forever() {
            let depth = backoff.idle_state.depth();
            self.bell(node).announce(depth);
            if self.is_over(node) {
                break;
            }
            if !self.gate.may_turn(node, backoff.turn) {
                thread::yield_now();
                continue;
            }
            backoff = self.go_on(
                rt,
                node,
                backoff,
                lines.incoming.as_mut_slice(),
                lines.outgoing.as_mut_slice(),
            );
            if depth != Depth::Awake && backoff.idle_state.depth() == depth {
                rest(rt, self.bell(node), backoff.idle_state);
            }
        }
        lines
    }
}
