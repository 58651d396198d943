//! One node of the ring: the token's visits, the window, and what waits.
//!
//! The visit is that of Totem's single ring; the burst, the window and the limits are this project's own.
//! Proved: each call is exactly the definition in `specs/`, of which `every_schedule` is proved.

ghost use Rattle.std.specs.Prelude.{None, ◌≡◌, ◌↔◌, ◌+◌, ◌≤◌, ◌<◌, ◌^◌, ◌&&◌, ◌||◌, ◌++◌, ◌∷◌, [], not, length, take, IsTrue, IsSome, OnOk, OnErr, IfOk, IfErr, IfSome, IsOkUnless, nat_le, nat_lt};
ghost use Rattle.std.specs.Option.{option_copied};
ghost use Rattle.cpg_ring.specs.States.{IsSettings, is_held, is_call, calls, safe_mark};
ghost use Rattle.cpg_ring.specs.Visits.{burst_size, is_past, placed, reach, next_requests, is_own_or_none, next_aru, next_aru_id, next_token};
ghost use Rattle.cpg_ring.specs.Moves.{is_full, place_refusal, after_data, after_entry, after_delivery, next_entry};
ghost use Rattle.cpg_entry.specs.Ranges.{IsToken};
ghost use Rattle.cpg_ring.specs.Laws.{AllHeld};
ghost use Rattle.cpg_ring.specs.Rings.{refusal_of, visit_of, visited, with_state, data_refusal_of, full_refusal};
ghost use Rattle.cpg_entry.specs.Ranges.{IsPacket};
ghost use Rattle.cpg_ring.specs.Answers.{IsMade, IsAnswer, answer_of};
ghost use Rattle.cpg_ring.specs.Steps.{held_after};

mod visiting;

use crate::held::Held;
use crate::settings::{MOST_WAITING, Settings, WINDOW};
use crate::waiting::Waiting;
use cpg_cred::{MOST_NODES, Refused};
use cpg_entry::{
    Entry, Ledger, MOST_HOPS, MOST_PLACES, NodeId, Packet, Places, Refusal, Shelf, Token,
};
use std::alloc::Global;
use std::marker::Model;

/// One node of the ring. Contracts see it as its settings, its number and its state.
#[derive(Debug, Drop)]
pub struct Ring {
    alloc: Global,
    settings: Settings,
    node: NodeId,
    last_hop: Option<u64>,
    last_token: Option<Token>,
    held: Held,
    waiting: Waiting,
    aru_now: Option<u32>,
    aru_before: Option<u32>,
}

impl Model for Ring {
    ghost use Rattle.cpg_ring.specs.Rings.{RingNode};
    ghost use Rattle.cpg_ring.specs.Kept.{held_code, newest_two, IsRing};
    ghost use Rattle.std.specs.Coded.{codes};

    ghost Value = { RingNode };

    ghost coded = { Prim.hlevel (codes, held_code) };

    ghost view = { λ a. record { settings = a.settings; node = a.node; state = record { last_hop = a.last_hop; last_token = a.last_token; held = a.held.places; delivered = a.held.delivered; waiting = a.waiting; arus = newest_two a.aru_now a.aru_before } } };

    ghost invariant = { λ a. IsRing a.settings a.node a.held a.last_token };
}

/// Whether each setting is in its range.
pub fn are_settings(settings: &Settings) -> bool
    ensures { IsTrue result ↔ IsSettings settings.now }
{
    settings.nodes >= 1
        && settings.nodes <= MOST_NODES
        && settings.places >= 1
        && settings.places <= MOST_PLACES
        && settings.hops >= 1
        && settings.hops <= MOST_HOPS
}

impl Ring {
    /// A new node of that number: nothing is held, delivered or waiting. Refused with Range where a
    /// setting is out of its range, or the ring has no such node.
    pub fn new(alloc: Global, settings: Settings, node: NodeId) -> Result<Ring, Refusal>
        ensures { IsMade settings node result }
    {
        if !are_settings(&settings) || node.get() > settings.nodes {
            return Err(Refusal::Range);
        }
        let held = Held::new(alloc)?;
        let last_token = if node.get() == settings.nodes {
            Some(Token {
                ring: settings.ring,
                hop: 0,
                seq: 0,
                aru: 0,
                aru_id: None,
                rtr: Places::from_vec(Vec::new(alloc)),
            })
        } else {
            None
        };
        Ok(Ring {
            alloc,
            settings,
            node,
            last_hop: None,
            last_token,
            held,
            waiting: Waiting::new(alloc),
            aru_now: None,
            aru_before: None,
        })
    }

    /// The last place that was delivered, 0 before the first. All places up to it are held.
    pub fn delivered(&self) -> u32
        ensures value { result ≡ self.now.state.delivered }
        ensures held { AllHeld self.now.state.held result }
    {
        self.held.delivered()
    }

    /// How many entries wait for a place, ends of connections too.
    pub fn waiting(&self) -> usize
        ensures { result ≡ length self.now.state.waiting }
    {
        self.waiting.len()
    }

    /// The last token that the node sent; at first the ring's first token at its last node, and none
    /// elsewhere.
    pub fn resend(&self) -> Option<&Token>
        ensures sent { option_copied result ≡ self.now.state.last_token }
        ensures in_range { IfSome self.now.state.last_token IsToken }
    {
        self.last_token.as_ref()
    }

    /// The place up to which every node holds all places, in a ring that hears only what it sent.
    pub fn safe(&self) -> u32
        ensures { result ≡ safe_mark self.now.state.arus }
    {
        match (self.aru_now, self.aru_before) {
            (Some(now), Some(before)) => now.min(before),
            _ => 0,
        }
    }

    /// The entry at the place after the last delivered one; none exactly where it isn't held.
    pub fn next_place(&self) -> Option<&Entry>
        ensures entry { option_copied result ≡ next_entry self.now.state }
        ensures within { IfSome (next_entry self.now.state) (λ _. self.now.state.delivered < self.now.settings.places) }
    {
        self.held.get(self.held.delivered() + 1)
    }

    /// Takes the next place as delivered.
    pub fn advance(&mut self)
        requires { IsSome (next_entry self.old.state) }
        ensures { self.new ≡ with_state self.old (after_delivery self.old.state) }
    {
        self.held.advance();
    }

    /// Takes the first delivered entries that it has of its own from the shelf, where they lie for all that delivered
    /// the same: who asks the ring sees no difference. A ring of one node shares nothing.
    pub fn share(&mut self, shelf: &Shelf)
        ensures { self.new ≡ self.old }
    {
        if self.settings.nodes > 1 {
            self.held.share(shelf);
        }
    }

    /// What it delivered, for who frees it piece by piece; all else of it is freed.
    pub fn into_ledger(self) -> Ledger
        ensures { length result.items ≡ self.state.delivered }
    {
        self.held.into_ledger()
    }

    /// Puts a call last among the waiting entries. Refused with QueueFull exactly where 256 calls or more
    /// wait; ends of connections aren't counted.
    pub fn enqueue(&mut self, entry: Entry) -> Result<(), Refused<Entry>>
        ensures answer { IsAnswer (full_refusal self.old) (λ _. self.new ≡ with_state self.old (after_entry self.old.state entry)) (answer_of result) }
        ensures err { OnErr result (self.new ≡ self.old) }
        ensures back { IfErr result (λ refused. refused.back ≡ entry) }
    {
        if self.waiting.calls() >= MOST_WAITING {
            return Err(Refused {
                refusal: Refusal::QueueFull,
                back: entry,
            });
        }
        self.enqueue_end(entry)
    }

    /// Puts an entry last among the waiting ones, however many wait.
    pub fn enqueue_end(&mut self, entry: Entry) -> Result<(), Refused<Entry>>
        ensures answer { IsAnswer None (λ _. self.new ≡ with_state self.old (after_entry self.old.state entry)) (answer_of result) }
        ensures err { OnErr result (self.new ≡ self.old) }
        ensures back { IfErr result (λ refused. refused.back ≡ entry) }
    {
        match self.waiting.push(entry) {
            Ok(()) => Ok(()),
            Err(back) => Err(Refused {
                refusal: Refusal::Memory,
                back,
            }),
        }
    }

    /// Why data of that ring for that place is refused, if it is: the first that fits of Foreign,
    /// Implausible, Held, FarAhead. It needs no memory, and no packet yet.
    pub fn data_refusal(&self, ring: u32, place: u32) -> Option<Refusal>
        ensures { result ≡ place_refusal self.now.settings self.now.state ring place }
    {
        if ring != self.settings.ring {
            return Some(Refusal::Foreign);
        }
        if self.settings.places < place {
            return Some(Refusal::Implausible);
        }
        if self.held.holds(place) {
            return Some(Refusal::Held);
        }
        if self.held.delivered() + WINDOW < place {
            return Some(Refusal::FarAhead);
        }
        None
    }

    /// Holds the packet, or gives it back with the first refusal that fits: Foreign, Implausible, Held,
    /// FarAhead; then Memory.
    pub fn on_data(&mut self, packet: Packet) -> Result<(), Refused<Packet>>
        requires { IsPacket packet }
        ensures answer { IsAnswer (data_refusal_of self.old packet) (λ _. self.new ≡ with_state self.old (after_data self.old.state packet)) (answer_of result) }
        ensures err { OnErr result (self.new ≡ self.old) }
        ensures back { IfErr result (λ refused. refused.back ≡ packet) }
    {
        if let Some(refusal) = self.data_refusal(packet.ring, packet.place) {
            return Err(Refused {
                refusal,
                back: packet,
            });
        }
        if self.held.make_room().is_err() {
            return Err(Refused {
                refusal: Refusal::Memory,
                back: packet,
            });
        }
        self.held.hold(packet.place, packet.entry);
        Ok(())
    }
}
