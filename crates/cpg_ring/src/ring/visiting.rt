//! The token's visits.
//!
//! Totem's single ring: what was asked for is sent again, waiting entries take places, the aru and the
//! requests are written anew, and the token goes on. Proved: a visit is exactly `visit_step`.

ghost use Rattle.std.specs.Prelude.{◌≡◌, ◌+◌, ◌≤◌, ◌<◌, ◌^◌, ◌&&◌, ◌||◌, ◌++◌, ◌-◌, None, min, not, length, take, drop, OnOk, OnErr, IfOk, IsOkUnless, nat_le, nat_lt, ◌==◌};
ghost use Rattle.std.specs.List.{filter};
ghost use Rattle.cpg_ring.specs.States.{is_held};
ghost use Rattle.cpg_ring.specs.Visits.{burst_size, hop_refusal, is_past, placed, reach, up_to, next_requests, is_own_or_none, sets_aru, next_aru, next_aru_id, next_token};
ghost use Rattle.cpg_entry.specs.Ranges.{Ascends, IsToken};
ghost use Rattle.cpg_ring.specs.Laws.{NoneAbove};
ghost use Rattle.cpg_ring.specs.Rings.{refusal_of, visit_of, visited};
ghost use Rattle.cpg_ring.specs.Answers.{IsAnswer, IsInRange};
ghost use Rattle.cpg_ring.specs.Steps.{hold_from, held_after, lacks};

use super::Ring;
use crate::held::Held;
use crate::settings::{BURST, WINDOW};
use crate::visit::{Packets, Visit};
use crate::waiting::Waiting;
use cpg_entry::{MOST_PLACES, MOST_REQUESTS, NodeId, Packet, Places, Refusal, Token};

/// Whether that hop or a later one was accepted.
fn is_past(hop: u64, last: Option<u64>) -> bool
    ensures { result ≡ is_past hop last }
{
    match last {
        None => false,
        Some(last) => hop <= last,
    }
}

/// Whether the aru has no owner, or the node is it.
fn is_own_or_none(node: NodeId, owner: Option<NodeId>) -> bool
    ensures { result ≡ is_own_or_none node owner }
{
    match owner {
        None => true,
        Some(owner) => owner.get() == node.get(),
    }
}

/// Whether a node that holds all places up to `reach` sets the token's aru.
fn sets_aru(node: NodeId, reach: u32, token: &Token) -> bool
    ensures { result ≡ sets_aru node reach token.now }
{
    reach < token.aru || is_own_or_none(node, token.aru_id)
}

fn next_aru(node: NodeId, reach: u32, token: &Token) -> u32
    ensures { result ≡ next_aru node reach token.now }
{
    if sets_aru(node, reach, token) {
        reach
    } else {
        token.aru
    }
}

fn next_aru_id(node: NodeId, reach: u32, seq: u32, token: &Token) -> Option<NodeId>
    ensures { result ≡ next_aru_id node reach seq token.now }
{
    if !sets_aru(node, reach, token) {
        return token.aru_id;
    }
    if reach == seq { None } else { Some(node) }
}

/// The first waiting entries move over to what is held, with the places after `seq`. There is room.
fn take_places(waiting: &mut Waiting, held: &mut Held, seq: u32, count: u32)
    requires ready { count ≤ length waiting.old }
    requires low { held.old.delivered ≤ seq }
    requires window { count ≤ held.old.delivered + WINDOW - seq }
    requires most { seq + count ≤ MOST_PLACES }
    requires room { held.old.delivered + WINDOW ≤ held.old.room }
    ensures held { held.new ≡ record held.old { places = hold_from held.old.places seq (take count waiting.old) } }
    ensures waiting { waiting.new ≡ drop count waiting.old }
{
    for i in 0..count {
        if let Some(entry) = waiting.pop_first() {
            held.hold(seq + i + 1, entry);
        }
    }
}

/// The places asked for that are above `end` are added to the requests.
fn add_above(requests: &mut Vec<u32>, asked: &[u32], end: u32) -> Result<(), Refusal>
    ensures ok { OnOk result (requests.new.items ≡ requests.old.items ++ filter (nat_lt end) asked.now) }
    ensures memory { IsOkUnless result Refusal.Memory }
{
    for place in asked {
        if end < *place {
            requests.push(*place)?;
        }
    }
    Ok(())
}

impl Ring {
    /// Why a token of that ring, hop and seq is refused, if it is: the first that fits of Foreign, NotMine,
    /// Stale, Implausible, RingEnd. It needs no memory, and no token yet.
    pub fn token_refusal(&self, ring: u32, hop: u64, seq: u32) -> Option<Refusal>
        ensures { result ≡ hop_refusal self.now.settings self.now.node self.now.state ring hop seq }
    {
        if ring != self.settings.ring {
            return Some(Refusal::Foreign);
        }
        if hop % u64::from(self.settings.nodes) + 1 != u64::from(self.node.get()) {
            return Some(Refusal::NotMine);
        }
        if is_past(hop, self.last_hop) {
            return Some(Refusal::Stale);
        }
        if self.held.holds_above(seq) || self.settings.places < seq {
            return Some(Refusal::Implausible);
        }
        if self.settings.hops <= hop {
            return Some(Refusal::RingEnd);
        }
        None
    }

    /// How many waiting entries take places after `seq`.
    fn burst_size(&self, seq: u32) -> u32
        ensures { result ≡ burst_size self.now.settings self.now.state seq }
    {
        let ready = self.waiting.len().min(BURST) as u32;
        let places = self.settings.places.saturating_sub(seq);
        let window = (self.held.delivered() + WINDOW).saturating_sub(seq);
        ready.min(places.min(window))
    }

    /// Whether a place is held once `count` entries have the places after `seq`.
    fn holds_after(&self, seq: u32, count: u32, place: u32) -> bool
        requires ready { count ≤ length self.now.state.waiting }
        requires fits { seq + count < 2 ^ 32 }
        ensures { result ≡ is_held (held_after self.now seq count) place }
    {
        self.held.holds(place) || seq < place && place <= seq + count
    }

    /// The last place up to `seq` that the node may hold: none above the window is held.
    fn last_place(&self, seq: u32) -> u32
        ensures value { result ≡ min seq (self.now.state.delivered + WINDOW) }
        ensures above { NoneAbove self.now.state.held (self.now.state.delivered + WINDOW) }
    {
        seq.min(self.held.delivered() + WINDOW)
    }

    /// The greatest number up to which all places are then held.
    fn reach_after(&self, seq: u32, count: u32) -> u32
        requires ready { count ≤ length self.now.state.waiting }
        requires fits { seq + count < 2 ^ 32 }
        requires delivered { self.now.state.delivered ≤ seq }
        requires window { count ≤ self.now.state.delivered + WINDOW - seq }
        ensures { result ≡ reach (held_after self.now seq count) (seq + count) }
    {
        let end = self.last_place(seq + count);
        for place in self.held.delivered()..end {
            if !self.holds_after(seq, count, place + 1) {
                return place;
            }
        }
        end
    }

    /// The places that are then to be asked for, the least ones.
    fn requests_after(&self, seq: u32, count: u32, asked: &[u32]) -> Result<Vec<u32>, Refusal>
        requires ready { count ≤ length self.now.state.waiting }
        requires fits { seq + count < 2 ^ 32 }
        requires delivered { self.now.state.delivered ≤ seq }
        requires window { count ≤ self.now.state.delivered + WINDOW - seq }
        requires asked { Ascends 0 seq asked.now }
        ensures ok { IfOk result (λ requests. requests.items ≡ next_requests (held_after self.now seq count) self.now.state.delivered (seq + count) asked.now) }
        ensures memory { IsOkUnless result Refusal.Memory }
    {
        let end = self.last_place(seq + count);
        let mut requests = self.missing_after(seq, count, end)?;
        add_above(&mut requests, asked, end)?;
        requests.truncate(MOST_REQUESTS);
        Ok(requests)
    }

    /// The places up to `end` that are not held then.
    fn missing_after(&self, seq: u32, count: u32, end: u32) -> Result<Vec<u32>, Refusal>
        requires delivered { self.now.state.delivered ≤ end }
        requires ready { count ≤ length self.now.state.waiting }
        requires fits { seq + count < 2 ^ 32 }
        ensures ok { IfOk result (λ requests. requests.items ≡ filter (lacks (held_after self.now seq count)) (up_to end)) }
        ensures memory { IsOkUnless result Refusal.Memory }
    {
        let mut requests = Vec::new(self.alloc);
        for i in self.held.delivered()..end {
            if !self.holds_after(seq, count, i + 1) {
                requests.push(i + 1)?;
            }
        }
        Ok(requests)
    }

    /// The token that goes on once `count` entries have places.
    fn next_token(&self, token: &Token, count: u32) -> Result<Token, Refusal>
        requires ready { count ≤ length self.now.state.waiting }
        requires fits { token.now.seq + count < 2 ^ 32 }
        requires hop { token.now.hop < 2 ^ 63 }
        requires delivered { self.now.state.delivered ≤ token.now.seq }
        requires window { count ≤ self.now.state.delivered + WINDOW - token.now.seq }
        requires asked { Ascends 0 token.now.seq token.now.rtr }
        ensures ok { IfOk result (λ next. next ≡ next_token self.now.node token.now (token.now.seq + count) (held_after self.now token.now.seq count) self.now.state.delivered) }
        ensures memory { IsOkUnless result Refusal.Memory }
    {
        let seq = token.seq + count;
        let reach = self.reach_after(token.seq, count);
        let requests = self.requests_after(token.seq, count, token.rtr.as_slice())?;
        Ok(Token {
            ring: token.ring,
            hop: token.hop + 1,
            seq,
            aru: next_aru(self.node, reach, token),
            aru_id: next_aru_id(self.node, reach, seq, token),
            rtr: Places::from_vec(requests),
        })
    }

    /// Adds the packets of the first waiting entries, with the places after `seq`.
    fn place(&self, seq: u32, count: u32, packets: &mut Vec<Packet>) -> Result<(), Refusal>
        requires ready { count ≤ length self.now.state.waiting }
        requires fits { seq + count < 2 ^ 32 }
        ensures ok { OnOk result (packets.new.items ≡ packets.old.items ++ placed self.now.settings seq (take count self.now.state.waiting)) }
        ensures memory { IsOkUnless result Refusal.Memory }
    {
        for i in 0..count {
            if let Some(entry) = self.waiting.get(i as usize) {
                let entry = entry.copy(self.alloc)?;
                packets.push(Packet {
                    ring: self.settings.ring,
                    place: seq + i + 1,
                    entry,
                })?;
            }
        }
        Ok(())
    }

    /// What a visit of the token sends, or the first refusal that fits: Foreign, NotMine, Stale,
    /// Implausible, RingEnd; then Memory. The ring stays as it is.
    pub fn visit(&self, token: &Token) -> Result<Visit, Refusal>
        requires { IsToken token.now }
        ensures answer { IsAnswer (refusal_of self.now token.now) (λ visit. visit ≡ visit_of self.now token.now) result }
        ensures in_range { IfOk result (λ visit. IsInRange self.now.settings visit) }
    {
        if let Some(refusal) = self.token_refusal(token.ring, token.hop, token.seq) {
            return Err(refusal);
        }
        let count = self.burst_size(token.seq);
        let asked = token.rtr.as_slice();
        let mut packets = self.held.serve(self.alloc, &self.settings, asked)?;
        self.place(token.seq, count, &mut packets)?;
        let token = self.next_token(token, count)?;
        Ok(Visit {
            packets: Packets::from_vec(packets),
            token,
        })
    }

    /// Makes that visit: the entries that took places are held, and the token counts as accepted and
    /// as the last one sent. After a refusal the ring is as it was.
    pub fn on_token(&mut self, token: &Token) -> Result<Visit, Refusal>
        requires { IsToken token.now }
        ensures answer { IsAnswer (refusal_of self.old token.now) (λ visit. visit ≡ visit_of self.old token.now) result }
        ensures in_range { IfOk result (λ visit. IsInRange self.old.settings visit) }
        ensures ok { OnOk result (self.new ≡ visited self.old token.now) }
        ensures err { OnErr result (self.new ≡ self.old) }
    {
        let visit = self.visit(token)?;
        let next = visit.token.copy(self.alloc)?;
        self.accept(token, next)?;
        Ok(visit)
    }

    /// Makes the visit that `visit` told of the token: the entries that took places are held, and the token counts
    /// as accepted, and the next one, which that visit sends, as the last one sent. After a refusal the ring is as
    /// it was.
    pub fn accept(&mut self, token: &Token, next: Token) -> Result<(), Refusal>
        requires fits { refusal_of self.old token.now ≡ None }
        requires next { next ≡ (visit_of self.old token.now).token }
        requires in_range { IsToken next }
        ensures ok { OnOk result (self.new ≡ visited self.old token.now) }
        ensures err { OnErr result (self.new ≡ self.old) }
        ensures memory { IsOkUnless result Refusal.Memory }
    {
        let count = self.burst_size(token.seq);
        self.held.make_room()?;
        take_places(&mut self.waiting, &mut self.held, token.seq, count);
        self.last_hop = Some(token.hop);
        self.aru_before = self.aru_now;
        self.aru_now = Some(next.aru);
        self.last_token = Some(next);
        Ok(())
    }
}
