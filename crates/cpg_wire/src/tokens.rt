//! Tokens as they stand in a frame, after its head.
//!
//! Proved: what is read is the definition `token_at`, and a copy is the token that the view shows.

ghost use Rattle.std.specs.Prelude.{◌≡◌, ◌≤◌, IfOk, IfSome, IsOkUnless, option_map};
ghost use Rattle.cpg_wire.specs.Reading.{Reads, extent_at, places_at, rtr_at, token_at};
ghost use Rattle.cpg_wire.specs.Views.{token_seen};

use crate::fields::read_owner;
use crate::input::Input;
use arrayvec::ArrayVec;
use cpg_entry::{MOST_HOPS, MOST_PLACES, MOST_REQUESTS, NodeId, Places, Refusal, Token};
use std::alloc::Global;

/// A token whose places take no memory.
#[derive(Drop)]
pub struct TokenView {
    pub ring: u32,
    pub hop: u64,
    pub seq: u32,
    pub aru: u32,
    pub aru_id: Option<NodeId>,
    pub rtr: ArrayVec<u32, MOST_REQUESTS>,
}

impl TokenView {
    #[tactic(auto, unfolding(crate::specs::Reading::token_at))]
    pub fn read(input: &mut Input<'_>, ring: u32) -> Option<TokenView>
        ensures { Reads (option_map token_seen result) input.new (token_at ring input.old) }
    {
        let hop = input.u64_within(0, MOST_HOPS)?;
        let (seq, aru) = read_extent(input)?;
        let aru_id = read_owner(input)?;
        let rtr = read_rtr(input, seq)?;
        Some(TokenView {
            ring,
            hop,
            seq,
            aru,
            aru_id,
            rtr,
        })
    }

    /// The token, with places of its own.
    pub fn copy(&self, alloc: Global) -> Result<Token, Refusal>
        ensures ok { IfOk result (λ token. token ≡ token_seen self.now) }
        ensures memory { IsOkUnless result Refusal.Memory }
    {
        let rtr = Places::from_slice(alloc, self.rtr.as_slice())?;
        Ok(Token {
            ring: self.ring,
            hop: self.hop,
            seq: self.seq,
            aru: self.aru,
            aru_id: self.aru_id,
            rtr,
        })
    }
}

/// The token's seq and aru.
#[tactic(auto, unfolding(crate::specs::Reading::extent_at))]
fn read_extent(input: &mut Input<'_>) -> Option<(u32, u32)>
    ensures reads { Reads result input.new (extent_at input.old) }
    ensures range { IfSome result (λ extent. extent.0 ≤ MOST_PLACES) }
{
    let seq = input.u32_within(0, MOST_PLACES)?;
    let aru = input.u32_within(0, seq)?;
    Some((seq, aru))
}

/// The places that are asked for, each up to `seq`.
#[tactic(auto, unfolding(crate::specs::Reading::rtr_at))]
fn read_rtr(input: &mut Input<'_>, seq: u32) -> Option<ArrayVec<u32, MOST_REQUESTS>>
    requires { seq ≤ MOST_PLACES }
    ensures { Reads (option_map (λ rtr. rtr.items) result) input.new (rtr_at seq input.old) }
{
    let count = input.u8_within(0, MOST_REQUESTS as u8)?;
    read_places(input, count, seq)
}

/// That many places in ascending order, each at most `high`.
fn read_places(input: &mut Input<'_>, count: u8, high: u32) -> Option<ArrayVec<u32, MOST_REQUESTS>>
    requires count { count ≤ MOST_REQUESTS }
    requires high { high ≤ MOST_PLACES }
    ensures { Reads (option_map (λ places. places.items) result) input.new (places_at count 0 high input.old) }
{
    let mut places = ArrayVec::new();
    let mut last = 0u32;
    for _ in 0..count {
        last = input.u32_within(last + 1, high)?;
        places.push(last);
    }
    Some(places)
}
