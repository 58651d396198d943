//! The places that a node holds, and how many of them it delivered.
//!
//! Window and slots are this project's own. A delivered place stands in a list at its number; one of the
//! next 64 places has the slot of its number mod 64; nothing else is held. Proved: each call does to the
//! finite map of `specs/` what it says. Once `make_room` made room, holding and delivering take no memory.

ghost use Rattle.std.specs.Prelude.{◌≡◌, ◌+◌, ◌≤◌, ◌<◌, ◌^◌, ◌%◌, ℕ, List, None, Some, suc, length, set, get_or, nat_lt, IsSome, OnOk, IfOk, IsOkUnless};
ghost use Rattle.std.specs.Option.{option_copied};
ghost use Rattle.std.specs.List.{list_any};
ghost use Rattle.std.specs.FinMap.{get, insert, keys, empty};
ghost use Rattle.cpg_ring.specs.States.{is_held};
ghost use Rattle.cpg_ring.specs.Visits.{served};
ghost use Rattle.cpg_ring.specs.Laws.{AllHeld, NoneAbove};
ghost use Rattle.cpg_ring.specs.Kept.{in_slot, kept_at};

use crate::settings::{Settings, WINDOW};
use cpg_entry::{Entry, Ledger, MOST_PLACES, Packet, Refusal, Shelf};
use std::alloc::Global;
use std::marker::Model;

/// What a node holds. Contracts see it as its map of places, how many are delivered, and up to which
/// place there is room to deliver.
#[derive(Debug, Drop)]
pub struct Held {
    done: Ledger,
    slots: Vec<Option<Entry>>,
}

impl Model for Held {
    ghost use Rattle.std.specs.Prelude.{length};
    ghost use Rattle.std.specs.Coded.{codes};
    ghost use Rattle.cpg_ring.specs.Kept.{HeldValue, held_code, held_map, IsKept};

    ghost Value = { HeldValue };

    ghost coded = { Prim.hlevel (codes, held_code) };

    ghost view = { λ a. record { places = held_map a.done.items a.slots.items; delivered = length a.done.items; room = a.done.room } };

    ghost invariant = { λ a. IsKept a.done.items a.done.room a.slots.items };
}

/// As many empty slots as the window has places.
fn empty_slots(alloc: Global) -> Result<Vec<Option<Entry>>, Refusal>
    ensures count { IfOk result (λ slots. length slots.items ≡ WINDOW) }
    ensures empty { IfOk result (λ slots. (i : ℕ) → get_or slots.items i None ≡ None) }
    ensures memory { IsOkUnless result Refusal.Memory }
{
    let mut slots = Vec::new(alloc);
    for _ in 0..WINDOW {
        slots.push(None)?;
    }
    Ok(slots)
}

/// What is kept for a place.
fn entry_at<'a>(done: &'a Ledger, slots: &'a [Option<Entry>], place: u32) -> Option<&'a Entry>
    requires { length slots.now ≡ WINDOW }
    ensures { option_copied result ≡ kept_at done.now.items slots.now place }
{
    if place == 0 {
        return None;
    }
    let index = place as usize - 1;
    if index < done.len() {
        return Some(done.at(index));
    }
    if index < done.len() + WINDOW as usize {
        return slots[(place % WINDOW) as usize].as_ref();
    }
    None
}

/// Puts the entry into the slot of its place.
fn fill(slots: &mut [Option<Entry>], place: u32, entry: Entry)
    requires { length slots.old ≡ WINDOW }
    ensures { slots.new ≡ set slots.old (place % WINDOW) (Some entry) }
{
    slots[(place % WINDOW) as usize] = Some(entry);
}

/// Takes what is in the slot of a place, which is then empty.
fn vacate(slots: &mut [Option<Entry>], place: u32) -> Option<Entry>
    requires { length slots.old ≡ WINDOW }
    ensures entry { result ≡ in_slot slots.old place }
    ensures slots { slots.new ≡ set slots.old (place % WINDOW) None }
{
    slots[(place % WINDOW) as usize].take()
}

impl Held {
    /// Nothing is held or delivered.
    pub fn new(alloc: Global) -> Result<Held, Refusal>
        ensures places { IfOk result (λ held. held.places ≡ empty) }
        ensures delivered { IfOk result (λ held. held.delivered ≡ 0) }
        ensures memory { IsOkUnless result Refusal.Memory }
    {
        let slots = empty_slots(alloc)?;
        Ok(Held {
            done: Ledger::new(alloc),
            slots,
        })
    }

    /// The last place that was delivered, 0 before the first. All places up to it are held, and none is
    /// held above the window.
    pub fn delivered(&self) -> u32
        ensures value { result ≡ self.now.delivered }
        ensures counted { result ≤ MOST_PLACES }
        ensures held { AllHeld self.now.places result }
        ensures window { NoneAbove self.now.places (result + WINDOW) }
    {
        self.done.len() as u32
    }

    /// The entry that is held at a place.
    pub fn get(&self, place: u32) -> Option<&Entry>
        ensures { option_copied result ≡ get self.now.places place }
    {
        entry_at(&self.done, &self.slots, place)
    }

    /// Whether a place is held.
    pub fn holds(&self, place: u32) -> bool
        ensures { result ≡ is_held self.now.places place }
    {
        self.get(place).is_some()
    }

    /// Whether a place above `seq` is held.
    pub fn holds_above(&self, seq: u32) -> bool
        ensures { result ≡ list_any (nat_lt seq) (keys self.now.places) }
    {
        let delivered = self.delivered();
        if seq < delivered {
            return true;
        }
        for i in seq..delivered + WINDOW {
            if self.holds(i + 1) {
                return true;
            }
        }
        false
    }

    /// Makes room to deliver every place of the window.
    pub fn make_room(&mut self) -> Result<(), Refusal>
        ensures places { self.new.places ≡ self.old.places }
        ensures delivered { self.new.delivered ≡ self.old.delivered }
        ensures room { OnOk result (self.new.delivered + WINDOW ≤ self.new.room) }
        ensures memory { IsOkUnless result Refusal.Memory }
    {
        self.done.reserve(WINDOW as usize)
    }

    /// Holds the entry at a place of the window.
    pub fn hold(&mut self, place: u32, entry: Entry)
        requires low { self.old.delivered < place }
        requires window { place ≤ self.old.delivered + WINDOW }
        requires most { place ≤ MOST_PLACES }
        requires room { place ≤ self.old.room }
        ensures { self.new ≡ record self.old { places = insert self.old.places place entry } }
    {
        fill(&mut self.slots, place, entry);
    }

    /// Takes the next place as delivered.
    pub fn advance(&mut self)
        requires { IsSome (get self.old.places (suc self.old.delivered)) }
        ensures { self.new ≡ record self.old { delivered = suc self.old.delivered } }
    {
        let place = self.done.len() as u32 + 1;
        if let Some(entry) = vacate(&mut self.slots, place) {
            self.done.push_reserved(entry);
        }
    }

    /// Takes the first delivered entries that it has of its own from the shelf, where they lie for all that delivered
    /// the same.
    #[tactic(auto, using(crate::proofs::Slots::roomier_kept))]
    pub fn share(&mut self, shelf: &Shelf)
        ensures places { self.new.places ≡ self.old.places }
        ensures delivered { self.new.delivered ≡ self.old.delivered }
    {
        self.done.share(shelf);
    }

    /// What was delivered; what is held above it is freed.
    pub fn into_ledger(self) -> Ledger
        ensures { length result.items ≡ self.delivered }
    {
        self.done
    }

    /// The packets of the places asked for that are held.
    pub fn serve(
        &self,
        alloc: Global,
        settings: &Settings,
        asked: &[u32],
    ) -> Result<Vec<Packet>, Refusal>
        ensures ok { IfOk result (λ packets. packets.items ≡ served settings.now self.now.places asked.now) }
        ensures memory { IsOkUnless result Refusal.Memory }
    {
        let mut packets = Vec::new(alloc);
        for place in asked {
            if let Some(entry) = self.get(*place) {
                let entry = entry.copy(alloc)?;
                packets.push(Packet {
                    ring: settings.ring,
                    place: *place,
                    entry,
                })?;
            }
        }
        Ok(packets)
    }
}
