//! Where the joins stand of those who are members.

ghost use Rattle.std.specs.Prelude.{◌≡◌, ◌≤◌, ◌<◌, ◌++◌, ◌∷◌, List, length, reverse, OnOk, IfOk, IsOkUnless};
ghost use Rattle.cpg_record.specs.declared.records.Record.{Record as RecordValue};
ghost use Rattle.cpg_record.specs.Judging.{most_places};
ghost use Rattle.cpg_embed.specs.Seats.{seats_one, seat_at, seats_from, seats_of, seat_in, AreEnded, AreSeated, IsSeat};

use crate::endpoints::Endpoint;
use crate::statuses::{NONE, OK};
use cpg_cred::Refusal;
use cpg_entry::{Call, Op};
use cpg_record::{ConnId, Record};
use indexmap::IndexSet;
use std::alloc::Global;
use std::marker::Model;

/// The places of the joins by which connections are members, in their order. Contracts see it as their list.
#[derive(Drop)]
pub(crate) struct Seats {
    places: Vec<u32>,
}

impl Model for Seats {
    ghost use Rattle.std.specs.Prelude.{List, ℕ};

    ghost Value = { List ℕ };

    ghost view = { λ seats. seats.places.items };
}

/// Whether the record is an allowed join.
fn seats_one(past: &Record) -> bool
    ensures { result ≡ seats_one past.now }
{
    past.verdict.is_allowed() && matches!(&past.entry.op, Op::Act(Call::Join(_)))
}

/// Puts the record's place last, where the record is an allowed join of a connection that is not among those.
fn put_seat(
    places: &mut Vec<u32>,
    ended: &IndexSet<ConnId>,
    place: u32,
    past: &Record,
) -> Result<(), Refusal>
    ensures ok { OnOk result ((later : List RecordValue) → AreEnded ended.now.keys later → places.new.items ≡ places.old.items ++ seat_at place past.now later) }
    ensures memory { IsOkUnless result Refusal.Memory }
{
    if seats_one(past) && !ended.contains(&ConnId::of(&past.entry)) {
        places.push(place)?;
    }
    Ok(())
}

/// Puts the record's connection among those, where the record takes it out of its group.
fn put_ended(ended: &mut IndexSet<ConnId>, past: &Record) -> Result<(), Refusal>
    ensures ok { OnOk result ((later : List RecordValue) → AreEnded ended.old.keys later → AreEnded ended.new.keys (past.now ∷ later)) }
    ensures memory { IsOkUnless result Refusal.Memory }
{
    if past.verdict.is_allowed() && matches!(&past.entry.op, Op::Act(Call::Leave) | Op::Gone) {
        ended.insert(ConnId::of(&past.entry))?;
    }
    Ok(())
}

/// The places of the joins by which connections are members, the last first. It goes over the records once, from the
/// last, and takes memory for what it finds and for the connections that were taken out.
fn gather(alloc: Global, records: &[Record]) -> Result<Vec<u32>, Refusal>
    requires { length records.now ≤ most_places }
    ensures ok { IfOk result (λ places. places.items ≡ reverse (seats_from 1 records.now)) }
    ensures memory { IsOkUnless result Refusal.Memory }
{
    let mut places = Vec::new(alloc);
    let mut ended = IndexSet::new(alloc);
    for index in (0..records.len()).rev() {
        let past = &records[index];
        put_seat(&mut places, &ended, index as u32 + 1, past)?;
        put_ended(&mut ended, past)?;
    }
    Ok(places)
}

impl Seats {
    /// The places of the joins by which connections are members, as the records say.
    fn of(alloc: Global, records: &[Record]) -> Result<Seats, Refusal>
        requires { length records.now ≤ most_places }
        ensures ok { IfOk result (λ seats. seats ≡ seats_from 1 records.now) }
        ensures memory { IsOkUnless result Refusal.Memory }
    {
        let backwards = gather(alloc, records)?;
        let places = backwards.iter().rev().copied().collect(alloc)?;
        Ok(Seats { places })
    }

    /// The places.
    fn as_slice(&self) -> &[u32]
        ensures { result.now ≡ self.now }
    {
        self.places.as_slice()
    }
}

impl Endpoint {
    /// Finds the places of the joins by which connections are members, of whatever group, in the order of the joins, and
    /// tells how many there are. No rule denies it. They are told one at a time until they are found anew.
    pub fn seats(&mut self, count: &mut usize) -> u32
        ensures { AreSeated self.old (seats_of self.old) result count.new self.new }
    {
        let _ = self.node.delivered();
        match Seats::of(self.alloc, self.node.audit()) {
            Ok(seats) => {
                *count = seats.as_slice().len();
                self.seats = Some(seats);
                OK
            }
            Err(refusal) => refusal.number(),
        }
    }

    /// Tells one of the places that were found last, by its index from 0.
    pub fn seat(&self, index: usize, place: &mut u32) -> u32
        ensures { IsSeat (seat_in self.now.seats index) result place.new }
    {
        match &self.seats {
            None => NONE,
            Some(seats) => match seats.as_slice().get(index) {
                Some(seat) => {
                    *place = *seat;
                    OK
                }
                None => NONE,
            },
        }
    }
}
