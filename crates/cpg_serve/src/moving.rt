//! Clients' desks go over to the next ring.

ghost use Rattle.std.specs.Prelude.{◌≡◌, ◌≤◌, ◌<◌, ◌+◌, ◌++◌, ◌∷◌, [], length, map, vec_capacity, vec_len, ◌==◌, if◌then◌else◌, OnOk, OnErr, IsOkUnless};
ghost use Rattle.cpg_entry.specs.declared.ranges.TheConstants.{MOST_CONNECTIONS};
ghost use Rattle.cpg_serve.specs.Telling.{new_desk};
ghost use Rattle.cpg_serve.specs.Carrying.{greeted, kept_desks, HaveMoved};

use crate::desks::Desk;
use cpg_ask::Greeting;
use cpg_cred::Refusal;
use std::alloc::Global;
use std::mem;

impl Desk {
    /// The same desk, where the client is greeted so.
    fn greeted(mut self, greeting: &Greeting) -> Desk
        ensures { result ≡ greeted greeting.now self }
    {
        self.greeting = *greeting;
        self
    }
}

/// Puts a desk last, if its connection has a new number.
fn keep(desks: &mut Vec<Desk>, desk: Desk, greeting: &Greeting, number: u16)
    requires { vec_len desks.old < vec_capacity desks.old }
    ensures items { desks.new.items ≡ (if number == 0 then desks.old.items else desks.old.items ++ greeted greeting.now desk ∷ []) }
    ensures capacity { vec_capacity desks.new ≡ vec_capacity desks.old }
    ensures len { vec_len desks.new ≤ vec_len desks.old + 1 }
{
    if number == 0 {
        return;
    }
    desks.push_reserved(desk.greeted(greeting));
}

/// The desks of the connections that have a new number, in order, behind that of the daemon's own.
fn move_desks(
    alloc: Global,
    greeting: &Greeting,
    numbers: &[u16],
    before: Vec<Desk>,
    desks: &mut Vec<Desk>,
)
    requires empty { desks.old.items ≡ [] }
    requires room { length before.items < vec_capacity desks.old }
    requires numbers { length numbers.now ≡ length before.items }
    ensures { HaveMoved greeting.now numbers.now before.items desks.new.items }
{
    let mut old = before;
    while let Some(desk) = old.pop() {
        let number = numbers[old.len()];
        keep(desks, desk, greeting, number);
    }
    desks.push_reserved(Desk::new(alloc, *greeting));
    desks.reverse();
}

/// The desks of the connections that have a new number go over, and the others are dropped. Memory leaves all as it was.
pub(crate) fn take_over(
    alloc: Global,
    greeting: &Greeting,
    numbers: &[u16],
    desks: &mut Vec<Desk>,
) -> Result<(), Refusal>
    requires numbers { length numbers.now ≡ length desks.old.items }
    requires few { length desks.old.items ≤ MOST_CONNECTIONS }
    ensures ok { OnOk result (HaveMoved greeting.now numbers.now desks.old.items desks.new.items) }
    ensures err { OnErr result (desks.new.items ≡ desks.old.items) }
    ensures memory { IsOkUnless result Refusal.Memory }
{
    let mut moved = Vec::with_capacity(alloc, desks.len() + 1)?;
    let old = mem::replace(desks, Vec::new(alloc));
    move_desks(alloc, greeting, numbers, old, &mut moved);
    *desks = moved;
    Ok(())
}
