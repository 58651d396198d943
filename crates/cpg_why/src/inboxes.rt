//! Which entry told a connection an event of its inbox.

ghost use Rattle.std.specs.Prelude.{◌≡◌, ◌≤◌, ◌↔◌, ◌+◌, true, Ok, Some, length, OnOk, IfOk, IfErr, IsOkUnless};
ghost use Rattle.cpg_record.specs.Judging.{judged, most_places};
ghost use Rattle.cpg_why.specs.Findings.{event_place};
ghost use Rattle.cpg_why.specs.Scripts.{Stands, TellsNot, events_told};

use crate::asking::{Asked, Missing, WhyFault};
use cpg_group::Policy;
use cpg_record::ConnId;

/// Whether a number counts one of so many, from 1.
pub(crate) fn stands(number: u32, count: u32) -> bool
    ensures { (result ≡ true) ↔ Stands number count }
{
    number >= 1 && number <= count
}

/// The judged place that told the connection its event of that number, from 1; else how many it was told.
pub(crate) fn find_told(policy: &Policy, conn: &ConnId, event: u32) -> Result<u32, WhyFault>
    ensures told { IfOk result (λ place. Stands event (events_told policy.now conn.now)) }
    ensures ok { IfOk result (λ place. event_place (judged policy.now) conn.now event ≡ Some place) }
    ensures place { IfOk result (λ place. Stands place (length policy.now)) }
    ensures err { IfErr result (TellsNot (Ok policy.now) (Asked.Told conn.now event)) }
{
    let mut told: u32 = 0;
    for before in 0..policy.len() {
        let place = before as u32 + 1;
        told += policy.count_at(place, *conn) as u32;
        if stands(event, told) {
            return Ok(place);
        }
    }
    Err(WhyFault::Missing(Missing::Event {
        conn: *conn,
        event,
        events: told,
    }))
}
