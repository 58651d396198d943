//! A place that tells a connection something, looked up once for all that is asked of it.

ghost use Rattle.std.specs.Prelude.{◌≡◌, ◌≤◌, length, IfOk, IsSome, OnErr, IsOkUnless};
ghost use Rattle.std.specs.List.{slice_get};
ghost use Rattle.cpg_record.specs.Events.{events};
ghost use Rattle.cpg_record.specs.Judging.{AreJudged};
ghost use Rattle.cpg_record.specs.Membership.{group_of};
ghost use Rattle.cpg_record.specs.Places.{records_before};
ghost use Rattle.cpg_group.specs.Standing.{AreStanding};
ghost use Rattle.cpg_group.specs.ConnectionLogs.{group_at};

use crate::logs::find_joined;
use crate::nexts::{Hint, Next};
use crate::standing::Groups;
use crate::telling;
use cpg_cred::Refusal;
use cpg_record::{ConnId, Event, Record};
use std::alloc::Global;
use std::marker::Model;

/// A place that tells a connection something: whether the connection made its entry, and whether it is told of it
/// with the group. Contracts see it as the records, the connection and the place.
#[derive(Drop)]
pub struct Heard<'a> {
    records: &'a [Record],
    groups: &'a Groups,
    past: &'a Record,
    conn: ConnId,
    place: u32,
    own: bool,
    told: bool,
    hint: Hint,
}

impl<'a> Model for Heard<'a> {
    ghost use Rattle.std.specs.Prelude.{◌≡◌, ◌≤◌, Some};
    ghost use Rattle.cpg_record.specs.Judging.{AreJudged};
    ghost use Rattle.cpg_record.specs.Places.{record_at};
    ghost use Rattle.cpg_group.specs.Heard.{HeardValue, is_maker, is_told_of};
    ghost use Rattle.cpg_group.specs.Standing.{AreStanding};

    ghost Value = { HeardValue };

    ghost view = { λ heard. record { records = heard.records.now; conn = heard.conn; place = heard.place } };

    ghost invariant = { λ heard. (1 ≤ heard.place) × (record_at heard.records.now heard.place ≡ Some heard.past.now) × AreJudged heard.records.now × AreStanding heard.groups.now heard.records.now × (heard.own ≡ is_maker heard.past.now heard.conn) × (heard.told ≡ is_told_of heard.records.now heard.place heard.past.now heard.conn) };
}

impl<'a> Heard<'a> {
    /// The next place, as it was found among the records and groups.
    #[inline(always)]
    #[tactic(auto, using(crate::proofs::Passed::record_at_index))]
    pub(crate) fn of(
        records: &'a [Record],
        groups: &'a Groups,
        conn: ConnId,
        next: Next,
    ) -> Heard<'a>
        requires place { (1 ≤ next.place) × (next.place ≤ length records.now) }
        requires judged { AreJudged records.now }
        requires groups { AreStanding groups.now records.now }
        requires join { group_at records.now next.join ≡ group_of (records_before records.now next.place) conn }
        ensures { result ≡ record { records = records.now; conn = conn; place = next.place } }
    {
        let past = &records[next.place as usize - 1];
        let earlier = find_joined(records, next.join);
        Heard {
            records,
            groups,
            past,
            own: conn.is(&ConnId::of(&past.entry)),
            told: telling::has_news(records, next.place, past, &conn, earlier),
            conn,
            place: next.place,
            hint: next.hint,
        }
    }

    /// The place, counted from 1.
    pub fn place(&self) -> u32
        ensures { result ≡ self.now.place }
    {
        self.place
    }

    /// Where the search for the place ended, for the search for the next one.
    pub fn hint(&self) -> Hint {
        self.hint
    }

    /// How many events the place has for the connection. Takes no memory.
    #[inline(always)]
    #[tactic(auto, using(crate::proofs::Hearing::events_counted))]
    pub fn count(&self) -> usize
        ensures { result ≡ length (events self.now.records self.now.place self.now.conn) }
    {
        usize::from(self.own) + usize::from(self.told)
    }

    /// The event of that index, from 0, that the place has for the connection: the verdict is told first, to the
    /// maker alone. Memory is asked for only where the event is there.
    #[inline(always)]
    #[tactic(auto, using(crate::proofs::Hearing::verdict_first, crate::proofs::Hearing::news_behind, crate::proofs::Hearing::none_behind))]
    pub fn event(&self, alloc: Global, index: usize) -> Result<Option<Event>, Refusal>
        ensures ok { IfOk result (λ event. event ≡ slice_get (events self.now.records self.now.place self.now.conn) index) }
        ensures memory { IsOkUnless result Refusal.Memory }
        ensures some { OnErr result (IsSome (slice_get (events self.now.records self.now.place self.now.conn) index)) }
    {
        let own = usize::from(self.own);
        if index < own {
            return Ok(Some(Event::Verdict {
                place: self.place,
                verdict: self.past.verdict,
            }));
        }
        if own < index {
            return Ok(None);
        }
        telling::tell_news(
            alloc,
            self.records,
            self.groups,
            self.place,
            self.past,
            &self.conn,
            self.told,
        )
    }
}
