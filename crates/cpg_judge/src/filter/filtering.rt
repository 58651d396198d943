//! The form of judged entries that a filter keeps lines of.

ghost use Rattle.std.specs.Prelude.{◌≡◌, true, false, MatchOption};
ghost use Rattle.cpg_judge.specs.Filters.{keeps_record};

use crate::filter::filters::Filter;
use crate::filter::inboxes::write_inbox;
use crate::forms::{PutsJudged, TellsJudged};
use crate::texts::Placed;
use cpg_cred::Refusal;
use cpg_group::Policy;
use cpg_print::{put_audit, put_count};
use cpg_record::{ConnId, Record};
use std::alloc::Global;
use std::io::Write;

/// The record of the place, where its line is kept.
fn kept<'r>(filter: &Filter<'_>, place: u32, past: &'r Record) -> Option<&'r Record>
    ensures { MatchOption result (keeps_record filter.now place past.now ≡ false) (λ one. (one.now ≡ past.now) × (keeps_record filter.now place past.now ≡ true)) }
{
    if filter.keeps_record(place, past) {
        Some(past)
    } else {
        None
    }
}

impl<'a> TellsJudged for Filter<'a> {
    type Puts = Filter<'a>;

    ghost use Rattle.cpg_judge.specs.Filtering.{filtered};

    ghost form = { λ filter script. filtered filter };

    fn begin(
        &self,
        _alloc: Global,
        _policy: &Policy,
        _script: Vec<u8>,
    ) -> Result<Filter<'a>, Refusal> {
        Ok(Filter {
            only: self.only,
            group: self.group,
            conn: self.conn,
            first: self.first,
            last: self.last,
        })
    }
}

impl<'a> PutsJudged for Filter<'a> {
    ghost use Rattle.cpg_judge.specs.Filtering.{filtered};

    ghost form = { λ filter. filtered filter };

    ghost stands = { λ filter entries count. Unit {0} };

    fn put_record(&mut self, lines: &mut Vec<u8>, placed: &Placed<'_>) -> Result<(), Refusal> {
        match kept(self, placed.place, placed.past) {
            None => Ok(()),
            Some(past) => put_audit(lines, placed.place, past),
        }
    }

    fn put_count(&self, lines: &mut Vec<u8>, count: u32) -> Result<(), Refusal> {
        put_count(lines, count)
    }

    fn write_inbox<W: Write>(
        &mut self,
        writer: &mut W,
        lines: &mut Vec<u8>,
        policy: &Policy,
        conn: &ConnId,
    ) -> Result<(), Refusal> {
        write_inbox(writer, lines, policy, self, conn)
    }
}
