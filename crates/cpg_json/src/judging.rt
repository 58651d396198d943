//! Judged entries as JSON: an object a line, of kind `record` for each entry, then `count`, and for each connection
//! `inbox` with its events, each of which is an `event`.

use crate::inboxes::write_inbox;
use crate::records::{KeptMembers, put_count, put_record_kept};
use crate::tails::Tails;
use cpg_cred::Refusal;
use cpg_group::Policy;
use cpg_judge::{Placed, PutsJudged, TellsJudged};
use cpg_record::ConnId;
use cpg_why::{line_of, read_numbers};
use std::alloc::Global;
use std::io::Write;

/// Objects of JSON, one a line.
#[derive(Debug, Clone, Copy)]
pub struct JudgedAsJson;

/// What puts them: the numbers of the entries' lines, the tails of all places, and room for the front of an inbox's
/// lines.
#[derive(Drop)]
pub struct JudgedObjects {
    numbers: Vec<u32>,
    tails: Tails,
    front: Vec<u8>,
    kept: KeptMembers,
}

impl TellsJudged for JudgedAsJson {
    type Puts = JudgedObjects;

    ghost use Rattle.cpg_why.specs.Scripts.{numbers_of};
    ghost use Rattle.cpg_json.specs.Judging.{judged_json};

    ghost form = { λ told script. judged_json (numbers_of script) };

    fn begin(
        &self,
        alloc: Global,
        policy: &Policy,
        script: Vec<u8>,
    ) -> Result<JudgedObjects, Refusal> {
        let numbers = read_numbers(alloc, script.as_slice())?;
        drop(script);
        Ok(JudgedObjects {
            numbers,
            tails: Tails::of(alloc, policy)?,
            front: Vec::new(alloc),
            kept: KeptMembers::new(alloc),
        })
    }
}

impl PutsJudged for JudgedObjects {
    ghost use Rattle.std.specs.Prelude.{length};
    ghost use Rattle.cpg_record.specs.Judging.{judged};
    ghost use Rattle.cpg_json.specs.Judging.{judged_json};
    ghost use Rattle.cpg_json.specs.Steps.{IsKept};
    ghost use Rattle.cpg_json.specs.Tails.{AreTails};

    ghost form = { λ puts. judged_json puts.numbers.items };

    ghost stands = { λ puts entries count. AreTails puts.tails (judged entries) (length (judged entries)) × IsKept puts.kept };

    fn put_record(&mut self, lines: &mut Vec<u8>, placed: &Placed<'_>) -> Result<(), Refusal> {
        let Placed { place, past, .. } = *placed;
        let number = line_of(self.numbers.as_slice(), place);
        put_record_kept(lines, number, place, past, &mut self.kept)
    }

    fn put_count(&self, lines: &mut Vec<u8>, count: u32) -> Result<(), Refusal> {
        put_count(lines, &[], count)
    }

    fn write_inbox<W: Write>(
        &mut self,
        writer: &mut W,
        lines: &mut Vec<u8>,
        policy: &Policy,
        conn: &ConnId,
    ) -> Result<(), Refusal> {
        write_inbox(writer, lines, policy, &self.tails, &mut self.front, conn)
    }
}
