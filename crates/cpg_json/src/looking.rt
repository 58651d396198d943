//! What commands that only look tell, as objects of JSON behind one head.

use crate::answers::{put_refused, put_rule_count, put_rule_line, put_safe};
use crate::frames::put_frame;
use crate::records::{put_count, put_record};
use cpg_cred::Refusal;
use cpg_entry::Frame;
use cpg_record::Record;
use cpg_rules::Rule;
use cpg_step::TellsLooks;
use std::alloc::Global;

/// Objects of JSON, one a line, each behind that head.
#[derive(Debug, Clone, Copy)]
pub(crate) struct LookedAsJson<'a> {
    pub(crate) head: &'a [u8],
}

impl TellsLooks for LookedAsJson<'_> {
    ghost use Rattle.cpg_json.specs.Answers.{looked_json};

    ghost form = { λ told. looked_json told.head.now };

    fn put_frame(&self, line: &mut Vec<u8>, frame: &Frame) -> Result<(), Refusal> {
        put_frame(line, self.head, frame)
    }

    fn put_no_frame(&self, _alloc: Global, line: &mut Vec<u8>) -> Result<(), Refusal> {
        put_refused(line, self.head, Refusal::NoFrame)
    }

    fn put_record(&self, line: &mut Vec<u8>, place: u32, past: &Record) -> Result<(), Refusal> {
        put_record(line, self.head, place, past)
    }

    fn put_count(&self, line: &mut Vec<u8>, count: u32) -> Result<(), Refusal> {
        put_count(line, self.head, count)
    }

    fn put_rule(&self, line: &mut Vec<u8>, id: u32, rule: Rule) -> Result<(), Refusal> {
        put_rule_line(line, self.head, id, rule)
    }

    fn put_rule_count(&self, line: &mut Vec<u8>, count: usize) -> Result<(), Refusal> {
        put_rule_count(line, self.head, count)
    }

    fn put_safe(&self, line: &mut Vec<u8>, place: u32) -> Result<(), Refusal> {
        put_safe(line, self.head, place)
    }
}
