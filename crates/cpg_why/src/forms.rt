//! Forms in which what is found is told.

use crate::findings::Finding;
use crate::numbers::{find_record, line_of};
use cpg_cred::Refusal;
use cpg_record::Record;
use std::alloc::Global;

/// The records that are spoken of, and the numbers of their entries' lines.
#[derive(Clone, Copy)]
pub struct Cited<'a> {
    pub numbers: &'a [u32],
    pub records: &'a [Record],
}

impl Cited<'_> {
    /// The record at a place, if one stands there.
    pub fn record(&self, place: u32) -> Option<&Record> {
        find_record(self.records, place)
    }

    /// The number of the line of the entry at a place, where it has one.
    pub fn line(&self, place: u32) -> Option<u32> {
        if place == 0 {
            return None;
        }
        line_of(self.numbers, place)
    }
}

/// What makes a text of what is found.
pub trait Tells {
    ghost use Rattle.std.specs.Prelude.{IfOk, IsOkUnless};
    ghost use Rattle.cpg_why.specs.Forms.{Form};

    // Which texts are told.
    ghost form: { Form };

    /// The text of what is found, which speaks of these records.
    fn text_of(alloc: Global, cited: &Cited, list: &[Finding]) -> Result<Vec<u8>, Refusal>
        ensures ok { IfOk result (λ text. form cited.now.numbers.now cited.now.records.now list.now text.items) }
        ensures memory { IsOkUnless result Refusal.Memory };
}
