//! The check of a whole list of records.

ghost use Rattle.std.specs.Prelude.{◌≡◌, ◌≢◌, ◌↔◌, ◌<◌, ◌++◌, ◌∷◌, [], length, IsTrue, IfOk, OnErr, IsOkUnless};
ghost use Rattle.std.specs.Bool.{OnTrue};
ghost use Rattle.cpg_record.specs.Judging.{judged, most_places, record_of, AreRecords};

use crate::policies::Policy;
use cpg_cred::Refusal;
use cpg_record::{MOST_PLACES, Record};
use std::alloc::Global;

/// Whether the record is the judgement of its entry here. If so, the policy has judged it.
fn confirm(policy: &mut Policy, past: &Record) -> Result<bool, Refusal>
    requires { length policy.old < most_places }
    ensures ok { IfOk result (λ same. IsTrue same ↔ (past.now ≡ record_of (judged policy.old) past.now.entry)) }
    ensures taken { IfOk result (λ same. OnTrue same (policy.new ≡ policy.old ++ past.now.entry ∷ [])) }
    ensures memory { IsOkUnless result Refusal.Memory }
{
    let judgement = policy.judge(&past.entry)?;
    if !past.equals(&judgement) {
        return Ok(false);
    }
    match policy.apply(judgement) {
        Ok(()) => Ok(true),
        Err(refused) => Err(refused.refusal),
    }
}

/// Whether the records are those of their entries: each is the judgement of its entry over those before
/// it, and there are at most 1,048,576.
pub fn verify(alloc: Global, records: &[Record]) -> Result<bool, Refusal>
    ensures ok { IfOk result (λ sound. IsTrue sound ↔ AreRecords records.now) }
    ensures memory { IsOkUnless result Refusal.Memory }

    // No records take no memory.
    ensures some { OnErr result (records.now ≢ []) }
{
    if records.len() > MOST_PLACES as usize {
        return Ok(false);
    }
    let mut policy = Policy::new(alloc);
    for past in records {
        if !confirm(&mut policy, past)? {
            return Ok(false);
        }
    }
    Ok(true)
}
