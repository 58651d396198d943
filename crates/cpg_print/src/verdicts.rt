//! Verdicts as they are printed.

ghost use Rattle.std.specs.Prelude.{◌≡◌, ◌++◌, codes, OnOk, IsOkUnless};
ghost use Rattle.cpg_cred.specs.Shown.{by_text};
ghost use Rattle.cpg_print.specs.Verdicts.{reason_text, verdict_text};

use cpg_cred::{By, Refusal};
use cpg_record::{Reason, Verdict};
use cpg_text::{push_number, put};

/// Puts the verdict at the line's end.
#[inline(always)]
pub fn put_verdict(line: &mut Vec<u8>, verdict: Verdict) -> Result<(), Refusal>
    ensures ok { OnOk result (line.new.items ≡ line.old.items ++ verdict_text verdict) }
    ensures memory { IsOkUnless result Refusal.Memory }
{
    match verdict {
        Verdict::Allowed(by) => put_allowed(line, by),
        Verdict::Denied(reason) => put_denied(line, reason),
    }
}

#[inline(always)]
fn put_allowed(line: &mut Vec<u8>, by: By) -> Result<(), Refusal>
    ensures ok { OnOk result (line.new.items ≡ line.old.items ++ codes "allowed " ++ by_text by) }
    ensures memory { IsOkUnless result Refusal.Memory }
{
    match by {
        By::Rule(id) => {
            put(line, "allowed rule ")?;
            push_number(line, u64::from(id))
        }
        By::Default => put(line, "allowed default"),
        By::Root => put(line, "allowed root"),
        By::Free => put(line, "allowed free"),
    }
}

/// Puts why an entry was denied at the line's end: seldom, so that it stays out of what puts the allowed.
#[inline(never)]
fn put_denied(line: &mut Vec<u8>, reason: Reason) -> Result<(), Refusal>
    ensures ok { OnOk result (line.new.items ≡ line.old.items ++ codes "denied " ++ reason_text reason) }
    ensures memory { IsOkUnless result Refusal.Memory }
{
    match reason {
        Reason::Rule(id) => {
            put(line, "denied rule ")?;
            push_number(line, u64::from(id))
        }
        Reason::Default => put(line, "denied default"),
        Reason::Closed => put(line, "denied closed"),
        Reason::Joined => put(line, "denied joined"),
        Reason::Twice => put(line, "denied twice"),
        Reason::Full => put(line, "denied full"),
        Reason::Position => put(line, "denied position"),
        Reason::TableFull => put(line, "denied tablefull"),
        Reason::Absent => put(line, "denied absent"),
    }
}
