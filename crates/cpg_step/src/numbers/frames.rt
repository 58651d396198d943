//! The numbers of frames.
//!
//! Proved: what is put at the text's end is the definition of `specs/Numbers.antt`.

ghost use Rattle.std.specs.Prelude.{◌≡◌, ◌≤◌, ◌-◌, ◌++◌, OnOk, IsOkUnless};
ghost use Rattle.cpg_step.specs.Numbers.{numbers_after, frames_text};

use cpg_cred::Refusal;
use cpg_text::{push_number, put};

/// Puts the numbers of the frames that were sent after so many, up to so many.
fn put_numbers(text: &mut Vec<u8>, before: usize, after: usize) -> Result<(), Refusal>
    requires { before ≤ after }
    ensures ok { OnOk result (text.new.items ≡ text.old.items ++ numbers_after before (after - before)) }
    ensures memory { IsOkUnless result Refusal.Memory }
{
    for index in before..after {
        put(text, " ")?;
        push_number(text, index as u64 + 1)?;
    }
    Ok(())
}

/// Puts ` frames` and the numbers of the frames of an event, before which so many were sent and after which so
/// many; nothing where it sent none.
pub(crate) fn put_frames(text: &mut Vec<u8>, before: usize, after: usize) -> Result<(), Refusal>
    ensures ok { OnOk result (text.new.items ≡ text.old.items ++ frames_text before after) }
    ensures memory { IsOkUnless result Refusal.Memory }
{
    if after <= before {
        return Ok(());
    }
    put(text, " frames")?;
    put_numbers(text, before, after)
}
