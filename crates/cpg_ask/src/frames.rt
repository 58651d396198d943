//! What is told, behind its head and filled up.

#![tactic(auto, using(crate::proofs::Begins::begins_self, crate::proofs::Begins::begins_before, crate::proofs::Begins::begins_taken))]

ghost use Rattle.std.specs.Prelude.{◌≡◌, ◌++◌, ◌<◌, OnOk, OnErr, IsOkUnless};
ghost use Rattle.cpg_ask.specs.Adding.{Adds};
ghost use Rattle.cpg_ask.specs.Tells.{gap, filled_up, framed};

use crate::output::put_head;
use bytes::BufMut;
use cpg_cred::Refusal;
use std::alloc::AllocError;

/// How many bytes fill up so many to a multiple of eight.
pub fn gap(count: usize) -> usize
    ensures count { result ≡ gap count }
    ensures few { result < 8 }
{
    (8 - count % 8) % 8
}

/// The text, filled up by zeros.
pub(crate) fn put_filled(out: &mut Vec<u8>, text: &[u8]) -> Result<(), AllocError>
    ensures { Adds result out.old.items out.new.items (filled_up text.now) }
{
    out.put_slice(text)?;
    out.put_bytes(0, gap(text.len()))?;
    Ok(())
}

fn put_whole(out: &mut Vec<u8>, kind: u16, tag: u16, text: &[u8]) -> Result<(), AllocError>
    ensures { Adds result out.old.items out.new.items (framed kind tag text.now) }
{
    put_head(out, text.len() + gap(text.len()), kind, tag)?;
    put_filled(out, text)?;
    Ok(())
}

/// Puts what is told last, or leaves all as it was.
pub(crate) fn put_framed(out: &mut Vec<u8>, kind: u16, tag: u16, text: &[u8]) -> Result<(), Refusal>
    ensures ok { OnOk result (out.new.items ≡ out.old.items ++ framed kind tag text.now) }
    ensures err { OnErr result (out.new.items ≡ out.old.items) }
    ensures memory { IsOkUnless result Refusal.Memory }
{
    let at = out.len();
    match put_whole(out, kind, tag, text) {
        Ok(()) => Ok(()),
        Err(_) => {
            out.truncate(at);
            Err(Refusal::Memory)
        }
    }
}
