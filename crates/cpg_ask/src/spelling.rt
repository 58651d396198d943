//! Asks, as a client puts them on a stream.

ghost use Rattle.std.specs.Prelude.{◌≡◌, ◌++◌, OnOk, OnErr, IsOkUnless};
ghost use Rattle.cpg_ask.specs.Asks.{want_seen, ask_seen};
ghost use Rattle.cpg_ask.specs.Spelling.{content, spelling, IsAsk};

use crate::asks::{AskView, WantView};
use crate::output::{put_head, put_u32};
use bytes::BufMut;
use cpg_cred::Refusal;
use std::alloc::{AllocError, Global};

/// Puts an ask last, or leaves all as it was.
pub fn put_ask(alloc: Global, out: &mut Vec<u8>, ask: &AskView<'_>) -> Result<(), Refusal>
    requires { IsAsk (ask_seen ask.now) }
    ensures ok { OnOk result (out.new.items ≡ out.old.items ++ spelling (ask_seen ask.now)) }
    ensures err { OnErr result (out.new.items ≡ out.old.items) }
    ensures memory { IsOkUnless result Refusal.Memory }
{
    let mut text = Vec::new(alloc);
    put_content(&mut text, &ask.want)?;
    let mut whole = Vec::new(alloc);
    put_head(&mut whole, text.len(), ask.want.code().number(), ask.tag)?;
    whole.extend_from_slice(text.as_slice())?;
    out.extend_from_slice(whole.as_slice())?;
    Ok(())
}

fn put_content(out: &mut Vec<u8>, want: &WantView<'_>) -> Result<(), AllocError>
    ensures { OnOk result (out.new.items ≡ out.old.items ++ content (want_seen want.now)) }
{
    match want {
        WantView::Hello(version, wishes) => {
            put_u32(out, *version)?;
            put_u32(out, *wishes)
        }
        WantView::Groups(members) => put_u32(out, *members),
        WantView::Join(name) | WantView::Members(name) => out.put_slice(name),
        WantView::Leave => Ok(()),
        WantView::Send(message) => out.put_slice(message),
        WantView::Insert(rule, name) => {
            rule.put(out)?;
            out.put_slice(name)
        }
        WantView::Remove(id, name) => {
            put_u32(out, *id)?;
            out.put_slice(name)
        }
    }
}
