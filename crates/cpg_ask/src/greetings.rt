//! The answer to a client's first ask.

ghost use Rattle.std.specs.Prelude.{◌≡◌, ◌++◌, OnOk, OnErr, IsOkUnless};
ghost use Rattle.cpg_ask.specs.Tells.{Greets, tell_bytes};

use crate::frames::put_framed;
use crate::output::{put_four, put_u64};
use crate::statuses::Status;
use cpg_cred::{NodeId, Refusal};
use cpg_entry::MOST_MESSAGE_BYTES;
use std::alloc::Global;

/// Where a client is: the node's number, how many nodes the ring has, and the ring's number.
#[derive(Debug, Clone, Copy, PartialEq, Eq)]
pub struct Greeting {
    pub node: NodeId,
    pub nodes: u8,
    pub ring: u32,
}

/// Puts the answer to Hello last, or leaves all as it was.
pub fn put_greeting(
    alloc: Global,
    out: &mut Vec<u8>,
    tag: u16,
    status: Status,
    greeting: &Greeting,
) -> Result<(), Refusal>
    ensures ok { OnOk result (out.new.items ≡ out.old.items ++ tell_bytes (Greets tag status greeting.now)) }
    ensures err { OnErr result (out.new.items ≡ out.old.items) }
    ensures memory { IsOkUnless result Refusal.Memory }
{
    let mut text = Vec::new(alloc);
    put_four(
        &mut text,
        usize::from(status.number()),
        usize::from(greeting.node.get()),
        usize::from(greeting.nodes),
        MOST_MESSAGE_BYTES,
    )?;
    put_u64(&mut text, u64::from(greeting.ring))?;
    put_framed(out, 257, tag, text.as_slice())
}
