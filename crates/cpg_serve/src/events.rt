//! What an event tells a client.

ghost use Rattle.std.specs.Prelude.{◌≡◌, ◌++◌, map, OnOk, OnErr, IsOkUnless};
ghost use Rattle.cpg_serve.specs.Telling.{send_tell, verdict_tell, event_tell, bytes_of, is_verdict};
ghost use Rattle.cpg_ask.specs.Naming.{plain};
ghost use Rattle.cpg_ask.specs.Tells.{Message as MessageTell, Change as ChangeTell, still, moved, tell_bytes};

use crate::calls::is_send;
use crate::desks::Owed;
use cpg_ask::{
    Denial, plain_name, put_answer, put_change, put_denied, put_message, status_of_verdict,
};
use cpg_cred::Refusal;
use cpg_entry::{Message, Name, NodeId};
use cpg_node::Event;
use cpg_record::{Members, Moves, Verdict};
use std::alloc::Global;

/// Puts what the verdict on a call tells: an answer; of a message, that it was denied.
fn put_verdict(
    alloc: Global,
    out: &mut Vec<u8>,
    owed: Owed,
    verdict: Verdict,
) -> Result<(), Refusal>
    ensures ok { OnOk result (out.new.items ≡ out.old.items ++ bytes_of (verdict_tell owed verdict)) }
    ensures err { OnErr result (out.new.items ≡ out.old.items) }
    ensures memory { IsOkUnless result Refusal.Memory }
{
    if is_send(owed.code) {
        put_send_verdict(alloc, out, verdict)
    } else {
        put_answer(out, owed.code, owed.tag, status_of_verdict(verdict))
    }
}

/// Puts what the verdict on a message tells: that it was denied, if it was.
fn put_send_verdict(alloc: Global, out: &mut Vec<u8>, verdict: Verdict) -> Result<(), Refusal>
    ensures ok { OnOk result (out.new.items ≡ out.old.items ++ bytes_of (send_tell verdict)) }
    ensures err { OnErr result (out.new.items ≡ out.old.items) }
    ensures memory { IsOkUnless result Refusal.Memory }
{
    if verdict.is_allowed() {
        Ok(())
    } else {
        put_denied(alloc, out, status_of_verdict(verdict), Denial::of(verdict))
    }
}

/// Puts what an event tells, where the first call that is owed a verdict is that one; or leaves all as it was.
pub(crate) fn put_event(
    alloc: Global,
    out: &mut Vec<u8>,
    owed: Option<Owed>,
    event: &Event,
) -> Result<(), Refusal>
    ensures ok { OnOk result (out.new.items ≡ out.old.items ++ bytes_of (event_tell owed event.now)) }
    ensures err { OnErr result (out.new.items ≡ out.old.items) }
    ensures memory { IsOkUnless result Refusal.Memory }
{
    match event {
        Event::Verdict { verdict, .. } => match owed {
            None => Ok(()),
            Some(owed) => put_verdict(alloc, out, owed, *verdict),
        },
        Event::Message {
            group,
            node,
            pid,
            message,
            ..
        } => put_group_message(alloc, out, group, *node, *pid, message),
        Event::Change {
            group,
            members,
            left,
            joined,
            ..
        } => put_group_change(alloc, out, group, members, left, joined),
        Event::RulesChanged { .. } => Ok(()),
    }
}

/// Puts a message of the group of that code.
fn put_group_message(
    alloc: Global,
    out: &mut Vec<u8>,
    group: &Name,
    node: NodeId,
    pid: u32,
    message: &Message,
) -> Result<(), Refusal>
    ensures ok { OnOk result (out.new.items ≡ out.old.items ++ tell_bytes (MessageTell node pid (plain group.now) message.now)) }
    ensures err { OnErr result (out.new.items ≡ out.old.items) }
    ensures memory { IsOkUnless result Refusal.Memory }
{
    let group = plain_name(alloc, group.as_slice())?;
    put_message(alloc, out, node, pid, group.as_slice(), message.as_slice())
}

/// Puts a change of the group of that code.
fn put_group_change(
    alloc: Global,
    out: &mut Vec<u8>,
    group: &Name,
    members: &Members,
    left: &Moves,
    joined: &Moves,
) -> Result<(), Refusal>
    ensures ok { OnOk result (out.new.items ≡ out.old.items ++ tell_bytes (ChangeTell (plain group.now) (map still members.now) (map moved left.now) (map moved joined.now))) }
    ensures err { OnErr result (out.new.items ≡ out.old.items) }
    ensures memory { IsOkUnless result Refusal.Memory }
{
    let group = plain_name(alloc, group.as_slice())?;
    put_change(
        alloc,
        out,
        group.as_slice(),
        members.as_slice(),
        left.as_slice(),
        joined.as_slice(),
    )
}

pub(crate) fn is_verdict(event: &Event) -> bool
    ensures { result ≡ is_verdict event.now }
{
    matches!(event, Event::Verdict { .. })
}
