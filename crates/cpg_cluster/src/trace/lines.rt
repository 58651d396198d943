//! Events as the commands that `step` reads.

ghost use Rattle.std.specs.Prelude.{◌≡◌, ◌++◌, codes, decimal, OnOk, IsOkUnless};
ghost use Rattle.cpg_cluster.specs.TraceLines.{event_text, pair_text};

use cpg_cred::{NodeId, Refusal};
use cpg_print::put_call;
use cpg_text::{push_number, put, put_bytes};
use cpg_world_laws::WorldEvent;

/// Puts the word and the node at the text's end.
fn put_node(text: &mut Vec<u8>, word: &str, node: NodeId) -> Result<(), Refusal>
    ensures ok { OnOk result (text.new.items ≡ text.old.items ++ word.now ++ decimal node) }
    ensures memory { IsOkUnless result Refusal.Memory }
{
    put(text, word)?;
    push_number(text, u64::from(node.get()))
}

/// Puts the word, the node and a number at the text's end.
fn put_pair(text: &mut Vec<u8>, word: &str, node: NodeId, number: u64) -> Result<(), Refusal>
    ensures ok { OnOk result (text.new.items ≡ text.old.items ++ word.now ++ pair_text node number) }
    ensures memory { IsOkUnless result Refusal.Memory }
{
    put_node(text, word, node)?;
    put(text, " ")?;
    push_number(text, number)
}

/// Puts the word, the node and its connection at the text's end.
fn put_conn(text: &mut Vec<u8>, word: &str, node: NodeId, conn: u16) -> Result<(), Refusal>
    ensures ok { OnOk result (text.new.items ≡ text.old.items ++ word.now ++ pair_text node conn) }
    ensures memory { IsOkUnless result Refusal.Memory }
{
    put_pair(text, word, node, u64::from(conn))
}

/// Puts the command of the event, as `step` reads it, at the text's end.
pub(crate) fn put_event(text: &mut Vec<u8>, event: &WorldEvent) -> Result<(), Refusal>
    ensures ok { OnOk result (text.new.items ≡ text.old.items ++ event_text event.now) }
    ensures memory { IsOkUnless result Refusal.Memory }
{
    match event {
        WorldEvent::Connect(node, pid, cred) => {
            put_pair(text, "connect ", *node, u64::from(*pid))?;
            put(text, " ")?;
            push_number(text, u64::from(cred.uid))?;
            put(text, " ")?;
            push_number(text, u64::from(cred.gid))
        }
        WorldEvent::Submit(node, conn, call) => {
            put_conn(text, "call ", *node, *conn)?;
            put_call(text, call)
        }
        WorldEvent::Disconnect(node, conn) => put_conn(text, "disconnect ", *node, *conn),
        WorldEvent::Frame(node, number) => put_pair(text, "frame ", *node, *number as u64),
        WorldEvent::Timer(node) => put_node(text, "timer ", *node),
        WorldEvent::Deliver(node) => put_node(text, "deliver ", *node),
        WorldEvent::Take(node, conn) => put_conn(text, "take ", *node, *conn),
        WorldEvent::List(node, conn, group) => {
            put_conn(text, "list ", *node, *conn)?;
            put(text, " ")?;
            put_bytes(text, group.as_slice())
        }
        WorldEvent::Groups(node, conn) => put_conn(text, "groups ", *node, *conn),
    }
}
