//! Which calls may be submitted: a group has a name, and a message is not too long.

ghost use Rattle.std.specs.Prelude.{◌≡◌, None};
ghost use Rattle.cpg_entry.specs.Names.{IsName};
ghost use Rattle.cpg_entry.specs.Ranges.{IsCall};
ghost use Rattle.cpg_node.specs.Calls.{call_refusal, name_refusal};

use cpg_cred::Refusal;
use cpg_entry::{Call, MOST_MESSAGE_BYTES, Name, accepts_name};

fn name_refusal(group: &Name) -> Option<Refusal>
    ensures told { result ≡ name_refusal group.now }
    ensures named { result ≡ None → IsName group.now }
{
    if accepts_name(group.as_slice()) {
        None
    } else {
        Some(Refusal::BadName)
    }
}

/// Why the call is refused whatever the node and its connections are: BadName or TooLong.
pub fn call_refusal(call: &Call) -> Option<Refusal>
    ensures told { result ≡ call_refusal call.now }
    // What is not refused keeps the rules of a frame.
    ensures ruled { result ≡ None → IsCall call.now }
{
    match call {
        Call::Join(group) => name_refusal(group),
        Call::Leave => None,
        Call::Insert(group, _, _) => name_refusal(group),
        Call::Remove(group, _) => name_refusal(group),
        Call::Send(message) => {
            if message.as_slice().len() > MOST_MESSAGE_BYTES {
                Some(Refusal::TooLong)
            } else {
                None
            }
        }
    }
}
