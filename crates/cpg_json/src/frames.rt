//! Frames as lines.

ghost use Rattle.std.specs.Prelude.{◌≡◌, ◌++◌, ◌∷◌, codes, OnOk, IsOkUnless};
ghost use Rattle.cpg_json.specs.Answers.{frame_json, named_group, packet_fields, token_fields};
ghost use Rattle.cpg_json.specs.Calls.{call_name, carried_fields};
ghost use Rattle.cpg_json.specs.Objects.{field, more, word};

use crate::arrays::{Item, put_array};
use crate::calls::{call_name, put_carried, put_group};
use crate::objects::{put_end, put_head, put_maybe, put_number, put_word};
use crate::records::put_caller;
use cpg_cred::Refusal;
use cpg_entry::{Call, Frame, Op, Packet, Token};
use cpg_print::node_number;
use cpg_text::push_number;

/// Puts the group that an op names at the line's end.
fn put_named_group(line: &mut Vec<u8>, op: &Op) -> Result<(), Refusal>
    ensures ok { OnOk result (line.new.items ≡ line.old.items ++ more (named_group op.now)) }
    ensures memory { IsOkUnless result Refusal.Memory }
{
    match op {
        Op::Act(Call::Join(group))
        | Op::Act(Call::Insert(group, _, _))
        | Op::Act(Call::Remove(group, _)) => put_group(line, group.as_slice()),
        _ => Ok(()),
    }
}

/// Puts an op, with the group that it names, at the line's end.
#[tactic(auto, using(crate::proofs::Fields::more_append))]
pub fn put_whole_call(line: &mut Vec<u8>, op: &Op) -> Result<(), Refusal>
    ensures ok { OnOk result (line.new.items ≡ line.old.items ++ more (field (codes "call") (word (call_name op.now)) ∷ named_group op.now ++ carried_fields op.now)) }
    ensures memory { IsOkUnless result Refusal.Memory }
{
    put_word(line, "call", call_name(op))?;
    put_named_group(line, op)?;
    put_carried(line, op)
}

#[tactic(auto, using(crate::proofs::Fields::more_append))]
fn put_packet(line: &mut Vec<u8>, packet: &Packet) -> Result<(), Refusal>
    ensures ok { OnOk result (line.new.items ≡ line.old.items ++ more (packet_fields packet.now)) }
    ensures memory { IsOkUnless result Refusal.Memory }
{
    put_number(line, "place", u64::from(packet.place))?;
    put_caller(line, &packet.entry)?;
    put_whole_call(line, &packet.entry.op)
}

fn put_token(line: &mut Vec<u8>, token: &Token) -> Result<(), Refusal>
    ensures ok { OnOk result (line.new.items ≡ line.old.items ++ more (token_fields token.now)) }
    ensures memory { IsOkUnless result Refusal.Memory }
{
    put_number(line, "hop", token.hop)?;
    put_number(line, "seq", u64::from(token.seq))?;
    put_number(line, "aru", u64::from(token.aru))?;
    put_maybe(line, "aru_id", node_number(token.aru_id))?;
    put_array(line, "rtr", token.rtr.as_slice())
}

/// A place.
impl Item for u32 {
    ghost use Rattle.std.specs.Prelude.{decimal};

    ghost printed = { decimal };

    fn put_item(&self, line: &mut Vec<u8>) -> Result<(), Refusal> {
        push_number(line, u64::from(*self))
    }
}

/// Puts the line of a frame at the lines' end.
pub(crate) fn put_frame(line: &mut Vec<u8>, head: &[u8], frame: &Frame) -> Result<(), Refusal>
    ensures ok { OnOk result (line.new.items ≡ line.old.items ++ frame_json head.now frame.now) }
    ensures memory { IsOkUnless result Refusal.Memory }
{
    match frame {
        Frame::Packet(packet) => {
            put_head(line, "data", head)?;
            put_packet(line, packet)?;
            put_end(line)
        }
        Frame::Token(token) => {
            put_head(line, "token", head)?;
            put_token(line, token)?;
            put_end(line)
        }
    }
}
