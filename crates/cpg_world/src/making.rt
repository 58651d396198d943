//! What a new world is made of: its nodes, and the first token.

ghost use Rattle.std.specs.Prelude.{◌≡◌, ◌≤◌, ◌∷◌, [], map, All, OnOk, IfOk, IsOkUnless};
ghost use Rattle.cpg_entry.specs.declared.frames.Frame.TheVariants as frames;
ghost use Rattle.cpg_ring.specs.Moves.{first_token};
ghost use Rattle.cpg_ring.specs.States.{IsSettings};
ghost use Rattle.cpg_ring.specs.Visits.{up_to};
ghost use Rattle.cpg_node.specs.Nodes.{new_value};
ghost use Rattle.cpg_node.specs.Answers.{spelled, CanBeSpelled};

use bytes::Bytes;
use cpg_cred::{AcceptList, NodeId, Refusal};
use cpg_entry::{Places, Token};
use cpg_node::{Node, Settings};
use cpg_wire::encode_token;
use std::alloc::Global;

/// A new node of that number, with a list of the same users and groups.
fn new_node(
    alloc: Global,
    settings: Settings,
    number: u8,
    list: &AcceptList,
) -> Result<Node, Refusal>
    requires settings { IsSettings settings }
    requires low { 1 ≤ number }
    requires high { number ≤ settings.nodes }
    ensures ok { IfOk result (λ node. node ≡ new_value settings number list.now) }
    ensures memory { IsOkUnless result Refusal.Memory }
{
    match NodeId::new(number) {
        None => Err(Refusal::Range),
        Some(id) => Node::new(alloc, settings, id, list.copy(alloc)?).map_err(
            |refused| refused.into_refusal(),
        ),
    }
}

/// The new nodes of a ring, by their numbers.
pub(crate) fn new_nodes(
    alloc: Global,
    settings: Settings,
    list: &AcceptList,
) -> Result<Vec<Node>, Refusal>
    requires { IsSettings settings }
    ensures ok { IfOk result (λ nodes. nodes.items ≡ map (λ n. new_value settings n list.now) (up_to settings.nodes)) }
    ensures memory { IsOkUnless result Refusal.Memory }
{
    let mut nodes = Vec::new(alloc);
    for before in 0..settings.nodes {
        nodes.push(new_node(alloc, settings, before + 1, list)?)?;
    }
    Ok(nodes)
}

/// The frames that a new world has sent: the first token alone.
pub(crate) fn first_frames(alloc: Global, settings: Settings) -> Result<Vec<Bytes>, Refusal>
    requires { IsSettings settings }
    ensures ok { IfOk result (λ sent. sent.items ≡ spelled (frames.Token (first_token settings) ∷ [])) }
    ensures range { OnOk result (CanBeSpelled (frames.Token (first_token settings))) }
    ensures memory { IsOkUnless result Refusal.Memory }
{
    let token = Token {
        ring: settings.ring,
        hop: 0,
        seq: 0,
        aru: 0,
        aru_id: None,
        rtr: Places::from_vec(Vec::new(alloc)),
    };
    let mut sent = Vec::new(alloc);
    sent.push(encode_token(alloc, &token)?)?;
    Ok(sent)
}
