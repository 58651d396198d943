//! A ring of one node turns by itself.

ghost use Rattle.std.specs.Prelude.{◌≡◌, ◌<◌, None, length, IfErr, OnOk, IsOkUnless};
ghost use Rattle.cpg_entry.specs.declared.frames.Token.{Token};
ghost use Rattle.cpg_entry.specs.declared.entries.Entry.{Entry};
ghost use Rattle.std.specs.Prelude.{List};
ghost use Rattle.cpg_node.specs.Calls.{place_to_deliver};
ghost use Rattle.cpg_serve.specs.Settling.{HasDelivered, HasTurned, IsBrisk, IsLone, IsStill, IsTurn, WhyMoving, WhyStuck};

use cpg_cred::Refusal;
use cpg_node::Node;

/// Delivers all places that are held next.
fn deliver_all(node: &mut Node) -> Result<(), Refusal>
    ensures did { HasDelivered node.old node.new }
    ensures ok { OnOk result (place_to_deliver node.new ≡ None) }
    ensures memory { IsOkUnless result Refusal.Memory }
{
    while let Some(_) = node.deliver()? {}
    Ok(())
}

/// Turns once, where entries wait and all places are delivered. RingEnd where none took a place; NotMine where the node
/// has no token, as it may be in a ring of more nodes.
fn place_some(node: &mut Node) -> Result<(), Refusal>
    requires some { 0 < length node.old.ring.state.waiting }
    requires still { place_to_deliver node.old ≡ None }
    ensures did { HasTurned node.old node.new }
    ensures turn { OnOk result (IsTurn node.old.ring node.new.ring) }
    ensures less { OnOk result (length node.new.ring.state.waiting < length node.old.ring.state.waiting) }
    ensures why { (t : Token) (placed : List Entry) → IsLone node.old.ring t placed → IfErr result (λ why. WhyStuck node.old.ring node.new.ring why) }
{
    let before = node.waiting();
    if !node.turn()? {
        return Err(Refusal::NotMine);
    }
    if node.waiting() < before {
        Ok(())
    } else {
        Err(Refusal::RingEnd)
    }
}

/// Turns until nothing waits, and nothing is to be delivered.
pub(crate) fn turn_until_still(node: &mut Node) -> Result<(), Refusal>
    ensures did { HasTurned node.old node.new }
    ensures still { OnOk result (IsStill node.new) }
    ensures brisk { OnOk result (IsBrisk node.old.ring node.new.ring) }
    ensures why { (t : Token) (placed : List Entry) → IsLone node.old.ring t placed → IfErr result (λ why. WhyMoving node.old.ring node.new.ring why) }
{
    deliver_all(node)?;
    while node.waiting() > 0 {
        place_some(node)?;
        deliver_all(node)?;
    }
    Ok(())
}
