//! How the members of a history are made: new ones, and spares.

ghost use Rattle.std.specs.Prelude.{◌≡◌, ◌≤◌, ◌<◌, ◌+◌, suc, [], false, IfOk, OnOk, IsOkUnless, vec_len};
ghost use Rattle.cpg_ring.specs.States.{IsSettings};
ghost use Rattle.cpg_node.specs.Nodes.{new_value};
ghost use Rattle.cpg_board.specs.Words.{is_counted};
ghost use Rattle.cpg_history.specs.Histories.{first_world};
ghost use Rattle.cpg_history.specs.Traces.{new_trace};

use super::Member;
use crate::histories::{Beginning, History, HistoryName, Pen};
use crate::laws::first_nodes;
use cpg_board::Board;
use cpg_cred::{AcceptList, NodeId, Refusal};
use cpg_node::{Node, Settings};
use cpg_station::{BoardName, Station};
use std::alloc::Global;

/// A new station of that node, with a list of the same users and groups and a seat that has seen nothing.
fn new_station<B: BoardName>(
    alloc: Global,
    settings: Settings,
    id: NodeId,
    board: &Board,
    list: &AcceptList,
) -> Result<Station<B>, Refusal>
    requires settings { IsSettings settings }
    requires number { id ≤ settings.nodes }
    requires board { board.now.cells ≡ B.cells }
    ensures ok { IfOk result (λ station. station ≡ record { node = new_value settings id list.now; seat = []; halted = false }) }
    ensures memory { IsOkUnless result Refusal.Memory }
{
    match Node::new(alloc, settings, id, list.copy(alloc)?) {
        Ok(node) => Ok(Station::new(node, board.seat())),
        Err(refused) => Err(refused.into_refusal()),
    }
}

/// The next node's new station, with its pen. Its events are recorded where they are counted.
pub fn new_member<B: HistoryName>(
    alloc: Global,
    id: NodeId,
    beginning: &Beginning,
    history: &History<B>,
    pens: &mut Pen<B>,
) -> Result<Member<B>, Refusal>
    requires settings { IsSettings beginning.now.settings }
    requires number { id ≤ beginning.now.settings.nodes }
    requires begins { first_world beginning.now ≡ B.start }
    requires pens { (pens.old.from ≡ id) × (id < pens.old.to) × (pens.old.seen ≡ []) }
    ensures ok { IfOk result (λ member. member ≡ record { id = id; station = record { node = new_value beginning.now.settings id beginning.now.list; seat = []; halted = false }; spare = false; seen = []; trace = new_trace (is_counted B.table) }) }
    ensures rest { OnOk result ((pens.new.from ≡ suc id) × (pens.new.to ≡ pens.old.to) × (pens.new.seen ≡ [])) }
    ensures memory { IsOkUnless result Refusal.Memory }
{
    first_nodes();
    history.begins();
    let station = new_station(
        alloc,
        beginning.settings,
        id,
        history.board(),
        &beginning.list,
    )?;
    let pen = history.next(pens);
    Ok(Member::new(alloc, id, station, pen, history.is_counted()))
}

/// A spare for each node, to be left in the place of its station.
pub fn new_spares<B: HistoryName>(
    alloc: Global,
    settings: Settings,
    history: &History<B>,
    pens: &mut Pen<B>,
) -> Result<Vec<Member<B>>, Refusal>
    requires settings { IsSettings settings }
    requires pens { pens.old.from + settings.nodes ≤ pens.old.to }
    ensures ok { IfOk result (λ spares. vec_len spares ≡ settings.nodes) }
    ensures memory { IsOkUnless result Refusal.Memory }
{
    history.begins();
    let none = AcceptList::new(alloc);
    let mut spares = Vec::new(alloc);
    for before in 0..settings.nodes {
        let Some(id) = NodeId::new(before + 1) else {
            return Err(Refusal::Range);
        };
        let station = new_station(alloc, settings, id, history.board(), &none)?;
        spares.push(Member::spare(alloc, id, station, history.next(pens)))?;
    }
    Ok(spares)
}
