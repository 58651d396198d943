//! What a cluster is made of: stations, links, and the first token on its way.

ghost use Rattle.std.specs.Prelude.{◌≡◌, ◌≤◌, ◌<◌, ◌+◌, ◌*◌, suc, IfOk, OnOk, IsOkUnless, vec_len, vec_capacity};
ghost use Rattle.cpg_ring.specs.States.{IsSettings};
ghost use Rattle.cpg_board.specs.Words.{all_nodes};
ghost use Rattle.cpg_history.specs.Histories.{first_world};
ghost use Rattle.cpg_daemon.specs.Links.{links_of, peers_of, peer_of};

use crate::clusters::Links;
use crate::flags::{NodeFlags, new_flags};
use crate::lines::{Incoming, Lines, Outgoing, ROOM};
use crate::running::Lock;
use crate::stopping::Room;
use cpg_cred::{NodeId, Refusal};
use cpg_history::{Beginning, History, HistoryName, Member, Parcel, Pen, new_member, new_spares};
use cpg_link::{Bell, link, new_bells};
use cpg_station::Station;
use crossbeam_utils::CachePadded;
use std::alloc::Global;
use std::sync::{Mutex, Wait};

/// A lock for each node, in their order, with a new station in it and the node's pen. What happens is recorded where
/// the history counts it.
pub(crate) fn new_locks<B: HistoryName>(
    alloc: Global,
    beginning: &Beginning,
    history: &History<B>,
    pens: &mut Pen<B>,
) -> Result<Vec<Lock<B>>, Refusal>
    requires settings { IsSettings beginning.now.settings }
    requires begins { first_world beginning.now ≡ B.start }
    requires pens { pens.old ≡ all_nodes }
    ensures ok { IfOk result (λ locks. vec_len locks ≡ beginning.now.settings.nodes) }
    ensures rest { OnOk result ((pens.new.from ≡ suc beginning.now.settings.nodes) × (pens.new.to ≡ pens.old.to)) }
    ensures memory { IsOkUnless result Refusal.Memory }
{
    let mut locks = Vec::new(alloc);
    for before in 0..beginning.settings.nodes {
        let Some(id) = NodeId::new(before + 1) else {
            return Err(Refusal::Range);
        };
        let member = new_member(alloc, id, beginning, history, pens)?;
        locks.push(Mutex::new(CachePadded::new(member)))?;
    }
    Ok(locks)
}

/// How many links go out of a node, and into it.
pub(crate) fn peers(nodes: u8) -> u8
    requires { 1 ≤ nodes }
    ensures { result ≡ peers_of nodes }
{
    if nodes == 1 { 1 } else { nodes - 1 }
}

/// The node to which the link of that index goes, from 0 on, of those that come from the node: the others in
/// their order.
fn peer(nodes: u8, from: NodeId, index: u8) -> NodeId
    requires { (from ≤ nodes) × (nodes ≤ 8) × (index < peers_of nodes) }
    ensures { result ≡ peer_of nodes from index }
{
    let number = if nodes == 1 {
        1
    } else if index + 1 < from.get() {
        index + 1
    } else {
        index + 2
    };
    NodeId::new(number).unwrap_or(from)
}

/// Adds a link from one node to another. Its number of frames is within what a link may have room for, so memory alone can
/// refuse it.
fn add_link<B: HistoryName>(
    alloc: Global,
    from: NodeId,
    to: NodeId,
    lines: &mut Lines<B>,
) -> Result<(), Refusal>
    ensures ok { OnOk result ((vec_len lines.new.outgoing ≡ vec_len lines.old.outgoing + 1) × (vec_len lines.new.incoming ≡ vec_len lines.old.incoming + 1)) }
    ensures memory { IsOkUnless result Refusal.Memory }
{
    let (sender, receiver) = link(alloc, ROOM).map_err(|_| Refusal::Memory)?;
    lines.outgoing.push(Outgoing::new(from, to, sender))?;
    lines.incoming.push(Incoming::new(from, to, receiver))?;
    Ok(())
}

/// Adds the links that come from the node.
fn add_links_from<B: HistoryName>(
    alloc: Global,
    nodes: u8,
    number: u8,
    peers: u8,
    lines: &mut Lines<B>,
) -> Result<(), Refusal>
    requires number { (1 ≤ number) × (number ≤ nodes) × (nodes ≤ 8) }
    requires peers { peers ≡ peers_of nodes }
    ensures ok { OnOk result ((vec_len lines.new.outgoing ≡ vec_len lines.old.outgoing + peers) × (vec_len lines.new.incoming ≡ vec_len lines.old.incoming + peers)) }
    ensures memory { IsOkUnless result Refusal.Memory }
{
    let Some(from) = NodeId::new(number) else {
        return Err(Refusal::Range);
    };
    for index in 0..peers {
        add_link(alloc, from, peer(nodes, from, index), lines)?;
    }
    Ok(())
}

/// A link of each way: the sending ends in the order of their nodes, and so the receiving ones.
pub(crate) fn new_links<B: HistoryName>(
    alloc: Global,
    nodes: u8,
    peers: u8,
) -> Result<Lines<B>, Refusal>
    requires nodes { nodes ≤ 8 }
    requires peers { peers ≡ peers_of nodes }
    ensures ok { IfOk result (λ lines. (vec_len lines.outgoing ≡ nodes * peers) × (vec_len lines.incoming ≡ nodes * peers)) }
    ensures memory { IsOkUnless result Refusal.Memory }
{
    let mut lines = Lines {
        outgoing: Vec::new(alloc),
        incoming: Vec::new(alloc),
    };
    for before in 0..nodes {
        add_links_from(alloc, nodes, before + 1, peers, &mut lines)?;
    }
    lines
        .incoming
        .sort_unstable_by_key(|end| end.way.by_target());
    Ok(lines)
}

/// The last token that the last node has sent: the first token, where all are new.
pub(crate) fn first_token<B: HistoryName, R: Wait>(
    rt: &R,
    history: &History<B>,
    locks: &Vec<Lock<B>>,
) -> Result<Option<Parcel<B>>, Refusal>
    ensures { IsOkUnless result Refusal.Memory }
{
    let Some(lock) = locks.last() else {
        return Ok(None);
    };
    match lock.lock(rt).timer(history) {
        Ok(token) => Ok(token),
        Err(_) => Err(Refusal::Memory),
    }
}

/// Puts the first token into the link from the last node to the first.
pub(crate) fn put_first<B: HistoryName, R: Wait>(
    rt: &R,
    nodes: u8,
    mut token: Option<Parcel<B>>,
    outgoing: &mut [Outgoing<B>],
) {
    for end in outgoing.iter_mut() {
        if end.way.from.get() == nodes && end.way.to.get() == 1 {
            if let Some(first) = token.take() {
                let _ = end.link.put(rt, first);
            }
        }
    }
}

/// Room for the stations and the ends of links of so many nodes.
struct Space<B: HistoryName> {
    members: Vec<Member<B>>,
    stations: Vec<Station<B>>,
    ends: Lines<B>,
    links: Links<B>,
}

fn new_space<B: HistoryName>(alloc: Global, nodes: u8) -> Result<Space<B>, Refusal>
    requires nodes { (1 ≤ nodes) × (nodes ≤ 8) }
    ensures members { IfOk result (λ space. (vec_len space.members ≡ 0) × (nodes ≤ vec_capacity space.members)) }
    ensures stations { IfOk result (λ space. (vec_len space.stations ≡ 0) × (nodes ≤ vec_capacity space.stations)) }
    ensures outgoing { IfOk result (λ space. (vec_len space.ends.outgoing ≡ 0) × (links_of nodes ≤ vec_capacity space.ends.outgoing)) }
    ensures incoming { IfOk result (λ space. (vec_len space.ends.incoming ≡ 0) × (links_of nodes ≤ vec_capacity space.ends.incoming)) }
    ensures links { IfOk result (λ space. (vec_len space.links ≡ 0) × (links_of nodes ≤ vec_capacity space.links)) }
    ensures memory { IsOkUnless result Refusal.Memory }
{
    let ends = usize::from(nodes) * usize::from(peers(nodes));
    let members = Vec::with_capacity(alloc, usize::from(nodes))?;
    let stations = Vec::with_capacity(alloc, usize::from(nodes))?;
    let outgoing = Vec::with_capacity(alloc, ends)?;
    let incoming = Vec::with_capacity(alloc, ends)?;
    let links = Vec::with_capacity(alloc, ends)?;
    Ok(Space {
        members,
        stations,
        ends: Lines { outgoing, incoming },
        links,
    })
}

/// A lock for each node with a new station in it, and room for what a cluster of them leaves.
fn new_nodes<B: HistoryName>(
    alloc: Global,
    beginning: &Beginning,
    history: &History<B>,
    mut pens: Pen<B>,
) -> Result<(Vec<Lock<B>>, Room<B>), Refusal>
    requires settings { IsSettings beginning.now.settings }
    requires begins { first_world beginning.now ≡ B.start }
    requires pens { pens ≡ all_nodes }
    ensures ok { IfOk result (λ made. (vec_len made.0 ≡ beginning.now.settings.nodes) × (made.1.nodes ≡ beginning.now.settings.nodes)) }
    ensures memory { IsOkUnless result Refusal.Memory }
{
    let settings = beginning.settings;
    let Space {
        members,
        stations,
        ends,
        links,
    } = new_space(alloc, settings.nodes)?;
    let locks = new_locks(alloc, beginning, history, &mut pens)?;
    let spares = new_spares(alloc, settings, history, &mut pens)?;
    let room = Room {
        nodes: settings.nodes,
        pens,
        spares,
        members,
        stations,
        ends,
        links,
    };
    Ok((locks, room))
}

/// What wakes the threads and the sessions of nodes, in their order.
#[derive(Drop)]
pub(crate) struct Wakers {
    pub bells: Vec<CachePadded<Bell>>,
    pub flags: Vec<CachePadded<NodeFlags>>,
}

fn new_wakers(alloc: Global, nodes: u8) -> Result<Wakers, Refusal>
    ensures ok { IfOk result (λ wakers. (vec_len wakers.bells ≡ nodes) × (vec_len wakers.flags ≡ nodes)) }
    ensures memory { IsOkUnless result Refusal.Memory }
{
    let bells = new_bells(alloc, nodes)?;
    let flags = new_flags(alloc, nodes)?;
    Ok(Wakers { bells, flags })
}

/// What a cluster is made of but for its history and its gate: all that asks for memory.
#[derive(Drop)]
pub(crate) struct Parts<B: HistoryName> {
    pub stations: Vec<Lock<B>>,
    pub wakers: Wakers,
    pub lines: Lines<B>,
    pub room: Room<B>,
}

/// The parts of a new cluster, with the first token on its way.
pub(crate) fn new_parts<B: HistoryName, R: Wait>(
    rt: &R,
    alloc: Global,
    beginning: &Beginning,
    history: &History<B>,
    pens: Pen<B>,
) -> Result<Parts<B>, Refusal>
    requires settings { IsSettings beginning.now.settings }
    requires begins { first_world beginning.now ≡ B.start }
    requires pens { pens ≡ all_nodes }
    ensures nodes { IfOk result (λ parts. (vec_len parts.stations ≡ beginning.now.settings.nodes) × (parts.room.nodes ≡ beginning.now.settings.nodes)) }
    ensures wakers { IfOk result (λ parts. (vec_len parts.wakers.bells ≡ beginning.now.settings.nodes) × (vec_len parts.wakers.flags ≡ beginning.now.settings.nodes)) }
    ensures lines { IfOk result (λ parts. (vec_len parts.lines.outgoing ≡ links_of beginning.now.settings.nodes) × (vec_len parts.lines.incoming ≡ links_of beginning.now.settings.nodes)) }
    ensures memory { IsOkUnless result Refusal.Memory }
{
    let nodes = beginning.settings.nodes;
    let (stations, room) = new_nodes(alloc, beginning, history, pens)?;
    let token = first_token(rt, history, &stations)?;
    let mut lines = new_links(alloc, nodes, peers(nodes))?;
    put_first(rt, nodes, token, lines.outgoing.as_mut_slice());
    let wakers = new_wakers(alloc, nodes)?;
    Ok(Parts {
        stations,
        wakers,
        lines,
        room,
    })
}
