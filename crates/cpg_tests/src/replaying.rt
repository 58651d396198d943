//! What a cluster of three nodes recorded, played in a world: what its nodes delivered is judged there alike.

ghost use Rattle.cpg_history.specs.Members.{HaveSeen};

use crate::playing::settings_of;
use cpg_cluster::trace::recorded_by;
use cpg_cred::{AcceptList, NodeId, Refusal};
use cpg_daemon::{Front, HistoryName, Member};
use cpg_history::Recorded;
use cpg_record::Record;
use cpg_world::{World, WorldEvent};
use std::alloc::Global;

/// The numbers of the first frames that the entries sent. Frame 1 was there before them.
fn first_numbers(alloc: Global, script: &[Recorded]) -> Result<Vec<usize>, Refusal> {
    let mut numbers = Vec::new(alloc);
    let mut next = 2usize;
    for entry in script {
        numbers.push(next)?;
        next = next.saturating_add(entry.sent);
    }
    Ok(numbers)
}

/// The event of the entry, as a world takes it: a frame by its number among all that were sent.
fn event_of(alloc: Global, numbers: &[usize], entry: &Recorded) -> Result<WorldEvent, Refusal> {
    match &entry.event {
        WorldEvent::Frame(node, index) => match numbers.get(entry.source as usize) {
            Some(first) => Ok(WorldEvent::Frame(*node, first.saturating_add(*index))),
            None => Err(Refusal::Range),
        },
        event => Ok(event.copy(alloc)?),
    }
}

/// The events of the script.
fn events_of(alloc: Global, script: &[Recorded]) -> Result<Vec<WorldEvent>, Refusal> {
    let numbers = first_numbers(alloc, script)?;
    let mut events = Vec::new(alloc);
    for entry in script {
        events.push(event_of(alloc, numbers.as_slice(), entry)?)?;
    }
    Ok(events)
}

/// Whether the world runs all events, each of a node that it has.
fn ran_whole(world: &mut World, events: &[WorldEvent]) -> bool {
    world.has_nodes_of(events) && world.run(events).done == events.len()
}

/// The world of three nodes after these events.
fn world_after(alloc: Global, events: &[WorldEvent]) -> Result<World, Refusal> {
    let list = AcceptList::new(alloc);
    let mut world = World::new(alloc, settings_of(3), &list)?;
    if ran_whole(&mut world, events) {
        Ok(world)
    } else {
        Err(Refusal::Memory)
    }
}

/// Whether these are so many of the records, from the first on.
pub fn begins(audit: &[Record], records: &[Record]) -> bool {
    audit.len() <= records.len()
        && audit
            .iter()
            .zip(records.iter())
            .all(|(mine, theirs)| mine.equals(theirs))
}

/// Whether the world's node of that number has delivered so many places, which are judged as the records say.
fn is_judged(world: &World, number: u8, delivered: usize, records: &[Record]) -> bool {
    match NodeId::new(number) {
        Some(node) if number <= world.nodes() => {
            let audit = world.node(node).audit();
            audit.len() == delivered && begins(audit, records)
        }
        _ => false,
    }
}

/// The same of all three nodes of a world.
fn are_judged(world: World, delivered: [usize; 3], records: &[Record]) -> bool {
    let [one, two, three] = delivered;
    is_judged(&world, 1, one, records)
        && is_judged(&world, 2, two, records)
        && is_judged(&world, 3, three, records)
}

/// How many places each of three stations has delivered; none where there are others.
fn delivered_in<B: HistoryName>(members: &[Member<B>]) -> Option<[usize; 3]> {
    match members {
        [one, two, three] => Some([
            one.station().audit().len(),
            two.station().audit().len(),
            three.station().audit().len(),
        ]),
        _ => None,
    }
}

/// The world after all that was recorded.
fn replayed<B: HistoryName>(
    alloc: Global,
    members: Vec<Member<B>>,
    front: Front<B>,
) -> Result<World, Refusal>
    requires { HaveSeen members.items front.seen }
{
    let recording = recorded_by(alloc, members, &front)?;
    if recording.cut {
        return Err(Refusal::Memory);
    }
    let events = events_of(alloc, recording.script.as_slice())?;
    world_after(alloc, events.as_slice())
}

/// Whether the nodes of the world that plays what was recorded have delivered as many places as the three stations have, each
/// judged as the records say.
pub fn plays_again<B: HistoryName>(
    alloc: Global,
    members: Vec<Member<B>>,
    front: Front<B>,
    records: &[Record],
) -> bool
    requires { HaveSeen members.items front.seen }
{
    match delivered_in(members.as_slice()) {
        Some(delivered) => match replayed(alloc, members, front) {
            Ok(world) => are_judged(world, delivered, records),
            Err(_) => false,
        },
        None => false,
    }
}
