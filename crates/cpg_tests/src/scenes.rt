//! Tests of running clusters, as lists of steps.

use crate::acting::{Scene, Step, is_played};
use crate::deeds::{Deed, Say};
use crate::left::Left;
use crate::playing::{ALLOWED, Stop, Told, settings_of};
use crate::stages::{Cue, Plan, Way};
use cpg_cred::{By, Refusal};
use cpg_node::Settings;
use cpg_record::{Reason, Verdict};
use std::alloc::Global;
use std::sync::Wait;
use std::test::Fail;
use std::thread::Threads;
use std::time::Clock;

const DENIED: Verdict = Verdict::Denied(Reason::Closed);

const JOIN: Say = Say::Join(b"db");

const HI: Say = Say::Text(b"hi");

/// The first token alone is left.
const ONE_TOKEN: Left = Left::Frames {
    to_first: 1,
    to_second: 0,
    to_further: 0,
    long: false,
};

/// Steps, one behind the other.
fn listed(alloc: Global, steps: &[Step]) -> Result<Vec<Step>, Stop> {
    let mut list = Vec::new(alloc);
    add(&mut list, steps)?;
    Ok(list)
}

/// Puts the steps behind the others.
fn add(list: &mut Vec<Step>, steps: &[Step]) -> Result<(), Stop> {
    for step in steps {
        if list.push(*step).is_err() {
            return Err(Stop::Refused(Refusal::Memory));
        }
    }
    Ok(())
}

/// The steps over a cluster of so many nodes, whatever it leaves in its links.
fn scene_of(alloc: Global, nodes: u8, plan: Plan, steps: &[Step]) -> Result<Scene, Stop> {
    Ok(Scene {
        settings: settings_of(nodes),
        plan,
        steps: listed(alloc, steps)?,
        left: Left::Any,
    })
}

/// The test of a scene.
fn plays_out<R>(rt: R, alloc: Global, scene: Result<Scene, Stop>) -> Result<(), Fail>
where
    R: Threads + Wait + Clock + Copy + Send + 'static,
{
    is_played(rt, alloc, scene?)?;
    Ok(())
}

/// A process of user 7 at each of so many nodes, the sessions 0, 1 and so on.
fn all_enter(alloc: Global, nodes: u8) -> Result<Vec<Step>, Stop> {
    let mut steps = Vec::new(alloc);
    for before in 0..nodes.min(8) {
        add(&mut steps, &[Step::Enters(before + 1, 40, 7)])?;
    }
    Ok(steps)
}

/// No turn of so many nodes begins.
fn held(alloc: Global, nodes: u8) -> Result<Scene, Stop> {
    Ok(Scene {
        settings: settings_of(nodes),
        plan: Plan::Pass,
        steps: all_enter(alloc, nodes)?,
        left: ONE_TOKEN,
    })
}

#[test]
fn a_start_puts_the_first_token_alone(rt: HostRuntime) -> Result<(), Fail> {
    for nodes in 1..=8u8 {
        plays_out(rt, rt.alloc(), held(rt.alloc(), nodes))?;
    }
    Ok(())
}

/// The first turn of node 1 places a join and the longest message, and the session is told of both.
const TURN: [Step; 7] = [
    Step::Does(0, Deed::Calls(JOIN, None)),
    Step::Does(0, Deed::Calls(Say::Long, None)),
    Step::Gate(Cue::Goes(1, 1)),
    Step::Does(0, Deed::Hears(Told::Verdict(1, ALLOWED))),
    Step::Does(0, Deed::Hears(Told::Change(1, 1, 0, 1))),
    Step::Does(0, Deed::Hears(Told::Verdict(2, ALLOWED))),
    Step::Does(0, Deed::Hears(Told::Message(2, 1, 40, b'a'))),
];

/// That of so many nodes: the gate is asked for the fates of the data to all others, and of the token to the next. The token
/// is on its way then, and so is the data of two entries.
fn turn_of(alloc: Global, nodes: u8, plan: Plan, to_second: usize) -> Result<Scene, Stop> {
    let mut steps = all_enter(alloc, nodes)?;
    add(&mut steps, &TURN)?;
    let second = if nodes >= 2 { 3 } else { 0 };
    let third = if nodes >= 3 { 2 } else { 0 };
    add(
        &mut steps,
        &[
            Step::Gate(Cue::Sent(Way::ToTwo, second)),
            Step::Gate(Cue::Sent(Way::ToThree, third)),
        ],
    )?;
    Ok(Scene {
        settings: settings_of(nodes),
        plan,
        steps,
        left: Left::Frames {
            to_first: if nodes == 1 { 1 } else { 0 },
            to_second,
            to_further: 2,
            long: true,
        },
    })
}

#[test]
fn a_turn_sends_data_to_all_and_the_token_to_the_next(rt: HostRuntime) -> Result<(), Fail> {
    for nodes in 1..=8u8 {
        plays_out(rt, rt.alloc(), turn_of(rt.alloc(), nodes, Plan::Pass, 3))?;
    }
    Ok(())
}

/// Of frames from node 1 each is lost, is repeated, or the first is lost and the second repeated.
#[test]
fn turns_obey_the_gate(rt: HostRuntime) -> Result<(), Fail> {
    plays_out(rt, rt.alloc(), turn_of(rt.alloc(), 3, Plan::Mixed, 3))?;
    plays_out(rt, rt.alloc(), turn_of(rt.alloc(), 2, Plan::Repeat, 6))?;
    plays_out(rt, rt.alloc(), turn_of(rt.alloc(), 2, Plan::Drop, 0))
}

/// All turns of so many nodes, the widest ring of eight: a process at each, one after the other, leaves, in no group, and is
/// told so. All nodes come to hold all.
fn free_of(alloc: Global, nodes: u8) -> Result<Scene, Stop> {
    let mut steps = all_enter(alloc, nodes)?;
    add(&mut steps, &[Step::Gate(Cue::LetsAll)])?;
    for before in 0..nodes.min(8) {
        let session = usize::from(before);
        let place = u32::from(before) + 1;
        add(
            &mut steps,
            &[
                Step::Does(session, Deed::Calls(Say::Leave, None)),
                Step::Does(session, Deed::Hears(Told::Verdict(place, DENIED))),
            ],
        )?;
    }
    for before in 0..nodes.min(8) {
        add(&mut steps, &[Step::GetsSafe(before + 1, u32::from(nodes))])?;
    }
    let places = if nodes == 8 { 1_048_576 } else { 4_096 };
    Ok(Scene {
        settings: Settings {
            places,
            ..settings_of(nodes)
        },
        plan: Plan::Pass,
        steps,
        left: Left::Any,
    })
}

#[test]
fn each_node_is_served(rt: HostRuntime) -> Result<(), Fail> {
    for nodes in 1..=8u8 {
        plays_out(rt, rt.alloc(), free_of(rt.alloc(), nodes))?;
    }
    Ok(())
}

/// The scene of two nodes, somebody at each, that leaves so many frames from node 1 to node 2.
fn two_of(alloc: Global, plan: Plan, steps: &[Step], to_second: usize) -> Result<Scene, Stop> {
    let mut all = all_enter(alloc, 2)?;
    add(&mut all, steps)?;
    Ok(Scene {
        settings: settings_of(2),
        plan,
        steps: all,
        left: Left::Frames {
            to_first: 0,
            to_second,
            to_further: 0,
            long: false,
        },
    })
}

/// Node 1 sends its token again after each 64 idle turns in a row, of which the one in which the other node's token comes
/// again is none; and the other node after its first 64.
#[test]
fn idle_nodes_send_the_token_again(rt: HostRuntime) -> Result<(), Fail> {
    let steps = [
        Step::Gate(Cue::Goes(1, 33)),
        Step::Gate(Cue::Goes(2, 64)),
        Step::Gate(Cue::Goes(1, 200)),
        Step::Gate(Cue::In(Way::ToTwo, [1, 98, 162])),
        Step::Gate(Cue::Sent(Way::ToTwo, 3)),
        Step::Gate(Cue::In(Way::ToOne, [64, 0, 0])),
    ];
    plays_out(rt, rt.alloc(), two_of(rt.alloc(), Plan::Drop, &steps, 0))
}

/// Node 1 sends its token again more often than its link has room for.
#[test]
fn a_full_link_loses_frames(rt: HostRuntime) -> Result<(), Fail> {
    let steps = [
        Step::Gate(Cue::Lets(1, u64::MAX)),
        Step::Gate(Cue::Gets(Way::ToTwo, 34)),
    ];
    plays_out(rt, rt.alloc(), two_of(rt.alloc(), Plan::Repeat, &steps, 64))
}

/// A join at node 1 is told there in its first turn, delivered at node 2 in the first turn of that, and the token passed on in
/// the second turns. The safe mark of node 1 is 1 once it sent the token twice, and stays when the nodes are halted.
const ROUNDS: [Step; 18] = [
    Step::Does(0, Deed::Calls(JOIN, None)),
    Step::Gate(Cue::Goes(1, 1)),
    Step::Does(0, Deed::Hears(Told::Verdict(1, ALLOWED))),
    Step::Safe(1, 0),
    Step::Safe(2, 0),
    Step::Gate(Cue::Goes(2, 1)),
    Step::Tells(1, 0),
    Step::Does(1, Deed::Lists(Ok(1))),
    Step::Gate(Cue::Sent(Way::ToOne, 0)),
    Step::Gate(Cue::Goes(2, 2)),
    Step::Gate(Cue::Sent(Way::ToOne, 1)),
    Step::Safe(1, 0),
    Step::Safe(2, 0),
    Step::Gate(Cue::Goes(1, 2)),
    Step::Safe(1, 1),
    Step::Halts,
    Step::Safe(1, 1),
    Step::Safe(2, 0),
];

#[test]
fn two_rounds_make_a_place_safe(rt: HostRuntime) -> Result<(), Fail> {
    plays_out(rt, rt.alloc(), two_of(rt.alloc(), Plan::Pass, &ROUNDS, 1))
}

/// The first turns of two nodes wait for each other.
#[test]
fn two_nodes_run_at_once(rt: HostRuntime) -> Result<(), Fail> {
    let steps = [
        Step::Enters(1, 40, 7),
        Step::Enters(2, 40, 7),
        Step::Gate(Cue::Asked(1, 0)),
        Step::Gate(Cue::Asked(2, 0)),
    ];
    plays_out(
        rt,
        rt.alloc(),
        scene_of(rt.alloc(), 2, Plan::Meeting, &steps),
    )
}

/// A session at a node that is held is behind once it was told what another one saw; and all calls are refused with Stopped
/// once the nodes are halted.
const BEHIND: [Step; 14] = [
    Step::Enters(1, 40, 7),
    Step::Enters(2, 40, 7),
    Step::Does(0, Deed::Calls(JOIN, None)),
    Step::Gate(Cue::Lets(1, u64::MAX)),
    Step::Does(0, Deed::Hears(Told::Verdict(1, ALLOWED))),
    Step::Tells(1, 0),
    Step::Does(1, Deed::Lists(Err(Refusal::Behind(0)))),
    Step::Does(1, Deed::Now(&[Told::Refused(Refusal::Behind(0))])),
    Step::Halts,
    Step::Barred(1, 7, Refusal::Stopped),
    Step::Does(0, Deed::Calls(Say::Leave, Some(Refusal::Stopped))),
    Step::Does(0, Deed::Lists(Err(Refusal::Stopped))),
    Step::Does(0, Deed::Now(&[Told::Refused(Refusal::Stopped)])),
    Step::Closes(0, Some(Refusal::Stopped)),
];

#[test]
fn a_held_node_is_behind(rt: HostRuntime) -> Result<(), Fail> {
    plays_out(rt, rt.alloc(), scene_of(rt.alloc(), 2, Plan::Pass, &BEHIND))
}

/// A member that was told that there is nothing comes to be told what another one of its group did meanwhile, at another node,
/// though it made no other call; and then of the other's message.
const LATER: [Step; 10] = [
    Step::Enters(1, 41, 0),
    Step::Enters(2, 42, 0),
    Step::Does(0, Deed::Calls(JOIN, None)),
    Step::Does(0, Deed::Answered),
    Step::Does(0, Deed::Quiet),
    Step::Does(1, Deed::Calls(JOIN, None)),
    Step::Does(0, Deed::Hears(Told::Change(2, 2, 0, 1))),
    Step::Does(0, Deed::Quiet),
    Step::Does(1, Deed::Calls(HI, None)),
    Step::Does(0, Deed::Hears(Told::Message(3, 2, 42, b'h'))),
];

#[test]
fn nothing_ends_with_a_delivery(rt: HostRuntime) -> Result<(), Fail> {
    plays_out(rt, rt.alloc(), scene_of(rt.alloc(), 2, Plan::Free, &LATER))
}

/// A call that is refused for itself is told why where the queue is full, too.
const NO_NAME: Say = Say::Join(b"d b");

/// The queue of a node that is held, once full, takes calls again when turns begin. Calls that are submitted in one go stay
/// where they are refused, also once the nodes are halted; none are admitted then, too.
const FULL: [Step; 11] = [
    Step::Enters(1, 41, 0),
    Step::Does(0, Deed::Fills),
    Step::Does(0, Deed::Calls(NO_NAME, Some(Refusal::BadName))),
    Step::Does(0, Deed::Calls(HI, Some(Refusal::QueueFull))),
    Step::Does(
        0,
        Deed::Together(&[HI, JOIN, HI], Some(Refusal::QueueFull), 3),
    ),
    Step::Gate(Cue::Lets(1, u64::MAX)),
    Step::Does(0, Deed::Empties(&[HI, JOIN, HI])),
    Step::Does(
        0,
        Deed::Together(&[HI, NO_NAME, HI], Some(Refusal::BadName), 2),
    ),
    Step::Halts,
    Step::Does(0, Deed::Together(&[NO_NAME, HI], Some(Refusal::Stopped), 2)),
    Step::Does(0, Deed::Together(&[], None, 0)),
];

#[test]
fn a_full_queue_takes_calls_again(rt: HostRuntime) -> Result<(), Fail> {
    plays_out(rt, rt.alloc(), scene_of(rt.alloc(), 1, Plan::Pass, &FULL))
}

/// Messages that are submitted in one go.
const MESSAGES: [Say; 5] = [
    Say::Text(b"0"),
    Say::Text(b"1"),
    Say::Text(b"2"),
    Say::Text(b"3"),
    Say::Text(b"4"),
];

/// What the first two of three members are told of the joins of the others and of these messages by the third.
const EVENTS: [Told; 7] = [
    Told::Change(2, 2, 0, 1),
    Told::Change(3, 3, 0, 1),
    Told::Message(4, 1, 43, b'0'),
    Told::Message(5, 1, 43, b'1'),
    Told::Message(6, 1, 43, b'2'),
    Told::Message(7, 1, 43, b'3'),
    Told::Message(8, 1, 43, b'4'),
];

/// The first takes in goes what the second takes one by one. A go is refused once the nodes are halted, and the events that
/// were taken before stay.
const GOES: [Step; 22] = [
    Step::Enters(1, 41, 0),
    Step::Enters(1, 42, 0),
    Step::Enters(1, 43, 0),
    Step::Does(0, Deed::Calls(JOIN, None)),
    Step::Does(1, Deed::Calls(JOIN, None)),
    Step::Does(2, Deed::Calls(JOIN, None)),
    Step::Does(2, Deed::Together(&MESSAGES, None, 0)),
    Step::Does(2, Deed::Comes(Told::Verdict(8, ALLOWED))),
    Step::Does(0, Deed::Takes(0, Ok(0))),
    Step::Does(0, Deed::Hears(Told::Verdict(1, ALLOWED))),
    Step::Does(0, Deed::Hears(Told::Change(1, 1, 0, 1))),
    Step::Does(0, Deed::Takes(3, Ok(3))),
    Step::Does(0, Deed::Takes(3, Ok(3))),
    Step::Does(0, Deed::Takes(3, Ok(1))),
    Step::Does(0, Deed::Takes(usize::MAX, Ok(0))),
    Step::Does(0, Deed::Took(&EVENTS)),
    Step::Does(1, Deed::Hears(Told::Verdict(2, ALLOWED))),
    Step::Does(1, Deed::Now(&EVENTS)),
    Step::Does(1, Deed::Now(&[Told::Nothing])),
    Step::Halts,
    Step::Does(0, Deed::Takes(1, Err(Refusal::Stopped))),
    Step::Does(0, Deed::Took(&EVENTS)),
];

#[test]
fn many_go_as_one_by_one(rt: HostRuntime) -> Result<(), Fail> {
    plays_out(rt, rt.alloc(), scene_of(rt.alloc(), 1, Plan::Free, &GOES))
}

/// A process leaves, in no group, and the node then holds place 1. A session leaves 1,100 times and is told each verdict, and
/// another one then is told all that it saw. The node gives the connection numbers left, 65,535 in all.
fn alone(alloc: Global) -> Result<Scene, Stop> {
    let mut scene = scene_of(
        alloc,
        1,
        Plan::Free,
        &[
            Step::Enters(1, 40, 0),
            Step::Safe(1, 0),
            Step::Does(0, Deed::Calls(Say::Leave, None)),
            Step::GetsSafe(1, 1),
            Step::Enters(1, 41, 0),
            Step::Enters(1, 42, 0),
        ],
    )?;
    for _ in 0u16..1_100 {
        add(
            &mut scene.steps,
            &[
                Step::Does(1, Deed::Calls(Say::Leave, None)),
                Step::Does(1, Deed::Answered),
            ],
        )?;
    }
    add(
        &mut scene.steps,
        &[
            Step::Tells(2, 1),
            Step::Does(2, Deed::Knows(1_101)),
            Step::Crowds(1, 65_532),
            Step::Barred(1, 0, Refusal::ConnectionsFull),
        ],
    )?;
    Ok(scene)
}

#[test]
fn a_cluster_of_one_gets_safe(rt: HostRuntime) -> Result<(), Fail> {
    plays_out(rt, rt.alloc(), alone(rt.alloc()))
}

/// Settings of which one is out of its range.
fn bad_settings() -> [Settings; 6] {
    let good = settings_of(2);
    [
        Settings { nodes: 0, ..good },
        Settings { nodes: 9, ..good },
        Settings { places: 0, ..good },
        Settings {
            places: 1_048_577,
            ..good
        },
        Settings { hops: 0, ..good },
        Settings {
            hops: (1 << 62) + 1,
            ..good
        },
    ]
}

#[test]
fn settings_have_ranges(rt: HostRuntime) -> Result<(), Fail> {
    for settings in bad_settings() {
        let good = scene_of(rt.alloc(), 2, Plan::Free, &[])?;
        let played = is_played(rt, rt.alloc(), Scene { settings, ..good });
        assert!(rt; played == Err(Stop::Refused(Refusal::Range)));
    }
    Ok(())
}
