//! A session at a running cluster of one node, whose calls go on after Memory. What the node's thread meets it at, the
//! node makes up for by itself. `tools/refuse-growths` runs the test again and again, with other requests refused.

use crate::acting::{Scene, Step, is_played};
use crate::deeds::{Deed, Say};
use crate::left::Left;
use crate::playing::{ALLOWED, Stop, Told, settings_of};
use crate::stages::Plan;
use cpg_cred::{By, Refusal};
use cpg_record::Verdict;
use std::alloc::Global;
use std::test::Fail;

/// A member joins `db`, says `hi`, lists, lets another one see what it saw, leaves, which it is told in one go, and closes.
const STEPS: [Step; 14] = [
    Step::Enters(1, 40, 0),
    Step::Does(0, Deed::Calls(Say::Join(b"db"), None)),
    Step::Does(0, Deed::Hears(Told::Verdict(1, ALLOWED))),
    Step::Does(0, Deed::Hears(Told::Change(1, 1, 0, 1))),
    Step::Does(0, Deed::Calls(Say::Text(b"hi"), None)),
    Step::Does(0, Deed::Hears(Told::Verdict(2, ALLOWED))),
    Step::Does(0, Deed::Hears(Told::Message(2, 1, 40, b'h'))),
    Step::Does(0, Deed::Lists(Ok(1))),
    Step::Enters(1, 50, 0),
    Step::Tells(1, 0),
    Step::Does(0, Deed::Calls(Say::Leave, None)),
    Step::Does(0, Deed::TakesUpTo(2)),
    Step::Does(
        0,
        Deed::Took(&[
            Told::Verdict(3, Verdict::Allowed(By::Free)),
            Told::Change(3, 0, 1, 0),
        ]),
    ),
    Step::Closes(0, None),
];

/// The scene.
fn scene(alloc: Global) -> Result<Scene, Stop> {
    let mut steps = Vec::new(alloc);
    for step in STEPS {
        if steps.push(step).is_err() {
            return Err(Stop::Refused(Refusal::Memory));
        }
    }
    Ok(Scene {
        settings: settings_of(1),
        plan: Plan::Free,
        steps,
        left: Left::Any,
    })
}

/// How often the scene is played before it is taken that memory has run out: more often than `tools/refuse-growths` refuses
/// requests in a row, of which each play that fails has met one.
const TIMES: u8 = 12;

#[test]
fn a_session_goes_on(rt: HostRuntime) -> Result<(), Fail> {
    let mut played = Err(Stop::Refused(Refusal::Memory));
    for _ in 0..TIMES {
        if played == Err(Stop::Refused(Refusal::Memory)) {
            played = match scene(rt.alloc()) {
                Ok(scene) => is_played(rt, rt.alloc(), scene),
                Err(stop) => Err(stop),
            };
        }
    }
    played?;
    Ok(())
}
