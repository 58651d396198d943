//! What holds of every run of every world.

ghost use Rattle.std.specs.Prelude.{◌≡◌, ◌<◌, ◌≤◌, ℕ, List};
ghost use Rattle.cpg_cred.specs.Listed.{Listed};
ghost use Rattle.cpg_ring.specs.States.{IsSettings, Token};
ghost use Rattle.cpg_ring.specs.declared.settings.Settings.{Settings};
ghost use Rattle.cpg_ring.specs.Worlds.{run, start};
ghost use Rattle.cpg_ring.specs.Progress.{DeliveredTo, HasHops, hops_for};
ghost use Rattle.cpg_ring.specs.Fairness.{BoundedAtStart, IsNewest};
ghost use Rattle.cpg_world_laws.specs.declared.events.WorldEvent.{WorldEvent};
ghost use Rattle.cpg_world_laws.specs.Worlds.{WorldValue, Reached, new_world, runs, ring_world};
ghost use Rattle.cpg_world_laws.specs.Replies.{Answer, AreReplies};
ghost use Rattle.cpg_world_laws.specs.Claims.{IsTrueWorld, IsTrueRun};
ghost use Rattle.cpg_world_laws.specs.Progress.{CatchesUp, Recovers};
ghost use Rattle.cpg_world_laws.specs.Fairness.{BoundedWait, Fair, GrowsAsAdmitted, HasTurn, all_admitted, events_of};

use cpg_record::laws::{
    denial_changes_nothing, denied_listings_name_their_rule, each_entry_is_judged,
    each_is_judged_by_those_before, groups_with_members_are_named, listings_show_members,
    prefixes_are_judged_alike, receives_exactly, told_in_order, verdicts_name_what_decided,
};
use cpg_ring::every_schedule;

/// Holds of every ring, every accept list, every list of events and the answers to them.
pub fn every_run()
    ensures world { (w : WorldValue) → IsSettings w.settings → Reached w → IsTrueWorld w }
    ensures run { (w : WorldValue) (events : List WorldEvent) (answers : List Answer) → IsSettings w.settings → Reached w → AreReplies w events answers → IsTrueRun w events answers }
{
    every_schedule();
    prefixes_are_judged_alike();
    each_entry_is_judged();
    each_is_judged_by_those_before();
    denial_changes_nothing();
    receives_exactly();
    told_in_order();
    verdicts_name_what_decided();
    listings_show_members();
    groups_with_members_are_named();
    denied_listings_name_their_rule();
}

/// Holds of every world that a list of events leads to: whatever was lost so far, events can follow after
/// which every node delivered all, and every open connection took all that is for it. Frames sent already
/// may arrive (`catches_up`); or they are all lost for good, and the nodes send again what is missed
/// (`recovers`), if each token sent so far leaves the ring three rounds of hops for each place that some
/// node may lack.
pub fn no_dead_end()
    ensures catches_up { (w : WorldValue) → IsSettings w.settings → Reached w → CatchesUp w }
    ensures recovers { (w : WorldValue) (done : ℕ) → IsSettings w.settings → Reached w → DeliveredTo (ring_world w) done → HasHops w.settings (ring_world w) (hops_for w.settings (ring_world w) done) → Recovers w }
{
    every_schedule();
    cpg_ring::no_dead_end();
}

/// Holds of every world that a list of events leads to. After so many good turns, in each of which the token
/// makes one hop and no packet that is sent is lost, all is recovered, an entry has its place, and a
/// connection that took what its node delivered is told (`fair`). Whatever events follow, as many entries
/// more are agreed or wait as they admit (`grows`): so the wait is known at the start, where one knows how
/// many are admitted meanwhile at most (`at_start`). Below the last hop such a turn is possible (`has_turn`).
pub fn bounded_wait()
    ensures fair { (w v : WorldValue) (turns : ℕ) → IsSettings w.settings → Reached w → Fair turns w v → BoundedWait w v turns }
    ensures grows { (w : WorldValue) (events : List WorldEvent) → IsSettings w.settings → Reached w → GrowsAsAdmitted w events }
    ensures at_start { (w v : WorldValue) (turns more : ℕ) (led : Fair turns w v) → IsSettings w.settings → Reached w → all_admitted w (events_of turns w v led) ≤ more → BoundedAtStart w.settings (ring_world w) (ring_world v) turns more }
    ensures has_turn { (w : WorldValue) (t : Token) → IsSettings w.settings → Reached w → IsNewest (ring_world w) t → t.hop < w.settings.hops → HasTurn w }
{
    every_schedule();
    cpg_ring::bounded_wait();
}
