//! The theorem of the ring: what holds in every world that any list of events leads to.

ghost use Rattle.std.specs.Prelude.{◌≡◌, ◌<◌, ◌≤◌, ◌^◌, ℕ, List, None};
ghost use Rattle.std.specs.List.{All};
ghost use Rattle.cpg_ring.specs.States.{Settings, IsSettings, NodeState, Token, Packet};
ghost use Rattle.cpg_ring.specs.Visits.{token_refusal, visit_step};
ghost use Rattle.cpg_ring.specs.Moves.{data_refusal, after_data};
ghost use Rattle.cpg_entry.specs.Ranges.{IsToken};
ghost use Rattle.cpg_ring.specs.Laws.{IsVisit, StaysHeld, IsOwnPacket};
ghost use Rattle.cpg_ring.specs.Worlds.{World, Event, Reached};
ghost use Rattle.cpg_ring.specs.Claims.{Chain, Agreement, Safe, OnceInOrder};
ghost use Rattle.cpg_ring.specs.Progress.{CatchesUp, DeliveredTo, HasHops, Recovers, all_admitted, hops_for};
ghost use Rattle.cpg_ring.specs.Fairness.{Bounded, BoundedAtStart, Fair, GrowsAsAdmitted, HasTurn, IsNewest, events_of};
ghost use Rattle.cpg_ring.specs.declared.settings.TheConstants.{BURST, MOST_WAITING, WINDOW};

/// Holds of every ring and every world that a list of events leads to: frames may be lost, come again
/// and come in any order.
pub fn every_schedule()
    ensures chain { (s : Settings) (w : World) → IsSettings s → Reached s w → Chain s w }
    ensures agreement { (s : Settings) (w : World) → IsSettings s → Reached s w → Agreement s w }
    ensures once_in_order { (s : Settings) (w : World) → IsSettings s → Reached s w → OnceInOrder s w }
    ensures safe { (s : Settings) (w : World) → IsSettings s → Reached s w → Safe s w }
{}

/// Holds of every token in range that a node accepts, whatever the node holds.
pub fn every_visit()
    ensures { (s : Settings) (n : ℕ) (r : NodeState) (t : Token) → IsSettings s → IsToken t → token_refusal s n r t ≡ None → IsVisit s r t (visit_step s n r t) }
{}

/// A place that is held never changes its entry, neither by data that a node takes nor by a visit that it
/// makes.
pub fn every_place()
    ensures data { (s : Settings) (r : NodeState) (p : Packet) → data_refusal s r p ≡ None → StaysHeld r.held (after_data r p).held }
    ensures visit { (s : Settings) (n : ℕ) (r : NodeState) (t : Token) → token_refusal s n r t ≡ None → StaysHeld r.held (visit_step s n r t).held }
{}

/// Each packet of a visit carries the ring's number, and the entry that is held at its place or one that
/// waited.
pub fn every_packet()
    ensures { (s : Settings) (n : ℕ) (r : NodeState) (t : Token) → All (IsOwnPacket s r) (visit_step s n r t).packets }
{}

/// Holds of every ring and every world that a list of events leads to: whatever was lost so far, events can
/// follow after which every node delivered all. Frames sent already may arrive (`catches_up`); or they are
/// all lost for good, and the nodes send again what is missed (`recovers`), if each token sent so far leaves
/// the ring three rounds of hops for each place that some node may lack.
pub fn no_dead_end()
    ensures catches_up { (s : Settings) (w : World) → IsSettings s → Reached s w → CatchesUp s w }
    ensures recovers { (s : Settings) (w : World) (done : ℕ) → IsSettings s → Reached s w → DeliveredTo w done → HasHops s w (hops_for s w done) → Recovers s w }
{}

/// Holds of every ring and every world that a list of events leads to. After so many good turns, in each of
/// which the token makes one hop and no packet that is sent is lost, all is recovered and an entry has its
/// place (`fair`). Whatever events follow, as many entries more are agreed or wait as they admit (`grows`):
/// so the wait is known at the start, where one knows how many are admitted meanwhile at most (`at_start`).
/// Below the last hop such a turn is possible (`has_turn`).
pub fn bounded_wait()
    ensures fair { (s : Settings) (w v : World) (turns : ℕ) → IsSettings s → Reached s w → Fair s turns w v → Bounded s w v turns }
    ensures grows { (s : Settings) (w : World) (events : List Event) → IsSettings s → Reached s w → GrowsAsAdmitted s w events }
    ensures at_start { (s : Settings) (w v : World) (turns more : ℕ) (led : Fair s turns w v) → IsSettings s → Reached s w → all_admitted s w (events_of s turns w v led) ≤ more → BoundedAtStart s w v turns more }
    ensures has_turn { (s : Settings) (w : World) (t : Token) → IsSettings s → Reached s w → IsNewest w t → t.hop < s.hops → HasTurn s w }
{}

/// The numbers of a ring: of a visit, of the queue, and of its settings.
pub fn limits()
    ensures visit { (BURST ≡ 8) × (WINDOW ≡ 64) }
    ensures queue { MOST_WAITING ≡ 256 }
{}
