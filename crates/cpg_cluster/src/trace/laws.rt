//! Laws of what is written, as contracts of functions that have nothing to do.

ghost use Rattle.std.specs.Prelude.{◌≡◌, ◌≤◌, ◌<◌, ◌^◌, ℕ, Bool, false, List, Some, length, slice_get};
ghost use Rattle.cpg_cred.specs.declared.nodes.TheConstants.{MOST_NODES};
ghost use Rattle.cpg_text.specs.Lines.{words_of};
ghost use Rattle.cpg_world_laws.specs.declared.events.WorldEvent.{WorldEvent};
ghost use Rattle.cpg_step.specs.Commands.{command_of};
ghost use Rattle.cpg_step.specs.declared.commands.Command.TheVariants.{Act};
ghost use Rattle.cpg_history.specs.declared.histories.Beginning.{Beginning};
ghost use Rattle.cpg_history.specs.declared.traces.Recorded.{Recorded};
ghost use Rattle.cpg_history.specs.Histories.{first_world};
ghost use Rattle.cpg_history.specs.Members.{MemberValue};
ghost use Rattle.cpg_cluster.specs.TraceLines.{IsSayable, event_text};
ghost use Rattle.cpg_cluster.specs.TraceScripts.{HaveNodesOf, IsNumbered, IsRecording, events_of};

/// In a ring of so many nodes, `step` reads from the command of an event that event again.
#[tactic(auto, using(crate::proofs::Said::event_back))]
pub fn events_read_back()
    ensures { (nodes : ℕ) (event : WorldEvent) → nodes ≤ MOST_NODES → IsSayable nodes event → command_of nodes (words_of (event_text event)) ≡ Some (Act event) }
{}

/// The script of what stations of one history recorded is a beginning of it: it has no more entries than they have seen
/// events (`no_longer`), and its entry of each index is the event of that index (`plays`). It is whole, where none of them
/// lost an event and of each event's node there is one of them (`whole`). All where they have seen fewer than 2^64 events,
/// and the second where a frame's number is less than 2^64.
pub fn scripts_play_again()
    ensures no_longer { (b : Beginning) (seen : List WorldEvent) (members : List MemberValue) (script : List Recorded) (cut : Bool) → length seen < 2 ^ 64 → IsRecording (first_world b) seen members script cut → length script ≤ length seen }
    ensures whole { (b : Beginning) (seen : List WorldEvent) (members : List MemberValue) (script : List Recorded) → length seen < 2 ^ 64 → IsRecording (first_world b) seen members script false → HaveNodesOf members seen → length script ≡ length seen }
    ensures plays { (b : Beginning) (seen : List WorldEvent) (members : List MemberValue) (script : List Recorded) (cut : Bool) → length seen < 2 ^ 64 → IsRecording (first_world b) seen members script cut → (index : ℕ) (event : WorldEvent) → index < length script → slice_get seen index ≡ Some event → IsNumbered event → slice_get (events_of script) index ≡ Some event }
{}
