//! What follows of all that one history leads to. The functions have nothing to do: their contracts are the laws.

ghost use Rattle.std.specs.Prelude.{◌≡◌, ◌≤◌, ℕ, List, []};
ghost use mathlib.Core.List.{IsPrefix};
ghost use Rattle.cpg_ring.specs.States.{IsSettings};
ghost use Rattle.cpg_node.specs.Nodes.{NodeValue, new_value};
ghost use Rattle.cpg_world_laws.specs.declared.events.WorldEvent.{WorldEvent};
ghost use Rattle.cpg_world_laws.specs.Worlds.{runs};
ghost use Rattle.cpg_world_laws.specs.Replies.{Answer, AreReplies};
ghost use Rattle.cpg_world_laws.specs.Claims.{IsTrueWorld, IsTrueRun, IsAgreed, JudgeAlike};
ghost use Rattle.cpg_history.specs.declared.histories.Beginning.{Beginning};
ghost use Rattle.cpg_history.specs.Histories.{first_world};
ghost use Rattle.cpg_history.specs.Members.{IsAt};

use cpg_record::laws::prefixes_are_judged_alike;
use cpg_world_laws::every_run;

/// Every beginning of a history leads to a true world (`world`), and what follows between two of them is a true run
/// (`run`). What a node is after a beginning is agreed in each later world (`agreed`). So two nodes judge alike every
/// place that both reached, whenever each of them is read (`alike`).
pub fn of_one_history()
    ensures world { (b : Beginning) (seen : List WorldEvent) → IsSettings b.settings → IsTrueWorld (runs (first_world b) seen) }
    ensures run { (b : Beginning) (xs ys : List WorldEvent) (more : IsPrefix xs ys) (answers : List Answer) → IsSettings b.settings → AreReplies (runs (first_world b) xs) more.0 answers → IsTrueRun (runs (first_world b) xs) more.0 answers }
    ensures agreed { (b : Beginning) (xs ys : List WorldEvent) (n : ℕ) (x : NodeValue) → IsSettings b.settings → IsPrefix xs ys → IsAt (first_world b) xs n x → IsAgreed (runs (first_world b) ys).sent x }
    ensures alike { (b : Beginning) (xs ys log : List WorldEvent) (n m : ℕ) (x y : NodeValue) → IsSettings b.settings → IsPrefix xs log → IsPrefix ys log → IsAt (first_world b) xs n x → IsAt (first_world b) ys m y → JudgeAlike x y }
{
    every_run();
    prefixes_are_judged_alike();
}

/// At the beginning each node is new.
pub fn first_nodes()
    ensures { (b : Beginning) (n : ℕ) → 1 ≤ n → n ≤ b.settings.nodes → IsAt (first_world b) [] n (new_value b.settings n b.list) }
{}
