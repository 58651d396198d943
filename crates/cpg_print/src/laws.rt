//! Laws of what is printed, as contracts of functions that do nothing.

ghost use Rattle.std.specs.Prelude.{◌≡◌, ℕ, List, [], ◌∷◌, Some};
ghost use Rattle.cpg_rules.specs.declared.rules.Rule.{Rule};
ghost use Rattle.cpg_rules.specs.declared.rules.Who.{Who};
ghost use Rattle.cpg_entry.specs.declared.calls.Call.{Call};
ghost use Rattle.cpg_entry.specs.declared.calls.Op.TheVariants.{Act};
ghost use Rattle.cpg_entry.specs.declared.entries.Entry.{Entry};
ghost use Rattle.cpg_entry.specs.Ranges.{IsCall, IsEntry};
ghost use Rattle.cpg_entry.specs.Widths.{CallFits, EntryFits, WhoFits};
ghost use Rattle.cpg_text.specs.Lines.{words_of};
ghost use Rattle.cpg_print.specs.Calls.{SendsBytes, call_of, call_text};
ghost use Rattle.cpg_print.specs.Entries.{entry_of, entry_text};
ghost use Rattle.cpg_print.specs.Rules.{effect_text, right_text, who_of, who_text, rule_of, rule_text};

/// Whom a rule speaks of is read again from what is printed of it.
#[tactic(auto, using(crate::proofs::Conditions::who_back))]
pub fn whos_read_back()
    ensures { (who : Who) → WhoFits who → who_of (who_text who) ≡ Some who }
{}

/// A rule is printed as three words, and is read again from them.
#[tactic(auto, using(crate::proofs::RuleWords::rule_words, crate::proofs::RuleWords::rule_back))]
pub fn rules_read_back()
    ensures words { (rule : Rule) → WhoFits rule.who → words_of (rule_text rule) ≡ effect_text rule.effect ∷ right_text rule.right ∷ who_text rule.who ∷ [] }
    ensures rule { (rule : Rule) → WhoFits rule.who → rule_of (effect_text rule.effect) (right_text rule.right) (who_text rule.who ∷ []) ≡ Some rule }
{}

/// A call that keeps the rules, and whose numbers and message fit their types, is read again from the words of
/// what is printed of it.
#[tactic(auto, using(crate::proofs::CallWords::call_again))]
pub fn calls_read_back()
    ensures { (call : Call) → IsCall call → CallFits call → SendsBytes (Act call) → call_of (words_of (call_text call)) ≡ Some call }
{}

/// An entry that keeps the rules, and whose numbers and message fit their types, is read again from the words
/// of its line.
#[tactic(auto, using(crate::proofs::EntryWords::entry_back))]
pub fn entries_read_back()
    ensures { (entry : Entry) → IsEntry entry → EntryFits entry → SendsBytes entry.op → entry_of (words_of (entry_text entry)) ≡ Some entry }
{}
