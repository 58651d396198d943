//! Laws of reasons, as contracts of functions that do nothing: a word is told exactly where a line says nothing.

ghost use Rattle.std.specs.Prelude.{◌≡◌, ℕ, List, drop, is_ok, is_some, not};
ghost use Rattle.cpg_conf.specs.Names.{naming_in, three};
ghost use Rattle.cpg_print.specs.Entries.{entry_of};
ghost use Rattle.cpg_accept.specs.Asks.{cred_of};
ghost use Rattle.cpg_text.specs.Lines.{words_of};
ghost use Rattle.cpg_hint.specs.Places.{from_word_at};
ghost use Rattle.cpg_hint.specs.Reasons.{why_no_ask, why_no_entry, why_no_naming};

/// A word does not fit exactly where the words are no entry.
#[tactic(auto, using(crate::proofs::EntryReasons::entry_why))]
pub fn no_entry_has_a_reason()
    ensures { (words : List (List ℕ)) → is_some (entry_of words) ≡ not (is_some (why_no_entry words)) }
{}

/// A word does not fit exactly where the words are no ask.
#[tactic(auto, using(crate::proofs::LineReasons::ask_why))]
pub fn no_ask_has_a_reason()
    ensures { (words : List (List ℕ)) → is_some (cred_of words) ≡ not (is_some (why_no_ask words)) }
{}

/// A word does not fit exactly where the words of a line of a names part are faulty.
#[tactic(auto, using(crate::proofs::LineReasons::naming_why))]
pub fn no_naming_has_a_reason()
    ensures { (line : ℕ) (words : List (List ℕ)) → is_ok (naming_in line (three words)) ≡ not (is_some (why_no_naming words)) }
{}

/// What stands from the mark on are the words from the one that it is for.
#[tactic(auto, using(crate::proofs::Marked::words_from_place))]
pub fn marks_the_word()
    ensures { (index : ℕ) (line : List ℕ) → words_of (from_word_at index line) ≡ drop index (words_of line) }
{}
