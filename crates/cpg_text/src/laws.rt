//! Laws of spelling, as contracts of functions that do nothing.

ghost use Rattle.std.specs.Prelude.{◌≡◌, ◌<◌, ℕ, List, Some};
ghost use Rattle.std.specs.List.{AllByRecursion};
ghost use Rattle.cpg_text.specs.Percent.{message_of, text_of};

/// What is spelled of a message is read as that message again, whatever its bytes.
#[tactic(auto, using(crate::proofs::Round::message_of_text_of))]
pub fn reads_what_is_spelled()
    ensures { (message : List ℕ) → AllByRecursion (λ byte. byte < 256) message → message_of (text_of message) ≡ Some message }
{}
