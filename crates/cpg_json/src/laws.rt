//! Laws of strings, as contracts of functions that do nothing.

ghost use Rattle.std.specs.Prelude.{◌≡◌, ◌<◌, ℕ, List, Some, true, IsUtf8};
ghost use Rattle.std.specs.List.{list_all, AllByRecursion};
ghost use Rattle.cpg_json.specs.Reading.{is_printable, string_of};
ghost use Rattle.cpg_json.specs.Strings.{json_string, text_string};

/// Each string is read as its bytes again, whatever these are.
#[tactic(auto, using(crate::proofs::Back::string_back))]
pub fn strings_read_back()
    ensures { (bytes : List ℕ) → AllByRecursion (λ byte. byte < 256) bytes → string_of (json_string bytes) ≡ Some bytes }
{}

/// Each string is printable ASCII alone, so that it breaks no line.
#[tactic(auto, using(crate::proofs::Back::string_printable))]
pub fn strings_are_printable()
    ensures { (bytes : List ℕ) → AllByRecursion (λ byte. byte < 256) bytes → list_all is_printable (json_string bytes) ≡ true }
{}

/// The characters of each text are printable ASCII alone, too.
#[tactic(auto, using(crate::proofs::Back::text_printable))]
pub fn texts_are_printable()
    ensures { (bytes : List ℕ) → IsUtf8 bytes → list_all is_printable (text_string bytes) ≡ true }
{}
