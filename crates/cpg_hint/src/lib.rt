//! What a person needs to mend a script or a file: the line of its fault, a mark under what does not fit, and
//! what was wanted there.
//!
//! The forms are this project's own.
#![tactic(auto)]

mod accepts;
mod files;
mod fits;
mod hints;
mod kinds;
mod laws;
mod marks;
mod parts;
mod patterns;
mod phrases;
mod places;
mod told;
mod words;

pub use accepts::accept_hint;
pub use files::file_hint;
pub use hints::hint_of;
pub use kinds::ScriptKind;
pub use laws::{
    marks_the_word, no_ask_has_a_reason, no_entry_has_a_reason, no_naming_has_a_reason,
};
pub use patterns::Expected;
pub use words::Mismatch;
