//! Bytes as text: whole streams, lines, words, numbers, and messages spelled as words; and what every kind of script
//! shares: how its lines are read, its faults, small words, and lines that are written.
//!
//! The rules are this project's own and are shared by scripts and conf texts. Proved: each reading is the
//! definition in `specs/` that it names, and what is spelled of a message is read as that message again; a line is
//! written whole, or after a refusal a front of it is.
#![tactic(auto)]

mod faults;
mod first_numbers;
mod items;
mod laws;
mod lines;
mod numbers;
mod percent;
mod places;
mod runs;
mod scripts;
mod small_words;
mod streams;
mod words;
mod written;

pub use faults::{Fault, put_fault};
pub use first_numbers::{first_digits, take_number};
pub use items::push_item;
pub use laws::reads_what_is_spelled;
pub use lines::{Lines, is_ignored, trim};
pub use numbers::{is_number, push_number, read_number};
pub use percent::{is_plain_word, message_length, plain_message, push_message, read_message};
pub use scripts::{ReadsLine, read_script};
pub use small_words::{cut, is, put, put_byte, put_bytes, read_u32, strip_name};
pub use streams::{MOST_BYTES, MOST_READS, limits, read_whole, write_whole};
pub use words::{Words, only_word, take_word, take_words};
pub use written::write_line;
