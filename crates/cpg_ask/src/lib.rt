//! What a client and the daemon say to each other over a stream, spelled and read.
//!
//! The grammar is this project's own, that of `daemon/protocol.h`: each ask and each tell has a head with its length,
//! so a stream is cut in one way; numbers have their lowest byte first. Proved: any bytes begin with a whole ask, or
//! with part of one, or are broken, and `read` says which, as `tidings::read` does of tells; what is spelled is read
//! again, whatever follows it; each `put_` puts the one spelling of what it names, or leaves all as it was.
#![tactic(auto)]

mod asks;
mod codes;
mod frames;
mod greetings;
mod heads;
mod input;
mod kinds;
mod laws;
mod listings;
mod naming;
mod output;
mod rules;
mod spelling;
mod statuses;
mod tells;
pub mod tidings;
mod words;

pub use asks::{AskView, Front, MOST_ASK, WantView, read};
pub use codes::AskCode;
pub use frames::gap;
pub use greetings::{Greeting, put_greeting};
pub use heads::Head;
pub use input::Input;
pub use kinds::Kind;
pub use laws::{
    names_come_back, reads_what_is_spelled, reads_what_is_told, stays_broken,
    streams_are_cut_in_one_way, tells_are_cut_in_one_way,
};
pub use listings::{put_group, put_listed, put_named};
pub use naming::{code_name, plain_name};
pub use rules::{RuleWords, WhoWords};
pub use spelling::put_ask;
pub use statuses::{Denial, Status, status_of_refusal, status_of_verdict};
pub use tells::{put_answer, put_change, put_denied, put_message};
