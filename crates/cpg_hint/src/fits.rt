//! Whether a word is of a kind.
//!
//! Proved: each is told as the definition `fits` says, by the same readers that a script's meaning has.

ghost use Rattle.std.specs.Prelude.{◌≡◌, is_some, option_map};
ghost use Rattle.cpg_print.specs.Entries.{conn_of_word};
ghost use Rattle.cpg_print.specs.Rules.{effect_of, right_of, who_of, conditions_of, take_condition, first_condition, named_number};
ghost use Rattle.cpg_print.specs.Steps.{sends_few};
ghost use Rattle.cpg_text.specs.Words.{cut_at};
ghost use Rattle.cpg_text.specs.Numbers.{number_in};
ghost use Rattle.cpg_hint.specs.Patterns.{fits, is_table, node_in};

use crate::patterns::{Expected, call_pattern, op_pattern, run_pattern, step_pattern};
use cpg_cred::MOST_NODES;
use cpg_entry::{MOST_CONNECTIONS, MOST_MESSAGE_BYTES, accepts_name};
use cpg_text::{cut, is, message_length, read_number, read_u32, strip_name};

/// Whether the word is of that kind, where there are so many nodes.
pub fn fits(nodes: u8, expected: Expected, word: &[u8]) -> bool
    ensures { result ≡ fits nodes expected word.now }
{
    match expected {
        Expected::Op => op_pattern(word).is_some(),
        Expected::Call => call_pattern(word).is_some(),
        Expected::StepCommand => step_pattern(word).is_some(),
        Expected::RunCommand => run_pattern(word).is_some(),
        Expected::Caller => is_caller(word),
        Expected::Node => is_node(nodes, word),
        Expected::Conn => is_within(1, u32::from(MOST_CONNECTIONS), word),
        Expected::Pid
        | Expected::Uid
        | Expected::Gid
        | Expected::Id
        | Expected::Session
        | Expected::Number => { is_within(0, u32::MAX, word) }
        Expected::Frame => read_number(0, u64::MAX, word).is_some(),
        Expected::Position => is_within(0, 255, word),
        Expected::Effect => is(word, b"allow".as_slice()) || is(word, b"deny".as_slice()),
        Expected::Right => is_right(word),
        Expected::Who => is_who(word),
        Expected::Name => accepts_name(word),
        Expected::Message => sends_few(word),
        Expected::Text => message_length(word).is_some(),
        Expected::Group | Expected::Named => true,
        Expected::Table => is(word, b"user".as_slice()) || is(word, b"group".as_slice()),
        Expected::Room | Expected::Head | Expected::Nothing => false,
    }
}

/// Whether the word writes a number from `low` to `high`.
fn is_within(low: u32, high: u32, word: &[u8]) -> bool
    ensures { result ≡ is_some (number_in low high word.now) }
{
    read_u32(low, high, word).is_some()
}

/// Whether the word is NODE.CONN.
fn is_caller(word: &[u8]) -> bool
    ensures { result ≡ is_some (conn_of_word word.now) }
{
    match cut(b'.', word) {
        None => false,
        Some((node, conn)) => {
            is_within(1, u32::from(MOST_NODES), node)
                && is_within(1, u32::from(MOST_CONNECTIONS), conn)
        }
    }
}

/// Whether the word is a NODE of so many.
fn is_node(nodes: u8, word: &[u8]) -> bool
    ensures { result ≡ is_some (node_in nodes word.now) }
{
    match read_u32(1, u32::from(MOST_NODES), word) {
        None => false,
        Some(node) => node <= u32::from(nodes),
    }
}

fn is_right(word: &[u8]) -> bool
    ensures { result ≡ is_some (right_of word.now) }
{
    is(word, b"join".as_slice())
        || is(word, b"send".as_slice())
        || is(word, b"list".as_slice())
        || is(word, b"edit".as_slice())
}

/// Whether the word spells a message that is not too long.
fn sends_few(word: &[u8]) -> bool
    ensures { result ≡ sends_few word.now }
{
    match message_length(word) {
        None => false,
        Some(length) => length <= MOST_MESSAGE_BYTES,
    }
}

fn is_who(word: &[u8]) -> bool
    ensures { result ≡ is_some (who_of word.now) }
{
    is(word, b"any".as_slice()) || has_conditions(word)
}

/// Whether the word is conditions of which each is read.
#[tactic(auto, unfolding(cpg_print::specs::Rules::conditions_of))]
fn has_conditions(word: &[u8]) -> bool
    ensures { result ≡ is_some (conditions_of word.now) }
{
    let left = skip_condition(b"uid:".as_slice(), 0, u32::MAX, Some(word));
    let left = skip_condition(b"gid:".as_slice(), 0, u32::MAX, left);
    skip_condition(b"node:".as_slice(), 1, u32::from(MOST_NODES), left).is_none()
}

/// The conditions that are left after the first, where it has that name and is in that range.
fn skip_condition<'a>(
    name: &[u8],
    low: u32,
    high: u32,
    conditions: Option<&'a [u8]>,
) -> Option<&'a [u8]>
    ensures { option_map (λ rest. rest.now) result ≡ (take_condition name.now low high (option_map (λ rest. rest.now) conditions.entry)).1 }
{
    match conditions {
        None => None,
        Some(text) => {
            let (first, others) = cut_condition(text);
            match named_number(name, low, high, first) {
                None => Some(text),
                Some(_) => others,
            }
        }
    }
}

fn cut_condition(text: &[u8]) -> (&[u8], Option<&[u8]>)
    ensures first { result.0.now ≡ (first_condition text.now (cut_at 43 text.now)).0 }
    ensures others { option_map (λ rest. rest.now) result.1 ≡ (first_condition text.now (cut_at 43 text.now)).1 }
{
    match cut(b'+', text) {
        None => (text, None),
        Some((first, others)) => (first, Some(others)),
    }
}

fn named_number(name: &[u8], low: u32, high: u32, word: &[u8]) -> Option<u32>
    ensures { result ≡ named_number name.now low high word.now }
{
    read_u32(low, high, strip_name(name, word)?)
}
