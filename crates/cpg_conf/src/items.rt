//! What the lines of a conf text list.
//!
//! Proved: a line lists what `said_at` says where it stands, and its fault is that one.

ghost use Rattle.std.specs.Prelude.{◌≡◌, Ok, Err, IfOk, IfErr, codes};
ghost use Rattle.cpg_conf.specs.Listed.{key_said, number_said};
ghost use Rattle.cpg_conf.specs.Names.{number_of};
ghost use Rattle.cpg_conf.specs.Steps.{item_seen, line_seen, said_at};

use crate::lines::LineView;
use crate::names::Names;
use crate::namings::read_value;
use crate::nesting::Nesting;
use cpg_cred::Refusal;
use cpg_text::{is_number, read_number};

/// What a line of a conf text lists.
#[derive(Debug, Clone, Copy)]
pub enum Item {
    Nothing,
    User(u32),
    Group(u32),
}

impl Item {
    /// What the line of that number lists, which stands there.
    pub fn read(
        names: &Names,
        nesting: &Nesting,
        number: u32,
        line: &LineView<'_>,
    ) -> Result<Item, Refusal>
        ensures ok { IfOk result (λ item. said_at names.now nesting.now number (line_seen line.now) ≡ Ok (item_seen item)) }
        ensures err { IfErr result (λ refusal. said_at names.now nesting.now number (line_seen line.now) ≡ Err refusal) }
    {
        match line {
            LineView::Bad => Err(Refusal::BadLine(number)),
            LineView::Close => {
                if nesting.depth == 0 {
                    Err(Refusal::Unopened(number))
                } else {
                    Ok(Item::Nothing)
                }
            }
            LineView::Key(key, value) => {
                if nesting.is_read() {
                    read_key(names, number, key, value)
                } else {
                    Ok(Item::Nothing)
                }
            }
            LineView::Ignored | LineView::Open(_) => Ok(Item::Nothing),
        }
    }
}

/// A user, whom a line of that number lists by a value.
#[inline(always)]
pub fn read_user_item(names: &Names, number: u32, value: &[u8]) -> Result<Item, Refusal>
    ensures ok { IfOk result (λ item. key_said names.now number (codes "uid") value.now ≡ Ok (item_seen item)) }
    ensures err { IfErr result (λ refusal. key_said names.now number (codes "uid") value.now ≡ Err refusal) }
{
    Ok(Item::User(read_user(names, number, value)?))
}

/// What a key that is read lists: `uid` a user, `gid` a group.
fn read_key(names: &Names, number: u32, key: &[u8], value: &[u8]) -> Result<Item, Refusal>
    ensures ok { IfOk result (λ item. key_said names.now number key.now value.now ≡ Ok (item_seen item)) }
    ensures err { IfErr result (λ refusal. key_said names.now number key.now value.now ≡ Err refusal) }
{
    if key == b"uid".as_slice() {
        read_user_item(names, number, value)
    } else if key == b"gid".as_slice() {
        Ok(Item::Group(read_group(names, number, value)?))
    } else {
        Err(Refusal::BadItem(number))
    }
}

/// The number of the user that a value stands for. A name is looked up only where digits write no number.
#[tactic(auto, using(crate::proofs::Values::said_at_once))]
fn read_user(names: &Names, number: u32, value: &[u8]) -> Result<u32, Refusal>
    ensures { result ≡ number_said number value.now (number_of (names.now).users value.now) }
{
    match read_number(0, u64::from(u32::MAX), value) {
        Some(uid) => Ok(uid as u32),
        None => choose_number(number, value, names.user(value)),
    }
}

/// The same for a group.
#[tactic(auto, using(crate::proofs::Values::said_at_once))]
fn read_group(names: &Names, number: u32, value: &[u8]) -> Result<u32, Refusal>
    ensures { result ≡ number_said number value.now (number_of (names.now).groups value.now) }
{
    match read_number(0, u64::from(u32::MAX), value) {
        Some(gid) => Ok(gid as u32),
        None => choose_number(number, value, names.group(value)),
    }
}

/// The number that a value stands for: its digits' own, or that of the name, if it is known.
fn choose_number(number: u32, value: &[u8], named: Option<u32>) -> Result<u32, Refusal>
    ensures { result ≡ number_said number value.now named }
{
    if value.is_empty() {
        Err(Refusal::BadValue(number))
    } else if is_number(value) {
        read_value(number, value)
    } else {
        named.ok_or(Refusal::UnknownName(number))
    }
}
