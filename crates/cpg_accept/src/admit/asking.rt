//! Of whom it is asked: words UID:GID, each a number or a name.
//!
//! Proved: the credentials are those that the words say by the names that are told, and the first word that says none
//! is found.

ghost use Rattle.std.specs.Prelude.{◌≡◌, ◌++◌, IfOk, OnOk, IsOkUnless, position, is_none, option_map, option_to_list};
ghost use Rattle.std.specs.List.{flat_map};
ghost use Rattle.cpg_conf.specs.Names.{number_of};
ghost use Rattle.cpg_accept.specs.Admitting.{asks_in, cred_named, first_wrong_ask, number_said};

use cpg_conf::Names;
use cpg_cred::{Cred, Refusal};
use cpg_text::{cut, is_number, read_u32};
use std::alloc::Global;

/// Where the first word stands that asks of nobody, from 0.
pub fn find_wrong_ask(names: &Names, words: &[&str]) -> Option<usize>
    ensures { result ≡ first_wrong_ask names.now words.now }
{
    words
        .iter()
        .position(|word| read_cred(names, word.as_bytes()).is_none())
}

/// The credentials of the words that ask of somebody.
pub fn read_asks(alloc: Global, names: &Names, words: &[&str]) -> Result<Vec<Cred>, Refusal>
    ensures ok { IfOk result (λ asks. asks.items ≡ asks_in names.now words.now) }
    ensures memory { IsOkUnless result Refusal.Memory }
{
    let mut asks = Vec::new(alloc);
    for word in words {
        put_ask(&mut asks, names, word)?;
    }
    Ok(asks)
}

/// Puts the credentials of the word, if it says some, last.
fn put_ask(asks: &mut Vec<Cred>, names: &Names, word: &str) -> Result<(), Refusal>
    ensures ok { OnOk result (asks.new.items ≡ asks.old.items ++ option_to_list (cred_named names.now word.now)) }
    ensures memory { IsOkUnless result Refusal.Memory }
{
    if let Some(cred) = read_cred(names, word.as_bytes()) {
        asks.push(cred)?;
    }
    Ok(())
}

/// The credentials of UID:GID.
fn read_cred(names: &Names, word: &[u8]) -> Option<Cred>
    ensures { result ≡ cred_named names.now word.now }
{
    let (user, group) = cut(b':', word)?;
    Some(Cred {
        uid: read_user(names, user)?,
        gid: read_group(names, group)?,
    })
}

/// The number of a user, which the word writes or names.
fn read_user(names: &Names, word: &[u8]) -> Option<u32>
    ensures { result ≡ number_said (names.now).users word.now }
{
    if is_number(word) {
        read_u32(0, u32::MAX, word)
    } else {
        names.user(word)
    }
}

/// The same of a group.
fn read_group(names: &Names, word: &[u8]) -> Option<u32>
    ensures { result ≡ number_said (names.now).groups word.now }
{
    if is_number(word) {
        read_u32(0, u32::MAX, word)
    } else {
        names.group(word)
    }
}
