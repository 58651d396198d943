//! The words of a command line that let users and groups in: `uid:7`, `gid:100`.
//!
//! The form is this project's own. Proved: which words these are, and the list that they give.

ghost use Rattle.std.specs.Prelude.{◌≡◌, ◌↔◌, false, true, None, Some, map, All, IsTrue, IsSome, OnOk, IfOk, IfErr, IsOkUnless};
ghost use Rattle.std.specs.List.{fold, list_all};
ghost use Rattle.cpg_console.specs.Words.{is_accept_word, number_named, and_word, first_wrong, hint_at, hint_of_word, list_of_words, with_word, wrong_hint};

use cpg_cred::{AcceptList, Refusal};
use cpg_hint::accept_hint;
use cpg_text::{read_u32, strip_name};
use std::alloc::Global;

/// The list of the words of a command line, in their order; none where one of them is neither `uid:N` nor
/// `gid:N`, N a number of 32 bits.
///
/// A wrong word is found before memory is asked for.
#[tactic(auto, using(crate::proofs::Accepting::none_unless_all, crate::proofs::Accepting::each_of_all, crate::proofs::Accepting::some_where_all))]
pub fn read_list(alloc: Global, words: &[&str]) -> Result<Option<AcceptList>, Refusal>
    ensures ok { IfOk result (λ list. list ≡ list_of_words (map (λ word. word.now) words.now)) }
    ensures memory { IsOkUnless result Refusal.Memory }
    ensures wrong { IfErr result (λ refusal. IsSome (list_of_words (map (λ word. word.now) words.now))) }
{
    if !are_accept_words(words) {
        return Ok(None);
    }
    let mut list = AcceptList::new(alloc);
    add_words(&mut list, words)?;
    Ok(Some(list))
}

/// Adds what the words let in, in their order.
fn add_words(list: &mut AcceptList, words: &[&str]) -> Result<(), Refusal>
    requires { All (λ word. IsTrue (is_accept_word word.now)) words.now }
    ensures ok { OnOk result (fold and_word (Some list.old) (map (λ word. word.now) words.now) ≡ Some list.new) }
    ensures memory { IsOkUnless result Refusal.Memory }
{
    for word in words {
        add_word(list, word.as_bytes())?;
    }
    Ok(())
}

/// Whether one of the words lets nobody in.
#[tactic(auto, using(crate::proofs::Accepting::wrong_exactly))]
pub(crate) fn has_wrong(words: &[&str]) -> bool
    ensures { (result ≡ true) ↔ (list_of_words (map (λ word. word.now) words.now) ≡ None) }
{
    !are_accept_words(words)
}

/// Where the first word stands that lets nobody in, from 0, if one does.
fn find_wrong(words: &[&str]) -> Option<usize>
    ensures { result ≡ first_wrong words.now }
{
    words.iter().position(|word| !lets_in(word.as_bytes()))
}

/// What a person needs to mend the first word that lets nobody in; nothing where there is none.
pub fn hint_wrong(alloc: Global, words: &[&str]) -> Result<Vec<u8>, Refusal>
    ensures ok { IfOk result (λ hint. hint.items ≡ wrong_hint words.now) }
    ensures memory { IsOkUnless result Refusal.Memory }
{
    match find_wrong(words) {
        None => Ok(Vec::new(alloc)),
        Some(index) => hint_at(alloc, words, index),
    }
}

/// What a person needs to mend the word that stands there.
fn hint_at(alloc: Global, words: &[&str], index: usize) -> Result<Vec<u8>, Refusal>
    ensures ok { IfOk result (λ hint. hint.items ≡ hint_at words.now (Some index)) }
    ensures memory { IsOkUnless result Refusal.Memory }
{
    match words.get(index) {
        None => Ok(Vec::new(alloc)),
        Some(word) => accept_hint(alloc, index as u64 + 1, word.as_bytes()),
    }
}

/// Whether each word lets a user or a group in.
fn are_accept_words(words: &[&str]) -> bool
    ensures { result ≡ list_all (λ word. is_accept_word word.now) words.now }
{
    words.iter().all(|word| lets_in(word.as_bytes()))
}

/// Whether the word lets a user or a group in.
fn lets_in(word: &[u8]) -> bool
    ensures { result ≡ is_accept_word word.now }
{
    number_after(b"uid:", word).is_some() || number_after(b"gid:", word).is_some()
}

/// Adds what the word lets in, where it is such a word.
fn add_word(list: &mut AcceptList, word: &[u8]) -> Result<(), Refusal>
    requires { IsTrue (is_accept_word word.now) }
    ensures ok { OnOk result (with_word list.old word.now ≡ Some list.new) }
    ensures memory { IsOkUnless result Refusal.Memory }
{
    if let Some(uid) = number_after(b"uid:", word) {
        return list.add_uid(uid);
    }
    match number_after(b"gid:", word) {
        Some(gid) => list.add_gid(gid),
        None => Ok(()),
    }
}

/// The number of 32 bits that follows the name, where the word is both.
fn number_after(name: &[u8], word: &[u8]) -> Option<u32>
    ensures { result ≡ number_named name.now word.now }
{
    read_u32(0, u32::MAX, strip_name(name, word)?)
}
