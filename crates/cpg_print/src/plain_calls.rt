//! Calls that are spelled just so, as most are: `join GROUP` or `send MESSAGE`, with one space, and an argument that
//! spells its own bytes. They are read where they stand.
//!
//! Proved: such a text says the call of its word and of its argument.

ghost use Rattle.std.specs.Prelude.{◌≡◌, ◌∷◌, Some, IfOk, IfSome, IsOkUnless};
ghost use Rattle.cpg_text.specs.Lines.{words_of};
ghost use Rattle.cpg_print.specs.Calls.{call_of, is_within_limits};
ghost use Rattle.cpg_print.specs.Steps.{call_by, verb_word};

use crate::naming::GivesNames;
use cpg_cred::Refusal;
use cpg_entry::{Call, MOST_MESSAGE_BYTES, Message, accepts_name};
use cpg_text::is_plain_word;
use std::alloc::Global;

/// The first word of a call that is read where it stands.
#[derive(Debug, Clone, Copy, PartialEq, Eq)]
pub(crate) enum Verb {
    Join,
    Send,
}

/// The verb that the text begins with, and what follows its space.
#[inline(always)]
fn take_verb(text: &[u8]) -> Option<(Verb, &[u8])>
    ensures { IfSome result (λ found. words_of text.now ≡ verb_word found.0 ∷ words_of found.1.now) }
{
    match text {
        [b's', b'e', b'n', b'd', b' ', rest @ ..] => Some((Verb::Send, rest)),
        [b'j', b'o', b'i', b'n', b' ', rest @ ..] => Some((Verb::Join, rest)),
        _ => None,
    }
}

/// The verb and the argument of a text that is spelled just so: then no word is looked for.
#[inline(always)]
#[tactic(auto, using(crate::proofs::Plain::said_by))]
pub(crate) fn plain_call(text: &[u8]) -> Option<(Verb, &[u8])>
    ensures { IfSome result (λ found. call_of (words_of text.now) ≡ Some (call_by found.0 found.1.now)) }
{
    let (verb, argument) = take_verb(text)?;
    if is_plain_word(argument) {
        Some((verb, argument))
    } else {
        None
    }
}

/// Whether the call of that verb and argument is within the limits of calls.
#[inline(always)]
pub(crate) fn is_call_within(verb: Verb, argument: &[u8]) -> bool
    ensures { result ≡ is_within_limits (call_by verb argument.now) }
{
    match verb {
        Verb::Send => argument.len() <= MOST_MESSAGE_BYTES,
        Verb::Join => accepts_name(argument),
    }
}

/// The call of that verb and argument, with a name that `names` gives.
#[inline(always)]
pub(crate) fn make_call<N: GivesNames>(
    alloc: Global,
    names: &N,
    verb: Verb,
    argument: &[u8],
) -> Result<Call, Refusal>
    ensures ok { IfOk result (λ call. call ≡ call_by verb argument.now) }
    ensures memory { IsOkUnless result Refusal.Memory }
{
    Ok(match verb {
        Verb::Send => Call::Send(Message::from_slice(alloc, argument)?),
        Verb::Join => Call::Join(names.name(alloc, argument)?),
    })
}
