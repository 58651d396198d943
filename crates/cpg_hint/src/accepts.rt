//! What is told of a word of a command line that lets nobody in.
//!
//! The form is this project's own. Proved: what is told is the definition `accept_hint`, byte for byte.

ghost use Rattle.std.specs.Prelude.{◌≡◌, IfOk, IsOkUnless};
ghost use Rattle.cpg_hint.specs.Accepts.{accept_hint};

use crate::marks::{put_front, put_mark, put_shown};
use cpg_cred::Refusal;
use std::alloc::Global;

/// The two forms that such a word may have.
const FORMS: &str = "ACCEPT: uid:N or gid:N, N a number from 0 to 4294967295";

/// What a person needs to mend a word of a command line that is neither `uid:N` nor `gid:N`: the word, which is of that
/// number among those that should let somebody in, from 1, and under it a mark with the two forms that it may have.
pub fn accept_hint(alloc: Global, number: u64, word: &[u8]) -> Result<Vec<u8>, Refusal>
    ensures ok { IfOk result (λ text. text.items ≡ accept_hint number word.now) }
    ensures memory { IsOkUnless result Refusal.Memory }
{
    let mut front = Vec::new(alloc);
    put_front(&mut front, "word ", number)?;
    let mut text = Vec::new(alloc);
    put_front(&mut text, "word ", number)?;
    put_shown(alloc, &mut text, word)?;
    put_mark(&mut text, front.as_slice(), FORMS.as_bytes())?;
    Ok(text)
}
