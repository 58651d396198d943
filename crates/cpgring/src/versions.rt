//! The commit that the program was built from, where whoever starts it says one.
//!
//! The launcher says it in the variable `CPGRING_COMMIT` where the program is of a commit with no change. Proved: which
//! words are commits, and what is written of one.

ghost use Rattle.std.specs.Prelude.{◌≡◌, OnOk, OnErr, IfOk, IsOkUnless};
ghost use Rattle.std.specs.List.{list_all};
ghost use Rattle.std.specs.Io.KnownBytes.{Appends};
ghost use Rattle.cpg_text.specs.Streams.{AppendsFront};
ghost use Rattle.cpgring.specs.Versions.{commit_text, is_commit, is_hex, is_of_length};

use cpg_cred::Refusal;
use cpg_text::{put, write_whole};
use std::alloc::Global;
use std::env::{self, Env};
use std::io::Write;

/// The variable that says the commit.
const VARIABLE: &str = "CPGRING_COMMIT";

/// What the variable says, where it says anything.
pub fn said_commit<R: Env + Alloc<A = Global>>(rt: &R) -> Option<String> {
    env::var(rt, VARIABLE).ok()
}

/// Whether the byte is a digit of a commit's name.
fn is_hex(byte: u8) -> bool
    ensures { result ≡ is_hex byte }
{
    byte.is_ascii_digit() || (b'a' <= byte && byte <= b'f')
}

/// Whether the word has hexadecimal digits alone.
fn has_digits_alone(word: &[u8]) -> bool
    ensures { result ≡ list_all is_hex word.now }
{
    word.iter().all(|byte| is_hex(*byte))
}

/// Whether the word is as long as the name of a commit may be.
fn is_of_length(word: &[u8]) -> bool
    ensures { result ≡ is_of_length word.now }
{
    7 <= word.len() && word.len() <= 64
}

/// Whether the word is the name of a commit, whole or shortened: 7 to 64 hexadecimal digits.
fn is_commit(word: &[u8]) -> bool
    ensures { result ≡ is_commit word.now }
{
    is_of_length(word) && has_digits_alone(word)
}

/// The line of the commit, where the word is the name of one, and else nothing.
fn commit_text(alloc: Global, word: &str) -> Result<Vec<u8>, Refusal>
    ensures ok { IfOk result (λ text. text.items ≡ commit_text word.now) }
    ensures memory { IsOkUnless result Refusal.Memory }
{
    let mut text = Vec::new(alloc);
    if is_commit(word.as_bytes()) {
        put(&mut text, "commit ")?;
        put(&mut text, word)?;
        put(&mut text, "\n")?;
    }
    Ok(text)
}

/// Writes the line of the commit, where the word is the name of one.
pub fn write_commit<W: Write>(alloc: Global, word: &str, writer: &mut W) -> Result<(), Refusal>
    ensures ok { OnOk result (Appends (W.contents writer.old) (W.contents writer.new) (commit_text word.now)) }
    ensures err { OnErr result (AppendsFront (W.contents writer.old) (W.contents writer.new) (commit_text word.now)) }
{
    let text = commit_text(alloc, word)?;
    write_whole(writer, text.as_slice())
}
