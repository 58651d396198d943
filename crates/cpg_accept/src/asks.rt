//! Asks, `UID GID` on a line, and their answers.
//!
//! Proved: each line is answered as `answers_from` says, and an answer is printed as `answer_line`.

ghost use Rattle.std.specs.Prelude.{◌≡◌, ◌⊎◌, ◌++◌, ◌∷◌, [], Ok, Err, Some, None, OnOk, IfOk, IfErr, map, option_map};
ghost use Rattle.cpg_text.specs.Lines.{lines_of, trimmed, words_of, is_ignored};
ghost use Rattle.cpg_accept.specs.Asks.{HasAsk, answer_line, answer_of, answer_then, answers_from, cred_of};
ghost use Rattle.cpg_accept.specs.Steps.{answers_with};
ghost use Rattle.cpg_conf.specs.Names.{next_number};

use cpg_cred::{AcceptList, Cred, Refusal, Via};
use cpg_text::{Lines, Words, is_ignored, read_u32, trim};

/// Puts the answers of a text last, which stands after so many lines of a script.
pub fn answer_all(
    answers: &mut Vec<Option<Via>>,
    list: &AcceptList,
    lines_before: u32,
    text: &[u8],
) -> Result<(), Refusal>
    ensures ok { OnOk result (answers_with answers.old.items (answers_from list.now (next_number lines_before) (lines_of text.now)) ≡ Ok answers.new.items) }
    ensures err { IfErr result (λ refusal. ((refusal ≡ Refusal.Memory) × HasAsk (lines_of text.now)) ⊎ (answers_from list.now (next_number lines_before) (lines_of text.now) ≡ Err refusal)) }
{
    let mut number = lines_before;
    for line in Lines::of(text) {
        number = number.saturating_add(1);
        let line = trim(line);
        if !is_ignored(line) {
            match answer(list, number, line) {
                Ok(answer) => answers.push(answer)?,
                Err(refusal) => return Err(refusal),
            }
        }
    }
    Ok(())
}

/// What lets the credentials of a line in, or nothing where they are refused.
fn answer(list: &AcceptList, number: u32, line: &[u8]) -> Result<Option<Via>, Refusal>
    ensures ok { IfOk result (λ answer. answer_of list.now number (cred_of (words_of line.now)) ≡ Ok answer) }
    ensures err { IfErr result (λ refusal. answer_of list.now number (cred_of (words_of line.now)) ≡ Err refusal) }
{
    match read_cred(line) {
        None => Err(Refusal::BadCommand(number)),
        Some(cred) => Ok(list.accepts(cred).ok()),
    }
}

/// The credentials of a line, `UID GID`.
fn read_cred(line: &[u8]) -> Option<Cred>
    ensures { result ≡ cred_of (words_of line.now) }
{
    let mut words = Words::of(line);
    let uid = words.next()?;
    let gid = words.next()?;
    match words.next() {
        None => read_numbers(uid, gid),
        Some(_) => None,
    }
}

fn read_numbers(uid: &[u8], gid: &[u8]) -> Option<Cred>
    ensures { result ≡ cred_of (uid.now ∷ gid.now ∷ []) }
{
    Some(Cred {
        uid: read_u32(0, u32::MAX, uid)?,
        gid: read_u32(0, u32::MAX, gid)?,
    })
}

/// The answer as it is printed, with its line feed.
pub fn answer_text(answer: Option<Via>) -> &'static [u8]
    ensures { result.now ≡ answer_line answer }
{
    match answer {
        Some(Via::RootUser) => b"accepted root-user\n",
        Some(Via::RootGroup) => b"accepted root-group\n",
        Some(Via::User) => b"accepted user\n",
        Some(Via::Group) => b"accepted group\n",
        None => b"refused 2 Access\n",
    }
}
