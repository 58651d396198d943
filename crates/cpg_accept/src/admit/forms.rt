//! The forms in which it is told whom the files let in.
//!
//! Proved: what each puts is the line that its definition gives.

use crate::admit::printing::{put_cred, put_group_word, put_user_word};
use crate::asks::answer_text;
use cpg_cred::{Cred, Refusal, Via};
use cpg_text::{put, put_bytes};

/// What tells whom the files let in.
pub trait TellsAdmitted {
    ghost use Rattle.std.specs.Prelude.{◌≡◌, ◌++◌, OnOk, IsOkUnless};
    ghost use Rattle.cpg_accept.specs.Forms.{Form, answer_by, group_by, user_by};

    // The form.
    ghost form: { Form };

    /// Puts the line of what lets those credentials in, or of their refusal, at the text's end.
    fn put_answer(text: &mut Vec<u8>, cred: Cred, answer: Option<Via>) -> Result<(), Refusal>
        ensures ok { OnOk result (text.new.items ≡ text.old.items ++ answer_by form cred answer) }
        ensures memory { IsOkUnless result Refusal.Memory };

    /// Puts the line of a listed user at the text's end.
    fn put_user(text: &mut Vec<u8>, uid: u32) -> Result<(), Refusal>
        ensures ok { OnOk result (text.new.items ≡ text.old.items ++ user_by form uid) }
        ensures memory { IsOkUnless result Refusal.Memory };

    /// Puts the line of a listed group at the text's end.
    fn put_group(text: &mut Vec<u8>, gid: u32) -> Result<(), Refusal>
        ensures ok { OnOk result (text.new.items ≡ text.old.items ++ group_by form gid) }
        ensures memory { IsOkUnless result Refusal.Memory };
}

/// Lines of text: what `cpgring accept` prints of credentials, and the words that let users and groups in.
#[derive(Debug, Clone, Copy)]
pub struct AsText;

impl TellsAdmitted for AsText {
    ghost use Rattle.cpg_accept.specs.Forms.{as_text};

    ghost form = { as_text };

    fn put_answer(text: &mut Vec<u8>, _cred: Cred, answer: Option<Via>) -> Result<(), Refusal> {
        put_bytes(text, answer_text(answer))
    }

    fn put_user(text: &mut Vec<u8>, uid: u32) -> Result<(), Refusal> {
        put_user_word(text, uid)
    }

    fn put_group(text: &mut Vec<u8>, gid: u32) -> Result<(), Refusal> {
        put_group_word(text, gid)
    }
}

/// The same lines, each answer behind its UID:GID in numbers.
#[derive(Debug, Clone, Copy)]
pub struct AsEcho;

impl TellsAdmitted for AsEcho {
    ghost use Rattle.cpg_accept.specs.Forms.{as_echo};

    ghost form = { as_echo };

    fn put_answer(text: &mut Vec<u8>, cred: Cred, answer: Option<Via>) -> Result<(), Refusal> {
        put_cred(text, cred)?;
        put(text, " ")?;
        put_bytes(text, answer_text(answer))
    }

    fn put_user(text: &mut Vec<u8>, uid: u32) -> Result<(), Refusal> {
        put_user_word(text, uid)
    }

    fn put_group(text: &mut Vec<u8>, gid: u32) -> Result<(), Refusal> {
        put_group_word(text, gid)
    }
}
