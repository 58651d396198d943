//! Whom the files let in, as objects.

ghost use Rattle.std.specs.Prelude.{◌≡◌, ◌++◌, None, Some, IfOk, OnOk, IsOkUnless};
ghost use Rattle.cpg_conf.specs.Listed.{numbers_listed};
ghost use Rattle.cpg_json.specs.Admitted.{admitted_json, admitted_json_echo, echo_json, listed_json};

use crate::answers::{put_accept, put_refusal, via_name};
use crate::objects::{put_end, put_kind, put_number, put_word};
use cpg_accept::TellsAnswer;
use cpg_accept::admit::{TellsAdmitted, print_in_form};
use cpg_conf::Numbers;
use cpg_cred::{Cred, Refusal, Via};
use std::alloc::Global;

/// Puts the object of a listed user or group on its line, whose number has that name.
fn put_listed(line: &mut Vec<u8>, name: &str, value: u32) -> Result<(), Refusal>
    ensures ok { OnOk result (line.new.items ≡ line.old.items ++ listed_json name.now value) }
    ensures memory { IsOkUnless result Refusal.Memory }
{
    put_kind(line, "listed")?;
    put_number(line, name, u64::from(value))?;
    put_end(line)
}

/// Objects of JSON, one a line.
#[derive(Debug, Clone, Copy)]
pub struct AdmittedAsJson;

impl TellsAnswer for AdmittedAsJson {
    ghost use Rattle.cpg_json.specs.Answers.{accept_json};

    ghost told = { accept_json };

    fn put(text: &mut Vec<u8>, answer: Option<Via>) -> Result<(), Refusal> {
        put_accept(text, answer)
    }
}

impl TellsAdmitted for AdmittedAsJson {
    ghost use Rattle.cpg_json.specs.Admitted.{as_json};

    ghost form = { as_json };

    fn put_answer(text: &mut Vec<u8>, _cred: Cred, answer: Option<Via>) -> Result<(), Refusal> {
        put_accept(text, answer)
    }

    fn put_user(text: &mut Vec<u8>, uid: u32) -> Result<(), Refusal> {
        put_listed(text, "uid", uid)
    }

    fn put_group(text: &mut Vec<u8>, gid: u32) -> Result<(), Refusal> {
        put_listed(text, "gid", gid)
    }
}

/// The same objects, those of answers with the credentials that were asked for.
#[derive(Debug, Clone, Copy)]
pub struct EchoedAsJson;

impl TellsAdmitted for EchoedAsJson {
    ghost use Rattle.cpg_json.specs.Admitted.{as_json_echo};

    ghost form = { as_json_echo };

    fn put_answer(text: &mut Vec<u8>, cred: Cred, answer: Option<Via>) -> Result<(), Refusal> {
        match answer {
            None => put_refused_of(text, cred),
            Some(via) => put_accepted_of(text, cred, via),
        }
    }

    fn put_user(text: &mut Vec<u8>, uid: u32) -> Result<(), Refusal> {
        put_listed(text, "uid", uid)
    }

    fn put_group(text: &mut Vec<u8>, gid: u32) -> Result<(), Refusal> {
        put_listed(text, "gid", gid)
    }
}

/// Puts the object of what lets the credentials in on its line.
fn put_accepted_of(line: &mut Vec<u8>, cred: Cred, via: Via) -> Result<(), Refusal>
    ensures ok { OnOk result (line.new.items ≡ line.old.items ++ echo_json cred (Some via)) }
    ensures memory { IsOkUnless result Refusal.Memory }
{
    put_kind(line, "accepted")?;
    put_number(line, "uid", u64::from(cred.uid))?;
    put_number(line, "gid", u64::from(cred.gid))?;
    put_word(line, "via", via_name(via))?;
    put_end(line)
}

/// Puts the object of credentials that nothing lets in on its line.
fn put_refused_of(line: &mut Vec<u8>, cred: Cred) -> Result<(), Refusal>
    ensures ok { OnOk result (line.new.items ≡ line.old.items ++ echo_json cred None) }
    ensures memory { IsOkUnless result Refusal.Memory }
{
    put_kind(line, "refused")?;
    put_number(line, "uid", u64::from(cred.uid))?;
    put_number(line, "gid", u64::from(cred.gid))?;
    put_refusal(line, Refusal::Access)?;
    put_end(line)
}

/// The objects that are printed, one a line: for each of the credentials that of `cpgring accept`; where none are asked
/// for, one for each listed user and then one for each listed group.
pub fn print_json(alloc: Global, numbers: &Numbers, asks: &[Cred]) -> Result<Vec<u8>, Refusal>
    ensures ok { IfOk result (λ text. text.items ≡ admitted_json (numbers_listed numbers.now) asks.now) }
    ensures memory { IsOkUnless result Refusal.Memory }
{
    print_in_form::<AdmittedAsJson>(alloc, numbers, asks)
}

/// The same objects, each of an answer with the credentials that were asked for.
pub fn print_json_echo(alloc: Global, numbers: &Numbers, asks: &[Cred]) -> Result<Vec<u8>, Refusal>
    ensures ok { IfOk result (λ text. text.items ≡ admitted_json_echo (numbers_listed numbers.now) asks.now) }
    ensures memory { IsOkUnless result Refusal.Memory }
{
    print_in_form::<EchoedAsJson>(alloc, numbers, asks)
}
