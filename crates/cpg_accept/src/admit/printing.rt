//! What is printed of whom the files let in.

ghost use Rattle.std.specs.Prelude.{◌≡◌, ◌++◌, ◌∷◌, [], codes, decimal, IfOk, OnOk, IsOkUnless};
ghost use Rattle.std.specs.List.{flat_map};
ghost use Rattle.cpg_conf.specs.Listed.{numbers_listed};
ghost use Rattle.cpg_accept.specs.Forms.{admitted_echo, admitted_text, admitted_told, cred_answered, cred_text, group_by, group_line, list_told, user_by, user_line};

use crate::admit::admitting::list_of;
use crate::admit::forms::{AsEcho, AsText, TellsAdmitted};
use cpg_conf::Numbers;
use cpg_cred::{AcceptList, Cred, Refusal};
use cpg_text::{push_number, put};
use std::alloc::Global;

/// The lines that are printed as text: for each of the credentials what `cpgring accept` prints of them; where none
/// are asked for, the list, its users and then its groups, as the words that let them in.
pub fn print(alloc: Global, numbers: &Numbers, asks: &[Cred]) -> Result<Vec<u8>, Refusal>
    ensures ok { IfOk result (λ text. text.items ≡ admitted_text (numbers_listed numbers.now) asks.now) }
    ensures memory { IsOkUnless result Refusal.Memory }
{
    print_in_form::<AsText>(alloc, numbers, asks)
}

/// The same lines, each answer behind its UID:GID in numbers.
pub fn print_echo(alloc: Global, numbers: &Numbers, asks: &[Cred]) -> Result<Vec<u8>, Refusal>
    ensures ok { IfOk result (λ text. text.items ≡ admitted_echo (numbers_listed numbers.now) asks.now) }
    ensures memory { IsOkUnless result Refusal.Memory }
{
    print_in_form::<AsEcho>(alloc, numbers, asks)
}

/// What is told in the form: for each of the credentials whether they are let in; where none are asked for, the list,
/// its users and then its groups.
pub fn print_in_form<F: TellsAdmitted>(
    alloc: Global,
    numbers: &Numbers,
    asks: &[Cred],
) -> Result<Vec<u8>, Refusal>
    ensures ok { IfOk result (λ text. text.items ≡ admitted_told F.form (numbers_listed numbers.now) asks.now) }
    ensures memory { IsOkUnless result Refusal.Memory }
{
    let mut text = Vec::new(alloc);
    match asks {
        [] => put_list::<F>(&mut text, numbers)?,
        _ => {
            let list = list_of(alloc, numbers)?;
            put_answers::<F>(&mut text, &list, asks)?;
        }
    }
    Ok(text)
}

fn put_answers<F: TellsAdmitted>(
    text: &mut Vec<u8>,
    list: &AcceptList,
    asks: &[Cred],
) -> Result<(), Refusal>
    ensures ok { OnOk result (text.new.items ≡ text.old.items ++ flat_map (cred_answered F.form list.now) asks.now) }
    ensures memory { IsOkUnless result Refusal.Memory }
{
    for cred in asks {
        F::put_answer(text, *cred, list.accepts(*cred).ok())?;
    }
    Ok(())
}

fn put_list<F: TellsAdmitted>(text: &mut Vec<u8>, numbers: &Numbers) -> Result<(), Refusal>
    ensures ok { OnOk result (text.new.items ≡ text.old.items ++ list_told F.form (numbers_listed numbers.now)) }
    ensures memory { IsOkUnless result Refusal.Memory }
{
    put_users::<F>(text, numbers.users.as_slice())?;
    put_groups::<F>(text, numbers.groups.as_slice())
}

fn put_users<F: TellsAdmitted>(text: &mut Vec<u8>, users: &[u32]) -> Result<(), Refusal>
    ensures ok { OnOk result (text.new.items ≡ text.old.items ++ flat_map (user_by F.form) users.now) }
    ensures memory { IsOkUnless result Refusal.Memory }
{
    for uid in users {
        F::put_user(text, *uid)?;
    }
    Ok(())
}

fn put_groups<F: TellsAdmitted>(text: &mut Vec<u8>, groups: &[u32]) -> Result<(), Refusal>
    ensures ok { OnOk result (text.new.items ≡ text.old.items ++ flat_map (group_by F.form) groups.now) }
    ensures memory { IsOkUnless result Refusal.Memory }
{
    for gid in groups {
        F::put_group(text, *gid)?;
    }
    Ok(())
}

/// Puts UID:GID at the text's end.
pub(crate) fn put_cred(text: &mut Vec<u8>, cred: Cred) -> Result<(), Refusal>
    ensures ok { OnOk result (text.new.items ≡ text.old.items ++ cred_text cred) }
    ensures memory { IsOkUnless result Refusal.Memory }
{
    push_number(text, u64::from(cred.uid))?;
    put(text, ":")?;
    push_number(text, u64::from(cred.gid))
}

/// Puts the word that lets a user in, a line, at the text's end.
pub(crate) fn put_user_word(text: &mut Vec<u8>, uid: u32) -> Result<(), Refusal>
    ensures ok { OnOk result (text.new.items ≡ text.old.items ++ user_line uid) }
    ensures memory { IsOkUnless result Refusal.Memory }
{
    put_word(text, "uid:", uid)
}

/// Puts the word that lets a group in, a line, at the text's end.
pub(crate) fn put_group_word(text: &mut Vec<u8>, gid: u32) -> Result<(), Refusal>
    ensures ok { OnOk result (text.new.items ≡ text.old.items ++ group_line gid) }
    ensures memory { IsOkUnless result Refusal.Memory }
{
    put_word(text, "gid:", gid)
}

fn put_word(text: &mut Vec<u8>, name: &str, number: u32) -> Result<(), Refusal>
    ensures ok { OnOk result (text.new.items ≡ text.old.items ++ (name.now ++ decimal number ++ codes "\n")) }
    ensures memory { IsOkUnless result Refusal.Memory }
{
    put(text, name)?;
    push_number(text, u64::from(number))?;
    put(text, "\n")
}
