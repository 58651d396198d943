//! Whom the files let in.
//!
//! Proved: the names are those that are told, and the users and groups those that the conf files list by them, or the
//! first fault is told.

ghost use Rattle.std.specs.Prelude.{◌≡◌, ◌⊎◌, Ok, Err, IfOk, IfErr, OnOk, IsOkUnless};
ghost use Rattle.cpg_cred.specs.Listed.{with_listed};
ghost use Rattle.cpg_conf.specs.Listed.{joined, listed, nothing, numbers_listed};
ghost use Rattle.cpg_conf.specs.Names.{known_of};
ghost use Rattle.cpg_accept.specs.Admitting.{known_by, known_in, listed_onto, read_in, with_listed_by, Fails};

use crate::admit::accounts::{Book, add_accounts};
use crate::admit::texts::{AdmitFault, File, NamedText, NamesFrom};
use cpg_conf::{Names, Numbers, list_conf};
use cpg_cred::{AcceptList, Refusal};
use std::alloc::Global;

/// The users and groups that the conf files list by those names: those of each behind those of the files before it.
///
/// The first file that has a fault is told, with its index; its faults are those of `read_conf` of cpg_conf.
pub fn list_confs(
    alloc: Global,
    names: &Names,
    confs: &[NamedText<'_>],
) -> Result<Numbers, AdmitFault>
    ensures ok { IfOk result (λ numbers. listed_onto names.now 0 confs.now nothing ≡ Ok (numbers_listed numbers)) }
    ensures err { IfErr result (Fails (listed_onto names.now 0 confs.now nothing)) }
{
    let mut numbers = Numbers {
        users: Vec::new(alloc),
        groups: Vec::new(alloc),
    };
    for (index, conf) in confs.iter().enumerate() {
        match add_conf(alloc, &mut numbers, names, index, conf.text) {
            Ok(()) => {}
            Err(fault) => return Err(fault),
        }
    }
    Ok(numbers)
}

/// Puts what the conf file of that index lists last.
fn add_conf(
    alloc: Global,
    numbers: &mut Numbers,
    names: &Names,
    index: usize,
    text: &[u8],
) -> Result<(), AdmitFault>
    ensures ok { OnOk result (with_listed_by (numbers_listed numbers.old) (read_in (File.Conf index) (listed names.now text.now)) ≡ Ok (numbers_listed numbers.new)) }
    ensures err { IfErr result (Fails (read_in (File.Conf index) (listed names.now text.now))) }
{
    match list_conf(alloc, text, names) {
        Ok(more) => match join(numbers, &more) {
            Ok(()) => Ok(()),
            Err(refusal) => Err(fault_of(File::Conf(index), refusal)),
        },
        Err(refusal) => Err(fault_of(File::Conf(index), refusal)),
    }
}

/// Puts more last, users and groups apart.
fn join(numbers: &mut Numbers, more: &Numbers) -> Result<(), Refusal>
    ensures ok { OnOk result (numbers_listed numbers.new ≡ joined (numbers_listed numbers.old) (numbers_listed more.now)) }
    ensures memory { IsOkUnless result Refusal.Memory }
{
    numbers.users.extend_from_slice(more.users.as_slice())?;
    numbers.groups.extend_from_slice(more.groups.as_slice())?;
    Ok(())
}

/// The names that are told.
///
/// The faults of accounts are first those of the users.
pub fn read_names(alloc: Global, from: &NamesFrom<'_>) -> Result<Names, AdmitFault>
    ensures ok { IfOk result (λ names. known_by from.now ≡ Ok names) }
    ensures err { IfErr result (Fails (known_by from.now)) }
{
    match from {
        NamesFrom::Nowhere => Ok(Names::new(alloc)),
        NamesFrom::Text(text) => read_text(alloc, text),
        NamesFrom::Accounts(passwd, group) => read_accounts(alloc, passwd, group),
    }
}

fn read_text(alloc: Global, text: &[u8]) -> Result<Names, AdmitFault>
    ensures ok { IfOk result (λ names. read_in File.Names (known_of text.now) ≡ Ok names) }
    ensures err { IfErr result (Fails (read_in File.Names (known_of text.now))) }
{
    match Names::read(alloc, text) {
        Ok(names) => Ok(names),
        Err(refusal) => Err(fault_of(File::Names, refusal)),
    }
}

fn read_accounts(alloc: Global, passwd: &[u8], group: &[u8]) -> Result<Names, AdmitFault>
    ensures ok { IfOk result (λ names. known_in passwd.now group.now ≡ Ok names) }
    ensures err { IfErr result (Fails (known_in passwd.now group.now)) }
{
    let mut names = Names::new(alloc);
    match add_accounts(&mut names, Book::Users, passwd) {
        Ok(()) => {}
        Err(refusal) => return Err(fault_of(File::Passwd, refusal)),
    }
    match add_accounts(&mut names, Book::Groups, group) {
        Ok(()) => Ok(names),
        Err(refusal) => Err(fault_of(File::Group, refusal)),
    }
}

/// The fault of a file.
fn fault_of(file: File, refusal: Refusal) -> AdmitFault
    ensures { result ≡ record { file = file; refusal = refusal } }
{
    AdmitFault { file, refusal }
}

/// The list of those users and groups.
pub fn list_of(alloc: Global, numbers: &Numbers) -> Result<AcceptList, Refusal>
    ensures ok { IfOk result (λ list. list ≡ with_listed nothing (numbers_listed numbers.now)) }
    ensures memory { IsOkUnless result Refusal.Memory }
{
    let mut list = AcceptList::new(alloc);
    list.add_all(numbers.users.as_slice(), numbers.groups.as_slice())?;
    Ok(list)
}
