//! `cpgring admit`: what is printed of whom conf files let in, or told of a file's fault.
//!
//! Proved: the bytes on standard output and on standard error, and the exit status.

ghost use Rattle.std.specs.Prelude.{◌≡◌, Ok, IfOk, IfErr, IsOkUnless};
ghost use Rattle.cpg_accept.specs.Admitting.{asks_in, known_by};
ghost use Rattle.cpg_conf.specs.Listed.{numbers_listed};
ghost use Rattle.cpg_console.specs.Admitting.{admitted_as, file_in, names_told, path_or_none, printed_asked, printed_by, text_or_none, told_of, Admits, IsUnprinted, TellsOf, WritesText};
ghost use Rattle.cpg_console.specs.Pipes.{stream_of};
ghost use Rattle.cpg_console.specs.declared.admitting.Unadmitted.TheVariants as unadmitted;

use crate::pipes::Piped;
use crate::runs::Form;
use crate::telling::{tell_memory, tell_unwritten, write_front};
use cpg_accept::admit::{
    AdmitFault, File, NamedText, NamesFrom, fault_line, find_wrong_ask, list_confs, print,
    print_echo, read_asks, read_names,
};
use cpg_conf::{Names, Numbers};
use cpg_cred::{Cred, Refusal};
use cpg_hint::file_hint;
use cpg_json::{print_json, print_json_echo};
use cpg_text::{put_bytes, write_whole};
use std::alloc::Global;
use std::io::Write;

/// The files of `cpgring admit`: the conf files, and where names are told, a names text or, where there is none, accounts.
#[derive(Debug, Clone, Copy)]
pub struct Admission<'a> {
    pub confs: &'a [NamedText<'a>],
    pub names: Option<NamedText<'a>>,
    pub passwd: Option<NamedText<'a>>,
    pub group: Option<NamedText<'a>>,
}

/// How `cpgring admit` answers.
#[derive(Debug, Clone, Copy)]
pub struct AdmitOptions {
    /// How lines are written.
    pub form: Form,
    /// Whether each answer has the UID and the GID that were asked for.
    pub echo: bool,
    /// Whether a hint is told behind a fault's line.
    pub hints: bool,
}

/// Why nothing is printed.
#[derive(Debug, Clone, Copy)]
enum Unadmitted {
    /// A fault of one of the files, or `Memory`.
    File(AdmitFault),
    /// The word of that index, from 0, asks of nobody.
    Word(usize),
}

impl From<AdmitFault> for Unadmitted {
    ghost from_gives = { λ fault result. result ≡ unadmitted.File fault };

    fn from(fault: AdmitFault) -> Unadmitted {
        Unadmitted::File(fault)
    }
}

/// The text of a file, and none where there is no file.
fn text_of<'a>(file: Option<NamedText<'a>>) -> &'a [u8]
    ensures { result.now ≡ text_or_none file.entry }
{
    match file {
        None => &[],
        Some(named) => named.text,
    }
}

/// The path of a file, and none where there is no file.
fn path_of<'a>(file: Option<NamedText<'a>>) -> &'a str
    ensures { result.now ≡ path_or_none file.entry }
{
    match file {
        None => "",
        Some(named) => named.path,
    }
}

impl<'a> Admission<'a> {
    /// Where names are told.
    fn names_from(&self) -> NamesFrom<'a>
        ensures { known_by result ≡ names_told self.now }
    {
        match self.names {
            Some(names) => NamesFrom::Text(names.text),
            None => NamesFrom::Accounts(text_of(self.passwd), text_of(self.group)),
        }
    }

    /// One of the files, where there is such a one.
    fn file(&self, file: File) -> Option<NamedText<'a>>
        ensures { result ≡ file_in self.now file }
    {
        match file {
            File::Conf(index) => self.confs.get(index).copied(),
            File::Names => self.names,
            File::Passwd => self.passwd,
            File::Group => self.group,
        }
    }
}

/// Prints whom the files let in, or tells the first fault, and returns the exit status, 0 done, 1 a fault; or the index of
/// the first word that asks of nobody, where nothing is told of it.
///
/// A word asks by UID:GID, each a number or a name. The faults of the names come first, then a wrong word, then the
/// faults of the conf files. Nothing is printed after any of these. Where what is printed can't be written that is told,
/// unless its reader has left.
pub fn perform_admit<W: Write, E: Write>(
    alloc: Global,
    options: &AdmitOptions,
    admission: &Admission<'_>,
    words: &[&str],
    writer: &mut Piped<W>,
    errors: &mut E,
) -> Result<u8, usize>
    ensures { Admits options.now admission.now words.now result (W.contents (stream_of writer.old)) (W.contents (stream_of writer.new)) (E.contents errors.old) (E.contents errors.new) }
{
    match print_admitted(alloc, options, admission, words) {
        Ok(text) => Ok(write_text(writer, errors, text.as_slice())),
        Err(Unadmitted::Word(index)) => Err(index),
        Err(Unadmitted::File(fault)) => {
            tell(alloc, errors, options.hints, admission, &fault);
            Ok(1)
        }
    }
}

/// What is printed, or the first fault, or the index of the first wrong word.
fn print_admitted(
    alloc: Global,
    options: &AdmitOptions,
    admission: &Admission<'_>,
    words: &[&str],
) -> Result<Vec<u8>, Unadmitted>
    ensures ok { IfOk result (λ text. printed_by options.now admission.now words.now ≡ Ok text.items) }
    ensures err { IfErr result (IsUnprinted (printed_by options.now admission.now words.now)) }
{
    let names = read_names(alloc, &admission.names_from())?;
    match find_wrong_ask(&names, words) {
        Some(index) => Err(Unadmitted::Word(index)),
        None => print_asked(alloc, options, &names, admission.confs, words),
    }
}

/// What is printed of those whom words ask of that are right, or the first fault of a conf file.
fn print_asked(
    alloc: Global,
    options: &AdmitOptions,
    names: &Names,
    confs: &[NamedText<'_>],
    words: &[&str],
) -> Result<Vec<u8>, Unadmitted>
    ensures ok { IfOk result (λ text. printed_asked options.now names.now confs.now words.now ≡ Ok text.items) }
    ensures err { IfErr result (IsUnprinted (printed_asked options.now names.now confs.now words.now)) }
{
    let numbers = list_confs(alloc, names, confs)?;
    match print_words(alloc, options, names, &numbers, words) {
        Ok(text) => Ok(text),
        Err(refusal) => Err(Unadmitted::File(AdmitFault {
            file: File::Conf(0),
            refusal,
        })),
    }
}

/// What is printed of those whom words ask of by the listed users and groups.
fn print_words(
    alloc: Global,
    options: &AdmitOptions,
    names: &Names,
    numbers: &Numbers,
    words: &[&str],
) -> Result<Vec<u8>, Refusal>
    ensures ok { IfOk result (λ text. text.items ≡ admitted_as options.now (numbers_listed numbers.now) (asks_in names.now words.now)) }
    ensures memory { IsOkUnless result Refusal.Memory }
{
    let asks = read_asks(alloc, names, words)?;
    print_as(alloc, options, numbers, asks.as_slice())
}

/// What is printed of those whom the listed users and groups let in.
fn print_as(
    alloc: Global,
    options: &AdmitOptions,
    numbers: &Numbers,
    asks: &[Cred],
) -> Result<Vec<u8>, Refusal>
    ensures ok { IfOk result (λ text. text.items ≡ admitted_as options.now (numbers_listed numbers.now) asks.now) }
    ensures memory { IsOkUnless result Refusal.Memory }
{
    match (options.form, options.echo) {
        (Form::Text, false) => print(alloc, numbers, asks),
        (Form::Text, true) => print_echo(alloc, numbers, asks),
        (Form::Json, false) => print_json(alloc, numbers, asks),
        (Form::Json, true) => print_json_echo(alloc, numbers, asks),
    }
}

/// Writes a text, and returns the exit status: 1 where it can't be written, which is told unless its reader has left.
pub fn write_text<W: Write, E: Write>(writer: &mut Piped<W>, errors: &mut E, text: &[u8]) -> u8
    ensures { WritesText text.now result (W.contents (stream_of writer.old)) (W.contents (stream_of writer.new)) (E.contents errors.old) (E.contents errors.new) }
{
    match write_whole(writer, text) {
        Ok(()) => 0,
        Err(_) => {
            tell_unwritten(errors, writer.has_left());
            1
        }
    }
}

/// Tells a fault of one of the files, with a hint behind it where that is asked for, as far as the stream allows; that
/// memory was refused where it was refused to these lines.
fn tell<E: Write>(
    alloc: Global,
    errors: &mut E,
    hints: bool,
    admission: &Admission<'_>,
    fault: &AdmitFault,
)
    ensures { TellsOf hints admission.now fault.now (E.contents errors.old) (E.contents errors.new) }
{
    match lines_of(alloc, hints, admission, fault) {
        Ok(lines) => {
            let _ = write_front(errors, lines.as_slice());
        }
        Err(_) => tell_memory(errors),
    }
}

/// The line of a fault, with a hint behind it where that is asked for.
fn lines_of(
    alloc: Global,
    hints: bool,
    admission: &Admission<'_>,
    fault: &AdmitFault,
) -> Result<Vec<u8>, Refusal>
    ensures ok { IfOk result (λ lines. lines.items ≡ told_of hints admission.now fault.now) }
    ensures memory { IsOkUnless result Refusal.Memory }
{
    let file = admission.file(fault.file);
    let text = text_of(file);
    let mut lines = fault_line(alloc, path_of(file), text, fault.refusal)?;
    if hints {
        let hint = file_hint(alloc, fault.file, text, fault.refusal)?;
        put_bytes(&mut lines, hint.as_slice())?;
    }
    Ok(lines)
}
