//! Where a script is read from: standard input, or a file that the command line names.
//!
//! The forms are this project's own. Proved: which word names a file, and what is said of a file that can't be read.

ghost use Rattle.std.specs.Prelude.{◌≡◌, ◌≢◌, ◌⊎◌, IfOk, IsOkUnless, map, option_map};
ghost use Rattle.cpg_text.specs.Streams.{AppendsFront};
ghost use Rattle.cpgring.specs.Sources.{GreetsAt, accept_words, but_input, cause_text, greeting, last_file, lets_nobody_in, names_file, path_of, script_file, shell_greeting, unread_line, words_before_file};

use cpg_console::{Failure, hint_wrong, tell_failure, tell_fault};
use cpg_cred::Refusal;
use cpg_text::{Fault, put, strip_name, write_whole};
use std::alloc::Global;
use std::fs::{File, Files, OpenFile};
use std::io::{self, ErrorKind, Write};

/// Where a script is read from.
#[derive(Clone, Copy)]
pub enum Source<'a> {
    /// Standard input.
    Input,
    /// The file of that path.
    File(&'a str),
}

/// Why a file can't be read, or was not written.
#[derive(Clone, Copy)]
pub enum Unread {
    /// There is none of that path.
    Missing,
    /// It may not be opened.
    Forbidden,
    /// It is a directory.
    Directory,
    /// Another error of the system.
    Other,
    /// It can't be written.
    Unwritten,
    /// Not all is in it that was to be written.
    Cut,
}

/// The source that a path names: `-` is standard input, as no path is.
pub fn source_of(path: Option<&str>) -> Source<'_>
    ensures { path_of result ≡ but_input (option_map (λ text. text.now) path.entry) }
{
    match path {
        None => Source::Input,
        Some("-") => Source::Input,
        Some(path) => Source::File(path),
    }
}

/// Whether there is a word that lets in neither users nor groups, whatever follows its front. It names a file.
fn names_file(word: Option<&str>) -> bool
    ensures { result ≡ names_file (option_map (λ text. text.now) word.entry) }
{
    match word {
        None => false,
        Some(word) => is_file_name(word.as_bytes()),
    }
}

/// Whether the word lets in neither users nor groups, whatever follows its front.
fn is_file_name(word: &[u8]) -> bool
    ensures { result ≡ lets_nobody_in word.now }
{
    strip_name(b"uid:", word).is_none() && strip_name(b"gid:", word).is_none()
}

/// The source that the first of the words names, or else the last, if one of them names one; and the words that let users
/// and groups in.
pub fn split_words<'a>(words: &'a [&'a str]) -> (Source<'a>, &'a [&'a str])
    ensures source { path_of result.0 ≡ script_file (map (λ word. word.now) words.now) }
    ensures words { map (λ word. word.now) result.1.now ≡ accept_words (map (λ word. word.now) words.now) }
{
    let first = words.first().copied();
    if names_file(first) {
        (source_of(first), &words[1..])
    } else {
        split_last(words)
    }
}

/// The source that the last of the words names, if it names one, and the words before it.
#[tactic(auto, using(crate::proofs::LastWords::last_mapped, crate::proofs::LastWords::before_mapped))]
fn split_last<'a>(words: &'a [&'a str]) -> (Source<'a>, &'a [&'a str])
    ensures source { path_of result.0 ≡ last_file (map (λ word. word.now) words.now) }
    ensures words { map (λ word. word.now) result.1.now ≡ words_before_file (map (λ word. word.now) words.now) }
{
    let last = words.last().copied();
    if names_file(last) {
        (source_of(last), &words[..words.len() - 1])
    } else {
        (Source::Input, words)
    }
}

/// Why a file can't be read, by the error of the system.
pub fn why_unread(kind: ErrorKind) -> Unread
    ensures missing { kind ≡ ErrorKind.NotFound → result ≡ Unread.Missing }
    ensures forbidden { kind ≡ ErrorKind.PermissionDenied → result ≡ Unread.Forbidden }
    ensures directory { kind ≡ ErrorKind.IsADirectory → result ≡ Unread.Directory }
    ensures other { kind ≢ ErrorKind.NotFound → kind ≢ ErrorKind.PermissionDenied → kind ≢ ErrorKind.IsADirectory → result ≡ Unread.Other }
{
    match kind {
        ErrorKind::NotFound => Unread::Missing,
        ErrorKind::PermissionDenied => Unread::Forbidden,
        ErrorKind::IsADirectory => Unread::Directory,
        _ => Unread::Other,
    }
}

/// The file of that path, opened to be read.
pub fn open_file<F: Files>(files: &F, path: &str) -> Result<F::File, Unread> {
    match open_plain(files, path) {
        Ok(file) => Ok(file),
        Err(error) => Err(why_unread(error.kind())),
    }
}

/// The file of that path, opened to be read, where it is no directory.
fn open_plain<F: Files>(files: &F, path: &str) -> io::Result<F::File> {
    let file = File::open(files, path)?;
    if file.metadata()?.is_dir() {
        return Err(io::Error::from(ErrorKind::IsADirectory));
    }
    Ok(file)
}

/// What is said of why a file can't be read.
fn cause_of(why: Unread) -> &'static str
    ensures { result.now ≡ cause_text why }
{
    match why {
        Unread::Missing => "no such file",
        Unread::Forbidden => "permission denied",
        Unread::Directory => "is a directory",
        Unread::Other => "cannot be read",
        Unread::Unwritten => "cannot be written",
        Unread::Cut => "is not whole",
    }
}

/// The line that says why the file can't be read.
fn unread_text(alloc: Global, path: &str, why: Unread) -> Result<Vec<u8>, Refusal>
    ensures ok { IfOk result (λ line. line.items ≡ unread_line path.now why) }
    ensures memory { IsOkUnless result Refusal.Memory }
{
    let mut line = Vec::new(alloc);
    put(&mut line, "cpgring: ")?;
    put(&mut line, path)?;
    put(&mut line, ": ")?;
    put(&mut line, cause_of(why))?;
    put(&mut line, "\n")?;
    Ok(line)
}

/// Says why the file can't be read, and returns the exit status, that of a fault of the command line; 1 where memory is
/// refused, which is told in place of it.
pub fn tell_unread<E: Write>(alloc: Global, errors: &mut E, path: &str, why: Unread) -> u8
    ensures status { (result ≡ 1) ⊎ (result ≡ 2) }
    ensures told { result ≡ 2 → AppendsFront (E.contents errors.old) (E.contents errors.new) (unread_line path.now why) }
{
    match unread_text(alloc, path, why) {
        Ok(line) => {
            let _ = write_whole(errors, line.as_slice());
            2
        }
        Err(refusal) => {
            let _ = tell_fault(errors, &Fault::from(refusal));
            1
        }
    }
}

/// Says why the file of the script can't be read, and returns the exit status. Where words go with the run that let users
/// and groups in, one that names no file is a wrong one of these; a hint is told of it where that is asked for.
pub fn tell_unopened<E: Write>(
    alloc: Global,
    errors: &mut E,
    words: Option<&[&str]>,
    path: &str,
    why: Unread,
    verbose: bool,
) -> u8 {
    match (why, words) {
        (Unread::Missing, Some(words)) => {
            if tell_failure(errors, &Failure::BadWord).is_ok() && verbose {
                tell_wrong(alloc, errors, words);
            }
            2
        }
        _ => tell_unread(alloc, errors, path, why),
    }
}

/// Tells what a person needs to mend the first wrong word, as far as memory and the stream allow.
fn tell_wrong<E: Write>(alloc: Global, errors: &mut E, words: &[&str]) {
    if let Ok(hint) = hint_wrong(alloc, words) {
        let _ = write_whole(errors, hint.as_slice());
    }
}

/// Says, where standard input is a terminal, what is read there and how to end it.
pub fn greet<E: Write>(errors: &mut E, at_terminal: bool)
    ensures { GreetsAt at_terminal greeting (E.contents errors.old) (E.contents errors.new) }
{
    say_at(errors, at_terminal, GREETING);
}

/// Says, where the commands of a shell are typed at a terminal, how to be told which there are and how to end it.
pub fn greet_shell<E: Write>(errors: &mut E, at_terminal: bool)
    ensures { GreetsAt at_terminal shell_greeting (E.contents errors.old) (E.contents errors.new) }
{
    say_at(errors, at_terminal, SHELL_GREETING);
}

/// Says the text at a terminal alone.
fn say_at<E: Write>(errors: &mut E, at_terminal: bool, text: &str)
    ensures { GreetsAt at_terminal text.now (E.contents errors.old) (E.contents errors.new) }
{
    if at_terminal {
        let _ = write_whole(errors, text.as_bytes());
    }
}

/// What is said before a script is read from a terminal.
const GREETING: &str =
    "cpgring: the script is read from the terminal; Ctrl-D at the start of a line ends it\n";

/// What is said before a shell reads from a terminal.
const SHELL_GREETING: &str =
    "cpgring: type help for the commands; Ctrl-D at the start of a line ends the shell\n";
