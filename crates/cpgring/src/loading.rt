//! The files of `cpgring admit`, read whole.
//!
//! Proved: each file is read by its path, and its text goes with that path. What a file has no contract tells.

ghost use Rattle.std.specs.Prelude.{◌≡◌, ◌++◌, ◌∷◌, [], map, option_map, IfOk, OnOk, string_bytes};
ghost use Rattle.cpgring.specs.Loading.{loaded_at, named_at, IsMadeOf, IsReadBy};

use crate::admitting::Files;
use crate::folders::{NotLoaded, unread};
use crate::sources::{Unread, open_file};
use cpg_console::{Admission, NamedText};
use cpg_cred::Refusal;
use cpg_text::read_whole;
use std::alloc::{AllocError, Global};
use std::io::Read;

/// A file that was read.
#[derive(Drop)]
pub struct LoadedText<'a> {
    path: &'a str,
    text: Vec<u8>,
}

/// The files of `admit`, as they were read.
#[derive(Drop)]
pub struct Loaded<'a> {
    confs: Vec<LoadedText<'a>>,
    names: Option<LoadedText<'a>>,
    passwd: Option<LoadedText<'a>>,
    group: Option<LoadedText<'a>>,
}

impl<'a> Loaded<'a> {
    /// The conf files of those paths and the other files, or why the first that can't be read is not.
    pub fn read(
        rt: &HostRuntime,
        confs: &'a [String],
        files: &Files<'a>,
    ) -> Result<Loaded<'a>, NotLoaded>
        ensures { IfOk result (IsReadBy (map string_bytes confs.now) files.now) }
    {
        Ok(Loaded {
            confs: read_all(rt, confs)?,
            names: read_maybe(rt, files.names)?,
            passwd: read_maybe(rt, files.passwd)?,
            group: read_maybe(rt, files.group)?,
        })
    }

    /// The conf files that were read.
    pub fn confs(&self, alloc: Global) -> Result<Vec<NamedText<'_>>, AllocError>
        ensures { IfOk result (λ confs. map named_at confs.items ≡ map loaded_at self.now.confs.items) }
    {
        let mut confs = Vec::new(alloc);
        for conf in &self.confs {
            confs.push(conf.named())?;
        }
        Ok(confs)
    }

    /// What was read, the conf files among it being those.
    pub fn admission<'b>(&'b self, confs: &'b [NamedText<'b>]) -> Admission<'b>
        requires { map named_at confs.now ≡ map loaded_at self.now.confs.items }
        ensures { IsMadeOf self.now result }
    {
        Admission {
            confs,
            names: named_in(&self.names),
            passwd: named_in(&self.passwd),
            group: named_in(&self.group),
        }
    }
}

impl<'a> LoadedText<'a> {
    fn named(&self) -> NamedText<'_>
        ensures { named_at result ≡ loaded_at self.now }
    {
        NamedText {
            path: self.path,
            text: self.text.as_slice(),
        }
    }
}

fn named_in<'b>(loaded: &'b Option<LoadedText<'_>>) -> Option<NamedText<'b>>
    ensures { option_map named_at result ≡ option_map loaded_at loaded.now }
{
    match loaded {
        None => None,
        Some(loaded) => Some(loaded.named()),
    }
}

/// The files of those paths.
fn read_all<'a>(rt: &HostRuntime, paths: &'a [String]) -> Result<Vec<LoadedText<'a>>, NotLoaded>
    ensures { IfOk result (λ loaded. map (λ text. text.path.now) loaded.items ≡ map string_bytes paths.now) }
{
    let mut loaded = Vec::new(rt.alloc());
    for path in paths {
        put_text(&mut loaded, read_text(rt, path.as_str())?)?;
    }
    Ok(loaded)
}

/// Puts the file last.
fn put_text<'a>(loaded: &mut Vec<LoadedText<'a>>, text: LoadedText<'a>) -> Result<(), NotLoaded>
    ensures { OnOk result (loaded.new.items ≡ loaded.old.items ++ text.entry ∷ []) }
{
    match loaded.push(text) {
        Ok(()) => Ok(()),
        Err(_) => Err(NotLoaded::Memory),
    }
}

fn read_maybe<'a>(
    rt: &HostRuntime,
    path: Option<&'a str>,
) -> Result<Option<LoadedText<'a>>, NotLoaded>
    ensures { IfOk result (λ loaded. option_map (λ text. text.path.now) loaded ≡ option_map (λ text. text.now) path.entry) }
{
    match path {
        None => Ok(None),
        Some(path) => Ok(Some(read_text(rt, path)?)),
    }
}

/// The file of that path; standard input where that is `-`.
fn read_text<'a>(rt: &HostRuntime, path: &'a str) -> Result<LoadedText<'a>, NotLoaded>
    ensures { IfOk result (λ loaded. loaded.path.now ≡ path.now) }
{
    let text = if path == "-" {
        read_bytes(rt, path, &mut rt.stdin())?
    } else {
        match open_file(rt, path) {
            Err(why) => return Err(unread(rt.alloc(), path, why)),
            Ok(mut file) => read_bytes(rt, path, &mut file)?,
        }
    };
    Ok(LoadedText { path, text })
}

/// What the file of that path has.
fn read_bytes<R: Read>(rt: &HostRuntime, path: &str, file: &mut R) -> Result<Vec<u8>, NotLoaded> {
    match read_whole(rt.alloc(), file) {
        Ok(text) => Ok(text),
        Err(Refusal::Memory) => Err(NotLoaded::Memory),
        Err(_) => Err(unread(rt.alloc(), path, Unread::Other)),
    }
}
