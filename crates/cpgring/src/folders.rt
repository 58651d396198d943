//! The conf files of `cpgring admit`: those that are given, and of a directory its files.
//!
//! Proved: a given path stands for itself, or for paths that begin with it, and these come one after the other. Which files
//! a directory has no contract tells.

ghost use Rattle.std.specs.Prelude.{◌≡◌, ◌++◌, ◌∷◌, [], map, IfOk, IfSome, OnOk, string_bytes};
ghost use Rattle.cpgring.specs.Folders.{AreBehind, AreFrom, IsBehind, StandsFor};

use crate::sources::{Unread, why_unread};
use std::alloc::{AllocError, Global};
use std::fs;
use std::io::{Error, ErrorKind};

/// Why files are not read.
#[derive(Drop)]
pub enum NotLoaded {
    /// Memory was refused.
    Memory,
    /// The file of that path can't be read.
    Unread(String, Unread),
}

impl From<AllocError> for NotLoaded {
    fn from(_error: AllocError) -> NotLoaded {
        NotLoaded::Memory
    }
}

/// That the file of that path can't be read.
pub fn unread(alloc: Global, path: &str, why: Unread) -> NotLoaded {
    match String::from_str(alloc, path) {
        Ok(path) => NotLoaded::Unread(path, why),
        Err(_) => NotLoaded::Memory,
    }
}

/// That the directory of that path can't be listed.
fn unlisted(alloc: Global, path: &str, error: Error) -> NotLoaded {
    match error.kind() {
        ErrorKind::OutOfMemory => NotLoaded::Memory,
        kind => unread(alloc, path, why_unread(kind)),
    }
}

/// The paths of the conf files: those that are given, but for one of a directory those of its files, in the order of the
/// bytes of their names. What is no regular file there, nor a link to one, is passed over.
pub fn conf_paths(rt: &HostRuntime, given: &[&str]) -> Result<Vec<String>, NotLoaded>
    ensures { IfOk result (λ paths. AreFrom (map (λ path. path.now) given.now) (map string_bytes paths.items)) }
{
    let mut paths = Vec::new(rt.alloc());
    for path in given {
        put_all(&mut paths, paths_of(rt, path)?)?;
    }
    Ok(paths)
}

/// The path, or where it is that of a directory those of its files.
fn paths_of(rt: &HostRuntime, given: &str) -> Result<Vec<String>, NotLoaded>
    ensures { IfOk result (λ paths. StandsFor given.now (map string_bytes paths.items)) }
{
    match fs::metadata(rt, given) {
        Ok(found) if found.is_dir() => list_directory(rt, given),
        _ => only(rt.alloc(), given),
    }
}

/// The path alone.
fn only(alloc: Global, path: &str) -> Result<Vec<String>, NotLoaded>
    ensures { IfOk result (λ paths. map string_bytes paths.items ≡ path.now ∷ []) }
{
    let mut paths = Vec::new(alloc);
    put_path(&mut paths, String::from_str(alloc, path)?)?;
    Ok(paths)
}

/// Puts the path last.
fn put_path(paths: &mut Vec<String>, path: String) -> Result<(), NotLoaded>
    ensures { OnOk result (map string_bytes paths.new.items ≡ map string_bytes paths.old.items ++ string_bytes path ∷ []) }
{
    match paths.push(path) {
        Ok(()) => Ok(()),
        Err(_) => Err(NotLoaded::Memory),
    }
}

/// Puts these last.
fn put_all(paths: &mut Vec<String>, more: Vec<String>) -> Result<(), NotLoaded>
    ensures { OnOk result (map string_bytes paths.new.items ≡ map string_bytes paths.old.items ++ map string_bytes more.items) }
{
    for path in more {
        put_path(paths, path)?;
    }
    Ok(())
}

/// The paths of the files of the directory.
fn list_directory(rt: &HostRuntime, directory: &str) -> Result<Vec<String>, NotLoaded>
    ensures { IfOk result (λ paths. AreBehind directory.now (map string_bytes paths.items)) }
{
    let mut names = list_names(rt, directory)?;
    names.sort()?;
    let mut paths = Vec::new(rt.alloc());
    for name in &names {
        put_file(rt, &mut paths, directory, name.as_str())?;
    }
    Ok(paths)
}

/// The names of what is in the directory, in whatever order.
fn list_names(rt: &HostRuntime, directory: &str) -> Result<Vec<String>, NotLoaded> {
    let mut names = Vec::new(rt.alloc());
    let entries = match fs::read_dir(rt, directory) {
        Ok(entries) => entries,
        Err(error) => return Err(unlisted(rt.alloc(), directory, error)),
    };
    for entry in entries {
        match entry {
            Ok(entry) => put_path(&mut names, String::from_str(rt.alloc(), entry.file_name())?)?,
            Err(error) => return Err(unlisted(rt.alloc(), directory, error)),
        }
    }
    Ok(names)
}

/// Puts the path of that name in the directory last, where it is one of a file.
fn put_file(
    rt: &HostRuntime,
    paths: &mut Vec<String>,
    directory: &str,
    name: &str,
) -> Result<(), NotLoaded>
    ensures { OnOk result (AreBehind directory.now (map string_bytes paths.old.items) → AreBehind directory.now (map string_bytes paths.new.items)) }
{
    let path = path_in(rt.alloc(), directory, name)?;
    match fs::metadata(rt, path.as_str()) {
        Ok(found) if !found.is_file() => Ok(()),
        _ => {
            put_path(paths, path)?;
            Ok(())
        }
    }
}

/// The path of a name in a directory.
fn path_in(alloc: Global, directory: &str, name: &str) -> Result<String, AllocError>
    ensures { IfOk result (λ path. IsBehind directory.now (string_bytes path)) }
{
    let mut path = String::from_str(alloc, directory)?;
    if !directory.ends_with('/') {
        path.push_str("/")?;
    }
    path.push_str(name)?;
    Ok(path)
}
