//! The files of an inittab's folder.

ghost use Rattle.std.specs.Prelude.{◌≡◌, ◌++◌, ◌∷◌, [], List, codes, string_bytes, option_map, None, IfOk, IfErr};
ghost use Rattle.std.specs.List.{list_all};
ghost use Rattle.init_words.specs.Parts.{NamedText};
ghost use Rattle.host_files.specs.Folders.{IsFaultIn, IsFolderFault, is_hidden, is_name_byte, is_part_name};

use host_lines::{HostLine, MessageSink};
use indexmap::IndexSet;
use init_words::Part;
use program_io::{Reason, read_all, read_file};
use std::alloc::{AllocError, AllocFailed, Allocator, Global};
use std::hash::{BuildHasherDefault, FoldHasher};
use std::rt::Files;
use std::{io, str};
use thiserror::Error;

/// The reason why the files of a folder were not read.
#[derive(Drop, Error)]
#[derive_where(Debug)]
pub enum FolderFault<A: Allocator = Global> {
    /// The folder at this path could not be listed, or the file at this path could not be read.
    #[error("cannot read {0}: {reason}", reason = Reason(.1))]
    Unread(String<A>, io::Error),
    /// Memory allocation failed.
    #[error("out of memory")]
    Memory,
}

impl<A: Allocator> From<AllocError> for FolderFault<A> {
    ghost use Rattle.std.specs.Prelude.{◌≡◌};
    ghost use Rattle.host_files.specs.declared.folders.FolderFault.TheVariants.{Memory};

    ghost from_gives = { λ _ fault. fault ≡ Memory };

    fn from(_error: AllocError) -> FolderFault<A> {
        FolderFault::Memory
    }
}

impl<T: Drop, A: Allocator> From<AllocFailed<T>> for FolderFault<A> {
    ghost use Rattle.std.specs.Prelude.{◌≡◌};
    ghost use Rattle.host_files.specs.declared.folders.FolderFault.TheVariants.{Memory};

    ghost from_gives = { λ _ fault. fault ≡ Memory };

    fn from(_error: AllocFailed<T>) -> FolderFault<A> {
        FolderFault::Memory
    }
}

/// Returns whether the name begins with a dot.
pub fn is_hidden(name: &[u8]) -> bool
    ensures { result ≡ is_hidden name.now }
{
    match name {
        [first, ..] => *first == b'.',
        [] => false,
    }
}

/// Returns whether a file with this name is a part of an inittab: the name has only the characters A-Z a-z 0-9 . _ -,
/// ends in `.tab` and does not begin with a dot.
fn is_part_name(name: &[u8]) -> bool
    ensures { result ≡ is_part_name name.now }
{
    !is_hidden(name) && are_name_bytes(name) && name.ends_with(b".tab")
}

fn are_name_bytes(name: &[u8]) -> bool
    ensures { result ≡ list_all is_name_byte name.now }
{
    name.iter().all(|byte| is_name_byte(*byte))
}

fn is_name_byte(byte: u8) -> bool
    ensures { result ≡ is_name_byte byte }
{
    byte.is_ascii_alphanumeric() || matches!(byte, b'.' | b'_' | b'-')
}

/// Returns the path of a name in a folder.
fn path_in<A: Allocator>(alloc: A, folder: &str, name: &str) -> Result<String<A>, AllocError>
    ensures { IfOk result (λ path. string_bytes path ≡ folder.now ++ (codes "/" ++ name.now)) }
{
    format!(in alloc; "{folder}/{name}")
}

/// Returns the names in a folder, each followed by a NUL. For an empty path the error is `NotFound`.
fn listed<R: Files, A: Allocator + Copy>(rt: &R, alloc: A, folder: &str) -> io::Result<Vec<u8, A>> {
    if folder.is_empty() {
        return Err(io::Error::from(io::ErrorKind::NotFound));
    }
    let path = path_in(alloc, folder, "")?;
    let mut dir = rt.open_dir(path.as_str())?;
    read_all(alloc, &mut dir)
}

/// Receives the names of ignored files in an inittab's folder, with the runtime that reads the folder.
pub trait SkippedFileListener<R> {
    fn hear(&mut self, rt: &R, folder: &str, name: &[u8]);
}

/// A listener that reports no ignored files.
#[derive(Clone, Copy)]
pub struct IgnoringListener;

impl<R> SkippedFileListener<R> for IgnoringListener {
    fn hear(&mut self, _rt: &R, _folder: &str, _name: &[u8]) {}
}

/// The names of ignored files in an inittab's folder. Each is reported once on standard error, if reports are enabled.
#[derive(Drop)]
pub(crate) struct SkippedNames<A: Allocator> {
    alloc: A,
    is_asked: bool,
    told: IndexSet<Vec<u8, A>, BuildHasherDefault<FoldHasher>, A>,
}

impl<A: Allocator + Copy> SkippedNames<A> {
    /// Creates a value for which no name was reported. Reports are enabled if `is_asked` is set. This allocates no
    /// memory.
    pub(crate) fn new(alloc: A, is_asked: bool) -> SkippedNames<A> {
        SkippedNames {
            alloc,
            is_asked,
            told: IndexSet::new(alloc),
        }
    }

    /// Enables reports, except for the names that are in the folder now.
    pub(crate) fn tell_further<R: Files>(&mut self, rt: &R, folder: &str) {
        self.is_asked = true;
        let Ok(list) = listed(rt, self.alloc, folder) else {
            return;
        };
        for name in list.split(|byte| *byte == 0) {
            self.note(name);
        }
    }

    /// Records the name as reported. Returns `true` if it was not recorded before, or if there is no memory to record
    /// it.
    fn note(&mut self, name: &[u8]) -> bool {
        let Ok(name) = Vec::from_slice(self.alloc, name) else {
            return true;
        };
        !matches!(self.told.insert(name), Ok(false))
    }
}

impl<R: MessageSink, A: Allocator + Copy> SkippedFileListener<R> for SkippedNames<A> {
    /// Reports a name, if it is not empty, reports are enabled, and it was not reported before.
    fn hear(&mut self, rt: &R, folder: &str, name: &[u8]) {
        if self.is_asked && !name.is_empty() && self.note(name) {
            rt.tell(&HostLine::PassedFile { folder, name });
        }
    }
}

/// Reads the part with this name in a folder.
fn part_in<R: Files, A: Allocator + Copy>(
    rt: &R,
    alloc: A,
    folder: &str,
    name: String<A>,
) -> Result<Part<A>, FolderFault<A>>
    ensures { IfErr result (IsFaultIn folder.now) }
{
    let path = path_in(alloc, folder, name.as_str())?;
    match read_file(rt, alloc, path.as_str()) {
        Ok(bytes) => Ok(Part { name, bytes }),
        Err(error) => Err(FolderFault::Unread(path, error)),
    }
}

/// Returns the names of the parts in a folder, in byte order. The other names are passed to `passed`.
fn names_in<R: Files, A: Allocator + Copy, P: SkippedFileListener<R>>(
    rt: &R,
    alloc: A,
    folder: &str,
    passed: &mut P,
) -> Result<Vec<String<A>, A>, FolderFault<A>>
    ensures { IfErr result (IsFaultIn folder.now) }
{
    let list = match listed(rt, alloc, folder) {
        Ok(list) => list,
        Err(error) => return Err(FolderFault::Unread(String::from_str(alloc, folder)?, error)),
    };
    let mut names = Vec::new(alloc);
    for name in list.split(|byte| *byte == 0) {
        match str::from_utf8(name) {
            Ok(text) if is_part_name(name) => names.push(String::from_str(alloc, text)?)?,
            _ => passed.hear(rt, folder, name),
        }
    }
    names.sort_unstable();
    Ok(names)
}

/// Reads the parts of an inittab: its main file, followed by the files of a folder, if there is one, in the order of
/// their names.
///
/// A file of the folder is a part if its name ends in `.tab`, does not begin with a dot, and has only the characters
/// A-Z a-z 0-9 . _ -. Other files are ignored, and their names are passed to `passed`.
pub fn with_folder<R: Files, A: Allocator + Copy, P: SkippedFileListener<R>>(
    rt: &R,
    alloc: A,
    main_part: Part<A>,
    folder: Option<&str>,
    passed: &mut P,
) -> Result<Vec<Part<A>, A>, FolderFault<A>>
    ensures main_part { IfOk result
        (λ parts. (more : List NamedText) × (parts.items ≡ main_part ∷ more)) }
    ensures alone { folder.entry ≡ None → IfOk result (λ parts. parts.items ≡ main_part ∷ []) }
    ensures err { IfErr result (IsFolderFault (option_map (λ path. path.now) folder.entry)) }
{
    let mut parts = Vec::new(alloc);
    parts.push(main_part)?;
    if let Some(folder) = folder {
        for name in names_in(rt, alloc, folder, passed)? {
            parts.push(part_in(rt, alloc, folder, name)?)?;
        }
    }
    Ok(parts)
}
