//! The folders of the runlevels, whose links are listed and changed.

ghost use Rattle.std.specs.Prelude.{◌≡◌, ◌++◌, ◌∷◌, [], List, Option, IfOk, IfSome, OnOk, OnErr, codes, string_bytes};
ghost use Rattle.rclinks_command.specs.Asked.{Asks, LinkCall, MakeFolder, MakeLink, RemoveFile, calls_for, folder_path};
ghost use Rattle.rclinks_command.specs.Folders.{Becomes, KnownFolders, KnownScripts, Stays, changed_in};

use init_words::Level;
use rc_links::{FolderEntry, LinkAction, LinkChange};
use std::alloc::{AllocError, Allocator, Global};
use std::fs::{DirEntry, read_dir, read_link};
use std::io::ErrorKind;
use std::os::unix::fs::symlink;
use std::path::Path;
use std::rt::Files;
use std::{fs, io};

/// Lists and changes the folders of the runlevels in a directory, `rc0.d` to `rc9.d` and `rcS.d`.
///
/// Its contracts refer to the entries of a folder, if they are known. They need not be known for any folder.
pub trait LinkFolders {
    /// The entries of a runlevel's folder in a directory, or `None` if they are not known.
    ghost held: { Self → KnownFolders };

    /// The entries of `init.d` in a directory, or `None` if they are not known.
    ghost scripts_in: { Self → KnownScripts };

    /// Returns the entries of a runlevel's folder in a directory. A folder that does not exist has none.
    fn entries(&self, alloc: Global, dir: &str, level: Level) -> io::Result<Vec<FolderEntry>>
        ensures { IfOk result (λ found.
            IfSome (held self.now dir.now level) (λ known. found.items ≡ known)) };

    /// Returns the entries of `init.d` in a directory.
    fn scripts(&self, alloc: Global, dir: &str) -> io::Result<Vec<FolderEntry>>
        ensures { IfOk result (λ found.
            IfSome (scripts_in self.now dir.now) (λ known. found.items ≡ known)) };

    /// Changes a runlevel's folder in a directory. A folder that does not exist is created with its first link. If the
    /// change fails, the folders hold the same entries as before.
    fn change(&mut self, alloc: Global, dir: &str, change: &LinkChange) -> io::Result<()>
        ensures done { OnOk result
            (Becomes (held self.old) (held self.new) (changed_in dir.now change.now)) }
        ensures refused { OnErr result (Stays (held self.old) (held self.new)) };
}

/// Makes the system calls that change files. Each function makes one call.
///
/// Its contracts refer to the calls that were made.
pub trait LinkCalls {
    /// The calls that were made, newest first, or `None` if they are not known.
    ghost asked: { Self → Option (List LinkCall) };

    /// Removes the file at a path.
    fn remove(&mut self, path: &str) -> io::Result<()>
        ensures { Asks (asked self.old) (asked self.new) (RemoveFile path.now ∷ []) };

    /// Creates a folder at a path.
    fn make_folder(&mut self, path: &str) -> io::Result<()>
        ensures { Asks (asked self.old) (asked self.new) (MakeFolder path.now ∷ []) };

    /// Creates a symbolic link at a path, which points to `position`.
    fn make_link(&mut self, position: &str, path: &str) -> io::Result<()>
        ensures { Asks (asked self.old) (asked self.new) (MakeLink position.now path.now ∷ []) };
}

/// The operating system, whose calls are not known.
impl<R: Files> LinkCalls for R {
    ghost use Rattle.std.specs.Prelude.{None};

    ghost asked = { λ _. None };

    fn remove(&mut self, path: &str) -> io::Result<()> {
        fs::remove_file(self, path)
    }

    fn make_folder(&mut self, path: &str) -> io::Result<()> {
        fs::create_dir(self, path)
    }

    fn make_link(&mut self, position: &str, path: &str) -> io::Result<()> {
        symlink(self, position, path)
    }
}

/// The folders of the operating system, with the maker of the calls that change them. Their entries are not known.
#[derive(Drop)]
pub struct SystemFolders<R, C> {
    rt: R,
    calls: C,
}

impl<R: Files + Alloc + Clone + Drop, C: LinkCalls> SystemFolders<R, C> {
    /// Creates a value that reads folders with `rt` and changes them with `calls`.
    pub fn new(rt: R, calls: C) -> SystemFolders<R, C>
        ensures { result.calls ≡ calls }
    {
        SystemFolders { rt, calls }
    }
}

impl<R: Files + Alloc + Clone + Drop, C: LinkCalls> LinkFolders for SystemFolders<R, C> {
    ghost use Rattle.std.specs.Prelude.{None};

    ghost held = { λ _ _ _. None };

    ghost scripts_in = { λ _ _. None };

    fn entries(&self, alloc: Global, dir: &str, level: Level) -> io::Result<Vec<FolderEntry>> {
        let path = folder_path(alloc, dir, level)?;
        if is_absent(&self.rt, path.as_str()) {
            fs::metadata(&self.rt, dir)?;
            return Ok(Vec::new(alloc));
        }
        entries_at(&self.rt, alloc, path.as_str())
    }

    fn scripts(&self, alloc: Global, dir: &str) -> io::Result<Vec<FolderEntry>> {
        let path = format!(in alloc; "{dir}/init.d")?;
        entries_at(&self.rt, alloc, path.as_str())
    }

    /// Makes the calls for the change, in order, and no others.
    fn change(&mut self, alloc: Global, dir: &str, change: &LinkChange) -> io::Result<()>
        ensures { OnOk result (Asks (C.asked self.old.calls) (C.asked self.new.calls)
            (calls_for dir.now change.now)) }
    {
        let folder = folder_path(alloc, dir, change.level())?;
        let name = text_of(change.entry().name())?;
        let path = path_in(alloc, folder.as_str(), name)?;
        match change.act() {
            LinkAction::Remove => self.calls.remove(path.as_str()),
            LinkAction::Make => {
                make_missing(&mut self.calls, folder.as_str())?;
                let position = text_of(change.entry().leads())?;
                self.calls.make_link(position, path.as_str())
            }
        }
    }
}

/// Returns the entries of a folder.
fn entries_at<R: Files + Alloc + Clone + Drop>(
    rt: &R,
    alloc: Global,
    path: &str,
) -> io::Result<Vec<FolderEntry>> {
    let mut found = Vec::new(alloc);
    for entry in read_dir(rt, path)? {
        add_entry(rt, alloc, &mut found, entry)?;
    }
    Ok(found)
}

/// Returns the path of a runlevel's folder.
fn folder_path(alloc: Global, dir: &str, level: Level) -> Result<String, AllocError>
    ensures { IfOk result (λ path. string_bytes path ≡ folder_path dir.now level) }
{
    let code = char::from(level.code());
    format!(in alloc; "{dir}/rc{code}.d")
}

/// Returns the path of a name in a folder.
fn path_in(alloc: Global, folder: &str, name: &str) -> Result<String, AllocError>
    ensures { IfOk result (λ path. string_bytes path ≡ folder.now ++ (codes "/" ++ name.now)) }
{
    format!(in alloc; "{folder}/{name}")
}

/// Returns a name or a target as text.
fn text_of(bytes: &[u8]) -> io::Result<&str>
    ensures { IfOk result (λ text. text.now ≡ bytes.now) }
{
    match std::str::from_utf8(bytes) {
        Ok(text) => Ok(text),
        Err(_) => Err(io::Error::from(ErrorKind::InvalidFilename)),
    }
}

/// Returns whether nothing exists at the path.
fn is_absent<R: Files>(rt: &R, path: &str) -> bool {
    match fs::symlink_metadata(rt, path) {
        Ok(_) => false,
        Err(error) => error.kind() == ErrorKind::NotFound,
    }
}

/// Creates a folder if it does not exist.
fn make_missing<C: LinkCalls>(calls: &mut C, folder: &str) -> io::Result<()>
    ensures { Asks (C.asked calls.old) (C.asked calls.new) (MakeFolder folder.now ∷ []) }
{
    match calls.make_folder(folder) {
        Err(error) if error.kind() != ErrorKind::AlreadyExists => Err(error),
        _ => Ok(()),
    }
}

/// Adds an entry of a folder. A name that is not UTF-8 is skipped, because no link of a plan has such a name.
fn add_entry<R: Files + Alloc + Drop, A: Allocator>(
    rt: &R,
    alloc: Global,
    found: &mut Vec<FolderEntry>,
    entry: io::Result<DirEntry<R, A>>,
) -> io::Result<()> {
    match entry {
        Ok(entry) => {
            let name = Vec::from_slice(alloc, entry.file_name().as_bytes())?;
            let leads = if entry.file_type()?.is_symlink() {
                place_of(rt, alloc, entry.path())?
            } else {
                Vec::new(alloc)
            };
            found.push(FolderEntry::new(name, leads))?;
        }
        Err(error) if error.kind() == ErrorKind::InvalidFilename => {}
        Err(error) => return Err(error),
    }
    Ok(())
}

/// Returns the target of a symbolic link. It is empty if it is not UTF-8, because no link of a plan has such a target.
fn place_of<R: Files + Alloc>(rt: &R, alloc: Global, path: Path<'_>) -> io::Result<Vec<u8>> {
    match read_link(rt, path) {
        Ok(position) => Ok(Vec::from_slice(alloc, position.as_path().as_str().as_bytes())?),
        Err(error) if error.kind() == ErrorKind::InvalidFilename => Ok(Vec::new(alloc)),
        Err(error) => Err(error),
    }
}
