//! The folders from which the links of a runlevel are read.

ghost use Rattle.std.specs.Prelude.{◌≡◌, map, string_bytes, IfOk, IfErr, IsSome};
ghost use Rattle.std.specs.IoError.{error_kind};
ghost use Rattle.rc_command.specs.Folders.{AreNamesAt, ArePrevious, KnownNames, folder_of};

use init_words::Level;
use std::alloc::{AllocError, Allocator, Global};
use std::fs::{DirEntry, read_dir};
use std::io;
use std::io::ErrorKind;
use std::rt::Files;

/// Lists folders.
///
/// Its contracts refer to the names in a folder, if they are known. They need not be known for any path.
pub trait Folders {
    /// The names in the folder at a path, or `None` if they are not known.
    ghost names_at: { Self → KnownNames };

    /// Returns the names in the folder at a path. For known names it fails only if memory allocation fails.
    fn names(&self, alloc: Global, path: &str) -> io::Result<Vec<String>>
        ensures names { IfOk result (λ names.
            AreNamesAt (names_at self.now) path.now (map string_bytes names.items)) }
        ensures refused { IfErr result (λ why. IsSome (names_at self.now path.now)
            → error_kind why ≡ ErrorKind.OutOfMemory) };
}

/// The folders of the operating system. Their names are not known.
impl<R: Files + Alloc + Clone + Drop> Folders for R {
    ghost use Rattle.std.specs.Prelude.{None};

    ghost names_at = { λ _ _. None };

    fn names(&self, alloc: Global, path: &str) -> io::Result<Vec<String>> {
        let mut names = Vec::new(alloc);
        for entry in read_dir(self, path)? {
            add_name(alloc, &mut names, entry)?;
        }
        Ok(names)
    }
}

/// Adds the name of an entry. A name that is not UTF-8 is skipped, because no link has such a name.
fn add_name<R: Files + Drop, A: Allocator>(
    alloc: Global,
    names: &mut Vec<String>,
    entry: io::Result<DirEntry<R, A>>,
) -> io::Result<()> {
    match entry {
        Ok(entry) => names.push(String::from_str(alloc, entry.file_name())?)?,
        Err(error) if error.kind() == ErrorKind::InvalidFilename => {}
        Err(error) => return Err(error),
    }
    Ok(())
}

/// Returns the path of a runlevel's folder.
pub(crate) fn folder_of(alloc: Global, dir: &str, level: Level) -> Result<String, AllocError>
    ensures { IfOk result (λ path. string_bytes path ≡ folder_of dir.now level) }
{
    let code = char::from(level.code());
    format!(in alloc; "{dir}/rc{code}.d")
}

/// Returns the names in the folder of the previous runlevel. There are none if there was no such level, or if its
/// folder can't be listed.
pub(crate) fn previous_names<F: Folders>(
    folders: &F,
    alloc: Global,
    dir: &str,
    previous: Option<Level>,
) -> io::Result<Vec<String>>
    ensures { IfOk result (λ names.
        ArePrevious (F.names_at folders.now) dir.now previous (map string_bytes names.items)) }
{
    let Some(level) = previous else {
        return Ok(Vec::new(alloc));
    };
    let path = folder_of(alloc, dir, level)?;
    match folders.names(alloc, path.as_str()) {
        Err(error) if error.kind() != ErrorKind::OutOfMemory => Ok(Vec::new(alloc)),
        outcome => outcome,
    }
}
