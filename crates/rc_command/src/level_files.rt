//! The file that keeps the previous runlevel from one run to the next.

ghost use Rattle.std.specs.Prelude.{◌≡◌, ◌∷◌, [], option_map, IfOk, IfSome, OnOk, OnErr};
ghost use Rattle.rc_command.specs.LevelFiles.{AreSame, HasText, KnownFiles, level_in};

use init_words::Level;
use program_io::{read_file, refuse_special, write_text};
use std::alloc::Global;
use std::fs::{File, OpenFile};
use std::io::ErrorKind;
use std::rt::Files;
use std::{fs, io};

/// Reads and replaces the files of runlevels.
///
/// Its contracts refer to the file at a path, if it is known. It need not be known for any path.
pub trait LevelFiles {
    /// The text of the file at a path, `Some(None)` if there is no file, or `None` if that is not known.
    ghost file_at: { Self → KnownFiles };

    /// Returns the text of the file at a path, or `None` if there is no file.
    fn read(&self, alloc: Global, path: &str) -> io::Result<Option<Vec<u8>>>
        ensures { IfOk result (λ found. IfSome (file_at self.now path.now)
            (λ known. option_map (λ text. text.items) found ≡ known)) };

    /// Replaces the file at the path with one that has this text. If this fails, all files are unchanged.
    fn put(&mut self, alloc: Global, path: &str, text: &[u8]) -> io::Result<()>
        ensures done { OnOk result
            (HasText path.now text.now (file_at self.old) (file_at self.new)) }
        ensures refused { OnErr result (AreSame (file_at self.old) (file_at self.new)) };
}

/// The files of the operating system. Their texts are not known.
impl<R: Files> LevelFiles for R {
    ghost use Rattle.std.specs.Prelude.{None};

    ghost file_at = { λ _ _. None };

    fn read(&self, alloc: Global, path: &str) -> io::Result<Option<Vec<u8>>> {
        match read_file(self, alloc, path) {
            Ok(text) => Ok(Some(text)),
            Err(error) if error.kind() == ErrorKind::NotFound => Ok(None),
            Err(error) => Err(error),
        }
    }

    /// Writes the text to the path with `.new` appended, and then renames that file.
    fn put(&mut self, alloc: Global, path: &str, text: &[u8]) -> io::Result<()> {
        let beside = format!(in alloc; "{path}.new")?;
        write_whole(self, beside.as_str(), text)?;
        fs::rename(self, beside.as_str(), path)
    }
}

/// Writes a file with this text, and waits until it is on the disk.
fn write_whole<R: Files>(rt: &R, path: &str, text: &[u8]) -> io::Result<()> {
    refuse_special(rt, path)?;
    let mut file = File::create(rt, path)?;
    write_text(&mut file, text)?;
    file.sync_all()
}

/// Parses the text of a file: the character of a runlevel, with a capital `S`, and a newline.
pub(crate) fn level_in(text: &[u8]) -> Option<Level>
    ensures { result ≡ level_in text.now }
{
    match text {
        [code, end] => level_before_end(*code, *end),
        _ => None,
    }
}

/// Parses the character of a runlevel, with a capital `S`, if a newline follows it.
fn level_before_end(code: u8, end: u8) -> Option<Level>
    ensures { result ≡ level_in (code ∷ end ∷ []) }
{
    if end != b'\n' || code == b's' {
        return None;
    }
    Level::read(code)
}
