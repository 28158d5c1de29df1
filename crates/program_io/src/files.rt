//! Reading whole files.

ghost use Rattle.std.specs.Prelude.{◌≡◌, IfOk, IfSome, OnOk, true};
ghost use Rattle.std.specs.Io.KnownBytes.{IsAtEnd};

use std::alloc::Allocator;
use std::fs::File;
use std::io::{Error, ErrorKind, Read};
use std::os::unix::fs::MetadataExt;
use std::rt::Files;
use std::{fs, io};

/// The maximum number of reads that `read_all` makes.
pub const READS_LIMIT: u32 = 1_000_000;

/// Reads all remaining bytes of a reader. If its end is not reached after 1,000,000 reads of up to 8,192 bytes, the
/// error is `FileTooLarge`.
pub fn read_all<R: Read, A: Allocator>(alloc: A, from: &mut R) -> io::Result<Vec<u8, A>>
    ensures whole { IfOk result (λ bytes. IfSome (R.remaining from.old)
        (λ left. bytes.items ≡ left)) }
    ensures end { OnOk result (IsAtEnd (R.remaining from.new)) }
{
    let mut bytes = Vec::new(alloc);
    let mut part = [0; 8192];
    for _ in 0..READS_LIMIT {
        let taken = from.read(&mut part)?;
        if taken == 0 {
            return Ok(bytes);
        }
        bytes.extend_from_slice(&part[..taken])?;
    }
    Err(Error::from(ErrorKind::FileTooLarge))
}

/// Returns the error `InvalidInput` for a FIFO, a device or a socket, so that none is opened: opening a FIFO would
/// block until its other end is opened.
///
/// A plain file, a directory and a path that does not exist are not rejected here; the call that opens the path
/// handles them.
pub fn refuse_special<R: Files>(rt: &R, path: &str) -> io::Result<()> {
    match fs::metadata(rt, path) {
        Ok(found) if !found.is_file() && !found.is_dir() => {
            Err(Error::new(ErrorKind::InvalidInput, "not a regular file"))
        }
        _ => Ok(()),
    }
}

/// Returns whether two paths are equal or lead to the same file.
pub fn are_one_file<R: Files>(rt: &R, one: &str, other: &str) -> bool
    ensures same { one.now ≡ other.now → result ≡ true }
{
    if one == other {
        return true;
    }
    match (fs::metadata(rt, one), fs::metadata(rt, other)) {
        (Ok(one), Ok(other)) => one.dev() == other.dev() && one.ino() == other.ino(),
        _ => false,
    }
}

/// Opens a file for reading, unless `refuse_special` rejects it.
pub fn open_plain<R: Files>(rt: &R, path: &str) -> io::Result<R::File> {
    refuse_special(rt, path)?;
    File::open(rt, path)
}

/// Reads all bytes of a file, as `read_all` does. A file that `refuse_special` rejects is not read.
pub fn read_file<R: Files, A: Allocator>(rt: &R, alloc: A, path: &str) -> io::Result<Vec<u8, A>> {
    let mut file = open_plain(rt, path)?;
    read_all(alloc, &mut file)
}
