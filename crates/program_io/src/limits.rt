//! The file size limit (RLIMIT_FSIZE, getrlimit(2)). A program that writes beyond it is killed by SIGXFSZ.

ghost use Rattle.std.specs.Prelude.{◌≡◌, ◌+◌, nat_lt};

use libc::getrlimit;
use libc::types::rlimit;
use std::fs::{File, Metadata};
use std::io;
use std::io::{Error, ErrorKind};

/// The resource number of RLIMIT_FSIZE.
const FILE_SIZE: i32 = 1;

/// Returns the maximum length in bytes that a write can give to a file; `None` if there is no limit or the system does
/// not report it.
pub fn file_size_limit() -> Option<u64> {
    let mut limit = rlimit {
        rlim_cur: u64::MAX,
        rlim_max: u64::MAX,
    };
    if getrlimit(FILE_SIZE, &mut limit) != 0 || limit.rlim_cur == u64::MAX {
        return None;
    }
    Some(limit.rlim_cur)
}

/// Returns the error `FileTooLarge` if writing this many bytes at this offset of a plain file would exceed the file
/// size limit. The caller then gets an error, as from a full device, instead of a signal.
pub fn refuse_too_large(file: &File, offset: u64, count: usize) -> io::Result<()> {
    match file_size_limit() {
        Some(limit) if is_beyond(limit, offset, count) => refuse_plain(&file.metadata()?),
        _ => Ok(()),
    }
}

/// Returns the error `FileTooLarge` for a plain file, and accepts anything else.
pub(crate) fn refuse_plain(found: &Metadata) -> io::Result<()> {
    if found.is_file() {
        return Err(Error::new(
            ErrorKind::FileTooLarge,
            "the limit on file sizes is reached: see ulimit -f",
        ));
    }
    Ok(())
}

/// Returns whether writing this many bytes at this offset would go beyond the limit.
pub(crate) fn is_beyond(limit: u64, offset: u64, count: usize) -> bool
    ensures { result ≡ nat_lt limit (offset + count) }
{
    offset > limit || count as u64 > limit - offset
}
