//! Standard input, output and error: filling those that are closed, and avoiding writes that would block.

use crate::limits::{file_size_limit, is_beyond, refuse_plain};
use libc::net::{POLLOUT, poll};
use libc::types::pollfd;
use libc::{SEEK_CUR, lseek};
use std::fs::{File, metadata};
use std::io;
use std::io::{Error, ErrorKind};
use std::os::fd::AsRawFd;
use std::rt::Files;

/// The file descriptor of standard error, the last of the three.
const LAST_STANDARD: i32 = 2;

/// The null device in place of each of standard input, output and error that was closed when the program started.
///
/// It stays open until the program exits. Otherwise, a file that the program opens would get the free descriptor, and
/// messages would be written into that file. It is open for reading only, so that writing to it fails.
#[derive(Drop)]
pub struct StandardFiles {
    _files: [Option<File>; 3],
}

impl StandardFiles {
    /// Opens the null device on each of the three descriptors that is closed. If there is no null device, they stay
    /// closed.
    pub fn hold<R: Files<File = File>>(rt: &R) -> StandardFiles {
        StandardFiles {
            _files: [filler(rt), filler(rt), filler(rt)],
        }
    }
}

/// Opens the null device, and returns it if it got one of the three descriptors.
fn filler<R: Files<File = File>>(rt: &R) -> Option<File> {
    let null = File::open(rt, "/dev/null").ok()?;
    if null.as_raw_fd() <= LAST_STANDARD {
        Some(null)
    } else {
        None
    }
}

/// Standard output or standard error.
#[derive(Clone, Copy)]
pub enum StandardOutput {
    /// Standard output.
    Output,
    /// Standard error.
    Error,
}

impl StandardOutput {
    /// Returns its file descriptor.
    fn number(self) -> i32 {
        match self {
            StandardOutput::Output => 1,
            StandardOutput::Error => 2,
        }
    }

    /// Returns its path in `/dev`.
    fn path(self) -> &'static str {
        match self {
            StandardOutput::Output => "/dev/stdout",
            StandardOutput::Error => "/dev/stderr",
        }
    }

    /// Returns an error if writing this many bytes would block or exceed the file size limit.
    ///
    /// The error is `WouldBlock` if nobody reads the pipe or the terminal, and `FileTooLarge` if the bytes would go
    /// beyond the file size limit. If there is no error and the output is a pipe, the pipe has room for a page of
    /// 4,096 bytes.
    pub fn refuse_waiting<R: Files>(self, rt: &R, count: usize) -> io::Result<()> {
        let mut asked = [pollfd {
            fd: self.number(),
            events: POLLOUT,
            revents: 0,
        }];
        if poll(&mut asked, 0) == 0 {
            return Err(Error::new(ErrorKind::WouldBlock, "nobody reads it"));
        }
        let Some(limit) = file_size_limit() else {
            return Ok(());
        };
        let found = metadata(rt, self.path())?;
        let position = u64::try_from(lseek(self.number(), 0, SEEK_CUR)).unwrap_or(0);
        if is_beyond(limit, found.len().max(position), count) {
            return refuse_plain(&found);
        }
        Ok(())
    }
}
