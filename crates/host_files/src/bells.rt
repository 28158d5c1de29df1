//! The bell of a channel: a FIFO next to it. A program that appends a request can ring the bell by writing a byte to
//! it, so that init's pause ends at once.

use crate::boxes::boxed;
use host_lines::{Doing, HostLine, MessageSink, Power, Trouble};
use libc::geteuid;
use libc::net::{POLLIN, poll};
use libc::types::pollfd;
use std::alloc::{AllocError, Allocator};
use std::fs::{File, Metadata, OpenOptions};
use std::io::{Error, ErrorKind, Read};
use std::os::fd::{AsRawFd, RawFd};
use std::os::unix::fs::{FileTypeExt, MetadataExt};
use std::rt::Files;
use std::{fs, io};

/// The microseconds in a millisecond, the unit of poll(2).
const MILLISECOND: u64 = 1_000;

/// A value in place of a descriptor, which poll(2) ignores.
const NONE: RawFd = -1;

/// The maximum number of rings that one read removes.
const RINGS: usize = 512;

/// The bell of a channel.
#[derive(Drop)]
pub(crate) struct Bell<A: Allocator> {
    /// The path of the bell. It is empty if there is no channel; then the bell is not looked for.
    path: String<A>,
    open: Option<File>,
    /// The device and the inode number of the FIFO that is open.
    file: Option<(u64, u64)>,
    hearing: Trouble,
}

impl<A: Allocator + Copy> Bell<A> {
    /// Returns the bell of the channel at this path: the file at the path followed by `.bell`. For an empty path there
    /// is no bell.
    pub(crate) fn new(alloc: A, channel: &str) -> Result<Box<Bell<A>, A>, AllocError> {
        let end = if channel.is_empty() { "" } else { ".bell" };
        let bell = Bell {
            path: format!(in alloc; "{channel}{end}")?,
            open: None,
            file: None,
            hearing: Trouble::new(Doing::Hear),
        };
        boxed(alloc, bell)
    }

    /// Returns the bell's path if nothing exists there.
    pub(crate) fn missing_path<R: Files>(&self, rt: &R) -> Option<&str> {
        if self.path.is_empty() {
            return None;
        }
        match found_at(rt, self.path.as_str()) {
            Ok(None) => Some(self.path.as_str()),
            _ => None,
        }
    }

    /// Waits for this many microseconds, or until the bell is rung or the other descriptor is ready, and returns
    /// whether that descriptor is ready.
    ///
    /// It does not wait, and returns `None`, if there is no bell, or if the time is shorter than a millisecond. If
    /// listening to the bell fails, that is reported once.
    pub(crate) fn wait<R: Files<File = File> + MessageSink>(
        &mut self,
        rt: &R,
        length: u64,
        other: Option<RawFd>,
    ) -> Option<bool> {
        let limit = i32::try_from(length / MILLISECOND).ok()?;
        if limit == 0 || self.path.is_empty() {
            return None;
        }
        let listening = self.listen(rt);
        self.hearing.tell(rt, self.path.as_str(), &listening);
        let file = self.open.as_ref()?;
        match heard(file, other, limit) {
            Ok(is_ready) => Some(is_ready),
            Err(error) => {
                self.hearing.tell_begun(rt, self.path.as_str(), &error);
                self.open = None;
                None
            }
        }
    }

    /// Opens the FIFO at the path, if it is not open. If it belongs to another user, that is reported.
    fn listen<R: Files<File = File> + MessageSink>(&mut self, rt: &R) -> io::Result<()> {
        let found = found_at(rt, self.path.as_str());
        let Ok(Some(found)) = found else {
            self.open = None;
            self.file = None;
            found?;
            return Ok(());
        };
        let file = Some((found.dev(), found.ino()));
        if self.file != file {
            self.file = file;
            self.open = None;
            let path = self.path.as_str();
            if found.uid() != geteuid() {
                rt.tell(&HostLine::OtherOwner {
                    path,
                    before: geteuid(),
                    owner: found.uid(),
                    power: Power::Wake,
                });
            }
            self.open = Some(OpenOptions::new().read(true).write(true).open(rt, path)?);
        }
        Ok(())
    }
}

/// Returns the FIFO at the path; `None` if there is nothing. Anything else at the path is an error, `InvalidInput`.
fn found_at<R: Files>(rt: &R, path: &str) -> io::Result<Option<Metadata>> {
    match fs::metadata(rt, path) {
        Ok(found) if found.file_type().is_fifo() => Ok(Some(found)),
        Ok(_) => Err(Error::new(ErrorKind::InvalidInput, "not a FIFO")),
        Err(error) => match error.kind() {
            // If the channel's folder does not exist, that is reported as a failure of the channel.
            ErrorKind::NotFound | ErrorKind::NotADirectory => Ok(None),
            _ => Err(error),
        },
    }
}

/// Waits for this many milliseconds, or until the FIFO has a byte or the other descriptor is ready. Reads the bytes in
/// the FIFO, and returns whether the other descriptor is ready.
fn heard(mut file: &File, other: Option<RawFd>, limit: i32) -> io::Result<bool> {
    let (is_rung, is_ready) = ready(file.as_raw_fd(), other.unwrap_or(NONE), limit)?;
    if is_rung {
        let mut rings = [0; RINGS];
        file.read(&mut rings)?;
    }
    Ok(is_ready)
}

/// Waits for this many microseconds, in whole milliseconds, or until the descriptor is ready. Returns whether it is
/// ready.
///
/// It does not wait, and returns `None`, if the time is shorter than a millisecond, or if poll(2) fails.
pub(crate) fn wait_for(descriptor: RawFd, length: u64) -> Option<bool> {
    let limit = i32::try_from(length / MILLISECOND).ok()?;
    if limit == 0 {
        return None;
    }
    let (_, is_ready) = ready(NONE, descriptor, limit).ok()?;
    Some(is_ready)
}

/// Waits for this many milliseconds, or until one of the two descriptors is ready, and returns whether each is: it has
/// bytes, or is at its end.
fn ready(first: RawFd, second: RawFd, limit: i32) -> io::Result<(bool, bool)> {
    let mut waited = [polled(first), polled(second)];
    if poll(&mut waited, limit) < 0 {
        return Err(Error::other("poll failed"));
    }
    Ok((waited[0].revents != 0, waited[1].revents != 0))
}

/// Returns the argument for poll(2) that asks whether a descriptor can be read.
fn polled(fd: RawFd) -> pollfd {
    pollfd {
        fd,
        events: POLLIN,
        revents: 0,
    }
}
