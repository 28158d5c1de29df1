//! The channels of the operating system: opening a channel, finding the init that reads it, and ringing its bell. The
//! bell is a FIFO next to the channel. It is rung after a request was appended, so that init reads the request
//! immediately.

ghost use Rattle.std.specs.Prelude.{None};

use crate::channels::{Channels, FoundChannel};
use initctl_frame::BLOCK;
use libc::net::{POLLOUT, poll};
use libc::types::pollfd;
use program_io::{OpenChannel, Reason, read_file};
use std::alloc::Global;
use std::fs::{File, OpenOptions, canonicalize, metadata, read_dir, read_link};
use std::io::{Error, ErrorKind, Write};
use std::os::fd::AsRawFd;
use std::os::unix::fs::FileTypeExt;
use std::rt::Files;
use std::{io, str};

/// The file in which Linux lists the locks of files (proc_locks(5)).
const LOCKS: &str = "/proc/locks";

/// The channels of the operating system, whose bells are rung. Their bytes are not known.
#[derive(Drop)]
pub struct OsChannels<'a, R> {
    rt: &'a R,
    alloc: Global,
    opened: Option<OpenChannel>,
}

impl<'a, R> OsChannels<'a, R> {
    /// Creates a value with no channel open.
    pub fn new(rt: &'a R, alloc: Global) -> OsChannels<'a, R> {
        OsChannels {
            rt,
            alloc,
            opened: None,
        }
    }
}

impl<R: Files<File = File> + Alloc + Eprint + Clone + Drop> Channels for OsChannels<'_, R> {
    ghost bytes_at = { λ _ _. None };

    fn open(&mut self, path: &str) -> io::Result<FoundChannel> {
        let channel = OpenChannel::open(self.rt, path)?;
        let found = FoundChannel {
            was_made: channel.was_made,
            length: channel.length,
        };
        self.opened = Some(channel);
        Ok(found)
    }

    fn append(&mut self, path: &str, block: &[u8; BLOCK]) -> io::Result<()> {
        match &mut self.opened {
            Some(channel) => channel.append(block)?,
            None => return Err(Error::from(ErrorKind::NotFound)),
        }
        if let Err(error) = ring(self.rt, self.alloc, path) {
            let _ = eprintln!(self.rt;
                "telinit: cannot ring {path}.bell: {}; init will read the request in its next turn",
                Reason(&error)
            );
        }
        Ok(())
    }

    fn is_read(&self, path: &str) -> io::Result<bool> {
        let Some(channel) = &self.opened else {
            return Err(Error::from(ErrorKind::NotFound));
        };
        match channel.is_read() {
            Ok(false) if is_read_before(self.rt, self.alloc, path).unwrap_or(false) => Ok(true),
            // An init may have switched to this file in the meantime.
            Ok(false) => channel.is_read(),
            told => told,
        }
    }
}

/// Returns whether a process that holds a lock has a file open that was at the path of the channel before the present
/// one. Such a process is an init, which notices within a pause that the file was replaced. Each process is checked
/// once, however many locks it holds.
fn is_read_before<R: Files + Alloc + Clone + Drop>(
    rt: &R,
    alloc: Global,
    path: &str,
) -> io::Result<bool> {
    let stood = canonicalize(rt, path)?;
    let removed = format!(in alloc; "{} (deleted)", stood.as_path().as_str())?;
    let locks = read_file(rt, alloc, LOCKS)?;
    let mut seen: Vec<u32> = Vec::new(alloc);
    for line in str::from_utf8(&locks).unwrap_or("").lines() {
        if let Some(number) = holder_in(line) {
            if !seen.contains(&number) {
                if has_open(rt, alloc, number, removed.as_str()).unwrap_or(false) {
                    return Ok(true);
                }
                seen.push(number)?;
            }
        }
    }
    Ok(false)
}

/// Returns the process in a line of the list, `1: FLOCK  ADVISORY  WRITE 4711 08:01:1234 0 EOF`.
fn holder_in(line: &str) -> Option<u32> {
    let mut words = line.split_whitespace();
    let kind = words.nth(1)?;
    let number = words.nth(2)?.parse().ok()?;
    if kind == "FLOCK" { Some(number) } else { None }
}

/// Returns whether the process has a file open that the system lists by this name.
fn has_open<R: Files + Alloc + Clone + Drop>(
    rt: &R,
    alloc: Global,
    number: u32,
    name: &str,
) -> io::Result<bool> {
    let folder = format!(in alloc; "/proc/{number}/fd")?;
    for entry in read_dir(rt, folder.as_str())? {
        let leads = read_link(rt, entry?.path())?;
        if leads.as_path().as_str() == name {
            return Ok(true);
        }
    }
    Ok(false)
}

/// Rings the bell of the channel at the path, a FIFO with this path and `.bell` appended, if it exists. It never
/// waits, because a bell that is full has been rung already.
fn ring<R: Files<File = File>>(rt: &R, alloc: Global, channel: &str) -> io::Result<()> {
    let path = format!(in alloc; "{channel}.bell")?;
    match metadata(rt, path.as_str()) {
        Ok(found) if found.file_type().is_fifo() => {}
        Ok(_) => return Err(Error::new(ErrorKind::InvalidInput, "not a FIFO")),
        Err(error) if error.kind() == ErrorKind::NotFound => return Ok(()),
        Err(error) => return Err(error),
    }
    let mut file = OpenOptions::new()
        .read(true)
        .write(true)
        .open(rt, path.as_str())?;
    if has_room(&file)? {
        file.write_all(b"\n")?;
    }
    Ok(())
}

/// Returns whether a byte can be written to the FIFO without waiting.
fn has_room(file: &File) -> io::Result<bool> {
    let mut asked = [pollfd {
        fd: file.as_raw_fd(),
        events: POLLOUT,
        revents: 0,
    }];
    match poll(&mut asked, 0) {
        0 => Ok(false),
        found if found > 0 => Ok(true),
        _ => Err(Error::other("poll failed")),
    }
}
