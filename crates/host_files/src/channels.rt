//! Reads the request channel, and hands its bytes on.
//!
//! The contracts state which bytes of the file are handed on. `tools/pages.d/channel` and `edges`, which use real
//! files, and `test_turns` test the messages about the file. The wording of the messages is in `host_messages`.

ghost use Rattle.std.specs.Prelude.{◌≡◌, ◌≤◌, [], length, take, IfOk, OnErr};
ghost use Rattle.host_files.specs.Channels.{HandsOverNothing, HandsOn, ReadsConsecutively, bytes_read};

use crate::bells::{Bell, wait_for};
use crate::boxes::boxed;
use crate::channel_files::{ChannelCallList, ChannelFile, found_at};
use crate::channel_notes::{ChannelNotes, LOOK};
use crate::channel_progress::Progress;
use host_lines::MessageSink;
use program_io::{ChannelLock, Noted, REQUEST};
use std::alloc::{AllocError, Allocator};
use std::fs::File;
use std::io::Read;
use std::marker::Model;
use std::os::fd::RawFd;
use std::rt::{Clock, Files};
use std::time::Duration;
use std::{io, thread};

/// The request channel.
#[derive(Drop)]
pub struct Channel<F: ChannelFile + Drop, A: Allocator> {
    path: String<A>,
    /// Whether requests that the channel has before the first reading are skipped.
    fresh: bool,
    file: F,
    progress: Progress,
    /// The request that was read last, and the number of its bytes that were handed on.
    request: [u8; REQUEST],
    handed: usize,
    notes: ChannelNotes,
    bell: Box<Bell<A>, A>,
}

impl<F: ChannelFile + Drop, A: Allocator> Model for Channel<F, A> {
    ghost use Rattle.std.specs.Prelude.{◌≡◌, drop};
    ghost use Rattle.host_files.specs.Channels.{ChannelState, ReadsConsecutively, progress_of};

    ghost Value = { ChannelState };

    ghost view = { λ channel. record {
      fresh = channel.fresh;
      told = F.told channel.file;
      rest = drop channel.handed channel.request;
    } };

    ghost invariant = { λ channel. ReadsConsecutively channel.fresh (F.told channel.file)
        × (channel.progress ≡ progress_of channel.fresh (F.told channel.file)) };
}

impl<F: ChannelFile + Drop, A: Allocator + Copy> Channel<F, A> {
    /// Returns the channel at this path, before anything is read. With `fresh`, reading begins after the whole
    /// requests that the channel has at the first look.
    pub fn new(alloc: A, path: &str, fresh: bool) -> Result<Box<Channel<F, A>, A>, AllocError>
        ensures { IfOk result (λ made.
            made.value ≡ record { fresh = fresh; told = []; rest = [] }) }
    {
        let bell = Bell::new(alloc, path)?;
        let channel = Channel {
            path: String::from_str(alloc, path)?,
            fresh,
            file: F::unread(),
            progress: Progress::unread(),
            request: [0; REQUEST],
            handed: REQUEST,
            notes: ChannelNotes::new(),
            bell,
        };
        boxed(alloc, channel)
    }

    /// Returns the path of its bell if nothing exists there.
    pub fn missing_bell<R: Files>(&self, rt: &R) -> Option<&str> {
        self.bell.missing_path(rt)
    }

    /// Sleeps for this many microseconds, or until the bell is rung or the other descriptor is ready, and returns
    /// whether that descriptor is ready. If there is no bell, it looks at the channel meanwhile, and returns when
    /// `has_news` is true.
    pub fn rest<R: Files<File = File> + Clock + MessageSink>(
        &mut self,
        rt: &R,
        length: u64,
        other: Option<RawFd>,
    ) -> bool
        ensures { self.new ≡ self.old }
    {
        if let Some(is_ready) = self.bell.wait(rt, length, other) {
            return is_ready;
        }
        for _ in 0..length / LOOK {
            if nap(rt, LOOK, other) {
                return true;
            }
            if self.has_news(rt) {
                return false;
            }
        }
        nap(rt, length % LOOK, other)
    }

    /// Makes the channel hold this lock of its file, and the lock of each other file that appears at its path.
    pub fn hold(&mut self, lock: ChannelLock)
        ensures { self.new ≡ self.old }
    {
        self.file.hold(lock);
    }

    /// Returns the path of the channel.
    pub fn path(&self) -> &str {
        self.path.as_str()
    }

    /// Returns the record of the answers of its file.
    pub fn told(&self) -> Noted<ChannelCallList>
        ensures value { result.value ≡ self.now.told }
        ensures read_on { ReadsConsecutively self.now.fresh self.now.told }
    {
        self.file.calls()
    }

    /// Returns whether the channel has a request that was not read, or is shorter than the part already read.
    ///
    /// If the lock of the file is held, and the file was at its path when it was last read, only its length is checked:
    /// a different file at the path is noticed at the next reading.
    pub fn has_news<R: Files>(&self, rt: &R) -> bool {
        if !self.progress.missing {
            if let Some(length) = self.file.locked_length() {
                return length < self.progress.heard || self.progress.is_request_behind(length);
            }
        }
        match found_at(rt, self.path.as_str()) {
            Ok(Some(found)) => {
                self.progress.is_replaced(&found) || self.progress.is_request_behind(found.length)
            }
            _ => false,
        }
    }

    /// Reads the channel's next bytes into the buffer.
    ///
    /// - Only whole requests are read, so that no part of an incomplete one is left if the channel is replaced or
    ///   truncated.
    /// - A channel that does not exist has no bytes.
    /// - If a different file is at the path, or the file is shorter than the part already read, the channel was
    ///   replaced or truncated, and is read from its first byte on. If a lock is held, the lock of that file is taken
    ///   first; if another initd holds it, that is an error.
    /// - Anything but a plain file is not opened, because opening a FIFO would block until it has a writer.
    pub fn take_bytes<R: Files<File = File> + Clock + MessageSink>(
        &mut self,
        rt: &R,
        buffer: &mut [u8],
    ) -> io::Result<usize>
        // the buffer has room for these bytes
        ensures within { IfOk result (λ count. count ≤ length buffer.old) }
        ensures fresh { self.new.fresh ≡ self.old.fresh }
        // they are the next bytes that were read from the file, after all those handed on before
        ensures handed { IfOk result (λ count.
            HandsOn self.old self.new (take count buffer.new)) }
        // if there is an error, no byte is handed on, and none is lost
        ensures kept { OnErr result (HandsOverNothing self.old self.new) }
    {
        let taken = self.next_bytes(rt, buffer);
        self.notes.tell_taken(rt, self.path.as_str(), &taken);
        taken
    }

    fn next_bytes<R: Files<File = File> + Clock + MessageSink>(
        &mut self,
        rt: &R,
        buffer: &mut [u8],
    ) -> io::Result<usize>
        ensures within { IfOk result (λ count. count ≤ length buffer.old) }
        ensures fresh { self.new.fresh ≡ self.old.fresh }
        ensures handed { IfOk result (λ count.
            HandsOn self.old self.new (take count buffer.new)) }
        ensures kept { OnErr result (HandsOverNothing self.old self.new) }
    {
        if self.handed >= REQUEST && !self.read_request(rt)? {
            return Ok(0);
        }
        self.hand_on(buffer)
    }

    /// Hands on the bytes of the request that was read.
    fn hand_on(&mut self, buffer: &mut [u8]) -> io::Result<usize>
        ensures within { IfOk result (λ count. count ≤ length buffer.old) }
        ensures fresh { self.new.fresh ≡ self.old.fresh }
        ensures handed { IfOk result (λ count.
            HandsOn self.old self.new (take count buffer.new)) }
        ensures kept { OnErr result (HandsOverNothing self.old self.new) }
    {
        let mut rest = self.request.get(self.handed..).unwrap_or(&[]);
        let taken = rest.read(buffer)?;
        self.handed = self.handed.saturating_add(taken);
        Ok(taken)
    }

    /// Reads the next request if there is a whole one, and returns whether there was.
    fn read_request<R: Files<File = File> + Clock + MessageSink>(
        &mut self,
        rt: &R,
    ) -> io::Result<bool>
        ensures fresh { self.new.fresh ≡ self.old.fresh }
        ensures kept { self.old.rest ≡ [] → HandsOverNothing self.old self.new }
    {
        if !self.has_request(rt)? {
            return Ok(false);
        }
        let Some(end) = self.progress.heard.checked_add(REQUEST as u64) else {
            return Ok(false);
        };
        let path = self.path.as_str();
        self.file
            .read_at(rt, path, self.progress.heard, &mut self.request)?;
        self.progress.heard = end;
        self.handed = 0;
        self.notes.tell_passed_over(rt, path, &self.request, end);
        Ok(true)
    }

    /// Returns whether the channel has a whole request that was not read.
    fn has_request<R: Files<File = File> + Clock + MessageSink>(
        &mut self,
        rt: &R,
    ) -> io::Result<bool>
        ensures fresh { self.new.fresh ≡ self.old.fresh }
        ensures rest { self.new.rest ≡ self.old.rest }
        ensures unread { bytes_read self.new.told ≡ bytes_read self.old.told }
    {
        let found = self.file.find(rt, self.path.as_str())?;
        let before = self.progress;
        self.progress = before.after(self.fresh, found);
        if !before.begun {
            ChannelNotes::tell_first(rt, self.path.as_str(), found, self.fresh);
        }
        self.notes.note_progress(&before, &self.progress);
        let Some(found) = found else {
            return Ok(false);
        };
        self.notes
            .note_file(rt, self.path.as_str(), &before, &found);
        let is_whole = self.progress.is_request_behind(found.length);
        if !is_whole {
            self.notes.note_end(rt, self.path.as_str(), &found);
        }
        Ok(is_whole)
    }
}

/// Sleeps for this many microseconds, or until the other descriptor is ready, and returns whether it is.
fn nap(rt: &impl Clock, length: u64, other: Option<RawFd>) -> bool {
    if let Some(other) = other {
        if let Some(is_ready) = wait_for(other, length) {
            return is_ready;
        }
    }
    thread::sleep(rt, Duration::from_micros(length));
    false
}
