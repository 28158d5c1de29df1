//! The request channel as a file (initreq.h): it is created if it does not exist, opened without blocking, and locked
//! by the initd that reads it.

ghost use Rattle.std.specs.Prelude.{◌≡◌, length, true, false, IfOk};
ghost use Rattle.program_io.specs.declared.channel_files.TheConstants.{REQUEST};

use crate::limits::refuse_too_large;
use crate::writing::write_text;
use std::fs::{File, Metadata, OpenOptions, TryLockError};
use std::io::{Error, ErrorKind, Read, Seek, SeekFrom};
use std::os::unix::fs::{MetadataExt, OpenOptionsExt};
use std::rt::Files;
use std::{fs, io};

/// The length of a request in bytes (initreq.h).
pub const REQUEST: usize = 384;

/// The mode of a new channel: only its owner can read and write it.
const MODE: u32 = 0o600;

/// The number of times `lock_channel` tries to take the lock. It retries because `is_read` also holds the lock
/// briefly.
const LOCK_TRIES: u32 = 100;

/// A channel that is open for appending. If it was opened to take its lock, it is also open for reading.
#[derive(Drop)]
pub struct OpenChannel {
    file: File,
    /// Whether the channel did not exist and was created.
    pub was_made: bool,
    /// Its length in bytes when it was opened.
    pub length: u64,
}

impl OpenChannel {
    /// Opens a channel, and creates an empty one of mode 0600 if it does not exist.
    ///
    /// Anything but a plain file is an error, `InvalidInput`, and is not opened, because opening a FIFO would block
    /// until it has a reader.
    pub fn open<R: Files<File = File>>(rt: &R, path: &str) -> io::Result<OpenChannel>
        ensures made { IfOk result (λ channel. channel.was_made ≡ true → channel.length ≡ 0) }
    {
        open_or_make(rt, path, false)
    }

    /// Appends a block. If the file size limit leaves no room for the whole block, nothing is written.
    pub fn append(&mut self, block: &[u8]) -> io::Result<()> {
        refuse_too_large(&self.file, self.file.metadata()?.len(), block.len())?;
        write_text(&mut self.file, block)
    }

    /// Returns whether an initd holds the channel's lock.
    pub fn is_read(&self) -> io::Result<bool> {
        match self.file.try_lock_shared() {
            Ok(()) => {
                self.file.unlock()?;
                Ok(false)
            }
            Err(TryLockError::WouldBlock) => Ok(true),
            Err(TryLockError::Error(error)) => Err(error),
        }
    }
}

/// The lock of the initd that reads a channel. It is released when this value is dropped.
#[derive(Drop)]
pub struct ChannelLock {
    /// The locked file, which stays open so that no other file can get its inode number.
    channel: OpenChannel,
    /// The device and the inode number of the file.
    file: (u64, u64),
}

impl ChannelLock {
    /// Returns whether the channel did not exist and was created.
    pub fn was_made(&self) -> bool {
        self.channel.was_made
    }

    /// Returns whether this lock is on the file that was found at the channel's path.
    pub fn is_of(&self, found: &Metadata) -> bool {
        self.file == (found.dev(), found.ino())
    }

    /// Returns the length of the file in bytes.
    pub fn length(&self) -> io::Result<u64> {
        Ok(self.channel.file.metadata()?.len())
    }

    /// Reads the request that begins at this byte of the file.
    pub fn read_at(&self, position: u64, request: &mut [u8; REQUEST]) -> io::Result<()>
        ensures { length request.new ≡ REQUEST }
    {
        read_request(&self.channel.file, position, request)
    }
}

/// Reads the request that begins at this byte of the file.
pub fn read_request(mut file: &File, position: u64, request: &mut [u8; REQUEST]) -> io::Result<()>
    ensures { length request.new ≡ REQUEST }
{
    file.seek(SeekFrom::Start(position))?;
    file.read_exact(request)
}

/// Takes the lock of a channel, and creates the channel if it does not exist, as `OpenChannel::open` does. Returns
/// `None` if another process holds the lock.
pub fn lock_channel<R: Files<File = File>>(rt: &R, path: &str) -> io::Result<Option<ChannelLock>> {
    let channel = open_or_make(rt, path, true)?;
    for _ in 0..LOCK_TRIES {
        match channel.file.try_lock() {
            Ok(()) => return Ok(Some(locked(channel)?)),
            Err(TryLockError::WouldBlock) => {}
            Err(TryLockError::Error(error)) => return Err(error),
        }
    }
    Ok(None)
}

/// Returns the lock of a channel whose file has just been locked.
fn locked(channel: OpenChannel) -> io::Result<ChannelLock> {
    let found = channel.file.metadata()?;
    Ok(ChannelLock {
        channel,
        file: (found.dev(), found.ino()),
    })
}

/// Returns whether an initd holds the lock of the channel at this path; `false` if the file does not exist.
pub fn is_read<R: Files<File = File>>(rt: &R, path: &str) -> io::Result<bool> {
    if !is_there(rt, path)? {
        return Ok(false);
    }
    open_old(rt, path, false)?.is_read()
}

/// Opens a channel for appending, and also for reading if `reads` is set. Creates an empty one if it does not exist.
fn open_or_make<R: Files<File = File>>(rt: &R, path: &str, reads: bool) -> io::Result<OpenChannel>
    ensures made { IfOk result (λ channel. channel.was_made ≡ true → channel.length ≡ 0) }
{
    if is_there(rt, path)? {
        return open_old(rt, path, reads);
    }
    match OpenOptions::new()
        .read(reads)
        .append(true)
        .create_new(true)
        .mode(MODE)
        .open(rt, path)
    {
        Ok(file) => Ok(OpenChannel {
            file,
            was_made: true,
            length: 0,
        }),
        Err(error) if error.kind() == ErrorKind::AlreadyExists => open_linked(rt, path, reads),
        Err(error) => Err(error),
    }
}

/// Returns whether there is a file at the path. Anything but a plain file is an error, `InvalidInput`.
fn is_there<R: Files>(rt: &R, path: &str) -> io::Result<bool> {
    match fs::metadata(rt, path) {
        Ok(found) if found.is_file() => Ok(true),
        Ok(_) => Err(Error::new(ErrorKind::InvalidInput, "not a regular file")),
        Err(error) if error.kind() == ErrorKind::NotFound => Ok(false),
        Err(error) => Err(error),
    }
}

/// Opens a channel whose path turned out to exist: it was created in the meantime, or it is a symbolic link. If the
/// link leads to a file that does not exist, that file is created. The channel counts as created if it is empty.
fn open_linked<R: Files<File = File>>(rt: &R, path: &str, reads: bool) -> io::Result<OpenChannel>
    ensures made { IfOk result (λ channel. channel.was_made ≡ true → channel.length ≡ 0) }
{
    let file = OpenOptions::new()
        .read(reads)
        .append(true)
        .create(true)
        .mode(MODE)
        .open(rt, path)?;
    let length = file.metadata()?.len();
    Ok(OpenChannel {
        file,
        was_made: length == 0,
        length,
    })
}

/// Opens a channel that exists.
fn open_old<R: Files<File = File>>(rt: &R, path: &str, reads: bool) -> io::Result<OpenChannel>
    ensures old { IfOk result (λ channel. channel.was_made ≡ false) }
{
    let file = OpenOptions::new().read(reads).append(true).open(rt, path)?;
    let length = file.metadata()?.len();
    Ok(OpenChannel {
        file,
        was_made: false,
        length,
    })
}
