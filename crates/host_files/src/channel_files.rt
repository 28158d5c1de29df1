//! Finds the file of a request channel at its path, and reads it.

ghost use Rattle.std.specs.Prelude.{◌≡◌, ◌∷◌, [], List, length, IfOk, OnErr, OnOk};
ghost use Rattle.program_io.specs.declared.channel_files.TheConstants.{REQUEST};
ghost use Rattle.host_files.specs.Channels.{ChannelCall};
ghost use Rattle.host_files.specs.Channels.ChannelCall.{found, read};

use program_io::{ChannelLock, Noted, REQUEST, Reads, lock_channel, read_request};
use std::fs::{File, Metadata};
use std::io::{Error, ErrorKind};
use std::marker::{Model, PhantomData};
use std::os::unix::fs::MetadataExt;
use std::rt::Files;
use std::{fs, io};

/// A plain file that was found at a path.
#[derive(Clone, Copy)]
pub struct FoundFile {
    /// Its device, and its inode number there.
    pub device: u64,
    pub number: u64,
    /// Its length in bytes.
    pub length: u64,
    /// The user that owns it.
    pub owner: u32,
    /// When it was last written to, in seconds and nanoseconds.
    pub written: (i64, i64),
}

impl FoundFile {
    fn of(found: &Metadata) -> FoundFile {
        FoundFile {
            device: found.dev(),
            number: found.ino(),
            length: found.len(),
            owner: found.uid(),
            written: (found.mtime(), found.mtime_nsec()),
        }
    }
}

/// The file at the path of a channel.
///
/// A contract sees what was found at the path, and what was read from the file. Code that knows the channel only
/// through this trait has no other way to read its requests.
pub trait ChannelFile {
    /// The answers of its calls, newest first.
    ghost told: { Self → List ChannelCall };

    /// Returns a value for which no file was looked up yet.
    fn unread() -> Self
        ensures { told result ≡ [] };

    /// Returns the record of its answers, which only proofs can read.
    fn calls(&self) -> Noted<ChannelCallList>
        ensures { result.value ≡ told self.now };

    /// Makes this value hold the lock of each file that it finds from now on, beginning with this lock.
    fn hold(&mut self, lock: ChannelLock)
        ensures { told self.new ≡ told self.old };

    /// Returns the plain file at the path; `None` if there is nothing. If a lock is held, this takes the lock of the
    /// file that is found; if another initd holds that lock, it is an error.
    fn find<R: Files<File = File>>(&mut self, rt: &R, path: &str) -> io::Result<Option<FoundFile>>
        // what was found is recorded
        ensures ok { IfOk result (λ file. told self.new ≡ found file ∷ told self.old) }
        ensures err { OnErr result (told self.new ≡ told self.old) };

    /// Returns the length in bytes of the file whose lock is held, if there is one.
    fn locked_length(&self) -> Option<u64>;

    /// Reads the request at this position of the file that was last found at the path.
    fn read_at<R: Files<File = File>>(
        &mut self,
        rt: &R,
        path: &str,
        position: u64,
        request: &mut [u8; REQUEST],
    ) -> io::Result<()>
        // a whole request was read
        ensures size { length request.new ≡ REQUEST }
        // it is recorded, with its position
        ensures ok { OnOk result (told self.new ≡ read position request.new ∷ told self.old) }
        ensures err { OnErr result (told self.new ≡ told self.old) };
}

/// A list of the answers of a channel's file, newest first. It only serves as the type of a `Noted` value; no list is
/// ever created.
pub struct ChannelCallList {
    marker: PhantomData<()>,
}

impl Model for ChannelCallList {
    ghost use Rattle.std.specs.Prelude.{List, []};
    ghost use Rattle.host_files.specs.Channels.{ChannelCall};

    ghost Value = { List ChannelCall };

    ghost view = { λ _. [] };
}

/// Creates the empty list of answers.
struct Empty;

impl Reads<(), ChannelCallList> for Empty {
    ghost use Rattle.std.specs.Prelude.{[]};

    ghost value = { λ _. [] };
}

/// Creates a record of no answers.
pub fn nothing_read() -> Noted<ChannelCallList>
    ensures { result.value ≡ [] }
{
    Noted::of::<(), Empty>(&())
}

/// Adds an answer to the list: the file that was found at the path.
struct Found;

impl<'a> Reads<(&'a Noted<ChannelCallList>, &'a Option<FoundFile>), ChannelCallList> for Found {
    ghost use Rattle.std.specs.Prelude.{◌∷◌};
    ghost use Rattle.host_files.specs.Channels.ChannelCall.{found};

    ghost value = { λ said. found said.1.now ∷ said.0.now.value };
}

/// Adds an answer to the list: a request that was read at a position.
struct ReadAt;

impl<'a> Reads<(&'a Noted<ChannelCallList>, u64, &'a [u8; REQUEST]), ChannelCallList> for ReadAt {
    ghost use Rattle.std.specs.Prelude.{◌∷◌};
    ghost use Rattle.host_files.specs.Channels.ChannelCall.{read};

    ghost value = { λ said. read said.1 said.2.now ∷ said.0.now.value };
}

/// The file of the operating system at the path of a channel. Each call records its answer.
#[derive(Drop)]
pub struct OsChannelFile {
    /// The lock of the file that is read, if the host holds one.
    lock: Option<ChannelLock>,
    told: Noted<ChannelCallList>,
}

impl OsChannelFile {
    /// Takes the lock of the file that was found, if the held lock is on a different file.
    fn lock_found<R: Files<File = File>>(
        &mut self,
        rt: &R,
        path: &str,
        found: &Metadata,
    ) -> io::Result<()>
        ensures { self.new.told ≡ self.old.told }
    {
        match &self.lock {
            Some(lock) if !lock.is_of(found) => {}
            _ => return Ok(()),
        }
        let Some(lock) = lock_channel(rt, path)? else {
            return Err(Error::other("another initd run is reading it"));
        };
        self.lock = Some(lock);
        Ok(())
    }
}

impl ChannelFile for OsChannelFile {
    ghost told = { λ file. file.told.value };

    fn unread() -> OsChannelFile {
        OsChannelFile {
            lock: None,
            told: nothing_read(),
        }
    }

    fn calls(&self) -> Noted<ChannelCallList> {
        self.told.again()
    }

    fn hold(&mut self, lock: ChannelLock) {
        self.lock = Some(lock);
    }

    fn find<R: Files<File = File>>(&mut self, rt: &R, path: &str) -> io::Result<Option<FoundFile>> {
        let found = metadata_at(rt, path)?;
        if let Some(found) = &found {
            self.lock_found(rt, path, found)?;
        }
        let file = found.as_ref().map(FoundFile::of);
        self.told = Noted::of::<(&Noted<ChannelCallList>, &Option<FoundFile>), Found>(&(
            &self.told, &file,
        ));
        Ok(file)
    }

    fn locked_length(&self) -> Option<u64> {
        self.lock.as_ref()?.length().ok()
    }

    fn read_at<R: Files<File = File>>(
        &mut self,
        rt: &R,
        path: &str,
        position: u64,
        request: &mut [u8; REQUEST],
    ) -> io::Result<()> {
        match &self.lock {
            Some(lock) => lock.read_at(position, request)?,
            None => read_request(&File::open(rt, path)?, position, request)?,
        }
        self.told = Noted::of::<(&Noted<ChannelCallList>, u64, &[u8; REQUEST]), ReadAt>(&(
            &self.told, position, &*request,
        ));
        Ok(())
    }
}

/// Returns the plain file at the path; `None` if there is nothing.
pub(crate) fn found_at<R: Files>(rt: &R, path: &str) -> io::Result<Option<FoundFile>> {
    Ok(metadata_at(rt, path)?.as_ref().map(FoundFile::of))
}

fn metadata_at<R: Files>(rt: &R, path: &str) -> io::Result<Option<Metadata>> {
    match fs::metadata(rt, path) {
        Ok(found) if found.is_file() => Ok(Some(found)),
        Ok(_) => Err(Error::new(ErrorKind::InvalidInput, "not a regular file")),
        Err(error) if error.kind() == ErrorKind::NotFound => Ok(None),
        Err(error) => Err(error),
    }
}
