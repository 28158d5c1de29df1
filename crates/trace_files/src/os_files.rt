//! The files of a trace in the file system.

ghost use Rattle.std.specs.Prelude.{◌≡◌, ◌++◌, [], take, Some};

use crate::files::{TraceFiles, Traces};
use crate::listing::{append_line, of_path};
use program_io::{Noted, PIECES_LIMIT, Reads, refuse_too_large};
use std::alloc::{AllocError, Global};
use std::fs::{
    File, OpenOptions, TryLockError, hard_link, metadata, remove_file, rename, symlink_metadata,
};
use std::io;
use std::io::{ErrorKind, Write};
use std::marker::Model;
use std::os::unix::fs::{MetadataExt, OpenOptionsExt};
use std::rt::Files;
use trace_pieces::{
    ListLine, Piece, PieceList, are_same, list_path, newest_piece, number_of_file, piece_path,
};

/// The number of attempts to lock a trace. A program that checks whether init is running also holds the lock for a
/// moment.
const LOCK_TRIES: u32 = 100;

/// The number of names that are tried for the new file of a trace.
const NAMES: u32 = 100;

/// The permission bits for reading and writing.
const MODES: u32 = 0o666;

/// The error number by which link(2) reports that a file system has no hard links (EPERM).
const NO_LINKS: i32 = 1;

/// Takes the lock of a trace, and returns false if another run holds it.
///
/// The lock shows that init is running; it is released when the file is dropped. If the file is not a plain file, or
/// its file system has no locks, the function returns true without a lock.
pub fn takes_lock(file: &File) -> bool {
    if !file.metadata().is_ok_and(|found| found.is_file()) {
        return true;
    }
    for _ in 0..LOCK_TRIES {
        match file.try_lock() {
            Err(TryLockError::WouldBlock) => {}
            Ok(()) | Err(TryLockError::Error(_)) => return true,
        }
    }
    false
}

/// A list of bytes that exists only in proofs. No value of this type is ever created at run time.
pub struct ByteList {
    bytes: Vec<u8>,
}

impl Model for ByteList {
    ghost use Rattle.std.specs.Prelude.{ℕ, List};

    ghost Value = { List ℕ };

    ghost view = { λ list. list.bytes.items };
}

/// Marks the proof-only record of no bytes.
struct Empty;

impl Reads<(), ByteList> for Empty {
    ghost use Rattle.std.specs.Prelude.{[]};

    ghost value = { λ _. [] };
}

/// Marks the proof-only record of more bytes: the recorded bytes, followed by the first bytes of a buffer.
struct Taken;

impl<'a> Reads<(&'a Noted<ByteList>, &'a [u8], usize), ByteList> for Taken {
    ghost use Rattle.std.specs.Prelude.{◌++◌, take};

    ghost value = { λ taken. taken.0.now.value ++ take taken.2 taken.1.now };
}

/// The files of a trace in the file system.
///
/// One file is being written. Its previous contents are removed only when the first bytes are written. When it is put
/// away, writing continues in a new file. The list of the files put away is in the same folder. Only proofs can read
/// the bytes written to the files.
#[derive(Drop)]
pub struct OsFiles<'a, R> {
    rt: &'a R,
    alloc: Global,
    file: File,
    is_begun: bool,
    /// The number of bytes written to the file.
    length: u64,
    /// The lowest number that a piece of this run can have.
    first: u64,
    /// The line about the last file put away, if it is not in the list yet.
    unlisted: Option<ListLine>,
    /// The number of pieces of this run to keep, if not all are kept, and the pieces in the list.
    most: Option<u64>,
    pieces: PieceList,
    taken: Noted<ByteList>,
}

impl<R: Files<File = File>> OsFiles<'_, R> {
    /// Continues in another file.
    fn go_on_in(&mut self, file: File)
        ensures { self.new.taken.value ≡ self.old.taken.value }
    {
        self.file = file;
        self.length = 0;
    }

    /// Truncates the file for a new run. If there is a list of pieces, a line is added before and after the truncation.
    /// A program that reads the list in between recognizes the earlier run, because the file is not empty yet.
    fn begin_run(&mut self, path: &str) -> io::Result<()>
        ensures { self.new.taken.value ≡ self.old.taken.value }
    {
        let newest = newest_piece(self.rt, self.alloc, path).unwrap_or(0);
        self.first = newest.saturating_add(1);
        let list = list_path(self.alloc, path)?;
        if symlink_metadata(self.rt, list.as_str()).is_err() {
            return self.file.set_len(0);
        }
        self.list(path, ListLine::Begins(self.first))?;
        self.file.set_len(0)?;
        self.list(path, ListLine::Begun(self.first))
    }

    /// Appends a line to the list of pieces.
    fn list(&mut self, path: &str, line: ListLine) -> io::Result<()>
        ensures { self.new.taken.value ≡ self.old.taken.value }
    {
        let list = list_path(self.alloc, path)?;
        let mode = self.file.metadata()?.mode() & MODES;
        let pieces = self.pieces_with(line)?;
        append_line(self.rt, self.alloc, list.as_str(), mode, line)?;
        self.pieces = pieces;
        Ok(())
    }

    /// Returns the pieces in the list after one more line. If all files are kept, the list in memory stays empty.
    fn pieces_with(&self, line: ListLine) -> Result<PieceList, AllocError> {
        match self.most {
            Some(_) => self.pieces.with(self.alloc, line),
            None => Ok(PieceList::new(self.alloc)),
        }
    }

    /// Removes the oldest pieces beyond the number to keep.
    ///
    /// Each removal is first recorded in the list. If init is killed between the two steps, the file remains but is no
    /// longer read; no reader ever finds a listed file missing. If the list cannot be written, no file is removed, and
    /// the removal is tried again after the next piece.
    fn take_away(&mut self, path: &str) -> io::Result<()>
        ensures { self.new.taken.value ≡ self.old.taken.value }
    {
        for _ in 0..PIECES_LIMIT {
            let Some(piece) = self.most.and_then(|most| self.pieces.oldest_beyond(most)) else {
                return Ok(());
            };
            self.list(path, ListLine::Taken(piece.number))?;
            self.remove(path, piece)?;
        }
        Ok(())
    }

    /// Removes a piece that is no longer in the list, if its file is the one that was put away.
    fn remove(&self, path: &str, piece: Piece) -> io::Result<()> {
        if piece.number == 0 {
            return Ok(());
        }
        let path = piece_path(self.alloc, path, piece.number)?;
        match removed(self.rt, path.as_str(), piece) {
            Err(error) if error.kind() != ErrorKind::NotFound => {
                Err(of_path(self.alloc, path.as_str(), &error))
            }
            _ => Ok(()),
        }
    }

    /// Appends the line about the last file put away to the list, if it is missing. Creates the list if necessary.
    fn list_piece(&mut self, path: &str) -> io::Result<()>
        ensures { self.new.taken.value ≡ self.old.taken.value }
    {
        let Some(line) = self.unlisted else {
            return Ok(());
        };
        let list = list_path(self.alloc, path)?;
        if symlink_metadata(self.rt, list.as_str()).is_err() {
            self.list(path, ListLine::Begun(self.first))?;
        }
        self.list(path, line)?;
        self.unlisted = None;
        Ok(())
    }

    /// Returns the number that follows the number of the newest piece.
    fn next_number(&self, path: &str) -> io::Result<u64> {
        match newest_piece(self.rt, self.alloc, path)?.checked_add(1) {
            Some(number) => Ok(number),
            None => Err(io::Error::other("a piece has the highest possible number")),
        }
    }

    /// Puts the trace's file away and puts a new file at the path. Returns the new file, and the line about the old one
    /// for the list. The new file is locked before it appears at the path.
    fn next_file(&self, path: &str) -> io::Result<(File, ListLine)> {
        let (file, new) = self.made_beside(path)?;
        match self.exchange(path, new.as_str()) {
            Ok(number) => Ok((file, self.put_away_by(number))),
            Err(error) => {
                let _ = remove_file(self.rt, new.as_str());
                Err(error)
            }
        }
    }

    /// Returns the line about a file that was put away under this number, or under a name that no piece can have.
    fn put_away_by(&self, number: Option<u64>) -> ListLine {
        match number {
            Some(number) => ListLine::Piece(number, self.length),
            None => ListLine::Gone(self.length),
        }
    }

    /// Returns the number of the piece that the current file was renamed to, or `None` if its name is not one of a
    /// piece.
    fn own_number(&self, path: &str) -> Option<u64> {
        let own = self.file.metadata().ok()?;
        number_of_file(self.rt, self.alloc, path, &own).ok()?
    }

    /// Creates a new file in the same folder and returns it with its name, the first unused one of `TRACE.new`,
    /// `TRACE.new-1`, and so on.
    fn made_beside(&self, path: &str) -> io::Result<(File, String)> {
        let mut new = format!(in self.alloc; "{path}.new")?;
        for number in 1..NAMES {
            match self.created(new.as_str()) {
                Ok(file) => return Ok((file, new)),
                Err(error) if error.kind() == ErrorKind::AlreadyExists => {}
                Err(error) => return Err(error),
            }
            new = format!(in self.alloc; "{path}.new-{number}")?;
        }
        Ok((self.created(new.as_str())?, new))
    }

    /// Creates a locked file that gives no user more access than the current file.
    fn created(&self, path: &str) -> io::Result<File> {
        let mode = self.file.metadata()?.mode();
        let file = OpenOptions::new()
            .write(true)
            .create_new(true)
            .mode(mode & MODES)
            .open(self.rt, path)?;
        let _ = takes_lock(&file);
        Ok(file)
    }

    /// Renames the trace's file to the next piece, if it is at the path, and the new file to the path. Returns the
    /// number of the piece, or if the trace's file was renamed earlier, its number if it has one.
    fn exchange(&self, path: &str, new: &str) -> io::Result<Option<u64>> {
        match metadata(self.rt, path) {
            Ok(found) if !found.is_file() => return Err(io::Error::other("not a regular file")),
            Ok(found) if are_same(&found, &self.file.metadata()?) => {
                return self.exchange_piece(path, new).map(Some);
            }
            Ok(_) => return Err(io::Error::other("another file is in its place")),
            Err(error) if error.kind() == ErrorKind::NotFound => {}
            Err(error) => return Err(error),
        }
        let number = self.own_number(path);
        rename(self.rt, new, path)?;
        Ok(number)
    }

    /// Renames the trace's file, which is at the path, to the next piece, and the new file to the path. If hard links
    /// are available, the old file has both names until the new file replaces it; if that fails, it keeps its old name.
    fn exchange_piece(&self, path: &str, new: &str) -> io::Result<u64> {
        let number = self.next_number(path)?;
        let piece = piece_path(self.alloc, path, number)?;
        let is_linked = has_linked(self.rt, path, piece.as_str())?;
        if !is_linked {
            rename(self.rt, path, piece.as_str())?;
        }
        if let Err(error) = rename(self.rt, new, path) {
            if is_linked {
                let _ = remove_file(self.rt, piece.as_str());
            }
            return Err(error);
        }
        Ok(number)
    }
}

/// Removes the file of a piece, if its length is the one in the list.
fn removed<R: Files>(rt: &R, path: &str, piece: Piece) -> io::Result<()> {
    let found = symlink_metadata(rt, path)?;
    if !found.is_file() || !piece.is_whole(found.len()) {
        return Err(io::Error::other("not the file that was rotated"));
    }
    remove_file(rt, path)
}

/// Gives a file a second name that does not exist yet. Returns false if the file cannot have two names.
fn has_linked<R: Files>(rt: &R, path: &str, other: &str) -> io::Result<bool> {
    match hard_link(rt, path, other) {
        Ok(()) => Ok(true),
        Err(error) if is_without_links(&error) => Ok(false),
        Err(error) => Err(error),
    }
}

/// Returns whether the error means that the file system has no hard links, or none between these names.
fn is_without_links(error: &io::Error) -> bool {
    error.raw_os_error() == Some(NO_LINKS)
        || matches!(
            error.kind(),
            ErrorKind::Unsupported | ErrorKind::CrossesDevices | ErrorKind::TooManyLinks
        )
}

impl<R: Files<File = File>> Write for OsFiles<'_, R> {
    ghost use Rattle.std.specs.Prelude.{Some};

    ghost contents = { λ files. Some files.taken.value };

    fn write(&mut self, buf: &[u8]) -> io::Result<usize> {
        refuse_too_large(&self.file, self.length, buf.len())?;
        let count = self.file.write(buf)?;
        self.length = self.length.saturating_add(count as u64);
        self.taken = Noted::of::<(&Noted<ByteList>, &[u8], usize), Taken>(&(
            &self.taken,
            buf,
            count,
        ));
        Ok(count)
    }

    fn flush(&mut self) -> io::Result<()> {
        self.file.flush()
    }
}

impl<R: Files<File = File>> TraceFiles for OsFiles<'_, R> {
    fn length(&self) -> u64 {
        self.length
    }

    /// A file that is not a plain file has no previous contents to remove.
    fn begin(&mut self, path: &str) -> io::Result<()> {
        if !self.is_begun && self.file.metadata()?.is_file() {
            self.begin_run(path)?;
        }
        self.is_begun = true;
        Ok(())
    }

    /// First adds the file that was put away before to the list, so that the list lacks at most one file.
    fn put_away(&mut self, path: &str) -> io::Result<Option<io::Error>> {
        self.list_piece(path)?;
        let (file, line) = self.next_file(path)?;
        self.unlisted = Some(line);
        self.go_on_in(file);
        if self.list_piece(path).is_err() {
            return Ok(None);
        }
        Ok(self.take_away(path).err())
    }

    fn begin_anew(&mut self, path: &str) -> io::Result<()> {
        self.list_piece(path)?;
        let file = self.created(path)?;
        if self.is_begun {
            self.unlisted = Some(self.put_away_by(self.own_number(path)));
        }
        self.go_on_in(file);
        let _ = self.list_piece(path);
        Ok(())
    }
}

/// Marks the proof-only record of the bytes of returned files, after the bytes recorded before.
struct Joined;

impl<'a> Reads<(&'a Noted<ByteList>, &'a Noted<ByteList>), ByteList> for Joined {
    ghost use Rattle.std.specs.Prelude.{◌++◌};

    ghost value = { λ both. both.0.now.value ++ both.1.now.value };
}

/// The source of trace files in the file system. Only proofs can read the bytes written to them.
#[derive(Drop)]
pub struct OsTraces<'a, R> {
    rt: &'a R,
    alloc: Global,
    told: Noted<ByteList>,
}

impl<'a, R: Files<File = File>> OsTraces<'a, R> {
    /// Creates a source to which no files have been returned yet.
    pub fn new(rt: &'a R, alloc: Global) -> OsTraces<'a, R>
        ensures { result.told.value ≡ [] }
    {
        OsTraces {
            rt,
            alloc,
            told: Noted::of::<(), Empty>(&()),
        }
    }
}

impl<'a, R: Files<File = File>> Traces for OsTraces<'a, R> {
    type Files = OsFiles<'a, R>;

    ghost told = { λ traces. traces.told.value };

    fn open(&mut self, file: File, most: Option<u64>) -> OsFiles<'a, R> {
        OsFiles {
            rt: self.rt,
            alloc: self.alloc,
            file,
            is_begun: false,
            length: 0,
            first: 1,
            unlisted: None,
            most,
            pieces: PieceList::new(self.alloc),
            taken: Noted::of::<(), Empty>(&()),
        }
    }

    fn close(&mut self, files: OsFiles<'a, R>) {
        self.told = Noted::of::<(&Noted<ByteList>, &Noted<ByteList>), Joined>(&(
            &self.told,
            &files.taken,
        ));
    }
}
