//! Texts that may grow during reading, and the programs that write them.

ghost use Rattle.std.specs.Prelude.{◌≡◌, ◌≤◌, ◌++◌, List, length, take, IfOk, OnOk};
ghost use Rattle.std.specs.Io.{ReadsAtMost};
ghost use Rattle.std.specs.Io.KnownBytes.{Consumes};
ghost use Rattle.initview_command.specs.Words.{NamedText, KnownTexts};
ghost use Rattle.initview_command.specs.Writers.{IsWriterAt, KnownWriters};

use host_files::{FolderFault, IgnoringListener, with_folder};
use init_words::Part;
use libc::net::poll;
use libc::types::pollfd;
use program_io::open_plain;
use std::alloc::{AllocError, Global};
use std::fs::{File, Metadata, TryLockError};
use std::io::{Error, ErrorKind, Read};
use std::os::unix::fs::MetadataExt;
use std::rt::{Clock, Files};
use std::{fs, io};
use trace_pieces::{PiecedFiles, TraceReader, is_given};

/// The writer of a trace, determined from its lock, which init holds while it writes.
#[derive(Clone, Copy)]
pub enum Writer {
    /// The trace has no lock: it is standard input, not a regular file, or on a file system without locks.
    Unknown,
    /// No init writes the trace, because the lock is free.
    Nobody,
    /// An init writes the trace. It last wrote this number of seconds ago.
    Init(u64),
}

/// A text that may grow while it is read.
pub trait LiveTrace: Read {
    /// Reads bytes that exist already. Returns 0 if it would have to wait for more.
    fn read_there(&mut self, buf: &mut [u8]) -> io::Result<usize>
        ensures bound { ReadsAtMost result buf.new }
        ensures bytes { IfOk result (λ count. Consumes (Self.remaining self.old)
            (Self.remaining self.new) (take count buf.new)) };
}

/// Opens texts that may grow, determines their writers, and reads folders.
///
/// Contracts describe the complete text at a path, which is finite, and its writer, if these are known.
pub trait LiveTraces {
    /// The text at a path, or `None` if it is not known.
    ghost text_at: { Self → KnownTexts };

    /// The writer of the text at a path, or `None` if it is not known.
    ghost writer_at: { Self → KnownWriters };

    /// A text that may grow. A read waits for more bytes, and returns 0 if there can be no more.
    type Growing: LiveTrace + Drop;

    /// Opens the text at a path.
    fn open(&self, alloc: Global, path: &str) -> io::Result<Self::Growing>
        ensures { IfOk result (λ text. Self.Growing.remaining text ≡ text_at self.now path.now) };

    /// Returns the writer of the text at a path, determined from its lock.
    fn writer(&self, path: &str) -> Writer
        ensures { IsWriterAt (writer_at self.now) path.now result };

    /// Appends the files of an inittab folder, in the order in which init reads them.
    fn add_folder(
        &self,
        alloc: Global,
        folder: &str,
        parts: &mut Vec<Part>,
    ) -> Result<(), FolderFault>
        ensures { OnOk result ((more : List NamedText)
            × (parts.new.items ≡ parts.old.items ++ more)) };

    /// Reports whether a program was found: in one of the folders, which are separated by colons, or at its path if the
    /// path begins with `/`. Any other path depends on the working directory of init, and is assumed to exist.
    fn has_program(&self, alloc: Global, folders: &str, program: &str) -> Result<bool, AllocError>;
}

/// The files of the operating system, which may grow while they are followed. A trace is read together with its earlier
/// pieces. Contracts know neither the texts nor their writers.
#[derive(Drop)]
pub struct GrowingFiles<'a, R> {
    rt: &'a R,
}

impl<'a, R> GrowingFiles<'a, R> {
    /// Creates an opener for the files of this system.
    pub fn new(rt: &'a R) -> GrowingFiles<'a, R> {
        GrowingFiles { rt }
    }
}

impl<'a, R: Files<File = File> + Clock + Eprint> LiveTraces for GrowingFiles<'a, R> {
    ghost use Rattle.std.specs.Prelude.{None};

    ghost text_at = { λ _ _. None };

    ghost writer_at = { λ _ _. None };

    type Growing = GrowingFile<'a, R>;

    /// Opens standard input for `-`. Standard input and files in `/dev/` are read to their end. Any other path must be
    /// a regular file, which is read after its earlier pieces, and may grow.
    fn open(&self, alloc: Global, path: &str) -> io::Result<GrowingFile<'a, R>> {
        if is_given(path) {
            let path = if path == "-" { "/dev/stdin" } else { path };
            return Ok(GrowingFile::Ends(File::open(self.rt, path)?));
        }
        let files = PiecedFiles::new(self.rt, alloc, "initview", true);
        Ok(GrowingFile::Grows(files.open(path)?))
    }

    /// Tries to take the lock in shared mode, which does not affect other readers, and releases it immediately.
    fn writer(&self, path: &str) -> Writer {
        if is_given(path) {
            return Writer::Unknown;
        }
        match open_plain(self.rt, path) {
            Ok(file) => writer_of(self.rt, &file),
            Err(_) => Writer::Unknown,
        }
    }

    fn add_folder(
        &self,
        alloc: Global,
        folder: &str,
        parts: &mut Vec<Part>,
    ) -> Result<(), FolderFault> {
        let Some(last) = parts.pop() else {
            return Ok(());
        };
        let mut more = with_folder(self.rt, alloc, last, Some(folder), &mut IgnoringListener)?;
        parts.append(&mut more)?;
        Ok(())
    }

    fn has_program(&self, alloc: Global, folders: &str, program: &str) -> Result<bool, AllocError> {
        if program.contains('/') {
            return Ok(!program.starts_with('/') || is_program(self.rt, program));
        }
        for folder in folders.split(':') {
            let path = format!(in alloc; "{folder}/{program}")?;
            if is_program(self.rt, path.as_str()) {
                return Ok(true);
            }
        }
        Ok(false)
    }
}

/// Reports whether there is an executable regular file at the path.
fn is_program(rt: &impl Files, path: &str) -> bool {
    match fs::metadata(rt, path) {
        Ok(found) => found.is_file() && found.mode() & 0o111 != 0,
        Err(_) => false,
    }
}

/// Returns the writer of a file.
fn writer_of(rt: &impl Clock, file: &File) -> Writer {
    match file.metadata() {
        Ok(found) if found.is_file() => match file.try_lock_shared() {
            Ok(()) => Writer::Nobody,
            Err(TryLockError::WouldBlock) => Writer::Init(seconds_since(rt, &found)),
            Err(TryLockError::Error(_)) => Writer::Unknown,
        },
        _ => Writer::Unknown,
    }
}

/// Returns the seconds since a file was last written, by the real-time clock.
fn seconds_since(rt: &impl Clock, found: &Metadata) -> u64 {
    match (rt.since_1970(), u64::try_from(found.mtime())) {
        (Ok(now), Ok(written)) => now.as_secs().saturating_sub(written),
        _ => 0,
    }
}

/// The pause before a file is read again, in milliseconds.
const PAUSE: i32 = 100;

/// The maximum number of pauses, which amounts to about thirteen years.
const PAUSES_LIMIT: u64 = 4_294_967_296;

/// A followed trace: one that has an end, or one that may grow and continue in new files at its path.
#[derive(Drop)]
pub enum GrowingFile<'a, R> {
    Ends(File),
    Grows(TraceReader<'a, R>),
}

/// Waits for one pause, or until the reader of standard output is gone. Reports whether the reader is gone.
fn no_reader_within_pause() -> bool {
    let mut asked = [pollfd {
        fd: 1,
        events: 0,
        revents: 0,
    }];
    poll(&mut asked, PAUSE) > 0
}

/// Waits until there are bytes to read. Fails with `TimedOut` after 4,294,967,296 attempts, and with `BrokenPipe` if
/// the reader of standard output is gone.
fn wait_for_bytes<R: Files<File = File> + Eprint>(
    trace: &mut TraceReader<'_, R>,
    buf: &mut [u8],
) -> io::Result<usize>
    ensures { IfOk result (λ count. count ≤ length buf.old) }
{
    for _ in 0..PAUSES_LIMIT {
        let count = trace.read(buf)?;
        if count > 0 || buf.is_empty() {
            return Ok(count);
        }
        if no_reader_within_pause() {
            return Err(Error::from(ErrorKind::BrokenPipe));
        }
    }
    Err(Error::from(ErrorKind::TimedOut))
}

impl<R: Files<File = File> + Eprint> Read for GrowingFile<'_, R> {
    fn read(&mut self, buf: &mut [u8]) -> io::Result<usize> {
        match self {
            GrowingFile::Ends(file) => file.read(buf),
            GrowingFile::Grows(trace) => wait_for_bytes(trace, buf),
        }
    }
}

impl<R: Files<File = File> + Eprint> LiveTrace for GrowingFile<'_, R> {
    fn read_there(&mut self, buf: &mut [u8]) -> io::Result<usize> {
        match self {
            GrowingFile::Ends(file) => file.read(buf),
            GrowingFile::Grows(trace) => trace.read(buf),
        }
    }
}
