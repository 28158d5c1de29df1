//! The traits for the files of a trace and for the source of these files.

ghost use Rattle.std.specs.Prelude.{◌≡◌, ◌++◌, ℕ, List, [], Some, IfSome};
ghost use Rattle.std.specs.Io.KnownBytes.{Keeps};

use std::fs::File;
use std::io;
use std::io::Write;

/// The files of a trace, in order. The last one is being written.
///
/// Contracts describe the bytes of all files together, as for a single writer, beginning with the first file.
pub trait TraceFiles: Write {
    /// Returns the number of bytes written to the last file.
    fn length(&self) -> u64;

    /// Prepares the files for writing. Must be called before the first bytes are written; later calls change nothing.
    /// Removes the previous contents of the first file, if an earlier run wrote any.
    fn begin(&mut self, path: &str) -> io::Result<()>
        ensures { Keeps (Self.contents self.old) (Self.contents self.new) };

    /// Puts the last file away as the next piece of the trace at `path`, and continues in a new file. If this fails,
    /// writing continues in the same file. Returns the error, if any, of removing older pieces.
    fn put_away(&mut self, path: &str) -> io::Result<Option<io::Error>>
        ensures { Keeps (Self.contents self.old) (Self.contents self.new) };

    /// Continues in a new file if there is no file at the path of the trace any more; otherwise in the same file.
    fn begin_anew(&mut self, path: &str) -> io::Result<()>
        ensures { Keeps (Self.contents self.old) (Self.contents self.new) };
}

/// The source of the files of a trace, to which they are returned when the trace has ended.
///
/// Contracts describe the bytes written to the returned files.
pub trait Traces {
    /// The files of a trace, which must be returned with `close`.
    type Files: TraceFiles;

    /// The bytes written to the files that were returned, in the order of their return.
    ghost told: { Self → List ℕ };

    /// Returns the files of a trace, the first of which is `file`. Nothing has been written to them. If `most` is
    /// given, at most that number of pieces is kept after a file is put away.
    fn open(&mut self, file: File, most: Option<u64>) -> Self::Files
        ensures nothing { Self.Files.contents result ≡ Some [] }
        ensures told { told self.new ≡ told self.old };

    /// Returns the files to the source.
    fn close(&mut self, files: Self::Files)
        // the bytes of these files, if known, follow the bytes of the files returned before
        ensures { (bytes : List ℕ) × (told self.new ≡ told self.old ++ bytes)
            × IfSome (Self.Files.contents files) (λ taken. taken ≡ bytes) };
}
