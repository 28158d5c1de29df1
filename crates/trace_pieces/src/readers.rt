//! Reads a trace together with the pieces that precede it.

use crate::lists::{Piece, PieceList, is_list};
use crate::names::{are_same, is_piece, list_path, newest_piece, piece_path};
use program_io::{PIECES_LIMIT, PieceTaker, Texts, hand_over, open_plain, read_file};
use std::alloc::{Allocator, Global};
use std::fs::{File, Metadata};
use std::io::{Error, ErrorKind, Read, Seek, SeekFrom};
use std::os::unix::fs::MetadataExt;
use std::rt::Files;
use std::{fs, io};

/// The pieces that a reader reads before the file at the path of the trace.
#[derive(Clone, Copy)]
struct ReadPieces {
    /// The number of the first piece.
    first: u64,
    /// The number of the last piece.
    last: u64,
    /// Whether a list confirms that these are all pieces.
    are_listed: bool,
}

/// A reader of a trace, from the beginning of its run.
///
/// If the current file is put away or renamed, the reader reads it to its end. It then continues with the files that
/// follow, up to the end of the file at the path of the trace. If the file is shorter than the number of bytes already
/// read, another run has truncated it, and reading fails with `InvalidData`.
#[derive(Drop)]
pub struct TraceReader<'a, R> {
    rt: &'a R,
    alloc: Global,
    path: String,
    file: File,
    /// The number of bytes read from the file.
    position: u64,
    /// The file that follows the current one, once nothing is written to the current one any more.
    next: Option<File>,
    /// The pieces still to be read before the file at the path, newest first.
    later: Vec<Piece>,
    pieces: Option<ReadPieces>,
    /// Whether the pieces before the first file were removed.
    lacks_front: bool,
}

/// The pieces of a run according to its list.
#[derive(Drop)]
struct ListedPieces {
    /// The pieces that still exist, oldest first.
    pieces: Vec<Piece>,
    /// Whether older pieces were removed.
    lacks_front: bool,
}

impl<'a, R: Files<File = File>> TraceReader<'a, R> {
    /// Opens the file at `path` alone, without any pieces.
    fn alone(rt: &'a R, alloc: Global, path: String) -> io::Result<TraceReader<'a, R>> {
        let file = open_plain(rt, path.as_str())?;
        Ok(TraceReader::of(rt, alloc, path, file))
    }

    /// Creates a reader that reads `file` first, and then the file at `path`.
    fn of(rt: &'a R, alloc: Global, path: String, file: File) -> TraceReader<'a, R> {
        TraceReader {
            rt,
            alloc,
            path,
            file,
            position: 0,
            next: None,
            later: Vec::new(alloc),
            pieces: None,
            lacks_front: false,
        }
    }

    /// Opens the trace at `path`.
    ///
    /// If there is a list of pieces, the pieces of the last run are read before the file. Fails with `NotFound` if a
    /// piece is missing, and with `InvalidData` if its length differs from the list. If there is no list and the file
    /// does not begin with the start of a run, reading begins with the last piece that does.
    fn open(rt: &'a R, alloc: Global, path: &str) -> io::Result<TraceReader<'a, R>> {
        match TraceReader::open_once(rt, alloc, path) {
            // A piece may have been removed since the list was read. The list records a removal before it happens.
            Err(error) if error.kind() == ErrorKind::NotFound => {
                TraceReader::open_once(rt, alloc, path)
            }
            opened => opened,
        }
    }

    /// Opens the trace as `open` does, but reads the list only once.
    fn open_once(rt: &'a R, alloc: Global, path: &str) -> io::Result<TraceReader<'a, R>> {
        let path = pieced_path(rt, alloc, path)?;
        // The list is read after the file was opened, so it has every piece before this file.
        let file = open_plain(rt, path.as_str());
        match listed_pieces(rt, alloc, path.as_str())? {
            Some(
                ListedPieces {
                    pieces,
                    lacks_front,
                },
            ) => {
                let mut reader = TraceReader::with_pieces(rt, alloc, path, file, pieces, true)?;
                reader.lacks_front = lacks_front;
                Ok(reader)
            }
            None => TraceReader::unlisted(rt, alloc, path, file?),
        }
    }

    /// Creates a reader that reads these pieces first, and then `file`, which was at `path`.
    fn with_pieces(
        rt: &'a R,
        alloc: Global,
        path: String,
        file: io::Result<File>,
        mut pieces: Vec<Piece>,
        are_listed: bool,
    ) -> io::Result<TraceReader<'a, R>> {
        let Some(last) = pieces.last().copied() else {
            return Ok(TraceReader::of(rt, alloc, path, file?));
        };
        for piece in &pieces {
            let _ = open_piece(rt, alloc, path.as_str(), *piece)?;
        }
        pieces.reverse();
        let first = pieces.pop().unwrap_or(last);
        let file = open_piece(rt, alloc, path.as_str(), first)?;
        let mut reader = TraceReader::of(rt, alloc, path, file);
        reader.later = pieces;
        reader.pieces = Some(ReadPieces {
            first: first.number,
            last: last.number,
            are_listed,
        });
        Ok(reader)
    }

    /// Opens the trace at `path`, which has no list of pieces. `file` was at that path.
    fn unlisted(
        rt: &'a R,
        alloc: Global,
        path: String,
        mut file: File,
    ) -> io::Result<TraceReader<'a, R>> {
        if begins_run(&mut file)? {
            return Ok(TraceReader::of(rt, alloc, path, file));
        }
        let mut pieces = Vec::new(alloc);
        for number in (1..=newest_piece(rt, alloc, path.as_str())?).rev() {
            let length = None;
            let piece = Piece { number, length };
            pieces.push(piece)?;
            if begins_run(&mut open_piece(rt, alloc, path.as_str(), piece)?)? {
                pieces.reverse();
                return TraceReader::with_pieces(rt, alloc, path, Ok(file), pieces, false);
            }
        }
        Ok(TraceReader::of(rt, alloc, path, file))
    }

    /// Opens the file at the path. Returns `None` if there is none, for example after the file was renamed and is still
    /// being written.
    fn found(&self) -> io::Result<Option<File>> {
        match open_plain(self.rt, self.path.as_str()) {
            Ok(found) => Ok(Some(found)),
            Err(error) if error.kind() == ErrorKind::NotFound => Ok(None),
            Err(error) => Err(error),
        }
    }

    /// Returns the listed pieces after this file, newest first, or none if the file is not a piece. Fails if the file
    /// was removed, because pieces after it may have been removed too.
    fn pieces_after(&self, file: &Metadata) -> io::Result<Vec<Piece>> {
        let path = self.path.as_str();
        let mut later = Vec::new(self.alloc);
        let Some(listed) = listed_pieces(self.rt, self.alloc, path)? else {
            return Ok(later);
        };
        for piece in listed.pieces.iter().rev() {
            if is_piece(self.rt, self.alloc, path, piece.number, file)? {
                return Ok(later);
            }
            later.push(*piece)?;
        }
        if listed.lacks_front && file.nlink() == 0 {
            return Err(is_taken_since());
        }
        Ok(Vec::new(self.alloc))
    }

    /// Opens a piece that follows the current file in the list.
    fn open_later(&self, piece: Piece) -> io::Result<File> {
        let path = self.path.as_str();
        match open_piece(self.rt, self.alloc, path, piece) {
            Err(error) if error.kind() == ErrorKind::NotFound && self.is_taken(piece)? => {
                Err(is_taken_since())
            }
            opened => opened,
        }
    }

    /// Returns whether a listed piece was removed.
    fn is_taken(&self, piece: Piece) -> io::Result<bool> {
        match listed_pieces(self.rt, self.alloc, self.path.as_str())? {
            Some(listed) => Ok(
                listed.lacks_front
                    && !listed
                        .pieces
                        .iter()
                        .any(|other| other.number == piece.number),
            ),
            None => Ok(false),
        }
    }

    /// Returns the file that follows the current one. Returns `None` if the current one is the file at the path, or if
    /// no file is at the path yet.
    fn successor(&mut self) -> io::Result<Option<File>> {
        if let Some(piece) = self.later.pop() {
            return self.open_later(piece).map(Some);
        }
        // The list is read after the file at the path was opened, so it has every piece between the two.
        let Some(found) = self.found()? else {
            return Ok(None);
        };
        let current = self.file.metadata()?;
        if are_same(&found.metadata()?, &current) {
            return self.refuse_begun_anew(&current);
        }
        self.later = self.pieces_after(&current)?;
        match self.later.pop() {
            Some(piece) => self.open_later(piece).map(Some),
            None => Ok(Some(found)),
        }
    }

    /// Fails if the file is shorter than the number of bytes already read; otherwise returns that no file follows.
    fn refuse_begun_anew(&self, found: &Metadata) -> io::Result<Option<File>> {
        if found.len() < self.position {
            let message = "another run has started it anew; run follow again";
            return Err(Error::new(ErrorKind::InvalidData, message));
        }
        Ok(None)
    }

    /// Returns the number of the first piece.
    fn first_number(&self) -> u64 {
        match self.pieces {
            Some(pieces) => pieces.first,
            None => 0,
        }
    }

    /// Returns the error for a run whose first pieces are missing.
    fn without_front(&self) -> Error {
        let first = self.first_number();
        let message = format!(in self.alloc;
            "pieces before {first} were removed by --trace-keep; see initview follow -n"
        );
        match message {
            Ok(message) => Error::new(ErrorKind::NotFound, message.as_str()),
            Err(error) => Error::from(error),
        }
    }

    /// Fails if the first existing file looks like the beginning of a run.
    fn refuse_new_run(&mut self) -> io::Result<()> {
        if !begins_run(&mut self.file)? {
            return Ok(());
        }
        let first = self.first_number();
        let message = format!(in self.alloc;
            "piece {first}, the oldest that --trace-keep left, begins with use; run follow later"
        )?;
        Err(Error::new(ErrorKind::InvalidData, message.as_str()))
    }

    /// Continues with the next file at the end of the current one. After finding the next file, the reader first reads
    /// the current one to its end once more. Returns false if there is no next file.
    fn go_on(&mut self) -> io::Result<bool> {
        if let Some(file) = self.next.take() {
            self.file = file;
            self.position = 0;
            return Ok(true);
        }
        self.next = self.successor()?;
        Ok(self.next.is_some())
    }
}

/// Returns the error for a piece that was removed before the reader reached it.
fn is_taken_since() -> Error {
    let message = "a piece was removed before it was read; try again";
    Error::new(ErrorKind::InvalidData, message)
}

/// Returns the path of a trace. If that is a symbolic link without pieces beside it, returns the path of its target,
/// if the target has pieces.
fn pieced_path<R: Files>(rt: &R, alloc: Global, path: &str) -> io::Result<String> {
    let copy = String::from_str(alloc, path)?;
    let is_link = fs::symlink_metadata(rt, path).is_ok_and(|found| found.is_symlink());
    if !is_link || has_pieces(rt, alloc, path)? {
        return Ok(copy);
    }
    let Ok(file) = rt.canonicalize(alloc, path) else {
        return Ok(copy);
    };
    let file = String::from_str(alloc, file.as_path().as_str())?;
    if has_pieces(rt, alloc, file.as_str())? {
        return Ok(file);
    }
    Ok(copy)
}

/// Returns whether the folder of a trace has pieces of the trace, or a list of pieces.
fn has_pieces<R: Files>(rt: &R, alloc: Global, path: &str) -> io::Result<bool> {
    let list = list_path(alloc, path)?;
    Ok(fs::metadata(rt, list.as_str()).is_ok() || newest_piece(rt, alloc, path)? > 0)
}

/// Returns the listed pieces of the last run, oldest first, or `None` if there is no list with any valid line. The file
/// at the path of the trace is not among them.
fn listed_pieces<R: Files<File = File>>(
    rt: &R,
    alloc: Global,
    path: &str,
) -> io::Result<Option<ListedPieces>> {
    let text = match read_file(rt, alloc, list_path(alloc, path)?.as_str()) {
        Ok(text) => text,
        Err(error) if error.kind() == ErrorKind::NotFound => return Ok(None),
        Err(error) => return Err(error),
    };
    if !is_list(&text) {
        return Ok(None);
    }
    let list = PieceList::read(alloc, &text)?;
    let is_empty = fs::metadata(rt, path).is_ok_and(|found| found.len() == 0);
    let has_next = match list.next_number() {
        Some(number) => stands_apart(rt, alloc, path, number)?,
        None => false,
    };
    Ok(Some(ListedPieces {
        lacks_front: list.lacks_front(is_empty),
        pieces: list.into_pieces(is_empty, has_next)?,
    }))
}

/// Returns whether there is a piece with this number that is neither the file at the path of the trace nor a copy of
/// it.
fn stands_apart<R: Files<File = File>>(
    rt: &R,
    alloc: Global,
    path: &str,
    number: u64,
) -> io::Result<bool> {
    let piece = piece_path(alloc, path, number)?;
    let Ok(piece) = open_plain(rt, piece.as_str()) else {
        return Ok(false);
    };
    match open_plain(rt, path) {
        Ok(file) => Ok(!have_one_text(piece, file)?),
        Err(_) => Ok(true),
    }
}

/// The number of bytes of two files that are compared at a time.
const COMPARED: usize = 4096;

/// Returns whether two files have the same bytes.
fn have_one_text(mut one: File, mut other: File) -> io::Result<bool> {
    let found = one.metadata()?;
    if are_same(&found, &other.metadata()?) {
        return Ok(true);
    }
    if found.len() != other.metadata()?.len() {
        return Ok(false);
    }
    let mut bytes = [0; COMPARED];
    let mut others = [0; COMPARED];
    for _ in 0..PIECES_LIMIT {
        let count = one.read(&mut bytes)?;
        if count == 0 {
            return Ok(true);
        }
        if other.read_exact(&mut others[..count]).is_err() || bytes[..count] != others[..count] {
            return Ok(false);
        }
    }
    Ok(true)
}

/// Opens a piece, and checks that it has the length given in the list.
fn open_piece<R: Files<File = File>>(
    rt: &R,
    alloc: Global,
    path: &str,
    piece: Piece,
) -> io::Result<File> {
    let Piece { number, length } = piece;
    if number == 0 {
        return Err(is_gone(alloc, path, length.unwrap_or(0)));
    }
    let path = piece_path(alloc, path, number)?;
    let file = match open_plain(rt, path.as_str()) {
        Ok(file) => file,
        Err(error) if error.kind() == ErrorKind::NotFound => {
            let message = format!(in alloc; "{path} is missing")?;
            return Err(Error::new(ErrorKind::NotFound, message.as_str()));
        }
        Err(error) => return Err(error),
    };
    let found = file.metadata()?.len();
    if piece.is_whole(found) {
        return Ok(file);
    }
    let listed = length.unwrap_or(0);
    let message = format!(in alloc;
        "{path} has {found} bytes, but had {listed} when it was rotated"
    )?;
    Err(Error::new(ErrorKind::InvalidData, message.as_str()))
}

/// Returns the error for a file of the run that was renamed to a name that no piece can have.
fn is_gone(alloc: Global, path: &str, length: u64) -> Error {
    let message = format!(in alloc;
        "{length} bytes of {path} are missing: the file was given a name that no piece has"
    );
    match message {
        Ok(message) => Error::new(ErrorKind::NotFound, message.as_str()),
        Err(error) => Error::from(error),
    }
}

/// Returns whether a file begins with the start of a run, which is a `use` line. Leaves the position at the first byte.
fn begins_run(file: &mut File) -> io::Result<bool> {
    let mut first = [0; 1];
    let count = file.read(&mut first)?;
    file.seek(SeekFrom::Start(0))?;
    Ok(count > 0 && first == *b"u")
}

impl<R: Files<File = File>> Read for TraceReader<'_, R> {
    /// Returns 0 at the end of the trace. Fails with `FileTooLarge` if the trace has more than 4,294,967,296 files.
    fn read(&mut self, buf: &mut [u8]) -> io::Result<usize> {
        for _ in 0..PIECES_LIMIT {
            let count = self.file.read(buf)?;
            if count > 0 || buf.is_empty() {
                self.position = self.position.saturating_add(count as u64);
                return Ok(count);
            }
            if !self.go_on()? {
                return Ok(0);
            }
        }
        Err(Error::from(ErrorKind::FileTooLarge))
    }
}

/// Returns whether a path is `-` or is in `/dev`, such as the path of a pipe from the shell. Such a file has no pieces.
pub fn is_given(path: &str) -> bool {
    path == "-" || path.starts_with("/dev/")
}

/// The files of the file system, with each trace read together with the pieces that precede it. The program reports
/// these pieces on standard error. Contracts know nothing about the contents of the files.
#[derive(Drop)]
pub struct PiecedFiles<'a, R> {
    rt: &'a R,
    alloc: Global,
    program: &'a str,
    is_shown: bool,
}

impl<'a, R: Files<File = File> + Eprint> PiecedFiles<'a, R> {
    /// Creates access to the files for the program of this name. If a piece is missing or its length differs from the
    /// list, then with `is_shown`, a message is printed and the trace is read without its pieces; otherwise, reading
    /// fails with `NotFound` or `InvalidData`.
    pub fn new(rt: &'a R, alloc: Global, program: &'a str, is_shown: bool) -> PiecedFiles<'a, R> {
        PiecedFiles {
            rt,
            alloc,
            program,
            is_shown,
        }
    }

    /// Opens the trace at `path`, from its first existing piece on. Prints a message if earlier pieces were removed.
    pub fn open(&self, path: &str) -> io::Result<TraceReader<'a, R>> {
        let mut trace = self.opened(path)?;
        if trace.lacks_front {
            trace.refuse_new_run()?;
            let (program, lacking) = (self.program, trace.without_front());
            let _ = eprintln!(self.rt; "{program}: {lacking}");
        }
        tell_pieces(self.rt, self.program, trace.path.as_str(), trace.pieces);
        Ok(trace)
    }

    /// Opens the trace at `path`, from the beginning of its run. Fails with `NotFound` if earlier pieces were removed.
    fn open_whole(&self, path: &str) -> io::Result<TraceReader<'a, R>> {
        let trace = self.opened(path)?;
        if trace.lacks_front {
            return Err(trace.without_front());
        }
        tell_pieces(self.rt, self.program, trace.path.as_str(), trace.pieces);
        Ok(trace)
    }

    /// Opens the existing part of the trace at `path`.
    fn opened(&self, path: &str) -> io::Result<TraceReader<'a, R>> {
        match TraceReader::open(self.rt, self.alloc, path) {
            Ok(trace) => Ok(trace),
            Err(error) if self.is_shown && is_of_pieces(&error) => {
                let copy = String::from_str(self.alloc, path)?;
                let trace = TraceReader::alone(self.rt, self.alloc, copy)?;
                let program = self.program;
                let _ = eprintln!(self.rt; "{program}: {error}");
                Ok(trace)
            }
            Err(error) => Err(error),
        }
    }
}

/// Returns whether the error means that a piece is missing or has been replaced.
fn is_of_pieces(error: &Error) -> bool {
    matches!(error.kind(), ErrorKind::NotFound | ErrorKind::InvalidData)
}

/// Reports which pieces are read before the trace's own file.
fn tell_pieces<R: Eprint>(rt: &R, program: &str, path: &str, pieces: Option<ReadPieces>) {
    let Some(
        ReadPieces {
            first,
            last,
            are_listed,
        },
    ) = pieces
    else {
        return;
    };
    let _ = if first == last {
        eprintln!(rt; "{program}: {path}.{first} is read before {path}")
    } else {
        eprintln!(rt; "{program}: {path}.{first} to {path}.{last} are read before {path}")
    };
    if !are_listed {
        let _ = eprintln!(rt;
            "{program}: {path}.0.pieces does not exist, so a missing newer piece is not noticed"
        );
    }
}

impl<R: Files<File = File> + Eprint> Texts for PiecedFiles<'_, R> {
    ghost use Rattle.std.specs.Prelude.{None};

    ghost text_at = { λ _ _. None };

    fn read<A: Allocator>(&self, alloc: A, path: &str) -> io::Result<Vec<u8, A>> {
        self.rt.read(alloc, path)
    }

    fn read_file<A: Allocator>(&self, alloc: A, path: &str) -> io::Result<Vec<u8, A>> {
        self.rt.read_file(alloc, path)
    }

    /// Reads the text of a trace, from the beginning of its run.
    fn read_pieces<P: PieceTaker>(&self, path: &str, taker: &mut P) -> io::Result<()> {
        if is_given(path) {
            return self.rt.read_pieces(path, taker);
        }
        hand_over(&mut self.open_whole(path)?, taker)
    }
}
