//! Appends to the list of a trace's pieces.

use program_io::{Reason, refuse_too_large, write_text};
use std::alloc::Global;
use std::fs::{File, OpenOptions, symlink_metadata};
use std::io;
use std::io::ErrorKind;
use std::os::unix::fs::{FileExt, OpenOptionsExt};
use std::rt::Files;
use trace_pieces::{ListLine, is_list, line_text};

/// The number of bytes at the start of a file that are examined to recognize a list.
const FRONT: usize = 256;

/// Appends a line to the list at `path`. Creates the list with the given mode if it does not exist. Does not follow
/// symbolic links. If the last line of the list is incomplete, a newline is written first. Errors include the path.
pub(crate) fn append_line<R: Files<File = File>>(
    rt: &R,
    alloc: Global,
    path: &str,
    mode: u32,
    line: ListLine,
) -> io::Result<()> {
    match append(rt, alloc, path, mode, line) {
        Err(error) => Err(of_path(alloc, path, &error)),
        Ok(()) => Ok(()),
    }
}

fn append<R: Files<File = File>>(
    rt: &R,
    alloc: Global,
    path: &str,
    mode: u32,
    line: ListLine,
) -> io::Result<()> {
    let mut file = opened(rt, path, mode)?;
    let text = line_text(alloc, line)?;
    let length = file.metadata()?.len();
    if !is_list_front(&file)? {
        return Err(io::Error::other("not a list of pieces"));
    }
    let text = if is_cut_off(&file, length)? {
        format!(in alloc; "\n{text}")?
    } else {
        text
    };
    refuse_too_large(&file, length, text.len())?;
    write_text(&mut file, text.as_bytes())
}

/// Prefixes an error with the path that it concerns.
pub(crate) fn of_path(alloc: Global, path: &str, error: &io::Error) -> io::Error {
    match format!(in alloc; "{path}: {}", Reason(error)) {
        Ok(message) => io::Error::other(message.as_str()),
        Err(error) => io::Error::from(error),
    }
}

/// Opens the list at `path` for reading and appending.
fn opened<R: Files<File = File>>(rt: &R, path: &str, mode: u32) -> io::Result<File> {
    let mut options = OpenOptions::new();
    options.read(true).append(true).mode(mode);
    match symlink_metadata(rt, path) {
        Ok(found) if found.is_file() => options.open(rt, path),
        Ok(_) => Err(io::Error::other("not a regular file")),
        Err(error) if error.kind() == ErrorKind::NotFound => options
            .create_new(true)
            .open(rt, path),
        Err(error) => Err(error),
    }
}

/// Returns whether a file begins with a line of a list, or has no complete line in its first bytes.
fn is_list_front(file: &File) -> io::Result<bool> {
    let mut front = [0; FRONT];
    let count = file.read_at(&mut front, 0)?;
    let front = &front[..count];
    Ok(is_list(front) || !front.contains(&b'\n'))
}

/// Returns whether the last byte of a file of this length is not a newline.
fn is_cut_off(file: &File, length: u64) -> io::Result<bool> {
    if length == 0 {
        return Ok(false);
    }
    let mut last = [b'\n'];
    file.read_at(&mut last, length - 1)?;
    Ok(last != *b"\n")
}
