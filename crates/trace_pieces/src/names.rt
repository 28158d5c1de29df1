//! The file names of the pieces of a trace and of their list.

ghost use Rattle.std.specs.Prelude.{◌≡◌, ◌++◌, ◌∷◌, [], filter_map, string_bytes, IfOk, OnOk};
ghost use Rattle.program_io.specs.Known.{IsTextAt, KnownTexts};
ghost use Rattle.trace_pieces.specs.Pieces.{AreNumbers, IsNewest, list_path, name_at, number_in, numbers_among, piece_path};

use program_io::read_all;
use std::alloc::{AllocError, Allocator, Global};
use std::fs::Metadata;
use std::os::unix::fs::MetadataExt;
use std::rt::Files;
use std::{fs, io};
use text_lines::{cut, read_number};

/// Returns the path of a piece.
pub fn piece_path<A: Allocator>(alloc: A, trace: &str, number: u64) -> Result<String<A>, AllocError>
    ensures { IfOk result (λ path. string_bytes path ≡ piece_path trace.now number) }
{
    format!(in alloc; "{trace}.{number}")
}

/// Returns the path of the list of a trace's pieces. A sorted listing of the folder shows it before the pieces.
pub fn list_path<A: Allocator>(alloc: A, trace: &str) -> Result<String<A>, AllocError>
    ensures { IfOk result (λ path. string_bytes path ≡ list_path trace.now) }
{
    format!(in alloc; "{trace}.0.pieces")
}

/// Returns whether two files are the same file.
pub fn are_same(one: &Metadata, other: &Metadata) -> bool {
    one.dev() == other.dev() && one.ino() == other.ino()
}

/// A source of the file names in folders.
///
/// Contracts describe the file names in the folder of a path, if these are known.
pub trait FolderNames {
    /// The file names in the folder of a path; `None` if they are not known.
    ghost names_beside: { Self → KnownTexts };

    /// Returns the file names in the folder of a path, separated by NUL bytes.
    fn read_names(&self, alloc: Global, path: &str) -> io::Result<Vec<u8>>
        ensures { IfOk result (λ names. IsTextAt (names_beside self.now) path.now names.items) };
}

/// The folders of the file system. Contracts know nothing about the names in them.
impl<R: Files> FolderNames for R {
    ghost use Rattle.std.specs.Prelude.{None};

    ghost names_beside = { λ _ _. None };

    fn read_names(&self, alloc: Global, path: &str) -> io::Result<Vec<u8>> {
        let folder = folder_of(path);
        let folder = format!(in alloc; "{folder}/")?;
        read_all(alloc, &mut self.open_dir(folder.as_str())?)
    }
}

/// Returns the folder of a path.
fn folder_of(path: &str) -> &str {
    match path.rsplit_once('/') {
        Some(("", _)) => "/.",
        Some((folder, _)) => folder,
        None => ".",
    }
}

/// Returns the file name in a path.
fn name_at(path: &[u8]) -> &[u8]
    ensures { result.now ≡ name_at path.now }
{
    let mut name = path;
    while let Some((_, after)) = cut(b'/', name) {
        name = after;
    }
    name
}

/// Returns the number in the file name of a piece, given the file name of the trace, or `None` for any other name.
fn number_in(trace: &[u8], name: &[u8]) -> Option<u64>
    ensures { result ≡ number_in trace.now name.now }
{
    let after = name.strip_prefix(trace)?;
    read_number(after.strip_prefix(b".")?)
}

/// Appends the number in a file name, if it is the name of a piece.
fn add_number(numbers: &mut Vec<u64>, trace: &[u8], name: &[u8]) -> Result<(), AllocError>
    ensures { OnOk result (numbers.new.items
        ≡ numbers.old.items ++ filter_map (number_in trace.now) (name.now ∷ [])) }
{
    if let Some(number) = number_in(trace, name) {
        numbers.push(number)?;
    }
    Ok(())
}

/// Returns the numbers of the pieces of a trace whose names are in a list of file names.
fn numbers_among(alloc: Global, trace: &[u8], names: &[u8]) -> Result<Vec<u64>, AllocError>
    ensures { IfOk result (λ numbers. numbers.items ≡ numbers_among trace.now names.now) }
{
    let mut numbers = Vec::new(alloc);
    let mut rest = names;
    while let Some((name, after)) = cut(0, rest) {
        add_number(&mut numbers, trace, name)?;
        rest = after;
    }
    add_number(&mut numbers, trace, rest)?;
    Ok(numbers)
}

/// Returns the numbers of the existing pieces of a trace.
fn numbers_there<N: FolderNames>(names: &N, alloc: Global, trace: &str) -> io::Result<Vec<u64>>
    ensures { IfOk result (λ numbers.
        AreNumbers (N.names_beside names.now) trace.now numbers.items) }
{
    let list = names.read_names(alloc, trace)?;
    Ok(numbers_among(alloc, name_at(trace.as_bytes()), &list)?)
}

/// Returns the greatest number of a trace's pieces, or 0 if there is none.
pub fn newest_piece<N: FolderNames>(names: &N, alloc: Global, trace: &str) -> io::Result<u64>
    ensures { IfOk result (λ newest. IsNewest (N.names_beside names.now) trace.now newest) }
{
    let numbers = numbers_there(names, alloc, trace)?;
    let newest = numbers
        .iter()
        .fold(0u64, |newest, number| newest.max(*number));
    Ok(newest)
}

/// Returns whether the file is the piece with this number.
pub(crate) fn is_piece<R: Files>(
    rt: &R,
    alloc: Global,
    trace: &str,
    number: u64,
    file: &Metadata,
) -> io::Result<bool> {
    let path = piece_path(alloc, trace, number)?;
    Ok(fs::metadata(rt, path.as_str()).is_ok_and(|found| are_same(&found, file)))
}

/// Returns the number of the piece if the file is one, and `None` otherwise.
pub fn number_of_file<R: Files>(
    rt: &R,
    alloc: Global,
    trace: &str,
    file: &Metadata,
) -> io::Result<Option<u64>> {
    for number in &numbers_there(rt, alloc, trace)? {
        if is_piece(rt, alloc, trace, *number, file)? {
            return Ok(Some(*number));
        }
    }
    Ok(None)
}
