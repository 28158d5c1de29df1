//! Sources of the texts that programs read by path.

ghost use Rattle.std.specs.Prelude.{◌≡◌, ◌^◌, ◌<◌, [], List, ℕ, length, IfOk, IfErr, IsSome, OnOk};
ghost use Rattle.std.specs.IoError.{error_kind};
ghost use Rattle.program_io.specs.Known.{IsTextAt, KnownTexts};

use crate::files::{open_plain, read_all};
use crate::takers::{PieceTaker, hand_over};
use std::alloc::Allocator;
use std::fs::File;
use std::io;
use std::io::ErrorKind;
use std::rt::Files;

/// A source of the texts at paths.
///
/// A contract sees the text at a path if it is known. A source may have no known texts at all.
pub trait Texts {
    /// The text at a path; `None` if it is not known.
    ghost text_at: { Self → KnownTexts };

    /// Reads the text at a path into memory of `alloc`. If the text is known, the only error is lack of memory.
    fn read<A: Allocator>(&self, alloc: A, path: &str) -> io::Result<Vec<u8, A>>
        ensures text { IfOk result (λ text. IsTextAt (text_at self.now) path.now text.items) }
        ensures refused { IfErr result (λ why. IsSome (text_at self.now path.now)
            → error_kind why ≡ ErrorKind.OutOfMemory) };

    /// Does the same as `read`, but takes `-` as the name of a file, not as standard input.
    fn read_file<A: Allocator>(&self, alloc: A, path: &str) -> io::Result<Vec<u8, A>>
        ensures text { IfOk result (λ text. IsTextAt (text_at self.now) path.now text.items) }
        ensures refused { IfErr result (λ why. IsSome (text_at self.now path.now)
            → error_kind why ≡ ErrorKind.OutOfMemory) };

    /// Passes the text at a path, in pieces, to a taker that has received nothing yet. If the text is known, the only
    /// error is lack of memory.
    fn read_pieces<P: PieceTaker>(&self, path: &str, taker: &mut P) -> io::Result<()>
        ensures text { OnOk result ((text : List ℕ) × (length text < 2 ^ 64)
            × IsTextAt (text_at self.now) path.now text
            × (P.has_taken taker.old [] → P.has_taken taker.new text)) }
        ensures refused { IfErr result (λ why. IsSome (text_at self.now path.now)
            → error_kind why ≡ ErrorKind.OutOfMemory) };
}

/// Opens a file. A path below `/dev/` may lead to any kind of file, because the system or a shell provides it; any
/// other path must lead to a plain file, because opening a FIFO would block until it has a writer.
fn open_file<R: Files>(rt: &R, path: &str) -> io::Result<R::File> {
    if path.starts_with("/dev/") {
        File::open(rt, path)
    } else {
        open_plain(rt, path)
    }
}

/// Opens standard input for the path `-`, and the file at any other path.
fn open<R: Files>(rt: &R, path: &str) -> io::Result<R::File> {
    match path {
        "-" => File::open(rt, "/dev/stdin"),
        _ => open_file(rt, path),
    }
}

/// The files of the operating system, and standard input at the path `-`. Nothing is known about their texts.
impl<R: Files> Texts for R {
    ghost use Rattle.std.specs.Prelude.{None};

    ghost text_at = { λ _ _. None };

    fn read<A: Allocator>(&self, alloc: A, path: &str) -> io::Result<Vec<u8, A>> {
        read_all(alloc, &mut open(self, path)?)
    }

    fn read_file<A: Allocator>(&self, alloc: A, path: &str) -> io::Result<Vec<u8, A>> {
        read_all(alloc, &mut open_file(self, path)?)
    }

    fn read_pieces<P: PieceTaker>(&self, path: &str, taker: &mut P) -> io::Result<()> {
        hand_over(&mut open(self, path)?, taker)
    }
}
