//! Writes and removes the first bytes of a text.

ghost use Rattle.std.specs.Prelude.{◌≡◌, ◌≤◌, length, take, drop, IfNone};
ghost use Rattle.std.specs.Io.KnownBytes.{Appends};

use std::io;
use std::io::{ErrorKind, Write};

/// Writes a text up to the first error. Returns the number of bytes written, and the error if they are not all of the
/// text.
pub(crate) fn write_front<W: Write>(out: &mut W, text: &[u8]) -> (usize, Option<io::Error>)
    ensures written { Appends (W.contents out.old) (W.contents out.new) (take result.0 text.now) }
    ensures most { result.0 ≤ length text.now }
    ensures all { IfNone result.1 (result.0 ≡ length text.now) }
{
    let mut done = 0;
    while done < text.len() {
        match out.write(&text[done..]) {
            Ok(0) => return (done, Some(io::Error::from(ErrorKind::WriteZero))),
            Ok(taken) => done += taken,
            Err(error) => return (done, Some(error)),
        }
    }
    (done, None)
}

/// Removes the first `count` bytes.
pub(crate) fn drop_front(bytes: &mut Vec<u8>, count: usize)
    requires { count ≤ length bytes.old.items }
    ensures { bytes.new.items ≡ drop count bytes.old.items }
{
    let rest = bytes.len() - count;
    bytes.rotate_left(count);
    bytes.truncate(rest);
}
