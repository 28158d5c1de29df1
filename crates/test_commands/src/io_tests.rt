//! Tests of writers and readers that accept or return little at a time, or fail in the middle, and of the arguments of
//! a program.

use program_io::{
    Reports, only_byte, read_all, report_unread_words, unread_status, words, write_texts,
};
use std::alloc::Global;
use std::env::{Env, FillError};
use std::io;
use std::io::{ErrorKind, Read, Write};
use std::process::Abort;
use telinit_command::MANUAL;
use test_support::Slow;

/// The room of a writer, whether it fails when full, the result of writing `request`, and the bytes written.
const WRITES: &[(usize, bool, Option<ErrorKind>, &[u8])] = &[
    (9, false, None, b"request"),
    (7, false, None, b"request"),
    (7, true, None, b"request"),
    (3, false, Some(ErrorKind::WriteZero), b"req"),
    (3, true, Some(ErrorKind::BrokenPipe), b"req"),
    (0, false, Some(ErrorKind::WriteZero), b""),
    (0, true, Some(ErrorKind::BrokenPipe), b""),
];

/// Returns the error of writing `request` in parts, if any.
fn fault_at(slow: &mut Slow) -> Option<ErrorKind> {
    match write_texts(slow, &["req", "", "uest"]) {
        Ok(()) => None,
        Err(error) => Some(error.kind()),
    }
}

#[test]
fn slow_writers_take_it_all(rt: HostRuntime) {
    for (room, fails, fault, taken) in WRITES {
        let mut slow = Slow::new(rt.alloc(), *room, *fails, false);
        let is_written = fault_at(&mut slow) == *fault && slow.taken.as_slice() == *taken;
        assert!(rt; is_written, "room for {room}, {fails}");
    }
}

/// A reader that returns the byte `x`, one per read, `remaining` times. After that it fails, or is at its end.
#[derive(Drop)]
struct Drops {
    remaining: usize,
    fails: bool,
}

impl Read for Drops {
    fn read(&mut self, buf: &mut [u8]) -> io::Result<usize> {
        let [first, ..] = buf else {
            return Ok(0);
        };
        if self.remaining > 0 {
            self.remaining -= 1;
            *first = b'x';
            return Ok(1);
        }
        if self.fails {
            return Err(io::Error::from(ErrorKind::BrokenPipe));
        }
        Ok(0)
    }
}

/// The number of bytes that a reader returns, whether it fails after them, and the number of bytes read or the error.
/// There are at most 1,000,000 reads, including the last, which returns no byte.
const READS: &[(usize, bool, Result<usize, ErrorKind>)] = &[
    (0, false, Ok(0)),
    (7, false, Ok(7)),
    (0, true, Err(ErrorKind::BrokenPipe)),
    (7, true, Err(ErrorKind::BrokenPipe)),
    (999_999, false, Ok(999_999)),
    (1_000_000, false, Err(ErrorKind::FileTooLarge)),
];

/// Returns the number of bytes read, all of which must be `x`, or the error.
fn count_of(read: io::Result<Vec<u8>>) -> Result<usize, ErrorKind> {
    match read {
        Err(error) => Err(error.kind()),
        Ok(bytes) => {
            if bytes.iter().all(|byte| *byte == b'x') {
                Ok(bytes.len())
            } else {
                Err(ErrorKind::InvalidData)
            }
        }
    }
}

fn is_counted(
    alloc: Global,
    remaining: usize,
    fails: bool,
    want: Result<usize, ErrorKind>,
) -> bool {
    let mut from = Drops { remaining, fails };
    count_of(read_all(alloc, &mut from)) == want && from.remaining == 0
}

#[test]
fn slow_readers_are_read_to_their_end(rt: HostRuntime) {
    for (remaining, fails, want) in READS {
        assert!(rt;
            is_counted(rt.alloc(), *remaining, *fails, *want),
            "{remaining} bytes"
        );
    }
}

/// A command line, including the program's name.
#[derive(Clone, Copy, Drop)]
struct Line(&'static [&'static [u8]]);

impl Env for Line {
    fn arg(&self, i: usize, buf: &mut [u8]) -> Result<usize, FillError> {
        let Some(word) = self.0.get(i) else {
            return Err(FillError::NotPresent);
        };
        if buf.len() < word.len() {
            return Err(FillError::TooLong);
        }
        buf[..word.len()].copy_from_slice(word);
        Ok(word.len())
    }

    fn var(&self, _name: &str, _buf: &mut [u8]) -> Result<usize, FillError> {
        Err(FillError::NotPresent)
    }

    fn var_at(&self, _i: usize, _buf: &mut [u8]) -> Result<usize, FillError> {
        Err(FillError::NotPresent)
    }
}

/// Command lines and the arguments after the name; none if an argument is not UTF-8.
const LINES: &[(&[&[u8]], Option<&[&str]>)] = &[
    (
        &[b"telinit", b"-t", b"0", b"", b"\xc3\xa9"],
        Some(&["-t", "0", "", "é"]),
    ),
    (&[b"telinit"], Some(&[])),
    (&[], Some(&[])),
    (&[b"telinit", b"q", b"\xff"], None),
];

/// Reports whether reading a command line had this result.
fn is_read(read: &io::Result<Vec<String>>, want: Option<&[&str]>) -> bool {
    match (read, want) {
        (Ok(words), Some(want)) => {
            words.len() == want.len()
                && words
                    .iter()
                    .zip(want)
                    .all(|(word, want)| word.as_str() == *want)
        }
        (Err(error), None) => error.kind() == ErrorKind::InvalidData,
        _ => false,
    }
}

#[test]
fn words_begin_behind_the_name(rt: HostRuntime) {
    for (line, want) in LINES {
        assert!(rt;
            is_read(&words(&(Line(line), rt.alloc()), rt.alloc()), *want),
            "{} words",
            line.len()
        );
    }
}

const WORDS: &[(&str, Option<u8>)] = &[
    ("", None),
    ("q", Some(b'q')),
    (" ", Some(b' ')),
    ("qq", None),
    ("é", None),
];

#[test]
fn only_bytes(rt: HostRuntime) {
    for (word, byte) in WORDS {
        assert!(rt; only_byte(word) == *byte, "{word}");
    }
}

/// A program and its usage, the error of reading its arguments, and the exit status and the message.
const UNREAD: &[(&str, &str, ErrorKind, u8, &str)] = &[
    (
        "telinit",
        MANUAL,
        ErrorKind::OutOfMemory,
        4,
        "telinit: out of memory: nothing was written; free some memory and try again\n",
    ),
    ("telinit", MANUAL, ErrorKind::InvalidData, 1, MANUAL),
    (
        "initd",
        "usage\n",
        ErrorKind::OutOfMemory,
        4,
        "initd: out of memory: nothing was written; free some memory and try again\n",
    ),
    ("initd", "usage\n", ErrorKind::InvalidData, 1, "usage\n"),
];

#[test]
fn unread_words_are_reported(rt: HostRuntime) {
    for (name, usage, kind, status, report) in UNREAD {
        let error = io::Error::from(*kind);
        let mut err = Reports::to(Vec::<u8>::new(rt.alloc()));
        let reported = report_unread_words(name, usage, &error, &mut err);
        let is_reported = reported == *status && unread_status(&error) == *status;
        assert!(rt;
            is_reported && err.writer().as_slice() == report.as_bytes(),
            "{report}"
        );
    }
}
