//! A printer that puts the time in front of init's lines.

use jiff::Timestamp;
use program_io::StandardOutput;
use std::alloc::{AllocError, Allocator, Global};
use std::cell::Cell;
use std::fmt::{Display, Write};
use std::io::ErrorKind;
use std::rt::{Clock, Files};
use std::{fmt, io};

/// The number of bytes that are added to a line: the time with the blank after it, and the newline.
const STAMP: usize = 22;

/// A printer that prints through a runtime, but never waits for a reader.
///
/// If standard output or standard error has no room for a line, the line is dropped, which is an error. The next line
/// that can be printed there is preceded by a message on standard error that says how many lines were dropped.
///
/// If requested, each line begins with the system time, in Coordinated Universal Time to the second:
/// `2026-01-31T07:15:00Z `. If the system has no time, or there is no memory for the longer line, the line is printed
/// without it.
#[derive(Clone, Drop)]
pub struct StampedPrinter<R: Clone + Drop> {
    runtime: R,
    alloc: Global,
    is_stamped: bool,
    output: LeftOut,
    errors: LeftOut,
}

impl<R: Clone + Drop> StampedPrinter<R> {
    /// Creates a printer that prints through this runtime. `is_stamped` says whether lines begin with the time.
    pub fn new(runtime: R, alloc: Global, is_stamped: bool) -> StampedPrinter<R> {
        StampedPrinter {
            runtime,
            alloc,
            is_stamped,
            output: LeftOut::none(),
            errors: LeftOut::none(),
        }
    }
}

/// The number of lines dropped from an output since a line was last printed there, and the reason for dropping the
/// last one.
#[derive(Clone, Drop)]
struct LeftOut {
    lines: Cell<u64>,
    is_too_large: Cell<bool>,
}

impl LeftOut {
    /// Creates the state in which no line was dropped.
    fn none() -> LeftOut {
        LeftOut {
            lines: Cell::new(0),
            is_too_large: Cell::new(false),
        }
    }

    /// Counts one more dropped line.
    fn note(&self, error: &io::Error) {
        self.lines.set(self.lines.get().saturating_add(1));
        self.is_too_large
            .set(error.kind() == ErrorKind::FileTooLarge);
    }

    /// Returns the message about the dropped lines of the output with this name, or `None` if there are none, and
    /// resets their count.
    fn told(&self, name: &'static str) -> Option<LeftOutLine> {
        match self.lines.replace(0) {
            0 => None,
            lines => Some(LeftOutLine {
                lines,
                is_too_large: self.is_too_large.get(),
                name,
            }),
        }
    }
}

/// The message about the dropped lines of an output.
#[derive(Clone, Copy)]
struct LeftOutLine {
    lines: u64,
    is_too_large: bool,
    name: &'static str,
}

impl Display for LeftOutLine {
    fn fmt<W: fmt::Write>(&self, f: &mut fmt::Formatter<W>) -> fmt::Result {
        let (lines, name) = (self.lines, self.name);
        let were = if lines == 1 { " was" } else { "s were" };
        let why = if self.is_too_large {
            "ulimit -f left no room in"
        } else {
            "nobody read"
        };
        write!(f, "initd: {lines} line{were} dropped: {why} {name}")
    }
}

/// A line preceded by the time in the form of RFC 3339, to the second.
#[derive(Drop)]
struct TimedLine<D: Display + Drop> {
    time: Timestamp,
    line: D,
}

impl<D: Display + Drop> Display for TimedLine<D> {
    fn fmt<W: fmt::Write>(&self, f: &mut fmt::Formatter<W>) -> fmt::Result {
        write!(f, "{} {}", self.time, self.line)
    }
}

/// The length of a text in bytes.
#[derive(Drop)]
struct Length(usize);

impl fmt::Write for Length {
    fn write_str(&mut self, text: &str) -> fmt::Result {
        self.0 = self.0.saturating_add(text.len());
        Ok(())
    }
}

/// Returns the maximum length of a line in bytes, including the time in front of it and its newline.
fn line_length<D: Display>(line: &D) -> usize {
    let mut length = Length(STAMP);
    let _ = write!(length, "{line}");
    length.0
}

/// Puts the time in front of each line of a text.
fn timed(alloc: Global, time: Timestamp, text: &[u8]) -> Result<Vec<u8>, AllocError> {
    let stamp = format!(in alloc; "{time} ")?;
    let mut timed = Vec::new(alloc);
    for line in text.split_inclusive(|byte| *byte == b'\n') {
        timed.extend_from_slice(stamp.as_bytes())?;
        timed.extend_from_slice(line)?;
    }
    Ok(timed)
}

impl<R: Clock + Clone + Drop> StampedPrinter<R> {
    /// Returns the time to put in front of a line now, if any.
    fn stamp(&self) -> Option<Timestamp> {
        if !self.is_stamped {
            return None;
        }
        let since = self.runtime.since_1970().ok()?;
        let seconds = i64::try_from(since.as_secs()).ok()?;
        Timestamp::from_second(seconds).ok()
    }
}

impl<R: Eprint + Files + Clock + Clone + Drop> StampedPrinter<R> {
    /// Prints a line on standard error, with the time in front.
    fn tell<D: Display + Drop>(&self, line: D) -> io::Result<()> {
        match self.stamp() {
            Some(time) => self.runtime.eprintln(TimedLine { time, line }),
            None => self.runtime.eprintln(line),
        }
    }

    /// Returns an error, and counts a dropped line, if standard error has no room for this many bytes. If it has, the
    /// lines dropped before are reported.
    fn make_error_room(&self, length: usize) -> io::Result<()> {
        if let Err(error) = StandardOutput::Error.refuse_waiting(&self.runtime, length) {
            self.errors.note(&error);
            return Err(error);
        }
        match self.errors.told("standard error") {
            Some(line) => self.tell(line),
            None => Ok(()),
        }
    }

    /// Does the same for standard output. The lines dropped before are reported on standard error.
    fn make_output_room(&self, length: usize) -> io::Result<()> {
        if let Err(error) = StandardOutput::Output.refuse_waiting(&self.runtime, length) {
            self.output.note(&error);
            return Err(error);
        }
        if let Some(line) = self.output.told("standard output") {
            let _ = self.eprintln(line);
        }
        Ok(())
    }
}

impl<R: Print + Eprint + Files + Clock + Clone + Drop> StampedPrinter<R> {
    /// Prints lines on standard output, as far as it has room for them.
    fn write_lines(&self, text: &[u8]) -> io::Result<()> {
        let mut written = Ok(());
        for line in text.split_inclusive(|byte| *byte == b'\n') {
            match self.make_output_room(line.len()) {
                Ok(()) => self.runtime.write_all(line)?,
                refused => written = refused,
            }
        }
        written
    }
}

impl<R: Print + Eprint + Files + Clock + Clone + Drop> Print for StampedPrinter<R> {
    fn print<D: Display + Drop>(&self, value: D) -> io::Result<()> {
        self.make_output_room(line_length(&value))?;
        self.runtime.print(value)
    }

    fn println<D: Display + Drop>(&self, value: D) -> io::Result<()> {
        self.make_output_room(line_length(&value))?;
        match self.stamp() {
            Some(time) => self.runtime.println(TimedLine { time, line: value }),
            None => self.runtime.println(value),
        }
    }

    fn write_all(&self, bytes: &[u8]) -> io::Result<()> {
        match self.stamp() {
            Some(time) => match timed(self.alloc, time, bytes) {
                Ok(text) => self.write_lines(&text),
                Err(_) => self.write_lines(bytes),
            },
            None => self.write_lines(bytes),
        }
    }
}

impl<R: Eprint + Files + Clock + Clone + Drop> Eprint for StampedPrinter<R> {
    fn eprint<D: Display + Drop>(&self, value: D) -> io::Result<()> {
        self.make_error_room(line_length(&value))?;
        self.runtime.eprint(value)
    }

    fn eprintln<D: Display + Drop>(&self, value: D) -> io::Result<()> {
        self.make_error_room(line_length(&value))?;
        self.tell(value)
    }
}
