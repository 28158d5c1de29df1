//! Messages about children. Each line begins with the name of the program and the id.

use crate::names::escape;
use host_lines::{ChildEnd, ChildLine, ChildMessage};
use init_words::{ChildNumber, Id, SignalKind};
use program_io::Reason;
use std::fmt;
use std::io::{Error, ErrorKind};

/// The error number with which waitpid(2) reports that the child does not exist, or no longer exists (ECHILD).
const NO_CHILD: i32 = 10;

/// Reports an event in the life of the id's child: its start or end, a signal sent to it, or a failure.
pub(crate) fn tell_of_child(
    rt: &impl Eprint,
    program: &'static str,
    id: &Id,
    message: &ChildMessage<'_>,
) {
    let id = id.as_str();
    let _ = eprintln!(rt; "{program}: {id}{}", Words { program, message });
    match message {
        ChildMessage::Unwaited { number, error } if error.raw_os_error() == Some(NO_CHILD) => {
            let number = number.0;
            let _ = eprintln!(rt;
                "{program}: {id} (pid {number}): init stops waiting for it, and does not send KILL; if this happens to every child, start {program} with env --default-signal=CHLD"
            );
        }
        _ => {}
    }
}

/// The text of a message after the id.
#[derive(Clone, Copy)]
struct Words<'a> {
    program: &'a str,
    message: &'a ChildMessage<'a>,
}

impl fmt::Display for Words<'_> {
    fn fmt<W: fmt::Write>(&self, f: &mut fmt::Formatter<W>) -> fmt::Result {
        match self.message {
            ChildMessage::Started {
                number,
                start: Some(start),
            } if *start > 1 => write!(f, ": started, {} (start {start})", number.0),
            ChildMessage::Started { number, .. } => write!(f, ": started, {}", number.0),
            ChildMessage::Delayed(seconds) => write!(f, ": waits {seconds} s before it runs"),
            ChildMessage::Ended(end) => write!(f, ": {}", EndWords(*end)),
            ChildMessage::Sent(SignalKind::Term) => f.write_str(": TERM sent"),
            ChildMessage::Sent(SignalKind::Kill) => f.write_str(": KILL sent"),
            ChildMessage::NotBorn { program, error } => add_not_born(f, program, error),
            ChildMessage::Unwaited { number, error } => {
                add_unwaited(f, self.program, *number, error)
            }
            ChildMessage::Waited(number) => write!(
                f,
                " (pid {}): can be waited for again",
                number.0
            ),
            ChildMessage::Unkilled { number, error } => write!(
                f,
                " (pid {}): cannot send KILL: {}; waiting until it exits by itself",
                number.0,
                Reason(error)
            ),
            ChildMessage::LastEnd(end) => write!(f, ": last run: {}", LastEndWords(*end)),
            ChildMessage::Stopped { number, line } => write!(
                f,
                ": {}; stopping its child {}",
                line_words(*line),
                number.0
            ),
            ChildMessage::Left { count: 1, numbers } => write!(
                f,
                " left a process behind:{numbers}"
            ),
            ChildMessage::Left { count, numbers } => {
                write!(f, " left {count} processes behind:{numbers}")
            }
        }
    }
}

/// Writes why a child that was to execute this program could not be started.
fn add_not_born<W: fmt::Write>(
    f: &mut fmt::Formatter<W>,
    program: &[u8],
    error: &Error,
) -> fmt::Result {
    let program = escape(program);
    match error.kind() {
        ErrorKind::NotFound => write!(f, ": {program}: not found"),
        _ => write!(f, ": {program}: {}", Reason(error)),
    }
}

/// Writes why a child cannot be waited for, and the consequence.
fn add_unwaited<W: fmt::Write>(
    f: &mut fmt::Formatter<W>,
    program: &str,
    number: ChildNumber,
    error: &Error,
) -> fmt::Result {
    write!(
        f,
        " (pid {}): cannot wait for it: {}; {program} will not notice when it exits",
        number.0,
        Reason(error)
    )
}

/// How a child ended, as text.
#[derive(Clone, Copy)]
struct EndWords(ChildEnd);

impl fmt::Display for EndWords {
    fn fmt<W: fmt::Write>(&self, f: &mut fmt::Formatter<W>) -> fmt::Result {
        match self.0 {
            ChildEnd::Code(code) => write!(f, "exited with status {code}"),
            ChildEnd::Signal(signal) => write!(f, "killed by signal {signal}"),
            ChildEnd::Unknown => f.write_str("ended"),
        }
    }
}

/// How the last child of an id that is started too often ended, and what that usually means, as text.
#[derive(Clone, Copy)]
struct LastEndWords(ChildEnd);

impl fmt::Display for LastEndWords {
    fn fmt<W: fmt::Write>(&self, f: &mut fmt::Formatter<W>) -> fmt::Result {
        match self.0 {
            ChildEnd::Code(0) => f.write_str(
                "exit 0: a program that puts itself in the background counts as ended",
            ),
            ChildEnd::Code(126) => f.write_str("exit 126: its program could not be executed"),
            ChildEnd::Code(127) => f.write_str("exit 127: its program was not found"),
            ChildEnd::Code(code) => write!(f, "exit {code}"),
            end => write!(f, "{}", EndWords(end)),
        }
    }
}

/// Returns the reason why an inittab that was read again stops a child, as text.
fn line_words(line: ChildLine) -> &'static str {
    match line {
        ChildLine::Gone => "its line was removed",
        ChildLine::Off => "its line is now off",
        ChildLine::ActionChanged => "its action changed",
        ChildLine::NotInLevel => "its line does not name this runlevel",
    }
}
