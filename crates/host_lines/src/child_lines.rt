//! The messages of a host about a child.

use crate::costs::ChildLine;
use init_words::{ChildNumber, SignalKind};
use std::io::Error;

/// How a child ended.
#[derive(Clone, Copy)]
pub enum ChildEnd {
    /// It exited with this status.
    Code(u32),
    /// It was killed by the signal with this number.
    Signal(u32),
    /// The system reports neither.
    Unknown,
}

/// An event in the life of a child: its start or end, a signal sent to it, or a failure.
#[derive(Clone, Copy)]
pub enum ChildMessage<'a> {
    /// It was started. `start` counts the starts of its id from 1; it is `None` if the count is not known.
    Started {
        number: ChildNumber,
        start: Option<u64>,
    },
    /// It was started, and waits for this number of seconds before it executes its program.
    Delayed(u16),
    Ended(ChildEnd),
    Sent(SignalKind),
    /// The child, which was to execute this program, could not be started.
    NotBorn {
        program: &'a [u8],
        error: &'a Error,
    },
    /// It cannot be waited for. If the system has no child with its number, looks do not ask the system again.
    Unwaited {
        number: ChildNumber,
        error: &'a Error,
    },
    /// It can be waited for again.
    Waited(ChildNumber),
    /// KILL cannot be sent to it, so init waits until it ends on its own.
    Unkilled {
        number: ChildNumber,
        error: &'a Error,
    },
    /// How the last child of an id that is started too often ended.
    LastEnd(ChildEnd),
    /// It is stopped because of the inittab that was read again, for the reason in `line`.
    Stopped {
        number: ChildNumber,
        line: ChildLine,
    },
    /// It left this many processes running. `numbers` has their numbers, each preceded by a blank.
    Left {
        count: u32,
        numbers: &'a str,
    },
}
