//! The lines that a host reports.

use crate::child_lines::ChildMessage;
use init_words::Id;
use initctl_frame::Cause;
use std::io::Error;

/// An operation that may fail and later work again.
#[derive(Clone, Copy, PartialEq)]
pub enum Doing {
    /// Listening to a bell.
    Hear,
    /// Reading a file or the clock.
    Read,
    /// Writing output.
    Write,
    /// Writing the text of init's state and reading it back.
    Carry,
    /// Sending TERM to a child.
    SendTerm,
    /// Watching the children.
    Watch,
}

/// What a user can make init do by writing to a file.
#[derive(Clone, Copy)]
pub enum Power {
    /// Go to another level, by a request in the channel.
    Ask,
    /// End its pause, by ringing the bell.
    Wake,
}

/// A line that a host reports, without the name of the program in front.
#[derive(Clone, Copy)]
pub enum HostLine<'a> {
    /// This operation failed on the file or other object of this name, for this reason.
    Fails {
        doing: Doing,
        what: &'a str,
        error: &'a Error,
    },
    /// This operation works again.
    WorksAgain {
        doing: Doing,
        what: &'a str,
    },
    /// A message about the id's child.
    OfChild {
        id: Id,
        message: ChildMessage<'a>,
    },
    /// The starts of further ids are not counted, because memory allocation failed.
    Uncounted,
    /// No child can be sent TERM. With `groups`, no child can be started in a session of its own either.
    Unsendable {
        groups: bool,
        error: &'a Error,
    },
    /// The id's child is started without its log.
    NoLog {
        id: Id,
        log: &'a str,
        error: &'a Error,
    },
    /// The id cannot be used as a file name, and its log is this file instead.
    Log {
        id: Id,
        log: &'a str,
    },
    /// The bell at this path could not be created.
    NoBell {
        path: &'a str,
        error: &'a Error,
    },
    /// The channel has this many bytes before it is first read. With `fresh` they are skipped.
    Old {
        path: &'a str,
        length: u64,
        fresh: bool,
    },
    /// The channel is a different file than before, or shorter than the part already read.
    MadeAnew {
        path: &'a str,
    },
    /// The channel, or its bell, has a new owner, or an owner other than init's user.
    OtherOwner {
        path: &'a str,
        before: u32,
        owner: u32,
        power: Power,
    },
    /// The channel was written to without growing.
    WrittenOver {
        path: &'a str,
    },
    /// The channel ends with this many bytes that are not a whole request.
    Torn {
        path: &'a str,
        over: u64,
    },
    /// The channel ends with a whole request again, after it was reported that it did not.
    Whole {
        path: &'a str,
    },
    /// The channel's request of this number, counted from 1, is ignored.
    PassedOver {
        path: &'a str,
        number: u64,
        cause: Cause,
    },
    /// Further ignored requests will not be reported.
    MorePassedOver {
        path: &'a str,
    },
    /// A file in the inittab's folder is ignored because of its name.
    PassedFile {
        folder: &'a str,
        name: &'a [u8],
    },
    /// The inittab is longer than a table can be.
    TooLong {
        path: &'a str,
    },
    /// The inittab and its folder have more files than a table can have.
    TooMany {
        path: &'a str,
    },
    /// The inittab is rejected because it has faulty lines.
    Refused {
        path: &'a str,
    },
    /// The text of init's state was truncated when it was read back, to this length in bytes.
    HandedCut(u64),
    /// The text of init's state that was read back belongs to this other generation.
    HandedOlder(u64),
}
