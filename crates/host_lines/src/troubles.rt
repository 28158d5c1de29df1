//! Reports each fault once, until it is over or changes.

use crate::lines::{Doing, HostLine};
use crate::tellers::MessageSink;
use std::hash::{FoldHasher, Hasher};
use std::io;
use std::io::{Error, ErrorKind};

/// An operation, and the fault reported for it that is not over yet.
#[derive(Drop)]
pub struct Trouble {
    /// The operation.
    doing: Doing,
    told: Option<Fault>,
}

/// The properties that distinguish one fault from another: the object that it concerns, and the kind of error.
#[derive(Clone, Copy, PartialEq)]
struct Fault {
    /// The hash of the object's name, which may be a long path.
    what: u64,
    kind: ErrorKind,
    code: Option<i32>,
}

impl Fault {
    fn of(what: &str, error: &Error) -> Fault {
        let mut hasher = FoldHasher::default();
        hasher.write(what.as_bytes());
        Fault {
            what: hasher.finish(),
            kind: error.kind(),
            code: error.raw_os_error(),
        }
    }
}

impl Trouble {
    /// Creates the state in which nothing has failed yet.
    pub fn new(doing: Doing) -> Trouble {
        Trouble { doing, told: None }
    }

    /// Reports that the operation failed, unless the same fault was reported last; or that it works again, if a fault
    /// was reported.
    pub fn tell<'a, T>(
        &mut self,
        rt: &impl MessageSink,
        what: &'a str,
        outcome: &'a io::Result<T>,
    ) {
        match outcome {
            Ok(_) => self.tell_over(rt, what),
            Err(error) => self.tell_begun(rt, what, error),
        }
    }

    /// Reports that the operation failed, unless the same fault was reported last.
    pub fn tell_begun<'a>(&mut self, rt: &impl MessageSink, what: &'a str, error: &'a Error) {
        let fault = Fault::of(what, error);
        if self.told != Some(fault) {
            rt.tell(&HostLine::Fails {
                doing: self.doing,
                what,
                error,
            });
        }
        self.told = Some(fault);
    }

    /// Reports that the operation works again, if a fault was reported.
    pub fn tell_over(&mut self, rt: &impl MessageSink, what: &str) {
        if self.told.is_some() {
            rt.tell(&HostLine::WorksAgain {
                doing: self.doing,
                what,
            });
        }
        self.told = None;
    }
}
