//! The reports of a host about its children, and the records that they need.

use host_lines::{ChildEnd, ChildMessage, HostLine, MessageSink};
use indexmap::IndexMap;
use init_words::{ChildNumber, Id, SignalKind};
use std::alloc::Allocator;
use std::hash::{BuildHasherDefault, FoldHasher};
use std::os::unix::process::ExitStatusExt;
use std::process::ExitStatus;

/// Returns how a child with this status ended: its exit code, if it has one, otherwise its signal.
fn end_of(status: &ExitStatus) -> ChildEnd {
    match (status.code(), status.signal()) {
        (Some(code), _) => ChildEnd::Code(code.unsigned_abs()),
        (None, Some(signal)) => ChildEnd::Signal(signal.unsigned_abs()),
        (None, None) => ChildEnd::Unknown,
    }
}

/// Reports about the children of a host, on standard error.
#[derive(Drop)]
pub(crate) struct ChildMessages<A: Allocator> {
    /// Whether starts, ends and signals are reported.
    verbose: bool,
    /// How the last child of each id ended. An id may be missing because memory ran out.
    ends: IndexMap<Id, ChildEnd, BuildHasherDefault<FoldHasher>, A>,
    /// The number of children born for each id.
    starts: IndexMap<Id, u64, BuildHasherDefault<FoldHasher>, A>,
    /// Whether an id was not counted because memory allocation failed.
    is_short: bool,
}

impl<A: Allocator + Copy> ChildMessages<A> {
    /// Creates a value before anything is reported. If `verbose` is set, starts, ends and signals are reported;
    /// otherwise only how the last child of an id ended. This allocates no memory.
    pub(crate) fn new(alloc: A, verbose: bool) -> ChildMessages<A> {
        ChildMessages {
            verbose,
            ends: IndexMap::new(alloc),
            starts: IndexMap::new(alloc),
            is_short: false,
        }
    }

    /// Reports that a child was started, and for how many seconds it waits before it runs, if `verbose` is set.
    pub(crate) fn tell_start(
        &mut self,
        rt: &impl MessageSink,
        id: &Id,
        number: ChildNumber,
        delay: u16,
    ) {
        if !self.verbose {
            return;
        }
        let start = self.count_start(rt, *id);
        rt.tell(&HostLine::OfChild {
            id: *id,
            message: ChildMessage::Started { number, start },
        });
        if delay > 0 {
            rt.tell(&HostLine::OfChild {
                id: *id,
                message: ChildMessage::Delayed(delay),
            });
        }
    }

    /// Counts a birth, and returns how many children of the id were born so far, including this one.
    ///
    /// Returns `None` if some ids were not counted for lack of memory and this may be one of them. The first time that
    /// memory for an id is lacking is reported on standard error.
    fn count_start(&mut self, rt: &impl MessageSink, id: Id) -> Option<u64> {
        if let Some(count) = self.starts.get_mut(&id) {
            *count = count.saturating_add(1);
            return Some(*count);
        }
        if self.is_short {
            return None;
        }
        if self.starts.insert(id, 1).is_ok() {
            return Some(1);
        }
        rt.tell(&HostLine::Uncounted);
        self.is_short = true;
        None
    }

    /// Records how the id's child ended, and reports it if `verbose` is set.
    pub(crate) fn note_end(&mut self, rt: &impl MessageSink, id: &Id, status: &ExitStatus) {
        let end = end_of(status);
        if self.ends.insert(*id, end).is_err() {
            self.ends.shift_remove(id);
        }
        if self.verbose {
            rt.tell(&HostLine::OfChild {
                id: *id,
                message: ChildMessage::Ended(end),
            });
        }
    }

    /// Reports that a child was sent the signal, if `verbose` is set.
    pub(crate) fn tell_sent(&self, rt: &impl MessageSink, id: &Id, signal: SignalKind) {
        if self.verbose {
            rt.tell(&HostLine::OfChild {
                id: *id,
                message: ChildMessage::Sent(signal),
            });
        }
    }

    /// Reports how the id's last child ended.
    pub(crate) fn tell_last_end(&self, rt: &impl MessageSink, id: &Id) {
        if let Some(end) = self.ends.get(id) {
            rt.tell(&HostLine::OfChild {
                id: *id,
                message: ChildMessage::LastEnd(*end),
            });
        }
    }
}
