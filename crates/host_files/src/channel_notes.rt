//! Records the observations of a channel that are needed to report what is wrong with it.

use crate::channel_files::FoundFile;
use crate::channel_progress::Progress;
use host_lines::{Doing, HostLine, MessageSink, Power, Trouble};
use initctl_frame::{Cause, HeardRequest, decode};
use libc::geteuid;
use program_io::REQUEST;
use std::io;
use std::rt::Clock;
use std::time::{Duration, Instant};

/// The number of microseconds after which a write counts as finished. It is also the time between two looks at the
/// channel during a pause.
pub(crate) const LOOK: u64 = 40_000;

/// The number of microseconds without another byte after which an incomplete request counts as torn.
const TORN: u64 = 3_000_000;

/// The number of ignored requests that are reported individually.
const TOLD_LIMIT: u32 = 10;

/// The observations of a channel.
#[derive(Drop)]
pub(crate) struct ChannelNotes {
    /// The user that owns it.
    owner: Option<u32>,
    /// Its length and the time of its last write, in seconds and nanoseconds, when it was last seen to be read to its
    /// end.
    end: Option<(u64, i64, i64)>,
    /// When its length was last found to have changed.
    resized: Option<Instant>,
    /// The time since which every look has found that it was written to after it was read to its end, with its length
    /// unchanged.
    changed: Option<Instant>,
    hearing: Trouble,
    /// The number of ignored requests that were reported.
    passed_over: u32,
    /// Its length when it was last read to an end within a request, and the time since which it has had this length.
    torn: u64,
    torn_since: Option<Instant>,
    told_torn: bool,
}

impl ChannelNotes {
    /// Creates a value without observations.
    pub fn new() -> ChannelNotes {
        ChannelNotes {
            owner: None,
            end: None,
            resized: None,
            changed: None,
            hearing: Trouble::new(Doing::Read),
            passed_over: 0,
            torn: 0,
            torn_since: None,
            told_torn: false,
        }
    }

    /// Reports that the channel cannot be read, or can be read again.
    pub fn tell_taken(&mut self, rt: &impl MessageSink, path: &str, taken: &io::Result<usize>) {
        self.hearing.tell(rt, path, taken);
    }

    /// Reports the bytes that the channel has before its first reading, if there are any.
    pub fn tell_first(rt: &impl MessageSink, path: &str, found: Option<FoundFile>, fresh: bool) {
        match found {
            Some(found) if found.length > 0 => rt.tell(&HostLine::Old {
                path,
                length: found.length,
                fresh,
            }),
            _ => {}
        }
    }

    /// Forgets an incomplete request at the end if the reading position has changed.
    pub fn note_progress(&mut self, before: &Progress, now: &Progress) {
        if before.heard != now.heard {
            self.torn = 0;
            self.told_torn = false;
        }
    }

    /// Reports that the channel is a different file than before or shorter than the part already read, or that its
    /// owner has changed or is not the user of initd.
    pub fn note_file<R: Clock + MessageSink>(
        &mut self,
        rt: &R,
        path: &str,
        before: &Progress,
        found: &FoundFile,
    ) {
        if before.is_replaced(found) {
            self.end = None;
            self.resized = Instant::now(rt).ok();
            rt.tell(&HostLine::MadeAnew { path });
        }
        let owner = self.owner.replace(found.owner).unwrap_or(geteuid());
        if owner != found.owner {
            rt.tell(&HostLine::OtherOwner {
                path,
                before: owner,
                owner: found.owner,
                power: Power::Ask,
            });
        }
    }

    /// Records that the channel was read to its end, and reports what is wrong with that end.
    pub fn note_end<R: Clock + MessageSink>(&mut self, rt: &R, path: &str, found: &FoundFile) {
        self.note_written(rt, path, found);
        self.note_torn(rt, path, found.length);
    }

    /// Reports that the channel was written to after it was read to its end, although its length is unchanged.
    ///
    /// It is reported only if the length has been the same for some time, both before and after the time of writing
    /// changed. While a file is being appended to, its new time is briefly visible before its new length; while it is
    /// being truncated, its new time is briefly visible only after its new length.
    fn note_written(&mut self, rt: &(impl Clock + MessageSink), path: &str, found: &FoundFile) {
        let end = (found.length, found.written.0, found.written.1);
        let before = self.end.unwrap_or(end);
        if before.0 != end.0 {
            self.resized = Instant::now(rt).ok();
        } else if before != end && is_past(rt, self.resized, LOOK) {
            if self.changed.is_none() {
                self.changed = Instant::now(rt).ok();
                return;
            }
            if !is_past(rt, self.changed, LOOK) {
                return;
            }
            rt.tell(&HostLine::WrittenOver { path });
        }
        self.changed = None;
        self.end = Some(end);
    }

    /// Reports once that the channel ends within a request, and reports when that is over. It first waits until
    /// nothing was added for some time, because a writer may still be writing the request.
    fn note_torn(&mut self, rt: &(impl Clock + MessageSink), path: &str, length: u64) {
        let over = length % REQUEST as u64;
        if over == 0 {
            if self.told_torn {
                rt.tell(&HostLine::Whole { path });
            }
            self.told_torn = false;
            self.torn = 0;
            return;
        }
        if self.torn != length {
            self.torn = length;
            self.torn_since = Instant::now(rt).ok();
        } else if !self.told_torn && is_past(rt, self.torn_since, TORN) {
            rt.tell(&HostLine::Torn { path, over });
            self.told_torn = true;
        }
    }

    /// Reports why init ignores the request that ends at this byte, if it does.
    pub fn tell_passed_over(
        &mut self,
        rt: &impl MessageSink,
        path: &str,
        request: &[u8; REQUEST],
        end: u64,
    ) {
        if let HeardRequest::Nothing(cause) = decode(request) {
            self.count_passed_over(rt, path, end / REQUEST as u64, cause);
        }
    }

    fn count_passed_over(&mut self, rt: &impl MessageSink, path: &str, number: u64, cause: Cause) {
        if self.passed_over < TOLD_LIMIT {
            rt.tell(&HostLine::PassedOver {
                path,
                number,
                cause,
            });
        } else if self.passed_over == TOLD_LIMIT {
            rt.tell(&HostLine::MorePassedOver { path });
        }
        self.passed_over = self.passed_over.saturating_add(1);
    }
}

/// Returns whether at least this many microseconds have passed since this time; `true` if no time is given.
fn is_past(rt: &impl Clock, since: Option<Instant>, length: u64) -> bool {
    let Some(since) = since else {
        return true;
    };
    matches!(since.elapsed(rt), Ok(passed) if passed >= Duration::from_micros(length))
}
