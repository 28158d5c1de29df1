//! The trait of a log, which records the happenings of a run.

ghost use Rattle.std.specs.Prelude.{◌≡◌, Bool, true, false, is_err, List, OnOk, OnErr};
ghost use Rattle.trace_events.specs.Event.{Event};
ghost use Rattle.trace_events.specs.Range.{is_in_range};
ghost use Rattle.trace_log.specs.Logs.{LogState, AcceptsHappening, Stays};

use crate::faults::LogFault;
use std::alloc::Allocator;
use trace_events::HappeningIn;

/// A log, which records the happenings of a run, oldest first, until it fails. It keeps what it recorded before the
/// failure.
///
/// Contracts state whether a log has failed and, provided that each happening can occur in a trace (its seconds are at
/// most 3,600), which happenings it has taken. An implementation may leave the happenings unspecified.
pub trait Log {
    /// The happenings taken, oldest first; whether the log has failed; and the id whose exit statuses it notes, if any.
    ghost state: { Self → LogState };

    /// Records a happening. A log that returns an error has failed; the caller must not pass it any further happening.
    fn take<B: Allocator>(&mut self, happening: &HappeningIn<B>) -> Result<(), LogFault>
        requires { (state self.old).failed ≡ false }
        ensures flag { (state self.new).failed ≡ is_err result }
        ensures ok { OnOk result (is_in_range happening.now ≡ true
            → AcceptsHappening (state self.old) (state self.new) happening.now) }
        ensures err { OnErr result (is_in_range happening.now ≡ true
            → Stays (state self.old) (state self.new)) }
        ensures noted { (state self.new).noted ≡ (state self.old).noted };

    /// Returns whether the log has failed.
    fn failed(&self) -> bool
        ensures { result ≡ (state self.now).failed };
}

/// A log that the caller ends after the run. It then passes on any happenings that it still holds back, and accepts no
/// more.
pub trait EndedLog: Log {
    /// The result of `end`, such as the list or the writer of the log.
    type Left;

    /// Whether this value can remain of a log that took this trace, oldest first. The flag is true if it passed on
    /// everything.
    ghost has_ended: { Self.Left → Bool → List Event → Type 0 };

    /// Ends the log. Returns its result, and whether the log passed on everything.
    fn end(self) -> (Self::Left, bool)
        ensures failed { (Self.state self).failed ≡ true → result.1 ≡ false }
        ensures ended { (trace : List Event)
            → (Self.state self).taken trace → has_ended result.0 result.1 trace };
}
