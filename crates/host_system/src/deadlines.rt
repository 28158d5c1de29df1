//! The times at which init may have to act although nothing has happened.
//!
//! A host can compute these times from the signals that it sends, the stages and holds that are announced to it, and
//! the seconds of its clock, by which init decides. A pause that ends without need costs only one turn.

ghost use Rattle.std.specs.Prelude.{◌≤◌, ◌<◌, ◌+◌, IsSomeAnd, ℕ};
ghost use Rattle.host_system.specs.Deadlines.{Covers, IsNextDeadline};

use crate::host_options::Pace;
use host_calls::Reply;
use init_words::{Answer, SignalKind};
use respawn_limit::HOLD;
use std::alloc::Allocator;
use std::io;
use std::rt::Clock;
use std::time::{Duration, Instant};
use trace_events::{Happening, HappeningIn};

/// The number of seconds in an unsettled stage after which init reports what it waits for.
const MINUTE: u64 = 60;

/// The microseconds that are added to a pause, so that it ends after its deadline: poll(2) counts milliseconds.
const MILLISECOND: u64 = 1_000;

/// The first and the last of some events, in seconds of the clock.
#[derive(Clone, Copy)]
struct Span {
    first: u64,
    last: u64,
}

/// A reading of the host's clock, and the moment at which it was made.
#[derive(Clone, Copy)]
struct Reading {
    time: Duration,
    at: Instant,
}

/// The deadlines at which init may have to act.
#[derive(Drop)]
pub(crate) struct Deadlines {
    /// Whether pauses end at deadlines.
    is_wanted: bool,
    /// The last reading of the clock; `None` if it failed.
    reading: Option<Reading>,
    /// The seconds from TERM to KILL in this stage.
    grace: u64,
    /// When children were sent TERM.
    terms: Option<Span>,
    /// When entries were held.
    holds: Option<Span>,
    /// The time since which the stage has not been settled, in steps of a minute.
    unsettled: Option<u64>,
}

impl Deadlines {
    /// Returns a value without deadlines, for pauses of this pace.
    pub(crate) fn of(pace: Pace) -> Deadlines {
        Deadlines {
            is_wanted: matches!(pace, Pace::UpTo { .. }),
            reading: None,
            grace: 0,
            terms: None,
            holds: None,
            unsettled: None,
        }
    }

    /// Records a reading of the host's clock.
    pub(crate) fn note_reading(&mut self, rt: &impl Clock, time: &io::Result<Duration>) {
        if !self.is_wanted {
            return;
        }
        self.reading = match (time, Instant::now(rt)) {
            (Ok(time), Ok(at)) => Some(Reading { time: *time, at }),
            _ => None,
        };
    }

    /// Records the answer to a signal.
    pub(crate) fn note_signal(&mut self, signal: SignalKind, reply: &Reply) {
        let now = self.seconds();
        if signal == SignalKind::Term && matches!(reply, Reply::Now(Answer::Hit)) {
            add(&mut self.terms, now);
        }
    }

    /// Records that inittab was read, after which init announces again that the level is settled.
    pub(crate) fn note_table(&mut self) {
        if self.unsettled.is_none() {
            self.unsettled = Some(self.seconds());
        }
    }

    /// Records an announcement.
    pub(crate) fn note_announcement<B: Allocator>(&mut self, happening: &HappeningIn<B>) {
        let now = self.seconds();
        match happening {
            Happening::Enter(_, grace) => {
                self.grace = *grace as u64;
                self.holds = None;
                self.unsettled = Some(now);
            }
            Happening::Settle(_) => self.unsettled = None,
            Happening::Hold(_) => add(&mut self.holds, now),
            _ => {}
        }
    }

    /// Returns the seconds of the last reading, by which init decides.
    fn seconds(&self) -> u64 {
        match self.reading {
            Some(reading) => reading.time.as_secs(),
            None => 0,
        }
    }

    /// Returns the length of a pause in microseconds: this length, or less if a deadline passes earlier.
    pub(crate) fn bounded(&mut self, rt: &impl Clock, length: u64) -> u64 {
        match self.until_next(rt) {
            Some(time) => length.min(time),
            None => length,
        }
    }

    /// Returns the microseconds until the next deadline has passed, if there is one and the clock can be read.
    fn until_next(&mut self, rt: &impl Clock) -> Option<u64> {
        let reading = self.reading?;
        let deadline = self.next(reading.time.as_secs())?;
        let passed = reading.at.elapsed(rt).ok()?;
        let now = reading.time.saturating_add(passed);
        let rest = Duration::from_secs(deadline).saturating_sub(now);
        let rest = u64::try_from(rest.as_micros()).unwrap_or(u64::MAX);
        Some(rest.saturating_add(MILLISECOND))
    }

    /// Returns the next deadline after init has acted at this time, in seconds of the clock.
    fn next(&mut self, now: u64) -> Option<u64>
        ensures kill { IsNextDeadline self.old.terms self.old.grace now result }
        ensures start { IsNextDeadline self.old.holds HOLD now result }
    {
        let kill = due(&mut self.terms, self.grace, now);
        let start = due(&mut self.holds, HOLD, now);
        let report = self.next_report(now);
        earlier(earlier(kill, start), report)
    }

    /// Returns the time at which init next reports what it waits for.
    fn next_report(&mut self, now: u64) -> Option<u64> {
        let since = self.unsettled?;
        let since = if now.saturating_sub(since) < MINUTE {
            since
        } else {
            now
        };
        self.unsettled = Some(since);
        Some(since.saturating_add(MINUTE))
    }
}

/// Adds an event at this time.
fn add(span: &mut Option<Span>, time: u64)
    ensures added { Covers span.new time }
    ensures kept { (other : ℕ) → Covers span.old other → Covers span.new other }
{
    let (first, last) = match span {
        Some(known) => (known.first.min(time), known.last.max(time)),
        None => (time, time),
    };
    *span = Some(Span { first, last });
}

/// Returns the time at which the next event in the span is this many seconds old. If all events are that old, the span
/// is removed. If only some are, the time is the next second, because only the first and the last event are known.
fn due(span: &mut Option<Span>, age: u64, now: u64) -> Option<u64>
    ensures next { IsNextDeadline span.old age now result }
    ensures kept { (time : ℕ) → Covers span.old time → now < time + age → Covers span.new time }
{
    let Span { first, last } = (*span)?;
    if last <= now && now - last >= age {
        *span = None;
        return None;
    }
    Some(first.saturating_add(age).max(now.saturating_add(1)))
}

/// Returns the earlier of two times.
fn earlier(one: Option<u64>, other: Option<u64>) -> Option<u64>
    ensures one { (time : ℕ) → IsSomeAnd one (λ first. first ≤ time)
        → IsSomeAnd result (λ next. next ≤ time) }
    ensures other { (time : ℕ) → IsSomeAnd other (λ first. first ≤ time)
        → IsSomeAnd result (λ next. next ≤ time) }
{
    match (one, other) {
        (Some(one), Some(other)) => Some(one.min(other)),
        _ => one.or(other),
    }
}
