//! A clock that does not change when the system time is set.

use std::io;
use std::io::ErrorKind;
use std::rt::Clock;
use std::time::{Duration, Instant, SystemTime};

/// A time since the beginning of 1970, and the reading of the monotonic clock at that moment.
#[derive(Clone, Copy)]
struct Beginning {
    since_1970: Duration,
    at: Instant,
}

/// A clock that returns the time since the beginning of 1970 as it was at its first reading, and continues from there
/// with the monotonic clock.
#[derive(Drop)]
pub(crate) struct SteadyClock {
    beginning: Option<Beginning>,
}

impl SteadyClock {
    /// Returns a clock before its first reading.
    pub(crate) fn new() -> SteadyClock {
        SteadyClock { beginning: None }
    }

    /// Returns the current time.
    pub(crate) fn reading(&mut self, rt: &impl Clock) -> io::Result<Duration> {
        let beginning = match self.beginning {
            Some(beginning) => beginning,
            None => begun(rt)?,
        };
        self.beginning = Some(beginning);
        let passed = beginning.at.elapsed(rt)?;
        Ok(beginning.since_1970.saturating_add(passed))
    }
}

/// Returns the current time by both clocks.
fn begun(rt: &impl Clock) -> io::Result<Beginning> {
    let at = Instant::now(rt)?;
    match SystemTime::now(rt)?.duration_since(SystemTime::UNIX_EPOCH) {
        Ok(since_1970) => Ok(Beginning { since_1970, at }),
        Err(_) => Err(io::Error::from(ErrorKind::InvalidData)),
    }
}
