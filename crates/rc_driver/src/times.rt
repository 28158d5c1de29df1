//! The running time of a script with a time limit: when it is sent SIGTERM and SIGKILL.

ghost use Rattle.std.specs.Prelude.{◌≡◌, Ok};
ghost use Rattle.rc_driver.specs.Times.{due_by, due_signal, timer_at, wait_of};

use init_words::{GRACE, SignalKind};

/// The timer of a script, in seconds of the host's clock.
#[derive(Clone, Copy)]
pub(crate) enum Timer {
    /// The clock was not read yet.
    Unread,
    /// The script was first found alive at this time.
    RunningSince(u64),
    /// The script was sent SIGTERM at this time.
    TermSent(u64),
    /// The script was sent SIGKILL.
    Killed,
}

/// Returns the signal that is due at a time.
fn due_signal(seconds: u32, timer: Timer, now: u64) -> Option<SignalKind>
    ensures { result ≡ due_signal seconds timer now }
{
    match timer {
        Timer::RunningSince(began) if now.saturating_sub(began) > seconds as u64 => Some(
            SignalKind::Term,
        ),
        Timer::TermSent(sent) if now.saturating_sub(sent) > GRACE as u64 => Some(SignalKind::Kill),
        _ => None,
    }
}

/// Returns the timer after a reading of the clock, at which this signal was due.
pub(crate) fn timer_at(before: Timer, now: u64, due: Option<SignalKind>) -> Timer
    ensures { result ≡ timer_at before now due }
{
    match (before, due) {
        (_, Some(SignalKind::Term)) => Timer::TermSent(now),
        (_, Some(SignalKind::Kill)) => Timer::Killed,
        (Timer::Unread, None) => Timer::RunningSince(now),
        _ => before,
    }
}

/// Returns the signal that is due at a time, if there is a limit.
pub(crate) fn due_at(limit: Option<u32>, timer: Timer, now: u64) -> Option<SignalKind>
    ensures { result ≡ due_by limit timer (Ok now) }
{
    due_signal(limit?, timer, now)
}

/// Returns the number of seconds after which a signal is sent.
pub(crate) fn wait_of(limit: Option<u32>, signal: SignalKind) -> u32
    ensures { result ≡ wait_of limit signal }
{
    match signal {
        SignalKind::Term => limit.unwrap_or(0),
        SignalKind::Kill => GRACE as u32,
    }
}
