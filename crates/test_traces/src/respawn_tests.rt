//! Tests which starts of an entry, at given times, the limit of 10 in 120 seconds allows (init(8)).

ghost use Rattle.std.specs.Prelude.{◌≤◌};
ghost use Rattle.respawn_limit.specs.declared.TheConstants.{CLOCK_LIMIT};

use respawn_limit::{CLOCK_LIMIT, Limiter, May};

/// A call to a limiter, or a check of its state.
enum Call {
    /// Starts that the limiter allows.
    Starts(&'static [u64]),
    Hold(u64),
    Clear,
    /// The starts that the limiter keeps, and when its hold ends.
    Kept(&'static [u64], Option<u64>),
    /// The limiter's answer at a time, and whether the entry is held at that time.
    At(u64, May, bool),
}

const AT_ONCE: &[u64] = &[0; 10];

/// Runs of a limiter. It keeps at most ten starts, and a hold lasts five minutes.
const RUNS: &[&[Call]] = &[
    &[
        Call::Starts(AT_ONCE),
        Call::Kept(AT_ONCE, None),
        Call::At(119, May::HoldUntil(419), false),
        Call::At(120, May::Yes, false),
        Call::Hold(119),
        Call::At(418, May::HoldUntil(419), true),
        Call::At(419, May::Yes, false),
        Call::Kept(AT_ONCE, Some(419)),
        Call::Clear,
        Call::Kept(&[], None),
        Call::At(119, May::Yes, false),
    ],
    &[
        Call::Starts(&[0, 60, 60, 60, 60, 60, 60, 60, 60, 60]),
        Call::At(60, May::HoldUntil(360), false),
        Call::At(119, May::HoldUntil(419), false),
        Call::At(120, May::Yes, false),
        // The next start is allowed at 180.
        Call::Starts(&[120]),
        Call::Kept(&[60, 60, 60, 60, 60, 60, 60, 60, 60, 120], None),
        Call::At(120, May::HoldUntil(420), false),
        Call::At(179, May::HoldUntil(479), false),
        Call::At(180, May::Yes, false),
    ],
    &[
        Call::Starts(&[5, 7]),
        Call::Hold(9),
        Call::Kept(&[5, 7], Some(309)),
        Call::At(9, May::HoldUntil(309), true),
    ],
];

/// Records the starts, as a caller that asks first. Reports whether all of them are allowed.
fn are_noted(limiter: &mut Limiter, times: &[u64]) -> bool {
    for &time in times {
        if time > CLOCK_LIMIT || !limiter.starts().iter().all(|start| *start <= time) {
            return false;
        }
        if limiter.may(time) != May::Yes {
            return false;
        }
        limiter.note(time);
    }
    true
}

fn is_alike(limiter: &Limiter, again: &Limiter, now: u64, may: May, held: bool) -> bool
    requires { now ≤ CLOCK_LIMIT }
{
    again.may(now) == may
        && again.held(now) == held
        && limiter.may(now) == may
        && limiter.held(now) == held
        && again == limiter
}

/// Reports whether the limiter gives this answer now, and so do its copy and one created from its parts.
fn answers(limiter: &Limiter, now: u64, may: May, held: bool) -> bool {
    let again = Limiter::of(limiter.starts(), limiter.held_until());
    let is_copied = match limiter.clone() {
        Ok(copy) => copy == *limiter,
        Err(_) => false,
    };
    is_copied && now <= CLOCK_LIMIT && is_alike(limiter, &again, now, may, held)
}

fn goes(limiter: &mut Limiter, call: &Call) -> bool {
    match *call {
        Call::Starts(times) => return are_noted(limiter, times),
        Call::Hold(now) => limiter.hold(now.min(CLOCK_LIMIT)),
        Call::Clear => limiter.clear(),
        Call::Kept(starts, until) => {
            return limiter.starts() == starts && limiter.held_until() == until;
        }
        Call::At(now, may, held) => return answers(limiter, now, may, held),
    }
    true
}

#[test]
fn the_window_slides(rt: HostRuntime) {
    for (number, run) in RUNS.iter().enumerate() {
        let mut limiter = Limiter::new();
        for (position, call) in run.iter().enumerate() {
            assert!(rt;
                goes(&mut limiter, call),
                "run {number} of RUNS, call {position}, from 0"
            );
        }
    }
}
