//! The respawn limit: a sliding window that stops an entry from being restarted too often.
//!
//! According to init(8), an entry whose process is respawned more than 10 times in 2 minutes is not respawned again
//! until 5 minutes have elapsed. All times are readings of one clock, in seconds, and never decrease.
#![tactic(auto)]

ghost use Rattle.std.specs.Prelude.{◌≡◌, ℕ, ◌+◌, ◌≤◌, IsTrue, ⊤, List, [], ◌∷◌, ◌++◌, length, All};
ghost use Rattle.std.specs.List.Sorted.{IsNonDecreasing};
ghost use Rattle.respawn_limit.specs.State.{unused};
ghost use Rattle.respawn_limit.specs.Window.{is_full, is_held, answer, may_of, last_starts, with_start, with_hold, KeepsLastStarts};
ghost use Rattle.respawn_limit.specs.Past.{Event, Noted, HeldAt, Cleared, times_noted, hold_end, last_reading, is_run, IsStateAfter, StartsAreSpaced, NoStartDuringHold};

use arrayvec::ArrayVec;
use std::alloc::AllocError;
use std::marker::Model;

/// The length of the window in seconds: a start counts for two minutes.
pub const WINDOW: u64 = 120;

/// The number of starts that the window allows.
pub const STARTS: usize = 10;

/// The length of a hold in seconds: five minutes.
pub const HOLD: u64 = 300;

/// The greatest clock reading that a limiter accepts, in seconds.
pub const CLOCK_LIMIT: u64 = 1_000_000_000_000;

/// The answer of a limiter when asked whether an entry may be started.
#[derive(Clone, Copy, PartialEq, Eq)]
pub enum May {
    /// The entry may be started now.
    Yes,
    /// The entry may not be started before this time, in seconds.
    HoldUntil(u64),
}

/// The last starts of an entry and its last hold.
///
/// The window slides: a start counts for 120 seconds, and while ten starts count, no other start is allowed. A hold
/// lasts 300 seconds. A limiter keeps at most ten starts and never allocates memory. Contracts see it as a
/// record of `starts`, oldest first, and `held`, the end of the last hold.
#[derive(Drop, PartialEq, Eq)]
pub struct Limiter {
    starts: ArrayVec<u64, STARTS>,
    held: Option<u64>,
}

impl Model for Limiter {
    ghost use Rattle.std.specs.Prelude.{◌≤◌, length};
    ghost use Rattle.respawn_limit.specs.declared.TheConstants.{STARTS};
    ghost use Rattle.std.specs.List.Sorted.{IsNonDecreasing};
    ghost use Rattle.respawn_limit.specs.State.{LimiterState};

    ghost Value = { LimiterState };

    ghost view = { λ l. record { starts = l.starts.items; held = l.held } };

    ghost invariant = { λ l. (length l.starts.items ≤ STARTS) × IsNonDecreasing l.starts.items };

    ghost inverse = { λ s. record { starts = record { items = s.starts }; held = s.held } };
}

impl Limiter {
    /// Creates a limiter without starts and without a hold.
    pub fn new() -> Self
        ensures state { result ≡ unused }
        ensures past { IsStateAfter result [] }
    {
        Limiter {
            starts: ArrayVec::new(),
            held: None,
        }
    }

    /// Creates a limiter with these starts, oldest first, and this end of the last hold, both in seconds.
    ///
    /// A limiter created from the results of `starts` and `held_until` behaves exactly like the original.
    pub fn of(starts: &[u64], held_until: Option<u64>) -> Self
        requires few { length starts.now ≤ STARTS }
        requires ordered { IsNonDecreasing starts.now }
        ensures state { result ≡ record { starts = starts.now; held = held_until } }
        ensures past { (past : List Event) → IsNonDecreasing (times_noted past)
            → starts.now ≡ last_starts (times_noted past) → held_until ≡ hold_end past
            → IsStateAfter result past }
    {
        let mut kept = ArrayVec::new();
        if kept.try_extend_from_slice(starts).is_err() {
            unreachable!()
        }
        Limiter {
            starts: kept,
            held: held_until,
        }
    }

    /// Returns whether the entry may be started now, and if not, when the wait ends.
    ///
    /// While a hold lasts, the wait ends with the hold. Otherwise, if ten starts are less than 120 seconds old, the
    /// wait ends 300 seconds from now. Otherwise, the answer is `Yes`. A start later than `now` counts as 0 seconds
    /// old.
    pub fn may(&self, now: u64) -> May
        requires { now ≤ CLOCK_LIMIT }

        // The answer is computed from the starts kept, and is the same as if all starts since the last clear had been
        // kept.
        ensures state { result ≡ may_of self.now now }
        ensures noted { (noted : List ℕ) → KeepsLastStarts self.now.starts noted
            → result ≡ answer noted self.now.held now }
        ensures past { (past : List Event) → IsStateAfter self.now past
            → result ≡ answer (times_noted past) (hold_end past) now }
    {
        match self.held {
            Some(end) if now < end => May::HoldUntil(end),
            _ if self.is_full(now) => May::HoldUntil(now + HOLD),
            _ => May::Yes,
        }
    }

    // Returns whether ten of the starts are less than two minutes old.
    fn is_full(&self, now: u64) -> bool
        ensures { result ≡ is_full self.now.starts now }
    {
        self.starts.is_full() && now.saturating_sub(self.starts[0]) < WINDOW
    }

    /// Returns whether the entry is held now: the time is before the end of the last hold.
    pub fn held(&self, now: u64) -> bool
        ensures state { result ≡ is_held self.now.held now }
        ensures past { (past : List Event) → IsStateAfter self.now past
            → result ≡ is_held (hold_end past) now }
    {
        matches!(self.held, Some(end) if now < end)
    }

    /// Notes a start made now. `may` must allow it, and the time must not be before the starts kept. If this is the
    /// eleventh start, the oldest is dropped.
    pub fn note(&mut self, now: u64)
        requires late { All (λ start. start ≤ now) self.old.starts }
        requires allowed { may_of self.old now ≡ May.Yes }
        ensures state { self.new ≡ with_start self.old now }
        ensures noted { (noted : List ℕ) → KeepsLastStarts self.old.starts noted
            → KeepsLastStarts self.new.starts (noted ++ now ∷ []) }
        ensures past { (past : List Event) → IsStateAfter self.old past
            → IsStateAfter self.new (Noted now ∷ past) }
        ensures run { (past : List Event) → IsStateAfter self.old past → IsTrue (is_run past)
            → last_reading past ≤ now → IsTrue (is_run (Noted now ∷ past)) }
    {
        if self.starts.is_full() {
            self.starts.remove(0);
        }
        self.starts.push(now);
    }

    /// Begins a hold of 300 seconds from now, which replaces any earlier hold.
    pub fn hold(&mut self, now: u64)
        requires { now ≤ CLOCK_LIMIT }
        ensures state { self.new ≡ with_hold self.old now }
        ensures past { (past : List Event) → IsStateAfter self.old past
            → IsStateAfter self.new (HeldAt now ∷ past) }
    {
        self.held = Some(now + HOLD);
    }

    /// Removes all starts and the hold.
    pub fn clear(&mut self)
        ensures state { self.new ≡ unused }
        ensures past { (past : List Event) → IsStateAfter self.new (Cleared ∷ past) }
    {
        *self = Limiter::new();
    }

    /// Returns the times of the last ten starts since the last clear, in seconds, oldest first, whatever their age.
    pub fn starts(&self) -> &[u64]
        ensures state { result.now ≡ self.now.starts }
        ensures few { length result.now ≤ STARTS }
        ensures ordered { IsNonDecreasing result.now }
        ensures past { (past : List Event) → IsStateAfter self.now past
            → result.now ≡ last_starts (times_noted past) }
    {
        self.starts.as_slice()
    }

    /// Returns the end of the last hold since the last clear, in seconds, even if it has passed.
    pub fn held_until(&self) -> Option<u64>
        ensures state { result ≡ self.now.held }
        ensures past { (past : List Event) → IsStateAfter self.now past → result ≡ hold_end past }
    {
        self.held
    }
}

/// Copies the limiter; this allocates no memory and never fails.
impl Clone for Limiter {
    ghost is_clone = { λ limiter copy. copy ≡ limiter };

    ghost is_infallible = { λ _. ⊤ };

    fn clone(&self) -> Result<Self, AllocError> {
        Ok(Limiter::of(self.starts(), self.held_until()))
    }
}

impl Default for Limiter {
    ghost is_default = { λ limiter. limiter ≡ unused };

    fn default() -> Self {
        Self::new()
    }
}

/// States the laws of whole runs, for all clock readings: among any eleven starts that `may` allowed without a clear in
/// between, the last is at least 120 seconds after the first; and no start follows a hold within 300 seconds unless the
/// limiter was cleared in between.
///
/// The function does nothing: its contract is the law.
pub fn law_of_runs()
    ensures paced { StartsAreSpaced }
    ensures held { NoStartDuringHold }
{}
