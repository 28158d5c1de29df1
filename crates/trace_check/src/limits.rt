//! The starts and holds of an id, for the respawn limit.

ghost use Rattle.std.specs.Prelude.{◌≡◌, ℕ, ◌-◌, if◌then◌else◌, List, ◌∷◌, [], take, slice_get, nat_lt, false, ◌<◌};
ghost use Rattle.std.specs.Option.{option_map_or};
ghost use Rattle.trace_check.specs.Words.{STARTS, WINDOW, spare, same_id};
ghost use Rattle.trace_check.specs.State.{at, times_at};
ghost use Rattle.trace_check.specs.After.{starts_after, hold_after};

use crate::maps::{ById, forget_all, put};
use arrayvec::ArrayVec;
use init_words::{Id, OrderKind};
use respawn_limit::{STARTS, WINDOW};
use std::alloc::Allocator;
use std::marker::Model;
use trace_events::{Happening, HappeningIn};

/// The times of the last ten starts of an id, in seconds, newest first.
#[derive(Drop)]
pub(crate) struct Starts {
    times: ArrayVec<u64, STARTS>,
}

impl Model for Starts {
    ghost use Rattle.std.specs.Prelude.{ℕ, List};

    ghost Value = { List ℕ };

    ghost view = { λ s. s.times.items };
}

impl Starts {
    /// Creates the list with its first start.
    pub(crate) fn first(time: u64) -> Starts
        ensures { result ≡ time ∷ [] }
    {
        let mut times = ArrayVec::new();
        times.push(time);
        Starts { times }
    }

    /// Adds a start, and drops the oldest one if there are more than ten.
    pub(crate) fn note(&mut self, time: u64)
        ensures { self.new ≡ time ∷ take (STARTS - 1) self.old }
    {
        self.times.truncate(STARTS - 1);
        self.times.insert(0, time);
    }

    /// Returns whether the tenth-last start is less than two minutes old (init(8)).
    pub(crate) fn is_full(&self, now: u64) -> bool
        ensures { result ≡ option_map_or (λ started. nat_lt (now - started) WINDOW)
            (slice_get self.now (STARTS - 1)) false }
    {
        match self.times.as_slice().get(STARTS - 1) {
            Some(started) => now.saturating_sub(*started) < WINDOW,
            None => false,
        }
    }
}

/// Updates the last starts of each id for a happening. The map must have room for one more.
pub(crate) fn take_start<A: Allocator + Copy, B: Allocator>(
    starts: &mut ById<Starts, A>,
    time: u64,
    happening: &HappeningIn<B>,
)
    requires { 0 < spare starts.old }
    ensures { (id : List ℕ) → times_at id starts.new.entries
        ≡ starts_after time happening.now id (times_at id starts.old.entries) }
{
    match happening {
        Happening::Enter(..) | Happening::NewTable(_) => forget_all(starts),
        Happening::Asked(id, OrderKind::Start) => note_start(starts, *id, time),
        _ => {}
    }
}

fn note_start<A: Allocator>(starts: &mut ById<Starts, A>, id: Id, time: u64)
    requires { 0 < spare starts.old }
    ensures { (other : List ℕ) → times_at other starts.new.entries
        ≡ (if same_id other id then time ∷ take (STARTS - 1) (times_at other starts.old.entries)
        else times_at other starts.old.entries) }
{
    if let Some(times) = starts.get_mut(&id) {
        times.note(time);
        return;
    }
    put(starts, id, Starts::first(time));
}

/// Updates the last hold of each id for a happening. The map must have room for one more.
pub(crate) fn take_hold<A: Allocator + Copy, B: Allocator>(
    holds: &mut ById<u64, A>,
    time: u64,
    happening: &HappeningIn<B>,
)
    requires { 0 < spare holds.old }
    ensures { (id : List ℕ) → at id holds.new.entries
        ≡ hold_after time happening.now id (at id holds.old.entries) }
{
    match happening {
        Happening::Enter(..) | Happening::NewTable(_) => forget_all(holds),
        Happening::Hold(id) => put(holds, *id, time),
        _ => {}
    }
}
