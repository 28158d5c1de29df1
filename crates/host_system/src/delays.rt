//! Delays of starts: how long a child waits before it runs its process, if its id was started shortly before.

ghost use Rattle.std.specs.Prelude.{◌≡◌, ◌∷◌, [], ℕ, List, OnOk, Some};
ghost use Rattle.init_words.specs.declared.orders.Answer.TheVariants.{Born};
ghost use Rattle.init_words.specs.declared.orders.SignalKind.{SignalKind};
ghost use Rattle.host_calls.specs.declared.calls.Call.TheVariants.{Start, Signal, Clock, Announce};
ghost use Rattle.host_calls.specs.declared.calls.Reply.{Reply};
ghost use Rattle.host_calls.specs.declared.calls.Reply.TheVariants.{Now};
ghost use Rattle.host_calls.specs.Calls.{HostCall};
ghost use Rattle.host_system.specs.Delays.{AreDelaysAfter, HasRoom, delay_after, delay_state, start_delay};

use host_calls::HostFault;
use indexmap::IndexMap;
use init_words::Id;
use std::alloc::{AllocError, Allocator};
use std::hash::{BuildHasherDefault, FoldHasher};
use trace_events::{Happening, HappeningIn};

/// The last start of an id: when it was, by the host's clock, and how long it was delayed, both in seconds.
#[derive(Clone, Copy)]
struct LastStart {
    at: u64,
    delay: u16,
}

/// The state on which the delays of starts depend.
#[derive(Drop)]
pub(crate) struct Delays<A: Allocator> {
    /// The longest delay in seconds, if starts are delayed.
    longest: Option<u16>,
    /// The time of the last reading of the clock, in seconds.
    time: u64,
    /// The last start of each id, if it counts: no stage was entered since, and no signal was sent to the child.
    starts: IndexMap<Id, LastStart, BuildHasherDefault<FoldHasher>, A>,
}

impl<A: Allocator + Copy> Delays<A> {
    /// Returns the delays of a host before its first call.
    pub(crate) fn new(alloc: A, longest: Option<u16>) -> Delays<A>
        ensures { delay_state result
            ≡ record { longest = longest; time = 0; starts = [] } }
    {
        Delays {
            longest,
            time: 0,
            starts: IndexMap::new(alloc),
        }
    }

    /// Returns the delay of a start of the id in seconds; 0 if it is not delayed.
    pub(crate) fn next(&self, id: &Id) -> u16
        ensures { (calls : List HostCall) → AreDelaysAfter (delay_state self.now) calls
            → result ≡ start_delay self.now.longest id.now calls }
    {
        match (self.longest, self.starts.get(id)) {
            (Some(longest), Some(last)) => delay_after(longest, self.time, last),
            _ => 0,
        }
    }

    /// Reserves room for a start of one more id.
    pub(crate) fn reserve(&mut self) -> Result<(), AllocError>
        ensures same { delay_state self.new ≡ delay_state self.old }
        ensures room { OnOk result (HasRoom self.new) }
    {
        match self.longest {
            Some(_) => self.starts.reserve(1),
            None => Ok(()),
        }
    }

    /// Records that a child of the id was born and has this delay.
    pub(crate) fn note_start(&mut self, id: Id, delay: u16)
        requires { HasRoom self.old }
        ensures longest { self.new.longest ≡ self.old.longest }
        ensures noted { (calls : List HostCall) (text : List ℕ) (number : ℕ)
            → AreDelaysAfter (delay_state self.old) calls
            → delay ≡ start_delay self.old.longest id calls
            → AreDelaysAfter (delay_state self.new) (Start id text (Now (Born number)) ∷ calls) }
    {
        if self.longest.is_none() {
            return;
        }
        let start = LastStart {
            at: self.time,
            delay,
        };
        let Ok(_) = self.starts.insert(id, start) else {
            unreachable!()
        };
    }

    /// Records that a signal was sent to the id's child, or could not be sent.
    pub(crate) fn note_signal(&mut self, id: &Id)
        ensures longest { self.new.longest ≡ self.old.longest }
        ensures noted { (calls : List HostCall) (signal : SignalKind) (reply : Reply)
            → AreDelaysAfter (delay_state self.old) calls
            → AreDelaysAfter (delay_state self.new) (Signal id.now signal reply ∷ calls) }
    {
        self.starts.swap_remove(id);
    }

    /// Records a reading of the clock, in seconds.
    pub(crate) fn note_time(&mut self, reading: Result<u64, HostFault>)
        ensures longest { self.new.longest ≡ self.old.longest }
        ensures noted { (calls : List HostCall) → AreDelaysAfter (delay_state self.old) calls
            → AreDelaysAfter (delay_state self.new) (Clock reading ∷ calls) }
    {
        if let Ok(time) = reading {
            self.time = time;
        }
    }

    /// Records that the happening was announced. Entering a stage clears the last starts, so that the next start of
    /// each id is not delayed.
    pub(crate) fn note_announced<B: Allocator>(&mut self, happening: &HappeningIn<B>)
        ensures longest { self.new.longest ≡ self.old.longest }
        ensures noted { (calls : List HostCall) → AreDelaysAfter (delay_state self.old) calls
            → AreDelaysAfter (delay_state self.new) (Announce happening.now ∷ calls) }
    {
        if let Happening::Enter(..) = happening {
            self.starts.clear();
        }
    }
}

/// Returns the delay of a start at this time, in seconds, given the last start of the id.
fn delay_after(longest: u16, time: u64, last: &LastStart) -> u16
    ensures { result ≡ delay_after (Some longest) time (Some last.now) }
{
    let end = u64::from(last.delay) + u64::from(longest);
    if time.saturating_sub(last.at) < end {
        last.delay.saturating_mul(2).max(1).min(longest)
    } else {
        0
    }
}
