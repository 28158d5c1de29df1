//! The laws of a run of init, which hold for every sound trace, whatever the system does and whatever requests init
//! receives. This crate proves the lemmas; `law_agreement` of `core_model` states the laws one by one.
//!
//! The definitions are in `trace_events` and in `specs/Moments`, which says at which moments of a sound trace a law
//! holds. A trace is a list of happenings, newest first. The laws hold for all readings of the clock, even if it is set
//! back, and across every hand-over of init's state.
#![tactic(auto)]

mod plans;

ghost use Rattle.std.specs.Prelude.{IsTrue, List};
ghost use Rattle.trace_laws.specs.Words.{Goal, Event, is_sound};
ghost use Rattle.trace_events.specs.Lawful.{is_lawful};

pub use plans::law_of_plans;

/// States in its contract that a sound trace breaks no law, whatever the initial goal. The function itself does
/// nothing.
pub fn law_of_sound_traces()
    ensures { (goal : Goal) (trace : List Event)
        → IsTrue (is_sound goal trace) → IsTrue (is_lawful trace) }
{}
