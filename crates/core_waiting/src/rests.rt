//! When init is at rest, and which children it waits for at a rest. Init never waits without a reason.
//!
//! The functions here do nothing: their contracts are the laws. The definitions are in `trace_events` and `specs/Rest`,
//! and the examples in `proofs/Rows` evaluate them. A trace is a list of happenings, newest first. The laws hold for
//! all readings of the clock and all requests, except the laws about a stretch without requests.

ghost use Rattle.std.specs.Prelude.{◌≡◌, ℕ, Bool, IsTrue, false, not, ◌||◌, List, ◌++◌, filter_map};
ghost use Rattle.std.specs.List.{list_any, list_all};
ghost use Rattle.core_waiting.specs.Words.{Goal, Event, is_idle, is_quiet, stage_of, kept_children, known_children, is_excluded, in_run, wants_reexec, wants_reread, is_request_pending, due, first, is_announced, is_rest, is_sound, CoreState, decide, FitsExtendedTrace, ForAllFittedTraces};
ghost use Rattle.trace_events.specs.declared.steps.Step.TheVariants.{Idle};
ghost use Rattle.trace_laws.specs.Moments.{AtEachMoment};
ghost use Rattle.core_model.specs.Work.{work_left};
ghost use Rattle.core_waiting.specs.Awaiting.{with_why, in_record_order, awaited_known, awaited_by};
ghost use Rattle.core_waiting.specs.Coming.{with_own_steps, after_init_steps};
ghost use Rattle.core_waiting.specs.Rest.{AtRest, AtEachRest, is_level_announced, awaited_children, is_empty, is_stopping, is_looked_at, is_on_power, is_waited_id, BetweenCalmStarts, is_gone, is_waited_start, BetweenRests};
ghost use Rattle.core_waiting.specs.declared.rests.Awaited.{Awaited};

use init_words::{ChildNumber, Id};

/// The reason why init waits for a child to end.
#[derive(Clone, Copy)]
pub enum WhyAwaited {
    /// The child is excluded, and is being stopped.
    Excluded,
    /// Init waits for its entry before it starts a later entry or enters the next stage.
    WaitedFor,
    /// Its entry is wanted again, and init starts it when this child is gone.
    InTheWay,
}

/// A child that init waits for.
#[derive(Clone, Copy)]
pub struct Awaited {
    /// The id of its entry, which may have left the table.
    pub id: Id,
    pub number: ChildNumber,
    pub why: WhyAwaited,
}

/// States in its contract that init never waits without a reason. The function itself does nothing.
pub fn law_of_rest()
    // at each moment at which no step is due, an order is open, or the level is announced settled, or there is a child
    // that init waits for
    ensures rest { AtEachRest (λ past. IsTrue
        (not (is_idle past) || is_level_announced past || not (is_empty (awaited_children past)))) }
    // if no order is open at such a moment, no request is pending
    ensures heard { AtEachRest (λ past. IsTrue (is_idle past) → is_request_pending past ≡ false) }
    // and each excluded child is being stopped: it was sent a TERM whose grace period is not over, or a KILL; or a
    // signal to it failed and is repeated in the next round
    ensures stopping { AtEachRest (λ past. IsTrue (is_idle past)
        → IsTrue (list_all (is_stopping past) (kept_children past))) }
    // init has looked at each known child since the last round began, or the id of the child has an open order
    ensures looked { AtEachRest (λ past.
        IsTrue (list_all (is_looked_at past) (known_children past))) }
    // each core that fits the trace decides on Idle at such a moment, and at no other
    ensures idle { (core : CoreState) → ForAllFittedTraces core (λ goal past.
        (decide core ≡ Idle → AtRest goal past) × (AtRest goal past → decide core ≡ Idle)) }
    // the converse: while a level is announced settled, no kept child is excluded, and init waits only for children of
    // entries that a power event calls
    ensures spared { AtEachMoment (λ past. IsTrue (is_announced past)
        → IsTrue (in_run (stage_of past))
        × (list_any (is_excluded past) (kept_children past) ≡ false)) }
    ensures settled { AtEachMoment (λ past. IsTrue (is_announced past)
        → IsTrue (list_all (is_on_power past) (awaited_children past))) }
    // an entry that init waits for starts at most once in a calm stretch, in which init enters no stage, adopts no
    // table and calls no entry
    ensures once { BetweenCalmStarts (λ id past. is_waited_id id past ≡ false) }
    // if a calm stretch separates two rests with no order open, and none of the children that init waited for at the
    // first rest is left, then a waited entry was started in between, or the level is announced settled
    ensures progress { BetweenRests (λ between past.
        IsTrue (list_all (is_gone between past) (awaited_children past))
        → is_level_announced (between ++ past) ≡ false
        → IsTrue (list_any (is_waited_start past) between)) }
{}

/// States in its contract that init's own steps end, and that init is at rest afterwards. The function itself does
/// nothing.
pub fn law_of_coming()
    // after each happening, the number of steps that init takes, each the first that is due, is at most the work left;
    // then nothing is due, or the next step is to read inittab or to re-execute init
    ensures comes { (core : CoreState) → ForAllFittedTraces core (λ goal past.
        IsTrue (is_rest (first (due goal (with_own_steps goal (work_left core) past))))) }
    // if no reading of inittab and no re-execution is pending, nothing is due then
    ensures arrives { (core : CoreState) → ForAllFittedTraces core (λ goal past.
        (wants_reexec past || wants_reread past) ≡ false
        → AtRest goal (with_own_steps goal (work_left core) past)) }
    // after any number of these steps the trace is sound, and the core after them fits it
    ensures fits { (core : CoreState) → ForAllFittedTraces core (λ goal past. (n : ℕ)
        → IsTrue (is_sound goal (with_own_steps goal n past))
        × FitsExtendedTrace core (after_init_steps n core) goal past (with_own_steps goal n past)) }
{}

/// States in its contract that init can name each child that it waits for from its own state. The function itself does
/// nothing.
pub fn law_of_awaited()
    // each core that fits the trace names the known children that init waits for, in record order
    ensures known { (core : CoreState) → ForAllFittedTraces core (λ goal past.
        awaited_by core ≡ in_record_order (awaited_known past) past) }
    // if no start and no signal is open, these are all children that init waits for
    ensures all { (core : CoreState) → ForAllFittedTraces core (λ goal past. IsTrue (is_quiet past)
        → awaited_by core ≡ in_record_order (awaited_children past) past) }
    // record order omits none of them, and adds no other
    ensures listed { AtEachMoment (λ past. IsTrue (is_quiet past) → (test : Awaited → Bool)
        → list_any test (in_record_order (awaited_children past) past)
        ≡ list_any test (filter_map (with_why past) (awaited_children past))) }
{}
