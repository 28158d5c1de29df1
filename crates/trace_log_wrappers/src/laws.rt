//! The laws of brief traces.

ghost use Rattle.std.specs.Prelude.{◌≡◌, ℕ, IsTrue, false, List, [], ◌∷◌, ◌++◌, None};
ghost use Rattle.trace_events.specs.declared.steps.Goal.{Goal};
ghost use Rattle.trace_events.specs.Event.{Event};
ghost use Rattle.trace_events.specs.Past.{Child, time_of, unreaped_children, has_child, known_children, open_orders};
ghost use Rattle.trace_events.specs.Spells.{stop_due};
ghost use Rattle.trace_events.specs.Timing.{is_held, is_full};
ghost use Rattle.trace_events.specs.Sound.{is_sound};
ghost use Rattle.trace_events.specs.Lawful.{is_lawful, first_breach};
ghost use Rattle.trace_log_wrappers.specs.Readings.{are_looks_free, lasting_events, first_broken, ReadsSame};
ghost use Rattle.trace_log_wrappers.specs.Brief.{brief_of, IsBrief};
ghost use Rattle.trace_log_wrappers.specs.declared.held.HeldBack.{HeldBack};
ghost use Rattle.trace_log_wrappers.specs.Holding.{Holds, next_held, newly_written};

/// States the laws of brief traces in its contract. The function itself does nothing.
pub fn law_of_brief()
    // For every list of happenings: the brief form keeps, in order, all those that are not a look, a `told`, a reading
    // of the clock or a round; and it can't be shortened further.
    ensures lasting { (trace : List Event)
        → lasting_events trace ≡ lasting_events (brief_of trace) }
    ensures short { (trace : List Event) → IsBrief (brief_of trace) }
    ensures twice { (trace : List Event) → brief_of (brief_of trace) ≡ brief_of trace }

    // For every trace whose looks are free, sound or not: its brief form is lawful exactly if the trace is, and
    // otherwise the first breach of each breaks the same law. The looks of every sound trace are free.
    ensures free { (goal : Goal) (trace : List Event)
        → IsTrue (is_sound goal trace) → IsTrue (are_looks_free trace) }
    ensures judged { (trace : List Event)
        → IsTrue (are_looks_free trace) → is_lawful trace ≡ is_lawful (brief_of trace) }
    ensures breach { (trace : List Event)
        → IsTrue (are_looks_free trace) → first_broken trace ≡ first_broken (brief_of trace) }

    // For every sound trace: its brief form is sound with the same initial goal, and so breaks no law.
    ensures sound { (goal : Goal) (trace : List Event)
        → IsTrue (is_sound goal trace) → IsTrue (is_sound goal (brief_of trace)) }
    ensures lawful { (goal : Goal) (trace : List Event)
        → IsTrue (is_sound goal trace) → IsTrue (is_lawful (brief_of trace)) }
    ensures unbroken { (goal : Goal) (trace : List Event)
        → IsTrue (is_sound goal trace) → first_breach (brief_of trace) ≡ None }

    // For every sound trace: its brief form yields the same values of these functions.
    ensures time { ReadsSame time_of }
    ensures unreaped { ReadsSame unreaped_children }
    ensures orders { ReadsSame open_orders }
    ensures known { (id : List ℕ) → ReadsSame (λ trace. has_child id (known_children trace)) }
    ensures stops { (child : Child) → ReadsSame (stop_due child) }
    ensures held { (id : List ℕ) → ReadsSame (is_held id) }
    ensures full { (id : List ℕ) → ReadsSame (is_full id) }
{}

/// States in its contract that the happenings written and those held back are together the brief form of the trace,
/// initially and after each happening. The function itself does nothing.
pub fn law_of_held()
    ensures first { Holds
        (record { reading = None; round = false; look = None; within = false }) [] [] }
    ensures next { (happening : Event) (held : HeldBack) (written trace : List Event)
        → Holds held written trace
        → Holds
        (next_held happening held)
        (newly_written happening held ++ written)
        (happening ∷ trace) }
{}
