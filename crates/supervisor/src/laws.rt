//! Laws about the start of a run, and about the state after a crash.

ghost use Rattle.std.specs.Prelude.{◌≡◌, ◌∷◌, ◌++◌, List, Option, IsTrue, true};
ghost use Rattle.std.specs.List.{list_all};
ghost use Rattle.supervisor.specs.Words.{Entry, Level, is_distinct, Goal, Event, opening_goal, opening_state, HostCall, IfPossibleFrom, are_carried, is_allowed, point_after};
ghost use Rattle.supervisor.specs.Edges.{trace_at};
ghost use Rattle.supervisor.specs.Fronts.{AtEachCall};
ghost use Rattle.supervisor.specs.CallsLead.{CallsWereInPlace};
ghost use Rattle.supervisor.specs.Crashes.{LeftByCrash, LeftByCrashInFile, is_of_idle_look};
ghost use Rattle.supervisor.specs.Opening.{IsOpening, start_point};
ghost use Rattle.supervisor.specs.Parts.{TracksAtBlockStart};

/// States that the core with which init opens is fresh at the opening point. The function does nothing: its contract is
/// the law.
pub fn law_of_openings()
    ensures { (level : Option Level) (table : List Entry) → is_distinct table ≡ true
        → TracksAtBlockStart (opening_state table (opening_goal level table))
        (opening_goal level table)
        (start_point table) }
{}

/// States which trace and which children remain if init is killed during one of the calls of a run.
///
/// If the answers up to that call were possible, the trace at the call is sound and lawful. Each child that exists is
/// in the trace, except at most one, whose start is open in the trace. Each unreaped child of the trace exists, except
/// at most one, whose look the call was answering. The function does nothing: its contract is the law.
pub fn law_of_a_crash()
    ensures { (level : Option Level) (table : List Entry) (later earlier : List HostCall)
        (next call : HostCall) → is_distinct table ≡ true
        → AtEachCall (IfPossibleFrom (IsOpening level table) CallsWereInPlace)
        (later ++ next ∷ call ∷ earlier)
        → IsTrue (is_allowed (opening_goal level table)
        (point_after (call ∷ earlier) (start_point table)).past)
        → IsTrue (are_carried (call ∷ earlier) (start_point table))
        → LeftByCrash call (opening_goal level table)
        (trace_at call (point_after earlier (start_point table)).past)
        (point_after (call ∷ earlier) (start_point table)).past }
{}

/// States that the law of a crash also holds for a trace file that lacks the newest happenings, if these come from
/// looks that found nothing. The function does nothing: its contract is the law.
pub fn law_of_held_looks()
    ensures { (call : HostCall) (goal : Goal) (held past world : List Event) (last : Event)
        → IsTrue (list_all is_of_idle_look held) → LeftByCrash call goal (held ++ last ∷ past) world
        → LeftByCrashInFile call goal (last ∷ past) world }
{}
