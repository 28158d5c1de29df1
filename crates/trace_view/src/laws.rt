//! The law that a start is due exactly if there is no reason against it.

ghost use Rattle.std.specs.Prelude.{◌≡◌, IsTrue, List, ℕ};
ghost use Rattle.std.specs.List.{list_any};
ghost use Rattle.trace_view.specs.Words.{is_distinct, Start, Event, table_of, due_starts, same_step};
ghost use Rattle.trace_events.specs.declared.steps.Step.TheVariants.{Order};
ghost use Rattle.trace_view.specs.Why.{why, is_nothing};

/// States in its contract that the start of an id is due exactly if there is no reason against it. The function itself
/// does nothing.
pub fn law_of_reasons()
    ensures { (id : List ℕ) (past : List Event) → IsTrue (is_distinct (table_of past))
        → is_nothing (why id past) ≡ list_any (same_step (Order id Start)) (due_starts past) }
{}
