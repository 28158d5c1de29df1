//! Laws about when a core fits a trace.

ghost use Rattle.std.specs.Prelude.{IsTrue, List, ◌∷◌};
ghost use Rattle.core_model.specs.Words.{Goal, Event, is_sound};
ghost use Rattle.core_model.specs.State.{CoreState};
ghost use Rattle.core_model.specs.Fit.{LastStatuses, Fits, FitsExtendedTrace, with_last_statuses, is_act};

/// States that acts of the system do not affect the core: if it fits a trace, it also fits the trace with one more act
/// of the system on an order, or with one more death, and its last statuses still fit, too. The function
/// does nothing: its contract is the law.
pub fn law_of_acts()
    ensures { (goal : Goal) (happening : Event) (past : List Event) (core : CoreState)
        → IsTrue (is_act happening) → IsTrue (is_sound goal (happening ∷ past))
        → Fits core goal past → FitsExtendedTrace core core goal past (happening ∷ past) }
{}

/// States that the last statuses do not affect whether a core fits a trace: with any others, it fits the same traces.
/// The function does nothing: its contract is the law.
pub fn law_of_lasts()
    ensures { (lasts : LastStatuses) (goal : Goal) (past : List Event) (core : CoreState)
        → Fits core goal past → Fits (with_last_statuses lasts core) goal past }
{}
