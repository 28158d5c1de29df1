//! The plan of a level: the entries that init starts on its way to the level without any request, their order, and
//! which of them it waits for.
//!
//! The definitions are in `specs`. The law relates them to runs of init: if the only events from outside are the deaths
//! of children that init waits for, init enters the stages and starts the entries of the plan in order, and no others.

ghost use Rattle.std.specs.Prelude.{◌≡◌, IsTrue, false, ℕ, List, ◌∷◌};
ghost use Rattle.trace_laws.specs.Words.{Start, Asked, Goal, Event, table_of, is_owed_before, is_announced};
ghost use Rattle.trace_laws.specs.Orderly.{is_orderly};
ghost use Rattle.trace_laws.specs.Plans.{plan_of};
ghost use Rattle.trace_laws.specs.Runs.{BeginsWith, is_undisturbed, taken};

/// States the law of plans in its contract. The function itself does nothing.
///
/// The law is about undisturbed traces in which each step of init is the first due one. At any point, the stages
/// entered and the starts ordered are a prefix of the plan; once the level is announced settled, they are the whole
/// plan. When init starts an entry, all entries before it in the table that init waits for have ended.
pub fn law_of_plans()
    ensures beginning { (goal : Goal) (past : List Event) → IsTrue (is_orderly goal past)
        → IsTrue (is_undisturbed past) → BeginsWith (taken past) (plan_of goal (table_of past)) }
    ensures whole { (goal : Goal) (past : List Event) → IsTrue (is_orderly goal past)
        → IsTrue (is_undisturbed past) → IsTrue (is_announced past)
        → taken past ≡ plan_of goal (table_of past) }
    ensures waits { (goal : Goal) (past : List Event) (id : List ℕ)
        → IsTrue (is_orderly goal (Asked id Start ∷ past)) → is_owed_before id past ≡ false }
{}
