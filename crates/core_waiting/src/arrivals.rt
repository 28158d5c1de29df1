//! When a level is settled: after a bounded number of undisturbed rounds from a rest, whatever happens between these
//! rounds except requests and new tables.
//!
//! The definitions are in `specs/Arrival`. A round is undisturbed if all of this holds:
//!
//! - No request and no new table arrives during it.
//! - Each order is answered, and at the end no signal to a child has failed since the last `nudge`.
//! - Each child that had to end when the round began (because init waits for it, because its entry is wanted again, or
//!   because it was sent a KILL) is found ended by the last look at it.
//! - The clock advances by the seconds between the two signals that stop a child, unless each child that was sent only
//!   the first signal is gone.
//!
//! A round may take many turns, for example if a child takes long to end. A round that is disturbed does not count, but
//! it delays nothing either if no request and no new table arrives in it and each order is answered before the next
//! round begins.

ghost use Rattle.std.specs.Prelude.{◌≡◌, ◌<◌, ◌≤◌, ◌+◌, ℕ, IsTrue, false, List, ◌++◌, filter, length, Some};
ghost use Rattle.core_waiting.specs.Words.{Run, waited_of, Goal, Event, table_of, stage_of, is_idle, goal_of, are_calls_pending, is_sound};
ghost use Rattle.core_waiting.specs.Rest.{AtRest, is_level_announced, after_rounds};
ghost use Rattle.core_waiting.specs.Arrival.{has_no_request, is_undisturbed, undisturbed_among, AreRoundsWithoutRequests, destination, waits_to_come, rounds_to_come};

/// States in its contract that a level is settled in the end. The function itself does nothing.
pub fn law_of_arrival()
    // an undisturbed round from a rest to another, with no order open at either, reduces the number of rounds to come,
    // unless the level is announced settled at its end
    ensures falls { (goal : Goal) (later round past : List Event)
        → IsTrue (is_sound goal (later ++ (round ++ past))) → AtRest goal past
        → IsTrue (is_idle past)
        → IsTrue (is_undisturbed round past) → AtRest goal (round ++ past)
        → IsTrue (is_idle (round ++ past)) → is_level_announced (round ++ past) ≡ false
        → rounds_to_come goal (round ++ past) < rounds_to_come goal past }
    // after a rest with no order open, the number of rounds to come never rises until a request or a new table arrives,
    // at a rest or elsewhere
    ensures stays { (goal : Goal) (later round past : List Event)
        → IsTrue (is_sound goal (later ++ (round ++ past))) → AtRest goal past
        → IsTrue (is_idle past)
        → IsTrue (has_no_request round)
        → rounds_to_come goal (round ++ past) ≤ rounds_to_come goal past }
    // so the level is announced settled after rounds without requests, if the number of undisturbed ones among them is
    // at least the number to come at the first rest, whatever happens in the others
    ensures arrives { (goal : Goal) (later : List Event)
        (rounds : List (List Event)) (past : List Event)
        → IsTrue (is_sound goal (later ++ after_rounds rounds past))
        → AreRoundsWithoutRequests goal rounds past
        → rounds_to_come goal past ≤ undisturbed_among rounds past
        → IsTrue (is_level_announced (after_rounds rounds past)) }
    // if the level is announced settled, it is the goal's level, or the level that was in force at the first rest
    ensures destined { (goal : Goal) (later : List Event)
        (rounds : List (List Event)) (past : List Event)
        → IsTrue (is_sound goal (later ++ after_rounds rounds past))
        → AreRoundsWithoutRequests goal rounds past
        → IsTrue (is_level_announced (after_rounds rounds past))
        → stage_of (after_rounds rounds past)
        ≡ Some (Run (destination (goal_of goal past).level (stage_of past))) }
    // the number of rounds to come is at most three more than the number of waited entries to come, and so at most
    // three more than the number of waited entries in the table
    ensures few { (goal : Goal) (past : List Event)
        → rounds_to_come goal past ≤ waits_to_come goal past + 3 }
    ensures bounded { (goal : Goal) (past : List Event)
        → rounds_to_come goal past ≤ length (filter waited_of (table_of past)) + 3 }
    // such rounds exist: any number of undisturbed rounds can follow each rest at which no request to call entries is
    // pending
    ensures exist { (goal : Goal) (later past : List Event) (count : ℕ)
        → IsTrue (is_sound goal (later ++ past)) → AtRest goal past → IsTrue (is_idle past)
        → are_calls_pending past ≡ false
        → (rounds : List (List Event)) × (length rounds ≡ count)
        × IsTrue (is_sound goal (after_rounds rounds past))
        × AreRoundsWithoutRequests goal rounds past
        × (undisturbed_among rounds past ≡ count) }
    // so from each of these rests that level can be reached and settled
    ensures reached { (goal : Goal) (later past : List Event)
        → IsTrue (is_sound goal (later ++ past)) → AtRest goal past → IsTrue (is_idle past)
        → are_calls_pending past ≡ false
        → (onward : List Event) × IsTrue (is_sound goal (onward ++ past))
        × IsTrue (is_level_announced (onward ++ past))
        × (stage_of (onward ++ past)
        ≡ Some (Run (destination (goal_of goal past).level (stage_of past)))) }
{}
