//! The law that no request for a level is lost; see telinit(8).

ghost use Rattle.std.specs.Prelude.{◌≡◌, ◌≤◌, ◌⊎◌, ℕ, IsTrue, false, List, ◌∷◌, ◌++◌, Some};
ghost use Rattle.core_waiting.specs.Words.{Level, Stage, Boot, Run, same_level, Enter, Got, Goal, Event, stage_of, is_idle, goal_of, is_sound};
ghost use Rattle.initctl_frame.specs.declared.requests.HeardRequest.TheVariants.{Level as LevelAsked};
ghost use Rattle.core_waiting.specs.Arrival.{AreRoundsWithoutRequests, undisturbed_among, rounds_to_come};
ghost use Rattle.core_waiting.specs.Rest.{AtRest, after_rounds, is_level_announced};
ghost use Rattle.core_waiting.specs.Requests.{is_elsewhere, is_no_level_asked, is_stage_entered};

/// States in its contract that a request for another level than the one in force is carried out. The function itself
/// does nothing.
pub fn law_of_request()
    // if init is at rest with no order open after such a request, and no other level was requested since, a stage was
    // entered
    ensures heard { (goal : Goal) (between before : List Event) (level now : Level) (grace : ℕ)
        → stage_of before ≡ Some (Run now) → same_level level now ≡ false
        → IsTrue (is_no_level_asked between)
        → AtRest goal (between ++ Got (LevelAsked level grace) ∷ before)
        → IsTrue (is_idle (between ++ Got (LevelAsked level grace) ∷ before))
        → IsTrue (is_stage_entered between) }
    // the first stage entered is that level, or Boot with that level as the goal; it is entered with the grace period
    // of the request
    ensures entered { (goal : Goal) (later between before : List Event) (level now : Level)
        (grace seconds : ℕ) (stage : Stage) → IsTrue (is_sound goal
        (later ++ Enter stage seconds ∷ (between ++ Got (LevelAsked level grace) ∷ before)))
        → stage_of before ≡ Some (Run now) → same_level level now ≡ false
        → IsTrue (is_no_level_asked between) → is_stage_entered between ≡ false
        → ((stage ≡ Run level)
        ⊎ (stage ≡ Boot) × ((goal_of goal (between ++ Got (LevelAsked level grace) ∷ before)).level
        ≡ level)) × (seconds ≡ grace) }
    // after the first rest with no order open and the number of undisturbed rounds to come at it, that level is
    // announced settled, whatever the stage was at the request, and whatever happens in between except other requests
    ensures settled { (goal : Goal) (later between before : List Event)
        (rounds : List (List Event)) (level : Level) (grace : ℕ)
        → let asked : List Event = between ++ Got (LevelAsked level grace) ∷ before in
        IsTrue (is_sound goal (later ++ after_rounds rounds asked))
        → IsTrue (is_elsewhere level (stage_of before)) → IsTrue (is_no_level_asked between)
        → AreRoundsWithoutRequests goal rounds asked
        → rounds_to_come goal asked ≤ undisturbed_among rounds asked
        → IsTrue (is_level_announced (after_rounds rounds asked))
        × (stage_of (after_rounds rounds asked) ≡ Some (Run level)) }
{}
