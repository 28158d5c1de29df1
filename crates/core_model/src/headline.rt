//! The headline theorem: every run of init obeys the laws, and init's records agree with the system's children.

ghost use Rattle.std.specs.Prelude.{◌≡◌, ◌≤◌, ◌+◌, ℕ, IsTrue, false, ◌&&◌, List, ◌∷◌, ◌++◌, filter, length};
ghost use Rattle.std.specs.List.{list_any, list_all};
ghost use Rattle.core_model.specs.Words.{Start, Term, Kill, WINDOW, STARTS, HOLD, Asked, Hit, Goal, Event, table_of, time_of, is_child_of, has_child, unreaped_children, known_children, is_sound, Agrees, is_unreaped, count_starts, is_order_of, is_reaping_of, is_stoppable};
ghost use Rattle.trace_events.specs.declared.happenings.Happening.TheVariants.{Hold};
ghost use Rattle.trace_events.specs.Lawful.{is_limited_id, is_lawful};
ghost use Rattle.trace_events.specs.Bounds.{obeys_respawn_limit, hits_ordered_child, at_most_one_kill};
ghost use Rattle.trace_laws.specs.Belonging.{belongs};
ghost use Rattle.trace_laws.specs.Moments.{AtEachMoment, AtEachBirth, AtEachSettle, AtEachOrder, AtEachHit, BetweenBirths, BetweenStarts, FromHoldToStart, FromOrderToHit};
ghost use Rattle.trace_laws.specs.Warnings.{WasTermedBefore};
ghost use Rattle.core_model.specs.State.{CoreState};
ghost use Rattle.core_model.specs.Fit.{ForAllFittedTraces};
ghost use Rattle.core_model.specs.Happened.{AllEarlierDone, AllMayLive, IsReached};
ghost use Rattle.core_model.specs.Headline.{is_recorded, is_without_entry};

/// States the headline theorem: the laws that hold for every initial goal and every sound trace, and for each core that
/// fits the trace. The function does nothing: its contract is the theorem.
///
/// No id has two children. No child is born outside its stage, before an earlier waited entry has ended, or while a
/// child that the stage excludes is unreaped. Whenever a level is announced settled, every living child belongs to an
/// entry of it. The children in init's records, corrected for the answers not yet told to init, are the children of the
/// system. The respawn limit holds at each start, and the signals that stop a child are sent in their order and not too
/// early.
pub fn law_agreement()
    // no happening of a sound trace breaks one of the seven laws
    ensures lawful { (goal : Goal) (trace : List Event)
        → IsTrue (is_sound goal trace) → IsTrue (is_lawful trace) }
    // at each moment, no id has two unreaped children
    ensures one_child { AtEachMoment (λ past.
        (id : List ℕ) → length (filter (is_child_of id) (unreaped_children past)) ≤ 1) }
    // between two births for an id, the first child is reaped
    ensures reaped_between { BetweenBirths (λ id m between.
        IsTrue (list_any (is_reaping_of id m) between)) }
    // at each birth, each waited entry before that of the id is through: each of its children was reaped, and init was
    // told of the end; and if its action is sysinit, bootwait or wait and it starts in the stage, a Start of it was
    // ordered and answered
    ensures through { AtEachBirth AllEarlierDone }
    // at each birth, each unreaped child may live in the stage
    ensures living { AtEachBirth (λ id past. AllMayLive past) }
    // when a level is announced settled, it is reached: each unreaped child may live in it, each waited entry is
    // through, each wait and once entry of the level was started, and each respawn entry of the level has a child or is
    // held
    ensures reached { AtEachSettle IsReached }
    // and each unreaped child belongs to an entry of the level
    ensures of_level { AtEachSettle (λ level past.
        IsTrue (list_all (belongs level past) (unreaped_children past))) }
    // when a KILL is ordered, init was told at least a grace period ago that a TERM was sent to the child since it
    // became excluded
    ensures warned { AtEachOrder Kill WasTermedBefore }
    // at each moment, the unreaped children, as pairs of id and number, are the known children, minus those whose end
    // init was not told yet, plus those whose birth init was not told yet
    ensures agreement { AtEachMoment (λ past. (id : List ℕ) (n : ℕ) → Agrees id n past) }
    // for each core that fits the trace, the unreaped children, as pairs of id and number, are those in the core's
    // records, minus those whose reaping init was not told yet, plus those whose birth init was not told yet; and no id
    // has two
    ensures records { (core : CoreState)
        → ForAllFittedTraces core (λ goal past. (id : List ℕ) (n : ℕ)
        → is_unreaped id n past ≡ is_recorded id n core past) }
    ensures one_record { (core : CoreState) → ForAllFittedTraces core (λ goal past.
        (id : List ℕ) (m n : ℕ)
        → IsTrue (is_recorded id m core past) → IsTrue (is_recorded id n core past) → m ≡ n) }
    // the number of records is at most the number of entries plus the number of known children without an entry
    ensures bounded { (core : CoreState) → ForAllFittedTraces core (λ goal past.
        length core.slots ≤ length (table_of past)
        + length (filter (is_without_entry (table_of past)) (known_children past))) }
    // if the respawn limit applies to an entry, then, while no stage is entered and no table is read, its eleventh
    // start is at least two minutes after its first, and a start after a hold is at least five minutes after it
    ensures paced { AtEachOrder Start
        (λ id past. IsTrue (obeys_respawn_limit (Asked id Start) past)) }
    // the same law for pairs of happenings: two starts with at least nine others in between, or a hold and a later
    // start
    ensures apart { BetweenStarts (λ id between past.
        STARTS ≤ count_starts id between + 1 → IsTrue (is_limited_id id past)
        → time_of past + WINDOW ≤ time_of (between ++ Asked id Start ∷ past)) }
    ensures rested { FromHoldToStart (λ id between past.
        time_of past + HOLD ≤ time_of (between ++ Hold id ∷ past)) }
    // a signal that is sent reaches the child that was known when the signal was ordered, which is still unreaped and
    // excluded
    ensures on_target { AtEachHit (λ id past. IsTrue (hits_ordered_child (Hit id) past)) }
    // the same law for pairs of happenings: an order, and a later Hit with no other order for the id in between
    ensures on_order { FromOrderToHit (λ id ask between past.
        list_any (is_order_of id) between ≡ false → IsTrue (has_child id (known_children past))
        × IsTrue (list_all (is_stoppable id (between ++ Asked id ask ∷ past))
        (filter (is_child_of id) (known_children past)))) }
    // for each unreaped child, init is told of at most one sent KILL after the child became excluded
    ensures killed_once { AtEachMoment (λ past. IsTrue (at_most_one_kill past)) }
{}
