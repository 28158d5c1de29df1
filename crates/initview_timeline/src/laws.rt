//! Laws about each row of a timeline, drawn as lines or as a picture.

ghost use Rattle.std.specs.Prelude.{◌≡◌, ◌≤◌, ◌<◌, ◌+◌, ◌*◌, ◌-◌, ◌^◌, ℕ, List, filter, length};
ghost use Rattle.initview_timeline.specs.declared.frames.Frame.{Frame};
ghost use Rattle.initview_timeline.specs.declared.frames.TheConstants.{BAR_LEAST};
ghost use Rattle.initview_timeline.specs.Frames.{left_of, place_of, span_of, width_of};
ghost use Rattle.initview_timeline.specs.Laws.{births, is_fault, lives_drawn, id_marks};
ghost use Rattle.initview_timeline.specs.Lives.{lives_of};
ghost use Rattle.initview_timeline.specs.Pieces.{has_failed};
ghost use Rattle.initview_timeline.specs.Rows.{Scene, row_of};

/// States the properties of every row of a timeline. The function does nothing; its contract states the law.
pub fn law_of_rows()
    // A row has one life for each birth of its id, in order, and each life begins at the birth.
    ensures lives { (s : Scene) (id : List ℕ)
        → lives_drawn (row_of s id).pieces.bars ≡ births (id_marks s id) }
    // A row has one fault mark for each failed life, for each SIGKILL that was sent, and for each start that failed.
    ensures faults { (s : Scene) (id : List ℕ) → length (row_of s id).pieces.signs
        ≡ length (filter has_failed (lives_of (id_marks s id))) + length
        (filter is_fault (id_marks s id)) }
    // A later time is not drawn at an earlier position.
    ensures order { (f : Frame) (time later : ℕ)
        → time ≤ later → place_of f time ≤ place_of f later }
    // A time within the drawing is drawn to scale, less than one position too early.
    ensures scale { (f : Frame) (time : ℕ) → f.start ≤ time → time ≤ f.end → f.start < f.end
        → f.end * f.last < 2 ^ 64
        → (place_of f time * span_of f ≤ (time - f.start) * f.last)
        × ((time - f.start) * f.last < (place_of f time + 1) * span_of f) }
    // No time is drawn after the last position, and no bar ends after it.
    ensures within { (f : Frame) (time : ℕ) → place_of f time ≤ f.last }
    ensures bars_within { (f : Frame) (from to : ℕ) → BAR_LEAST ≤ f.last
        → left_of f from to + width_of f from to ≤ f.last }
{}
