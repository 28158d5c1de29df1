//! The laws of state texts: no text is a prefix of another, and each text represents only one state.

ghost use Rattle.std.specs.Prelude.{◌≡◌, ◌++◌, ℕ, List, []};
ghost use Rattle.core_text.specs.CommonWords.{SavedState};
ghost use Rattle.core_text.specs.Refused.{IsTextOf, Whole};

/// States in its contract that a text that was cut short is never mistaken for a whole one. The function itself does
/// nothing.
///
/// No proper prefix of the text of a state is whole, because no line before the last one begins with `end `. So no
/// proper prefix is the text of a state.
pub fn law_of_prefixes()
    ensures whole { (text front more : List ℕ) (state : SavedState) → IsTextOf text state
        → front ++ more ≡ text → Whole front → more ≡ [] }
    ensures said { (text more : List ℕ) (state other : SavedState)
        → IsTextOf text state → IsTextOf (text ++ more) other → more ≡ [] }
{}

/// States in its contract that two states with the same text are equal, whichever versions they are written in. The
/// function itself does nothing.
pub fn law_of_texts()
    ensures { (text : List ℕ) (state other : SavedState)
        → IsTextOf text state → IsTextOf text other → state ≡ other }
{}
