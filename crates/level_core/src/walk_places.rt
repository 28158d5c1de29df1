//! The entries of the table that a search for starts must visit.

ghost use Rattle.std.specs.Prelude.{◌≡◌, ◌||◌, ◌==◌, ℕ, Bool, true, false};
ghost use Rattle.level_core.specs.declared.walk_places.Places.{Places};
ghost use Rattle.level_core.specs.Between.{AllExcept};

/// The entries that a search must visit, because they may have to be started or waited for: the one at `first`, and all
/// from `next` on.
#[derive(Clone, Copy)]
pub(crate) struct Places {
    pub(crate) first: usize,
    pub(crate) next: usize,
}

impl Places {
    /// Returns the places that include all entries.
    pub(crate) fn all() -> Places
        ensures { result ≡ record { first = 0; next = 0 } }
    {
        Places { first: 0, next: 0 }
    }

    /// Adds the entry at the position.
    pub(crate) fn with(self, position: usize) -> Places
        ensures { (passed : ℕ → Bool) → AllExcept (λ i. i == position || passed i) self
            → AllExcept passed result }
    {
        if position >= self.next || position == self.first {
            return self;
        }
        if position < self.first {
            return Places {
                first: position,
                next: self.first,
            };
        }
        Places {
            first: self.first,
            next: position,
        }
    }

    /// Adds the entry at the position if the condition holds.
    pub(crate) fn with_if(self, position: usize, counts: bool) -> Places
        ensures { (passed : ℕ → Bool)
            → (counts ≡ true → AllExcept (λ i. i == position || passed i) self)
            → (counts ≡ false → AllExcept passed self) → AllExcept passed result }
    {
        if counts { self.with(position) } else { self }
    }

    /// Adds all entries if the search must begin again.
    pub(crate) fn all_if(self, anew: bool) -> Places
        ensures { (passed : ℕ → Bool) → (anew ≡ false → AllExcept passed self)
            → AllExcept passed result }
    {
        if anew { Places::all() } else { self }
    }
}
