//! The part of a brief trace that is held back, because it may still be changed or omitted when the next happening
//! comes.

ghost use Rattle.std.specs.Prelude.{◌≡◌, None, Some, false, if◌then◌else◌};
ghost use Rattle.init_words.specs.Ids.{same_id};
ghost use Rattle.trace_log_wrappers.specs.Holding.{held_back, held_back_by, held_behind, is_bare, greater_reading};

use init_words::{Id, OrderKind};
use std::alloc::Allocator;
use trace_events::{Happening, HappeningIn};

/// A look that is held back. It is omitted if it found nothing and `told` is the next happening.
#[derive(Clone, Copy)]
pub enum HeldLook {
    /// The look was ordered.
    Ordered(Id),
    /// The look was ordered and found nothing.
    FoundNothing(Id),
}

/// The happenings held back from a brief trace, oldest first: at most one reading of the clock, one round, and one
/// look, whose order and result are two happenings.
#[derive(Clone, Copy)]
pub struct HeldBack {
    /// The reading of the clock, in seconds since 1970.
    pub reading: Option<u64>,
    /// Whether a round is held.
    pub round: bool,
    pub look: Option<HeldLook>,
    /// Whether the last happening written is the order of a look (`ask ID look`) or its empty result (`still ID`). This
    /// matters only if neither a reading nor a round is held.
    pub within: bool,
}

impl HeldBack {
    /// Returns the state before the first happening: nothing is held, and nothing was written.
    pub fn new() -> HeldBack
        ensures { result ≡ record { reading = None; round = false; look = None; within = false } }
    {
        HeldBack {
            reading: None,
            round: false,
            look: None,
            within: false,
        }
    }

    /// Returns whether neither a reading nor a round is held.
    fn is_bare(&self) -> bool
        ensures { result ≡ is_bare self.now }
    {
        !self.round && self.reading.is_none()
    }

    /// Returns the state after this happening is held back, or `None` if it can't be: then all happenings held back
    /// must be written now, followed by this one.
    pub fn hold_back<A: Allocator>(&self, happening: &HappeningIn<A>) -> Option<HeldBack>
        ensures { result ≡ held_back happening.now self.now }
    {
        match &self.look {
            None => self.hold_first(happening),
            Some(HeldLook::Ordered(looked)) => match happening {
                Happening::Still(id) => self.if_same(
                    id,
                    looked,
                    Some(HeldLook::FoundNothing(*looked)),
                ),
                _ => None,
            },
            Some(HeldLook::FoundNothing(looked)) => match happening {
                Happening::Told(id) => self.if_same(id, looked, None),
                _ => None,
            },
        }
    }

    /// Does the same as `hold_back` when no look is held.
    fn hold_first<A: Allocator>(&self, happening: &HappeningIn<A>) -> Option<HeldBack>
        ensures { result ≡ held_back_by happening.now None self.now }
    {
        match happening {
            Happening::Clock(reading) => Some(HeldBack {
                reading: Some(greater_reading(*reading, self.reading)),
                ..*self
            }),
            Happening::Nudge => Some(HeldBack {
                round: true,
                ..*self
            }),
            Happening::Asked(id, OrderKind::Look) => {
                if self.is_bare() && self.within {
                    None
                } else {
                    Some(self.with_look(Some(HeldLook::Ordered(*id))))
                }
            }
            _ => None,
        }
    }

    /// Returns the state with the held look replaced by `look` if the two ids are equal, and `None` otherwise.
    fn if_same(&self, id: &Id, looked: &Id, look: Option<HeldLook>) -> Option<HeldBack>
        ensures { result ≡ if same_id id.now looked.now
            then Some (record self.now { look = look }) else None }
    {
        if *id == *looked {
            Some(self.with_look(look))
        } else {
            None
        }
    }

    fn with_look(&self, look: Option<HeldLook>) -> HeldBack
        ensures { result ≡ record self.now { look = look } }
    {
        HeldBack { look, ..*self }
    }

    /// Returns the state after a happening for which `hold_back` returned `None`. The happening has been written,
    /// unless it is a reading or a round: then it is the only one held back.
    pub fn behind<A: Allocator>(happening: &HappeningIn<A>) -> HeldBack
        ensures { result ≡ held_behind happening.now }
    {
        match happening {
            Happening::Clock(reading) => HeldBack {
                reading: Some(*reading),
                round: false,
                look: None,
                within: true,
            },
            Happening::Nudge => HeldBack {
                reading: None,
                round: true,
                look: None,
                within: true,
            },
            Happening::Asked(_, OrderKind::Look) | Happening::Still(_) => HeldBack {
                within: true,
                ..HeldBack::new()
            },
            _ => HeldBack::new(),
        }
    }
}

/// Returns the greater of a reading and an earlier one, if there is an earlier one.
fn greater_reading(reading: u64, before: Option<u64>) -> u64
    ensures { result ≡ greater_reading reading before }
{
    match before {
        None => reading,
        Some(before) => reading.max(before),
    }
}
