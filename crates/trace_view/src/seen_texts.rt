//! Reads the text of a trace that arrives in pieces, and passes its happenings to a view and to another observer.

ghost use Rattle.std.specs.Prelude.{◌≡◌, ◌^◌, ◌<◌, ◌∷◌, List, ℕ, ◌++◌, [], length, true, option_map, IfOk, OnOk};
ghost use Rattle.trace_view.specs.Words.{Event, broken, stage_of, law_number};
ghost use Rattle.trace_view.specs.LastLines.{following_line};
ghost use Rattle.trace_view.specs.SeenTexts.{HasSeenText, IsSeeing, IsSeen, SeesOn};
ghost use Rattle.trace_view.specs.Viewing.{ViewAfterHappening, Viewed};

use crate::text_views::{TextView, ViewEnd};
use crate::views::TraceView;
use init_words::{Memory, Stage};
use std::alloc::{Allocator, Global};
use std::marker::Model;
use trace_check::Law;
use trace_events::HappeningIn;

/// An observer of the happenings of a trace, oldest first.
pub trait TraceObserver<A: Allocator> {
    /// The observer has seen this past, newest happening first.
    ghost has_seen: { Self → List Event → Type 0 };

    /// Creates an observer that has seen no happenings. This does not allocate.
    fn new(alloc: A) -> Self
        ensures { has_seen result [] };

    /// Observes the next happening, which begins at this line. `stage` was in force before it; the view has already
    /// seen it. If memory allocation fails, the observer must not be used any more.
    fn see(
        &mut self,
        view: &TraceView<A>,
        stage: Option<Stage>,
        line: u64,
        happening: &HappeningIn<A>,
    ) -> Result<(), Memory>
        ensures { OnOk result ((past : List Event) → Viewed view.now (happening.now ∷ past)
            → stage ≡ stage_of past → line ≡ following_line past
            → has_seen self.old past → has_seen self.new (happening.now ∷ past)) };
}

/// A view of the text of a trace, which arrives in pieces of any length, together with an observer of its happenings.
///
/// Contracts describe it by the text that it has taken (`HasSeenText`).
#[derive(Drop)]
pub struct ObservedTrace<S: Drop, A: Allocator = Global> {
    view: TextView<A>,
    seen: S,
}

impl<S: Drop, A: Allocator> Model for ObservedTrace<S, A> {
    ghost use Rattle.trace_view.specs.SeenTexts.{SeenState};

    ghost Value = { SeenState S };

    ghost view = { λ t. record { viewing = t.view; seen = t.seen } };
}

impl<S: TraceObserver<A> + Drop, A: Allocator + Copy> ObservedTrace<S, A> {
    /// Creates a view that has taken no text, with a new observer. This does not allocate.
    pub fn new(alloc: A) -> ObservedTrace<S, A>
        ensures { HasSeenText S.has_seen result [] }
    {
        ObservedTrace {
            view: TextView::new(alloc),
            seen: S::new(alloc),
        }
    }

    fn feed(&mut self, piece: &[u8]) -> Result<(), Memory>
        ensures { OnOk result ((text : List ℕ) → HasSeenText S.has_seen self.old text
            → IsSeeing S.has_seen self.new (text ++ piece.now)) }
    {
        self.view.feed(piece)
    }

    /// Passes on the next happening, if it is complete, and returns whether there may be more.
    fn see_next(&mut self) -> Result<bool, Memory>
        ensures goes { IfOk result (λ more. (text : List ℕ) → length text < 2 ^ 64
            → SeesOn S.has_seen more self.old self.new text) }
        ensures shorter { IfOk result (λ more. more ≡ true
            → length self.new.viewing.reading.over < length self.old.viewing.reading.over) }
    {
        let stage = self.view.view().stage();
        let line = self.view.lines().saturating_add(1);
        match self.view.next()? {
            Some(happening) => {
                self.seen.see(self.view.view(), stage, line, &happening)?;
                Ok(true)
            }
            None => Ok(false),
        }
    }

    /// Takes the next piece of the text, and passes on all complete happenings. If memory allocation fails, some of
    /// them may have been passed on, and the view must not be used any more.
    pub fn take(&mut self, piece: &[u8]) -> Result<(), Memory>
        ensures { OnOk result ((text : List ℕ) → length (text ++ piece.now) < 2 ^ 64
            → HasSeenText S.has_seen self.old text
            → HasSeenText S.has_seen self.new (text ++ piece.now)) }
    {
        self.feed(piece)?;
        while self.see_next()? {}
        Ok(())
    }

    /// Passes the view a happening that is not in the text, such as a consequence of those seen. If it breaks a law,
    /// returns the lowest-numbered one, and the view is unchanged. If memory allocation fails, the view must not be
    /// used any more.
    pub fn show<B: Allocator>(&mut self, happening: &HappeningIn<B>) -> Result<Option<Law>, Memory>
        ensures law { IfOk result (λ law. (past : List Event)
            → Viewed self.old.viewing.viewing past
            → option_map law_number law ≡ broken happening.now past) }
        ensures next { IfOk result (λ law. ViewAfterHappening law self.old.viewing.viewing
            self.new.viewing.viewing happening.now) }
    {
        self.view.show(happening)
    }

    /// Returns the view of the happenings seen.
    pub fn view(&self) -> &TraceView<A>
        ensures { result.now ≡ self.now.viewing.viewing }
    {
        self.view.view()
    }

    /// Returns the other observer.
    pub fn seen(&self) -> &S
        ensures { result.now ≡ self.now.seen }
    {
        &self.seen
    }

    /// Returns the reason why the view ended, if it did, and the number of the line, counted from 1, at which an
    /// incomplete happening begins, if there is one.
    pub fn end(&self) -> (Option<ViewEnd>, Option<u64>)
        ensures { (text : List ℕ) → length text < 2 ^ 64 → HasSeenText S.has_seen self.now text
            → IsSeen S.has_seen text result.0 result.1 self.now.viewing.viewing self.now.seen }
    {
        let (_, stop, open_line) = self.view.answer();
        (stop, open_line)
    }
}

/// An observer that ignores all happenings.
impl<A: Allocator> TraceObserver<A> for () {
    ghost use Rattle.std.specs.Prelude.{⊤};

    ghost has_seen = { λ _ _. ⊤ };

    fn new(_alloc: A) {}

    fn see(
        &mut self,
        _view: &TraceView<A>,
        _stage: Option<Stage>,
        _line: u64,
        _happening: &HappeningIn<A>,
    ) -> Result<(), Memory> {
        Ok(())
    }
}
