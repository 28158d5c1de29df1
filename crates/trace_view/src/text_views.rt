//! A view of the text of a trace that arrives in pieces.

ghost use Rattle.std.specs.Prelude.{◌≡◌, ◌^◌, ◌<◌, List, ℕ, ◌++◌, [], length, true, None, is_some, option_map, reverse, IfOk, OnOk};
ghost use Rattle.trace_view.specs.Words.{Event, broken, line_left, capped, law_number};
ghost use Rattle.trace_view.specs.Viewing.{ViewAfterHappening, Viewed};
ghost use Rattle.trace_view.specs.Shown.{IsShown};
ghost use Rattle.trace_view.specs.Views.{ViewGoesOn, HasShown, IsAt, SeesStop, left_of, may_be, seen_by};

use crate::last_lines::is_table;
use crate::views::TraceView;
use init_words::Memory;
use std::alloc::{Allocator, Global};
use std::marker::Model;
use trace_check::Law;
use trace_events::HappeningIn;
use trace_text::ReadFault;
use trace_verdict::TextReader;

/// The reason why a view ended.
#[derive(Clone, Copy)]
pub enum ViewEnd {
    /// The happening at the line with this number, counted from 1, breaks this law, and no lower-numbered one.
    Breach(Law, u64),
    /// No happening begins at the line with this number, counted from 1.
    Torn(u64),
    /// The first happening is not a table: the text begins in the middle of a run.
    Within,
}

/// A view of the text of a trace, which arrives in pieces of any length.
///
/// The view ends before the first happening that breaks a law, and at the first line at which no happening begins. It
/// shows no happening of a text that begins in the middle of a run. Contracts describe it by the text that it has taken
/// (`HasShown`).
#[derive(Drop)]
pub struct TextView<A: Allocator = Global> {
    reader: TextReader<A>,
    view: TraceView<A>,
    stop: Option<ViewEnd>,
}

impl<A: Allocator> Model for TextView<A> {
    ghost use Rattle.trace_view.specs.Views.{TextState};

    ghost Value = { TextState };

    ghost view = { λ v. record { reading = v.reader; viewing = v.view; stop = v.stop } };
}

/// Returns whether a run can have the happening at this line. The first happening of a run must be a table.
fn may_be<B: Allocator>(line: u64, happening: &HappeningIn<B>) -> bool
    ensures { result ≡ may_be line happening.now }
{
    line != 1 || is_table(happening)
}

/// Passes the next happening, which begins at this line, to a view.
fn see_next<A: Allocator + Copy, B: Allocator>(
    view: &mut TraceView<A>,
    line: u64,
    happening: &HappeningIn<B>,
) -> Result<Option<ViewEnd>, Memory>
    ensures { IfOk result (λ stop. SeesStop stop view.old view.new happening.now line) }
{
    if !may_be(line, happening) {
        return Ok(Some(ViewEnd::Within));
    }
    match view.take(happening)? {
        Some(law) => Ok(Some(ViewEnd::Breach(law, line))),
        None => Ok(None),
    }
}

/// Returns the happening, unless the view ended before it.
fn seen_by<A: Allocator>(stop: Option<ViewEnd>, happening: HappeningIn<A>) -> Option<HappeningIn<A>>
    ensures { result ≡ seen_by stop happening }
{
    match stop {
        Some(_) => None,
        None => Some(happening),
    }
}

impl<A: Allocator + Copy> TextView<A> {
    /// Creates a view that has taken no text. This does not allocate.
    pub fn new(alloc: A) -> TextView<A>
        ensures { HasShown result [] [] }
    {
        TextView {
            reader: TextReader::new(alloc),
            view: TraceView::new(alloc),
            stop: None,
        }
    }

    /// Takes the next piece of the text without reading its happenings yet.
    pub fn feed(&mut self, piece: &[u8]) -> Result<(), Memory>
        ensures { OnOk result ((trace : List Event) (text : List ℕ) → HasShown self.old trace text
            → IsAt self.new trace (text ++ piece.now)) }
    {
        if let Some(_) = self.stop {
            return Ok(());
        }
        self.reader.feed(piece)?;
        Ok(())
    }

    /// Reads the next happening into the view and returns it, or `None` if it is incomplete or the view has ended. If
    /// memory allocation fails, the view must not be used any more.
    pub fn next(&mut self) -> Result<Option<HappeningIn<A>>, Memory>
        ensures goes { IfOk result (λ next. (trace : List Event) (text : List ℕ)
            → length text < 2 ^ 64 → ViewGoesOn next self.old self.new trace text) }
        ensures shorter { IfOk result (λ next. is_some next ≡ true
            → length self.new.reading.over < length self.old.reading.over) }
        ensures unstopped { IfOk result (λ next. is_some next ≡ true → self.old.stop ≡ None) }
    {
        if let Some(_) = self.stop {
            return Ok(None);
        }
        let line = self.reader.lines().saturating_add(1);
        match self.reader.next() {
            Ok(Some(happening)) => {
                let stop = see_next(&mut self.view, line, &happening)?;
                self.stop = stop;
                Ok(seen_by(stop, happening))
            }
            Ok(None) => Ok(None),
            Err(ReadFault::Line(number)) => {
                self.stop = Some(ViewEnd::Torn(number));
                Ok(None)
            }
            Err(ReadFault::Memory) => Err(Memory),
        }
    }

    /// Returns the number of lines read. Until the view ends, these are the lines of the happenings seen.
    pub fn lines(&self) -> u64
        ensures { result ≡ self.now.reading.lines }
    {
        self.reader.lines()
    }

    /// Passes the view a happening that is not in the text. If it breaks a law, returns the lowest-numbered one, and
    /// the view is unchanged. If memory allocation fails, the view must not be used any more.
    pub(crate) fn show<B: Allocator>(
        &mut self,
        happening: &HappeningIn<B>,
    ) -> Result<Option<Law>, Memory>
        ensures law { IfOk result (λ law. (past : List Event) → Viewed self.old.viewing past
            → option_map law_number law ≡ broken happening.now past) }
        ensures next { IfOk result (λ law.
            ViewAfterHappening law self.old.viewing self.new.viewing happening.now) }
    {
        self.view.take(happening)
    }

    /// Returns the view of the happenings seen.
    pub fn view(&self) -> &TraceView<A>
        ensures { result.now ≡ self.now.viewing }
    {
        &self.view
    }

    fn open_line(&self) -> Option<u64>
        ensures { result ≡ left_of self.now.stop
            (option_map capped (line_left self.now.reading.lines self.now.reading.over)) }
    {
        match self.stop {
            Some(_) => None,
            None => self.reader.open_line(),
        }
    }

    /// Returns the view of the complete happenings; the reason why the view ended, if it did; and the number of the
    /// line, counted from 1, at which an incomplete happening begins, if there is one.
    pub fn answer(&self) -> (&TraceView<A>, Option<ViewEnd>, Option<u64>)
        ensures { (trace : List Event) (text : List ℕ) → length text < 2 ^ 64
            → HasShown self.now trace text
            → IsShown text result.1 result.2 trace × Viewed result.0.now (reverse trace) }
    {
        let open_line = self.open_line();
        (&self.view, self.stop, open_line)
    }
}
