//! The line number of the last happening of each kind.

ghost use Rattle.std.specs.Prelude.{◌≡◌, ℕ, List, ◌∷◌, OnOk};
ghost use Rattle.trace_view.specs.Words.{Event, stage_of, at};
ghost use Rattle.trace_view.specs.LastLines.{Lined, born_in, early_in, held_in, is_entering, is_table, kinds_of, last_line, last_of, later, line_after, line_at_fault, following_line, names, ordered_in, reaped_in, unborn_in, wish_line};

use crate::children::{is_early, newborn};
use crate::rows::{ById, empty_map, of_id};
use crate::seen_texts::TraceObserver;
use crate::views::TraceView;
use crate::whys::Why;
use crate::wishes::Wish;
use init_words::{Id, Memory, Stage};
use initctl_frame::HeardRequest;
use inittab_text::Table;
use std::alloc::{Allocator, Global};
use std::marker::Model;
use trace_events::{Happening, HappeningIn, is_level};

/// A line number for each id.
type LineById<A> = ById<u64, A>;

/// The line numbers of the last happenings that do not concern an id.
#[derive(Clone, Copy, Default)]
pub(crate) struct KindLines {
    /// A table.
    pub(crate) table: Option<u64>,
    /// The beginning of a stage.
    pub(crate) entering: Option<u64>,
    /// A request for a re-execution.
    pub(crate) reexec: Option<u64>,
    /// A request to reread inittab.
    pub(crate) reread: Option<u64>,
    /// A request for a level.
    pub(crate) goal: Option<u64>,
    /// A request to call entries by a letter, or for a power event.
    pub(crate) news: Option<u64>,
}

/// The line number, counted from 1, of the last happening of each kind that can prevent an entry from being started.
///
/// Contracts describe these lines by the trace that they are from (`Lined`).
#[derive(Drop)]
pub struct LastLines<A: Allocator = Global> {
    kinds: KindLines,
    births: LineById<A>,
    early: LineById<A>,
    failures: LineById<A>,
    reapings: LineById<A>,
    orders: LineById<A>,
    holds: LineById<A>,
}

impl<A: Allocator> Model for LastLines<A> {
    ghost use Rattle.trace_view.specs.LastLines.{LinesState};

    ghost Value = { LinesState };

    ghost view = { λ l. record {
      kinds = l.kinds;
      births = l.births.entries;
      early = l.early.entries;
      failures = l.failures.entries;
      reapings = l.reapings.entries;
      orders = l.orders.entries;
      holds = l.holds.entries;
    } };
}

/// Returns whether the happening is a table.
pub(crate) fn is_table<B: Allocator>(happening: &HappeningIn<B>) -> bool
    ensures { result ≡ is_table happening.now }
{
    matches!(happening, Happening::NewTable(_))
}

fn born_in<B: Allocator>(happening: &HappeningIn<B>) -> Option<Id>
    ensures { result ≡ born_in happening.now }
{
    match happening {
        Happening::Birth(id, _) => Some(*id),
        _ => None,
    }
}

/// Returns the id of a child that is born before the first level, if the happening is such a birth.
fn early_in<A: Allocator, B: Allocator>(table: &Table<A>, happening: &HappeningIn<B>) -> Option<Id>
    ensures { result ≡ early_in table.now happening.now }
{
    match happening {
        Happening::Birth(id, number) if is_early(&newborn(table, *id, *number)) => Some(*id),
        _ => None,
    }
}

fn unborn_in<B: Allocator>(happening: &HappeningIn<B>) -> Option<Id>
    ensures { result ≡ unborn_in happening.now }
{
    match happening {
        Happening::NoBirth(id) => Some(*id),
        _ => None,
    }
}

fn reaped_in<B: Allocator>(happening: &HappeningIn<B>) -> Option<Id>
    ensures { result ≡ reaped_in happening.now }
{
    match happening {
        Happening::Reaped(id, _, _) => Some(*id),
        _ => None,
    }
}

fn ordered_in<B: Allocator>(happening: &HappeningIn<B>) -> Option<Id>
    ensures { result ≡ ordered_in happening.now }
{
    match happening {
        Happening::Asked(id, _) => Some(*id),
        _ => None,
    }
}

fn held_in<B: Allocator>(happening: &HappeningIn<B>) -> Option<Id>
    ensures { result ≡ held_in happening.now }
{
    match happening {
        Happening::Hold(id) => Some(*id),
        _ => None,
    }
}

/// Returns the later of two lines, either of which may be missing.
fn later(line: Option<u64>, other: Option<u64>) -> Option<u64>
    ensures { result ≡ later line other }
{
    match (line, other) {
        (None, _) => other,
        (Some(_), None) => line,
        (Some(line), Some(other)) => Some(line.max(other)),
    }
}

/// Stores the line for the id, if an id is given.
fn mark<A: Allocator>(lines: &mut LineById<A>, id: Option<Id>, line: u64) -> Result<(), Memory>
    ensures { OnOk result ((other : List ℕ) → at other lines.new.entries
        ≡ line_after (names other id) line (at other lines.old.entries)) }
{
    if let Some(id) = id {
        lines.insert(id, line)?;
    }
    Ok(())
}

impl KindLines {
    /// Returns the line numbers after the happening at this line; `stage` was in force before it.
    fn after<B: Allocator>(
        self,
        stage: Option<Stage>,
        line: u64,
        happening: &HappeningIn<B>,
    ) -> KindLines
        ensures { (past : List Event) → stage ≡ stage_of past → line ≡ following_line past
            → self ≡ kinds_of past → result ≡ kinds_of (happening.now ∷ past) }
    {
        let line = Some(line);
        match happening {
            Happening::NewTable(_) => KindLines {
                table: line,
                ..self
            },
            Happening::Enter(_, _) => KindLines {
                entering: line,
                ..self
            },
            Happening::Got(HeardRequest::Reexec) => KindLines {
                reexec: line,
                ..self
            },
            Happening::Got(HeardRequest::Reload) => KindLines {
                reread: line,
                ..self
            },
            Happening::Got(HeardRequest::Level(level, _)) if is_level(*level, stage) => {
                KindLines { goal: line, ..self }
            }
            Happening::Got(HeardRequest::Level(_, _)) => KindLines {
                reread: line,
                goal: line,
                ..self
            },
            Happening::Got(HeardRequest::Call(_) | HeardRequest::Power(_)) => {
                KindLines { news: line, ..self }
            }
            _ => self,
        }
    }
}

impl<A: Allocator> LastLines<A> {
    /// Returns the line of the last birth of a child of an id.
    fn birth(&self, id: &Id) -> Option<u64>
        ensures { (past : List Event) → Lined self.now past → result ≡ last_of born_in id.now past }
    {
        of_id(&self.births, id)
    }

    /// Returns the line of the last start of an id, including one that failed.
    fn start(&self, id: &Id) -> Option<u64>
        ensures { (past : List Event) → Lined self.now past
            → result ≡ later (last_of born_in id.now past) (last_of unborn_in id.now past) }
    {
        later(self.birth(id), of_id(&self.failures, id))
    }

    /// Returns the line of the last birth of a child of an id, or of its reaping if that is later.
    fn child(&self, id: &Id) -> Option<u64>
        ensures { (past : List Event) → Lined self.now past
            → result ≡ later (last_of born_in id.now past) (last_of reaped_in id.now past) }
    {
        later(self.birth(id), of_id(&self.reapings, id))
    }

    /// Returns the line since which init has been waiting for an id.
    fn awaited(&self, id: &Id) -> Option<u64>
        ensures { (past : List Event) → Lined self.now past
            → result ≡ later (last_of born_in id.now past) (last_line is_entering past) }
    {
        later(self.birth(id), self.kinds.entering)
    }

    /// Returns the line of the last order for an id.
    fn order(&self, id: &Id) -> Option<u64>
        ensures { (past : List Event) → Lined self.now past
            → result ≡ last_of ordered_in id.now past }
    {
        of_id(&self.orders, id)
    }

    /// Returns the line of the last hold of an id.
    fn hold(&self, id: &Id) -> Option<u64>
        ensures { (past : List Event) → Lined self.now past → result ≡ last_of held_in id.now past }
    {
        of_id(&self.holds, id)
    }

    /// Returns the line of a pending request.
    fn wish(&self, wish: Wish) -> Option<u64>
        ensures { (past : List Event) → Lined self.now past → result ≡ wish_line wish past }
    {
        match wish {
            Wish::Reexec => self.kinds.reexec,
            Wish::Reread => self.kinds.reread,
            Wish::Level(_) => self.kinds.goal,
            Wish::News => self.kinds.news,
        }
    }

    /// Returns the line that explains why the id is not started, if there is such a line.
    pub fn line_at_fault(&self, id: &Id, why: Why) -> Option<u64>
        ensures { (past : List Event) → Lined self.now past
            → result ≡ line_at_fault id.now why past }
    {
        match why {
            Why::NoEntry => self.kinds.table,
            Why::NeverStarts => self.kinds.table,
            Why::NoStage => None,
            Why::RanBefore => of_id(&self.early, id),
            Why::StageOver => self.kinds.entering,
            Why::StageOwed(awaited) => self.awaited(&awaited),
            Why::OtherStage => self.kinds.entering,
            Why::ChildKept(_) => self.child(id),
            Why::OrderOpen(_) => self.order(id),
            Why::NotCalled => later(self.kinds.entering, self.kinds.table),
            Why::WasStarted => self.start(id),
            Why::EarlierOwed(earlier) => self.awaited(&earlier),
            Why::ExcludedKept(child) => self.birth(&child.id),
            Why::WishStands(wish) => self.wish(wish),
            Why::Held(_) => self.hold(id),
            Why::WindowFull => self.start(id),
            Why::Nothing => None,
        }
    }
}

impl<A: Allocator + Copy> TraceObserver<A> for LastLines<A> {
    ghost has_seen = { Lined };

    fn new(alloc: A) -> LastLines<A> {
        LastLines {
            kinds: KindLines::default(),
            births: empty_map(alloc),
            early: empty_map(alloc),
            failures: empty_map(alloc),
            reapings: empty_map(alloc),
            orders: empty_map(alloc),
            holds: empty_map(alloc),
        }
    }

    fn see(
        &mut self,
        view: &TraceView<A>,
        stage: Option<Stage>,
        line: u64,
        happening: &HappeningIn<A>,
    ) -> Result<(), Memory> {
        mark(&mut self.births, born_in(happening), line)?;
        mark(&mut self.early, early_in(view.table(), happening), line)?;
        mark(&mut self.failures, unborn_in(happening), line)?;
        mark(&mut self.reapings, reaped_in(happening), line)?;
        mark(&mut self.orders, ordered_in(happening), line)?;
        mark(&mut self.holds, held_in(happening), line)?;
        self.kinds = self.kinds.after(stage, line, happening);
        Ok(())
    }
}
