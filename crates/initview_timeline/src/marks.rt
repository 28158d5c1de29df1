//! The marks of a timeline: the events of a trace that it shows, with their times.

ghost use Rattle.std.specs.Prelude.{◌≡◌, ◌∷◌, ◌++◌, List, OnOk};
ghost use Rattle.trace_events.specs.Event.{Event};
ghost use Rattle.trace_events.specs.Past.{time_of};
ghost use Rattle.trace_view.specs.Viewing.{Viewed};
ghost use Rattle.initview_timeline.specs.Marks.{mark_at, sent_for, shown_of, start_after};

use init_words::{ChildNumber, Id, Level, Memory, OrderKind, SignalKind, Stage, Status};
use std::alloc::{Allocator, Global};
use std::marker::Model;
use trace_events::{Happening, HappeningIn};
use trace_view::{TraceObserver, TraceView};

/// An event that a timeline shows.
#[derive(Clone, Copy)]
pub enum Shown {
    /// Init adopted a table.
    Read,
    /// A stage was entered.
    Entered(Stage),
    /// A runlevel was announced settled.
    Settled(Level),
    /// A child of the id was born, with this number.
    Born(Id, ChildNumber),
    /// A start of the id failed.
    NotBorn(Id),
    /// The child with this number was reaped, with this status.
    Ended(Id, ChildNumber, Status),
    /// A signal was sent to the child of the id.
    Sent(Id, SignalKind),
    /// The id was held for five minutes.
    Held(Id),
}

/// An event that a timeline shows, and its time in seconds.
#[derive(Clone, Copy)]
pub struct TimelineMark {
    pub time: u64,
    pub what: Shown,
}

/// Returns the event for a signal that was sent because of this order, if the order is for a signal.
fn sent_for(id: Id, order: Option<OrderKind>) -> Option<Shown>
    ensures { result ≡ sent_for id order }
{
    match order {
        Some(OrderKind::Term) => Some(Shown::Sent(id, SignalKind::Term)),
        Some(OrderKind::Kill) => Some(Shown::Sent(id, SignalKind::Kill)),
        _ => None,
    }
}

/// Returns the event that the timeline shows for the last happening that the view has seen, if any.
fn shown_of<A: Allocator, B: Allocator>(
    view: &TraceView<A>,
    happening: &HappeningIn<B>,
) -> Option<Shown>
    ensures { (past : List Event) → Viewed view.now (happening.now ∷ past)
        → result ≡ shown_of happening.now past }
{
    match happening {
        Happening::NewTable(_) => Some(Shown::Read),
        Happening::Enter(stage, _) => Some(Shown::Entered(*stage)),
        Happening::Settle(level) => Some(Shown::Settled(*level)),
        Happening::Hold(id) => Some(Shown::Held(*id)),
        Happening::Birth(id, number) => Some(Shown::Born(*id, *number)),
        Happening::NoBirth(id) => Some(Shown::NotBorn(*id)),
        Happening::Reaped(id, number, status) => Some(Shown::Ended(*id, *number, *status)),
        Happening::Hit(id) => sent_for(*id, view.order(id)),
        _ => None,
    }
}

/// Adds a mark for an event, if there is one.
fn add_mark<A: Allocator>(
    marks: &mut Vec<TimelineMark, A>,
    time: u64,
    shown: Option<Shown>,
) -> Result<(), Memory>
    ensures { OnOk result (marks.new.items ≡ marks.old.items ++ mark_at time shown) }
{
    if let Some(what) = shown {
        marks.push(TimelineMark { time, what })?;
    }
    Ok(())
}

/// Adds the mark for the last happening that the view has seen, if it has one.
fn take_mark<A: Allocator, B: Allocator>(
    marks: &mut Vec<TimelineMark, A>,
    view: &TraceView<A>,
    happening: &HappeningIn<B>,
) -> Result<(), Memory>
    ensures { OnOk result ((past : List Event) → Viewed view.now (happening.now ∷ past)
        → marks.new.items
        ≡ marks.old.items
        ++ mark_at (time_of (happening.now ∷ past)) (shown_of happening.now past)) }
{
    let shown = shown_of(view, happening);
    add_mark(marks, view.time(), shown)?;
    Ok(())
}

/// Returns the first reading of the clock after one more happening.
fn start_after<B: Allocator>(start: Option<u64>, happening: &HappeningIn<B>) -> Option<u64>
    ensures { result ≡ start_after start happening.now }
{
    match (start, happening) {
        (None, Happening::Clock(time)) => Some(*time),
        _ => start,
    }
}

/// The marks of the happenings seen, oldest first, and the first reading of the clock.
#[derive(Drop)]
pub struct Marks<A: Allocator = Global> {
    marks: Vec<TimelineMark, A>,
    start: Option<u64>,
}

impl<A: Allocator> Model for Marks<A> {
    ghost use Rattle.initview_timeline.specs.Marks.{SeenMarks};

    ghost Value = { SeenMarks };

    ghost view = { λ m. record { marks = m.marks.items; start = m.start } };
}

impl<A: Allocator> Marks<A> {
    pub fn as_slice(&self) -> &[TimelineMark]
        ensures { result.now ≡ self.now.marks }
    {
        self.marks.as_slice()
    }

    /// Returns the first reading of the clock, in seconds.
    pub fn start(&self) -> Option<u64>
        ensures { result ≡ self.now.start }
    {
        self.start
    }
}

impl<A: Allocator + Copy> TraceObserver<A> for Marks<A> {
    ghost use Rattle.std.specs.Prelude.{◌≡◌};
    ghost use Rattle.initview_timeline.specs.Marks.{seen_of};

    ghost has_seen = { λ marks past. marks ≡ seen_of past };

    fn new(alloc: A) -> Marks<A> {
        Marks {
            marks: Vec::new(alloc),
            start: None,
        }
    }

    fn see(
        &mut self,
        view: &TraceView<A>,
        _stage: Option<Stage>,
        _line: u64,
        happening: &HappeningIn<A>,
    ) -> Result<(), Memory> {
        self.start = start_after(self.start, happening);
        take_mark(&mut self.marks, view, happening)?;
        Ok(())
    }
}
