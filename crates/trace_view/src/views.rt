//! A view of a trace.

ghost use Rattle.std.specs.Prelude.{◌≡◌, ◌&&◌, ◌||◌, if◌then◌else◌, true, false, List, Some, None, option_map, option_copied, IfOk};
ghost use Rattle.std.specs.Option.{option_map_or, option_or};
ghost use Rattle.trace_view.specs.Words.{Start, Entry, Event, table_of, stage_of, grace_of, time_of, unreaped_children, broken, is_order, is_excluded, is_owed, is_wanted, starts_in, starts_now, entry_of, is_distinct, law_number, open_of, child_of, is_announced};
ghost use Rattle.trace_view.specs.Viewing.{unviewed, Viewed, ViewAfterHappening};
ghost use Rattle.trace_view.specs.Why.{entry_id, first_awaited, standing_of, stops_now, number_of, why, why_entry};
ghost use Rattle.trace_view.specs.Rows.{row_of, gone_ids, is_complete_now, complete_in};
ghost use Rattle.trace_view.specs.Wishes.{asked_level, first_wish, next_stage};

use crate::calls::{is_named, take_call};
use crate::child_lists::ChildList;
use crate::children::{
    BornChild, gone_of, has_born_as, is_child_excluded, number_of, take_early, take_kept,
    take_unreaped,
};
use crate::rows::{Births, ById, Ending, Row, empty_map, of_id, take_birth, take_end};
use crate::standings::Standing;
use crate::whys::{Why, why_by};
use crate::wishes::{Wish, Wishes};
use init_words::{Act, ChildNumber, Entry, Id, Level, Memory, OrderKind, Stage, starts};
use inittab_text::Table;
use std::alloc::{Allocator, Global};
use std::marker::Model;
use trace_check::{Law, TraceJudge};
use trace_events::{CallSet, HappeningIn};

/// A view of a trace, which takes one happening at a time, oldest first.
///
/// Contracts describe a view by the trace that it has seen (`Viewed`).
#[derive(Drop)]
pub struct TraceView<A: Allocator = Global> {
    alloc: A,
    judge: TraceJudge<A>,
    unreaped: ChildList<A>,
    kept: ChildList<A>,
    wishes: Wishes,
    calls: CallSet,
    births: ById<Births, A>,
    early: Vec<BornChild, A>,
    ends: ById<Ending, A>,
}

impl<A: Allocator> Model for TraceView<A> {
    ghost use Rattle.trace_view.specs.Viewing.{ViewState};

    ghost Value = { ViewState };

    ghost view = { λ v. record {
      judging = v.judge;
      unreaped = v.unreaped;
      kept = v.kept;
      wishes = v.wishes;
      calls = v.calls;
      births = v.births.entries;
      early = v.early.items;
      ends = v.ends.entries;
    } };
}

/// Returns whether a stage is in force and the entry starts in it.
fn starts_in(entry: &Entry, stage: Option<Stage>) -> bool
    ensures { result ≡ starts_in entry.now stage }
{
    match stage {
        Some(stage) => starts(entry, stage),
        None => false,
    }
}

fn id_of(entry: Option<&Entry>) -> Option<Id>
    ensures { result ≡ option_map entry_id (option_copied entry.entry) }
{
    match entry {
        Some(entry) => Some(entry.id),
        None => None,
    }
}

fn act_in(entry: Option<&Entry>) -> Option<Act>
    ensures { result ≡ option_map (λ (e : Entry). e.act) (option_copied entry.entry) }
{
    match entry {
        Some(entry) => Some(entry.act),
        None => None,
    }
}

/// Returns whether the order is a start.
fn is_start(order: Option<OrderKind>) -> bool
    ensures { result ≡ is_order Start order }
{
    match order {
        Some(OrderKind::Start) => true,
        _ => false,
    }
}

fn owed_by(waited: bool, kept: bool, starting: bool, wanted: bool) -> bool
    ensures { result ≡ (waited && (kept || starting || wanted)) }
{
    waited && (kept || starting || wanted)
}

/// Returns `first` if it is an id; otherwise `other` if `so` is true.
fn id_or(first: Option<Id>, so: bool, other: Id) -> Option<Id>
    ensures { result ≡ option_or first (if so then Some other else None) }
{
    match first {
        Some(id) => Some(id),
        None if so => Some(other),
        None => None,
    }
}

fn both(first: bool, second: bool) -> bool
    ensures { result ≡ (first && second) }
{
    first && second
}

fn only_if<T: Copy>(test: bool, value: Option<T>) -> Option<T>
    ensures { result ≡ (if test then value else None) }
{
    if test { value } else { None }
}

impl<A: Allocator + Copy> TraceView<A> {
    ghost use Rattle.std.specs.Prelude.{[]};

    /// Creates a view that has seen no happenings. This does not allocate.
    pub fn new(alloc: A) -> TraceView<A>
        ensures value { result ≡ unviewed }
        ensures seen { Viewed result [] }
    {
        TraceView {
            alloc,
            judge: TraceJudge::new(alloc),
            unreaped: ChildList::new(alloc),
            kept: ChildList::new(alloc),
            wishes: Wishes::default(),
            calls: CallSet::default(),
            births: empty_map(alloc),
            early: Vec::new(alloc),
            ends: empty_map(alloc),
        }
    }

    /// Takes the next happening. If it breaks a law, returns the lowest-numbered one, and the view is unchanged. If
    /// memory allocation fails, the view may have been partly updated, and must not be used any more.
    pub fn take<B: Allocator>(&mut self, happening: &HappeningIn<B>) -> Result<Option<Law>, Memory>
        ensures law { IfOk result (λ law. (past : List Event) → Viewed self.old past
            → option_map law_number law ≡ broken happening.now past) }
        ensures next { IfOk result (λ law. ViewAfterHappening law self.old self.new happening.now) }
    {
        if let Some(law) = self.judge.take(happening)? {
            return Ok(Some(law));
        }
        let table = self.judge.table();
        let stage = self.judge.stage();
        let time = self.judge.time();
        take_kept(&mut self.kept, &self.unreaped, table, happening)?;
        take_unreaped(&mut self.unreaped, table, happening)?;
        take_birth(&mut self.births, time, happening)?;
        take_early(&mut self.early, table, happening)?;
        take_end(&mut self.ends, time, happening)?;
        self.wishes.take(stage, happening);
        take_call(&mut self.calls, happening);
        Ok(None)
    }
}

impl<A: Allocator> TraceView<A> {
    /// Returns the state of an entry of the table in force.
    pub fn standing(&self, entry: &Entry) -> Standing
        ensures { (past : List Event) → Viewed self.now past
            → entry_of entry.now.id (table_of past) ≡ Some entry.now
            → result ≡ standing_of entry.now past }
    {
        let id = entry.id;
        let limited = entry.act.is_limited();
        let stage = self.judge.stage();
        let table = self.judge.table();
        let held = self.judge.is_held(&id);
        let since = self.judge.held_since(&id);
        let full = self.judge.is_full(&id);
        let holds = both(limited, held);
        let fills = both(limited, full);
        let kept = &self.kept;
        Standing {
            starts: starts_in(entry, stage),
            child: number_of(kept.youngest_of(id)),
            stops: is_child_excluded(kept.youngest_of(id), table, stage),
            booted: self.wishes.booted,
            ran: has_born_as(entry, self.early.as_slice()),
            awaited: self.awaited(),
            order: self.judge.order(&id),
            wanted: self.judge.is_wanted(entry),
            named: is_named(entry, self.calls),
            owed: id_of(self.judge.first_owed(&id)),
            excluded: kept.excluded(table, stage),
            wish: self.wishes.first(stage),
            hold: only_if(holds, since),
            full: fills,
        }
    }

    /// Returns whether init waits for an entry of the table in force.
    fn owes(&self, entry: &Entry) -> bool
        ensures { (past : List Event) → Viewed self.now past
            → entry_of entry.now.id (table_of past) ≡ Some entry.now
            → result ≡ is_owed entry.now past }
    {
        let waited = entry.act.is_waited();
        let kept = number_of(self.kept.youngest_of(entry.id)).is_some();
        let starting = is_start(self.judge.order(&entry.id));
        let wanted = self.judge.is_wanted(entry);
        owed_by(waited, kept, starting, wanted)
    }

    /// Returns the first entry of the table that init waits for.
    fn awaited(&self) -> Option<Id>
        ensures { (past : List Event) → Viewed self.now past
            → result ≡ option_map entry_id (first_awaited past) }
    {
        match self.judge.table().entries().split_last() {
            Some((last, _front)) => {
                let before = id_of(self.judge.first_owed(&last.id));
                id_or(before, self.owes(last), last.id)
            }
            None => None,
        }
    }

    /// Returns the reason why the id is not started next.
    pub fn why(&self, id: &Id) -> Why
        ensures { (past : List Event) → Viewed self.now past → result ≡ why id.now past }
    {
        match self.judge.table().get(id) {
            Some(entry) => self.why_of(entry),
            None => Why::NoEntry,
        }
    }

    /// Returns the reason why an entry of the table in force is not started next. As a shortcut, an entry that starts
    /// in the stage and has a child is not examined further.
    fn why_of(&self, entry: &Entry) -> Why
        ensures { (past : List Event) → Viewed self.now past
            → entry_of entry.now.id (table_of past) ≡ Some entry.now
            → result ≡ why_entry entry.now past }
    {
        let stage = self.judge.stage();
        let kept = number_of(self.kept.youngest_of(entry.id));
        match only_if(starts_in(entry, stage), kept) {
            Some(child) => Why::ChildKept(child),
            None => why_by(entry.act, stage, &self.standing(entry)),
        }
    }

    /// Returns the report about an id, which is the id of an entry of the table or of a child whose entry is gone.
    pub fn row(&self, id: &Id) -> Row
        ensures { (past : List Event) → Viewed self.now past → result ≡ row_of id.now past }
    {
        let table = self.judge.table();
        let stage = self.judge.stage();
        let entry = table.get(id);
        let unreaped = &self.unreaped;
        Row {
            act: act_in(entry),
            why: self.why(id),
            child: number_of(unreaped.youngest_of(*id)),
            excluded: is_child_excluded(unreaped.youngest_of(*id), table, stage),
            births: of_id(&self.births, id),
            order: self.judge.order(id),
            term: self.judge.termed(id),
            last: of_id(&self.ends, id),
        }
    }

    /// Returns the open order of an id.
    pub fn order(&self, id: &Id) -> Option<OrderKind>
        ensures { (past : List Event) → Viewed self.now past → result ≡ open_of id.now past }
    {
        self.judge.order(id)
    }

    /// Returns the number of the id's unreaped child.
    pub fn child(&self, id: &Id) -> Option<ChildNumber>
        ensures { (past : List Event) → Viewed self.now past
            → result ≡ option_map number_of (child_of id.now past) }
    {
        number_of(self.unreaped.youngest_of(*id))
    }

    /// Returns whether the id has an unreaped child that is excluded.
    pub fn has_excluded(&self, id: &Id) -> bool
        ensures { (past : List Event) → Viewed self.now past
            → result ≡ option_map_or (is_excluded past) (child_of id.now past) false }
    {
        let table = self.judge.table();
        let stage = self.judge.stage();
        is_child_excluded(self.unreaped.youngest_of(*id), table, stage)
    }

    /// Returns whether an entry starts in the stage in force.
    pub fn starts(&self, entry: &Entry) -> bool
        ensures { (past : List Event) → Viewed self.now past
            → result ≡ starts_now entry.now past }
    {
        starts_in(entry, self.judge.stage())
    }

    /// Returns whether an entry of the table in force is wanted.
    pub fn is_wanted(&self, entry: &Entry) -> bool
        ensures { (past : List Event) → Viewed self.now past
            → entry_of entry.now.id (table_of past) ≡ Some entry.now
            → result ≡ is_wanted entry.now past }
    {
        self.judge.is_wanted(entry)
    }

    /// Returns the table in force, in which no id occurs twice.
    pub fn table(&self) -> &Table<A>
        ensures value { (past : List Event) → Viewed self.now past → result.now ≡ table_of past }
        ensures distinct { is_distinct result.now ≡ true }
    {
        self.judge.table()
    }

    /// Returns the stage in force.
    pub fn stage(&self) -> Option<Stage>
        ensures { (past : List Event) → Viewed self.now past → result ≡ stage_of past }
    {
        self.judge.stage()
    }

    /// Returns the seconds between SIGTERM and SIGKILL.
    pub fn grace(&self) -> u16
        ensures { (past : List Event) → Viewed self.now past → result ≡ grace_of past }
    {
        self.judge.grace()
    }

    /// Returns the time, in seconds.
    pub fn time(&self) -> u64
        ensures { (past : List Event) → Viewed self.now past → result ≡ time_of past }
    {
        self.judge.time()
    }

    /// Returns the pending request that init carries out first.
    pub fn wish(&self) -> Option<Wish>
        ensures { (past : List Event) → Viewed self.now past → result ≡ first_wish past }
    {
        self.wishes.first(self.judge.stage())
    }

    /// Returns the level that was requested but has not been entered yet.
    pub fn asked_level(&self) -> Option<Level>
        ensures { (past : List Event) → Viewed self.now past → result ≡ asked_level past }
    {
        self.wishes.asked(self.judge.stage())
    }

    /// Returns the stage that init enters next because another level was requested, with the seconds between SIGTERM
    /// and SIGKILL.
    pub fn next_stage(&self) -> Option<(Stage, u16)>
        ensures { (past : List Event) → Viewed self.now past → result ≡ next_stage past }
    {
        self.wishes.next_stage(self.judge.stage())
    }

    /// Returns whether the runlevel in force was announced settled, and no new table has come since.
    pub fn is_settled(&self) -> bool
        ensures { (past : List Event) → Viewed self.now past → result ≡ is_announced past }
    {
        self.wishes.announced
    }

    /// Returns whether the stage in force is a runlevel that could be announced settled at this moment, even if init
    /// has already announced that.
    pub fn is_complete(&self) -> bool
        ensures { (past : List Event) → Viewed self.now past → result ≡ is_complete_now past }
    {
        match self.judge.stage() {
            Some(stage) => self.completes(stage),
            None => false,
        }
    }

    /// Returns whether this stage, the one in force, is a runlevel that could be announced settled.
    fn completes(&self, stage: Stage) -> bool
        ensures { (past : List Event) → Viewed self.now past
            → result ≡ complete_in (Some stage) past }
    {
        match stage {
            Stage::Run(level) => self.judge.is_settled(level),
            Stage::Sysinit => false,
            Stage::Boot => false,
        }
    }

    /// Returns the unreaped children, youngest first.
    pub fn children<B: Allocator>(&self, alloc: B) -> Result<Vec<BornChild, B>, Memory>
        ensures { IfOk result (λ children. (past : List Event) → Viewed self.now past
            → children.items ≡ unreaped_children past) }
    {
        let children = self.unreaped.to_vec(alloc)?;
        Ok(children)
    }

    /// Returns the ids of the unreaped children for which the table in force has no entry, youngest child first.
    pub fn gone<B: Allocator + Copy>(&self, alloc: B) -> Result<Vec<Id, B>, Memory>
        ensures { IfOk result (λ ids. (past : List Event) → Viewed self.now past
            → ids.items ≡ gone_ids (table_of past) (unreaped_children past)) }
    {
        let children = self.unreaped.to_vec(alloc)?;
        let gone = gone_of(alloc, self.judge.table(), children.as_slice())?;
        Ok(gone)
    }
}
