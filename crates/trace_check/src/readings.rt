//! The facts that the checker keeps about the trace that it has judged.

ghost use Rattle.std.specs.Prelude.{◌≡◌, true, List, find, option_copied, Some};
ghost use Rattle.trace_check.specs.Words.{Event, table_of, stage_of, grace_of, time_of, open_of, unreaped_children, hold_times, is_held, is_full, is_wanted, is_owed, entries_before, entry_of, is_distinct};
ghost use Rattle.trace_events.specs.Due.{is_settled};
ghost use Rattle.trace_check.specs.Judging.{Judged};
ghost use Rattle.trace_check.specs.Reading.{newest, child_of, term_of};

use crate::trace_judges::TraceJudge;
use init_words::{Entry, Id, Level, OrderKind, Stage};
use inittab_text::Table;
use std::alloc::Allocator;

/// Each method returns the value of a definition of `trace_events` or `specs/Reading` for the trace judged so far.
impl<A: Allocator> TraceJudge<A> {
    /// Returns the table in force, in which no id occurs twice.
    pub fn table(&self) -> &Table<A>
        ensures value { (past : List Event) → Judged self.now past → result.now ≡ table_of past }
        ensures distinct { is_distinct result.now ≡ true }
    {
        // The contract of `len` states that no id occurs twice.
        let _len = self.table.len();
        &self.table
    }

    /// Returns the stage in force.
    pub fn stage(&self) -> Option<Stage>
        ensures { (past : List Event) → Judged self.now past → result ≡ stage_of past }
    {
        self.judge.stage
    }

    /// Returns the seconds between SIGTERM and SIGKILL.
    pub fn grace(&self) -> u16
        ensures { (past : List Event) → Judged self.now past → result ≡ grace_of past }
    {
        self.judge.grace
    }

    /// Returns the time, in seconds.
    pub fn time(&self) -> u64
        ensures { (past : List Event) → Judged self.now past → result ≡ time_of past }
    {
        self.judge.time
    }

    /// Returns the open order of an id.
    pub fn order(&self, id: &Id) -> Option<OrderKind>
        ensures { (past : List Event) → Judged self.now past → result ≡ open_of id.now past }
    {
        self.judge.orders.get(id).copied()
    }

    /// Returns whether an entry of the table is wanted.
    pub fn is_wanted(&self, entry: &Entry) -> bool
        ensures { (past : List Event) → Judged self.now past
            → entry_of entry.now.id (table_of past) ≡ Some entry.now
            → result ≡ is_wanted entry.now past }
    {
        self.judge.is_wanted(entry)
    }

    /// Returns the first owed entry before the entry of the id.
    pub fn first_owed(&self, id: &Id) -> Option<&Entry>
        ensures { (past : List Event) → Judged self.now past → option_copied result
            ≡ find (λ e. is_owed e past) (entries_before id.now (table_of past)) }
    {
        // The contract of `len` states that no id occurs twice.
        let _len = self.table.len();
        self.judge.first_owed(&self.table, self.unowed, id)
    }

    /// Returns whether the id is held.
    pub fn is_held(&self, id: &Id) -> bool
        ensures { (past : List Event) → Judged self.now past → result ≡ is_held id.now past }
    {
        self.judge.is_held(id)
    }

    /// Returns the time of the last hold of the id.
    pub fn held_since(&self, id: &Id) -> Option<u64>
        ensures { (past : List Event) → Judged self.now past
            → result ≡ newest (hold_times id.now past) }
    {
        self.judge.holds.get(id).copied()
    }

    /// Returns whether the window of the id is full, so that it must be held instead of started.
    pub fn is_full(&self, id: &Id) -> bool
        ensures { (past : List Event) → Judged self.now past → result ≡ is_full id.now past }
    {
        self.judge.is_full(id)
    }

    /// Returns whether the level is in force and settled, judged by the unreaped children.
    pub fn is_settled(&self, level: Level) -> bool
        ensures { (past : List Event) → Judged self.now past
            → result ≡ is_settled level (unreaped_children past) past }
    {
        // The contract of `len` states that no id occurs twice.
        let _len = self.table.len();
        self.judge.is_settled(level, &self.table, self.calm)
    }

    /// Returns the time at which init learned of the first TERM in the spell of the id's unreaped child.
    pub fn termed(&self, id: &Id) -> Option<u64>
        ensures { (past : List Event) → Judged self.now past
            → result ≡ term_of past (child_of id.now past) }
    {
        self.judge.termed.get(id).copied()
    }
}
