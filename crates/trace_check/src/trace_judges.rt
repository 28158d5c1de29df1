//! The judge of a trace that arrives one happening at a time.

ghost use Rattle.std.specs.Prelude.{◌≡◌, List, option_map, IfOk, OnErr};
ghost use Rattle.trace_check.specs.Words.{Event, broken};
ghost use Rattle.trace_check.specs.Laws.{law_number};
ghost use Rattle.trace_check.specs.Judging.{unjudged, Judged, JudgeAfterHappening};

use crate::flaws::calm_after;
use crate::judge::Judge;
use crate::laws::Law;
use crate::tables::{adopt_happening_table, happening_table};
use init_words::Memory;
use inittab_text::Table;
use std::alloc::{Allocator, Global};
use std::marker::Model;
use trace_events::HappeningIn;

/// The judge of a trace that arrives one happening at a time, oldest first.
///
/// It keeps the facts that the laws depend on, for the ids of the table and of the living children, but not the earlier
/// happenings. Contracts describe a judge by the trace that it has judged (`Judged`).
#[derive(Drop)]
pub struct TraceJudge<A: Allocator = Global> {
    alloc: A,
    pub(crate) table: Table<A>,
    pub(crate) judge: Judge<A>,
    // If true, no child is excluded. If false, a child may be excluded.
    pub(crate) calm: bool,
    // The number of entries at the front of the table that are known not to be owed. The next entry may be owed.
    pub(crate) unowed: usize,
}

impl<A: Allocator> Model for TraceJudge<A> {
    ghost use Rattle.trace_check.specs.Judging.{Judging};
    ghost use Rattle.trace_check.specs.Flaws.{NoneExcludedIfCalm, IsUnowedPrefix};

    ghost Value = { Judging };

    ghost view = { λ j. record { table = j.table; state = j.judge } };

    ghost invariant = { λ j. NoneExcludedIfCalm j.calm j.table j.judge
        × IsUnowedPrefix j.unowed j.table j.judge };
}

impl<A: Allocator + Copy> TraceJudge<A> {
    ghost use Rattle.std.specs.Prelude.{[]};

    /// Creates a judge that has judged nothing. This allocates no memory.
    pub fn new(alloc: A) -> TraceJudge<A>
        ensures value { result ≡ unjudged }
        ensures judged { Judged result [] }
    {
        TraceJudge {
            alloc,
            table: Table::new(alloc),
            judge: Judge::new(alloc),
            calm: false,
            unowed: 0,
        }
    }

    /// Judges the next happening, and returns the lowest-numbered law that it breaks, if any.
    ///
    /// If the happening breaks a law, or if memory allocation fails, the judge is unchanged.
    pub fn take<B: Allocator>(&mut self, happening: &HappeningIn<B>) -> Result<Option<Law>, Memory>
        ensures law { IfOk result (λ law. (past : List Event) → Judged self.old past
            → option_map law_number law ≡ broken happening.now past) }
        ensures next { IfOk result
            (λ law. JudgeAfterHappening law self.old self.new happening.now) }
        ensures err { OnErr result (self.new ≡ self.old) }
    {
        // The contract of `len` states that no id occurs twice.
        let _len = self.table.len();
        let known = self
            .judge
            .unowed_before(&self.table, happening, self.unowed);
        if let Some(law) = self.judge.flaw(&self.table, self.calm, known, happening) {
            return Ok(Some(law));
        }
        let unowed = self.judge.unowed_count_after(&self.table, happening, known);
        let brought = happening_table(self.alloc, happening)?;
        self.judge.take(&self.table, happening)?;
        adopt_happening_table(&mut self.table, brought);
        self.calm = calm_after(happening, self.calm);
        self.unowed = unowed;
        Ok(None)
    }
}
