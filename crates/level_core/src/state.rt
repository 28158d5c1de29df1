//! The state of a core, and the transition made by each of its calls.

ghost use Rattle.std.specs.Prelude.{◌≡◌, IfOk, OnOk, OnErr};

use crate::calling::{call_named, judge_in};
use crate::deciding::{changes_starts, is_past, is_start, level_step, next_stage};
use crate::walk_places::Places;
use crate::walking::{
    advanced_places, all_done, all_served, any_busy, look_among, seen_until, start_among,
    stop_among, unsignalled_to, unsignalled_with,
};
use child_table::Slots;
use core_model::CoreFields;
use init_words::{Answer, GRACE, Id, Level, Memory, OrderKind, Refusal, Stage};
use initctl_frame::HeardRequest;
use inittab_text::Table;
use respawn_limit::CLOCK_LIMIT;
use std::alloc::Allocator;
use std::marker::Model;
use trace_events::{Goal, Step};

/// The state of a core, and the transition made by each of its calls. It may have any values; only a `Core` is
/// guaranteed to obey the rules of init.
#[derive(Drop)]
pub(crate) struct CoreValues<A: Allocator> {
    table: Table<A>,
    slots: Slots<A>,
    fields: CoreFields,
    // The position at which `next` begins to search for looks. No look is due for a record before it.
    looks_from: usize,
    // The position at which `next` begins to search for signals. No signal is due for a record before it.
    stops_from: usize,
    starts: Places,
}

impl<A: Allocator> Model for CoreValues<A> {
    ghost use Rattle.std.specs.Prelude.{◌≡◌, ◌≤◌, true};
    ghost use Rattle.level_core.specs.Words.{CLOCK_LIMIT, are_timely, IsInOrder, CoreState};
    ghost use Rattle.level_core.specs.Places.{are_seen, ArePassed, NoSignalDueBefore};

    ghost Value = { CoreState };

    ghost view = { λ c. record { table = c.table; slots = c.slots; fields = c.fields } };

    ghost invariant = { λ c. (c.fields.time ≤ CLOCK_LIMIT)
        × (are_timely c.fields.time c.slots ≡ true)
        × IsInOrder c.table c.slots × (are_seen c.looks_from c.slots ≡ true)
        × ArePassed c.fields.stage c.fields.time c.starts c.table c.slots
        × NoSignalDueBefore c.fields.grace c.fields.time c.stops_from c.slots };
}

impl<A: Allocator + Copy> CoreValues<A> {
    ghost use Rattle.std.specs.Prelude.{[], ◌∷◌, IfErr, Err, true, false, if◌then◌else◌};
    ghost use Rattle.init_words.specs.declared.refusals.Refusal.TheVariants as refusal;
    ghost use Rattle.level_core.specs.Words.{NewTable, is_quiet, opening_goal, opening_state, after_adopt, Fits, ForAllFittedTraces};
    ghost use Rattle.inittab_text.specs.Tables.{is_distinct};

    pub(crate) fn new_by_state(
        alloc: A,
        table: Table<A>,
        level: Option<Level>,
    ) -> Result<CoreValues<A>, Memory>
        ensures state { IfOk result (λ core.
            core ≡ opening_state table (opening_goal level table)) }
        ensures distinct { is_distinct table ≡ true }
    {
        let level = level.or(table.default_level()).unwrap_or(Level::S);
        let slots = Slots::new(alloc, &table)?;
        Ok(CoreValues {
            table,
            slots,
            fields: CoreFields::opening(Goal {
                level,
                grace: GRACE,
            }),
            looks_from: 0,
            stops_from: 0,
            starts: Places::all(),
        })
    }

    pub(crate) fn adopt_by_state(&mut self, table: Table<A>) -> Result<(), Refusal>
        ensures distinct { OnOk result (is_distinct table ≡ true) }
        ensures adopted { OnOk result (self.new ≡ after_adopt table self.old) }
        ensures busy { is_quiet self.old.slots ≡ false → result ≡ Err refusal.NotQuiet }
        ensures refused { IfErr result (λ why.
            why ≡ (if is_quiet self.old.slots then refusal.Memory else refusal.NotQuiet)) }
        ensures unchanged { OnErr result (self.new ≡ self.old) }
    {
        if !self.slots.quiet() {
            return Err(Refusal::NotQuiet);
        }
        self.slots.adopt(&table)?;
        judge_in(&mut self.slots, &table, self.fields.stage);
        self.table = table;
        self.fields.announced = false;
        self.fields.reread = false;
        self.looks_from = 0;
        self.stops_from = 0;
        self.starts = Places::all();
        Ok(())
    }
}

impl<A: Allocator> CoreValues<A> {
    ghost use Rattle.std.specs.Prelude.{◌≤◌, ◌^◌, ◌+◌, IsTrue, IsOk, List, ◌∷◌, ◌<◌, Some, true, false, ℕ};
    ghost use Rattle.level_core.specs.Words.{Stage};
    ghost use Rattle.trace_events.specs.declared.happenings.Happening.TheVariants as happening;
    ghost use Rattle.level_core.specs.Words.{answered_of, due, first, is_rest, IsInOrder, are_distinct, can_ask, order_in, refusal_of, decide, first_step, or_idle, wish_step, stands, stop_among, calm_step, work_step, is_drained};
    ghost use Rattle.core_model.specs.Decide as core;
    ghost use Rattle.core_model.specs.Steps as steps;
    ghost use Rattle.level_core.specs.Words.{Handed, after_step, after_answer_to, after_round, after_clock, after_got, after_not_read, after_handed, after_handed_on, Fits, ForAllFittedTraces, with_step, work_left, are_timely, CLOCK_LIMIT};

    /// Creates the state with these parts. The records must be in record order, with no start or signal later than now.
    pub(crate) fn of(fields: CoreFields, table: Table<A>, slots: Slots<A>) -> CoreValues<A>
        requires clock { fields.time ≤ CLOCK_LIMIT }
        requires timely { are_timely fields.time slots ≡ true }
        requires order { IsInOrder table slots }
        ensures { result ≡ record { table = table; slots = slots; fields = fields } }
    {
        CoreValues {
            table,
            slots,
            fields,
            looks_from: 0,
            stops_from: 0,
            starts: Places::all(),
        }
    }

    /// Returns the state of the core, except the table and the records.
    pub(crate) fn fields(&self) -> CoreFields
        ensures { result ≡ self.now.fields }
    {
        self.fields
    }

    /// Returns the stage in force.
    pub(crate) fn stage(&self) -> Option<Stage>
        ensures { result ≡ self.now.fields.stage }
    {
        self.fields.stage
    }

    /// Returns the time, in seconds: the greatest clock reading so far.
    pub(crate) fn time(&self) -> u64
        ensures { result ≡ self.now.fields.time }
    {
        self.fields.time
    }

    /// Returns the table in force.
    pub(crate) fn table(&self) -> &Table<A>
        ensures { result.now ≡ self.now.table }
    {
        &self.table
    }

    /// Returns the records, in record order.
    pub(crate) fn slots(&self) -> &Slots<A>
        ensures { result.now ≡ self.now.slots }
    {
        &self.slots
    }

    /// Returns the goal: the level to change to, and the seconds between SIGTERM and SIGKILL.
    pub(crate) fn goal(&self) -> Goal
        ensures { result ≡ self.now.fields.goal }
    {
        self.fields.goal
    }

    /// Returns the number of times that init was re-executed since it was first started.
    pub(crate) fn generation(&self) -> u64
        ensures { result ≡ self.now.fields.generation }
    {
        self.fields.generation
    }

    /// Returns whether init has nothing left to do and no child: a runlevel was announced settled, no record has a
    /// child or an open order, no request is pending, and no entry is held.
    pub(crate) fn drained(&self) -> bool
        ensures { result ≡ is_drained self.now }
    {
        match self.fields.stage {
            Some(Stage::Run(level)) => {
                self.fields.announced
                    && !self.stands(Stage::Run(level))
                    && !any_busy(self.fields.time, self.slots.as_slice())
            }
            _ => false,
        }
    }

    fn news_step(&self, stage: Stage) -> Option<Step>
        ensures { result ≡ core.news_step stage self.now }
    {
        match stage {
            Stage::Run(_) => self.fields.pending.first_step(),
            Stage::Sysinit | Stage::Boot => None,
        }
    }

    /// Returns the step for the first pending request, if no start and no signal is open.
    fn wish_step(&self, stage: Stage) -> Option<Step>
        ensures { result ≡ wish_step stage self.now }
    {
        let is_quiet = self.slots.quiet();
        if !is_quiet {
            return None;
        }
        if self.fields.reexec {
            return Some(Step::Reexec);
        }
        if self.fields.reread {
            return Some(Step::Reread);
        }
        if let Some(step) = level_step(self.fields.booted, self.fields.level_wish) {
            return Some(step);
        }
        self.news_step(stage)
    }

    /// Returns whether a request is pending.
    fn stands(&self, stage: Stage) -> bool
        ensures { result ≡ stands stage self.now }
    {
        self.fields.reexec
            || self.fields.reread
            || self.fields.level_wish.is_some()
            || self.has_news(stage)
    }

    /// Returns whether power events or letters are pending and the stage is a runlevel.
    fn has_news(&self, stage: Stage) -> bool
        ensures { result ≡ core.counts_news stage self.now }
    {
        match stage {
            Stage::Run(_) => self.fields.pending.is_some(),
            Stage::Sysinit | Stage::Boot => false,
        }
    }

    /// Returns the step that enters the stage after Sysinit or Boot, if the current one is over.
    fn stage_step(&self, stage: Stage) -> Option<Step>
        ensures { result ≡ core.stage_step stage self.now.fields.goal self.now.table
            self.now.slots }
    {
        let next = next_stage(stage, self.fields.goal.level)?;
        if self.slots.quiet() && all_done(stage, &self.table, self.slots.as_slice()) {
            Some(Step::Enter(next, self.fields.goal.grace))
        } else {
            None
        }
    }

    /// Returns the announcement that the runlevel is settled, if it is due.
    fn settle_step(&self, stage: Stage) -> Option<Step>
        ensures { result ≡ core.settle_step stage self.now.fields.announced
            self.now.fields.time self.now.table self.now.slots }
    {
        let Stage::Run(level) = stage else {
            return None;
        };
        let slots = &self.slots;
        if self.fields.announced || !slots.is_idle() {
            return None;
        }
        let now = self.fields.time;
        if all_served(level, now, &self.table, slots.as_slice(), self.starts.first) {
            Some(Step::Settle(level))
        } else {
            None
        }
    }

    /// Returns the step that is due if no child is excluded: a start or a hold, the next stage, or the announcement
    /// that the level is settled.
    fn calm_step(&self, stage: Stage) -> Option<Step>
        requires { self.now.fields.stage ≡ Some stage }
        ensures { result ≡ calm_step stage self.now }
    {
        let slots = self.slots.as_slice();
        if let Some(step) = start_among(stage, self.fields.time, &self.table, slots, self.starts) {
            return Some(step);
        }
        if let Some(step) = self.stage_step(stage) {
            return Some(step);
        }
        self.settle_step(stage)
    }

    /// Returns the step that is due if no request is pending: a signal, or the result of `calm_step` if no child is
    /// excluded.
    fn work_step(&self, stage: Stage) -> Option<Step>
        requires { self.now.fields.stage ≡ Some stage }
        ensures { result ≡ work_step stage self.now }
    {
        if self.stands(stage) {
            return None;
        }
        if !self.slots.has_excluded() {
            return self.calm_step(stage);
        }
        self.stop_step()
    }

    /// Returns whether a signal may be due: an excluded child was sent none yet, or the grace period of the earliest
    /// SIGTERM is over.
    fn may_signal(&self) -> bool
        ensures { result ≡ false
            → stop_among self.now.fields.grace self.now.fields.time self.now.slots ≡ None }
    {
        let slots = &self.slots;
        slots.has_due() || is_past(slots.first_termed(), self.fields.grace, self.fields.time)
    }

    /// Returns the first signal that is due. Searches the records only if a signal may be due.
    fn stop_step(&self) -> Option<Step>
        ensures { result ≡ stop_among self.now.fields.grace self.now.fields.time self.now.slots }
    {
        if !self.may_signal() {
            return None;
        }
        let slots = self.slots.as_slice();
        stop_among(self.fields.grace, self.fields.time, slots, self.stops_from)
    }

    /// Returns the step that enters the first stage, Sysinit, if no start and no signal is open, and otherwise `Idle`.
    fn first_step(&self) -> Step
        ensures { result ≡ or_idle (first_step self.now) }
    {
        if !self.slots.quiet() {
            return Step::Idle;
        }
        Step::Enter(Stage::Sysinit, self.fields.goal.grace)
    }

    fn due_step(&self) -> Step
        ensures step { result ≡ decide self.now }
        ensures distinct { are_distinct self.now.slots ≡ true }
        ensures order { IsInOrder self.now.table self.now.slots }
    {
        let slots = self.slots.as_slice();
        let Some(stage) = self.fields.stage else {
            return self.first_step();
        };
        if let Some(step) = self.wish_step(stage) {
            return step;
        }
        if let Some(step) = self.work_step(stage) {
            return step;
        }
        look_among(slots, self.looks_from).unwrap_or(Step::Idle)
    }

    /// Advances the positions past all records without a due look or signal, and past all entries that need not be
    /// started or waited for.
    fn pass(&mut self)
        ensures { self.new ≡ self.old }
    {
        let may_signal = self.may_signal();
        let slots = self.slots.as_slice();
        self.looks_from = seen_until(slots, self.looks_from);
        if may_signal {
            let (grace, now) = (self.fields.grace, self.fields.time);
            self.stops_from = unsignalled_to(grace, now, slots, self.stops_from);
        }
        if let Some(stage) = self.fields.stage {
            self.starts = advanced_places(self.starts, stage, self.fields.time, &self.table, slots);
        }
    }

    fn enter(&mut self, stage: Stage, grace: u16)
        ensures { self.new ≡ after_step (Step.Enter stage grace) self.old }
    {
        self.slots.entered();
        self.slots.judge(&self.table, stage);
        self.fields.stage = Some(stage);
        self.fields.grace = grace;
        self.fields.goal = self.fields.level_wish.unwrap_or(self.fields.goal);
        self.fields.level_wish = None;
        self.fields.booted = stage == Stage::Boot || self.fields.booted;
        self.fields.announced = false;
        self.looks_from = 0;
        self.stops_from = 0;
        self.starts = Places::all();
    }

    /// Records an order for an id.
    fn order(&mut self, id: Id, ask: OrderKind)
        requires allowed { can_ask id ask self.old.fields.time self.old.slots ≡ true }
        requires distinct { are_distinct self.old.slots ≡ true }
        ensures { self.new ≡ after_step (Step.Order id ask) self.old }
    {
        let Some(position) = self.slots.place_of(&id) else {
            unreachable!()
        };
        self.slots.ask(id, ask, self.fields.time);
        self.starts = self.starts.with_if(position, is_start(ask));
    }

    /// Changes the state by the step that `decide` returned.
    fn apply(&mut self, step: &Step)
        requires decided { decide self.old ≡ step.now }
        requires distinct { are_distinct self.old.slots ≡ true }
        requires order { IsInOrder self.old.table self.old.slots }
        ensures { self.new ≡ after_step step.now self.old }
    {
        match *step {
            Step::Enter(stage, grace) => self.enter(stage, grace),
            Step::Power(kind) => {
                call_named(&mut self.slots, &self.table, step, self.fields.stage);
                self.fields.pending.set_power(kind, false);
                self.starts = Places::all();
            }
            Step::Call(letter) => {
                call_named(&mut self.slots, &self.table, step, self.fields.stage);
                self.fields.pending.set_letter(letter, false);
                self.starts = Places::all();
            }
            Step::Order(id, ask) => self.order(id, ask),
            Step::Hold(id) => self.slots.hold(id, self.fields.time),
            Step::Settle(_) => self.fields.announced = true,
            Step::Reread | Step::Reexec | Step::Idle => {}
        }
    }

    pub(crate) fn next_by_state(&mut self) -> Step
        ensures step { result ≡ decide self.old }
        ensures state { self.new ≡ after_step result self.old }
        ensures falls { is_rest result ≡ false → work_left self.new < work_left self.old }
    {
        self.pass();
        let step = self.due_step();
        self.apply(&step);
        step
    }

    pub(crate) fn answer_by_state(&mut self, id: Id, answer: Answer) -> Result<(), Refusal>
        ensures told { OnOk result (self.new ≡ after_answer_to id answer self.old) }
        ensures refused { result ≡ refusal_of (order_in id self.old.slots) answer }
        ensures unchanged { OnErr result (self.new ≡ self.old) }
    {
        let Some(position) = self.slots.place_of(&id) else {
            return Err(Refusal::NotAsked);
        };
        self.slots.told(id, answer, self.fields.time)?;
        // The end of a child may remove a record.
        self.looks_from = self.looks_from.saturating_sub(1);
        let to = self.stops_from.saturating_sub(1);
        let (grace, now) = (self.fields.grace, self.fields.time);
        self.stops_from = unsignalled_with(grace, now, self.slots.as_slice(), to, position);
        self.starts = self.starts.with_if(position, changes_starts(&answer));
        Ok(())
    }

    pub(crate) fn got_by_state(&mut self, request: HeardRequest)
        ensures { self.new ≡ after_got request self.old }
    {
        match request {
            HeardRequest::Level(level, grace) => self.hear_level(Goal { level, grace }),
            HeardRequest::Call(letter) => self.fields.pending.set_letter(letter, true),
            HeardRequest::Reload => self.fields.reread = true,
            HeardRequest::Reexec => self.fields.reexec = true,
            HeardRequest::Power(kind) => self.fields.pending.set_power(kind, true),
            HeardRequest::Nothing(_) => {}
        }
    }

    /// Records a request for a level. In that runlevel, it drops a pending request for another level; in another
    /// runlevel, it becomes the pending request; in any other stage, it becomes the goal.
    fn hear_level(&mut self, wish: Goal)
        ensures { self.new ≡ record self.old {
          fields = steps.fields_after_level self.old.fields.stage wish self.old.fields;
        } }
    {
        let Some(Stage::Run(now)) = self.fields.stage else {
            self.fields.goal = wish;
            self.fields.reread = true;
            return;
        };
        if wish.level == now {
            self.fields.level_wish = None;
        } else {
            self.fields.level_wish = Some(wish);
            self.fields.reread = true;
        }
    }

    pub(crate) fn not_read_by_state(&mut self)
        ensures { self.new ≡ after_not_read self.old }
    {
        self.fields.reread = false;
    }

    pub(crate) fn not_handed_by_state(&mut self)
        ensures { self.new ≡ after_handed self.old }
    {
        self.fields.reexec = false;
    }

    pub(crate) fn handed_on_by_state(&mut self)
        requires { self.old.fields.generation + 1 < 2 ^ 64 }
        ensures { self.new ≡ after_handed_on self.old }
    {
        self.fields.reexec = false;
        self.fields.generation += 1;
    }

    pub(crate) fn nudge_by_state(&mut self)
        ensures { self.new ≡ after_round self.old }
    {
        self.slots.nudge();
        self.looks_from = 0;
        self.stops_from = 0;
    }

    pub(crate) fn clock_by_state(&mut self, reading: u64)
        ensures { self.new ≡ after_clock reading self.old }
    {
        let before = self.fields.time;
        self.fields.time = reading.min(CLOCK_LIMIT).max(self.fields.time);
        // A hold or the grace period of a SIGTERM may have ended.
        self.starts = self.starts.all_if(before < self.fields.time);
        if before < self.fields.time {
            self.stops_from = 0;
        }
    }
}
