//! The core: the decisions of init, with the guarantee that its state obeys the rules.

ghost use Rattle.std.specs.Prelude.{◌≡◌, IfOk, OnOk, OnErr};

use crate::state::CoreValues;
use child_table::Slots;
use core_model::CoreFields;
use init_words::{Answer, Id, Level, Memory, Refusal, Stage, Status};
use initctl_frame::HeardRequest;
use inittab_text::Table;
use std::alloc::{Allocator, Global};
use std::marker::Model;
use trace_events::{Goal, Step};

/// The decisions of init, with its state: the table, one record per id, the stage, the goal, the time, and the pending
/// requests. The core always obeys the rules of init, whatever its caller reports.
#[derive(Drop)]
pub struct Core<A: Allocator = Global> {
    bare: CoreValues<A>,
}

impl<A: Allocator> Model for Core<A> {
    ghost use Rattle.level_core.specs.Words.{CoreState, IsFit};

    ghost Value = { CoreState };

    ghost view = { λ c. c.bare };

    ghost invariant = { λ c. IsFit c.bare };
}

impl<A: Allocator + Copy> Core<A> {
    ghost use Rattle.std.specs.Prelude.{[], ◌∷◌, IfErr, Err, true, false, if◌then◌else◌};
    ghost use Rattle.init_words.specs.declared.refusals.Refusal.TheVariants as refusal;
    ghost use Rattle.level_core.specs.Words.{NewTable, is_quiet, opening_goal, opening_state, after_adopt, Fits, HasLastStatuses, FitsExtendedTrace, ForAllFittedTraces};

    /// Creates a core before its first stage. Its goal is the given level, or else the default level of the table, or
    /// else S.
    pub fn new(alloc: A, table: Table<A>, level: Option<Level>) -> Result<Core<A>, Memory>
        ensures state { IfOk result (λ core.
            core ≡ opening_state table (opening_goal level table)) }
        ensures fits { IfOk result (λ core.
            Fits core (opening_goal level table) (NewTable table ∷ [])
            × HasLastStatuses core (NewTable table ∷ [])) }
    {
        let bare = CoreValues::new_by_state(alloc, table, level)?;
        Ok(Core { bare })
    }

    /// Puts another table in force (telinit(8), `q`). Its entries get the records of their ids, and children of ids
    /// that are no longer in the table are marked for stopping.
    ///
    /// Fails with `NotQuiet`, before allocating memory, if a start or a signal is not answered, and with `Memory` if
    /// memory allocation fails. If it fails, nothing changes.
    pub fn adopt(&mut self, table: Table<A>) -> Result<(), Refusal>
        ensures adopted { OnOk result (self.new ≡ after_adopt table self.old) }
        ensures busy { is_quiet self.old.slots ≡ false → result ≡ Err refusal.NotQuiet }
        ensures refused { IfErr result (λ why.
            why ≡ (if is_quiet self.old.slots then refusal.Memory else refusal.NotQuiet)) }
        ensures unchanged { OnErr result (self.new ≡ self.old) }
        ensures fits { OnOk result (ForAllFittedTraces self.old (λ goal past.
            FitsExtendedTrace self.old self.new goal past (NewTable table ∷ past))) }
    {
        self.bare.adopt_by_state(table)
    }
}

impl<A: Allocator> Core<A> {
    ghost use Rattle.std.specs.Prelude.{option_and_then, ◌^◌, ◌+◌, IsOk, ◌∷◌, ◌<◌, Some, false};
    ghost use Rattle.trace_events.specs.declared.happenings.Happening.TheVariants as happening;
    ghost use Rattle.level_core.specs.Words.{Handed, answered_of, due, first, is_rest, SlotState, order_in, refusal_of, record_by_id, decide, is_drained, after_step, after_answer_to, after_round, after_clock, after_got, after_not_read, after_handed, after_handed_on, FitsExtendedTrace, ForAllFittedTraces, with_step, IsFit, work_left};

    /// Creates a core from a state that obeys the rules.
    pub(crate) fn of(bare: CoreValues<A>) -> Core<A>
        requires { IsFit bare }
        ensures { result ≡ bare }
    {
        Core { bare }
    }

    /// States that the core obeys the rules of init, whatever its caller reported. The function does nothing: its
    /// contract is the law.
    pub fn law_of_rules(&self)
        ensures { IsFit self.now }
    {
        let _inner = &self.bare;
    }

    /// Returns the state of the core, except the table and the records.
    pub fn fields(&self) -> CoreFields
        ensures { result ≡ self.now.fields }
    {
        self.bare.fields()
    }

    /// Returns the stage in force.
    pub fn stage(&self) -> Option<Stage>
        ensures { result ≡ self.now.fields.stage }
    {
        self.bare.stage()
    }

    /// Returns the time, in seconds: the greatest clock reading so far.
    pub fn time(&self) -> u64
        ensures { result ≡ self.now.fields.time }
    {
        self.bare.time()
    }

    /// Returns the table in force.
    pub fn table(&self) -> &Table<A>
        ensures { result.now ≡ self.now.table }
    {
        self.bare.table()
    }

    /// Returns the records, in record order.
    pub fn slots(&self) -> &Slots<A>
        ensures { result.now ≡ self.now.slots }
    {
        self.bare.slots()
    }

    /// Returns how the last child of an id ended, or `None` if init was told of no end, or the id no longer has a
    /// record.
    pub fn last(&self, id: &Id) -> Option<Status>
        ensures { result ≡ option_and_then
            (λ (slot : SlotState). slot.last) (record_by_id id.now self.now.slots) }
    {
        self.slots().by_id(id)?.last()
    }

    /// Returns the goal: the level to change to, and the seconds between SIGTERM and SIGKILL.
    pub fn goal(&self) -> Goal
        ensures { result ≡ self.now.fields.goal }
    {
        self.bare.goal()
    }

    /// Returns the number of times that init was re-executed since it was first started.
    pub fn generation(&self) -> u64
        ensures { result ≡ self.now.fields.generation }
    {
        self.bare.generation()
    }

    /// Returns whether init has nothing left to do and no child: a runlevel was announced settled, no record has a
    /// child or an open order, no request is pending, and no entry is held.
    pub fn drained(&self) -> bool
        ensures { result ≡ is_drained self.now }
    {
        self.bare.drained()
    }

    /// Returns the next step of init and marks it as taken. This is the first step that is due, or `Idle` if none is
    /// due. This allocates no memory.
    ///
    /// The steps that read inittab or re-execute init remain due until their result arrives: `adopt` or `not_read` for
    /// the first, `handed_on` or `not_handed` for the second.
    ///
    /// For every goal and every sound trace that the core fits, this is the first due step, and the core then fits the
    /// trace with this step.
    pub fn next(&mut self) -> Step
        ensures step { result ≡ decide self.old }
        ensures state { self.new ≡ after_step result self.old }
        ensures due { ForAllFittedTraces self.old (λ goal past. result ≡ first (due goal past)) }
        ensures fits { ForAllFittedTraces self.old (λ goal past.
            FitsExtendedTrace self.old self.new goal past (with_step result past)) }
        // init's own steps end, because each of them decreases the work left
        ensures falls { is_rest result ≡ false → work_left self.new < work_left self.old }
    {
        self.bare.next_by_state()
    }

    /// Records the answer to the open order of the id.
    ///
    /// Fails with `NotAsked` if no order is open for the id, and with `WrongAnswer` if its order is of another kind. If
    /// it fails, nothing changes.
    pub fn answer(&mut self, id: Id, answer: Answer) -> Result<(), Refusal>
        ensures told { OnOk result (self.new ≡ after_answer_to id answer self.old) }
        ensures refused { result ≡ refusal_of (order_in id self.old.slots) answer }
        ensures unchanged { OnErr result (self.new ≡ self.old) }
        ensures taken { ForAllFittedTraces self.old (λ goal past.
            answered_of id past ≡ Some answer → IsOk result) }
        ensures fits { ForAllFittedTraces self.old (λ goal past.
            answered_of id past ≡ Some answer
            → FitsExtendedTrace self.old self.new goal past (happening.Told id ∷ past)) }
    {
        self.bare.answer_by_state(id, answer)
    }

    /// Records a request (telinit(8), initreq.h). Its grace period is at most 3,600 seconds.
    pub fn got(&mut self, request: HeardRequest)
        ensures state { self.new ≡ after_got request self.old }
        ensures fits { ForAllFittedTraces self.old (λ goal past.
            FitsExtendedTrace self.old self.new goal past (happening.Got request ∷ past)) }
    {
        self.bare.got_by_state(request);
    }

    /// Records that inittab could not be read. The table in force stays.
    pub fn not_read(&mut self)
        ensures state { self.new ≡ after_not_read self.old }
        ensures fits { ForAllFittedTraces self.old (λ goal past.
            FitsExtendedTrace self.old self.new goal past (happening.NotRead ∷ past)) }
    {
        self.bare.not_read_by_state();
    }

    /// Records that init was not re-executed. The request for re-execution is no longer pending, whatever the reason.
    pub fn not_handed(&mut self)
        ensures state { self.new ≡ after_handed self.old }
        ensures fits { ForAllFittedTraces self.old (λ goal past. (how : Handed)
            → FitsExtendedTrace self.old self.new goal past (happening.Handed how ∷ past)) }
    {
        self.bare.not_handed_by_state();
    }

    /// Records that init handed its state over to the next init, whose generation is one higher. The request for
    /// re-execution is no longer pending, whatever the result of the hand-over is.
    pub fn handed_on(&mut self)
        requires { self.old.fields.generation + 1 < 2 ^ 64 }
        ensures state { self.new ≡ after_handed_on self.old }
        ensures fits { ForAllFittedTraces self.old (λ goal past. (how : Handed)
            → FitsExtendedTrace self.old self.new goal past (happening.Handed how ∷ past)) }
    {
        self.bare.handed_on_by_state();
    }

    /// Begins a round: a look at each child becomes due, and a signal that missed a child may be sent again.
    pub fn nudge(&mut self)
        ensures state { self.new ≡ after_round self.old }
        ensures fits { ForAllFittedTraces self.old (λ goal past.
            FitsExtendedTrace self.old self.new goal past (happening.Nudge ∷ past)) }
    {
        self.bare.nudge_by_state();
    }

    /// Records a clock reading, in seconds. The time is the greatest reading so far. A reading above 1,000,000,000,000
    /// counts as 1,000,000,000,000.
    pub fn clock(&mut self, reading: u64)
        ensures state { self.new ≡ after_clock reading self.old }
        ensures fits { ForAllFittedTraces self.old (λ goal past.
            FitsExtendedTrace self.old self.new goal past (happening.Clock reading ∷ past)) }
    {
        self.bare.clock_by_state(reading);
    }
}
