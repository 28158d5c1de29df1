//! Runs init over a script until it is at rest after the last line.

ghost use Rattle.std.specs.Prelude.{◌≡◌, ◌<◌, length, map, List, [], ◌∷◌, false, true, IfOk, IfSome, IfNone, IfErr, OnOk};
ghost use Rattle.std.specs.Io.KnownBytes.{Appends};
ghost use Rattle.simulator.specs.Words.{Event, event_text, is_in_range, is_rest, is_reread, NewTable, Level, table_of_text, is_quiet, opening_goal, FitsWithLastStatuses, FitsExtendedTrace, ForAllFittedTraces, with_step, after_adopt};
ghost use Rattle.simulator.specs.Faults.{Leaves};
ghost use Rattle.simulator.specs.Handing.{handed_over_text};
ghost use Rattle.simulator.specs.Texts.{HasTexts};
ghost use Rattle.simulator.specs.Moments.{Breaks, ComesToRest, FromMoment, FromOpening, FromRest, FromScript, HeardEnds, HeardOne, IsReadyFor, CanHandOver, Moment, SomeMoment, SomeRest, TableEnds};
ghost use Rattle.simulator.specs.Said.{may_be_scripted, objection_in};
ghost use Rattle.simulator.specs.Simulation.{Done, Ends, IsTooLong, scenario};

use crate::handing::{hand_core, objection_handed};
use crate::objections::Objection;
use crate::simulated::SimulatedSystem;
use crate::writers::ScriptWriter;
use init_words::{Level, Memory, Refusal};
use inittab_text::{Table, TableFault};
use level_core::Core;
use std::alloc::{AllocError, Allocator};
use std::error::Error;
use std::io::Write;
use std::{fmt, io};
use text_lines::ended;
use trace_events::{Happening, HappeningIn, Step};
use trace_text::{first_happening, line_count, print_table};

/// The reason why a simulated run ended before its script did.
#[derive(Clone, Copy, Debug, PartialEq, Eq)]
pub enum SimFault {
    /// The inittab is too long.
    Table,
    /// The line with this number does not begin a happening.
    Script(u64),
    /// The happening at the line with this number is not allowed at this point, or in any script, for this reason.
    Forbidden(u64, Objection),
    /// The writer failed, or wrote no byte.
    Write,
    /// Memory allocation failed.
    Memory,
}

impl fmt::Display for SimFault {
    ghost use Rattle.std.specs.Prelude.{Some};
    ghost use Rattle.simulator.specs.Faults.{fault_text};

    ghost output = { λ fault. Some (fault_text fault) };

    fn fmt<W: fmt::Write>(&self, f: &mut fmt::Formatter<W>) -> fmt::Result {
        match self {
            SimFault::Table => f.write_str("the inittab is longer than 1,048,576 bytes"),
            SimFault::Script(line) => write!(f, "script line {line} is not a line"),
            SimFault::Forbidden(line, _) => write!(f, "script line {line} is not allowed"),
            SimFault::Write => f.write_str("the trace could not be written"),
            SimFault::Memory => f.write_str("out of memory"),
        }
    }
}

impl Error for SimFault {}

impl From<Memory> for SimFault {
    ghost use Rattle.std.specs.Prelude.{◌≡◌};
    ghost use Rattle.simulator.specs.declared.running.SimFault.TheVariants.{Memory};

    ghost from_gives = { λ _ fault. fault ≡ Memory };

    fn from(_error: Memory) -> SimFault {
        SimFault::Memory
    }
}

impl From<AllocError> for SimFault {
    ghost use Rattle.std.specs.Prelude.{◌≡◌};
    ghost use Rattle.simulator.specs.declared.running.SimFault.TheVariants.{Memory};

    ghost from_gives = { λ _ fault. fault ≡ Memory };

    fn from(_error: AllocError) -> SimFault {
        SimFault::Memory
    }
}

impl From<io::Error> for SimFault {
    ghost use Rattle.std.specs.Prelude.{◌≡◌};
    ghost use Rattle.simulator.specs.declared.running.SimFault.TheVariants.{Write};

    ghost from_gives = { λ _ fault. fault ≡ Write };

    fn from(_error: io::Error) -> SimFault {
        SimFault::Write
    }
}

/// Returns the happening of a step that init takes, or `None` if it is at rest.
fn happening_of<A: Allocator>(step: Step) -> Option<HappeningIn<A>>
    ensures some { IfSome result (λ happening. (is_rest step ≡ false)
        × ((past : List Event) → with_step step past ≡ happening ∷ past)) }
    ensures none { IfNone result (is_rest step ≡ true) }
{
    match step {
        Step::Enter(stage, grace) => Some(Happening::Enter(stage, grace)),
        Step::Call(letter) => Some(Happening::Call(letter)),
        Step::Power(kind) => Some(Happening::Power(kind)),
        Step::Order(id, ask) => Some(Happening::Asked(id, ask)),
        Step::Hold(id) => Some(Happening::Hold(id)),
        Step::Settle(level) => Some(Happening::Settle(level)),
        Step::Reread | Step::Reexec | Step::Idle => None,
    }
}

/// Returns whether the step is to read inittab again.
fn is_reread(step: &Step) -> bool
    ensures { result ≡ is_reread step.now }
{
    matches!(step, Step::Reread)
}

/// Writes the text of a happening.
fn write_happening<A: Allocator + Copy, W: Write, F: ScriptWriter<W>>(
    alloc: A,
    out: &mut W,
    happening: &HappeningIn<A>,
) -> Result<(), SimFault>
    ensures ok { OnOk result
        (Appends (W.contents out.old) (W.contents out.new) (event_text happening.now)) }
    ensures err { IfErr result (λ fault.
        Leaves fault (W.contents out.old) (W.contents out.new) (event_text happening.now)) }
    ensures failed { result ≡ Err SimFault.Write → F.has_failed out.new ≡ true }
{
    let text = trace_text::print_one(alloc, happening)?;
    F::put(out, &text)?;
    Ok(())
}

/// Takes init's steps and writes them until init is at rest. Returns whether the next step reads inittab.
fn run_until_rest<A: Allocator + Copy, W: Write, F: ScriptWriter<W>>(
    alloc: A,
    core: &mut Core<A>,
    side: &mut SimulatedSystem<A>,
    out: &mut W,
) -> Result<bool, SimFault>
    requires { SomeMoment core.old side.old }
    ensures ok { IfOk result (λ rereads. FromMoment core.old side.old (λ goal past.
        ComesToRest goal past rereads core.new side.new (W.contents out.old)
        (W.contents out.new))) }
    ensures generation { OnOk result (core.new.fields.generation ≡ core.old.fields.generation) }
    ensures err { IfErr result (λ fault. FromMoment core.old side.old (λ goal past.
        Breaks goal past fault (W.contents out.old) (W.contents out.new))) }
    ensures failed { result ≡ Err SimFault.Write → F.has_failed out.new ≡ true }
{
    'steps: loop {
        let step = core.next();
        let rereads = is_reread(&step);
        let Some(happening) = happening_of(step) else {
            return Ok(rereads);
        };
        write_happening::<A, W, F>(alloc, out, &happening)?;
        let taken = side.take(&happening);
        drop(happening);
        taken?;
    }
}

/// Returns the objection to a happening, if any. A table or `notread` may come only when the next step reads inittab,
/// and a hand-over only if it is possible.
fn objection_to<A: Allocator + Copy>(
    alloc: A,
    core: &Core<A>,
    side: &SimulatedSystem<A>,
    happening: &HappeningIn<A>,
    rereads: bool,
) -> Result<Option<Objection>, Memory>
    ensures { IfOk result (λ objection. objection ≡ objection_in rereads core.now.fields.generation
        (length (handed_over_text core.now)) side.now happening.now) }
{
    match happening {
        Happening::NewTable(_) | Happening::NotRead => {
            if rereads {
                Ok(None)
            } else {
                Ok(Some(Objection::NotNow))
            }
        }
        Happening::Handed(how) => objection_handed(alloc, core, *how),
        _ => Ok(side.objection(happening)),
    }
}

/// Makes the core adopt a copy of the table.
fn adopt<A: Allocator + Copy>(alloc: A, core: &mut Core<A>, table: &Table<A>) -> Result<(), Memory>
    requires { is_quiet core.old.slots ≡ true }
    ensures state { OnOk result (core.new ≡ after_adopt table.now core.old) }
    ensures fits { OnOk result (ForAllFittedTraces core.old (λ goal past.
        FitsExtendedTrace core.old core.new goal past (NewTable table.now ∷ past))) }
{
    let copy = table.copy(alloc)?;
    match core.adopt(copy) {
        Ok(()) => Ok(()),
        Err(Refusal::Memory) => Err(Memory),
        Err(_) => unreachable!(),
    }
}

/// Passes a happening of the script to the core. `made` contains the state texts made so far.
fn pass_on<A: Allocator + Copy>(
    alloc: A,
    core: &mut Core<A>,
    made: &mut Vec<Vec<u8, A>, A>,
    side: &SimulatedSystem<A>,
    happening: &HappeningIn<A>,
) -> Result<(), Memory>
    requires ready { IsReadyFor happening.now core.old }
    requires made { HasTexts (map (λ text. text.items) made.old.items) core.old.fields.generation }
    requires ranged { is_in_range happening.now ≡ true }
    ensures fits { OnOk result (FromMoment core.old side.now (λ goal past.
        may_be_scripted goal happening.now past ≡ true
        → FitsWithLastStatuses core.new goal (happening.now ∷ past))) }
    ensures lasts { OnOk result (FromMoment core.old side.now (λ goal past.
        may_be_scripted goal happening.now past ≡ true
        → CanHandOver core.new goal (happening.now ∷ past))) }
    ensures made { OnOk result
        (HasTexts (map (λ text. text.items) made.new.items) core.new.fields.generation) }
{
    match happening {
        Happening::NewTable(table) => adopt(alloc, core, table)?,
        Happening::NotRead => core.not_read(),
        Happening::Told(id) => {
            if let Some(answer) = side.answer(id) {
                let _ = core.answer(*id, answer);
            }
        }
        Happening::Clock(reading) => core.clock(*reading),
        Happening::Nudge => core.nudge(),
        Happening::Got(request) => core.got(*request),
        Happening::Handed(how) => hand_core(alloc, core, made, *how)?,
        _ => {}
    }
    Ok(())
}

/// Writes a happening that may come next, and passes it to the core and to the simulated system.
fn hear<A: Allocator + Copy, W: Write, F: ScriptWriter<W>>(
    alloc: A,
    core: &mut Core<A>,
    made: &mut Vec<Vec<u8, A>, A>,
    side: &mut SimulatedSystem<A>,
    out: &mut W,
    happening: &HappeningIn<A>,
) -> Result<(), SimFault>
    requires ready { IsReadyFor happening.now core.old }
    requires made { HasTexts (map (λ text. text.items) made.old.items) core.old.fields.generation }
    requires ranged { is_in_range happening.now ≡ true }
    ensures text { OnOk result
        (Appends (W.contents out.old) (W.contents out.new) (event_text happening.now)) }
    ensures ok { OnOk result (FromMoment core.old side.old (λ goal past.
        may_be_scripted goal happening.now past ≡ true
        → Moment goal (happening.now ∷ past) core.new side.new)) }
    ensures made { OnOk result
        (HasTexts (map (λ text. text.items) made.new.items) core.new.fields.generation) }
    ensures err { IfErr result (λ fault.
        Leaves fault (W.contents out.old) (W.contents out.new) (event_text happening.now)) }
    ensures failed { result ≡ Err SimFault.Write → F.has_failed out.new ≡ true }
{
    pass_on(alloc, core, made, side, happening)?;
    write_happening::<A, W, F>(alloc, out, happening)?;
    side.take(happening)?;
    Ok(())
}

/// Processes a happening of the script, unless there is an objection to it, and takes init's steps until it is at rest.
/// `number` is the line number of the happening, and `rereads` is true if the current step reads inittab. Returns
/// whether the next step reads inittab.
fn hear_next<A: Allocator + Copy, W: Write, F: ScriptWriter<W>>(
    alloc: A,
    core: &mut Core<A>,
    made: &mut Vec<Vec<u8, A>, A>,
    side: &mut SimulatedSystem<A>,
    out: &mut W,
    happening: &HappeningIn<A>,
    rereads: bool,
    number: u64,
) -> Result<bool, SimFault>
    requires rests { SomeRest rereads core.old side.old }
    requires made { HasTexts (map (λ text. text.items) made.old.items) core.old.fields.generation }
    requires ranged { is_in_range happening.now ≡ true }
    ensures made { OnOk result
        (HasTexts (map (λ text. text.items) made.new.items) core.new.fields.generation) }
    ensures ok { IfOk result (λ next. FromRest rereads core.old side.old (λ goal past.
        HeardOne goal past happening.now next core.new side.new (W.contents out.old)
        (W.contents out.new))) }
    ensures err { IfErr result (λ fault. FromRest rereads core.old side.old (λ goal past.
        HeardEnds goal past happening.now number fault (W.contents out.old) (W.contents out.new))) }
    ensures failed { result ≡ Err SimFault.Write → F.has_failed out.new ≡ true }
{
    if let Some(objection) = objection_to(alloc, core, side, happening, rereads)? {
        return Err(SimFault::Forbidden(number, objection));
    }
    hear::<A, W, F>(alloc, core, made, side, out, happening)?;
    run_until_rest::<A, W, F>(alloc, core, side, out)
}

/// Reads the table of an inittab, ignoring faulty lines.
fn read_table<A: Allocator + Copy>(alloc: A, inittab: &[u8]) -> Result<Table<A>, SimFault>
    ensures table { IfOk result (λ table. table ≡ table_of_text inittab.now) }
    ensures limit { IsTooLong inittab.now → result ≡ Err SimFault.Table }
    ensures err { IfErr result (λ fault. TableEnds inittab.now fault) }
{
    match inittab_text::read(alloc, inittab) {
        Ok((table, _)) => Ok(table),
        Err(TableFault::TooLong) => Err(SimFault::Table),
        Err(TableFault::Memory) => Err(SimFault::Memory),
        Err(TableFault::Parts) => unreachable!(),
    }
}

/// Creates the core of an inittab.
fn open_core<A: Allocator + Copy>(
    alloc: A,
    inittab: &[u8],
    level: Option<Level>,
) -> Result<Core<A>, SimFault>
    ensures table { IfOk result (λ core. core.table ≡ table_of_text inittab.now) }
    ensures fits { IfOk result (λ core. FitsWithLastStatuses core
        (opening_goal level (table_of_text inittab.now))
        (NewTable (table_of_text inittab.now) ∷ [])) }
    ensures lasts { IfOk result (λ core.
        CanHandOver core (opening_goal level (table_of_text inittab.now))
        (NewTable (table_of_text inittab.now) ∷ [])) }
    ensures limit { IsTooLong inittab.now → result ≡ Err SimFault.Table }
    ensures err { IfErr result (λ fault. TableEnds inittab.now fault) }
{
    let table = read_table(alloc, inittab)?;
    let core = Core::new(alloc, table, level)?;
    Ok(core)
}

/// Writes the text of a table.
fn write_table<A: Allocator + Copy, W: Write, F: ScriptWriter<W>>(
    alloc: A,
    out: &mut W,
    table: &Table<A>,
) -> Result<(), SimFault>
    ensures ok { OnOk result
        (Appends (W.contents out.old) (W.contents out.new) (event_text (NewTable table.now))) }
    ensures err { IfErr result (λ fault. Leaves fault (W.contents out.old) (W.contents out.new)
        (event_text (NewTable table.now))) }
    ensures failed { result ≡ Err SimFault.Write → F.has_failed out.new ≡ true }
{
    let text = print_table(alloc, table)?;
    F::put(out, &text)?;
    Ok(())
}

/// Processes the happenings of a text in order, and takes init's steps after each until it is at rest. `rereads` is
/// true if the first step reads inittab.
fn hear_all<A: Allocator + Copy, W: Write, F: ScriptWriter<W>>(
    alloc: A,
    core: &mut Core<A>,
    side: &mut SimulatedSystem<A>,
    out: &mut W,
    text: &[u8],
    rereads: bool,
) -> Result<(), SimFault>
    requires rests { SomeRest rereads core.old side.old }
    requires none { core.old.fields.generation ≡ 0 }
    ensures done { OnOk result (
        FromScript text.now rereads core.old side.old (W.contents out.old)
        (λ s before. Done s before (W.contents out.new))) }
    ensures ended { IfErr result (λ fault.
        FromScript text.now rereads core.old side.old (W.contents out.old)
        (λ s before. Ends s fault before (W.contents out.new))) }
    ensures failed { result ≡ Err SimFault.Write → F.has_failed out.new ≡ true }
{
    let mut made = Vec::new(alloc);
    let mut rest = text;
    let mut number = 1;
    let mut reads = rereads;
    while !rest.is_empty() {
        let Some((happening, more)) = first_happening(alloc, rest)? else {
            return Err(SimFault::Script(number));
        };
        let heard = hear_next::<A, W, F>(
            alloc, core, &mut made, side, out, &happening, reads, number,
        );
        let lines = line_count(&happening);
        drop(happening);
        reads = heard?;
        number += lines;
        rest = more;
    }
    Ok(())
}

/// Takes init's first steps until it is at rest, and processes the script.
fn run_script<A: Allocator + Copy, W: Write, F: ScriptWriter<W>>(
    alloc: A,
    core: &mut Core<A>,
    side: &mut SimulatedSystem<A>,
    out: &mut W,
    script: &[u8],
) -> Result<(), SimFault>
    requires moment { SomeMoment core.old side.old }
    requires none { core.old.fields.generation ≡ 0 }
    ensures done { OnOk result (
        FromOpening script.now core.old side.old (W.contents out.old)
        (λ s before. Done s before (W.contents out.new))) }
    ensures ended { IfErr result (λ fault.
        FromOpening script.now core.old side.old (W.contents out.old)
        (λ s before. Ends s fault before (W.contents out.new))) }
    ensures failed { result ≡ Err SimFault.Write → F.has_failed out.new ≡ true }
{
    let rereads = run_until_rest::<A, W, F>(alloc, core, side, out)?;
    let text = ended(alloc, script)?;
    hear_all::<A, W, F>(alloc, core, side, out, &text, rereads)
}

/// Runs init over an inittab(5) and a script, and writes the trace as it grows: first the table, then each step of init
/// and each line of the script.
///
/// The script lists what the system did and which requests init received, one happening per line. At the start and
/// after each line, init takes its steps until none is due except reading inittab or a re-execution. Init goes to
/// `level`; the default is the table's `initdefault`, or S if there is none.
///
/// When init reads inittab, a table in the script (`use` and its lines) is the result, or `notread` if inittab could
/// not be read. At other points neither is allowed.
///
/// A line `handed` hands init's state over and completes a request for re-execution. With `whole`, the text arrives
/// unchanged, and the run continues with the core that was taken over. With `cut`, only the given number of bytes
/// arrives, which must be less than its length; with `older`, an earlier text with the given generation arrives
/// instead; in both cases the text is rejected and the old core continues. Each of these three makes a text and raises
/// the generation, and is not allowed if the generation is at its maximum. `handed none` makes no text.
///
/// The run ends at the end of the script, or before the first line that is not a line of a trace (`Script`) or is not
/// allowed at this point (`Forbidden`, with the reason). Lines are counted from 1, including the lines of a table; a
/// fault in a table names its first line. An inittab of more than 1,048,576 bytes is rejected (`Table`). If the writer
/// fails (`Write`), a proper prefix of the trace was written; no other fault is `Write`. If memory allocation fails
/// (`Memory`), a prefix of the trace was written.
pub fn simulate<A: Allocator + Copy, W: Write, F: ScriptWriter<W>>(
    alloc: A,
    inittab: &[u8],
    level: Option<Level>,
    script: &[u8],
    out: &mut W,
) -> Result<(), SimFault>
    ensures done { OnOk result (Done (scenario level inittab.now script.now)
        (W.contents out.old) (W.contents out.new)) }
    ensures ended { IfErr result (λ fault. Ends (scenario level inittab.now script.now) fault
        (W.contents out.old) (W.contents out.new)) }
    ensures limit { IsTooLong inittab.now → result ≡ Err SimFault.Table }
    ensures failed { result ≡ Err SimFault.Write → F.has_failed out.new ≡ true }
{
    let mut core = open_core(alloc, inittab, level)?;
    write_table::<A, W, F>(alloc, out, core.table())?;
    let mut side = SimulatedSystem::new(alloc);
    let ended = run_script::<A, W, F>(alloc, &mut core, &mut side, out, script);
    // Explicit drops, because the prover would otherwise go through the fields of the dropped values one by one.
    drop(side);
    drop(core);
    ended
}
