//! A core as the subject of a run. Its steps are the lines for init's steps, `reread` and `reexec`; `then` defers the
//! next step; `handed` completes the request for re-execution. `awaits` lists the children that init waits for,
//! separated by `, `, or `none`; `last` has an id and how its last child ended, with the exit status.

#[cfg(test)]
use crate::runs::goes_on;
use crate::runs::{Subject, steps_difference, steps_of, table_of};
use core_waiting::{Awaited, AwaitedChildren, WhyAwaited};
use init_words::{Id, Level, Memory, Refusal, Status};
use inittab_text::Table;
use level_core::{Core, Goal, Step};
use std::alloc::{Allocator, Global};
use test_support::{answer_of, boxed, happening_of};
use trace_events::{Happening, HappeningIn};
use trace_text::words::{read_level, read_stage};

/// A core within a run.
#[derive(Drop)]
pub(crate) struct CoreRun<'c, A: Allocator> {
    core: &'c mut Core<A>,
    /// The step that remains until the next call; none before the first line that is not for a reader.
    stays: Option<Step>,
}

impl<'c, A: Allocator> CoreRun<'c, A> {
    pub(crate) fn of(core: &'c mut Core<A>) -> CoreRun<'c, A> {
        CoreRun { core, stays: None }
    }
}

pub(crate) fn core_over<A: Allocator + Copy>(
    global: Global,
    alloc: A,
    table: Table<A>,
    level: Option<Level>,
) -> Result<Box<Core<A>>, Memory> {
    Ok(boxed(global, Core::new(alloc, table, level)?)?)
}

fn why_text(why: WhyAwaited) -> &'static str {
    match why {
        WhyAwaited::Excluded => "excluded",
        WhyAwaited::WaitedFor => "waited for",
        WhyAwaited::InTheWay => "in the way",
    }
}

/// Reports whether the text describes the child: `ID NUMBER WHY`.
fn is_text_of(awaited: &Awaited, value: &str) -> Option<bool> {
    let (id, rest) = value.split_once(' ')?;
    let (number, why) = rest.split_once(' ')?;
    Some(
        id.as_bytes() == awaited.id.as_bytes()
            && number.parse::<u32>().ok() == Some(awaited.number.0)
            && why == why_text(awaited.why),
    )
}

/// Reports whether the core waits for exactly the children in the text, in order.
fn awaits<A: Allocator>(core: &Core<A>, text: &str) -> bool {
    let mut remaining = AwaitedChildren::of(core);
    for value in text.split(", ") {
        let is_said = match remaining.next() {
            Some(awaited) => is_text_of(&awaited, value) == Some(true),
            None => value == "none",
        };
        if !is_said {
            return false;
        }
    }
    remaining.next().is_none()
}

/// Reports whether a reader method returns the value in its line; none if the line is not for a reader.
fn gives<A: Allocator>(core: &Core<A>, line: &str) -> Option<bool> {
    let (reader, value) = line.split_once(' ').unwrap_or((line, ""));
    match reader {
        "busy" => Some(!core.drained()),
        "drained" => Some(core.drained()),
        "awaits" => Some(awaits(core, value)),
        "stage" => Some(core.stage() == read_stage(value.as_bytes())),
        "goal" => {
            let (level, secs) = value.split_once(' ')?;
            let level = read_level(level.as_bytes())?;
            let grace = secs.parse::<u16>().ok()?;
            Some(core.goal() == Goal { level, grace })
        }
        "last" => {
            let (id, code) = value.split_once(' ')?;
            let end = code.parse::<u8>().ok().map(Status::Exit);
            Some(core.last(&Id::read(id.as_bytes())?) == end)
        }
        "time" => Some(value.parse::<u64>().ok() == Some(core.time())),
        "entries" => Some(value.parse::<usize>().ok() == Some(core.table().len())),
        "records" => Some(value.parse::<usize>().ok() == Some(core.slots().len())),
        _ => None,
    }
}

/// Returns the step of a happening that is one.
fn made_by(happening: &HappeningIn<Global>) -> Option<Step> {
    Some(match *happening {
        Happening::Enter(stage, grace) => Step::Enter(stage, grace),
        Happening::Call(letter) => Step::Call(letter),
        Happening::Power(kind) => Step::Power(kind),
        Happening::Asked(id, order) => Step::Order(id, order),
        Happening::Hold(id) => Step::Hold(id),
        Happening::Settle(level) => Step::Settle(level),
        _ => return None,
    })
}

fn step_of(global: Global, line: &str) -> Option<Step> {
    match line {
        "reread" => Some(Step::Reread),
        "reexec" => Some(Step::Reexec),
        "idle" => Some(Step::Idle),
        _ => made_by(&happening_of(global, line)?),
    }
}

/// Returns how the core answers a call; none if the happening is not a call.
fn told<A: Allocator>(
    core: &mut Core<A>,
    call: &HappeningIn<Global>,
) -> Option<Result<(), Refusal>> {
    match *call {
        Happening::NotRead => core.not_read(),
        Happening::Clock(reading) => core.clock(reading),
        Happening::Nudge => core.nudge(),
        Happening::Got(request) => core.got(request),
        Happening::Handed(_) => core.not_handed(),
        _ => {
            let (id, answer) = answer_of(call)?;
            return Some(core.answer(id, answer));
        }
    }
    Some(Ok(()))
}

/// Returns how the core answers the call in a line; none if there is no call in it.
fn answered<A: Allocator + Copy>(
    global: Global,
    alloc: A,
    core: &mut Core<A>,
    line: &str,
) -> Option<Result<(), Refusal>> {
    match line.strip_prefix("use ") {
        Some(inittab) => Some(core.adopt(table_of(alloc, inittab)?)),
        None => told(core, &happening_of(global, line)?),
    }
}

impl<A: Allocator + Copy> Subject<A> for CoreRun<'_, A> {
    fn goes(&mut self, global: Global, alloc: A, line: &str, want: Result<(), Refusal>) -> bool {
        if let Some(is_so) = gives(self.core, line) {
            return is_so;
        }
        if line == "then" {
            self.stays = None;
            return true;
        }
        if let Some(step) = step_of(global, line) {
            let does_stay = matches!(step, Step::Reread | Step::Reexec);
            self.stays = Some(if does_stay { step } else { Step::Idle });
            return self.core.next() == step;
        }
        if !self.rests() {
            return false;
        }
        self.stays = Some(Step::Idle);
        answered(global, alloc, self.core, line) == Some(want)
    }

    fn rests(&mut self) -> bool {
        match self.stays {
            Some(step) => self.core.next() == step,
            None => true,
        }
    }
}

/// Returns the difference between a run on the core of an inittab and its steps; empty if there is none. The level is
/// the requested one, or empty.
pub(crate) fn core_difference(
    global: Global,
    level: &str,
    inittab: &str,
    run: &str,
) -> Option<String> {
    let table = table_of(global, inittab)?;
    let mut core = core_over(global, global, table, read_level(level.as_bytes())).ok()?;
    let steps = steps_of(global, run).ok()?;
    steps_difference(global, global, &mut CoreRun::of(&mut core), &steps)
}

/// Reports whether the lines of a run on a core have the expected results.
#[cfg(test)]
pub(crate) fn does<A: Allocator + Copy>(
    global: Global,
    alloc: A,
    core: &mut Core<A>,
    run: &str,
) -> bool {
    goes_on(global, alloc, &mut CoreRun::of(core), run)
}

/// Creates the core of an init that starts with an inittab, and with the level after ` > ` if there is one.
#[cfg(test)]
pub(crate) fn opened(global: Global, inittab: &str) -> Option<Box<Core>> {
    let (inittab, level) = inittab.split_once(" > ").unwrap_or((inittab, ""));
    core_over(
        global,
        global,
        table_of(global, inittab)?,
        read_level(level.as_bytes()),
    )
    .ok()
}
