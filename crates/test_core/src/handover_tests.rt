//! Cores that reach a state, hand it over, and continue; and cores that take it over and continue in the same way.

use crate::cores::{CoreRun, opened};
use crate::handed::{taken, text_difference};
use crate::runs::{parts_of, steps_difference};
use crate::texts::{ENDED, SETTLED, STARTED, STARTED_OLD, text_of};
use level_core::Core;
use reexec_state::{StateFault, generation_of, hand_over};
use std::alloc::Global;
use std::test::Fail;
use test_support::row_difference;

/// The core directly after it ordered its second start.
pub(crate) const STARTS: &str =
    "enter sysinit 5 / enter boot 5 / enter 3 5 / ask a start / ask b start";

pub(crate) const STARTED_TABLE: &str = "id:3:initdefault:\na:3:respawn:x\nb:3:once:y\n";

/// The state after the child of `b` was born, in version 1.
const ENDED_OLD: &str = "clock 0\nstage 3 5\ngoal 3 5\nflags 10\nwish 00 - 000 000\n\
    table 3\nid:3:initdefault:\na:3:respawn:x\nb:3:once:y\n\
    slot id - - - - 0000 - -\nslot a - - start - 1000 - 0,0\nslot b 700 once - - 1000 - -\nend 14\n";

/// No stage yet, and an open SIGTERM for a child whose entry lives in Sysinit.
const SIGNALLED: &str = "clock 7\nstage none 0\ngoal 3 5\nflags 00\nwish 00 - 000 000\n\
    table 1\ns::sysinit:a\nslot s 700 sysinit term due 0000 - -\nend 10\n";

/// An ondemand entry with a child, not called, and called.
const LIVED: &str = "clock 7\nstage 3 5\ngoal 3 5\nflags 11\nwish 00 - 000 000\n\
    table 1\nd:A:ondemand:x\nslot d 700 ondemand - - 1000 - -\nend 10\n";

const CALLED: &str = "clock 7\nstage 3 5\ngoal 3 5\nflags 11\nwish 00 - 000 000\n\
    table 1\nd:A:ondemand:x\nslot d 700 ondemand - - 1100 - -\nend 10\n";

/// A run: the version of the saved state with which init starts (generation 1), or 0 if it starts with an inittab, with
/// a level after ` > `; its steps; the lines that it hands over; and its steps after that, which the init that takes
/// the state over must take as well. All steps are lines of a run of a core.
type Run = (u64, &'static str, &'static str, &'static str, &'static str);

const RUNS: &[Run] = &[
    // A text of version 1 gives the core that was written.
    (0, STARTED_TABLE, STARTS, STARTED_OLD, "idle"),
    (1, STARTED_OLD, "", STARTED_OLD, "idle"),
    (2, STARTED, "", STARTED, "idle"),
    // The statuses of the last children are handed over, except in version 1.
    (
        0,
        STARTED_TABLE,
        "enter sysinit 5 / enter boot 5 / enter 3 5 / ask a start / ask b start / birth a 700 / nudge / \
         ask a look / birth b 700 / reaped a 700 exit 0 / ask a start",
        ENDED,
        "last a 0 / last b none / last none none",
    ),
    (2, ENDED, "", ENDED, "last a 0 / last b none"),
    (1, ENDED_OLD, "", ENDED_OLD, "last a none"),
    // Init is re-executed, twice.
    (
        0,
        "w:3:wait:a\nr:3:respawn:b > 3",
        "clock 7 / enter sysinit 5 / enter boot 5 / enter 3 5 / ask w start / birth w 700 / idle / nudge / \
         ask w look / reaped w 700 exit 0 / ask r start / birth r 700 / settle 3 / got reexec / reexec",
        SETTLED,
        "idle",
    ),
    (2, SETTLED, "idle", SETTLED, "idle"),
    // Sysinit is entered only at a quiet point: the signal is answered first, and until then the state that is handed
    // over is accepted.
    (
        1,
        SIGNALLED,
        "idle",
        SIGNALLED,
        "idle / hit s / enter sysinit 5",
    ),
    // A child that stayed alive is called again.
    (
        1,
        LIVED,
        "",
        LIVED,
        "nudge / ask d look / reaped d 700 exit 0 / idle",
    ),
    (
        1,
        LIVED,
        "got call A / call A",
        CALLED,
        "nudge / ask d look / reaped d 700 exit 0 / ask d start",
    ),
];

/// Returns the core with which a run begins.
fn begun(global: Global, version: u64, from: &str) -> Option<Box<Core>> {
    if version == 0 {
        return opened(global, from);
    }
    let text = text_of(global, version, 1, from).ok()?;
    taken(global, global, text.as_bytes(), 1).ok()
}

/// Returns the difference between these lines and what a core does; empty if there is none, or there are no lines.
fn core_difference(global: Global, core: &mut Core, what: &str, run: &str) -> Option<String> {
    if run.is_empty() {
        return Some(String::new(global));
    }
    let steps = parts_of(global, run).ok()?;
    let told = steps_difference(global, global, &mut CoreRun::of(core), &steps)?;
    if told.is_empty() {
        return Some(told);
    }
    format!(in global; "{what}: {told}").ok()
}

/// Returns the difference between a run and its expected results. The generation is 1 after an inittab, otherwise 2.
fn run_difference(global: Global, run: &Run) -> Option<String> {
    let (version, from, before, lines, after) = *run;
    let generation = if version == 0 { 1 } else { 2 };
    let mut core = begun(global, version, from)?;
    let told = core_difference(global, &mut core, "what it does before", before)?;
    if !told.is_empty() {
        return Some(told);
    }
    let text = hand_over(global, &mut core).ok()?;
    let told = text_difference(global, &text, generation, lines)?;
    if !told.is_empty() || generation_of(&text) != Some(generation) {
        return format!(in global; "of generation {generation}: {told}").ok();
    }
    let mut next = taken(global, global, &text, generation).ok()?;
    let told = core_difference(global, &mut core, "what it does after it", after)?;
    if !told.is_empty() {
        return Some(told);
    }
    core_difference(global, &mut next, "what who takes it over does", after)
}

/// Reports whether the core of the last possible generation hands nothing over, and stays as it is.
fn is_worn(global: Global) -> Option<bool> {
    let text = text_of(global, 2, u64::MAX, SETTLED).ok()?;
    let mut core = taken(global, global, text.as_bytes(), u64::MAX).ok()?;
    let is_refused = hand_over(global, &mut core) == Err(StateFault::Worn);
    Some(is_refused && core.generation() == u64::MAX)
}

#[test]
fn states_are_handed_on(rt: HostRuntime) -> Result<(), Fail> {
    for (position, run) in RUNS.iter().enumerate() {
        let told = run_difference(rt.alloc(), run);
        let told = row_difference(rt.alloc(), position, run.1, told)?;
        assert!(rt; told.is_empty(), "{told}");
    }
    assert!(rt; is_worn(rt.alloc()) == Some(true));
    Ok(())
}
