//! Runs init on the rows of standard input, each with an inittab, a script of what the system does, and the expected
//! trace. A hand-over of init's state after any of the happenings must not change the rest of the trace.
#![tactic(auto)]

mod runs;

use runs::{Row, difference_of};
use std::alloc::Global;
use std::process::ExitCode;
use test_support::play_rows;

fn play(alloc: Global, fields: &[&[u8]]) -> Option<String> {
    let [_, inittab, script, trace, fault] = *fields else {
        return None;
    };
    difference_of(
        alloc,
        &Row {
            inittab,
            script,
            trace,
            fault,
        },
    )
    .ok()
}

fn main(rt: HostRuntime) -> ExitCode {
    play_rows(&rt, |alloc, fields| play(alloc, fields))
}
