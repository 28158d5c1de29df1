//! Judges the traces of standard input, whose verdicts were worked out from the definitions of the laws: each
//! unchanged, with its lines changed one at a time, and in its brief form. Also tests inittab(5), request blocks
//! (initreq.h), the respawn limit (init(8)), texts of traces, the simulated system of `simulate`, and calls and logs
//! that run out of memory. Complete runs are in `tools/rows/initd-lines`.
#![tactic(auto)]

#[cfg(test)]
mod frames_tests;
#[cfg(test)]
mod growth_tests;
#[cfg(test)]
mod inittab_room_tests;
#[cfg(test)]
mod inittab_tests;
#[cfg(test)]
mod piece_tests;
#[cfg(test)]
mod respawn_tests;
#[cfg(test)]
mod said_tests;
#[cfg(test)]
mod side_tests;
#[cfg(test)]
mod text_tests;
mod verdicts;

use std::alloc::Global;
use std::process::ExitCode;
use std::str;
use test_support::play_rows;
use verdicts::{brief_difference, verdict_difference};

fn play(alloc: Global, fields: &[&[u8]]) -> Option<String> {
    match *fields {
        [_, verdict, trace] => {
            verdict_difference(
                alloc,
                str::from_utf8(verdict).ok()?,
                str::from_utf8(trace).ok()?,
            )
        }
        [_, verdicts, held, trace] => brief_difference(
            alloc,
            str::from_utf8(verdicts).ok()?,
            str::from_utf8(held).ok()?,
            str::from_utf8(trace).ok()?,
        ),
        _ => None,
    }
}

fn main(rt: HostRuntime) -> ExitCode {
    play_rows(&rt, |alloc, fields| play(alloc, fields))
}
