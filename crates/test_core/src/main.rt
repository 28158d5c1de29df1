//! Runs the rows of standard input: runs of init's core, or only of its records, as calls and the steps after them.
//! Also tests the text of init's state, with results worked out by hand from its grammar: the text written for a core,
//! the contents of a text, the reasons for rejecting a text, hand-overs of states, and failed allocations.
#![tactic(auto)]

#[cfg(test)]
mod byte_tests;
mod cores;
#[cfg(test)]
mod growth_tests;
#[cfg(test)]
mod handed;
#[cfg(test)]
mod handover_tests;
#[cfg(test)]
mod line_tests;
mod records;
#[cfg(test)]
mod room_tests;
mod runs;
#[cfg(test)]
mod texts;
#[cfg(test)]
mod value_tests;

use cores::core_difference;
use records::records_difference;
use std::alloc::Global;
use std::process::ExitCode;
use std::str;
use test_support::play_rows;

fn play(alloc: Global, fields: &[&[u8]]) -> Option<String> {
    let [_, subject, inittab, run] = *fields else {
        return None;
    };
    let inittab = str::from_utf8(inittab).ok()?;
    let run = str::from_utf8(run).ok()?;
    match str::from_utf8(subject).ok()?.trim_ascii_end() {
        "records" => records_difference(alloc, inittab, run),
        core => core_difference(alloc, core.strip_prefix("core")?.trim_ascii(), inittab, run),
    }
}

fn main(rt: HostRuntime) -> ExitCode {
    play_rows(&rt, |alloc, fields| play(alloc, fields))
}
