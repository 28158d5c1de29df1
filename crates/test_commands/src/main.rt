//! Runs the rows of standard input: command lines of initd, rclinks, rc and telinit, with texts, folders, a channel and
//! a host in memory, and with writers that fail; and the scripts that rc_driver runs, and their order. Also tests the
//! headers of init scripts, readers and writers that return or accept little, a log after turns, and lack of memory.
//! Command lines with real folders and children are in tools/pages.d.
#![tactic(auto)]

#[cfg(test)]
mod growth_tests;
#[cfg(test)]
mod headers_tests;
mod initd_lines;
#[cfg(test)]
mod io_tests;
mod one_channel;
mod rc_lines;
mod rclinks_lines;
mod rows;
mod script_order;
mod script_runs;
mod telinit_lines;
#[cfg(test)]
mod texts;
#[cfg(test)]
mod turns_tests;

use rows::texts_of;
use std::process::ExitCode;
use test_support::play_rows;

fn play(rt: &HostRuntime, fields: &[&[u8]]) -> Option<String> {
    let alloc = rt.alloc();
    let texts = texts_of(alloc, fields)?;
    let [_, program, row @ ..] = texts.as_slice() else {
        return None;
    };
    match *program {
        "initd" => initd_lines::difference_of(rt, row),
        "rclinks" => rclinks_lines::difference_of(alloc, row),
        "rc" => rc_lines::difference_of(alloc, row),
        "telinit" => telinit_lines::difference_of(alloc, row),
        "scripts" => script_runs::difference_of(alloc, row),
        "order" => script_order::difference_of(alloc, row),
        _ => None,
    }
}

fn main(rt: HostRuntime) -> ExitCode {
    play_rows(&rt, |_, fields| play(&rt, fields))
}
