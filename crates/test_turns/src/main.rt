//! Runs the rows of standard input: turns of init on a scripted host, each row with an inittab, the host's answers, and
//! the expected trace and calls. Also tests requests in pieces, a log that fails, lack of memory, and the hosts,
//! including the hosts of the operating system, whose other tests are in tools/pages.d.
#![tactic(auto)]

#[cfg(test)]
mod log_tests;
#[cfg(test)]
mod os_hosts;
#[cfg(test)]
mod request_tests;
#[cfg(test)]
mod room_tests;
mod runs;
#[cfg(test)]
mod scripted_tests;
#[cfg(test)]
mod test_hosts;

use runs::{difference_of, row_of};
use std::alloc::Global;
use std::process::ExitCode;
use test_support::play_rows;

fn play(alloc: Global, fields: &[&[u8]]) -> Option<String> {
    difference_of(alloc, &row_of(fields)?)
}

fn main(rt: HostRuntime) -> ExitCode {
    play_rows(&rt, |alloc, fields| play(alloc, fields))
}
