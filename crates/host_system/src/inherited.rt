//! Settings that a process inherits from the process that started it: which signals it ignores, and whether it can
//! wait for children.

use crate::commands::shell_command;
use crate::launches::AT_ONCE;
use program_io::read_file;
use std::alloc::Allocator;
use std::process::{ExitStatus, Processes};
use std::rt::Files;
use std::{io, str};

/// The file in which Linux reports the status of a process (proc_pid_status(5)).
const STATUS: &str = "/proc/self/status";

/// The bit of CHLD in a mask of signals (signal(7)).
const CHLD: u64 = 0x1_0000;

/// The error of waitpid(2) if no child is left (ECHILD).
const NO_CHILD: i32 = 10;

/// Returns the signals that this process ignores, one bit each; `None` if the system does not report them.
pub fn ignored_signals<R: Files, A: Allocator + Copy>(rt: &R, alloc: A) -> Option<u64> {
    let status = read_file(rt, alloc, STATUS).ok()?;
    for line in str::from_utf8(&status).ok()?.lines() {
        if let Some(mask) = line.strip_prefix("SigIgn:") {
            return u64::from_str_radix(mask.trim(), 16).ok();
        }
    }
    None
}

/// Returns whether children cannot be waited for, because CHLD is ignored and the system therefore reaps each child
/// itself (wait(2)). If the system does not report which signals are ignored, this starts a shell that does nothing,
/// and waits for it.
pub fn ignores_children<R: Files + Processes, A: Allocator + Copy>(rt: &R, alloc: A) -> bool {
    match ignored_signals(rt, alloc) {
        Some(ignored) => ignored & CHLD != 0,
        None => matches!(waited(rt, alloc), Err(error) if error.raw_os_error() == Some(NO_CHILD)),
    }
}

fn waited<R: Processes, A: Allocator + Copy>(rt: &R, alloc: A) -> io::Result<ExitStatus> {
    let mut shell = shell_command(alloc, AT_ONCE, ":")?;
    shell.status(rt)
}
