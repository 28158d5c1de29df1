//! The command-line arguments of a program, and the report if they cannot be read.

ghost use Rattle.std.specs.Prelude.{◌≡◌, ◌≢◌};
ghost use Rattle.std.specs.IoError.{error_kind};
ghost use Rattle.program_io.specs.Arguments.{no_memory_text, only_byte};
ghost use Rattle.program_io.specs.Reports.{AppendsReport};

use crate::faults::report_no_memory;
use crate::reports::Reporter;
use crate::statuses::{DEVICE_FAULT, REFUSED};
use std::alloc::Global;
use std::env::Env;
use std::io::ErrorKind;
use std::{env, io};

/// Returns the arguments after the program's name. An argument that is not UTF-8 is an error, `InvalidData`.
pub fn words<R: Env + AllocGlobal>(rt: &R, alloc: Global) -> io::Result<Vec<String>> {
    Ok(env::args(rt)?.skip(1).collect(alloc)?)
}

/// Returns the only byte of a text; `None` if the text does not have exactly one byte.
pub fn only_byte(word: &str) -> Option<u8>
    ensures { result ≡ only_byte word.now }
{
    match word.as_bytes() {
        [byte] => Some(*byte),
        _ => None,
    }
}

/// Returns the exit status of a program whose arguments could not be read: 4 if memory ran out, 1 for any other error,
/// such as an argument that is not UTF-8.
pub fn unread_status(error: &io::Error) -> u8
    ensures memory { error_kind error.now ≡ ErrorKind.OutOfMemory → result ≡ DEVICE_FAULT }
    ensures text { error_kind error.now ≢ ErrorKind.OutOfMemory → result ≡ REFUSED }
{
    if error.kind() == ErrorKind::OutOfMemory {
        DEVICE_FAULT
    } else {
        REFUSED
    }
}

/// Reports why the arguments could not be read: that memory ran out, or the usage for any other error. Returns
/// `unread_status`.
pub fn report_unread_words<E: Reporter>(
    name: &str,
    usage: &str,
    error: &io::Error,
    err: &mut E,
) -> u8
    ensures memory { error_kind error.now ≡ ErrorKind.OutOfMemory → (result ≡ DEVICE_FAULT)
        × AppendsReport (E.reports err.old) (E.reports err.new) (no_memory_text name.now) }
    ensures text { error_kind error.now ≢ ErrorKind.OutOfMemory → (result ≡ REFUSED)
        × AppendsReport (E.reports err.old) (E.reports err.new) usage.now }
{
    if unread_status(error) == DEVICE_FAULT {
        report_no_memory(name, err)
    } else {
        report_usage(usage, err)
    }
}

/// Reports the usage, and returns the exit status for a rejected command line.
pub fn report_usage<E: Reporter>(usage: &str, err: &mut E) -> u8
    ensures status { result ≡ REFUSED }
    ensures report { AppendsReport (E.reports err.old) (E.reports err.new) usage.now }
{
    err.report(usage.as_bytes());
    REFUSED
}
