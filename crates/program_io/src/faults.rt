//! Reports that a file, the output or memory allocation failed.

ghost use Rattle.std.specs.Prelude.{◌≡◌, List, ℕ};
ghost use Rattle.program_io.specs.Arguments.{no_memory_text};
ghost use Rattle.program_io.specs.Reports.{AppendsReport, LastReportNonempty, failure_text, fault_text};

use crate::reasons::reason_text;
use crate::reports::Reporter;
use crate::statuses::DEVICE_FAULT;
use std::io;

/// The text after the program's name in the report that memory ran out.
const NO_MEMORY: &str = "out of memory: nothing was written; free some memory and try again";

/// Reports the line `NAME: FAULT`, and returns the exit status.
pub fn report_fault<E: Reporter>(name: &str, fault: &str, err: &mut E) -> u8
    ensures status { result ≡ DEVICE_FAULT }
    ensures report { AppendsReport (E.reports err.old) (E.reports err.new)
        (fault_text name.now fault.now) }
    ensures spoken { LastReportNonempty (E.reports err.new) }
{
    err.report_texts(&[name, ": ", fault, "\n"]);
    DEVICE_FAULT
}

/// Reports that an operation on a path failed, as the line `NAME: ACT PATH: REASON`, and returns the exit status.
///
/// `act` is what failed, such as `cannot read`. `more` is added to the reason: the consequence of the failure, or the
/// remedy.
pub fn report_failure<E: Reporter>(
    name: &str,
    act: &str,
    path: &str,
    error: &io::Error,
    more: &str,
    err: &mut E,
) -> u8
    ensures status { result ≡ DEVICE_FAULT }
    ensures report { (reason : List ℕ) × AppendsReport (E.reports err.old) (E.reports err.new)
        (failure_text name.now act.now path.now reason more.now) }
    ensures spoken { LastReportNonempty (E.reports err.new) }
{
    report_reason(name, act, path, reason_text(error).as_str(), more, err)
}

/// Does the same as `report_failure`, with the reason given as text.
fn report_reason<E: Reporter>(
    name: &str,
    act: &str,
    path: &str,
    reason: &str,
    more: &str,
    err: &mut E,
) -> u8
    ensures status { result ≡ DEVICE_FAULT }
    ensures report { AppendsReport (E.reports err.old) (E.reports err.new)
        (failure_text name.now act.now path.now reason.now more.now) }
    ensures spoken { LastReportNonempty (E.reports err.new) }
{
    err.report_texts(&[name, ": ", act, " ", path, ": ", reason, more, "\n"]);
    DEVICE_FAULT
}

/// Reports that memory ran out before anything was written, and returns the exit status.
#[tactic(auto, unfolding(crate::specs::Arguments::no_memory_text))]
pub fn report_no_memory<E: Reporter>(name: &str, err: &mut E) -> u8
    ensures status { result ≡ DEVICE_FAULT }
    ensures report { AppendsReport (E.reports err.old) (E.reports err.new)
        (no_memory_text name.now) }
    ensures spoken { LastReportNonempty (E.reports err.new) }
{
    report_fault(name, NO_MEMORY, err)
}
