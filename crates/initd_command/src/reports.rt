//! Messages about files and faults.

ghost use Rattle.std.specs.Prelude.{◌≡◌, true, ℕ, List, None, Some, OnOk, OnErr, option_map, string_bytes, IfOk, ◌++◌};
ghost use Rattle.std.specs.Io.KnownBytes.{Appends};
ghost use Rattle.initd_command.specs.Words.{AppendsPrefix, AppendsReport};
ghost use Rattle.initd_command.specs.Endings.{ReportsCannot, ReportsFlawed, ReportsIf, busy_message, fault_message, fault_status, reason_message, shared_message, unlisted_message};
ghost use Rattle.initd_command.specs.Turned.{ReportsText};

use crate::lines::{line_at, line_told};
use init_words::Id;
use program_io::{DEVICE_FAULT, REFUSED, Reason, Reporter, write_text};
use simulator::{Objection, SimFault};
use std::alloc::{AllocError, Global};
use std::io;
use std::io::Write;

/// The report if memory runs out, for example for the message itself.
pub(crate) const NO_MEMORY: &str = "initd: out of memory\n";

/// The report if the inittab has too many files.
pub(crate) const TOO_MANY: &str = "initd: inittab has more than 256 files; merge some\n";

/// The report if CHLD is ignored.
const UNWAITED: &str = "initd: SIGCHLD is ignored, so no child can be waited for; start init \
    with env --default-signal=CHLD initd run ..\n";

/// The report after the faults of an inittab that must have none.
const FLAWED: &str = "initd: the inittab has faulty lines, which --strict rejects; fix them\n";

/// Reports a fault of a simulated run over a script, and returns the exit status.
pub(crate) fn report_fault<E: Reporter>(
    alloc: Global,
    script: &[u8],
    fault: &SimFault,
    err: &mut E,
) -> u8
    ensures status { result ≡ fault_status fault.now }
    ensures reported { ReportsText (fault_message script.now fault.now) (E.reports err.old)
        (E.reports err.new) }
{
    report_lines(fault_message(alloc, script, fault), err);
    match fault {
        SimFault::Table | SimFault::Script(_) | SimFault::Forbidden(_, _) => REFUSED,
        SimFault::Write | SimFault::Memory => DEVICE_FAULT,
    }
}

/// Returns the text of a fault. If the fault is a script line that is not allowed at its place, the line and the
/// reason follow.
fn fault_message(alloc: Global, script: &[u8], fault: &SimFault) -> Result<Vec<u8>, AllocError>
    ensures { IfOk result (λ text. text.items ≡ fault_message script.now fault.now) }
{
    let first = format!(in alloc; "initd: {fault}\n")?;
    let mut text = Vec::new(alloc);
    text.extend_from_slice(first.as_bytes())?;
    if let SimFault::Forbidden(number, why) = fault {
        add_reason(alloc, &mut text, line_at(*number, script), why)?;
    }
    Ok(text)
}

/// Adds a script line that is not allowed at its place, and the reason.
fn add_reason(
    alloc: Global,
    text: &mut Vec<u8>,
    line: &[u8],
    why: &Objection,
) -> Result<(), AllocError>
    ensures { OnOk result (text.new.items ≡ text.old.items ++ reason_message line.now why.now) }
{
    let reason = format!(in alloc; "{why}")?;
    text.extend_from_slice(b"initd: ")?;
    text.extend_from_slice(line_told(line))?;
    text.extend_from_slice(b": ")?;
    text.extend_from_slice(reason.as_bytes())?;
    text.push(b'\n')?;
    Ok(())
}

/// Reports that an operation on a file, named by a verb such as `read`, failed, and returns the exit status.
pub(crate) fn report_cannot<E: Reporter>(
    alloc: Global,
    verb: &str,
    path: &str,
    error: &io::Error,
    err: &mut E,
) -> u8
    ensures status { result ≡ DEVICE_FAULT }
    ensures reported { ReportsCannot verb.now path.now (E.reports err.old) (E.reports err.new) }
{
    let Ok(reason) = format!(in alloc; "{}", Reason(error)) else {
        return report_memory(err);
    };
    let why = reason.as_str();
    report_made(
        format!(in alloc; "initd: cannot {verb} {path}: {why}\n"),
        err,
    );
    DEVICE_FAULT
}

/// Reports that another process holds the channel or the trace, with the name and number of the process if they are
/// known, and returns the exit status.
pub(crate) fn report_busy<E: Reporter>(
    alloc: Global,
    path: &str,
    holder: &Option<String>,
    err: &mut E,
) -> u8
    ensures status { result ≡ DEVICE_FAULT }
    ensures reported { ReportsText (busy_message path.now (option_map string_bytes holder.now))
        (E.reports err.old) (E.reports err.new) }
{
    report_made(busy_message(alloc, path, holder), err);
    DEVICE_FAULT
}

fn busy_message(alloc: Global, path: &str, holder: &Option<String>) -> Result<String, AllocError>
    ensures { IfOk result (λ text.
        string_bytes text ≡ busy_message path.now (option_map string_bytes holder.now)) }
{
    match holder {
        Some(holder) => format!(in alloc;
            "initd: {path} is in use by {holder}; stop that process, or use another file\n"
        ),
        None => format!(in alloc;
            "initd: {path} is in use by another initd run; stop that run, or use another file\n"
        ),
    }
}

/// Reports that two of a run's paths lead to the same file, and returns the exit status.
pub(crate) fn report_shared<E: Reporter>(alloc: Global, one: &str, other: &str, err: &mut E) -> u8
    ensures status { result ≡ REFUSED }
    ensures reported { ReportsText (shared_message one.now other.now) (E.reports err.old)
        (E.reports err.new) }
{
    report_made(
        format!(in alloc; "initd: {one} and {other} are the same file; use two different files\n"),
        err,
    );
    REFUSED
}

/// Reports a message, or that there was no memory to create it.
pub(crate) fn report_made<E: Reporter>(message: Result<String, AllocError>, err: &mut E)
    ensures made { IfOk message (λ text.
        AppendsReport (E.reports err.old) (E.reports err.new) (string_bytes text)) }
    ensures unmade { OnErr message
        (AppendsReport (E.reports err.old) (E.reports err.new) NO_MEMORY.now) }
{
    match &message {
        Ok(text) => report(text.as_str(), err),
        Err(_) => report(NO_MEMORY, err),
    }
}

/// Reports lines, which need not be UTF-8, or that there was no memory to create them.
pub(crate) fn report_lines<E: Reporter>(message: Result<Vec<u8>, AllocError>, err: &mut E)
    ensures made { IfOk message (λ text.
        AppendsReport (E.reports err.old) (E.reports err.new) text.items) }
    ensures unmade { OnErr message
        (AppendsReport (E.reports err.old) (E.reports err.new) NO_MEMORY.now) }
{
    match &message {
        Ok(text) => report_bytes(text, err),
        Err(_) => report(NO_MEMORY, err),
    }
}

/// Reports a text.
pub(crate) fn report<E: Reporter>(text: &str, err: &mut E)
    ensures { AppendsReport (E.reports err.old) (E.reports err.new) text.now }
{
    report_bytes(text.as_bytes(), err);
}

/// Reports a text if the condition is true.
pub(crate) fn report_where<E: Reporter>(is_so: bool, text: &str, err: &mut E)
    ensures { ReportsIf is_so text.now (E.reports err.old) (E.reports err.new) }
{
    if is_so {
        report(text, err);
    }
}

/// Reports bytes.
pub(crate) fn report_bytes<E: Reporter>(text: &[u8], err: &mut E)
    ensures { AppendsReport (E.reports err.old) (E.reports err.new) text.now }
{
    err.report(text);
}

/// Reports that memory ran out, and returns the exit status.
pub(crate) fn report_memory<E: Reporter>(err: &mut E) -> u8
    ensures status { result ≡ DEVICE_FAULT }
    ensures reported { AppendsReport (E.reports err.old) (E.reports err.new) NO_MEMORY.now }
{
    report(NO_MEMORY, err);
    DEVICE_FAULT
}

/// Reports that no child can be waited for, and returns the exit status.
pub(crate) fn report_unwaited<E: Reporter>(err: &mut E) -> u8
    ensures status { result ≡ DEVICE_FAULT }
    ensures reported { AppendsReport (E.reports err.old) (E.reports err.new) UNWAITED.now }
{
    report(UNWAITED, err);
    DEVICE_FAULT
}

/// Reports that the inittab has too many files, and returns the exit status.
pub(crate) fn report_too_many<E: Reporter>(err: &mut E) -> u8
    ensures status { result ≡ REFUSED }
    ensures reported { AppendsReport (E.reports err.old) (E.reports err.new) TOO_MANY.now }
{
    report(TOO_MANY, err);
    REFUSED
}

/// Reports these lines, the faults of an inittab that must have none, and returns the exit status.
pub(crate) fn report_flawed<E: Reporter>(faults: &[u8], err: &mut E) -> u8
    ensures status { result ≡ REFUSED }
    ensures reported { ReportsFlawed faults.now (E.reports err.old) (E.reports err.new) }
{
    report_bytes(faults, err);
    report(FLAWED, err);
    REFUSED
}

/// Reports that an inittab has no entry with this id, and returns the exit status.
pub(crate) fn report_unlisted<E: Reporter>(alloc: Global, id: &Id, err: &mut E) -> u8
    ensures status { result ≡ REFUSED }
    ensures reported { ReportsText (unlisted_message id.now) (E.reports err.old)
        (E.reports err.new) }
{
    report_made(unlisted_message(alloc, id.as_str()), err);
    REFUSED
}

fn unlisted_message(alloc: Global, id: &str) -> Result<String, AllocError>
    ensures { IfOk result (λ text. string_bytes text ≡ unlisted_message id.now) }
{
    format!(in alloc; "initd: no entry has the id {id}; use --result with an id in the inittab\n")
}

/// Writes a text and flushes the writer, and returns whether that worked.
pub(crate) fn tell<W: Write>(text: &[u8], out: &mut W) -> bool
    ensures whole { result ≡ true → Appends (W.contents out.old) (W.contents out.new) text.now }
    ensures part { AppendsPrefix (W.contents out.old) (W.contents out.new) text.now }
{
    write_text(out, text).is_ok() && out.flush().is_ok()
}
