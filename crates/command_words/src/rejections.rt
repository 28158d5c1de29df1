//! The messages for a rejected command line: those of clap, and those for a value that clap accepts.

ghost use Rattle.std.specs.Prelude.{◌≡◌, ◌≢◌, ◌++◌, string_bytes, IfErr, IfOk, IfSome, IsSome, None, OnErr, Some};
ghost use Rattle.clap.specs.Words.{kind_of};
ghost use Rattle.program_io.specs.Arguments.{no_memory_text};
ghost use Rattle.program_io.specs.Reports.{AppendsReport, LastReportNonempty};
ghost use Rattle.command_words.specs.Faults.{reason_of};
ghost use Rattle.command_words.specs.Rejections.{invalid_value_text, rejection_text};
ghost use Rattle.command_words.specs.declared.faults.WordFault.TheVariants.{Memory};

use crate::faults::{WordFault, is_no_memory};
use clap::Error;
use clap::error::ErrorKind;
use program_io::{DEVICE_FAULT, REFUSED, Reporter, report_no_memory};
use std::alloc::{AllocError, Global};

/// Converts an error of clap into a fault: `Memory` if clap or this function could not allocate memory, otherwise
/// `Usage` with clap's message, or with the help if that was requested.
pub(crate) fn rejection(alloc: Global, error: &Error) -> WordFault
    ensures usage { IsSome (reason_of result) → kind_of error.now ≢ ErrorKind.OutOfMemory }
{
    if is_no_memory(error) {
        return WordFault::Memory;
    }
    match message(alloc, error) {
        Ok(text) => WordFault::Usage(text),
        Err(AllocError) => WordFault::Memory,
    }
}

/// Returns the text of an error of clap. The help is followed by an empty line.
fn message(alloc: Global, error: &Error) -> Result<String, AllocError> {
    match error.kind() {
        ErrorKind::DisplayHelp => format!(in alloc; "{error}\n"),
        _ => format!(in alloc; "{error}"),
    }
}

/// Builds the fault that rejects the arguments for a reason that clap does not know, in the form of clap's messages.
pub fn rejected(alloc: Global, reason: &str) -> WordFault
    ensures { IfSome (reason_of result) (λ text. text ≡ rejection_text reason.now) }
{
    match rejection_text(alloc, reason) {
        Ok(text) => WordFault::Usage(text),
        Err(AllocError) => WordFault::Memory,
    }
}

fn rejection_text(alloc: Global, reason: &str) -> Result<String, AllocError>
    ensures { IfOk result (λ text. string_bytes text ≡ rejection_text reason.now) }
{
    format!(in alloc; "error: {reason}\n\nFor more information, try '--help'.\n")
}

/// Builds the fault that rejects the value of an option or argument, in the form of clap's messages.
pub fn invalid_value(alloc: Global, name: &str, value: &str, why: &str) -> WordFault
    ensures { IfSome (reason_of result) (λ text.
        text ≡ rejection_text (invalid_value_text name.now value.now why.now)) }
{
    match invalid_value_text(alloc, name, value, why) {
        Ok(reason) => rejected(alloc, reason.as_str()),
        Err(AllocError) => WordFault::Memory,
    }
}

fn invalid_value_text(
    alloc: Global,
    name: &str,
    value: &str,
    why: &str,
) -> Result<String, AllocError>
    ensures { IfOk result (λ text.
        string_bytes text ≡ invalid_value_text name.now value.now why.now) }
{
    format!(in alloc; "invalid value '{value}' for '{name}': {why}")
}

/// Returns the value that was read from the text of an option or argument, or the fault that rejects it if none was
/// read.
pub fn valid<T>(
    alloc: Global,
    name: &str,
    value: &str,
    read: Option<T>,
    why: &str,
) -> Result<T, WordFault>
    ensures ok { IfOk result (λ value. read ≡ Some value) }
    ensures err { OnErr result (read ≡ None) }
    ensures rejected { IfErr result (λ fault. IfSome (reason_of fault) (λ text.
        text ≡ rejection_text (invalid_value_text name.now value.now why.now))) }
{
    match read {
        Some(value) => Ok(value),
        None => Err(invalid_value(alloc, name, value, why)),
    }
}

/// Reports a fault and returns the exit status. The message of a `Usage` fault is followed by the line that names the
/// manual page.
pub fn report_rejected<E: Reporter>(name: &str, fault: &WordFault, manual: &str, err: &mut E) -> u8
    ensures usage { IfSome (reason_of fault.now) (λ text. (result ≡ REFUSED)
        × AppendsReport (E.reports err.old) (E.reports err.new) (text ++ manual.now)) }
    ensures memory { fault.now ≡ Memory → (result ≡ DEVICE_FAULT)
        × AppendsReport (E.reports err.old) (E.reports err.new) (no_memory_text name.now) }
    ensures spoken { result ≡ DEVICE_FAULT → LastReportNonempty (E.reports err.new) }
{
    match fault {
        WordFault::Usage(text) => report_message(text.as_str(), manual, err),
        WordFault::Memory => report_no_memory(name, err),
    }
}

fn report_message<E: Reporter>(text: &str, manual: &str, err: &mut E) -> u8
    ensures status { result ≡ REFUSED }
    ensures report { AppendsReport (E.reports err.old) (E.reports err.new)
        (text.now ++ manual.now) }
{
    err.report_texts(&[text, manual]);
    REFUSED
}
