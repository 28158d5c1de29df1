//! The faults for which a command line is rejected, and the messages that report them.

ghost use Rattle.std.specs.Prelude.{◌≡◌, ◌≢◌, ◌↔◌, IfSome, IsSome, IsTrue};
ghost use Rattle.clap.specs.Words.{kind_of};
ghost use Rattle.program_io.specs.Arguments.{no_memory_text};
ghost use Rattle.program_io.specs.Reports.{AppendsReport, LastReportNonempty};
ghost use Rattle.command_words.specs.Faults.{reason_of, usage_report};
ghost use Rattle.command_words.specs.declared.faults.WordFault.TheVariants.{Memory};

use clap::Error;
use clap::error::ErrorKind;
use program_io::{DEVICE_FAULT, REFUSED, Reporter, report_no_memory, report_usage};
use std::alloc::{AllocError, Global};

/// The reason why a command line was not accepted.
#[derive(Debug, Drop, PartialEq, Eq, thiserror::Error)]
pub enum WordFault {
    /// The arguments are not a command line of the program. The text is the reason, in one line without its newline; it
    /// is empty if help was requested.
    #[error("{0}")]
    Usage(String),
    /// Memory allocation failed.
    #[error("out of memory")]
    Memory,
}

impl From<AllocError> for WordFault {
    ghost use Rattle.std.specs.Prelude.{◌≡◌};
    ghost use Rattle.command_words.specs.declared.faults.WordFault.TheVariants.{Memory};

    ghost from_gives = { λ _ fault. fault ≡ Memory };

    fn from(_error: AllocError) -> WordFault {
        WordFault::Memory
    }
}

/// Converts an error of clap into a fault: `Memory` if clap or this function could not allocate memory, otherwise
/// `Usage` with the reason.
pub(crate) fn word_fault(alloc: Global, error: &Error) -> WordFault
    ensures usage { IsSome (reason_of result) → kind_of error.now ≢ ErrorKind.OutOfMemory }
{
    if is_no_memory(error) {
        return WordFault::Memory;
    }
    match refusal(alloc, error) {
        Ok(reason) => WordFault::Usage(reason),
        Err(AllocError) => WordFault::Memory,
    }
}

/// Returns whether clap failed because memory allocation failed.
pub(crate) fn is_no_memory(error: &Error) -> bool
    ensures { IsTrue result ↔ (kind_of error.now ≡ ErrorKind.OutOfMemory) }
{
    error.kind() == ErrorKind::OutOfMemory
}

/// Returns clap's reason for rejecting the arguments, in one line. It is empty if help was requested.
fn refusal(alloc: Global, error: &Error) -> Result<String, AllocError> {
    match error.kind() {
        ErrorKind::DisplayHelp => Ok(String::new(alloc)),
        ErrorKind::MissingRequiredArgument => String::from_str(alloc, "missing argument"),
        _ => {
            let text = format!(in alloc; "{error}")?;
            reason_in(alloc, text.as_str())
        }
    }
}

/// Extracts the reason from a message of clap. It recognizes only the kinds of errors that a table of rows can cause.
fn reason_in(alloc: Global, text: &str) -> Result<String, AllocError> {
    let (head, tip) = text.split_once("\n\n").unwrap_or((text, ""));
    if let Some(word) = within("error: unexpected argument '", head, "' found") {
        let word = first_line(word);
        return match guess_in(tip) {
            Some(guess) => format!(in alloc; "unknown option: {word}; did you mean {guess}?"),
            None if word.starts_with('-') => format!(in alloc; "unknown option: {word}"),
            None => format!(in alloc; "unexpected argument: {word}"),
        };
    }
    if let Some(option) = within(
        "error: a value is required for '",
        head,
        "' but none was supplied",
    ) {
        let (name, _) = option.split_once(' ').unwrap_or((option, ""));
        return format!(in alloc; "{name} requires a value");
    }
    if let Some(option) = within(
        "error: unexpected value '",
        head,
        "' found; no more were expected",
    ) {
        let (value, name) = option.rsplit_once("' for '").unwrap_or(("", option));
        let value = first_line(value);
        return format!(in alloc; "{name} {value}: the option takes no value");
    }
    let line = first_line(head);
    String::from_str(alloc, line.strip_prefix("error: ").unwrap_or(line))
}

/// Returns the text between a prefix and a suffix.
fn within<'a>(front: &str, text: &'a str, behind: &str) -> Option<&'a str> {
    text.strip_prefix(front)?.strip_suffix(behind)
}

fn first_line(text: &str) -> &str {
    match text.split_once('\n') {
        Some((line, _)) => line,
        None => text,
    }
}

/// Returns the option that clap suggests in its tip, if any.
fn guess_in(text: &str) -> Option<&str> {
    let (_, tip) = text.split_once("  tip: a similar argument exists: '")?;
    let (guess, _) = tip.split_once('\'')?;
    Some(guess)
}

/// Reports a fault and returns the exit status: as `report_refused_words` does for `Usage`, as `report_no_memory` does
/// for `Memory`.
pub fn report_word_fault<E: Reporter>(
    name: &str,
    fault: &WordFault,
    whole: &str,
    short: &str,
    err: &mut E,
) -> u8
    ensures usage { IfSome (reason_of fault.now) (λ reason. (result ≡ REFUSED)
        × AppendsReport (E.reports err.old) (E.reports err.new)
        (usage_report name.now reason whole.now short.now)) }
    ensures memory { fault.now ≡ Memory → (result ≡ DEVICE_FAULT)
        × AppendsReport (E.reports err.old) (E.reports err.new) (no_memory_text name.now) }
    ensures spoken { result ≡ DEVICE_FAULT → LastReportNonempty (E.reports err.new) }
{
    match fault {
        WordFault::Usage(reason) => report_refused_words(name, reason.as_str(), whole, short, err),
        WordFault::Memory => report_no_memory(name, err),
    }
}

/// Reports that the arguments are not a command line of the program, and returns the exit status. The report is a line
/// with the program's name and the reason, followed by the short usage; if the reason is empty, because help was
/// requested, it is the whole usage.
pub fn report_refused_words<E: Reporter>(
    name: &str,
    reason: &str,
    whole: &str,
    short: &str,
    err: &mut E,
) -> u8
    ensures status { result ≡ REFUSED }
    ensures report { AppendsReport (E.reports err.old) (E.reports err.new)
        (usage_report name.now reason.now whole.now short.now) }
{
    if reason.is_empty() {
        return report_usage(whole, err);
    }
    err.report_texts(&[name, ": ", reason, "\n", short]);
    REFUSED
}
