//! Reports about a rejected command line: the reason, a suggestion, and the usage of the command.

ghost use Rattle.std.specs.Prelude.{◌≡◌, string_bytes, IfOk};
ghost use Rattle.command_words.specs.declared.faults.WordFault.TheVariants.{Memory};
ghost use Rattle.initview_command.specs.Words.{DEVICE_FAULT};
ghost use Rattle.initview_command.specs.Refusals.{ReportsRefusal, usage_line};

use crate::asking::{Command, OPTIONS, asked, belongs, last_of, level_in};
use crate::charting::width_of;
use crate::command::USAGE;
use crate::telling::report_memory;
use clap::ArgMatches;
use command_words::{WordFault, is_slip, report_refused_words, word_of};
use init_words::Id;
use program_io::Reporter;
use std::alloc::{AllocError, Global};

/// A command, with the minimum and maximum number of arguments after it.
type CommandRow = (&'static str, usize, usize);

const COMMANDS: &[CommandRow] = &[
    ("why", 2, usize::MAX),
    ("status", 1, 2),
    ("left", 1, 1),
    ("timeline", 1, 1),
    ("follow", 1, 1),
    ("lint", 1, usize::MAX),
    ("diff", 2, 2),
    ("plan", 1, usize::MAX),
];

fn command_of(name: &str) -> Option<CommandRow> {
    for command in COMMANDS {
        if name == command.0 {
            return Some(*command);
        }
    }
    None
}

fn command_meant(name: &str) -> Option<&'static str> {
    for (known, _, _) in COMMANDS {
        if is_slip(name.as_bytes(), known.as_bytes()) {
            return Some(*known);
        }
    }
    None
}

/// Returns the usage line of a command.
fn usage_of(name: &str) -> &'static str {
    for line in USAGE.lines() {
        let line = line.trim_start();
        let line = line.strip_prefix("usage: ").unwrap_or(line);
        if let Some(rest) = line.strip_prefix("initview ") {
            if rest.split(' ').next() == Some(name) {
                return line;
            }
        }
    }
    "initview why|status|left|timeline|follow|lint|diff|plan ..; see initview --help"
}

fn usage_line(alloc: Global, usage: &str) -> Result<String, AllocError>
    ensures { IfOk result (λ line. string_bytes line ≡ usage_line usage.now) }
{
    let mut line = String::from_str(alloc, "usage: ")?;
    line.push_str(usage)?;
    line.push_str("\n")?;
    Ok(line)
}

/// Returns the reason for rejecting the value of an option, together with the option and the value.
fn value_reason<'a>(matches: &ArgMatches<'a>) -> Option<(&'static str, &'a str, &'static str)> {
    let level = word_of(matches, "--level");
    match (level, word_of(matches, "--width"), word_of(matches, "-n")) {
        (Some(level), _, _) if level_in(level).is_none() => {
            Some(("--level", level, "not a runlevel (0 to 9, S)"))
        }
        (_, Some(width), _) if width_of(width).is_none() => {
            Some(("--width", width, "not between 40 and 1000 columns"))
        }
        (_, _, Some(count)) if last_of(count).is_none() => {
            Some(("-n", count, "not between 1 and 10000 lines"))
        }
        _ => None,
    }
}

/// Returns the argument that must be an id, if the command has one.
fn id_in<'a>(name: &str, words: &[&'a str]) -> Option<&'a str> {
    match (name, words) {
        ("why", [id, ..]) => Some(*id),
        ("status", [_, id, ..]) => Some(*id),
        _ => None,
    }
}

/// Returns the faults in the arguments of a command and in the values of its options.
fn words_reason(
    alloc: Global,
    matches: &ArgMatches,
    command: CommandRow,
    words: &[&str],
) -> Result<String, AllocError> {
    let (name, least, most) = command;
    match (value_reason(matches), words.get(most), id_in(name, words)) {
        (Some((option, value, reason)), _, _) => format!(in alloc; "{option} {value}: {reason}"),
        _ if words.len() < least => format!(in alloc; "{name}: missing argument"),
        (None, Some(word), _) => format!(in alloc; "{name}: unexpected argument: {word}"),
        (None, None, Some(word)) if Id::read(word.as_bytes()).is_none() => {
            format!(in alloc; "{word}: not an id: it has 1 to 8 characters that inittab(5) allows")
        }
        _ => format!(in alloc; "{name}: these options cannot be combined"),
    }
}

/// Returns the options that the command does not accept, one per line.
fn options_reason(
    alloc: Global,
    matches: &ArgMatches,
    name: &str,
    what: &Command,
) -> Result<String, AllocError> {
    let mut reason = String::new(alloc);
    for row in OPTIONS {
        if !belongs(matches, what, *row) {
            let option = row.0;
            let before = if reason.is_empty() {
                ""
            } else {
                "\ninitview: "
            };
            write!(reason, "{before}{name}: unknown option: {option}")?;
        }
    }
    Ok(reason)
}

/// Returns the reason that there is no such command, and the command that was probably meant.
fn command_reason(alloc: Global, name: &str) -> Result<String, AllocError> {
    match command_meant(name) {
        Some(meant) => format!(in alloc; "unknown command: {name}; did you mean {meant}?"),
        None => format!(in alloc; "unknown command: {name}"),
    }
}

/// Returns the reason for rejecting the options and arguments. The first argument is the command.
fn refusal_of(alloc: Global, matches: &ArgMatches, words: &[&str]) -> Result<String, AllocError> {
    let [name, rest @ ..] = words else {
        return String::from_str(alloc, "missing argument");
    };
    match (command_of(*name), asked(matches, words)) {
        (Some(_), Some(what)) => options_reason(alloc, matches, *name, &what),
        (Some(command), None) => words_reason(alloc, matches, command, rest),
        (None, _) => command_reason(alloc, *name),
    }
}

/// Reports why the options and arguments are rejected, and returns the exit status.
pub(crate) fn report_refusal<E: Reporter>(
    alloc: Global,
    matches: &ArgMatches,
    words: &[&str],
    err: &mut E,
) -> u8
    ensures { ReportsRefusal result (E.reports err.old) (E.reports err.new) }
{
    let name = match words {
        [name, ..] => *name,
        [] => "",
    };
    match refusal_of(alloc, matches, words) {
        Ok(reason) => report_reason(alloc, reason.as_str(), name, err),
        Err(AllocError) => report_memory(err),
    }
}

/// Reports why the arguments could not be parsed, and returns the exit status.
pub(crate) fn report_fault<E: Reporter>(
    alloc: Global,
    fault: &WordFault,
    words: &[String],
    err: &mut E,
) -> u8
    ensures report { ReportsRefusal result (E.reports err.old) (E.reports err.new) }
    ensures memory { fault.now ≡ Memory → result ≡ DEVICE_FAULT }
{
    match fault {
        WordFault::Usage(reason) => report_reason(
            alloc,
            reason.as_str(),
            command_among(words),
            err,
        ),
        WordFault::Memory => report_memory(err),
    }
}

/// Reports a reason and the usage of the command with this name, or the whole usage if help is requested.
fn report_reason<E: Reporter>(alloc: Global, reason: &str, name: &str, err: &mut E) -> u8
    ensures { ReportsRefusal result (E.reports err.old) (E.reports err.new) }
{
    match usage_line(alloc, usage_of(name)) {
        Ok(usage) => report_refused_words("initview", reason, USAGE, usage.as_str(), err),
        Err(AllocError) => report_memory(err),
    }
}

fn command_among(words: &[String]) -> &str {
    for word in words {
        if command_of(word.as_str()).is_some() {
            return word.as_str();
        }
    }
    ""
}
