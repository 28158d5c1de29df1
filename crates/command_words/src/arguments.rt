//! The description of a command line, a table of its options and arguments, and the clap command that it defines.

ghost use Rattle.std.specs.Prelude.{◌≡◌, ◌∷◌, [], false, map, option_map, string_bytes, true, IfErr, IfOk, IsSome, None, Some};
ghost use Rattle.clap.specs.Words.{FailsBy, fault_of, found_of, is_simple_and_free, matches_of, rows_of, rule_of};
ghost use Rattle.command_words.specs.Arguments.{argument_of, argument_rule, arguments_of, described, with_form, with_name};
ghost use Rattle.command_words.specs.CommandLines.{AddsAll, IsLine, bare_line, given_by, letter_of, long_of};
ghost use Rattle.command_words.specs.Faults.{reason_of};

use crate::faults::WordFault;
use crate::rejections::rejection;
use clap::{Arg, ArgAction, ArgMatches, Command, Error};
use std::alloc::{AllocError, Global};

/// How an option or argument is given.
#[derive(Clone, Copy)]
pub enum Form {
    /// An option without a value.
    Flag,
    /// An option with a value.
    Valued,
    /// A positional argument that may be omitted.
    Optional,
    /// A positional argument.
    Required,
    /// One or more positional arguments.
    Repeated,
}

/// An option or argument of a command line: its name, its form, the name of its value, its default and its help.
///
/// An option is named `--NAME` or `-C`, a positional argument otherwise. Only an option with a value has the name of a
/// value, and a default, which is empty if there is none. Lines of the help end with a newline, except the last one.
pub type Argument = (&'static str, Form, &'static str, &'static str, &'static str);

/// Returns the `NAME` of `--NAME`.
pub(crate) fn long_of(name: &'static str) -> Option<&'static str>
    ensures { option_map (λ long. long.now) result ≡ long_of name.now }
{
    name.strip_prefix("--")
}

/// Returns the character `C` of `-C`.
pub(crate) fn letter_of(name: &str) -> Option<char>
    ensures { result ≡ letter_of name.now }
{
    match name.as_bytes() {
        [b'-', letter] => Some(*letter as char),
        _ => None,
    }
}

/// Builds the clap argument of a name: an option for `--NAME` and `-C`, otherwise a positional argument.
fn named<'a>(alloc: Global, name: &'static str) -> Arg<'a>
    ensures rule { rule_of result ≡ with_name name.now }
    ensures local { result.global ≡ false }
{
    let arg = Arg::new(alloc, name);
    match (long_of(name), letter_of(name)) {
        (Some(long), _) => arg.long(long),
        (None, Some(letter)) => arg.short(letter),
        (None, None) => arg,
    }
}

/// Gives an argument its form. The name of the value and the default are those of an option with a value.
fn formed<'a>(arg: Arg<'a>, form: Form, value: &'static str, default: &'static str) -> Arg<'a>
    ensures rule { rule_of result ≡ with_form form value.now default.now (rule_of arg.entry) }
    ensures local { result.global ≡ arg.entry.global }
{
    match form {
        Form::Flag => arg.action(ArgAction::SetTrue),
        Form::Valued if default.is_empty() => arg.value_name(value),
        Form::Valued => arg.value_name(value).default_value(default),
        Form::Optional => arg,
        Form::Required => arg.required(true),
        Form::Repeated => arg.required(true).action(ArgAction::Append),
    }
}

/// Builds the clap argument of a row.
fn argument<'a>(alloc: Global, row: Argument) -> Arg<'a>
    ensures rule { rule_of result ≡ argument_rule (argument_of row.entry) }
    ensures local { result.global ≡ false }
{
    let (name, form, value, default, help) = row;
    formed(named(alloc, name), form, value, default).help(help)
}

/// Adds the argument of a row to a command, after its other arguments.
fn with_argument<'a>(
    alloc: Global,
    line: Command<'a>,
    row: Argument,
) -> Result<Command<'a>, AllocError>
    ensures { IfOk result (AddsAll line.entry (argument_rule (argument_of row.entry) ∷ [])) }
{
    line.arg(argument(alloc, row))
}

/// Builds a command without arguments. It expects no program name before the arguments, and the last one wins if an
/// option is repeated.
fn without_arguments<'a>(alloc: Global, name: &'static str, usage: &'static str) -> Command<'a>
    ensures { IsLine (bare_line name.now) result }
{
    Command::new(alloc, name)
        .no_binary_name(true)
        .args_override_self(true)
        .override_usage(usage)
}

/// Adds the arguments of these rows to a command, after its other arguments.
fn with_arguments<'a>(
    alloc: Global,
    line: Command<'a>,
    table: &[Argument],
) -> Result<Command<'a>, AllocError>
    ensures { IfOk result (AddsAll line.entry (map argument_rule (arguments_of table.now))) }
{
    let mut line = line;
    for row in table {
        line = with_argument(alloc, line, *row)?;
    }
    Ok(line)
}

/// Builds the command of a table. Fails only if memory allocation fails.
fn described<'a>(
    alloc: Global,
    name: &'static str,
    usage: &'static str,
    table: &[Argument],
) -> Result<Command<'a>, AllocError>
    ensures { IfOk result (IsLine (described name.now (arguments_of table.now))) }
{
    with_arguments(alloc, without_arguments(alloc, name, usage), table)
}

fn matched<'a>(
    alloc: Global,
    name: &'static str,
    usage: &'static str,
    table: &[Argument],
    words: &'a [String],
) -> Result<ArgMatches<'a>, Error>
    ensures rows { is_simple_and_free (described name.now (arguments_of table.now)) ≡ true
        → IfOk result (λ found. rows_of (found_of found)
        ≡ matches_of (described name.now (arguments_of table.now))
        (map string_bytes words.entry.now)) }
    ensures faults { is_simple_and_free (described name.now (arguments_of table.now)) ≡ true
        → FailsBy (fault_of (described name.now (arguments_of table.now))
        (map string_bytes words.entry.now)) result }
{
    described(alloc, name, usage, table)?.try_get_matches_from(words)
}

/// Parses the arguments of a program by its description. A `Usage` fault has clap's message, or the help if that was
/// requested. Both show the usage, which is the arguments as in the manual page.
pub fn read_arguments<'a>(
    alloc: Global,
    name: &'static str,
    usage: &'static str,
    table: &[Argument],
    words: &'a [String],
) -> Result<ArgMatches<'a>, WordFault>
    ensures ok { is_simple_and_free (described name.now (arguments_of table.now)) ≡ true
        → IfOk result (λ found. given_by (described name.now (arguments_of table.now))
        (map string_bytes words.entry.now) ≡ Some (rows_of (found_of found))) }
    ensures usage { is_simple_and_free (described name.now (arguments_of table.now)) ≡ true
        → IfErr result (λ fault. IsSome (reason_of fault)
        → given_by (described name.now (arguments_of table.now)) (map string_bytes words.entry.now)
        ≡ None) }
{
    match matched(alloc, name, usage, table, words) {
        Ok(matches) => Ok(matches),
        Err(error) => Err(rejection(alloc, &error)),
    }
}
