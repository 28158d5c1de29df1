//! Parses a command line by a table of its options and arguments, and reads the values found.

ghost use Rattle.std.specs.Prelude.{◌≡◌, ◌∷◌, [], false, map, option_map, string_bytes, true, unwrap_or, IfErr, IfOk, IfSome, IsSome, None, OnErr, Some};
ghost use Rattle.clap.specs.Words.{FailsBy, all_of, fault_of, first_of, found_of, is_simple_and_free, matches_of, rows_of, rule_of};
ghost use Rattle.command_words.specs.CommandLines.{AddsAll, IsLine, bare_line, given_by, is_set, line_of, refusal_text, row_rule, standing, taking, text_of, texts_of, value_said};
ghost use Rattle.command_words.specs.Faults.{reason_of};

use crate::arguments::{letter_of, long_of};
use crate::faults::{WordFault, word_fault};
use clap::{Arg, ArgAction, ArgMatches, Command, Error};
use std::alloc::{AllocError, Global};

/// A row of a command-line table: name, value and default.
///
/// An option is named `--NAME` or `-C`; its second field is the placeholder for its value in the usage, empty for a
/// flag, and its third is the default value, empty if there is none. A positional argument has any other name; its
/// second field is empty if it is required, `?` if it is optional, and `..` if there may be one or more.
pub type Row = (&'static str, &'static str, &'static str);

/// Makes an argument an option: a flag if `value` is empty, otherwise one with a value and, unless `default` is empty,
/// a default.
fn taking<'a>(arg: Arg<'a>, value: &'static str, default: &'static str) -> Arg<'a>
    ensures rule { rule_of result ≡ taking value.now default.now (rule_of arg.entry) }
    ensures local { result.global ≡ arg.entry.global }
{
    if value.is_empty() {
        return arg.action(ArgAction::SetTrue);
    }
    let arg = arg.value_name(value);
    if default.is_empty() {
        return arg;
    }
    arg.default_value(default)
}

/// Makes an argument positional: optional if `count` is `?`, repeated if it is `..`, otherwise required.
fn standing<'a>(arg: Arg<'a>, count: &str) -> Arg<'a>
    ensures rule { rule_of result ≡ standing count.now (rule_of arg.entry) }
    ensures local { result.global ≡ arg.entry.global }
{
    match count {
        "?" => arg,
        ".." => arg.required(true).action(ArgAction::Append),
        _ => arg.required(true),
    }
}

/// Builds the clap argument of a row.
fn argument<'a>(alloc: Global, row: Row) -> Arg<'a>
    ensures rule { rule_of result ≡ row_rule (text_of row.entry) }
    ensures local { result.global ≡ false }
{
    let (name, value, default) = row;
    let arg = Arg::new(alloc, name);
    match (long_of(name), letter_of(name)) {
        (Some(long), _) => taking(arg.long(long), value, default),
        (None, Some(letter)) => taking(arg.short(letter), value, default),
        (None, None) => standing(arg, value),
    }
}

/// Adds the argument of a row to a command, after its other arguments.
fn with_row<'a>(alloc: Global, line: Command<'a>, row: Row) -> Result<Command<'a>, AllocError>
    ensures { IfOk result (AddsAll line.entry (row_rule (text_of row.entry) ∷ [])) }
{
    line.arg(argument(alloc, row))
}

/// Builds a command without arguments. It expects no program name before the arguments, and the last one wins if an
/// option is repeated.
fn bare_line<'a>(alloc: Global, name: &'static str) -> Command<'a>
    ensures { IsLine (bare_line name.now) result }
{
    Command::new(alloc, name)
        .no_binary_name(true)
        .args_override_self(true)
}

/// Adds the arguments of these rows to a command, after its other arguments. Fails only if memory allocation fails.
fn with_rows<'a>(alloc: Global, line: Command<'a>, table: &[Row]) -> Result<Command<'a>, AllocError>
    ensures { IfOk result (AddsAll line.entry (map row_rule (texts_of table.now))) }
{
    let mut line = line;
    for row in table {
        line = with_row(alloc, line, *row)?;
    }
    Ok(line)
}

/// Builds the command of a table, for a program or one of its subcommands. Fails only if memory allocation fails.
fn table_line<'a>(
    alloc: Global,
    name: &'static str,
    table: &[Row],
) -> Result<Command<'a>, AllocError>
    ensures { IfOk result (IsLine (line_of name.now (texts_of table.now))) }
{
    with_rows(alloc, bare_line(alloc, name), table)
}

fn parsed<'a>(
    alloc: Global,
    name: &'static str,
    table: &[Row],
    words: &'a [String],
) -> Result<ArgMatches<'a>, Error>
    ensures rows { is_simple_and_free (line_of name.now (texts_of table.now)) ≡ true
        → IfOk result (λ found. rows_of (found_of found)
        ≡ matches_of (line_of name.now (texts_of table.now)) (map string_bytes words.entry.now)) }
    ensures faults { is_simple_and_free (line_of name.now (texts_of table.now)) ≡ true
        → FailsBy (fault_of (line_of name.now (texts_of table.now))
        (map string_bytes words.entry.now)) result }
{
    table_line(alloc, name, table)?.try_get_matches_from(words)
}

/// Parses the arguments of a program by its table. A `Usage` fault gives the reason why they were rejected.
pub fn read_line<'a>(
    alloc: Global,
    name: &'static str,
    table: &[Row],
    words: &'a [String],
) -> Result<ArgMatches<'a>, WordFault>
    ensures ok { is_simple_and_free (line_of name.now (texts_of table.now)) ≡ true
        → IfOk result (λ found. given_by (line_of name.now (texts_of table.now))
        (map string_bytes words.entry.now) ≡ Some (rows_of (found_of found))) }
    ensures usage { is_simple_and_free (line_of name.now (texts_of table.now)) ≡ true
        → IfErr result (λ fault. IsSome (reason_of fault)
        → given_by (line_of name.now (texts_of table.now)) (map string_bytes words.entry.now)
        ≡ None) }
{
    match parsed(alloc, name, table, words) {
        Ok(matches) => Ok(matches),
        Err(error) => Err(word_fault(alloc, &error)),
    }
}

/// Returns the value given for a row, or its default.
pub fn word_of<'a>(matches: &ArgMatches<'a>, id: &str) -> Option<&'a str>
    ensures { option_map (λ word. word.now) result
        ≡ first_of id.now (rows_of (found_of matches.now)) }
{
    matches.get_str(id)
}

/// Returns the value given for a row, or its default, or the empty text if it has neither.
pub fn value_of<'a>(matches: &ArgMatches<'a>, id: &str) -> &'a str
    ensures { result.now ≡ value_said id.now (rows_of (found_of matches.now)) }
{
    match word_of(matches, id) {
        Some(value) => value,
        None => "",
    }
}

/// Returns all values given for a row.
pub fn words_of<'m, 'a>(matches: &'m ArgMatches<'a>, id: &str) -> Option<&'m [&'a str]>
    ensures { option_map (λ words. map (λ word. word.now) words.now) result
        ≡ all_of id.now (rows_of (found_of matches.now)) }
{
    matches.get_strs(id)
}

/// Returns whether a flag is set.
pub fn is_set(matches: &ArgMatches, id: &str) -> bool
    ensures { result ≡ is_set id.now (rows_of (found_of matches.now)) }
{
    value_of(matches, id) == "true"
}

/// Returns a copy of the path given for a row, if any.
pub fn read_path(
    alloc: Global,
    matches: &ArgMatches,
    id: &str,
) -> Result<Option<String>, AllocError>
    ensures { IfOk result (λ path. option_map (λ (text : _). string_bytes text) path
        ≡ first_of id.now (rows_of (found_of matches.now))) }
{
    match word_of(matches, id) {
        Some(path) => Ok(Some(String::from_str(alloc, path)?)),
        None => Ok(None),
    }
}

/// Returns the value that was read from an option's text, or the fault that rejects the option if none was read.
pub fn checked<T>(
    alloc: Global,
    id: &str,
    word: &str,
    read: Option<T>,
    why: &str,
) -> Result<T, WordFault>
    ensures ok { IfOk result (λ value. read ≡ Some value) }
    ensures err { OnErr result (read ≡ None) }
    ensures refused { IfErr result (λ fault. IfSome (reason_of fault) (λ reason.
        reason ≡ refusal_text id.now word.now why.now)) }
{
    match read {
        Some(value) => Ok(value),
        None => Err(refused(alloc, id, word, why)),
    }
}

/// Builds the fault that rejects an option because its value is not valid.
pub fn refused(alloc: Global, id: &str, value: &str, why: &str) -> WordFault
    ensures { IfSome (reason_of result) (λ reason.
        reason ≡ refusal_text id.now value.now why.now) }
{
    match refusal_text(alloc, id, value, why) {
        Ok(text) => WordFault::Usage(text),
        Err(AllocError) => WordFault::Memory,
    }
}

fn refusal_text(alloc: Global, id: &str, value: &str, why: &str) -> Result<String, AllocError>
    ensures { IfOk result (λ text.
        string_bytes text ≡ refusal_text id.now value.now why.now) }
{
    format!(in alloc; "{id} {value}: {why}")
}
