//! The command line of `initview`. Options can be anywhere; the first other argument is the command.

ghost use Rattle.std.specs.Prelude.{◌≡◌, map, string_bytes, IfErr, IfOk, IsSome, None, Some};
ghost use Rattle.std.specs.List.{list_all};
ghost use Rattle.initview_command.specs.Words.{found_of, rows_of, given_by, text_of, reason_of};
ghost use Rattle.initview_command.specs.Asking.{asked, asked_by, belongs, command_line, diff_of, draw_of, draw_takes, explain_of, explained, files_of, form_said, is_given, last_of, last_said, level_in, level_said, lint_of, path_of, path_texts, paths_of, plain_of, plan_of, shape_said, show_of, table_takes, tables_of, takes, trace_takes, what_of, which_said};

use crate::charting::{Form, WIDTH, width_of};
use clap::ArgMatches;
use command_words::{Row, WordFault, is_set, read_line, value_of, word_of};
use init_words::{Id, Level};
use initview_lines::{RowFormat, WhichRows};
use std::alloc::Global;
use text_lines::read_below;

/// The maximum number of lines that `-n` accepts.
pub const LAST_LIMIT: u64 = 10_000;

/// A question about a trace.
#[derive(Clone, Copy)]
pub enum TraceQuery {
    /// The state of init and of all entries.
    Status(RowFormat),
    /// The state of this id.
    Row(Id, RowFormat),
    /// The children that were not reaped, and the open starts.
    Left(RowFormat),
}

/// A question about inittabs.
#[derive(Clone, Copy)]
pub enum TableQuestion {
    /// The faults and warnings of an inittab.
    Lint,
    /// The faults and warnings of an inittab, and its programs that are in none of the given folders.
    Programs,
    /// The changes to the entries in a level when the second inittab replaces the first.
    Diff(Option<Level>),
    /// The entries that an inittab starts on the way to a level.
    Plan(Option<Level>),
}

/// The command that the arguments select. It is about a trace, the files of inittabs, or both.
#[derive(Clone, Copy)]
pub enum Command {
    Show(TraceQuery),
    Draw(Form),
    /// The messages about the trace as it grows, from the last lines of the existing text on if their number is given.
    Follow(Option<usize>),
    /// The reason why the id is not started, and its lines in the files.
    Explain(Id),
    /// The changes to the running children if init reads the second file and goes to the level.
    Reload(Option<Level>),
    /// The entries that init starts on the way to the level, and the times that those on the critical path took in the
    /// trace.
    Timing(Option<Level>),
    Tables(TableQuestion),
}

/// The paths of the trace and the files that a command is about.
#[derive(Clone, Copy)]
pub(crate) struct Paths<'m, 'a> {
    /// The path of the trace, or the folders to search for programs.
    pub(crate) path: &'a str,
    /// The paths of the files of inittabs.
    pub(crate) files: &'m [&'a str],
    /// The folder with additional files of inittabs.
    pub(crate) folder: Option<&'a str>,
}

/// The options of all commands, and the positional arguments.
pub(crate) const OPTIONS: &[Row] = &[
    ("--json", "", ""),
    ("--svg", "", ""),
    ("--width", "N", ""),
    ("--faults", "", ""),
    ("--local", "", ""),
    ("-n", "N", ""),
    ("--programs", "FOLDERS", ""),
    ("--trace", "T", ""),
    ("--level", "L", ""),
    ("--inittab-dir", "DIR", ""),
    ("WORD", "..", ""),
];

/// Returns the values of the options and positional arguments in the command line.
pub(crate) fn matched(alloc: Global, words: &[String]) -> Result<ArgMatches<'_>, WordFault>
    ensures ok { IfOk result (λ found. given_by command_line (map string_bytes words.now)
        ≡ Some (rows_of (found_of found))) }
    ensures usage { IfErr result (λ fault. IsSome (reason_of fault)
        → given_by command_line (map string_bytes words.now) ≡ None) }
{
    read_line(alloc, "initview", OPTIONS, words)
}

/// Reports whether a row of the table is an option in the command line.
fn is_given(matches: &ArgMatches, row: Row) -> bool
    ensures { result ≡ is_given (rows_of (found_of matches.now)) (text_of row.entry) }
{
    let (name, value, _) = row;
    if value.is_empty() {
        is_set(matches, name)
    } else {
        value != ".." && word_of(matches, name).is_some()
    }
}

/// Reports whether a question about the state of entries accepts the option.
fn trace_takes(question: &TraceQuery, option: &str) -> bool
    ensures { result ≡ trace_takes question.now option.now }
{
    match question {
        TraceQuery::Left(_) => option == "--json",
        TraceQuery::Status(_) | TraceQuery::Row(_, _) => option == "--json" || option == "--local",
    }
}

fn draw_takes(option: &str) -> bool
    ensures { result ≡ draw_takes option.now }
{
    option == "--svg" || option == "--width" || option == "--faults" || option == "--local"
}

fn table_takes(question: &TableQuestion, option: &str) -> bool
    ensures { result ≡ table_takes question.now option.now }
{
    match question {
        TableQuestion::Lint | TableQuestion::Programs => option == "--programs",
        TableQuestion::Diff(_) | TableQuestion::Plan(_) => {
            option == "--trace" || option == "--level"
        }
    }
}

/// Reports whether a command accepts the option.
fn takes(what: &Command, option: &str) -> bool
    ensures { result ≡ takes what.now option.now }
{
    match what {
        Command::Show(question) => trace_takes(question, option),
        Command::Draw(_) => draw_takes(option),
        Command::Follow(_) => option == "-n" || option == "--local",
        Command::Explain(_) => option == "--inittab-dir",
        Command::Reload(_) | Command::Timing(_) => {
            option == "--inittab-dir" || option == "--trace" || option == "--level"
        }
        Command::Tables(question) => option == "--inittab-dir" || table_takes(question, option),
    }
}

/// Reports whether the command accepts a row of the table, or the row is not an option in the command line.
pub(crate) fn belongs(matches: &ArgMatches, what: &Command, row: Row) -> bool
    ensures { result ≡ belongs (rows_of (found_of matches.now)) what.now (text_of row.entry) }
{
    !is_given(matches, row) || takes(what, row.0)
}

/// Reports whether the command accepts all given options of a table.
fn has_only(matches: &ArgMatches, what: &Command, table: &[Row]) -> bool
    ensures { result ≡ list_all
        (λ row. belongs (rows_of (found_of matches.now)) what.now (text_of row)) table.now }
{
    table.iter().all(|row| belongs(matches, what, *row))
}

pub(crate) fn level_in(word: &str) -> Option<Level>
    ensures { result ≡ level_in word.now }
{
    match word.as_bytes() {
        [code] => Level::read(*code),
        _ => None,
    }
}

/// Returns the level in the command line, if any, or `None` if the value is not a level.
fn level_said(matches: &ArgMatches) -> Option<Option<Level>>
    ensures { result ≡ level_said (rows_of (found_of matches.now)) }
{
    match word_of(matches, "--level") {
        None => Some(None),
        Some(word) => Some(Some(level_in(word)?)),
    }
}

fn shape_said(matches: &ArgMatches) -> RowFormat
    ensures { result ≡ shape_said (rows_of (found_of matches.now)) }
{
    if is_set(matches, "--json") {
        RowFormat::Json
    } else {
        RowFormat::Lines
    }
}

fn which_said(matches: &ArgMatches) -> WhichRows
    ensures { result ≡ which_said (rows_of (found_of matches.now)) }
{
    if is_set(matches, "--faults") {
        WhichRows::Faulty
    } else {
        WhichRows::All
    }
}

fn form_said(matches: &ArgMatches) -> Option<Form>
    ensures { result ≡ form_said (rows_of (found_of matches.now)) }
{
    let which = which_said(matches);
    match (is_set(matches, "--svg"), word_of(matches, "--width")) {
        (false, None) => Some(Form::Lines(WIDTH, which)),
        (false, Some(width)) => Some(Form::Lines(width_of(width)?, which)),
        (true, None) => Some(Form::Svg(which)),
        (true, Some(_)) => None,
    }
}

/// Parses an argument that is a number of lines, 1 to 10,000.
pub(crate) fn last_of(word: &str) -> Option<usize>
    ensures { result ≡ last_of word.now }
{
    match read_below(word.as_bytes(), LAST_LIMIT + 1) {
        Some(0) => None,
        count => Some(count? as usize),
    }
}

/// Returns the number of lines in the command line, if any, or `None` if the value is not such a number.
fn last_said(matches: &ArgMatches) -> Option<Option<usize>>
    ensures { result ≡ last_said (rows_of (found_of matches.now)) }
{
    match word_of(matches, "-n") {
        None => Some(None),
        Some(word) => Some(Some(last_of(word)?)),
    }
}

fn show_of(matches: &ArgMatches, words: &[&str]) -> Option<Command>
    ensures { result
        ≡ show_of (rows_of (found_of matches.now)) (map (λ word. word.now) words.now) }
{
    let shape = shape_said(matches);
    match words {
        [_] => Some(Command::Show(TraceQuery::Status(shape))),
        [_, id] => Some(Command::Show(TraceQuery::Row(Id::read(id.as_bytes())?, shape))),
        _ => None,
    }
}

fn draw_of(matches: &ArgMatches, words: &[&str]) -> Option<Command>
    ensures { result
        ≡ draw_of (rows_of (found_of matches.now)) (map (λ word. word.now) words.now) }
{
    match words {
        [_] => Some(Command::Draw(form_said(matches)?)),
        _ => None,
    }
}

fn explained(id: &str) -> Option<Command>
    ensures { result ≡ explained id.now }
{
    Some(Command::Explain(Id::read(id.as_bytes())?))
}

fn explain_of(words: &[&str]) -> Option<Command>
    ensures { result ≡ explain_of (map (λ word. word.now) words.now) }
{
    match words {
        [id, _, ..] => explained(*id),
        _ => None,
    }
}

fn diff_of(matches: &ArgMatches, words: &[&str]) -> Option<Command>
    ensures { result
        ≡ diff_of (rows_of (found_of matches.now)) (map (λ word. word.now) words.now) }
{
    match words {
        [_, _] => {
            let level = level_said(matches)?;
            match word_of(matches, "--trace") {
                Some(_) => Some(Command::Reload(level)),
                None => Some(Command::Tables(TableQuestion::Diff(level))),
            }
        }
        _ => None,
    }
}

fn plan_of(matches: &ArgMatches, words: &[&str]) -> Option<Command>
    ensures { result
        ≡ plan_of (rows_of (found_of matches.now)) (map (λ word. word.now) words.now) }
{
    match words {
        [] => None,
        _ => {
            let level = level_said(matches)?;
            match word_of(matches, "--trace") {
                Some(_) => Some(Command::Timing(level)),
                None => Some(Command::Tables(TableQuestion::Plan(level))),
            }
        }
    }
}

fn lint_of(matches: &ArgMatches, words: &[&str]) -> Option<Command>
    ensures { result
        ≡ lint_of (rows_of (found_of matches.now)) (map (λ word. word.now) words.now) }
{
    match (words, word_of(matches, "--programs")) {
        ([], _) => None,
        (_, Some(_)) => Some(Command::Tables(TableQuestion::Programs)),
        (_, None) => Some(Command::Tables(TableQuestion::Lint)),
    }
}

/// Returns the command about inittabs that the arguments select.
fn tables_of(matches: &ArgMatches, verb: &str, words: &[&str]) -> Option<Command>
    ensures { result ≡ tables_of (rows_of (found_of matches.now)) verb.now
        (map (λ word. word.now) words.now) }
{
    match verb {
        "diff" => diff_of(matches, words),
        "plan" => plan_of(matches, words),
        "lint" => lint_of(matches, words),
        _ => None,
    }
}

/// Returns the command that the arguments select, if its only argument is the path of a trace.
fn plain_of(matches: &ArgMatches, verb: &str, words: &[&str]) -> Option<Command>
    ensures { result ≡ plain_of (rows_of (found_of matches.now)) verb.now
        (map (λ word. word.now) words.now) }
{
    match words {
        [_] => match verb {
            "left" => Some(Command::Show(TraceQuery::Left(shape_said(matches)))),
            "follow" => Some(Command::Follow(last_said(matches)?)),
            _ => None,
        },
        _ => None,
    }
}

fn asked_by(matches: &ArgMatches, verb: &str, words: &[&str]) -> Option<Command>
    ensures { result ≡ asked_by (rows_of (found_of matches.now)) verb.now
        (map (λ word. word.now) words.now) }
{
    if verb == "status" {
        return show_of(matches, words);
    }
    if verb == "timeline" {
        return draw_of(matches, words);
    }
    if verb == "why" {
        return explain_of(words);
    }
    match plain_of(matches, verb, words) {
        Some(what) => Some(what),
        None => tables_of(matches, verb, words),
    }
}

/// Returns the command that the options and arguments select, or `None` if there is no such command. Does not check
/// whether the command accepts all options.
pub(crate) fn asked(matches: &ArgMatches, words: &[&str]) -> Option<Command>
    ensures { result
        ≡ asked (rows_of (found_of matches.now)) (map (λ word. word.now) words.now) }
{
    match words {
        [] => None,
        [verb, rest @ ..] => asked_by(matches, *verb, rest),
    }
}

/// Returns the command that the options and arguments select, or `None` if there is no such command or it does not
/// accept one of the options.
pub(crate) fn what_of(matches: &ArgMatches, words: &[&str]) -> Option<Command>
    ensures { result
        ≡ what_of (rows_of (found_of matches.now)) (map (λ word. word.now) words.now) }
{
    let what = asked(matches, words)?;
    if has_only(matches, &what, OPTIONS) {
        Some(what)
    } else {
        None
    }
}

/// Returns the path of the trace, or the folders to search for programs.
fn path_of<'a>(what: &Command, matches: &ArgMatches<'a>, words: &[&'a str]) -> &'a str
    ensures { result.now ≡ path_of what.now (rows_of (found_of matches.now))
        (map (λ word. word.now) words.now) }
{
    match (what, words) {
        (Command::Reload(_) | Command::Timing(_), _) => value_of(matches, "--trace"),
        (Command::Tables(_), _) => value_of(matches, "--programs"),
        (Command::Explain(_), [_, _, trace, ..]) => *trace,
        (Command::Explain(_), _) => "",
        (_, [_, trace, ..]) => *trace,
        _ => "",
    }
}

/// Returns the paths of the files of inittabs.
fn files_of<'m, 'a>(what: &Command, words: &'m [&'a str]) -> &'m [&'a str]
    ensures { map (λ word. word.now) result.now
        ≡ files_of what.now (map (λ word. word.now) words.now) }
{
    match (what, words) {
        (Command::Explain(_), [_, _, _, files @ ..]) => files,
        (Command::Explain(_), _) => &[],
        (_, [_, files @ ..]) => files,
        _ => &[],
    }
}

/// Returns the paths in the options and arguments of a command.
pub(crate) fn paths_of<'m, 'a>(
    what: &Command,
    matches: &ArgMatches<'a>,
    words: &'m [&'a str],
) -> Paths<'m, 'a>
    ensures { path_texts result ≡ paths_of what.now (rows_of (found_of matches.now))
        (map (λ word. word.now) words.now) }
{
    Paths {
        path: path_of(what, matches, words),
        files: files_of(what, words),
        folder: word_of(matches, "--inittab-dir"),
    }
}
