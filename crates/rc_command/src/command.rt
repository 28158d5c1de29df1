//! The command line of `rc`.

ghost use Rattle.std.specs.Prelude.{◌≡◌, map, string_bytes, IfErr, IfOk, IsSome, None, Some};
ghost use Rattle.clap.specs.Words.{found_of, rows_of};
ghost use Rattle.command_words.specs.Faults.{reason_of};
ghost use Rattle.rc_command.specs.CommandLine.{entering, is_dir, level_of, levels_of, levels_given, new_of, options_with, previous_of};
ghost use Rattle.rc_command.specs.CommandLine.{rc_read_of, arguments_in, rc_arguments, arguments_of, seconds_read, seconds_option};

use clap::ArgMatches;
use command_words::{
    Argument, Form, WordFault, invalid_value, is_set, read_arguments, read_path, rejected,
    value_of, word_of,
};
use init_words::Level;
use program_io::only_byte;
use rc_driver::{LevelChange, ScriptOptions};
use rc_links::is_name_byte;
use std::alloc::{AllocError, Global};
use text_lines::read_below;

/// The maximum number of seconds for `--timeout`.
const SECONDS_LIMIT: u64 = 86_400;

/// The command lines, which help and the messages about rejected arguments show.
const USAGE: &str = "rc [OPTIONS] DIR PREV NEW
       rc [OPTIONS] --level-file F DIR NEW
       rc --version";

/// The options and the positional arguments of the command line.
const OPTIONS: &[Argument] = &[
    (
        "-n",
        Form::Flag,
        "",
        "",
        "Print what would be run, and run nothing",
    ),
    ("-v", Form::Flag, "", "", "Report each start"),
    (
        "--strict",
        Form::Flag,
        "",
        "",
        "Exit with status 2 if a script fails",
    ),
    (
        "--direct",
        Form::Flag,
        "",
        "",
        "Execute each script by its own first line, not with sh",
    ),
    (
        "--as-sysv",
        Form::Flag,
        "",
        "",
        "Run what sysv-rc runs, and in the same way;
implies --direct",
    ),
    (
        "--timeout",
        Form::Valued,
        "SEC",
        "",
        "Send TERM to a script that runs longer than SEC
seconds, 1 to 86400, and KILL 5 seconds later",
    ),
    (
        "--level-file",
        Form::Valued,
        "F",
        "",
        "Read PREV from the file F, or use N if there is none;
after the run F holds NEW",
    ),
    (
        "DIR",
        Form::Required,
        "",
        "",
        "The folder that holds those of the runlevels, such as
rc3.d; it may contain only A-Z a-z 0-9 . _ - /",
    ),
    (
        "PREV",
        Form::Required,
        "",
        "",
        "The previous runlevel, 0 to 9 or S, or N if there was none",
    ),
    (
        "NEW",
        Form::Optional,
        "",
        "",
        "The runlevel to enter, 0 to 9 or S",
    ),
];

/// A parsed command line.
#[derive(Drop)]
pub struct Words {
    /// The folder that contains the folders of the runlevels.
    pub dir: String,
    /// The previous runlevel, if there was one and it is not read from a file.
    pub previous: Option<Level>,
    /// The file from which the previous runlevel is read and to which the new one is written, if `--level-file` is
    /// given.
    pub level_file: Option<String>,
    /// The runlevel that is entered.
    pub new: Level,
    /// Whether scripts are run as sysv-rc runs them.
    pub sysv: bool,
    /// The other options.
    pub options: RunOptions,
}

/// The options of a run.
#[derive(Clone, Copy, PartialEq, Eq)]
pub struct RunOptions {
    /// Prints the commands that would be run, and runs nothing.
    pub dry: bool,
    /// Makes the exit status report a script that failed.
    pub strict: bool,
    /// How the scripts are run. It includes the change of level if they are run as sysv-rc runs them.
    pub way: ScriptOptions,
}

/// Parses a command line, without the program's name.
pub fn read_words(alloc: Global, words: &[String]) -> Result<Words, WordFault>
    ensures ok { IfOk result (λ arguments.
        rc_read_of (map string_bytes words.now) ≡ Some (arguments_of arguments)) }
    ensures usage { IfErr result (λ fault. IsSome (reason_of fault)
        → rc_read_of (map string_bytes words.now) ≡ None) }
{
    match read_arguments(alloc, "rc", USAGE, OPTIONS, words) {
        Ok(matches) => read_matches(alloc, &matches),
        Err(fault) => Err(fault),
    }
}

/// Returns the command line of clap's matches.
fn read_matches(alloc: Global, matches: &ArgMatches) -> Result<Words, WordFault>
    ensures ok { IfOk result (λ arguments.
        arguments_in (rows_of (found_of matches.now)) ≡ Some (arguments_of arguments)) }
    ensures usage { IfErr result (λ fault. IsSome (reason_of fault)
        → arguments_in (rows_of (found_of matches.now)) ≡ None) }
{
    let seconds = read_seconds_option(alloc, matches)?;
    words_of(
        alloc,
        matches,
        is_set(matches, "--as-sysv"),
        read_options(matches, seconds),
    )
}

/// Returns the two runlevels. The previous one is `None` here if it is to be read from a file.
fn read_levels(alloc: Global, matches: &ArgMatches) -> Result<LevelChange, WordFault>
    ensures ok { IfOk result (λ levels.
        levels_given (rows_of (found_of matches.now)) ≡ Some levels) }
    ensures usage { IfErr result (λ fault. IsSome (reason_of fault)
        → levels_given (rows_of (found_of matches.now)) ≡ None) }
{
    let first = value_of(matches, "PREV");
    match (word_of(matches, "--level-file"), word_of(matches, "NEW")) {
        (None, Some(second)) => read_both(alloc, first, second),
        (None, None) => Err(rejected(
            alloc,
            "the following required arguments were not provided:\n  <NEW>",
        )),
        (Some(_), None) => read_new(alloc, first),
        (Some(_), Some(_)) => Err(rejected(alloc, "'PREV' cannot be used with '--level-file'")),
    }
}

/// Parses the previous and the new level from two arguments.
fn read_both(alloc: Global, before: &str, after: &str) -> Result<LevelChange, WordFault>
    ensures ok { IfOk result (λ levels. levels_of before.now after.now ≡ Some levels) }
    ensures usage { IfErr result (λ fault. IsSome (reason_of fault)
        → levels_of before.now after.now ≡ None) }
{
    let Some(previous) = previous_of(before) else {
        return Err(invalid_value(alloc, "PREV", before, "not a runlevel, 0 to 9 or S, or N"));
    };
    let levels = read_new(alloc, after)?;
    Ok(LevelChange {
        before: previous,
        new: levels.new,
    })
}

/// Parses the new level from one argument.
fn read_new(alloc: Global, after: &str) -> Result<LevelChange, WordFault>
    ensures ok { IfOk result (λ levels. new_of after.now ≡ Some levels) }
    ensures usage { IfErr result (λ fault. IsSome (reason_of fault) → new_of after.now ≡ None) }
{
    let Some(new) = level_of(after) else {
        return Err(invalid_value(alloc, "NEW", after, "not a runlevel, 0 to 9 or S"));
    };
    Ok(LevelChange { before: None, new })
}

/// Returns the options of a run, with this time limit.
fn read_options(matches: &ArgMatches, seconds: Option<u32>) -> RunOptions
    ensures { result ≡ options_with seconds (rows_of (found_of matches.now)) }
{
    RunOptions {
        dry: is_set(matches, "-n"),
        strict: is_set(matches, "--strict"),
        way: ScriptOptions {
            direct: is_set(matches, "--direct") || is_set(matches, "--as-sysv"),
            verbose: is_set(matches, "-v"),
            seconds,
            levels: None,
        },
    }
}

/// Returns the time limit for a script in seconds, if one is given.
fn read_seconds_option(alloc: Global, matches: &ArgMatches) -> Result<Option<u32>, WordFault>
    ensures ok { IfOk result (λ seconds.
        seconds_option (rows_of (found_of matches.now)) ≡ Some seconds) }
    ensures usage { IfErr result (λ fault. IsSome (reason_of fault)
        → seconds_option (rows_of (found_of matches.now)) ≡ None) }
{
    let Some(word) = word_of(matches, "--timeout") else {
        return Ok(None);
    };
    match read_seconds(word) {
        Some(seconds) => Ok(Some(seconds)),
        None => Err(invalid_value(alloc, "--timeout", word, "not between 1 and 86400 seconds")),
    }
}

/// Parses a number of seconds, 1 to 86,400.
fn read_seconds(word: &str) -> Option<u32>
    ensures { result ≡ seconds_read word.now }
{
    let seconds = read_below(word.as_bytes(), SECONDS_LIMIT + 1)?;
    if seconds > 0 {
        Some(seconds as u32)
    } else {
        None
    }
}

/// Returns the parsed arguments, or a usage fault if one is not a path or not a level.
fn words_of(
    alloc: Global,
    matches: &ArgMatches,
    sysv: bool,
    options: RunOptions,
) -> Result<Words, WordFault>
    ensures ok { IfOk result
        (λ arguments. rc_arguments (rows_of (found_of matches.now)) sysv options
        ≡ Some (arguments_of arguments)) }
    ensures usage { IfErr result (λ fault. IsSome (reason_of fault)
        → rc_arguments (rows_of (found_of matches.now)) sysv options ≡ None) }
{
    let dir = value_of(matches, "DIR");
    if !is_dir(dir) {
        return Err(invalid_value(alloc, "DIR", dir, "it may contain only A-Z a-z 0-9 . _ - /"));
    }
    let levels = read_levels(alloc, matches)?;
    Ok(Words {
        dir: String::from_str(alloc, dir)?,
        previous: levels.before,
        level_file: read_path(alloc, matches, "--level-file")?,
        new: levels.new,
        sysv,
        options,
    })
}

/// Returns the options, with the change of level if scripts are run as sysv-rc runs them.
pub(crate) fn entering(sysv: bool, change: LevelChange, options: RunOptions) -> RunOptions
    ensures { result ≡ entering sysv change options }
{
    if !sysv {
        return options;
    }
    RunOptions {
        way: ScriptOptions {
            levels: Some(change),
            ..options.way
        },
        ..options
    }
}

/// Returns whether the path consists of the bytes `A-Z a-z 0-9 . _ - /`.
fn is_dir(word: &str) -> bool
    ensures { result ≡ is_dir word.now }
{
    word.as_bytes()
        .iter()
        .all(|byte| is_name_byte(*byte) || *byte == b'/')
}

/// Parses a runlevel, `0` to `9` or `S`.
fn level_of(word: &str) -> Option<Level>
    ensures { result ≡ level_of word.now }
{
    if word == "s" {
        return None;
    }
    Level::read(only_byte(word)?)
}

/// Parses the previous runlevel: `Some(None)` for `N`, and `None` for a word that is neither `N` nor a level.
fn previous_of(word: &str) -> Option<Option<Level>>
    ensures { result ≡ previous_of word.now }
{
    if word == "N" {
        return Some(None);
    }
    Some(Some(level_of(word)?))
}
