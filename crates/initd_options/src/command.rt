//! The command lines of initd's commands.

ghost use Rattle.std.specs.Prelude.{◌≡◌, map, string_bytes, IfErr, IfOk, IsSome, None, Some};
ghost use Rattle.command_words.specs.Faults.{reason_of};
ghost use Rattle.initd_options.specs.CommandLine.{check_of, check_read_of, command_arguments, initd_read_of, run_read_of, arguments_of, simulation_of, simulation_read_of};
ghost use Rattle.initd_options.specs.Options.{run_of};

use crate::options::{OPTIONS, RunWords, read_level_option, read_matches};
use command_words::{Row, WordFault, is_set, is_version, meant_of, read_line, value_of};
use init_words::Level;
use std::alloc::{AllocError, Global};

/// The arguments of `initd simulate`.
#[derive(Drop)]
pub struct SimulateWords {
    /// The runlevel to go to, if one is given.
    pub level: Option<Level>,
    /// The path of the inittab(5).
    pub table: String,
    /// The path of the script.
    pub script: String,
}

/// The arguments of `initd check`.
#[derive(Drop)]
pub struct CheckWords {
    /// Whether the trace is still being written, so that it is judged up to its last complete happening.
    pub growing: bool,
    /// Whether the earlier pieces of the trace, which were put away, are judged with it.
    pub pieces: bool,
    /// The path of the trace.
    pub trace: String,
}

/// The arguments of `initd`.
#[derive(Drop)]
pub enum Words {
    /// Print the version. The only argument is `--version`.
    Version,
    /// Run init over an inittab and a script.
    Simulate(SimulateWords),
    /// Judge a trace.
    Check(CheckWords),
    /// Run init over the operating system.
    Run(RunWords),
}

/// The commands.
const COMMANDS: &[&str] = &["run", "simulate", "check"];

/// The options and arguments of `initd simulate`.
const SIMULATE: &[Row] = &[("--level", "L", ""), ("TABLE", "", ""), ("SCRIPT", "", "")];

/// The options and arguments of `initd check`.
const CHECK: &[Row] = &[
    ("--growing", "", ""),
    ("--pieces", "", ""),
    ("TRACE", "", ""),
];

/// Parses a command line, given without the program's name. `Usage` gives the reason why it is not valid.
pub fn read_words(alloc: Global, words: &[String]) -> Result<Words, WordFault>
    ensures ok { IfOk result (λ arguments.
        initd_read_of (map string_bytes words.now) ≡ Some (arguments_of arguments)) }
    ensures usage { IfErr result (λ fault. IsSome (reason_of fault)
        → initd_read_of (map string_bytes words.now) ≡ None) }
{
    if is_version(words) {
        return Ok(Words::Version);
    }
    match words {
        [command, rest @ ..] => read_command(alloc, command.as_str(), rest),
        [] => Err(WordFault::Usage(String::from_str(alloc, "missing argument")?)),
    }
}

/// Parses the arguments after a command.
fn read_command(alloc: Global, command: &str, words: &[String]) -> Result<Words, WordFault>
    ensures ok { IfOk result (λ arguments.
        command_arguments command.now (map string_bytes words.now)
        ≡ Some (arguments_of arguments)) }
    ensures usage { IfErr result (λ fault. IsSome (reason_of fault)
        → command_arguments command.now (map string_bytes words.now) ≡ None) }
{
    match command {
        "simulate" => Ok(Words::Simulate(read_simulate(alloc, words)?)),
        "check" => Ok(Words::Check(read_check(alloc, words)?)),
        "run" => Ok(Words::Run(read_run(alloc, words)?)),
        _ => Err(WordFault::Usage(unknown_command(alloc, command)?)),
    }
}

/// Returns the reason for rejecting a word that is not a command. It is empty if help was requested.
fn unknown_command(alloc: Global, word: &str) -> Result<String, AllocError> {
    match (word, meant_of(COMMANDS, word)) {
        ("--help" | "-h" | "help", _) => Ok(String::new(alloc)),
        (_, Some(meant)) => format!(in alloc; "unknown command: {word}; did you mean {meant}?"),
        _ if word.starts_with('-') => format!(in alloc; "unknown option: {word}"),
        _ => format!(in alloc; "unknown command: {word}"),
    }
}

#[tactic(auto, using(crate::proofs::FreeLines::is_free_simulate))]
fn read_simulate(alloc: Global, words: &[String]) -> Result<SimulateWords, WordFault>
    ensures ok { IfOk result (λ arguments.
        simulation_read_of (map string_bytes words.now) ≡ Some (simulation_of arguments)) }
    ensures usage { IfErr result (λ fault. IsSome (reason_of fault)
        → simulation_read_of (map string_bytes words.now) ≡ None) }
{
    let matches = read_line(alloc, "simulate", SIMULATE, words)?;
    let level = read_level_option(alloc, &matches)?;
    Ok(SimulateWords {
        level,
        table: String::from_str(alloc, value_of(&matches, "TABLE"))?,
        script: String::from_str(alloc, value_of(&matches, "SCRIPT"))?,
    })
}

#[tactic(auto, using(crate::proofs::FreeLines::is_free_check))]
fn read_check(alloc: Global, words: &[String]) -> Result<CheckWords, WordFault>
    ensures ok { IfOk result (λ arguments.
        check_read_of (map string_bytes words.now) ≡ Some (check_of arguments)) }
    ensures usage { IfErr result (λ fault. IsSome (reason_of fault)
        → check_read_of (map string_bytes words.now) ≡ None) }
{
    let matches = read_line(alloc, "check", CHECK, words)?;
    Ok(CheckWords {
        growing: is_set(&matches, "--growing"),
        pieces: is_set(&matches, "--pieces"),
        trace: String::from_str(alloc, value_of(&matches, "TRACE"))?,
    })
}

fn read_run(alloc: Global, words: &[String]) -> Result<RunWords, WordFault>
    ensures ok { IfOk result (λ arguments.
        run_read_of (map string_bytes words.now) ≡ Some (run_of arguments)) }
    ensures usage { IfErr result (λ fault. IsSome (reason_of fault)
        → run_read_of (map string_bytes words.now) ≡ None) }
{
    let matches = read_line(alloc, "run", OPTIONS, words)?;
    read_matches(alloc, &matches)
}
