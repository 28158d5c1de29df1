//! The command line of `telinit`, and the request block that it asks for.

ghost use Rattle.std.specs.Prelude.{◌≡◌, map, codes, option_and_then, option_map, string_bytes, IfErr, IfOk, IsSome, None, Some};
ghost use Rattle.std.specs.List.{list_all};
ghost use Rattle.std.specs.Char.{is_ascii_digit};
ghost use Rattle.clap.specs.Words.{found_of, rows_of};
ghost use Rattle.command_words.specs.Faults.{reason_of};
ghost use Rattle.initctl_frame.specs.Signs.{sign_read};
ghost use Rattle.program_io.specs.Arguments.{only_byte};
ghost use Rattle.initctl_frame.specs.Frames.{block_of};
ghost use Rattle.telinit_command.specs.Channels.{IsRequestFor};
ghost use Rattle.telinit_command.specs.CommandLine.{path_option, power_read, request_of, seconds_read, sign_or_power};
ghost use Rattle.telinit_command.specs.CommandLine.{telinit_read_of, words_of, words_read_of, words_of_rows};

use clap::ArgMatches;
use command_words::{
    Argument, Form, WordFault, invalid_value, read_arguments, rejected, valid, value_of, word_of,
};
use init_words::{GRACE_LIMIT, PowerKind};
use initctl_frame::{BLOCK, Request, Sign, encode};
use program_io::only_byte;
use std::alloc::{AllocError, Global};

/// The command lines, which help and the messages about rejected arguments show.
const USAGE: &str = "telinit [OPTIONS] CHAR
       telinit [OPTIONS] --power KIND
       telinit --version";

/// The options and the positional argument of the command line.
const OPTIONS: &[Argument] = &[
    (
        "-t",
        Form::Valued,
        "SEC",
        "5",
        "Seconds from SIGTERM to SIGKILL, 0 to 3600",
    ),
    (
        "-d",
        Form::Valued,
        "DIR",
        "",
        "The folder of the channel, by default INITD_DIR",
    ),
    (
        "--initctl",
        Form::Valued,
        "P",
        "",
        "The channel, by default initctl in that folder",
    ),
    (
        "--power",
        Form::Valued,
        "KIND",
        "",
        "The power fails (fail), the battery is almost
empty (failnow), or the power is back (ok)",
    ),
    (
        "CHAR",
        Form::Optional,
        "",
        "",
        "0 to 9, S, s: go to that runlevel
A, B, C, a, b, c: start the ondemand entries of that letter
Q, q: read the inittab again
U, u: re-execute init, keeping its state",
    ),
];

/// A parsed command line, with the defaults for options that are not given.
#[derive(Drop)]
pub struct Words {
    /// The seconds between the two signals that stop a child, 0 to 3,600.
    pub secs: u16,
    /// The file that the request block is appended to.
    pub path: String,
    /// The argument CHAR, which is not checked; empty if `--power` is given.
    pub sign: String,
    /// The power event of `--power`, which is given in place of CHAR.
    pub power: Option<PowerKind>,
}

/// The request of a command line: the file of the channel and the request block (initreq.h).
#[derive(Drop)]
pub(crate) struct Asked {
    pub(crate) path: String,
    pub(crate) block: [u8; BLOCK],
}

/// Parses a command line, without the program's name. The default for the channel is `initctl` in the folder of `-d`,
/// or in the current folder. The sign is not checked: see [`frame_of`].
pub fn read_words(alloc: Global, words: Vec<String>) -> Result<Words, WordFault>
    ensures ok { IfOk result (λ arguments. words_read_of (codes "") (map string_bytes words.items)
        ≡ Some (words_of arguments)) }
    ensures usage { IfErr result (λ fault. IsSome (reason_of fault)
        → words_read_of (codes "") (map string_bytes words.items) ≡ None) }
{
    read_words_in(alloc, "", words)
}

/// Returns the request block for a command line (initreq.h), or `None` if its sign is not a character of telinit(8).
pub fn frame_of(words: &Words) -> Option<[u8; BLOCK]>
    ensures { result ≡ option_map block_of (request_of (words_of words.now)) }
{
    let request = match words.power {
        Some(kind) => Request::Power(kind),
        None => Request::Runlvl(read_sign(words.sign.as_str())?, words.secs),
    };
    Some(encode(&request))
}

/// Returns the request of a command line. `home` is the folder of the channel in the environment, or empty.
pub(crate) fn read_asked(alloc: Global, home: &str, words: Vec<String>) -> Result<Asked, WordFault>
    // This is the request of the arguments, with the defaults for options that are not given.
    ensures ok { IfOk result (λ asked. IsRequestFor home.now (map string_bytes words.items)
        (string_bytes asked.path) asked.block) }
    ensures usage { IfErr result (λ fault. IsSome (reason_of fault)
        → telinit_read_of home.now (map string_bytes words.items) ≡ None) }
{
    let words = read_words_in(alloc, home, words)?;
    match frame_of(&words) {
        Some(block) => Ok(Asked {
            path: words.path,
            block,
        }),
        None => Err(invalid_value(
            alloc,
            "CHAR",
            words.sign.as_str(),
            "not a runlevel, a letter, q or u",
        )),
    }
}

#[tactic(auto, using(crate::proofs::FreeLine::is_free_line))]
fn read_words_in(alloc: Global, home: &str, words: Vec<String>) -> Result<Words, WordFault>
    ensures ok { IfOk result (λ arguments. words_read_of home.now (map string_bytes words.items)
        ≡ Some (words_of arguments)) }
    ensures usage { IfErr result (λ fault. IsSome (reason_of fault)
        → words_read_of home.now (map string_bytes words.items) ≡ None) }
{
    let matches = read_arguments(alloc, "telinit", USAGE, OPTIONS, words.as_slice())?;
    read_matches(alloc, &matches, home)
}

/// Returns the command line of clap's matches.
fn read_matches(alloc: Global, matches: &ArgMatches, home: &str) -> Result<Words, WordFault>
    ensures ok { IfOk result (λ arguments. words_of_rows home.now (rows_of (found_of matches.now))
        ≡ Some (words_of arguments)) }
    ensures usage { IfErr result (λ fault. IsSome (reason_of fault)
        → words_of_rows home.now (rows_of (found_of matches.now)) ≡ None) }
{
    let word = value_of(matches, "-t");
    let secs = valid(
        alloc,
        "-t",
        word,
        read_grace(word),
        "not between 0 and 3600 seconds",
    )?;
    let asked = read_sign_or_power(alloc, word_of(matches, "CHAR"), word_of(matches, "--power"))?;
    Ok(Words {
        secs,
        path: path_of(alloc, matches, home)?,
        sign: asked.0,
        power: asked.1,
    })
}

/// Parses a number of seconds: a decimal number from 0 to 3,600, without a sign.
fn read_grace(word: &str) -> Option<u16>
    ensures { result ≡ seconds_read word.now }
{
    if !is_all_digits(word) {
        return None;
    }
    let Ok(secs) = word.parse::<u16>() else {
        return None;
    };
    if secs <= GRACE_LIMIT {
        Some(secs)
    } else {
        None
    }
}

fn is_all_digits(word: &str) -> bool
    ensures { result ≡ list_all is_ascii_digit word.now }
{
    word.bytes().all(|byte| byte.is_ascii_digit())
}

/// Returns the argument CHAR, or the power event of `--power`. Exactly one of them must be given.
fn read_sign_or_power(
    alloc: Global,
    sign: Option<&str>,
    power: Option<&str>,
) -> Result<(String, Option<PowerKind>), WordFault>
    ensures ok { IfOk result (λ asked. sign_or_power (option_map (λ word. word.now) sign.entry)
        (option_map (λ word. word.now) power.entry) ≡ Some (string_bytes asked.0, asked.1)) }
    ensures usage { IfErr result (λ fault. IsSome (reason_of fault)
        → sign_or_power (option_map (λ word. word.now) sign.entry)
        (option_map (λ word. word.now) power.entry) ≡ None) }
{
    match (sign, power) {
        (Some(sign), None) => Ok((String::from_str(alloc, sign)?, None)),
        (None, Some(word)) => match read_power(word) {
            Some(kind) => Ok((String::new(alloc), Some(kind))),
            None => Err(invalid_value(alloc, "--power", word, "not fail, failnow or ok")),
        },
        (Some(_), Some(_)) => Err(rejected(alloc, "'--power' cannot be used with 'CHAR'")),
        (None, None) => Err(rejected(alloc, "neither 'CHAR' nor '--power' was given")),
    }
}

/// Parses a sign, which is a single character (telinit(8)).
fn read_sign(word: &str) -> Option<Sign>
    ensures { result ≡ option_and_then sign_read (only_byte word.now) }
{
    Sign::read(only_byte(word)?)
}

/// Parses the value of `--power`, a power event.
fn read_power(word: &str) -> Option<PowerKind>
    ensures { result ≡ power_read word.now }
{
    match word {
        "fail" => Some(PowerKind::Fail),
        "failnow" => Some(PowerKind::FailNow),
        "ok" => Some(PowerKind::Ok),
        _ => None,
    }
}

/// Returns the path of the channel for the arguments.
fn path_of(alloc: Global, matches: &ArgMatches, home: &str) -> Result<String, AllocError>
    ensures { IfOk result (λ path. string_bytes path
        ≡ path_option home.now (rows_of (found_of matches.now))) }
{
    if let Some(path) = word_of(matches, "--initctl") {
        return String::from_str(alloc, path);
    }
    let given = value_of(matches, "-d");
    let folder = if given.is_empty() { home } else { given };
    if folder.is_empty() {
        return String::from_str(alloc, "initctl");
    }
    format!(in alloc; "{folder}/initctl")
}
