//! The options of `initd run` and their values.

ghost use Rattle.std.specs.Prelude.{◌≡◌, ◌<◌, ◌≤◌, IfErr, IfOk, IfSome, IsSome, None, Some};
ghost use Rattle.clap.specs.Words.{found_of, rows_of};
ghost use Rattle.command_words.specs.Faults.{reason_of};
ghost use Rattle.initd_options.specs.Options.{brief_option, delay_given, delay_read, digit_read, hundredths_read, level_option, level_word_read, names_end, part_read, pause_default, pause_read, pause_option, result_option, run_of, run_arguments, keep_given, keep_read, size_given, size_read, turns_read, turns_option, units_read, whole_read, without_zeros};

use clap::ArgMatches;
use command_words::{Row, WordFault, checked, is_set, read_path, refused, value_of, word_of};
use init_words::{Id, Level};
use program_io::only_byte;
use std::alloc::Global;
use text_lines::{cut, read_below, read_number};

/// The arguments of `initd run`.
#[derive(Drop)]
pub struct RunWords {
    /// The path of the inittab(5).
    pub inittab: String,
    /// The folder of the inittab's further files, if one is given.
    pub inittab_dir: Option<String>,
    /// The path of the channel of requests (initreq.h).
    pub initctl: String,
    /// Whether to skip the requests that the channel already has.
    pub fresh: bool,
    /// The path of the state file, which init needs to re-execute itself.
    pub state: String,
    /// The path of the trace, if one is to be written.
    pub trace: Option<String>,
    /// Whether the trace is brief, which omits rounds in which nothing happened.
    pub brief: bool,
    /// The length in bytes at which the file of the trace is put away, if one is given.
    pub trace_size: Option<u64>,
    /// The number of put-away files that are kept, if not all of them.
    pub trace_keep: Option<u64>,
    /// Whether each happening is judged by the laws of traces during the run.
    pub judge: bool,
    /// The runlevel to go to, if one is given.
    pub level: Option<Level>,
    /// The maximum number of turns; `u64::MAX` means no limit.
    pub turns: u64,
    /// Whether the run ends when nothing is left to do and no child is running.
    pub drain: bool,
    /// Whether the end of the run is specified by `--turns`, `--forever` or `--drain`.
    pub names_end: bool,
    /// The longest pause, in hundredths of a second, 1 to 6,000.
    pub pause: u64,
    /// The id whose last status becomes the status of the run, if one is given.
    pub result: Option<Id>,
    /// Whether each start and each end of a child is reported.
    pub verbose: bool,
    /// The folder to which the output of the children is written, if one is given.
    pub logs: Option<String>,
    /// Whether each child runs in a session of its own, and signals go to its process group.
    pub groups: bool,
    /// The longest delay of a start in seconds, 1 to 3,600, if starts that follow each other too soon are delayed.
    pub respawn_delay: Option<u16>,
    /// Whether an inittab with a faulty line is rejected.
    pub strict: bool,
    /// Whether each line that the run prints begins with the time.
    pub stamp: bool,
    /// Whether the bell of the channel is created if it does not exist.
    pub bell: bool,
    /// Whether the children are watched by a helper, so that the end of one ends a pause.
    pub watch: bool,
}

/// The greatest number of turns that can be given.
const TURNS_LIMIT: u64 = 1_000_000_000;

/// The default number of turns.
const TURNS_DEFAULT: u64 = 1_000_000;

/// The number of turns of a run without a limit.
const FOREVER: u64 = u64::MAX;

/// The least length in bytes at which a trace can be put away.
const SIZE_LEAST: u64 = 4_096;

/// The greatest length in bytes at which a trace can be put away.
const SIZE_MOST: u64 = 1_099_511_627_776;

/// One more than the greatest number of units in such a length.
const UNITS_LIMIT: u64 = 1_073_741_825;

/// The greatest number of files that can be kept.
const KEEP_LIMIT: u64 = 1_000_000_000;

/// The longest pause, in seconds.
const PAUSE_SECONDS: u64 = 60;

/// The default of the longest pause, in hundredths of a second, unless the children are watched and there is a bell.
const PAUSE_DEFAULT: u64 = 100;

/// The longest pause, in hundredths of a second.
const PAUSE_LIMIT: u64 = 6_000;

/// The greatest delay of a start, in seconds.
const DELAY_LIMIT: u64 = 3_600;

/// The options of `initd run`.
pub(crate) const OPTIONS: &[Row] = &[
    ("--inittab", "P", "inittab"),
    ("--inittab-dir", "DIR", ""),
    ("--initctl", "P", "initctl"),
    ("--fresh", "", ""),
    ("--state", "P", "initd.state"),
    ("--trace", "P", ""),
    ("--trace-size", "SIZE", ""),
    ("--trace-keep", "N", ""),
    ("--brief", "", ""),
    ("--judge", "", ""),
    ("--level", "L", ""),
    ("--turns", "N", ""),
    ("--forever", "", ""),
    ("--drain", "", ""),
    ("--pause", "SEC", ""),
    ("--result", "ID", ""),
    ("--verbose", "", ""),
    ("--logs", "DIR", ""),
    ("--groups", "", ""),
    ("--respawn-delay", "MAX", ""),
    ("--strict", "", ""),
    ("--stamp", "", ""),
    ("--bell", "", ""),
    ("--watch", "", ""),
];

/// Reads the arguments after `run`.
pub(crate) fn read_matches(alloc: Global, matches: &ArgMatches) -> Result<RunWords, WordFault>
    ensures ok { IfOk result (λ arguments.
        run_arguments (rows_of (found_of matches.now)) ≡ Some (run_of arguments)) }
    ensures usage { IfErr result (λ fault. IsSome (reason_of fault)
        → run_arguments (rows_of (found_of matches.now)) ≡ None) }
{
    let level = read_level_option(alloc, matches)?;
    let turns = read_turns_option(alloc, matches)?;
    let pause = read_pause_option(alloc, matches)?;
    let result = read_result(alloc, matches)?;
    let brief = read_brief(alloc, matches)?;
    let trace_size = read_trace_size(alloc, matches)?;
    let trace_keep = read_trace_keep(alloc, matches)?;
    let respawn_delay = read_respawn_delay(alloc, matches)?;
    Ok(RunWords {
        inittab: String::from_str(alloc, value_of(matches, "--inittab"))?,
        inittab_dir: read_path(alloc, matches, "--inittab-dir")?,
        initctl: String::from_str(alloc, value_of(matches, "--initctl"))?,
        fresh: is_set(matches, "--fresh"),
        state: String::from_str(alloc, value_of(matches, "--state"))?,
        trace: read_path(alloc, matches, "--trace")?,
        brief,
        trace_size,
        trace_keep,
        judge: is_set(matches, "--judge"),
        level,
        turns,
        drain: is_set(matches, "--drain"),
        names_end: names_end(matches),
        pause,
        result,
        verbose: is_set(matches, "--verbose"),
        logs: read_path(alloc, matches, "--logs")?,
        groups: is_set(matches, "--groups"),
        respawn_delay,
        strict: is_set(matches, "--strict"),
        stamp: is_set(matches, "--stamp"),
        bell: is_set(matches, "--bell"),
        watch: is_set(matches, "--watch"),
    })
}

/// Reads `--level`, if it is given.
pub(crate) fn read_level_option(
    alloc: Global,
    matches: &ArgMatches,
) -> Result<Option<Level>, WordFault>
    ensures ok { IfOk result (λ level.
        level_option (rows_of (found_of matches.now)) ≡ Some level) }
    ensures usage { IfErr result (λ fault. IsSome (reason_of fault)
        → level_option (rows_of (found_of matches.now)) ≡ None) }
{
    let Some(word) = word_of(matches, "--level") else {
        return Ok(None);
    };
    let level = checked(alloc, "--level", word, read_level(word), "not a runlevel")?;
    Ok(Some(level))
}

/// Reads a runlevel of one character.
fn read_level(word: &str) -> Option<Level>
    ensures { result ≡ level_word_read word.now }
{
    Level::read(only_byte(word)?)
}

/// Reads the maximum number of turns from `--turns` or `--forever`, which cannot be combined.
fn read_turns_option(alloc: Global, matches: &ArgMatches) -> Result<u64, WordFault>
    ensures ok { IfOk result (λ turns.
        turns_option (rows_of (found_of matches.now)) ≡ Some turns) }
    ensures usage { IfErr result (λ fault. IsSome (reason_of fault)
        → turns_option (rows_of (found_of matches.now)) ≡ None) }
{
    let forever = is_set(matches, "--forever");
    match word_of(matches, "--turns") {
        None => Ok(if forever { FOREVER } else { TURNS_DEFAULT }),
        Some(word) if forever => Err(refused(
            alloc,
            "--turns",
            word,
            "cannot be combined with --forever",
        )),
        Some(word) => checked(
            alloc,
            "--turns",
            word,
            read_turns(word),
            "not a number from 1 to 1000000000",
        ),
    }
}

/// Returns whether the end of the run is specified.
fn names_end(matches: &ArgMatches) -> bool
    ensures { result ≡ names_end (rows_of (found_of matches.now)) }
{
    word_of(matches, "--turns").is_some()
        || is_set(matches, "--forever")
        || is_set(matches, "--drain")
}

/// Returns a word without its leading zeros.
fn without_zeros(word: &[u8]) -> &[u8]
    ensures { result.now ≡ without_zeros word.now }
{
    let mut rest = word;
    while let [b'0', more @ ..] = rest {
        rest = more;
    }
    rest
}

/// Reads a number of turns, 1 to 1,000,000,000.
fn read_turns(word: &str) -> Option<u64>
    ensures { result ≡ turns_read word.now }
{
    let turns = read_below(without_zeros(word.as_bytes()), TURNS_LIMIT + 1)?;
    if turns > 0 { Some(turns) } else { None }
}

/// Reads `--pause`, and returns hundredths of a second.
fn read_pause_option(alloc: Global, matches: &ArgMatches) -> Result<u64, WordFault>
    ensures ok { IfOk result (λ pause.
        pause_option (rows_of (found_of matches.now)) ≡ Some pause) }
    ensures usage { IfErr result (λ fault. IsSome (reason_of fault)
        → pause_option (rows_of (found_of matches.now)) ≡ None) }
{
    let Some(word) = word_of(matches, "--pause") else {
        return Ok(pause_default(matches));
    };
    checked(
        alloc,
        "--pause",
        word,
        read_pause(word.as_bytes()),
        "not between 0.01 and 60 seconds",
    )
}

/// Returns the default of the longest pause, in hundredths of a second.
fn pause_default(matches: &ArgMatches) -> u64
    ensures { result ≡ pause_default (rows_of (found_of matches.now)) }
{
    if is_set(matches, "--watch") && is_set(matches, "--bell") {
        PAUSE_LIMIT
    } else {
        PAUSE_DEFAULT
    }
}

/// Reads a decimal number of seconds, 0.01 to 60, with at most two digits after the point, and returns hundredths.
fn read_pause(word: &[u8]) -> Option<u64>
    ensures { result ≡ pause_read word.now }
{
    let length = read_hundredths(word)?;
    if 0 < length && length <= PAUSE_LIMIT {
        Some(length)
    } else {
        None
    }
}

/// Reads a decimal number of seconds, and returns hundredths.
fn read_hundredths(word: &[u8]) -> Option<u64>
    ensures { result ≡ hundredths_read word.now }
{
    let Some((whole, part)) = cut(b'.', word) else {
        return Some(read_below(word, PAUSE_SECONDS + 1)? * 100);
    };
    let seconds = read_whole(whole)?;
    Some(seconds * 100 + read_part(part)?)
}

/// Reads the number before the point, which is 0 if there is none.
fn read_whole(digits: &[u8]) -> Option<u64>
    ensures bound { IfSome result (λ whole. whole ≤ 60) }
    ensures value { result ≡ whole_read digits.now }
{
    match digits {
        [] => Some(0),
        _ => read_below(digits, PAUSE_SECONDS + 1),
    }
}

/// Reads one or two digits after the point, and returns hundredths.
fn read_part(digits: &[u8]) -> Option<u64>
    ensures bound { IfSome result (λ part. part < 100) }
    ensures value { result ≡ part_read digits.now }
{
    match digits {
        [tenth] => Some(read_digit(*tenth)? * 10),
        [tenth, hundredth] => Some(read_digit(*tenth)? * 10 + read_digit(*hundredth)?),
        _ => None,
    }
}

/// Reads a digit.
fn read_digit(byte: u8) -> Option<u64>
    ensures bound { IfSome result (λ number. number < 10) }
    ensures value { result ≡ digit_read byte }
{
    if byte.is_ascii_digit() {
        Some((byte - b'0') as u64)
    } else {
        None
    }
}

/// Reads `--brief`, which requires `--trace`.
fn read_brief(alloc: Global, matches: &ArgMatches) -> Result<bool, WordFault>
    ensures ok { IfOk result (λ brief.
        brief_option (rows_of (found_of matches.now)) ≡ Some brief) }
    ensures usage { IfErr result (λ fault. IsSome (reason_of fault)
        → brief_option (rows_of (found_of matches.now)) ≡ None) }
{
    let brief = is_set(matches, "--brief");
    if brief && word_of(matches, "--trace").is_none() {
        let reason = String::from_str(alloc, "--brief requires --trace")?;
        return Err(WordFault::Usage(reason));
    }
    Ok(brief)
}

/// Reads `--trace-size`, if it is given, which requires `--trace`.
fn read_trace_size(alloc: Global, matches: &ArgMatches) -> Result<Option<u64>, WordFault>
    ensures ok { IfOk result (λ size.
        size_given (rows_of (found_of matches.now)) ≡ Some size) }
    ensures usage { IfErr result (λ fault. IsSome (reason_of fault)
        → size_given (rows_of (found_of matches.now)) ≡ None) }
{
    let Some(word) = word_of(matches, "--trace-size") else {
        return Ok(None);
    };
    if word_of(matches, "--trace").is_none() {
        return Err(refused(alloc, "--trace-size", word, "requires --trace"));
    }
    let size = checked(
        alloc,
        "--trace-size",
        word,
        read_size(word.as_bytes()),
        "not a size from 4K to 1024G",
    )?;
    Ok(Some(size))
}

/// Reads `--trace-keep`, if it is given, which requires `--trace-size`.
fn read_trace_keep(alloc: Global, matches: &ArgMatches) -> Result<Option<u64>, WordFault>
    ensures ok { IfOk result (λ keep.
        keep_given (rows_of (found_of matches.now)) ≡ Some keep) }
    ensures usage { IfErr result (λ fault. IsSome (reason_of fault)
        → keep_given (rows_of (found_of matches.now)) ≡ None) }
{
    let Some(word) = word_of(matches, "--trace-keep") else {
        return Ok(None);
    };
    if word_of(matches, "--trace-size").is_none() {
        return Err(refused(alloc, "--trace-keep", word, "requires --trace-size"));
    }
    let keep = checked(
        alloc,
        "--trace-keep",
        word,
        read_keep(word.as_bytes()),
        "not a number from 1 to 1000000000",
    )?;
    Ok(Some(keep))
}

/// Reads a number of files, which is at least one.
fn read_keep(word: &[u8]) -> Option<u64>
    ensures { result ≡ keep_read word.now }
{
    let keep = read_below(word, KEEP_LIMIT + 1)?;
    if 0 < keep { Some(keep) } else { None }
}

/// Reads a number of bytes, or of kibibytes, mebibytes or gibibytes if followed by K, M or G.
fn read_size(word: &[u8]) -> Option<u64>
    ensures { result ≡ size_read word.now }
{
    let size = read_number(word)
        .or(read_units(word, b'K', 1_024))
        .or(read_units(word, b'M', 1_048_576))
        .or(read_units(word, b'G', 1_073_741_824))?;
    if SIZE_LEAST <= size && size <= SIZE_MOST {
        Some(size)
    } else {
        None
    }
}

/// Reads a number followed by a letter, and returns that number of units in bytes.
fn read_units(word: &[u8], letter: u8, unit: u64) -> Option<u64>
    requires { unit ≤ 1073741824 }
    ensures { result ≡ units_read letter unit word.now }
{
    let (digits, rest) = cut(letter, word)?;
    let number = read_below(digits, UNITS_LIMIT)?;
    if rest.is_empty() {
        Some(number * unit)
    } else {
        None
    }
}

/// Reads `--respawn-delay`, if it is given.
fn read_respawn_delay(alloc: Global, matches: &ArgMatches) -> Result<Option<u16>, WordFault>
    ensures ok { IfOk result (λ delay.
        delay_given (rows_of (found_of matches.now)) ≡ Some delay) }
    ensures usage { IfErr result (λ fault. IsSome (reason_of fault)
        → delay_given (rows_of (found_of matches.now)) ≡ None) }
{
    let Some(word) = word_of(matches, "--respawn-delay") else {
        return Ok(None);
    };
    let delay = checked(
        alloc,
        "--respawn-delay",
        word,
        read_delay(word.as_bytes()),
        "not a number from 1 to 3600",
    )?;
    Ok(Some(delay))
}

/// Reads a delay in seconds, which is at least one.
fn read_delay(word: &[u8]) -> Option<u16>
    ensures { result ≡ delay_read word.now }
{
    let delay = read_below(word, DELAY_LIMIT + 1)?;
    if 0 < delay { Some(delay as u16) } else { None }
}

/// Reads `--result`, if it is given.
fn read_result(alloc: Global, matches: &ArgMatches) -> Result<Option<Id>, WordFault>
    ensures ok { IfOk result (λ entry.
        result_option (rows_of (found_of matches.now)) ≡ Some entry) }
    ensures usage { IfErr result (λ fault. IsSome (reason_of fault)
        → result_option (rows_of (found_of matches.now)) ≡ None) }
{
    let Some(word) = word_of(matches, "--result") else {
        return Ok(None);
    };
    let id = checked(
        alloc,
        "--result",
        word,
        Id::read(word.as_bytes()),
        "not an id",
    )?;
    Ok(Some(id))
}
