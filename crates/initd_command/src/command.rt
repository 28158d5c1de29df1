//! The arguments of `initd`, and the commands that they name.

ghost use Rattle.std.specs.Prelude.{◌≡◌, map, option_map, string_bytes};
ghost use Rattle.initd_command.specs.Endings.{Ending, Reports, ReportsAll, ReportsRefused, status_of, usage_named, usage_of};
ghost use Rattle.initd_command.specs.Ran.{ArgumentsAsk};
ghost use Rattle.initd_command.specs.Runs.{ArgumentsEnd, EndsVersion};

use crate::check::check_files;
use crate::hosts::Hosts;
use crate::reports::{report, report_memory};
use crate::run::run_files;
use crate::simulate::simulate_files;
use command_words::{report_refused_words, write_version};
use host_calls::Host;
use initd_options::{WordFault, Words, read_words};
use program_io::{DEVICE_FAULT, DONE, REFUSED, Reporter, Texts, report_usage};
use std::alloc::Global;
use std::fs::File;
use std::io::Write;
use std::process::Processes;
use std::rt::{Clock, Files};
use trace_files::Traces;

/// The report if help with the command is requested.
const RUN_USAGE: &str = "usage: initd run [OPTION]..
  --inittab P      the inittab(5) to read; default: inittab
  --inittab-dir DIR
                   also read the files NAME.tab of DIR, after the inittab
  --initctl P      the file to which telinit appends requests; default: initctl
  --fresh          skip the requests that the file already holds
  --state P        the file that carries init's state when init re-executes
                   itself; default: initd.state
  --trace P        write a trace of the run to P; default: no trace
  --trace-size SIZE
                   when the trace reaches SIZE, 4K to 1024G, rename it to P.1,
                   P.2, .. and continue in a new file; K, M and G are 1024
                   bytes, 1024 K and 1024 M
  --trace-keep N   remove the oldest of these if there are more than N
  --brief          leave looks that found nothing and idle rounds out of the
                   trace; requires --trace
  --judge          judge each happening during the run, as check judges a trace,
                   and report a breach at once; the run then exits with status 2
                   instead of 0 or 3
  --level L        the runlevel to go to, 0 to 9, S or s; default: the inittab's
                   initdefault
  --turns N        stop after N turns, 1 to 1000000000; default: 1000000
  --forever        do not limit the turns; cannot be combined with --turns
  --drain          exit when nothing is left to do and nothing runs
  --pause SEC      the longest pause between two turns, 0.01 to 60 seconds, with
                   at most two decimals; default: 1, or 60 with --watch and
                   --bell; the pause is shorter after something happened, and
                   while looks at the children cost little and the trace has
                   none
  --result ID      exit with the last exit status of the entry ID instead of 0;
                   137 if it was killed, 4 if it never ended; an id that is not
                   in the inittab is rejected
  --verbose        report each start, end and signal of a child, each skipped
                   file of the inittab's folder, and each minute what an
                   unsettled stage is waiting for
  --logs DIR       write the output of each entry to a file of its own in DIR
  --groups         start each child in its own session, with setsid(1), and send
                   TERM and KILL to its process group
  --respawn-delay MAX
                   start a respawned entry after a delay, in seconds, that
                   doubles from 1 to MAX, 1 to 3600, until a child has run for
                   MAX seconds; default: no delay
  --strict         reject an inittab with faulty lines: at startup the run is
                   refused, later the previous inittab stays in force
  --stamp          put the time in front of each line printed during the run
  --bell           create the FIFO that telinit rings, P.bell beside the file of
                   requests, if it does not exist; requests are then read at
                   once
  --watch          watch the children by waitpid(1) or perl(1), so that the end
                   of one ends a pause
";

const SIMULATE_USAGE: &str = "usage: initd simulate [--level L] TABLE SCRIPT
  --level L        the runlevel to go to, 0 to 9, S or s; default: the inittab's
                   initdefault
  TABLE            an inittab(5)
  SCRIPT           what the system did, one happening per line
";

const CHECK_USAGE: &str = "usage: initd check [--growing] [--pieces] TRACE
  --growing        judge a trace that is still being written, up to its last
                   complete happening
  --pieces         also judge the pieces TRACE.1, TRACE.2, .. that were rotated
                   before it
  TRACE            the trace to judge
";

/// The end of the report if help without a command is requested; it follows the usage of all commands.
const VERSION_USAGE: &str = "usage: initd --version\n";

/// The usage that is reported for arguments that are not a command line, after the line with the reason.
pub const SHORT_USAGE: &str =
    "usage: initd run [OPTION].. | simulate TABLE SCRIPT | check TRACE | --help\n";

/// The report if the version could not be written.
const UNVERSIONED: &str = "initd: the version could not be written\n";

/// Runs initd with these arguments, without the program's name, and returns its exit status.
///
/// - 0: success
/// - 1: the arguments, the inittab, the script or a line of a trace were rejected
/// - 2: a trace, or a run with `--judge`, is unlawful
/// - 3: a run used up its turns
/// - 4: a file could not be read, the channel is in use, the trace or the output failed, or memory ran out
/// - for a run with `--result` that ends drained, the last status of that entry
///
/// The trace of a simulated run, the verdict on a trace, the faults of the inittab of a run, and the version are
/// written to `out`; faults are reported on `err`. A run makes its turns over a host from `hosts`, and writes its
/// trace to files from `traces`; it returns both to their sources.
pub fn run_words<R, T, H, S, F, W, E>(
    rt: &R,
    texts: &T,
    hosts: &mut S,
    traces: &mut F,
    alloc: Global,
    words: Vec<String>,
    out: &mut W,
    err: &mut E,
) -> u8
where
    R: Processes + Files<File = File> + Alloc + Eprint + Clock,
    T: Texts,
    H: Host + Drop,
    S: Hosts<H>,
    F: Traces,
    W: Write,
    E: Reporter,
    // There is an ending that determines the exit status (`status_of`), the text written to `out`, given the arguments
    // and the known texts (`ArgumentsEnd`), and the reports on `err` (`Reports`). A run that reaches its turns makes
    // exactly the calls of its turns to its host (`MakesTurns`). The files of its trace receive the text of the trace
    // of these calls (with `--brief`, of its brief form), or, if its log failed, a prefix of that text, and nothing
    // else. The property `conforms` of the source of hosts then holds; for hosts over the operating system it states
    // what the system was asked (`IsOfSystem`). Any other ending makes no call to a host and writes no trace
    // (`ArgumentsAsk`).
    ensures { (ending : Ending) × (result ≡ status_of ending)
        × ArgumentsEnd (T.text_at texts.now) (map string_bytes words.items) ending
        (W.contents out.old) (W.contents out.new)
        × Reports ending (E.reports err.old) (E.reports err.new)
        × ArgumentsAsk (T.text_at texts.now) (map string_bytes words.items)
        (S.conforms hosts.new) ending
        (record {
          opened = S.opened hosts.old;
          calls = S.told hosts.old;
          trace = F.told traces.old;
          out = W.contents out.old;
        })
        (record {
          opened = S.opened hosts.new;
          calls = S.told hosts.new;
          trace = F.told traces.new;
          out = W.contents out.new;
        }) }
{
    match read_words(alloc, words.as_slice()) {
        Ok(Words::Version) => tell_version(out, err),
        Ok(Words::Simulate(options)) => simulate_files(texts, alloc, &options, out, err),
        Ok(Words::Check(options)) => check_files(rt, texts, alloc, &options, out, err),
        Ok(Words::Run(options)) => run_files(rt, texts, hosts, traces, alloc, &options, out, err),
        Err(WordFault::Usage(reason)) => report_refused(words.as_slice(), reason.as_str(), err),
        Err(WordFault::Memory) => report_memory(err),
    }
}

/// Writes the version.
fn tell_version<W: Write, E: Reporter>(out: &mut W, err: &mut E) -> u8
    ensures { (ending : Ending) × (result ≡ status_of ending)
        × EndsVersion ending (W.contents out.old) (W.contents out.new)
        × Reports ending (E.reports err.old) (E.reports err.new) }
{
    if write_version("initd", out) {
        return DONE;
    }
    report(UNVERSIONED, err);
    DEVICE_FAULT
}

/// Reports why the arguments were rejected, with the short usage. If the reason is empty, because help was requested,
/// it reports the usage of the command that the arguments begin with, or of all commands.
fn report_refused<E: Reporter>(words: &[String], reason: &str, err: &mut E) -> u8
    ensures status { result ≡ REFUSED }
    ensures reported { ReportsRefused (usage_named (map string_bytes words.now)) reason.now
        (E.reports err.old) (E.reports err.new) }
{
    match usage_named(words) {
        Some(usage) => report_refused_words("initd", reason, usage, SHORT_USAGE, err),
        None if reason.is_empty() => report_all(err),
        None => report_refused_words("initd", reason, "", SHORT_USAGE, err),
    }
}

/// Returns the usage of the command that the arguments begin with.
fn usage_named(words: &[String]) -> Option<&'static str>
    ensures { option_map (λ usage. usage.now) result ≡ usage_named (map string_bytes words.now) }
{
    match words {
        [command, ..] => usage_of(command.as_str()),
        [] => None,
    }
}

fn usage_of(command: &str) -> Option<&'static str>
    ensures { option_map (λ usage. usage.now) result ≡ usage_of command.now }
{
    match command {
        "run" => Some(RUN_USAGE),
        "simulate" => Some(SIMULATE_USAGE),
        "check" => Some(CHECK_USAGE),
        _ => None,
    }
}

/// Reports the usage of all commands.
fn report_all<E: Reporter>(err: &mut E) -> u8
    ensures status { result ≡ REFUSED }
    ensures reported { ReportsAll (E.reports err.old) (E.reports err.new) }
{
    report(RUN_USAGE, err);
    report(SIMULATE_USAGE, err);
    report(CHECK_USAGE, err);
    report_usage(VERSION_USAGE, err)
}
