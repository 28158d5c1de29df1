//! Runs or prints the scripts to which the links of two runlevels lead.

ghost use Rattle.std.specs.Prelude.{◌≡◌, ◌≢◌, ◌++◌, ◌⊎◌, ◌↔◌, ℕ, true, false, codes, IfErr, IfOk, IfSome, IsSome, IsTrue, None, OnErr, OnOk, List, Option, map, string_bytes};
ghost use Rattle.host_calls.specs.Calls.{HostCall};
ghost use Rattle.host_calls.specs.Record.{NewCallsSatisfy};
ghost use Rattle.command_words.specs.CommandLines.{asks_version};
ghost use Rattle.command_words.specs.Rejections.{ReportsRejection};
ghost use Rattle.program_io.specs.Reports.{AppendsReport, LastReportNonempty};
ghost use Rattle.program_io.specs.Writing.{AppendsPrefix};
ghost use Rattle.command_words.specs.VersionLine.{PrintsVersion};
ghost use Rattle.rc_command.specs.CommandLine.{rc_read_of, arguments_of};
ghost use Rattle.rc_command.specs.Endings.{Asks, ForResolvedArguments, IsBefore, IsStatusOf, AllScriptsEnded, Keeps, Reports, ReportsEnd, ReportsFirst, ReportsNames, ReportsPart, RunsRequestedScripts, ParsedArgumentsSatisfy};
ghost use Rattle.rc_command.specs.LevelFiles.{AreSame};
ghost use Rattle.std.specs.Io.KnownBytes.{Appends};
ghost use Rattle.rc_driver.specs.Printing.{command_lines};
ghost use Rattle.rc_command.specs.Endings.{IsSilent, RunsNames, RunsArguments, RunsScripts, limit_text, rc_of, status_of};

use crate::command::{RunOptions, Words, entering, read_words};
use crate::folders::{Folders, folder_of, previous_names};
use crate::level_files::{LevelFiles, level_in};
use command_words::{is_version, print_version, report_rejected};
use host_calls::Host;
use init_words::{Level, Memory};
use program_io::{
    DEVICE_FAULT, DONE, LIMIT_REACHED, REFUSED, Reporter, report_failure, report_fault,
    report_no_memory,
};
use rc_driver::{LevelChange, Rc, RunEnd, ScriptOptions, print_links, run_links};
use std::alloc::Global;
use std::io::Write;

/// The maximum number of pauses in a run. A pause lasts a second at most; a single script reaches the limit after
/// about 27 hours.
pub const PAUSES_LIMIT: u32 = 100_000;

/// Exit status: all scripts were carried out, and one of them failed.
pub const SCRIPT_FAILED: u8 = 2;

/// The line that names the manual page. It follows the help, and each message about rejected arguments.
pub const MANUAL: &str = "See the manual page rc(8).\n";

/// Runs `rc` on a command line, without the program's name, and returns its exit status.
///
/// - 0: all scripts of NEW's folder were carried out, whatever their own statuses, or were printed; or the version was
///   written.
/// - 1: the arguments are rejected.
/// - 2: `--strict` is given, all scripts were carried out, and one failed.
/// - 3: a script has not ended after `PAUSES_LIMIT` pauses.
/// - 4: NEW's folder can't be listed, the previous level can't be read from its file or the new one can't be written
///   there, the output fails, or memory runs out.
///
/// If `--version` is the only argument, the version is written to `out`. Otherwise a line for each script is written
/// to `out`: at its end, with `-v` also at its start, and with `-n` the command that would start it. Faults are
/// reported on `err`. The children are those of the host, the folders are listed by `folders`, and the file of the
/// level is read and written by `levels`.
pub fn run_words<H, F, L, W, E>(
    host: &mut H,
    folders: &F,
    levels: &mut L,
    alloc: Global,
    words: Vec<String>,
    out: &mut W,
    err: &mut E,
) -> u8
where
    H: Host,
    F: Folders,
    L: LevelFiles,
    W: Write,
    E: Reporter,
    ensures statuses { AllScriptsEnded result ⊎ (result ≡ REFUSED) ⊎ (result ≡ LIMIT_REACHED)
        ⊎ (result ≡ DEVICE_FAULT) }
    ensures refused { result ≡ REFUSED → rc_read_of (map string_bytes words.items) ≡ None }
    ensures version { asks_version (map string_bytes words.items) ≡ true
        → PrintsVersion (codes "rc") result (W.contents out.old) (W.contents out.new) }
    ensures parsed { asks_version (map string_bytes words.items) ≡ false → AllScriptsEnded result
        → IsSome (rc_read_of (map string_bytes words.items)) }
    // The lines of all scripts of the two folders were written, and the status is the one for their ends.
    ensures done { asks_version (map string_bytes words.items) ≡ false → AllScriptsEnded result
        → Asks (L.file_at levels.old) (map string_bytes words.items) (λ arguments. Reports
        (F.names_at folders.now) arguments (W.contents out.old) result (W.contents out.new)) }
    // Nothing was written, or a prefix of those lines.
    ensures part { asks_version (map string_bytes words.items) ≡ false → (out.new ≡ out.old)
        ⊎ Asks (L.file_at levels.old) (map string_bytes words.items) (λ arguments. ReportsPart
        (F.names_at folders.now) arguments (W.contents out.old) (W.contents out.new)) }
    // Nothing was run and nothing was requested from the host; or `run_names` was called for the names in the two
    // folders, with the calls that the host recorded, and then the new level was saved.
    ensures ran { asks_version (map string_bytes words.items) ≡ false
        → (((result ≡ REFUSED) ⊎ (result ≡ DEVICE_FAULT)) × (out.new ≡ out.old)
        × (H.told host.new ≡ H.told host.old))
        ⊎ ParsedArgumentsSatisfy (map string_bytes words.items)
        (λ asked. RunsRequestedScripts (L.file_at levels.old)
        (F.names_at folders.now) asked (H.told host.old) (H.told host.new)
        (W.contents out.old) (E.reports err.old) result
        (W.contents out.new) (E.reports err.new)) }
    ensures unasked { asks_version (map string_bytes words.items) ≡ true
        → H.told host.new ≡ H.told host.old }
    // If all scripts were carried out, the given file contains the new level. Otherwise all files are unchanged.
    ensures kept { asks_version (map string_bytes words.items) ≡ false → AllScriptsEnded result
        → ParsedArgumentsSatisfy (map string_bytes words.items)
        (λ asked. Keeps asked (L.file_at levels.old) (L.file_at levels.new)) }
    ensures unkept { (asks_version (map string_bytes words.items) ≡ true)
        ⊎ (AllScriptsEnded result → ⊥)
        → AreSame (L.file_at levels.old) (L.file_at levels.new) }
    ensures report { result ≡ REFUSED
        → ReportsRejection MANUAL.now (E.reports err.old) (E.reports err.new) }
    ensures spoken { result ≡ DEVICE_FAULT → LastReportNonempty (E.reports err.new) }
{
    if is_version(words.as_slice()) {
        return print_version("rc", out, err);
    }
    match read_words(alloc, words.as_slice()) {
        Ok(arguments) => run_asked(host, folders, levels, alloc, &arguments, out, err),
        Err(fault) => report_rejected("rc", &fault, MANUAL, err),
    }
}

/// Runs the scripts for a command line and the previous level, and saves the new level.
fn run_asked<H: Host, F: Folders, L: LevelFiles, W: Write, E: Reporter>(
    host: &mut H,
    folders: &F,
    levels: &mut L,
    alloc: Global,
    arguments: &Words,
    out: &mut W,
    err: &mut E,
) -> u8
    ensures statuses { AllScriptsEnded result ⊎ (result ≡ LIMIT_REACHED) ⊎ (result ≡ DEVICE_FAULT) }
    ensures done { AllScriptsEnded result
        → ForResolvedArguments (L.file_at levels.old) (arguments_of arguments.now) (λ arguments.
        Reports (F.names_at folders.now) arguments (W.contents out.old) result
        (W.contents out.new)) }
    ensures part { (out.new ≡ out.old)
        ⊎ ForResolvedArguments (L.file_at levels.old) (arguments_of arguments.now) (λ arguments.
        ReportsPart (F.names_at folders.now) arguments (W.contents out.old) (W.contents out.new)) }
    ensures ran { ((result ≡ DEVICE_FAULT) × (out.new ≡ out.old)
        × (H.told host.new ≡ H.told host.old))
        ⊎ RunsRequestedScripts (L.file_at levels.old) (F.names_at folders.now)
        (arguments_of arguments.now)
        (H.told host.old) (H.told host.new) (W.contents out.old) (E.reports err.old) result
        (W.contents out.new) (E.reports err.new) }
    ensures kept { AllScriptsEnded result
        → Keeps (arguments_of arguments.now) (L.file_at levels.old) (L.file_at levels.new) }
    ensures unkept { (AllScriptsEnded result → ⊥)
        → AreSame (L.file_at levels.old) (L.file_at levels.new) }
    ensures spoken { result ≡ DEVICE_FAULT → LastReportNonempty (E.reports err.new) }
{
    let before = match level_before(levels, alloc, arguments, err) {
        Ok(before) => before,
        Err(status) => return status,
    };
    let change = LevelChange {
        before,
        new: arguments.new,
    };
    let options = entering(arguments.sysv, change, arguments.options);
    let dir = arguments.dir.as_str();
    let Ok(path) = folder_of(alloc, dir, arguments.new) else {
        return report_no_memory("rc", err);
    };
    let previous = match previous_names(folders, alloc, dir, before) {
        Ok(previous) => previous,
        Err(error) => return report_failure("rc", "cannot list", dir, &error, "", err),
    };
    let names = match folders.names(alloc, path.as_str()) {
        Ok(names) => names,
        Err(error) => return report_failure("rc", "cannot list", path.as_str(), &error, "", err),
    };
    let status = run_names(
        alloc,
        host,
        path.as_str(),
        &previous,
        &names,
        options,
        out,
        err,
    );
    keep_level(levels, alloc, arguments, status, err)
}

/// Returns the previous level, which is an argument or is in the given file. If the file contains no level, this is
/// reported, and the exit status is returned.
fn level_before<L: LevelFiles, E: Reporter>(
    levels: &L,
    alloc: Global,
    arguments: &Words,
    err: &mut E,
) -> Result<Option<Level>, u8>
    ensures ok { IfOk result
        (λ before. IsBefore (L.file_at levels.now) (arguments_of arguments.now) before) }
    ensures silent { OnOk result (err.new ≡ err.old) }
    ensures status { IfErr result (λ status. status ≡ DEVICE_FAULT) }
    ensures spoken { OnErr result (LastReportNonempty (E.reports err.new)) }
{
    let Some(path) = &arguments.level_file else {
        return Ok(arguments.previous);
    };
    match levels.read(alloc, path.as_str()) {
        Ok(None) => Ok(None),
        Ok(Some(text)) => match level_in(text.as_slice()) {
            Some(level) => Ok(Some(level)),
            None => Err(report_no_level(path.as_str(), err)),
        },
        Err(error) => {
            let rest = "; nothing was run: give PREV as an argument instead of --level-file";
            Err(report_failure("rc", "cannot read", path.as_str(), &error, rest, err))
        }
    }
}

/// The message about a file that has no runlevel, after its path.
const NO_LEVEL: &str =
    ": not a runlevel, 0 to 9 or S, and a newline; nothing was run: write the previous runlevel \
    into it, or remove it to mean N\n";

/// Reports that a file has no runlevel, and returns the exit status.
fn report_no_level<E: Reporter>(path: &str, err: &mut E) -> u8
    ensures status { result ≡ DEVICE_FAULT }
    ensures report { AppendsReport (E.reports err.old) (E.reports err.new)
        (codes "rc: " ++ (path.now ++ NO_LEVEL.now)) }
    ensures spoken { LastReportNonempty (E.reports err.new) }
{
    err.report_texts(&["rc: ", path, NO_LEVEL]);
    DEVICE_FAULT
}

/// Saves the new level in the given file if scripts were run and all were carried out, and returns the exit status.
fn keep_level<L: LevelFiles, E: Reporter>(
    levels: &mut L,
    alloc: Global,
    arguments: &Words,
    status: u8,
    err: &mut E,
) -> u8
    ensures status { IsStatusOf (arguments_of arguments.now).file status (E.reports err.old) result
        (E.reports err.new) }
    ensures kept { AllScriptsEnded result
        → Keeps (arguments_of arguments.now) (L.file_at levels.old) (L.file_at levels.new) }
    ensures unkept { (AllScriptsEnded result → ⊥)
        → AreSame (L.file_at levels.old) (L.file_at levels.new) }
    ensures spoken { (status ≡ DEVICE_FAULT → LastReportNonempty (E.reports err.old))
        → result ≡ DEVICE_FAULT → LastReportNonempty (E.reports err.new) }
{
    if arguments.options.dry || !is_whole(status) {
        return status;
    }
    let Some(path) = &arguments.level_file else {
        return status;
    };
    match levels.put(alloc, path.as_str(), &[arguments.new.code(), b'\n']) {
        Ok(()) => status,
        Err(error) => {
            let rest = "; all scripts were run, but it does not have the new level";
            report_failure("rc", "cannot write", path.as_str(), &error, rest, err)
        }
    }
}

/// Returns whether the exit status means that all scripts were carried out.
fn is_whole(status: u8) -> bool
    ensures { IsTrue result ↔ AllScriptsEnded status }
{
    status == DONE || status == SCRIPT_FAILED
}

/// Runs the scripts of the folder at `path` on a host, for the names in the folder of the previous level and in this
/// folder, and returns the exit status.
///
/// - 0: all scripts were carried out.
/// - 2: all scripts were carried out, one of them failed, and the exit status is to report that.
/// - 3: a script has not ended after `PAUSES_LIMIT` pauses.
/// - 4: the output fails, or memory runs out.
///
/// A line for each script is written to `out` at its end. Faults are reported on `err`, including the script that has
/// not ended, and each script that was sent a signal because its time limit had passed. In a dry run nothing is run:
/// the command that would start each script is written, and nothing is requested from the host.
pub fn run_names<H: Host, W: Write, E: Reporter>(
    alloc: Global,
    host: &mut H,
    path: &str,
    previous: &[String],
    names: &[String],
    options: RunOptions,
    out: &mut W,
    err: &mut E,
) -> u8
    ensures statuses { AllScriptsEnded result ⊎ (result ≡ LIMIT_REACHED) ⊎ (result ≡ DEVICE_FAULT) }
    ensures done { AllScriptsEnded result → ReportsNames options path.now
        (map string_bytes previous.now) (map string_bytes names.now) (W.contents out.old) result
        (W.contents out.new) }
    ensures part { (out.new ≡ out.old) ⊎ ReportsFirst options path.now
        (map string_bytes previous.now) (map string_bytes names.now) (W.contents out.old)
        (W.contents out.new) }
    ensures dry { options.dry ≡ true → host.new ≡ host.old }
    // There was no memory for the scripts, or they were run with the calls that the host recorded.
    ensures ran { ((result ≡ DEVICE_FAULT) × (out.new ≡ out.old) × (host.new ≡ host.old))
        ⊎ (options.dry ≡ false
        → NewCallsSatisfy (H.told host.old) (H.told host.new) (RunsNames options
        path.now (map string_bytes previous.now) (map string_bytes names.now)
        (W.contents out.old) (E.reports err.old) result (W.contents out.new)
        (E.reports err.new))) }
    ensures silent { AllScriptsEnded result → IsSilent options → err.new ≡ err.old }
    ensures spoken { result ≡ DEVICE_FAULT → LastReportNonempty (E.reports err.new) }
{
    let Ok(mut rc) = rc_of(alloc, options.way.levels, previous, names) else {
        return report_no_memory("rc", err);
    };
    if options.dry {
        print_all(alloc, &mut rc, path, options.way, out, err)
    } else {
        run_all(alloc, &mut rc, host, path, options, out, err)
    }
}

/// Returns the scripts to run for the names in two folders. If a change of level is given, they are the scripts that
/// sysv-rc would run.
fn rc_of<'n>(
    alloc: Global,
    levels: Option<LevelChange>,
    previous: &[String],
    names: &'n [String],
) -> Result<Rc<'n>, Memory>
    ensures { IfOk result (λ rc. rc
        ≡ rc_of levels (map string_bytes previous.now) (map string_bytes names.now)) }
{
    match levels {
        Some(change) => Rc::as_sysv(alloc, change, previous, names),
        None => Rc::new(alloc, previous, names),
    }
}

/// Runs scripts, and reports how their run ended.
fn run_all<'n, H: Host, W: Write, E: Reporter>(
    alloc: Global,
    rc: &mut Rc<'n>,
    host: &mut H,
    path: &str,
    options: RunOptions,
    out: &mut W,
    err: &mut E,
) -> u8
    requires { rc.old.waits ≡ false }
    ensures statuses { AllScriptsEnded result ⊎ (result ≡ LIMIT_REACHED) ⊎ (result ≡ DEVICE_FAULT) }
    ensures ran { NewCallsSatisfy (H.told host.old) (H.told host.new)
        (RunsScripts options path.now rc.old
        (W.contents out.old) (E.reports err.old) result (W.contents out.new)
        (E.reports err.new)) }
    ensures silent { AllScriptsEnded result → options.way.seconds ≡ None → err.new ≡ err.old }
    ensures spoken { result ≡ DEVICE_FAULT → LastReportNonempty (E.reports err.new) }
{
    let ended = run_links(alloc, rc, host, options.way, path, PAUSES_LIMIT, out, err);
    report_end(path, options.strict, ended, err)
}

/// Prints the commands of scripts, and reports how that ended.
fn print_all<'n, W: Write, E: Reporter>(
    alloc: Global,
    rc: &mut Rc<'n>,
    path: &str,
    way: ScriptOptions,
    out: &mut W,
    err: &mut E,
) -> u8
    requires { rc.old.waits ≡ false }
    ensures statuses { (result ≡ DONE) ⊎ (result ≡ DEVICE_FAULT) }
    ensures done { result ≡ DONE → Appends (W.contents out.old) (W.contents out.new)
        (command_lines way path.now rc.old.remaining) }
    ensures part { AppendsPrefix (W.contents out.old) (W.contents out.new)
        (command_lines way path.now rc.old.remaining) }
    ensures silent { result ≡ DONE → err.new ≡ err.old }
    ensures spoken { result ≡ DEVICE_FAULT → LastReportNonempty (E.reports err.new) }
{
    let ended = print_links(alloc, rc, way, path, out);
    report_end(path, false, ended, err)
}

/// Reports how a run of the folder at `path` ended, unless it is complete, and returns the exit status.
fn report_end<E: Reporter>(path: &str, strict: bool, ended: RunEnd, err: &mut E) -> u8
    requires { ended ≢ RunEnd.Waiting }
    ensures status { result ≡ status_of strict ended.entry }
    ensures report { ReportsEnd path.now ended.entry (E.reports err.old) (E.reports err.new) }
    ensures silent { AllScriptsEnded result → err.new ≡ err.old }
    ensures spoken { result ≡ DEVICE_FAULT → LastReportNonempty (E.reports err.new) }
{
    match ended {
        RunEnd::Done => DONE,
        RunEnd::Failed => failed_status(strict),
        RunEnd::Limit(link) => report_limit(path, link, err),
        RunEnd::Waiting => unreachable!(),
        RunEnd::Write => report_fault("rc", "cannot write", err),
        RunEnd::Memory => report_fault("rc", "out of memory", err),
    }
}

/// Returns the exit status if a script failed.
fn failed_status(strict: bool) -> u8
    ensures { result ≡ status_of strict RunEnd.Failed }
{
    if strict { SCRIPT_FAILED } else { DONE }
}

/// The message about a script that has not ended, after its link.
const RUNS_ON: &str = " has not ended after 100000 pauses of at most a second; it keeps running, \
    and no later script was run\n";

/// Reports that the limit of pauses is reached while a script runs, and returns the exit status.
fn report_limit<E: Reporter>(path: &str, link: &str, err: &mut E) -> u8
    ensures status { result ≡ LIMIT_REACHED }
    ensures report { AppendsReport (E.reports err.old) (E.reports err.new)
        (limit_text path.now link.now) }
{
    err.report_texts(&["rc: ", path, "/", link, RUNS_ON]);
    LIMIT_REACHED
}
