//! Carries out `initd run`: prepares the run, and makes its turns.

ghost use Rattle.std.specs.Prelude.{not, ◌≡◌, ◌≢◌, ◌∷◌, ◌++◌, ◌&&◌, if◌then◌else◌, ℕ, true, List, None, Some, [], is_some, option_map, unwrap_or, IfErr, IfOk, IfSome, OnErr, OnOk};
ghost use Rattle.initd_command.specs.Words.{KnownTexts, NamedText, Entry, NewCallsSatisfy, IsStartOver, RunArguments, run_of};
ghost use Rattle.initd_command.specs.Endings.{Ending, Reports, ReportsObstacle, RunRemarks, obstacle_status, status_of, turned};
ghost use Rattle.initd_command.specs.Ran.{HasSettings, MakesLogged, MakesTraced, RanBy};
ghost use Rattle.initd_command.specs.Turned.{End, ReportsEnd, end_status};
ghost use Rattle.initd_command.specs.Services.{AreDistinctPaths, AreFiles, EndsRun, EndsServed, EndsTold, HasInittab, IsRunObstacle, IsInittab, IsReadOf, AppearInOrder, TakesParts, is_taken, has_no_level, run_paths, table_in, told_of};

use crate::ends::report_end;
use crate::hosts::Hosts;
use crate::inherited::{refuse_unwaited, tell_ignored};
use crate::logs::NoLog;
use crate::reports::{
    report_busy, report_cannot, report_fault, report_flawed, report_memory, report_shared,
    report_too_many, report_unlisted, report_unwaited, report_where, tell,
};
use crate::watchers::Progress;
use host_calls::Host;
use host_files::{FolderFault, SkippedFileListener, with_folder};
use host_lines::TellingRuntime;
use host_messages::{StampedPrinter, faults_text, tell_passed};
use init_words::{Id, Level, Memory, Part};
use initd_options::RunWords;
use inittab_text::{Table, TableFault, read_parts};
use program_io::{
    ChannelLock, DEVICE_FAULT, Reporter, Texts, are_one_file, file_size_limit, lock_channel,
    lock_holder, refuse_special,
};
use simulator::SimFault;
use std::alloc::{AllocError, Global};
use std::fs::{File, OpenOptions, canonicalize, metadata, remove_file};
use std::io;
use std::io::{ErrorKind, Write};
use std::os::unix::fs::OpenOptionsExt;
use std::process::Processes;
use std::rt::{Clock, Files};
use supervisor::{Edge, Opening, Served};
use trace_files::{FileLog, TraceFiles, Traces, takes_lock};
use trace_log::EndedLog;
use trace_log_wrappers::{BriefLog, NotingLog};

/// The report if the faults of the inittab's lines could not be written.
const UNTOLD: &str = "initd: the faults of the inittab could not be written\n";

/// The report at the end of a run if its host could not print all its output.
const UNPRINTED: &str = "initd: some announcements could not be written\n";

/// The report at the start if neither the arguments nor the inittab name a level.
const UNLED: &str = "initd: the inittab has no initdefault level and --level is not given; going \
    to level S\n";

/// The report at the start if no option specifies the end of the run.
const CAPPED: &str = "initd: this run stops after 1000000 turns (a day or more when idle); use \
    --forever to remove the limit\n";

/// The mode of a new trace. Other users must not read it, because a user who can read a trace can take its lock.
const MODE: u32 = 0o600;

/// An obstacle: the reason why a command is rejected, or cannot continue, before it writes anything.
#[derive(Drop)]
pub(crate) enum Obstacle {
    /// No child can be waited for, because CHLD is ignored.
    Unwaited,
    /// The file or the folder at this path could not be read.
    Unread(String, io::Error),
    /// Memory allocation failed.
    Memory,
    /// The inittab has too many files.
    TooMany,
    /// The inittab is too long.
    TooLong,
    /// An inittab that must have no faults has some, which these lines report.
    Flawed(Vec<u8>),
    /// The inittab has no entry with this id, which `--result` names.
    Unlisted(Id),
    /// Another process holds the lock of the file at this path, the channel or the trace. The name and number of the
    /// process are given if they are known.
    Busy(String, Option<String>),
    /// These two paths of the run lead to the same file.
    Shared(String, String),
    /// The channel at this path could not be created, opened or locked.
    Unlocked(String, io::Error),
    /// The trace at this path could not be opened or created.
    Uncreated(String, io::Error),
}

impl From<AllocError> for Obstacle {
    ghost use Rattle.std.specs.Prelude.{◌≡◌};
    ghost use Rattle.initd_command.specs.declared.run.Obstacle.TheVariants.{Memory as NoRoom};

    ghost from_gives = { λ _ fault. fault ≡ NoRoom };

    fn from(_error: AllocError) -> Obstacle {
        Obstacle::Memory
    }
}

/// An inittab that was read: its table, and the lines that report its faults.
#[derive(Drop)]
struct Inittab {
    table: Table,
    faults: Vec<u8>,
}

/// A run before its first turn.
#[derive(Drop)]
struct Run<H> {
    opening: Opening,
    host: H,
    /// The file of the trace, if one is to be written.
    trace: Option<File>,
    /// The lines that report the faults of the inittab.
    faults: Vec<u8>,
    /// Whether neither the arguments nor the table name a level.
    has_no_level: bool,
}

/// Runs init over the operating system: reads the inittab, opens the trace, takes the lock of the channel, and makes
/// the turns.
pub(crate) fn run_files<R, T: Texts, H: Host + Drop, S: Hosts<H>, F: Traces, W: Write, E: Reporter>(
    rt: &R,
    texts: &T,
    hosts: &mut S,
    traces: &mut F,
    alloc: Global,
    options: &RunWords,
    out: &mut W,
    err: &mut E,
) -> u8
where
    R: Processes + Files<File = File> + Alloc + Eprint + Clock,
    ensures { (ending : Ending) × (result ≡ status_of ending)
        × EndsRun (T.text_at texts.now) (run_of options.now) ending
        (W.contents out.old) (W.contents out.new)
        × Reports ending (E.reports err.old) (E.reports err.new)
        × RanBy (T.text_at texts.now) (run_of options.now) (S.conforms hosts.new) ending
        (record {
          opened = S.opened hosts.old;
          calls = S.told hosts.old;
          trace = F.told traces.old;
          out = W.contents out.old;
        })
        (record {
          opened = S.opened hosts.new;
          calls = S.told hosts.new;
          trace = F.told traces.new;
          out = W.contents out.new;
        }) }
{
    match open_run(rt, texts, hosts, alloc, options) {
        Ok(run) => make_run(rt, hosts, traces, alloc, options, run, out, err),
        Err(why) => report_obstacle(alloc, &why, err),
    }
}

/// Prepares a run. If the run is rejected, nothing is written, and a channel or trace that it created is removed.
fn open_run<R, T: Texts, H: Host + Drop, S: Hosts<H>>(
    rt: &R,
    texts: &T,
    hosts: &mut S,
    alloc: Global,
    options: &RunWords,
) -> Result<Run<H>, Obstacle>
where
    R: Processes + Files<File = File> + Alloc + Eprint,
    ensures ok { IfOk result (λ run. HasInittab (T.text_at texts.now) (run_of options.now)
        (λ parts. (run.faults.items ≡ told_of parts)
        × (run.has_no_level ≡ has_no_level options.now.level (table_in parts))
        × TakesParts (run_of options.now) parts
        × IsStartOver options.now.level (table_in parts) run.opening)) }
    ensures apart { OnOk result (AreDistinctPaths (run_paths (run_of options.now))) }
    ensures host { IfOk result (λ run. H.told run.host ≡ S.told hosts.old) }
    ensures settings { IfOk result (λ run.
        HasSettings (run_of options.now) (H.settings run.host)) }
    ensures opened { OnOk result (NewCallsSatisfy (S.opened hosts.old) (S.opened hosts.new)
        (λ saids. saids ≡ run_of options.now ∷ [])) }
    ensures trace { IfOk result (λ run.
        is_some run.trace ≡ is_some (run_of options.now).trace) }
    ensures err { IfErr result (IsRunObstacle (T.text_at texts.now) (run_of options.now)) }
    ensures unasked { OnErr result (S.told hosts.new ≡ S.told hosts.old) }
{
    refuse_unwaited(rt, alloc)?;
    refuse_shared(rt, alloc, options)?;
    let Inittab { table, faults } = read_inittab(rt, texts, alloc, options)?;
    let has_no_level = has_no_level(options.level, &table);
    let Ok(opening) = Opening::new(alloc, table, options.level) else {
        return Err(Obstacle::Memory);
    };
    let (trace, made_trace) = open_trace(rt, alloc, options)?;
    let host = match open_host(rt, hosts, alloc, options) {
        Ok(host) => host,
        Err(fault) => {
            remove_made(rt, trace_of(options), made_trace);
            return Err(fault);
        }
    };
    Ok(Run {
        opening,
        host,
        trace,
        faults,
        has_no_level,
    })
}

/// Opens the host, with the lock of the channel.
fn open_host<R: Files<File = File> + Alloc, H: Host + Drop, S: Hosts<H>>(
    rt: &R,
    hosts: &mut S,
    alloc: Global,
    options: &RunWords,
) -> Result<H, Obstacle>
    ensures host { IfOk result (λ host. H.told host ≡ S.told hosts.old) }
    ensures settings { IfOk result (λ host. HasSettings (run_of options.now) (H.settings host)) }
    ensures opened { OnOk result (NewCallsSatisfy (S.opened hosts.old) (S.opened hosts.new)
        (λ saids. saids ≡ run_of options.now ∷ [])) }
    ensures unasked { OnErr result (S.told hosts.new ≡ S.told hosts.old) }
    ensures err { (text_at : KnownTexts)
        → IfErr result (IsRunObstacle text_at (run_of options.now)) }
{
    let path = options.initctl.as_str();
    let lock = match lock_channel(rt, path) {
        Ok(Some(lock)) => lock,
        Ok(None) => return Err(Obstacle::Busy(
            options.initctl.clone()?,
            lock_holder(rt, alloc, path),
        )),
        Err(error) => return Err(Obstacle::Unlocked(options.initctl.clone()?, error)),
    };
    let was_made = lock.was_made();
    match hosts.open(alloc, options, lock) {
        Ok(host) => Ok(host),
        Err(Memory) => {
            remove_made(rt, path, was_made);
            Err(Obstacle::Memory)
        }
    }
}

/// Removes a file if the run created it. If a symbolic link leads to the file, the link stays.
fn remove_made<R: Files + Alloc>(rt: &R, path: &str, was_made: bool) {
    if !was_made {
        return;
    }
    if let Ok(file) = canonicalize(rt, path) {
        let _ = remove_file(rt, file);
    }
}

/// Returns whether neither the arguments nor the table name a level.
fn has_no_level(level: Option<Level>, table: &Table) -> bool
    ensures { result ≡ has_no_level level table.now }
{
    match level {
        Some(_) => false,
        None => table.default_level().is_none(),
    }
}

/// Rejects a run if two of its paths lead to the same file, because the data written to one would overwrite the other.
fn refuse_shared<R: Files>(rt: &R, alloc: Global, options: &RunWords) -> Result<(), Obstacle>
    ensures refused { (text_at : KnownTexts)
        → IfErr result (IsRunObstacle text_at (run_of options.now)) }
    ensures apart { OnOk result (AreDistinctPaths (run_paths (run_of options.now))) }
{
    let inittab = options.inittab.as_str();
    let initctl = options.initctl.as_str();
    let state = options.state.as_str();
    let trace = trace_of(options);
    refuse_pair(rt, alloc, inittab, initctl)?;
    refuse_pair(rt, alloc, inittab, state)?;
    refuse_pair(rt, alloc, inittab, trace)?;
    refuse_pair(rt, alloc, initctl, state)?;
    refuse_pair(rt, alloc, initctl, trace)?;
    refuse_pair(rt, alloc, state, trace)
}

/// Rejects two paths that lead to the same file.
fn refuse_pair<R: Files>(rt: &R, alloc: Global, one: &str, other: &str) -> Result<(), Obstacle>
    ensures refused { (text_at : KnownTexts) (service : RunArguments)
        → AppearInOrder one.now other.now (run_paths service)
        → IfErr result (IsRunObstacle text_at service) }
    ensures apart { OnOk result (one.now ≢ other.now) }
{
    if !are_one_file(rt, one, other) {
        return Ok(());
    }
    let one = String::from_str(alloc, one)?;
    let other = String::from_str(alloc, other)?;
    Err(Obstacle::Shared(one, other))
}

/// Returns the folder of the inittab's further files, if the arguments name one.
pub(crate) fn folder_of(options: &RunWords) -> Option<&str>
    ensures { option_map (λ path. path.now) result ≡ (run_of options.now).inittab_dir }
{
    match &options.inittab_dir {
        Some(folder) => Some(folder.as_str()),
        None => None,
    }
}

/// Reports which files of the inittab's folder are ignored, if such reports are enabled.
#[derive(Clone, Copy)]
struct SkippedFileReporter {
    is_told: bool,
}

impl<R: Eprint> SkippedFileListener<R> for SkippedFileReporter {
    fn hear(&mut self, rt: &R, folder: &str, name: &[u8]) {
        if self.is_told {
            tell_passed(rt, folder, name);
        }
    }
}

/// Reads the files of the inittab.
fn files_of<R: Files + Eprint, T: Texts>(
    rt: &R,
    texts: &T,
    alloc: Global,
    options: &RunWords,
) -> Result<Vec<Part>, Obstacle>
    ensures ok { IfOk result (λ parts.
        AreFiles (T.text_at texts.now) (run_of options.now) parts.items) }
    ensures err { IfErr result (IsRunObstacle (T.text_at texts.now) (run_of options.now)) }
{
    let bytes = match texts.read_file(alloc, options.inittab.as_str()) {
        Ok(bytes) => bytes,
        Err(error) => return Err(Obstacle::Unread(
            options.inittab.clone()?,
            with_hint(options, error),
        )),
    };
    let name = String::from_str(alloc, options.inittab.as_str())?;
    let main_part = Part { name, bytes };
    let mut passed = SkippedFileReporter {
        is_told: options.verbose,
    };
    match with_folder(rt, alloc, main_part, folder_of(options), &mut passed) {
        Ok(parts) => Ok(parts),
        Err(FolderFault::Unread(path, error)) => Err(Obstacle::Unread(path, error)),
        Err(FolderFault::Memory) => Err(Obstacle::Memory),
    }
}

/// Returns the reason why the inittab was not read, with a hint for users who meant to give only the files of the
/// folder.
fn with_hint(options: &RunWords, error: io::Error) -> io::Error {
    if options.inittab_dir.is_none() || error.kind() != ErrorKind::NotFound {
        return error;
    }
    io::Error::new(
        ErrorKind::NotFound,
        "no such file; --inittab-dir needs it too, but it may be empty",
    )
}

/// Returns the inittab if the run accepts it: it has no faults, or the run is not strict; and it has an entry with the
/// id of `--result`, if that is given.
fn taken(options: &RunWords, inittab: Inittab) -> Result<Inittab, Obstacle>
    ensures ok { IfOk result (λ given. (given ≡ inittab)
        × (is_taken (run_of options.now) inittab.faults.items inittab.table ≡ true)) }
    ensures err { (text_at : KnownTexts) (parts : List NamedText)
        → AreFiles text_at (run_of options.now) parts → IsReadOf parts inittab
        → IfErr result (IsRunObstacle text_at (run_of options.now)) }
{
    if options.strict && !inittab.faults.is_empty() {
        return Err(Obstacle::Flawed(inittab.faults));
    }
    let Some(id) = options.result else {
        return Ok(inittab);
    };
    if inittab.table.get(&id).is_none() {
        return Err(Obstacle::Unlisted(id));
    }
    Ok(inittab)
}

/// Returns the table of the files of an inittab, and the lines that report their faults.
fn inittab_of(alloc: Global, parts: &[Part]) -> Result<Inittab, Obstacle>
    ensures ok { IfOk result (IsReadOf parts.now) }
    ensures err { (text_at : KnownTexts) (service : RunArguments)
        → AreFiles text_at service parts.now
        → IfErr result (IsRunObstacle text_at service) }
{
    match read_parts(alloc, parts) {
        Ok((table, faults)) => Ok(Inittab {
            table,
            faults: faults_text(alloc, parts, &faults)?,
        }),
        Err(TableFault::TooLong) => Err(Obstacle::TooLong),
        Err(TableFault::Parts) => Err(Obstacle::TooMany),
        Err(TableFault::Memory) => Err(Obstacle::Memory),
    }
}

fn read_inittab<R: Files + Eprint, T: Texts>(
    rt: &R,
    texts: &T,
    alloc: Global,
    options: &RunWords,
) -> Result<Inittab, Obstacle>
    ensures ok { IfOk result (IsInittab (T.text_at texts.now) (run_of options.now)) }
    ensures err { IfErr result (IsRunObstacle (T.text_at texts.now) (run_of options.now)) }
{
    let parts = files_of(rt, texts, alloc, options)?;
    let inittab = inittab_of(alloc, &parts)?;
    taken(options, inittab)
}

/// Opens the file of the trace without changing it, and takes its lock, if a trace is to be written. Also returns
/// whether the file was created.
fn open_trace<R: Files<File = File>>(
    rt: &R,
    alloc: Global,
    options: &RunWords,
) -> Result<(Option<File>, bool), Obstacle>
    ensures ok { IfOk result (λ opened.
        is_some opened.0 ≡ is_some (run_of options.now).trace) }
    ensures err { (text_at : KnownTexts)
        → HasInittab text_at (run_of options.now) (TakesParts (run_of options.now))
        → IfErr result (IsRunObstacle text_at (run_of options.now)) }
{
    let Some(path) = &options.trace else {
        return Ok((None, false));
    };
    match opened(rt, path.as_str()) {
        Ok((Some(file), was_made)) => Ok((Some(file), was_made)),
        Ok((None, _)) => Err(Obstacle::Busy(path.clone()?, lock_holder(rt, alloc, path.as_str()))),
        Err(error) => Err(Obstacle::Uncreated(path.clone()?, error)),
    }
}

/// Opens a file for writing without changing it, and takes its lock. Returns the file, or `None` if another run holds
/// the lock, and whether the file was created.
///
/// Outside of `/dev/`, a FIFO is rejected, because opening it would block until it has a reader, and so is a device.
fn opened<R: Files<File = File>>(rt: &R, path: &str) -> io::Result<(Option<File>, bool)> {
    if !path.starts_with("/dev/") {
        refuse_special(rt, path)?;
    }
    let was_missing = metadata(rt, path).is_err();
    let file = OpenOptions::new()
        .write(true)
        .create(true)
        .mode(MODE)
        .open(rt, path)?;
    if !takes_lock(&file) {
        return Ok((None, false));
    }
    Ok((Some(file), was_missing))
}

/// Reports an obstacle, and returns the exit status.
fn report_obstacle<E: Reporter>(alloc: Global, why: &Obstacle, err: &mut E) -> u8
    ensures status { result ≡ obstacle_status why.now }
    ensures reported { ReportsObstacle why.now (E.reports err.old) (E.reports err.new) }
{
    match why {
        Obstacle::Unwaited => report_unwaited(err),
        Obstacle::Unread(path, error) => report_cannot(alloc, "read", path.as_str(), error, err),
        Obstacle::Memory => report_memory(err),
        Obstacle::TooMany => report_too_many(err),
        Obstacle::TooLong => report_fault(alloc, &[], &SimFault::Table, err),
        Obstacle::Flawed(faults) => report_flawed(faults, err),
        Obstacle::Unlisted(id) => report_unlisted(alloc, id, err),
        Obstacle::Busy(path, holder) => report_busy(alloc, path.as_str(), holder, err),
        Obstacle::Shared(one, other) => report_shared(alloc, one.as_str(), other.as_str(), err),
        Obstacle::Unlocked(path, error) => report_cannot(alloc, "lock", path.as_str(), error, err),
        Obstacle::Uncreated(path, error) => {
            report_cannot(alloc, "create", path.as_str(), error, err)
        }
    }
}

/// Returns the path of the trace; empty if none is to be written.
pub(crate) fn trace_of(options: &RunWords) -> &str
    ensures { result.now ≡ unwrap_or (run_of options.now).trace [] }
{
    match &options.trace {
        Some(path) => path.as_str(),
        None => "",
    }
}

/// Writes the faults of the inittab's lines, and makes the turns. If these faults, or the output of the host, could
/// not be written, the exit status is 4.
fn make_run<R, H: Host + Drop, S: Hosts<H>, F: Traces, W: Write, E: Reporter>(
    rt: &R,
    hosts: &mut S,
    traces: &mut F,
    alloc: Global,
    options: &RunWords,
    run: Run<H>,
    out: &mut W,
    err: &mut E,
) -> u8
where
    R: Files<File = File> + Alloc + Eprint + Clock,
    requires { is_some run.trace ≡ is_some (run_of options.now).trace }
    ensures ended { (spoken : RunRemarks) × (spoken.unled ≡ run.has_no_level)
        × (spoken.capped ≡ not options.now.names_end) × (end : End)
        × (result ≡ status_of (turned spoken end))
        × EndsTold (run_of options.now) run.faults.items spoken.told end
        (W.contents out.old) (W.contents out.new)
        × Reports (turned spoken end) (E.reports err.old) (E.reports err.new)
        × (bytes : List ℕ) × (F.told traces.new ≡ F.told traces.old ++ bytes)
        × ((table : List Entry) → IsStartOver (run_of options.now).level table run.opening
        → NewCallsSatisfy (H.told run.host) (S.told hosts.new)
        (MakesTraced (run_of options.now) table end bytes)) }
    ensures conforms { S.conforms hosts.new (H.settings run.host) }
    ensures opened { S.opened hosts.new ≡ S.opened hosts.old }
{
    let Run {
        opening,
        host,
        trace,
        faults,
        has_no_level,
    } = run;
    let is_told = tell(&faults, out);
    report_where(!is_told, UNTOLD, err);
    report_where(has_no_level, UNLED, err);
    report_where(!options.names_end, CAPPED, err);
    tell_endless(rt, options);
    tell_limit(rt, options, &trace);
    tell_ignored(rt, alloc);
    let telling = TellingRuntime::new(rt, StampedPrinter::new(rt, alloc, options.stamp));
    let (status, host) = make_traced(&telling, traces, alloc, options, opening, host, trace, err);
    let is_printed = hosts.close(host);
    report_where(!is_printed, UNPRINTED, err);
    status_where(is_told, is_printed, status)
}

/// Returns this exit status if the faults were written and the host printed all its output, otherwise 4.
fn status_where(is_told: bool, is_printed: bool, status: u8) -> u8
    ensures { result ≡ (if is_told && is_printed then status else DEVICE_FAULT) }
{
    if is_told && is_printed {
        status
    } else {
        DEVICE_FAULT
    }
}

/// Reports that a run with `--result` and without `--drain` continues after its entry has ended.
fn tell_endless(rt: &impl Eprint, options: &RunWords) {
    match &options.result {
        Some(id) if !options.drain => {
            let id = id.as_str();
            let _ = eprintln!(rt;
                "initd: --result {id}: the run continues after {id} has ended; use --drain to end it"
            );
        }
        _ => {}
    }
}

/// Reports that the file size limit will end the trace, unless its files are put away before they reach the limit.
fn tell_limit(rt: &impl Eprint, options: &RunWords, trace: &Option<File>) {
    let (Some(file), Some(limit)) = (trace, file_size_limit()) else {
        return;
    };
    let is_put_away = options.trace_size.is_some_and(|size| size < limit);
    if !is_put_away && file.metadata().is_ok_and(|found| found.is_file()) {
        let path = trace_of(options);
        let _ = eprintln!(rt;
            "initd: {path}: ulimit -f limits it to {limit} bytes; use a smaller --trace-size"
        );
    }
}

/// Makes the turns, and writes the trace if there is a file for it.
fn make_traced<R: Files + Eprint, H: Host, F: Traces, E: Reporter>(
    rt: &R,
    traces: &mut F,
    alloc: Global,
    options: &RunWords,
    opening: Opening,
    host: H,
    trace: Option<File>,
    err: &mut E,
) -> (u8, H)
    requires { is_some trace ≡ is_some (run_of options.now).trace }
    ensures ended { (end : End) × (result.0 ≡ end_status end) × EndsServed (run_of options.now) end
        × ReportsEnd end (E.reports err.old) (E.reports err.new)
        × (bytes : List ℕ) × (F.told traces.new ≡ F.told traces.old ++ bytes)
        × ((table : List Entry) → IsStartOver (run_of options.now).level table opening
        → NewCallsSatisfy (H.told host) (H.told result.1)
        (MakesTraced (run_of options.now) table end bytes)) }
    ensures settings { H.settings result.1 ≡ H.settings host }
{
    let Some(file) = trace else {
        let (status, host, ()) = make_turns(rt, alloc, options, opening, host, NoLog {}, err);
        return (status, host);
    };
    let files = traces.open(file, options.trace_keep);
    let (status, host, files) = make_over(rt, alloc, options, opening, host, files, err);
    traces.close(files);
    (status, host)
}

/// Makes the turns with a log in the files of their trace, and returns these files, too.
fn make_over<R: Files + Eprint, H: Host, S: TraceFiles, E: Reporter>(
    rt: &R,
    alloc: Global,
    options: &RunWords,
    opening: Opening,
    host: H,
    files: S,
    err: &mut E,
) -> (u8, H, S)
    requires trace { is_some (run_of options.now).trace ≡ true }
    requires nothing { S.contents files ≡ Some [] }
    ensures ended { (end : End) × (result.0 ≡ end_status end) × EndsServed (run_of options.now) end
        × ReportsEnd end (E.reports err.old) (E.reports err.new)
        × ((bytes : List ℕ) → IfSome (S.contents result.2) (λ taken. taken ≡ bytes)
        → (table : List Entry) → IsStartOver (run_of options.now).level table opening
        → NewCallsSatisfy (H.told host) (H.told result.1)
        (MakesTraced (run_of options.now) table end bytes)) }
    ensures settings { H.settings result.1 ≡ H.settings host }
{
    let log = FileLog::new(rt, alloc, trace_of(options), files, options.trace_size);
    if options.brief {
        return make_turns(rt, alloc, options, opening, host, BriefLog::new(log), err);
    }
    make_turns(rt, alloc, options, opening, host, log, err)
}

/// Makes the turns of a run from its opening on, ends its log, and reports how the turns ended. Returns the exit
/// status, the host, and the remains of the log.
///
/// The exit status is 0, or that of the entry of `--result`, if the run ended drained; 3 at the limit of turns; and 4
/// if the log failed. With `--judge`, 0 and 3 are replaced by 2 if the run breaks a law, and by 4 if the judge ran out
/// of memory.
pub fn make_turns<R: Files + Eprint, H: Host, L: EndedLog, E: Reporter>(
    rt: &R,
    alloc: Global,
    options: &RunWords,
    opening: Opening,
    host: H,
    log: L,
    err: &mut E,
) -> (u8, H, L::Left)
    // There is an end of the run that determines the exit status and the reports. The calls made to the host are those
    // of init's turns over the table of the opening, which had this end. If the log was fresh, it had this end, too,
    // and when each call was made, the log had taken the whole trace up to that moment, or had failed.
    ensures ended { (end : End) × (result.0 ≡ end_status end) × EndsServed (run_of options.now) end
        × ReportsEnd end (E.reports err.old) (E.reports err.new)
        × ((table : List Entry) → IsStartOver (run_of options.now).level table opening
        → NewCallsSatisfy (H.told host) (H.told result.1)
        (MakesLogged L.state ((L.state log).taken [])
        (L.has_ended result.2) (run_of options.now) table end)) }
    ensures settings { H.settings result.1 ≡ H.settings host }
{
    let watched = NotingLog::new(rt, alloc, log, options.result, options.judge);
    let mut edge = Edge::new(host, watched);
    let mut watch = Progress::new(rt, alloc, options.verbose, options.initctl.as_str());
    let (served, core) = opening.serve(
        alloc,
        &mut edge,
        options.turns,
        options.drain,
        options.strict,
        &mut watch,
    );
    edge.law_of_calls();
    let (host, watched) = edge.into_parts();
    let (log, notes, found) = watched.into_parts();
    let (log_end, whole) = log.end();
    let served = ended_with(served, whole);
    let judgement = options.judge.then_some(found);
    let status = report_end(alloc, options, &served, &notes, &core, judgement, err);
    (status, host, log_end)
}

/// Returns how the turns ended, given whether their log was written in full when it was ended.
fn ended_with(served: Served, whole: bool) -> Served
    ensures { result ≡ record served { logged = served.logged && whole } }
{
    Served {
        logged: served.logged && whole,
        ..served
    }
}
