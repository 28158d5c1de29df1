//! A log that writes a trace to files.

ghost use Rattle.std.specs.Prelude.{◌≡◌, [], false, IfSome, OnOk, OnErr, IsTrue};
ghost use Rattle.std.specs.Io.KnownBytes.{Appends, Keeps};
ghost use Rattle.trace_text.specs.Lines.{event_text};
ghost use Rattle.supervisor.specs.Crashes.{is_of_idle_look};
ghost use Rattle.trace_files.specs.Filed.{AddsHappening, Filed, FilesUnchanged, MayFlush, Flushes, all_bytes, filed_state};

use crate::files::TraceFiles;
use crate::fronts::{drop_front, write_front};
use init_words::OrderKind;
use program_io::Reason;
use std::alloc::{Allocator, Global};
use std::io;
use std::io::ErrorKind;
use std::marker::Model;
use trace_events::{Handed, Happening, HappeningIn};
use trace_log::{EndedLog, Log, LogFault};
use trace_text::print_one;

/// The maximum number of bytes of a trace that are kept in memory while its file cannot be written.
const UNWRITTEN_LIMIT: usize = 1_048_576;

/// The number of bytes at which the buffered text of looks that found nothing is written.
const WRITE_LENGTH: usize = 16_384;

/// A log that writes a trace to files. The contents of the files, one after the other, are the trace.
///
/// If the file is no longer at its path after init has re-executed, the trace continues in a new file at that path. If
/// a size limit is given, a file that has reached it is put away at the end of a turn. The text of looks that found
/// nothing is buffered, and written together with the next happening of another kind.
///
/// If a write fails, the log reports this on standard error and keeps the text in memory until it can be written; it
/// then reports that nothing is missing from the trace. If more than a mebibyte would have to be kept, the log fails
/// and the trace ends. The trace is also incomplete if the file has not accepted all of the text when the log is ended.
#[derive(Drop)]
pub struct FileLog<'a, R, S> {
    rt: &'a R,
    alloc: Global,
    path: &'a str,
    files: S,
    unwritten: Vec<u8>,
    /// The error of the last write, if it failed.
    fault: Option<io::Error>,
    /// The length in bytes at which the file is put away, and the number by which it is raised after a failure.
    put_away_at: u64,
    step: u64,
    /// Whether the log has reported that it keeps bytes in memory.
    is_waiting: bool,
    failed: bool,
}

impl<'a, R, S> Model for FileLog<'a, R, S> {
    ghost use Rattle.std.specs.Prelude.{is_some};
    ghost use Rattle.trace_files.specs.Filed.{Filed};

    ghost Value = { Filed S };

    ghost view = { λ log. record {
      files = log.files;
      unwritten = log.unwritten.items;
      refused = is_some log.fault;
      failed = log.failed;
    } };
}

impl<'a, R: Eprint, S: TraceFiles> FileLog<'a, R, S> {
    /// Creates the log of the trace at `path`, using files to which nothing was written yet. If `size` is given, a file
    /// of at least that number of bytes is put away.
    pub fn new(
        rt: &'a R,
        alloc: Global,
        path: &'a str,
        files: S,
        size: Option<u64>,
    ) -> FileLog<'a, R, S>
        requires { IfSome (S.contents files) (λ bytes. bytes ≡ []) }
        ensures value { result
            ≡ record { files = files; unwritten = []; refused = false; failed = false } }
        ensures nothing { IfSome (S.contents files)
            (λ _. (filed_state S.contents result).taken []) }
    {
        let step = size.unwrap_or(u64::MAX);
        FileLog {
            rt,
            alloc,
            path,
            files,
            unwritten: Vec::new(alloc),
            fault: None,
            put_away_at: step,
            step,
            is_waiting: false,
            failed: false,
        }
    }

    /// Writes a happening, and continues in a new file if one is due.
    fn write<B: Allocator>(&mut self, happening: &HappeningIn<B>) -> Result<(), LogFault>
        ensures ok { OnOk result
            ((mid : Filed S) × (more : Filed S) × MayFlush S.contents self.old mid
            × AddsHappening S.contents mid more happening.now
            × FilesUnchanged S.contents more self.new) }
        ensures err { OnErr result (MayFlush S.contents self.old self.new) }
    {
        if matches!(happening, Happening::Clock(_)) {
            self.put_away();
        }
        if let Err(fault) = self.add(happening) {
            self.tell_failed(fault);
            return Err(fault);
        }
        self.tell_waiting();
        if matches!(happening, Happening::Handed(Handed::Whole)) {
            self.begin_anew();
        }
        Ok(())
    }

    /// Returns whether the text of a happening may be buffered, because it belongs to a look that found nothing. The
    /// next reading of the clock, or an earlier happening of another kind, causes it to be written.
    fn can_wait<B: Allocator>(&self, happening: &HappeningIn<B>) -> bool
        ensures { IsTrue result → IsTrue (is_of_idle_look happening.now) }
    {
        let is_idle = match happening {
            Happening::Asked(_, OrderKind::Look) | Happening::Still(_) => true,
            Happening::Told(_) => !self.unwritten.is_empty(),
            _ => false,
        };
        is_idle && self.unwritten.len() < WRITE_LENGTH
    }

    /// Writes the text of a happening, or keeps it in memory. Fails if too many bytes are kept already.
    fn add<B: Allocator>(&mut self, happening: &HappeningIn<B>) -> Result<(), LogFault>
        ensures ok { OnOk result (AddsHappening S.contents self.old self.new happening.now) }
        ensures err { OnErr result (self.new ≡ self.old) }
    {
        let line = print_one(self.alloc, happening)?;
        let length = self.unwritten.len().saturating_add(line.len());
        if self.fault.is_some() && length > UNWRITTEN_LIMIT {
            return Err(LogFault::Device);
        }
        let can_wait = self.can_wait(happening);
        if self.unwritten.extend_from_slice(&line).is_err() {
            return Err(LogFault::Memory);
        }
        if !can_wait {
            self.catch_up();
        }
        Ok(())
    }

    /// Writes the bytes kept in memory, as far as the file accepts them.
    fn catch_up(&mut self)
        ensures { Flushes S.contents self.old self.new }
    {
        if let Err(error) = self.files.begin(self.path) {
            self.fault = Some(error);
            return;
        }
        let (count, fault) = write_front(&mut self.files, &self.unwritten);
        drop_front(&mut self.unwritten, count);
        self.fault = fault;
    }

    /// Reports that bytes are kept in memory because a write failed, and later that they have been written.
    fn tell_waiting(&mut self)
        ensures { self.new ≡ self.old }
    {
        let path = self.path;
        match &self.fault {
            Some(error) if !self.is_waiting => {
                self.is_waiting = true;
                let _ = eprintln!(self.rt;
                    "initd: cannot write the trace {path}: {}; up to 1,048,576 bytes of it are kept until there is room",
                    Reason(error)
                );
            }
            None if self.is_waiting => {
                self.is_waiting = false;
                let _ = eprintln!(self.rt;
                    "initd: the trace {path} can be written again, and nothing of it is missing"
                );
            }
            _ => {}
        }
    }

    /// Reports why a happening could not be written.
    fn tell_failed(&self, fault: LogFault) {
        let path = self.path;
        let _ = match &self.fault {
            Some(error) => eprintln!(self.rt;
                "initd: cannot write the trace {path}: {}; init continues without it",
                Reason(error)
            ),
            None => eprintln!(self.rt;
                "initd: cannot write the trace {path}: {fault}; init continues without it"
            ),
        };
    }

    /// Reports why an old piece could not be removed.
    fn tell_untaken(&self, fault: &io::Error) {
        let path = self.path;
        let _ = eprintln!(self.rt;
            "initd: cannot remove old pieces of the trace {path}: {}; remove those that {path}.0.pieces lists as taken",
            Reason(fault)
        );
    }

    /// Continues in a new file if there is no file at the path.
    fn begin_anew(&mut self)
        ensures { FilesUnchanged S.contents self.old self.new }
    {
        let path = self.path;
        let _ = match self.files.begin_anew(path) {
            Ok(()) => {
                self.put_away_at = self.step;
                Ok(())
            }
            Err(error) if error.kind() != ErrorKind::AlreadyExists => eprintln!(self.rt;
                "initd: trace {path}: {}; it continues in the previous file",
                Reason(&error)
            ),
            Err(_) if self.is_waiting => eprintln!(self.rt;
                "initd: the trace {path} still cannot be written; rename the file and run telinit u to continue in a new one"
            ),
            Err(_) => Ok(()),
        };
    }

    /// Puts the file away as the next piece and continues in a new one, if the file is long enough and has accepted all
    /// of the text. If this fails, the log continues in the same file.
    fn put_away(&mut self)
        ensures { MayFlush S.contents self.old self.new }
    {
        if self.files.length() < self.put_away_at {
            return;
        }
        self.catch_up();
        if self.fault.is_some() {
            return;
        }
        let path = self.path;
        match self.files.put_away(path) {
            Ok(untaken) => {
                self.put_away_at = self.step;
                if let Some(fault) = &untaken {
                    self.tell_untaken(fault);
                }
            }
            Err(error) => {
                self.put_away_at = self.files.length().saturating_add(self.step);
                let _ = eprintln!(self.rt;
                    "initd: cannot rotate the trace {path}: {}; it continues in the same file",
                    Reason(&error)
                );
            }
        }
    }
}

impl<R: Eprint, S: TraceFiles> Log for FileLog<'_, R, S> {
    ghost use Rattle.std.specs.Prelude.{◌≡◌, true, false, is_err, OnOk, OnErr};
    ghost use Rattle.trace_events.specs.Range.{is_in_range};
    ghost use Rattle.trace_log.specs.Logs.{AcceptsHappening, Stays};
    ghost use Rattle.trace_files.specs.Filed.{filed_state};

    ghost state = { filed_state S.contents };

    fn take<B: Allocator>(&mut self, happening: &HappeningIn<B>) -> Result<(), LogFault> {
        let taken = self.write(happening);
        self.failed = taken.is_err();
        taken
    }

    fn failed(&self) -> bool {
        self.failed
    }
}

impl<R: Eprint, S: TraceFiles> EndedLog for FileLog<'_, R, S> {
    ghost use Rattle.trace_files.specs.Filed.{KnowsEnd};

    type Left = S;

    ghost has_ended = { λ files whole trace. KnowsEnd whole trace (S.contents files) };

    /// Returns the files, and whether they accepted the whole trace.
    fn end(mut self) -> (S, bool) {
        self.catch_up();
        let is_written = self.fault.is_none();
        if !is_written {
            self.tell_waiting();
        }
        let FileLog {
            rt: _,
            alloc: _,
            path: _,
            files,
            unwritten: _,
            fault: _,
            put_away_at: _,
            step: _,
            is_waiting: _,
            failed,
        } = self;
        (files, !failed && is_written)
    }
}
