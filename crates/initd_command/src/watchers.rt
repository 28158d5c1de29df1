//! Reports between turns, on standard error: failed entries that init waited for, a channel whose folder is gone, and,
//! on request, what a stage waits for that has not been settled for a long time.

ghost use Rattle.std.specs.Prelude.{◌≡◌};
ghost use Rattle.initd_command.specs.Watching.{failed_end, failure_of, holds_child, was_not_stopped};

use core_waiting::waiting_lines;
use init_words::{Act, ChildNumber, Entry, Id, Stage, Status, lives};
use level_core::{Core, Slot};
use std::alloc::Global;
use std::io::ErrorKind;
use std::rt::Files;
use std::{fs, str};
use supervisor::TurnObserver;

/// The number of seconds for which a stage may be unsettled before a report says what it waits for.
const PATIENCE: u64 = 60;

/// Observes init between its turns.
#[derive(Drop)]
pub(crate) struct Progress<'a, R> {
    rt: &'a R,
    alloc: Global,
    /// Whether each end of a child is reported anyway, so that no separate reports of failures are needed; and whether
    /// the reports about unsettled stages are made.
    is_verbose: bool,
    stage: Option<Stage>,
    /// The time, in seconds, since which the stage has been unsettled, or at which the last report on an unsettled
    /// stage was made.
    since: u64,
    /// The children of entries that init waited for after the previous turn.
    waited: Vec<(Id, ChildNumber)>,
    /// The folder of the channel.
    folder: &'a str,
    is_gone: bool,
}

impl<'a, R: Files + Eprint> Progress<'a, R> {
    /// Returns an observer that looks for the folder of the channel at this path. With `is_verbose`, it reports no
    /// failures, because the host then reports all ends.
    pub(crate) fn new(
        rt: &'a R,
        alloc: Global,
        is_verbose: bool,
        channel: &'a str,
    ) -> Progress<'a, R> {
        Progress {
            rt,
            alloc,
            is_verbose,
            stage: None,
            since: 0,
            waited: Vec::new(alloc),
            folder: folder_of(channel),
            is_gone: false,
        }
    }

    /// Records the children that init waits for. Children for which there is no memory are not reported.
    fn note_waited(&mut self, core: &Core) {
        self.waited.clear();
        for slot in core.slots().as_slice() {
            if let (Some(number), Some(act)) = (slot.child(), slot.act()) {
                if act.is_waited() && self.waited.push((slot.id(), number)).is_err() {
                    return;
                }
            }
        }
    }

    /// If a stage has not been announced as settled after a minute, and after each further minute, reports what it
    /// waits for.
    fn tell_waiting(&mut self, core: &Core) {
        let fields = core.fields();
        let is_same = fields.stage == self.stage && !fields.announced;
        if is_same && fields.time.saturating_sub(self.since) < PATIENCE {
            return;
        }
        self.stage = fields.stage;
        self.since = fields.time;
        if !is_same {
            return;
        }
        if let Ok(lines) = waiting_lines(self.alloc, core) {
            let _ = eprint!(self.rt; "{}", str::from_utf8(&lines).unwrap_or(""));
        }
    }

    /// Reports how each child that init waited for ended, if it failed.
    fn tell_failures(&self, core: &Core) {
        for (id, number) in &self.waited {
            let _ = match failure(core, id, *number) {
                Some(Status::Exit(code)) => {
                    eprint!(self.rt; "initd: {}: exited with status {code}\n", id.as_str())
                }
                Some(Status::Killed) => eprint!(self.rt; "initd: {}: killed\n", id.as_str()),
                None => Ok(()),
            };
        }
    }

    /// Reports once that the folder of the channel is gone, and once that it is there again.
    fn tell_folder(&mut self) {
        let is_gone = match fs::metadata(self.rt, self.folder) {
            Ok(_) => false,
            Err(error) => error.kind() == ErrorKind::NotFound,
        };
        if is_gone == self.is_gone {
            return;
        }
        self.is_gone = is_gone;
        let _ = if is_gone {
            eprint!(self.rt;
                "initd: the channel's folder is gone; no requests can arrive until {} exists again\n",
                self.folder
            )
        } else {
            eprint!(self.rt; "initd: {} exists again; requests are read\n", self.folder)
        };
    }
}

impl<'a, R: Files + Eprint> TurnObserver<Global> for Progress<'a, R> {
    ghost use Rattle.std.specs.Prelude.{None};

    ghost seen = { λ _. None };

    fn look(&mut self, core: &Core) {
        if !self.is_verbose {
            self.tell_failures(core);
            self.note_waited(core);
        }
        self.tell_folder();
        if self.is_verbose {
            self.tell_waiting(core);
        }
    }
}

/// Returns how the child with this number, for which init waited, ended, if it failed. Returns `None` if the child is
/// still running, or if a reading of inittab or another level stopped it.
fn failure(core: &Core, id: &Id, number: ChildNumber) -> Option<Status>
    ensures { result ≡ failure_of core.now id.now number }
{
    let entry = core.table().get(id)?;
    let slot = core.slots().by_id(id)?;
    let stage = core.stage()?;
    if is_child(slot, number) || !is_meant(entry, stage) {
        return None;
    }
    failed_end(slot.last())
}

/// Returns whether the record has a child with this number.
fn is_child(slot: &Slot, number: ChildNumber) -> bool
    ensures { result ≡ holds_child number slot.now }
{
    match slot.child() {
        Some(held) => held == number,
        None => false,
    }
}

/// Returns an end other than exit status 0.
fn failed_end(last: Option<Status>) -> Option<Status>
    ensures { result ≡ failed_end last }
{
    match last {
        Some(Status::Exit(0)) => None,
        last => last,
    }
}

/// Returns whether the stage did not stop the entry's child: the child may run in the stage, or the entry has an
/// action of the kind after whose end init goes to the next stage.
fn is_meant(entry: &Entry, stage: Stage) -> bool
    ensures { result ≡ was_not_stopped entry.now stage }
{
    matches!(entry.act, Act::Sysinit | Act::Bootwait) || lives(entry, stage)
}

/// Returns the path of the folder that contains the file at this path.
fn folder_of(path: &str) -> &str {
    match path.rsplit_once('/') {
        Some(("", _)) => "/",
        Some((folder, _)) => folder,
        None => ".",
    }
}
