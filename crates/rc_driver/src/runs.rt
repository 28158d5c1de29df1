//! The scripts for a change of runlevel, one after another.

ghost use Rattle.std.specs.Prelude.{◌≡◌, ◌++◌, false, true, map, string_bytes, IfOk, OnOk, OnErr};
ghost use Rattle.rc_driver.specs.Planned.{RunsPlans};
ghost use Rattle.rc_driver.specs.Runs.{rc_run, scripts_of, texts_of, with_arg};
ghost use Rattle.rc_driver.specs.Steps.{Steps};
ghost use Rattle.rc_driver.specs.Sysv.{is_halt, sysv_run, sysv_starts, sysv_stops};

use crate::links::{is_halt, start_links, stop_links, stopping_links};
use init_words::{Level, Memory, Status};
use std::alloc::{Allocator, Global};
use std::collections::VecDeque;
use std::marker::Model;
use thiserror::Error;

/// The argument of a script (LSB Core 5.0, init script actions).
#[derive(Clone, Copy, PartialEq, Eq)]
pub enum Arg {
    /// Starts the service.
    Start,
    /// Stops the service.
    Stop,
}

/// The next step in a run of scripts.
#[derive(Clone, Copy, PartialEq, Eq)]
pub enum RcStep<'n> {
    /// Run the script of this link with this argument.
    Run(&'n str, Arg),
    /// Wait for the outcome of the last script.
    Waiting,
    /// All scripts have run, and each has an outcome.
    Done,
}

/// The outcome of a script.
#[derive(Clone, Copy, PartialEq, Eq)]
pub enum RcAnswer {
    /// The script ended with this status.
    Ended(Status),
    /// The script could not be started.
    NotStarted,
}

/// A change of runlevel.
#[derive(Clone, Copy, PartialEq, Eq)]
pub struct LevelChange {
    /// The previous runlevel, if there was one.
    pub before: Option<Level>,
    /// The new runlevel.
    pub new: Level,
}

/// Options for running scripts.
#[derive(Clone, Copy, PartialEq, Eq)]
pub struct ScriptOptions {
    /// Execute a script directly, with the interpreter in its first line, instead of with `sh`.
    pub direct: bool,
    /// Write a line at each start.
    pub verbose: bool,
    /// The time limit in seconds, if there is one. A script that exceeds it gets SIGTERM, and SIGKILL after init's
    /// grace period.
    pub seconds: Option<u32>,
    /// The change of runlevel to pass to scripts in RUNLEVEL and PREVLEVEL (init(8)) with env(1), if any.
    pub levels: Option<LevelChange>,
}

/// The error for an outcome when no script is running.
#[derive(Clone, Copy, Debug, PartialEq, Eq, Error)]
#[error("no script is waiting for an answer")]
pub struct NotAsked;

/// The scripts to run for a change of runlevel, one at a time, and the progress of their run. The links are borrowed
/// from the names in the new folder.
#[derive(Drop)]
pub struct Rc<'n, A: Allocator = Global> {
    /// The scripts that have not begun yet.
    remaining: VecDeque<(&'n str, Arg), A>,
    /// Whether the last script begun has no outcome yet.
    waits: bool,
}

impl<'n, A: Allocator> Model for Rc<'n, A> {
    ghost use Rattle.rc_driver.specs.Runs.{RcState, scripts_of};

    ghost Value = { RcState };

    ghost view = { λ rc. record { remaining = scripts_of rc.remaining.items; waits = rc.waits } };
}

/// Adds the links, each with the argument.
fn add_scripts<'n, A: Allocator>(
    scripts: &mut VecDeque<(&'n str, Arg), A>,
    links: &[&'n str],
    arg: Arg,
) -> Result<(), Memory>
    ensures { OnOk result (scripts_of scripts.new.items
        ≡ scripts_of scripts.old.items ++ with_arg arg (texts_of links.now)) }
{
    for link in links {
        scripts.push_back((*link, arg))?;
    }
    Ok(())
}

impl<'n, A: Allocator + Copy> Rc<'n, A> {
    /// Creates the run of the scripts of a level from the names in the folders of the previous level and the new one. A
    /// link is `S` or `K`, two digits, and one or more bytes of `A-Z a-z 0-9 . _ -`; other names are skipped. The K
    /// links of the new folder are run with `stop`, in byte order. Then its S links are run with `start`, in byte
    /// order, except for services that run already: the previous folder has an S link with the same part after the
    /// digits, and the new one has no such K link.
    #[tactic(auto, using(crate::proofs::PlannedLemmas::plans_run))]
    pub fn new(alloc: A, previous: &[String], new: &'n [String]) -> Result<Rc<'n, A>, Memory>
        ensures run { IfOk result (λ rc. rc ≡ record {
          remaining = rc_run (map string_bytes previous.now) (map string_bytes new.now);
          waits = false;
        }) }
        // rc runs the links that rclinks creates. If a folder holds exactly the links of a plan, in any order, and its
        // scripts have names that links can have, rc runs all links that stop services, and then all links that start
        // services that are not running already.
        ensures planned { IfOk result (λ rc.
            RunsPlans (map string_bytes previous.now) (map string_bytes new.now) rc.remaining) }
    {
        let mut remaining = VecDeque::new(alloc);
        add_scripts(
            &mut remaining,
            stop_links(alloc, new)?.as_slice(),
            Arg::Stop,
        )?;
        add_scripts(
            &mut remaining,
            start_links(alloc, previous, new)?.as_slice(),
            Arg::Start,
        )?;
        Ok(Rc {
            remaining,
            waits: false,
        })
    }

    /// Creates the run that sysv-rc would do. If there was no previous level, no K link is run. A K link is skipped if
    /// the previous level had stopped its service: the previous folder has a K link with the same part after the
    /// digits, and no S link. In levels 0 and 6 the S links are run with `stop` too, by the same rule.
    pub fn as_sysv(
        alloc: A,
        change: LevelChange,
        previous: &[String],
        new: &'n [String],
    ) -> Result<Rc<'n, A>, Memory>
        ensures { IfOk result (λ rc. rc ≡ record {
          remaining = sysv_run change (map string_bytes previous.now) (map string_bytes new.now);
          waits = false;
        }) }
    {
        let mut remaining = VecDeque::new(alloc);
        add_sysv_stops(alloc, &mut remaining, change.before, previous, new)?;
        add_sysv_starts(alloc, &mut remaining, is_halt(change.new), previous, new)?;
        Ok(Rc {
            remaining,
            waits: false,
        })
    }
}

/// Adds the K links that sysv-rc stops, if there was a previous level.
fn add_sysv_stops<'n, A: Allocator + Copy>(
    alloc: A,
    scripts: &mut VecDeque<(&'n str, Arg), A>,
    before: Option<Level>,
    previous: &[String],
    new: &'n [String],
) -> Result<(), Memory>
    ensures { OnOk result (scripts_of scripts.new.items ≡ scripts_of scripts.old.items
        ++ sysv_stops before (map string_bytes previous.now) (map string_bytes new.now)) }
{
    if before.is_none() {
        return Ok(());
    }
    let links = stopping_links(alloc, b'K', previous, new)?;
    add_scripts(scripts, links.as_slice(), Arg::Stop)
}

/// Adds the S links that sysv-rc starts, or stops if the machine is halted.
fn add_sysv_starts<'n, A: Allocator + Copy>(
    alloc: A,
    scripts: &mut VecDeque<(&'n str, Arg), A>,
    is_halt: bool,
    previous: &[String],
    new: &'n [String],
) -> Result<(), Memory>
    ensures { OnOk result (scripts_of scripts.new.items ≡ scripts_of scripts.old.items
        ++ sysv_starts is_halt (map string_bytes previous.now) (map string_bytes new.now)) }
{
    if is_halt {
        let links = stopping_links(alloc, b'S', previous, new)?;
        return add_scripts(scripts, links.as_slice(), Arg::Stop);
    }
    let links = start_links(alloc, previous, new)?;
    add_scripts(scripts, links.as_slice(), Arg::Start)
}

impl<'n, A: Allocator> Rc<'n, A> {
    /// Returns the next script if the previous one was answered, `Waiting` until then, and `Done` after the last.
    pub fn next(&mut self) -> RcStep<'n>
        ensures { Steps self.old result self.new }
    {
        if self.waits {
            return RcStep::Waiting;
        }
        match self.remaining.pop_front() {
            Some((link, arg)) => {
                self.waits = true;
                RcStep::Run(link, arg)
            }
            None => RcStep::Done,
        }
    }

    /// Accepts the answer to the script that was handed out last. Fails if none is missing. The end of a script does
    /// not influence the steps that follow.
    pub fn answer(&mut self, _answer: RcAnswer) -> Result<(), NotAsked>
        ensures ok { OnOk result ((self.old.waits ≡ true)
            × (self.new ≡ record self.old { waits = false })) }
        ensures err { OnErr result ((self.old.waits ≡ false) × (self.new ≡ self.old)) }
    {
        if !self.waits {
            return Err(NotAsked);
        }
        self.waits = false;
        Ok(())
    }
}
