//! The host over the operating system.

ghost use Rattle.std.specs.Prelude.{◌≡◌, ◌++◌, ◌∷◌, List, [], Ok, IfOk, OnOk, OnErr, IsErr, IsTrue, true, false, option_map, string_bytes};
ghost use Rattle.std.specs.Result.{result_ok};
ghost use Rattle.std.specs.Duration.{as_nanos};
ghost use Rattle.host_calls.specs.declared.calls.Call.TheVariants as call;
ghost use Rattle.host_calls.specs.declared.calls.Reply.TheVariants.{Now};
ghost use Rattle.host_calls.specs.Calls.{HostCall};
ghost use Rattle.host_calls.specs.Held.{StartChangesHeld, holds_child};
ghost use Rattle.init_words.specs.declared.orders.Answer.TheVariants.{Born};
ghost use Rattle.host_system.specs.Asking.{AreSecondsOf, RunsHelpers, StartRequests};
ghost use Rattle.host_system.specs.Delays.{AreDelaysAfter, start_delay};
ghost use Rattle.host_system.specs.Hosts.{is_start_answer};
ghost use Rattle.host_system.specs.Systems.{start_answer};

use crate::adding::{self, CallList, no_calls};
use crate::bell_making::make_bell;
use crate::children::{Children, tell_not_born};
use crate::deadlines::Deadlines;
use crate::delays::Delays;
use crate::host_options::HostOptions;
use crate::launches::Launch;
use crate::logs::Logs;
use crate::noting::SystemCallList;
use crate::outputs::Output;
use crate::pauses::{Pauses, has_stirred};
use crate::systems::System;
use crate::watching::Watching;
use host_calls::{Host, HostFault, Reply, counted, is_failed_reply};
use host_files::{Channel, ChannelCallList, InittabFiles, OsChannelFile, StateFile, boxed};
use host_lines::{Doing, HostLine, MessageSink, Trouble};
use init_words::{Answer, ChildNumber, Id, Memory, Part, SignalKind};
use inittab_text::read_parts;
use program_io::{ChannelLock, Noted};
use std::alloc::{Allocator, Global};
use std::fs::File;
use std::io;
use std::io::ErrorKind;
use std::marker::Model;
use std::rt::{Clock, Files};
use std::time::Duration;
use trace_events::{Handed, Happening, HappeningIn};

/// A host that asks the operating system. It answers each order at once. It records its calls, and the calls that it
/// makes to the system to answer them; only proofs can read these records.
///
/// - Starts: a process text is executed by `sh` if it has a character that a shell interprets; any other text is split
///   at blanks and tabs and started directly. A start for an id that has a child fails.
/// - Looks: a child is looked at by waitpid(2) with WNOHANG.
/// - Signals: SIGTERM is sent by kill(1), in one `sh` for all of a turn; SIGKILL is sent directly. With groups, both
///   are sent by kill(1) to the child's process group.
/// - Pauses: a pause does not fail, and starts nothing except the helper that watches the children, if they are
///   watched. It ends early when a request comes: if there is a FIFO with the name of the channel followed by `.bell`,
///   when a byte is written to the FIFO; otherwise when a look at the channel during the pause finds that it has
///   grown. It also ends when a watched child ends.
/// - Requests: they are read from the first byte of the channel's file on. Reading starts again from the first byte if
///   the file is shorter than the part already read, or another file is at its path.
/// - Clock: it returns the seconds since the beginning of 1970 at its first reading, and continues from there with the
///   monotonic clock.
///
/// Failures are reported on standard error, once when they begin and once when they end. The host also reports
/// requests that are in the channel before its first reading, requests that are ignored, and a channel that ends
/// within a request. At each reading of the inittab, the faults of its lines are printed. If a child is stopped
/// because an inittab that was read again has no line for it, or because its line is `off`, does not run in the level
/// or has another action, that is reported on standard error.
#[derive(Drop)]
pub struct OsHost<
    R: Files<File = File> + Clock + MessageSink + Drop,
    S: System + Drop,
    A: Allocator = Global,
> {
    host: Box<OsHostParts<R, S, A>, A>,
}

/// The parts of a host, which are on the heap, so that a host is one word to its owner.
#[derive(Drop)]
struct OsHostParts<
    R: Files<File = File> + Clock + MessageSink + Drop,
    S: System + Drop,
    A: Allocator,
> {
    rt: R,
    system: S,
    alloc: A,
    children: Box<Children<S, A>, A>,
    logs: Logs<A>,
    delays: Delays<A>,
    channel: Box<Channel<OsChannelFile, A>, A>,
    inittab: Box<InittabFiles<A>, A>,
    state: Box<StateFile<A>, A>,
    output: Output<A>,
    pauses: Pauses,
    deadlines: Deadlines,
    watching: Watching,
    timing: Trouble,
    strict: bool,
    verbose: bool,
    faults: u64,
    told: Noted<CallList>,
}

impl<R: Files<File = File> + Clock + MessageSink + Drop, S: System + Drop, A: Allocator> Model
    for OsHost<R, S, A> {
    ghost use Rattle.host_system.specs.Asking.{AreSystemCallsFor};
    ghost use Rattle.host_system.specs.Delays.{AreDelaysAfter};
    ghost use Rattle.host_system.specs.Hearing.{bytes_taken};
    ghost use Rattle.host_system.specs.Hosts.{HostState, settings_of};
    ghost use Rattle.host_files.specs.Channels.{HandedBytes};

    ghost Value = { HostState };

    ghost view = { λ os. os.host.value };

    ghost invariant = { λ os. let host = os.host.value in
        AreSystemCallsFor (settings_of host) host.calls host.held host.asked
        × HandedBytes host.channel (bytes_taken host.calls)
        × AreDelaysAfter host.delays host.calls };
}

impl<R: Files<File = File> + Clock + MessageSink + Drop, S: System + Drop, A: Allocator> Model
    for OsHostParts<R, S, A> {
    ghost use Rattle.std.specs.Prelude.{option_map, string_bytes};
    ghost use Rattle.host_system.specs.Delays.{delay_state};
    ghost use Rattle.host_system.specs.Hosts.{HostState};

    ghost Value = { HostState };

    ghost view = { λ host. record {
      faults = host.faults;
      strict = host.strict;
      verbose = host.verbose;
      inittab = host.inittab.value;
      logs = option_map string_bytes host.logs.folder;
      groups = host.logs.groups;
      delays = delay_state host.delays;
      channel = host.channel.value;
      held = host.children.value;
      calls = host.told.value;
      asked = S.told host.system;
    } };
}

impl<
    R: Files<File = File> + Clock + MessageSink + Drop,
    S: System + Drop,
    A: Allocator + Copy,
> OsHost<R, S, A> {
    ghost use Rattle.host_system.specs.Asking.{AreSystemCallsFor};
    ghost use Rattle.host_system.specs.Hearing.{AreBytesOfChannel};
    ghost use Rattle.host_system.specs.Hosts.{settings_of};

    /// Returns a host without children, with a new system over the source.
    pub fn new(
        rt: R,
        source: S::Source,
        alloc: A,
        options: &HostOptions,
    ) -> Result<OsHost<R, S, A>, Memory>
        // before the first call, the system was asked to run helpers, and nothing else
        ensures asked { IfOk result (λ host. RunsHelpers [] host.asked) }
        // the host has the settings of the options; it has no fault, no child and no calls, and has read nothing from
        // its channel
        ensures value { IfOk result (λ host. host ≡ record {
          faults = 0;
          strict = options.now.strict;
          verbose = options.now.verbose;
          inittab = options.now.inittab.now;
          logs = option_map (λ path. path.now) options.now.logs;
          groups = options.now.groups;
          delays = record {
            longest = options.now.respawn_delay;
            time = 0;
            starts = [];
          };
          channel = record { fresh = options.now.fresh; told = []; rest = [] };
          held = [];
          calls = [];
          asked = host.asked;
        }) }
    {
        let children = Children::new(alloc, options)?;
        let logs = Logs::new(alloc, options.logs, options.groups)?;
        let delays = Delays::new(alloc, options.respawn_delay);
        let (channel, inittab, state) = files_of(alloc, options)?;
        let parts = OsHostParts {
            rt,
            system: S::over(source),
            alloc,
            children,
            logs,
            delays,
            channel,
            inittab,
            state,
            output: Output::new(alloc),
            pauses: Pauses::of(options.pace, options.watch),
            deadlines: Deadlines::of(options.pace),
            watching: Watching::new(options.watch),
            timing: Trouble::new(Doing::Read),
            strict: options.strict,
            verbose: options.verbose,
            faults: 0,
            told: no_calls(),
        };
        let mut host = boxed(alloc, parts)?;
        host.begin(options);
        Ok(OsHost { host })
    }

    /// Makes the host hold this lock of its channel, and take the lock of each other file that appears at the channel's
    /// path. If another initd holds that lock, it is reported, and nothing is read.
    pub fn holding(mut self, lock: ChannelLock) -> OsHost<R, S, A>
        ensures { result ≡ self }
    {
        let host = &mut *self.host;
        host.channel.hold(lock);
        self
    }

    /// Returns the record of the calls made to the host.
    pub fn calls(&self) -> Noted<CallList>
        ensures value { result.value ≡ self.now.calls }
        // the calls are possible for a host that held no child before them; the recorded system calls are exactly
        // those for these calls, in their order, after helpers that were run before the first call
        ensures own { AreSystemCallsFor (settings_of self.now) self.now.calls self.now.held
            self.now.asked }
    {
        let host = &*self.host;
        host.told.again()
    }

    /// Returns the record of the calls that the host made to the system.
    pub fn asked(&self) -> Noted<SystemCallList>
        ensures { result.value ≡ self.now.asked }
    {
        let host = &*self.host;
        host.system.calls()
    }

    /// Returns the record of the host's reading of its channel's file.
    pub fn heard(&self) -> Noted<ChannelCallList>
        ensures value { result.value ≡ self.now.channel.told }
        // the calls returned the bytes that were read from the channel's file, each once and in order, except the rest
        // of the last request; and each request was read whole, from the end of the one before it, unless reading
        // began, or the channel was replaced or truncated, in between
        ensures own { AreBytesOfChannel self.now.calls self.now.channel }
    {
        let host = &*self.host;
        host.channel.told()
    }

    /// Returns whether all output was printed: announcements, and faults of the inittab's lines.
    pub fn has_printed(&self) -> bool {
        let host = &*self.host;
        host.output.has_printed()
    }
}

/// The parts of a host that read and write files.
type HostFiles<A> = (
    Box<Channel<OsChannelFile, A>, A>,
    Box<InittabFiles<A>, A>,
    Box<StateFile<A>, A>,
);

fn files_of<A: Allocator + Copy>(alloc: A, options: &HostOptions) -> Result<HostFiles<A>, Memory>
    ensures { IfOk result (λ files.
        (files.0.value ≡ record { fresh = options.now.fresh; told = []; rest = [] })
        × (files.1.value ≡ options.now.inittab.now)) }
{
    let channel = Channel::new(alloc, options.channel, options.fresh)?;
    let inittab = InittabFiles::new(alloc, options.inittab, options.folder)?;
    let spared = options.spared.unwrap_or("");
    let state = StateFile::new(alloc, options.state, spared)?;
    Ok((channel, inittab, state))
}

impl<
    R: Files<File = File> + Clock + MessageSink + Drop,
    S: System + Drop,
    A: Allocator + Copy,
> OsHostParts<R, S, A> {
    /// Carries out the actions of the options that precede the first call.
    fn begin(&mut self, options: &HostOptions)
        ensures same { self.new ≡ record self.old { asked = self.new.asked } }
        ensures asked { RunsHelpers self.old.asked self.new.asked }
    {
        make_bell(
            &self.rt,
            &mut self.system,
            self.alloc,
            &self.channel,
            options,
        );
        let paths = (self.inittab.path(), self.channel.path());
        tell_blocked(&self.rt, &mut self.state, paths, options);
        self.children
            .tell_unsendable(&self.rt, &mut self.system, options);
        if options.verbose {
            self.inittab.tell_all(&self.rt);
        }
    }

    /// Pauses until a request comes or a watched child ends, but at most until the next deadline.
    fn rest(&mut self)
        ensures { self.new ≡ self.old }
    {
        self.watching.end_stale(&mut self.system);
        let count = self.children.count();
        let has_helper = self.system.watch_descriptor().is_some();
        let is_complete = self.watching.is_complete(has_helper, count, self.faults);
        let length = self.pauses.next(&self.rt, count, is_complete);
        let length = self.deadlines.bounded(&self.rt, length);
        self.watching
            .renew(&self.rt, &mut self.system, &self.children, length);
        let helper = self.system.watch_descriptor();
        if self.channel.rest(&self.rt, length, helper) {
            self.watching.join(&self.rt, &mut self.system);
        }
    }

    /// Starts a child for an id that has none, after the delay that follows from the earlier calls, and returns the
    /// answer to the order. A failure is reported.
    fn order_start<B: Allocator + Copy>(&mut self, alloc: B, id: Id, text: &[u8]) -> Answer
        ensures kind { IsTrue (is_start_answer result) }
        ensures held { StartChangesHeld self.old.held self.new.held id (Now result) }
        ensures noted { (calls : List HostCall) → AreDelaysAfter self.old.delays calls
            → AreDelaysAfter self.new.delays (call.Start id text.now (Now result) ∷ calls) }
        ensures asked { (calls : List HostCall) → AreDelaysAfter self.old.delays calls
            → StartRequests self.old.logs self.old.groups
            (start_delay self.old.delays.longest id calls) id text.now result self.old.asked
            self.new.asked }
        ensures longest { self.new.delays.longest ≡ self.old.delays.longest }
        ensures same { self.new ≡ record self.old {
          delays = self.new.delays;
          held = self.new.held;
          asked = self.new.asked;
        } }
    {
        let delay = self.delays.next(&id);
        let number = match self.start_child(alloc, id, delay, text) {
            Ok(number) => number,
            Err(error) => {
                let launch = Launch {
                    groups: self.logs.groups,
                    delay,
                };
                tell_not_born(&self.rt, launch, id, text, &error);
                return Answer::NotBorn;
            }
        };
        Answer::Born(number)
    }

    /// Starts a child for an id that has none, after this delay in seconds, and returns its number. Memory for the
    /// record of the start is reserved before the child is born.
    fn start_child<B: Allocator + Copy>(
        &mut self,
        alloc: B,
        id: Id,
        delay: u16,
        text: &[u8],
    ) -> io::Result<ChildNumber>
        ensures unheld { OnOk result (holds_child id self.old.held ≡ false) }
        ensures born { IfOk result (λ number.
            self.new.held ≡ self.old.held ++ (id, number) ∷ []) }
        ensures noted { IfOk result (λ number. (calls : List HostCall)
            → AreDelaysAfter self.old.delays calls
            → delay ≡ start_delay self.old.delays.longest id calls
            → AreDelaysAfter self.new.delays (call.Start id text.now (Now (Born number)) ∷ calls)) }
        ensures not_born { OnErr result (self.new ≡ record self.old { asked = self.new.asked }) }
        ensures asked { StartRequests self.old.logs self.old.groups delay id text.now
            (start_answer result) self.old.asked self.new.asked }
        ensures longest { self.new.delays.longest ≡ self.old.delays.longest }
        ensures same { self.new ≡ record self.old {
          delays = self.new.delays;
          held = self.new.held;
          asked = self.new.asked;
        } }
    {
        self.delays.reserve()?;
        let number = self.children.start(
            &self.rt,
            &mut self.system,
            &mut self.logs,
            alloc,
            id,
            delay,
            text,
        )?;
        self.delays.note_start(id, delay);
        Ok(number)
    }

    /// Records the announced happening for later reports about the children, and makes the reports that are due now.
    fn tell_after<B: Allocator>(&mut self, happening: &HappeningIn<B>)
        ensures { self.new ≡ self.old }
    {
        match happening {
            Happening::Enter(stage, _) => self.children.enter(*stage),
            Happening::Settle(_) => self.children.settle(&self.rt),
            Happening::Hold(id) => self.children.tell_last_end(&self.rt, id),
            Happening::Handed(handed) => tell_handed(&self.rt, handed),
            _ => {}
        }
    }

    /// Reports on the reading of an inittab: the faults of its lines, or why there is no table. If init accepts the
    /// table, records how the table affects each child. Returns whether all output was printed.
    fn tell_reading<B: Allocator + Copy>(&mut self, alloc: B, parts: &[Part<B>]) -> bool
        ensures { self.new ≡ self.old }
    {
        let (table, faults) = match read_parts(alloc, parts) {
            Ok(read) => read,
            Err(fault) => {
                self.inittab.tell_no_table(&self.rt, fault);
                return true;
            }
        };
        let is_printed = self.output.print_faults(&self.rt, parts, &faults);
        if self.strict && !faults.is_empty() {
            self.rt.tell(&HostLine::Refused {
                path: self.inittab.path(),
            });
        } else {
            self.children.note_lines(&table);
        }
        drop(table);
        is_printed
    }
}

/// If the options name a file that the state must not replace, checks whether the state could be written now, and
/// reports if not.
fn tell_blocked<R: Files<File = File> + MessageSink, A: Allocator + Copy>(
    rt: &R,
    state: &mut StateFile<A>,
    paths: (&str, &str),
    options: &HostOptions,
) {
    if options.spared.is_some() {
        let _ = state.tell_blocked(rt, paths.0, paths.1);
    }
}

/// Reports that the text of init's state that was read back is truncated, or belongs to another generation.
fn tell_handed(rt: &impl MessageSink, handed: &Handed) {
    match handed {
        Handed::Cut(length) => rt.tell(&HostLine::HandedCut(*length)),
        Handed::Older(generation) => rt.tell(&HostLine::HandedOlder(*generation)),
        _ => {}
    }
}

/// Returns the result of a system call, with an error converted into a fault of the host.
fn host_result<T>(outcome: io::Result<T>) -> Result<T, HostFault>
    ensures ok { IfOk result (λ value. outcome ≡ Ok value) }
    ensures err { OnErr result (IsErr outcome) }
{
    match outcome {
        Ok(value) => Ok(value),
        Err(error) if error.kind() == ErrorKind::OutOfMemory => Err(HostFault::Memory),
        Err(_) => Err(HostFault::Device),
    }
}

/// Returns the whole seconds of a time, with an error converted into a fault of the host.
fn seconds_of(time: io::Result<Duration>) -> Result<u64, HostFault>
    ensures { AreSecondsOf (option_map as_nanos (result_ok time)) result }
{
    Ok(host_result(time)?.as_secs())
}

impl<R: Files<File = File> + Clock + MessageSink + Drop, S: System + Drop, A: Allocator + Copy> Host
    for OsHost<R, S, A> {
    ghost use Rattle.std.specs.Prelude.{◌≤◌, length, take, Some, None, is_err};
    ghost use Rattle.host_files.specs.Channels.{HandsOn};
    ghost use Rattle.host_calls.specs.Calls.{FaultIsCounted, front_read, is_failed_reply, parts_read, text_read};
    ghost use Rattle.host_calls.specs.Held.{LookChangesHeld, SignalChangesHeld};
    ghost use Rattle.host_system.specs.Asking.{ClockRequest, LookRequest, SignalRequest, StartRequests, TablesRequest, AnsweredNow, number_of};
    ghost use Rattle.host_system.specs.Hosts.{HostState, settings_of, is_look_answer, is_signal_answer, answers_with};

    ghost told = { λ (host : HostState). Some host.calls };

    ghost held = { λ (host : HostState). Some host.held };

    ghost failures = { λ (host : HostState). host.faults };

    ghost settings = { λ (host : HostState). Some (settings_of host) };

    fn start<B: Allocator + Copy>(&mut self, alloc: B, id: Id, command: &[u8]) -> Reply
        // the count of faults never falls; the answer is a failure only if the count rises, or is at its maximum
        ensures cause { FaultIsCounted self.old.faults self.new.faults (is_failed_reply result) }
        // the reply is `Born` or `NotBorn`, at once
        ensures kind { IsTrue (answers_with is_start_answer result) }
        // a child that is born is held from then on, and the id had no child before; any other answer changes nothing
        ensures held { StartChangesHeld self.old.held self.new.held id result }
        // the system was asked at most once, to start a process with arguments that start this text, after the delay
        // that follows from the earlier calls; the child is born exactly if the process was started, and has its number
        ensures asked { AnsweredNow result (λ answer.
            StartRequests self.old.logs self.old.groups
            (start_delay self.old.delays.longest id self.old.calls) id command.now answer
            self.old.asked self.new.asked) }
        ensures longest { self.new.delays.longest ≡ self.old.delays.longest }
        // nothing else changes, and the call is recorded
        ensures kept { self.new ≡ record self.old {
          faults = self.new.faults;
          delays = self.new.delays;
          held = self.new.held;
          asked = self.new.asked;
          calls = call.Start id command.now result ∷ self.old.calls;
        } }
    {
        let host = &mut *self.host;
        let reply = Reply::Now(host.order_start(alloc, id, command));
        host.watching.note(&reply);
        host.pauses.note(has_stirred(&reply));
        host.faults = counted(host.faults, is_failed_reply(&reply));
        host.told = adding::and_call::<_, adding::Start>(&host.told, (&id, command, &reply));
        reply
    }

    fn look(&mut self, id: Id) -> Reply
        // the count of faults never falls; the answer is a failure only if the count rises, or is at its maximum
        ensures cause { FaultIsCounted self.old.faults self.new.faults (is_failed_reply result) }
        // the reply is `Ended`, `Alive` or `NoLook`, at once
        ensures kind { IsTrue (answers_with is_look_answer result) }
        // a child that has ended was held, and no longer is; one that is alive is held; nothing else changes
        ensures held { LookChangesHeld self.old.held self.new.held id result }
        // the id's child, if there is one, was waited for once, without blocking, and the answer is the outcome;
        // nothing else was asked
        ensures asked { AnsweredNow result (λ answer.
            LookRequest (number_of id self.old.held) answer self.old.asked self.new.asked) }
        // nothing else changes, and the call is recorded
        ensures kept { self.new ≡ record self.old {
          faults = self.new.faults;
          held = self.new.held;
          asked = self.new.asked;
          calls = call.Look id result ∷ self.old.calls;
        } }
    {
        let host = &mut *self.host;
        let reply = Reply::Now(host.children.look(&host.rt, &mut host.system, &id));
        host.watching.note(&reply);
        host.pauses.note(has_stirred(&reply));
        host.faults = counted(host.faults, is_failed_reply(&reply));
        host.told = adding::and_call::<_, adding::Look>(&host.told, (&id, &reply));
        reply
    }

    fn signal(&mut self, id: Id, signal: SignalKind) -> Reply
        // the count of faults never falls; the answer is a failure only if the count rises, or is at its maximum
        ensures cause { FaultIsCounted self.old.faults self.new.faults (is_failed_reply result) }
        // the reply is `Hit` or `Miss`, at once
        ensures kind { IsTrue (answers_with is_signal_answer result) }
        // only a held child is hit, and the held children do not change
        ensures held { SignalChangesHeld self.old.held self.new.held id result }
        // the signal was sent once to the id's child, if there is one, or to its process group, and the answer says
        // whether it was reached; nothing else was asked
        ensures asked { AnsweredNow result (λ answer. SignalRequest self.old.groups
            (number_of id self.old.held) signal answer self.old.asked self.new.asked) }
        ensures longest { self.new.delays.longest ≡ self.old.delays.longest }
        // nothing else changes, and the call is recorded
        ensures kept { self.new ≡ record self.old {
          faults = self.new.faults;
          delays = self.new.delays;
          held = self.new.held;
          asked = self.new.asked;
          calls = call.Signal id signal result ∷ self.old.calls;
        } }
    {
        let host = &mut *self.host;
        let groups = host.logs.groups;
        let answer = host
            .children
            .signal(&host.rt, &mut host.system, groups, &id, signal);
        let reply = Reply::Now(answer);
        host.deadlines.note_signal(signal, &reply);
        host.delays.note_signal(&id);
        host.pauses.note(has_stirred(&reply));
        host.faults = counted(host.faults, is_failed_reply(&reply));
        host.told = adding::and_call::<_, adding::Signal>(&host.told, (&id, signal, &reply));
        reply
    }

    /// Returns `None`: no answer ever comes later.
    fn late(&mut self) -> Option<(Id, Answer)>
        ensures never { result ≡ None }
        ensures kept { self.new
            ≡ record self.old { calls = call.Late result ∷ self.old.calls } }
    {
        let host = &mut *self.host;
        host.told = adding::and_call::<_, adding::Late>(&host.told, &None);
        None
    }

    fn clock(&mut self) -> Result<u64, HostFault>
        ensures cause { FaultIsCounted self.old.faults self.new.faults (is_err result) }
        // the system's clock was read once, and the result is its time in whole seconds, or a fault if it failed
        ensures asked { ClockRequest result self.old.asked self.new.asked }
        ensures longest { self.new.delays.longest ≡ self.old.delays.longest }
        ensures kept { self.new ≡ record self.old {
          faults = self.new.faults;
          delays = self.new.delays;
          asked = self.new.asked;
          calls = call.Clock result ∷ self.old.calls;
        } }
    {
        let host = &mut *self.host;
        let time = host.system.clock();
        host.timing.tell(&host.rt, "the clock", &time);
        host.deadlines.note_reading(&host.rt, &time);
        let reading = seconds_of(time);
        host.delays.note_time(reading);
        host.faults = counted(host.faults, reading.is_err());
        host.told = adding::and_call::<_, adding::Clock>(&host.told, reading);
        reading
    }

    fn take_bytes(&mut self, buffer: &mut [u8]) -> Result<usize, HostFault>
        ensures within { IfOk result (λ count. count ≤ length buffer.old) }
        ensures cause { FaultIsCounted self.old.faults self.new.faults (is_err result) }
        ensures fresh { self.new.channel.fresh ≡ self.old.channel.fresh }
        // these are the next bytes that were read from the channel's file, after all those returned before
        ensures handed { IfOk result (λ count.
            HandsOn self.old.channel self.new.channel (take count buffer.new)) }
        ensures kept { self.new ≡ record self.old {
          faults = self.new.faults;
          channel = self.new.channel;
          calls = call.TakeBytes (length buffer.old) (front_read result buffer.new)
              ∷ self.old.calls;
        } }
    {
        let host = &mut *self.host;
        let taken = host_result(host.channel.take_bytes(&host.rt, buffer));
        host.pauses.note(matches!(taken, Ok(count) if count > 0));
        host.faults = counted(host.faults, taken.is_err());
        host.told = adding::and_call::<_, adding::TakeBytes>(&host.told, (&*buffer, taken));
        taken
    }

    fn read_tables<B: Allocator + Copy>(&mut self, alloc: B) -> Result<Vec<Part<B>, B>, HostFault>
        ensures cause { FaultIsCounted self.old.faults self.new.faults (is_err result) }
        // the file at the path of the inittab was read once; unless the result is a fault, its text is the first part
        ensures asked { TablesRequest self.old.inittab (parts_read (λ parts. parts.items) result)
            self.old.asked self.new.asked }
        ensures kept { self.new ≡ record self.old {
          faults = self.new.faults;
          asked = self.new.asked;
          calls = call.ReadTables (parts_read (λ parts. parts.items) result) ∷ self.old.calls;
        } }
    {
        let host = &mut *self.host;
        let text = host.system.read_file(alloc, host.inittab.path());
        let parts = host_result(host.inittab.read(&host.rt, alloc, text));
        let is_told = match &parts {
            Ok(parts) => host.tell_reading(alloc, parts),
            Err(_) => false,
        };
        host.faults = counted(host.faults, !is_told);
        host.deadlines.note_table();
        host.told = adding::and_call::<_, adding::ReadTables>(&host.told, &parts);
        parts
    }

    fn carry<B: Allocator + Copy>(&mut self, alloc: B, text: &[u8]) -> Result<Vec<u8, B>, HostFault>
        ensures cause { FaultIsCounted self.old.faults self.new.faults (is_err result) }
        // only the count of faults changes, and the call is recorded
        ensures kept { self.new ≡ record self.old {
          faults = self.new.faults;
          calls = call.Carry text.now (text_read (λ back. back.items) result) ∷ self.old.calls;
        } }
    {
        let host = &mut *self.host;
        let inittab = host.inittab.path();
        let channel = host.channel.path();
        let back = host.state.carry(&host.rt, alloc, inittab, channel, text);
        let back = host_result(back);
        host.faults = counted(host.faults, back.is_err());
        host.told = adding::and_call::<_, adding::Carry>(&host.told, (text, &back));
        back
    }

    fn announce<B: Allocator>(&mut self, happening: &HappeningIn<B>)
        ensures cause { FaultIsCounted self.old.faults self.new.faults false }
        ensures longest { self.new.delays.longest ≡ self.old.delays.longest }
        ensures kept { self.new ≡ record self.old {
          faults = self.new.faults;
          delays = self.new.delays;
          calls = call.Announce happening.now ∷ self.old.calls;
        } }
    {
        let host = &mut *self.host;
        let is_printed = host.output.announce(&host.rt, happening);
        host.delays.note_announced(happening);
        host.faults = counted(host.faults, !is_printed);
        host.told = adding::and_call::<_, adding::Announce>(&host.told, happening);
        host.deadlines.note_announcement(happening);
        host.tell_after(happening);
    }

    fn pause(&mut self)
        ensures kept { self.new
            ≡ record self.old { calls = call.Pause ∷ self.old.calls } }
    {
        let host = &mut *self.host;
        host.system.end_turn();
        host.rest();
        host.pauses.begin_turn(&host.rt);
        host.told = adding::and_call::<_, adding::Pause>(&host.told, ());
    }

    fn faults(&self) -> u64 {
        let host = &*self.host;
        host.faults
    }
}
