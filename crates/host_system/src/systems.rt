//! The part of the operating system that a host uses for its calls: processes, the clock, and the file of the inittab.

ghost use Rattle.std.specs.Prelude.{◌≡◌, List, [], ◌∷◌, Some, None, is_ok, IfOk, OnErr, ℕ, option_map};
ghost use Rattle.std.specs.Result.{result_ok};
ghost use Rattle.std.specs.Duration.{as_nanos};
ghost use Rattle.host_files.specs.Folders.{text_of};
ghost use Rattle.init_words.specs.declared.orders.SignalKind.TheVariants.{Kill, Term};
ghost use Rattle.host_system.specs.Commands.{words_in};
ghost use Rattle.host_system.specs.Systems.{SystemCall, waited};
ghost use Rattle.host_system.specs.Systems.SystemCall.{read_clock, read_file, run, send, send_group, spawn, try_wait};

use crate::noting::{
    ClockRead, FileRead, GroupSent, Killed, Ran, Spawned, Started, SystemCallList, Terminated,
    Waited, noted, nothing_asked,
};
use crate::steady_clocks::SteadyClock;
use crate::terms::TermSender;
use crate::watchers::Watcher;
use init_words::SignalKind;
use program_io::{Noted, read_file};
use std::alloc::Allocator;
use std::io;
use std::os::fd::RawFd;
use std::process::{Child, Command, ExitStatus, OpenProcess, Processes};
use std::rt::{Clock, Files};
use std::time::Duration;

/// A system that starts processes, waits for them and sends them signals, has a clock, and reads files.
///
/// A contract sees the calls to the system, each with its answer. Code that is given a `System`, and no `Processes`,
/// has no other way to start a process, wait for it or send it a signal. It may use the clock and files in another
/// way: `OsHost` uses those of its runtime for pauses, the channel, the inittab's folder, logs and the state file.
pub trait System {
    /// The calls with their answers, newest first.
    ghost told: { Self → List SystemCall };

    /// The value to which it passes its calls, such as the runtime of a program.
    type Source: Drop;

    /// A process that it started.
    type Started: Drop;

    /// The number of a process.
    ghost number: { Self.Started → ℕ };

    /// Returns a system over this source, before its first call.
    fn over(source: Self::Source) -> Self
        ensures { told result ≡ [] };

    /// Returns the record of its calls, which only proofs can read.
    fn calls(&self) -> Noted<SystemCallList>
        ensures { result.value ≡ told self.now };

    /// Starts a program.
    fn spawn<A: Allocator + Copy>(&mut self, command: &mut Command<A>) -> io::Result<Self::Started>
        // recorded with its arguments and the number of the new process
        ensures ok { IfOk result (λ process. told self.new
            ≡ spawn (words_in command.old) (Some (number process)) ∷ told self.old) }
        // recorded as a call that started no process
        ensures err { OnErr result
            (told self.new ≡ spawn (words_in command.old) None ∷ told self.old) };

    /// Returns the number of a process.
    fn number_of(&self, process: &Self::Started) -> u32
        ensures { result ≡ number process.now };

    /// Returns how a process ended, if it has ended (waitpid(2) with WNOHANG).
    fn try_wait(&mut self, process: &mut Self::Started) -> io::Result<Option<ExitStatus>>
        // recorded with the number of the process and the outcome
        ensures told { told self.new
            ≡ try_wait (number process.old) (waited result) ∷ told self.old }
        ensures same { number process.new ≡ number process.old };

    /// Sends KILL to a process (kill(2)).
    fn kill(&mut self, process: &mut Self::Started) -> io::Result<()>
        // recorded with the number of the process, and whether the signal was sent
        ensures told { told self.new
            ≡ send Kill (number process.old) (is_ok result) ∷ told self.old }
        ensures same { number process.new ≡ number process.old };

    /// Sends TERM to the process with a number (kill(1)).
    fn terminate<A: Allocator + Copy>(&mut self, alloc: A, to: u32) -> io::Result<()>
        // recorded with the number, and whether the signal was sent
        ensures { told self.new ≡ send Term to (is_ok result) ∷ told self.old };

    /// Sends a signal to the process group of a process, or to the process if it has no group of its own (kill(1); if
    /// that cannot send KILL, kill(2)).
    fn send_group<A: Allocator + Copy>(
        &mut self,
        alloc: A,
        process: &mut Self::Started,
        signal: SignalKind,
    ) -> io::Result<()>
        // recorded as one signal to the group, with whether it was sent to the group or the process
        ensures told { told self.new
            ≡ send_group signal (number process.old) (is_ok result) ∷ told self.old }
        ensures same { number process.new ≡ number process.old };

    /// Ends the turn: anything that was started for this turn only, such as the shell that sends signals, may end.
    fn end_turn(&mut self)
        ensures { told self.new ≡ told self.old };

    /// Starts the helper that watches processes, by this command. The helper exits when one of them ends. It does not
    /// count as a process of `spawn`, and is not recorded.
    fn watch<A: Allocator + Copy>(&mut self, command: &mut Command<A>) -> io::Result<()>
        ensures { told self.new ≡ told self.old };

    /// Returns the descriptor that is ready when the helper has exited; `None` if there is no helper.
    fn watch_descriptor(&self) -> Option<RawFd>;

    /// Waits for the helper, which has exited or is about to exit, and returns its status.
    fn join_watch(&mut self) -> Option<ExitStatus>
        ensures { told self.new ≡ told self.old };

    /// Ends the helper, if there is one.
    fn end_watch(&mut self)
        ensures { told self.new ≡ told self.old };

    /// Runs a program to its end.
    fn run<A: Allocator + Copy>(&mut self, command: &mut Command<A>) -> io::Result<ExitStatus>
        // recorded with its arguments
        ensures { told self.new ≡ run (words_in command.old) ∷ told self.old };

    /// Returns the time since the beginning of 1970 as it was at the first reading, continued from there by a clock
    /// that nobody can set (CLOCK_MONOTONIC of clock_gettime(2)).
    fn clock(&mut self) -> io::Result<Duration>
        // recorded with the time, or as failed
        ensures { told self.new
            ≡ read_clock (option_map as_nanos (result_ok result)) ∷ told self.old };

    /// Reads the plain file at a path into memory of `alloc`. Anything but a plain file is rejected.
    fn read_file<A: Allocator>(&mut self, alloc: A, path: &str) -> io::Result<Vec<u8, A>>
        // recorded with the path, and the text if it was read
        ensures { told self.new ≡ read_file path.now (text_of result) ∷ told self.old };
}

/// A process of the operating system, with the number that it was born with.
#[derive(Drop)]
pub struct Process<P: OpenProcess + Drop> {
    number: u32,
    child: Child<P>,
}

/// The operating system. It records each call with its answer.
#[derive(Drop)]
pub struct OsSystem<R: Processes + Clock + Files + Drop> {
    rt: R,
    sender: TermSender<R::Started>,
    watcher: Watcher<R::Started>,
    clock: SteadyClock,
    /// The calls so far, for proofs only.
    told: Noted<SystemCallList>,
}

impl<R: Processes + Clock + Files + Drop> System for OsSystem<R> {
    ghost told = { λ system. system.told.value };

    type Source = R;

    type Started = Process<R::Started>;

    ghost number = { λ process. process.number };

    fn over(source: R) -> OsSystem<R> {
        OsSystem {
            rt: source,
            sender: TermSender::new(),
            watcher: Watcher::new(),
            clock: SteadyClock::new(),
            told: nothing_asked(),
        }
    }

    fn calls(&self) -> Noted<SystemCallList> {
        self.told.again()
    }

    fn spawn<A: Allocator + Copy>(
        &mut self,
        command: &mut Command<A>,
    ) -> io::Result<Process<R::Started>> {
        // Recorded as a failed start until there is a number to record.
        self.told = noted::<_, Spawned>(&self.told, &*command);
        let child = command.spawn(&self.rt)?;
        let number = child.id();
        self.told = noted::<_, Started>(&self.told, number);
        Ok(Process { number, child })
    }

    fn number_of(&self, process: &Process<R::Started>) -> u32 {
        process.number
    }

    fn try_wait(&mut self, process: &mut Process<R::Started>) -> io::Result<Option<ExitStatus>> {
        let outcome = process.child.try_wait();
        self.told = noted::<_, Waited>(&self.told, (process.number, &outcome));
        outcome
    }

    fn kill(&mut self, process: &mut Process<R::Started>) -> io::Result<()> {
        let sent = process.child.kill();
        self.told = noted::<_, Killed>(&self.told, (process.number, &sent));
        sent
    }

    fn terminate<A: Allocator + Copy>(&mut self, alloc: A, to: u32) -> io::Result<()> {
        let sent = self.sender.send(&self.rt, alloc, to);
        self.told = noted::<_, Terminated>(&self.told, (to, &sent));
        sent
    }

    fn send_group<A: Allocator + Copy>(
        &mut self,
        alloc: A,
        process: &mut Process<R::Started>,
        signal: SignalKind,
    ) -> io::Result<()> {
        let mut sent = self
            .sender
            .send_group(&self.rt, alloc, process.number, signal);
        if sent.is_err() && signal == SignalKind::Kill {
            sent = process.child.kill();
        }
        self.told = noted::<_, GroupSent>(&self.told, (signal, process.number, &sent));
        sent
    }

    fn end_turn(&mut self) {
        // The exit status of the shell does not matter, because each signal was answered.
        let _ = self.sender.end();
    }

    fn watch<A: Allocator + Copy>(&mut self, command: &mut Command<A>) -> io::Result<()> {
        self.watcher.start(&self.rt, command)
    }

    fn watch_descriptor(&self) -> Option<RawFd> {
        self.watcher.descriptor()
    }

    fn join_watch(&mut self) -> Option<ExitStatus> {
        self.watcher.join()
    }

    fn end_watch(&mut self) {
        self.watcher.end();
    }

    fn run<A: Allocator + Copy>(&mut self, command: &mut Command<A>) -> io::Result<ExitStatus> {
        self.told = noted::<_, Ran>(&self.told, &*command);
        command.status(&self.rt)
    }

    fn clock(&mut self) -> io::Result<Duration> {
        let read = self.clock.reading(&self.rt);
        self.told = noted::<_, ClockRead>(&self.told, &read);
        read
    }

    fn read_file<A: Allocator>(&mut self, alloc: A, path: &str) -> io::Result<Vec<u8, A>> {
        let read = read_file(&self.rt, alloc, path);
        self.told = noted::<_, FileRead>(&self.told, (path, &read));
        read
    }
}
