//! The source of hosts over the operating system.

ghost use Rattle.std.specs.Prelude.{◌≡◌, [], IfOk};
ghost use Rattle.initd_command.specs.Words.{run_of};
ghost use Rattle.initd_command.specs.Hosts.{IsAsked, host_with};

use crate::hosts::Hosts;
use crate::run::{folder_of, trace_of};
use host_files::{ChannelCallList, nothing_read};
use host_lines::TellingRuntime;
use host_messages::{StampedPrinter, Worded};
use host_system::{
    CallList, HostOptions, OsHost, OsSystem, Pace, SystemCallList, no_calls, nothing_asked,
};
use init_words::Memory;
use initd_options::RunWords;
use program_io::{ChannelLock, Noted};
use std::alloc::Global;
use std::fs::File;
use std::marker::Model;
use std::process::Processes;
use std::rt::{Clock, Files};

/// A source of one host, which asks the operating system. It keeps records of the calls made to the host, of the calls
/// that the host made to the system to answer them, and of the reading of the host's channel. Only proofs can read
/// them.
///
/// The host is opened once. A second host would hold none of the children of the first, so a second opening fails,
/// with the error for lack of memory, even if the first opening failed.
#[derive(Drop)]
pub struct OsHosts<R: Processes + Files<File = File> + Clock + Print + Eprint + Clone + Drop> {
    /// The runtime of the host, until the host is opened.
    rt: Option<R>,
    calls: Noted<CallList>,
    asked: Noted<SystemCallList>,
    heard: Noted<ChannelCallList>,
}

/// The type of the host.
type RunHost<R> = OsHost<TellingRuntime<R, Worded<StampedPrinter<R>>>, OsSystem<R>>;

impl<R: Processes + Files<File = File> + Clock + Print + Eprint + Clone + Drop> Model
    for OsHosts<R> {
    ghost use Rattle.std.specs.Prelude.{◌≡◌, [], IsSome};
    ghost use Rattle.initd_command.specs.Hosts.{HostsState, IsAsked};

    ghost Value = { HostsState };

    ghost view = { λ hosts. record {
      calls = hosts.calls.value;
      asked = hosts.asked.value;
      heard = hosts.heard.value;
    } };

    ghost invariant = { λ hosts. (IsSome hosts.rt → hosts.calls.value ≡ [])
        × IsAsked hosts.calls.value hosts.asked.value };
}

impl<R: Processes + Files<File = File> + Clock + Print + Eprint + Clone + Drop> OsHosts<R> {
    /// Returns the source of a host, before the host is opened.
    pub fn new(rt: R) -> OsHosts<R>
        ensures { result ≡ record { calls = []; asked = []; heard = [] } }
    {
        OsHosts {
            rt: Some(rt),
            calls: no_calls(),
            asked: nothing_asked(),
            heard: nothing_read(),
        }
    }

    /// Returns the record of the calls that the host made to the system: exactly those that the calls to the host
    /// require.
    pub fn asked(&self) -> Noted<SystemCallList>
        ensures value { result.value ≡ self.now.asked }
        ensures own { IsAsked self.now.calls self.now.asked }
    {
        self.asked.again()
    }
}

impl<R: Processes + Files<File = File> + Clock + Print + Eprint + Clone + Drop> Hosts<RunHost<R>>
    for OsHosts<R> {
    ghost use Rattle.std.specs.Prelude.{◌≡◌, Some, None, IfOk};
    ghost use Rattle.initd_command.specs.Words.{run_of};
    ghost use Rattle.initd_command.specs.Hosts.{IsOfSystem, host_with};

    ghost told = { λ hosts. Some hosts.calls };

    ghost opened = { λ _. None };

    ghost conforms = { IsOfSystem };

    fn open(
        &mut self,
        alloc: Global,
        run_options: &RunWords,
        lock: ChannelLock,
    ) -> Result<RunHost<R>, Memory>
        ensures told { IfOk result (λ host. Some host.calls ≡ Some self.old.calls) }
        ensures err { self.new ≡ self.old }
        ensures words { IfOk result (λ host. host ≡ host_with host.asked (run_of run_options.now)) }
    {
        let Some(rt) = self.rt.take() else {
            return Err(Memory);
        };
        Ok(host_of(rt, alloc, run_options)?.holding(lock))
    }

    fn close(&mut self, host: RunHost<R>) -> bool {
        self.rt = None;
        self.calls = host.calls();
        self.asked = host.asked();
        self.heard = host.heard();
        host.has_printed()
    }
}

/// Returns the host that the arguments describe.
fn host_of<R>(rt: R, alloc: Global, run_options: &RunWords) -> Result<RunHost<R>, Memory>
where
    R: Processes + Files<File = File> + Clock + Print + Eprint + Clone + Drop,
    ensures { IfOk result (λ host. host ≡ host_with host.asked (run_of run_options.now)) }
{
    let pace = Pace::UpTo {
        hundredths: run_options.pause,
        by_cost: !writes_looks(run_options),
    };
    let options = HostOptions {
        inittab: run_options.inittab.as_str(),
        folder: folder_of(run_options),
        channel: run_options.initctl.as_str(),
        state: run_options.state.as_str(),
        spared: Some(trace_of(run_options)),
        logs: run_options.logs.as_ref().map(String::as_str),
        groups: run_options.groups,
        respawn_delay: run_options.respawn_delay,
        pace,
        bell: run_options.bell,
        watch: run_options.watch,
        fresh: run_options.fresh,
        verbose: run_options.verbose,
        strict: run_options.strict,
        sends_term: true,
    };
    let printer = StampedPrinter::new(rt.clone()?, alloc, run_options.stamp);
    let telling = TellingRuntime::new(rt.clone()?, Worded::new("initd", printer));
    OsHost::new(telling, rt, alloc, &options)
}

/// Returns whether the trace of the run contains the looks: there is a trace, and it is not brief.
fn writes_looks(run_options: &RunWords) -> bool {
    run_options.trace.is_some() && !run_options.brief
}
