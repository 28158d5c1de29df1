//! The source of the host of a run.

ghost use Rattle.std.specs.Prelude.{◌≡◌, ◌∷◌, [], List, Option, IfOk, OnErr, OnOk};
ghost use Rattle.host_calls.specs.Settings.{HostSettings};
ghost use Rattle.initd_command.specs.Ran.{HasSettings};
ghost use Rattle.initd_command.specs.Words.{HostCall, NewCallsSatisfy, RunArguments, run_of};

use host_calls::Host;
use init_words::Memory;
use initd_options::RunWords;
use program_io::ChannelLock;
use std::alloc::Global;

/// A source of hosts, to which a host is returned after the turns.
///
/// A contract sees the calls that were made to its hosts, if the hosts record them, and the calls that these hosts
/// made to the system to answer them.
pub trait Hosts<H: Host> {
    /// The calls made to its hosts, with their answers, newest first. `None` once a call was not recorded.
    ghost told: { Self → Option (List HostCall) };

    /// The arguments with which its hosts were opened, newest first. `None` once an opening was not recorded.
    ghost opened: { Self → Option (List RunArguments) };

    /// A property of the calls made to its hosts, and of the calls that the hosts made to the system to answer them,
    /// given the settings of the hosts, if they are known.
    ghost conforms: { Self → Option HostSettings → Type 0 };

    /// Returns the host that the arguments of a run describe, with the lock of its channel. Its record continues the
    /// record of the hosts before it.
    fn open(&mut self, alloc: Global, options: &RunWords, lock: ChannelLock) -> Result<H, Memory>
        ensures told { IfOk result (λ host. H.told host ≡ told self.old) }
        ensures settings { IfOk result (λ host.
            HasSettings (run_of options.now) (H.settings host)) }
        // the source records that a host was opened with these arguments, or records nothing from here on
        ensures opened { OnOk result (NewCallsSatisfy (opened self.old) (opened self.new)
            (λ saids. saids ≡ run_of options.now ∷ [])) }
        ensures err { OnErr result (told self.new ≡ told self.old) };

    /// Accepts a host after its turns, and returns whether the host printed all its output.
    fn close(&mut self, host: H) -> bool
        // the record of the source is that of the host, and `conforms` holds for the settings of the host
        ensures told { told self.new ≡ H.told host }
        ensures opened { opened self.new ≡ opened self.old }
        ensures conforms { conforms self.new (H.settings host) };
}
