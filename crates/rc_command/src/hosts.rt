//! The host of a run of `rc`.

ghost use Rattle.std.specs.Prelude.{◌≡◌, [], IfOk};

use host_lines::TellingRuntime;
use host_messages::Worded;
use host_system::{HostOptions, OsHost, OsSystem, Pace};
use init_words::Memory;
use std::alloc::Global;
use std::fs::File;
use std::process::Processes;
use std::rt::{Clock, Files};

/// A host that uses the operating system.
pub type RcHost<R> = OsHost<TellingRuntime<R, Worded<R>>, OsSystem<R>>;

/// Creates a host that uses the operating system. A pause lasts a tenth of the time that a script has run, but at most
/// a second.
pub fn os_host<R>(rt: R, alloc: Global) -> Result<RcHost<R>, Memory>
where
    R: Processes + Files<File = File> + Clock + Print + Eprint + Clone + Drop,
    ensures { IfOk result (λ host. host.calls ≡ []) }
{
    let options = HostOptions {
        pace: Pace::Tenth,
        ..HostOptions::none()
    };
    let telling = TellingRuntime::new(rt.clone()?, Worded::new("rc", rt.clone()?));
    OsHost::new(telling, rt, alloc, &options)
}
