//! A law about the calls of a host over a system.

ghost use Rattle.std.specs.Prelude.{List};
ghost use Rattle.host_calls.specs.Calls.{HostCall};
ghost use Rattle.host_calls.specs.Held.{CallsLeaveHeld, HeldChildren};
ghost use Rattle.host_calls.specs.Settings.{HostSettings};
ghost use Rattle.host_system.specs.Asking.{AreSystemCallsFor};
ghost use Rattle.host_system.specs.Systems.{SystemCall};

/// States that calls that satisfy `AreSystemCallsFor` are possible calls of a host that held no child before them. The
/// function does nothing: its contract is the law.
pub fn law_of_asked_calls()
    ensures { (settings : HostSettings) (calls : List HostCall) (held : HeldChildren)
        (asked : List SystemCall) → AreSystemCallsFor settings calls held asked
        → CallsLeaveHeld calls held }
{}
