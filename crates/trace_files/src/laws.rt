//! The law about the trace files of a run that was killed.

ghost use Rattle.std.specs.Prelude.{◌≢◌, ℕ, [], List, false, reverse};
ghost use Rattle.trace_events.specs.declared.steps.Goal.{Goal};
ghost use Rattle.trace_events.specs.Event.{Event};
ghost use Rattle.host_calls.specs.Calls.{HostCall};
ghost use Rattle.supervisor.specs.Crashes.{LeftByCrash};
ghost use Rattle.trace_files.specs.Filed.{HasText};
ghost use Rattle.trace_files.specs.Left.{LeavesFiles};

/// States in its contract what the trace files contain if init is killed during a call of the host. The function itself
/// does nothing.
///
/// If the log had taken a trace that agrees with the state after the kill (`LeftByCrash`), the trace in the files
/// agrees with this state too (`LeavesFiles`), provided that no write to the files failed and they are not empty.
pub fn law_of_the_files()
    ensures { (call : HostCall) (goal : Goal) (world trace : List Event) (bytes unwritten : List ℕ)
        → HasText false trace bytes unwritten → bytes ≢ []
        → LeftByCrash call goal (reverse trace) world
        → LeavesFiles call goal bytes world }
{}
