//! The laws of simulated runs.

ghost use Rattle.std.specs.Prelude.{◌≡◌, ℕ, List, None};
ghost use Rattle.simulator.specs.Words.{Event};
ghost use Rattle.trace_events.specs.Lawful.{first_breach};
ghost use Rattle.simulator.specs.Simulation.{RunsToRest, RunOver, Scenario};

/// States the laws of simulated runs in its contract. The function itself does nothing.
///
/// The trace of a run over a script, or over a first part of one, breaks no law. And the run is unique: for a level, an
/// inittab and a script there is only one run after which init is at rest.
pub fn law_of_runs()
    ensures lawful { (s : Scenario) (rest : List ℕ) (past : List Event)
        → RunOver s rest past → first_breach past ≡ None }
    ensures only { (s : Scenario) (rest : List ℕ) (past other : List Event)
        → RunsToRest s rest past → RunsToRest s rest other → past ≡ other }
{}
