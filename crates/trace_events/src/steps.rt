//! The steps that init takes, and its goal: the runlevel to reach. `specs/Due` defines which steps are due.
//!
//! The rows of `test_traces` and `test_core` test these steps. A new step also needs a text (`trace_text`), its laws,
//! and a place in the core; the prover reports each of these that is missing.

ghost use Rattle.std.specs.Prelude.{◌≡◌};
ghost use Rattle.trace_events.specs.Wishes.{in_run, is_level};

use init_words::{Id, Letter, Level, OrderKind, PowerKind, Stage};

/// A step of init.
#[derive(Clone, Copy, PartialEq, Eq)]
pub enum Step {
    /// Enter a stage, with this number of seconds between SIGTERM and SIGKILL.
    Enter(Stage, u16),
    /// Call the ondemand entries of a letter.
    Call(Letter),
    /// Call the entries for a power event.
    Power(PowerKind),
    /// Read inittab again.
    Reread,
    /// Give the system an order about an entry.
    Order(Id, OrderKind),
    /// Hold an entry that respawns too fast for five minutes.
    Hold(Id),
    /// Announce that the runlevel is settled.
    Settle(Level),
    /// Re-execute init and keep its state.
    Reexec,
    /// Nothing is due.
    Idle,
}

/// The runlevel to change to, and the seconds between SIGTERM and SIGKILL.
#[derive(Clone, Copy, PartialEq, Eq)]
pub struct Goal {
    pub level: Level,
    pub grace: u16,
}

/// Returns whether the stage is this runlevel.
pub fn is_level(level: Level, stage: Option<Stage>) -> bool
    ensures { result ≡ is_level level stage }
{
    match stage {
        Some(Stage::Run(current)) => level == current,
        _ => false,
    }
}

/// Returns whether the stage is a runlevel.
pub fn in_run(stage: Option<Stage>) -> bool
    ensures { result ≡ in_run stage }
{
    match stage {
        Some(Stage::Run(_)) => true,
        _ => false,
    }
}
