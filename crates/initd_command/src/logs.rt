//! The log of a run that writes no trace.

use std::alloc::Allocator;
use trace_events::HappeningIn;
use trace_log::{EndedLog, Log, LogFault};

/// A log that accepts everything and keeps nothing.
#[derive(Drop)]
pub(crate) struct NoLog {}

impl Log for NoLog {
    ghost use Rattle.std.specs.Prelude.{false, None, ⊤};
    ghost use Rattle.initd_command.specs.Words.{LogState};

    ghost state = { λ _.
        let nothing : LogState = record { taken = λ _. ⊤; failed = false; noted = None } in
        nothing };

    fn take<B: Allocator>(&mut self, _happening: &HappeningIn<B>) -> Result<(), LogFault> {
        Ok(())
    }

    fn failed(&self) -> bool {
        false
    }
}

impl EndedLog for NoLog {
    ghost use Rattle.std.specs.Prelude.{⊤};

    type Left = ();

    ghost has_ended = { λ _ _ _. ⊤ };

    fn end(self) -> ((), bool) {
        ((), true)
    }
}
