//! The decisions of init: its next step, given its table, its records of children, and what has happened (init(8)).
//!
//! A `Core` neither starts nor stops anything itself. `next` returns the step that is due, and its caller carries it
//! out. The caller then calls `answer`, `got`, `adopt`, `clock` or `nudge` to report results, requests, tables and
//! clock readings.
#![tactic(auto)]

mod calling;
mod cores;
mod deciding;
mod rebuilding;
mod rules;
mod state;
mod walk_places;
mod walking;

pub use child_table::{KnownChild, Slot, Stop};
pub use core_model::{law_agreement, law_of_acts};
pub use cores::Core;
pub use rebuilding::Rebuild;
pub use trace_events::{Goal, Step};
