//! Logs that pass their happenings on to another log. `BriefLog` passes on the brief form of the trace. `NotingLog`
//! collects the report for the end of a run, and checks the laws during the run.
//!
//! The brief form of a trace omits idle rounds and looks that found nothing. The brief form of a sound trace is sound,
//! so it can be judged in place of the trace. It cannot be replayed: the omitted looks were due, so in general not
//! every step of a brief trace is the first due one.
#![tactic(auto)]

mod brief_logs;
mod held;
mod judgements;
mod laws;
mod passed_over;
mod run_notes;
mod watched_logs;

pub use brief_logs::BriefLog;
pub use held::{HeldBack, HeldLook};
pub use judgements::Judgement;
pub use laws::{law_of_brief, law_of_held};
pub use run_notes::{Numbers, RunNotes};
pub use watched_logs::NotingLog;
