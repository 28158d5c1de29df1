//! The checker of traces: it decides whether a run of init obeyed the seven laws and, if not, finds the first breach.
//!
//! It judges any list of happenings, including forged ones, in one pass. It keeps only the facts that the laws depend
//! on and not the earlier happenings, so the cost of a happening depends only on the number of entries and of living
//! children at that moment.
//!
//! `check` judges a whole trace; `TraceJudge` judges a trace that arrives one happening at a time.
#![tactic(auto)]

mod children;
mod flaws;
mod judge;
mod laws;
mod limits;
mod maps;
mod parts;
mod pass;
mod readings;
mod spells;
mod tables;
mod trace_judges;

pub use laws::Law;
pub use pass::{Verdict, check};
pub use trace_judges::TraceJudge;
