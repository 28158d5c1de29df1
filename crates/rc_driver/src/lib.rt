//! Runs the scripts of a runlevel on a host, one at a time, and writes their lines (LSB Core 5.0, System
//! Initialization).
//!
//! `Rc` yields the scripts for a change of runlevel in order, one at a time: the link in the runlevel's folder and the
//! argument.
#![tactic(auto)]

mod driving;
mod links;
mod printing;
mod progress;
mod runs;
mod times;
mod writing;

pub use driving::{RunEnd, run_links};
pub use printing::print_links;
pub use runs::{Arg, LevelChange, NotAsked, Rc, RcAnswer, RcStep, ScriptOptions};
