//! Simulates a run of init over a script of what the system does.
#![tactic(auto)]

mod handing;
mod laws;
mod objections;
mod running;
mod simulated;
mod writers;

pub use laws::law_of_runs;
pub use objections::Objection;
pub use running::{SimFault, simulate};
pub use simulated::SimulatedSystem;
pub use writers::{ScriptWriter, Untold};
