//! The model of init's decisions, as definitions: the state that init keeps, the step that it decides on, and how each
//! happening changes the state (init(8)). The laws in this crate relate the model to the trace of a run. The
//! implementation is in `level_core`.
//!
//! A core fits a trace if its state is the one computed from the trace. Then the step that it decides on is the first
//! due step, and its children, corrected for the answers not yet told to init, are the children of the system.
#![tactic(auto)]

mod headline;
mod laws;
mod parts;

pub use headline::law_agreement;
pub use laws::{law_of_acts, law_of_lasts};
pub use parts::{CoreFields, Parts, PlainSlot};
