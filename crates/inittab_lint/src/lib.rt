//! Checks an inittab(5) before init uses it: warns about lines that init accepts but that do not do what they seem to
//! do, and suggests the action that an unknown word probably means.
#![tactic(auto)]

mod linting;
mod programs;
mod shell;
mod slips;
mod traps;

pub use linting::warnings;
pub use programs::program_of;
pub use shell::{Operator, operator_of};
pub use slips::meant;
pub use traps::{LineWarning, Warning};
