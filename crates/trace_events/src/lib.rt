//! The trace of a run of init: a list of happenings that records what init did, what the system did, and what passed
//! between them.
//!
//! The definitions of this crate say which steps init owes, which traces a sound system allows, and which laws those
//! traces obey.
#![tactic(auto)]

mod call_sets;
mod copies;
mod happenings;
mod ranges;
mod steps;

pub use call_sets::CallSet;
pub use copies::happening_copy;
pub use happenings::{Handed, Happening, HappeningIn};
pub use ranges::law_of_ranges;
pub use steps::{Goal, Step, in_run, is_level};
