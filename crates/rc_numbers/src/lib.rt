//! Numbers places, some of which need others: a place's number is 1, or one more than the greatest number of the places
//! that it needs. If that is impossible, finds a cycle of needs.
#![tactic(auto)]

mod cycles;
mod numbering;
mod passes;

pub use numbering::ordered;
