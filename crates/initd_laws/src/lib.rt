//! Laws about a run of init that a reader can check against the manual pages of the kernel. They mention only the calls
//! that the run made to the operating system (`SystemCall` of `host_system`), and no internals of init.
//!
//! The definitions are in `specs/Signals` and `specs/Requests`. The calls of each run meet the conditions of the laws:
//! this is the contract of `initd_command::run_words`, and `initd_command::law_of_a_run` states it.
#![tactic(auto)]

mod laws;

pub use laws::{law_of_kills, law_of_targets};
