//! The interface between init and the system, as a trait: starting children, looking at them and sending them signals,
//! reading requests and inittab, and carrying init's state to a new init. A host records its calls and counts its
//! faults.
//!
//! `host_system` implements the trait for a machine, and `host_scripted` for tests; `test_hosts` tests both. To add a
//! call, change `Call`, `Reply`, both hosts, and the parts of `supervisor` that describe them.
#![tactic(auto)]

mod calls;
mod faults;
mod hosts;
mod parts;

pub use calls::{Bytes, Call, CallIn, HostFault, Reply};
pub use faults::{counted, is_failed_late, is_failed_reply};
pub use hosts::Host;
pub use parts::{PartList, parts_copy};
