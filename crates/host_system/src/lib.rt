//! A host that asks the operating system: real children, the request channel, the files of the inittab, and the state
//! file. It reports values (`host_lines`) to a crate that words them (`host_messages`).
//!
//! `adding` keeps, for proofs alone, the list of calls that were made to the host, with its answers. The list has no
//! bytes, and a running program spends nothing on it.
#![tactic(auto)]

mod adding;
mod bell_making;
mod child_messages;
mod children;
mod commands;
mod deadlines;
mod delays;
mod held;
mod host_options;
mod inherited;
mod launches;
mod laws;
mod left;
mod logs;
mod noting;
mod os_hosts;
mod outputs;
mod pauses;
mod steady_clocks;
mod systems;
mod terms;
mod watchers;
mod watching;

pub use adding::{CallList, no_calls};
pub use host_options::{HostOptions, Pace};
pub use inherited::{ignored_signals, ignores_children};
pub use laws::law_of_asked_calls;
pub use noting::{SystemCallList, nothing_asked};
pub use os_hosts::OsHost;
pub use systems::{OsSystem, System};
