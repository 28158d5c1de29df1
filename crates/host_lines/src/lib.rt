//! The lines that a host reports, as values: the kind of each line, and its parameters. The wording is not part of
//! this crate: the caller passes a reporter to the host, which words and prints the lines (`host_messages`). So no
//! host has to be proved again when the wording changes.
#![tactic(auto)]

mod child_lines;
mod costs;
mod lines;
mod runtimes;
mod tellers;
mod troubles;

pub use child_lines::{ChildEnd, ChildMessage};
pub use costs::ChildLine;
pub use lines::{Doing, HostLine, Power};
pub use runtimes::TellingRuntime;
pub use tellers::MessageSink;
pub use troubles::Trouble;
