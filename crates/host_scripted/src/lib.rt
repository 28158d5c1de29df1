//! A host that answers from a script and records the calls that it receives.
#![tactic(auto)]

mod queues;
mod recording;
mod scripted;

pub use scripted::MemoryHost;
