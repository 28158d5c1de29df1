//! The command line of `initd`: its commands, options and arguments, and the reasons for rejecting them; see initd(8).
#![tactic(auto)]

mod command;
mod options;

pub use command::{CheckWords, SimulateWords, Words, read_words};
pub use command_words::WordFault;
pub use options::RunWords;
