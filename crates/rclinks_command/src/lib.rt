//! The command line of `rclinks`: reads init scripts, reports faults in them, and prints or creates the links in the
//! runlevels' folders, with the least numbers that the scripts' headers allow (LSB Core 5.0).
#![tactic(auto)]

mod answer;
mod command;
mod facilities;
mod faulty;
mod files;
mod folders;
mod line;
mod planned;
mod reading;
mod remarks;
mod report;
mod skipping;
mod telling;
mod writing;

pub use command::{MANUAL, run_words};
pub use files::{FileFault, script_in};
pub use folders::{LinkCalls, LinkFolders, SystemFolders};
