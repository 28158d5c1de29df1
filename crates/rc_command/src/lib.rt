//! The command line of `rc`: parses its arguments, reads the folders of links that they name, runs the scripts, and
//! reports faults.
#![tactic(auto)]

mod command;
mod folders;
mod hosts;
mod inherited;
mod level_files;
mod on_system;
mod running;

pub use command::{RunOptions, Words, read_words};
pub use command_words::WordFault;
pub use folders::Folders;
pub use hosts::{RcHost, os_host};
pub use inherited::refuse_unwaited;
pub use level_files::LevelFiles;
pub use on_system::run_on_system;
pub use running::{MANUAL, PAUSES_LIMIT, SCRIPT_FAILED, run_names, run_words};
