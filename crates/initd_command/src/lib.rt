//! The program `initd`: the commands that its arguments name, the files that they use, and the reports of faults.
#![tactic(auto)]

mod check;
mod command;
mod ends;
mod hosts;
mod inherited;
mod laws;
mod lines;
mod logs;
mod on_system;
mod os_hosts;
mod reports;
mod run;
mod simulate;
mod watchers;

pub use command::{SHORT_USAGE, run_words};
pub use hosts::Hosts;
pub use laws::{law_of_a_channel, law_of_a_run, law_of_telinit};
pub use on_system::run_on_system;
pub use os_hosts::OsHosts;
pub use run::make_turns;
pub use simulate::simulate_texts;
