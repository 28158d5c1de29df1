//! The commands of `initview`, which answer questions about a trace of init and about inittabs.
#![tactic(auto)]

mod asking;
mod charting;
mod command;
mod explaining;
mod following;
mod growing;
mod planning;
mod presence;
mod printing;
mod programs;
mod refusals;
mod reloading;
mod showing;
mod tables;
mod telling;

pub use asking::{Command, LAST_LIMIT, TableQuestion, TraceQuery};
pub use charting::{Form, WIDTH, WIDTH_LEAST, WIDTH_LIMIT};
pub use command::{USAGE, run_words};
pub use growing::{GrowingFile, GrowingFiles, LiveTrace, LiveTraces, Writer};
pub use printing::Printed;
