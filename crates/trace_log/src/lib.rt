//! The trait of a log, which records the happenings of a run one at a time until it fails, and two logs: `ListLog`
//! keeps the happenings in a list, and `StreamLog` writes their text.
#![tactic(auto)]

mod faults;
mod list_logs;
mod logs;
mod stream_logs;

pub use faults::LogFault;
pub use list_logs::ListLog;
pub use logs::{EndedLog, Log};
pub use stream_logs::StreamLog;
