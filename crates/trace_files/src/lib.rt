//! Writes a trace to files. When a file is long enough, it is put away and the trace continues in a new one. Text that
//! cannot be written yet is kept in memory.
#![tactic(auto)]

mod file_logs;
mod files;
mod fronts;
mod laws;
mod listing;
mod os_files;

pub use file_logs::FileLog;
pub use files::{TraceFiles, Traces};
pub use laws::law_of_the_files;
pub use os_files::{OsFiles, OsTraces, takes_lock};
