//! The wording of the lines that a host prints on standard error and standard output, the printers, and the time in
//! front of a line.
//!
//! A host knows its lines as values (`host_lines`), so a change here affects the proofs of the programs, but not those
//! of any host. Texts that a contract fixes are defined in `specs/`; `tools/pages` compares the others with initd(8),
//! and its scenes `messages`, `channel`, `edges` and `logs` run them. A line may be changed here together with its
//! definition and that page.
#![tactic(auto)]

mod announcements;
mod channel_lines;
mod child_words;
mod file_lines;
mod line_faults;
mod names;
mod stamped_printers;
mod tellings;
mod troubles;

pub use announcements::announcement_text;
pub use file_lines::tell_passed;
pub use line_faults::faults_text;
pub use stamped_printers::StampedPrinter;
pub use tellings::Worded;
