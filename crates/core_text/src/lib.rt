//! The text of init's state, which allows init to re-execute itself without losing a child (telinit(8), `u`).
//!
//! The text has one line for each field, one for each entry of the table and one for each record, and a last line that
//! counts them. Each state has exactly one text in each version, and the reader detects a text that was cut short. The
//! first line names the version. Init writes version 2, and reads versions 1 and 2.
#![tactic(auto)]

mod fields;
mod laws;
mod reading;
mod state_fault;
mod versions;
mod words;
mod writing;

pub use laws::{law_of_prefixes, law_of_texts};
pub use reading::{generation_of, read_state};
pub use state_fault::StateFault;
pub use writing::write_state;
