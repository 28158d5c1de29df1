//! Prints and reads the text of a trace: one line per happening; the line of a new table is followed by the lines of
//! the table (init-trace(5)).
#![tactic(auto)]

mod printing;
mod reading;
/// Reads the words of a line.
pub mod words;

pub use printing::{print, print_one, print_table};
pub use reading::{LINE_LIMIT, ReadFault, first_happening, line_count, read};
