//! The reader and writer of inittab(5).
//!
//! The reader turns a text, or several texts in order, into a table of entries, which keeps the order of the lines and
//! finds entries by id. It skips each line that fails a check, and reports it as a fault. The writer writes one line
//! per entry; reading these lines yields the same table.
#![tactic(auto)]

mod checks;
mod faults;
mod fields;
mod kept;
mod parts;
mod reading;
mod tables;
mod writing;
mod written;

pub use faults::{LineFault, LineKind, PartFault, TableFault};
pub use fields::Fields;
pub use parts::{PART_LIMIT, read_parts};
pub use reading::{TEXT_LIMIT, read};
pub use tables::{ENTRY_LIMIT, Table};
pub use writing::{write, write_line};
pub use written::{read_written, table_begun};
