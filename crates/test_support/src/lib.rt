//! Shared parts of tests:
//!
//! - command lines, rows of test data and differences from them, and programs that run the rows of standard input;
//! - the replies of a scripted host as text;
//! - values on the heap, and heaps that are full except for some bytes;
//! - a writer that accepts one byte per write until it is full, then fails or accepts none, and may fail to flush.
#![tactic(auto)]

mod again;
mod boxes;
mod differences;
mod growths;
mod heaps;
mod replies;
mod rows;
mod texts;
mod words;
mod writers;

pub use again::{Again, SYSTEM, is_again, is_said};
pub use boxes::boxed;
pub use differences::{difference, first_difference, row_difference};
pub use growths::{Outcome, first_unrefused, refusals};
pub use heaps::fill;
pub use replies::{
    blocks_of, bytes_of, calls_of, give, given, host_of, late_of, part_of, reply_of, table_of,
};
pub use rows::play_rows;
pub use texts::{answer_of, fields_of, happening_of, lines_of};
pub use words::line_words;
pub use writers::Slow;
