//! Parsing of byte strings without copying: lines, fields between separators, words between blanks and tabs, and
//! decimal numbers in strict form.
#![tactic(auto)]

mod blanks;
mod lines;
mod numbers;
mod words;

pub use blanks::{has_blank, is_all_blank, is_blank, trimmed, without_blanks, without_tail};
pub use lines::{after_lines, cut, ended, first_line, is_utf8, newlines, next_line};
pub use numbers::{read_below, read_number};
pub use words::next_word;
