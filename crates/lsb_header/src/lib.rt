//! Reads the comment block at the beginning of an init script (LSB Core 5.0, System Initialization): the names
//! that the script provides and needs, the runlevels in which it is started and stopped, and its two descriptions.
#![tactic(auto)]

mod blocks;
mod checks;
mod faults;
mod forms;
mod headers;
mod keywords;
mod pieces;
mod places;
mod texts;

pub use blocks::{block_line, find_header};
pub use faults::HeaderFault;
pub use forms::known_of;
pub use headers::{Header, read};
pub use keywords::Keyword;
pub use places::second_keyword_line;
