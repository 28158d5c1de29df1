//! Input and output that the programs share: command-line arguments, reading files, the file of the request channel,
//! writing texts and reports, and exit statuses.
#![tactic(auto)]

mod arguments;
mod channel_files;
mod faults;
mod files;
mod holders;
mod kept_texts;
mod limits;
mod noted;
mod reasons;
mod reports;
mod standard;
mod statuses;
mod takers;
mod texts;
mod writing;

pub use arguments::{only_byte, report_unread_words, report_usage, unread_status, words};
pub use channel_files::{ChannelLock, OpenChannel, REQUEST, is_read, lock_channel, read_request};
pub use faults::{report_failure, report_fault, report_no_memory};
pub use files::{READS_LIMIT, are_one_file, open_plain, read_all, read_file, refuse_special};
pub use holders::lock_holder;
pub use kept_texts::KeptTexts;
pub use limits::{file_size_limit, refuse_too_large};
pub use noted::{Noted, Reads};
pub use reasons::{REASON_LIMIT, Reason, reason_text};
pub use reports::{Reporter, Reports};
pub use standard::{StandardFiles, StandardOutput};
pub use statuses::{DEVICE_FAULT, DONE, LIMIT_REACHED, REFUSED, UNLAWFUL};
pub use takers::{PIECE_LIMIT, PIECES_LIMIT, PieceTaker, hand_over};
pub use texts::Texts;
pub use writing::{write_text, write_texts};
