//! The `telinit` program: reads a command line (telinit(8)) and appends one request block (initreq.h) to init's
//! channel.
#![tactic(auto)]

mod channel;
mod channels;
mod command;
mod os_channels;
mod run;

pub use channels::{Channels, FoundChannel};
pub use command::{Words, frame_of, read_words};
pub use os_channels::OsChannels;
pub use run::{MANUAL, run_words};
