//! The files that initd reads and writes while it runs: the request channel with its bell, the inittab with its
//! folder, and the state file. No process is started here; `host_system` has the other calls of a host to the system.
#![tactic(auto)]

mod bells;
mod boxes;
mod channel_files;
mod channel_notes;
mod channel_progress;
mod channels;
mod folders;
mod inittab_files;
mod state_files;

pub use boxes::boxed;
pub use channel_files::{ChannelCallList, ChannelFile, FoundFile, OsChannelFile, nothing_read};
pub use channels::Channel;
pub use folders::{FolderFault, IgnoringListener, SkippedFileListener, is_hidden, with_folder};
pub use inittab_files::InittabFiles;
pub use state_files::StateFile;
