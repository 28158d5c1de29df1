//! The position at which a channel is read.

ghost use Rattle.std.specs.Prelude.{◌≡◌, ◌-◌, [], false, nat_le};
ghost use Rattle.program_io.specs.declared.channel_files.TheConstants.{REQUEST};
ghost use Rattle.host_files.specs.Channels.{begun, first_offset, is_replaced, is_another, moved, progress_after, progress_of};

use crate::channel_files::FoundFile;
use program_io::REQUEST;

/// The position at which a channel is read.
#[derive(Clone, Copy)]
pub(crate) struct Progress {
    /// Whether the channel was looked at.
    pub begun: bool,
    /// The number of its bytes that were read or skipped, always a whole number of requests.
    pub heard: u64,
    /// Whether there was no file at the path at the last look.
    pub missing: bool,
    /// The device and the inode number of the file that was last found at the path.
    pub file: Option<(u64, u64)>,
}

impl Progress {
    /// Returns the position before the first look.
    pub fn unread() -> Progress
        ensures { result ≡ progress_of false [] }
    {
        Progress {
            begun: false,
            heard: 0,
            missing: false,
            file: None,
        }
    }

    /// Returns the position after a look that found this file at the path, or none. With `fresh`, reading begins after
    /// the whole requests that the channel has at the first look.
    pub fn after(self, fresh: bool, found: Option<FoundFile>) -> Progress
        ensures { result ≡ progress_after fresh found self }
    {
        self.begun(fresh, found).moved(found)
    }

    fn begun(self, fresh: bool, found: Option<FoundFile>) -> Progress
        ensures { result ≡ begun fresh found self }
    {
        if self.begun {
            return self;
        }
        Progress {
            begun: true,
            heard: first_offset(fresh, found),
            ..self
        }
    }

    fn moved(self, found: Option<FoundFile>) -> Progress
        ensures { result ≡ moved found self }
    {
        let Some(found) = found else {
            return Progress {
                heard: 0,
                missing: true,
                ..self
            };
        };
        Progress {
            begun: self.begun,
            heard: if self.is_replaced(&found) {
                0
            } else {
                self.heard
            },
            missing: false,
            file: Some((found.device, found.number)),
        }
    }

    /// Returns whether the channel was replaced or truncated: a different file than before is at the path, or a file
    /// that is shorter than the part already read.
    pub fn is_replaced(&self, found: &FoundFile) -> bool
        ensures { result ≡ is_replaced self.now found.now }
    {
        self.is_another(found) || found.length < self.heard
    }

    fn is_another(&self, found: &FoundFile) -> bool
        ensures { result ≡ is_another self.now found.now }
    {
        match self.file {
            Some((device, number)) => {
                self.missing || !(device == found.device && number == found.number)
            }
            None => false,
        }
    }

    /// Returns whether a channel of this length has a whole request that was not read.
    pub fn is_request_behind(&self, length: u64) -> bool
        ensures { result ≡ nat_le REQUEST (length - self.now.heard) }
    {
        length.saturating_sub(self.heard) >= REQUEST as u64
    }
}

/// Returns the position of the first request to read: the first byte, or, if earlier requests are skipped, the end of
/// the whole requests that the file has.
fn first_offset(fresh: bool, found: Option<FoundFile>) -> u64
    ensures { result ≡ first_offset fresh found }
{
    match found {
        Some(found) if fresh => found.length - found.length % REQUEST as u64,
        _ => 0,
    }
}
