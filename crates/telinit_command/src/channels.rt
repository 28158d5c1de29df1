//! The channels to which request blocks are appended.

ghost use Rattle.std.specs.Prelude.{◌≡◌, length, IfOk, IfSome, OnOk, OnErr};
ghost use Rattle.telinit_command.specs.Channels.{AreSame, AppendsToChannel, AppendsPrefixToChannel, KnownBytes};

use initctl_frame::BLOCK;
use std::io;

/// The state of a channel when it is opened.
#[derive(Drop)]
pub struct FoundChannel {
    /// Whether it did not exist and was created.
    pub was_made: bool,
    /// Its length in bytes.
    pub length: u64,
}

/// Opens channels of requests (initreq.h), and appends to them.
///
/// Its contracts refer to the bytes of the channel at a path, if they are known. A channel that does not exist has
/// none.
pub trait Channels {
    /// The bytes of the channel at a path, or `None` if they are not known.
    ghost bytes_at: { Self → KnownBytes };

    /// Opens the channel at a path, and creates an empty one if it does not exist.
    fn open(&mut self, path: &str) -> io::Result<FoundChannel>
        ensures same { AreSame (bytes_at self.old) (bytes_at self.new) }
        ensures length { IfOk result (λ found. IfSome (bytes_at self.old path.now)
            (λ bytes. found.length ≡ length bytes)) };

    /// Appends a block to the channel at a path, which must be the last one opened. If this fails, a prefix of the
    /// block may have been appended.
    fn append(&mut self, path: &str, block: &[u8; BLOCK]) -> io::Result<()>
        ensures ok { OnOk result
            (AppendsToChannel path.now block.now (bytes_at self.old) (bytes_at self.new)) }
        ensures err { OnErr result
            (AppendsPrefixToChannel path.now block.now (bytes_at self.old) (bytes_at self.new)) };

    /// Returns whether an init reads the channel at a path, which must be the last one opened, or an earlier file at
    /// this path.
    fn is_read(&self, path: &str) -> io::Result<bool>;
}
