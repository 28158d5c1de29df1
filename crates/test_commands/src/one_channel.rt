//! A channel of requests in memory, with limited room.

use initctl_frame::BLOCK;
use std::alloc::{AllocError, Global};
use std::io;
use std::io::{Error, ErrorKind};
use telinit_command::{Channels, FoundChannel};

/// A channel at a path. No other path has a channel.
#[derive(Drop)]
pub(crate) struct OneChannel {
    path: String,
    bytes: Vec<u8>,
    /// The number of bytes that the channel still accepts.
    room: usize,
}

impl OneChannel {
    /// Creates a channel with this number of bytes, all 1, and room for this number of further bytes.
    pub(crate) fn new(
        alloc: Global,
        path: &str,
        length: usize,
        room: usize,
    ) -> Result<OneChannel, AllocError> {
        let mut bytes = Vec::new(alloc);
        for _ in 0..length {
            bytes.push(1)?;
        }
        Ok(OneChannel {
            path: String::from_str(alloc, path)?,
            bytes,
            room,
        })
    }

    pub(crate) fn bytes(&self) -> &[u8] {
        self.bytes.as_slice()
    }
}

impl Channels for OneChannel {
    ghost use Rattle.std.specs.Prelude.{Some, None, if◌then◌else◌, string_bytes};
    ghost use Rattle.std.specs.Str.{bytes_eq};

    ghost bytes_at = { λ one at.
        if bytes_eq at (string_bytes one.path) then Some one.bytes.items else None };

    fn open(&mut self, path: &str) -> io::Result<FoundChannel> {
        if self.path.as_str() != path {
            return Err(Error::from(ErrorKind::NotFound));
        }
        Ok(FoundChannel {
            was_made: self.bytes.is_empty(),
            length: self.bytes.len() as u64,
        })
    }

    fn append(&mut self, path: &str, block: &[u8; BLOCK]) -> io::Result<()> {
        if self.path.as_str() != path {
            return Err(Error::from(ErrorKind::NotFound));
        }
        let taken = self.room.min(BLOCK);
        self.bytes.extend_from_slice(&block[..taken])?;
        if taken < BLOCK {
            return Err(Error::from(ErrorKind::StorageFull));
        }
        Ok(())
    }

    fn is_read(&self, _path: &str) -> io::Result<bool> {
        Ok(true)
    }
}
