use std::alloc::Global;
use std::io;
use std::io::{ErrorKind, Write};

/// A writer that accepts one byte per write. After `room` bytes it fails, or accepts none.
#[derive(Drop)]
pub struct Slow {
    /// The bytes that it accepted.
    pub taken: Vec<u8>,
    /// The number of bytes that it accepts.
    pub room: usize,
    fails: bool,
    /// Whether it can't be flushed.
    is_stuck: bool,
}

impl Slow {
    /// Creates a writer that has accepted nothing.
    pub fn new(alloc: Global, room: usize, fails: bool, is_stuck: bool) -> Slow {
        Slow {
            taken: Vec::new(alloc),
            room,
            fails,
            is_stuck,
        }
    }

    /// Returns the prefix of a line for which it has room.
    pub fn front_of<'l>(&self, line: &'l str) -> &'l [u8] {
        line.as_bytes().get(..self.room).unwrap_or(line.as_bytes())
    }
}

impl Write for Slow {
    fn write(&mut self, buf: &[u8]) -> io::Result<usize> {
        let [first, ..] = buf else {
            return Ok(0);
        };
        if self.taken.len() < self.room {
            self.taken.push(*first)?;
            return Ok(1);
        }
        if self.fails {
            return Err(io::Error::from(ErrorKind::BrokenPipe));
        }
        Ok(0)
    }

    fn flush(&mut self) -> io::Result<()> {
        if self.is_stuck {
            return Err(io::Error::from(ErrorKind::BrokenPipe));
        }
        Ok(())
    }
}
