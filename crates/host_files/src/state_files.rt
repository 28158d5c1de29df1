//! Writes the state file, which contains the text of init's state, and reads it back.

use crate::boxes::boxed;
use host_lines::{Doing, MessageSink, Trouble};
use program_io::{are_one_file, read_file, refuse_too_large, write_text};
use std::alloc::{AllocError, Allocator};
use std::fs::{File, OpenOptions};
use std::io::{Error, ErrorKind};
use std::os::unix::fs::OpenOptionsExt;
use std::rt::Files;
use std::{fs, io};

/// The mode of a new file: only its owner and its group can read it, because it contains the commands of entries.
const MODE: u32 = 0o640;

/// The state file.
#[derive(Drop)]
pub struct StateFile<A: Allocator> {
    path: String<A>,
    /// The path that a text is written to first.
    beside: String<A>,
    /// The path of a further file that the state must not replace.
    spared: String<A>,
    carrying: Trouble,
}

impl<A: Allocator + Copy> StateFile<A> {
    /// Returns the state file at this path. The state must not replace the file at `spared`.
    pub fn new(alloc: A, path: &str, spared: &str) -> Result<Box<StateFile<A>, A>, AllocError> {
        let state = StateFile {
            path: String::from_str(alloc, path)?,
            beside: format!(in alloc; "{path}.new")?,
            spared: String::from_str(alloc, spared)?,
            carrying: Trouble::new(Doing::Carry),
        };
        boxed(alloc, state)
    }

    /// Returns an error, and reports it, if the state could not be written now: its path, or the path that it is
    /// written to first, has something other than a plain file, or another file of the run, such as the inittab or the
    /// channel.
    pub fn tell_blocked<R: Files + MessageSink>(
        &mut self,
        rt: &R,
        inittab: &str,
        channel: &str,
    ) -> io::Result<()> {
        if let Err(error) = self.refuse(rt, self.path.as_str(), inittab, channel) {
            self.carrying.tell_begun(rt, self.path.as_str(), &error);
            return Err(error);
        }
        if let Err(error) = self.refuse(rt, self.beside.as_str(), inittab, channel) {
            self.carrying.tell_begun(rt, self.beside.as_str(), &error);
            return Err(error);
        }
        Ok(())
    }

    /// Returns an error for a symbolic link, for anything but a plain file, and for another file of the run.
    fn refuse<R: Files>(&self, rt: &R, path: &str, inittab: &str, channel: &str) -> io::Result<()> {
        match fs::symlink_metadata(rt, path) {
            Ok(found) if found.is_symlink() => {
                return Err(refusal("it is a symbolic link; name its target instead"));
            }
            Ok(found) if !found.is_file() => return Err(refusal("not a regular file")),
            _ => {}
        }
        if are_one_file(rt, path, inittab)
            || are_one_file(rt, path, channel)
            || are_one_file(rt, path, self.spared.as_str())
        {
            return Err(refusal("this run uses that file for something else"));
        }
        Ok(())
    }

    /// Writes the text to a file next to the state file, renames that file to the path of the state file, and returns
    /// the text that it reads back from there.
    pub fn carry<R: Files<File = File> + MessageSink, B: Allocator>(
        &mut self,
        rt: &R,
        alloc: B,
        inittab: &str,
        channel: &str,
        text: &[u8],
    ) -> io::Result<Vec<u8, B>> {
        self.tell_blocked(rt, inittab, channel)?;
        let back = self.written_and_read(rt, alloc, text);
        self.carrying.tell(rt, self.path.as_str(), &back);
        back
    }

    fn written_and_read<R: Files<File = File>, B: Allocator>(
        &self,
        rt: &R,
        alloc: B,
        text: &[u8],
    ) -> io::Result<Vec<u8, B>> {
        write_whole(rt, self.beside.as_str(), text)?;
        fs::rename(rt, self.beside.as_str(), self.path.as_str())?;
        read_file(rt, alloc, self.path.as_str())
    }
}

fn refusal(reason: &'static str) -> Error {
    Error::new(ErrorKind::InvalidInput, reason)
}

/// Writes a new file with this text, and waits until it is on the disk. An existing file is removed first, so that
/// nothing is written through a link.
fn write_whole<R: Files<File = File>>(rt: &R, path: &str, text: &[u8]) -> io::Result<()> {
    match fs::remove_file(rt, path) {
        Err(error) if error.kind() != ErrorKind::NotFound => return Err(error),
        _ => {}
    }
    let mut file = OpenOptions::new()
        .write(true)
        .create_new(true)
        .mode(MODE)
        .open(rt, path)?;
    refuse_too_large(&file, 0, text.len())?;
    write_text(&mut file, text)?;
    file.sync_all()
}
