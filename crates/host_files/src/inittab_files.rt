//! The files of the inittab, as a host reads them.

ghost use Rattle.std.specs.Prelude.{◌≡◌, IfOk};
ghost use Rattle.host_files.specs.Folders.{IsOwnFirst, text_of};

use crate::boxes::boxed;
use crate::folders::{FolderFault, SkippedNames, with_folder};
use host_lines::{Doing, HostLine, MessageSink, Trouble};
use init_words::Part;
use inittab_text::TableFault;
use std::alloc::{AllocError, Allocator};
use std::io;
use std::io::{Error, ErrorKind};
use std::marker::Model;
use std::rt::Files;

/// The files of the inittab.
#[derive(Drop)]
pub struct InittabFiles<A: Allocator> {
    path: String<A>,
    reading: Trouble,
    /// The folder of its further files, if it has one.
    folder: Option<String<A>>,
    listing: Trouble,
    passed: SkippedNames<A>,
}

impl<A: Allocator> Model for InittabFiles<A> {
    ghost use Rattle.std.specs.Prelude.{List, string_bytes, ℕ};

    ghost Value = { List ℕ };

    ghost view = { λ files. string_bytes files.path };
}

impl<A: Allocator + Copy> InittabFiles<A> {
    /// Returns the inittab with its main file at this path, and its further files in this folder.
    pub fn new(
        alloc: A,
        path: &str,
        folder: Option<&str>,
    ) -> Result<Box<InittabFiles<A>, A>, AllocError>
        ensures { IfOk result (λ made. made.value ≡ path.now) }
    {
        let folder = match folder {
            Some(folder) => Some(String::from_str(alloc, folder)?),
            None => None,
        };
        let files = InittabFiles {
            path: String::from_str(alloc, path)?,
            reading: Trouble::new(Doing::Read),
            folder,
            listing: Trouble::new(Doing::Read),
            passed: SkippedNames::new(alloc, false),
        };
        boxed(alloc, files)
    }

    /// Returns the path of the inittab's main file.
    pub fn path(&self) -> &str
        ensures { result.now ≡ self.now }
    {
        self.path.as_str()
    }

    /// Enables reports of ignored files that appear in the folder from now on.
    pub fn tell_all<R: Files>(&mut self, rt: &R)
        ensures { self.new ≡ self.old }
    {
        if let Some(folder) = &self.folder {
            self.passed.tell_further(rt, folder.as_str());
        }
    }

    /// Returns the parts of the inittab: its main file, with this text or read error, and the files of its folder, if
    /// it has one, which are read now.
    pub fn read<R: Files + MessageSink, B: Allocator + Copy>(
        &mut self,
        rt: &R,
        alloc: B,
        text: io::Result<Vec<u8, B>>,
    ) -> io::Result<Vec<Part<B>, B>>
        ensures same { self.new ≡ self.old }
        ensures main_part { IfOk result (λ parts. IsOwnFirst self.old (text_of text) parts.items) }
    {
        self.reading.tell(rt, self.path.as_str(), &text);
        let name = String::from_str(alloc, self.path.as_str())?;
        let main_part = Part { name, bytes: text? };
        let folder = self.folder.as_ref().map(String::as_str);
        match with_folder(rt, alloc, main_part, folder, &mut self.passed) {
            Ok(parts) => {
                self.listing.tell_over(rt, folder.unwrap_or(""));
                Ok(parts)
            }
            Err(FolderFault::Unread(path, error)) => {
                self.listing.tell_begun(rt, path.as_str(), &error);
                Err(error)
            }
            Err(FolderFault::Memory) => Err(Error::from(ErrorKind::OutOfMemory)),
        }
    }

    /// Reports why no table could be read from the parts.
    pub fn tell_no_table(&mut self, rt: &impl MessageSink, fault: TableFault)
        ensures { self.new ≡ self.old }
    {
        let path = self.path.as_str();
        match fault {
            TableFault::TooLong => rt.tell(&HostLine::TooLong { path }),
            TableFault::Parts => rt.tell(&HostLine::TooMany { path }),
            TableFault::Memory => {
                self.reading
                    .tell_begun(rt, path, &Error::from(ErrorKind::OutOfMemory));
            }
        }
    }
}
