//! A runtime combined with a reporter.

use crate::lines::HostLine;
use crate::tellers::MessageSink;
use init_words::Part;
use inittab_text::PartFault;
use std::alloc::Allocator;
use std::fmt::Display;
use std::fs::{Metadata, OpenOptions, Permissions};
use std::io;
use std::path::PathBuf;
use std::rt::{Clock, Files};
use std::time::Duration;
use trace_events::HappeningIn;

/// The files and the clock of a runtime, combined with a reporter, which words and prints lines.
#[derive(Drop)]
pub struct TellingRuntime<R, T> {
    rt: R,
    teller: T,
}

impl<R, T> TellingRuntime<R, T> {
    /// Combines a runtime with a reporter.
    pub fn new(rt: R, teller: T) -> TellingRuntime<R, T> {
        TellingRuntime { rt, teller }
    }
}

impl<R, T: MessageSink> MessageSink for TellingRuntime<R, T> {
    fn tell(&self, line: &HostLine<'_>) {
        self.teller.tell(line);
    }

    fn announce<A: Allocator, B: Allocator>(
        &self,
        alloc: A,
        happening: &HappeningIn<B>,
    ) -> io::Result<usize> {
        self.teller.announce(alloc, happening)
    }

    fn print_faults<A: Allocator + Copy, B: Allocator>(
        &self,
        alloc: A,
        parts: &[Part<B>],
        faults: &[PartFault],
    ) -> io::Result<usize> {
        self.teller.print_faults(alloc, parts, faults)
    }
}

impl<R, T: Eprint> Eprint for TellingRuntime<R, T> {
    fn eprint<D: Display + Drop>(&self, value: D) -> io::Result<()> {
        self.teller.eprint(value)
    }

    fn eprintln<D: Display + Drop>(&self, value: D) -> io::Result<()> {
        self.teller.eprintln(value)
    }
}

impl<R: Clock, T> Clock for TellingRuntime<R, T> {
    fn monotonic(&self) -> io::Result<Duration> {
        self.rt.monotonic()
    }

    fn since_1970(&self) -> io::Result<Duration> {
        self.rt.since_1970()
    }

    fn sleep(&self, duration: Duration) {
        self.rt.sleep(duration)
    }
}

impl<R: Files, T> Files for TellingRuntime<R, T> {
    type File = R::File;

    type Dir = R::Dir;

    fn open_file(&self, how: &OpenOptions, path: &str) -> io::Result<R::File> {
        self.rt.open_file(how, path)
    }

    fn open_dir(&self, path: &str) -> io::Result<R::Dir> {
        self.rt.open_dir(path)
    }

    fn metadata(&self, path: &str) -> io::Result<Metadata> {
        self.rt.metadata(path)
    }

    fn symlink_metadata(&self, path: &str) -> io::Result<Metadata> {
        self.rt.symlink_metadata(path)
    }

    fn copy(&self, from: &str, to: &str) -> io::Result<u64> {
        self.rt.copy(from, to)
    }

    fn rename(&self, from: &str, to: &str) -> io::Result<()> {
        self.rt.rename(from, to)
    }

    fn remove_file(&self, path: &str) -> io::Result<()> {
        self.rt.remove_file(path)
    }

    fn create_dir(&self, path: &str) -> io::Result<()> {
        self.rt.create_dir(path)
    }

    fn remove_dir(&self, path: &str) -> io::Result<()> {
        self.rt.remove_dir(path)
    }

    fn remove_dir_all<B: Allocator>(&self, alloc: B, path: &str) -> io::Result<()> {
        self.rt.remove_dir_all(alloc, path)
    }

    fn canonicalize<B: Allocator>(&self, alloc: B, path: &str) -> io::Result<PathBuf<B>> {
        self.rt.canonicalize(alloc, path)
    }

    fn read_link<B: Allocator>(&self, alloc: B, path: &str) -> io::Result<PathBuf<B>> {
        self.rt.read_link(alloc, path)
    }

    fn hard_link(&self, original: &str, link: &str) -> io::Result<()> {
        self.rt.hard_link(original, link)
    }

    fn set_permissions(&self, path: &str, permissions: Permissions) -> io::Result<()> {
        self.rt.set_permissions(path, permissions)
    }

    fn symlink(&self, original: &str, link: &str) -> io::Result<()> {
        self.rt.symlink(original, link)
    }
}
