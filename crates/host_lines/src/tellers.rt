//! The trait of reporters, which word and print the lines of a host.

use crate::lines::HostLine;
use init_words::Part;
use inittab_text::PartFault;
use std::alloc::Allocator;
use std::io;
use trace_events::HappeningIn;

/// A reporter, which words and prints the lines of a host.
pub trait MessageSink {
    /// Reports a line on standard error.
    fn tell(&self, line: &HostLine<'_>);

    /// Prints init's announcement of a happening, if it has one, on standard output without delay. Returns the length
    /// of the announcement in bytes.
    fn announce<A: Allocator, B: Allocator>(
        &self,
        alloc: A,
        happening: &HappeningIn<B>,
    ) -> io::Result<usize>;

    /// Prints the faulty lines of an inittab's parts on standard output, and reports byte order marks. Returns the
    /// length in bytes of the lines about faults.
    fn print_faults<A: Allocator + Copy, B: Allocator>(
        &self,
        alloc: A,
        parts: &[Part<B>],
        faults: &[PartFault],
    ) -> io::Result<usize>;
}
