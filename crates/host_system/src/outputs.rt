//! The standard output of a host: announcements, and the faults of the inittab's lines.

use host_lines::{Doing, MessageSink, Trouble};
use init_words::Part;
use inittab_text::PartFault;
use std::alloc::Allocator;
use std::io;
use trace_events::HappeningIn;

/// The standard output of a host.
#[derive(Drop)]
pub(crate) struct Output<A: Allocator> {
    alloc: A,
    saying: Trouble,
    /// Whether something could not be printed.
    lost: bool,
}

impl<A: Allocator + Copy> Output<A> {
    /// Returns an output before anything was printed. This allocates no memory.
    pub(crate) fn new(alloc: A) -> Output<A> {
        Output {
            alloc,
            saying: Trouble::new(Doing::Write),
            lost: false,
        }
    }

    /// Prints init's announcement of the happening, if it has one, without delay. Returns whether it was printed; a
    /// failure is reported.
    pub(crate) fn announce<R: MessageSink, B: Allocator>(
        &mut self,
        rt: &R,
        happening: &HappeningIn<B>,
    ) -> bool {
        let printed = rt.announce(self.alloc, happening);
        self.note(rt, &printed)
    }

    /// Prints the faults of the lines of an inittab's parts. Returns whether they were printed; a failure is reported.
    pub(crate) fn print_faults<R: MessageSink, B: Allocator>(
        &mut self,
        rt: &R,
        parts: &[Part<B>],
        faults: &[PartFault],
    ) -> bool {
        let printed = rt.print_faults(self.alloc, parts, faults);
        self.note(rt, &printed)
    }

    /// Returns whether all output was printed.
    pub(crate) fn has_printed(&self) -> bool {
        !self.lost
    }

    /// Reports whether a text could be printed, unless the text is empty.
    fn note<R: MessageSink>(&mut self, rt: &R, printed: &io::Result<usize>) -> bool {
        if !matches!(printed, Ok(0)) {
            self.saying.tell(rt, "standard output", printed);
        }
        self.lost |= printed.is_err();
        printed.is_ok()
    }
}
