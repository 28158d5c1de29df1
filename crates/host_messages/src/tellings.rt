//! The wording of each line of a host.

use crate::announcements::announcement_text;
use crate::channel_lines::{
    tell_made_anew, tell_more_passed_over, tell_old, tell_other_owner, tell_passed_over, tell_torn,
    tell_whole, tell_written_over,
};
use crate::child_words::tell_of_child;
use crate::file_lines::{tell_log, tell_no_bell, tell_no_log, tell_passed};
use crate::line_faults::{faults_text, tell_marked, tell_refused, tell_too_long, tell_too_many};
use crate::troubles::{
    tell_cut, tell_failure, tell_older, tell_over, tell_uncounted, tell_unsendable,
};
use host_lines::{HostLine, MessageSink};
use init_words::Part;
use inittab_text::PartFault;
use std::alloc::Allocator;
use std::io;
use std::io::ErrorKind;
use trace_events::HappeningIn;

/// A reporter that words the lines of a host, and prints them.
#[derive(Drop)]
pub struct Worded<P: Print + Eprint> {
    /// The name of the program, which each line begins with.
    program: &'static str,
    printer: P,
}

impl<P: Print + Eprint> Worded<P> {
    /// Creates a reporter for the program of this name, which prints through this printer.
    pub fn new(program: &'static str, printer: P) -> Worded<P> {
        Worded { program, printer }
    }
}

impl<P: Print + Eprint> MessageSink for Worded<P> {
    fn tell(&self, line: &HostLine<'_>) {
        tell_line(&self.printer, self.program, line);
    }

    fn announce<A: Allocator, B: Allocator>(
        &self,
        alloc: A,
        happening: &HappeningIn<B>,
    ) -> io::Result<usize> {
        printed(&self.printer, announcement_text(alloc, happening))
    }

    fn print_faults<A: Allocator + Copy, B: Allocator>(
        &self,
        alloc: A,
        parts: &[Part<B>],
        faults: &[PartFault],
    ) -> io::Result<usize> {
        tell_marked(&self.printer, parts);
        printed(&self.printer, faults_text(alloc, parts, faults))
    }
}

/// Prints a text on standard output, and returns its length.
fn printed<R: Print, A: Allocator, E: Drop>(
    rt: &R,
    text: Result<Vec<u8, A>, E>,
) -> io::Result<usize> {
    match text {
        Ok(text) => rt.write_all(text.as_slice()).map(|()| text.len()),
        Err(_) => Err(io::Error::from(ErrorKind::OutOfMemory)),
    }
}

fn tell_line(rt: &impl Eprint, program: &'static str, line: &HostLine<'_>) {
    match line {
        HostLine::Fails { doing, what, error } => tell_failure(rt, program, *doing, what, error),
        HostLine::WorksAgain { doing, what } => tell_over(rt, program, *doing, what),
        HostLine::OfChild { id, message } => tell_of_child(rt, program, id, message),
        HostLine::Uncounted => tell_uncounted(rt, program),
        HostLine::Unsendable { groups, error } => tell_unsendable(rt, program, *groups, error),
        HostLine::NoLog { id, log, error } => tell_no_log(rt, id, log, error),
        HostLine::Log { id, log } => tell_log(rt, id, log),
        HostLine::NoBell { path, error } => tell_no_bell(rt, path, error),
        HostLine::Old {
            path,
            length,
            fresh,
        } => tell_old(rt, path, *length, *fresh),
        HostLine::MadeAnew { path } => tell_made_anew(rt, path),
        HostLine::OtherOwner {
            path,
            before,
            owner,
            power,
        } => tell_other_owner(rt, path, *before, *owner, *power),
        HostLine::WrittenOver { path } => tell_written_over(rt, path),
        HostLine::Torn { path, over } => tell_torn(rt, path, *over),
        HostLine::Whole { path } => tell_whole(rt, path),
        HostLine::PassedOver {
            path,
            number,
            cause,
        } => tell_passed_over(rt, path, *number, *cause),
        HostLine::MorePassedOver { path } => tell_more_passed_over(rt, path),
        HostLine::PassedFile { folder, name } => tell_passed(rt, folder, name),
        HostLine::TooLong { path } => tell_too_long(rt, path),
        HostLine::TooMany { path } => tell_too_many(rt, path),
        HostLine::Refused { path } => tell_refused(rt, path),
        HostLine::HandedCut(length) => tell_cut(rt, *length),
        HostLine::HandedOlder(generation) => tell_older(rt, *generation),
    }
}
