//! Tests of turns with a log, and of the log's contents after them.

use init_words::Level;
use initd_command::make_turns;
use initd_options::{RunWords, Words, read_words};
use program_io::Reports;
use std::alloc::Global;
use std::test::Fail;
use supervisor::Opening;
use test_support::{boxed, host_of, line_words};
use trace_log::{EndedLog, StreamLog};
use trace_log_wrappers::BriefLog;

pub(crate) const INITTAB: &[u8] = b"r:3:respawn:x\n";

/// The trace of three turns: a child is born in the first, and is alive at the looks in the others.
pub(crate) const TRACE: &[u8] =
    b"use 1\nr:3:respawn:x\nclock 0\nnudge\nenter sysinit 5\nenter boot 5\nenter 3 5\n\
    ask r start\nbirth r 10\ntold r\nsettle 3\n\
    clock 0\nnudge\nask r look\nstill r\ntold r\nclock 0\nnudge\nask r look\nstill r\ntold r\n";

/// The brief form of the trace: it keeps only the last reading of the clock and the last round of the idle rounds.
pub(crate) const BRIEF: &[u8] =
    b"use 1\nr:3:respawn:x\nclock 0\nnudge\nenter sysinit 5\nenter boot 5\nenter 3 5\n\
    ask r start\nbirth r 10\ntold r\nsettle 3\nclock 0\nnudge\n";

/// Returns the arguments of the run.
fn run_of(alloc: Global) -> Result<Box<RunWords>, Fail> {
    let words = line_words(alloc, "run --level 3 --turns 3")?;
    match read_words(alloc, words.as_slice()) {
        Ok(Words::Run(arguments)) => Ok(boxed(alloc, arguments)?),
        _ => Err(Fail::from("no run")),
    }
}

fn opening_of(alloc: Global) -> Result<Opening, Fail> {
    let (table, _) = inittab_text::read(alloc, INITTAB)?;
    Ok(Opening::new(alloc, table, Some(Level::L3))?)
}

/// Returns the contents of the log after the turns.
fn left_of<L: EndedLog + Drop>(rt: &HostRuntime, log: L) -> Result<L::Left, Fail> {
    let alloc = rt.alloc();
    let arguments = run_of(alloc)?;
    let opening = opening_of(alloc)?;
    // A look without a scripted answer finds the child alive.
    let host = host_of(alloc, alloc, "start birth 10").ok_or("no host")?;
    let mut err = Reports::to(Vec::<u8>::new(alloc));
    let (_, _, log_end) = make_turns(
        rt,
        alloc,
        &arguments,
        opening,
        Box::into_inner(host),
        log,
        &mut err,
    );
    Ok(log_end)
}

/// Tests that the writer of the log has the trace, or its brief form, after the turns.
#[test]
fn the_writer_that_is_left_has_the_trace(rt: HostRuntime) -> Result<(), Fail> {
    let alloc = rt.alloc();
    let text: Vec<u8> = left_of(&rt, StreamLog::new(alloc, Vec::new(alloc)))?;
    assert!(rt; text.as_slice() == TRACE, "{text:?}");
    let log = BriefLog::new(StreamLog::new(alloc, Vec::new(alloc)));
    let text: Vec<u8> = left_of(&rt, log)?;
    assert!(rt; text.as_slice() == BRIEF, "brief: {text:?}");
    Ok(())
}
