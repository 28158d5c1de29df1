//! Tests of a log that fails at each position: it has a prefix of the trace, and init continues.

use crate::runs::{Bench, bench_of, serve_on};
use host_calls::Host;
use init_words::{Id, Status};
use linked_list_allocator::LocalHeap;
use std::alloc::{Allocator, Global};
use supervisor::Served;
use test_support::{Slow, host_of};
use trace_log::{ListLog, Log, StreamLog};
use trace_log_wrappers::NotingLog;

pub(crate) const INITTAB: &[u8] = b"id:3:initdefault:\nr:3:respawn:serv\n";

pub(crate) const ANSWERS: &str =
    "start birth 10 / clock 100 / clock 101 / clock 106 / clock 107 / bytes / bytes 1 / \
     table id:3:initdefault:|r:3:respawn:serv / signal hit / signal hit / look still / look nolook / look killed";

pub(crate) const TRACE: &[u8] =
    b"clock 100\nnudge\nenter sysinit 5\nenter boot 5\nenter 3 5\nask r start\nbirth r 10\ntold r\nsettle 3\n\
clock 101\ngot level 1 5\nnudge\nuse 2\nid:3:initdefault:\nr:3:respawn:serv\nenter 1 5\nask r term\nhit r\ntold r\n\
ask r look\nstill r\ntold r\nclock 106\nnudge\nask r kill\nhit r\ntold r\nask r look\nnolook r\ntold r\n\
clock 107\nnudge\nask r look\ndeath 10\nreaped r 10 killed\ntold r\nsettle 1\n";

/// Returns the log of a test bench.
fn log_of<A: Allocator + Copy, B: Allocator, L: Log>(bench: Box<Bench<A, B, L>>) -> L {
    let Bench { core, edge, .. } = Box::into_inner(bench);
    drop(core);
    let (host, log) = edge.into_parts();
    drop(host);
    log
}

/// Makes the run, with four turns and 31 calls, one of which fails, and returns how it ended.
fn served<L: Log>(global: Global, bench: &mut Bench<Global, Global, L>) -> Option<Served> {
    let served = serve_on(global, bench, 9, true);
    let calls = bench.edge.host().calls()?;
    (bench.edge.host().faults() == 1 && calls.len() == 31).then_some(served)
}

/// Returns the number of bytes of the trace in a log, or `None` if it has others, or the run did not end like one with
/// this number of bytes.
fn taken(text: &[u8], served: Served) -> Option<usize> {
    let want = Served {
        turns: 4,
        drained: true,
        logged: text.len() == TRACE.len(),
    };
    (TRACE.starts_with(text) && served == want).then_some(text.len())
}

/// Returns the number of bytes that a log writes to a writer with this room; the text of each happening is in the
/// memory of an allocator.
fn streamed<A: Allocator + Copy>(
    global: Global,
    alloc: A,
    room: usize,
    fails: bool,
) -> Option<usize> {
    let log = StreamLog::new(alloc, Slow::new(global, room, fails, false));
    let mut bench = bench_of(
        global,
        host_of(global, global, ANSWERS)?,
        global,
        INITTAB,
        log,
    )?;
    let served = served(global, &mut bench)?;
    taken(bench.edge.log().writer().taken.as_slice(), served)
}

#[test]
fn a_writer_that_is_full_ends_the_log(rt: HostRuntime) {
    for room in 0..=TRACE.len() {
        assert!(rt;
            streamed(rt.alloc(), rt.alloc(), room, room % 2 == 0) == Some(room),
            "at {room}"
        );
    }
}

/// Returns the number of bytes in the list of a log on a heap.
fn listed(global: Global, heap: &LocalHeap) -> Option<usize> {
    let mut bench = bench_of(
        global,
        host_of(global, global, ANSWERS)?,
        global,
        INITTAB,
        ListLog::new(heap),
    )?;
    let served = served(global, &mut bench)?;
    let text = trace_text::print(global, bench.edge.log().list()).ok()?;
    taken(text.as_slice(), served)
}

/// Reports whether notes on a heap before a log are complete. Returns `None` if they contain anything false, or the log
/// after them does not have the whole trace.
fn noted(rt: &impl Eprint, global: Global, heap: &LocalHeap) -> Option<bool> {
    let log = NotingLog::new(rt, heap, ListLog::new(global), Id::read(b"r"), false);
    let mut bench = bench_of(
        global,
        host_of(global, global, ANSWERS)?,
        global,
        INITTAB,
        log,
    )?;
    let served = served(global, &mut bench)?;
    let (log, notes, _) = log_of(bench).into_parts();
    let text = trace_text::print(global, log.list()).ok()?;
    if taken(text.as_slice(), served) != Some(TRACE.len()) {
        return None;
    }
    match (notes.last(), notes.running()) {
        (Some(Status::Killed), None) => Some(false),
        (Some(Status::Killed), Some(running)) if running.len() == 0 => Some(true),
        _ => None,
    }
}

/// Reports whether a log has room on a heap: a list of happenings, notes before such a list, or a log that writes.
/// Returns `None` if it reports anything else than that it has none.
pub(crate) fn is_whole(
    rt: &impl Eprint,
    global: Global,
    heap: &LocalHeap,
    what: &str,
) -> Option<bool> {
    match what {
        "list" => Some(listed(global, heap)? == TRACE.len()),
        "notes" => noted(rt, global, heap),
        _ => Some(streamed(global, heap, TRACE.len(), true)? == TRACE.len()),
    }
}
