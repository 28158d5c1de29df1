//! Makes allocations fail one after another, on heaps of increasing size, until a call succeeds: each failed call
//! reports lack of memory, and has written a prefix of the trace. A full writer ends a log in the same way.

use crate::verdicts::{finished, found, hand_over, judge_over};
use init_words::{Id, Memory};
use initview_timeline::Marks;
use linked_list_allocator::LocalHeap;
use simulator::{SimFault, Untold, simulate};
use std::alloc::Global;
use std::test::Fail;
use test_support::{Outcome, Slow, boxed, first_unrefused, lines_of};
use trace_check::{Law, Verdict};
use trace_events::{HappeningIn, happening_copy};
use trace_log::{ListLog, StreamLog};
use trace_text::ReadFault;
use trace_view::{LastLines, ObservedTrace, TraceObserver};

const INITTAB: &[u8] = b"id:3:initdefault:\nw:3:wait:prep\nr:3:respawn:serv\n";

const SCRIPT: &[u8] =
    b"birth w 10\ntold w\nnudge\ndeath 10\nreaped w 10 exit 0\ntold w\ngot reload\nbirth r 11\ntold r\n\
      use 1\nr:3:respawn:serv\nhanded whole\ngot call A\n";

const TRACE: &str =
    "use 3 / id:3:initdefault: / w:3:wait:prep / r:3:respawn:serv / enter sysinit 5 / enter boot 5 / \
     enter 3 5 / ask w start / birth w 10 / told w / nudge / ask w look / death 10 / reaped w 10 exit 0 / told w / \
     ask r start / got reload / birth r 11 / told r / use 1 / r:3:respawn:serv / settle 3 / handed whole / \
     got call A / call A";

/// A trace in which a child is born while an excluded child is unreaped.
const BREACH: &str =
    "use 2 / a:3:once:x / b:1:once:y / enter 3 5 / ask a start / birth a 10 / told a / enter 1 5 / ask b start / birth b 11";

const SEEN: &[u8] =
    b"use 2\nr:3:respawn:x\nw:3:wait:x\nenter sysinit 5\nenter boot 5\nenter 3 5\nask r start\nbirth r 10\ntold r\n\
      ask w start\nbirth w 11\n";

/// A trace and its brief form.
const LONG: &str =
    "use 1 / a:3:respawn:x / enter 3 5 / ask a start / birth a 10 / told a / settle 3 / \
     clock 100 / nudge / ask a look / still a / told a / clock 101 / nudge / ask a look / death 10 / \
     reaped a 10 killed / told a / ask a start / birth a 11 / told a / clock 102 / nudge / ask a look / still a";

const BRIEF: &[u8] = b"use 1\na:3:respawn:x\nenter 3 5\nask a start\nbirth a 10\ntold a\nsettle 3\n\
clock 101\nnudge\nask a look\ndeath 10\n\
reaped a 10 killed\ntold a\nask a start\nbirth a 11\ntold a\nclock 102\nnudge\nask a look\nstill a\n";

/// Writes the trace of a run, or a prefix of it if there is no room for it on a heap.
fn runs(global: Global, heap: &LocalHeap, trace: &[u8]) -> Result<bool, Memory> {
    let mut out: Vec<u8> = Vec::new(global);
    match simulate::<&LocalHeap, Vec<u8>, Untold>(heap, INITTAB, None, SCRIPT, &mut out) {
        Ok(()) => Ok(out.as_slice() == trace),
        Err(SimFault::Memory) if trace.starts_with(&out) => Err(Memory),
        Err(_) => Ok(false),
    }
}

fn reads(heap: &LocalHeap, text: &[u8]) -> Result<bool, Memory> {
    match trace_text::read(heap, text) {
        Ok(trace) => Ok(trace.len() == 8),
        Err(ReadFault::Memory) => Err(Memory),
        Err(ReadFault::Line(_)) => Ok(false),
    }
}

fn judges(global: Global, heap: &LocalHeap, text: &[u8]) -> Result<bool, Memory> {
    let mut judge = judge_over(global, heap)?;
    hand_over(&mut judge, text, 7)?;
    let is_found = match found(global, &judge) {
        Some(found) => found.as_str() == "7:4 line 10: birth b 11\n",
        None => false,
    };
    Ok(is_found && judge.answer().1.is_none())
}

/// Returns an observer that received the trace in pieces.
fn seen_by<'h, S: TraceObserver<&'h LocalHeap> + Drop>(
    global: Global,
    heap: &'h LocalHeap,
) -> Result<Box<ObservedTrace<S, &'h LocalHeap>>, Memory> {
    let mut text = boxed(global, ObservedTrace::new(heap))?;
    for piece in SEEN.chunks(7) {
        text.take(piece)?;
    }
    Ok(text)
}

/// Reports whether the observer of lines finds that the child of `r` is born at line 8.
fn sees_lines(global: Global, heap: &LocalHeap) -> Result<bool, Memory> {
    let mut text = seen_by::<LastLines<&LocalHeap>>(global, heap)?;
    let Some(id) = Id::read(b"r") else {
        return Ok(false);
    };
    let line = text.seen().line_at_fault(&id, text.view().why(&id));
    Ok(line == Some(8) && text.end().0.is_none())
}

/// Reports whether the observer of marks finds a table, three stages, and two children.
fn sees_marks(global: Global, heap: &LocalHeap) -> Result<bool, Memory> {
    let mut text = seen_by::<Marks<&LocalHeap>>(global, heap)?;
    Ok(text.seen().as_slice().len() == 6 && text.end().0.is_none())
}

/// Reports whether a log on a heap accepts the complete brief form; if memory runs out, it must have a prefix of it.
fn lists(global: Global, heap: &LocalHeap, trace: &[HappeningIn<Global>]) -> Result<bool, Memory> {
    let (list, all) = finished(ListLog::new(heap), trace);
    let text = trace_text::print(global, list.as_slice())?;
    let is_front = BRIEF.starts_with(&text) && all == (text.len() == BRIEF.len());
    if is_front && !all {
        return Err(Memory);
    }
    Ok(is_front)
}

const TABLE: &[u8] = b"use 3\nid:3:initdefault:\nw:3:wait:prep\nr:3:respawn:serv\n";

/// Reports whether a copy on the heap of the first happening of the trace, a table, prints as `TABLE`.
fn copies(global: Global, heap: &LocalHeap, trace: &[HappeningIn<Global>]) -> Result<bool, Memory> {
    let [first, ..] = trace else {
        return Ok(false);
    };
    let printed = trace_text::print_one(global, &happening_copy(heap, first)?)?;
    Ok(printed.as_slice() == TABLE)
}

/// Reports whether the result of a call on a heap, for a trace and its text, is right.
fn is_right(
    global: Global,
    heap: &LocalHeap,
    what: &str,
    trace: &[HappeningIn<Global>],
    text: &[u8],
) -> Result<bool, Memory> {
    match what {
        "run" => runs(global, heap, text),
        "print" => Ok(trace_text::print(heap, trace)?.as_slice() == text),
        "copy" => copies(global, heap, trace),
        "read" => reads(heap, text),
        "check" => Ok(trace_check::check(heap, trace)? == Verdict::Breach(7, Law::BesideExcluded)),
        "judge" => judges(global, heap, text),
        "lines" => sees_lines(global, heap),
        "marks" => sees_marks(global, heap),
        _ => lists(global, heap, trace),
    }
}

/// Traces, the calls that need memory for each, and a number of heaps: the call must fail on more heaps than that.
const REFUSED: &[(&str, &[(&str, usize)])] = &[
    (TRACE, &[("run", 8), ("print", 2), ("copy", 2)]),
    (BREACH, &[("read", 8), ("check", 3), ("judge", 8)]),
    (LONG, &[("lines", 8), ("marks", 8), ("list", 8)]),
];

#[test]
fn what_has_no_room_is_refused(rt: HostRuntime) -> Result<(), Fail> {
    for (row, calls) in REFUSED {
        let text = lines_of(rt.alloc(), row, " / ")?;
        let trace = trace_text::read(rt.alloc(), text.as_bytes())?;
        let wrong = first_unrefused(rt.alloc(), calls, |global, heap, what| {
            Outcome::of_answer(is_right(global, heap, what, &trace, text.as_bytes()))
        });
        assert!(rt; wrong.is_none(), "{wrong:?}");
    }
    Ok(())
}

/// Reports whether the writer accepted as much of the brief form as it has room for, and the log accepted everything if
/// that is the whole text.
fn is_streamed(global: Global, room: usize, fails: bool) -> Option<bool> {
    let text = lines_of(global, LONG, " / ").ok()?;
    let trace = trace_text::read(global, text.as_bytes()).ok()?;
    let log = StreamLog::new(global, Slow::new(global, room, fails, false));
    let (writer, all) = finished(log, &trace);
    Some(all == (room >= BRIEF.len()) && writer.taken.as_slice() == &BRIEF[..room.min(BRIEF.len())])
}

#[test]
fn a_writer_that_is_full_ends_the_log(rt: HostRuntime) {
    for room in 0..=BRIEF.len() {
        assert!(rt;
            is_streamed(rt.alloc(), room, room % 2 == 0) == Some(true),
            "at {room}"
        );
    }
}
