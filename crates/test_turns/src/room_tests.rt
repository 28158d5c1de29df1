//! Tests of lack of memory within a turn, at startup and in a log.

use crate::log_tests::{ANSWERS, INITTAB, TRACE, is_whole};
use crate::runs::{Bench, bench_of, serve_on};
use crate::scripted_tests::has_room;
use init_words::Memory;
use inittab_text::Table;
use linked_list_allocator::LocalHeap;
use std::alloc::Global;
use supervisor::{Edge, Opening};
use test_support::{Outcome, boxed, calls_of, fill, first_unrefused, host_of, lines_of};
use trace_log::ListLog;

/// Reports whether a run has its trace if the host has no room left to record a call.
fn is_untold(global: Global) -> Option<bool> {
    let heap = LocalHeap::new(global, 16_384).ok()?;
    let host = host_of(global, &heap, ANSWERS)?;
    let mut bench = bench_of(global, host, global, INITTAB, ListLog::new(global))?;
    let _fillers = fill(global, &heap, 0)?;
    serve_on(global, &mut bench, 9, true);
    let text = trace_text::print(global, bench.edge.log().list()).ok()?;
    Some(text.as_slice() == TRACE && bench.edge.host().calls().is_none())
}

/// An action in a turn for which there may not be enough memory: the host's replies for a turn in which the child is
/// born and for two turns with the action; the trace of such a turn and the number of entries after it, if the action
/// succeeds and if it fails; and the call after which it can fail.
struct Scarce {
    replies: &'static str,
    done: (&'static str, usize),
    undone: (&'static str, usize),
    call: &'static str,
}

/// The action is to reread an inittab that is longer than the first one.
const READING: &Scarce = &Scarce {
    replies: "start birth 10 / bytes / bytes q / \
            table id:3:initdefault:|r:3:respawn:serv|c:3:off:z|d:3:off:v|e:3:off:w / bytes / bytes q / \
            table id:3:initdefault:|r:3:respawn:serv|c:3:off:z|d:3:off:v|e:3:off:w",
    done: (
        "clock 0 / got reload / nudge / use 5 / id:3:initdefault: / r:3:respawn:serv / c:3:off:z / d:3:off:v / e:3:off:w / \
         settle 3 / ask r look / still r / told r",
        5,
    ),
    undone: (
        "clock 0 / got reload / nudge / notread / ask r look / still r / told r",
        2,
    ),
    call: "read tables\n",
};

/// The action is to re-execute init.
const HAND_OVER: &Scarce = &Scarce {
    replies: "start birth 10 / bytes / bytes u / bytes / bytes u",
    done: (
        "clock 0 / got reexec / nudge / handed whole / ask r look / still r / told r",
        2,
    ),
    undone: (
        "clock 0 / got reexec / nudge / handed none / ask r look / still r / told r",
        2,
    ),
    call: "carry\n",
};

type Scene<'a> = Bench<Global, &'a LocalHeap, ListLog>;

/// Makes a turn, and returns the text of its trace.
fn turn_text<'a>(global: Global, heap: &'a LocalHeap, bench: &mut Scene<'a>) -> Option<Vec<u8>> {
    let before = bench.edge.log().list().len();
    serve_on(heap, bench, 1, false);
    trace_text::print(global, bench.edge.log().list().get(before..)?).ok()
}

/// Returns the init after a turn in which the child is born.
fn begun<'a>(global: Global, heap: &'a LocalHeap, scarce: &Scarce) -> Option<Box<Scene<'a>>> {
    let host = host_of(global, global, scarce.replies)?;
    let mut bench = bench_of(global, host, heap, INITTAB, ListLog::new(global))?;
    turn_text(global, heap, &mut bench)?;
    Some(bench)
}

/// Reports whether the trace of the turn is this one, and this number of entries exists after it, each with its record.
fn is_made(global: Global, bench: &Scene, text: &[u8], want: (&str, usize)) -> Option<bool> {
    let trace = lines_of(global, want.0, " / ").ok()?;
    Some(
        text == trace.as_bytes()
            && bench.core.table().len() == want.1
            && bench.core.slots().len() == want.1,
    )
}

fn outcome_of(global: Global, bench: &Scene, text: &[u8], scarce: &Scarce) -> Option<Outcome> {
    if is_made(global, bench, text, scarce.done)? {
        return Some(Outcome::Done);
    }
    if !is_made(global, bench, text, scarce.undone)? {
        return None;
    }
    let calls = calls_of(global, bench.edge.host())?;
    if calls.contains(scarce.call) {
        return Some(Outcome::Refused);
    }
    Some(Outcome::Unmade)
}

/// Returns the outcome with this much room left; in the next turn, with all of the room, the action must succeed.
fn tried(global: Global, scarce: &Scarce, room: usize) -> Option<Outcome> {
    let heap = LocalHeap::new(global, 32_768).ok()?;
    let mut bench = begun(global, &heap, scarce)?;
    let fillers = fill(global, &heap, room)?;
    let text = turn_text(global, &heap, &mut bench)?;
    drop(fillers);
    let outcome = outcome_of(global, &bench, text.as_slice(), scarce)?;
    let text = turn_text(global, &heap, &mut bench)?;
    is_made(global, &bench, text.as_slice(), scarce.done)?.then_some(outcome)
}

/// Returns the position of the first allocation of a reading that has no room, in this order: the text of inittab, its
/// table, the copy of the table, the records of its entries, and none.
fn first(global: Global, room: usize) -> Option<usize> {
    let heap = LocalHeap::new(global, 32_768).ok()?;
    let mut bench = begun(global, &heap, READING)?;
    let _fillers = fill(global, &heap, room)?;
    let Ok(parts) = bench.edge.read_tables(&heap) else {
        return Some(0);
    };
    let Ok((table, _)) = inittab_text::read_parts(&heap, &parts) else {
        return Some(1);
    };
    let Ok(copy) = table.copy(&heap) else {
        return Some(2);
    };
    if bench.core.adopt(table).is_err() || copy.len() != 5 {
        return Some(3);
    }
    Some(4)
}

/// The outcome of a turn that reads inittab, by the first allocation that has no room.
const OUTCOMES: &[Outcome] = &[
    Outcome::Unmade,
    Outcome::Refused,
    Outcome::Refused,
    Outcome::Refused,
    Outcome::Done,
];

/// The rooms differ by less than the smallest allocation.
#[test]
fn a_table_without_room_is_not_read(rt: HostRuntime) {
    let mut seen = [false; 5];
    for step in 0..600usize {
        let Some(first) = first(rt.alloc(), 16 * step) else {
            panic!(rt; "at {step}");
        };
        assert!(rt;
            tried(rt.alloc(), READING, 16 * step) == OUTCOMES.get(first).copied(),
            "at {step}"
        );
        if let Some(position) = seen.get_mut(first) {
            *position = true;
        }
    }
    assert!(rt; seen == [true; 5]);
}

#[test]
fn init_without_room_is_not_re_executed(rt: HostRuntime) {
    let (mut unmade, mut refused, mut done) = (0u32, 0u32, 0u32);
    for step in 0..400usize {
        match tried(rt.alloc(), HAND_OVER, 16 * step) {
            Some(Outcome::Unmade) => unmade = unmade.saturating_add(1),
            Some(Outcome::Refused) => refused = refused.saturating_add(1),
            Some(Outcome::Done) => done = done.saturating_add(1),
            None => panic!(rt; "at {step}"),
        }
    }
    assert!(rt; unmade > 0 && refused > 3 && done > 0);
}

fn opening_of<'a>(
    global: Global,
    heap: &'a LocalHeap,
    table: Table<&'a LocalHeap>,
) -> Result<Box<Opening<&'a LocalHeap>>, Memory> {
    Ok(boxed(global, Opening::new(heap, table, None)?)?)
}

/// Reports whether there is room on a heap for the startup of init, with a table in another heap.
fn opens(global: Global, heap: &LocalHeap) -> Option<bool> {
    let ample = LocalHeap::new(global, 16_384).ok()?;
    let (table, _) = inittab_text::read(
        &ample,
        b"id:3:initdefault:\nw:3:wait:prep\nr:3:respawn:serv\n",
    )
    .ok()?;
    Some(opening_of(global, heap, table).is_ok())
}

fn has_room_for(rt: &impl Eprint, global: Global, heap: &LocalHeap, what: &str) -> Option<bool> {
    match what {
        "opening" => opens(global, heap),
        "table lacks" | "carry lacks" => has_room(global, heap, what),
        _ => is_whole(rt, global, heap, what),
    }
}

/// Actions that need memory, each with a number of heaps: the action must fail on more heaps than that. Notes that
/// can't grow report that, and still pass everything to the log after them; a log accepts no happening whose text has
/// no room, and none after it.
const REFUSED: &[(&str, usize)] = &[
    ("opening", 3),
    ("list", 8),
    ("notes", 8),
    ("texts", 2),
    ("table lacks", 8),
    ("carry lacks", 0),
];

#[test]
fn what_has_no_room_is_refused(rt: HostRuntime) {
    let wrong = first_unrefused(rt.alloc(), REFUSED, |global, heap, what| {
        has_room_for(&rt, global, heap, what).map(Outcome::of)
    });
    assert!(rt; wrong.is_none(), "{wrong:?}");
    assert!(rt; is_untold(rt.alloc()) == Some(true), "calls");
}
