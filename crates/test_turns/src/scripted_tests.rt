//! Tests of calls to a scripted host, as text, and of a host without memory. Each call takes the first item of its
//! queue, or has a fixed answer if the queue is empty.

use host_calls::{Bytes, Host, HostFault, PartList};
use host_scripted::MemoryHost;
use init_words::{Id, Level, Part, SignalKind};
use linked_list_allocator::LocalHeap;
use std::alloc::{Allocator, Global};
use test_support::{bytes_of, fill, give, given, host_of, late_of, reply_of, table_of};
use trace_events::Happening;

const TABLES: &str = "table inittab@id:3:initdefault: + 10-b.tab@=b:3:once:y + 20-a.tab@";

/// The state text that is handed over.
const STATE: &[u8] = &[b'x'; 64];

/// The items in the host's queues, the calls, each with the item that it must return, and the number of faults. A call
/// `take` has room for this number of bytes, and a call that `lacks` memory has no room for its text.
const ROWS: &[(&str, &str, u64)] = &[
    // Orders.
    ("", "start nobirth", 1),
    (
        "start birth 7 / start nobirth / start later",
        "start birth 7 / start nobirth / start later / start nobirth",
        2,
    ),
    ("", "look still", 0),
    (
        "look nolook / look exit 3 / look later",
        "look nolook / look exit 3 / look later / look still",
        1,
    ),
    ("", "signal hit", 0),
    (
        "signal miss / signal hit / signal miss / signal later",
        "kill miss / kill hit / kill miss / kill later / kill hit",
        2,
    ),
    // Late answers: a hit, the end of a round, and a miss, which is a fault. None follows.
    (
        "late r hit / late / late r miss",
        "late r hit / late / late r miss / late",
        1,
    ),
    // Readings of the clock.
    (
        "clock 5 / clock fails / clock 4 / clock lacks",
        "clock 5 / clock fails / clock 4 / clock lacks / clock 0",
        2,
    ),
    // Bytes that do not fit remain.
    ("", "take 4", 0),
    (
        "bytes =abcde / bytes / bytes =fg",
        "take 2 =ab / take 0 / take 2 =cd / take 8 =e / take 8 / take 2 =fg / take 8",
        0,
    ),
    (
        "bytes =abc / bytes fails / bytes =d",
        "take 1 =a / take 8 =bc / take 8 fails / take 8 =d",
        1,
    ),
    // The inittab.
    (
        "table inittab@id:3:initdefault: + 10-b.tab@=b:3:once:y + 20-a.tab@ / table fails / table x@=x",
        "table inittab@id:3:initdefault: + 10-b.tab@=b:3:once:y + 20-a.tab@ / table fails / table x@=x / table none",
        1,
    ),
    // A state text that is handed over.
    (
        "carry id:3:initdefault: / carry fails / carry =x",
        "carry id:3:initdefault: / carry fails / carry =x / carry",
        1,
    ),
    // There is no room for the inittab's text, nor for the state text.
    (TABLES, "table lacks / carry lacks", 2),
];

fn is_text<A: Allocator>(
    given: Result<Vec<u8, A>, HostFault>,
    want: Result<Bytes, HostFault>,
) -> bool {
    match (given, want) {
        (Ok(text), Ok(want)) => text.as_slice() == want.as_slice(),
        (Err(fault), Err(want)) => fault == want,
        _ => false,
    }
}

fn are_same<A: Allocator>(parts: &[Part<A>], files: &[Part]) -> bool {
    for (part, file) in parts.iter().zip(files) {
        if part.name.as_str() != file.name.as_str()
            || part.bytes.as_slice() != file.bytes.as_slice()
        {
            return false;
        }
    }
    parts.len() == files.len()
}

fn are_files<A: Allocator>(
    given: Result<Vec<Part<A>, A>, HostFault>,
    want: Result<PartList, HostFault>,
) -> bool {
    match (given, want) {
        (Ok(parts), Ok(files)) => are_same(parts.as_slice(), files.as_slice()),
        (Err(fault), Err(want)) => fault == want,
        _ => false,
    }
}

/// Returns the result of a call that reads bytes with this room.
fn taken<B: Allocator + Copy>(
    global: Global,
    host: &mut MemoryHost<B>,
    room: usize,
) -> Result<Vec<u8>, HostFault> {
    let mut buffer = [0; 8];
    let count = host.take_bytes(&mut buffer[..room.min(8)])?;
    Vec::from_slice(global, &buffer[..count.min(8)]).map_err(|_| HostFault::Memory)
}

/// Reports whether a call, in the memory of an allocator, returns this item.
fn gives<A: Allocator + Copy, B: Allocator + Copy>(
    global: Global,
    alloc: A,
    host: &mut MemoryHost<B>,
    call: &str,
) -> Option<bool> {
    let (word, item) = call.split_once(' ').unwrap_or((call, ""));
    let id = Id::read(b"r")?;
    Some(match word {
        "start" => host.start(alloc, id, b"/bin/serv") == reply_of(item)?,
        "look" => host.look(id) == reply_of(item)?,
        "signal" => host.signal(id, SignalKind::Term) == reply_of(item)?,
        "kill" => host.signal(id, SignalKind::Kill) == reply_of(item)?,
        "late" => host.late() == late_of(item)?,
        "clock" => host.clock() == given(item, item.parse::<u64>().ok())?,
        "bytes" => is_text(
            taken(global, host, 4),
            bytes_of(global, global, "bytes", item)?,
        ),
        "take" => {
            let (room, item) = item.split_once(' ').unwrap_or((item, "="));
            let want = bytes_of(global, global, "bytes", item)?;
            is_text(taken(global, host, room.parse::<usize>().ok()?), want)
        }
        "table" => are_files(host.read_tables(alloc), table_of(global, global, item)?),
        "carry" => {
            let want = match item {
                "" => Ok(Bytes::copy_of(global, STATE).ok()?),
                _ => bytes_of(global, global, word, item)?,
            };
            is_text(host.carry(alloc, STATE), want)
        }
        "announce" => {
            let settled: Happening = Happening::Settle(Level::L3);
            host.announce(&settled);
            true
        }
        _ => {
            host.pause();
            true
        }
    })
}

/// Reports whether a host with these replies returns what the calls say, with this number of faults, and records each
/// call.
fn is_followed(global: Global, replies: &str, calls: &str, faults: u64) -> Option<bool> {
    let mut host = host_of(global, global, replies)?;
    let full = LocalHeap::new(global, 0).ok()?;
    let mut count = 0usize;
    for call in calls.split(" / ") {
        let is_given = if call.ends_with("lacks") {
            gives(global, &full, &mut host, call)?
        } else {
            gives(global, global, &mut host, call)?
        };
        if !is_given {
            return None;
        }
        count = count.wrapping_add(1);
    }
    Some(host.faults() == faults && host.calls()?.len() == count)
}

#[test]
fn calls_take_the_first_of_their_queue(rt: HostRuntime) {
    for (replies, calls, faults) in ROWS {
        assert!(rt;
            is_followed(rt.alloc(), replies, calls, *faults) == Some(true),
            "{calls}"
        );
    }
}

/// Reports whether there is room for a text on a heap. Returns `None` if a call without room counts or records anything
/// else.
pub(crate) fn has_room(global: Global, heap: &LocalHeap, call: &str) -> Option<bool> {
    let mut host = host_of(global, global, TABLES)?;
    let is_lacking = gives(global, heap, &mut host, call)?;
    match (is_lacking, host.faults(), host.calls()?.len()) {
        (false, 0, 1) => Some(true),
        (true, 1, 1) => Some(false),
        _ => None,
    }
}

/// Returns how many times, up to a limit, the host accepts the item or returns it.
fn times<'a>(
    global: Global,
    heap: &'a LocalHeap,
    host: &mut MemoryHost<&'a LocalHeap>,
    item: &str,
    is_call: bool,
    most: usize,
) -> usize {
    for count in 0..most {
        let is_done = if is_call {
            gives(global, global, host, item) == Some(true)
        } else {
            give(global, heap, host, item).is_some()
        };
        if !is_done {
            return count;
        }
    }
    most
}

/// Returns the result of `times` while the heap is full.
fn times_full<'a>(
    global: Global,
    heap: &'a LocalHeap,
    host: &mut MemoryHost<&'a LocalHeap>,
    item: &str,
    is_call: bool,
) -> Option<usize> {
    let _fillers = fill(global, heap, 0)?;
    Some(times(global, heap, host, item, is_call, 100))
}

/// Items, each for a different queue.
const ITEMS: &[&str] = &[
    "start later",
    "look later",
    "signal later",
    "late r hit",
    "clock 5",
    "bytes fails",
    "table fails",
    "carry fails",
];

/// Reports whether a queue that had this number of items, and is given more while the heap is full and after there is
/// room again, has exactly those that it accepted.
fn refuses(global: Global, item: &str, before: usize) -> Option<bool> {
    let heap = LocalHeap::new(global, 4096).ok()?;
    let mut host = host_of(global, &heap, "")?;
    let had = times(global, &heap, &mut host, item, false, before);
    let more = times_full(global, &heap, &mut host, item, false)?;
    give(global, &heap, &mut host, item)?;
    let all = times(global, &heap, &mut host, item, true, 200);
    Some(had == before && more < 100 && all == before.wrapping_add(more).wrapping_add(1))
}

/// Calls of each kind, with their results if the queues are empty.
const CALLS: &[&str] = &[
    "pause",
    "start nobirth",
    "table none",
    "carry",
    "look still",
    "signal hit",
    "late",
    "clock 0",
    "bytes",
    "announce",
];

/// Reports whether the host does not record a call without room, nor any later call, even when there is room again.
fn is_last(global: Global, call: &str) -> Option<bool> {
    let heap = LocalHeap::new(global, 4096).ok()?;
    let mut host = host_of(global, &heap, "")?;
    let is_first = gives(global, global, &mut host, call)? && host.calls().is_some();
    let made = times_full(global, &heap, &mut host, call, true)?;
    let is_untold = made == 100 && host.calls().is_none();
    Some(is_first && is_untold && gives(global, global, &mut host, call)? && host.calls().is_none())
}

#[test]
fn a_host_without_room_refuses_and_tells_no_more(rt: HostRuntime) {
    for item in ITEMS {
        for before in [0, 1, 4, 5usize] {
            assert!(rt;
                refuses(rt.alloc(), item, before) == Some(true),
                "{item}: {before}"
            );
        }
    }
    for call in CALLS {
        assert!(rt; is_last(rt.alloc(), call) == Some(true), "{call}");
    }
}
