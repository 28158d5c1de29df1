//! Makes allocations fail one after another: the room grows in steps smaller than the smallest allocation. A failed
//! adoption of a table changes nothing, and succeeds with enough room.

use crate::cores::{CoreRun, core_over};
use crate::records::records_over;
use crate::runs::{Subject, goes_on, table_of};
use child_table::{Slot, Slots};
use init_words::{Act, Id, Level, Refusal};
use linked_list_allocator::LocalHeap;
use std::alloc::Global;
use test_support::{Outcome, fill, first_unrefused};

/// A run up to an adoption, the state if that fails, and the result if it succeeds.
struct Scarce<'a> {
    what: &'a str,
    inittab: &'a str,
    begun: &'a str,
    call: &'a str,
    refused: &'a str,
    made: &'a str,
}

const SCARCE: &[Scarce] = &[
    // Before the level is settled.
    Scarce {
        what: "core",
        inittab: "a:S:respawn:x\nb:S:off:y",
        begun: "enter sysinit 5 / enter S 5 / ask a start / birth a 700 / then",
        call: "use b:S:once:z\nc:S:wait:w\nd:S:off:v",
        refused: "entries 2 / records 2 / settle S",
        made: "entries 3 / records 4 / ask a term",
    },
    // The core reports the children that init waits for even if no memory is left.
    Scarce {
        what: "core",
        inittab: "a:S:once:x\nb:S:wait:y",
        begun: "enter sysinit 5 / enter S 5 / ask a start / ask b start / birth a 7 / birth b 8",
        call: "use b:S:wait:y",
        refused: "awaits b 8 waited for",
        made: "ask a term / awaits b 8 waited for, a 7 excluded",
    },
    // One child was sent SIGTERM, and a SIGTERM is open for the other; the first, which is held, is the second child of
    // its id.
    Scarce {
        what: "records",
        inittab: "a:3:respawn:x\nb:3:once:y",
        begun: "ask a start / birth a 701 / ask a look / reaped a 701 exit 3 / ask a start / birth a 4294967295 / \
                ask b start / birth b 701 / judge 4 / hold a / ask a term / clock 7 / hit a / ask b term",
        call: "use b:3:once:z\nc:3:wait:w",
        refused: "shows a: child 4294967295, stop by term, asked\nb: child 701, term open, stop due, asked / number a 4294967295 / number b 701 / child 4294967295 a / child 701 b / \
                  starts a 1000000000000 1000000000000 / held a 1000000000300 / last a 3 / termed 7",
        made: "shows b: child 701, term open, stop due, asked\nc: new\na: child 4294967295, stop by term, no entry / number a 4294967295 / number b 701 / child 4294967295 a / \
               child 701 b / starts a none / held a none / last a 3 / termed 7",
    },
];

/// Two heaps: the first has this room left, and the other has plenty.
#[derive(Drop)]
struct Heaps<'a> {
    global: Global,
    scarce: &'a LocalHeap,
    ample: &'a LocalHeap,
    room: usize,
}

/// Reports whether an adoption fails with this room left, and changes nothing then.
fn is_refused<'a, S: Subject<&'a LocalHeap>>(
    heaps: &Heaps<'a>,
    subject: &mut S,
    row: &Scarce,
) -> Option<bool> {
    let Heaps { global, ample, .. } = *heaps;
    let _fillers = fill(global, heaps.scarce, heaps.room)?;
    if !subject.goes(global, ample, row.call, Err(Refusal::Memory)) {
        return Some(false);
    }
    goes_on(global, ample, subject, row.refused).then_some(true)
}

/// Reports whether an adoption fails with this room left; with all of the room, it succeeds.
fn tried_on<'a, S: Subject<&'a LocalHeap>>(
    heaps: &Heaps<'a>,
    subject: &mut S,
    row: &Scarce,
) -> Option<bool> {
    let Heaps { global, ample, .. } = *heaps;
    if !goes_on(global, ample, subject, row.begun) {
        return None;
    }
    let refused = is_refused(heaps, subject, row)?;
    if refused && !subject.goes(global, ample, row.call, Ok(())) {
        return None;
    }
    goes_on(global, ample, subject, row.made).then_some(refused)
}

fn tried_in(heaps: &Heaps, row: &Scarce) -> Option<bool> {
    let table = table_of(heaps.ample, row.inittab)?;
    if row.what == "core" {
        let mut core = core_over(heaps.global, heaps.scarce, table, None).ok()?;
        return tried_on(heaps, &mut CoreRun::of(&mut core), row);
    }
    let mut records = records_over(heaps.global, heaps.scarce, table).ok()?;
    tried_on(heaps, &mut *records, row)
}

fn tried(global: Global, row: &Scarce, room: usize) -> Option<bool> {
    let scarce = LocalHeap::new(global, 16_384).ok()?;
    let ample = LocalHeap::new(global, 16_384).ok()?;
    let heaps = Heaps {
        global,
        scarce: &scarce,
        ample: &ample,
        room,
    };
    tried_in(&heaps, row)
}

#[test]
fn a_table_without_room_is_not_adopted(rt: HostRuntime) {
    for row in SCARCE {
        let (mut refused, mut made) = (0u32, 0u32);
        for step in 0..300usize {
            match tried(rt.alloc(), row, 16 * step) {
                Some(true) => refused = refused.saturating_add(1),
                Some(false) => made = made.saturating_add(1),
                None => panic!(rt; "{} at {step}", row.begun),
            }
        }
        assert!(rt;
            refused > 3 && made > 8,
            "{}: refused {refused} times, made {made} times",
            row.begun
        );
    }
}

/// Reports whether the list of one record has room on a heap.
fn is_rebuilt(heap: &LocalHeap, ample: &LocalHeap) -> Option<bool> {
    let act = Some(Act::Respawn);
    let slot = Slot::of(
        Id::read(b"a")?,
        act,
        None,
        None,
        None,
        false,
        false,
        false,
        false,
        &[],
        None,
        None,
    );
    let mut given = Vec::new(ample);
    given.push(slot).ok()?;
    Some(Slots::rebuilt(heap, given).is_ok())
}

/// Reports whether the named call has room on a heap, for a table on another heap.
fn has_room(global: Global, heap: &LocalHeap, what: &str) -> Option<bool> {
    let ample = LocalHeap::new(global, 16_384).ok()?;
    let table = table_of(&ample, "a:S:respawn:x\nb:S:off:y")?;
    match what {
        "core" => Some(core_over(global, heap, table, None).is_ok()),
        "records" => Some(records_over(global, heap, table).is_ok()),
        _ => is_rebuilt(heap, &ample),
    }
}

#[test]
fn what_has_no_room_is_not_made(rt: HostRuntime) {
    let rows = &[("core", 3), ("records", 3), ("rebuilt", 3)];
    let wrong = first_unrefused(rt.alloc(), rows, |global, heap, what| {
        has_room(global, heap, what).map(Outcome::of)
    });
    assert!(rt; wrong.is_none(), "{wrong:?}");
}
