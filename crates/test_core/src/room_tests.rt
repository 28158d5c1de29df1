//! Makes allocations fail one after another, on heaps of increasing size. A failed call leaves the core unchanged.

use crate::handed::{handed, is_text, parts_of, taken};
use crate::texts::{SETTLED, text_of};
use core_model::Parts;
use init_words::Refusal;
use level_core::{Core, Rebuild};
use linked_list_allocator::LocalHeap;
use reexec_state::{StateFault, hand_over};
use std::alloc::Global;
use std::test::Fail;
use test_support::Outcome::{self, Done, Refused, Unmade};
use test_support::{boxed, first_unrefused};

/// A child, an open order for it, a due signal, a pending request for another level, times, and statuses of children.
const BUSY: &str = "clock 700\nstage 3 5\ngoal 3 5\nflags 11\nwish 10 4:8 101 010\n\
    table 3\nw:3:wait:a\nr:3:respawn:b\nd:3A:ondemand:c\n\
    slot w - - - - 1000 - - exit:3\nslot r 700 respawn look - 1010 - 6,7,600 -\nslot d - - - - 0100 - - killed\n\
    slot x 701 once term due 0011 - - exit:255\nend 15\n";

/// A child, an open look at it, a child that was sent SIGTERM, a hold, a pending request for another level, times, and
/// statuses of children.
const QUIET: &str = "clock 700\nstage 3 5\ngoal 3 5\nflags 11\nwish 10 4:8 101 010\n\
    table 2\nw:3:wait:a\nr:3:respawn:b\n\
    slot w - - - - 1000 - - exit:3\nslot r 700 respawn look - 1010 900 6,7,8,9,10,11,12,13,14,600 -\n\
    slot x 701 once - term:650 0011 - - exit:255\nend 13\n";

/// The inittab that the core adopts.
const NEXT: &[u8] = b"r:3:respawn:b\nn:3:once:c\nm:3:off:\nl:3:wait:d\n";

/// Hands the state of a core over. If there is no room for it, the core hands the same over once there is.
fn hand_over_on(global: Global, heap: &LocalHeap, text: &[u8]) -> Option<Outcome> {
    let mut core = taken(global, global, text, 1).ok()?;
    match hand_over(heap, &mut core) {
        Ok(text) => is_text(global, &text, 2, BUSY)?.then_some(Done),
        Err(StateFault::Memory) => {
            let _same = handed(global, &mut core, 2, BUSY)?;
            Some(Refused)
        }
        Err(_) => None,
    }
}

fn rebuilt<'h>(
    global: Global,
    heap: &'h LocalHeap,
    parts: Box<Parts<&'h LocalHeap>>,
) -> Result<Box<Core<&'h LocalHeap>>, Rebuild> {
    Ok(boxed(global, Core::rebuilt(heap, Box::into_inner(parts))?)?)
}

fn rebuild_on(global: Global, heap: &LocalHeap, text: &[u8]) -> Option<Outcome> {
    let Ok(parts) = parts_of(global, heap, text, 1) else {
        return Some(Unmade);
    };
    match rebuilt(global, heap, parts) {
        Ok(_) => Some(Done),
        Err(Rebuild::Memory) => Some(Refused),
        Err(_) => None,
    }
}

/// Adopts a table. If there is no room for it, the core hands over the same state as before.
fn adopt_on(global: Global, heap: &LocalHeap, text: &[u8]) -> Option<Outcome> {
    let Ok(mut core) = taken(global, heap, text, 1) else {
        return Some(Unmade);
    };
    let Ok((table, _)) = inittab_text::read(heap, NEXT) else {
        return Some(Unmade);
    };
    match core.adopt(table) {
        Ok(()) => (core.table().len() == 4 && core.slots().len() == 5).then_some(Done),
        Err(Refusal::Memory) => {
            let _same = handed(global, &mut core, 2, QUIET)?;
            Some(Refused)
        }
        Err(_) => None,
    }
}

fn outcome_on(global: Global, heap: &LocalHeap, what: &str, text: &[u8]) -> Option<Outcome> {
    match what {
        "hand over" => hand_over_on(global, heap, text),
        "rebuild" => rebuild_on(global, heap, text),
        "adopt" => adopt_on(global, heap, text),
        _ => match taken(global, heap, text, 1) {
            Ok(_) => Some(Done),
            Err(StateFault::Memory) => Some(Refused),
            Err(_) => None,
        },
    }
}

/// States, the calls that need room for each, and a number of heaps: the call must fail on more heaps than that.
const REFUSED: &[(&str, &[(&str, usize)])] = &[
    (BUSY, &[("hand over", 8), ("take over", 8)]),
    (SETTLED, &[("rebuild", 3)]),
    (QUIET, &[("adopt", 3)]),
];

#[test]
fn what_has_no_room_is_refused(rt: HostRuntime) -> Result<(), Fail> {
    for (lines, calls) in REFUSED {
        let text = text_of(rt.alloc(), 2, 1, lines)?;
        let wrong = first_unrefused(rt.alloc(), calls, |global, heap, what| {
            outcome_on(global, heap, what, text.as_bytes())
        });
        assert!(rt; wrong.is_none(), "{wrong:?}");
    }
    Ok(())
}
