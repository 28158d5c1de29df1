//! Rebuilds the records from a list of their values.

ghost use Rattle.std.specs.Prelude.{◌≡◌, true, if◌then◌else◌, IfOk, Some, None};
ghost use Rattle.respawn_limit.specs.declared.TheConstants.{CLOCK_LIMIT};
ghost use Rattle.child_table.specs.Lists.{are_distinct};
ghost use Rattle.child_table.specs.Times.{are_timely};

use crate::slot::Slot;
use crate::slots::Slots;
use init_words::Memory;
use std::alloc::Allocator;

impl<A: Allocator + Copy> Slots<A> {
    /// Creates the records from a list, in the same order, or returns `None` if an id occurs twice. No start or signal
    /// in the list may be later than `CLOCK_LIMIT`.
    pub fn rebuilt(alloc: A, given: Vec<Slot, A>) -> Result<Option<Slots<A>>, Memory>
        requires { are_timely CLOCK_LIMIT given.items ≡ true }
        ensures { IfOk result (λ slots.
            slots ≡ (if are_distinct given.items then Some given.items else None)) }
    {
        let mut slots = Slots::with_room(alloc, given.len())?;
        for slot in given {
            if slots.place_of(&slot.id()).is_some() {
                return Ok(None);
            }
            slots.push(slot)?;
        }
        Ok(Some(slots))
    }
}
