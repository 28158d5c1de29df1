//! Copies a happening from one allocator to another.

ghost use Rattle.std.specs.Prelude.{◌≡◌, IfOk};

use crate::happenings::{Happening, HappeningIn};
use init_words::Memory;
use std::alloc::Allocator;

/// Returns a copy of the happening, allocated with `alloc`.
pub fn happening_copy<A: Allocator + Copy, B: Allocator>(
    alloc: A,
    happening: &HappeningIn<B>,
) -> Result<HappeningIn<A>, Memory>
    ensures { IfOk result (λ copy. copy ≡ happening.now) }
{
    Ok(match happening {
        Happening::NewTable(table) => Happening::NewTable(table.copy(alloc)?),
        Happening::NotRead => Happening::NotRead,
        Happening::Enter(stage, grace) => Happening::Enter(*stage, *grace),
        Happening::Call(letter) => Happening::Call(*letter),
        Happening::Power(kind) => Happening::Power(*kind),
        Happening::Asked(id, order) => Happening::Asked(*id, *order),
        Happening::Hold(id) => Happening::Hold(*id),
        Happening::Settle(level) => Happening::Settle(*level),
        Happening::Birth(id, child) => Happening::Birth(*id, *child),
        Happening::NoBirth(id) => Happening::NoBirth(*id),
        Happening::Death(child) => Happening::Death(*child),
        Happening::Reaped(id, child, status) => Happening::Reaped(*id, *child, *status),
        Happening::Still(id) => Happening::Still(*id),
        Happening::NoLook(id) => Happening::NoLook(*id),
        Happening::Hit(id) => Happening::Hit(*id),
        Happening::Miss(id) => Happening::Miss(*id),
        Happening::Told(id) => Happening::Told(*id),
        Happening::Clock(reading) => Happening::Clock(*reading),
        Happening::Nudge => Happening::Nudge,
        Happening::Got(request) => Happening::Got(*request),
        Happening::Handed(how) => Happening::Handed(*how),
    })
}
