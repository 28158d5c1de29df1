//! The children that init waits for when it has nothing to do, and why; see init(8).
//!
//! The rows of `test_core` test this module, and `tools/pages.d/waits` compares it with traces. The public clause of
//! `next` relates each child to `awaited_children` of the trace, so you may change the private functions.

ghost use Rattle.std.specs.Prelude.{◌≡◌, IsTrue};
ghost use Rattle.core_waiting.specs.Words.{is_quiet, ForAllFittedTraces};
ghost use Rattle.core_waiting.specs.Rest.{awaited_children};
ghost use Rattle.core_waiting.specs.Awaiting.{in_record_order, awaited_known, is_wanted_in, why_of_record, awaited_of_record, awaited_by};

use crate::rests::{Awaited, WhyAwaited};
use child_table::Slot;
use init_words::{Entry, OrderKind, Stage, starts, waited};
use inittab_text::Table;
use level_core::Core;
use std::alloc::{Allocator, Global};
use std::marker::Model;

/// An iterator over the children that init waits for, in record order, each with the reason. Contracts see it as the
/// list of the remaining children. It does not allocate memory.
#[derive(Drop)]
pub struct AwaitedChildren<'a, A: Allocator = Global> {
    stage: Option<Stage>,
    table: &'a Table<A>,
    slots: &'a [Slot],
}

impl<'a, A: Allocator> Model for AwaitedChildren<'a, A> {
    ghost use Rattle.std.specs.Prelude.{List, filter_map};
    ghost use Rattle.core_waiting.specs.declared.rests.Awaited.{Awaited};
    ghost use Rattle.core_waiting.specs.Awaiting.{awaited_of_record};

    ghost Value = { List Awaited };

    ghost view = { λ it. filter_map (awaited_of_record it.stage it.table.now) it.slots.now };
}

impl<'a, A: Allocator> AwaitedChildren<'a, A> {
    /// Returns the children that the core waits for.
    ///
    /// For every goal and every sound trace that the core fits, these are the known children that init waits for.
    /// If no start and no signal is open, they are all the children that init waits for.
    pub fn of(core: &'a Core<A>) -> AwaitedChildren<'a, A>
        ensures state { result ≡ awaited_by core.now }
        ensures known { ForAllFittedTraces core.now (λ goal past.
            result ≡ in_record_order (awaited_known past) past) }
        ensures all { ForAllFittedTraces core.now (λ goal past. IsTrue (is_quiet past)
            → result ≡ in_record_order (awaited_children past) past) }
    {
        AwaitedChildren {
            stage: core.stage(),
            table: core.table(),
            slots: core.slots().as_slice(),
        }
    }
}

impl<'a, A: Allocator> Iterator for AwaitedChildren<'a, A> {
    ghost use Rattle.std.specs.Iterator.{YieldsFirst, item_count};

    type Item = Awaited;

    ghost next_gives = { YieldsFirst (λ left. left) };

    ghost remaining = { item_count (λ left. left) };

    fn next(&mut self) -> Option<Awaited> {
        while let Some((slot, others)) = self.slots.split_first() {
            self.slots = others;
            if let Some(awaited) = awaited_of(self.stage, self.table, slot) {
                return Some(awaited);
            }
        }
        None
    }
}

/// Returns the child of the record, if init waits for it.
fn awaited_of<A: Allocator>(stage: Option<Stage>, table: &Table<A>, slot: &Slot) -> Option<Awaited>
    ensures { result ≡ awaited_of_record stage table.now slot.now }
{
    let number = slot.child()?;
    let why = why_of(stage, table, slot)?;
    Some(Awaited {
        id: slot.id(),
        number,
        why,
    })
}

fn why_of<A: Allocator>(stage: Option<Stage>, table: &Table<A>, slot: &Slot) -> Option<WhyAwaited>
    ensures { result ≡ why_of_record stage table.now slot.now }
{
    if slot.stop().is_some() {
        return Some(WhyAwaited::Excluded);
    }
    let entry = table.get(&slot.id())?;
    if waited(entry) {
        return Some(WhyAwaited::WaitedFor);
    }
    if is_wanted_in(stage, entry, slot) {
        return Some(WhyAwaited::InTheWay);
    }
    None
}

/// Returns whether init will start the entry in the stage once it has neither a child nor an open start.
fn is_wanted_in(stage: Option<Stage>, entry: &Entry, slot: &Slot) -> bool
    ensures { result ≡ is_wanted_in stage entry.now slot.now }
{
    let Some(stage) = stage else {
        return false;
    };
    let idle = !slot.has_child() && !matches!(slot.order(), Some(OrderKind::Start));
    starts(entry, stage) && entry.act.is_wanted(idle, !slot.asked(), slot.called())
}
