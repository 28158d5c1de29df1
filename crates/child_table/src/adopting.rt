//! Adopts a new table: each entry gets the record of its id, and a record without an entry is kept if it has a child.

ghost use Rattle.std.specs.Prelude.{◌≡◌, ◌<◌, ◌++◌, Some, None, map, length, slice_get, option_map, true, IfSome, IfOk, OnOk, OnErr};
ghost use Rattle.std.specs.Option.{option_to_list};
ghost use Rattle.respawn_limit.specs.declared.TheConstants.{CLOCK_LIMIT};
ghost use Rattle.init_words.specs.declared.entries.Entry.{Entry};
ghost use Rattle.child_table.specs.Times.{is_timely};
ghost use Rattle.child_table.specs.Lists.{record_by_id, are_distinct};
ghost use Rattle.child_table.specs.Adopting.{adopted, left_one, entry_records, left_records, after_adopt};

use crate::slot::Slot;
use crate::slots::Slots;
use init_words::Memory;
use inittab_text::Table;
use std::alloc::Allocator;

impl<A: Allocator + Copy> Slots<A> {
    ghost use Rattle.child_table.specs.State.{new_record};
    ghost use Rattle.inittab_text.specs.Tables.{is_distinct};

    /// Creates the records of a table before any order. No id occurs twice in a table.
    pub fn new(alloc: A, table: &Table<A>) -> Result<Slots<A>, Memory>
        ensures records { IfOk result (λ slots. slots ≡ map new_record table.now) }
        ensures distinct { is_distinct table.now ≡ true }
    {
        let mut slots = Slots::empty(alloc);
        slots.adopt(table)?;
        Ok(slots)
    }

    /// Adopts another table: its entries get the records of their ids, and records of other ids are kept if they have a
    /// child. If memory allocation fails, nothing changes. No id occurs twice in a table.
    pub fn adopt(&mut self, table: &Table<A>) -> Result<(), Memory>
        ensures adopted { OnOk result (self.new ≡ after_adopt table.now self.old) }
        ensures unchanged { OnErr result (self.new ≡ self.old) }
        ensures distinct { is_distinct table.now ≡ true }
    {
        let room = table.len().max(self.len());
        let mut next = Slots::with_room(self.allocator(), room)?;
        next.push_entries(table, self)?;
        next.push_left(table, self)?;
        *self = next;
        Ok(())
    }
}

impl<A: Allocator> Slots<A> {
    fn push_entries(&mut self, table: &Table<A>, before: &Slots<A>) -> Result<(), Memory>
        requires { are_distinct (self.old ++ entry_records table.now before.now) ≡ true }
        ensures { OnOk result (self.new ≡ self.old ++ entry_records table.now before.now) }
    {
        for position in 0..table.len() {
            self.push(adopted_record(table, position, before))?;
        }
        Ok(())
    }

    fn push_left(&mut self, table: &Table<A>, before: &Slots<A>) -> Result<(), Memory>
        requires { are_distinct (self.old ++ left_records table.now before.now) ≡ true }
        ensures { OnOk result (self.new ≡ self.old ++ left_records table.now before.now) }
    {
        for position in 0..before.len() {
            self.push_any(left_record(table, before, position))?;
        }
        Ok(())
    }

    fn push_any(&mut self, slot: Option<Slot>) -> Result<(), Memory>
        requires new { IfSome slot (λ s. record_by_id s.id self.old ≡ None) }
        requires timely { IfSome slot (λ s. is_timely CLOCK_LIMIT s ≡ true) }
        ensures { OnOk result (self.new ≡ self.old ++ option_to_list slot) }
    {
        match slot {
            Some(slot) => self.push(slot),
            None => Ok(()),
        }
    }
}

/// Returns the record of the entry at a position of another table.
fn adopted_record<A: Allocator>(table: &Table<A>, position: usize, before: &Slots<A>) -> Slot
    requires { position < length table.now }
    ensures value { Some result
        ≡ option_map (λ (e : Entry). adopted e (record_by_id e.id before.now))
        (slice_get table.now position) }
    ensures timely { is_timely CLOCK_LIMIT result ≡ true }
{
    let Some(entry) = table.at(position) else {
        unreachable!()
    };
    Slot::adopted(entry, before.by_id(&entry.id))
}

/// Returns the record at a position, without its entry, if the new table has no entry for it and it has a child.
fn left_record<A: Allocator>(table: &Table<A>, before: &Slots<A>, position: usize) -> Option<Slot>
    ensures value { result ≡ left_one table.now (slice_get before.now position) }
    ensures timely { IfSome result (λ s. is_timely CLOCK_LIMIT s ≡ true) }
{
    let slot = before.at(position)?;
    if slot.is_left_over(table) {
        Some(slot.left_over())
    } else {
        None
    }
}
