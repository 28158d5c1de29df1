//! Rebuilds a core from the state of an earlier one.

ghost use Rattle.std.specs.Prelude.{◌≡◌, ◌≢◌, Err, IfOk, OnOk, option_copied, true, false};
ghost use Rattle.core_model.specs.Parts.{state_of};
ghost use Rattle.core_model.specs.Rebuilding.{living_of, is_whole, is_for, record_read, records_along, are_whole};
ghost use Rattle.level_core.specs.Words.{IsFit, CoreState};
ghost use Rattle.level_core.specs.declared.rebuilding.Rebuild.TheVariants as rebuild;

use crate::cores::Core;
use crate::rules::{is_kept, is_non_decreasing};
use crate::state::CoreValues;
use child_table::{KnownChild, Slot, Slots};
use core_model::{CoreFields, Parts, PlainSlot};
use init_words::{Act, ChildNumber, Entry, Memory};
use inittab_text::Table;
use std::alloc::{AllocError, AllocFailed, Allocator};
use thiserror::Error;

/// The reason why no core can be rebuilt from a state.
#[derive(Clone, Copy, Debug, PartialEq, Eq, Error)]
pub enum Rebuild {
    /// Init never reaches such a state.
    #[error("no init can reach this state")]
    Unfit,
    /// Memory allocation failed.
    #[error("out of memory")]
    Memory,
}

impl From<Memory> for Rebuild {
    ghost use Rattle.std.specs.Prelude.{◌≡◌};
    ghost use Rattle.level_core.specs.declared.rebuilding.Rebuild.TheVariants.{Memory};

    ghost from_gives = { λ _ rebuild. rebuild ≡ Memory };

    fn from(_error: Memory) -> Rebuild {
        Rebuild::Memory
    }
}

impl From<AllocError> for Rebuild {
    ghost use Rattle.std.specs.Prelude.{◌≡◌};
    ghost use Rattle.level_core.specs.declared.rebuilding.Rebuild.TheVariants.{Memory};

    ghost from_gives = { λ _ rebuild. rebuild ≡ Memory };

    fn from(_error: AllocError) -> Rebuild {
        Rebuild::Memory
    }
}

impl<T: Drop> From<AllocFailed<T>> for Rebuild {
    ghost use Rattle.std.specs.Prelude.{◌≡◌};
    ghost use Rattle.level_core.specs.declared.rebuilding.Rebuild.TheVariants.{Memory};

    ghost from_gives = { λ _ rebuild. rebuild ≡ Memory };

    fn from(_error: AllocFailed<T>) -> Rebuild {
        Rebuild::Memory
    }
}

fn living_of(number: Option<ChildNumber>, act: Option<Act>) -> Option<KnownChild>
    ensures { result ≡ living_of number act }
{
    let number = number?;
    Some(KnownChild { number, act })
}

/// Returns whether a child's number and its action are either both present or both missing, and the starts do not
/// decrease.
fn is_whole(plain: &PlainSlot) -> bool
    ensures { result ≡ is_whole plain.now }
{
    plain.child.is_some() == plain.act.is_some() && is_non_decreasing(plain.starts.as_slice())
}

/// Returns whether the record has the id of the entry, if there is an entry.
fn is_for(entry: Option<&Entry>, plain: &PlainSlot) -> bool
    ensures { result ≡ is_for (option_copied entry.entry) plain.now }
{
    match entry {
        None => true,
        Some(entry) => plain.id == entry.id,
    }
}

/// Rebuilds a record, if it is whole and has the id of the entry.
fn record_read(entry: Option<&Entry>, plain: &PlainSlot) -> Option<Slot>
    ensures { result ≡ record_read (option_copied entry.entry) plain.now }
{
    if !is_for(entry, plain) || !is_whole(plain) {
        return None;
    }
    Some(Slot::of(
        plain.id,
        entry.map(|entry| entry.act),
        living_of(plain.child, plain.act),
        plain.order,
        plain.stop,
        plain.asked,
        plain.called,
        plain.look,
        plain.missed,
        plain.starts.as_slice(),
        plain.held_until,
        plain.last,
    ))
}

/// Rebuilds the records: first those of the table's entries, in table order, then those of other ids.
fn records_along<A: Allocator + Copy>(
    alloc: A,
    table: &Table<A>,
    records: &[PlainSlot],
) -> Result<Vec<Slot, A>, Rebuild>
    ensures made { IfOk result (λ slots. slots.items ≡ records_along table.now records.now) }
    ensures whole { OnOk result (are_whole table.now records.now ≡ true) }
    ensures unfit { result ≡ Err rebuild.Unfit → are_whole table.now records.now ≡ false }
{
    if records.len() < table.len() {
        return Err(Rebuild::Unfit);
    }
    let mut slots = Vec::with_capacity(alloc, records.len())?;
    for (position, record) in records.iter().enumerate() {
        let Some(slot) = record_read(table.at(position), record) else {
            return Err(Rebuild::Unfit);
        };
        slots.push(slot)?;
    }
    Ok(slots)
}

impl<A: Allocator + Copy> Core<A> {
    /// Rebuilds the core with this state, if the state obeys the rules (telinit(8), `u`).
    pub fn rebuilt(alloc: A, parts: Parts<A>) -> Result<Core<A>, Rebuild>
        ensures made { IfOk result (λ core. (state_of core ≡ parts) × IsFit core) }
        ensures unfit { result ≡ Err rebuild.Unfit → (core : CoreState) → IsFit core
            → state_of core ≢ parts }
    {
        let Parts {
            fields,
            table,
            records,
        } = parts;
        let bare = CoreValues::made(alloc, fields, table, &records)?;
        Ok(Core::of(bare))
    }
}

impl<A: Allocator + Copy> CoreValues<A> {
    /// Rebuilds the core with these parts, if they obey the rules.
    fn made(
        alloc: A,
        fields: CoreFields,
        table: Table<A>,
        records: &[PlainSlot],
    ) -> Result<CoreValues<A>, Rebuild>
        ensures made { IfOk result (λ core.
            (state_of core ≡ record { fields = fields; table = table; records = records.now })
            × IsFit core) }
        ensures unfit { result ≡ Err rebuild.Unfit → (core : CoreState) → IsFit core
            → state_of core ≢ record { fields = fields; table = table; records = records.now } }
    {
        let slots = records_along(alloc, &table, records)?;
        if !is_kept(&fields, &table, &slots) {
            return Err(Rebuild::Unfit);
        }
        let Some(slots) = Slots::rebuilt(alloc, slots)? else {
            return Err(Rebuild::Unfit);
        };
        Ok(CoreValues::of(fields, table, slots))
    }
}
