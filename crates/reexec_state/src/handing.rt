//! Writes the state of a core as a text for the next init.

ghost use Rattle.std.specs.List.{list_all};
ghost use Rattle.std.specs.Prelude.{◌≡◌, true, map, ◌+◌, ◌^◌, ◌==◌, ◌∷◌, if◌then◌else◌, false, Err, IfOk, IfErr, OnOk, OnErr};
ghost use Rattle.child_table.specs.State.{child_number};
ghost use Rattle.trace_events.specs.Range.{is_status};
ghost use Rattle.trace_events.specs.declared.happenings.Handed.{Handed};
ghost use Rattle.trace_events.specs.declared.happenings.Happening.TheVariants as happening;
ghost use Rattle.core_model.specs.Fit.{FitsExtendedTrace, ForAllFittedTraces};
ghost use Rattle.core_model.specs.Parts.{record_of, state_of};
ghost use Rattle.core_model.specs.Rules.{IsFit};
ghost use Rattle.core_model.specs.Steps.{after_handed_on};
ghost use Rattle.core_text.specs.declared.state_fault.StateFault.TheVariants as fault;
ghost use Rattle.core_text.specs.Lines.{state_text};
ghost use Rattle.core_text.specs.Range.{has_ranged_words, has_short_seconds, is_child, passes};
ghost use Rattle.core_text.specs.declared.versions.Version.TheVariants.{V2};
ghost use Rattle.core_text.specs.Refused.{IsTextIn};

use child_table::Slot;
use core_model::CoreFields;
use core_text::{StateFault, write_state};
use init_words::{Memory, Status};
use level_core::Core;
use std::alloc::Allocator;

/// Returns the fields with which the next init begins: its generation is one higher, and re-execution is no longer
/// requested.
fn next_fields(fields: CoreFields) -> Result<CoreFields, StateFault>
    ensures next { IfOk result (λ next.
        next ≡ record fields { generation = fields.generation + 1; reexec = false }) }
    ensures worn { fields.generation + 1 ≡ 2 ^ 64 → result ≡ Err fault.Worn }
    ensures refused { IfErr result (λ why. (why ≡ fault.Worn) × (fields.generation + 1 ≡ 2 ^ 64)) }
{
    let generation = fields.generation.checked_add(1).ok_or(StateFault::Worn)?;
    Ok(CoreFields {
        generation,
        reexec: false,
        ..fields
    })
}

/// States that the number of a child fits in its type.
fn of_child(slot: &Slot)
    ensures { passes is_child (child_number slot.now) ≡ true }
{
    if let Some(number) = slot.child() {
        let _number = number.0;
    }
}

/// States that an exit status fits in its type.
fn of_status(status: Status)
    ensures { is_status status ≡ true }
{
    if let Status::Exit(code) = status {
        let _code = code;
    }
}

fn of_last(slot: &Slot)
    ensures { passes is_status slot.now.last ≡ true }
{
    if let Some(status) = slot.last() {
        of_status(status);
    }
}

/// States that the id of a record is valid, and that the number of its child and its last status fit in their
/// types.
fn of_record(slot: &Slot)
    ensures { has_ranged_words slot.now ≡ true }
{
    let _ = slot.id().as_bytes();
    of_child(slot);
    of_last(slot);
}

/// States the law of `of_record` for all records. The function does nothing: its contract is the law.
fn law_of_records(slots: &[Slot])
    ensures { list_all has_ranged_words slots.now ≡ true }
{
    for slot in slots {
        of_record(slot);
    }
}

/// Writes the text of the core's state, with its fields replaced by these.
fn text_of<A: Allocator + Copy, B: Allocator>(
    alloc: A,
    fields: &CoreFields,
    core: &Core<B>,
) -> Result<Vec<u8, A>, Memory>
    ensures { IfOk result (λ text. text.items ≡ state_text (record {
      fields = fields.now;
      table = core.now.table;
      records = map record_of core.now.slots;
    })) }
{
    write_state(alloc, fields, core.table(), core.slots().as_slice())
}

/// Hands over init's state: returns the version 2 text of the state with which the next init begins. The generation is
/// one higher, and re-execution is no longer requested.
///
/// Fails with `Worn` if there is no higher generation, and with `Memory` if memory allocation fails. If it fails,
/// nothing changes.
pub fn hand_over<A: Allocator + Copy, B: Allocator>(
    alloc: A,
    core: &mut Core<B>,
) -> Result<Vec<u8, A>, StateFault>
    ensures text { IfOk result (λ text. text.items ≡ state_text (state_of core.new)) }
    ensures state { OnOk result (core.new ≡ after_handed_on core.old) }
    ensures worn { core.old.fields.generation + 1 ≡ 2 ^ 64 → result ≡ Err fault.Worn }
    ensures refused { IfErr result (λ why.
        why ≡ (if core.old.fields.generation + 1 == 2 ^ 64 then fault.Worn else fault.Memory)) }
    ensures unchanged { OnErr result (core.new ≡ core.old) }
    ensures fits { OnOk result (ForAllFittedTraces core.old (λ goal past. (how : Handed)
        → FitsExtendedTrace core.old core.new goal past (happening.Handed how ∷ past))) }
    // The next init can take over the returned text.
    ensures said { IfOk result (λ text. has_short_seconds core.old ≡ true
        → IsTextIn V2 text.items (state_of core.new) × IsFit core.new) }
{
    core.law_of_rules();
    let fields = next_fields(core.fields())?;
    let _ = core.table().len();
    law_of_records(core.slots().as_slice());
    let text = text_of(alloc, &fields, core)?;
    core.handed_on();
    Ok(text)
}
