//! Carries out the hand-overs of a script: writes init's state, passes it on and takes it over, as in a re-execution.

ghost use Rattle.std.specs.Prelude.{◌≡◌, ◌+◌, ◌∷◌, length, map, true, IfOk, IfSome, None, OnOk, unwrap_or};
ghost use Rattle.trace_events.specs.declared.happenings.Happening.TheVariants as happening;
ghost use Rattle.trace_events.specs.declared.happenings.Handed.{Handed};
ghost use Rattle.simulator.specs.Words.{FitsExtendedTrace, ForAllFittedTraces, state_of, IsFit, after_handed_on, has_short_seconds, IsTextOf};
ghost use Rattle.simulator.specs.Handing.{after_hand, comes_back, has_next, is_made, kept_texts};
ghost use Rattle.simulator.specs.Handing.{objection_handed, taken_of, handed_over_text};
ghost use Rattle.simulator.specs.Texts.{AreMade, CanHand, HasTexts, IsTakenOver};

use crate::objections::Objection;
use core_model::CoreFields;
use core_text::write_state;
use init_words::Memory;
use level_core::Core;
use reexec_state::{StateFault, hand_over, take_over};
use std::alloc::Allocator;
use trace_events::Handed;

/// Returns whether the next generation number is not too large.
fn has_next(generation: u64) -> bool
    ensures { result ≡ has_next generation }
{
    generation < u64::MAX
}

/// Returns whether a state text of the generation was made, if `made` texts were made.
fn is_made(generation: u64, made: u64) -> bool
    ensures { result ≡ is_made generation made }
{
    1 <= generation && generation <= made
}

/// Returns the length of the text that a hand-over would write.
fn size_made<A: Allocator + Copy>(alloc: A, core: &Core<A>) -> Result<u64, Memory>
    requires { has_next core.now.fields.generation ≡ true }
    ensures { IfOk result (λ size. size ≡ length (handed_over_text core.now)) }
{
    let fields = CoreFields {
        generation: core.generation() + 1,
        reexec: false,
        ..core.fields()
    };
    let text = write_state(alloc, &fields, core.table(), core.slots().as_slice())?;
    Ok(text.len() as u64)
}

/// Returns the objection to a hand-over of the core's state, if any. The core's generation is the number of texts made
/// before.
pub(crate) fn objection_handed<A: Allocator + Copy>(
    alloc: A,
    core: &Core<A>,
    how: Handed,
) -> Result<Option<Objection>, Memory>
    ensures { IfOk result (λ objection. objection
        ≡ objection_handed core.now.fields.generation (length (handed_over_text core.now)) how) }
{
    if how == Handed::Failed {
        return Ok(None);
    }
    if !has_next(core.generation()) {
        return Ok(Some(Objection::Worn));
    }
    match how {
        Handed::Cut(bytes) if bytes >= size_made(alloc, core)? => {
            Ok(Some(Objection::NotCut(bytes)))
        }
        Handed::Older(generation) if !is_made(generation, core.generation()) => {
            Ok(Some(Objection::NoneOlder(generation)))
        }
        _ => Ok(None),
    }
}

/// Writes the core's state for the next init.
fn make_text<A: Allocator + Copy>(alloc: A, core: &mut Core<A>) -> Result<Vec<u8, A>, Memory>
    requires short { has_short_seconds core.old ≡ true }
    requires next { has_next core.old.fields.generation ≡ true }
    ensures text { IfOk result (λ text. text.items ≡ handed_over_text core.old) }
    ensures state { OnOk result (core.new ≡ after_handed_on core.old) }
    ensures fits { OnOk result (ForAllFittedTraces core.old (λ goal past. (how : Handed)
        → FitsExtendedTrace core.old core.new goal past (happening.Handed how ∷ past))) }
    ensures says { IfOk result (λ text. IsTextOf text.items (state_of core.new)) }
    ensures fit { OnOk result (IsFit core.new) }
{
    match hand_over(alloc, core) {
        Ok(text) => Ok(text),
        Err(StateFault::Memory) => Err(Memory),
        Err(_) => unreachable!(),
    }
}

/// Takes over the core from the text that came back. Returns `None` if it represents no core of this generation.
fn taken<A: Allocator + Copy>(
    alloc: A,
    back: &[u8],
    generation: u64,
) -> Result<Option<Core<A>>, Memory>
    ensures { IfOk result (λ taken. IsTakenOver back.now generation taken) }
{
    match take_over(alloc, back, generation) {
        Ok(taken) => Ok(Some(taken)),
        Err(StateFault::Memory) => Err(Memory),
        Err(_) => Ok(None),
    }
}

/// Passes the core's text on: it comes back whole or cut, or an older one of the texts in `made` comes back in its
/// place. Returns the core that the next init takes over, which is equal to this one, or `None` if it rejects the text.
fn carry<A: Allocator + Copy>(
    alloc: A,
    core: &Core<A>,
    text: &[u8],
    made: &[Vec<u8, A>],
    how: Handed,
) -> Result<Option<Core<A>>, Memory>
    requires says { IsTextOf text.now (state_of core.now) }
    requires fit { IsFit core.now }
    requires made { AreMade (map (λ text. text.items) made.now) }
    requires next { core.now.fields.generation ≡ length made.now + 1 }
    requires may { objection_handed (length made.now) (length text.now) how ≡ None }
    ensures back { IfOk result (λ taken. IfSome (comes_back how text.now
        (map (λ text. text.items) made.now))
        (λ back. IsTakenOver back core.now.fields.generation taken)) }
    ensures taken { IfOk result (λ taken. taken ≡ taken_of how core.now) }
{
    let generation = core.generation();
    match how {
        Handed::Whole => taken(alloc, text, generation),
        Handed::Cut(bytes) => taken(alloc, &text[..bytes as usize], generation),
        Handed::Older(older) => taken(alloc, made[(older - 1) as usize].as_slice(), generation),
        Handed::Failed => Ok(None),
    }
}

/// Continues with the core that was taken over, or with the old one if there is none.
fn go_on_as<A: Allocator>(core: &mut Core<A>, taken: Option<Core<A>>)
    ensures { core.new ≡ unwrap_or taken core.old }
{
    if let Some(taken) = taken {
        *core = taken;
    }
}

/// Hands the core over as the script line specifies, and keeps the text in `made`. If the text comes back whole, the
/// run continues with the core taken over; otherwise the text is rejected and the old core continues.
pub(crate) fn hand_core<A: Allocator + Copy>(
    alloc: A,
    core: &mut Core<A>,
    made: &mut Vec<Vec<u8, A>, A>,
    how: Handed,
) -> Result<(), Memory>
    requires can { CanHand how core.old }
    requires made { HasTexts (map (λ text. text.items) made.old.items) core.old.fields.generation }
    ensures state { OnOk result (core.new ≡ after_hand how core.old) }
    ensures fits { OnOk result (ForAllFittedTraces core.old (λ goal past.
        FitsExtendedTrace core.old core.new goal past (happening.Handed how ∷ past))) }
    ensures made { OnOk result
        (HasTexts (map (λ text. text.items) made.new.items) core.new.fields.generation) }
    ensures kept { OnOk result (map (λ text. text.items) made.new.items
        ≡ kept_texts how core.old (map (λ text. text.items) made.old.items)) }
{
    if let Handed::Failed = how {
        core.not_handed();
        return Ok(());
    }
    let text = make_text(alloc, core)?;
    let taken = carry(alloc, core, &text, made, how)?;
    go_on_as(core, taken);
    made.push(text)?;
    Ok(())
}
