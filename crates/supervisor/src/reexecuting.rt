//! Re-executes init (telinit(8), `u`): hands its state over as a text, and takes over the text that comes back.

ghost use Rattle.std.specs.Prelude.{◌≡◌, ◌∷◌, ℕ, IsTrue, true, List, Some, Ok};
ghost use Rattle.trace_events.specs.declared.happenings.Happening.TheVariants as happening;
ghost use Rattle.trace_events.specs.declared.steps.Step.TheVariants as step;
ghost use Rattle.supervisor.specs.Words.{Event, SavedState, IsCut, IsOther, IsTextOf, TextRead, Carry, AddsStamped, Grows, ExtendsLogFromCore, TookFirstDueStep, Logs, Tracks, is_outcome};
ghost use Rattle.core_text.specs.Range.{has_short_seconds};
ghost use Rattle.core_text.specs.Reading.{generation_of};
ghost use Rattle.core_text.specs.declared.state_fault.StateFault.TheVariants as fault;
ghost use Rattle.reexec_state.specs.Taken.{NotTaken};
ghost use Rattle.supervisor.specs.Parts.{HandOverYields, IsStep, MadeCallsLead, AnnouncesRefusal};

use crate::edges::Edge;
use host_calls::Host;
use level_core::Core;
use reexec_state::{StateFault, generation_of, hand_over, take_over};
use std::alloc::Allocator;
use trace_events::{Handed, Happening};
use trace_log::Log;

/// Returns the outcome for a text that did not come back unchanged: `Cut` if a proper prefix of it came back, and
/// otherwise `Failed`.
fn cut_back(text: &[u8], back: &[u8]) -> Handed
    ensures { IsTrue (is_outcome result text.now (Ok back.now)) }
{
    if text.starts_with(back) && back.len() < text.len() {
        Handed::Cut(back.len() as u64)
    } else {
        Handed::Failed
    }
}

/// Returns the outcome if a text of another generation came back.
fn older_back(back: &[u8]) -> Handed
    ensures { (text : List ℕ) (generation : ℕ) → generation_of text ≡ Some generation
        → IsOther back.now generation → IsTrue (is_outcome result text (Ok back.now)) }
{
    match generation_of(back) {
        Some(generation) => Handed::Older(generation),
        None => Handed::Failed,
    }
}

/// Returns the outcome if the returned text `back` was rejected for the reason `why`. A text that came back cut short
/// is rejected because it is cut.
fn refused(text: &[u8], back: &[u8], why: StateFault) -> Handed
    ensures { (state : SavedState) → IsTextOf text.now state
        → NotTaken back.now state.fields.generation why → (IsCut back.now → why ≡ fault.Cut)
        → IsTrue (is_outcome result text.now (Ok back.now)) }
{
    match why {
        StateFault::Cut => cut_back(text, back),
        StateFault::Generation => older_back(back),
        _ => Handed::Failed,
    }
}

/// Takes over the state in the returned text `back`, and returns the outcome. If it is rejected, the core is unchanged.
fn take_back<A: Allocator + Copy>(alloc: A, core: &mut Core<A>, text: &[u8], back: &[u8]) -> Handed
    ensures comes { HandOverYields result text.now (Ok back.now) core.old core.new }
    ensures short { has_short_seconds core.old ≡ true → has_short_seconds core.new ≡ true }
{
    match take_over(alloc, back, core.generation()) {
        Ok(next) => {
            *core = next;
            Handed::Whole
        }
        Err(why) => refused(text, back, why),
    }
}

/// Hands over the text of the core's state, takes over the text that comes back, and returns the outcome.
fn carry<A: Allocator + Copy, H: Host, L: Log>(
    alloc: A,
    core: &mut Core<A>,
    edge: &mut Edge<H, L>,
    text: &[u8],
) -> Handed
    ensures comes { (back : TextRead)
        × AddsStamped edge.old.told edge.new.told (Carry text.now back) edge.old.log
        × HandOverYields result text.now back core.old core.new }
    ensures short { has_short_seconds core.old ≡ true → has_short_seconds core.new ≡ true }
    ensures log { edge.new.log ≡ edge.old.log }
    ensures settings { H.settings edge.new.host ≡ H.settings edge.old.host }
{
    match edge.carry(alloc, text) {
        Ok(back) => take_back(alloc, core, text, &back),
        Err(_) => Handed::Failed,
    }
}

/// Writes the outcome of a hand-over to the log, and announces it unless the text was taken over.
fn tell<H: Host, L: Log>(edge: &mut Edge<H, L>, how: Handed)
    ensures log { (past : List Event) →
        Logs (L.state edge.old.log) (L.state edge.new.log) past
        (happening.Handed how ∷ past) }
    ensures said { AnnouncesRefusal how edge.old.told edge.new.told edge.new.log }
    ensures grows { Grows (L.state edge.old.log) (L.state edge.new.log) }
    ensures settings { H.settings edge.new.host ≡ H.settings edge.old.host }
{
    let handed: Happening = Happening::Handed(how);
    edge.write(&handed);
    if how != Handed::Whole {
        edge.announce(&handed);
    }
}

/// Handles a re-execution for which init could not make a text: init continues unchanged.
fn not_handed<A: Allocator, H: Host, L: Log>(core: &mut Core<A>, edge: &mut Edge<H, L>)
    ensures makes { MadeCallsLead L.state edge.old edge.new
        IsStep (TookFirstDueStep (Tracks core.old) step.Reexec) (Tracks core.new) }
    ensures grows { ExtendsLogFromCore core.old core.new (L.state edge.old.log)
        (L.state edge.new.log) }
    ensures settings { H.settings edge.new.host ≡ H.settings edge.old.host }
{
    core.not_handed();
    tell(edge, Handed::Failed);
}

/// Re-executes init. If init cannot make the text, or rejects the text that comes back, it continues unchanged.
pub(crate) fn reexec<A: Allocator + Copy, H: Host, L: Log>(
    alloc: A,
    core: &mut Core<A>,
    edge: &mut Edge<H, L>,
)
    ensures makes { MadeCallsLead L.state edge.old edge.new
        IsStep (TookFirstDueStep (Tracks core.old) step.Reexec) (Tracks core.new) }
    ensures grows { ExtendsLogFromCore core.old core.new (L.state edge.old.log)
        (L.state edge.new.log) }
    ensures settings { H.settings edge.new.host ≡ H.settings edge.old.host }
{
    let Ok(text) = hand_over(alloc, core) else {
        return not_handed(core, edge);
    };
    let how = carry(alloc, core, edge, &text);
    tell(edge, how);
}
