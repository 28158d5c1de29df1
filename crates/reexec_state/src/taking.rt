//! Takes over the state of the previous init from its text.

ghost use Rattle.std.specs.Prelude.{◌≡◌, Err, IfOk, IfErr};
ghost use Rattle.std.specs.Result.{MatchResult};
ghost use Rattle.core_model.specs.Parts.{state_of};
ghost use Rattle.core_model.specs.Rules.{IsFit};
ghost use Rattle.core_model.specs.State.{CoreState};
ghost use Rattle.core_text.specs.declared.state_fault.StateFault.TheVariants as fault;
ghost use Rattle.core_text.specs.Refused.{IsCut, IsOtherVersion, IsTextOf};
ghost use Rattle.reexec_state.specs.Taken.{NotTaken};

use core_text::{StateFault, read_state};
use level_core::{Core, Rebuild};
use std::alloc::Allocator;

/// Rebuilds the core of this generation from the text of its state.
///
/// The fault names the first check that fails: first the checks of `read_state`, then whether the state obeys the rules
/// of init (`Unfit`). A text of version 1 does not record how the last children ended, so the core has no last
/// statuses.
pub fn take_over<A: Allocator + Copy>(
    alloc: A,
    text: &[u8],
    generation: u64,
) -> Result<Core<A>, StateFault>
    ensures taken { IfOk result (λ core. IsTextOf text.now (state_of core)) }
    ensures kept { IfOk result (λ core. IsFit core) }
    ensures generation { IfOk result (λ core. core.fields.generation ≡ generation) }
    // If the text represents a core that obeys the rules, the result is this core.
    ensures only { (core : CoreState) → IsFit core → IsTextOf text.now (state_of core)
        → core.fields.generation ≡ generation
        → MatchResult result (λ taken. taken ≡ core) (λ why. why ≡ fault.Memory) }
    // A text that is cut short (such as a proper prefix of a text that `hand_over` returned) is rejected as `Cut`, even
    // if no memory is left; and a text of an unknown version is rejected as that.
    ensures cut { IsCut text.now → result ≡ Err fault.Cut }
    ensures version { IsOtherVersion text.now → result ≡ Err fault.Version }
    ensures refused { IfErr result (λ why. NotTaken text.now generation why) }
{
    let parts = read_state(alloc, text, generation)?;
    match Core::rebuilt(alloc, parts) {
        Ok(core) => Ok(core),
        Err(Rebuild::Unfit) => Err(StateFault::Unfit),
        Err(Rebuild::Memory) => Err(StateFault::Memory),
    }
}
