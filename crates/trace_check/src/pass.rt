//! Judges a whole trace in one pass.

ghost use Rattle.std.specs.Prelude.{◌≡◌, IfOk, reverse, []};
ghost use Rattle.trace_events.specs.Lawful.{first_breach};
ghost use Rattle.trace_check.specs.Verdicts.{fault_of};
ghost use Rattle.trace_check.specs.Judging.{Judged};

use crate::laws::Law;
use crate::trace_judges::TraceJudge;
use init_words::Memory;
use std::alloc::Allocator;
use trace_events::HappeningIn;

/// The verdict on a trace.
#[derive(Clone, Copy, PartialEq, Eq)]
pub enum Verdict {
    /// No happening breaks a law.
    Lawful,
    /// The position of the first happening that breaks a law, counted from 0, and the lowest-numbered law that it
    /// breaks.
    Breach(usize, Law),
}

/// Finds the first breach of the seven laws in a trace, given oldest first.
///
/// 1. No child is born to an id that has an unreaped one.
/// 2. No child is born to an id without an entry that starts in the stage.
/// 3. No child is born before the earlier entries that init waits for have ended.
/// 4. No child is born while an excluded child is unreaped.
/// 5. A level is announced settled only when it is settled.
/// 6. An entry that respawns too fast is held instead of started, and no other entry is held.
/// 7. TERM is sent only to an excluded child, and KILL only to one whose grace period after TERM is over.
///
/// The verdict is exact for every list of happenings.
pub fn check<A: Allocator + Copy, B: Allocator>(
    alloc: A,
    trace: &[HappeningIn<B>],
) -> Result<Verdict, Memory>
    ensures { IfOk result (λ verdict. fault_of verdict ≡ first_breach (reverse trace.now)) }
{
    let mut judge = TraceJudge::new(alloc);
    let verdict = first_breach(&mut judge, trace);
    // A single call, because the prover would otherwise go through the fields of the dropped value one by one.
    drop(judge);
    verdict
}

/// Finds the first breach of a trace, using a judge that has not judged anything yet.
fn first_breach<A: Allocator + Copy, B: Allocator>(
    judge: &mut TraceJudge<A>,
    trace: &[HappeningIn<B>],
) -> Result<Verdict, Memory>
    requires { Judged judge.old [] }
    ensures { IfOk result (λ verdict. fault_of verdict ≡ first_breach (reverse trace.now)) }
{
    for (position, happening) in trace.iter().enumerate() {
        if let Some(law) = judge.take(happening)? {
            return Ok(Verdict::Breach(position, law));
        }
    }
    Ok(Verdict::Lawful)
}
